//! Data: bytes as they are read.
ghost use Rattle.std.specs.Prelude.{◌≡◌};
ghost use Rattle.capnp_wire.specs.Reading.{as_data};
ghost use Rattle.capnp_wire.specs.Standing.{bytes_read};
ghost use Rattle.capnp_base.specs.Types.{base_type};
ghost use Rattle.capnp_base.specs.declared.introspect.BaseType.TheVariants as base;

use crate::introspect::{Introspect, Type, TypeVariant};
use crate::traits::FromPointerReader;
use capnp_wire::PointerReader;
use capnp_wire::error::Result;

/// The type of data.
#[derive(Clone, Copy)]
pub struct Owned {
    _private: (),
}

impl Introspect for Owned {
    ghost type_of = { base_type base.Data };

    fn introspect() -> Type {
        Type::from(TypeVariant::Data)
    }
}

/// The bytes of data.
pub type Reader<'a> = &'a [u8];

impl<'a> FromPointerReader<'a> for &'a [u8] {
    ghost reads = { λ tree _ result. bytes_read result ≡ as_data tree };

    fn get_from_pointer(
        reader: &PointerReader<'a>,
        default: Option<PointerReader<'a>>,
    ) -> Result<&'a [u8]> {
        match default {
            Some(other) if reader.is_null() => other.get_data(),
            _ => reader.get_data(),
        }
    }
}
