//! Values that stand in a data section.
ghost use Rattle.std.specs.Prelude.{◌≡◌};
ghost use Rattle.capnp_schema.specs.Schema.{Schemas};
ghost use Rattle.capnp_schema.specs.Types.{seen_variant};
ghost use Rattle.capnp_records.specs.Given.{given_slot};
ghost use Rattle.capnp_records.specs.Writes.Contents.{SourceFits};
ghost use Rattle.capnp_slots.specs.Primitives.{primitive_source};
ghost use Rattle.capnp_slots.specs.Steps.Primitives.{GivesAtOnce, GivesNumber, refusal_at};

use capnp_base::introspect::TypeVariant;
use capnp_wire::error::{Error, ErrorKind, Result};

/// A value that no pointer stands for: nothing, a truth value, an integer, or the number of an enum.
#[derive(Clone, Copy, Debug, PartialEq, Eq)]
pub enum Primitive {
    Void,
    Bool(bool),
    Int8(i8),
    Int16(i16),
    Int32(i32),
    Int64(i64),
    UInt8(u8),
    UInt16(u16),
    UInt32(u32),
    UInt64(u64),
    Enum(u16),
}

/// What the Rust type of a value says of its number.
#[inline(always)]
pub(crate) fn number_fits(value: Primitive)
    ensures { SourceFits (primitive_source value) }
{
    match value {
        Primitive::Void => {}
        Primitive::Bool(_) => {}
        Primitive::Int8(_x) => {}
        Primitive::Int16(_x) => {}
        Primitive::Int32(_x) => {}
        Primitive::Int64(_x) => {}
        Primitive::UInt8(_x) => {}
        Primitive::UInt16(_x) => {}
        Primitive::UInt32(_x) => {}
        Primitive::UInt64(_x) => {}
        Primitive::Enum(_x) => {}
    }
}

/// The number that a slot of a type stores for a value, but for its default. None where the type is another one than
/// the value's, and for an untyped pointer: what a set is then refused with is `refusal_at`. A void slot takes every
/// value.
#[inline(always)]
pub(crate) fn number_at_once(variant: TypeVariant, value: Primitive) -> Option<u64>
    ensures { (schemas : Schemas) → GivesAtOnce (seen_variant variant)
        (given_slot schemas (seen_variant variant) (primitive_source value)) result }
{
    match variant {
        TypeVariant::Void => Some(0),
        TypeVariant::Bool => match value {
            Primitive::Bool(x) => Some(x as u64),
            _ => None,
        },
        TypeVariant::Int8 => match value {
            Primitive::Int8(x) => Some(x.cast_unsigned() as u64),
            _ => None,
        },
        TypeVariant::Int16 => match value {
            Primitive::Int16(x) => Some(x.cast_unsigned() as u64),
            _ => None,
        },
        TypeVariant::Int32 => match value {
            Primitive::Int32(x) => Some(x.cast_unsigned() as u64),
            _ => None,
        },
        TypeVariant::Int64 => match value {
            Primitive::Int64(x) => Some(x.cast_unsigned()),
            _ => None,
        },
        TypeVariant::UInt8 => match value {
            Primitive::UInt8(x) => Some(x as u64),
            _ => None,
        },
        TypeVariant::UInt16 => match value {
            Primitive::UInt16(x) => Some(x as u64),
            _ => None,
        },
        TypeVariant::UInt32 => match value {
            Primitive::UInt32(x) => Some(x as u64),
            _ => None,
        },
        TypeVariant::UInt64 => match value {
            Primitive::UInt64(x) => Some(x),
            _ => None,
        },
        TypeVariant::Enum(_) => match value {
            Primitive::Enum(x) => Some(x as u64),
            _ => None,
        },
        TypeVariant::AnyPointer => None,
        TypeVariant::Text => None,
        TypeVariant::Data => None,
        TypeVariant::Struct(_) => None,
        TypeVariant::List(_) => None,
    }
}

/// What a slot of a type refuses a value of another kind with.
#[inline(never)]
pub(crate) fn refusal_at(variant: TypeVariant) -> Error
    ensures { result.kind ≡ refusal_at (seen_variant variant) }
{
    match variant {
        TypeVariant::AnyPointer => {
            Error::from(ErrorKind::CannotSetAnyPointerFieldToAPrimitiveValue)
        }
        _ => Error::type_mismatch(),
    }
}

/// The number that a slot of a type stores for a value, but for its default.
///
/// Refused with `CannotSetAnyPointerFieldToAPrimitiveValue` for an untyped pointer, and with `TypeMismatch` where the
/// type is another one than the value's. A void slot takes every value.
pub(crate) fn number_given(variant: TypeVariant, value: Primitive) -> Result<u64>
    ensures { (schemas : Schemas) → GivesNumber (seen_variant variant)
        (given_slot schemas (seen_variant variant) (primitive_source value)) result }
{
    match number_at_once(variant, value) {
        Some(number) => Ok(number),
        None => Err(refusal_at(variant)),
    }
}
