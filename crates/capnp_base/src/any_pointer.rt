//! Untyped pointers: what is read there is asked with a type.
ghost use Rattle.std.specs.Prelude.{◌≡◌, IfErr, IfOk};
ghost use Rattle.capnp_wire.specs.Reading.{is_null_tree};
ghost use Rattle.capnp_wire.specs.Standing.{levels_of, tree_of};
ghost use Rattle.capnp_wire.specs.Total.{IsSize, IsSizeRefusal};
ghost use Rattle.capnp_wire.specs.Words.{first_fault, words_of};
ghost use Rattle.capnp_base.specs.AnyPointer.{IsUntypedRead, pointer_of};
ghost use Rattle.capnp_base.specs.Types.{base_type};
ghost use Rattle.capnp_base.specs.declared.introspect.BaseType.TheVariants as base;

use crate::introspect::{Introspect, Type, TypeVariant};
use crate::traits::FromPointerReader;
use capnp_wire::PointerReader;
use capnp_wire::error::Result;
use capnp_wire::size::MessageSize;

/// The type of untyped pointers.
#[derive(Clone, Copy)]
pub struct Owned {
    _private: (),
}

impl Introspect for Owned {
    ghost type_of = { base_type base.AnyPointer };

    fn introspect() -> Type {
        Type::from(TypeVariant::AnyPointer)
    }
}

/// A pointer that is read, of whatever type.
#[derive(Clone, Copy)]
pub struct Reader<'a> {
    reader: PointerReader<'a>,
}

impl<'a> Reader<'a> {
    /// An untyped pointer that stands on a pointer's reader.
    pub fn new(reader: PointerReader<'a>) -> Reader<'a>
        ensures { pointer_of result ≡ reader.entry }
    {
        Reader { reader }
    }

    /// The reader that it stands on.
    pub fn get_pointer(self) -> PointerReader<'a>
        ensures { result ≡ pointer_of self.entry }
    {
        self.reader
    }

    /// Whether the pointer is null. A pointer that can't be followed is not.
    pub fn is_null(&self) -> bool
        ensures { result ≡ is_null_tree (tree_of (pointer_of self.now)) }
    {
        self.reader.is_null()
    }

    /// The size of all that the pointer leads to, as `PointerReader::total_size`, and refused as that is.
    pub fn target_size(&self) -> Result<MessageSize>
        ensures size { IfOk result (λ size. IsSize size (first_fault (tree_of (pointer_of self.now)))
            (words_of (tree_of (pointer_of self.now)))) }
        ensures refused { IfErr result (λ e. IsSizeRefusal e (first_fault (tree_of (pointer_of self.now)))
            (words_of (tree_of (pointer_of self.now)))) }
    {
        self.reader.total_size()
    }

    /// What the pointer leads to, read as a `T`, without a default. Refused as `T`'s read.
    pub fn get_as<T: FromPointerReader<'a>>(&self) -> Result<T>
        ensures { T.reads (tree_of (pointer_of self.now)) (levels_of (pointer_of self.now)) result }
    {
        T::get_from_pointer(&self.reader, None)
    }
}

impl<'a> FromPointerReader<'a> for Reader<'a> {
    ghost reads = { IsUntypedRead };

    ghost has_defaults = { ⊥ };

    fn get_from_pointer(
        reader: &PointerReader<'a>,
        _default: Option<PointerReader<'a>>,
    ) -> Result<Reader<'a>> {
        Ok(Reader { reader: *reader })
    }
}
