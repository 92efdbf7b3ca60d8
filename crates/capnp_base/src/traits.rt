//! What handles have in common: how they are read at a pointer.
//!
//! A clause speaks of the tree that a pointer leads to and of the levels that are left below it. Each trait has ghost
//! members that say what its calls answer in these terms, so that generic code knows it too.
ghost use Rattle.std.specs.Prelude.{◌≡◌, ℕ, IsSome, Result};
ghost use Rattle.capnp_wire.specs.declared.list_reader.ListReader.{ListReader};
ghost use Rattle.capnp_wire.specs.declared.pointer_reader.PointerReader.{PointerReader};
ghost use Rattle.capnp_wire.specs.declared.struct_reader.StructReader.{StructReader};
ghost use Rattle.capnp_device.specs.declared.error.Error.{Error};
ghost use Rattle.capnp_wire.specs.Tree.{Tree};
ghost use Rattle.capnp_wire.specs.Standing.{levels_of, tree_of};
ghost use Rattle.capnp_base.specs.Traits.{tree_or};
ghost use Rattle.capnp_base.specs.Steps.Traits.{levels_or};

pub mod iterators;

use crate::introspect::Introspect;
use capnp_wire::error::Result;
use capnp_wire::size::StructSize;
use capnp_wire::{ListReader, PointerReader, StructReader};
pub use iterators::{Index, IndexIter, IndexMove, ListIter, ShortListIter};

/// A builder of structs of a fixed size.
pub trait HasStructSize {
    const STRUCT_SIZE: StructSize;
}

/// A type that a schema gave a number of its own.
pub trait HasTypeId {
    const TYPE_ID: u64;
}

/// A handle over a struct's reader.
pub trait IntoInternalStructReader<'a> {
    // The reader that the handle stands on.
    ghost inner_struct: { Self → StructReader };

    /// The reader that the handle stands on.
    fn into_internal_struct_reader(self) -> StructReader<'a>
        ensures { result ≡ inner_struct self };
}

/// A handle over a list's reader.
pub trait IntoInternalListReader<'a> {
    // The reader that the handle stands on.
    ghost inner_list: { Self → ListReader };

    /// The reader that the handle stands on.
    fn into_internal_list_reader(self) -> ListReader<'a>
        ensures { result ≡ inner_list self };
}

/// What is read at a pointer.
pub trait FromPointerReader<'a>: Sized {
    // What a read answers at a tree with so many levels left.
    ghost reads: { Tree → ℕ → Result Self Error → Type 0 };

    // Whether a default can be read in place of a null.
    ghost has_defaults: { Type 0 } = { Unit {0} };

    /// Reads what the pointer leads to, or the default where the pointer is null and a default is given.
    ///
    /// # Conditions
    ///
    /// A default is given only where the type has some (`has_defaults`).
    fn get_from_pointer(
        reader: &PointerReader<'a>,
        default: Option<PointerReader<'a>>,
    ) -> Result<Self>
        requires { IsSome default → has_defaults }
        ensures { reads (tree_or (tree_of reader.now) default.entry)
            (levels_or (tree_of reader.now) (levels_of reader.now) default.entry) result };
}

/// A struct type, by its reader.
pub trait OwnedStruct<'a>: Introspect {
    type Reader: From<StructReader<'a>> + IntoInternalStructReader<'a>;
}
