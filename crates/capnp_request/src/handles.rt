//! Structs of a request, and lists of them, each read as one of a brand of the request set.
//!
//! The set is known when this is written, so that no handle holds one.
ghost use Rattle.std.specs.Prelude.{◌≡◌};
ghost use Rattle.capnp_wire.specs.Reading.{list_length};
ghost use Rattle.capnp_wire.specs.Standing.{list_of};

use capnp_wire::{ListReader, StructReader};

/// A struct that is read as one of a brand.
#[derive(Clone, Copy)]
pub(crate) struct RequestRecord<'a> {
    pub(crate) sections: StructReader<'a>,
    pub(crate) brand: u32,
}

/// A list whose elements are read as structs of a brand.
#[derive(Clone, Copy)]
pub(crate) struct RequestList<'a> {
    pub(crate) elements: ListReader<'a>,
    pub(crate) brand: u32,
}

impl RequestList<'_> {
    /// How many elements there are, below 2^29.
    #[inline(always)]
    pub(crate) fn len(&self) -> u32
        ensures { result ≡ list_length (list_of self.now.elements) }
    {
        self.elements.len()
    }
}
