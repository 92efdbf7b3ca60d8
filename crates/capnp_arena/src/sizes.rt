//! Sizes of what is built.

use crate::arena::{Arena, Place};
use crate::count::{count_row, count_words};
use capnp_device::error::{Error, ErrorKind, Result};
use capnp_wire::parts::pointer::MEMORY_DEPTH;
use capnp_wire::size::MessageSize;

impl Arena {
    ghost use Rattle.std.specs.Prelude.{IfErr, IfOk, IsOk, None, ◌≡◌};
    ghost use Rattle.capnp_device.specs.declared.error.ErrorKind.TheVariants.{OutOfMemory};
    ghost use Rattle.capnp_wire.specs.Depth.{AreBelow, IsBelow, memory_depth};
    ghost use Rattle.capnp_wire.specs.Total.{IsSize};
    ghost use Rattle.capnp_wire.specs.Words.{words_of, words_of_struct};
    ghost use Rattle.capnp_arena.specs.Forest.{Forest, Planted, struct_from, tree};
    ghost use Rattle.capnp_arena.specs.Segment.{segment};
    ghost use Rattle.capnp_arena.specs.Shape.{StructIn};

    /// The size of a struct with all that its pointers lead to: its data and its pointers, and the targets, the tag of
    /// a composite list with them. There are no capabilities. Takes no memory.
    ///
    /// Refused with `OutOfMemory` exactly where one of its pointers leads more than 129 levels down.
    ///
    /// # Conditions
    ///
    /// The place is that of a struct of this message (`Planted`).
    pub fn total_size(&self, place: Place) -> Result<MessageSize>
        requires planted { Planted (segment self.now) (StructIn place.start place.data_words place.pointers) }
        ensures size { IfOk result (λ size. IsSize size None
            (words_of_struct (struct_from (segment self.now) place.start place.data_words place.pointers))) }
        ensures succeeds { AreBelow memory_depth
            (struct_from (segment self.now) place.start place.data_words place.pointers).pointers → IsOk result }
        ensures cause { IfErr result (λ e. (e.kind ≡ OutOfMemory) × (AreBelow memory_depth
            (struct_from (segment self.now) place.start place.data_words place.pointers).pointers → ⊥)) }
    {
        let own = place.data_words as u64 + place.pointers as u64;
        let first = place.start + place.data_words as usize;
        let Some(below) = count_row(
            self.bytes.as_slice(),
            first,
            place.pointers as usize,
            MEMORY_DEPTH,
        ) else {
            return Err(Error::from(ErrorKind::OutOfMemory));
        };
        Ok(MessageSize {
            word_count: own + below,
            cap_count: 0,
        })
    }

    /// The size of all that the pointer at a word leads to, without the pointer itself: 0 words for a null. It counts
    /// and is refused as `total_size`.
    ///
    /// # Conditions
    ///
    /// The pointer at the word leads to a tree of this message, no two of whose parts share a word (`Forest`).
    pub fn target_size(&self, at: usize) -> Result<MessageSize>
        requires forest { Forest (segment self.now) at }
        ensures size { IfOk result (λ size. IsSize size None (words_of (tree (segment self.now) at))) }
        ensures succeeds { IsBelow memory_depth (tree (segment self.now) at) → IsOk result }
        ensures cause { IfErr result (λ e. (e.kind ≡ OutOfMemory)
            × (IsBelow memory_depth (tree (segment self.now) at) → ⊥)) }
    {
        let Some(words) = count_words(self.bytes.as_slice(), at) else {
            return Err(Error::from(ErrorKind::OutOfMemory));
        };
        Ok(MessageSize {
            word_count: words,
            cap_count: 0,
        })
    }
}
