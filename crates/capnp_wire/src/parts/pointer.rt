//! Where one pointer stands, and what it stands for.
ghost use Rattle.std.specs.Prelude.{◌≡◌};
ghost use Rattle.capnp_wire.specs.Place.{root_tree};
ghost use Rattle.capnp_wire.specs.Backing.{segment_list};
ghost use Rattle.capnp_wire.specs.Found.{found_tree, pointer_tree};

use crate::fault::Fault;
use crate::parts::found::Found;
use crate::parts::look::look_at_word;
use crate::parts::segments::{Segments, get_first_segment};

// A reader is copied by each step of a read. So the parts of `Segments` stand one by one below, and the small ones
// first, where they take no room beside the number of the variant.

/// Where a pointer stands.
#[derive(Clone, Copy)]
pub enum Pointer<'a> {
    Null,
    Bad(Fault),
    /// A word of a segment, whose tree has one level less than `depth`.
    Word {
        is_stream: bool,
        depth: u8,
        bytes: &'a [u8],
        segment: &'a [u8],
        index: usize,
    },
}

/// What stands at a place.
#[inline(always)]
pub fn look(pointer: Pointer<'_>) -> Found<'_>
    ensures { found_tree result ≡ pointer_tree pointer.entry }
{
    match pointer {
        Pointer::Null => Found::Null,
        Pointer::Bad(fault) => Found::Bad(fault),
        Pointer::Word {
            depth,
            is_stream,
            bytes,
            segment,
            index,
        } => look_at_word(Segments { bytes, is_stream }, segment, index, depth),
    }
}

/// The levels of a message's root pointer.
pub const MESSAGE_LEVELS: u8 = 64;

/// One more than the levels of a message in memory that a reader or a walk goes down.
pub const MEMORY_DEPTH: u8 = 130;

/// The place of a message's root pointer: the first word of its first segment.
#[tactic(auto, unfolding(crate::specs::Place::tree_below))]
pub fn get_root_pointer(segments: Segments<'_>) -> Pointer<'_>
    ensures { pointer_tree result ≡ root_tree (segment_list segments.entry) }
{
    Pointer::Word {
        depth: MESSAGE_LEVELS + 1,
        is_stream: segments.is_stream,
        bytes: segments.bytes,
        segment: get_first_segment(segments),
        index: 0,
    }
}
