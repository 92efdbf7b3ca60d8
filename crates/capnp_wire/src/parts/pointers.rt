//! The pointers of a struct or of a list, one after another.
ghost use Rattle.std.specs.Prelude.{◌≡◌, ◌/◌, ◌≤◌, ◌^◌, length, min};
ghost use Rattle.capnp_wire.specs.Tree.{NoTrees, nth_tree, only_tree, tree_count};
ghost use Rattle.capnp_wire.specs.Found.{pointer_tree, pointer_trees};

use crate::parts::pointer::Pointer;
use crate::parts::row::Pointers;

/// No pointers.
#[inline(always)]
pub fn no_pointers<'a>() -> Pointers<'a>
    ensures { pointer_trees result ≡ NoTrees }
{
    Pointers {
        is_stream: false,
        depth: 0,
        count: 0,
        bytes: &[],
        segment: &[],
        first: 0,
    }
}

/// How many pointers there are.
#[inline(always)]
pub fn count_pointers(pointers: Pointers<'_>) -> usize
    ensures { result ≡ tree_count (pointer_trees pointers.entry) }
{
    pointers.count as usize
}

/// The place of pointer `index`, null past the end.
#[inline(always)]
pub fn get_pointer(pointers: Pointers<'_>, index: usize) -> Pointer<'_>
    ensures { pointer_tree result ≡ nth_tree (pointer_trees pointers.entry) index }
{
    if index >= pointers.count as usize {
        return Pointer::Null;
    }
    Pointer::Word {
        is_stream: pointers.is_stream,
        depth: pointers.depth,
        bytes: pointers.bytes,
        segment: pointers.segment,
        index: pointers.first + index,
    }
}

/// A word of a segment, or the first past its end: from there on all are alike.
fn get_capped(segment: &[u8], index: usize) -> usize
    ensures value { result ≡ min index (length segment.now / 8) }
    ensures fits { result ≤ 2 ^ 60 }
{
    index.min(segment.len() / 8)
}

/// The pointer at `index` alone, none past the end.
pub fn get_only_pointer(pointers: Pointers<'_>, index: usize) -> Pointers<'_>
    ensures { pointer_trees result ≡ only_tree (pointer_trees pointers.entry) index }
{
    if index >= pointers.count as usize {
        return no_pointers();
    }
    Pointers {
        is_stream: pointers.is_stream,
        depth: pointers.depth,
        count: 1,
        bytes: pointers.bytes,
        segment: pointers.segment,
        first: get_capped(pointers.segment, pointers.first + index),
    }
}
