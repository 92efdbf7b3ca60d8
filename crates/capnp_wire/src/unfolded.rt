//! Counts what stands at a place as far as a limit, target by target: targets can be shared, so a few hundred bytes can
//! stand for a tree without end.
ghost use Rattle.std.specs.Prelude.{◌≡◌, ◌<◌, ◌≤◌, ◌+◌, length, MatchOption};
ghost use Rattle.capnp_wire.specs.Found.{element_structs, found_tree, parts_tree, pointer_tree, pointer_trees};
ghost use Rattle.capnp_wire.specs.Standing.{tree_of};
ghost use Rattle.capnp_wire.specs.Steps.Unfolding.{IsLeft};
ghost use Rattle.capnp_wire.specs.Unfolded.{unfolded, unfolded_all, unfolded_elements};

use crate::parts::block::{count_elements, get_element};
use crate::parts::found::{Found, StructParts};
use crate::parts::pointer::{Pointer, look};
use crate::parts::pointers::{count_pointers, get_pointer};
use crate::parts::row::{Elements, Pointers};
use crate::pointer_reader::PointerReader;
use crate::size::StructSize;

/// What is left behind one more and so many.
fn left_of_count(left: u64, count: usize) -> Option<u64>
    ensures { IsLeft left (count + 1) result }
{
    if left == 0 {
        return None;
    }
    (left - 1).checked_sub(count as u64)
}

/// What is left behind what stands at a place.
#[cycle(unfolded)]
fn left_of_pointer(left: u64, pointer: Pointer<'_>) -> Option<u64>
    ensures { IsLeft left (unfolded (pointer_tree pointer.entry)) result }
{
    left_of_found(left, look(pointer))
}

/// What is left behind what was found.
#[cycle(unfolded)]
fn left_of_found(left: u64, found: Found<'_>) -> Option<u64>
    ensures { IsLeft left (unfolded (found_tree found.entry)) result }
{
    match found {
        Found::Null => left_of_count(left, 0),
        Found::Bad(_) => left_of_count(left, 0),
        Found::Struct(parts) => left_of_parts(left, parts),
        Found::Voids(count) => left_of_count(left, count as usize),
        Found::Bits(_, count) => left_of_count(left, count as usize),
        Found::Numbers(_, bytes) => left_of_count(left, bytes.len()),
        Found::Pointers(pointers) => match left_of_count(left, 0) {
            Some(rest) => left_of_pointers(rest, pointers),
            None => None,
        },
        Found::Composite(size, elements) => match left_of_count(left, 0) {
            Some(rest) => left_of_elements(rest, size, elements),
            None => None,
        },
    }
}

/// What is left behind a struct.
#[cycle(unfolded)]
fn left_of_parts(left: u64, parts: StructParts<'_>) -> Option<u64>
    ensures { IsLeft left (length (parts_tree parts.entry).bytes + 1 + unfolded_all (parts_tree parts.entry).pointers) result }
{
    match left_of_count(left, parts.data.len()) {
        Some(rest) => left_of_pointers(rest, parts.pointers),
        None => None,
    }
}

/// What is left behind what pointers in a row lead to.
#[cycle(unfolded)]
fn left_of_pointers(left: u64, pointers: Pointers<'_>) -> Option<u64>
    ensures { IsLeft left (unfolded_all (pointer_trees pointers.entry)) result }
{
    let count = count_pointers(pointers);
    let mut rest = left;
    for i in 0..count {
        match left_of_pointer(rest, get_pointer(pointers, i)) {
            Some(less) => rest = less,
            None => return None,
        }
    }
    Some(rest)
}

/// What is left behind the elements of a composite list.
#[cycle(unfolded)]
fn left_of_elements(left: u64, size: StructSize, elements: Elements<'_>) -> Option<u64>
    ensures { IsLeft left (unfolded_elements (element_structs size.data_words size.pointers elements.entry)) result }
{
    let count = count_elements(size, elements);
    let mut rest = left;
    for i in 0..count {
        match left_of_parts(rest, get_element(size, elements, i)) {
            Some(less) => rest = less,
            None => return None,
        }
    }
    Some(rest)
}

impl<'a> PointerReader<'a> {
    /// How much there is of what this pointer leads to, where that is at most `limit`, and else nothing: one for each
    /// pointer and each element of a list of structs, and one for each byte, bit and empty element. A target that
    /// several pointers lead to counts as often, and what can't be followed as one.
    ///
    /// Takes time in proportion to the limit, and no memory.
    pub fn unfolded_size(&self, limit: u64) -> Option<u64>
        ensures { MatchOption result (limit < unfolded (tree_of self.now))
            (λ size. (size ≡ unfolded (tree_of self.now)) × (size ≤ limit)) }
    {
        match left_of_pointer(limit, self.pointer()) {
            Some(rest) => Some(limit - rest),
            None => None,
        }
    }
}
