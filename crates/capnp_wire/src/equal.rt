//! Whether the same tree stands at two places, wherever they lie.
ghost use Rattle.std.specs.Prelude.{◌≡◌, ◌↔◌, IsTrue};
ghost use Rattle.capnp_wire.specs.Found.{element_structs, found_tree, parts_tree, pointer_tree, pointer_trees};
ghost use Rattle.capnp_wire.specs.Place.{bits_from, struct_tree};
ghost use Rattle.capnp_wire.specs.Standing.{tree_of};
ghost use Rattle.capnp_wire.specs.Tree as tree;

use crate::fault::Fault;
use crate::parts::block::{count_elements, count_empty_structs, get_element};
use crate::parts::bytes::get_bit;
use crate::parts::found::{Found, StructParts};
use crate::parts::pointer::{Pointer, look};
use crate::parts::pointers::{count_pointers, get_pointer};
use crate::parts::row::{Elements, Pointers};
use crate::pointer_reader::PointerReader;
use crate::size::StructSize;

fn is_null(found: Found<'_>) -> bool
    ensures { IsTrue result ↔ (tree.Null ≡ found_tree found.entry) }
{
    matches!(found, Found::Null)
}

fn is_fault(fault: Fault, found: Found<'_>) -> bool
    ensures { IsTrue result ↔ (tree.FaultLeaf fault ≡ found_tree found.entry) }
{
    match found {
        Found::Bad(other) => fault == other,
        _ => false,
    }
}

fn is_voids(count: u32, found: Found<'_>) -> bool
    ensures { IsTrue result ↔ (tree.Voids count ≡ found_tree found.entry) }
{
    match found {
        Found::Voids(other) => count == other,
        _ => false,
    }
}

/// Whether the first bits of two runs of bytes are the same; those that fill the last byte are not looked at.
fn are_bits_same(one: &[u8], other: &[u8], count: u32) -> bool
    ensures { IsTrue result ↔ (bits_from one.now 0 count ≡ bits_from other.now 0 count) }
{
    for i in 0..count {
        if get_bit(one, i as usize) != get_bit(other, i as usize) {
            return false;
        }
    }
    true
}

#[tactic(auto, using(crate::proofs::SameTrees::bits_parts))]
fn is_bits(bytes: &[u8], count: u32, found: Found<'_>) -> bool
    ensures { IsTrue result ↔ (tree.Bits (bits_from bytes.now 0 count) ≡ found_tree found.entry) }
{
    match found {
        Found::Bits(others, other_count) => {
            count == other_count && are_bits_same(bytes, others, count)
        }
        _ => false,
    }
}

fn is_numbers(width: u8, bytes: &[u8], found: Found<'_>) -> bool
    ensures { IsTrue result ↔ (tree.Numbers width bytes.now ≡ found_tree found.entry) }
{
    match found {
        Found::Numbers(other_width, others) => width == other_width && bytes == others,
        _ => false,
    }
}

/// Whether the same stands at two places.
#[cycle(equal)]
fn is_pointer_same(one: Pointer<'_>, other: Pointer<'_>) -> bool
    ensures { IsTrue result ↔ (pointer_tree one.entry ≡ pointer_tree other.entry) }
{
    is_found(look(one), look(other))
}

/// Whether the same was found at two places.
#[cycle(equal)]
fn is_found(one: Found<'_>, other: Found<'_>) -> bool
    ensures { IsTrue result ↔ (found_tree one.entry ≡ found_tree other.entry) }
{
    match one {
        Found::Null => is_null(other),
        Found::Bad(fault) => is_fault(fault, other),
        Found::Struct(parts) => is_struct(parts, other),
        Found::Voids(count) => is_voids(count, other),
        Found::Bits(bytes, count) => is_bits(bytes, count, other),
        Found::Numbers(width, bytes) => is_numbers(width, bytes, other),
        Found::Pointers(pointers) => is_pointers(pointers, other),
        Found::Composite(size, elements) => is_composite(size, elements, other),
    }
}

#[cycle(equal)]
fn is_struct(parts: StructParts<'_>, found: Found<'_>) -> bool
    ensures { IsTrue result ↔ (struct_tree (parts_tree parts.entry) ≡ found_tree found.entry) }
{
    match found {
        Found::Struct(others) => are_parts_same(parts, others),
        _ => false,
    }
}

#[cycle(equal)]
fn is_pointers(pointers: Pointers<'_>, found: Found<'_>) -> bool
    ensures { IsTrue result ↔ (tree.Pointers (pointer_trees pointers.entry) ≡ found_tree found.entry) }
{
    match found {
        Found::Pointers(others) => are_pointers_same(pointers, others),
        _ => false,
    }
}

#[cycle(equal)]
fn is_composite(size: StructSize, elements: Elements<'_>, found: Found<'_>) -> bool
    ensures { IsTrue result ↔ (tree.Composite size.data_words size.pointers
        (element_structs size.data_words size.pointers elements.entry) ≡ found_tree found.entry) }
{
    match found {
        Found::Composite(other_size, others) => {
            size.data_words == other_size.data_words
                && size.pointers == other_size.pointers
                && are_elements_same(size, elements, others)
        }
        _ => false,
    }
}

/// Whether two structs hold the same.
#[cycle(equal)]
fn are_parts_same(one: StructParts<'_>, other: StructParts<'_>) -> bool
    ensures { IsTrue result ↔ (parts_tree one.entry ≡ parts_tree other.entry) }
{
    one.data == other.data && are_pointers_same(one.pointers, other.pointers)
}

/// Whether pointers in a row lead to the same.
#[cycle(equal)]
fn are_pointers_same(one: Pointers<'_>, other: Pointers<'_>) -> bool
    ensures { IsTrue result ↔ (pointer_trees one.entry ≡ pointer_trees other.entry) }
{
    let count = count_pointers(one);
    if count != count_pointers(other) {
        return false;
    }
    for i in 0..count {
        if !is_pointer_same(get_pointer(one, i), get_pointer(other, i)) {
            return false;
        }
    }
    true
}

/// Whether the elements of two composite lists, whose sizes are equal, hold the same.
#[cycle(equal)]
fn are_elements_same(size: StructSize, one: Elements<'_>, other: Elements<'_>) -> bool
    ensures { IsTrue result ↔ (element_structs size.data_words size.pointers one.entry
        ≡ element_structs size.data_words size.pointers other.entry) }
{
    if let Some(empty) = count_empty_structs(size, one) {
        if let Some(others) = count_empty_structs(size, other) {
            return empty == others;
        }
    }
    let count = count_elements(size, one);
    if count != count_elements(size, other) {
        return false;
    }
    for i in 0..count {
        if !are_parts_same(get_element(size, one, i), get_element(size, other, i)) {
            return false;
        }
    }
    true
}

impl<'a> PointerReader<'a> {
    /// Whether the same tree stands at both: the same kinds with equal numbers, bits and sizes, and the same behind
    /// each pointer, down to the levels that are left to either. How far two messages are apart in their bytes doesn't
    /// count: where objects lie, what fills the last byte of bits, and what no pointer leads to. Takes no memory.
    pub fn has_same_tree(&self, other: &PointerReader<'_>) -> bool
        ensures { IsTrue result ↔ (tree_of self.now ≡ tree_of other.now) }
    {
        is_pointer_same(self.pointer(), other.pointer())
    }
}
