//! Counts the words of what stands at a place, and looks for its first fault leaf.
ghost use Rattle.std.specs.Prelude.{◌≡◌, ◌+◌, ◌*◌, None, IfErr, IfOk, IsTrue};
ghost use Rattle.capnp_wire.specs.Locate.{NoTarget, target_at};
ghost use Rattle.capnp_wire.specs.Backing.{segment_list};
ghost use Rattle.capnp_wire.specs.Place.{tree_below};
ghost use Rattle.capnp_wire.specs.Tree.{Composite, tree_count};
ghost use Rattle.capnp_wire.specs.Found.{element_structs, found_tree, parts_tree, pointer_tree, pointer_trees};
ghost use Rattle.capnp_wire.specs.Words.{first_fault, first_fault_of_all, first_fault_of_elements, words_below_all, words_of, words_of_all, words_of_struct};
ghost use Rattle.capnp_wire.specs.Total.{IsSize, IsSizeRefusal};
ghost use Rattle.capnp_wire.specs.Steps.Total.{Totals, size_of_total, size_read};

use crate::fault::{Fault, refuse};
use crate::parts::block::{count_elements, get_element, have_no_pointers};
use crate::parts::bytes::get_word;
use crate::parts::found::{Found, StructParts};
use crate::parts::look::look_at_word;
use crate::parts::pointer::Pointer;
use crate::parts::pointers::{count_pointers, get_pointer};
use crate::parts::row::{Elements, Pointers};
use crate::parts::segments::Segments;
use crate::size::{MessageSize, StructSize};
use capnp_device::error::{Error, ErrorKind, Result};

/// Why there is no total.
#[derive(Clone, Copy)]
pub(crate) enum Stop {
    Fault(Fault),
    TooLarge,
}

type Total = std::result::Result<u64, Stop>;

#[inline(always)]
fn add(a: u64, b: u64) -> Total
    ensures { Totals result None (a + b) }
{
    a.checked_add(b).ok_or(Stop::TooLarge)
}

/// Whether the pointer at a word is there and is null.
#[inline(always)]
fn is_null_word(segments: Segments<'_>, segment: &[u8], w: usize) -> bool
    ensures { IsTrue result → target_at (segment_list segments.entry) segment.now w ≡ NoTarget }
{
    w < segment.len() / 8 && get_word(segment, w) == 0
}

/// The words of what stands at a place.
#[cycle(total)]
#[inline(always)]
fn total_pointer(pointer: Pointer<'_>) -> Total
    ensures { Totals result (first_fault (pointer_tree pointer.entry)) (words_of (pointer_tree pointer.entry)) }
{
    match pointer {
        Pointer::Word {
            depth,
            is_stream,
            bytes,
            segment,
            index,
        } => total_word(Segments { bytes, is_stream }, segment, index, depth),
        Pointer::Null => Ok(0),
        Pointer::Bad(fault) => Err(Stop::Fault(fault)),
    }
}

/// The words of what stands at a word of a message. Most pointers of many messages are null, so these are told apart
/// before they are looked at.
#[cycle(total)]
#[inline(always)]
fn total_word(segments: Segments<'_>, segment: &[u8], index: usize, depth: u8) -> Total
    ensures { Totals result (first_fault (tree_below depth (segment_list segments.entry) segment.now index))
        (words_of (tree_below depth (segment_list segments.entry) segment.now index)) }
{
    if is_null_word(segments, segment, index) {
        return Ok(0);
    }
    total_found(look_at_word(segments, segment, index, depth))
}

/// The words of what was found.
#[cycle(total)]
#[inline(always)]
fn total_found(found: Found<'_>) -> Total
    ensures { Totals result (first_fault (found_tree found.entry)) (words_of (found_tree found.entry)) }
{
    match found {
        Found::Null => Ok(0),
        Found::Bad(fault) => Err(Stop::Fault(fault)),
        Found::Struct(parts) => total_parts(parts),
        Found::Voids(_) => Ok(0),
        Found::Bits(_, count) => Ok((count as u64 + 63) / 64),
        Found::Numbers(_, bytes) => Ok(bytes.len().div_ceil(8) as u64),
        Found::Pointers(pointers) => total_row(pointers),
        Found::Composite(size, elements) => total_composite(size, elements),
    }
}

/// The words of a struct.
#[cycle(total)]
#[inline(always)]
fn total_parts(parts: StructParts<'_>) -> Total
    ensures { Totals result (first_fault_of_all (parts_tree parts.entry).pointers)
        (words_of_struct (parts_tree parts.entry)) }
{
    let own = parts.data.len().div_ceil(8) as u64;
    add(own, total_row(parts.pointers)?)
}

/// The words of pointers in a row, and of what they lead to.
#[cycle(total)]
#[inline(always)]
fn total_row(pointers: Pointers<'_>) -> Total
    ensures { Totals result (first_fault_of_all (pointer_trees pointers.entry))
        (tree_count (pointer_trees pointers.entry) + words_of_all (pointer_trees pointers.entry)) }
{
    let own = count_pointers(pointers) as u64;
    add(own, total_pointers(pointers)?)
}

/// The words of what pointers in a row lead to.
#[cycle(total)]
#[inline(never)]
fn total_pointers(pointers: Pointers<'_>) -> Total
    ensures { Totals result (first_fault_of_all (pointer_trees pointers.entry))
        (words_of_all (pointer_trees pointers.entry)) }
{
    total_each(pointers)
}

/// The words of what an element's pointers lead to. It stands within its caller, since elements are mostly
/// many and small.
#[cycle(total)]
#[inline(always)]
fn total_each(pointers: Pointers<'_>) -> Total
    ensures { Totals result (first_fault_of_all (pointer_trees pointers.entry))
        (words_of_all (pointer_trees pointers.entry)) }
{
    let count = count_pointers(pointers);
    let mut sum: u64 = 0;
    for i in 0..count {
        let words = total_pointer(get_pointer(pointers, i))?;
        sum = add(sum, words)?;
    }
    Ok(sum)
}

/// The words of a composite list itself: its tag, and so many structs of a size.
#[inline(always)]
fn total_own_words(size: StructSize, count: usize) -> Total
    ensures { Totals result None (count * (size.data_words + size.pointers) + 1) }
{
    match (count as u64).checked_mul(size.total() as u64) {
        Some(words) => add(words, 1),
        None => Err(Stop::TooLarge),
    }
}

/// The words of a composite list.
#[cycle(total)]
#[inline(always)]
fn total_composite(size: StructSize, elements: Elements<'_>) -> Total
    ensures { Totals result (first_fault_of_elements (element_structs size.data_words size.pointers elements.entry))
        (words_of (Composite size.data_words size.pointers
        (element_structs size.data_words size.pointers elements.entry))) }
{
    let own = total_own_words(size, count_elements(size, elements))?;
    add(own, total_elements(size, elements)?)
}

/// The words of what the pointers of a composite list's elements lead to.
#[cycle(total)]
#[inline(never)]
fn total_elements(size: StructSize, elements: Elements<'_>) -> Total
    ensures { Totals result (first_fault_of_elements (element_structs size.data_words size.pointers elements.entry))
        (words_below_all (element_structs size.data_words size.pointers elements.entry)) }
{
    if have_no_pointers(size, elements) {
        return Ok(0);
    }
    let count = count_elements(size, elements);
    let mut sum: u64 = 0;
    for i in 0..count {
        let words = total_each(get_element(size, elements, i).pointers)?;
        sum = add(sum, words)?;
    }
    Ok(sum)
}

/// A total as the size of a message, which holds no capability.
fn make_size(total: Total) -> Result<MessageSize>
    ensures { size_read result ≡ size_of_total total }
{
    match total {
        Ok(word_count) => Ok(MessageSize {
            word_count,
            cap_count: 0,
        }),
        Err(Stop::Fault(fault)) => Err(refuse(fault)),
        Err(Stop::TooLarge) => Err(Error::from(ErrorKind::TooLarge)),
    }
}

/// The size of what stands at a place.
///
/// Refused as `total_size`.
pub(crate) fn size_of_pointer(pointer: Pointer<'_>) -> Result<MessageSize>
    ensures size { IfOk result (λ size. IsSize size (first_fault (pointer_tree pointer.entry))
        (words_of (pointer_tree pointer.entry))) }
    ensures refused { IfErr result (λ error. IsSizeRefusal error (first_fault (pointer_tree pointer.entry))
        (words_of (pointer_tree pointer.entry))) }
{
    make_size(total_pointer(pointer))
}

/// The size of a struct, whose data is rounded up to whole words.
///
/// Refused as `total_size`.
pub(crate) fn size_of_parts(parts: StructParts<'_>) -> Result<MessageSize>
    ensures size { IfOk result (λ size. IsSize size (first_fault_of_all (parts_tree parts.entry).pointers)
        (words_of_struct (parts_tree parts.entry))) }
    ensures refused { IfErr result
        (λ error. IsSizeRefusal error (first_fault_of_all (parts_tree parts.entry).pointers)
        (words_of_struct (parts_tree parts.entry))) }
{
    make_size(total_parts(parts))
}
