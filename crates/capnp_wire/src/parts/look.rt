//! One level of what the bytes of a message say.
ghost use Rattle.std.specs.Prelude.{◌≡◌, ◌-◌, ◌<◌, ◌≤◌, ◌^◌};
ghost use Rattle.capnp_wire.specs.Place.{bytes_at, tree_below};
ghost use Rattle.capnp_wire.specs.Locate.{BadTarget, CompositeAt, ListAt, StructAt};
ghost use Rattle.capnp_wire.specs.Steps.Level.{list_at_depth, tree_at_depth};
ghost use Rattle.capnp_wire.specs.Backing.{StartFits, segment_list, target_of};
ghost use Rattle.capnp_wire.specs.Found.{found_tree};

use crate::fault::Fault;
use crate::parts::bytes::part;
use crate::parts::found::{Found, StructParts};
use crate::parts::locate::{Target, locate};
use crate::parts::row::{Elements, Pointers};
use crate::parts::segments::Segments;
use crate::size::StructSize;

/// `count` bytes of a segment from the word `start` on.
///
/// # Conditions
///
/// `start` is below 2^61.
#[inline(always)]
pub fn bytes_from(segment: &[u8], start: usize, count: usize) -> &[u8]
    requires { start < 2 ^ 61 }
    ensures { result.now ≡ bytes_at segment.now start count }
{
    part(segment, 8 * start, count)
}

/// A struct, of which a level may be left or not.
#[inline(always)]
fn look_at_struct<'a>(
    segments: Segments<'a>,
    segment: &'a [u8],
    start: usize,
    data_words: u16,
    pointers: u16,
    depth: u8,
) -> Found<'a>
    requires { start ≤ 2 ^ 60 }
    ensures { found_tree result ≡
        tree_at_depth depth (tree_below (depth - 1) (segment_list segments.entry))
        (tree_below (depth - 2) (segment_list segments.entry)) (StructAt segment.now start data_words pointers) }
{
    if depth < 2 {
        return Found::Bad(Fault::TooDeep);
    }
    Found::Struct(StructParts {
        data: bytes_from(segment, start, 8 * data_words as usize),
        pointers: Pointers {
            is_stream: segments.is_stream,
            depth: depth - 1,
            count: pointers as u32,
            bytes: segments.bytes,
            segment,
            first: start + data_words as usize,
        },
    })
}

/// A list that is neither of bytes nor composite, with a level left for it.
fn look_at_elements<'a>(
    segments: Segments<'a>,
    segment: &'a [u8],
    start: usize,
    element_size: u8,
    count: u32,
    depth: u8,
) -> Found<'a>
    requires start { start ≤ 2 ^ 60 }
    requires level { 0 < depth }
    ensures { found_tree result ≡ list_at_depth
        (tree_below (depth - 1) (segment_list segments.entry) segment.now) segment.now start element_size count }
{
    if element_size == 0 {
        Found::Voids(count)
    } else if element_size == 1 {
        Found::Bits(
            bytes_from(segment, start, 8 * ((count as usize + 63) / 64)),
            count,
        )
    } else if element_size == 3 {
        Found::Numbers(2, bytes_from(segment, start, 2 * count as usize))
    } else if element_size == 4 {
        Found::Numbers(4, bytes_from(segment, start, 4 * count as usize))
    } else if element_size == 5 {
        Found::Numbers(8, bytes_from(segment, start, 8 * count as usize))
    } else {
        Found::Pointers(Pointers {
            is_stream: segments.is_stream,
            depth: depth - 1,
            count,
            bytes: segments.bytes,
            segment,
            first: start,
        })
    }
}

/// A list that is not composite.
#[inline(always)]
fn look_at_list<'a>(
    segments: Segments<'a>,
    segment: &'a [u8],
    start: usize,
    element_size: u8,
    count: u32,
    depth: u8,
) -> Found<'a>
    requires { start ≤ 2 ^ 60 }
    ensures { found_tree result ≡
        tree_at_depth depth (tree_below (depth - 1) (segment_list segments.entry))
        (tree_below (depth - 2) (segment_list segments.entry)) (ListAt segment.now start element_size count) }
{
    if depth == 0 {
        Found::Bad(Fault::TooDeep)
    } else if element_size == 2 {
        Found::Numbers(1, bytes_from(segment, start, count as usize))
    } else if depth == 1 {
        Found::Bad(Fault::TooDeep)
    } else {
        look_at_elements(segments, segment, start, element_size, count, depth)
    }
}

/// A composite list, whose structs are of `data_words` and `pointers`.
#[inline(always)]
fn look_at_composite<'a>(
    segments: Segments<'a>,
    segment: &'a [u8],
    start: usize,
    count: u32,
    data_words: u16,
    pointers: u16,
    depth: u8,
) -> Found<'a>
    requires { start ≤ 2 ^ 60 }
    ensures { found_tree result ≡
        tree_at_depth depth (tree_below (depth - 1) (segment_list segments.entry))
        (tree_below (depth - 2) (segment_list segments.entry))
        (CompositeAt segment.now start count data_words pointers) }
{
    if depth < 2 {
        return Found::Bad(Fault::TooDeep);
    }
    let size = StructSize {
        data_words,
        pointers,
    };
    let elements = Elements {
        is_stream: segments.is_stream,
        depth: depth - 2,
        count,
        bytes: segments.bytes,
        segment,
        first: start,
    };
    Found::Composite(size, elements)
}

/// What a pointer that can't be followed is read as.
#[inline(always)]
fn look_at_fault<'a>(segments: Segments<'a>, fault: Fault, depth: u8) -> Found<'a>
    ensures { found_tree result ≡
        tree_at_depth depth (tree_below (depth - 1) (segment_list segments.entry))
        (tree_below (depth - 2) (segment_list segments.entry)) (BadTarget fault) }
{
    if depth == 0 {
        Found::Bad(Fault::TooDeep)
    } else {
        Found::Bad(fault)
    }
}

/// One level of a target, whose tree has one level less than `depth`.
#[inline(always)]
fn look_at_target<'a>(segments: Segments<'a>, target: Target<'a>, depth: u8) -> Found<'a>
    requires { StartFits target }
    ensures { found_tree result ≡
        tree_at_depth depth (tree_below (depth - 1) (segment_list segments.entry))
        (tree_below (depth - 2) (segment_list segments.entry)) (target_of target.entry) }
{
    match target {
        Target::Null => Found::Null,
        Target::Bad(fault) => look_at_fault(segments, fault, depth),
        Target::Struct {
            segment,
            start,
            data_words,
            pointers,
        } => look_at_struct(segments, segment, start, data_words, pointers, depth),
        Target::List {
            segment,
            start,
            element_size,
            count,
        } => look_at_list(segments, segment, start, element_size, count, depth),
        Target::Composite {
            segment,
            start,
            count,
            data_words,
            pointers,
        } => look_at_composite(segments, segment, start, count, data_words, pointers, depth),
    }
}

/// What the pointer at a word stands for, where its tree has one level less than `depth`.
#[inline(always)]
pub fn look_at_word<'a>(
    segments: Segments<'a>,
    segment: &'a [u8],
    index: usize,
    depth: u8,
) -> Found<'a>
    ensures { found_tree result ≡ tree_below depth (segment_list segments.entry) segment.now index }
{
    look_at_target(segments, locate(segments, segment, index), depth)
}
