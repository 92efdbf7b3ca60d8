//! The words of the tree that a pointer leads to, which may be fewer than the segment has.
ghost use Rattle.std.specs.Prelude.{cond, ◌*◌, ◌+◌, ◌/◌, ◌<◌, ◌==◌, ◌^◌, ◌≡◌, ◌≤◌, length};
ghost use Rattle.capnp_wire.specs.Depth.{AreBelow, ElementsAreBelow, IsBelow, IsWithin, memory_depth};
ghost use Rattle.capnp_wire.specs.Locate.{list_words, words_past_format};
ghost use Rattle.capnp_wire.specs.Tree.{structs_from, trees_from};
ghost use Rattle.capnp_wire.specs.Words.{words_below_all, words_of, words_of_all};
ghost use Rattle.capnp_arena.specs.Steps.Counts.{AreElementForests, AreForests, IsCount, IsCounted};
ghost use Rattle.capnp_arena.specs.Forest.{Forest, struct_from, tree};
ghost use Rattle.capnp_arena.specs.Shape.{word_count};

use crate::look::Target;
use crate::target::look;
use capnp_wire::parts::pointer::MEMORY_DEPTH;

/// The sum, where it is below 2^29, the words that a message has at most.
#[inline(always)]
fn add(a: u64, b: u64) -> Option<u64>
    requires { (a < 2 ^ 61) × (b < 2 ^ 61) }
    ensures { IsCount result (a + b) }
{
    if a + b < 1 << 29 { Some(a + b) } else { None }
}

/// The least depth for a list of this element size that is not composite: bytes take no level.
#[inline(always)]
pub(crate) fn get_list_depth(element_size: u8) -> u8
    ensures { result ≡ cond (element_size == 2) 1 2 }
{
    if element_size == 2 { 1 } else { 2 }
}

/// The words of so many elements of a size from 0 to 6.
#[inline(always)]
fn get_list_words(element_size: u8, count: u32) -> u64
    ensures value { result ≡ list_words element_size count }
    ensures fits { result < 2 ^ 61 }
{
    let bits = if element_size == 0 {
        0
    } else if element_size == 1 {
        1
    } else if element_size == 2 {
        8
    } else if element_size == 3 {
        16
    } else if element_size == 4 {
        32
    } else {
        64
    };
    (count as u64 * bits + 63) / 64
}

/// The words of all that the pointer at a word leads to, none where they are 2^29 or more, or where it is deeper than a
/// walk goes.
pub(crate) fn count_words(bytes: &[u8], w: usize) -> Option<u64>
    requires forest { Forest bytes.now w }
    requires few { word_count bytes.now < words_past_format }
    ensures { IsCounted result (words_of (tree bytes.now w)) (IsBelow memory_depth (tree bytes.now w)) }
{
    count_below(bytes, w, MEMORY_DEPTH)
}

/// The words of all that the pointer at a word leads to, none where they are 2^29 or more, or where it is deeper than so
/// many levels.
pub(crate) fn count_within(bytes: &[u8], w: usize, levels: u8) -> Option<u64>
    requires forest { Forest bytes.now w }
    requires few { word_count bytes.now < words_past_format }
    requires levels { levels < 255 }
    ensures { IsCounted result (words_of (tree bytes.now w)) (IsWithin levels (tree bytes.now w)) }
{
    count_below(bytes, w, levels + 1)
}

/// The words of all that the pointer at a word leads to, where one level less than `depth` is left.
#[cycle(count)]
fn count_below(bytes: &[u8], w: usize, depth: u8) -> Option<u64>
    requires forest { Forest bytes.now w }
    requires few { word_count bytes.now < words_past_format }
    ensures { IsCounted result (words_of (tree bytes.now w)) (IsBelow depth (tree bytes.now w)) }
{
    match look(bytes, w) {
        Target::Null => Some(0),
        Target::Struct {
            start,
            data_words,
            pointers,
        } => {
            if depth < 2 {
                return None;
            }
            if pointers == 0 {
                return add(data_words as u64, 0);
            }
            let own = data_words as u64 + pointers as u64;
            let first = start + data_words as usize;
            let below = count_row(bytes, first, pointers as usize, depth - 1)?;
            add(own, below)
        }
        Target::List {
            start,
            element_size,
            count,
        } => {
            let least = get_list_depth(element_size);
            if depth < least {
                return None;
            }
            if element_size == 6 {
                let below = count_row(bytes, start, count as usize, depth - 1)?;
                return add(count as u64, below);
            }
            add(get_list_words(element_size, count), 0)
        }
        Target::Composite {
            tag,
            count,
            data_words,
            pointers,
        } => {
            if depth < 2 {
                return None;
            }
            let own = 1 + count as u64 * (data_words as u64 + pointers as u64);
            if pointers == 0 {
                return add(own, 0);
            }
            let below = count_elements(
                bytes,
                tag + 1,
                count as usize,
                data_words as usize,
                pointers as usize,
                depth - 2,
            )?;
            add(own, below)
        }
    }
}

/// The words of all that so many pointers in a row lead to.
#[cycle(count)]
pub(crate) fn count_row(bytes: &[u8], first: usize, count: usize, depth: u8) -> Option<u64>
    requires forests { AreForests bytes.now first count }
    requires inside { first + count ≤ word_count bytes.now }
    requires few { word_count bytes.now < words_past_format }
    ensures { IsCounted result (words_of_all (trees_from (tree bytes.now) first count))
        (AreBelow depth (trees_from (tree bytes.now) first count)) }
{
    let mut sum: u64 = 0;
    for i in 0..count {
        let words = count_below(bytes, first + i, depth)?;
        sum = add(sum, words)?;
    }
    Some(sum)
}

/// The words of all that the pointers of so many structs in a row lead to.
#[cycle(count)]
fn count_elements(
    bytes: &[u8],
    start: usize,
    count: usize,
    data_words: usize,
    pointers: usize,
    depth: u8,
) -> Option<u64>
    requires forests { AreElementForests bytes.now start count data_words pointers }
    requires inside { start + count * (data_words + pointers) ≤ word_count bytes.now }
    requires few { word_count bytes.now < words_past_format }
    requires sizes { (count < words_past_format) × (data_words < 2 ^ 16) × (pointers < 2 ^ 16) }
    ensures { IsCounted result (words_below_all
        (structs_from (λ i. struct_from bytes.now (start + i * (data_words + pointers)) data_words pointers) 0 count))
        (ElementsAreBelow depth
        (structs_from (λ i. struct_from bytes.now (start + i * (data_words + pointers)) data_words pointers) 0 count)) }
{
    let mut sum: u64 = 0;
    for i in 0..count {
        let words = count_row(
            bytes,
            start + i * (data_words + pointers) + data_words,
            pointers,
            depth,
        )?;
        sum = add(sum, words)?;
    }
    Some(sum)
}
