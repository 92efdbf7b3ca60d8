//! Whether a segment is the encoding of its message already: each target lies where the one before it ends, with zeros
//! behind its last element, and no word is left over.
ghost use Rattle.std.specs.Prelude.{IsTrue, drop, replicate, take, ◌*◌, ◌+◌, ◌-◌, ◌/◌, ◌<◌, ◌^◌, ◌≡◌, ◌≤◌, length};
ghost use Rattle.capnp_wire.specs.Encoding.{encoding_of, own_bytes, packed_bits, padded_bytes};
ghost use Rattle.capnp_wire.specs.Locate.{element_size_number, pointer_kind, list_words, offset, words_past_format};
ghost use Rattle.capnp_wire.specs.Place.{bits_from, bytes_at, list_tree};
ghost use Rattle.capnp_arena.specs.Steps.Counts.{AreElementForests, AreForests};
ghost use Rattle.capnp_arena.specs.Forest.{Forest, tree};
ghost use Rattle.capnp_arena.specs.Steps.InOrder.{AreLaid, IfKnown, IsLaid, IsRowLaid};
ghost use Rattle.capnp_arena.specs.Shape.{word_count};

use crate::append::{get_bits, get_part};
use crate::count::get_list_depth;
use crate::look::{Target, get_count, get_inner_word};
use crate::target::look;
use capnp_wire::parts::pointer::MEMORY_DEPTH;

/// Whether bytes are those that hold so many bits.
fn are_packed(bytes: &[u8], count: u32) -> bool
    ensures { IsTrue result → packed_bits (length bytes.now) (bits_from bytes.now 0 count) ≡ bytes.now }
{
    for k in 0..bytes.len() {
        if bytes[k] != get_bits(bytes, count, k) {
            return false;
        }
    }
    true
}

/// Whether a word has zeros behind so many of its bytes.
#[inline(always)]
fn has_zeros_behind(bytes: &[u8], w: usize, over: usize) -> bool
    requires inside { 8 * w + 8 ≤ length bytes.now }
    requires few { w < 2 ^ 32 }
    requires within { over < 8 }
    ensures { IsTrue result → take (8 - over) (drop (8 * w + over) bytes.now) ≡ replicate (8 - over) 0 }
{
    get_inner_word(bytes, w) < 1u64 << (8 * over as u32)
}

/// Where so many bytes end that start at a word, if they have zeros behind them up to a whole word.
#[inline(always)]
pub(crate) fn end_of_bytes(bytes: &[u8], start: usize, count: usize) -> Option<usize>
    requires inside { start + (count + 7) / 8 ≤ word_count bytes.now }
    requires few { (start < 2 ^ 30) × (count < 2 ^ 32) }
    ensures { IfKnown result (λ next. (next ≡ start + (count + 7) / 8)
        × (bytes_at bytes.now start (8 * (next - start)) ≡ padded_bytes (bytes_at bytes.now start count))) }
{
    let end = start + count / 8;
    let over = count % 8;
    if over == 0 {
        return Some(end);
    }
    if has_zeros_behind(bytes, end, over) {
        Some(end + 1)
    } else {
        None
    }
}

/// Where a list of bits or numbers, or of nothing, ends that starts at a word.
#[inline(always)]
fn end_of_pointerless(bytes: &[u8], start: usize, element_size: u8, count: u32) -> Option<usize>
    requires pointerless { element_size < 6 }
    requires few { (count < words_past_format) × (start < 2 ^ 30) }
    requires inside { start + list_words element_size count ≤ word_count bytes.now }
    ensures { IfKnown result (λ next. (start ≤ next) × (next ≤ word_count bytes.now)
        × (bytes_at bytes.now start (8 * (next - start))
        ≡ own_bytes (list_tree (tree bytes.now) bytes.now start element_size count))) }
{
    let number = count as usize;
    if element_size == 0 {
        Some(start)
    } else if element_size == 1 {
        let words = (number + 63) / 64;
        if are_packed(get_part(bytes, start, 8 * words), count) {
            Some(start + words)
        } else {
            None
        }
    } else if element_size == 2 {
        end_of_bytes(bytes, start, number)
    } else if element_size == 3 {
        end_of_bytes(bytes, start, 2 * number)
    } else if element_size == 4 {
        end_of_bytes(bytes, start, 4 * number)
    } else {
        end_of_bytes(bytes, start, 8 * number)
    }
}

/// Whether the word of a pointer is that to bytes which start so many words after it.
#[inline(always)]
fn leads_to_bytes(word: u64, gap: usize) -> bool
    requires near { gap < 2 ^ 30 }
    ensures { IsTrue result → (pointer_kind word ≡ 1) × (element_size_number word ≡ 2) × (offset word ≡ gap) }
{
    word % (1 << 35) == (2 << 32) + 1 + 4 * gap as u64
}

/// Where all ends that the pointer at a word leads to, if it starts at `end`, lies in order and is less deep than
/// `depth` levels.
#[cycle(order)]
fn follow(bytes: &[u8], w: usize, end: usize, depth: u8) -> Option<usize>
    requires forest { Forest bytes.now w }
    requires few { word_count bytes.now < words_past_format }
    requires inside { end ≤ word_count bytes.now }
    ensures { IfKnown result (λ next. IsLaid bytes.now w end next) }
{
    match look(bytes, w) {
        Target::Null => Some(end),
        Target::Struct {
            start,
            data_words,
            pointers,
        } => {
            if depth < 2 {
                return None;
            }
            let words = data_words as usize + pointers as usize;
            if words == 0 {
                return Some(end);
            }
            if start != end {
                return None;
            }
            let row = start + data_words as usize;
            follow_row(
                bytes,
                row,
                pointers as usize,
                row + pointers as usize,
                depth - 1,
            )
        }
        Target::List {
            start,
            element_size,
            count,
        } => {
            if start != end {
                return None;
            }
            let least = get_list_depth(element_size);
            if depth < least {
                return None;
            }
            if element_size == 6 {
                return follow_row(
                    bytes,
                    start,
                    count as usize,
                    start + count as usize,
                    depth - 1,
                );
            }
            end_of_pointerless(bytes, start, element_size, count)
        }
        Target::Composite {
            tag,
            count,
            data_words,
            pointers,
        } => {
            if tag != end {
                return None;
            }
            if depth < 2 {
                return None;
            }
            let size = data_words as usize + pointers as usize;
            let last = tag + 1 + count as usize * size;
            if pointers == 0 {
                return Some(last);
            }
            follow_elements(
                bytes,
                tag + 1,
                count as usize,
                data_words as usize,
                pointers as usize,
                last,
                depth - 2,
            )
        }
    }
}

/// Where all ends that the pointer at a word leads to, in line where no pointers are behind the target.
#[cycle(order)]
#[inline(always)]
fn follow_at(bytes: &[u8], w: usize, end: usize, depth: u8) -> Option<usize>
    requires forest { Forest bytes.now w }
    requires few { word_count bytes.now < words_past_format }
    requires before { w < end }
    requires inside { end ≤ word_count bytes.now }
    ensures { IfKnown result (λ next. IsLaid bytes.now w end next) }
{
    let word = get_inner_word(bytes, w);
    if word == 0 {
        return Some(end);
    }
    // a text or data: most of what stands in line
    if leads_to_bytes(word, end - w - 1) {
        if depth == 0 {
            return None;
        }
        return end_of_pointerless(bytes, end, 2, get_count(word));
    }
    match look(bytes, w) {
        Target::Null => Some(end),
        Target::List {
            start,
            element_size,
            count,
        } => {
            if start != end {
                return None;
            }
            if element_size == 6 {
                return follow(bytes, w, end, depth);
            }
            let least = get_list_depth(element_size);
            if depth < least {
                return None;
            }
            end_of_pointerless(bytes, start, element_size, count)
        }
        _ => follow(bytes, w, end, depth),
    }
}

/// Where all ends that so many pointers in a row lead to.
#[cycle(order)]
#[inline(always)]
fn follow_row(bytes: &[u8], first: usize, count: usize, end: usize, depth: u8) -> Option<usize>
    requires forests { AreForests bytes.now first count }
    requires few { word_count bytes.now < words_past_format }
    requires before { first + count ≤ end }
    requires inside { end ≤ word_count bytes.now }
    ensures { IfKnown result (λ next. IsRowLaid bytes.now first count end next) }
{
    let mut next = end;
    for i in 0..count {
        next = follow_at(bytes, first + i, next, depth)?;
    }
    Some(next)
}

/// Where all ends that so many structs in a row lead to.
#[cycle(order)]
fn follow_elements(
    bytes: &[u8],
    start: usize,
    count: usize,
    data_words: usize,
    pointers: usize,
    end: usize,
    depth: u8,
) -> Option<usize>
    requires forests { AreElementForests bytes.now start count data_words pointers }
    requires few { word_count bytes.now < words_past_format }
    requires before { start + count * (data_words + pointers) ≤ end }
    requires inside { end ≤ word_count bytes.now }
    requires sizes { (count < words_past_format) × (data_words < 2 ^ 16) × (pointers < 2 ^ 16) }
    ensures { IfKnown result (λ next. AreLaid bytes.now start data_words pointers 0 count end next) }
{
    let mut next = end;
    for i in 0..count {
        next = follow_row(
            bytes,
            start + i * (data_words + pointers) + data_words,
            pointers,
            next,
            depth,
        )?;
    }
    Some(next)
}

/// Whether a segment is the encoding of what its root leads to, so that it is written as it is.
pub(crate) fn is_in_order(bytes: &[u8]) -> bool
    requires forest { Forest bytes.now 0 }
    requires few { word_count bytes.now < words_past_format }
    requires whole { length bytes.now ≡ 8 * word_count bytes.now }
    ensures { IsTrue result → bytes.now ≡ encoding_of (tree bytes.now 0) }
{
    match follow(bytes, 0, 1, MEMORY_DEPTH) {
        Some(next) => next == bytes.len() / 8,
        None => false,
    }
}
