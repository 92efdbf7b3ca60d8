//! The bytes of the tree that a pointer leads to: each object before what its pointers lead to, in their order, and
//! nothing that no pointer leads to. Room is left for a row of pointers, and each is put there when its target is due.
ghost use Rattle.std.specs.Prelude.{IfOk, ⊤, ℕ, ◌*◌, ◌++◌, ◌+◌, ◌-◌, ◌/◌, ◌<◌, ◌^◌, ◌≡◌, ◌≤◌, length};
ghost use Rattle.capnp_wire.specs.Encoding.{bytes_below_all, bytes_of, bytes_of_all, element_row, own_bytes, padded_bytes, pointer_row, struct_word, spelled_number};
ghost use Rattle.capnp_wire.specs.Steps.Filling.{HasRoom, HaveRoom, with_encoded_element, with_encoded_elements, with_pointers};
ghost use Rattle.capnp_wire.specs.Locate.{list_words, words_past_format};
ghost use Rattle.capnp_wire.specs.Place.{bytes_at, list_tree};
ghost use Rattle.capnp_wire.specs.Tree.{Composite, structs_from, trees_from};
ghost use Rattle.capnp_wire.specs.Words.{words_below_all, words_of, words_of_all};
ghost use Rattle.capnp_arena.specs.Steps.Counts.{AreElementForests, AreForests};
ghost use Rattle.capnp_arena.specs.Steps.Encoded.{HasSize, pointer_to};
ghost use Rattle.capnp_arena.specs.Forest.{Forest, struct_from, tree};
ghost use Rattle.capnp_arena.specs.Steps.Looked.{shape_found};
ghost use Rattle.capnp_arena.specs.Shape.{Points, shape_at, word_count};

use crate::append::{Appended, append_bits, append_padded, append_room, append_word, get_part};
use crate::count::get_list_depth;
use crate::in_order::end_of_bytes;
use crate::look::Target;
use crate::spell::{make_list_word, make_struct_word, put_bytes, put_word};
use crate::target::look;
use std::alloc::AllocError;

/// The pointer to a target that starts `gap` words after it.
#[inline(always)]
pub(crate) fn make_pointer(gap: u64, target: Target) -> u64
    requires near { gap < words_past_format }
    requires sized { HasSize (shape_found target) }
    ensures { result ≡ pointer_to gap (shape_found target) }
{
    match target {
        Target::Null => 0,
        Target::Struct {
            start: _,
            data_words,
            pointers,
        } => {
            if data_words as u64 + pointers as u64 == 0 {
                return make_struct_word((1 << 30) - 1, 0, 0);
            }
            make_struct_word(gap, data_words as u64, pointers as u64)
        }
        Target::List {
            start: _,
            element_size,
            count,
        } => make_list_word(gap, element_size as u64, count as u64),
        Target::Composite {
            tag: _,
            count,
            data_words,
            pointers,
        } => { make_list_word(gap, 7, count as u64 * (data_words as u64 + pointers as u64)) }
    }
}

/// So many bytes from a word on, and zeros up to a whole word: as one part, where zeros are behind them already.
#[inline(always)]
fn append_part(out: &mut Vec<u8>, bytes: &[u8], start: usize, count: usize) -> Appended
    requires inside { start + (count + 7) / 8 ≤ word_count bytes.now }
    requires few { (start < 2 ^ 30) × (count < 2 ^ 32) }
    ensures { IfOk result (λ _. out.new.items ≡ out.old.items ++ padded_bytes (bytes_at bytes.now start count)) }
{
    match end_of_bytes(bytes, start, count) {
        Some(next) => out.extend_from_slice(get_part(bytes, start, 8 * (next - start))),
        None => append_padded(out, get_part(bytes, start, count)),
    }
}

/// A list of bits or numbers, or of nothing.
#[inline(always)]
fn append_pointerless(
    out: &mut Vec<u8>,
    bytes: &[u8],
    start: usize,
    element_size: u8,
    count: u32,
) -> Appended
    requires pointerless { element_size < 6 }
    requires few { (count < words_past_format) × (start < 2 ^ 30) }
    requires inside { start + list_words element_size count ≤ word_count bytes.now }
    ensures { IfOk result (λ _. out.new.items
        ≡ out.old.items ++ own_bytes (list_tree (tree bytes.now) bytes.now start element_size count)) }
{
    let count = count as usize;
    if element_size == 0 {
        Ok(())
    } else if element_size == 1 {
        append_bits(
            out,
            get_part(bytes, start, 8 * ((count + 63) / 64)),
            count as u32,
        )
    } else if element_size == 2 {
        append_part(out, bytes, start, count)
    } else if element_size == 3 {
        append_part(out, bytes, start, 2 * count)
    } else if element_size == 4 {
        append_part(out, bytes, start, 4 * count)
    } else {
        append_part(out, bytes, start, 8 * count)
    }
}

/// What the pointer at a word leads to, and then what that leads to, where one level less than `depth` is left.
///
/// Refused where memory is, and where it is deeper than that.
#[cycle(append)]
#[inline(always)]
pub(crate) fn append_tree(
    out: &mut Vec<u8>,
    bytes: &[u8],
    w: usize,
    target: Target,
    depth: u8,
) -> Appended
    requires forest { Forest bytes.now w }
    requires few { word_count bytes.now < words_past_format }
    requires small { words_of (tree bytes.now w) < words_past_format }
    requires shape { shape_found target ≡ shape_at bytes.now w }
    requires points { Points bytes.now w (shape_found target) }
    ensures { IfOk result (λ _. out.new.items ≡ out.old.items ++ bytes_of (tree bytes.now w)) }
{
    match target {
        Target::Null => Ok(()),
        Target::Struct {
            start,
            data_words,
            pointers,
        } => {
            if depth < 2 {
                return Err(AllocError);
            }
            if data_words as usize + pointers as usize == 0 {
                return Ok(());
            }
            append_struct(
                out,
                bytes,
                start,
                data_words as usize,
                pointers as usize,
                depth - 1,
            )
        }
        Target::List {
            start,
            element_size,
            count,
        } => {
            let least = get_list_depth(element_size);
            if depth < least {
                return Err(AllocError);
            }
            if element_size == 6 {
                return append_row(out, bytes, start, count as usize, depth - 1);
            }
            append_pointerless(out, bytes, start, element_size, count)
        }
        Target::Composite {
            tag,
            count,
            data_words,
            pointers,
        } => {
            if depth < 2 {
                return Err(AllocError);
            }
            append_composite(
                out,
                bytes,
                tag,
                count as usize,
                data_words as usize,
                pointers as usize,
                depth - 2,
            )
        }
    }
}

/// A struct, and then what its pointers lead to.
#[cycle(append)]
#[inline(always)]
fn append_struct(
    out: &mut Vec<u8>,
    bytes: &[u8],
    start: usize,
    data_words: usize,
    pointers: usize,
    depth: u8,
) -> Appended
    requires forests { AreForests bytes.now (start + data_words) pointers }
    requires inside { start + (data_words + pointers) ≤ word_count bytes.now }
    requires few { word_count bytes.now < words_past_format }
    requires small { pointers + words_of_all (trees_from (tree bytes.now) (start + data_words) pointers) < words_past_format }
    ensures { IfOk result (λ _. out.new.items ≡ out.old.items ++ (bytes_at bytes.now start (8 * data_words)
        ++ (pointer_row 0 (trees_from (tree bytes.now) (start + data_words) pointers) ++ bytes_of_all
        (trees_from (tree bytes.now) (start + data_words) pointers)))) }
{
    out.extend_from_slice(get_part(bytes, start, 8 * data_words))?;
    if pointers > 0 {
        append_row(out, bytes, start + data_words, pointers, depth)?;
    }
    Ok(())
}

/// Pointers in a row, and then what they lead to.
#[cycle(append)]
fn append_row(out: &mut Vec<u8>, bytes: &[u8], first: usize, count: usize, depth: u8) -> Appended
    requires forests { AreForests bytes.now first count }
    requires inside { first + count ≤ word_count bytes.now }
    requires few { word_count bytes.now < words_past_format }
    requires small { count + words_of_all (trees_from (tree bytes.now) first count) < words_past_format }
    ensures { IfOk result (λ _. out.new.items
        ≡ out.old.items ++ (pointer_row 0 (trees_from (tree bytes.now) first count) ++ bytes_of_all
        (trees_from (tree bytes.now) first count))) }
{
    let at = out.len();
    append_room(out, count)?;
    fill_row(out, at, bytes, first, count, depth)?;
    Ok(())
}

/// A composite list: its tag and its elements, and then what their pointers lead to. Elements without pointers are one
/// run of bytes.
#[cycle(append)]
#[inline(never)]
fn append_composite(
    out: &mut Vec<u8>,
    bytes: &[u8],
    tag: usize,
    count: usize,
    data_words: usize,
    pointers: usize,
    depth: u8,
) -> Appended
    requires forests { AreElementForests bytes.now (tag + 1) count data_words pointers }
    requires inside { tag + 1 + count * (data_words + pointers) ≤ word_count bytes.now }
    requires few { word_count bytes.now < words_past_format }
    requires sizes { (count < words_past_format) × (data_words < 2 ^ 16) × (pointers < 2 ^ 16) }
    requires small { count * (data_words + pointers) + words_below_all
        (structs_from (λ i. struct_from bytes.now
        (tag + 1 + i * (data_words + pointers)) data_words pointers) 0 count) < words_past_format }
    ensures { IfOk result (λ _. out.new.items
        ≡ out.old.items ++ bytes_of (Composite data_words pointers
        (structs_from (λ i. struct_from bytes.now
        (tag + 1 + i * (data_words + pointers)) data_words pointers) 0 count))) }
{
    append_word(
        out,
        make_struct_word(count as u64, data_words as u64, pointers as u64),
    )?;
    if pointers == 0 {
        out.extend_from_slice(get_part(bytes, tag + 1, 8 * (count * data_words)))?;
        return Ok(());
    }
    let at = out.len();
    append_room(out, count * (data_words + pointers))?;
    fill_elements(out, at, bytes, tag + 1, count, data_words, pointers, depth)?;
    Ok(())
}

/// Puts pointers in a row into the room that is left for them, from an index on, and appends what they lead to.
#[cycle(append)]
#[inline(always)]
pub(crate) fn fill_row(
    out: &mut Vec<u8>,
    at: usize,
    bytes: &[u8],
    first: usize,
    count: usize,
    depth: u8,
) -> Appended
    requires forests { AreForests bytes.now first count }
    requires inside { first + count ≤ word_count bytes.now }
    requires few { word_count bytes.now < words_past_format }
    requires room { HasRoom at (trees_from (tree bytes.now) first count) out.old.items }
    ensures { IfOk result (λ _. out.new.items
        ≡ with_pointers at (trees_from (tree bytes.now) first count) out.old.items) }
{
    let mut at = at;
    for i in 0..count {
        // its target will start where the bytes end now
        let gap = (out.len() - at) / 8 - 1;
        let target = look(bytes, first + i);
        put_word(out, at, make_pointer(gap as u64, target));
        append_tree(out, bytes, first + i, target, depth)?;
        at += 8;
    }
    Ok(())
}

/// Puts structs in a row, each of this size, into their room, and appends what their pointers lead to.
#[cycle(append)]
fn fill_elements(
    out: &mut Vec<u8>,
    at: usize,
    bytes: &[u8],
    start: usize,
    count: usize,
    data_words: usize,
    pointers: usize,
    depth: u8,
) -> Appended
    requires forests { AreElementForests bytes.now start count data_words pointers }
    requires inside { start + count * (data_words + pointers) ≤ word_count bytes.now }
    requires few { word_count bytes.now < words_past_format }
    requires sizes { (count < words_past_format) × (data_words < 2 ^ 16) × (pointers < 2 ^ 16) }
    requires room { HaveRoom data_words pointers at
        (structs_from (λ i. struct_from bytes.now
        (start + i * (data_words + pointers)) data_words pointers) 0 count) out.old.items }
    ensures { IfOk result (λ _. out.new.items
        ≡ with_encoded_elements (data_words + pointers) at
        (structs_from (λ i. struct_from bytes.now
        (start + i * (data_words + pointers)) data_words pointers) 0 count) out.old.items) }
{
    let mut at = at;
    for i in 0..count {
        fill_element(
            out,
            at,
            bytes,
            start + i * (data_words + pointers),
            data_words,
            pointers,
            depth,
        )?;
        at += 8 * (data_words + pointers);
    }
    Ok(())
}

/// Puts one struct into its room, and appends what its pointers lead to.
#[cycle(append)]
#[inline(always)]
fn fill_element(
    out: &mut Vec<u8>,
    at: usize,
    bytes: &[u8],
    start: usize,
    data_words: usize,
    pointers: usize,
    depth: u8,
) -> Appended
    requires forests { AreForests bytes.now (start + data_words) pointers }
    requires inside { start + (data_words + pointers) ≤ word_count bytes.now }
    requires few { word_count bytes.now < words_past_format }
    requires room { HasRoom (at + 8 * data_words)
        (trees_from (tree bytes.now) (start + data_words) pointers) out.old.items }
    ensures { IfOk result (λ _. out.new.items
        ≡ with_encoded_element at (struct_from bytes.now start data_words pointers) out.old.items) }
{
    put_bytes(out, at, get_part(bytes, start, 8 * data_words));
    fill_row(
        out,
        at + 8 * data_words,
        bytes,
        start + data_words,
        pointers,
        depth,
    )?;
    Ok(())
}
