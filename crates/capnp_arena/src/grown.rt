//! The bytes of structs that are made larger: each one's data, with zeros after it, and its pointers, with nulls after
//! these, and then what they lead to.
ghost use Rattle.std.specs.Prelude.{IfOk, replicate, ◌*◌, ◌+◌, ◌<◌, ◌≡◌, ◌≤◌, length};
ghost use Rattle.capnp_wire.specs.Edits.{extended_struct};
ghost use Rattle.capnp_wire.specs.Encoding.{bytes_of};
ghost use Rattle.capnp_wire.specs.Locate.{words_past_format};
ghost use Rattle.capnp_wire.specs.Steps.Filling.{HasRoom, HaveRoom, bytes_with, with_encoded_element, with_encoded_elements};
ghost use Rattle.capnp_wire.specs.Place.{struct_tree};
ghost use Rattle.capnp_wire.specs.Tree.{Composite, structs_from};
ghost use Rattle.capnp_wire.specs.Words.{words_below_all, words_of_all};
ghost use Rattle.capnp_arena.specs.Steps.Grown.{ArePartsIn, IsPartIn, grown_part_at};
ghost use Rattle.capnp_arena.specs.Shape.{word_count};

use crate::append::{Appended, append_room, append_word};
use crate::encode::fill_row;
use crate::spell::{make_struct_word, put_bytes};
use capnp_wire::parts::pointer::MEMORY_DEPTH;
use capnp_wire::size::StructSize;
use std::alloc::{AllocError, Global};

/// Where the parts of structs stand, one struct after another: each one's data from a byte on, and its pointers from a
/// word on, with so much between two structs.
#[derive(Clone, Copy)]
pub(crate) struct PartRow {
    pub first_byte: usize,
    pub data_count: usize,
    pub data_step: usize,
    pub first: usize,
    pub pointers: usize,
    pub pointer_step: usize,
}

/// Zeros in the place of other bytes.
#[inline(always)]
fn put_zeros(out: &mut Vec<u8>, at: usize, count: usize)
    requires { at + count ≤ length out.old.items }
    ensures put { out.new.items ≡ bytes_with at (replicate count 0) out.old.items }
    ensures long { length out.new.items ≡ length out.old.items }
{
    out[at..at + count].fill(0);
}

/// One of these structs into its room, with at least a size, and what its pointers lead to at the end.
#[inline(always)]
fn fill_grown(
    out: &mut Vec<u8>,
    at: usize,
    bytes: &[u8],
    row: PartRow,
    index: usize,
    size: StructSize,
) -> Appended
    requires inside { IsPartIn bytes.now row index }
    requires few { word_count bytes.now < words_past_format }
    requires fits { (row.data_count ≤ 8 * size.data_words) × (row.pointers ≤ size.pointers) }
    requires long { at + 8 * (size.data_words + size.pointers) ≤ length out.old.items }
    requires room { HasRoom (at + 8 * size.data_words) (grown_part_at bytes.now row index).pointers out.old.items }
    ensures { IfOk result (λ _. out.new.items
        ≡ with_encoded_element at (extended_struct size (grown_part_at bytes.now row index)) out.old.items) }
{
    let words = size.data_words as usize + size.pointers as usize;
    put_zeros(out, at, 8 * words);
    let data = row.first_byte + index * row.data_step;
    put_bytes(out, at, &bytes[data..data + row.data_count]);
    fill_row(
        out,
        at + 8 * size.data_words as usize,
        bytes,
        row.first + index * row.pointer_step,
        row.pointers,
        MEMORY_DEPTH - 1,
    )?;
    Ok(())
}

/// So many of them, one after another.
fn fill_all_grown(
    out: &mut Vec<u8>,
    at: usize,
    bytes: &[u8],
    row: PartRow,
    count: usize,
    size: StructSize,
) -> Appended
    requires inside { ArePartsIn bytes.now row count }
    requires few { word_count bytes.now < words_past_format }
    requires fits { (row.data_count ≤ 8 * size.data_words) × (row.pointers ≤ size.pointers) }
    requires room { HaveRoom size.data_words size.pointers at
        (structs_from (λ i. extended_struct size (grown_part_at bytes.now row i)) 0 count) out.old.items }
    ensures { IfOk result (λ _. out.new.items
        ≡ with_encoded_elements (size.data_words + size.pointers) at
        (structs_from (λ i. extended_struct size (grown_part_at bytes.now row i)) 0 count) out.old.items) }
{
    // of structs of size zero a list has its count alone, however many there are
    if size.data_words as usize + size.pointers as usize == 0 {
        return Ok(());
    }
    let mut at = at;
    for i in 0..count {
        fill_grown(out, at, bytes, row, i, size)?;
        at += 8 * (size.data_words as usize + size.pointers as usize);
    }
    Ok(())
}

/// The first of them with at least a size, and what its pointers lead to.
///
/// Refused where memory is, and where it is deeper than a walk goes.
pub(crate) fn encode_grown(
    alloc: Global,
    bytes: &[u8],
    row: PartRow,
    size: StructSize,
) -> Result<Vec<u8>, AllocError>
    requires inside { ArePartsIn bytes.now row 1 }
    requires few { word_count bytes.now < words_past_format }
    requires fits { (row.data_count ≤ 8 * size.data_words) × (row.pointers ≤ size.pointers) }
    requires small { size.data_words + size.pointers + words_of_all (grown_part_at bytes.now row 0).pointers < words_past_format }
    ensures { IfOk result (λ v. v.items ≡ bytes_of (struct_tree (extended_struct size (grown_part_at bytes.now row 0)))) }
{
    let mut out = Vec::new(alloc);
    append_room(&mut out, size.data_words as usize + size.pointers as usize)?;
    fill_grown(&mut out, 0, bytes, row, 0, size)?;
    Ok(out)
}

/// A list of so many of them with at least a size: its tag, the structs, and what their pointers lead to.
///
/// Refused where memory is, and where it is deeper than a walk goes.
pub(crate) fn encode_all_grown(
    alloc: Global,
    bytes: &[u8],
    row: PartRow,
    count: usize,
    size: StructSize,
) -> Result<Vec<u8>, AllocError>
    requires inside { ArePartsIn bytes.now row count }
    requires few { (word_count bytes.now < words_past_format) × (count < words_past_format) }
    requires fits { (row.data_count ≤ 8 * size.data_words) × (row.pointers ≤ size.pointers) }
    requires small { count * (size.data_words + size.pointers) + words_below_all
        (structs_from (λ i. extended_struct size (grown_part_at bytes.now row i)) 0 count) < words_past_format }
    ensures { IfOk result (λ v. v.items ≡ bytes_of
        (Composite size.data_words size.pointers
        (structs_from (λ i. extended_struct size (grown_part_at bytes.now row i)) 0 count))) }
{
    let mut out = Vec::new(alloc);
    append_word(
        &mut out,
        make_struct_word(count as u64, size.data_words as u64, size.pointers as u64),
    )?;
    let at = out.len();
    append_room(
        &mut out,
        count * (size.data_words as usize + size.pointers as usize),
    )?;
    fill_all_grown(&mut out, at, bytes, row, count, size)?;
    Ok(out)
}
