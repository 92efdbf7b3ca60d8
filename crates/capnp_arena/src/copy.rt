//! Copies what a reader stands on to the end of a segment, as its encoding: an object, and then what its pointers lead
//! to, in their order. Room is left for a row of pointers, and each is put there when its target is due. A message in
//! memory holds no fault leaf, so what has one is refused.
ghost use Rattle.std.specs.Prelude.{IfErr, IfOk, IsSome, IsTrue, None, OnOk, suc, ◌*◌, ◌++◌, ◌+◌, ◌-◌, ◌/◌, ◌<◌, ◌≡◌, ◌≤◌, length};
ghost use Rattle.capnp_wire.specs.Edits.{IsCopyRefusal, rounded_struct};
ghost use Rattle.capnp_device.specs.declared.error.ErrorKind.TheVariants.{OutOfMemory};
ghost use Rattle.capnp_wire.specs.Encoding.{bytes_of, bytes_of_all, list_word, number_size, padded_bytes, pointer_row, pointer_word, spelled_number};
ghost use Rattle.capnp_wire.specs.Steps.Filling.{bytes_with, with_encoded_element, with_encoded_elements, with_pointers};
ghost use Rattle.capnp_wire.specs.Found.{element_structs, found_tree, parts_tree, pointer_tree, pointer_trees};
ghost use Rattle.capnp_wire.specs.Locate.{words_past_format};
ghost use Rattle.capnp_wire.specs.Place.{struct_tree};
ghost use Rattle.capnp_wire.specs.Tree.{Composite, struct_count, tree_count};
ghost use Rattle.capnp_wire.specs.WellFormed.{AreElements, AreWellFormed, IsWellFormed, IsWellFormedStruct, is_width};
ghost use Rattle.capnp_wire.specs.Words.{first_fault, first_fault_of_all, first_fault_of_elements};
ghost use Rattle.capnp_arena.specs.Steps.Copies.{ArePointerlessIn, Spares};
ghost use Rattle.capnp_arena.specs.Segment.{segment};
ghost use Rattle.capnp_arena.specs.Shape.{word_count};

use crate::arena::Arena;
use crate::blob::{Blob, find_blob, is_null_word};
use crate::spell::{make_list_word, make_struct_word, put_bytes, put_word};
use capnp_device::error::Result;
use capnp_wire::fault::refuse;
use capnp_wire::parts::block::{count_elements, get_element};
use capnp_wire::parts::bytes::divide;
use capnp_wire::parts::found::{Found, StructParts};
use capnp_wire::parts::look::bytes_from;
use capnp_wire::parts::pointer::{Pointer, look};
use capnp_wire::parts::pointers::{count_pointers, get_pointer};
use capnp_wire::parts::row::{Elements, Pointers};
use capnp_wire::size::StructSize;

// ---- pointers ----

/// The number of the element size of numbers of so many bytes each.
#[inline(always)]
fn get_number_size(width: u8) -> u64
    ensures value { result ≡ number_size width }
    ensures fits { result < 8 }
{
    match width {
        1 => 2,
        2 => 3,
        4 => 4,
        _ => 5,
    }
}

/// The pointer to a struct that starts `gap` words after it, with its data rounded up to whole words.
#[inline(always)]
pub(crate) fn point_to_struct(gap: u64, parts: StructParts<'_>) -> u64
    requires held { IsWellFormedStruct (parts_tree parts) }
    requires near { gap < words_past_format }
    ensures { result ≡ pointer_word gap (struct_tree (rounded_struct (parts_tree parts.entry))) }
{
    let data_words = parts.data.len().div_ceil(8) as u64;
    let pointers = count_pointers(parts.pointers) as u64;
    if data_words + pointers == 0 {
        return make_struct_word((1 << 30) - 1, 0, 0);
    }
    make_struct_word(gap, data_words, pointers)
}

/// The pointer to a list of numbers.
#[inline(always)]
fn point_to_numbers(gap: u64, width: u8, bytes: &[u8]) -> u64
    requires width { IsTrue (is_width width) }
    requires few { length bytes.now / width < words_past_format }
    requires near { gap < words_past_format }
    ensures { result ≡ list_word gap (number_size width) (length bytes.now / width) }
{
    let count = divide(bytes.len(), width) as u64;
    make_list_word(gap, get_number_size(width), count)
}

/// The pointer to a composite list.
#[inline(always)]
fn point_to_structs(gap: u64, size: StructSize, count: usize) -> u64
    requires few { count * (size.data_words + size.pointers) < words_past_format }
    requires count { count < words_past_format }
    requires near { gap < words_past_format }
    ensures { result ≡ list_word gap 7 (count * (size.data_words + size.pointers)) }
{
    make_list_word(
        gap,
        7,
        count as u64 * (size.data_words as u64 + size.pointers as u64),
    )
}

/// The pointer to what was found, which will start `gap` words after it.
#[inline(always)]
pub(crate) fn point_to(gap: u64, found: Found<'_>) -> u64
    requires held { IsWellFormed (found_tree found) }
    requires near { gap < words_past_format }
    ensures { result ≡ pointer_word gap (found_tree found.entry) }
{
    match found {
        Found::Null => 0,
        Found::Bad(_) => 0,
        Found::Struct(parts) => point_to_struct(gap, parts),
        Found::Voids(count) => make_list_word(gap, 0, count as u64),
        Found::Bits(_, count) => make_list_word(gap, 1, count as u64),
        Found::Numbers(width, bytes) => point_to_numbers(gap, width, bytes),
        Found::Pointers(pointers) => make_list_word(gap, 6, count_pointers(pointers) as u64),
        Found::Composite(size, elements) => {
            point_to_structs(gap, size, count_elements(size, elements))
        }
    }
}

// ---- objects ----

/// What was found, and then all below it.
///
/// Refused with `OutOfMemory` where memory is refused or the segment would have 2^29 words, and with `BadPointer`,
/// `TooDeep` or `CapabilityPointer` where a pointer in it can't be followed, by the first of these in preorder.
#[cycle(copy)]
#[inline(always)]
pub(crate) fn append_found(arena: &mut Arena, found: Found<'_>) -> Result<()>
    requires held { IsWellFormed (found_tree found) }
    ensures copy { OnOk result (segment arena.new ≡ segment arena.old ++ bytes_of (found_tree found.entry)) }
    ensures sound { OnOk result (first_fault (found_tree found.entry) ≡ None) }
    ensures cause { IfErr result (λ e. IsCopyRefusal e (first_fault (found_tree found.entry))) }
    ensures kept { Spares 0 0 (segment arena.old) (segment arena.new) }
{
    match found {
        Found::Null => Ok(()),
        Found::Bad(fault) => Err(refuse(fault)),
        Found::Struct(parts) => append_struct(arena, parts),
        Found::Voids(_) => Ok(()),
        Found::Bits(bytes, count) => arena.append_bits(bytes, count),
        Found::Numbers(_, bytes) => arena.append_bytes(bytes),
        Found::Pointers(pointers) => append_row(arena, pointers),
        Found::Composite(size, elements) => append_composite(arena, size, elements),
    }
}

/// A struct, with its data rounded up to whole words, and then what its pointers lead to.
#[cycle(copy)]
#[inline(always)]
pub(crate) fn append_struct(arena: &mut Arena, parts: StructParts<'_>) -> Result<()>
    requires held { IsWellFormedStruct (parts_tree parts) }
    ensures copy { OnOk result (segment arena.new
        ≡ segment arena.old ++ bytes_of (struct_tree (rounded_struct (parts_tree parts.entry)))) }
    ensures sound { OnOk result (first_fault_of_all (parts_tree parts.entry).pointers ≡ None) }
    ensures cause { IfErr result (λ e. IsCopyRefusal e (first_fault_of_all (parts_tree parts.entry).pointers)) }
    ensures kept { Spares 0 0 (segment arena.old) (segment arena.new) }
{
    arena.append_bytes(parts.data)?;
    append_row(arena, parts.pointers)?;
    Ok(())
}

/// Pointers in a row, and then what they lead to.
#[cycle(copy)]
fn append_row(arena: &mut Arena, pointers: Pointers<'_>) -> Result<()>
    requires held { AreWellFormed (pointer_trees pointers) }
    requires few { tree_count (pointer_trees pointers) < words_past_format }
    ensures copy { OnOk result (segment arena.new
        ≡ segment arena.old ++ (pointer_row 0 (pointer_trees pointers.entry) ++ bytes_of_all
        (pointer_trees pointers.entry))) }
    ensures sound { OnOk result (first_fault_of_all (pointer_trees pointers.entry) ≡ None) }
    ensures cause { IfErr result (λ e. IsCopyRefusal e (first_fault_of_all (pointer_trees pointers.entry))) }
    ensures kept { Spares 0 0 (segment arena.old) (segment arena.new) }
{
    let at = arena.count_words();
    arena.grow(count_pointers(pointers))?;
    fill_row(arena, at, pointers)?;
    Ok(())
}

/// The bytes of structs without pointers, which lie one after another in a message: of such of size zero, which it says
/// by their count alone, none.
#[inline(always)]
fn get_pointerless_bytes<'a>(size: StructSize, elements: Elements<'a>) -> Option<&'a [u8]>
    ensures pointerless { ArePointerlessIn result size (element_structs size.data_words size.pointers elements.entry) }
    ensures told { size.pointers ≡ 0 → IsSome result }
{
    if size.pointers != 0 {
        return None;
    }
    let words = elements.count as usize * size.data_words as usize;
    Some(bytes_from(elements.segment, elements.first, 8 * words))
}

/// A composite list: its tag and its elements, and then what their pointers lead to. Elements without pointers are one
/// run of bytes.
#[cycle(copy)]
#[inline(never)]
fn append_composite(arena: &mut Arena, size: StructSize, elements: Elements<'_>) -> Result<()>
    requires held { IsWellFormed (Composite size.data_words size.pointers
        (element_structs size.data_words size.pointers elements)) }
    ensures copy { OnOk result (segment arena.new
        ≡ segment arena.old ++ bytes_of (Composite size.data_words size.pointers
        (element_structs size.data_words size.pointers elements.entry))) }
    ensures sound { OnOk result (first_fault_of_elements (element_structs size.data_words size.pointers elements.entry)
        ≡ None) }
    ensures cause { IfErr result (λ e. IsCopyRefusal e
        (first_fault_of_elements (element_structs size.data_words size.pointers elements.entry))) }
    ensures kept { Spares 0 0 (segment arena.old) (segment arena.new) }
{
    let count = count_elements(size, elements);
    arena.append_word(make_struct_word(
        count as u64,
        size.data_words as u64,
        size.pointers as u64,
    ))?;
    if let Some(bytes) = get_pointerless_bytes(size, elements) {
        arena.append_bytes(bytes)?;
        return Ok(());
    }
    let at = arena.count_words();
    arena.grow(count * (size.data_words as usize + size.pointers as usize))?;
    fill_elements(arena, at, size, elements)?;
    Ok(())
}

// ---- room that is filled ----

/// Puts the pointer of a null into a word.
#[inline(always)]
fn fill_null(arena: &mut Arena, at: usize)
    requires inside { at < word_count (segment arena.old) }
    ensures copy { segment arena.new ≡ bytes_with (8 * at) (spelled_number 8 0) (segment arena.old) }
    ensures kept { Spares at 1 (segment arena.old) (segment arena.new) }
{
    put_word(&mut arena.bytes, 8 * at, 0);
}

/// Puts the pointer to bytes into a word, and appends the words that they take.
#[inline(always)]
fn fill_blob(arena: &mut Arena, at: usize, blob: Blob<'_>) -> Result<()>
    requires few { blob.count < words_past_format }
    requires inside { at < word_count (segment arena.old) }
    ensures copy { OnOk result (segment arena.new ≡
        bytes_with (8 * at) (spelled_number 8 (list_word (word_count (segment arena.old) - suc at) 2 blob.entry.count))
        (segment arena.old) ++ padded_bytes blob.entry.words.now) }
    ensures kind { IfErr result (λ e. e.kind ≡ OutOfMemory) }
    ensures kept { Spares at 1 (segment arena.old) (segment arena.new) }
{
    let gap = arena.count_words() - at - 1;
    let word = make_list_word(gap as u64, 2, blob.count as u64);
    put_word(&mut arena.bytes, 8 * at, word);
    arena.append_bytes(blob.words)
}

/// Puts a pointer into a word, and appends what it leads to.
#[cycle(copy)]
#[inline(always)]
pub(crate) fn fill_pointer(arena: &mut Arena, at: usize, pointer: Pointer<'_>) -> Result<()>
    requires held { IsWellFormed (pointer_tree pointer) }
    requires inside { at < word_count (segment arena.old) }
    ensures copy { OnOk result (segment arena.new ≡
        bytes_with (8 * at) (spelled_number 8 (pointer_word (word_count (segment arena.old) - suc at) (pointer_tree pointer.entry)))
        (segment arena.old) ++ bytes_of (pointer_tree pointer.entry)) }
    ensures sound { OnOk result (first_fault (pointer_tree pointer.entry) ≡ None) }
    ensures cause { IfErr result (λ e. IsCopyRefusal e (first_fault (pointer_tree pointer.entry))) }
    ensures kept { Spares at 1 (segment arena.old) (segment arena.new) }
{
    if is_null_word(pointer) {
        fill_null(arena, at);
        return Ok(());
    }
    if let Some(blob) = find_blob(pointer) {
        return fill_blob(arena, at, blob);
    }
    let found = look(pointer);
    let gap = arena.count_words() - at - 1;
    put_word(&mut arena.bytes, 8 * at, point_to(gap as u64, found));
    append_found(arena, found)?;
    Ok(())
}

/// Puts pointers in a row into the words from one on, and appends what they lead to.
#[cycle(copy)]
#[inline(always)]
pub(crate) fn fill_row(arena: &mut Arena, at: usize, pointers: Pointers<'_>) -> Result<()>
    requires held { AreWellFormed (pointer_trees pointers) }
    requires inside { at + tree_count (pointer_trees pointers) ≤ word_count (segment arena.old) }
    ensures copy { OnOk result (segment arena.new
        ≡ with_pointers (8 * at) (pointer_trees pointers.entry) (segment arena.old)) }
    ensures sound { OnOk result (first_fault_of_all (pointer_trees pointers.entry) ≡ None) }
    ensures cause { IfErr result (λ e. IsCopyRefusal e (first_fault_of_all (pointer_trees pointers.entry))) }
    ensures kept { Spares at (tree_count (pointer_trees pointers.entry)) (segment arena.old) (segment arena.new) }
{
    let count = count_pointers(pointers);
    for i in 0..count {
        fill_pointer(arena, at + i, get_pointer(pointers, i))?;
    }
    Ok(())
}

/// Puts one struct of a list into its room, data and pointers, and appends what its pointers lead to.
#[cycle(copy)]
#[inline(always)]
fn fill_element(arena: &mut Arena, at: usize, parts: StructParts<'_>) -> Result<()>
    requires held { IsWellFormed (struct_tree (parts_tree parts)) }
    requires inside { at + (length (parts_tree parts).bytes / 8 + tree_count (parts_tree parts).pointers) ≤ word_count
        (segment arena.old) }
    ensures copy { OnOk result (segment arena.new
        ≡ with_encoded_element (8 * at) (parts_tree parts.entry) (segment arena.old)) }
    ensures sound { OnOk result (first_fault_of_all (parts_tree parts.entry).pointers ≡ None) }
    ensures cause { IfErr result (λ e. IsCopyRefusal e (first_fault_of_all (parts_tree parts.entry).pointers)) }
    ensures kept { Spares at (length (parts_tree parts.entry).bytes / 8 + tree_count (parts_tree parts.entry).pointers)
        (segment arena.old) (segment arena.new) }
{
    put_bytes(&mut arena.bytes, 8 * at, parts.data);
    fill_row(arena, at + parts.data.len() / 8, parts.pointers)?;
    Ok(())
}

/// Puts the structs of a list in a row into their room, and appends what their pointers lead to.
#[cycle(copy)]
fn fill_elements(
    arena: &mut Arena,
    at: usize,
    size: StructSize,
    elements: Elements<'_>,
) -> Result<()>
    requires held { AreElements size.data_words size.pointers (element_structs size.data_words size.pointers elements) }
    requires inside { at + struct_count (element_structs size.data_words size.pointers elements) *
        (size.data_words + size.pointers) ≤ word_count (segment arena.old) }
    ensures copy { OnOk result (segment arena.new
        ≡ with_encoded_elements (size.data_words + size.pointers) (8 * at)
        (element_structs size.data_words size.pointers elements.entry) (segment arena.old)) }
    ensures sound { OnOk result (first_fault_of_elements (element_structs size.data_words size.pointers elements.entry)
        ≡ None) }
    ensures cause { IfErr result (λ e. IsCopyRefusal e
        (first_fault_of_elements (element_structs size.data_words size.pointers elements.entry))) }
    ensures kept { Spares at (struct_count (element_structs size.data_words size.pointers elements.entry) *
        (size.data_words + size.pointers)) (segment arena.old) (segment arena.new) }
{
    let count = count_elements(size, elements);
    let step = size.data_words as usize + size.pointers as usize;
    for i in 0..count {
        fill_element(arena, at + i * step, get_element(size, elements, i))?;
    }
    Ok(())
}
