//! Lists that become lists of structs.
ghost use Rattle.std.specs.Prelude.{IfErr, IfOk, OnErr, length, max, ◌*◌, ◌+◌, ◌/◌, ◌<◌, ◌^◌, ◌≡◌, ◌≤◌};
ghost use Rattle.capnp_device.specs.declared.error.ErrorKind.TheVariants.{OutOfMemory};
ghost use Rattle.capnp_wire.specs.Encoding.{bytes_of};
ghost use Rattle.capnp_wire.specs.Locate.{words_past_format};
ghost use Rattle.capnp_wire.specs.StructLists.{as_structs};
ghost use Rattle.capnp_wire.specs.WellFormed.{IsWellFormed};
ghost use Rattle.capnp_arena.specs.Forest.{Forest, tree};
ghost use Rattle.capnp_arena.specs.Steps.Grown.{IsPartList, kind_pointers, kind_words, number_parts, pointerless_parts, struct_parts};
ghost use Rattle.capnp_arena.specs.Made.{size_number};
ghost use Rattle.capnp_arena.specs.Shape.{word_count};

use crate::arena::Arena;
use crate::grown::{PartRow, encode_all_grown};
use crate::list_reads::{ListTarget, get_element_size};
use crate::lists::{ListPlace, StructsPlace};
use crate::look::Target;
use crate::spell::make_list_word;
use capnp_device::error::{Error, ErrorKind, Result};
use capnp_wire::size::{ElementSize, StructSize};
use std::alloc::Global;

/// Structs of nothing.
#[inline(always)]
fn get_empty_row() -> PartRow
    ensures { result ≡ pointerless_parts 0 0 }
{
    PartRow {
        first_byte: 0,
        data_count: 0,
        data_step: 0,
        first: 0,
        pointers: 0,
        pointer_step: 0,
    }
}

/// Numbers of so many bytes as structs.
#[inline(always)]
fn get_number_row(start: usize, width: usize) -> PartRow
    requires { start < 2 ^ 32 }
    ensures { result ≡ number_parts start width }
{
    PartRow {
        first_byte: 8 * start,
        data_count: width,
        data_step: width,
        first: 0,
        pointers: 0,
        pointer_step: 0,
    }
}

/// Where the elements of a list stand that is not of structs, by the number of its element size.
#[inline(always)]
fn get_plain_row(start: usize, number: u8) -> PartRow
    requires { start < 2 ^ 32 }
    ensures { result ≡ pointerless_parts start number }
{
    match number {
        0 => get_empty_row(),
        1 => get_empty_row(),
        2 => get_number_row(start, 1),
        3 => get_number_row(start, 2),
        4 => get_number_row(start, 4),
        5 => get_number_row(start, 8),
        _ => PartRow {
            first_byte: 0,
            data_count: 0,
            data_step: 0,
            first: start,
            pointers: 1,
            pointer_step: 1,
        },
    }
}

/// Where the elements of a list of structs stand.
#[inline(always)]
fn get_struct_row(list: StructsPlace) -> PartRow
    requires { list.tag < 2 ^ 32 }
    ensures { result ≡ struct_parts list.tag list.data_words list.pointers }
{
    let step = list.data_words as usize + list.pointers as usize;
    PartRow {
        first_byte: 8 * (list.tag + 1),
        data_count: 8 * list.data_words as usize,
        data_step: 8 * step,
        first: list.tag + 1 + list.data_words as usize,
        pointers: list.pointers as usize,
        pointer_step: step,
    }
}

/// At least a size, and what an element takes as a struct.
#[inline(always)]
fn grow_plain(size: StructSize, number: u8) -> StructSize
    ensures data { result.data_words ≡ max size.data_words (kind_words number) }
    ensures pointers { result.pointers ≡ max size.pointers (kind_pointers number) }
{
    let data_words = match number {
        0 => 0,
        1 => 0,
        2 => 1,
        3 => 1,
        4 => 1,
        5 => 1,
        _ => 0,
    };
    let pointers = match number {
        0 => 0,
        1 => 0,
        2 => 0,
        3 => 0,
        4 => 0,
        5 => 0,
        _ => 1,
    };
    StructSize {
        data_words: size.data_words.max(data_words),
        pointers: size.pointers.max(pointers),
    }
}

/// At least a size, and what an element of a list of structs takes.
#[inline(always)]
fn grow_structs(size: StructSize, list: StructsPlace) -> StructSize
    ensures data { result.data_words ≡ max size.data_words list.data_words }
    ensures pointers { result.pointers ≡ max size.pointers list.pointers }
{
    StructSize {
        data_words: size.data_words.max(list.data_words),
        pointers: size.pointers.max(list.pointers),
    }
}

/// The number of an element size.
#[inline(always)]
pub(crate) fn get_number(size: ElementSize) -> u8
    ensures { result ≡ size_number size }
{
    match size {
        ElementSize::Void => 0,
        ElementSize::Bit => 1,
        ElementSize::Byte => 2,
        ElementSize::TwoBytes => 3,
        ElementSize::FourBytes => 4,
        ElementSize::EightBytes => 5,
        ElementSize::Pointer => 6,
        ElementSize::InlineComposite => 7,
    }
}

/// The encoding of the list that a pointer leads to as one of structs of at least a size, where there is room for the
/// tag and the structs themselves in so many words: what their pointers lead to stands in the segment, so no more words
/// are taken than these.
///
/// Refused with `OutOfMemory`.
fn encode_structs(
    alloc: Global,
    bytes: &[u8],
    at: usize,
    row: PartRow,
    count: u32,
    size: StructSize,
    limit: usize,
) -> Result<Vec<u8>>
    requires forest { Forest bytes.now at }
    requires list { IsPartList bytes.now at row count }
    requires few { (limit < words_past_format) × (count < words_past_format) }
    requires fits { (row.data_count ≤ 8 * size.data_words) × (row.pointers ≤ size.pointers) }
    requires room { word_count bytes.now + (1 + count * (size.data_words + size.pointers)) ≤ limit }
    ensures content { IfOk result (λ v. v.items ≡ bytes_of (as_structs size (tree bytes.now at))) }
    ensures held { IfOk result (λ _. IsWellFormed (as_structs size (tree bytes.now at))) }
    ensures words { IfOk result (λ v. (length v.items ≡ 8 * (length v.items / 8)) × (length v.items ≤ 8 * limit)) }
    ensures kind { IfErr result (λ e. e.kind ≡ OutOfMemory) }
{
    let content = encode_all_grown(alloc, bytes, row, count as usize, size)?;
    Ok(content)
}

impl Arena {
    ghost use Rattle.std.specs.Prelude.{IsOk, None, OnOk, ◌≢◌};
    ghost use Rattle.capnp_wire.specs.Elements.{or_empty};
    ghost use Rattle.capnp_wire.specs.StructLists.{HoldsStructs, IsDueRefusal, past_format, struct_list, struct_list_refusal};
    ghost use Rattle.capnp_arena.specs.Forest.{Changes};
    ghost use Rattle.capnp_arena.specs.Listed.{list_shape, listed_tree};
    ghost use Rattle.capnp_arena.specs.Segment.{segment};
    ghost use Rattle.capnp_arena.specs.Shape.{CompositeIn, ListIn, shape_at};

    /// Makes the pointer at a word, which leads to a list, lead to one of structs of at least a size at the end, with
    /// copies of what its elements' pointers lead to.
    ///
    /// Refused with `SizePastFormat` where the structs would take 2^29 words or more, and else with `OutOfMemory`; then
    /// nothing has changed.
    #[inline(never)]
    fn make_structs(
        &mut self,
        at: usize,
        row: PartRow,
        count: u32,
        size: StructSize,
    ) -> Result<StructsPlace>
        requires forest { Forest (segment self.old) at }
        requires list { IsPartList (segment self.old) at row count }
        requires few { count < words_past_format }
        requires fits { (row.data_count ≤ 8 * size.data_words) × (row.pointers ≤ size.pointers) }
        ensures forest { IfOk result (λ _. Forest (segment self.new) at) }
        ensures place { IfOk result (λ l. shape_at (segment self.new) at
            ≡ CompositeIn l.tag l.count l.data_words l.pointers) }
        ensures tree { IfOk result (λ _. tree (segment self.new) at ≡ as_structs size (tree (segment self.old) at)) }
        ensures changes { IfOk result (λ _. Changes at (segment self.old) (segment self.new)) }
        ensures within { OnOk result (past_format count size ≡ None) }
        ensures cause { IfErr result (λ e. IsDueRefusal e (past_format count size)) }
        ensures refused { OnErr result (segment self.new ≡ segment self.old) }
    {
        let words = count as usize * (size.data_words as usize + size.pointers as usize);
        if words >= 1 << 29 {
            return Err(Error::from(ErrorKind::SizePastFormat));
        }
        if !self.has_room(1 + words) {
            return Err(Error::from(ErrorKind::OutOfMemory));
        }
        let alloc = *self.bytes.allocator();
        let bytes = self.bytes.as_slice();
        let content = encode_structs(alloc, bytes, at, row, count, size, self.limit)?;
        let end = self.bytes.len() / 8;
        let word = make_list_word((end - at - 1) as u64, 7, words as u64);
        self.make_with(at, word, content.len() / 8, content.as_slice())?;
        Ok(StructsPlace {
            tag: end,
            count,
            data_words: size.data_words,
            pointers: size.pointers,
        })
    }

    /// Makes the structs of a list that is neither of structs nor of bits.
    fn grow_plain_list(
        &mut self,
        at: usize,
        list: ListPlace,
        size: StructSize,
    ) -> Result<StructsPlace>
        requires forest { Forest (segment self.old) at }
        requires there { shape_at (segment self.old) at ≡ ListIn list.start (size_number list.size) list.count }
        requires simple { size_number list.size ≢ 1 }
        ensures forest { IfOk result (λ _. Forest (segment self.new) at) }
        ensures place { IfOk result (λ l. shape_at (segment self.new) at
            ≡ CompositeIn l.tag l.count l.data_words l.pointers) }
        ensures tree { IfOk result (λ _. tree (segment self.new) at ≡ struct_list size (tree (segment self.old) at)) }
        ensures changes { IfOk result (λ _. Changes at (segment self.old) (segment self.new)) }
        ensures within { OnOk result (struct_list_refusal size (tree (segment self.old) at) ≡ None) }
        ensures cause { IfErr result (λ e. IsDueRefusal e (struct_list_refusal size (tree (segment self.old) at))) }
        ensures refused { OnErr result (segment self.new ≡ segment self.old) }
    {
        let number = get_number(list.size);
        let row = get_plain_row(list.start, number);
        self.make_structs(at, row, list.count, grow_plain(size, number))
    }

    /// Makes the structs of a list of structs.
    fn grow_struct_list(
        &mut self,
        at: usize,
        list: StructsPlace,
        size: StructSize,
    ) -> Result<StructsPlace>
        requires forest { Forest (segment self.old) at }
        requires there { shape_at (segment self.old) at
            ≡ CompositeIn list.tag list.count list.data_words list.pointers }
        ensures forest { IfOk result (λ _. Forest (segment self.new) at) }
        ensures place { IfOk result (λ l. shape_at (segment self.new) at
            ≡ CompositeIn l.tag l.count l.data_words l.pointers) }
        ensures tree { IfOk result (λ _. tree (segment self.new) at ≡ struct_list size (tree (segment self.old) at)) }
        ensures changes { IfOk result (λ _. Changes at (segment self.old) (segment self.new)) }
        ensures within { OnOk result (struct_list_refusal size (tree (segment self.old) at) ≡ None) }
        ensures cause { IfErr result (λ e. IsDueRefusal e (struct_list_refusal size (tree (segment self.old) at))) }
        ensures refused { OnErr result (segment self.new ≡ segment self.old) }
    {
        let row = get_struct_row(list);
        self.make_structs(at, row, list.count, grow_structs(size, list))
    }

    /// The list that the pointer at a word leads to, as one of structs of at least a size. A null is a list without
    /// elements, and stays null. A list of other elements becomes one of structs at the end, and so does one of smaller
    /// structs: each element then has at least the size, with zeros and nulls after what it had, and has lost nothing.
    ///
    /// Refused with `WrongPointerKind` for a struct, with `WrongElementSize` for a list of bits, with `SizePastFormat`
    /// where the structs would take 2^29 words or more, and else with `OutOfMemory`; then nothing has changed. A null,
    /// and a list of structs that have at least the size, take no memory and are never refused.
    ///
    /// # Conditions
    ///
    /// The pointer at the word leads to a tree of this message, no two of whose parts share a word (`Forest`).
    #[inline(always)]
    pub fn get_struct_list(&mut self, at: usize, size: StructSize) -> Result<ListTarget>
        requires forest { Forest (segment self.old) at }
        ensures forest { IfOk result (λ _. Forest (segment self.new) at) }
        ensures place { IfOk result (λ l. list_shape l ≡ shape_at (segment self.new) at) }
        ensures tree { IfOk result (λ _. tree (segment self.new) at ≡ struct_list size (tree (segment self.old) at)) }
        ensures reads { IfOk result (λ l. listed_tree (tree (segment self.new) at) l
            ≡ or_empty ElementSize.InlineComposite (struct_list size (tree (segment self.old) at))) }
        ensures changes { IfOk result (λ _. Changes at (segment self.old) (segment self.new)) }
        ensures within { OnOk result (struct_list_refusal size (tree (segment self.old) at) ≡ None) }
        ensures cause { IfErr result (λ e. IsDueRefusal e (struct_list_refusal size (tree (segment self.old) at))) }
        ensures refused { OnErr result (segment self.new ≡ segment self.old) }
        ensures succeeds { HoldsStructs size (tree (segment self.old) at) → IsOk result }
        ensures stays { HoldsStructs size (tree (segment self.old) at) → segment self.new ≡ segment self.old }
    {
        match self.look(at) {
            Target::Null => Ok(ListTarget::Nothing(ElementSize::InlineComposite)),
            Target::Struct { .. } => Err(Error::from(ErrorKind::WrongPointerKind)),
            Target::List {
                start,
                element_size,
                count,
            } => {
                if element_size == 1 {
                    return Err(Error::from(ErrorKind::WrongElementSize));
                }
                let simple = get_element_size(element_size);
                let list = ListPlace {
                    start,
                    size: simple,
                    count,
                };
                let grown = self.grow_plain_list(at, list, size)?;
                Ok(ListTarget::Structs(grown))
            }
            Target::Composite {
                tag,
                count,
                data_words,
                pointers,
            } => {
                let list = StructsPlace {
                    tag,
                    count,
                    data_words,
                    pointers,
                };
                if size.data_words <= data_words && size.pointers <= pointers {
                    return Ok(ListTarget::Structs(list));
                }
                let grown = self.grow_struct_list(at, list, size)?;
                Ok(ListTarget::Structs(grown))
            }
        }
    }
}
