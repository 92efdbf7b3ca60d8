//! The elements of a spliced list, by their kinds, in a message of their own.
ghost use Rattle.std.specs.Prelude.{IfErr, None, OnOk, Some, ◌+◌, ◌<◌, ◌≡◌, ◌≢◌, ◌≤◌};
ghost use Rattle.capnp_device.specs.declared.error.ErrorKind.TheVariants.{OutOfMemory};
ghost use Rattle.capnp_wire.specs.ElementSizes.{element_size_of};
ghost use Rattle.capnp_wire.specs.Reading.{list_length};
ghost use Rattle.capnp_wire.specs.Standing.{list_levels, list_of};
ghost use Rattle.capnp_wire.specs.StructLists.{element_pointers, element_words};
ghost use Rattle.capnp_arena.specs.Made.{width_of};
ghost use Rattle.capnp_arena.specs.Message.{IsMessage, message_tree};
ghost use Rattle.capnp_arena.specs.Segment.{segment};
ghost use Rattle.capnp_arena.specs.Shape.{word_count};
ghost use Rattle.capnp_splices.specs.Picks.{splice_seen};
ghost use Rattle.capnp_splices.specs.Splices.{HasRoomFor, made_refusal, spliced_bits, spliced_count, spliced_numbers, spliced_pointers, spliced_structs};
ghost use Rattle.capnp_wire.specs.Tree.{Voids};

use crate::pick::{Splice, count_spliced, pick};
use crate::put::{put_bit, put_number, put_pointer, put_struct};
use capnp_arena::arena::Arena;
use capnp_wire::ListReader;
use capnp_wire::error::Result;
use capnp_wire::laws::list_is_well_formed;
use capnp_wire::primitive::PrimitiveElement;
use capnp_wire::size::{ElementSize, StructSize};

/// Elements of nothing.
pub fn splice_voids(arena: &mut Arena, splice: Splice<'_>) -> Result<()>
    requires inside { 0 < word_count (segment arena.old) }
    requires within { splice.at + splice.removed ≤ list_length (list_of splice.old) }
    ensures message { OnOk result (IsMessage arena.new) }
    ensures tree { OnOk result (message_tree arena.new ≡ Voids (spliced_count (splice_seen splice.entry))) }
    ensures sound { OnOk result (made_refusal (Voids (spliced_count (splice_seen splice.entry))) ≡ None) }
    ensures cause { IfErr result (λ e. e.kind ≢ OutOfMemory
        → made_refusal (Voids (spliced_count (splice_seen splice.entry))) ≡ Some e.kind) }
{
    arena.init_list(0, ElementSize::Void, count_spliced(splice))?;
    Ok(())
}

/// The bits of both lists.
pub fn splice_bits(arena: &mut Arena, splice: Splice<'_>) -> Result<()>
    requires inside { 0 < word_count (segment arena.old) }
    requires within { splice.at + splice.removed ≤ list_length (list_of splice.old) }
    ensures message { OnOk result (IsMessage arena.new) }
    ensures tree { OnOk result (message_tree arena.new ≡ spliced_bits (splice_seen splice.entry)) }
    ensures sound { OnOk result (made_refusal (spliced_bits (splice_seen splice.entry)) ≡ None) }
    ensures cause { IfErr result (λ e. e.kind ≢ OutOfMemory
        → made_refusal (spliced_bits (splice_seen splice.entry)) ≡ Some e.kind) }
{
    let count = count_spliced(splice);
    arena.init_list(0, ElementSize::Bit, count)?;
    for index in 0..count {
        let picked = pick(splice, index);
        put_bit(arena, index, picked.list.get_bool_element(picked.index));
    }
    Ok(())
}

/// The numbers of both lists, of a width.
pub fn splice_numbers<T: PrimitiveElement>(
    arena: &mut Arena,
    splice: Splice<'_>,
    size: ElementSize,
) -> Result<()>
    requires inside { 0 < word_count (segment arena.old) }
    requires within { splice.at + splice.removed ≤ list_length (list_of splice.old) }
    requires width { T.width ≡ width_of size }
    requires some { 0 < T.width }
    ensures message { OnOk result (IsMessage arena.new) }
    ensures tree { OnOk result (message_tree arena.new ≡ spliced_numbers T.width (splice_seen splice.entry)) }
    ensures sound { OnOk result (made_refusal (spliced_numbers T.width (splice_seen splice.entry)) ≡ None) }
    ensures cause { IfErr result (λ e. e.kind ≢ OutOfMemory
        → made_refusal (spliced_numbers T.width (splice_seen splice.entry)) ≡ Some e.kind) }
{
    let count = count_spliced(splice);
    arena.init_list(0, size, count)?;
    for index in 0..count {
        let picked = pick(splice, index);
        list_is_well_formed(&picked.list);
        put_number::<T>(arena, index, picked.list.get_data_element(picked.index));
    }
    Ok(())
}

/// The pointers of both lists, with copies of what they lead to.
pub fn splice_pointers(arena: &mut Arena, splice: Splice<'_>) -> Result<()>
    requires inside { 0 < word_count (segment arena.old) }
    requires within { splice.at + splice.removed ≤ list_length (list_of splice.old) }
    requires old { element_size_of (list_of splice.old) ≡ ElementSize.Pointer }
    requires added { element_size_of (list_of splice.added) ≡ ElementSize.Pointer }
    ensures message { OnOk result (IsMessage arena.new) }
    ensures tree { OnOk result (message_tree arena.new ≡ spliced_pointers (splice_seen splice.entry)) }
    ensures sound { OnOk result (made_refusal (spliced_pointers (splice_seen splice.entry)) ≡ None) }
    ensures cause { IfErr result (λ e. e.kind ≢ OutOfMemory
        → made_refusal (spliced_pointers (splice_seen splice.entry)) ≡ Some e.kind) }
{
    let count = count_spliced(splice);
    arena.init_list(0, ElementSize::Pointer, count)?;
    for index in 0..count {
        let picked = pick(splice, index);
        put_pointer(arena, index, picked.list.get_pointer_element(picked.index))?;
    }
    Ok(())
}

/// A list with a level left for each of its elements.
fn with_a_level<'a>(list: ListReader<'a>) -> ListReader<'a>
    ensures list { list_of result ≡ list_of list.entry }
    ensures levels { list_levels result ≡ 1 }
{
    list_is_well_formed(&list);
    ListReader::new(list.found(), 1)
}

/// The elements of both lists as structs of a size, with all that they have.
pub fn splice_structs(arena: &mut Arena, splice: Splice<'_>, size: StructSize) -> Result<()>
    requires inside { 0 < word_count (segment arena.old) }
    requires within { splice.at + splice.removed ≤ list_length (list_of splice.old) }
    requires old { HasRoomFor size (list_of splice.old) }
    requires added { HasRoomFor size (list_of splice.added) }
    ensures message { OnOk result (IsMessage arena.new) }
    ensures tree { OnOk result (message_tree arena.new ≡ spliced_structs size (splice_seen splice.entry)) }
    ensures sound { OnOk result (made_refusal (spliced_structs size (splice_seen splice.entry)) ≡ None) }
    ensures cause { IfErr result (λ e. e.kind ≢ OutOfMemory
        → made_refusal (spliced_structs size (splice_seen splice.entry)) ≡ Some e.kind) }
{
    let count = count_spliced(splice);
    arena.init_struct_list(0, count, size)?;
    for index in 0..count {
        let picked = pick(splice, index);
        let list = with_a_level(picked.list);
        list_is_well_formed(&list);
        let Ok(element) = list.get_struct_element(picked.index) else {
            unreachable!()
        };
        put_struct(arena, index, &element)?;
    }
    Ok(())
}
