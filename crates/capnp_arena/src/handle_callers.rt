//! Callers of the builders: what a message holds once the builders of its parts are done.
ghost use Rattle.std.specs.Prelude.{[], length, replicate, slice_set, IfErr, IfOk, OnErr, OnOk, ◌*◌, ◌+◌, ◌++◌, ◌∷◌, ◌<◌, ◌≡◌, ◌≢◌, ◌≤◌, ◌⊎◌};
ghost use Rattle.capnp_device.specs.declared.error.ErrorKind.TheVariants.{OutOfMemory, SizePastFormat};
ghost use Rattle.capnp_wire.specs.Edits.{IsRoomRefusal, with_bytes, with_number, with_pointer_tree, zero_struct, zero_structs};
ghost use Rattle.capnp_wire.specs.Elements.{HasPointer, with_pointer_element, with_struct_element};
ghost use Rattle.capnp_wire.specs.Encoding.{message_of};
ghost use Rattle.capnp_wire.specs.Locate.{words_past_format};
ghost use Rattle.capnp_wire.specs.Place.{bytes_at, struct_tree};
ghost use Rattle.capnp_wire.specs.Reading.{element_struct};
ghost use Rattle.capnp_wire.specs.Tree.{Numbers};
ghost use Rattle.capnp_arena.specs.Forest.{Changes, Forest, PartChanges, tree};
ghost use Rattle.capnp_arena.specs.Handles.{IsBuiltStruct, built_struct_tree, built_list_tree, handle_words};
ghost use Rattle.capnp_arena.specs.Leaves.{Leaves};
ghost use Rattle.capnp_arena.specs.Message.{IsMessage, message_tree};
ghost use Rattle.capnp_arena.specs.Segment.{segment};
ghost use Rattle.capnp_arena.specs.Shape.{ListIn, shape_at, word_count};

use crate::list_builder::ListBuilder;
use crate::lists::ListPlace;
use crate::message::Builder;
use crate::pointer_builder::PointerBuilder;
use crate::struct_builder::StructBuilder;
use capnp_device::error::Result;
use capnp_wire::size::{ElementSize, StructSize};
use std::alloc::Global;

/// Makes the root a struct with a text at a pointer.
///
/// Refused as `init_struct` and `set_text`; then the root is as it was, or the struct without the text.
///
/// # Conditions
///
/// A tree stands at the message's root (`IsMessage`), and `index` is below the number of pointers of that size.
pub fn build_struct(message: &mut Builder, size: StructSize, index: u16, text: &[u8]) -> Result<()>
    requires message { IsMessage message.old }
    requires pointer { index < size.pointers }
    ensures message { IsMessage message.new }
    ensures tree { OnOk result (message_tree message.new
        ≡ struct_tree (with_pointer_tree (zero_struct size) index (Numbers 1 (text.now ++ 0 ∷ [])))) }
    ensures cause { IfErr result (λ e. e.kind ≢ OutOfMemory → (e.kind ≡ SizePastFormat) × (words_past_format ≤ length text.now + 1)) }
    ensures refused { OnErr result ((segment message.new ≡ segment message.old)
        ⊎ (message_tree message.new ≡ struct_tree (zero_struct size))) }
{
    let made = message.root().init_struct(size)?;
    made.get_pointer_field(index).set_text(text)?;
    Ok(())
}

/// Sets a text at a pointer of a struct, and then a number in it.
///
/// Refused as `set_text`; then nothing has changed.
///
/// # Conditions
///
/// A struct of the message stands at the builder's place (`IsBuiltStruct`), and `index` is below the number of its
/// pointers. Its data section has at least one word.
pub fn fill_struct(built: &mut StructBuilder<'_>, index: u16, text: &[u8], value: u64) -> Result<()>
    requires planted { IsBuiltStruct built.old }
    requires pointer { index < built.old.place.pointers }
    requires word { 0 < built.old.place.data_words }
    ensures same { built.new.arena.ghost_name ≡ built.old.arena.ghost_name }
    ensures place { built.new.place ≡ built.old.place }
    ensures planted { IsBuiltStruct built.new }
    ensures tree { OnOk result (built_struct_tree built.new
        ≡ with_bytes (with_pointer_tree (built_struct_tree built.old) index (Numbers 1 (text.now ++ 0 ∷ [])))
        (with_number 8 0 value (built_struct_tree built.old).bytes)) }
    ensures changes { PartChanges (handle_words built.old.place) (segment built.old.arena.now) (segment built.new.arena.now) }
    ensures cause { IfErr result (λ e. IsRoomRefusal e (words_past_format ≤ length text.now + 1)) }
    ensures refused { OnErr result (segment built.new.arena.now ≡ segment built.old.arena.now) }
{
    let place = built.place;
    let mut pointer = built.arena.pointer_field(place, index);
    pointer.set_text(text)?;
    built.set_data_field(0, value);
    Ok(())
}

/// Replaces what stands at a pointer by a text.
///
/// Refused as `set_text`; then nothing has changed.
///
/// # Conditions
///
/// The pointer's word lies inside the message's segment.
pub fn set_text_at(pointer: PointerBuilder<'_>, text: &[u8]) -> Result<()>
    requires inside { pointer.at < word_count (segment pointer.arena.now) }
    ensures forest { OnOk result (Forest (segment pointer.exit.0.now) pointer.entry.at) }
    ensures tree { OnOk result (tree (segment pointer.exit.0.now) pointer.entry.at ≡ Numbers 1 (text.now ++ 0 ∷ [])) }
    ensures changes { OnOk result (Changes pointer.entry.at (segment pointer.entry.arena.now)
        (segment pointer.exit.0.now)) }
    ensures cause { IfErr result (λ e. IsRoomRefusal e (words_past_format ≤ length text.now + 1)) }
    ensures refused { OnErr result (segment pointer.exit.0.now ≡ segment pointer.entry.arena.now) }
{
    let PointerBuilder { arena, at } = pointer;
    arena.set_text(at, text)
}

/// Sets a text at a pointer of a struct, which lends it.
///
/// Refused as `set_text`; then nothing has changed.
///
/// # Conditions
///
/// A struct of the message stands at the builder's place (`IsBuiltStruct`), and `index` is below the number of its
/// pointers.
pub fn set_text_field(built: &mut StructBuilder<'_>, index: u16, text: &[u8]) -> Result<()>
    requires planted { IsBuiltStruct built.old }
    requires pointer { index < built.old.place.pointers }
    ensures same { built.new.arena.ghost_name ≡ built.old.arena.ghost_name }
    ensures place { built.new.place ≡ built.old.place }
    ensures planted { IsBuiltStruct built.new }
    ensures tree { OnOk result (built_struct_tree built.new
        ≡ with_pointer_tree (built_struct_tree built.old) index (Numbers 1 (text.now ++ 0 ∷ []))) }
    ensures cause { IfErr result (λ e. IsRoomRefusal e (words_past_format ≤ length text.now + 1)) }
    ensures refused { OnErr result (segment built.new.arena.now ≡ segment built.old.arena.now) }
{
    set_text_at(built.pointer_field_mut(index), text)
}

/// Sets a text at a pointer of a list.
///
/// Refused as `set_text`; then nothing has changed.
///
/// # Conditions
///
/// A tree of the message stands at the list's pointer (`Forest`), and is a list with a pointer at `index`
/// (`HasPointer`).
pub fn set_text_element(list: &mut ListBuilder<'_>, index: u32, text: &[u8]) -> Result<()>
    requires forest { Forest (segment list.old.arena.now) list.old.at }
    requires pointer { HasPointer (built_list_tree list.old) index }
    ensures same { list.new.arena.ghost_name ≡ list.old.arena.ghost_name }
    ensures at { list.new.at ≡ list.old.at }
    ensures list { list.new.list ≡ list.old.list }
    ensures leaves { OnOk result (Leaves list.old.at
        (with_pointer_element index (Numbers 1 (text.now ++ 0 ∷ [])) (built_list_tree list.old)) (segment list.old.arena.now)
        (segment list.new.arena.now)) }
    ensures cause { IfErr result (λ e. IsRoomRefusal e (words_past_format ≤ length text.now + 1)) }
    ensures refused { OnErr result (segment list.new.arena.now ≡ segment list.old.arena.now) }
{
    let at = list.at;
    let mut pointer = list.arena.pointer_element(at, index);
    pointer.set_text(text)?;
    Ok(())
}

/// Makes the root a list of structs with a text at a pointer of one of them.
///
/// Refused as `init_struct_list` and `set_text`; then the root is as it was, or the list without the text.
///
/// # Conditions
///
/// A tree stands at the message's root (`IsMessage`). `element` is below `count`, and `index` below the number of
/// pointers of that size.
pub fn build_list(
    message: &mut Builder,
    count: u32,
    size: StructSize,
    element: u32,
    index: u16,
    text: &[u8],
) -> Result<()>
    requires message { IsMessage message.old }
    requires element { element < count }
    requires pointer { index < size.pointers }
    ensures message { IsMessage message.new }
    ensures tree { OnOk result (message_tree message.new ≡
        with_struct_element element (with_pointer_tree (element_struct (zero_structs size count) element) index
        (Numbers 1 (text.now ++ 0 ∷ []))) (zero_structs size count)) }
    ensures cause { IfErr result (λ e. e.kind ≢ OutOfMemory → (e.kind ≡ SizePastFormat) × ((words_past_format ≤ count)
        ⊎ (words_past_format ≤ count * (size.data_words + size.pointers)) ⊎ (words_past_format ≤ length text.now + 1))) }
    ensures refused { OnErr result ((segment message.new ≡ segment message.old)
        ⊎ (message_tree message.new ≡ zero_structs size count)) }
{
    let root = message.root();
    let list = root.init_struct_list(count, size)?;
    let built = list.get_struct_element(element);
    let mut pointer = built.get_pointer_field(index);
    pointer.set_text(text)?;
    Ok(())
}

/// The bytes of a message whose root is a struct with a text.
///
/// Refused as `build_struct` and `write_message`.
///
/// # Conditions
///
/// `index` is below the number of pointers of that size.
pub fn write_struct(alloc: Global, size: StructSize, index: u16, text: &[u8]) -> Result<Vec<u8>>
    requires pointer { index < size.pointers }
    ensures bytes { IfOk result (λ v. v.items
        ≡ message_of (struct_tree (with_pointer_tree (zero_struct size) index (Numbers 1 (text.now ++ 0 ∷ []))))) }
    ensures cause { IfErr result (λ e. e.kind ≢ OutOfMemory → (e.kind ≡ SizePastFormat) × (words_past_format ≤ length text.now + 1)) }
{
    let mut message = Builder::new(alloc)?;
    build_struct(&mut message, size, index, text)?;
    message.write_message()
}

/// Makes the root data of so many zero bytes, of which the first is another one.
///
/// Refused as `init_list`; then nothing has changed.
///
/// # Conditions
///
/// A tree stands at the message's root (`IsMessage`), and `count` is not 0.
pub fn build_data(message: &mut Builder, count: u32, first: u8) -> Result<()>
    requires message { IsMessage message.old }
    requires first { 0 < count }
    ensures message { IsMessage message.new }
    ensures tree { OnOk result (message_tree message.new ≡ Numbers 1 (slice_set (replicate count 0) 0 first)) }
    ensures cause { IfErr result (λ e. IsRoomRefusal e (words_past_format ≤ count)) }
    ensures refused { OnErr result (segment message.new ≡ segment message.old) }
{
    let start = message.init_list(0, ElementSize::Byte, count)?;
    let list = ListPlace {
        start,
        size: ElementSize::Byte,
        count,
    };
    let bytes = message.bytes_mut(0, list, count as usize);
    bytes[0] = first;
    Ok(())
}

/// Makes by builders the root data of so many zero bytes, of which the first is another one.
///
/// Refused as `init_data`; then nothing has changed.
///
/// # Conditions
///
/// A tree stands at the message's root (`IsMessage`), and `count` is not 0.
pub fn build_data_by_builders(message: &mut Builder, count: u32, first: u8) -> Result<()>
    requires message { IsMessage message.old }
    requires first { 0 < count }
    ensures message { IsMessage message.new }
    ensures tree { OnOk result (message_tree message.new ≡ Numbers 1 (slice_set (replicate count 0) 0 first)) }
    ensures cause { IfErr result (λ e. IsRoomRefusal e (words_past_format ≤ count)) }
    ensures refused { OnErr result (segment message.new ≡ segment message.old) }
{
    let built = message.root().init_data(count)?;
    let bytes = built.into_bytes();
    bytes[0] = first;
    Ok(())
}

/// Writes the first byte of the data at the root. No memory is taken.
///
/// # Conditions
///
/// A tree stands at the message's root (`IsMessage`). `list` is the list of bytes that the root leads to, and has at
/// least one.
pub fn set_first_byte(message: &mut Builder, list: ListPlace, first: u8)
    requires message { IsMessage message.old }
    requires there { shape_at (segment message.old) 0 ≡ ListIn list.start 2 list.count }
    requires first { 0 < list.count }
    ensures message { IsMessage message.new }
    ensures tree { message_tree message.new
        ≡ Numbers 1 (slice_set (bytes_at (segment message.old) list.start list.count) 0 first) }
    ensures long { length (segment message.new) ≡ length (segment message.old) }
{
    let bytes = message.root().bytes_mut(list, list.count as usize);
    bytes[0] = first;
}
