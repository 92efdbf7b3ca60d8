//! Elements of a list in a message, through the handles that the list lends.
ghost use Rattle.std.specs.Prelude.{[], IfErr, IsFalse, IsTrue, OnErr, OnOk, length, not, ◌++◌, ◌+◌, ◌<◌, ◌≡◌, ◌≤◌, ◌∷◌, ◌↔◌};
ghost use Rattle.capnp_wire.specs.Edits.{IsRoomRefusal, with_bytes, with_number};
ghost use Rattle.capnp_wire.specs.Elements.{HasBit, HasNumber, HasPointer, HasStruct, with_bit_element, with_number_element, with_pointer_element, with_struct_element};
ghost use Rattle.capnp_wire.specs.ElementSizes.{element_size_of};
ghost use Rattle.capnp_wire.specs.Locate.{words_past_format};
ghost use Rattle.capnp_wire.specs.Reading.{element_bit, element_number, element_struct, list_length};
ghost use Rattle.capnp_wire.specs.Tree.{Numbers};
ghost use Rattle.capnp_arena.specs.Forest.{Forest, PartChanges, Planted};
ghost use Rattle.capnp_arena.specs.Handles.{IsBuiltStruct, built_list_tree, built_struct_tree, handle_words, struct_at_place};
ghost use Rattle.capnp_arena.specs.Leaves.{Leaves};
ghost use Rattle.capnp_arena.specs.Listed.{list_shape, listed_tree};
ghost use Rattle.capnp_arena.specs.Segment.{segment};
ghost use Rattle.capnp_arena.specs.Shape.{shape_at};

use capnp_arena::handle_callers::set_text_at;
use capnp_arena::handles::{ListBuilder, StructBuilder};
use capnp_wire::error::Result;
use capnp_wire::size::ElementSize;

/// Sets a text at a pointer of a list, which lends it.
///
/// Refused as `set_text`; then nothing has changed.
///
/// # Conditions
///
/// A tree of the message stands at the list's pointer (`Forest`), and is a list with a pointer at `index`
/// (`HasPointer`).
pub fn put_text_element(list: &mut ListBuilder<'_>, index: u32, text: &[u8]) -> Result<()>
    requires forest { Forest (segment list.old.arena.now) list.old.at }
    requires pointer { HasPointer (built_list_tree list.old) index }
    ensures same { list.new.arena.ghost_name ≡ list.old.arena.ghost_name }
    ensures at { list.new.at ≡ list.old.at }
    ensures leaves { OnOk result (Leaves list.old.at
        (with_pointer_element index (Numbers 1 (text.now ++ 0 ∷ [])) (built_list_tree list.old)) (segment list.old.arena.now)
        (segment list.new.arena.now)) }
    ensures cause { IfErr result (λ e. IsRoomRefusal e (words_past_format ≤ length text.now + 1)) }
    ensures refused { OnErr result (segment list.new.arena.now ≡ segment list.old.arena.now) }
{
    set_text_at(list.pointer_element_mut(index), text)
}

/// Writes a number of 64 bits at the start of a struct, where it has a data word. Whether it has.
fn put_first_number(built: StructBuilder<'_>, value: u64) -> bool
    requires { IsBuiltStruct built }
    ensures word { IsTrue result → 0 < built.entry.place.data_words }
    ensures none { IsFalse result → segment built.exit.0.now ≡ segment built.entry.arena.now }
    ensures planted { IsTrue result → Planted (segment built.exit.0.now) (handle_words built.entry.place) }
    ensures tree { IsTrue result → struct_at_place built.exit.0.now built.entry.place
        ≡ with_bytes (built_struct_tree built.entry) (with_number 8 0 value (built_struct_tree built.entry).bytes) }
    ensures changes { IsTrue result → PartChanges (handle_words built.entry.place) (segment built.entry.arena.now)
        (segment built.exit.0.now) }
{
    let StructBuilder { arena, place } = built;
    if place.data_words == 0 {
        return false;
    }
    arena.struct_builder(place).set_data_field(0, value);
    true
}

/// Writes a number of 64 bits at the start of a struct of a list, where it has a data word. Whether it has.
///
/// # Conditions
///
/// A tree of the message stands at the list's pointer (`Forest`), and is a list with a struct at `index` (`HasStruct`).
pub fn put_number_element(list: &mut ListBuilder<'_>, index: u32, value: u64) -> bool
    requires forest { Forest (segment list.old.arena.now) list.old.at }
    requires there { HasStruct (built_list_tree list.old) index }
    ensures same { list.new.arena.ghost_name ≡ list.old.arena.ghost_name }
    ensures at { list.new.at ≡ list.old.at }
    ensures leaves { IsTrue result → let old = element_struct (built_list_tree list.old) index in
        Leaves list.old.at (with_struct_element index (with_bytes old (with_number 8 0 value old.bytes)) (built_list_tree list.old))
        (segment list.old.arena.now) (segment list.new.arena.now) }
    ensures none { IsFalse result → segment list.new.arena.now ≡ segment list.old.arena.now }
{
    put_first_number(list.struct_element_mut(index), value)
}

/// Copies a number of two bytes from one place of a list to another.
///
/// # Conditions
///
/// A tree of the message stands at the list's pointer (`Forest`), which the list is (`list_shape`), and has a number of
/// two bytes at `to` (`HasNumber`).
pub fn copy_number(list: &mut ListBuilder<'_>, from: u32, to: u32)
    requires forest { Forest (segment list.old.arena.now) list.old.at }
    requires there { shape_at (segment list.old.arena.now) list.old.at ≡ list_shape list.old.list }
    requires number { HasNumber 2 (built_list_tree list.old) to }
    ensures same { list.new.arena.ghost_name ≡ list.old.arena.ghost_name }
    ensures at { list.new.at ≡ list.old.at }
    ensures leaves { Leaves list.old.at
        (with_number_element 2 to (element_number 2 (built_list_tree list.old) from) (built_list_tree list.old))
        (segment list.old.arena.now) (segment list.new.arena.now) }
    ensures there { shape_at (segment list.new.arena.now) list.new.at ≡ list_shape list.new.list }
{
    let number = list.get_data_element::<u16>(from);
    list.set_data_element(to, number);
}

/// Turns a bit of a list over.
///
/// # Conditions
///
/// A tree of the message stands at the list's pointer (`Forest`), which the list is (`list_shape`), and has a bit at
/// `index` (`HasBit`).
pub fn turn_bit_element(list: &mut ListBuilder<'_>, index: u32)
    requires forest { Forest (segment list.old.arena.now) list.old.at }
    requires there { shape_at (segment list.old.arena.now) list.old.at ≡ list_shape list.old.list }
    requires bit { HasBit (built_list_tree list.old) index }
    ensures same { list.new.arena.ghost_name ≡ list.old.arena.ghost_name }
    ensures at { list.new.at ≡ list.old.at }
    ensures leaves { Leaves list.old.at
        (with_bit_element index (not (element_bit (built_list_tree list.old) index)) (built_list_tree list.old))
        (segment list.old.arena.now) (segment list.new.arena.now) }
    ensures there { shape_at (segment list.new.arena.now) list.new.at ≡ list_shape list.new.list }
{
    let bit = list.get_bool_element(index);
    list.set_bool_element(index, !bit);
}

/// Whether a list has elements, and these are of a size.
///
/// # Conditions
///
/// A tree of the message stands at the list's pointer (`Forest`), which the list is (`list_shape`).
pub fn has_elements_of(list: &ListBuilder<'_>, size: ElementSize) -> bool
    requires forest { Forest (segment list.now.arena.now) list.now.at }
    requires there { shape_at (segment list.now.arena.now) list.now.at ≡ list_shape list.now.list }
    ensures { IsTrue result ↔ ((0 < list_length (built_list_tree list.now))
        × (element_size_of (listed_tree (built_list_tree list.now) list.now.list) ≡ size)) }
{
    !list.is_empty() && list.get_element_size() == size
}
