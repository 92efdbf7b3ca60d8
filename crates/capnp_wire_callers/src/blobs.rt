//! Texts and data where they stand in a message, and fields that are stored with a default, as a caller of the builders
//! has them.
ghost use Rattle.std.specs.Prelude.{◌≡◌, ◌*◌, ◌<◌, IfOk};
ghost use Rattle.std.specs.Result.{is_ok};
ghost use Rattle.capnp_wire.specs.Place.{struct_tree};
ghost use Rattle.capnp_wire.specs.Reading.{as_data, as_text};
ghost use Rattle.capnp_wire.specs.WellFormed.{IsWellFormed};
ghost use Rattle.capnp_arena.specs.Forest.{PartChanges};
ghost use Rattle.capnp_arena.specs.Handles.{IsBuiltPointer, IsBuiltStruct, built_pointer_tree, built_struct_tree, handle_words};
ghost use Rattle.capnp_arena.specs.Segment.{segment};
ghost use Rattle.capnp_arena.specs.Shape.{word_count};

use capnp_arena::handles::{PointerBuilder, StructBuilder};
use capnp_wire::error::Result;

/// Replaces what stands at a pointer by a text of so many bytes, and counts them.
///
/// Refused as `init_text`.
///
/// # Conditions
///
/// The pointer's word lies inside the message's segment.
pub fn count_new_text(pointer: PointerBuilder<'_>, count: u32) -> Result<usize>
    requires { pointer.at < word_count (segment pointer.arena.now) }
    ensures { IfOk result (λ n. n ≡ count) }
{
    let text = pointer.init_text(count)?;
    Ok(text.len())
}

/// Whether a pointer leads to a text, whose bytes can then be written over. A null is one without bytes.
///
/// # Conditions
///
/// A tree of the message stands at the pointer (`IsBuiltPointer`).
#[tactic(auto, using(crate::proofs::Counts::is_read))]
pub fn has_text(pointer: PointerBuilder<'_>) -> bool
    requires { IsBuiltPointer pointer }
    ensures { result ≡ is_ok (as_text (built_pointer_tree pointer.entry)) }
{
    match pointer.get_text_mut() {
        Ok(_) => true,
        Err(_) => false,
    }
}

/// Whether a pointer leads to data, whose bytes can then be written over. A null is one without bytes.
///
/// # Conditions
///
/// A tree of the message stands at the pointer (`IsBuiltPointer`).
#[tactic(auto, using(crate::proofs::Counts::is_read))]
pub fn has_data(pointer: PointerBuilder<'_>) -> bool
    requires { IsBuiltPointer pointer }
    ensures { result ≡ is_ok (as_data (built_pointer_tree pointer.entry)) }
{
    match pointer.get_data_mut() {
        Ok(_) => true,
        Err(_) => false,
    }
}

/// Stores a number of 64 bits with its default into a struct, which stays well-formed.
///
/// # Conditions
///
/// A struct of the message stands at the builder's place (`IsBuiltStruct`), and `offset` is below the number of its
/// data words.
pub fn put_number_with_default(built: &mut StructBuilder<'_>, offset: u32, value: u64, default: u64)
    requires planted { IsBuiltStruct built.old }
    requires inside { offset < built.old.place.data_words }
    ensures same { built.new.arena.ghost_name ≡ built.old.arena.ghost_name }
    ensures place { built.new.place ≡ built.old.place }
    ensures planted { IsBuiltStruct built.new }
    ensures changes { PartChanges (handle_words built.old.place) (segment built.old.arena.now) (segment built.new.arena.now) }
    ensures held { IsWellFormed (struct_tree (built_struct_tree built.new)) }
{
    let place = built.place;
    built.set_data_field_mask(offset, value, default);
    built.arena.struct_is_sound(place);
}

/// Stores a truth value with its default into a struct, which stays well-formed.
///
/// # Conditions
///
/// A struct of the message stands at the builder's place (`IsBuiltStruct`), and `offset` is below the number of the
/// bits in its data words.
pub fn put_bool_with_default(built: &mut StructBuilder<'_>, offset: u32, value: bool, default: bool)
    requires planted { IsBuiltStruct built.old }
    requires inside { offset < 64 * built.old.place.data_words }
    ensures same { built.new.arena.ghost_name ≡ built.old.arena.ghost_name }
    ensures place { built.new.place ≡ built.old.place }
    ensures planted { IsBuiltStruct built.new }
    ensures changes { PartChanges (handle_words built.old.place) (segment built.old.arena.now) (segment built.new.arena.now) }
    ensures held { IsWellFormed (struct_tree (built_struct_tree built.new)) }
{
    let place = built.place;
    built.set_bool_field_mask(offset, value, default);
    built.arena.struct_is_sound(place);
}
