//! What is built in a message in memory, as a caller of the builders has it: what one call leaves meets the condition
//! of the next, and is well-formed.
ghost use Rattle.std.specs.Prelude.{◌≡◌, ◌+◌, ◌*◌, ◌<◌, ◌≤◌, IfOk};
ghost use Rattle.capnp_wire.specs.Place.{struct_tree};
ghost use Rattle.capnp_wire.specs.Reading.{list_length};
ghost use Rattle.capnp_wire.specs.WellFormed.{IsWellFormed};
ghost use Rattle.capnp_arena.specs.Forest.{PartChanges};
ghost use Rattle.capnp_arena.specs.Handles.{IsBuiltPointer, IsBuiltStruct, built_struct_tree, handle_words, built_pointer_tree};
ghost use Rattle.capnp_arena.specs.Segment.{segment};
ghost use Rattle.capnp_arena.specs.Shape.{word_count};

use capnp_arena::handles::{PointerBuilder, StructBuilder};
use capnp_wire::error::Result;
use capnp_wire::size::{ElementSize, StructSize};

/// Replaces what stands at a pointer by a list of so many numbers of two bytes, and counts them.
///
/// Refused as `init_list`.
///
/// # Conditions
///
/// The pointer's word lies inside the message's segment.
#[tactic(auto, using(crate::proofs::Counts::new_count))]
pub fn count_new(pointer: PointerBuilder<'_>, count: u32) -> Result<u32>
    requires { pointer.at < word_count (segment pointer.arena.now) }
    ensures { IfOk result (λ n. n ≡ count) }
{
    let list = pointer.init_list(ElementSize::TwoBytes, count)?;
    Ok(list.len())
}

/// Makes the list at a pointer one of structs of at least a size, and counts them: there are as many as before.
///
/// Refused as `get_struct_list`.
///
/// # Conditions
///
/// A tree of the message stands at the pointer (`IsBuiltPointer`).
#[tactic(auto, using(crate::proofs::Counts::same_count))]
pub fn count_structs(pointer: PointerBuilder<'_>, size: StructSize) -> Result<u32>
    requires { IsBuiltPointer pointer }
    ensures { IfOk result (λ n. n ≡ list_length (built_pointer_tree pointer.entry)) }
{
    let list = pointer.get_struct_list(size)?;
    Ok(list.len())
}

/// Puts a text at the first pointer of a struct, which stays well-formed, also where it is refused.
///
/// Refused as `set_text`.
///
/// # Conditions
///
/// A struct of the message stands at the builder's place (`IsBuiltStruct`), and has a pointer.
pub fn put_text(built: &mut StructBuilder<'_>, text: &[u8]) -> Result<()>
    requires planted { IsBuiltStruct built.old }
    requires inside { 0 < built.old.place.pointers }
    ensures same { built.new.arena.ghost_name ≡ built.old.arena.ghost_name }
    ensures place { built.new.place ≡ built.old.place }
    ensures planted { IsBuiltStruct built.new }
    ensures changes { PartChanges (handle_words built.old.place) (segment built.old.arena.now) (segment built.new.arena.now) }
    ensures held { IsWellFormed (struct_tree (built_struct_tree built.new)) }
{
    let place = built.place;
    let mut pointer = built.arena.pointer_field(place, 0);
    match pointer.set_text(text) {
        Ok(()) => {
            built.arena.struct_is_sound(place);
            Ok(())
        }
        Err(error) => {
            built.arena.struct_is_sound(place);
            Err(error)
        }
    }
}

/// Writes a number of 64 bits into a struct, which stays well-formed.
///
/// # Conditions
///
/// A struct of the message stands at the builder's place (`IsBuiltStruct`), and `offset` is below the number of its
/// data words.
pub fn put_number(built: &mut StructBuilder<'_>, offset: u32, value: u64)
    requires planted { IsBuiltStruct built.old }
    requires inside { offset < built.old.place.data_words }
    ensures same { built.new.arena.ghost_name ≡ built.old.arena.ghost_name }
    ensures place { built.new.place ≡ built.old.place }
    ensures planted { IsBuiltStruct built.new }
    ensures changes { PartChanges (handle_words built.old.place) (segment built.old.arena.now) (segment built.new.arena.now) }
    ensures held { IsWellFormed (struct_tree (built_struct_tree built.new)) }
{
    let place = built.place;
    built.set_data_field(offset, value);
    built.arena.struct_is_sound(place);
}
