//! Structs of a message, read and written where they stand.
ghost use Rattle.std.specs.Prelude.{IfOk, IsTrue, None, bit_xor, not, ◌*◌, ◌<◌, ◌≡◌, ◌↔◌};
ghost use Rattle.capnp_wire.specs.Depth.{IsBelow, memory_depth};
ghost use Rattle.capnp_wire.specs.Edits.{fitted_struct, with_bit, with_bytes};
ghost use Rattle.capnp_wire.specs.Reading.{is_null_tree};
ghost use Rattle.capnp_wire.specs.Slot.{bit_at, number_at};
ghost use Rattle.capnp_wire.specs.Standing.{struct_of};
ghost use Rattle.capnp_wire.specs.Total.{IsSize};
ghost use Rattle.capnp_wire.specs.Tree.{nth_tree};
ghost use Rattle.capnp_wire.specs.Words.{words_of_struct};
ghost use Rattle.capnp_arena.specs.Forest.{PartChanges};
ghost use Rattle.capnp_arena.specs.Handles.{IsBuiltStruct, built_struct_tree, handle_words};
ghost use Rattle.capnp_arena.specs.Segment.{segment};

use capnp_arena::handles::StructBuilder;
use capnp_wire::StructReader;
use capnp_wire::error::Result;
use capnp_wire::size::MessageSize;

/// Turns a bit of a struct over.
///
/// # Conditions
///
/// A struct of the message stands at the builder's place (`IsBuiltStruct`), and `offset` is below the number of the
/// bits in its data words.
pub fn turn_bit(built: &mut StructBuilder<'_>, offset: u32)
    requires planted { IsBuiltStruct built.old }
    requires inside { offset < 64 * built.old.place.data_words }
    ensures same { built.new.arena.ghost_name ≡ built.old.arena.ghost_name }
    ensures place { built.new.place ≡ built.old.place }
    ensures planted { IsBuiltStruct built.new }
    ensures changes { PartChanges (handle_words built.old.place) (segment built.old.arena.now) (segment built.new.arena.now) }
    ensures turned { built_struct_tree built.new ≡ with_bytes (built_struct_tree built.old)
        (with_bit offset (not (bit_at (built_struct_tree built.old).bytes offset)) (built_struct_tree built.old).bytes) }
{
    let bit = built.get_bool_field(offset);
    built.set_bool_field(offset, !bit);
}

/// Whether a number of 64 bits that is stored with a default has it.
///
/// # Conditions
///
/// A struct of the message stands at the builder's place (`IsBuiltStruct`).
pub fn has_default(built: &StructBuilder<'_>, offset: u32, default: u64) -> bool
    requires { IsBuiltStruct built.now }
    ensures { IsTrue result ↔ (bit_xor (number_at 8 offset (built_struct_tree built.now).bytes) default ≡ default) }
{
    built.get_data_field_mask::<u64>(offset, default) == default
}

/// Whether a truth value that is stored with a default has it.
///
/// # Conditions
///
/// A struct of the message stands at the builder's place (`IsBuiltStruct`).
pub fn has_default_bit(built: &StructBuilder<'_>, offset: u32, default: bool) -> bool
    requires { IsBuiltStruct built.now }
    ensures { result ≡ not (bit_at (built_struct_tree built.now).bytes offset) }
{
    built.get_bool_field_mask(offset, default) == default
}

/// Replaces what a struct holds by what fits of another one, and measures it then. Refused as `copy_content_from`, and
/// as `total_size`.
///
/// # Conditions
///
/// A struct of the message stands at the builder's place (`IsBuiltStruct`).
pub fn refill_and_measure(
    built: &mut StructBuilder<'_>,
    source: &StructReader<'_>,
) -> Result<MessageSize>
    requires { IsBuiltStruct built.old }
    ensures same { built.new.arena.ghost_name ≡ built.old.arena.ghost_name }
    ensures place { built.new.place ≡ built.old.place }
    ensures size { IfOk result (λ size. IsSize size None (words_of_struct
        (fitted_struct (8 * built.old.place.data_words) built.old.place.pointers (struct_of source.now)))) }
{
    built.copy_content_from(source)?;
    built.total_size()
}

/// Whether a pointer of a struct is null, as it is read.
///
/// # Conditions
///
/// A struct of the message stands at the builder's place (`IsBuiltStruct`), and `index` is below the number of its
/// pointers.
pub fn is_field_null(built: &StructBuilder<'_>, index: u16) -> bool
    requires planted { IsBuiltStruct built.now }
    requires inside { index < built.now.place.pointers }
    ensures { IsBelow memory_depth (nth_tree (built_struct_tree built.now).pointers index)
        → result ≡ is_null_tree (nth_tree (built_struct_tree built.now).pointers index) }
{
    built.pointer_field(index).is_null()
}
