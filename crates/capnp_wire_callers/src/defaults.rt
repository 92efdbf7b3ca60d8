//! What a pointer of a message is got as where a default stands in for a null.
ghost use Rattle.std.specs.Prelude.{IfErr, IfOk, ◌≡◌, ◌≢◌};
ghost use Rattle.capnp_wire.specs.Defaults.{default_tree, filled_list_refusal, filled_struct, filled_structs, or_default};
ghost use Rattle.capnp_wire.specs.Edits.{IsDueRefusal};
ghost use Rattle.capnp_wire.specs.Reading.{list_length};
ghost use Rattle.capnp_wire.specs.Slot.{number_at};
ghost use Rattle.capnp_arena.specs.Handles.{IsBuiltPointer, built_pointer_tree};

use capnp_arena::handles::PointerBuilder;
use capnp_wire::PointerReader;
use capnp_wire::error::Result;
use capnp_wire::size::{ElementSize, StructSize};

/// The number of 64 bits at the start of the struct at a pointer, or of its default. Refused as
/// `get_struct_or_default`.
///
/// # Conditions
///
/// A tree of the message stands at the pointer (`IsBuiltPointer`).
pub fn first_number_or_default(
    pointer: PointerBuilder<'_>,
    size: StructSize,
    default: Option<PointerReader<'_>>,
) -> Result<u64>
    requires { IsBuiltPointer pointer }
    ensures { IfOk result (λ n. n ≡ number_at 8 0
        (filled_struct (default_tree default.entry) size (built_pointer_tree pointer.entry)).bytes) }
{
    let built = pointer.get_struct_or_default(size, default)?;
    Ok(built.get_data_field(0))
}

/// How many elements the list at a pointer has, or its default, as one of numbers of two bytes.
///
/// Refused as `get_list_or_default`.
///
/// # Conditions
///
/// A tree of the message stands at the pointer (`IsBuiltPointer`).
pub fn count_numbers_or_default(
    pointer: PointerBuilder<'_>,
    default: Option<PointerReader<'_>>,
) -> Result<u32>
    requires { IsBuiltPointer pointer }
    ensures count { IfOk result (λ n. n
        ≡ list_length (or_default (default_tree default.entry) (built_pointer_tree pointer.entry))) }
    ensures refused { IfErr result (λ e. IsDueRefusal e
        (filled_list_refusal (default_tree default.entry) ElementSize.TwoBytes (built_pointer_tree pointer.entry))) }
{
    let list = pointer.get_list_or_default(ElementSize::TwoBytes, default)?;
    Ok(list.len())
}

/// How many structs of at least a size the list at a pointer has, or its default.
///
/// Refused as `get_struct_list_or_default`.
///
/// # Conditions
///
/// A tree of the message stands at the pointer (`IsBuiltPointer`).
pub fn count_structs_or_default(
    pointer: PointerBuilder<'_>,
    size: StructSize,
    default: Option<PointerReader<'_>>,
) -> Result<u32>
    requires { IsBuiltPointer pointer }
    ensures { IfOk result (λ n. n
        ≡ list_length (filled_structs (default_tree default.entry) size (built_pointer_tree pointer.entry))) }
{
    let list = pointer.get_struct_list_or_default(size, default)?;
    Ok(list.len())
}
