//! What stands behind a pointer, refused where it is not read as a type, and a list of structs extended.
ghost use Rattle.std.specs.Prelude.{None, ◌≡◌, ◌≢◌, IfErr, IsOk, OnErr, OnOk};
ghost use Rattle.capnp_wire.specs.Defaults.{error_of, list_refusal};
ghost use Rattle.capnp_wire.specs.Edits.{IsDueRefusal};
ghost use Rattle.capnp_arena.specs.Frame.{LeavesPointer};
ghost use Rattle.capnp_arena.specs.Forest.{Forest, tree};
ghost use Rattle.capnp_arena.specs.Segment.{segment};
ghost use Rattle.capnp_wire.specs.StructLists.{HoldsStructs, struct_list, struct_list_refusal};
ghost use Rattle.capnp_slots.specs.Copied.{refusal_of};
ghost use Rattle.capnp_slots.specs.Steps.Fills.{filled_blob};

use capnp_arena::arena::Arena;
use capnp_wire::error::Result;
use capnp_wire::size::{ElementSize, StructSize};

/// Refuses what is not read as a text, or else as data.
pub(crate) fn check_blob(arena: &Arena, at: usize, is_text: bool) -> Result<()>
    requires { Forest (segment arena.now) at }
    ensures { refusal_of result ≡ error_of (filled_blob is_text (tree (segment arena.now) at)) }
{
    if is_text {
        arena.get_text(at)?;
    } else {
        arena.get_data(at)?;
    }
    Ok(())
}

/// Refuses what is not read as a list of elements of a size.
pub(crate) fn check_list(arena: &Arena, at: usize, size: ElementSize) -> Result<()>
    requires forest { Forest (segment arena.now) at }
    requires simple { size ≢ ElementSize.InlineComposite }
    ensures { refusal_of result ≡ list_refusal size (tree (segment arena.now) at) }
{
    arena.get_list(at, size)?;
    Ok(())
}

/// Makes what stands there a list of structs of at least a size; a null stays.
///
/// Refused with `WrongPointerKind` for a struct, with `WrongElementSize` for a list of bits, with `SizePastFormat`
/// where the structs would take 2^29 words or more, and else with `OutOfMemory`; then nothing has changed.
pub(crate) fn extend_structs(arena: &mut Arena, at: usize, size: StructSize) -> Result<()>
    requires forest { Forest (segment arena.old) at }
    ensures frame { OnOk result (LeavesPointer at arena.old arena.new) }
    ensures ok { OnOk result (tree (segment arena.new) at ≡ struct_list size (tree (segment arena.old) at)) }
    ensures within { OnOk result (struct_list_refusal size (tree (segment arena.old) at) ≡ None) }
    ensures refused { OnErr result (segment arena.new ≡ segment arena.old) }
    ensures cause { IfErr result (λ e. IsDueRefusal e (struct_list_refusal size (tree (segment arena.old) at))) }
    ensures rests { HoldsStructs size (tree (segment arena.old) at) → IsOk result }
{
    arena.get_struct_list(at, size)?;
    Ok(())
}
