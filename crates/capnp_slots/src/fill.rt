//! What stands at a struct's pointers, filled from defaults and extended.
ghost use Rattle.std.specs.Prelude.{None, false, ◌≡◌, ◌≢◌, ◌<◌, IfErr, IsOk, OnErr, OnOk};
ghost use Rattle.capnp_wire.specs.Defaults.{default_tree, filled_list_refusal, filled_struct, filled_struct_refusal, filled_structs, filled_structs_refusal, or_default, takes_default};
ghost use Rattle.capnp_wire.specs.Edits.{HoldsStruct, IsDueRefusal, extended_struct, struct_in, struct_refusal};
ghost use Rattle.capnp_arena.specs.Frame.{LeavesStruct};
ghost use Rattle.capnp_arena.specs.Segment.{segment};
ghost use Rattle.capnp_arena.specs.Built.{IsBuilt, built_at};
ghost use Rattle.capnp_wire.specs.Place.{struct_tree};
ghost use Rattle.capnp_wire.specs.StructLists.{HoldsStructs};
ghost use Rattle.capnp_slots.specs.Steps.Fills.{HoldsThere, IsThere, tree_there};

use capnp_arena::arena::{Arena, Place as StructPlace};
use capnp_arena::structs::pointer_at;
use capnp_wire::PointerReader;
use capnp_wire::error::Result;
use capnp_wire::size::{ElementSize, StructSize};

/// Fills the struct at a pointer. A refusal changes nothing; so it is with each call below.
pub(crate) fn fill_struct(
    arena: &mut Arena,
    place: StructPlace,
    index: u16,
    size: StructSize,
    default: Option<PointerReader<'_>>,
) -> Result<()>
    requires planted { IsBuilt arena.old place }
    requires inside { IsThere (built_at arena.old place) index }
    ensures frame { OnOk result (LeavesStruct place arena.old arena.new) }
    ensures ok { OnOk result (HoldsThere (built_at arena.old place) index (built_at arena.new place)
        (struct_tree (filled_struct (default_tree default.entry) size (tree_there (built_at arena.old place) index)))) }
    ensures within { OnOk result (filled_struct_refusal (default_tree default.entry)
        (tree_there (built_at arena.old place) index) ≡ None) }
    ensures refused { OnErr result (segment arena.new ≡ segment arena.old) }
    ensures cause { IfErr result (λ e. IsDueRefusal e
        (filled_struct_refusal (default_tree default.entry) (tree_there (built_at arena.old place) index))) }
    ensures succeeds { HoldsStruct size (tree_there (built_at arena.old place) index) → IsOk result }
{
    let at = pointer_at(arena, place, index);
    arena.get_struct_or_default(at, size, default)?;
    Ok(())
}

/// Gives the struct at a pointer at least a size; a null becomes a new one.
#[inline(always)]
pub(crate) fn extend_struct(
    arena: &mut Arena,
    place: StructPlace,
    index: u16,
    size: StructSize,
) -> Result<()>
    requires planted { IsBuilt arena.old place }
    requires inside { IsThere (built_at arena.old place) index }
    ensures frame { OnOk result (LeavesStruct place arena.old arena.new) }
    ensures ok { OnOk result (HoldsThere (built_at arena.old place) index (built_at arena.new place)
        (struct_tree (extended_struct size (struct_in (tree_there (built_at arena.old place) index))))) }
    ensures within { OnOk result (struct_refusal (tree_there (built_at arena.old place) index) ≡ None) }
    ensures refused { OnErr result (segment arena.new ≡ segment arena.old) }
    ensures cause { IfErr result (λ e. IsDueRefusal e (struct_refusal (tree_there (built_at arena.old place) index))) }
    ensures succeeds { HoldsStruct size (tree_there (built_at arena.old place) index) → IsOk result }
{
    let at = pointer_at(arena, place, index);
    arena.get_struct(at, size)?;
    Ok(())
}

/// Fills the list at a pointer, of elements that are no structs.
pub(crate) fn fill_list(
    arena: &mut Arena,
    place: StructPlace,
    index: u16,
    size: ElementSize,
    default: Option<PointerReader<'_>>,
) -> Result<()>
    requires planted { IsBuilt arena.old place }
    requires inside { IsThere (built_at arena.old place) index }
    requires simple { size ≢ ElementSize.InlineComposite }
    ensures frame { OnOk result (LeavesStruct place arena.old arena.new) }
    ensures ok { OnOk result (HoldsThere (built_at arena.old place) index (built_at arena.new place)
        (or_default (default_tree default.entry) (tree_there (built_at arena.old place) index))) }
    ensures within { OnOk result (filled_list_refusal (default_tree default.entry) size
        (tree_there (built_at arena.old place) index) ≡ None) }
    ensures refused { OnErr result (segment arena.new ≡ segment arena.old) }
    ensures cause { IfErr result (λ e. IsDueRefusal e
        (filled_list_refusal (default_tree default.entry) size (tree_there (built_at arena.old place) index))) }
    ensures succeeds { takes_default (default_tree default.entry) (tree_there (built_at arena.old place) index) ≡ false
        → filled_list_refusal (default_tree default.entry) size (tree_there (built_at arena.old place) index) ≡ None
        → IsOk result }
{
    let at = pointer_at(arena, place, index);
    arena.get_list_or_default(at, size, default)?;
    Ok(())
}

/// Fills the list of structs at a pointer.
#[inline(always)]
pub(crate) fn fill_structs(
    arena: &mut Arena,
    place: StructPlace,
    index: u16,
    size: StructSize,
    default: Option<PointerReader<'_>>,
) -> Result<()>
    requires planted { IsBuilt arena.old place }
    requires inside { IsThere (built_at arena.old place) index }
    ensures frame { OnOk result (LeavesStruct place arena.old arena.new) }
    ensures ok { OnOk result (HoldsThere (built_at arena.old place) index (built_at arena.new place)
        (filled_structs (default_tree default.entry) size (tree_there (built_at arena.old place) index))) }
    ensures within { OnOk result (filled_structs_refusal (default_tree default.entry) size
        (tree_there (built_at arena.old place) index) ≡ None) }
    ensures refused { OnErr result (segment arena.new ≡ segment arena.old) }
    ensures cause { IfErr result (λ e. IsDueRefusal e
        (filled_structs_refusal (default_tree default.entry) size (tree_there (built_at arena.old place) index))) }
    ensures succeeds { takes_default (default_tree default.entry) (tree_there (built_at arena.old place) index) ≡ false
        → HoldsStructs size (tree_there (built_at arena.old place) index)
        → IsOk result }
{
    let at = pointer_at(arena, place, index);
    arena.get_struct_list_or_default(at, size, default)?;
    Ok(())
}
