//! The pointers of slots.
ghost use Rattle.std.specs.Prelude.{None, true, ◌≡◌, ◌≢◌, ◌<◌, IfErr, OnErr, OnOk};
ghost use Rattle.capnp_device.specs.declared.error.ErrorKind.TheVariants.{OutOfMemory};
ghost use Rattle.capnp_wire.specs.Edits.{with_pointer_tree, zero_struct};
ghost use Rattle.capnp_wire.specs.Place.{struct_tree};
ghost use Rattle.capnp_schema.specs.Entries.{lists_seen};
ghost use Rattle.capnp_records.specs.Writes.Contents.{initn_tree};
ghost use Rattle.capnp_records.specs.Writes.ElementEnds.{InitnContent};
ghost use Rattle.capnp_records.specs.Writes.Slots.{At};
ghost use Rattle.capnp_schema.specs.Types.{AnyPointerType, is_pointer, seen_variant};
ghost use Rattle.capnp_slots.specs.Steps.Copied.{empty_tree};
ghost use Rattle.capnp_slots.specs.Inits.{IsInitnRefusal};
ghost use Rattle.capnp_slots.specs.Steps.Inits.{is_sized};
ghost use Rattle.capnp_arena.specs.Frame.{LeavesStruct};
ghost use Rattle.capnp_arena.specs.Segment.{segment};
ghost use Rattle.capnp_arena.specs.Built.{IsBuilt, built_at};
ghost use Rattle.capnp_wire.specs.Tree.{tree_count};
ghost use Rattle.capnp_wire.specs.WellFormed.{IsWellFormed};
ghost use Rattle.capnp_wire.specs.Words.{first_fault};
ghost use Rattle.capnp_slots.specs.Fields.{IsPointerField, IsPointerSlot, IsSlot};

use crate::make::{make_empty, make_sized, make_struct};
use crate::planned::slot_plan;
use crate::setter::SetterInput;
use capnp_arena::arena::{Arena, Place as StructPlace};
use capnp_arena::handles::PointerBuilder;
use capnp_arena::structs::pointer_at;
use capnp_base::introspect::TypeVariant;
use capnp_schema::plan::Place;
use capnp_schema::schema::Field;
use capnp_schema::set::SchemaSet;
use capnp_wire::error::Result;
use capnp_wire::size::StructSize;

/// The pointer of a slot, and the discriminant of its field.
#[inline(always)]
pub(crate) fn pointer_slot(field: Field<'_>) -> (u16, Option<(u32, u16)>)
    requires slot { IsSlot field }
    requires pointer { IsPointerField field }
    ensures { IsPointerSlot field.entry result.0 result.1 }
{
    let plan = slot_plan(field);
    let Place::Pointer(index) = plan.place else {
        unreachable!()
    };
    (index, plan.member)
}

/// Sets a pointer of a struct.
pub(crate) fn set_at<R, S: SetterInput<R>>(
    arena: &mut Arena,
    place: StructPlace,
    index: u16,
    input: S,
) -> Result<()>
    requires planted { IsBuilt arena.old place }
    requires inside { index < tree_count (built_at arena.old place).pointers }
    ensures frame { OnOk result (LeavesStruct place arena.old arena.new) }
    ensures ok { OnOk result (built_at arena.new place
        ≡ with_pointer_tree (built_at arena.old place) index (S.set_tree input)) }
    ensures formed { OnOk result (IsWellFormed (S.set_tree input)) }
    ensures sound { OnOk result (first_fault (S.set_tree input) ≡ None) }
    ensures refused { OnErr result (segment arena.new ≡ segment arena.old) }
    ensures cause { IfErr result (S.set_refusal input) }
{
    let at = pointer_at(arena, place, index);
    S::set_pointer_builder(PointerBuilder { arena, at }, input, false)?;
    Ok(())
}

/// Makes a pointer of a struct lead to a new struct of a size.
///
/// Refused with `OutOfMemory`, and then nothing has changed.
pub(crate) fn make_struct_at(
    arena: &mut Arena,
    place: StructPlace,
    index: u16,
    size: StructSize,
) -> Result<()>
    requires planted { IsBuilt arena.old place }
    requires inside { index < tree_count (built_at arena.old place).pointers }
    ensures frame { OnOk result (LeavesStruct place arena.old arena.new) }
    ensures ok { OnOk result (built_at arena.new place
        ≡ with_pointer_tree (built_at arena.old place) index (struct_tree (zero_struct size))) }
    ensures formed { OnOk result (IsWellFormed (struct_tree (zero_struct size))) }
    ensures refused { OnErr result (segment arena.new ≡ segment arena.old) }
    ensures cause { IfErr result (λ e. e.kind ≡ OutOfMemory) }
{
    let at = pointer_at(arena, place, index);
    make_struct(arena, at, size)?;
    Ok(())
}

/// Makes a pointer of a struct lead to a new text, data or list of a type, with so many bytes or elements.
pub(crate) fn make_sized_at(
    arena: &mut Arena,
    place: StructPlace,
    index: u16,
    schemas: &SchemaSet,
    variant: TypeVariant,
    count: u32,
) -> Result<()>
    requires planted { IsBuilt arena.old place }
    requires inside { index < tree_count (built_at arena.old place).pointers }
    requires is_sized { is_sized (seen_variant variant) ≡ true }
    ensures frame { OnOk result (LeavesStruct place arena.old arena.new) }
    ensures ok { OnOk result (built_at arena.new place
        ≡ with_pointer_tree (built_at arena.old place) index
        (initn_tree (lists_seen schemas.now) (seen_variant variant) count)) }
    ensures within { OnOk result (InitnContent (lists_seen schemas.now) count (seen_variant variant)
        (At (initn_tree (lists_seen schemas.now) (seen_variant variant) count))) }
    ensures formed { OnOk result (IsWellFormed (initn_tree (lists_seen schemas.now) (seen_variant variant) count)) }
    ensures refused { OnErr result (segment arena.new ≡ segment arena.old) }
    ensures cause { IfErr result (λ e. IsInitnRefusal (lists_seen schemas.now) count (seen_variant variant) e.kind) }
{
    let at = pointer_at(arena, place, index);
    make_sized(arena, at, schemas, variant, count)?;
    Ok(())
}

/// Makes a pointer of a struct lead to what stands in the place of a default that is none.
///
/// Refused with `OutOfMemory`, and then nothing has changed.
pub(crate) fn make_empty_at(
    arena: &mut Arena,
    place: StructPlace,
    index: u16,
    variant: TypeVariant,
) -> Result<()>
    requires planted { IsBuilt arena.old place }
    requires inside { index < tree_count (built_at arena.old place).pointers }
    requires pointer { is_pointer (seen_variant variant) ≡ true }
    requires typed { AnyPointerType ≢ seen_variant variant }
    ensures frame { OnOk result (LeavesStruct place arena.old arena.new) }
    ensures ok { OnOk result (built_at arena.new place
        ≡ with_pointer_tree (built_at arena.old place) index (empty_tree (seen_variant variant))) }
    ensures formed { OnOk result (IsWellFormed (empty_tree (seen_variant variant))) }
    ensures refused { OnErr result (segment arena.new ≡ segment arena.old) }
    ensures cause { IfErr result (λ e. e.kind ≡ OutOfMemory) }
{
    let at = pointer_at(arena, place, index);
    make_empty(arena, at, variant)?;
    Ok(())
}
