//! Fields of a struct that is built, slots and groups alike.
ghost use Rattle.std.specs.Prelude.{IfErr, OnErr, OnOk, ◌≡◌};
ghost use Rattle.capnp_arena.specs.Frame.{LeavesStruct};
ghost use Rattle.capnp_arena.specs.Segment.{segment};
ghost use Rattle.capnp_arena.specs.Built.{IsBuilt, built_at};
ghost use Rattle.capnp_schema.specs.FieldLists.{typed_of};
ghost use Rattle.capnp_slots.specs.Copied.{refusal_of};
ghost use Rattle.capnp_slots.specs.Fields.{IsRoomFor, IsSlot, Keeps, field_set, names_of, slot_with};
ghost use Rattle.capnp_slots.specs.FieldWrites.{IsFieldInit, IsFieldSet, field_cleared};
ghost use Rattle.capnp_slots.specs.Inits.{HasInitn, IsInitnRefusal, initn_content};
ghost use Rattle.capnp_slots.specs.Sources.{source_seen};

use crate::source::Source;
use crate::{group, slot};
use capnp_arena::arena::{Arena, Place as StructPlace};
use capnp_schema::schema::Field;
use capnp_wire::error::{Error, ErrorKind, Result};

/// Sets a field: a slot as `slot::set`, and a group as `group::set`.
///
/// Refused as these. A slot that was refused has changed nothing; a group stays as it is by then, cleared and with what
/// was copied before, where a copy was refused.
///
/// # Conditions
///
/// A struct of this message stands at the place (`IsBuilt`), with at least the sections of the field's schema
/// (`IsRoomFor`).
#[tactic(auto, using(crate::proofs::FieldWrites::slot_was_set, crate::proofs::FieldWrites::group_was_set, crate::specs::Facts::Outcomes::frame_after))]
#[inline(always)]
pub fn set(
    arena: &mut Arena,
    place: StructPlace,
    field: Field<'_>,
    source: Source<'_>,
) -> Result<()>
    requires planted { IsBuilt arena.old place }
    requires room { IsRoomFor field (built_at arena.old place) }
    ensures frame { LeavesStruct place arena.old arena.new }
    ensures set { IsFieldSet field.entry (source_seen source.entry) (built_at arena.old place) (refusal_of result)
        (built_at arena.new place) }
    ensures kept { Keeps (names_of field.entry) (built_at arena.old place) (built_at arena.new place) }
    ensures refused { IsSlot field.entry → OnErr result (segment arena.new ≡ segment arena.old) }
{
    if slot::is_slot(field) {
        slot::set(arena, place, field, source)
    } else {
        group::set(arena, place, field, source)
    }
}

/// Initializes a field: a slot as `slot::init`, and a group as `group::init`, which is never refused.
///
/// Refused as `slot::init`; then nothing has changed.
///
/// # Conditions
///
/// A struct of this message stands at the place (`IsBuilt`), with at least the sections of the field's schema
/// (`IsRoomFor`).
#[tactic(auto, using(crate::proofs::FieldWrites::slot_was_init, crate::proofs::FieldWrites::group_was_init, crate::specs::Facts::Outcomes::frame_after))]
#[inline(always)]
pub fn init(arena: &mut Arena, place: StructPlace, field: Field<'_>) -> Result<()>
    requires planted { IsBuilt arena.old place }
    requires room { IsRoomFor field (built_at arena.old place) }
    ensures frame { LeavesStruct place arena.old arena.new }
    ensures init { IsFieldInit field.entry (built_at arena.old place) (refusal_of result) (built_at arena.new place) }
    ensures kept { OnOk result (Keeps (names_of field.entry) (built_at arena.old place) (built_at arena.new place)) }
    ensures refused { OnErr result (segment arena.new ≡ segment arena.old) }
{
    if slot::is_slot(field) {
        slot::init(arena, place, field)
    } else {
        group::init(arena, place, field);
        Ok(())
    }
}

/// Initializes a field with a size, as `slot::initn`. A group has no size.
///
/// Refused with `InitnIsOnlyValidForListTextOrDataFields` for a group, and else as `slot::initn`; then nothing has
/// changed.
///
/// # Conditions
///
/// A struct of this message stands at the place (`IsBuilt`), with at least the sections of the field's schema
/// (`IsRoomFor`).
#[tactic(auto, using(crate::specs::Facts::Outcomes::frame_after))]
#[inline(always)]
pub fn initn(arena: &mut Arena, place: StructPlace, field: Field<'_>, count: u32) -> Result<()>
    requires planted { IsBuilt arena.old place }
    requires room { IsRoomFor field (built_at arena.old place) }
    ensures frame { LeavesStruct place arena.old arena.new }
    ensures slot { OnOk result (IsSlot field.entry) }
    ensures written { OnOk result (built_at arena.new place
        ≡ slot_with field.entry (initn_content field.entry count) (built_at arena.old place)) }
    ensures has { OnOk result (HasInitn field.entry count) }
    ensures kept { OnOk result (Keeps (names_of field.entry) (built_at arena.old place) (built_at arena.new place)) }
    ensures refused { OnErr result (segment arena.new ≡ segment arena.old) }
    ensures cause { IfErr result (λ e. IsInitnRefusal (field_set field.entry) count
        (typed_of field.entry).type e.kind) }
{
    if let Some(_group) = group::group_of(field) {
        return Err(Error::from(ErrorKind::InitnIsOnlyValidForListTextOrDataFields));
    }
    slot::initn(arena, place, field, count)
}

/// Clears a field: a slot as `slot::clear`, and a group as `group::clear`. No memory is taken.
///
/// # Conditions
///
/// A struct of this message stands at the place (`IsBuilt`), with at least the sections of the field's schema
/// (`IsRoomFor`).
#[tactic(auto, using(crate::proofs::FieldWrites::cleared_slot, crate::proofs::FieldWrites::cleared_group))]
#[inline(always)]
pub fn clear(arena: &mut Arena, place: StructPlace, field: Field<'_>)
    requires planted { IsBuilt arena.old place }
    requires room { IsRoomFor field (built_at arena.old place) }
    ensures frame { LeavesStruct place arena.old arena.new }
    ensures cleared { built_at arena.new place ≡ field_cleared field.entry (built_at arena.old place) }
    ensures kept { Keeps (names_of field.entry) (built_at arena.old place) (built_at arena.new place) }
{
    if slot::is_slot(field) {
        slot::clear(arena, place, field);
    } else {
        group::clear(arena, place, field);
    }
}
