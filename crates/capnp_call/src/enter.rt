//! A step of a path into what stands behind a field.
ghost use Rattle.capnp_arena.specs.Frame.{LeavesStruct};
ghost use Rattle.capnp_arena.specs.Segment.{segment};
ghost use Rattle.capnp_wire.specs.WellFormed.{IsWellFormed};
ghost use Rattle.capnp_arena.specs.Built.{IsBuilt, built_at};
ghost use Rattle.std.specs.Prelude.{◌≡◌, IfErr, OnErr, OnOk};
ghost use Rattle.capnp_schema.specs.Defaults.{DefaultFits, value_default_tree};
ghost use Rattle.capnp_schema.specs.FieldLists.{typed_of};
ghost use Rattle.capnp_schema.specs.Schema.{default_of};
ghost use Rattle.capnp_schema.specs.Types.{seen_type};
ghost use Rattle.capnp_wire.specs.Edits.{with_pointer_tree};
ghost use Rattle.capnp_wire.specs.Place.{struct_tree};
ghost use Rattle.capnp_slots.specs.Fields.{IsRoomFor, field_set, pointer_index};
ghost use Rattle.capnp_slots.specs.Fills.{filled_in, pointer_in};
ghost use Rattle.capnp_slots.specs.Groups.{IsGroup, KeepsSize};
ghost use Rattle.capnp_call.specs.Lists.{IsListStand};
ghost use Rattle.capnp_call.specs.Walks.{IsWalked, StepGoes, StepStops};
ghost use Rattle.capnp_call.specs.Ways.{IsListSlot, IsStructSlot};

use capnp_arena::arena::{Arena, Place};
use capnp_base::introspect::Type;
use capnp_schema::laws::{defaults_fit, numbers_fit};
use capnp_schema::schema::{Field, StructSchema};
use capnp_slots::part;
use capnp_wire::error::Result;

/// Steps into the struct behind a slot: a null becomes the default's struct or an empty one, and a struct that is
/// smaller than its schema gets zeros and nulls after what it has. What is filled stays, whatever the rest of the call
/// does, and no union is switched. `part::pointer` of `capnp_slots` is then the word that leads to the struct.
///
/// Refused with `WrongPointerKind` where something else than a struct stands there, and else with `OutOfMemory`; then
/// nothing has changed.
///
/// # Conditions
///
/// A struct of this message stands at the place (`IsBuilt`), with at least the sections of the field's schema
/// (`IsRoomFor`). The field is a slot of a struct type, and `schema` is that type's, one of an accepted set
/// (`IsStructSlot`). The tests of `way_of` have passed: a step may go into the field (`IsWalked`).
#[inline(always)]
pub fn enter_struct(
    arena: &mut Arena,
    place: Place,
    field: Field<'_>,
    schema: StructSchema<'_>,
) -> Result<()>
    requires planted { IsBuilt arena.old place }
    requires leads { IsStructSlot field schema }
    requires walked { IsWalked field (built_at arena.old place) }
    requires room { IsRoomFor field (built_at arena.old place) }
    ensures filled { OnOk result (built_at arena.new place
        ≡ with_pointer_tree (built_at arena.old place) (pointer_index field.entry)
        (filled_in field.entry (built_at arena.old place))) }
    ensures here { OnOk result (pointer_in field.entry (built_at arena.new place)
        ≡ filled_in field.entry (built_at arena.old place)) }
    ensures goes { OnOk result (StepGoes field.entry (built_at arena.old place)) }
    ensures frame { OnOk result (LeavesStruct place arena.old arena.new) }
    ensures refused { OnErr result (segment arena.new ≡ segment arena.old) }
    ensures cause { IfErr result (λ e. StepStops field.entry (built_at arena.old place) e.kind) }
{
    arena.struct_is_sound(place);
    part::fill_struct_slot(arena, place, field, schema)
}

/// Steps into a group: it is the same struct under the group's schema. Nothing is filled and nothing is refused.
///
/// # Conditions
///
/// A struct of this message stands at the place (`IsBuilt`). The field is a group (`IsGroup`). The tests of `way_of`
/// have passed: a step may go into the field (`IsWalked`).
#[inline(always)]
pub fn enter_group(arena: &Arena, place: Place, field: Field<'_>)
    requires planted { IsBuilt arena.now place }
    requires group { IsGroup field }
    requires walked { IsWalked field (built_at arena.now place) }
    ensures { StepGoes field.entry (built_at arena.now place) }
{}

/// What the default of a field leads to is well-formed, and is what the field's type reads. The default is not read.
#[inline(always)]
fn default_is_sound(field: Field<'_>)
    ensures formed { IsWellFormed (value_default_tree (default_of (typed_of field.entry).field)) }
    ensures fits { DefaultFits (typed_of field.entry) }
{
    defaults_fit();
    numbers_fit(field.get_containing_struct().get_set());
}

/// Steps into the list behind a slot: a null becomes the default where that is a list and not null, and structs of a
/// list get at least their schema's sections. A null without a default stays null, and has no elements. What is filled
/// stays, whatever the rest of the call does, and no union is switched. `part::pointer` of `capnp_slots` is then the
/// word that leads to the list.
///
/// Refused with `WrongPointerKind` or `WrongElementSize` where what stands there is not read as a list of the slot's
/// type, with `SizePastFormat` where the structs of a list would take 2^29 words or more, and else with `OutOfMemory`;
/// then nothing has changed. Only a list of structs that are smaller than their schema, and a null with a default, take
/// memory.
///
/// # Conditions
///
/// A struct of this message stands at the place (`IsBuilt`), with at least the sections of the field's schema
/// (`IsRoomFor`). The field is a slot of a list type, and `element` is its elements' type, which names entries of the
/// set (`IsListSlot`). The tests of `way_of` have passed: a step may go into the field (`IsWalked`).
#[inline(always)]
pub fn enter_list(arena: &mut Arena, place: Place, field: Field<'_>, element: Type) -> Result<()>
    requires planted { IsBuilt arena.old place }
    requires leads { IsListSlot field element }
    requires walked { IsWalked field (built_at arena.old place) }
    requires room { IsRoomFor field (built_at arena.old place) }
    ensures filled { OnOk result (built_at arena.new place
        ≡ with_pointer_tree (built_at arena.old place) (pointer_index field.entry)
        (filled_in field.entry (built_at arena.old place))) }
    ensures here { OnOk result (pointer_in field.entry (built_at arena.new place)
        ≡ filled_in field.entry (built_at arena.old place)) }
    ensures list { OnOk result (IsListStand (field_set field.entry) (seen_type element)
        (filled_in field.entry (built_at arena.old place))) }
    ensures goes { OnOk result (StepGoes field.entry (built_at arena.old place)) }
    ensures frame { OnOk result (LeavesStruct place arena.old arena.new) }
    ensures refused { OnErr result (segment arena.new ≡ segment arena.old) }
    ensures cause { IfErr result (λ e. StepStops field.entry (built_at arena.old place) e.kind) }
{
    default_is_sound(field);
    numbers_fit(field.get_containing_struct().get_set());
    arena.struct_is_sound(place);
    match part::fill_list_slot(arena, place, field, element) {
        Ok(()) => {
            arena.struct_is_sound(place);
            Ok(())
        }
        Err(error) => Err(error),
    }
}
