//! Groups of a struct that is built: their fields lie in the struct's own sections.
ghost use Rattle.std.specs.Prelude.{◌≡◌, ◌≤◌, length, MatchOption};
ghost use Rattle.capnp_arena.specs.Frame.{LeavesStruct};
ghost use Rattle.capnp_arena.specs.Built.{IsBuilt, built_at};
ghost use Rattle.capnp_schema.specs.FieldLists.{IsFound, index_of};
ghost use Rattle.capnp_schema.specs.StructHandles.{number_of, set_of, struct_fields};
ghost use Rattle.capnp_records.specs.Writes.Slots.{Fits};
ghost use Rattle.capnp_slots.specs.Copied.{refusal_of};
ghost use Rattle.capnp_slots.specs.Fields.{IsRoomFor, IsSlot, Keeps, field_brand, field_set, names_of, switched_to};
ghost use Rattle.capnp_slots.specs.Steps.GroupClears.{IsSlotCleared, field_cleared_at, cleared_behind};
ghost use Rattle.capnp_slots.specs.Groups.{IsGroup, IsGroupAt, KeepsSize, group_without};
ghost use Rattle.capnp_slots.specs.Steps.Groups.{cleared_through};
ghost use Rattle.capnp_slots.specs.GroupSets.{IsGroupSet, given_to_group};
ghost use Rattle.capnp_slots.specs.Steps.GroupSets.{IsCopiedInto};
ghost use Rattle.capnp_slots.specs.Sources.{source_seen};

use crate::group_copy::copy_group;
use crate::slot;
use crate::source::Source;
use capnp_arena::arena::{Arena, Place as StructPlace};
use capnp_base::introspect::RawBrandedStructSchema;
use capnp_records::laws::{group_is_cleared, group_is_copied};
use capnp_schema::laws::{heights_fall, numbers_fit};
use capnp_schema::schema::{Field, StructSchema};
use capnp_wire::StructReader;
use capnp_wire::error::{Error, ErrorKind, Result};

/// The schema of a field's group, as `Field::get_group` has it; none for a slot.
#[inline(always)]
pub fn group_of<'s>(field: Field<'s>) -> Option<StructSchema<'s>>
    ensures { MatchOption result (IsSlot field.entry) (IsGroupAt field.entry) }
{
    // The field's set is known to meet the rules here: a group's type is a struct.
    let _schema = field.get_containing_struct();
    field.get_group()
}

/// The field that is cleared at a place of a group: at 0 its member of discriminant value 0, and at i + 1 field i, where
/// that is no member. None where nothing is cleared there.
#[inline(always)]
pub(crate) fn cleared_at<'s>(schema: StructSchema<'s>, next: u32) -> Option<Field<'s>>
    requires inside { next ≤ length (struct_fields schema) }
    requires small { next ≤ 65535 }
    ensures { IsFound schema.entry (field_cleared_at (set_of schema.entry) (number_of schema.entry) next) result }
{
    if next == 0 {
        let Ok(member) = schema.get_field_by_discriminant(0) else {
            unreachable!()
        };
        return member;
    }
    let Ok(fields) = schema.get_fields() else {
        unreachable!()
    };
    let field = fields.get((next - 1) as u16);
    if field.get_proto().is_member() {
        None
    } else {
        Some(field)
    }
}

/// The place behind a field that is cleared.
pub(crate) fn cleared_behind(field: Field<'_>) -> u32
    ensures { result ≡ cleared_behind (field_set field.entry) (field_brand field.entry) (index_of field.entry) }
{
    if field.get_proto().is_member() {
        1
    } else {
        field.get_index() as u32 + 2
    }
}

/// Clears a slot; of a group it makes the field active, and answers the group's schema.
#[inline(always)]
fn clear_slot<'s>(
    arena: &mut Arena,
    place: StructPlace,
    field: Field<'s>,
) -> Option<StructSchema<'s>>
    requires planted { IsBuilt arena.old place }
    requires room { IsRoomFor field (built_at arena.old place) }
    ensures frame { LeavesStruct place arena.old arena.new }
    ensures cleared { MatchOption result (IsSlotCleared field.entry (built_at arena.old place) (built_at arena.new place))
        (λ group. IsGroupAt field.entry group
        × (built_at arena.new place ≡ switched_to field.entry (built_at arena.old place))) }
    ensures kept { KeepsSize (built_at arena.old place) (built_at arena.new place) }
{
    let group = group_of(field);
    match group {
        Some(_) => slot::switch(arena, place, field),
        None => slot::clear(arena, place, field),
    }
    group
}

/// How many fields a struct has.
#[inline(always)]
pub(crate) fn field_count(schema: StructSchema<'_>) -> u32
    ensures count { result ≡ length (struct_fields schema.entry) }
    ensures few { result ≤ 65535 }
{
    let Ok(fields) = schema.get_fields() else {
        unreachable!()
    };
    fields.len() as u32
}

/// Clears a group of a struct: its member of discriminant value 0, and then its non-union fields by index. A group in
/// it is gone into where it stands, through at most so many groups, and left by its own field.
pub(crate) fn clear_group(
    arena: &mut Arena,
    place: StructPlace,
    schema: StructSchema<'_>,
    groups: usize,
)
    requires planted { IsBuilt arena.old place }
    requires room { Fits (set_of schema) (number_of schema) (built_at arena.old place) }
    ensures frame { LeavesStruct place arena.old arena.new }
    ensures cleared { built_at arena.new place ≡ cleared_through groups (set_of schema.entry) (number_of schema.entry)
        (built_at arena.old place) }
    ensures kept { KeepsSize (built_at arena.old place) (built_at arena.new place) }
{
    if groups == 0 {
        return;
    }
    let mut at = schema;
    let mut count = field_count(at);
    let mut next: u32 = 0;
    let mut depth: usize = 0;
    let mut left = groups - 1;
    loop {
        if next > count {
            if depth == 0 {
                return;
            }
            let Some(field) = at.get_group_field() else {
                return;
            };
            at = field.get_containing_struct();
            count = field_count(at);
            next = cleared_behind(field);
            depth -= 1;
            left += 1;
            continue;
        }
        let Some(field) = cleared_at(at, next) else {
            next += 1;
            continue;
        };
        let Some(group) = clear_slot(arena, place, field) else {
            next += 1;
            continue;
        };
        if left == 0 {
            next += 1;
            continue;
        }
        at = group;
        count = field_count(at);
        next = 0;
        depth += 1;
        left -= 1;
    }
}

/// Clears a group: a member of its struct's union becomes active, and then the group's member of discriminant value 0
/// and its non-union fields by index are cleared, groups in the same way. The group then reads as its default record.
/// No memory is taken.
///
/// # Conditions
///
/// The field is a group (`IsGroup`). A struct of this message stands at the place (`IsBuilt`), with at least the
/// sections of the field's schema (`IsRoomFor`).
pub fn clear(arena: &mut Arena, place: StructPlace, field: Field<'_>)
    requires planted { IsBuilt arena.old place }
    requires group { IsGroup field }
    requires room { IsRoomFor field (built_at arena.old place) }
    ensures frame { LeavesStruct place arena.old arena.new }
    ensures cleared { built_at arena.new place ≡ group_without field.entry (built_at arena.old place) }
    ensures kept { Keeps (names_of field.entry) (built_at arena.old place) (built_at arena.new place) }
{
    let Some(group) = group_of(field) else {
        unreachable!()
    };
    let schemas = field.get_containing_struct().get_set();
    numbers_fit(schemas);
    group_is_cleared();
    slot::switch(arena, place, field);
    clear_group(arena, place, group, schemas.brands().len());
}

/// Initializes a group, as `clear` does.
///
/// # Conditions
///
/// The field is a group (`IsGroup`). A struct of this message stands at the place (`IsBuilt`), with at least the
/// sections of the field's schema (`IsRoomFor`).
pub fn init(arena: &mut Arena, place: StructPlace, field: Field<'_>)
    requires planted { IsBuilt arena.old place }
    requires group { IsGroup field }
    requires room { IsRoomFor field (built_at arena.old place) }
    ensures frame { LeavesStruct place arena.old arena.new }
    ensures cleared { built_at arena.new place ≡ group_without field.entry (built_at arena.old place) }
    ensures kept { Keeps (names_of field.entry) (built_at arena.old place) (built_at arena.new place) }
{
    clear(arena, place, field);
}

/// Copies a struct of the schema of a field's group into the group.
fn copy(
    arena: &mut Arena,
    place: StructPlace,
    field: Field<'_>,
    group: StructSchema<'_>,
    source: StructReader<'_>,
) -> Result<()>
    requires planted { IsBuilt arena.old place }
    requires group { IsGroupAt field group }
    requires room { IsRoomFor field (built_at arena.old place) }
    ensures frame { LeavesStruct place arena.old arena.new }
    ensures copied { IsCopiedInto field.entry group.entry source.entry (built_at arena.old place) (refusal_of result)
        (built_at arena.new place) }
    ensures kept { Keeps (names_of field.entry) (built_at arena.old place) (built_at arena.new place) }
{
    let schemas = field.get_containing_struct().get_set();
    numbers_fit(schemas);
    group_is_copied();
    heights_fall();
    slot::switch(arena, place, field);
    copy_group(arena, place, group, source, schemas.brands().len() + 1)
}

/// Sets a group to a struct of its schema: it is cleared, as by `clear`, and then the source's fields are copied: first
/// its active member, a null one as its default, and then its non-union fields by index, but for null pointers. Groups
/// in it are copied in the same way. A member is not copied where the source's discriminant is that of none.
///
/// Refused with `NotAStruct` for a source that is no struct, and with `TypeMismatch` for a struct of another schema;
/// then nothing has changed. The first slot whose copy is refused, as by `copied::copy`, ends the whole with that
/// refusal: the group stays as it is by then, cleared and with what was copied before.
///
/// # Conditions
///
/// The field is a group (`IsGroup`). A struct of this message stands at the place (`IsBuilt`), with at least the
/// sections of the field's schema (`IsRoomFor`).
#[inline(never)]
pub fn set(
    arena: &mut Arena,
    place: StructPlace,
    field: Field<'_>,
    source: Source<'_>,
) -> Result<()>
    requires planted { IsBuilt arena.old place }
    requires group { IsGroup field }
    requires room { IsRoomFor field (built_at arena.old place) }
    ensures frame { LeavesStruct place arena.old arena.new }
    ensures set { IsGroupSet field.entry (given_to_group field.entry (source_seen source.entry))
        (built_at arena.old place) (refusal_of result)
        (built_at arena.new place) }
    ensures kept { Keeps (names_of field.entry) (built_at arena.old place) (built_at arena.new place) }
{
    let Source::Struct(reader, schema) = source else {
        return Err(Error::from(ErrorKind::NotAStruct));
    };
    let Some(group) = group_of(field) else {
        unreachable!()
    };
    let given = RawBrandedStructSchema::from(schema).number;
    if given != RawBrandedStructSchema::from(group).number {
        return Err(Error::type_mismatch());
    }
    copy(arena, place, field, group, reader)
}
