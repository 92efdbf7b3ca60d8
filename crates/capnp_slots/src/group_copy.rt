//! Copies of a group out of a struct of its schema that is read, field by field.
ghost use Rattle.std.specs.Prelude.{◌≡◌, ◌≤◌, ◌<◌, length};
ghost use Rattle.capnp_arena.specs.Frame.{LeavesStruct};
ghost use Rattle.capnp_arena.specs.Built.{IsBuilt, built_at};
ghost use Rattle.capnp_schema.specs.FieldLists.{IsFound};
ghost use Rattle.capnp_schema.specs.Laws.{group_height};
ghost use Rattle.capnp_schema.specs.StructHandles.{number_of, set_of, struct_fields};
ghost use Rattle.capnp_records.specs.Writes.Overlay.{cleared_group};
ghost use Rattle.capnp_records.specs.Writes.Slots.{Fits};
ghost use Rattle.capnp_slots.specs.Copied.{refusal_of};
ghost use Rattle.capnp_slots.specs.Fields.{IsRoomFor, switched_to};
ghost use Rattle.capnp_slots.specs.Groups.{IsGroupAt, KeepsSize};
ghost use Rattle.capnp_slots.specs.Steps.GroupSets.{IsCopiedThrough, active_field, copied_field, has_field};

use crate::copied::copy;
use crate::group::{clear_group, cleared_at, cleared_behind, field_count, group_of};
use crate::slot::switch;
use capnp_arena::arena::{Arena, Place as StructPlace};
use capnp_dynamic_readers::presence;
use capnp_schema::schema::{Field, StructSchema};
use capnp_wire::StructReader;
use capnp_wire::error::Result;

/// The active member of a struct that is read; none without a union and for an unknown number.
fn active_member<'s>(schema: StructSchema<'s>, source: &StructReader<'_>) -> Option<Field<'s>>
    ensures { IsFound schema.entry (active_field schema.entry source.now) result }
{
    presence::active_member(schema, source)
}

/// Whether a struct that is read has a field: all but a null pointer.
fn has(field: Field<'_>, source: &StructReader<'_>) -> bool
    ensures { result ≡ has_field field.entry source.now }
{
    // The prover learns the set's invariant from this call.
    let _variant = field.get_type().which();
    presence::is_there(source, field.plan().place)
}

/// The field that is copied at a place of a group: at 0 the source's active member, and at i + 1 field i, where that is no
/// member and the source has it. None where nothing is copied there.
fn copied_at<'s>(
    schema: StructSchema<'s>,
    source: &StructReader<'_>,
    next: u32,
) -> Option<Field<'s>>
    requires inside { next ≤ length (struct_fields schema) }
    requires small { next ≤ 65535 }
    ensures { IsFound schema.entry (copied_field schema.entry source.now next) result }
{
    if next == 0 {
        return active_member(schema, source);
    }
    let Some(field) = cleared_at(schema, next) else {
        return None;
    };
    if has(field, source) {
        Some(field)
    } else {
        None
    }
}

/// Clears a group, through as many groups as there are.
fn clear_whole(arena: &mut Arena, place: StructPlace, schema: StructSchema<'_>)
    requires planted { IsBuilt arena.old place }
    requires room { Fits (set_of schema) (number_of schema) (built_at arena.old place) }
    ensures frame { LeavesStruct place arena.old arena.new }
    ensures cleared { built_at arena.new place
        ≡ cleared_group (set_of schema.entry) (number_of schema.entry) (built_at arena.old place) }
    ensures kept { KeepsSize (built_at arena.old place) (built_at arena.new place) }
{
    clear_group(arena, place, schema, schema.get_set().brands().len());
}

/// Makes the field of a group active, and clears the group.
fn open(arena: &mut Arena, place: StructPlace, field: Field<'_>, group: StructSchema<'_>)
    requires planted { IsBuilt arena.old place }
    requires group { IsGroupAt field group }
    requires room { IsRoomFor field (built_at arena.old place) }
    ensures frame { LeavesStruct place arena.old arena.new }
    ensures cleared { built_at arena.new place
        ≡ cleared_group (set_of group.entry) (number_of group.entry) (switched_to field.entry (built_at arena.old place)) }
    ensures kept { KeepsSize (built_at arena.old place) (built_at arena.new place) }
{
    switch(arena, place, field);
    clear_whole(arena, place, group);
}

/// Copies a group: it is cleared, and then the source's active member and the non-union fields that the source has are
/// copied up to the first that is refused. A group in it is gone into where it stands, and left by its own field.
pub(crate) fn copy_group(
    arena: &mut Arena,
    place: StructPlace,
    schema: StructSchema<'_>,
    source: StructReader<'_>,
    groups: usize,
) -> Result<()>
    requires planted { IsBuilt arena.old place }
    requires room { Fits (set_of schema) (number_of schema) (built_at arena.old place) }
    requires height { group_height (set_of schema) (number_of schema) < groups }
    ensures frame { LeavesStruct place arena.old arena.new }
    ensures copied { IsCopiedThrough groups schema.entry source.entry (built_at arena.old place) (refusal_of result)
        (built_at arena.new place) }
    ensures kept { KeepsSize (built_at arena.old place) (built_at arena.new place) }
{
    clear_whole(arena, place, schema);
    let mut at = schema;
    let mut next: u32 = 0;
    let mut left = groups - 1;
    loop {
        if next > field_count(at) {
            if left + 1 == groups {
                return Ok(());
            }
            let Some(field) = at.get_group_field() else {
                return Ok(());
            };
            at = field.get_containing_struct();
            next = cleared_behind(field);
            left += 1;
            continue;
        }
        let Some(field) = copied_at(at, &source, next) else {
            next += 1;
            continue;
        };
        let Some(group) = group_of(field) else {
            if let Err(error) = copy(arena, place, field, source) {
                return Err(error);
            }
            next += 1;
            continue;
        };
        open(arena, place, field, group);
        at = group;
        next = 0;
        left -= 1;
    }
}
