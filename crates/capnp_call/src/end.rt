//! What a call does at the end of its path, at a struct or group.
ghost use Rattle.capnp_arena.specs.Frame.{LeavesStruct};
ghost use Rattle.capnp_arena.specs.Built.{IsBuilt, built_at};
ghost use Rattle.std.specs.Prelude.{◌≢◌};
ghost use Rattle.capnp_wire.specs.Place.{struct_tree};
ghost use Rattle.capnp_schema.specs.StructHandles.{number_of, set_of};
ghost use Rattle.capnp_records.specs.Call.{Clear, Init, Initn, Set};
ghost use Rattle.capnp_slots.specs.Fields.{IsRoomFor};
ghost use Rattle.capnp_slots.specs.Sources.{source_seen};
ghost use Rattle.capnp_slots.specs.SetValues.{source_of};
ghost use Rattle.capnp_slots.specs.Standing.{IsStanding, TakesCalls};
ghost use Rattle.capnp_call.specs.Ends.{StructEnds};
ghost use Rattle.capnp_call.specs.Steps.Ends.{FieldDoes, NamedDoes};
ghost use Rattle.capnp_call.specs.Seen.{op_seen, reply_seen, step_seen};

use crate::answer::{get_field, has_field, which_member};
use crate::calls::{Ending, Op, Reply, reply_of};
use crate::way::find_field;
use capnp_arena::arena::{Arena, Place};
use capnp_dynamic_readers::dynamic_value::Reader as Value;
use capnp_schema::schema::{Field, StructSchema};
use capnp_slots::field;
use capnp_slots::primitive::Primitive;
use capnp_slots::source::{Source, source_fits};

/// Sets a field to a source. Where the set of a group is refused, what was copied before stays.
#[inline(always)]
fn set_to(arena: &mut Arena, place: Place, field: Field<'_>, source: Source<'_>) -> Reply
    requires planted { IsBuilt arena.old place }
    requires room { IsRoomFor field (built_at arena.old place) }
    ensures does { FieldDoes field.entry (Set (source_seen source.entry)) (built_at arena.old place) (reply_seen result)
        (built_at arena.new place) }
    ensures frame { LeavesStruct place arena.old arena.new }
{
    source_fits(source);
    reply_of(field::set(arena, place, field, source))
}

/// Sets a field to a value of any kind, which is copied to be a source.
#[inline(never)]
fn set_pointed(arena: &mut Arena, place: Place, field: Field<'_>, value: &Value<'_>) -> Reply
    requires planted { IsBuilt arena.old place }
    requires room { IsRoomFor field (built_at arena.old place) }
    ensures does { FieldDoes field.entry (Set (source_of value.now)) (built_at arena.old place) (reply_seen result)
        (built_at arena.new place) }
    ensures frame { LeavesStruct place arena.old arena.new }
{
    set_to(arena, place, field, Source::from(*value))
}

/// Sets a field to a value. Of a value that no pointer stands for the number alone is read.
#[inline(always)]
fn set_field(arena: &mut Arena, place: Place, field: Field<'_>, value: &Value<'_>) -> Reply
    requires planted { IsBuilt arena.old place }
    requires room { IsRoomFor field (built_at arena.old place) }
    ensures does { FieldDoes field.entry (Set (source_of value.now)) (built_at arena.old place) (reply_seen result)
        (built_at arena.new place) }
    ensures frame { LeavesStruct place arena.old arena.new }
{
    match Primitive::from_value(value) {
        Some(number) => set_to(arena, place, field, Source::Primitive(number)),
        None => set_pointed(arena, place, field, value),
    }
}

/// Initializes a field: a group becomes its default record, a struct's slot a new struct, and an untyped one null. A
/// member becomes active.
///
/// Refused as `field::init`, and then nothing has changed.
fn init_field(arena: &mut Arena, place: Place, field: Field<'_>) -> Reply
    requires planted { IsBuilt arena.old place }
    requires room { IsRoomFor field (built_at arena.old place) }
    ensures does { FieldDoes field.entry Init (built_at arena.old place) (reply_seen result) (built_at arena.new place) }
    ensures frame { LeavesStruct place arena.old arena.new }
{
    reply_of(field::init(arena, place, field))
}

/// Initializes a field with a size: a slot becomes a text or data of so many bytes, or a list of so many elements. A
/// member becomes active.
///
/// Refused as `field::initn`, and then nothing has changed.
fn initn_field(arena: &mut Arena, place: Place, field: Field<'_>, count: u32) -> Reply
    requires planted { IsBuilt arena.old place }
    requires room { IsRoomFor field (built_at arena.old place) }
    ensures does { FieldDoes field.entry (Initn count) (built_at arena.old place) (reply_seen result)
        (built_at arena.new place) }
    ensures frame { LeavesStruct place arena.old arena.new }
{
    reply_of(field::initn(arena, place, field, count))
}

/// Puts a field back to its default, and makes a member active.
fn clear_field(arena: &mut Arena, place: Place, field: Field<'_>) -> Reply
    requires planted { IsBuilt arena.old place }
    requires room { IsRoomFor field (built_at arena.old place) }
    ensures does { FieldDoes field.entry Clear (built_at arena.old place) (reply_seen result) (built_at arena.new place) }
    ensures frame { LeavesStruct place arena.old arena.new }
{
    field::clear(arena, place, field);
    Reply::Done
}

/// Does an operation to a field of a struct.
#[inline(always)]
fn do_field(arena: &mut Arena, place: Place, field: Field<'_>, end: Ending<'_>) -> Reply
    requires planted { IsBuilt arena.old place }
    requires room { IsRoomFor field (built_at arena.old place) }
    requires names { end.call.now.op ≢ Op.Which }
    ensures does { FieldDoes field.entry (op_seen end.entry.call.now.op) (built_at arena.old place) (reply_seen result)
        (built_at arena.new place) }
    ensures frame { LeavesStruct place arena.old arena.new }
{
    match &end.call.op {
        Op::Get => get_field(end.alloc, arena, place, field),
        Op::Has => has_field(arena, place, field),
        Op::Which => unreachable!(),
        Op::Set(value) => set_field(arena, place, field, value),
        Op::Init => init_field(arena, place, field),
        Op::Initn(count) => initn_field(arena, place, field, *count),
        Op::Clear => clear_field(arena, place, field),
    }
}

/// Does an operation to the field that a step names.
#[inline(always)]
fn do_named(arena: &mut Arena, place: Place, schema: StructSchema<'_>, end: Ending<'_>) -> Reply
    requires standing { IsStanding schema arena.old place }
    requires names { end.call.now.op ≢ Op.Which }
    ensures does { NamedDoes (set_of schema.entry) (number_of schema.entry) (step_seen end.entry.call.now.last)
        (op_seen end.entry.call.now.op)
        (built_at arena.old place) (reply_seen result) (built_at arena.new place) }
    ensures frame { LeavesStruct place arena.old arena.new }
{
    match find_field(schema, end.call.last) {
        Err(error) => Reply::Refused(error.kind),
        Ok(field) => do_field(arena, place, field, end),
    }
}

/// Does an operation at a struct or group at which a path ends. `Which` asks the struct and doesn't look at the last
/// step.
///
/// Refused with `NotAContainer` where the last step names an element, with `FieldNotFound` where there is no such
/// field, and else as the operation. Only a `Get` asks whether a member is active: it is refused with `InactiveMember`
/// where not. What is written is the field and, of a member, the union; after a refusal nothing has changed, but for
/// the set of a group that is cut short, which keeps what was copied by then.
///
/// # Conditions
///
/// The schema is one of an accepted set. A struct of this message stands at the place, with at least the schema's
/// sections (`TakesCalls`).
#[inline(never)]
pub fn end_at_struct(
    arena: &mut Arena,
    place: Place,
    schema: StructSchema<'_>,
    end: Ending<'_>,
) -> Reply
    requires ready { TakesCalls schema arena.old place }
    ensures ends { StructEnds (set_of schema.entry) (number_of schema.entry) (step_seen end.entry.call.now.last)
        (op_seen end.entry.call.now.op)
        (built_at arena.old place) (reply_seen result) (built_at arena.new place) }
    ensures frame { LeavesStruct place arena.old arena.new }
{
    match end.call.op {
        Op::Which => which_member(arena, place, schema),
        _ => do_named(arena, place, schema, end),
    }
}
