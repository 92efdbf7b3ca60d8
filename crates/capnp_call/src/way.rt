//! Where a step at a struct leads.
ghost use Rattle.capnp_arena.specs.Segment.{segment};
ghost use Rattle.capnp_arena.specs.Built.{ChangesIn, IsBuilt, built_at};
ghost use Rattle.std.specs.Prelude.{◌≡◌, IfOk};
ghost use Rattle.capnp_wire.specs.Place.{struct_tree};
ghost use Rattle.capnp_schema.specs.FieldLists.{index_of, typed_of};
ghost use Rattle.capnp_schema.specs.StructHandles.{IsStruct, generic_of, number_of, set_of};
ghost use Rattle.capnp_schema.specs.Types.{ListType, StructType, seen_type};
ghost use Rattle.capnp_schema.specs.Accepted.{NamesEntries};
ghost use Rattle.capnp_records.specs.Part.{is_inactive};
ghost use Rattle.capnp_records.specs.Reading.{reads};
ghost use Rattle.capnp_records.specs.Record.{Record, Value};
ghost use Rattle.capnp_records.specs.Step.{in_record, passed_target};
ghost use Rattle.capnp_slots.specs.Fields.{field_brand, field_set};
ghost use Rattle.capnp_call.specs.Seen.{step_seen};
ghost use Rattle.capnp_call.specs.Ways.{IsNamedBy, LeadsTo, found_target, target_in, way_target};

use crate::calls::Step;
use capnp_arena::arena::{Arena, Place};
use capnp_base::introspect::{Type, TypeVariant};
use capnp_dynamic_readers::dynamic_struct;
use capnp_schema::schema::{Field, StructSchema};
use capnp_slots::group::group_of;
use capnp_wire::error::{Error, ErrorKind, Result};

/// Where a step leads.
#[derive(Clone, Copy)]
pub enum Way<'s> {
    /// Into a group of the same struct.
    Group(StructSchema<'s>),
    /// Into the struct behind a pointer.
    Struct(StructSchema<'s>),
    /// Into the list behind a pointer, of elements of a type.
    List(Type),
}

/// The field that a step names at a struct or group.
///
/// Refused with `NotAContainer` for a step to an element, and else with `FieldNotFound` where there is no field of that
/// index or name.
#[inline(always)]
pub fn find_field<'s>(schema: StructSchema<'s>, step: Step<'_>) -> Result<Field<'s>>
    ensures found { (whole : Record → Value) (r : Record)
        → found_target whole r result ≡ in_record (set_of schema.entry) whole r (number_of schema.entry)
        (step_seen step.entry) }
    ensures named { IfOk result (IsNamedBy schema.entry step.entry) }
{
    match step {
        Step::Field(index) => find_numbered(schema, index),
        Step::Named(name) => schema.get_field_by_name(name),
        Step::Element(_) => Err(Error::from(ErrorKind::NotAContainer)),
    }
}

/// The field of an index; refused with `FieldNotFound` where there is none.
#[inline(always)]
fn find_numbered(schema: StructSchema<'_>, index: u16) -> Result<Field<'_>>
    ensures found { (whole : Record → Value) (r : Record)
        → found_target whole r result ≡ in_record (set_of schema.entry) whole r (number_of schema.entry)
        (step_seen (Step.Field index)) }
    ensures named { IfOk result (IsNamedBy schema.entry (Step.Field index)) }
{
    let fields = schema.get_fields()?;
    if index >= fields.len() {
        return Err(Error::from(ErrorKind::FieldNotFound));
    }
    Ok(fields.get(index))
}

/// Whether a field is a member of its struct's union that isn't active.
///
/// # Conditions
///
/// A struct of this message stands at the place (`IsBuilt`).
#[inline(always)]
pub fn is_inactive(arena: &Arena, place: Place, field: Field<'_>) -> bool
    requires planted { IsBuilt arena.now place }
    ensures { result ≡ is_inactive (reads (field_set field.entry) (built_at arena.now place) (field_brand field.entry))
        (typed_of field.entry).field
        (index_of field.entry) }
{
    let reader = dynamic_struct::Reader::new(
        arena.get_struct_reader(place),
        field.get_containing_struct(),
    );
    !reader.is_active(field)
}

/// Where a step into a field leads that the struct has.
///
/// Refused with `InactiveMember` for a member that isn't active, then with `UntypedStep` for an untyped pointer, and
/// with `NotAContainer` for another field that is no struct, group or list.
///
/// # Conditions
///
/// A struct of this message stands at the place (`IsBuilt`).
#[inline(always)]
pub fn way_of<'s>(arena: &Arena, place: Place, field: Field<'s>) -> Result<Way<'s>>
    requires planted { IsBuilt arena.now place }
    ensures walked { (whole : Record → Value) → way_target (target_in whole field.entry (built_at arena.now place)) result
        ≡ passed_target (target_in whole field.entry (built_at arena.now place)) }
    ensures leads { IfOk result (LeadsTo field.entry) }
{
    if is_inactive(arena, place, field) {
        return Err(Error::from(ErrorKind::InactiveMember));
    }
    match field.get_type().which() {
        TypeVariant::AnyPointer => Err(Error::from(ErrorKind::UntypedStep)),
        TypeVariant::Struct(raw) => {
            let schemas = field.get_containing_struct().get_set();
            Ok(way_into(field, StructSchema::new(schemas, raw)))
        }
        TypeVariant::List(element) => Ok(way_along(field, element)),
        _ => Err(Error::from(ErrorKind::NotAContainer)),
    }
}

/// Into a group, or into the struct of a schema behind a pointer.
#[inline(always)]
fn way_into<'s>(field: Field<'s>, schema: StructSchema<'s>) -> Way<'s>
    requires stands { IsStruct schema }
    requires set { set_of schema ≡ field_set field }
    requires type_is { StructType (number_of schema) (generic_of schema) ≡ (typed_of field).type }
    ensures { LeadsTo field.entry result }
{
    match group_of(field) {
        Some(group) => Way::Group(group),
        None => Way::Struct(schema),
    }
}

/// Into the list behind a pointer, of elements of a type.
#[inline(always)]
fn way_along<'s>(field: Field<'s>, element: Type) -> Way<'s>
    requires type_is { ListType (seen_type element) ≡ (typed_of field).type }
    requires entries { NamesEntries (field_set field) (seen_type element) }
    ensures { LeadsTo field.entry result }
{
    match group_of(field) {
        Some(group) => Way::Group(group),
        None => Way::List(element),
    }
}
