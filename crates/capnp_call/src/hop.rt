//! One step of a walk: from where it stands into the part that the step names.
ghost use Rattle.capnp_arena.specs.Forest.{Forest, tree};
ghost use Rattle.capnp_arena.specs.Segment.{segment};
ghost use Rattle.capnp_arena.specs.Built.{IsBuilt, built_at};
ghost use Rattle.std.specs.Prelude.{◌≡◌, ◌<◌, false};
ghost use Rattle.capnp_wire.specs.Reading.{is_null_tree, list_length};
ghost use Rattle.capnp_schema.specs.Accepted.{NamesEntries};
ghost use Rattle.capnp_schema.specs.Entries.{lists_seen};
ghost use Rattle.capnp_schema.specs.StructHandles.{IsStruct, generic_of, number_of, set_of};
ghost use Rattle.capnp_schema.specs.Types.{ListType, StructType, seen_type};
ghost use Rattle.capnp_slots.specs.Fields.{IsRoomFor};
ghost use Rattle.capnp_slots.specs.Groups.{IsGroupAt};
ghost use Rattle.capnp_call.specs.Steps.Hops.{ElementGoes, FieldGoes, HopGoes, IsAt, IsAtList, IsAtStruct, HopLeads, LeadsOn, ListGoes, StructGoes, first_step};
ghost use Rattle.capnp_call.specs.Lists.{IsListStand};
ghost use Rattle.capnp_call.specs.Steps.Lists.{refusal_at_nothing};
ghost use Rattle.capnp_call.specs.Seen.{step_seen};
ghost use Rattle.capnp_call.specs.Walks.{IsWalked};
ghost use Rattle.capnp_call.specs.Ways.{IsListSlot, IsStructSlot, LeadsTo};

use crate::calls::Step;
use crate::enter::{enter_group, enter_list, enter_struct};
use crate::way::{Way, find_field, way_of};
use capnp_arena::arena::{Arena, Place};
use capnp_base::introspect::{Type, TypeVariant};
use capnp_schema::laws::numbers_fit;
use capnp_schema::schema::{Field, StructSchema};
use capnp_schema::set::SchemaSet;
use capnp_slots::{element, part};
use capnp_wire::error::{Error, ErrorKind, Result};

/// Where a walk stands.
#[derive(Clone, Copy)]
pub(crate) enum At<'s> {
    /// At a struct or group, under its schema.
    Struct(Place, StructSchema<'s>),
    /// At a list, by the word that leads to it, of elements of a type of a set; or at the list of nothing that a null is.
    List(usize, &'s SchemaSet, Type),
}

/// Takes a step of a path: where it leads, or what it is refused with, as `walk::walk` says. What has to be filled for
/// it is filled.
#[inline(always)]
pub(crate) fn hop<'s>(arena: &mut Arena, at: At<'s>, step: &Step<'_>) -> Result<At<'s>>
    requires { IsAt at (segment arena.old) }
    ensures { HopLeads (first_step (HopGoes at.entry (segment arena.old)) step.now) result (segment arena.new) }
{
    match at {
        At::Struct(place, schema) => hop_field(arena, place, schema, *step),
        At::List(word, schemas, element) => hop_element(arena, word, schemas, element, *step),
    }
}

/// Goes into the field that a step names.
#[inline(always)]
fn hop_field<'s>(
    arena: &mut Arena,
    place: Place,
    schema: StructSchema<'s>,
    step: Step<'_>,
) -> Result<At<'s>>
    requires { IsAtStruct place schema (segment arena.old) }
    ensures { HopLeads (first_step (StructGoes place schema.entry (segment arena.old)) step.entry) result
        (segment arena.new) }
{
    match find_field(schema, step) {
        Err(error) => Err(error),
        Ok(field) => hop_into(arena, place, field),
    }
}

/// Goes into a field, where the tests of a step pass.
#[inline(always)]
fn hop_into<'s>(arena: &mut Arena, place: Place, field: Field<'s>) -> Result<At<'s>>
    requires planted { IsBuilt arena.old place }
    requires room { IsRoomFor field (built_at arena.old place) }
    ensures { HopLeads (FieldGoes place field.entry (segment arena.old)) result (segment arena.new) }
{
    match way_of(arena, place, field) {
        Err(error) => Err(error),
        Ok(way) => hop_along(arena, place, field, way),
    }
}

/// Goes along the way that a field leads.
#[inline(always)]
fn hop_along<'s>(arena: &mut Arena, place: Place, field: Field<'s>, way: Way<'s>) -> Result<At<'s>>
    requires planted { IsBuilt arena.old place }
    requires leads { LeadsTo field way }
    requires walked { IsWalked field (built_at arena.old place) }
    requires room { IsRoomFor field (built_at arena.old place) }
    ensures { HopLeads (FieldGoes place field.entry (segment arena.old)) result (segment arena.new) }
{
    match way {
        Way::Group(group) => Ok(hop_to_group(arena, place, field, group)),
        Way::Struct(schema) => hop_to_struct(arena, place, field, schema),
        Way::List(element) => hop_to_list(arena, place, field, element),
    }
}

/// Goes into a group: the place stays.
#[inline(always)]
fn hop_to_group<'s>(
    arena: &Arena,
    place: Place,
    field: Field<'_>,
    group: StructSchema<'s>,
) -> At<'s>
    requires planted { IsBuilt arena.now place }
    requires leads { IsGroupAt field group }
    requires walked { IsWalked field (built_at arena.now place) }
    requires room { IsRoomFor field (built_at arena.now place) }
    ensures { LeadsOn (FieldGoes place field.entry (segment arena.now)) result (segment arena.now) }
{
    enter_group(arena, place, field);
    At::Struct(place, group)
}

/// Goes into the struct behind a slot.
#[inline(always)]
fn hop_to_struct<'s>(
    arena: &mut Arena,
    place: Place,
    field: Field<'_>,
    schema: StructSchema<'s>,
) -> Result<At<'s>>
    requires planted { IsBuilt arena.old place }
    requires leads { IsStructSlot field schema }
    requires walked { IsWalked field (built_at arena.old place) }
    requires room { IsRoomFor field (built_at arena.old place) }
    ensures { HopLeads (FieldGoes place field.entry (segment arena.old)) result (segment arena.new) }
{
    if let Err(error) = enter_struct(arena, place, field, schema) {
        return Err(error);
    }
    let word = part::pointer(arena, place, field);
    Ok(At::Struct(arena.struct_here(word), schema))
}

/// Goes into the list behind a slot.
#[inline(always)]
fn hop_to_list<'s>(
    arena: &mut Arena,
    place: Place,
    field: Field<'s>,
    element: Type,
) -> Result<At<'s>>
    requires planted { IsBuilt arena.old place }
    requires leads { IsListSlot field element }
    requires walked { IsWalked field (built_at arena.old place) }
    requires room { IsRoomFor field (built_at arena.old place) }
    ensures { HopLeads (FieldGoes place field.entry (segment arena.old)) result (segment arena.new) }
{
    if let Err(error) = enter_list(arena, place, field, element) {
        return Err(error);
    }
    let schemas = field.get_containing_struct().get_set();
    Ok(At::List(part::pointer(arena, place, field), schemas, element))
}

/// What a step, or the end of a path, is refused with at a list without elements.
pub(crate) fn refusal_at_nothing(step: Step<'_>) -> ErrorKind
    ensures { result ≡ refusal_at_nothing (step_seen step.entry) }
{
    match step {
        Step::Element(_) => ErrorKind::NoSuchElement,
        Step::Field(_) => ErrorKind::NotAContainer,
        Step::Named(_) => ErrorKind::NotAContainer,
    }
}

/// Goes into the element that a step names, of a list or of the list of nothing that a null is.
#[inline(always)]
fn hop_element<'s>(
    arena: &mut Arena,
    word: usize,
    schemas: &'s SchemaSet,
    element: Type,
    step: Step<'_>,
) -> Result<At<'s>>
    requires { IsAtList word (lists_seen schemas.now) (seen_type element) (segment arena.old) }
    ensures { HopLeads (first_step (ListGoes word (lists_seen schemas.now) (seen_type element) (segment arena.old))
        step.entry) result (segment arena.new) }
{
    if arena.is_list(word) {
        hop_at_list(arena, word, schemas, element, step)
    } else {
        Err(Error::from(refusal_at_nothing(step)))
    }
}

/// Goes into the element of a list that a step names.
#[inline(always)]
fn hop_at_list<'s>(
    arena: &mut Arena,
    word: usize,
    schemas: &'s SchemaSet,
    element: Type,
    step: Step<'_>,
) -> Result<At<'s>>
    requires stands { IsAtList word (lists_seen schemas.now) (seen_type element) (segment arena.old) }
    requires there { is_null_tree (tree (segment arena.old) word) ≡ false }
    ensures { HopLeads (first_step (ListGoes word (lists_seen schemas.now) (seen_type element) (segment arena.old))
        step.entry) result (segment arena.new) }
{
    match step {
        Step::Element(index) => hop_in_list(arena, word, schemas, element, index),
        Step::Field(_) => Err(Error::from(ErrorKind::NotAContainer)),
        Step::Named(_) => Err(Error::from(ErrorKind::NotAContainer)),
    }
}

/// Goes into an element of a list, where there is one of that index.
#[inline(always)]
fn hop_in_list<'s>(
    arena: &mut Arena,
    word: usize,
    schemas: &'s SchemaSet,
    element: Type,
    index: u32,
) -> Result<At<'s>>
    requires stands { IsAtList word (lists_seen schemas.now) (seen_type element) (segment arena.old) }
    requires there { is_null_tree (tree (segment arena.old) word) ≡ false }
    ensures { HopLeads (first_step (ListGoes word (lists_seen schemas.now) (seen_type element) (segment arena.old))
        (Step.Element index)) result (segment arena.new) }
{
    if index >= arena.get_length(word) {
        return Err(Error::from(ErrorKind::NoSuchElement));
    }
    hop_to_element(arena, word, schemas, element, index)
}

/// Goes into an element of a list, by its type.
#[inline(always)]
fn hop_to_element<'s>(
    arena: &mut Arena,
    word: usize,
    schemas: &'s SchemaSet,
    element: Type,
    index: u32,
) -> Result<At<'s>>
    requires stands { IsAtList word (lists_seen schemas.now) (seen_type element) (segment arena.old) }
    requires inside { index < list_length (tree (segment arena.old) word) }
    ensures { HopLeads (ElementGoes word (lists_seen schemas.now) (seen_type element) index (segment arena.old)) result
        (segment arena.new) }
{
    match element.which() {
        TypeVariant::Struct(raw) => Ok(hop_to_struct_in(
            arena,
            word,
            schemas.struct_schema(raw.number),
            index,
        )),
        TypeVariant::List(inner) => hop_to_list_in(arena, word, schemas, inner, index),
        TypeVariant::AnyPointer => Err(Error::from(ErrorKind::UntypedStep)),
        _ => Err(Error::from(ErrorKind::NotAContainer)),
    }
}

/// Goes into a struct of a list of structs.
#[inline(always)]
fn hop_to_struct_in<'s>(arena: &Arena, word: usize, schema: StructSchema<'s>, index: u32) -> At<'s>
    requires forest { Forest (segment arena.now) word }
    requires stands { IsStruct schema }
    requires list { IsListStand (set_of schema) (StructType (number_of schema) (generic_of schema))
        (tree (segment arena.now) word) }
    requires inside { index < list_length (tree (segment arena.now) word) }
    ensures { LeadsOn (ElementGoes word (set_of schema.entry)
        (StructType (number_of schema.entry) (generic_of schema.entry)) index (segment arena.now)) result
        (segment arena.now) }
{
    At::Struct(arena.get_struct_at(word, index), schema)
}

/// Goes into a list of a list of lists.
#[inline(always)]
fn hop_to_list_in<'s>(
    arena: &mut Arena,
    word: usize,
    schemas: &'s SchemaSet,
    inner: Type,
    index: u32,
) -> Result<At<'s>>
    requires forest { Forest (segment arena.old) word }
    requires entries { NamesEntries (lists_seen schemas.now) (seen_type inner) }
    requires list { IsListStand (lists_seen schemas.now) (ListType (seen_type inner)) (tree (segment arena.old) word) }
    requires inside { index < list_length (tree (segment arena.old) word) }
    ensures { HopLeads (ElementGoes word (lists_seen schemas.now) (ListType (seen_type inner)) index
        (segment arena.old)) result (segment arena.new) }
{
    numbers_fit(schemas);
    let pointer = arena.get_pointer_element(word, index);
    arena.tree_is_sound(pointer);
    if let Err(error) = element::fill_list(arena, pointer, schemas, inner) {
        return Err(error);
    }
    arena.tree_is_sound(pointer);
    Ok(At::List(pointer, schemas, inner))
}
