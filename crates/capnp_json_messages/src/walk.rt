//! The walk through a JSON text that reads it into a message in memory.
ghost use Rattle.std.specs.Prelude.{◌≡◌, ◌<◌, ◌^◌, [], Some, IfErr, IfOk, OnOk};
ghost use Rattle.std.specs.Option.{option_map};
ghost use Rattle.capnp_arena.specs.Built.{IsBuilt, built_at};
ghost use Rattle.capnp_arena.specs.Forest.{Forest, tree};
ghost use Rattle.capnp_arena.specs.Frame.{LeavesPointer, LeavesStruct};
ghost use Rattle.capnp_arena.specs.Segment.{segment};
ghost use Rattle.capnp_schema.specs.Accepted.{NamesEntries};
ghost use Rattle.capnp_schema.specs.Entries.{lists_seen};
ghost use Rattle.capnp_schema.specs.FieldLists.{typed_of};
ghost use Rattle.capnp_schema.specs.StructHandles.{IsStruct, generic_of, number_of, set_of};
ghost use Rattle.capnp_schema.specs.Types.{ListType, StructType, seen_type};
ghost use Rattle.capnp_records.specs.Reading.{reads};
ghost use Rattle.capnp_records.specs.Writes.Contents.{new_list};
ghost use Rattle.capnp_slots.specs.Fields.{IsRoomFor, IsSlot, field_set};
ghost use Rattle.capnp_slots.specs.Groups.{IsGroupAt};
ghost use Rattle.capnp_slots.specs.Standing.{IsUnder};
ghost use Rattle.capnp_json_text.specs.Values.{elements_of, json_at, most_items};
ghost use Rattle.capnp_json_fields.specs.Marks.{has_float_base};
ghost use Rattle.capnp_from_json.specs.Given.{marks_of};
ghost use Rattle.capnp_from_json.specs.Records.{element_count};
ghost use Rattle.capnp_json_messages.specs.Put.{HasNew};
ghost use Rattle.capnp_json_messages.specs.Rows.{IsRow, row_set, row_type};
ghost use Rattle.capnp_json_messages.specs.Steps.Walks.{ListRead, MemberRead, elements_json};
ghost use Rattle.capnp_json_messages.specs.Walks.{ElementRead, FieldRead, IsRefused, StructRead, element_json, field_json, members_json};
ghost use Rattle.capnp_json_messages.specs.Ways.{IsListType, IsStructType};

use crate::leaf::{read_inner_leaf, read_slot};
use crate::opened::{
    Opened, item_behind, open_element, open_group, open_list, open_struct, value_behind,
};
use crate::put::put_in_slot;
use crate::row::Row;
use crate::started::{inner_struct, start_group, start_inner_list, start_list, start_struct};
use crate::ways::{ElementWay, Way, way_of, way_of_element};
use capnp_arena::arena::{Arena, Place};
use capnp_base::introspect::Type;
use capnp_from_json::elements::count_elements;
use capnp_from_json::error::Error;
use capnp_from_json::given::named_field;
use capnp_from_json::leaves::Leaf;
use capnp_from_json::reading::Reading;
use capnp_json_fields::fields::is_float;
use capnp_json_text::laws::values_stand_in_steps;
use capnp_schema::schema::{Field, StructSchema};

// ---- objects ----

/// Reads the members of an object, from the first name on, into a struct or group, with so many levels for what they
/// hold. What they do not name stays.
///
/// Refused for the first member that is refused: as `named_field`, and as `read_field`. Then what was read before is
/// there.
///
/// # Conditions
///
/// The schema is one of an accepted set (`IsStruct`). A struct stands at the place (`IsBuilt`), with at least the schema's
/// sections (`IsUnder`).
#[cycle(walk)]
pub fn read_members(
    arena: &mut Arena,
    reading: Reading,
    place: Place,
    schema: StructSchema<'_>,
    levels: u32,
    first: Option<&[u8]>,
) -> Result<(), Error>
    requires stands { IsStruct schema }
    requires planted { IsBuilt arena.old place }
    requires room { IsUnder schema (built_at arena.old place) }
    ensures frame { OnOk result (LeavesStruct place arena.old arena.new) }
    ensures read { OnOk result (StructRead schema.entry reading.strict
        (members_json reading levels schema.entry (option_map (λ x. x.now) first.entry) []
        (reads (set_of schema.entry) (built_at arena.old place) (number_of schema.entry)))
        (built_at arena.old place) (built_at arena.new place)) }
    ensures refused { IfErr result (IsRefused (set_of schema.entry) reading.strict
        (members_json reading levels schema.entry (option_map (λ x. x.now) first.entry) []
        (reads (set_of schema.entry) (built_at arena.old place) (number_of schema.entry)))) }
{
    values_stand_in_steps();
    let mut given: Vec<Option<u16>> = Vec::new(reading.alloc);
    let mut next = first;
    'members: while let Some(bytes) = next {
        match read_member(arena, reading, place, schema, levels, &mut given, bytes) {
            Ok(behind) => next = behind,
            Err(error) => return Err(error),
        }
    }
    Ok(())
}

/// Reads the member with whose name bytes begin, and answers where the next name begins, if there is one.
///
/// Refused as `named_field`, and as `read_field`.
#[cycle(walk)]
fn read_member<'a>(
    arena: &mut Arena,
    reading: Reading,
    place: Place,
    schema: StructSchema<'_>,
    levels: u32,
    given: &mut Vec<Option<u16>>,
    bytes: &'a [u8],
) -> Result<Option<&'a [u8]>, Error>
    requires stands { IsStruct schema }
    requires planted { IsBuilt arena.old place }
    requires room { IsUnder schema (built_at arena.old place) }
    ensures frame { OnOk result (LeavesStruct place arena.old arena.new) }
    ensures read { IfOk result (λ next. MemberRead schema.entry reading levels bytes.now
        (option_map (λ x. x.now) next) (marks_of given.old.items) (marks_of given.new.items)
        (built_at arena.old place) (built_at arena.new place)) }
    ensures refused { IfErr result (IsRefused (set_of schema.entry) reading.strict
        (members_json reading levels schema.entry (Some bytes.now) (marks_of given.old.items)
        (reads (set_of schema.entry) (built_at arena.old place) (number_of schema.entry)))) }
{
    values_stand_in_steps();
    let found = match named_field(reading, schema, bytes, given) {
        Ok(found) => found,
        Err(error) => return Err(error),
    };
    let value = value_behind(bytes);
    let next = match item_behind(reading, value) {
        Ok(next) => next,
        Err(_memory) => return Err(Error::OutOfMemory),
    };
    let Some(field) = found else {
        return Ok(next);
    };
    match read_field(arena, reading, place, field, levels, value) {
        Ok(()) => Ok(next),
        Err(error) => Err(error),
    }
}

// ---- fields ----

/// Reads the value with which bytes begin into a field, with so many levels. A member becomes active.
///
/// Refused with `OutOfMemory`; with `WrongJsonKind` for a value of a kind that the field's type does not take; with
/// `TooDeep` where no level is left for an object or array; with `SizePastFormat`, `NumberOutOfRange` and `NameUnknown`; and
/// for the first member or element in it that is refused. Then what was read before is there.
///
/// # Conditions
///
/// A struct stands at the place (`IsBuilt`), with room for the field (`IsRoomFor`).
#[cycle(walk)]
pub fn read_field(
    arena: &mut Arena,
    reading: Reading,
    place: Place,
    field: Field<'_>,
    levels: u32,
    bytes: &[u8],
) -> Result<(), Error>
    requires planted { IsBuilt arena.old place }
    requires room { IsRoomFor field (built_at arena.old place) }
    ensures frame { OnOk result (LeavesStruct place arena.old arena.new) }
    ensures read { OnOk result (FieldRead field.entry reading.strict (field_json reading levels field.entry bytes.now)
        (built_at arena.old place) (built_at arena.new place)) }
    ensures refused { IfErr result (IsRefused (field_set field.entry) reading.strict
        (field_json reading levels field.entry bytes.now)) }
{
    match way_of(field) {
        Way::Group(schema) => read_group(arena, reading, place, field, schema, levels, bytes),
        Way::Struct(schema) => read_struct(arena, reading, place, field, schema, levels, bytes),
        Way::List(element) => read_list(arena, reading, place, field, element, levels, bytes),
        Way::Leaf(of) => read_slot(arena, reading, place, field, of, levels, bytes),
    }
}

/// Reads an object into a group.
#[cycle(walk)]
fn read_group(
    arena: &mut Arena,
    reading: Reading,
    place: Place,
    field: Field<'_>,
    schema: StructSchema<'_>,
    levels: u32,
    bytes: &[u8],
) -> Result<(), Error>
    requires planted { IsBuilt arena.old place }
    requires room { IsRoomFor field (built_at arena.old place) }
    requires leads { IsGroupAt field schema }
    ensures frame { OnOk result (LeavesStruct place arena.old arena.new) }
    ensures read { OnOk result (FieldRead field.entry reading.strict (field_json reading levels field.entry bytes.now)
        (built_at arena.old place) (built_at arena.new place)) }
    ensures refused { IfErr result (IsRefused (field_set field.entry) reading.strict
        (field_json reading levels field.entry bytes.now)) }
{
    let first = match open_group(reading, bytes) {
        Ok(first) => first,
        Err(error) => return Err(error),
    };
    start_group(arena, place, field, schema);
    match read_members(arena, reading, place, schema, levels, first) {
        Ok(()) => Ok(()),
        Err(error) => Err(error),
    }
}

/// Reads an object, or null, into a slot of a struct's type.
#[cycle(walk)]
fn read_struct(
    arena: &mut Arena,
    reading: Reading,
    place: Place,
    field: Field<'_>,
    schema: StructSchema<'_>,
    levels: u32,
    bytes: &[u8],
) -> Result<(), Error>
    requires planted { IsBuilt arena.old place }
    requires slot { IsSlot field }
    requires room { IsRoomFor field (built_at arena.old place) }
    requires leads { IsStructType (field_set field) (typed_of field).type schema }
    ensures frame { OnOk result (LeavesStruct place arena.old arena.new) }
    ensures read { OnOk result (FieldRead field.entry reading.strict (field_json reading levels field.entry bytes.now)
        (built_at arena.old place) (built_at arena.new place)) }
    ensures refused { IfErr result (IsRefused (field_set field.entry) reading.strict
        (field_json reading levels field.entry bytes.now)) }
{
    let opened = match open_struct(reading, levels, bytes) {
        Ok(opened) => opened,
        Err(error) => return Err(error),
    };
    let Opened::Items(first) = opened else {
        return match put_in_slot(arena, place, field, &Leaf::Null) {
            Ok(()) => Ok(()),
            Err(_memory) => Err(Error::OutOfMemory),
        };
    };
    let inner = match start_struct(arena, place, field, schema) {
        Ok(inner) => inner,
        Err(error) => return Err(error),
    };
    match read_members(
        arena,
        reading,
        inner,
        schema,
        levels.saturating_sub(1),
        first,
    ) {
        Ok(()) => Ok(()),
        Err(error) => Err(error),
    }
}

/// Reads an array, or null, into a slot of a list's type.
#[cycle(walk)]
fn read_list(
    arena: &mut Arena,
    reading: Reading,
    place: Place,
    field: Field<'_>,
    element: Type,
    levels: u32,
    bytes: &[u8],
) -> Result<(), Error>
    requires planted { IsBuilt arena.old place }
    requires slot { IsSlot field }
    requires room { IsRoomFor field (built_at arena.old place) }
    requires leads { IsListType (field_set field) (typed_of field).type element }
    ensures frame { OnOk result (LeavesStruct place arena.old arena.new) }
    ensures read { OnOk result (FieldRead field.entry reading.strict (field_json reading levels field.entry bytes.now)
        (built_at arena.old place) (built_at arena.new place)) }
    ensures refused { IfErr result (IsRefused (field_set field.entry) reading.strict
        (field_json reading levels field.entry bytes.now)) }
{
    let opened = match open_list(reading, levels, bytes) {
        Ok(opened) => opened,
        Err(error) => return Err(error),
    };
    let Opened::Items(first) = opened else {
        return match put_in_slot(arena, place, field, &Leaf::Null) {
            Ok(()) => Ok(()),
            Err(_memory) => Err(Error::OutOfMemory),
        };
    };
    let count = match count_elements(reading.alloc, first) {
        Ok(count) => count,
        Err(_memory) => return Err(Error::OutOfMemory),
    };
    let at = reading.place_of(bytes);
    let word = match start_list(arena, place, field, element, count, at) {
        Ok(word) => word,
        Err(error) => return Err(error),
    };
    let row = Row {
        schemas: field.get_containing_struct().get_set(),
        element,
        is_float: is_float(field),
    };
    match read_elements(arena, reading, word, row, levels.saturating_sub(1), first) {
        Ok(()) => Ok(()),
        Err(error) => Err(error),
    }
}

// ---- arrays ----

/// Reads the elements of an array, from the first on, into a new list of as many, by the word that leads there, with so
/// many levels for each of them.
///
/// Refused for the first element that is refused. Then what was read before is there.
///
/// # Conditions
///
/// The word leads to a new list of the type, of as many elements. The type names entries of the set (`NamesEntries`).
/// Where numbers are floats, its base is UInt32 or UInt64 (`has_float_base`).
#[cycle(walk)]
fn read_elements(
    arena: &mut Arena,
    reading: Reading,
    word: usize,
    row: Row<'_>,
    levels: u32,
    first: Option<&[u8]>,
) -> Result<(), Error>
    requires forest { Forest (segment arena.old) word }
    requires row { IsRow row }
    requires few { element_count (elements_of (json_at reading.whole) (option_map (λ x. x.now) first)) < 2 ^ 29 }
    requires anew { tree (segment arena.old) word ≡ new_list (row_set row) (row_type row)
        (element_count (elements_of (json_at reading.whole) (option_map (λ x. x.now) first))) }
    ensures frame { OnOk result (LeavesPointer word arena.old arena.new) }
    ensures read { OnOk result (ListRead (row_set row.entry) (row_type row.entry) reading.strict
        (elements_json reading levels (row_type row.entry) row.entry.is_float (option_map (λ x. x.now) first.entry))
        (tree (segment arena.new) word)) }
    ensures refused { IfErr result (IsRefused (row_set row.entry) reading.strict
        (elements_json reading levels (row_type row.entry) row.entry.is_float (option_map (λ x. x.now) first.entry))) }
{
    values_stand_in_steps();
    let mut index = 0;
    let mut next = first;
    'elements: while let Some(bytes) = next {
        match read_element(arena, reading, word, row, levels, index, bytes) {
            Ok(()) => {}
            Err(error) => return Err(error),
        }
        match item_behind(reading, bytes) {
            Ok(behind) => next = behind,
            Err(_memory) => return Err(Error::OutOfMemory),
        }
        index += 1;
    }
    Ok(())
}

/// Reads the value with which bytes begin into an element of a new list, with so many levels.
#[cycle(walk)]
pub(crate) fn read_element(
    arena: &mut Arena,
    reading: Reading,
    word: usize,
    row: Row<'_>,
    levels: u32,
    index: u32,
    bytes: &[u8],
) -> Result<(), Error>
    requires forest { Forest (segment arena.old) word }
    requires row { IsRow row }
    requires there { HasNew (row_set row) (row_type row) (tree (segment arena.old) word) index }
    ensures frame { OnOk result (LeavesPointer word arena.old arena.new) }
    ensures read { OnOk result (ElementRead (row_set row.entry) (row_type row.entry) index reading.strict
        (element_json reading levels (row_type row.entry) row.entry.is_float bytes.now) (tree (segment arena.old) word)
        (tree (segment arena.new) word)) }
    ensures refused { IfErr result (IsRefused (row_set row.entry) reading.strict
        (element_json reading levels (row_type row.entry) row.entry.is_float bytes.now)) }
{
    match way_of_element(row.schemas, row.element) {
        ElementWay::Struct(schema) => {
            read_inner_struct(arena, reading, word, row, schema, levels, index, bytes)
        }
        ElementWay::List(inner) => {
            read_inner_list(arena, reading, word, row, inner, levels, index, bytes)
        }
        ElementWay::Leaf(of) => read_inner_leaf(
            arena, reading, word, row, of, levels, index, bytes,
        ),
    }
}

/// Reads an object into a struct of a list.
#[cycle(walk)]
fn read_inner_struct(
    arena: &mut Arena,
    reading: Reading,
    word: usize,
    row: Row<'_>,
    schema: StructSchema<'_>,
    levels: u32,
    index: u32,
    bytes: &[u8],
) -> Result<(), Error>
    requires forest { Forest (segment arena.old) word }
    requires leads { IsStructType (row_set row) (row_type row) schema }
    requires there { HasNew (row_set row) (row_type row) (tree (segment arena.old) word) index }
    ensures frame { OnOk result (LeavesPointer word arena.old arena.new) }
    ensures read { OnOk result (ElementRead (row_set row.entry) (row_type row.entry) index reading.strict
        (element_json reading levels (row_type row.entry) row.entry.is_float bytes.now) (tree (segment arena.old) word)
        (tree (segment arena.new) word)) }
    ensures refused { IfErr result (IsRefused (row_set row.entry) reading.strict
        (element_json reading levels (row_type row.entry) row.entry.is_float bytes.now)) }
{
    let first = match open_element(reading, levels, bytes) {
        Ok(first) => first,
        Err(error) => return Err(error),
    };
    let inner = inner_struct(arena, word, schema, index);
    match read_members(
        arena,
        reading,
        inner,
        schema,
        levels.saturating_sub(1),
        first,
    ) {
        Ok(()) => Ok(()),
        Err(error) => Err(error),
    }
}

/// Reads an array, or null, into a list of a list of lists.
#[cycle(walk)]
fn read_inner_list(
    arena: &mut Arena,
    reading: Reading,
    word: usize,
    row: Row<'_>,
    inner: Type,
    levels: u32,
    index: u32,
    bytes: &[u8],
) -> Result<(), Error>
    requires forest { Forest (segment arena.old) word }
    requires row { IsRow row }
    requires leads { IsListType (row_set row) (row_type row) inner }
    requires there { HasNew (row_set row) (row_type row) (tree (segment arena.old) word) index }
    ensures frame { OnOk result (LeavesPointer word arena.old arena.new) }
    ensures read { OnOk result (ElementRead (row_set row.entry) (row_type row.entry) index reading.strict
        (element_json reading levels (row_type row.entry) row.entry.is_float bytes.now) (tree (segment arena.old) word)
        (tree (segment arena.new) word)) }
    ensures refused { IfErr result (IsRefused (row_set row.entry) reading.strict
        (element_json reading levels (row_type row.entry) row.entry.is_float bytes.now)) }
{
    let opened = match open_list(reading, levels, bytes) {
        Ok(opened) => opened,
        Err(error) => return Err(error),
    };
    let Opened::Items(first) = opened else {
        return Ok(());
    };
    let count = match count_elements(reading.alloc, first) {
        Ok(count) => count,
        Err(_memory) => return Err(Error::OutOfMemory),
    };
    let at = reading.place_of(bytes);
    let pointer = match start_inner_list(
        arena,
        word,
        row.schemas,
        row.element,
        inner,
        index,
        count,
        at,
    ) {
        Ok(pointer) => pointer,
        Err(error) => return Err(error),
    };
    let behind = Row {
        schemas: row.schemas,
        element: inner,
        is_float: row.is_float,
    };
    match read_elements(
        arena,
        reading,
        pointer,
        behind,
        levels.saturating_sub(1),
        first,
    ) {
        Ok(()) => Ok(()),
        Err(error) => Err(error),
    }
}
