//! Structs, lists and groups that are begun, before what they hold is read.
ghost use Rattle.std.specs.Prelude.{Bool, false, ◌≡◌, IfErr, IfOk, OnOk};
ghost use Rattle.capnp_arena.specs.Built.{IsBuilt, built_at};
ghost use Rattle.capnp_arena.specs.Forest.{Forest, tree};
ghost use Rattle.capnp_arena.specs.Frame.{LeavesStruct};
ghost use Rattle.capnp_arena.specs.Segment.{segment};
ghost use Rattle.capnp_schema.specs.Accepted.{IsAccepted};
ghost use Rattle.capnp_schema.specs.Entries.{lists_seen};
ghost use Rattle.capnp_schema.specs.FieldLists.{index_of, typed_of};
ghost use Rattle.capnp_schema.specs.StructHandles.{IsStruct, generic_of, number_of, set_of};
ghost use Rattle.capnp_schema.specs.Types.{ListType, StructType, seen_type};
ghost use Rattle.capnp_records.specs.Laws.{IsFieldAt};
ghost use Rattle.capnp_records.specs.Operation.{elements_past};
ghost use Rattle.capnp_slots.specs.Fields.{IsRoomFor, IsSlot, field_brand, field_set};
ghost use Rattle.capnp_slots.specs.Groups.{IsGroupAt};
ghost use Rattle.capnp_slots.specs.Inits.{IsRoomless};
ghost use Rattle.capnp_from_json.specs.declared.error.Error.TheVariants.{OutOfMemory};
ghost use Rattle.capnp_json_messages.specs.Put.{HasNew};
ghost use Rattle.capnp_json_messages.specs.Started.{GroupStarted, InnerListStarted, InnerStarted, IsPast, ListStarted, StructStarted};
ghost use Rattle.capnp_json_messages.specs.Ways.{IsListType, IsStructType};

use capnp_arena::arena::{Arena, Place};
use capnp_base::introspect::Type;
use capnp_from_json::error::{Error, RefusalKind};
use capnp_from_json::reading::refused;
use capnp_schema::laws::numbers_fit;
use capnp_schema::schema::{Field, StructSchema};
use capnp_schema::set::SchemaSet;
use capnp_slots::{element, group, part, slot};
use capnp_wire::error::ErrorKind;

/// A field's handle is one of an accepted set.
pub(crate) fn field_stands(field: Field<'_>)
    ensures { IsFieldAt (field_set field.entry) (field_brand field.entry) (index_of field.entry) }
{
    let schema = field.get_containing_struct();
    numbers_fit(schema.get_set());
}

/// A set is accepted.
pub(crate) fn set_stands(schemas: &SchemaSet)
    ensures { IsAccepted (lists_seen schemas.now) }
{
    let _schema = schemas.struct_schema(0);
}

/// Makes a slot of a struct's type a new struct, and answers where it stands. A member becomes active.
///
/// Refused with `OutOfMemory` alone.
///
/// # Conditions
///
/// A struct stands at the place (`IsBuilt`), with room for the field, a slot (`IsRoomFor`, `IsSlot`). The schema is
/// that of the field's type (`IsStructType`).
pub fn start_struct(
    arena: &mut Arena,
    place: Place,
    field: Field<'_>,
    schema: StructSchema<'_>,
) -> Result<Place, Error>
    requires planted { IsBuilt arena.old place }
    requires slot { IsSlot field }
    requires room { IsRoomFor field (built_at arena.old place) }
    requires leads { IsStructType (field_set field) (typed_of field).type schema }
    ensures started { IfOk result (λ inner. StructStarted field.entry schema.entry place arena.old arena.new inner) }
    ensures memory { IfErr result (λ e. e ≡ OutOfMemory) }
{
    field_stands(field);
    if let Err(_memory) = slot::init(arena, place, field) {
        return Err(Error::OutOfMemory);
    }
    let word = part::pointer(arena, place, field);
    Ok(arena.struct_here(word))
}

/// Why a list was not made, for an array at a place.
fn refused_list(kind: ErrorKind, at: usize) -> Error
    ensures { (past : Bool) → IsRoomless past kind → IsPast past at result }
{
    match kind {
        ErrorKind::SizePastFormat => refused(RefusalKind::SizePastFormat, at),
        _ => Error::OutOfMemory,
    }
}

/// Makes a slot of a list's type a new list of so many elements, for an array at a place, and answers the word that leads
/// to it. A member becomes active.
///
/// Refused with `SizePastFormat` where the list is past the format, and with `OutOfMemory`.
///
/// # Conditions
///
/// A struct stands at the place (`IsBuilt`), with room for the field, a slot (`IsRoomFor`, `IsSlot`). The element type
/// is that of the field's list (`IsListType`).
pub fn start_list(
    arena: &mut Arena,
    place: Place,
    field: Field<'_>,
    element: Type,
    count: usize,
    at: usize,
) -> Result<usize, Error>
    requires planted { IsBuilt arena.old place }
    requires slot { IsSlot field }
    requires room { IsRoomFor field (built_at arena.old place) }
    requires leads { IsListType (field_set field) (typed_of field).type element }
    ensures started { IfOk result (λ word. ListStarted field.entry (seen_type element) place count arena.old arena.new word) }
    ensures within { OnOk result (elements_past (field_set field.entry) (seen_type element) count ≡ false) }
    ensures refused { IfErr result (λ e. IsPast (elements_past (field_set field.entry) (seen_type element) count) at e) }
{
    field_stands(field);
    if count > 536870911 {
        return Err(refused(RefusalKind::SizePastFormat, at));
    }
    if let Err(error) = slot::initn(arena, place, field, count as u32) {
        return Err(refused_list(error.kind, at));
    }
    Ok(part::pointer(arena, place, field))
}

/// Clears a group, to be read into. A member becomes active.
///
/// # Conditions
///
/// A struct stands at the place (`IsBuilt`), with room for the field (`IsRoomFor`). The field is a group of the schema
/// (`IsGroupAt`).
pub fn start_group(arena: &mut Arena, place: Place, field: Field<'_>, schema: StructSchema<'_>)
    requires planted { IsBuilt arena.old place }
    requires room { IsRoomFor field (built_at arena.old place) }
    requires leads { IsGroupAt field schema }
    ensures frame { LeavesStruct place arena.old arena.new }
    ensures started { GroupStarted field.entry schema.entry (built_at arena.old place) (built_at arena.new place) }
{
    field_stands(field);
    group::init(arena, place, field);
}

/// Where a struct of a new list of structs stands.
///
/// # Conditions
///
/// The word leads to a new list of structs of the schema, with one at the index (`HasNew`). The schema is one of an
/// accepted set (`IsStruct`).
pub fn inner_struct(arena: &Arena, word: usize, schema: StructSchema<'_>, index: u32) -> Place
    requires forest { Forest (segment arena.now) word }
    requires stands { IsStruct schema }
    requires there { HasNew (set_of schema) (StructType (number_of schema) (generic_of schema)) (tree (segment arena.now) word) index }
    ensures { InnerStarted schema.entry word index arena.now result }
{
    arena.tree_is_sound(word);
    arena.get_struct_at(word, index)
}

/// Makes an element of a new list of lists a list of so many elements, for an array at a place, and answers the word that
/// leads to it.
///
/// Refused as `start_list`.
///
/// # Conditions
///
/// The word leads to a new list of lists, with an element at the index (`HasNew`). The inner type is that of these
/// lists' elements (`IsListType`).
pub fn start_inner_list(
    arena: &mut Arena,
    word: usize,
    schemas: &SchemaSet,
    element: Type,
    inner: Type,
    index: u32,
    count: usize,
    at: usize,
) -> Result<usize, Error>
    requires forest { Forest (segment arena.old) word }
    requires leads { IsListType (lists_seen schemas.now) (seen_type element) inner }
    requires there { HasNew (lists_seen schemas.now) (seen_type element) (tree (segment arena.old) word) index }
    ensures started { IfOk result (λ pointer. InnerListStarted (lists_seen schemas.now) (seen_type inner) word index count arena.old arena.new
        pointer) }
    ensures within { OnOk result (elements_past (lists_seen schemas.now) (seen_type inner) count ≡ false) }
    ensures refused { IfErr result (λ e. IsPast (elements_past (lists_seen schemas.now) (seen_type inner) count) at e) }
{
    set_stands(schemas);
    arena.tree_is_sound(word);
    if count > 536870911 {
        return Err(refused(RefusalKind::SizePastFormat, at));
    }
    if let Err(error) = element::init(arena, word, schemas, element, index, count as u32) {
        return Err(refused_list(error.kind, at));
    }
    arena.tree_is_sound(word);
    Ok(arena.get_pointer_element(word, index))
}
