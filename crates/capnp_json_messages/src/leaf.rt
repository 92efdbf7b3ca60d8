//! Leaves of a text that are read into slots and elements.
ghost use Rattle.std.specs.Prelude.{◌≡◌, IfErr, OnOk};
ghost use Rattle.capnp_arena.specs.Built.{IsBuilt, built_at};
ghost use Rattle.capnp_arena.specs.Forest.{Forest, tree};
ghost use Rattle.capnp_arena.specs.Frame.{LeavesPointer, LeavesStruct};
ghost use Rattle.capnp_arena.specs.Segment.{segment};
ghost use Rattle.capnp_schema.specs.FieldLists.{typed_of};
ghost use Rattle.capnp_slots.specs.Fields.{IsRoomFor, IsSlot, field_set};
ghost use Rattle.capnp_json_messages.specs.Put.{HasNew};
ghost use Rattle.capnp_json_messages.specs.Rows.{IsRow, row_set, row_type};
ghost use Rattle.capnp_json_messages.specs.Walks.{ElementRead, FieldRead, IsRefused, element_json, field_json};
ghost use Rattle.capnp_json_messages.specs.Ways.{IsLeafType};

use crate::put::{put_in_element, put_in_slot};
use crate::row::Row;
use capnp_arena::arena::{Arena, Place};
use capnp_base::introspect::TypeVariant;
use capnp_from_json::error::Error;
use capnp_from_json::reading::Reading;
use capnp_from_json::values::read_leaf;
use capnp_json_fields::fields::{DataForm, data_form, is_float};
use capnp_schema::schema::Field;

/// Reads the value with which bytes begin into a slot of a type that holds no others, which takes no level. A member becomes
/// active.
///
/// Refused as `values::read_leaf`, before anything is changed, and with `OutOfMemory`.
///
/// # Conditions
///
/// A struct stands at the place (`IsBuilt`), with room for the field, which is a slot of the type (`IsRoomFor`, `IsSlot`,
/// `IsLeafType`).
pub fn read_slot(
    arena: &mut Arena,
    reading: Reading,
    place: Place,
    field: Field<'_>,
    of: TypeVariant,
    levels: u32,
    bytes: &[u8],
) -> Result<(), Error>
    requires planted { IsBuilt arena.old place }
    requires slot { IsSlot field }
    requires room { IsRoomFor field (built_at arena.old place) }
    requires leaf { IsLeafType (typed_of field).type of }
    ensures frame { OnOk result (LeavesStruct place arena.old arena.new) }
    ensures read { OnOk result (FieldRead field.entry reading.strict (field_json reading levels field.entry bytes.now)
        (built_at arena.old place) (built_at arena.new place)) }
    ensures refused { IfErr result (IsRefused (field_set field.entry) reading.strict
        (field_json reading levels field.entry bytes.now)) }
{
    let schemas = field.get_containing_struct().get_set();
    let leaf = match read_leaf(
        reading.alloc,
        schemas,
        of,
        is_float(field),
        data_form(field),
        reading.whole,
        bytes,
    ) {
        Ok(leaf) => leaf,
        Err(error) => return Err(error),
    };
    match put_in_slot(arena, place, field, &leaf) {
        Ok(()) => Ok(()),
        Err(_memory) => Err(Error::OutOfMemory),
    }
}

/// Reads the value with which bytes begin into an element of a new list, of a type that holds no others, by the word that
/// leads to the list.
///
/// Refused as `values::read_leaf`, before anything is changed, and with `OutOfMemory`.
///
/// # Conditions
///
/// The word leads to a new list of the row's type, with an element at the index (`HasNew`). That type is this one
/// (`IsLeafType`), and names entries of the set; where numbers are floats it is UInt32 or UInt64 (`IsRow`).
pub fn read_inner_leaf(
    arena: &mut Arena,
    reading: Reading,
    word: usize,
    row: Row<'_>,
    of: TypeVariant,
    levels: u32,
    index: u32,
    bytes: &[u8],
) -> Result<(), Error>
    requires forest { Forest (segment arena.old) word }
    requires row { IsRow row }
    requires there { HasNew (row_set row) (row_type row) (tree (segment arena.old) word) index }
    requires leaf { IsLeafType (row_type row) of }
    ensures frame { OnOk result (LeavesPointer word arena.old arena.new) }
    ensures read { OnOk result (ElementRead (row_set row.entry) (row_type row.entry) index reading.strict
        (element_json reading levels (row_type row.entry) row.entry.is_float bytes.now) (tree (segment arena.old) word)
        (tree (segment arena.new) word)) }
    ensures refused { IfErr result (IsRefused (row_set row.entry) reading.strict
        (element_json reading levels (row_type row.entry) row.entry.is_float bytes.now)) }
{
    let leaf = match read_leaf(
        reading.alloc,
        row.schemas,
        of,
        row.is_float,
        DataForm::Array,
        reading.whole,
        bytes,
    ) {
        Ok(leaf) => leaf,
        Err(error) => return Err(error),
    };
    match put_in_element(arena, word, row.schemas, row.element, index, &leaf) {
        Ok(()) => Ok(()),
        Err(_memory) => Err(Error::OutOfMemory),
    }
}
