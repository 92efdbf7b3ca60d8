//! What changes in the enumerants of two enums.
ghost use Rattle.std.specs.Prelude.{◌≡◌, ◌<◌, ◌++◌, IfErr, OnOk, Some, bytes_eq, length, map, nat_lt, slice_get};
ghost use Rattle.capnp_device.specs.declared.error.ErrorKind.TheVariants.{OutOfMemory};
ghost use Rattle.capnp_schema.specs.Entries.{lists_seen};
ghost use Rattle.capnp_schema.specs.Schema.{enum_at, seen_enumerant};
ghost use Rattle.capnp_differences.specs.Notes.{came_or, enum_notes, enumerant_change, enumerant_name, name_or_none, notes_below, other_name, some_note};

use crate::differences::Pair;
use crate::noted::{Change, EnumPair, Note};
use crate::types::enum_of;
use capnp_schema::record::EnumerantRecord;
use capnp_schema::set::SchemaSet;
use capnp_wire::error::Result;

/// Whether two names are the same.
pub(crate) fn are_same(one: &str, other: &str) -> bool
    ensures { result ≡ bytes_eq one.now other.now }
{
    *one == *other
}

/// A change, where names are not the same.
pub(crate) fn other_name(same: bool, change: Change) -> Option<Change>
    ensures { result ≡ other_name same change }
{
    if same { None } else { Some(change) }
}

/// Notes a change of a field, where there is one.
pub(crate) fn note(
    notes: &mut Vec<Note>,
    pair: Pair,
    field: u16,
    change: Option<Change>,
) -> Result<()>
    ensures noted { OnOk result (notes.new.items ≡ notes.old.items ++ some_note pair field change) }
    ensures refused { IfErr result (λ e. e.kind ≡ OutOfMemory) }
{
    match change {
        Some(found) => {
            notes.push(Note {
                pair,
                field,
                change: found,
            })?;
            Ok(())
        }
        None => Ok(()),
    }
}

/// The name of an enumerant of an enum's record, where it has it.
fn name_at(enumerants: &[EnumerantRecord], ordinal: u16) -> &str
    ensures { result.now ≡ name_or_none (slice_get (map seen_enumerant enumerants.now) ordinal) }
{
    match enumerants.get(ordinal as usize) {
        Some(enumerant) => enumerant.name.as_str(),
        None => "",
    }
}

/// The name of an enumerant of an enum of the set by its ordinal; no text where it is not there.
pub fn enumerant_name(schemas: &SchemaSet, number: u32, ordinal: u16) -> &str
    ensures { result.now ≡ enumerant_name (lists_seen schemas.now) number ordinal }
{
    match enum_of(schemas.enums(), number) {
        Some(record) => name_at(record.enumerants.as_slice(), ordinal),
        None => "",
    }
}

/// How many enumerants an enum of the set has.
fn enumerant_count(schemas: &SchemaSet, number: u32) -> u16
    ensures { result ≡ length (enum_at (lists_seen schemas.now) number).enumerants }
{
    match schemas.enum_schema(number).get_enumerants() {
        Ok(list) => list.len(),
        Err(_) => unreachable!(),
    }
}

/// By whether an enumerant was there, and whether it has the name that it had.
fn came_or(was: bool, same: bool, came: Change, renamed: Change) -> Option<Change>
    ensures { result ≡ came_or was same came renamed }
{
    if was {
        return other_name(same, renamed);
    }
    Some(came)
}

/// What changes in an enumerant of the newer enum.
fn enumerant_change(schemas: &SchemaSet, enums: EnumPair, ordinal: u16) -> Option<Change>
    ensures { result ≡ enumerant_change (lists_seen schemas.now) enums ordinal }
{
    let was = ordinal < enumerant_count(schemas, enums.older);
    let same = are_same(
        enumerant_name(schemas, enums.older, ordinal),
        enumerant_name(schemas, enums.newer, ordinal),
    );
    came_or(
        was,
        same,
        Change::EnumerantCame(enums, ordinal),
        Change::EnumerantRenamed(enums, ordinal),
    )
}

/// Notes what changes in the enumerants of two enums.
fn note_enumerants(
    notes: &mut Vec<Note>,
    schemas: &SchemaSet,
    pair: Pair,
    field: u16,
    enums: EnumPair,
) -> Result<()>
    ensures noted { OnOk result (notes.new.items
        ≡ notes.old.items ++ enum_notes (lists_seen schemas.now) pair field (Some enums)) }
    ensures refused { IfErr result (λ e. e.kind ≡ OutOfMemory) }
{
    for i in 0..enumerant_count(schemas, enums.newer) {
        note(notes, pair, field, enumerant_change(schemas, enums, i))?;
    }
    Ok(())
}

/// Notes what changes in the enums that a field holds, where it does.
pub(crate) fn note_enums(
    notes: &mut Vec<Note>,
    schemas: &SchemaSet,
    pair: Pair,
    field: u16,
    enums: Option<EnumPair>,
) -> Result<()>
    ensures noted { OnOk result (notes.new.items
        ≡ notes.old.items ++ enum_notes (lists_seen schemas.now) pair field enums) }
    ensures refused { IfErr result (λ e. e.kind ≡ OutOfMemory) }
{
    match enums {
        Some(found) => note_enumerants(notes, schemas, pair, field, found),
        None => Ok(()),
    }
}
