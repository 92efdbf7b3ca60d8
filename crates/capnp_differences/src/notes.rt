//! What changes in the fields of two structs, though the newer may follow the older.
ghost use Rattle.std.specs.Prelude.{◌≡◌, ◌<◌, ◌++◌, IfErr, IfOk, OnOk, length};
ghost use Rattle.capnp_device.specs.declared.error.ErrorKind.TheVariants.{OutOfMemory};
ghost use Rattle.capnp_schema.specs.Entries.{lists_seen};
ghost use Rattle.capnp_schema.specs.FieldLists.{typed_of};
ghost use Rattle.capnp_schema.specs.Schema.{fields_of, seen_field};
ghost use Rattle.capnp_differences.specs.Notes.{field_notes, lists_change, name_change, notes_of, pair_notes, shared_notes};

use crate::brands::{field_count, field_of};
use crate::differences::{Cause, Pair};
use crate::enums::{are_same, note, note_enums, other_name};
use crate::lists::enums_and_levels;
use crate::noted::{Change, Note};
use crate::pairs::Pairs;
use crate::types::type_change;
use capnp_schema::schema::Field;
use capnp_schema::set::SchemaSet;
use capnp_wire::error::Result;
use std::alloc::Global;

/// Whether a field of both structs has another name.
fn name_change(older: Field<'_>, newer: Field<'_>) -> Option<Change>
    ensures { result ≡ name_change (typed_of older.entry) (typed_of newer.entry) }
{
    let one = older.get_proto();
    let other = newer.get_proto();
    let same = are_same(one.name.as_str(), other.name.as_str());
    other_name(same, Change::FieldRenamed)
}

/// Whether lists became lists of structs, and do not differ.
fn lists_change(types: Option<Cause>, levels: usize) -> Option<Change>
    ensures { result ≡ lists_change types levels }
{
    match types {
        Some(_) => None,
        None => {
            if levels == 0 {
                return None;
            }
            Some(Change::ListsOfStructs(levels))
        }
    }
}

/// Notes what changes in a field that both structs have.
fn note_shared(
    notes: &mut Vec<Note>,
    schemas: &SchemaSet,
    pair: Pair,
    index: u16,
    older: Field<'_>,
    newer: Field<'_>,
) -> Result<()>
    ensures noted { OnOk result (notes.new.items ≡ notes.old.items
        ++ shared_notes (lists_seen schemas.now) pair index (typed_of older.entry) (typed_of newer.entry)) }
    ensures refused { IfErr result (λ e. e.kind ≡ OutOfMemory) }
{
    let (enums, levels) = enums_and_levels(schemas, older.get_type(), newer.get_type());
    let types = type_change(schemas, older.get_type(), newer.get_type());
    note(notes, pair, index, name_change(older, newer))?;
    note_enums(notes, schemas, pair, index, enums)?;
    note(notes, pair, index, lists_change(types, levels))
}

/// Notes what changes in a field of the newer struct, or that it came.
fn note_field(notes: &mut Vec<Note>, schemas: &SchemaSet, pair: Pair, index: u16) -> Result<()>
    requires { index < length (fields_of (lists_seen schemas.now) pair.newer) }
    ensures noted { OnOk result (notes.new.items ≡ notes.old.items ++ field_notes (lists_seen schemas.now) pair index) }
    ensures refused { IfErr result (λ e. e.kind ≡ OutOfMemory) }
{
    if index >= field_count(schemas, pair.older) {
        return note(notes, pair, index, Some(Change::FieldCame));
    }
    let older = field_of(schemas, pair.older, index);
    let newer = field_of(schemas, pair.newer, index);
    note_shared(notes, schemas, pair, index, older, newer)
}

/// Notes what changes in the fields of two structs.
fn note_pair(notes: &mut Vec<Note>, schemas: &SchemaSet, pair: Pair) -> Result<()>
    ensures noted { OnOk result (notes.new.items ≡ notes.old.items ++ pair_notes (lists_seen schemas.now) pair) }
    ensures refused { IfErr result (λ e. e.kind ≡ OutOfMemory) }
{
    for i in 0..field_count(schemas, pair.newer) {
        note_field(notes, schemas, pair, i)?;
    }
    Ok(())
}

/// The notes of each of the pairs.
pub(crate) fn note_all(alloc: Global, schemas: &SchemaSet, pairs: &Pairs) -> Result<Vec<Note>>
    ensures noted { IfOk result (λ notes. notes.items ≡ notes_of (lists_seen schemas.now) pairs.now) }
    ensures refused { IfErr result (λ e. e.kind ≡ OutOfMemory) }
{
    let mut notes = Vec::new(alloc);
    for i in 0..pairs.len() {
        note_pair(&mut notes, schemas, pairs.at(i))?;
    }
    Ok(notes)
}
