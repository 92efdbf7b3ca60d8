//! What changes though the newer version may follow, as lines.
ghost use Rattle.std.specs.Prelude.{[], ◌≡◌, ◌++◌, IfErr, OnOk, Some, map, slice_get, string_bytes};
ghost use Rattle.capnp_device.specs.declared.error.ErrorKind.TheVariants.{OutOfMemory};
ghost use Rattle.capnp_schema.specs.Entries.{lists_seen};
ghost use Rattle.capnp_schema.specs.Schema.{node_of, seen_field};
ghost use Rattle.capnp_versions.specs.Changes.{change_line, change_words, changes_text, holder_of, name_of};

use crate::lines::put_field;
use crate::names::name_at;
use capnp_differences::{Change, Note, Pair, enumerant_name};
use capnp_schema::record::FieldRecord;
use capnp_schema::set::SchemaSet;
use capnp_wire::error::Result;

/// The struct that has the field of a note, by the name that is told: the newer one where the field came.
fn holder_of(pair: Pair, change: Change) -> u32
    ensures { result ≡ holder_of pair change }
{
    match change {
        Change::FieldCame => pair.newer,
        _ => pair.older,
    }
}

/// The fields of a brand.
fn fields_of(schemas: &SchemaSet, number: u32) -> &[FieldRecord]
    ensures { map seen_field result.now ≡ (node_of (lists_seen schemas.now) number).fields }
{
    schemas
        .struct_schema(number)
        .get_proto()
        .body
        .fields
        .as_slice()
}

/// The name of a field, where it is there.
fn name_of(fields: &[FieldRecord], index: u16) -> &str
    ensures { result.now ≡ name_of (map seen_field fields.now) index }
{
    let Some(field) = fields.get(index as usize) else {
        return "";
    };
    field.name.as_str()
}

/// Appends what changes. Refused with `OutOfMemory` alone.
fn put_change(text: &mut String, schemas: &SchemaSet, note: Note) -> Result<()>
    ensures put { OnOk result (string_bytes text.new
        ≡ string_bytes text.old ++ change_words (lists_seen schemas.now) note.pair note.field note.change) }
    ensures memory { IfErr result (λ e. e.kind ≡ OutOfMemory) }
{
    match note.change {
        Change::FieldCame => Ok(text.push_str(" is new")?),
        Change::FieldRenamed => {
            let name = name_of(fields_of(schemas, note.pair.newer), note.field);
            Ok(write!(text, " is named {name} now")?)
        }
        Change::EnumerantCame(enums, ordinal) => {
            let name = enumerant_name(schemas, enums.newer, ordinal);
            Ok(write!(text, " has the new enumerant {name}")?)
        }
        Change::EnumerantRenamed(enums, ordinal) => {
            let was = enumerant_name(schemas, enums.older, ordinal);
            let name = enumerant_name(schemas, enums.newer, ordinal);
            Ok(write!(text, " has the enumerant {was}, which is named {name} now")?)
        }
        Change::ListsOfStructs(levels) => Ok(write!(
            text,
            " has lists of structs now; so many more levels are asked of readers: {levels}"
        )?),
    }
}

/// Appends the line of a note. Refused with `OutOfMemory` alone.
fn put_line(text: &mut String, schemas: &SchemaSet, note: Note) -> Result<()>
    ensures put { OnOk result (string_bytes text.new
        ≡ string_bytes text.old ++ change_line (lists_seen schemas.now) note) }
    ensures memory { IfErr result (λ e. e.kind ≡ OutOfMemory) }
{
    text.push_str("note: ")?;
    text.push_str(name_at(schemas, note.pair.older))?;
    let holder = holder_of(note.pair, note.change);
    put_field(text, fields_of(schemas, holder), Some(note.field))?;
    put_change(text, schemas, note)?;
    text.push_str("\n")?;
    Ok(())
}

/// Appends the lines of notes. Refused with `OutOfMemory` alone.
pub(crate) fn put_changes(text: &mut String, schemas: &SchemaSet, notes: &[Note]) -> Result<()>
    ensures put { OnOk result (string_bytes text.new
        ≡ string_bytes text.old ++ changes_text (lists_seen schemas.now) notes.now) }
    ensures memory { IfErr result (λ e. e.kind ≡ OutOfMemory) }
{
    for note in notes {
        put_line(text, schemas, *note)?;
    }
    Ok(())
}
