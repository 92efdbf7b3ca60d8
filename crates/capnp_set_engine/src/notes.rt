//! The lines that say what stands for something else in a set.
ghost use Rattle.std.specs.Prelude.{◌≡◌, ◌++◌, IfErr, IfOk, OnOk, map, string_bytes};
ghost use Rattle.capnp_device.specs.declared.error.ErrorKind.TheVariants.{OutOfMemory};
ghost use Rattle.capnp_schema.specs.Entries.{lists_seen};
ghost use Rattle.capnp_schema.specs.Names.{name_at};
ghost use Rattle.capnp_schema.specs.Schema.{seen_field};
ghost use Rattle.capnp_set_engine.specs.Notes.{field_line, note_line, note_lines, stand_in_words};

use capnp_request::{Note, StandIn};
use capnp_schema::record::FieldRecord;
use capnp_schema::set::SchemaSet;
use capnp_wire::error::Result;
use std::alloc::Global;

/// What stands for what.
fn words_of(stand_in: StandIn) -> &'static str
    ensures { result.now ≡ stand_in_words stand_in }
{
    match stand_in {
        StandIn::Float32 => "Float32 stands as UInt32",
        StandIn::Float64 => "Float64 stands as UInt64",
        StandIn::Interface => "an interface stands as AnyPointer",
        StandIn::UntypedDefault => "the default of an untyped field is left out",
    }
}

/// The name of a field, nothing past the last.
#[tactic(auto, using(crate::proofs::Lines::seen_name))]
fn field_name(fields: &[FieldRecord], index: usize) -> &str
    ensures { result.now ≡ name_at (map seen_field fields.now) index }
{
    match fields.get(index) {
        Some(field) => field.name.as_str(),
        None => "",
    }
}

/// Appends the line of a field of an entry.
fn put_line(lines: &mut String, entry: &str, field: &str, words: &str) -> Result<()>
    ensures put { OnOk result (string_bytes lines.new
        ≡ string_bytes lines.old ++ field_line entry.now field.now words.now) }
    ensures memory { IfErr result (λ e. e.kind ≡ OutOfMemory) }
{
    lines.push_str(entry)?;
    lines.push_str(".")?;
    lines.push_str(field)?;
    lines.push_str(": ")?;
    lines.push_str(words)?;
    lines.push_str("\n")?;
    Ok(())
}

/// Appends the line of a note on a set.
fn put_note(lines: &mut String, schemas: &SchemaSet, note: Note) -> Result<()>
    ensures put { OnOk result (string_bytes lines.new ≡ string_bytes lines.old ++ note_line (lists_seen schemas.now) note) }
    ensures memory { IfErr result (λ e. e.kind ≡ OutOfMemory) }
{
    let node = schemas.struct_schema(note.entry).get_proto();
    let field = field_name(&node.body.fields, note.field as usize);
    put_line(
        lines,
        node.display_name.as_str(),
        field,
        words_of(note.stand_in),
    )
}

/// A line for each note on a set, in their order. Refused with `OutOfMemory` alone.
pub(crate) fn get_lines(alloc: Global, schemas: &SchemaSet, notes: &[Note]) -> Result<String>
    ensures lines { IfOk result (λ lines. string_bytes lines ≡ note_lines (lists_seen schemas.now) notes.now) }
    ensures memory { IfErr result (λ e. e.kind ≡ OutOfMemory) }
{
    let mut lines = String::new(alloc);
    for index in 0..notes.len() {
        put_note(&mut lines, schemas, notes[index])?;
    }
    Ok(lines)
}
