//! Names that may have been meant by another one.
//!
//! A name is near to a word where both have three bytes and more, of which the first three are the same, whatever the case
//! of letters from A to Z. And where it ends with the word, behind a point or colon.
ghost use Rattle.std.specs.Prelude.{◌≡◌, ◌<◌, length, IfErr, IfOk, OnOk, map, string_bytes};
ghost use Rattle.std.specs.Str.Lines.{lines};
ghost use Rattle.capnp_device.specs.declared.error.ErrorKind.TheVariants.{OutOfMemory};
ghost use Rattle.capnp_schema.specs.Entries.{lists_seen};
ghost use Rattle.capnp_schema.specs.StructHandles.{struct_fields};
ghost use Rattle.capnp_structs.specs.Names.{structs_text};
ghost use Rattle.riftcalico_core.specs.Near.{begins_alike, is_alike_at, is_last_part, is_near, near_note, with_near};
ghost use Rattle.riftcalico_core.specs.Notes.{field_name};

use capnp_schema::schema::StructSchema;
use capnp_schema::set::SchemaSet;
use capnp_structs::names::get_structs;
use capnp_wire::error::Result;
use std::alloc::Global;

/// Whether two words have the same byte at an index, whatever the case of letters.
fn is_alike_at(asked: &[u8], name: &[u8], index: usize) -> bool
    requires asked { index < length asked.now }
    requires name { index < length name.now }
    ensures { result ≡ is_alike_at asked.now name.now index }
{
    asked[index].eq_ignore_ascii_case(&name[index])
}

/// Whether two words of three bytes and more begin alike.
fn begins_alike(asked: &[u8], name: &[u8]) -> bool
    ensures { result ≡ begins_alike asked.now name.now }
{
    if asked.len() < 3 || name.len() < 3 {
        return false;
    }
    is_alike_at(asked, name, 0) && is_alike_at(asked, name, 1) && is_alike_at(asked, name, 2)
}

/// Whether a name ends with a word, behind a point or colon.
fn is_last_part(asked: &str, name: &str) -> bool
    ensures { result ≡ is_last_part asked.now name.now }
{
    let start = name.len().saturating_sub(asked.len()).saturating_sub(1);
    match &name.as_bytes()[start..] {
        [mark, rest @ ..] => (*mark == b'.' || *mark == b':') && rest == asked.as_bytes(),
        [] => false,
    }
}

/// Whether a name is near to a word.
fn is_near(asked: &str, name: &str) -> bool
    ensures { result ≡ is_near asked.now name.now }
{
    begins_alike(asked.as_bytes(), name.as_bytes()) || is_last_part(asked, name)
}

/// Appends a name, if it is near. Refused with `OutOfMemory` alone.
fn put_near(note: &mut String, asked: &str, name: &str) -> Result<()>
    ensures put { OnOk result (string_bytes note.new ≡ with_near asked.now (string_bytes note.old) name.now) }
    ensures memory { IfErr result (λ e. e.kind ≡ OutOfMemory) }
{
    if !is_near(asked, name) {
        return Ok(());
    }
    note.push_str(if note.is_empty() { "; near: " } else { ", " })?;
    note.push_str(name)?;
    Ok(())
}

/// The structs of a set, as they are listed, whose names are near to a word. Refused with `OutOfMemory` alone.
pub(crate) fn get_near_structs(alloc: Global, schemas: &SchemaSet, asked: &str) -> Result<String>
    ensures near { IfOk result (λ note. string_bytes note
        ≡ near_note asked.now (lines (structs_text (lists_seen schemas.now)))) }
    ensures memory { IfErr result (λ e. e.kind ≡ OutOfMemory) }
{
    let names = get_structs(alloc, schemas)?;
    let mut note = String::new(alloc);
    for name in names.lines() {
        put_near(&mut note, asked, name)?;
    }
    Ok(note)
}

/// The fields of a struct whose names are near to a word. Refused with `OutOfMemory` alone.
pub(crate) fn get_near_fields(
    alloc: Global,
    schema: StructSchema<'_>,
    asked: &str,
) -> Result<String>
    ensures near { IfOk result (λ note. string_bytes note ≡ near_note asked.now (map field_name (struct_fields schema.entry))) }
    ensures memory { IfErr result (λ e. e.kind ≡ OutOfMemory) }
{
    let mut note = String::new(alloc);
    let fields = schema.get_fields()?;
    for index in 0..fields.len() {
        put_near(
            &mut note,
            asked,
            fields.get(index).get_proto().name.as_str(),
        )?;
    }
    Ok(note)
}
