//! Structs that went or came, as lines.
ghost use Rattle.std.specs.Prelude.{◌≡◌, ◌++◌, IfErr, OnOk, length, string_bytes};
ghost use Rattle.capnp_device.specs.declared.error.ErrorKind.TheVariants.{OutOfMemory};
ghost use Rattle.capnp_schema.specs.Entries.{lists_seen};
ghost use Rattle.capnp_versions.specs.Steps.Index.{AreAllNames};
ghost use Rattle.capnp_versions.specs.Shared.{note_line, notes_among, notes_text};

use crate::names::{first_at, name_at, number_named};
use capnp_schema::set::SchemaSet;
use capnp_wire::error::Result;
use std::collections::HashMap;

/// Appends the line of a struct whose display name the other set has not. Refused with `OutOfMemory` alone.
fn put_note(
    text: &mut String,
    set: &SchemaSet,
    other: &SchemaSet,
    names: &HashMap<&str, u32>,
    other_names: &HashMap<&str, u32>,
    words: &str,
    index: usize,
) -> Result<()>
    requires names { AreAllNames (lists_seen set.now) names.now }
    requires other { AreAllNames (lists_seen other.now) other_names.now }
    ensures put { OnOk result (string_bytes text.new
        ≡ string_bytes text.old ++ note_line (lists_seen set.now) (lists_seen other.now) words.now index) }
    ensures memory { IfErr result (λ e. e.kind ≡ OutOfMemory) }
{
    let Some(number) = first_at(set, names, index) else {
        return Ok(());
    };
    let name = name_at(set, number);
    if let Some(_) = number_named(other, other_names, name) {
        return Ok(());
    }
    text.push_str("note: ")?;
    text.push_str(name)?;
    text.push_str(words)?;
    text.push_str("\n")?;
    Ok(())
}

/// Appends the lines of the structs whose display names the other set has not. Refused with `OutOfMemory` alone.
fn put_notes(
    text: &mut String,
    set: &SchemaSet,
    other: &SchemaSet,
    names: &HashMap<&str, u32>,
    other_names: &HashMap<&str, u32>,
    words: &str,
) -> Result<()>
    requires names { AreAllNames (lists_seen set.now) names.now }
    requires other { AreAllNames (lists_seen other.now) other_names.now }
    ensures put { OnOk result (string_bytes text.new ≡ string_bytes text.old
        ++ notes_among (lists_seen set.now) (lists_seen other.now) words.now (length (lists_seen set.now).brands)) }
    ensures memory { IfErr result (λ e. e.kind ≡ OutOfMemory) }
{
    for i in 0..set.brands().len() {
        put_note(text, set, other, names, other_names, words, i)?;
    }
    Ok(())
}

/// Appends the lines of the structs that went, and of those that came. Refused with `OutOfMemory` alone.
pub(crate) fn put_all_notes(
    text: &mut String,
    older: &SchemaSet,
    newer: &SchemaSet,
    older_names: &HashMap<&str, u32>,
    newer_names: &HashMap<&str, u32>,
) -> Result<()>
    requires older { AreAllNames (lists_seen older.now) older_names.now }
    requires newer { AreAllNames (lists_seen newer.now) newer_names.now }
    ensures put { OnOk result (string_bytes text.new
        ≡ string_bytes text.old ++ notes_text (lists_seen older.now) (lists_seen newer.now)) }
    ensures memory { IfErr result (λ e. e.kind ≡ OutOfMemory) }
{
    put_notes(text, older, newer, older_names, newer_names, " is gone")?;
    put_notes(text, newer, older, newer_names, older_names, " is new")?;
    Ok(())
}
