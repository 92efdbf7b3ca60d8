//! What stands at a path of a message that is read, as its text.
ghost use Rattle.std.specs.Prelude.{◌+◌, ◌≡◌, ◌≢◌, ◌≤◌, Err, IfErr, IfOk, OnOk, length, string_bytes};
ghost use Rattle.capnp_device.specs.declared.error.ErrorKind.TheVariants.{OutOfMemory, TooLarge};
ghost use Rattle.capnp_schema.specs.StructHandles.{IsStruct, number_of, set_of};
ghost use Rattle.capnp_call.specs.Seen.{path_seen};
ghost use Rattle.capnp_dynamic_readers.specs.Pieces.{IsAppended, IsLonger};
ghost use Rattle.capnp_patch.specs.Gets.{got_text};
ghost use Rattle.capnp_show_engine.specs.Show.{IsLineOf};

use crate::reach::read_path;
use capnp_call::calls::Step;
use capnp_dynamic_readers::dynamic_struct;
use capnp_dynamic_readers::dynamic_value::Reader as Value;
use capnp_dynamic_readers::printer::{print, print_within};
use capnp_schema::schema::StructSchema;
use capnp_wire::error::Result;
use capnp_wire::message::Reader;
use std::alloc::Global;

/// Appends the text of what stands at a path of the first message in these bytes.
fn put_text_at_path(
    alloc: Global,
    schema: StructSchema<'_>,
    path: &[Step<'_>],
    bytes: &[u8],
    out: &mut String,
    indented: bool,
) -> Result<()>
    requires { IsStruct schema }
    ensures printed { OnOk result (IsAppended (string_bytes out.old)
        (got_text (set_of schema.entry) (number_of schema.entry) (path_seen path.now) indented bytes.now)
        (string_bytes out.new)) }
    ensures refused { IfErr result (λ e. e.kind ≢ OutOfMemory
        → got_text (set_of schema.entry) (number_of schema.entry) (path_seen path.now) indented bytes.now
        ≡ Err e.kind) }
{
    let reader = Reader::new(alloc, bytes)?;
    let root = reader.get_root().get_struct()?;
    let value = dynamic_struct::Reader::new(root, schema);
    let part = read_path(Value::Struct(value), path)?;
    print(part, out, indented)
}

/// The text of what stands at a path of the first message in these bytes, and a line break.
///
/// Refused with `OutOfMemory`, as the message is (`Truncated`, `TooManySegments`), as its root is where it can't be read
/// as a struct, as `crate::reach::read_path`, and with the number of the first value of the text that can't be read.
///
/// # Conditions
///
/// The schema is one of an accepted set (`IsStruct`).
pub fn get_line(
    alloc: Global,
    schema: StructSchema<'_>,
    path: &[Step<'_>],
    bytes: &[u8],
    indented: bool,
) -> Result<String>
    requires { IsStruct schema }
    ensures got { IfOk result (λ line. IsLineOf
        (got_text (set_of schema.entry) (number_of schema.entry) (path_seen path.now) indented bytes.now)
        (string_bytes line)) }
    ensures refused { IfErr result (λ e. e.kind ≢ OutOfMemory
        → got_text (set_of schema.entry) (number_of schema.entry) (path_seen path.now) indented bytes.now
        ≡ Err e.kind) }
{
    let mut line = String::new(alloc);
    put_text_at_path(alloc, schema, path, bytes, &mut line, indented)?;
    line.push_str("\n")?;
    Ok(line)
}

/// As `put_text_at_path`, of a text that has at most so many bytes.
fn put_text_within(
    alloc: Global,
    schema: StructSchema<'_>,
    path: &[Step<'_>],
    bytes: &[u8],
    out: &mut String,
    indented: bool,
    limit: u64,
) -> Result<()>
    requires { IsStruct schema }
    ensures printed { OnOk result (IsAppended (string_bytes out.old)
        (got_text (set_of schema.entry) (number_of schema.entry) (path_seen path.now) indented bytes.now)
        (string_bytes out.new)) }
    ensures within { OnOk result (length (string_bytes out.new) ≤ length (string_bytes out.old) + limit) }
    ensures refused { IfErr result (λ e. e.kind ≢ OutOfMemory → e.kind ≢ TooLarge
        → got_text (set_of schema.entry) (number_of schema.entry) (path_seen path.now) indented bytes.now
        ≡ Err e.kind) }
    ensures too_long { IfErr result (λ e. e.kind ≡ TooLarge → IsLonger limit
        (got_text (set_of schema.entry) (number_of schema.entry) (path_seen path.now) indented bytes.now)) }
{
    let reader = Reader::new(alloc, bytes)?;
    let root = reader.get_root().get_struct()?;
    let value = dynamic_struct::Reader::new(root, schema);
    let reached = read_path(Value::Struct(value), path)?;
    print_within(reached, out, indented, limit)
}

/// As `get_line`, of a text that has at most `limit` bytes. Pointers of a message may share targets, so that a few hundred
/// bytes can have a text of gigabytes.
///
/// Refused with `TooLarge` where the text is longer, and else as `get_line`. A text that is refused itself may be either:
/// its refusal can stand behind the limit.
///
/// # Conditions
///
/// The schema is one of an accepted set (`IsStruct`).
pub fn get_line_within(
    alloc: Global,
    schema: StructSchema<'_>,
    path: &[Step<'_>],
    bytes: &[u8],
    indented: bool,
    limit: u64,
) -> Result<String>
    requires { IsStruct schema }
    ensures got { IfOk result (λ line. IsLineOf
        (got_text (set_of schema.entry) (number_of schema.entry) (path_seen path.now) indented bytes.now)
        (string_bytes line)) }
    ensures within { IfOk result (λ line. length (string_bytes line) ≤ limit + 1) }
    ensures refused { IfErr result (λ e. e.kind ≢ OutOfMemory → e.kind ≢ TooLarge
        → got_text (set_of schema.entry) (number_of schema.entry) (path_seen path.now) indented bytes.now
        ≡ Err e.kind) }
    ensures too_long { IfErr result (λ e. e.kind ≡ TooLarge → IsLonger limit
        (got_text (set_of schema.entry) (number_of schema.entry) (path_seen path.now) indented bytes.now)) }
{
    let mut line = String::new(alloc);
    put_text_within(alloc, schema, path, bytes, &mut line, indented, limit)?;
    line.push_str("\n")?;
    Ok(line)
}
