//! What stands at a path of a message, as it is written: its text, or the bytes of a text or data.
ghost use Rattle.std.specs.Prelude.{◌≡◌, ◌≢◌, ◌≤◌, ◌<◌, Err, IfErr, IfOk, length};
ghost use Rattle.std.specs.Option.{option_map};
ghost use Rattle.capnp_device.specs.declared.error.ErrorKind.TheVariants.{OutOfMemory, TooLarge};
ghost use Rattle.capnp_schema.specs.StructHandles.{IsStruct, number_of, set_of};
ghost use Rattle.capnp_call.specs.Seen.{path_seen};
ghost use Rattle.capnp_dynamic_readers.specs.Pieces.{IsLonger};
ghost use Rattle.capnp_dynamic_readers.specs.Seen.{value_seen};
ghost use Rattle.capnp_float_texts.specs.Printed.{printed_float_text};
ghost use Rattle.capnp_patch.specs.Gets.{got_text};
ghost use Rattle.capnp_queries.specs.Shown.{IsLineWithin, IsShownAt, IsTooLongAt, IsTooLong, IsWritten, raw_bytes};

use crate::floats::has_floats_at;
use crate::reach::reach_path;
use capnp_call::calls::Step;
use capnp_dynamic_readers::dynamic_value::Reader as Value;
use capnp_float_texts::printer::print_floats_within;
use capnp_schema::schema::StructSchema;
use capnp_wire::error::{Error, ErrorKind, Result};
use std::alloc::Global;

/// The bytes of a text or data, where they are asked for.
fn get_raw<'a>(value: Value<'a>, raw: bool) -> Option<&'a [u8]>
    ensures { option_map (λ b. b.now) result ≡ raw_bytes raw (value_seen value.entry) }
{
    if !raw {
        return None;
    }
    match value {
        Value::Text(text) => Some(text.0),
        Value::Data(bytes) => Some(bytes),
        _ => None,
    }
}

/// A copy of at most so many bytes. Refused with `TooLarge` where there are more, and with `OutOfMemory`.
fn copy_within(alloc: Global, bytes: &[u8], limit: u64) -> Result<Vec<u8>>
    ensures copied { IfOk result (λ copy. copy.items ≡ bytes.now) }
    ensures within { IfOk result (λ copy. length bytes.now ≤ limit) }
    ensures too_long { IfErr result (λ e. e.kind ≡ TooLarge → limit < length bytes.now) }
    ensures refused { IfErr result (λ e. e.kind ≢ TooLarge → e.kind ≡ OutOfMemory) }
{
    if bytes.len() as u64 > limit {
        return Err(Error::from(ErrorKind::TooLarge));
    }
    let mut copy = Vec::with_capacity(alloc, bytes.len())?;
    copy.extend_from_slice(bytes)?;
    Ok(copy)
}

/// The text of a value, whose numbers are floats or not, and a line break, where the text has at most so many bytes.
fn get_line(
    alloc: Global,
    value: Value<'_>,
    floats: bool,
    indented: bool,
    limit: u64,
) -> Result<Vec<u8>>
    ensures line { IfOk result (λ line. IsLineWithin limit (printed_float_text floats indented value.entry) line.items) }
    ensures refused { IfErr result (λ e. e.kind ≢ OutOfMemory → e.kind ≢ TooLarge
        → printed_float_text floats indented value.entry ≡ Err e.kind) }
    ensures too_long { IfErr result (λ e. e.kind ≡ TooLarge → IsLonger limit (printed_float_text floats indented value.entry)) }
{
    let mut line = String::new(alloc);
    print_floats_within(value, floats, &mut line, indented, limit)?;
    line.push_str("\n")?;
    Ok(line.into_bytes())
}

/// What is written of a value.
fn get_written(
    alloc: Global,
    value: Value<'_>,
    floats: bool,
    raw: bool,
    indented: bool,
    limit: u64,
) -> Result<Vec<u8>>
    ensures written { IfOk result (λ v. IsWritten (raw_bytes raw (value_seen value.entry)) limit
        (printed_float_text floats indented value.entry) v.items) }
    ensures refused { IfErr result (λ e. e.kind ≢ OutOfMemory → e.kind ≢ TooLarge
        → printed_float_text floats indented value.entry ≡ Err e.kind) }
    ensures too_long { IfErr result (λ e. e.kind ≡ TooLarge → IsTooLong (raw_bytes raw (value_seen value.entry)) limit
        (printed_float_text floats indented value.entry)) }
{
    match get_raw(value, raw) {
        Some(bytes) => copy_within(alloc, bytes, limit),
        None => get_line(alloc, value, floats, indented, limit),
    }
}

/// What stands at a path of the first message in these bytes, as it is written: its text and a line break, or where it is
/// asked for raw and is a text or data, its bytes alone, which need be no UTF-8. Numbers that are floats are shown as
/// these, as `capnp_float_texts::printer::print_floats_within` does.
///
/// Refused with `OutOfMemory`, with `TooLarge` where the text or the bytes are more than `limit`, and else as
/// `capnp_patch::get::get_line`. A text that is refused itself may be either.
///
/// # Conditions
///
/// The schema is one of an accepted set (`IsStruct`).
pub fn get_shown(
    alloc: Global,
    schema: StructSchema<'_>,
    path: &[Step<'_>],
    bytes: &[u8],
    raw: bool,
    indented: bool,
    limit: u64,
) -> Result<Vec<u8>>
    requires { IsStruct schema }
    ensures shown { IfOk result (λ v. IsShownAt (set_of schema.entry) (number_of schema.entry) (path_seen path.now) raw
        indented limit bytes.now v.items) }
    ensures refused { IfErr result (λ e. e.kind ≢ OutOfMemory → e.kind ≢ TooLarge
        → got_text (set_of schema.entry) (number_of schema.entry) (path_seen path.now) indented bytes.now
        ≡ Err e.kind) }
    ensures too_long { IfErr result (λ e. e.kind ≡ TooLarge → IsTooLongAt (set_of schema.entry) (number_of schema.entry)
        (path_seen path.now) raw indented limit bytes.now) }
{
    let value = match reach_path(alloc, schema, path, bytes) {
        Ok(value) => value,
        Err(refusal) => return Err(Error::from(refusal.kind)),
    };
    let floats = has_floats_at(schema, path);
    match get_written(alloc, value, floats, raw, indented, limit) {
        Ok(written) => Ok(written),
        Err(error) => Err(error),
    }
}
