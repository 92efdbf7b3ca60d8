//! Values of a set as text, and the defaults of fields.
ghost use Rattle.std.specs.Prelude.{◌≡◌, ◌≢◌, ◌-◌, Err, IfErr, OnErr, OnOk, length, not, string_bytes};
ghost use Rattle.capnp_device.specs.declared.error.ErrorKind.TheVariants.{OutOfMemory, TooLarge};
ghost use Rattle.capnp_wire.specs.Reading.{is_null_tree};
ghost use Rattle.capnp_schema.specs.Accepted.{NamesEntries, words_root};
ghost use Rattle.capnp_schema.specs.Entries.{lists_seen};
ghost use Rattle.capnp_schema.specs.Schema.{ListValue, StructValue, seen_value};
ghost use Rattle.capnp_schema.specs.Types.{seen_type};
ghost use Rattle.capnp_records.specs.Text.{said_text};
ghost use Rattle.capnp_dynamic_readers.specs.Pieces.{IsAppended, IsLonger};
ghost use Rattle.capnp_dynamic_readers.specs.Steps.Leaf.{IsLeaf};
ghost use Rattle.capnp_dynamic_readers.specs.Viewed.{view_read, view_type};
ghost use Rattle.capnp_structs.specs.Limits.{IsFault, IsRefused, IsStopped};
ghost use Rattle.capnp_structs.specs.Steps.Values.{shown_text};
ghost use Rattle.capnp_structs.specs.Values.{default_text, is_told, or_words, read_text, stored_text, words_text};
ghost use Rattle.capnp_structs.specs.declared.values.Numbers.TheVariants.{Floats};

use crate::enums::put_enumerant;
use crate::limits::room_left;
use capnp_base::introspect::Type;
use capnp_base::text;
use capnp_dynamic_readers::dynamic_value::Reader as Value;
use capnp_dynamic_readers::printer::print_within;
use capnp_float_texts::printer::print_floats_within;
use capnp_schema::record::ValueRecord;
use capnp_schema::set::SchemaSet;
use capnp_schema::value::Value as View;
use capnp_wire::PointerReader;
use capnp_wire::error::{ErrorKind, Result};

/// How the numbers of a value are told.
#[derive(Clone, Copy)]
pub(crate) enum Numbers {
    /// As integers, also those of marked fields.
    Integers,
    /// Those of marked fields as floats, and the value's own where it is one of such a field.
    Floats(bool),
}

/// Appends how many words there are.
fn put_words(out: &mut String, words: &[u8]) -> Result<()>
    ensures put { OnOk result (IsAppended (string_bytes out.old) (said_text (words_text words.now)) (string_bytes out.new)) }
    ensures memory { IfErr result (λ e. e.kind ≡ OutOfMemory) }
{
    let count = words.len() / 8;
    Ok(write!(out, "words: {count}")?)
}

/// Appends a value as it is printed on one line.
fn print_line(out: &mut String, limit: u64, numbers: Numbers, value: Value<'_>) -> Result<()>
    ensures printed { OnOk result (IsAppended (string_bytes out.old) (shown_text numbers value.entry)
        (string_bytes out.new)) }
    ensures refused { IfErr result (λ e. e.kind ≢ OutOfMemory → e.kind ≢ TooLarge
        → shown_text numbers value.entry ≡ Err e.kind) }
    ensures too_long { IfErr result (λ e. e.kind ≡ TooLarge
        → IsLonger (limit - length (string_bytes out.old)) (shown_text numbers value.entry)) }
    ensures unchanged { OnErr result (string_bytes out.new ≡ string_bytes out.old) }
{
    let room = room_left(out, limit);
    match numbers {
        Numbers::Integers => print_within(value, out, false, room),
        Numbers::Floats(floats) => print_floats_within(value, floats, out, false, room),
    }
}

/// Appends a value that is no struct and no list.
fn print_leaf(out: &mut String, limit: u64, numbers: Numbers, value: Value<'_>) -> Result<()>
    requires { IsLeaf value }
    ensures put { OnOk result (IsAppended (string_bytes out.old) (shown_text numbers value.entry)
        (string_bytes out.new)) }
    ensures stopped { IfErr result (λ e. IsStopped limit (string_bytes out.old)
        (shown_text numbers value.entry) ⊥ e.kind) }
{
    match print_line(out, limit, numbers, value) {
        Ok(()) => Ok(()),
        Err(refusal) => match refusal.kind {
            ErrorKind::OutOfMemory => Err(refusal),
            ErrorKind::TooLarge => Err(refusal),
            _ => unreachable!(),
        },
    }
}

/// Appends a value as it is printed on one line, and where that is refused how many words it has.
fn put_printed(
    out: &mut String,
    limit: u64,
    numbers: Numbers,
    value: Value<'_>,
    words: &[u8],
) -> Result<()>
    ensures put { OnOk result (IsAppended (string_bytes out.old) (or_words (shown_text numbers value.entry) words.now)
        (string_bytes out.new)) }
    ensures stopped { IfErr result (λ e. IsStopped limit (string_bytes out.old)
        (or_words (shown_text numbers value.entry) words.now) (IsFault (shown_text numbers value.entry)) e.kind) }
{
    match print_line(out, limit, numbers, value) {
        Ok(()) => Ok(()),
        Err(refusal) => match refusal.kind {
            ErrorKind::OutOfMemory => Err(refusal),
            ErrorKind::TooLarge => Err(refusal),
            _ => put_words(out, words),
        },
    }
}

/// Appends a struct or a list as it is read under its type and printed, and where either is refused how many words it
/// has.
fn put_read(
    out: &mut String,
    limit: u64,
    numbers: Numbers,
    schemas: &SchemaSet,
    of: Type,
    value: View<'_>,
    words: &[u8],
) -> Result<()>
    requires named { NamesEntries (lists_seen schemas.now) (seen_type of) }
    requires typed { view_type value (seen_type of) ≡ seen_type of }
    ensures put { OnOk result (IsAppended (string_bytes out.old)
        (or_words (read_text numbers (lists_seen schemas.now) (seen_type of)
        (view_read (lists_seen schemas.now) value.entry (seen_type of))) words.now) (string_bytes out.new)) }
    ensures stopped { IfErr result (λ e. IsStopped limit (string_bytes out.old)
        (or_words (read_text numbers (lists_seen schemas.now) (seen_type of)
        (view_read (lists_seen schemas.now) value.entry (seen_type of))) words.now)
        (IsFault (read_text numbers (lists_seen schemas.now) (seen_type of)
        (view_read (lists_seen schemas.now) value.entry (seen_type of)))) e.kind) }
{
    match Value::new(schemas, value, of) {
        Ok(read) => put_printed(out, limit, numbers, read, words),
        Err(_) => put_words(out, words),
    }
}

/// Appends a struct of these words.
fn put_struct_value(
    out: &mut String,
    limit: u64,
    numbers: Numbers,
    schemas: &SchemaSet,
    of: Type,
    words: &[u8],
) -> Result<()>
    requires named { NamesEntries (lists_seen schemas.now) (seen_type of) }
    ensures put { OnOk result (IsAppended (string_bytes out.old)
        (stored_text numbers (lists_seen schemas.now) (seen_type of) (StructValue words.now)) (string_bytes out.new)) }
    ensures stopped { IfErr result (λ e. IsStopped limit (string_bytes out.old)
        (stored_text numbers (lists_seen schemas.now) (seen_type of) (StructValue words.now))
        (IsRefused numbers (lists_seen schemas.now) (seen_type of) (StructValue words.now)) e.kind) }
{
    let value = View::Struct(PointerReader::from_words(words));
    put_read(out, limit, numbers, schemas, of, value, words)
}

/// Appends a list of these words.
fn put_list_value(
    out: &mut String,
    limit: u64,
    numbers: Numbers,
    schemas: &SchemaSet,
    of: Type,
    words: &[u8],
) -> Result<()>
    requires named { NamesEntries (lists_seen schemas.now) (seen_type of) }
    ensures put { OnOk result (IsAppended (string_bytes out.old)
        (stored_text numbers (lists_seen schemas.now) (seen_type of) (ListValue words.now)) (string_bytes out.new)) }
    ensures stopped { IfErr result (λ e. IsStopped limit (string_bytes out.old)
        (stored_text numbers (lists_seen schemas.now) (seen_type of) (ListValue words.now))
        (IsRefused numbers (lists_seen schemas.now) (seen_type of) (ListValue words.now)) e.kind) }
{
    let value = View::List(PointerReader::from_words(words));
    put_read(out, limit, numbers, schemas, of, value, words)
}

/// Appends a value of a set under a type of it.
pub(crate) fn put_value(
    out: &mut String,
    limit: u64,
    numbers: Numbers,
    schemas: &SchemaSet,
    of: Type,
    stored: &ValueRecord,
) -> Result<()>
    requires named { NamesEntries (lists_seen schemas.now) (seen_type of) }
    ensures put { OnOk result (IsAppended (string_bytes out.old)
        (stored_text numbers (lists_seen schemas.now) (seen_type of) (seen_value stored.now)) (string_bytes out.new)) }
    ensures stopped { IfErr result (λ e. IsStopped limit (string_bytes out.old)
        (stored_text numbers (lists_seen schemas.now) (seen_type of) (seen_value stored.now))
        (IsRefused numbers (lists_seen schemas.now) (seen_type of) (seen_value stored.now)) e.kind) }
{
    match stored {
        ValueRecord::Void => print_leaf(out, limit, numbers, Value::Void),
        ValueRecord::Bool(x) => print_leaf(out, limit, numbers, Value::Bool(*x)),
        ValueRecord::Int8(x) => print_leaf(out, limit, numbers, Value::Int8(*x)),
        ValueRecord::Int16(x) => print_leaf(out, limit, numbers, Value::Int16(*x)),
        ValueRecord::Int32(x) => print_leaf(out, limit, numbers, Value::Int32(*x)),
        ValueRecord::Int64(x) => print_leaf(out, limit, numbers, Value::Int64(*x)),
        ValueRecord::UInt8(x) => print_leaf(out, limit, numbers, Value::UInt8(*x)),
        ValueRecord::UInt16(x) => print_leaf(out, limit, numbers, Value::UInt16(*x)),
        ValueRecord::UInt32(x) => print_leaf(out, limit, numbers, Value::UInt32(*x)),
        ValueRecord::UInt64(x) => print_leaf(out, limit, numbers, Value::UInt64(*x)),
        ValueRecord::Enum(number) => put_enumerant(out, schemas, of, *number),
        ValueRecord::Text(bytes) => print_leaf(
            out,
            limit,
            numbers,
            Value::Text(text::Reader(bytes)),
        ),
        ValueRecord::Data(bytes) => print_leaf(out, limit, numbers, Value::Data(bytes)),
        ValueRecord::Struct(words) => put_struct_value(out, limit, numbers, schemas, of, words),
        ValueRecord::List(words) => put_list_value(out, limit, numbers, schemas, of, words),
        ValueRecord::AnyPointer(words) => put_words(out, words),
    }
}

/// Whether the root of words leads to something.
fn is_there(words: &[u8]) -> bool
    ensures { result ≡ not (is_null_tree (words_root words.now)) }
{
    !PointerReader::from_words(words).is_null()
}

/// Whether a default is told: a void has none, and a null is none.
fn is_told(default: &ValueRecord) -> bool
    ensures { result ≡ is_told (seen_value default.now) }
{
    match default {
        ValueRecord::Void => false,
        ValueRecord::Bool(_)
        | ValueRecord::Int8(_)
        | ValueRecord::Int16(_)
        | ValueRecord::Int32(_)
        | ValueRecord::Int64(_)
        | ValueRecord::UInt8(_)
        | ValueRecord::UInt16(_)
        | ValueRecord::UInt32(_)
        | ValueRecord::UInt64(_)
        | ValueRecord::Enum(_)
        | ValueRecord::Text(_)
        | ValueRecord::Data(_) => true,
        ValueRecord::Struct(words) => is_there(words),
        ValueRecord::List(words) => is_there(words),
        ValueRecord::AnyPointer(words) => is_there(words),
    }
}

/// Appends a default of a type, where it is told; the numbers of the field are floats or not.
pub(crate) fn put_default(
    out: &mut String,
    limit: u64,
    floats: bool,
    schemas: &SchemaSet,
    of: Type,
    default: &ValueRecord,
) -> Result<()>
    requires named { NamesEntries (lists_seen schemas.now) (seen_type of) }
    ensures put { OnOk result (IsAppended (string_bytes out.old)
        (default_text floats (lists_seen schemas.now) (seen_type of) (seen_value default.now)) (string_bytes out.new)) }
    ensures stopped { IfErr result (λ e. IsStopped limit (string_bytes out.old)
        (default_text floats (lists_seen schemas.now) (seen_type of) (seen_value default.now))
        (IsRefused (Floats floats) (lists_seen schemas.now) (seen_type of) (seen_value default.now)) e.kind) }
{
    if !is_told(default) {
        return Ok(());
    }
    out.push_str(", default ")?;
    put_value(out, limit, Numbers::Floats(floats), schemas, of, default)
}
