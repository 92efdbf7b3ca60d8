//! A message that is read is shown as its text.
ghost use Rattle.std.specs.Prelude.{◌≡◌, ◌≢◌, ◌<◌, length, Ok, Err, IfOk, IfErr, OnOk, string_bytes};
ghost use Rattle.capnp_device.specs.Device.{HasFailed};
ghost use Rattle.capnp_device.specs.declared.error.ErrorKind.TheVariants.{OutOfMemory, ReadFailed, WriteFailed};
ghost use Rattle.capnp_schema.specs.Entries.{lists_seen};
ghost use Rattle.capnp_show_engine.specs.Steps.Refusals.{IsOfRead};
ghost use Rattle.capnp_show_engine.specs.Show.{IsTextCutShort, IsLineOf, IsOfMessage, IsShowRefused, IsShown, shown_text};
ghost use Rattle.capnp_dynamic_readers.specs.Pieces.{IsAppended};

use capnp_dynamic_readers::printer::print;
use capnp_dynamic_readers::{dynamic_struct, dynamic_value};
use capnp_schema::set::SchemaSet;
use capnp_wire::device::{Sink, Source};
use capnp_wire::error::Result;
use capnp_wire::message::Reader;
use capnp_wire::transfer::{read_all, write_all};
use std::alloc::Global;

/// Reads the source to its end and writes the text of the first message's root, read as a struct of that brand of the
/// set, and a line break: on one line, or indented on several. What follows the message is not looked at (encoding,
/// "Serialization Over a Stream"). The text is made whole before its first byte is written.
///
/// Refused with `ReadFailed` or `WriteFailed` where a call of the source or the sink failed, with `OutOfMemory`, as the
/// message is (`Truncated`, `TooManySegments`), and with the number of the first value that can't be read, in the
/// text's order: `BadPointer`, `WrongPointerKind`, `WrongElementSize`, `TextNotTerminated`, `TooDeep` or
/// `CapabilityPointer`. After `WriteFailed` a proper beginning of the text and its line break was written, after any
/// other refusal nothing.
///
/// # Conditions
///
/// `brand` is below the number of the set's brands.
pub fn show<R: Source, W: Sink>(
    alloc: Global,
    schemas: &SchemaSet,
    brand: u32,
    source: &mut R,
    sink: &mut W,
    indented: bool,
) -> Result<()>
    requires { brand < length (lists_seen schemas.now).brands }
    ensures shown { OnOk result (IsShown (lists_seen schemas.now) brand indented (R.left source.old) (R.left source.new)
        (W.written sink.old) (W.written sink.new)) }
    ensures refused { IfErr result (λ e. IsOfMessage e.kind →
        IsShowRefused (lists_seen schemas.now) brand indented e.kind (R.left source.old) (R.left source.new)) }
    ensures read_failed { IfErr result (λ e. e.kind ≡ ReadFailed →
        HasFailed (R.failures source.old) (R.failures source.new)) }
    ensures write_failed { IfErr result (λ e. e.kind ≡ WriteFailed →
        HasFailed (W.failures sink.old) (W.failures sink.new)) }
    ensures beginning { IfErr result (λ e. e.kind ≡ WriteFailed →
        IsTextCutShort (lists_seen schemas.now) brand indented (R.left source.old) (R.left source.new)
        (W.written sink.old) (W.written sink.new)) }
    ensures nothing { IfErr result (λ e. e.kind ≢ WriteFailed → sink.new ≡ sink.old) }
{
    let bytes = read_all(alloc, source)?;
    let line = get_line(alloc, schemas, brand, &bytes, indented)?;
    write_all(sink, line.as_bytes())
}

/// The text of the first message in these bytes, and a line break.
fn get_line(
    alloc: Global,
    schemas: &SchemaSet,
    brand: u32,
    bytes: &[u8],
    indented: bool,
) -> Result<String>
    requires { brand < length (lists_seen schemas.now).brands }
    ensures shown { IfOk result (λ line. IsLineOf (shown_text (lists_seen schemas.now) brand indented bytes.now)
        (string_bytes line)) }
    ensures refused { IfErr result (λ e. IsOfMessage e.kind
        → shown_text (lists_seen schemas.now) brand indented bytes.now ≡ Err e.kind) }
    ensures not_read { IfErr result (λ e. e.kind ≢ ReadFailed) }
    ensures not_written { IfErr result (λ e. e.kind ≢ WriteFailed) }
{
    let mut line = String::new(alloc);
    print_first_message(alloc, schemas, brand, bytes, &mut line, indented)?;
    line.push_str("\n")?;
    Ok(line)
}

/// Appends the text of the first message in these bytes.
fn print_first_message(
    alloc: Global,
    schemas: &SchemaSet,
    brand: u32,
    bytes: &[u8],
    out: &mut String,
    indented: bool,
) -> Result<()>
    requires { brand < length (lists_seen schemas.now).brands }
    ensures printed { OnOk result (IsAppended (string_bytes out.old)
        (shown_text (lists_seen schemas.now) brand indented bytes.now) (string_bytes out.new)) }
    ensures refused { IfErr result (λ e. e.kind ≢ OutOfMemory
        → shown_text (lists_seen schemas.now) brand indented bytes.now ≡ Err e.kind) }
    ensures of_no_device { IfErr result (λ e. IsOfRead e.kind) }
{
    let reader = Reader::new(alloc, bytes)?;
    let root = reader.get_root().get_struct()?;
    let value = dynamic_struct::Reader::new(root, schemas.struct_schema(brand));
    print(dynamic_value::Reader::Struct(value), out, indented)
}
