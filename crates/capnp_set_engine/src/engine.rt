//! A compiler's request that is read is written as the message of its set.
ghost use Rattle.std.specs.Prelude.{◌≡◌, ◌≢◌, ◌≤◌, ◌⊎◌, IfErr, IfOk, OnErr, OnOk, string_bytes};
ghost use Rattle.capnp_device.specs.Device.{HasFailed};
ghost use Rattle.capnp_device.specs.declared.error.ErrorKind.TheVariants.{OutOfMemory, ReadFailed, TooLarge, WriteFailed};
ghost use Rattle.capnp_request.specs.Sizes.{lists_bytes};
ghost use Rattle.capnp_show_engine.specs.Steps.Refusals.{IsOfRead};
ghost use Rattle.capnp_show_engine.specs.Show.{IsOfMessage};
ghost use Rattle.capnp_set_engine.specs.Convert.{HasFewBytes, HasManyBytes, HasNoSet, IsConvertedFrom, IsCutShort, IsConvertedMessage, IsRefused, IsSetOf, IsRequestUnread, IsUnwritten, IsWritten, set_in};

use crate::notes::get_lines;
use capnp_request::{Converted, read_request, read_request_within};
use capnp_schema::set::SchemaSet;
use capnp_set_writer::set_writer::write_set;
use capnp_show_engine::command::tell;
use capnp_wire::device::{Sink, Source};
use capnp_wire::error::Result;
use capnp_wire::message::Reader;
use capnp_wire::transfer::{read_all, write_all};
use std::alloc::Global;

/// What is written and told of a request.
#[derive(Drop)]
pub struct Made {
    /// The message of its set.
    pub message: Vec<u8>,
    /// A line for each note on the set.
    pub lines: String,
}

/// What the request in these bytes is converted to.
fn read_conversion(alloc: Global, bytes: &[u8], strict: bool) -> Result<Converted>
    ensures converted { IfOk result (IsConvertedFrom strict bytes.now) }
    ensures refused { IfErr result (λ e. e.kind ≢ OutOfMemory → IsRequestUnread strict bytes.now e.kind) }
    ensures of_no_device { IfErr result (λ e. IsOfRead e.kind) }
{
    let reader = Reader::new(alloc, bytes)?;
    let root = reader.get_root().get_struct()?;
    read_request(alloc, root, strict)
}

/// What the request in these bytes is converted to, where its lists have at most so many bytes.
fn read_conversion_within(
    alloc: Global,
    bytes: &[u8],
    strict: bool,
    limit: u64,
) -> Result<Converted>
    ensures converted { IfOk result (IsConvertedFrom strict bytes.now) }
    ensures within { IfOk result (λ c. lists_bytes (set_in c) ≤ limit) }
    ensures refused { IfErr result (λ e. e.kind ≢ OutOfMemory → IsRequestUnread strict bytes.now e.kind
        ⊎ ((e.kind ≡ TooLarge) × HasManyBytes limit strict bytes.now)) }
    ensures of_no_device { IfErr result (λ e. IsOfRead e.kind) }
{
    let reader = Reader::new(alloc, bytes)?;
    let root = reader.get_root().get_struct()?;
    read_request_within(alloc, root, strict, limit)
}

/// The message of the checked set of a conversion, and the lines of its notes.
fn make(alloc: Global, converted: Converted) -> Result<Made>
    ensures made { IfOk result (λ m. IsConvertedMessage converted m.message.items (string_bytes m.lines)) }
    ensures refused { IfErr result (λ e. e.kind ≢ OutOfMemory → IsUnwritten converted e) }
    ensures of_no_device { IfErr result (λ e. IsOfRead e.kind) }
{
    let Converted {
        nodes,
        brands,
        enums,
        notes,
    } = converted;
    let schemas = SchemaSet::new(alloc, nodes, brands, enums)?;
    let message = write_set(alloc, &schemas)?;
    let lines = get_lines(alloc, &schemas, notes.as_slice())?;
    Ok(Made { message, lines })
}

/// The message of the set that the root of the first message in these bytes stands for, a compiler's request, and a line
/// for each note. Where `strict` says so, floats and interfaces are refused.
///
/// Refused with `OutOfMemory`, as the request's stream is (`Truncated`, `TooManySegments`), as its root is where it can't
/// be read as a struct (`BadPointer`, `WrongPointerKind`, `CapabilityPointer`), as `read_request`, as `SchemaSet::new`
/// with a rule that the lists break, or as `write_set`.
pub fn convert_bytes(alloc: Global, bytes: &[u8], strict: bool) -> Result<Made>
    ensures made { IfOk result (λ m. IsSetOf strict bytes.now m.message.items (string_bytes m.lines)) }
    ensures refused { IfErr result (λ e. e.kind ≢ OutOfMemory → HasNoSet strict bytes.now e) }
    ensures of_no_device { IfErr result (λ e. (e.kind ≢ ReadFailed) × (e.kind ≢ WriteFailed)) }
{
    let conversion = read_conversion(alloc, bytes, strict)?;
    make(alloc, conversion)
}

/// The message and lines of `convert_bytes`, where the lists of the set have at most `limit` bytes (`lists_bytes`). Each of
/// those bytes stands in the message too, so a set that is refused for them has a longer message.
///
/// Refused as `convert_bytes`, and with `TooLarge` as soon as the lists made so far have more bytes.
pub fn convert_bytes_within(alloc: Global, bytes: &[u8], strict: bool, limit: u64) -> Result<Made>
    ensures made { IfOk result (λ m. IsSetOf strict bytes.now m.message.items (string_bytes m.lines)) }
    ensures within { IfOk result (λ m. HasFewBytes limit strict bytes.now) }
    ensures refused { IfErr result (λ e. e.kind ≢ OutOfMemory → HasNoSet strict bytes.now e
        ⊎ ((e.kind ≡ TooLarge) × HasManyBytes limit strict bytes.now)) }
    ensures of_no_device { IfErr result (λ e. (e.kind ≢ ReadFailed) × (e.kind ≢ WriteFailed)) }
{
    let conversion = read_conversion_within(alloc, bytes, strict, limit)?;
    make(alloc, conversion)
}

/// Reads the source to its end and writes the message of the set that the first message's root stands for, a compiler's
/// request, and then a line for each note on `errors`, as far as it takes them. What follows the request is not looked
/// at (encoding, "Serialization Over a Stream"). The set is checked and its message is made whole before its first byte
/// is written. Where `strict` says so, floats and interfaces are refused.
///
/// Refused with `ReadFailed` or `WriteFailed` where a call of the source or the sink failed, with `OutOfMemory`, as the
/// request's stream is (`Truncated`, `TooManySegments`), as its root is where it can't be read as a struct
/// (`BadPointer`, `WrongPointerKind`, `CapabilityPointer`), as `read_request`, as `SchemaSet::new` with a rule that the
/// lists break, or as `write_set`. After `WriteFailed` a proper beginning of the message was written, after any other
/// refusal nothing; after each of them nothing was told.
pub fn convert<R: Source, W: Sink, F: Sink>(
    alloc: Global,
    source: &mut R,
    sink: &mut W,
    errors: &mut F,
    strict: bool,
) -> Result<()>
    ensures written { OnOk result (IsWritten strict (R.left source.old) (R.left source.new) (W.written sink.old)
        (W.written sink.new)
        (F.written errors.old) (F.written errors.new) (F.failures errors.old) (F.failures errors.new)) }
    ensures refused { IfErr result (λ e. IsOfMessage e.kind
        → IsRefused strict e (R.left source.old) (R.left source.new)) }
    ensures read_failed { IfErr result (λ e. e.kind ≡ ReadFailed →
        HasFailed (R.failures source.old) (R.failures source.new)) }
    ensures write_failed { IfErr result (λ e. e.kind ≡ WriteFailed →
        HasFailed (W.failures sink.old) (W.failures sink.new)) }
    ensures beginning { IfErr result (λ e. e.kind ≡ WriteFailed →
        IsCutShort strict (R.left source.old) (R.left source.new) (W.written sink.old) (W.written sink.new)) }
    ensures nothing { IfErr result (λ e. e.kind ≢ WriteFailed → sink.new ≡ sink.old) }
    ensures quiet { OnErr result (errors.new ≡ errors.old) }
{
    let bytes = read_all(alloc, source)?;
    let made = convert_bytes(alloc, &bytes, strict)?;
    write_all(sink, &made.message)?;
    tell(made.lines.as_bytes(), errors);
    Ok(())
}
