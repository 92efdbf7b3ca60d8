//! What is answered of sets: their structs as text, and the set of a compiler's request.
ghost use Rattle.std.specs.Prelude.{true, false, ◌≡◌, ◌≢◌, IfErr, IfOk, length, string_bytes, ◌≤◌};
ghost use Rattle.capnp_device.specs.declared.error.ErrorKind.TheVariants.{OutOfMemory};
ghost use Rattle.capnp_schema.specs.Entries.{lists_seen};
ghost use Rattle.capnp_schema.specs.StructHandles.{IsStruct};
ghost use Rattle.capnp_sets.specs.Message.{HasLargeMessage};
ghost use Rattle.capnp_set_engine.specs.Convert.{IsSetOf};
ghost use Rattle.riftcalico_core.specs.Answers.{IsConvertAnswer, IsFieldsAnswer, IsFieldsPast, IsNotConverted, IsStructsAnswer, IsStructsText};
ghost use Rattle.riftcalico_core.specs.Jobs.{set_room};
ghost use Rattle.riftcalico_core.specs.Room.{IsLongText};

use crate::answer::{Answer, Output, answer_quietly};
use crate::schemas::get_set_room;
use capnp_schema::schema::StructSchema;
use capnp_schema::set::SchemaSet;
use capnp_set_engine::engine::{Made, convert_bytes_within};
use capnp_structs::fields::get_fields_within;
use capnp_structs::names::get_structs_within;
use capnp_wire::error::{Error, ErrorKind, Result};
use capnp_wire::message::Reader;
use std::alloc::Global;

/// The structs of a set, as text. Refused with `TooLarge` where it is longer than the limit, and with `OutOfMemory`.
pub(crate) fn answer_structs(alloc: Global, schemas: &SchemaSet, limit: u64) -> Result<Answer>
    ensures answer { IfOk result (IsStructsAnswer (lists_seen schemas.now) limit) }
    ensures refused { IfErr result (λ e. e.kind ≢ OutOfMemory
        → IsLongText limit (IsStructsText (lists_seen schemas.now)) e.kind) }
{
    let text = get_structs_within(alloc, schemas, limit)?;
    Ok(answer_quietly(alloc, Output::Text(text)))
}

/// The fields of a struct, as text. Refused as `capnp_structs::fields::get_fields_within`.
pub(crate) fn answer_fields(alloc: Global, schema: StructSchema<'_>, limit: u64) -> Result<Answer>
    requires { IsStruct schema }
    ensures answer { IfOk result (IsFieldsAnswer schema.entry limit) }
    ensures refused { IfErr result (λ e. e.kind ≢ OutOfMemory
        → IsFieldsPast limit schema.entry e.kind) }
{
    let text = get_fields_within(alloc, schema, limit)?;
    Ok(answer_quietly(alloc, Output::Text(text)))
}

/// Whether there is more in the first message of these bytes than may be. Refused with `OutOfMemory` alone.
fn is_large(alloc: Global, input: &[u8], room: u64) -> Result<bool>
    ensures large { IfOk result (λ large. large ≡ true → HasLargeMessage room input.now) }
    ensures small { IfOk result (λ large. large ≡ false → HasLargeMessage room input.now → ⊥) }
    ensures memory { IfErr result (λ e. e.kind ≡ OutOfMemory) }
{
    match Reader::new(alloc, input) {
        Ok(reader) => Ok(reader.get_root().unfolded_size(room).is_none()),
        Err(error) => match error.kind {
            ErrorKind::OutOfMemory => Err(error),
            _ => Ok(false),
        },
    }
}

/// What is written and told of a compiler's request, whose set has a message of at most so many bytes. What pointers of
/// the request lead to is counted before it is converted. Refused as `capnp_set_engine::engine::convert_bytes_within`, and with
/// `TooLarge`.
fn convert_within(alloc: Global, strict: bool, limit: u64, input: &[u8]) -> Result<Made>
    ensures fits { IfOk result (λ made. HasLargeMessage (set_room limit (length input.now)) input.now → ⊥) }
    ensures within { IfOk result (λ made. length made.message.items ≤ limit) }
    ensures made { IfOk result (λ made. IsSetOf strict input.now made.message.items (string_bytes made.lines)) }
    ensures refused { IfErr result (λ e. e.kind ≢ OutOfMemory → IsNotConverted strict limit input.now e) }
{
    if is_large(alloc, input, get_set_room(limit, input.len()))? {
        return Err(Error::from(ErrorKind::TooLarge));
    }
    let made = convert_bytes_within(alloc, input, strict, limit)?;
    if made.message.len() as u64 > limit {
        return Err(Error::from(ErrorKind::TooLarge));
    }
    Ok(made)
}

/// The message of the set of a compiler's request, and what is told of it. Refused as `convert_within`.
pub(crate) fn answer_convert(
    alloc: Global,
    strict: bool,
    limit: u64,
    input: &[u8],
) -> Result<Answer>
    ensures answer { IfOk result (IsConvertAnswer strict limit input.now) }
    ensures refused { IfErr result (λ e. e.kind ≢ OutOfMemory → IsNotConverted strict limit input.now e) }
{
    let made = convert_within(alloc, strict, limit, input)?;
    Ok(Answer {
        output: Output::Bytes(made.message),
        lines: made.lines,
        refused: false,
    })
}
