//! A JSON text made a message, or why it stands for none.
ghost use Rattle.std.specs.Prelude.{◌≡◌, ◌≢◌, ◌≤◌, ◌++◌, IfErr, IfOk, codes, decimal, string_bytes};
ghost use Rattle.capnp_device.specs.declared.error.ErrorKind.TheVariants.{OutOfMemory};
ghost use Rattle.capnp_arena.specs.Message.{IsMessage, message_tree};
ghost use Rattle.capnp_arena.specs.Segment.{segment};
ghost use Rattle.capnp_arena.specs.Shape.{word_count};
ghost use Rattle.capnp_call.specs.Messages.{most_words};
ghost use Rattle.capnp_from_json.specs.Errors.{kind_name, kind_number};
ghost use Rattle.capnp_from_json.specs.declared.error.Error.TheVariants.{Refused};
ghost use Rattle.capnp_json_messages.specs.Messages.{IsRootOf, text_record};
ghost use Rattle.capnp_json_messages.specs.Walks.{IsRefused};
ghost use Rattle.capnp_patch.specs.Patches.{words_within};
ghost use Rattle.capnp_schema.specs.StructHandles.{IsStruct, set_of};
ghost use Rattle.riftcalico_core.specs.Answers.{IsWritableOutput};
ghost use Rattle.riftcalico_core.specs.FromJson.{IsFromJsonAnswer, IsMade, IsUnmade, from_json_line};
ghost use Rattle.riftcalico_core.specs.Room.{IsRoomless};
ghost use Rattle.riftcalico_core.specs.declared.fault.Blamed.TheVariants.{Input};

use crate::answer::{Answer, Output, answer_quietly, get_output};
use crate::fault::{Blamed, Fault, Faulty, blame, get_fault};
use crate::job::FromJsonJob;
use crate::room::tell_room;
use capnp_arena::message::Builder;
use capnp_from_json::error::{Error as TextError, Refusal};
use capnp_json_messages::message::read_message_within;
use capnp_patch::engine::words_within;
use capnp_wire::error::{Error, ErrorKind, Result};
use std::alloc::Global;

/// The line of a refusal. Refused with `OutOfMemory` alone.
fn get_refused_line(alloc: Global, refusal: Refusal) -> Result<String>
    ensures line { IfOk result (λ line. string_bytes line ≡ from_json_line refusal) }
    ensures memory { IfErr result (λ e. e.kind ≡ OutOfMemory) }
{
    let mut line = String::new(alloc);
    let number = refusal.kind.number();
    let name = refusal.kind.name();
    let place = refusal.place;
    write!(
        line,
        "refused: {number} {name} (standard input) at byte {place}\n"
    )?;
    Ok(line)
}

/// What tells that a text is refused. Refused with `OutOfMemory` alone.
fn tell_unmade(alloc: Global, job: FromJsonJob<'_>, text: &[u8], refusal: Refusal) -> Faulty<Answer>
    requires { IsRefused (set_of job.schema) job.strict (text_record job.schema text.now) (Refused refusal) }
    ensures told { IfOk result (IsUnmade job.entry text.now) }
    ensures writable { IfOk result (λ a. IsWritableOutput a.output) }
    ensures memory { IfErr result (λ f. f.error.kind ≡ OutOfMemory) }
    ensures blamed { IfErr result (λ f. f.blamed ≡ Input) }
{
    let _strict = job.strict;
    let _text = text;
    match get_refused_line(alloc, refusal) {
        Ok(lines) => Ok(Answer {
            output: Output::Nothing,
            lines,
            refused: true,
        }),
        Err(error) => Err(get_fault(alloc, error, Blamed::Input)),
    }
}

/// A message that was made, packed or not. Refused with `OutOfMemory` alone.
fn give_made(alloc: Global, job: FromJsonJob<'_>, text: &[u8], message: Builder) -> Faulty<Answer>
    requires message { IsMessage message }
    requires root { IsRootOf job.schema job.strict text.now (message_tree message) }
    requires within { word_count (segment message) ≤ most_words (words_within job.limit) }
    ensures made { IfOk result (IsMade job.entry text.now) }
    ensures writable { IfOk result (λ a. IsWritableOutput a.output) }
    ensures memory { IfErr result (λ f. f.error.kind ≡ OutOfMemory) }
    ensures blamed { IfErr result (λ f. f.blamed ≡ Input) }
{
    let _text = text;
    let output = blame(alloc, get_output(alloc, message, job.packed), Blamed::Input)?;
    Ok(answer_quietly(alloc, output))
}

/// That there is no memory for a message, or no room within the limit of its bytes.
fn refuse_room(alloc: Global, limit: u64) -> Fault
    ensures refused { result.error.kind ≢ OutOfMemory → IsRoomless limit result }
    ensures blamed { result.blamed ≡ Input }
{
    let error = tell_room(alloc, limit, Error::from(ErrorKind::OutOfMemory));
    get_fault(alloc, error, Blamed::Input)
}

/// The message that a JSON text stands for, or the line that tells what is refused of it, with its place. Refused with
/// `OutOfMemory`, and with `TooLarge` where the message has no room within the limit.
pub(crate) fn answer_from_json(alloc: Global, job: FromJsonJob<'_>, text: &[u8]) -> Faulty<Answer>
    requires { IsStruct job.schema }
    ensures answer { IfOk result (IsFromJsonAnswer job.entry text.now) }
    ensures writable { IfOk result (λ a. IsWritableOutput a.output) }
    ensures refused { IfErr result (λ f. f.error.kind ≢ OutOfMemory → IsRoomless job.entry.limit f) }
    ensures blamed { IfErr result (λ f. f.blamed ≡ Input) }
{
    let words = words_within(job.limit);
    match read_message_within(alloc, words, job.schema, text, job.strict) {
        Ok(message) => give_made(alloc, job, text, message),
        Err(TextError::Refused(refusal)) => tell_unmade(alloc, job, text, refusal),
        Err(_) => Err(refuse_room(alloc, job.limit)),
    }
}
