//! What is answered to a message's bytes.
ghost use Rattle.std.specs.Prelude.{true, ◌≡◌, ◌≢◌, ◌≤◌, ◌⊎◌, IfErr, IfOk, IfSome, MatchOption, None, Some, map};
ghost use Rattle.capnp_device.specs.declared.error.ErrorKind.TheVariants.{OutOfMemory, TooLarge};
ghost use Rattle.capnp_arena.specs.Message.{IsMessage, message_tree};
ghost use Rattle.capnp_arena.specs.Segment.{segment};
ghost use Rattle.capnp_arena.specs.Shape.{word_count};
ghost use Rattle.capnp_call.specs.Messages.{most_words};
ghost use Rattle.capnp_call.specs.Seen.{path_seen};
ghost use Rattle.capnp_edit_calls.specs.ActsLeft.{IsActsLeftOfBytes, IsActsLeftOfNew};
ghost use Rattle.capnp_edit_calls.specs.ActsSeen.{act_seen};
ghost use Rattle.capnp_patch.specs.Patches.{words_within};
ghost use Rattle.capnp_patch.specs.Places.{HasFewParts, HasMoreParts};
ghost use Rattle.capnp_schema.specs.StructHandles.{IsStruct, number_of, set_of};
ghost use Rattle.riftcalico_core.specs.Answers.{HasTooMany, IsAllAnswer, IsAnswer, IsBlamed, IsCheckAnswer, IsMessageAnswer, IsNewAnswer, IsNoAnswer, IsNoMessageAnswer, IsNotChecked, IsPatchAnswer, IsRunAnswer, IsShownAnswer, IsSoundJob, IsUnpatched, IsWritableOutput};
ghost use Rattle.riftcalico_core.specs.Outputs.{IsMessageOutput, IsPackedMessage};
ghost use Rattle.riftcalico_core.specs.Quiet.{IsQuiet};
ghost use Rattle.riftcalico_core.specs.Room.{IsBelowFormat, IsPastLimit};
ghost use Rattle.riftcalico_core.specs.Shown.{IsNotShown, IsTextThere};
ghost use Rattle.riftcalico_core.specs.declared.fault.Blamed.TheVariants.{Input};

use crate::all_faults::{any_refusal, get_refusal_lines};
use crate::calls::{make_acts, make_values};
use crate::compare::answer_compare;
use crate::depth::put_depth_note;
use crate::diff::answer_diff;
use crate::fault::{Blamed, Fault, Faulty, blame, get_fault};
use crate::from_json::answer_from_json;
use crate::get::answer_get;
use crate::job::{CallsJob, CheckJob, Job};
use crate::json::answer_json;
use crate::place::note_fault;
use crate::replies::get_noted_lines;
use crate::room::{is_by_limit, tell_room};
use crate::sets::{answer_convert, answer_fields, answer_structs};
use capnp_arena::message::Builder;
use capnp_call::calls::{Step, any_refused};
use capnp_call::message::Run;
use capnp_edit_calls::acts::Act;
use capnp_edit_calls::engine::run_acts_bytes_within;
use capnp_edit_calls::message::run_acts_new;
use capnp_packed::pack::pack;
use capnp_packed::received::read_message;
use capnp_patch::engine::words_within;
use capnp_patch::place::{find_place_within, find_places};
use capnp_schema::schema::StructSchema;
use capnp_wire::error::Result;
use riftcalico_words::usage::{get_help, get_version};
use std::alloc::Global;

/// What is written.
#[derive(Drop)]
pub enum Output {
    /// Nothing: a call was refused, or a value was only looked at.
    Nothing,
    /// A text that stands in the program.
    Fixed(&'static str),
    /// A text.
    Text(String),
    /// Bytes.
    Bytes(Vec<u8>),
    /// A message in memory, as its bytes.
    Message(Builder),
}

/// What is answered.
#[derive(Drop)]
pub struct Answer {
    /// What is written on standard output.
    pub output: Output,
    /// What is told on standard error.
    pub lines: String,
    /// Whether a call was refused.
    pub refused: bool,
}

/// An answer of which nothing is told.
pub(crate) fn answer_quietly(alloc: Global, output: Output) -> Answer
    ensures output { result.output ≡ output }
    ensures quiet { IsQuiet result }
{
    Answer {
        output,
        lines: String::new(alloc),
        refused: false,
    }
}

/// Why a value of at most so many parts has no text, and where; none where it has one. Refused with `TooLarge` where it has
/// more parts, and with `OutOfMemory`.
fn find_fault_within(
    alloc: Global,
    schema: StructSchema<'_>,
    steps: &[Step<'_>],
    limit: u64,
    message: &[u8],
) -> Result<Option<Fault>>
    requires { IsStruct schema }
    ensures found { IfOk result (λ found. MatchOption found (IsTextThere schema.entry (path_seen steps.now) message.now)
        (IsNotShown schema.entry (path_seen steps.now) message.now)) }
    ensures blamed { IfOk result (λ found. IfSome found (λ f. f.blamed ≡ Input)) }
    ensures few { IfOk result (λ found. found ≡ None → HasFewParts limit (set_of schema.entry)
        (number_of schema.entry) (path_seen steps.now) message.now) }
    ensures too_large { IfErr result (λ e. e.kind ≡ TooLarge → HasMoreParts limit (set_of schema.entry)
        (number_of schema.entry) (path_seen steps.now) message.now) }
    ensures refused { IfErr result (λ e. e.kind ≢ TooLarge → e.kind ≡ OutOfMemory) }
{
    let Some(refusal) = find_place_within(alloc, schema, steps, message, limit)? else {
        return Ok(None);
    };
    Ok(Some(note_fault(alloc, steps, &refusal)?))
}

/// Whether a value can be shown.
fn answer_shown(alloc: Global, job: &CheckJob<'_, '_>, message: &[u8]) -> Faulty<Answer>
    requires { IsStruct job.now.schema }
    ensures answer { IfOk result (IsShownAnswer job.now.limit job.now.schema (path_seen job.now.steps.items) message.now) }
    ensures refused { IfErr result (λ f. f.error.kind ≢ OutOfMemory
        → IsNotShown job.now.schema (path_seen job.now.steps.items) message.now f
        ⊎ HasTooMany job.now.limit job.now.schema (path_seen job.now.steps.items) message.now f) }
    ensures blamed { IfErr result (λ f. f.blamed ≡ Input) }
{
    match find_fault_within(alloc, job.schema, &job.steps, job.limit, message) {
        Ok(None) => Ok(answer_quietly(alloc, Output::Nothing)),
        Ok(Some(fault)) => Err(fault),
        Err(error) => Err(get_fault(alloc, error, Blamed::Input)),
    }
}

/// All that can't be shown of a value. Refused with `TooLarge` where it has more parts than the limit, and with
/// `OutOfMemory`.
fn list_faults(alloc: Global, job: &CheckJob<'_, '_>, message: &[u8]) -> Result<Answer>
    requires { IsStruct job.now.schema }
    ensures answer { IfOk result (IsAllAnswer job.now.limit job.now.schema (path_seen job.now.steps.items) message.now) }
    ensures too_large { IfErr result (λ e. e.kind ≡ TooLarge → HasMoreParts job.now.limit (set_of job.now.schema)
        (number_of job.now.schema) (path_seen job.now.steps.items) message.now) }
    ensures refused { IfErr result (λ e. e.kind ≢ TooLarge → e.kind ≡ OutOfMemory) }
{
    let refusals = find_places(alloc, job.schema, &job.steps, message, job.limit)?;
    let lines = get_refusal_lines(alloc, &job.steps, &refusals)?;
    Ok(Answer {
        output: Output::Nothing,
        lines,
        refused: any_refusal(&refusals),
    })
}

/// All that can't be shown of a value, or that it has too many parts.
fn answer_all(alloc: Global, job: &CheckJob<'_, '_>, message: &[u8]) -> Faulty<Answer>
    requires { IsStruct job.now.schema }
    ensures answer { IfOk result (IsAllAnswer job.now.limit job.now.schema (path_seen job.now.steps.items) message.now) }
    ensures refused { IfErr result (λ f. f.error.kind ≢ OutOfMemory
        → HasTooMany job.now.limit job.now.schema (path_seen job.now.steps.items) message.now f) }
    ensures blamed { IfErr result (λ f. f.blamed ≡ Input) }
{
    match list_faults(alloc, job, message) {
        Ok(answer) => Ok(answer),
        Err(error) => Err(get_fault(alloc, error, Blamed::Input)),
    }
}

/// Whether a value can be shown, or all that can't.
fn answer_check(alloc: Global, job: &CheckJob<'_, '_>, message: &[u8]) -> Faulty<Answer>
    requires { IsStruct job.now.schema }
    ensures answer { IfOk result (IsCheckAnswer job.now message.now) }
    ensures refused { IfErr result (λ f. f.error.kind ≢ OutOfMemory → IsNotChecked job.now message.now f) }
    ensures blamed { IfErr result (λ f. f.blamed ≡ Input) }
{
    if job.all {
        answer_all(alloc, job, message)
    } else {
        answer_shown(alloc, job, message)
    }
}

/// The packed bytes of a message. Refused with `OutOfMemory` alone.
fn pack_message(alloc: Global, message: &Builder) -> Result<Vec<u8>>
    requires { IsMessage message.now }
    ensures packed { IfOk result (λ v. IsPackedMessage (message_tree message.now) v.items) }
    ensures memory { IfErr result (λ e. e.kind ≡ OutOfMemory) }
{
    let bytes = message.write_message()?;
    pack(alloc, &bytes)
}

/// A message as it is written. Refused with `OutOfMemory` alone.
pub(crate) fn get_output(alloc: Global, message: Builder, packed: bool) -> Result<Output>
    requires { IsMessage message }
    ensures output { IfOk result (IsMessageOutput packed (message_tree message)) }
    ensures writable { IfOk result IsWritableOutput }
    ensures memory { IfErr result (λ e. e.kind ≡ OutOfMemory) }
{
    if packed {
        Ok(Output::Bytes(pack_message(alloc, &message)?))
    } else {
        Ok(Output::Message(message))
    }
}

/// Whether refusals among the replies to calls are for the limit, where one is for want of memory.
fn are_by_limit(alloc: Global, refused: bool, limit: u64) -> bool
    ensures below { result ≡ true → IsBelowFormat limit }
{
    refused && is_by_limit(alloc, limit)
}

/// What a run leaves, unless a call was refused and it is not kept all the same; and what is told of the replies.
fn answer_run(
    alloc: Global,
    run: Run,
    job: &CallsJob<'_, '_, '_>,
    acts: &[Act<'_>],
) -> Result<Answer>
    requires message { IsMessage run.message }
    requires stands { IsStruct job.now.schema }
    ensures answer { IfOk result (IsRunAnswer job.now (map act_seen acts.now) run.replies.items
        (message_tree run.message)) }
    ensures writable { IfOk result (λ a. IsWritableOutput a.output) }
    ensures memory { IfErr result (λ e. e.kind ≡ OutOfMemory) }
{
    let Run { message, replies } = run;
    let refused = any_refused(&replies);
    let by_limit = are_by_limit(alloc, refused, job.limit);
    let mut lines = get_noted_lines(alloc, job.schema, job.words, acts, by_limit, &replies)?;
    let output = if job.keep_going || !refused {
        put_depth_note(&mut lines, &message)?;
        get_output(alloc, message, job.packed)?
    } else {
        Output::Nothing
    };
    Ok(Answer {
        output,
        lines,
        refused,
    })
}

/// A run on a copy of a root within the limit. Refused as `run_acts_bytes_within`, and with `TooLarge` where the limit is
/// the cause.
fn run_patch(
    alloc: Global,
    job: &CallsJob<'_, '_, '_>,
    message: &[u8],
    acts: &[Act<'_>],
) -> Result<Run>
    requires { IsStruct job.now.schema }
    ensures message { IfOk result (λ run. IsMessage run.message) }
    ensures left { IfOk result (λ run. IsActsLeftOfBytes job.now.schema message.now acts.now run.replies.items
        (message_tree run.message)) }
    ensures within { IfOk result (λ run. word_count (segment run.message) ≤ most_words (words_within job.now.limit)) }
    ensures refused { IfErr result (λ e. e.kind ≢ OutOfMemory → IsUnpatched job.now.limit message.now e.kind) }
{
    match run_acts_bytes_within(alloc, words_within(job.limit), message, job.schema, acts) {
        Ok(run) => Ok(run),
        Err(error) => Err(tell_room(alloc, job.limit, error)),
    }
}

/// A run on an empty root within the limit. Refused with `OutOfMemory`, and with `TooLarge` where the limit is the
/// cause.
fn run_anew(alloc: Global, job: &CallsJob<'_, '_, '_>, acts: &[Act<'_>]) -> Result<Run>
    requires { IsStruct job.now.schema }
    ensures message { IfOk result (λ run. IsMessage run.message) }
    ensures left { IfOk result (λ run. IsActsLeftOfNew job.now.schema acts.now run.replies.items
        (message_tree run.message)) }
    ensures within { IfOk result (λ run. word_count (segment run.message) ≤ most_words (words_within job.now.limit)) }
    ensures refused { IfErr result (λ e. e.kind ≢ OutOfMemory → IsPastLimit job.now.limit e.kind) }
{
    match run_acts_new(alloc, words_within(job.limit), job.schema, acts) {
        Ok(run) => Ok(run),
        Err(error) => Err(tell_room(alloc, job.limit, error)),
    }
}

/// The message that calls leave of a copy of a root.
fn answer_patch(alloc: Global, job: &CallsJob<'_, '_, '_>, message: &[u8]) -> Result<Answer>
    requires { IsStruct job.now.schema }
    ensures answer { IfOk result (IsPatchAnswer job.now message.now) }
    ensures writable { IfOk result (λ a. IsWritableOutput a.output) }
    ensures refused { IfErr result (λ e. e.kind ≢ OutOfMemory → IsUnpatched job.now.limit message.now e.kind) }
{
    let values = make_values(alloc, &job.calls)?;
    let acts = make_acts(alloc, &job.calls, &values)?;
    let run = run_patch(alloc, job, message, &acts)?;
    answer_run(alloc, run, job, &acts)
}

/// The message that calls leave of an empty root.
fn answer_new(alloc: Global, job: &CallsJob<'_, '_, '_>) -> Result<Answer>
    requires { IsStruct job.now.schema }
    ensures answer { IfOk result (IsNewAnswer job.now) }
    ensures writable { IfOk result (λ a. IsWritableOutput a.output) }
    ensures refused { IfErr result (λ e. e.kind ≢ OutOfMemory → IsPastLimit job.now.limit e.kind) }
{
    let values = make_values(alloc, &job.calls)?;
    let acts = make_acts(alloc, &job.calls, &values)?;
    let run = run_anew(alloc, job, &acts)?;
    answer_run(alloc, run, job, &acts)
}

/// What a job answers to a message that is not packed. Refused as `get_answer`, but for what is packed.
///
/// # Conditions
///
/// The struct of the job, where it has one, is one of an accepted set (`IsSoundJob`).
pub fn answer_message(alloc: Global, job: &Job<'_, '_, '_>, message: &[u8]) -> Faulty<Answer>
    requires { IsSoundJob job.now }
    ensures answer { IfOk result (IsMessageAnswer job.now message.now) }
    ensures writable { IfOk result (λ a. IsWritableOutput a.output) }
    ensures refused { IfErr result (λ f. f.error.kind ≢ OutOfMemory → IsNoMessageAnswer job.now message.now f) }
    ensures blamed { IfErr result (λ f. IsBlamed job.now f.error.kind f.blamed) }
{
    match job {
        Job::Get(job) => answer_get(alloc, job, message),
        Job::Json(job) => answer_json(alloc, job, message),
        Job::FromJson(job) => answer_from_json(alloc, *job, message),
        Job::Check(job) => answer_check(alloc, job, message),
        Job::Patch(job) => blame(alloc, answer_patch(alloc, job, message), Blamed::Input),
        Job::New(job) => blame(alloc, answer_new(alloc, job), Blamed::Output),
        Job::Structs(schemas, limit) => blame(
            alloc,
            answer_structs(alloc, schemas, *limit),
            Blamed::Output,
        ),
        Job::Fields(schema, limit) => blame(
            alloc,
            answer_fields(alloc, *schema, *limit),
            Blamed::Output,
        ),
        Job::Convert(strict, limit) => blame(
            alloc,
            answer_convert(alloc, *strict, *limit, message),
            Blamed::Input,
        ),
        Job::Compatible(job) => answer_compare(alloc, job),
        Job::Diff(job) => answer_diff(alloc, job, message),
        Job::Help(verb) => Ok(answer_quietly(alloc, Output::Fixed(get_help(*verb)))),
        Job::Version => Ok(answer_quietly(alloc, Output::Fixed(get_version()))),
    }
}

/// What a job answers to the bytes of a message, which may be packed; for a job that wants none they don't count.
///
/// Refused with `OutOfMemory`; of `get` as the first query that has no text within the limit, with the place where it is no
/// limit, of `json` as `capnp_queries::json::get_json`, with the place of a step, but for what only JSON refuses, which is
/// told, as what `from-json` refuses, but for a message without room within the limit (`TooLarge`); of
/// `check` as `capnp_patch::place::find_place_within`, with the place, of `patch` as
/// `capnp_edit_calls::engine::run_acts_bytes_within` and for room, as of `new`, of `schemas` as `capnp_set_engine::engine::convert_bytes`, of
/// it, `structs` and `compatible` with `TooLarge` past the limit, of `diff` as either message, and as the first change without a
/// line; and where the message is packed as `capnp_packed::received::read_message`.
///
/// # Conditions
///
/// The struct of the job, where it has one, is one of an accepted set (`IsSoundJob`).
pub fn get_answer(alloc: Global, job: &Job<'_, '_, '_>, input: &[u8]) -> Faulty<Answer>
    requires { IsSoundJob job.now }
    ensures answer { IfOk result (IsAnswer job.now input.now) }
    ensures writable { IfOk result (λ a. IsWritableOutput a.output) }
    ensures refused { IfErr result (λ f. f.error.kind ≢ OutOfMemory → IsNoAnswer job.now input.now f) }
    ensures blamed { IfErr result (λ f. IsBlamed job.now f.error.kind f.blamed) }
{
    if !job.is_packed() {
        return answer_message(alloc, job, input);
    }
    let message = blame(alloc, read_message(alloc, input), Blamed::Input)?;
    answer_message(alloc, job, &message)
}
