//! Values of a message as JSON, or why one has none.
ghost use Rattle.std.specs.Prelude.{◌≡◌, ◌≢◌, ◌+◌, ◌≤◌, IfErr, IfOk, false, length, map, string_bytes};
ghost use Rattle.capnp_call.specs.Seen.{path_seen};
ghost use Rattle.capnp_device.specs.declared.error.ErrorKind.TheVariants.{OutOfMemory};
ghost use Rattle.capnp_json.specs.Pieces.{IsJson};
ghost use Rattle.capnp_schema.specs.StructHandles.{IsStruct};
ghost use Rattle.riftcalico_core.specs.Json.{IsJsonAnswer, IsNoJson, IsQueryJson, json_refusal_line, path_json};
ghost use Rattle.riftcalico_core.specs.Lines.{AreLinesOf};
ghost use Rattle.riftcalico_core.specs.QueriesSeen.{asked_seen};
ghost use Rattle.riftcalico_core.specs.Steps.Json.{HasNoLine, HaveNoLines, IsReason, IsToldRefusal};
ghost use Rattle.riftcalico_core.specs.declared.fault.Blamed.TheVariants.{Input};

use crate::answer::{Answer, Output, answer_quietly};
use crate::expand::expand_queries;
use crate::fault::{Blamed, Fault, Faulty, get_fault};
use crate::get::{add_line, get_count};
use crate::job::JsonJob;
use crate::place::tell_place;
use crate::queries::AskedQuery;
use capnp_call::calls::Step;
use capnp_json::error::JsonError;
use capnp_queries::json::{NoJson, get_json};
use capnp_wire::error::{Error, ErrorKind, Result};
use std::alloc::Global;

/// Why a query has no JSON.
#[derive(Drop)]
pub(crate) enum NoLine {
    /// What it asks for is refused, or longer than it may be, or there is no memory for it.
    Refused(Fault),
    /// It is what no JSON stands for, which is no refusal of a message.
    Unfit(JsonError),
}

/// The line of a refusal. Refused with `OutOfMemory` alone.
fn get_refusal_line(alloc: Global, error: JsonError) -> Result<String>
    ensures line { IfOk result (λ line. string_bytes line ≡ json_refusal_line error) }
    ensures memory { IfErr result (λ e. e.kind ≡ OutOfMemory) }
{
    let mut line = String::new(alloc);
    let number = error.number();
    let name = error.name();
    write!(line, "refused: {number} {name}\n")?;
    Ok(line)
}

/// What tells that a value has no JSON. Refused with `OutOfMemory` alone.
fn tell_refusal(alloc: Global, error: JsonError) -> Faulty<Answer>
    ensures told { IfOk result (IsToldRefusal error) }
    ensures memory { IfErr result (λ f. f.error.kind ≡ OutOfMemory) }
    ensures blamed { IfErr result (λ f. f.blamed ≡ Input) }
{
    match get_refusal_line(alloc, error) {
        Ok(lines) => Ok(Answer {
            output: Output::Nothing,
            lines,
            refused: true,
        }),
        Err(error) => Err(get_fault(alloc, error, Blamed::Input)),
    }
}

/// A refusal of JSON as the reason that a query has none.
fn find_reason(alloc: Global, error: JsonError) -> NoLine
    ensures { IsReason error result }
{
    let kind = match error {
        JsonError::Read(kind) => kind,
        JsonError::TooLarge => ErrorKind::TooLarge,
        JsonError::OutOfMemory => ErrorKind::OutOfMemory,
        JsonError::UntypedHasNoJson | JsonError::TextNotUtf8 => return NoLine::Unfit(error),
    };
    NoLine::Refused(get_fault(alloc, Error::from(kind), Blamed::Input))
}

/// The JSON of what stands at a path, in at most so many bytes. Refused as `capnp_queries::json::get_json`, with the place of a
/// step.
fn get_value_json(
    alloc: Global,
    job: &JsonJob<'_, '_>,
    steps: &[Step<'_>],
    limit: u64,
    message: &[u8],
) -> std::result::Result<Vec<u8>, NoLine>
    requires { IsStruct job.now.schema }
    ensures json { IfOk result (λ json. IsJson (path_json job.now message.now (path_seen steps.now)) json.items) }
    ensures within { IfOk result (λ json. length json.items ≤ limit) }
    ensures refused { IfErr result (HasNoLine false limit job.now message.now (path_seen steps.now)) }
{
    match get_json(
        alloc,
        job.schema,
        steps,
        message,
        job.indented,
        limit as usize,
    ) {
        Ok(json) => Ok(json),
        Err(NoJson::Unreached(refusal)) => {
            Err(NoLine::Refused(tell_place(alloc, steps, &refusal)))
        }
        Err(NoJson::Value(error)) => Err(find_reason(alloc, error)),
    }
}

/// The JSON of a query, in at most so many bytes: that of what stands at its path, or how many elements a list has.
fn get_query_json(
    alloc: Global,
    job: &JsonJob<'_, '_>,
    query: &AskedQuery<'_>,
    limit: u64,
    message: &[u8],
) -> std::result::Result<Vec<u8>, NoLine>
    requires { IsStruct job.now.schema }
    ensures json { IfOk result (λ line. IsQueryJson job.now message.now (asked_seen query.now) line.items) }
    ensures within { IfOk result (λ line. length line.items ≤ limit) }
    ensures refused { IfErr result (HasNoLine query.now.counts limit job.now message.now (asked_seen query.now).path) }
{
    if query.counts {
        match get_count(alloc, job.schema, &query.steps, limit, message) {
            Ok(text) => Ok(text),
            Err(fault) => Err(NoLine::Refused(fault)),
        }
    } else {
        get_value_json(alloc, job, &query.steps, limit, message)
    }
}

/// The lines of queries, one after another, which have no more bytes together than the limit, without their line breaks.
/// Refused as the first of them that has none within what is left of it.
fn get_json_lines(
    alloc: Global,
    job: &JsonJob<'_, '_>,
    queries: &[AskedQuery<'_>],
    message: &[u8],
) -> std::result::Result<Vec<u8>, NoLine>
    requires { IsStruct job.now.schema }
    ensures lines { IfOk result (λ lines. AreLinesOf (IsQueryJson job.now message.now) (map asked_seen queries.now)
        lines.items) }
    ensures few { IfOk result (λ lines. length lines.items ≤ job.now.limit + length queries.now) }
    ensures refused { IfErr result (HaveNoLines job.now message.now (map asked_seen queries.now)) }
{
    let mut lines = Vec::new(alloc);
    let mut left = job.limit;
    for index in 0..queries.len() {
        let line = match get_query_json(alloc, job, &queries[index], left, message) {
            Ok(line) => line,
            Err(why) => return Err(why),
        };
        left -= line.len() as u64;
        match add_line(lines, line) {
            Ok(more) => lines = more,
            Err(error) => return Err(NoLine::Refused(get_fault(alloc, error, Blamed::Input))),
        }
    }
    Ok(lines)
}

/// The JSON of what is asked for by paths, a line each; or a line that tells why a value has none, where no refusal of messages
/// has its number. Refused as the first path that can't be listed; then as the first that has no JSON: with its place, where
/// the message or a step is refused, as the first value in the JSON's order that can't be read, with `TooLarge` where the JSON
/// is longer than it may be, and with `OutOfMemory`.
pub(crate) fn answer_json(alloc: Global, job: &JsonJob<'_, '_>, message: &[u8]) -> Faulty<Answer>
    requires { IsStruct job.now.schema }
    ensures answer { IfOk result (IsJsonAnswer job.now message.now) }
    ensures refused { IfErr result (λ f. f.error.kind ≢ OutOfMemory → IsNoJson job.now message.now f) }
    ensures blamed { IfErr result (λ f. f.blamed ≡ Input) }
{
    let queries = match expand_queries(alloc, job.schema, &job.queries, job.limit, message) {
        Ok(queries) => queries,
        Err(fault) => return Err(fault),
    };
    match get_json_lines(alloc, job, &queries, message) {
        Ok(lines) => Ok(answer_quietly(alloc, Output::Bytes(lines))),
        Err(NoLine::Refused(fault)) => Err(fault),
        Err(NoLine::Unfit(error)) => tell_refusal(alloc, error),
    }
}
