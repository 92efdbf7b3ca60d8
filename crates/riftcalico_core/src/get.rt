//! What is asked for by paths of a message, as lines.
ghost use Rattle.riftcalico_core.specs.Expanded.{AreAsked, most_paths};
ghost use Rattle.capnp_records.specs.Call.{PathStep};
ghost use Rattle.capnp_words.specs.Paths.{words_of_path};
ghost use Rattle.riftcalico_core.specs.Notes.{words_behind_points};
ghost use Rattle.riftcalico_core.specs.Queries.{count_mark, query_words};
ghost use Rattle.std.specs.Prelude.{◌≡◌, ◌≢◌, ◌⊎◌, ◌++◌, ◌+◌, ◌∷◌, [], ◌≤◌, ◌<◌, Err, IfErr, IfOk, IfSome, List, MatchOption, true, codes, decimal, length, map};
ghost use Rattle.std.specs.Option.{option_map};
ghost use Rattle.capnp_device.specs.declared.error.ErrorKind.TheVariants.{OutOfMemory, TooLarge};
ghost use Rattle.capnp_call.specs.Seen.{path_seen};
ghost use Rattle.capnp_dynamic_readers.specs.Pieces.{IsLonger};
ghost use Rattle.capnp_dynamic_readers.specs.Seen.{value_seen};
ghost use Rattle.capnp_float_texts.specs.Printed.{printed_float_text};
ghost use Rattle.capnp_patch.specs.Gets.{got_text};
ghost use Rattle.capnp_queries.specs.Shown.{IsTooLong, IsTooLongAt, raw_bytes};
ghost use Rattle.capnp_records.specs.Text.{IsText};
ghost use Rattle.capnp_schema.specs.StructHandles.{IsStruct, number_of, set_of};
ghost use Rattle.riftcalico_core.specs.Gets.{AreLines, HasLongCount, HasLongText, IsCountText, IsFirstRefused, IsGetAnswer, IsLineRefused, IsNoList, IsNotGot, IsQueryLine, IsQueryRefused, IsQueryText, IsUnreached, IsValueText, IsWordOf};
ghost use Rattle.riftcalico_core.specs.QueriesSeen.{asked_seen};
ghost use Rattle.riftcalico_core.specs.Shown.{IsNotShown, IsTextThere};
ghost use Rattle.riftcalico_core.specs.Steps.Told.{IsLengthTold};
ghost use Rattle.riftcalico_core.specs.declared.fault.Blamed.TheVariants.{Input};

use crate::answer::{Answer, Output, answer_quietly};
use crate::expand::expand_queries;
use crate::fault::{Blamed, Fault, Faulty, get_fault};
use crate::job::GetJob;
use crate::note::get_words;
use crate::place::{note_fault, tell_path, tell_place};
use crate::queries::AskedQuery;
use capnp_call::calls::Step;
use capnp_dynamic_readers::dynamic_value::Reader as Value;
use capnp_float_texts::printer::print_floats_within;
use capnp_patch::place::find_place;
use capnp_queries::floats::has_floats_at;
use capnp_queries::length::{NoLength, get_length};
use capnp_queries::reach::reach_path;
use capnp_schema::schema::StructSchema;
use capnp_wire::error::{Error, ErrorKind, Result};
use std::alloc::Global;

/// The bytes of a text or data, where they are asked for.
fn get_raw<'a>(value: Value<'a>, raw: bool) -> Option<&'a [u8]>
    ensures { option_map (λ b. b.now) result ≡ raw_bytes raw (value_seen value.entry) }
{
    if !raw {
        return None;
    }
    match value {
        Value::Text(text) => Some(text.0),
        Value::Data(bytes) => Some(bytes),
        _ => None,
    }
}

/// A copy of at most so many bytes. Refused with `TooLarge` where there are more, and with `OutOfMemory`.
fn copy_within(alloc: Global, bytes: &[u8], limit: u64) -> Result<Vec<u8>>
    ensures copied { IfOk result (λ copy. copy.items ≡ bytes.now) }
    ensures within { IfOk result (λ copy. length copy.items ≤ limit) }
    ensures too_long { IfErr result (λ e. e.kind ≡ TooLarge → limit < length bytes.now) }
    ensures refused { IfErr result (λ e. e.kind ≢ TooLarge → e.kind ≡ OutOfMemory) }
{
    if bytes.len() as u64 > limit {
        return Err(Error::from(ErrorKind::TooLarge));
    }
    let mut copy = Vec::with_capacity(alloc, bytes.len())?;
    copy.extend_from_slice(bytes)?;
    Ok(copy)
}

/// The text of a value, whose numbers are floats or not, where it has at most so many bytes.
pub(crate) fn print_value(
    alloc: Global,
    value: Value<'_>,
    floats: bool,
    indented: bool,
    limit: u64,
) -> Result<Vec<u8>>
    ensures text { IfOk result (λ text. IsText (printed_float_text floats indented value.entry) text.items) }
    ensures within { IfOk result (λ text. length text.items ≤ limit) }
    ensures refused { IfErr result (λ e. e.kind ≢ OutOfMemory → e.kind ≢ TooLarge
        → printed_float_text floats indented value.entry ≡ Err e.kind) }
    ensures too_long { IfErr result (λ e. e.kind ≡ TooLarge → IsLonger limit (printed_float_text floats indented value.entry)) }
{
    let mut text = String::new(alloc);
    print_floats_within(value, floats, &mut text, indented, limit)?;
    Ok(text.into_bytes())
}

/// What is told of a value: its bytes, where they are asked for and it is a text or data, and else its text.
fn get_value_text(
    alloc: Global,
    value: Value<'_>,
    floats: bool,
    raw: bool,
    indented: bool,
    limit: u64,
) -> Result<Vec<u8>>
    ensures text { IfOk result (λ text. IsWordOf (raw_bytes raw (value_seen value.entry))
        (printed_float_text floats indented value.entry) text.items) }
    ensures within { IfOk result (λ text. length text.items ≤ limit) }
    ensures refused { IfErr result (λ e. e.kind ≢ OutOfMemory → e.kind ≢ TooLarge
        → printed_float_text floats indented value.entry ≡ Err e.kind) }
    ensures too_long { IfErr result (λ e. e.kind ≡ TooLarge → IsTooLong (raw_bytes raw (value_seen value.entry)) limit
        (printed_float_text floats indented value.entry)) }
{
    match get_raw(value, raw) {
        Some(bytes) => copy_within(alloc, bytes, limit),
        None => print_value(alloc, value, floats, indented, limit),
    }
}

/// What is told of what stands at a path, in at most so many bytes.
fn get_text_at(
    alloc: Global,
    job: &GetJob<'_, '_>,
    steps: &[Step<'_>],
    limit: u64,
    message: &[u8],
) -> Result<Vec<u8>>
    requires { IsStruct job.now.schema }
    ensures text { IfOk result (λ text. IsValueText job.now message.now (path_seen steps.now) text.items) }
    ensures within { IfOk result (λ text. length text.items ≤ limit) }
    ensures refused { IfErr result (λ e. e.kind ≢ OutOfMemory → e.kind ≢ TooLarge
        → got_text (set_of job.now.schema) (number_of job.now.schema) (path_seen steps.now) job.now.indented
        message.now ≡ Err e.kind) }
    ensures too_long { IfErr result (λ e. e.kind ≡ TooLarge → IsTooLongAt (set_of job.now.schema)
        (number_of job.now.schema) (path_seen steps.now) job.now.raw job.now.indented limit message.now) }
{
    let value = match reach_path(alloc, job.schema, steps, message) {
        Ok(value) => value,
        Err(refusal) => return Err(Error::from(refusal.kind)),
    };
    let floats = has_floats_at(job.schema, steps);
    match get_value_text(alloc, value, floats, job.raw, job.indented, limit) {
        Ok(text) => Ok(text),
        Err(error) => Err(error),
    }
}

/// Why a value that is asked for has no text, in both forms, and where; none where it has one. Refused with `OutOfMemory`
/// alone.
pub(crate) fn find_fault(
    alloc: Global,
    schema: StructSchema<'_>,
    steps: &[Step<'_>],
    message: &[u8],
) -> Result<Option<Fault>>
    requires { IsStruct schema }
    ensures found { IfOk result (λ found. MatchOption found (IsTextThere schema.entry (path_seen steps.now) message.now)
        (IsNotShown schema.entry (path_seen steps.now) message.now)) }
    ensures blamed { IfOk result (λ found. IfSome found (λ f. f.blamed ≡ Input)) }
    ensures memory { IfErr result (λ e. e.kind ≡ OutOfMemory) }
{
    let Some(refusal) = find_place(alloc, schema, steps, message)? else {
        return Ok(None);
    };
    Ok(Some(note_fault(alloc, steps, &refusal)?))
}

/// The refusal of a text with its place; or that there is no memory for it.
fn explain_refusal(
    alloc: Global,
    job: &GetJob<'_, '_>,
    steps: &[Step<'_>],
    message: &[u8],
    error: Error,
) -> Fault
    requires stands { IsStruct job.now.schema }
    requires refused { error.kind ≢ OutOfMemory → got_text (set_of job.now.schema) (number_of job.now.schema)
        (path_seen steps.now) job.now.indented message.now ≡ Err error.kind }
    ensures shown { result.error.kind ≢ OutOfMemory → IsNotShown job.now.schema (path_seen steps.now) message.now result }
    ensures blamed { result.blamed ≡ Input }
{
    if error.kind == ErrorKind::OutOfMemory {
        return get_fault(alloc, error, Blamed::Input);
    }
    match find_fault(alloc, job.schema, steps, message) {
        Ok(Some(fault)) => fault,
        Ok(None) => get_fault(alloc, error, Blamed::Input),
        Err(error) => get_fault(alloc, error, Blamed::Input),
    }
}

/// What is told of what stands at a path, in at most so many bytes. Refused with the place, but for what is too long, and for
/// memory.
fn get_text(
    alloc: Global,
    job: &GetJob<'_, '_>,
    steps: &[Step<'_>],
    limit: u64,
    message: &[u8],
) -> Faulty<Vec<u8>>
    requires { IsStruct job.now.schema }
    ensures text { IfOk result (λ text. IsValueText job.now message.now (path_seen steps.now) text.items) }
    ensures within { IfOk result (λ text. length text.items ≤ limit) }
    ensures refused { IfErr result (λ f. f.error.kind ≢ OutOfMemory
        → IsNotShown job.now.schema (path_seen steps.now) message.now f
        ⊎ HasLongText limit job.now message.now (path_seen steps.now) f) }
    ensures blamed { IfErr result (λ f. f.blamed ≡ Input) }
{
    match get_text_at(alloc, job, steps, limit, message) {
        Ok(text) => Ok(text),
        Err(error) => match error.kind {
            ErrorKind::TooLarge => Err(get_fault(alloc, error, Blamed::Input)),
            _ => Err(explain_refusal(alloc, job, steps, message, error)),
        },
    }
}

/// A number in decimal, in at most so many bytes. Refused with `TooLarge` where it has more, and with `OutOfMemory`.
fn print_count(alloc: Global, count: u32, limit: u64) -> Result<Vec<u8>>
    ensures told { IfOk result (λ text. text.items ≡ decimal count) }
    ensures within { IfOk result (λ text. length text.items ≤ limit) }
    ensures too_long { IfErr result (λ e. e.kind ≡ TooLarge → limit < length (decimal count)) }
    ensures refused { IfErr result (λ e. e.kind ≢ TooLarge → e.kind ≡ OutOfMemory) }
{
    let text = format!(in alloc; "{count}")?;
    if text.len() as u64 > limit {
        return Err(Error::from(ErrorKind::TooLarge));
    }
    Ok(text.into_bytes())
}

/// Why there is no length, with the place; or that there is no memory for it.
fn explain_length(alloc: Global, steps: &[Step<'_>], why: &NoLength<'_>) -> Fault
    ensures told { result.error.kind ≢ OutOfMemory → IsLengthTold (path_seen steps.now) why.now result }
    ensures blamed { result.blamed ≡ Input }
{
    match why {
        NoLength::Unreached(refusal) => tell_place(alloc, steps, refusal),
        NoLength::NoList(kind) => tell_path(alloc, steps, *kind),
    }
}

/// How many elements the list at a path has, in decimal, in at most so many bytes. Refused with the place, but for what is too
/// long, and for memory.
pub(crate) fn get_count(
    alloc: Global,
    schema: StructSchema<'_>,
    steps: &[Step<'_>],
    limit: u64,
    message: &[u8],
) -> Faulty<Vec<u8>>
    requires { IsStruct schema }
    ensures text { IfOk result (λ text. IsCountText schema.entry message.now (path_seen steps.now) text.items) }
    ensures within { IfOk result (λ text. length text.items ≤ limit) }
    ensures refused { IfErr result (λ f. f.error.kind ≢ OutOfMemory
        → IsUnreached schema.entry message.now (path_seen steps.now) f
        ⊎ (IsNoList schema.entry message.now (path_seen steps.now) f
        ⊎ HasLongCount limit schema.entry message.now (path_seen steps.now) f)) }
    ensures blamed { IfErr result (λ f. f.blamed ≡ Input) }
{
    let count = match get_length(alloc, schema, steps, message) {
        Ok(count) => count,
        Err(why) => return Err(explain_length(alloc, steps, &why)),
    };
    match print_count(alloc, count, limit) {
        Ok(text) => Ok(text),
        Err(error) => Err(get_fault(alloc, error, Blamed::Input)),
    }
}

/// The text of a query, in at most so many bytes.
fn get_query_text(
    alloc: Global,
    job: &GetJob<'_, '_>,
    query: &AskedQuery<'_>,
    limit: u64,
    message: &[u8],
) -> Faulty<Vec<u8>>
    requires { IsStruct job.now.schema }
    ensures text { IfOk result (λ text. IsQueryText job.now message.now (asked_seen query.now) text.items) }
    ensures within { IfOk result (λ text. length text.items ≤ limit) }
    ensures refused { IfErr result (λ f. f.error.kind ≢ OutOfMemory
        → IsQueryRefused limit job.now message.now (asked_seen query.now) f) }
    ensures blamed { IfErr result (λ f. f.blamed ≡ Input) }
{
    if query.counts {
        get_count(alloc, job.schema, &query.steps, limit, message)
    } else {
        get_text(alloc, job, &query.steps, limit, message)
    }
}

/// The path that words behind points are, as a word.
pub(crate) fn get_path_word(words: &str) -> &str
    ensures { (path : List PathStep) → words.now ≡ words_behind_points path → result.now ≡ words_of_path path }
{
    match words.strip_prefix('.') {
        Some(path) => path,
        None => ".",
    }
}

/// What stands behind a path of which the length is asked for.
fn get_mark(counts: bool) -> &'static str
    ensures { result.now ≡ count_mark counts }
{
    if counts { ".#" } else { "" }
}

/// A query as a word, and what stands between it and its text. Refused with `OutOfMemory` alone.
fn get_heading(alloc: Global, query: &AskedQuery<'_>) -> Result<Vec<u8>>
    ensures heading { IfOk result (λ h. h.items ≡ query_words (asked_seen query.now) ++ codes ": ") }
    ensures memory { IfErr result (λ e. e.kind ≡ OutOfMemory) }
{
    let words = get_words(alloc, &query.steps)?;
    let path = get_path_word(words.as_str());
    let mark = get_mark(query.counts);
    let heading = format!(in alloc; "{path}{mark}: ")?;
    Ok(heading.into_bytes())
}

/// Bytes, and others behind them. Refused with `OutOfMemory` alone.
pub(crate) fn put_behind(bytes: Vec<u8>, more: &[u8]) -> Result<Vec<u8>>
    ensures put { IfOk result (λ all. all.items ≡ bytes.items ++ more.now) }
    ensures memory { IfErr result (λ e. e.kind ≡ OutOfMemory) }
{
    let mut bytes = bytes;
    bytes.extend_from_slice(more)?;
    Ok(bytes)
}

/// The line of a query with its path, in at most so many bytes.
fn get_headed_line(
    alloc: Global,
    job: &GetJob<'_, '_>,
    query: &AskedQuery<'_>,
    limit: u64,
    message: &[u8],
) -> Faulty<Vec<u8>>
    requires stands { IsStruct job.now.schema }
    requires headed { job.now.with_paths ≡ true }
    ensures line { IfOk result (λ line. IsQueryLine job.now message.now (asked_seen query.now) line.items) }
    ensures within { IfOk result (λ line. length line.items ≤ limit) }
    ensures refused { IfErr result (λ f. f.error.kind ≢ OutOfMemory
        → IsLineRefused limit job.now message.now (asked_seen query.now) f) }
    ensures blamed { IfErr result (λ f. f.blamed ≡ Input) }
{
    let heading = match get_heading(alloc, query) {
        Ok(heading) => heading,
        Err(error) => return Err(get_fault(alloc, error, Blamed::Input)),
    };
    let length = heading.len() as u64;
    if length > limit {
        let error = Error::from(ErrorKind::TooLarge);
        return Err(get_fault(alloc, error, Blamed::Input));
    }
    let text = match get_query_text(alloc, job, query, limit - length, message) {
        Ok(text) => text,
        Err(fault) => return Err(fault),
    };
    match put_behind(heading, &text) {
        Ok(line) => Ok(line),
        Err(error) => Err(get_fault(alloc, error, Blamed::Input)),
    }
}

/// The line of a query, with its path where that is told, in at most so many bytes.
fn get_query_line(
    alloc: Global,
    job: &GetJob<'_, '_>,
    query: &AskedQuery<'_>,
    limit: u64,
    message: &[u8],
) -> Faulty<Vec<u8>>
    requires { IsStruct job.now.schema }
    ensures line { IfOk result (λ line. IsQueryLine job.now message.now (asked_seen query.now) line.items) }
    ensures within { IfOk result (λ line. length line.items ≤ limit) }
    ensures refused { IfErr result (λ f. f.error.kind ≢ OutOfMemory
        → IsLineRefused limit job.now message.now (asked_seen query.now) f) }
    ensures blamed { IfErr result (λ f. f.blamed ≡ Input) }
{
    if job.with_paths {
        get_headed_line(alloc, job, query, limit, message)
    } else {
        get_query_text(alloc, job, query, limit, message)
    }
}

/// Lines with one more: where there are none, its own bytes are taken. Refused with `OutOfMemory` alone.
pub(crate) fn add_line(lines: Vec<u8>, text: Vec<u8>) -> Result<Vec<u8>>
    ensures added { IfOk result (λ more. more.items ≡ lines.items ++ (text.items ++ 10 ∷ [])) }
    ensures memory { IfErr result (λ e. e.kind ≡ OutOfMemory) }
{
    if lines.is_empty() {
        let mut line = text;
        line.push(b'\n')?;
        return Ok(line);
    }
    let mut lines = lines;
    lines.extend_from_slice(&text)?;
    lines.push(b'\n')?;
    Ok(lines)
}

/// The lines of queries, one after another, which have no more bytes together than the limit, without their line breaks.
/// Refused as the first of them that has none within what is left of it, with its place.
fn get_lines(
    alloc: Global,
    job: &GetJob<'_, '_>,
    queries: &[AskedQuery<'_>],
    message: &[u8],
) -> Faulty<Vec<u8>>
    requires { IsStruct job.now.schema }
    ensures lines { IfOk result (λ lines. AreLines job.now message.now (map asked_seen queries.now) lines.items) }
    ensures few { IfOk result (λ lines. length lines.items ≤ job.now.limit + length queries.now) }
    ensures refused { IfErr result (λ f. f.error.kind ≢ OutOfMemory
        → IsFirstRefused job.now.limit job.now message.now (map asked_seen queries.now) f) }
    ensures blamed { IfErr result (λ f. f.blamed ≡ Input) }
{
    let mut lines = Vec::new(alloc);
    let mut left = job.limit;
    for index in 0..queries.len() {
        let line = match get_query_line(alloc, job, &queries[index], left, message) {
            Ok(line) => line,
            Err(fault) => return Err(fault),
        };
        left -= line.len() as u64;
        match add_line(lines, line) {
            Ok(more) => lines = more,
            Err(error) => return Err(get_fault(alloc, error, Blamed::Input)),
        }
    }
    Ok(lines)
}

/// The lines of what is asked for by paths. Refused as the first of them that can't be listed, and then as the first that has
/// none, with its place.
pub(crate) fn answer_get(alloc: Global, job: &GetJob<'_, '_>, message: &[u8]) -> Faulty<Answer>
    requires { IsStruct job.now.schema }
    ensures answer { IfOk result (IsGetAnswer job.now message.now) }
    ensures refused { IfErr result (λ f. f.error.kind ≢ OutOfMemory → IsNotGot job.now message.now f) }
    ensures blamed { IfErr result (λ f. f.blamed ≡ Input) }
{
    let queries = match expand_queries(alloc, job.schema, &job.queries, job.limit, message) {
        Ok(queries) => queries,
        Err(fault) => return Err(fault),
    };
    match get_lines(alloc, job, &queries, message) {
        Ok(lines) => Ok(answer_quietly(alloc, Output::Bytes(lines))),
        Err(fault) => Err(fault),
    }
}
