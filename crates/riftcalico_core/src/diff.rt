//! The calls that make one message into another, as lines that `patch` reads.
ghost use Rattle.std.specs.Prelude.{ℕ, [], true, ◌+◌, ◌≡◌, ◌≢◌, ◌≤◌, ◌⊎◌, IfErr, IfOk, IfSome, MatchOption, Ok, length, string_bytes};
ghost use Rattle.capnp_call.specs.Seen.{path_seen};
ghost use Rattle.capnp_device.specs.declared.error.ErrorKind.TheVariants.{OutOfMemory};
ghost use Rattle.capnp_diffs.specs.declared.change.Change.{Change as FoundChange};
ghost use Rattle.capnp_dynamic_readers.specs.Handles.{reader_of, schema_of};
ghost use Rattle.capnp_records.specs.Reading.{reads};
ghost use Rattle.capnp_schema.specs.StructHandles.{IsStruct, number_of, set_of};
ghost use Rattle.capnp_schema.specs.declared.schema.structs.StructSchema.{StructSchema as StructHandle};
ghost use Rattle.capnp_wire.specs.Standing.{struct_levels, struct_of};
ghost use Rattle.riftcalico_core.specs.AllFaults.{part_note};
ghost use Rattle.riftcalico_core.specs.ChangeLines.{wordless_line};
ghost use Rattle.riftcalico_core.specs.Diffs.{HasRootRecord, IsDiffAnswer, IsLine, IsLineless, IsNotDiffed, IsPlaceTold, IsRefusedElse, IsRootStruct, IsRootless, IsToldOrPut, path_of};
ghost use Rattle.riftcalico_core.specs.Inputs.{message_in};
ghost use Rattle.riftcalico_core.specs.Lines.{AreLinesOf, IsFirstOf};
ghost use Rattle.riftcalico_core.specs.Shown.{IsNotShown};
ghost use Rattle.riftcalico_core.specs.Steps.Told.{IsToldAs};
ghost use Rattle.riftcalico_core.specs.Steps.Wordless.{AreWithoutLines, HasNoLine, IsWithoutLine};
ghost use Rattle.riftcalico_core.specs.declared.answer.Output.TheVariants.{Nothing};
ghost use Rattle.riftcalico_core.specs.declared.fault.Blamed.TheVariants.{Calls, Input};

use crate::answer::{Answer, Output, answer_quietly};
use crate::change_line::{NoWord, get_change_path, get_line};
use crate::fault::{Blamed, Fault, Faulty, blame, get_fault};
use crate::get::{add_line, find_fault};
use crate::job::DiffJob;
use crate::kinds::is_same_kind;
use crate::note::get_part_note;
use crate::place::tell_path;
use capnp_call::calls::Step;
use capnp_diffs::change::Change;
use capnp_diffs::diff::find_changes;
use capnp_dynamic_readers::dynamic_struct;
use capnp_json::error::JsonError;
use capnp_packed::received::read_message;
use capnp_schema::schema::StructSchema;
use capnp_wire::error::{Error, ErrorKind, Result};
use capnp_wire::message::Reader;
use std::alloc::Global;

/// Why changes have no lines.
#[derive(Drop)]
pub(crate) enum NoLines {
    /// A refusal.
    Refused(Fault),
    /// What tells that a value has no word, for which no message is refused.
    Told(String),
}

/// The root of the first message in these bytes. Refused as the message is, or its root where it can't be read as a struct.
fn read_root<'a>(
    alloc: Global,
    schema: StructSchema<'a>,
    bytes: &'a [u8],
) -> Result<dynamic_struct::Reader<'a>>
    ensures schema { IfOk result (λ r. schema_of r ≡ schema.entry) }
    ensures record { IfOk result (λ r. HasRootRecord schema.entry bytes.now
        (reads (set_of schema.entry) (struct_of (reader_of r)) (number_of schema.entry))) }
    ensures root { IfOk result (λ r. IsRootStruct bytes.now (struct_of (reader_of r)) (struct_levels (reader_of r))) }
    ensures refused { IfErr result (λ e. IsRootless bytes.now e.kind) }
{
    let message = Reader::new(alloc, bytes)?;
    let root = message.get_root().get_struct()?;
    Ok(dynamic_struct::Reader::new(root, schema))
}

/// A refusal that blames the newer message in place of the older one.
fn blame_newer(fault: Fault) -> Fault
    ensures error { result.error ≡ fault.error }
    ensures blamed { result.blamed ≡ Calls }
    ensures note { result.note ≡ fault.note }
{
    Fault {
        error: fault.error,
        blamed: Blamed::Calls,
        note: fault.note,
    }
}

/// The refusal of a message's first part that can't be read, if it is of this kind.
fn find_kind(
    alloc: Global,
    schema: StructSchema<'_>,
    message: &[u8],
    kind: ErrorKind,
) -> Result<Option<Fault>>
    requires { IsStruct schema }
    ensures found { IfOk result (λ found. MatchOption found (IsRefusedElse schema.entry message.now kind)
        (λ f. IsNotShown schema.entry [] message.now f × (f.error.kind ≡ kind))) }
    ensures blamed { IfOk result (λ found. IfSome found (λ f. f.blamed ≡ Input)) }
    ensures memory { IfErr result (λ e. e.kind ≡ OutOfMemory) }
{
    match find_fault(alloc, schema, &[], message)? {
        Some(fault) => {
            if is_same_kind(fault.error.kind, kind) {
                Ok(Some(fault))
            } else {
                Ok(None)
            }
        }
        None => Ok(None),
    }
}

/// Why there are no changes: the first part of the older message that can't be read, or else of the newer one; or what no call
/// makes of the newer one.
fn explain_changes(
    alloc: Global,
    schema: StructSchema<'_>,
    old: &[u8],
    new: &[u8],
    error: Error,
) -> Fault
    requires { IsStruct schema }
    ensures told { result.error.kind ≢ OutOfMemory → IsPlaceTold schema.entry old.now new.now result }
    ensures kind { result.error.kind ≢ OutOfMemory → result.error.kind ≡ error.kind }
    ensures blamed { (result.blamed ≡ Input) ⊎ (result.blamed ≡ Calls) }
{
    if error.kind == ErrorKind::OutOfMemory {
        return get_fault(alloc, error, Blamed::Calls);
    }
    match find_kind(alloc, schema, old, error.kind) {
        Ok(Some(fault)) => return fault,
        Ok(None) => {}
        Err(error) => return get_fault(alloc, error, Blamed::Calls),
    }
    match find_kind(alloc, schema, new, error.kind) {
        Ok(Some(fault)) => blame_newer(fault),
        Ok(None) => get_fault(alloc, error, Blamed::Calls),
        Err(error) => get_fault(alloc, error, Blamed::Calls),
    }
}

/// What tells that a value has no word, with its path. Refused with `OutOfMemory` alone.
fn get_wordless_line(alloc: Global, why: NoWord, path: &[Step<'_>]) -> Result<String>
    ensures line { IfOk result (λ line. string_bytes line ≡ wordless_line why (path_seen path.now)) }
    ensures memory { IfErr result (λ e. e.kind ≡ OutOfMemory) }
{
    let note = get_part_note(alloc, path, "")?;
    let mut line = String::new(alloc);
    let number = why.number();
    let name = why.name();
    write!(line, "refused: {number} {name}{note}\n")?;
    Ok(line)
}

/// A refusal of what stands at a path of the newer message, with the path; or that there is no memory for its note.
fn tell_unread(alloc: Global, path: &[Step<'_>], kind: ErrorKind) -> Fault
    ensures told { result.error.kind ≢ OutOfMemory → IsToldAs kind (part_note (path_seen path.now) []) result }
    ensures blamed { result.blamed ≡ Calls }
{
    let fault = tell_path(alloc, path, kind);
    Fault {
        error: fault.error,
        blamed: Blamed::Calls,
        note: fault.note,
    }
}

/// Why a change has no line.
fn explain_line(alloc: Global, why: NoWord, path: &[Step<'_>]) -> NoLines
    ensures { (left : ℕ) (s : StructHandle) (c : FoundChange) → path_of s c ≡ path_seen path.now
        → HasNoLine left s (path_of s c) c.op why → IsWithoutLine left s c result }
{
    match why {
        NoWord::Refused(JsonError::Read(kind)) => {
            NoLines::Refused(tell_unread(alloc, path, kind))
        }
        NoWord::Refused(JsonError::TooLarge) => NoLines::Refused(get_fault(
            alloc,
            Error::from(ErrorKind::TooLarge),
            Blamed::Calls,
        )),
        NoWord::Refused(JsonError::OutOfMemory) => NoLines::Refused(get_fault(
            alloc,
            Error::from(ErrorKind::OutOfMemory),
            Blamed::Calls,
        )),
        _ => match get_wordless_line(alloc, why, path) {
            Ok(line) => NoLines::Told(line),
            Err(error) => NoLines::Refused(get_fault(alloc, error, Blamed::Calls)),
        },
    }
}

/// The line of a change, of at most so many bytes.
fn get_change_line<'a>(
    alloc: Global,
    schema: StructSchema<'a>,
    change: &Change<'a>,
    limit: u64,
) -> std::result::Result<Vec<u8>, NoLines>
    requires { IsStruct schema }
    ensures line { IfOk result (λ line. IsLine schema.entry change.now line.items) }
    ensures within { IfOk result (λ line. length line.items ≤ limit) }
    ensures refused { IfErr result (IsWithoutLine limit schema.entry change.now) }
{
    let path = match get_change_path(alloc, schema, change) {
        Ok(path) => path,
        Err(error) => return Err(NoLines::Refused(get_fault(alloc, error, Blamed::Calls))),
    };
    match get_line(alloc, schema, &path, change.op, limit) {
        Ok(line) => Ok(line),
        Err(why) => Err(explain_line(alloc, why, &path)),
    }
}

/// The lines of changes, one after another, which have no more bytes together than the limit, without their line breaks.
/// Refused as the first of them that has none within what is left of it.
fn get_change_lines<'a>(
    alloc: Global,
    schema: StructSchema<'a>,
    changes: &[Change<'a>],
    limit: u64,
) -> std::result::Result<Vec<u8>, NoLines>
    requires { IsStruct schema }
    ensures lines { IfOk result (λ lines. AreLinesOf (IsLine schema.entry) changes.now lines.items) }
    ensures few { IfOk result (λ lines. length lines.items ≤ limit + length changes.now) }
    ensures refused { IfErr result (AreWithoutLines limit schema.entry changes.now) }
{
    let mut lines = Vec::new(alloc);
    let mut left = limit;
    for index in 0..changes.len() {
        let line = match get_change_line(alloc, schema, &changes[index], left) {
            Ok(line) => line,
            Err(why) => return Err(why),
        };
        left -= line.len() as u64;
        match add_line(lines, line) {
            Ok(more) => lines = more,
            Err(error) => return Err(NoLines::Refused(get_fault(alloc, error, Blamed::Calls))),
        }
    }
    Ok(lines)
}

/// The answer that tells a line and writes nothing.
fn tell_line(lines: String) -> Answer
    ensures lines { result.lines ≡ lines }
    ensures output { result.output ≡ Nothing }
    ensures refused { result.refused ≡ true }
{
    Answer {
        output: Output::Nothing,
        lines,
        refused: true,
    }
}

/// The lines of changes, or what is told where a value has no word.
fn answer_changes<'a>(
    alloc: Global,
    schema: StructSchema<'a>,
    changes: &[Change<'a>],
    limit: u64,
) -> Faulty<Answer>
    requires { IsStruct schema }
    ensures answer { IfOk result (IsToldOrPut schema.entry limit changes.now) }
    ensures refused { IfErr result (λ f. f.error.kind ≢ OutOfMemory
        → IsFirstOf (IsLine schema.entry) (λ left c. IsLineless left schema.entry c f) limit changes.now) }
    ensures blamed { IfErr result (λ f. f.blamed ≡ Calls) }
{
    match get_change_lines(alloc, schema, changes, limit) {
        Ok(lines) => Ok(answer_quietly(alloc, Output::Bytes(lines))),
        Err(NoLines::Refused(fault)) => Err(fault),
        Err(NoLines::Told(lines)) => Ok(tell_line(lines)),
    }
}

/// The lines of what makes a message into a newer one, which is not packed.
#[tactic(auto, using(crate::proofs::DiffsAnswered::old_rootless, crate::proofs::DiffsAnswered::new_rootless, crate::proofs::DiffsAnswered::not_found, crate::proofs::DiffsAnswered::diff_answered, crate::proofs::DiffsAnswered::one_lineless))]
fn diff_messages(alloc: Global, job: &DiffJob<'_, '_>, old: &[u8], new: &[u8]) -> Faulty<Answer>
    requires stands { IsStruct job.now.schema }
    requires newer { message_in job.now.packed job.now.newer.now ≡ Ok new.now }
    ensures answer { IfOk result (IsDiffAnswer job.now old.now) }
    ensures refused { IfErr result (λ f. f.error.kind ≢ OutOfMemory → IsNotDiffed job.now old.now f) }
    ensures blamed { IfErr result (λ f. (f.blamed ≡ Input) ⊎ (f.blamed ≡ Calls)) }
{
    let source = match read_root(alloc, job.schema, old) {
        Ok(root) => root,
        Err(error) => return Err(get_fault(alloc, error, Blamed::Input)),
    };
    let target = match read_root(alloc, job.schema, new) {
        Ok(root) => root,
        Err(error) => return Err(get_fault(alloc, error, Blamed::Calls)),
    };
    let changes = match find_changes(alloc, source, target) {
        Ok(changes) => changes,
        Err(error) => return Err(explain_changes(alloc, job.schema, old, new, error)),
    };
    match answer_changes(alloc, job.schema, &changes, job.limit) {
        Ok(answer) => Ok(answer),
        Err(fault) => Err(fault),
    }
}

/// The calls that make a message into the newer one of a job, as lines that `patch` reads; nothing where both have equal
/// records. A leaf is told as it is printed, which is read back as it, and a struct or a list that is put whole as its JSON.
///
/// Refused as either message, or as `capnp_diffs::diff::find_changes`, with the place where a part can't be read; as the first
/// value that has no text or JSON; with `TooLarge` where the lines have more bytes than the limit; and with `OutOfMemory`.
/// Where a value has no word (67, 68, 75) that is told with its path, and there is no line.
pub(crate) fn answer_diff(alloc: Global, job: &DiffJob<'_, '_>, message: &[u8]) -> Faulty<Answer>
    requires { IsStruct job.now.schema }
    ensures answer { IfOk result (IsDiffAnswer job.now message.now) }
    ensures refused { IfErr result (λ f. f.error.kind ≢ OutOfMemory → IsNotDiffed job.now message.now f) }
    ensures blamed { IfErr result (λ f. (f.blamed ≡ Input) ⊎ (f.blamed ≡ Calls)) }
{
    if !job.packed {
        return diff_messages(alloc, job, message, job.newer);
    }
    let newer = blame(alloc, read_message(alloc, job.newer), Blamed::Calls)?;
    diff_messages(alloc, job, message, &newer)
}
