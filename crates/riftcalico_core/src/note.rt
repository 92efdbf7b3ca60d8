//! What tells more of a refusal: the place, the struct there, and names that may have been meant.
ghost use Rattle.std.specs.Prelude.{suc, ◌≡◌, ◌++◌, ◌∷◌, IfErr, IfOk, OnOk, get_or, string_bytes, take};
ghost use Rattle.capnp_device.specs.declared.error.ErrorKind.TheVariants.{OutOfMemory};
ghost use Rattle.capnp_call.specs.Seen.{path_seen, step_seen};
ghost use Rattle.capnp_records.specs.Call.{FieldNumber};
ghost use Rattle.capnp_words.specs.Paths.{step_word};
ghost use Rattle.riftcalico_core.specs.AllFaults.{part_note};
ghost use Rattle.riftcalico_core.specs.Notes.{at_note, meant_note, place_note, within_note, words_behind_points};

use crate::near::get_near_fields;
use capnp_call::calls::Step;
use capnp_patch::place::Place;
use capnp_patch::reach::RefusedStep;
use capnp_schema::schema::StructSchema;
use capnp_wire::error::{ErrorKind, Result};
use std::alloc::Global;

/// Appends a step as a word, behind a point.
fn put_step(words: &mut String, step: Step<'_>) -> Result<()>
    ensures put { OnOk result (string_bytes words.new ≡ string_bytes words.old ++ 46 ∷ step_word (step_seen step.entry)) }
    ensures memory { IfErr result (λ e. e.kind ≡ OutOfMemory) }
{
    match step {
        Step::Named(name) => Ok(write!(words, ".{name}")?),
        Step::Field(index) => Ok(write!(words, ".#{index}")?),
        Step::Element(index) => Ok(write!(words, ".{index}")?),
    }
}

/// Steps as words, each behind a point.
pub(crate) fn get_words(alloc: Global, steps: &[Step<'_>]) -> Result<String>
    ensures words { IfOk result (λ words. string_bytes words ≡ words_behind_points (path_seen steps.now)) }
    ensures memory { IfErr result (λ e. e.kind ≡ OutOfMemory) }
{
    let mut words = String::new(alloc);
    for step in steps {
        put_step(&mut words, *step)?;
    }
    Ok(words)
}

/// Such words as a note tells them.
fn get_at(alloc: Global, words: &str) -> Result<String>
    ensures note { IfOk result (λ note. string_bytes note ≡ at_note words.now) }
    ensures memory { IfErr result (λ e. e.kind ≡ OutOfMemory) }
{
    match words.strip_prefix('.') {
        Some(rest) => Ok(format!(in alloc; " at {rest}")?),
        None => Ok(String::new(alloc)),
    }
}

/// What may have been meant by a field that isn't there.
fn get_meant(alloc: Global, schema: StructSchema<'_>, step: Step<'_>) -> Result<String>
    ensures note { IfOk result (λ note. string_bytes note ≡ meant_note schema.entry (step_seen step.entry)) }
    ensures memory { IfErr result (λ e. e.kind ≡ OutOfMemory) }
{
    match step {
        Step::Named(name) => get_near_fields(alloc, schema, name),
        Step::Field(_) | Step::Element(_) => Ok(String::new(alloc)),
    }
}

/// Appends the struct or group that was asked for a field that isn't there, and what may have been meant.
pub(crate) fn put_within(
    note: &mut String,
    within: Option<StructSchema<'_>>,
    kind: ErrorKind,
    step: Step<'_>,
) -> Result<()>
    ensures put { OnOk result (string_bytes note.new
        ≡ string_bytes note.old ++ within_note within.entry kind (step_seen step.entry)) }
    ensures memory { IfErr result (λ e. e.kind ≡ OutOfMemory) }
{
    let (Some(schema), ErrorKind::FieldNotFound) = (within, kind) else {
        return Ok(());
    };
    let name = schema.get_proto().display_name.as_str();
    let meant = get_meant(*note.allocator(), schema, step)?;
    Ok(write!(note, " in {name}{meant}")?)
}

/// The step of an index; the field 0 where there is none.
fn step_at<'a>(path: &[Step<'a>], index: usize) -> Step<'a>
    ensures { step_seen result ≡ get_or (path_seen path.now) index (FieldNumber 0) }
{
    match path.get(index) {
        Some(step) => *step,
        None => Step::Field(0),
    }
}

/// The steps of a path up to that of an index.
fn steps_to<'p, 'a>(path: &'p [Step<'a>], index: usize) -> &'p [Step<'a>]
    ensures { path_seen result.now ≡ take (suc index) (path_seen path.now) }
{
    if index < path.len() {
        &path[..index + 1]
    } else {
        path
    }
}

/// The note of a step that is refused. Refused with `OutOfMemory` alone.
pub(crate) fn get_step_note(
    alloc: Global,
    path: &[Step<'_>],
    refused: RefusedStep<'_>,
) -> Result<String>
    ensures note { IfOk result (λ note. string_bytes note ≡ place_note (path_seen path.now) (Place.Step refused.entry)) }
    ensures memory { IfErr result (λ e. e.kind ≡ OutOfMemory) }
{
    let words = get_words(alloc, steps_to(path, refused.index))?;
    let mut note = get_at(alloc, words.as_str())?;
    let step = step_at(path, refused.index);
    put_within(&mut note, refused.within, refused.error.kind, step)?;
    Ok(note)
}

/// The note of a part of what stands at a path, by its words. Refused with `OutOfMemory` alone.
pub(crate) fn get_part_note(alloc: Global, path: &[Step<'_>], part: &str) -> Result<String>
    ensures note { IfOk result (λ note. string_bytes note ≡ part_note (path_seen path.now) part.now) }
    ensures memory { IfErr result (λ e. e.kind ≡ OutOfMemory) }
{
    let mut words = get_words(alloc, path)?;
    words.push_str(part)?;
    get_at(alloc, words.as_str())
}

/// The note of what is refused of a value that is asked for by a path. Refused with `OutOfMemory` alone.
pub(crate) fn get_place_note(alloc: Global, path: &[Step<'_>], place: &Place<'_>) -> Result<String>
    ensures note { IfOk result (λ note. string_bytes note ≡ place_note (path_seen path.now) place.now) }
    ensures memory { IfErr result (λ e. e.kind ≡ OutOfMemory) }
{
    match place {
        Place::Root => Ok(String::new(alloc)),
        Place::Step(refused) => get_step_note(alloc, path, *refused),
        Place::Part(found) => get_part_note(alloc, path, found.words.as_str()),
    }
}
