//! The stages of a task between what is read: what its words ask, the set, whether its names meet in JSON, the struct of its root
//! with the values of its calls, and which messages are read.
ghost use Rattle.std.specs.Prelude.{◌≡◌, IfErr, IfOk, None, Ok, OnOk, Err};
ghost use Rattle.std.specs.Option.{option_map};
ghost use Rattle.capnp_schema.specs.Entries.{lists_seen};
ghost use Rattle.riftcalico_core.specs.Answers.{IsSoundJob};
ghost use Rattle.riftcalico_core.specs.Jobs.{IsJob, IsSetOfFile, is_packed, wants_input};
ghost use Rattle.riftcalico_core.specs.Names.{names_line};
ghost use Rattle.riftcalico_core.specs.Plans.{plan_limit, task_plan};
ghost use Rattle.riftcalico_core.specs.PlansSeen.{plan_seen};
ghost use Rattle.riftcalico_engine.specs.Steps.Stages.{IsSetless, IsStoppedByNames, IsUnplanned, IsWithoutJob, stream_of, way_of};
ghost use Rattle.riftcalico_words.specs.RequestSeen.{task_seen};
ghost use Rattle.riftcalico_words.specs.Tasks.{task_messages};

use crate::ended::{Ended, Ran, Refusal, refuse};
use capnp_schema::set::SchemaSet;
use riftcalico_core::fault::Blamed;
use riftcalico_core::job::{Job, find_job};
use riftcalico_core::names::find_names_line;
use riftcalico_core::plan::{Plan, read_plan};
use riftcalico_core::schemas::make_schemas;
use riftcalico_words::request::{Messages, Task, get_messages};
use std::alloc::Global;

/// A task, and the bytes of the file of its calls, if it has one.
#[derive(Drop)]
pub(crate) struct Asked<'t, 'w> {
    pub task: &'t Task<'w>,
    pub calls: Vec<u8>,
}

/// What a task asks; or what it came to, where its words can't be read.
pub(crate) fn find_plan<'a>(
    alloc: Global,
    asked: &'a Asked<'_, '_>,
) -> std::result::Result<Plan<'a>, Ran>
    ensures plan { IfOk result (λ p. task_plan (task_seen asked.now.task.now) asked.now.calls.items ≡ Ok (plan_seen p)) }
    ensures stopped { IfErr result (IsUnplanned (task_seen asked.now.task.now) asked.now.calls.items) }
{
    match read_plan(alloc, asked.task, &asked.calls) {
        Ok(Ok(plan)) => Ok(plan),
        Ok(Err(line)) => Err(Ok(Ended::Unreadable(line))),
        Err(error) => Err(Err(refuse(alloc, None, error, Blamed::Calls))),
    }
}

/// The set of its file's bytes within the plan's limit, or the built-in one where none is named.
pub(crate) fn find_schemas(
    alloc: Global,
    plan: &Plan<'_>,
    file: Option<&str>,
    bytes: &[u8],
) -> std::result::Result<SchemaSet, Refusal>
    ensures set { IfOk result (λ s. IsSetOfFile (plan_limit (plan_seen plan.now)) (option_map (λ f. f.now) file.entry)
        bytes.now (lists_seen s)) }
    ensures refused { IfErr result (λ x. IsSetless (plan_limit (plan_seen plan.now)) (option_map (λ f. f.now) file.entry)
        bytes.now (Err x)) }
{
    match make_schemas(alloc, file, bytes, plan.get_limit()) {
        Ok(schemas) => Ok(schemas),
        Err(error) => Err(refuse(alloc, None, error, Blamed::Set)),
    }
}

/// That a plan may be done under its set; or what the task came to, where it is of JSON and names meet there.
fn check_names(alloc: Global, schemas: &SchemaSet, plan: &Plan<'_>) -> std::result::Result<(), Ran>
    ensures apart { OnOk result (names_line (plan_seen plan.now) (lists_seen schemas.now) ≡ None) }
    ensures stopped { IfErr result (IsStoppedByNames (plan_seen plan.now) (lists_seen schemas.now)) }
{
    match find_names_line(alloc, schemas, plan) {
        Ok(None) => Ok(()),
        Ok(Some(line)) => Err(Ok(Ended::NamesMeet(line))),
        Err(error) => Err(Err(refuse(alloc, None, error, Blamed::Name))),
    }
}

/// A plan under its set; or what the task came to, where it is of JSON and names of the set meet there, the set lacks the struct,
/// or a value of a call can't be read.
pub(crate) fn find_task_job<'s, 'c, 'w>(
    alloc: Global,
    schemas: &'s SchemaSet,
    plan: &'c Plan<'w>,
) -> std::result::Result<Job<'s, 'c, 'w>, Ran>
    ensures job { IfOk result (IsJob (plan_seen plan.now) (lists_seen schemas.now)) }
    ensures apart { OnOk result (names_line (plan_seen plan.now) (lists_seen schemas.now) ≡ None) }
    ensures sound { IfOk result IsSoundJob }
    ensures stopped { IfErr result (IsWithoutJob (plan_seen plan.now) (lists_seen schemas.now)) }
{
    check_names(alloc, schemas, plan)?;
    match find_job(alloc, schemas, plan) {
        Ok(Ok(job)) => Ok(job),
        Ok(Err(line)) => Err(Ok(Ended::Unreadable(line))),
        Err(fault) => Err(Err(Refusal {
            message: None,
            fault,
        })),
    }
}

/// Which messages are read.
pub(crate) enum Way {
    /// None.
    Unread,
    /// All that is there, as one.
    Whole,
    /// One after another; whether it goes on behind a refused one.
    Each(bool),
    /// Packed messages one after another; whether it goes on behind a refused one.
    Packed(bool),
}

/// One after another, packed or not.
fn get_stream(packed: bool, going: bool) -> Way
    ensures { result ≡ stream_of packed going }
{
    if packed {
        Way::Packed(going)
    } else {
        Way::Each(going)
    }
}

/// Which messages of its input a task means.
pub(crate) fn get_way(task: &Task<'_>, job: &Job<'_, '_, '_>) -> Way
    ensures { result ≡ way_of (task_messages (task_seen task.now)) (wants_input job.now) (is_packed job.now) }
{
    match get_messages(task) {
        Messages::First => {
            if job.wants_input() {
                Way::Whole
            } else {
                Way::Unread
            }
        }
        Messages::Each => get_stream(job.is_packed(), false),
        Messages::EachGoing => get_stream(job.is_packed(), true),
    }
}
