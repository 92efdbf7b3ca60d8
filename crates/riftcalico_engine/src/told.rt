//! What is told on standard error, and the exit status with it, before any of it is told.
ghost use Rattle.std.specs.Prelude.{◌≡◌, IfErr, IfOk, map, string_bytes, Ok};
ghost use Rattle.riftcalico_engine.specs.Steps.Told.{IsFaultLine, IsMisuseOutcome, IsNotBegun, IsOutcome};
ghost use Rattle.riftcalico_words.specs.Requests.{asked_request};
ghost use Rattle.riftcalico_words.specs.RequestSeen.{fault_seen, task_seen};

use crate::ended::{Ended, Ran, Refusal};
use capnp_wire::error::ErrorKind;
use riftcalico_core::fault::put_fault;
use riftcalico_words::request::{Misuse, Task, read_words};
use riftcalico_words::usage::get_misuse;
use std::alloc::Global;

/// What is told.
#[derive(Drop)]
pub(crate) enum Told {
    /// A text.
    Line(String),
    /// A refusal by its number alone, which takes no memory.
    Number(ErrorKind),
}

/// How the program ends: its exit status, and what is told, if anything is.
#[derive(Drop)]
pub(crate) struct Outcome {
    pub status: u8,
    pub told: Option<Told>,
}

/// What is told of a refusal: the number and name, and what is to be looked at; where there is no memory for that the
/// number alone.
pub(crate) fn get_told(alloc: Global, task: &Task<'_>, refusal: &Refusal) -> Told
    ensures { IsFaultLine (task_seen task.now) refusal.now result }
{
    match put_fault(alloc, task, refusal.message, &refusal.fault) {
        Ok(line) => Told::Line(line),
        Err(_) => Told::Number(refusal.fault.error.kind),
    }
}

/// How the program ends where a task came to this: with status 1 where a call or a message was refused, or the task or its
/// set, and with 2 where a word can't be read.
pub(crate) fn get_outcome(alloc: Global, task: Task<'_>, ran: Ran) -> Outcome
    ensures { IsOutcome (task_seen task.entry) ran result }
{
    match ran {
        Ok(Ended::Answered(refused)) => Outcome {
            status: u8::from(refused),
            told: None,
        },
        Ok(Ended::Unreadable(line)) => Outcome {
            status: 2,
            told: Some(Told::Line(line)),
        },
        Ok(Ended::NamesMeet(line)) => Outcome {
            status: 1,
            told: Some(Told::Line(line)),
        },
        Err(refusal) => Outcome {
            status: 1,
            told: Some(get_told(alloc, &task, &refusal)),
        },
    }
}

/// How the program ends where words ask for nothing: with status 2 and why they don't, or where there is no memory for
/// that with 1.
fn get_misuse_outcome(alloc: Global, misuse: Misuse<'_>) -> Outcome
    ensures { IsMisuseOutcome (fault_seen misuse.entry) result }
{
    match get_misuse(alloc, misuse) {
        Ok(text) => Outcome {
            status: 2,
            told: Some(Told::Line(text)),
        },
        Err(error) => Outcome {
            status: 1,
            told: Some(Told::Number(error.kind)),
        },
    }
}

/// The task that words ask for; or how the program ends without one.
pub(crate) fn find_task<'a>(
    alloc: Global,
    words: &'a [String],
) -> std::result::Result<Task<'a>, Outcome>
    ensures task { IfOk result (λ t. asked_request (map string_bytes words.now) ≡ Ok (task_seen t)) }
    ensures ended { IfErr result (λ o. IsNotBegun (asked_request (map string_bytes words.now)) o) }
{
    match read_words(alloc, words) {
        Ok(Ok(task)) => Ok(task),
        Ok(Err(misuse)) => Err(get_misuse_outcome(alloc, misuse)),
        Err(error) => Err(Outcome {
            status: 1,
            told: Some(Told::Number(error.kind)),
        }),
    }
}
