//! The calls by which a text is made a value.
ghost use Rattle.std.specs.Prelude.{◌≡◌, IfErr, IfOk, OnOk, map};
ghost use Rattle.capnp_call.specs.Seen.{call_seen, op_seen};
ghost use Rattle.capnp_value_texts.specs.Made.{goal_op, made_call};
ghost use Rattle.capnp_value_texts.specs.Steps.Adding.{Adds, one_made};
ghost use Rattle.capnp_value_texts.specs.declared.error.Error.TheVariants.{OutOfMemory};

use crate::error::Error;
use capnp_call::calls::{Call, Op, Step};
use capnp_words::value::PlainValue;
use std::alloc::Global;

/// What is done to what a step names.
#[derive(Drop)]
pub enum Goal<'s> {
    /// It is set to a value.
    Put(PlainValue<'s>),
    /// A struct or group is begun.
    Init,
    /// A list of so many elements is begun.
    InitList(u32),
}

/// A call with what it owns: the path to the struct, group or list, the step from there, and what is done.
#[derive(Drop)]
pub struct Made<'s> {
    pub path: Vec<Step<'s>>,
    pub last: Step<'s>,
    pub goal: Goal<'s>,
}

/// The operation of a goal.
#[tactic(auto, using(crate::proofs::PlainGiven::plain_given))]
fn op_of<'c>(goal: &'c Goal<'_>) -> Op<'c>
    ensures { op_seen result ≡ goal_op goal.now }
{
    match goal {
        Goal::Put(value) => Op::Set(value.as_reader()),
        Goal::Init => Op::Init,
        Goal::InitList(count) => Op::Initn(*count),
    }
}

impl<'s> Made<'s> {
    /// The call.
    pub fn as_call<'c>(&'c self) -> Call<'c>
        ensures { call_seen result ≡ made_call self.now }
    {
        Call {
            path: self.path.as_slice(),
            last: self.last,
            op: op_of(&self.goal),
        }
    }
}

/// The calls, in order. Refused with `OutOfMemory` alone.
pub fn as_calls<'c, 's>(alloc: Global, made: &'c [Made<'s>]) -> Result<Vec<Call<'c>>, Error>
    ensures calls { IfOk result (λ calls. map call_seen calls.items ≡ map made_call made.now) }
    ensures memory { IfErr result (λ e. e ≡ OutOfMemory) }
{
    let Ok(mut calls) = Vec::with_capacity(alloc, made.len()) else {
        return Err(Error::OutOfMemory);
    };
    for one in made {
        if calls.push(one.as_call()).is_err() {
            return Err(Error::OutOfMemory);
        }
    }
    Ok(calls)
}

/// Adds a call to what a step names at the end of a path. Refused with `OutOfMemory` alone.
pub(crate) fn put_made<'s>(
    alloc: Global,
    path: &[Step<'s>],
    last: Step<'s>,
    goal: Goal<'s>,
    out: &mut Vec<Made<'s>>,
) -> Result<(), Error>
    ensures added { OnOk result (Adds path.now out.old.items out.new.items (one_made last.entry goal.entry)) }
    ensures memory { IfErr result (λ e. e ≡ OutOfMemory) }
{
    let Ok(path) = Vec::from_slice(alloc, path) else {
        return Err(Error::OutOfMemory);
    };
    if out.push(Made { path, last, goal }).is_err() {
        return Err(Error::OutOfMemory);
    }
    Ok(())
}
