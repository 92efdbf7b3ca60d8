//! A field that is changed, by the path to it.
ghost use Rattle.std.specs.Prelude.{◌≡◌, IfErr, IfOk, OnOk, map};
ghost use Rattle.capnp_device.specs.declared.error.ErrorKind.TheVariants.{OutOfMemory};
ghost use Rattle.capnp_schema.specs.Schema.{Schemas};
ghost use Rattle.capnp_call.specs.Seen.{call_seen};
ghost use Rattle.capnp_diffs.specs.Found.{IsReady, change_call, goal_seen};
ghost use Rattle.capnp_diffs.specs.Steps.Adding.{Adds, one_change};

use capnp_call::calls::{Call, Op, Step};
use capnp_wire::error::Result;
use std::alloc::Global;

/// A field that is changed: the path to the struct or group that it is of, the field, and what is done to it.
#[derive(Drop)]
pub struct Change<'a> {
    pub path: Vec<Step<'a>>,
    pub last: Step<'a>,
    pub op: Op<'a>,
}

impl<'a> Change<'a> {
    /// The call that makes the change.
    pub fn as_call<'c>(&'c self) -> Call<'c>
        ensures { call_seen result ≡ change_call self.now }
    {
        Call {
            path: self.path.as_slice(),
            last: self.last,
            op: self.op,
        }
    }
}

/// The calls that make changes, in order. Refused with `OutOfMemory`.
pub fn as_calls<'c, 'a>(alloc: Global, changes: &'c [Change<'a>]) -> Result<Vec<Call<'c>>>
    ensures calls { IfOk result (λ calls. map call_seen calls.items ≡ map change_call changes.now) }
    ensures cause { IfErr result (λ e. e.kind ≡ OutOfMemory) }
{
    let mut calls = Vec::with_capacity(alloc, changes.len())?;
    for change in changes {
        calls.push(change.as_call())?;
    }
    Ok(calls)
}

/// Adds a change of what a step names at the end of a path.
#[tactic(auto, using(crate::proofs::Added::one_added))]
pub(crate) fn put_change<'a>(
    alloc: Global,
    path: &[Step<'a>],
    last: Step<'a>,
    op: Op<'a>,
    out: &mut Vec<Change<'a>>,
) -> Result<()>
    ensures added { OnOk result ((set : Schemas) → IsReady set op.entry
        → Adds set path.now out.old.items out.new.items (one_change last.entry (goal_seen op.entry))) }
    ensures cause { IfErr result (λ e. e.kind ≡ OutOfMemory) }
{
    let path = Vec::from_slice(alloc, path)?;
    out.push(Change { path, last, op })?;
    Ok(())
}
