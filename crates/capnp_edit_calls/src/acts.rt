//! Calls and edits in a row, and the appends that are made together.
ghost use Rattle.std.specs.Prelude.{IfOk, IfSome, true, ◌≡◌, ◌≤◌, drop, length, take, vec_len};
ghost use Rattle.capnp_call.specs.Seen.{path_seen, step_seen};
ghost use Rattle.capnp_edit_calls.specs.ActsMade.{AreAppends, IsAppendTo};
ghost use Rattle.capnp_edit_calls.specs.ChangesSeen.{sources_of};
ghost use Rattle.capnp_slots.specs.SetValues.{source_of};

use crate::change::Change;
use crate::copy::PathCopy;
use crate::edit::ListEdit;
use capnp_call::calls::{Call, Step};
use capnp_dynamic_readers::dynamic_value::Reader as Value;
use capnp_wire::error::Result;
use std::alloc::Global;

/// What is done in a run: a call of the machine, an edit of a list, or a copy.
#[derive(Clone, Copy)]
pub enum Act<'c> {
    Call(Call<'c>),
    Edit(ListEdit<'c>),
    Copy(PathCopy<'c>),
}

/// Whether two steps are the same. A field that one names and the other counts may be.
fn is_same_step(a: Step<'_>, b: Step<'_>) -> bool
    ensures { result ≡ true → step_seen a.entry ≡ step_seen b.entry }
{
    match a {
        Step::Field(i) => match b {
            Step::Field(j) => i == j,
            _ => false,
        },
        Step::Named(x) => match b {
            Step::Named(y) => x == y,
            _ => false,
        },
        Step::Element(i) => match b {
            Step::Element(j) => i == j,
            _ => false,
        },
    }
}

/// Whether two paths are the same, step by step.
fn is_same_path(a: &[Step<'_>], b: &[Step<'_>]) -> bool
    ensures { result ≡ true → path_seen a.now ≡ path_seen b.now }
{
    if a.len() != b.len() {
        return false;
    }
    for index in 0..a.len() {
        if !is_same_step(a[index], b[index]) {
            return false;
        }
    }
    true
}

/// The value that an act appends to the list at a path, where it does that with one.
fn value_to<'c>(act: Act<'c>, path: &[Step<'_>]) -> Option<Value<'c>>
    ensures { IfSome result (λ v. IsAppendTo (path_seen path.now) (source_of v) act.entry) }
{
    match act {
        Act::Call(_) => None,
        Act::Copy(_) => None,
        Act::Edit(edit) => match edit.change {
            Change::Append(values) => {
                if values.len() == 1 && is_same_path(edit.path, path) {
                    return Some(values[0]);
                }
                None
            }
            _ => None,
        },
    }
}

/// The values that the first acts append to the list at a path.
pub(crate) fn values_to<'c>(
    alloc: Global,
    acts: &[Act<'c>],
    path: &[Step<'_>],
) -> Result<Vec<Value<'c>>>
    ensures few { IfOk result (λ values. vec_len values ≤ length acts.now) }
    ensures appends { IfOk result (λ values. AreAppends (path_seen path.now) (sources_of values.items)
        (take (vec_len values) acts.now)) }
{
    let mut values = Vec::new(alloc);
    for index in 0..acts.len() {
        match value_to(acts[index], path) {
            Some(value) => values.push(value)?,
            None => return Ok(values),
        }
    }
    Ok(values)
}
