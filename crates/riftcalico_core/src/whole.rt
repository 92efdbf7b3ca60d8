//! All structs of two versions, compared in one direction: both sets are taken apart for that, and nothing of them is copied.
ghost use Rattle.std.specs.Prelude.{[], ◌≡◌, ◌≢◌, ◌⊎◌, IfErr, IfOk, IfSome, is_some};
ghost use Rattle.capnp_device.specs.declared.error.ErrorKind.TheVariants.{OutOfMemory};
ghost use Rattle.capnp_schema.specs.Entries.{lists_seen};
ghost use Rattle.capnp_schema.specs.Schema.{Schemas};
ghost use Rattle.capnp_versions.specs.Versions.{IsNotComparedAll};
ghost use Rattle.riftcalico_core.specs.Answers.{IsAnswer, IsBlamed, IsNoAnswer, IsWritableOutput};
ghost use Rattle.riftcalico_core.specs.Comparisons.{IsFullReport, compare_blamed};
ghost use Rattle.riftcalico_core.specs.Jobs.{IsNoSetIn, IsSetIn};
ghost use Rattle.riftcalico_core.specs.Plans.{compatible_plan};
ghost use Rattle.riftcalico_core.specs.PlansSeen.{plan_seen};
ghost use Rattle.riftcalico_core.specs.Steps.Whole.{IsUncomparedWhole, IsWholeAnswer, IsWholeReport};
ghost use Rattle.riftcalico_core.specs.Whole.{OfItsJobs, compares_whole, whole_plan_seen};

use crate::answer::Answer;
use crate::compare::{Report, answer_report, compare_blamed};
use crate::fault::{Faulty, get_fault};
use crate::plan::Plan;
use crate::schemas::read_set;
use capnp_schema::set::SchemaSet;
use capnp_versions::{compare_all_owned, get_report};
use capnp_wire::error::{Error, ErrorKind, Result};
use std::alloc::Global;

/// The set in these bytes, with all structs of which those of an older one are compared; whether only the status is wanted,
/// whether only what breaks is told, and the most bytes that the text may have.
#[derive(Clone, Copy)]
pub struct WholePlan<'a> {
    pub newer: &'a [u8],
    pub quiet: bool,
    pub breaking_only: bool,
    pub limit: u64,
}

/// What a plan asks, where it is to compare all structs of two versions in one direction.
pub fn get_whole_plan<'a>(plan: &Plan<'a>) -> Option<WholePlan<'a>>
    ensures asked { is_some result ≡ compares_whole (plan_seen plan.now) }
    ensures plan { IfSome result (λ w. plan_seen plan.now ≡ compatible_plan (whole_plan_seen w)) }
{
    let Plan::Compatible(plan) = plan else {
        return None;
    };
    if plan.both {
        return None;
    }
    match plan.name {
        Some(_) => None,
        None => Some(WholePlan {
            newer: plan.newer,
            quiet: plan.quiet,
            breaking_only: plan.breaking_only,
            limit: plan.limit,
        }),
    }
}

/// What differs between all structs of two sets. Refused as `capnp_versions::compare_all_owned`.
fn report_owned(
    alloc: Global,
    older: SchemaSet,
    newer: SchemaSet,
    breaking_only: bool,
) -> Result<Report>
    ensures report { IfOk result (IsFullReport breaking_only (lists_seen older) (lists_seen newer)) }
    ensures refused { IfErr result (λ e. e.kind ≢ OutOfMemory
        → IsNotComparedAll (lists_seen older) (lists_seen newer) e.kind) }
{
    let comparison = compare_all_owned(alloc, older, newer)?;
    let text = get_report(alloc, &comparison, breaking_only)?;
    Ok(Report {
        text,
        follows: comparison.incompatible == 0,
    })
}

/// What differs between all structs of an older set and the newer one in the bytes of a plan.
fn report_whole(alloc: Global, older: SchemaSet, plan: WholePlan<'_>) -> Result<Report>
    ensures reported { IfOk result (IsWholeReport (lists_seen older) plan.entry) }
    ensures refused { IfErr result (λ e. e.kind ≢ OutOfMemory → IsNoSetIn plan.entry.limit plan.entry.newer.now e
        ⊎ ((newer : Schemas) × IsSetIn plan.entry.limit plan.entry.newer.now newer
        × IsNotComparedAll (lists_seen older) newer e.kind)) }
{
    let newer = read_set(alloc, plan.newer, plan.limit)?;
    match report_owned(alloc, older, newer, plan.breaking_only) {
        Ok(report) => Ok(report),
        Err(error) => Err(error),
    }
}

/// What differs between two versions, as text of at most so many bytes.
fn compare_whole(alloc: Global, older: SchemaSet, plan: WholePlan<'_>) -> Result<Answer>
    ensures answer { IfOk result (IsWholeAnswer (lists_seen older) plan.entry) }
    ensures writable { IfOk result (λ a. IsWritableOutput a.output) }
    ensures refused { IfErr result (λ e. e.kind ≢ OutOfMemory → IsUncomparedWhole (lists_seen older) plan.entry e) }
{
    let report = report_whole(alloc, older, plan)?;
    if report.text.len() as u64 > plan.limit {
        return Err(Error::from(ErrorKind::TooLarge));
    }
    Ok(answer_report(alloc, plan.quiet, report))
}

/// What `get_answer` answers to the job of such a plan under a set, which is gone then.
///
/// Refused as that too: with `OutOfMemory`, where the newer set is none or the two can't be joined, and with `TooLarge` past
/// the limit.
pub fn answer_whole(alloc: Global, older: SchemaSet, plan: WholePlan<'_>) -> Faulty<Answer>
    ensures answer { IfOk result (λ a. OfItsJobs plan.entry (lists_seen older) (λ j. IsAnswer j [] a)) }
    ensures writable { IfOk result (λ a. IsWritableOutput a.output) }
    ensures refused { IfErr result (λ f. f.error.kind ≢ OutOfMemory
        → OfItsJobs plan.entry (lists_seen older) (λ j. IsNoAnswer j [] f)) }
    ensures blamed { IfErr result (λ f. OfItsJobs plan.entry (lists_seen older) (λ j. IsBlamed j f.error.kind f.blamed)) }
{
    match compare_whole(alloc, older, plan) {
        Ok(answer) => Ok(answer),
        Err(error) => Err(get_fault(alloc, error, compare_blamed(error.kind))),
    }
}
