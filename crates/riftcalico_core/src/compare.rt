//! What differs between two versions, in one direction or in both.
ghost use Rattle.std.specs.Prelude.{◌≡◌, ◌≢◌, ◌⊎◌, ◌&&◌, IfErr, IfOk, Some, string_bytes};
ghost use Rattle.std.specs.Option.{option_map};
ghost use Rattle.capnp_device.specs.declared.error.ErrorKind.TheVariants.{OutOfMemory};
ghost use Rattle.capnp_schema.specs.Entries.{lists_seen};
ghost use Rattle.capnp_schema.specs.Schema.{Schemas};
ghost use Rattle.capnp_versions.specs.Versions.{IsNotCompared, IsNotComparedAll};
ghost use Rattle.riftcalico_core.specs.Answers.{IsWritableOutput};
ghost use Rattle.riftcalico_core.specs.Comparisons.{AreNotCompared, AreReports, IsAskedReport, IsCompareAnswer, IsComparisonOutput, IsFullReport, IsNamedReport, IsNoReport, IsNotTold, IsReport, IsReportAnswer, IsReported, IsUncompared, both_text, compare_blamed};
ghost use Rattle.riftcalico_core.specs.Jobs.{IsNoSetIn, IsSetIn};

use crate::answer::{Answer, Output};
use crate::fault::{Blamed, Faulty, get_fault};
use crate::job::CompareJob;
use crate::schemas::read_set;
use capnp_schema::set::SchemaSet;
use capnp_versions::{compare, compare_all, get_named_report, get_report};
use capnp_wire::error::{Error, ErrorKind, Result};
use std::alloc::Global;

/// What is told of two versions, and whether the newer one follows the older one.
#[derive(Drop)]
pub struct Report {
    pub text: String,
    pub follows: bool,
}

/// What is to be looked at where two versions can't be compared.
pub(crate) fn compare_blamed(kind: ErrorKind) -> Blamed
    ensures { result ≡ compare_blamed kind }
{
    match kind {
        ErrorKind::NameNotFound => Blamed::Name,
        ErrorKind::OutOfMemory => Blamed::Output,
        _ => Blamed::Calls,
    }
}

/// What differs between the structs of a name in two sets. Refused as `capnp_versions::compare`.
fn report_named(
    alloc: Global,
    older: &SchemaSet,
    newer: &SchemaSet,
    name: &str,
    breaking_only: bool,
) -> Result<Report>
    ensures report { IfOk result (IsNamedReport breaking_only (lists_seen older.now) (lists_seen newer.now) name.now) }
    ensures refused { IfErr result (λ e. e.kind ≢ OutOfMemory
        → IsNotCompared (lists_seen older.now) (lists_seen newer.now) name.now e.kind) }
{
    let comparison = compare(alloc, older, newer, name)?;
    let text = get_named_report(alloc, &comparison, breaking_only)?;
    Ok(Report {
        text,
        follows: comparison.follows,
    })
}

/// What differs between all structs of two sets. Refused as `capnp_versions::compare_all`.
fn report_all(
    alloc: Global,
    older: &SchemaSet,
    newer: &SchemaSet,
    breaking_only: bool,
) -> Result<Report>
    ensures report { IfOk result (IsFullReport breaking_only (lists_seen older.now) (lists_seen newer.now)) }
    ensures refused { IfErr result (λ e. e.kind ≢ OutOfMemory
        → IsNotComparedAll (lists_seen older.now) (lists_seen newer.now) e.kind) }
{
    let comparison = compare_all(alloc, older, newer)?;
    let text = get_report(alloc, &comparison, breaking_only)?;
    Ok(Report {
        text,
        follows: comparison.incompatible == 0,
    })
}

/// What differs between a struct of two sets, or all structs.
fn report_sets(
    alloc: Global,
    older: &SchemaSet,
    newer: &SchemaSet,
    name: Option<&str>,
    breaking_only: bool,
) -> Result<Report>
    ensures report { IfOk result (IsReport breaking_only (lists_seen older.now) (lists_seen newer.now)
        (option_map (λ w. w.now) name.entry)) }
    ensures refused { IfErr result (λ e. e.kind ≢ OutOfMemory → AreNotCompared (lists_seen older.now)
        (lists_seen newer.now) (option_map (λ w. w.now) name.entry) e.kind) }
{
    match name {
        Some(name) => report_named(alloc, older, newer, name, breaking_only),
        None => report_all(alloc, older, newer, breaking_only),
    }
}

/// What is told of both directions, each behind a line that tells which. Refused with `OutOfMemory` alone.
fn join_texts(alloc: Global, first: &str, second: &str) -> Result<String>
    ensures joined { IfOk result (λ text. string_bytes text ≡ both_text first.now second.now) }
    ensures memory { IfErr result (λ e. e.kind ≡ OutOfMemory) }
{
    let mut text = String::new(alloc);
    text.push_str("old to new:\n")?;
    text.push_str(first)?;
    text.push_str("new to old:\n")?;
    text.push_str(second)?;
    Ok(text)
}

/// Whether both directions are compatible.
fn do_both_follow(forth: bool, back: bool) -> bool
    ensures { result ≡ forth && back }
{
    forth && back
}

/// What differs between a struct of two sets, or all structs, in both directions: also as if the older set were the newer
/// one.
fn report_both(
    alloc: Global,
    older: &SchemaSet,
    newer: &SchemaSet,
    name: Option<&str>,
    breaking_only: bool,
) -> Result<Report>
    ensures reports { IfOk result (AreReports breaking_only (lists_seen older.now) (lists_seen newer.now)
        (option_map (λ w. w.now) name.entry)) }
    ensures refused { IfErr result (λ e. e.kind ≢ OutOfMemory
        → AreNotCompared (lists_seen older.now) (lists_seen newer.now) (option_map (λ w. w.now) name.entry) e.kind
        ⊎ AreNotCompared (lists_seen newer.now) (lists_seen older.now) (option_map (λ w. w.now) name.entry) e.kind) }
{
    let forth = report_sets(alloc, older, newer, name, breaking_only)?;
    let back = report_sets(alloc, newer, older, name, breaking_only)?;
    let text = join_texts(alloc, forth.text.as_str(), back.text.as_str())?;
    Ok(Report {
        text,
        follows: do_both_follow(forth.follows, back.follows),
    })
}

/// What is asked of two sets.
fn report_asked(alloc: Global, job: &CompareJob<'_, '_>, newer: &SchemaSet) -> Result<Report>
    ensures report { IfOk result (IsAskedReport job.now.both job.now.breaking_only (lists_seen job.now.schemas.now)
        (lists_seen newer.now) (option_map (λ w. w.now) job.now.name)) }
    ensures refused { IfErr result (λ e. e.kind ≢ OutOfMemory → IsNoReport job.now.both (lists_seen job.now.schemas.now)
        (lists_seen newer.now) (option_map (λ w. w.now) job.now.name) e.kind) }
{
    if job.both {
        report_both(alloc, job.schemas, newer, job.name, job.breaking_only)
    } else {
        report_sets(alloc, job.schemas, newer, job.name, job.breaking_only)
    }
}

/// The text of a comparison, where more than the status is wanted.
fn get_comparison_output(quiet: bool, text: String) -> Output
    ensures written { IsComparisonOutput quiet (string_bytes text) result }
    ensures writable { IsWritableOutput result }
{
    if quiet {
        Output::Nothing
    } else {
        Output::Text(text)
    }
}

/// What is answered where this is told.
pub(crate) fn answer_report(alloc: Global, quiet: bool, report: Report) -> Answer
    ensures answer { IsReportAnswer quiet report result }
    ensures writable { IsWritableOutput result.output }
{
    let follows = report.follows;
    Answer {
        output: get_comparison_output(quiet, report.text),
        lines: String::new(alloc),
        refused: !follows,
    }
}

/// What is asked of the set in the bytes of the newer one.
fn report_versions(alloc: Global, job: &CompareJob<'_, '_>) -> Result<Report>
    ensures reported { IfOk result (IsReported job.now) }
    ensures refused { IfErr result (λ e. e.kind ≢ OutOfMemory → IsNoSetIn job.now.limit job.now.newer.now e
        ⊎ ((newer : Schemas) × IsSetIn job.now.limit job.now.newer.now newer
        × IsNoReport job.now.both (lists_seen job.now.schemas.now) newer (option_map (λ w. w.now) job.now.name) e.kind)) }
{
    let newer = read_set(alloc, job.newer, job.limit)?;
    match report_asked(alloc, job, &newer) {
        Ok(report) => Ok(report),
        Err(error) => Err(error),
    }
}

/// What differs between two versions, as text of at most so many bytes.
fn compare_versions(alloc: Global, job: &CompareJob<'_, '_>) -> Result<Answer>
    ensures answer { IfOk result (IsCompareAnswer job.now) }
    ensures writable { IfOk result (λ a. IsWritableOutput a.output) }
    ensures refused { IfErr result (λ e. e.kind ≢ OutOfMemory → IsNotTold job.now e) }
{
    let report = report_versions(alloc, job)?;
    if report.text.len() as u64 > job.limit {
        return Err(Error::from(ErrorKind::TooLarge));
    }
    Ok(answer_report(alloc, job.quiet, report))
}

/// What differs between two versions, or what is to be looked at.
pub(crate) fn answer_compare(alloc: Global, job: &CompareJob<'_, '_>) -> Faulty<Answer>
    ensures answer { IfOk result (IsCompareAnswer job.now) }
    ensures writable { IfOk result (λ a. IsWritableOutput a.output) }
    ensures refused { IfErr result (λ f. f.error.kind ≢ OutOfMemory → IsUncompared job.now f) }
    ensures blamed { IfErr result (λ f. f.blamed ≡ compare_blamed f.error.kind) }
{
    match compare_versions(alloc, job) {
        Ok(answer) => Ok(answer),
        Err(error) => Err(get_fault(alloc, error, compare_blamed(error.kind))),
    }
}
