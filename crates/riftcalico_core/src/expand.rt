//! Queries whose paths have steps `*`, as the queries of one path each that they stand for.
ghost use Rattle.std.specs.Prelude.{[], true, ◌≡◌, ◌≢◌, ◌⊎◌, ◌≤◌, ◌++◌, ◌∷◌, IfErr, IfOk, map};
ghost use Rattle.capnp_call.specs.Seen.{path_seen};
ghost use Rattle.capnp_device.specs.declared.error.ErrorKind.TheVariants.{OutOfMemory};
ghost use Rattle.capnp_queries.specs.Patterns.{is_pattern, listed};
ghost use Rattle.capnp_queries.specs.PatternsSeen.{paths_seen};
ghost use Rattle.capnp_schema.specs.StructHandles.{IsStruct};
ghost use Rattle.riftcalico_core.specs.Expanded.{AreAsked, HasManyPaths, IsNotAsked, IsStopTold, counted_paths, most_paths, paths_count, query_paths};
ghost use Rattle.riftcalico_core.specs.Queries.{query_of};
ghost use Rattle.riftcalico_core.specs.QueriesSeen.{asked_seen};
ghost use Rattle.riftcalico_core.specs.Steps.Told.{IsListingTold, IsQueryPut, IsStopNoted};
ghost use Rattle.riftcalico_core.specs.declared.fault.Blamed.TheVariants.{Input};

use crate::fault::{Blamed, Fault, Faulty, get_fault};
use crate::note::get_step_note;
use crate::queries::AskedQuery;
use capnp_call::calls::Step;
use capnp_patch::reach::RefusedStep;
use capnp_queries::patterns::{NotListed, RefusedPath, is_pattern, list_paths};
use capnp_schema::schema::StructSchema;
use capnp_wire::error::{Error, Result};
use std::alloc::Global;

/// The most paths of patterns that are listed, whatever the limit.
const MOST_PATHS: u64 = 16_777_216;

/// How many paths of patterns may be listed.
fn get_most_paths(limit: u64) -> u64
    ensures { result ≡ most_paths limit }
{
    if limit < MOST_PATHS {
        limit
    } else {
        MOST_PATHS
    }
}

/// How many of the paths of a query count.
fn count_paths(query: &AskedQuery<'_>, paths: &[Vec<Step<'_>>]) -> u64
    ensures { result ≡ paths_count (asked_seen query.now) (paths_seen paths.now) }
{
    if is_pattern(&query.steps) {
        paths.len() as u64
    } else {
        0
    }
}

/// The refusal of a step of a pattern, with its path; or that there is no memory for its note.
fn tell_stop(alloc: Global, refused: &RefusedPath<'_>) -> Fault
    ensures told { result.error.kind ≢ OutOfMemory → IsStopNoted refused.now result }
    ensures blamed { result.blamed ≡ Input }
{
    let error = Error::from(refused.kind);
    let step = RefusedStep {
        error,
        index: refused.steps.len().saturating_sub(1),
        within: refused.within,
    };
    match get_step_note(alloc, &refused.steps, step) {
        Ok(note) => Fault {
            error,
            blamed: Blamed::Input,
            note,
        },
        Err(error) => get_fault(alloc, error, Blamed::Input),
    }
}

/// Why there is no listing, with the place of a step; or that there is no memory for it.
fn explain_listing(alloc: Global, why: &NotListed<'_>) -> Fault
    ensures told { result.error.kind ≢ OutOfMemory → IsListingTold why.now result }
    ensures blamed { result.blamed ≡ Input }
{
    match why {
        NotListed::Refused(refused) => tell_stop(alloc, refused),
        NotListed::Unmade(kind) => get_fault(alloc, Error::from(*kind), Blamed::Input),
    }
}

/// A path alone. Refused with `OutOfMemory` alone.
fn list_one<'a>(alloc: Global, steps: &[Step<'a>]) -> Result<Vec<Vec<Step<'a>>>>
    ensures listed { IfOk result (λ paths. paths_seen paths.items ≡ path_seen steps.now ∷ []) }
    ensures memory { IfErr result (λ e. e.kind ≡ OutOfMemory) }
{
    let mut path = Vec::with_capacity(alloc, steps.len())?;
    path.extend_from_slice(steps)?;
    let mut paths = Vec::with_capacity(alloc, 1)?;
    paths.push(path)?;
    Ok(paths)
}

/// The paths of a pattern, of which there may be so many. Refused with the place, but for what is too many, and for memory.
fn list_pattern<'a>(
    alloc: Global,
    schema: StructSchema<'a>,
    query: &AskedQuery<'a>,
    left: u64,
    message: &'a [u8],
) -> Faulty<Vec<Vec<Step<'a>>>>
    requires stands { IsStruct schema }
    requires pattern { is_pattern (asked_seen query.now).path ≡ true }
    ensures listed { IfOk result (λ paths. query_paths schema.entry message.now (asked_seen query.now)
        ≡ listed (paths_seen paths.items)) }
    ensures few { IfOk result (λ paths. paths_count (asked_seen query.now) (paths_seen paths.items) ≤ left) }
    ensures refused { IfErr result (λ f. f.error.kind ≢ OutOfMemory
        → IsStopTold schema.entry message.now (asked_seen query.now) f
        ⊎ HasManyPaths left schema.entry message.now (asked_seen query.now) f) }
    ensures blamed { IfErr result (λ f. f.blamed ≡ Input) }
{
    match list_paths(alloc, schema, &query.steps, message, left) {
        Ok(paths) => Ok(paths),
        Err(why) => Err(explain_listing(alloc, &why)),
    }
}

/// The paths of a query: its own, or those of its pattern, of which there may be so many.
fn list_query<'a>(
    alloc: Global,
    schema: StructSchema<'a>,
    query: &AskedQuery<'a>,
    left: u64,
    message: &'a [u8],
) -> Faulty<Vec<Vec<Step<'a>>>>
    requires { IsStruct schema }
    ensures listed { IfOk result (λ paths. query_paths schema.entry message.now (asked_seen query.now)
        ≡ listed (paths_seen paths.items)) }
    ensures few { IfOk result (λ paths. paths_count (asked_seen query.now) (paths_seen paths.items) ≤ left) }
    ensures refused { IfErr result (λ f. f.error.kind ≢ OutOfMemory
        → IsStopTold schema.entry message.now (asked_seen query.now) f
        ⊎ HasManyPaths left schema.entry message.now (asked_seen query.now) f) }
    ensures blamed { IfErr result (λ f. f.blamed ≡ Input) }
{
    if is_pattern(&query.steps) {
        return list_pattern(alloc, schema, query, left, message);
    }
    match list_one(alloc, &query.steps) {
        Ok(paths) => Ok(paths),
        Err(error) => Err(get_fault(alloc, error, Blamed::Input)),
    }
}

/// Queries with those of some paths more. Refused with `OutOfMemory` alone.
fn put_paths<'a>(
    before: Vec<AskedQuery<'a>>,
    paths: Vec<Vec<Step<'a>>>,
    counts: bool,
) -> Result<Vec<AskedQuery<'a>>>
    ensures put { IfOk result (λ more. map asked_seen more.items
        ≡ map asked_seen before.entry.items ++ map (query_of counts) (paths_seen paths.entry.items)) }
    ensures memory { IfErr result (λ e. e.kind ≡ OutOfMemory) }
{
    let mut queries = before;
    for steps in paths {
        queries.push(AskedQuery { steps, counts })?;
    }
    Ok(queries)
}

/// Queries with those more that a query stands for, and how many paths of patterns may still be listed.
fn put_query<'a>(
    alloc: Global,
    schema: StructSchema<'a>,
    query: &AskedQuery<'a>,
    before: Vec<AskedQuery<'a>>,
    left: u64,
    message: &'a [u8],
) -> Faulty<(Vec<AskedQuery<'a>>, u64)>
    requires { IsStruct schema }
    ensures put { IfOk result (λ r. IsQueryPut left schema.entry message.now (asked_seen query.now)
        (map asked_seen before.entry.items) (map asked_seen r.0.items) r.1) }
    ensures refused { IfErr result (λ f. f.error.kind ≢ OutOfMemory
        → IsStopTold schema.entry message.now (asked_seen query.now) f
        ⊎ HasManyPaths left schema.entry message.now (asked_seen query.now) f) }
    ensures blamed { IfErr result (λ f. f.blamed ≡ Input) }
{
    let paths = match list_query(alloc, schema, query, left, message) {
        Ok(paths) => paths,
        Err(fault) => return Err(fault),
    };
    let count = count_paths(query, &paths);
    match put_paths(before, paths, query.counts) {
        Ok(queries) => Ok((queries, left - count)),
        Err(error) => Err(get_fault(alloc, error, Blamed::Input)),
    }
}

/// The queries of one path each that queries stand for, in their order: of a path with a step `*` those that
/// `capnp_queries::patterns::list_paths` lists, and of another one it alone, whether something stands there or not.
///
/// Refused as the first query that is: with the place where a step is refused, with `TooLarge` where patterns have more paths
/// than the limit or 2^24, and with `OutOfMemory`.
pub(crate) fn expand_queries<'a>(
    alloc: Global,
    schema: StructSchema<'a>,
    asked: &[AskedQuery<'a>],
    limit: u64,
    message: &'a [u8],
) -> Faulty<Vec<AskedQuery<'a>>>
    requires { IsStruct schema }
    ensures asked { IfOk result (λ queries. AreAsked (most_paths limit) schema.entry message.now
        (map asked_seen asked.now) (map asked_seen queries.items)) }
    ensures refused { IfErr result (λ f. f.error.kind ≢ OutOfMemory
        → IsNotAsked (most_paths limit) schema.entry message.now (map asked_seen asked.now) f) }
    ensures blamed { IfErr result (λ f. f.blamed ≡ Input) }
{
    let mut queries = Vec::new(alloc);
    let mut left = get_most_paths(limit);
    for index in 0..asked.len() {
        match put_query(alloc, schema, &asked[index], queries, left, message) {
            Ok((more, rest)) => {
                queries = more;
                left = rest;
            }
            Err(fault) => return Err(fault),
        }
    }
    Ok(queries)
}
