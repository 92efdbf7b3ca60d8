//! A plan under its set: the struct of its root, and the values of its calls.
ghost use Rattle.std.specs.Prelude.{◌≡◌, ◌≢◌, IfErr, IfOk, MatchResult, string_bytes};
ghost use Rattle.riftcalico_core.specs.declared.fault.Blamed.TheVariants.{Name};
ghost use Rattle.capnp_device.specs.declared.error.ErrorKind.TheVariants.{OutOfMemory};
ghost use Rattle.capnp_schema.specs.Entries.{lists_seen};
ghost use Rattle.riftcalico_core.specs.Jobs.{IsCallsJob, IsCheckJob, IsDiffJob, IsFromJsonJob, IsGetJob, IsJob, IsJsonJob, IsLineOfPlan, IsNamedStruct, IsNotNamed, IsRootUnnamed, IsValueUnread, is_packed, reads_texts, wants_input};
ghost use Rattle.riftcalico_core.specs.PlansSeen.{calls_plan_seen, check_plan_seen, diff_plan_seen, from_json_plan_seen, get_plan_seen, json_plan_seen, plan_seen};

use crate::calls::{ReadCall, read_all_calls, steps_of};
use crate::fault::{Blamed, Fault, Faulty, blame, get_fault};
use crate::near::get_near_structs;
use crate::plan::{CallsPlan, CheckPlan, DiffPlan, FromJsonPlan, GetPlan, JsonPlan, Plan, Told};
use crate::queries::{AskedQuery, make_queries};
use crate::schemas::find_schema;
use crate::wanted::get_wanted;
use crate::words::put_value_line;
use capnp_call::calls::Step;
use capnp_schema::schema::StructSchema;
use capnp_schema::set::SchemaSet;
use capnp_wire::error::Result;
use riftcalico_words::request::Verb;
use std::alloc::Global;

/// The texts of what is asked for by paths, whether texts and data are told as their bytes, whether lines begin with their
/// paths, whether the message comes packed, and the most bytes that the texts may have together.
#[derive(Drop)]
pub struct GetJob<'s, 'c> {
    pub schema: StructSchema<'s>,
    pub queries: Vec<AskedQuery<'c>>,
    pub raw: bool,
    pub with_paths: bool,
    pub indented: bool,
    pub packed: bool,
    pub limit: u64,
}

/// What is asked for by paths as JSON, whether the message comes packed, and the most bytes that the JSON may have together.
#[derive(Drop)]
pub struct JsonJob<'s, 'c> {
    pub schema: StructSchema<'s>,
    pub queries: Vec<AskedQuery<'c>>,
    pub indented: bool,
    pub packed: bool,
    pub limit: u64,
}

/// A JSON text that is made a message, whether names that a struct lacks are refused, whether the message is packed, and the
/// most bytes that it may have.
#[derive(Clone, Copy)]
pub struct FromJsonJob<'s> {
    pub schema: StructSchema<'s>,
    pub strict: bool,
    pub packed: bool,
    pub limit: u64,
}

/// Whether what stands at a path can be shown, or where it can't, first or everywhere; whether the message comes packed; and
/// the most parts that may be looked at.
#[derive(Drop)]
pub struct CheckJob<'s, 'c> {
    pub schema: StructSchema<'s>,
    pub steps: Vec<Step<'c>>,
    pub all: bool,
    pub packed: bool,
    pub limit: u64,
}

/// Calls with their values, each with its word, whether what they leave is written where one is refused, whether messages
/// come and go packed, and the most bytes that one may have that is made.
#[derive(Drop)]
pub struct CallsJob<'s, 'c, 'w> {
    pub schema: StructSchema<'s>,
    pub calls: Vec<ReadCall<'s, 'c>>,
    pub words: &'c [&'w str],
    pub keep_going: bool,
    pub packed: bool,
    pub limit: u64,
}

/// The struct of a name or all structs, which are compared with those of the set in these bytes; whether only the status is
/// wanted, whether only what breaks is told, whether they are compared in both directions, and the most bytes that the text
/// may have.
#[derive(Clone, Copy)]
pub struct CompareJob<'s, 'c> {
    pub schemas: &'s SchemaSet,
    pub name: Option<&'c str>,
    pub newer: &'c [u8],
    pub quiet: bool,
    pub breaking_only: bool,
    pub both: bool,
    pub limit: u64,
}

/// The struct of a root, the bytes of a newer message of it, to which calls lead from the message that is read, whether both
/// come packed, and the most bytes that the lines may have together.
#[derive(Clone, Copy)]
pub struct DiffJob<'s, 'c> {
    pub schema: StructSchema<'s>,
    pub newer: &'c [u8],
    pub packed: bool,
    pub limit: u64,
}

/// What is done to a message.
#[derive(Drop)]
pub enum Job<'s, 'c, 'w> {
    /// Values of it are shown.
    Get(GetJob<'s, 'c>),
    /// Values of it are shown as JSON.
    Json(JsonJob<'s, 'c>),
    /// It is a JSON text, which is made a message.
    FromJson(FromJsonJob<'s>),
    /// A value of it is looked at, whether it can be shown.
    Check(CheckJob<'s, 'c>),
    /// Calls are made on a copy of it.
    Patch(CallsJob<'s, 'c, 'w>),
    /// Calls are made on an empty root, and no message is read.
    New(CallsJob<'s, 'c, 'w>),
    /// The structs of a set are shown, in so many bytes at most, and no message is read.
    Structs(&'s SchemaSet, u64),
    /// The fields of a struct are shown, in so many bytes at most, and no message is read.
    Fields(StructSchema<'s>, u64),
    /// It is a compiler's request, which is made a set of so many bytes at most; whether floats and interfaces are refused.
    Convert(bool, u64),
    /// Two versions of a struct or of all are compared, and no message is read.
    Compatible(CompareJob<'s, 'c>),
    /// The calls that make it into a newer one are told.
    Diff(DiffJob<'s, 'c>),
    /// Help is told, of all or of a verb, and no message is read.
    Help(Option<Verb>),
    /// The version is told, and no message is read.
    Version,
}

impl Job<'_, '_, '_> {
    /// Whether the message that is read comes packed.
    pub fn is_packed(&self) -> bool
        ensures { result ≡ is_packed self.now }
    {
        match self {
            Job::Get(job) => job.packed,
            Job::Json(job) => job.packed,
            Job::Check(job) => job.packed,
            Job::Patch(job) => job.packed,
            Job::Diff(job) => job.packed,
            Job::FromJson(_)
            | Job::New(_)
            | Job::Structs(_, _)
            | Job::Fields(_, _)
            | Job::Convert(_, _)
            | Job::Compatible(_)
            | Job::Help(_)
            | Job::Version => false,
        }
    }

    /// Whether it is a text that is read, of which several stand each on a line.
    pub fn reads_texts(&self) -> bool
        ensures { result ≡ reads_texts self.now }
    {
        match self {
            Job::FromJson(_) => true,
            _ => false,
        }
    }

    /// Whether a message is read.
    pub fn wants_input(&self) -> bool
        ensures { result ≡ wants_input self.now }
    {
        match self {
            Job::Get(_)
            | Job::Json(_)
            | Job::FromJson(_)
            | Job::Check(_)
            | Job::Patch(_)
            | Job::Diff(_)
            | Job::Convert(_, _) => true,
            Job::New(_)
            | Job::Structs(_, _)
            | Job::Fields(_, _)
            | Job::Compatible(_)
            | Job::Help(_)
            | Job::Version => false,
        }
    }
}

/// The struct of a root. Refused with `NameNotFound`, and then the note tells the structs that may have been meant; and
/// with `OutOfMemory`, where there is none for that.
fn find_root<'s>(alloc: Global, schemas: &'s SchemaSet, name: &str) -> Faulty<StructSchema<'s>>
    ensures found { IfOk result (IsNamedStruct (lists_seen schemas.now) name.now) }
    ensures missing { IfErr result (λ f. f.error.kind ≢ OutOfMemory
        → IsNotNamed (lists_seen schemas.now) name.now f) }
    ensures blamed { IfErr result (λ f. f.blamed ≡ Name) }
{
    match find_schema(schemas, name) {
        Ok(schema) => Ok(schema),
        Err(error) => match get_near_structs(alloc, schemas, name) {
            Ok(note) => Err(Fault {
                error,
                blamed: Blamed::Name,
                note,
            }),
            Err(error) => Err(get_fault(alloc, error, Blamed::Name)),
        },
    }
}

/// Values that are shown, under the struct of their root. Refused as `find_root`, and with `OutOfMemory`.
fn find_get_job<'s, 'c>(
    alloc: Global,
    schemas: &'s SchemaSet,
    plan: &'c GetPlan<'_>,
) -> Faulty<GetJob<'s, 'c>>
    ensures job { IfOk result (IsGetJob (get_plan_seen plan.now) (lists_seen schemas.now)) }
    ensures refused { IfErr result (λ f. f.error.kind ≢ OutOfMemory
        → IsNotNamed (lists_seen schemas.now) (get_plan_seen plan.now).root.name f) }
    ensures blamed { IfErr result (λ f. f.blamed ≡ Name) }
{
    let schema = find_root(alloc, schemas, plan.root.name)?;
    let queries = blame(alloc, make_queries(alloc, &plan.queries), Blamed::Name)?;
    Ok(GetJob {
        schema,
        queries,
        raw: plan.raw,
        with_paths: plan.with_paths,
        indented: plan.indented,
        packed: plan.packed,
        limit: plan.limit,
    })
}

/// A JSON text under the struct of its root's name. Refused with `NameNotFound`, with the near names, and `OutOfMemory`.
fn find_from_json_job<'s>(
    alloc: Global,
    schemas: &'s SchemaSet,
    plan: FromJsonPlan<'_>,
) -> Faulty<FromJsonJob<'s>>
    ensures job { IfOk result (IsFromJsonJob (from_json_plan_seen plan.entry) (lists_seen schemas.now)) }
    ensures refused { IfErr result (λ f. f.error.kind ≢ OutOfMemory
        → IsNotNamed (lists_seen schemas.now) (from_json_plan_seen plan.entry).root.name f) }
    ensures blamed { IfErr result (λ f. f.blamed ≡ Name) }
{
    let schema = find_root(alloc, schemas, plan.root.name)?;
    Ok(FromJsonJob {
        schema,
        strict: plan.strict,
        packed: plan.packed,
        limit: plan.limit,
    })
}

/// Values that are shown as JSON, under the struct of their root. Refused as `find_root`, and with `OutOfMemory`.
fn find_json_job<'s, 'c>(
    alloc: Global,
    schemas: &'s SchemaSet,
    plan: &'c JsonPlan<'_>,
) -> Faulty<JsonJob<'s, 'c>>
    ensures job { IfOk result (IsJsonJob (json_plan_seen plan.now) (lists_seen schemas.now)) }
    ensures refused { IfErr result (λ f. f.error.kind ≢ OutOfMemory
        → IsNotNamed (lists_seen schemas.now) (json_plan_seen plan.now).root.name f) }
    ensures blamed { IfErr result (λ f. f.blamed ≡ Name) }
{
    let schema = find_root(alloc, schemas, plan.root.name)?;
    let queries = blame(alloc, make_queries(alloc, &plan.queries), Blamed::Name)?;
    Ok(JsonJob {
        schema,
        queries,
        indented: plan.indented,
        packed: plan.packed,
        limit: plan.limit,
    })
}

/// A value that is looked at, under the struct of its root. Refused as `find_root`, and with `OutOfMemory`.
fn find_check_job<'s, 'c>(
    alloc: Global,
    schemas: &'s SchemaSet,
    plan: &'c CheckPlan<'_>,
) -> Faulty<CheckJob<'s, 'c>>
    ensures job { IfOk result (IsCheckJob (check_plan_seen plan.now) (lists_seen schemas.now)) }
    ensures refused { IfErr result (λ f. f.error.kind ≢ OutOfMemory
        → IsNotNamed (lists_seen schemas.now) (check_plan_seen plan.now).root.name f) }
    ensures blamed { IfErr result (λ f. f.blamed ≡ Name) }
{
    let schema = find_root(alloc, schemas, plan.root.name)?;
    let steps = blame(alloc, steps_of(alloc, &plan.path), Blamed::Name)?;
    Ok(CheckJob {
        schema,
        steps,
        all: plan.all,
        packed: plan.packed,
        limit: plan.limit,
    })
}

/// A newer message under the struct of both. Refused with `NameNotFound`, with the near names, and `OutOfMemory`.
fn find_diff_job<'s, 'c>(
    alloc: Global,
    schemas: &'s SchemaSet,
    plan: DiffPlan<'c>,
) -> Faulty<DiffJob<'s, 'c>>
    ensures job { IfOk result (IsDiffJob (diff_plan_seen plan.entry) (lists_seen schemas.now)) }
    ensures refused { IfErr result (λ f. f.error.kind ≢ OutOfMemory
        → IsNotNamed (lists_seen schemas.now) (diff_plan_seen plan.entry).root.name f) }
    ensures blamed { IfErr result (λ f. f.blamed ≡ Name) }
{
    let schema = find_root(alloc, schemas, plan.root.name)?;
    Ok(DiffJob {
        schema,
        newer: plan.newer,
        packed: plan.packed,
        limit: plan.limit,
    })
}

/// Calls under a struct, or the line of the first whose value can't be read. Refused with `OutOfMemory` alone.
fn read_under<'s, 'c, 'w>(
    alloc: Global,
    schemas: &'s SchemaSet,
    schema: StructSchema<'s>,
    plan: &'c CallsPlan<'w>,
) -> Result<Told<CallsJob<'s, 'c, 'w>>>
    requires { IsNamedStruct (lists_seen schemas.now) (calls_plan_seen plan.now).root.name schema }
    ensures job { IfOk result (λ r. MatchResult r (IsCallsJob (calls_plan_seen plan.now) (lists_seen schemas.now))
        (λ line. IsValueUnread (calls_plan_seen plan.now) (lists_seen schemas.now) (string_bytes line))) }
    ensures memory { IfErr result (λ e. e.kind ≡ OutOfMemory) }
{
    match read_all_calls(alloc, schema, plan.texts.as_slice())? {
        Ok(calls) => Ok(Ok(CallsJob {
            schema,
            calls,
            words: plan.words.as_slice(),
            keep_going: plan.keep_going,
            packed: plan.packed,
            limit: plan.limit,
        })),
        Err(at) => {
            let note = get_wanted(alloc, schema, &plan.texts[at.index])?;
            let line = put_value_line(alloc, plan.words.as_slice(), at, note.as_str())?;
            Ok(Err(line))
        }
    }
}

/// Calls under the struct of their root, or the line of the first whose value can't be read. Refused as `find_root`,
/// and with `OutOfMemory`.
fn find_calls_job<'s, 'c, 'w>(
    alloc: Global,
    schemas: &'s SchemaSet,
    plan: &'c CallsPlan<'w>,
) -> Faulty<Told<CallsJob<'s, 'c, 'w>>>
    ensures job { IfOk result (λ r. MatchResult r (IsCallsJob (calls_plan_seen plan.now) (lists_seen schemas.now))
        (λ line. IsValueUnread (calls_plan_seen plan.now) (lists_seen schemas.now) (string_bytes line))) }
    ensures refused { IfErr result (λ f. f.error.kind ≢ OutOfMemory
        → IsNotNamed (lists_seen schemas.now) (calls_plan_seen plan.now).root.name f) }
    ensures blamed { IfErr result (λ f. f.blamed ≡ Name) }
{
    let schema = find_root(alloc, schemas, plan.root.name)?;
    let job = read_under(alloc, schemas, schema, plan);
    blame(alloc, job, Blamed::Name)
}

/// A plan under its set, or the line that tells which value of its calls can't be read.
///
/// Refused with `NameNotFound` where the set has no struct of the root's name, with those that may have been meant, and
/// with `OutOfMemory`.
pub fn find_job<'s, 'c, 'w>(
    alloc: Global,
    schemas: &'s SchemaSet,
    plan: &'c Plan<'w>,
) -> Faulty<Told<Job<'s, 'c, 'w>>>
    ensures job { IfOk result (λ r. MatchResult r (IsJob (plan_seen plan.now) (lists_seen schemas.now))
        (λ line. IsLineOfPlan (plan_seen plan.now) (lists_seen schemas.now) (string_bytes line))) }
    ensures refused { IfErr result (λ f. f.error.kind ≢ OutOfMemory
        → IsRootUnnamed (plan_seen plan.now) (lists_seen schemas.now) f) }
    ensures blamed { IfErr result (λ f. f.blamed ≡ Name) }
{
    match plan {
        Plan::Get(plan) => Ok(Ok(Job::Get(find_get_job(alloc, schemas, plan)?))),
        Plan::Json(plan) => Ok(Ok(Job::Json(find_json_job(alloc, schemas, plan)?))),
        Plan::FromJson(plan) => {
            let job = find_from_json_job(alloc, schemas, *plan)?;
            Ok(Ok(Job::FromJson(job)))
        }
        Plan::Check(plan) => Ok(Ok(Job::Check(find_check_job(alloc, schemas, plan)?))),
        Plan::Patch(plan) => match find_calls_job(alloc, schemas, plan)? {
            Ok(job) => Ok(Ok(Job::Patch(job))),
            Err(line) => Ok(Err(line)),
        },
        Plan::New(plan) => match find_calls_job(alloc, schemas, plan)? {
            Ok(job) => Ok(Ok(Job::New(job))),
            Err(line) => Ok(Err(line)),
        },
        Plan::Structs(_, limit) => Ok(Ok(Job::Structs(schemas, *limit))),
        Plan::Fields(root, limit) => {
            let schema = find_root(alloc, schemas, root.name)?;
            Ok(Ok(Job::Fields(schema, *limit)))
        }
        Plan::Convert(strict, limit) => Ok(Ok(Job::Convert(*strict, *limit))),
        Plan::Compatible(plan) => Ok(Ok(Job::Compatible(CompareJob {
            schemas,
            name: plan.name,
            newer: plan.newer,
            quiet: plan.quiet,
            breaking_only: plan.breaking_only,
            both: plan.both,
            limit: plan.limit,
        }))),
        Plan::Diff(plan) => {
            let job = find_diff_job(alloc, schemas, *plan)?;
            Ok(Ok(Job::Diff(job)))
        }
        Plan::Help(verb) => Ok(Ok(Job::Help(*verb))),
        Plan::Version => Ok(Ok(Job::Version)),
    }
}
