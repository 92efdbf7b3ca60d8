//! What is to be done, once its words are read.
ghost use Rattle.std.specs.Prelude.{◌≡◌, IfErr, IfOk, map};
ghost use Rattle.std.specs.Option.{option_map};
ghost use Rattle.std.specs.Str.{is_utf8};
ghost use Rattle.capnp_device.specs.declared.error.ErrorKind.TheVariants.{OutOfMemory};
ghost use Rattle.riftcalico_core.specs.Plans.{calls_file, calls_plan_of, check_plan_of, get_plan_of, given_file, given_plan, json_plan_of, or_usage, plan_limit, task_plan, text_plan, words_plan};
ghost use Rattle.riftcalico_core.specs.PlansSeen.{plan_seen, told_plan};
ghost use Rattle.riftcalico_core.specs.Steps.Plans.{told_calls, told_calls_plan, told_check_plan, told_get_plan, told_json_plan};
ghost use Rattle.riftcalico_words.specs.RequestSeen.{calls_task_of, check_task_of, get_task_of, given_of, json_task_of, task_seen};

use crate::calls::read_calls;
use crate::queries::{QueryWord, read_queries};
use crate::words::{put_no_text, put_unreadable, put_word_line, split_lines};
use capnp_wire::error::Result;
use capnp_words::call::CallWord;
use capnp_words::path::{Path, parse_path};
use riftcalico_words::request::{
    CallWords, CallsRequest, CheckRequest, GetRequest, JsonRequest, NamedRoot, Task, Verb,
};
use riftcalico_words::usage::get_verb_usage;
use std::alloc::Global;
use std::str;

/// A value, or the line that tells what can't be read.
pub type Told<T> = std::result::Result<T, String>;

/// What is asked for by paths of a root, whether texts and data are told as their bytes, and whether lines begin with their
/// paths.
#[derive(Drop)]
pub struct GetPlan<'a> {
    pub root: NamedRoot<'a>,
    pub queries: Vec<QueryWord>,
    pub raw: bool,
    pub with_paths: bool,
    pub indented: bool,
    pub packed: bool,
    pub limit: u64,
}

/// What is asked for by paths of a root, as JSON.
#[derive(Drop)]
pub struct JsonPlan<'a> {
    pub root: NamedRoot<'a>,
    pub queries: Vec<QueryWord>,
    pub indented: bool,
    pub packed: bool,
    pub limit: u64,
}

/// A JSON text that is made a message of a root.
#[derive(Clone, Copy)]
pub struct FromJsonPlan<'a> {
    pub root: NamedRoot<'a>,
    pub strict: bool,
    pub packed: bool,
    pub limit: u64,
}

/// The value at a path of a root, whether it can be shown, or where it can't, first or everywhere.
#[derive(Drop)]
pub struct CheckPlan<'a> {
    pub root: NamedRoot<'a>,
    pub path: Path,
    pub all: bool,
    pub packed: bool,
    pub limit: u64,
}

/// Calls on a root, each with its word, and whether what they leave is written where one was refused.
#[derive(Drop)]
pub struct CallsPlan<'a> {
    pub root: NamedRoot<'a>,
    pub texts: Vec<CallWord>,
    pub words: Vec<&'a str>,
    pub keep_going: bool,
    pub packed: bool,
    pub limit: u64,
}

/// The struct of a name or all structs, which are compared with those of the set in these bytes; whether only the status is
/// wanted, whether only what breaks is told, whether they are compared in both directions, and the most bytes that the text
/// may have.
#[derive(Clone, Copy)]
pub struct ComparePlan<'a> {
    pub name: Option<&'a str>,
    pub newer: &'a [u8],
    pub quiet: bool,
    pub breaking_only: bool,
    pub both: bool,
    pub limit: u64,
}

/// The struct of a root, the bytes of a newer message of it, to which calls lead from an older one, whether both come packed,
/// and the most bytes that the lines may have together.
#[derive(Clone, Copy)]
pub struct DiffPlan<'a> {
    pub root: NamedRoot<'a>,
    pub newer: &'a [u8],
    pub packed: bool,
    pub limit: u64,
}

/// What is to be done.
#[derive(Drop)]
pub enum Plan<'a> {
    /// What is asked for by paths is shown.
    Get(GetPlan<'a>),
    /// What is asked for by paths is shown as JSON.
    Json(JsonPlan<'a>),
    /// A JSON text is made a message.
    FromJson(FromJsonPlan<'a>),
    /// The value at a path is looked at, whether it can be shown.
    Check(CheckPlan<'a>),
    /// Calls are made on a copy of a message.
    Patch(CallsPlan<'a>),
    /// Calls are made on an empty root.
    New(CallsPlan<'a>),
    /// The structs of the set that a file holds are shown, or else of the built-in one, in so many bytes at most.
    Structs(Option<&'a str>, u64),
    /// The fields of a struct are shown, in so many bytes at most.
    Fields(NamedRoot<'a>, u64),
    /// A compiler's request is made a set of so many bytes at most; whether floats and interfaces are refused.
    Convert(bool, u64),
    /// Two versions of a struct or of all are compared.
    Compatible(ComparePlan<'a>),
    /// The calls that make one message into another are told.
    Diff(DiffPlan<'a>),
    /// Help is told, of all or of a verb.
    Help(Option<Verb>),
    /// The version is told.
    Version,
}

impl Plan<'_> {
    /// The most bytes or parts that may be made or looked at; of what makes nothing none.
    pub fn get_limit(&self) -> u64
        ensures { result ≡ plan_limit (plan_seen self.now) }
    {
        match self {
            Plan::Get(plan) => plan.limit,
            Plan::Json(plan) => plan.limit,
            Plan::FromJson(plan) => plan.limit,
            Plan::Check(plan) => plan.limit,
            Plan::Patch(plan) => plan.limit,
            Plan::New(plan) => plan.limit,
            Plan::Structs(_, limit) => *limit,
            Plan::Fields(_, limit) => *limit,
            Plan::Convert(_, limit) => *limit,
            Plan::Compatible(plan) => plan.limit,
            Plan::Diff(plan) => plan.limit,
            Plan::Help(_) | Plan::Version => 0,
        }
    }
}

/// The file whose lines the calls are.
fn get_given_file<'a>(calls: &CallWords<'a>) -> Option<&'a str>
    ensures { option_map (λ f. f.now) result ≡ given_file (given_of calls.now) }
{
    match calls {
        CallWords::Lines(path) => Some(*path),
        CallWords::Words(_) => None,
    }
}

/// The file of a task's calls, or of the newer of two sets or messages.
pub fn get_calls_file<'a>(task: &Task<'a>) -> Option<&'a str>
    ensures { option_map (λ f. f.now) result ≡ calls_file (task_seen task.now) }
{
    match task {
        Task::Patch(request) | Task::New(request) => get_given_file(&request.calls),
        Task::Compatible(request) => Some(request.newer),
        Task::Diff(request) => Some(request.new),
        Task::Get(_)
        | Task::Json(_)
        | Task::FromJson(_)
        | Task::Check(_)
        | Task::Structs(_, _)
        | Task::Fields(_, _)
        | Task::Convert(_, _)
        | Task::Help(_)
        | Task::Version => None,
    }
}

/// The calls that words say, or the line of the first that says none. Refused with `OutOfMemory` alone.
fn read_words<'a>(alloc: Global, words: Vec<&'a str>) -> Result<Told<(Vec<CallWord>, Vec<&'a str>)>>
    ensures said { IfOk result (λ r. told_calls r ≡ words_plan (map (λ w. w.now) words.entry.items)) }
    ensures memory { IfErr result (λ e. e.kind ≡ OutOfMemory) }
{
    match read_calls(alloc, &words)? {
        Ok(texts) => Ok(Ok((texts, words))),
        Err(at) => Ok(Err(put_word_line(alloc, &words, at)?)),
    }
}

/// The calls that the lines of a file say, or the line that tells what in it can't be read. Refused with `OutOfMemory`
/// alone.
#[tactic(auto, using(crate::proofs::Texts::text_is, crate::proofs::Texts::no_text_is))]
fn read_text<'a>(
    alloc: Global,
    path: &str,
    file: &'a [u8],
) -> Result<Told<(Vec<CallWord>, Vec<&'a str>)>>
    ensures said { IfOk result (λ r. told_calls r ≡ text_plan (is_utf8 file.now) path.now file.now) }
    ensures memory { IfErr result (λ e. e.kind ≡ OutOfMemory) }
{
    match str::from_utf8(file) {
        Ok(text) => {
            let words = split_lines(alloc, text)?;
            read_words(alloc, words)
        }
        Err(error) => {
            let place = error.valid_up_to();
            let line = put_no_text(alloc, path, place)?;
            Ok(Err(line))
        }
    }
}

/// The calls that words of a command line say, or the line of the first that says none and how the verb is called: quotes
/// may have been forgotten. Refused with `OutOfMemory` alone.
fn read_argument_words<'a>(
    alloc: Global,
    verb: Verb,
    words: &[&'a str],
) -> Result<Told<(Vec<CallWord>, Vec<&'a str>)>>
    ensures said { IfOk result (λ r. told_calls r ≡ or_usage verb (words_plan (map (λ w. w.now) words.now))) }
    ensures memory { IfErr result (λ e. e.kind ≡ OutOfMemory) }
{
    let mut list = Vec::with_capacity(alloc, words.len())?;
    list.extend_from_slice(words)?;
    match read_words(alloc, list)? {
        Ok(said) => Ok(Ok(said)),
        Err(mut line) => {
            line.push_str(get_verb_usage(verb))?;
            Ok(Err(line))
        }
    }
}

/// Calls of which the file may have the words. Refused with `OutOfMemory` alone.
fn read_given<'a>(
    alloc: Global,
    verb: Verb,
    calls: &CallWords<'a>,
    file: &'a [u8],
) -> Result<Told<(Vec<CallWord>, Vec<&'a str>)>>
    ensures said { IfOk result (λ r. told_calls r ≡ given_plan verb (given_of calls.now) file.now) }
    ensures memory { IfErr result (λ e. e.kind ≡ OutOfMemory) }
{
    match calls {
        CallWords::Words(words) => read_argument_words(alloc, verb, words),
        CallWords::Lines(path) => read_text(alloc, path, file),
    }
}

/// Calls on a root with their words read. Refused with `OutOfMemory` alone.
fn plan_calls<'a>(
    alloc: Global,
    verb: Verb,
    request: &CallsRequest<'a>,
    file: &'a [u8],
) -> Result<Told<CallsPlan<'a>>>
    ensures planned { IfOk result (λ r. told_calls_plan r ≡ calls_plan_of verb (calls_task_of request.now) file.now) }
    ensures memory { IfErr result (λ e. e.kind ≡ OutOfMemory) }
{
    match read_given(alloc, verb, &request.calls, file)? {
        Ok((texts, words)) => Ok(Ok(CallsPlan {
            root: request.root,
            texts,
            words,
            keep_going: request.keep_going,
            packed: request.packed,
            limit: request.limit,
        })),
        Err(line) => Ok(Err(line)),
    }
}

/// What is asked for by paths, whose words are read. Refused with `OutOfMemory` alone.
fn plan_get<'a>(alloc: Global, request: &GetRequest<'a>) -> Result<Told<GetPlan<'a>>>
    ensures planned { IfOk result (λ r. told_get_plan r ≡ get_plan_of (get_task_of request.now)) }
    ensures memory { IfErr result (λ e. e.kind ≡ OutOfMemory) }
{
    match read_queries(alloc, &request.paths)? {
        Ok(queries) => Ok(Ok(GetPlan {
            root: request.root,
            queries,
            raw: request.raw,
            with_paths: request.with_paths,
            indented: request.indented,
            packed: request.packed,
            limit: request.limit,
        })),
        Err(at) => Ok(Err(put_word_line(alloc, &request.paths, at)?)),
    }
}

/// What is asked for by paths and shown as JSON, whose words are read. Refused with `OutOfMemory` alone.
fn plan_json<'a>(alloc: Global, request: &JsonRequest<'a>) -> Result<Told<JsonPlan<'a>>>
    ensures planned { IfOk result (λ r. told_json_plan r ≡ json_plan_of (json_task_of request.now)) }
    ensures memory { IfErr result (λ e. e.kind ≡ OutOfMemory) }
{
    match read_queries(alloc, &request.paths)? {
        Ok(queries) => Ok(Ok(JsonPlan {
            root: request.root,
            queries,
            indented: request.indented,
            packed: request.packed,
            limit: request.limit,
        })),
        Err(at) => Ok(Err(put_word_line(alloc, &request.paths, at)?)),
    }
}

/// The value at a path that is looked at, whose word is read. Refused with `OutOfMemory` alone.
fn plan_check<'a>(alloc: Global, request: CheckRequest<'a>) -> Result<Told<CheckPlan<'a>>>
    ensures planned { IfOk result (λ r. told_check_plan r ≡ check_plan_of (check_task_of request.entry)) }
    ensures memory { IfErr result (λ e. e.kind ≡ OutOfMemory) }
{
    match parse_path(alloc, request.path)? {
        Ok(path) => Ok(Ok(CheckPlan {
            root: request.root,
            path,
            all: request.all,
            packed: request.packed,
            limit: request.limit,
        })),
        Err(place) => {
            let line = put_unreadable(alloc, 1, request.path, place as u128)?;
            Ok(Err(line))
        }
    }
}

/// What a task asks, once its words are read; or the line that tells which of them can't be. `file` has the bytes of the
/// file of its calls, or of the newer set or message, if it has one. Refused with `OutOfMemory` alone.
pub fn read_plan<'a>(alloc: Global, task: &Task<'a>, file: &'a [u8]) -> Result<Told<Plan<'a>>>
    ensures planned { IfOk result (λ r. told_plan r ≡ task_plan (task_seen task.now) file.now) }
    ensures memory { IfErr result (λ e. e.kind ≡ OutOfMemory) }
{
    match task {
        Task::Get(request) => match plan_get(alloc, request)? {
            Ok(plan) => Ok(Ok(Plan::Get(plan))),
            Err(line) => Ok(Err(line)),
        },
        Task::Json(request) => match plan_json(alloc, request)? {
            Ok(plan) => Ok(Ok(Plan::Json(plan))),
            Err(line) => Ok(Err(line)),
        },
        Task::FromJson(request) => Ok(Ok(Plan::FromJson(FromJsonPlan {
            root: request.root,
            strict: request.strict,
            packed: request.packed,
            limit: request.limit,
        }))),
        Task::Check(request) => match plan_check(alloc, *request)? {
            Ok(plan) => Ok(Ok(Plan::Check(plan))),
            Err(line) => Ok(Err(line)),
        },
        Task::Patch(request) => match plan_calls(alloc, Verb::Patch, request, file)? {
            Ok(plan) => Ok(Ok(Plan::Patch(plan))),
            Err(line) => Ok(Err(line)),
        },
        Task::New(request) => match plan_calls(alloc, Verb::New, request, file)? {
            Ok(plan) => Ok(Ok(Plan::New(plan))),
            Err(line) => Ok(Err(line)),
        },
        Task::Structs(set, limit) => Ok(Ok(Plan::Structs(*set, *limit))),
        Task::Fields(root, limit) => Ok(Ok(Plan::Fields(*root, *limit))),
        Task::Convert(strict, limit) => Ok(Ok(Plan::Convert(*strict, *limit))),
        Task::Compatible(request) => Ok(Ok(Plan::Compatible(ComparePlan {
            name: request.name,
            newer: file,
            quiet: request.quiet,
            breaking_only: request.breaking_only,
            both: request.both,
            limit: request.limit,
        }))),
        Task::Diff(request) => Ok(Ok(Plan::Diff(DiffPlan {
            root: request.root,
            newer: file,
            packed: request.packed,
            limit: request.limit,
        }))),
        Task::Help(verb) => Ok(Ok(Plan::Help(*verb))),
        Task::Version => Ok(Ok(Plan::Version)),
    }
}
