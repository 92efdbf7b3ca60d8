//! What the program's words ask for.
ghost use Rattle.std.specs.Prelude.{◌≡◌, IfErr, IfOk, map, string_bytes};
ghost use Rattle.capnp_device.specs.declared.error.ErrorKind.TheVariants.{OutOfMemory};
ghost use Rattle.std.specs.Option.{option_map};
ghost use Rattle.riftcalico_words.specs.OptionsSeen.{options_seen};
ghost use Rattle.riftcalico_words.specs.Requests.{asked_request, calls_asked, checked_of, compared_of, from_json_of, get_asked, given_asked, got_of, json_asked, json_of, limit_asked, messages_of, options_asked, plain_asked, show_asked, shown_of, verb_of, verb_request};
ghost use Rattle.riftcalico_words.specs.RequestSeen.{asked_seen, calls_task_of, given_of, task_seen};
ghost use Rattle.riftcalico_words.specs.Steps.Limits.{limit_seen};
ghost use Rattle.riftcalico_words.specs.Tasks.{task_messages};

use crate::fit::is_fit;
use crate::numbers::read_number;
use crate::options::{Options, read_options};
use capnp_device::error::Result;
use std::alloc::Global;

/// The most bytes that are made, and the most parts that are looked at, where no other number is given: 2^30.
pub const DEFAULT_LIMIT: u64 = 1 << 30;

/// What is done.
#[derive(Clone, Copy, Debug, PartialEq, Eq)]
pub enum Verb {
    /// A message is shown.
    Show,
    /// Values of a message are shown.
    Get,
    /// Values of a message are shown as JSON.
    Json,
    /// A JSON text is made a message.
    FromJson,
    /// A value of a message is looked at, whether it can be shown.
    Check,
    /// Calls are made on a copy of a message.
    Patch,
    /// Calls are made on an empty root.
    New,
    /// The structs of a set are shown, or the fields of one.
    Structs,
    /// A compiler's request is made a set of schemas.
    Schemas,
    /// Two versions of a schema are compared.
    Compatible,
    /// The calls that make one message into another are told.
    Diff,
}

/// The messages of the input that are meant.
#[derive(Clone, Copy, Debug, PartialEq, Eq)]
pub enum Messages {
    /// The first. What follows it is not looked at.
    First,
    /// All, until one is refused or a call on one.
    Each,
    /// All. What is refused is told.
    EachGoing,
}

/// The struct of a name, in the set that a file holds, or else in the built-in one.
#[derive(Clone, Copy)]
pub struct NamedRoot<'a> {
    pub file: Option<&'a str>,
    pub name: &'a str,
}

/// What stands at paths as JSON, one or more, or where their last step is `#`, the lengths of lists there; whether it is
/// indented, whether the message comes packed, of which messages, and the most bytes that the JSON may have together.
#[derive(Drop)]
pub struct JsonRequest<'a> {
    pub root: NamedRoot<'a>,
    pub paths: Vec<&'a str>,
    pub indented: bool,
    pub packed: bool,
    pub messages: Messages,
    pub limit: u64,
}

/// A JSON text that is made a message, whether names that a struct lacks are refused, whether the message is packed, which
/// texts of the input are meant, and the most bytes that a message may have.
#[derive(Clone, Copy)]
pub struct FromJsonRequest<'a> {
    pub root: NamedRoot<'a>,
    pub strict: bool,
    pub packed: bool,
    pub messages: Messages,
    pub limit: u64,
}

/// What stands at paths, one or more, or where their last step is `#`, the lengths of lists there; whether texts and data are
/// told as their bytes, and other values indented, whether each line begins with its path, whether the message comes packed,
/// of which messages, and the most bytes that the texts may have together.
#[derive(Drop)]
pub struct GetRequest<'a> {
    pub root: NamedRoot<'a>,
    pub paths: Vec<&'a str>,
    pub raw: bool,
    pub with_paths: bool,
    pub indented: bool,
    pub packed: bool,
    pub messages: Messages,
    pub limit: u64,
}

/// Whether the value at a path can be shown, or where it can't, first or everywhere, and the most parts of it that may be
/// looked at.
#[derive(Clone, Copy)]
pub struct CheckRequest<'a> {
    pub root: NamedRoot<'a>,
    pub path: &'a str,
    pub all: bool,
    pub packed: bool,
    pub messages: Messages,
    pub limit: u64,
}

/// Calls, each a word, or each a line of the file at a path.
#[derive(Drop)]
pub enum CallWords<'a> {
    Words(Vec<&'a str>),
    Lines(&'a str),
}

/// Calls on a root, whether what they leave is written where one was refused, whether messages come and go packed, of
/// which messages, and the most bytes that a message may have that is made; the file, where there is one, whose messages are
/// replaced by what is made of them.
#[derive(Drop)]
pub struct CallsRequest<'a> {
    pub root: NamedRoot<'a>,
    pub calls: CallWords<'a>,
    pub keep_going: bool,
    pub packed: bool,
    pub messages: Messages,
    pub limit: u64,
    pub in_place: Option<&'a str>,
}

/// The struct of a name in the sets of two files, an older and a newer one, or all structs; whether only the status is
/// wanted, whether only what breaks is told, whether they are compared in both directions, and the most bytes that the text
/// may have.
#[derive(Clone, Copy)]
pub struct CompareRequest<'a> {
    pub older: &'a str,
    pub newer: &'a str,
    pub name: Option<&'a str>,
    pub quiet: bool,
    pub breaking_only: bool,
    pub both: bool,
    pub limit: u64,
}

/// The messages of two files, an older and a newer one, of a struct, whether they come packed, and the most bytes that the
/// text may have of what makes one into the other.
#[derive(Clone, Copy)]
pub struct DiffRequest<'a> {
    pub root: NamedRoot<'a>,
    pub old: &'a str,
    pub new: &'a str,
    pub packed: bool,
    pub limit: u64,
}

/// What is to be done.
#[derive(Drop)]
pub enum Task<'a> {
    /// Values of a message are shown; the whole message is the value at the path `.`.
    Get(GetRequest<'a>),
    /// A value of a message is shown as JSON.
    Json(JsonRequest<'a>),
    /// A JSON text is made a message.
    FromJson(FromJsonRequest<'a>),
    /// A value of a message is looked at, whether it can be shown.
    Check(CheckRequest<'a>),
    /// Calls are made on a copy of a message.
    Patch(CallsRequest<'a>),
    /// Calls are made on an empty root.
    New(CallsRequest<'a>),
    /// The structs of the set that a file holds, or else of the built-in one, in a text of so many bytes at most.
    Structs(Option<&'a str>, u64),
    /// The fields of a struct, in a text of so many bytes at most.
    Fields(NamedRoot<'a>, u64),
    /// The set of a compiler's request, in so many bytes at most; whether floats and interfaces are refused.
    Convert(bool, u64),
    /// What differs between two versions of a schema.
    Compatible(CompareRequest<'a>),
    /// The calls that make one message into another are told.
    Diff(DiffRequest<'a>),
    /// What can be done is told, or how one verb is called.
    Help(Option<Verb>),
    /// The version of the program is told.
    Version,
}

/// Words that ask for nothing.
#[derive(Clone, Copy)]
pub enum Misuse<'a> {
    /// There is no word.
    NoVerb,
    /// The first word is none of the verbs.
    UnknownVerb(&'a str),
    /// A word behind the verb is an option that there isn't.
    UnknownOption(Verb, &'a str),
    /// The word behind `--limit` is no number of bytes.
    NoBytes(Verb, &'a str),
    /// The verb is called with other words.
    OtherWords(Verb),
}

/// What words ask for, or why they ask for nothing.
pub type Asked<'a> = std::result::Result<Task<'a>, Misuse<'a>>;

/// The messages of the input that a task means, or the texts that are made messages.
pub fn get_messages(task: &Task<'_>) -> Messages
    ensures { result ≡ task_messages (task_seen task.now) }
{
    match task {
        Task::Get(request) => request.messages,
        Task::Json(request) => request.messages,
        Task::Check(request) => request.messages,
        Task::Patch(request) => request.messages,
        Task::FromJson(request) => request.messages,
        Task::New(_)
        | Task::Structs(_, _)
        | Task::Fields(_, _)
        | Task::Convert(_, _)
        | Task::Compatible(_)
        | Task::Diff(_)
        | Task::Help(_)
        | Task::Version => Messages::First,
    }
}

/// What is done, by its word.
fn read_verb(word: &str) -> Option<Verb>
    ensures { result ≡ verb_of word.now }
{
    match word {
        "show" => Some(Verb::Show),
        "get" => Some(Verb::Get),
        "json" => Some(Verb::Json),
        "from-json" => Some(Verb::FromJson),
        "check" => Some(Verb::Check),
        "patch" => Some(Verb::Patch),
        "new" => Some(Verb::New),
        "structs" => Some(Verb::Structs),
        "schemas" => Some(Verb::Schemas),
        "compatible" => Some(Verb::Compatible),
        "diff" => Some(Verb::Diff),
        _ => None,
    }
}

/// The messages that options mean.
fn read_messages(options: &Options<'_>) -> Messages
    ensures { result ≡ messages_of (options_seen options.now) }
{
    if !options.each {
        Messages::First
    } else if options.keep_going {
        Messages::EachGoing
    } else {
        Messages::Each
    }
}

/// The most bytes that are made, or the word that is no number of bytes.
fn read_limit<'a>(limit: Option<&'a str>) -> std::result::Result<u64, &'a str>
    ensures { limit_seen result ≡ limit_asked (option_map (λ w. w.now) limit.entry) }
{
    let Some(word) = limit else {
        return Ok(DEFAULT_LIMIT);
    };
    match read_number(word.as_bytes()) {
        Some(number) => Ok(number),
        None => Err(word),
    }
}

/// The words of calls, but the first of these words: them, or where a file is named its lines, and then there are no
/// other words. Refused with `OutOfMemory` alone.
fn read_given<'a>(
    alloc: Global,
    calls: Option<&'a str>,
    words: &[&'a str],
) -> Result<Option<CallWords<'a>>>
    ensures given { IfOk result (λ r. option_map given_of r ≡ given_asked (option_map (λ f. f.now) calls.entry)
        (map (λ w. w.now) words.now)) }
    ensures memory { IfErr result (λ e. e.kind ≡ OutOfMemory) }
{
    match calls {
        None => {
            let mut list = Vec::with_capacity(alloc, words.len())?;
            list.extend_from_slice(words)?;
            Ok(Some(CallWords::Words(list)))
        }
        Some(path) => {
            if words.is_empty() {
                Ok(Some(CallWords::Lines(path)))
            } else {
                Ok(None)
            }
        }
    }
}

/// Calls on a root under the struct that the first of the other words names. Refused with `OutOfMemory` alone.
fn read_calls<'a>(
    alloc: Global,
    options: &Options<'a>,
    limit: u64,
) -> Result<Option<CallsRequest<'a>>>
    ensures calls { IfOk result (λ r. option_map calls_task_of r ≡ calls_asked (options_seen options.now) limit) }
    ensures memory { IfErr result (λ e. e.kind ≡ OutOfMemory) }
{
    let words = options.others.as_slice();
    match words {
        [] => Ok(None),
        [name, rest @ ..] => {
            let root = NamedRoot {
                file: options.set,
                name: *name,
            };
            match read_given(alloc, options.calls, rest)? {
                Some(calls) => Ok(Some(CallsRequest {
                    root,
                    calls,
                    keep_going: options.keep_going,
                    packed: options.packed,
                    messages: read_messages(options),
                    limit,
                    in_place: options.in_place,
                })),
                None => Ok(None),
            }
        }
    }
}

/// What is asked of the values at paths that are shown. Refused with `OutOfMemory` alone.
fn read_shown<'a>(
    alloc: Global,
    options: &Options<'a>,
    limit: u64,
    name: &'a str,
    paths: &[&'a str],
) -> Result<Option<Task<'a>>>
    ensures asked { IfOk result (λ r. option_map task_seen r
        ≡ Some (shown_of (options_seen options.now) limit name.now (map (λ w. w.now) paths.now))) }
    ensures memory { IfErr result (λ e. e.kind ≡ OutOfMemory) }
{
    let mut list = Vec::with_capacity(alloc, paths.len())?;
    list.extend_from_slice(paths)?;
    Ok(Some(Task::Get(GetRequest {
        root: NamedRoot {
            file: options.set,
            name,
        },
        paths: list,
        raw: options.raw,
        with_paths: options.paths,
        indented: options.indent,
        packed: options.packed,
        messages: read_messages(options),
        limit,
    })))
}

/// What is asked of a message that is shown, by the other words. Refused with `OutOfMemory` alone.
fn read_show<'a>(alloc: Global, options: &Options<'a>, limit: u64) -> Result<Option<Task<'a>>>
    ensures asked { IfOk result (λ r. option_map task_seen r
        ≡ show_asked (options_seen options.now) limit (options_seen options.now).others) }
    ensures memory { IfErr result (λ e. e.kind ≡ OutOfMemory) }
{
    match options.others.as_slice() {
        [name] => read_shown(alloc, options, limit, *name, &["."]),
        _ => Ok(None),
    }
}

/// What is asked of the values at paths that are shown as JSON. Refused with `OutOfMemory` alone.
fn read_json_shown<'a>(
    alloc: Global,
    options: &Options<'a>,
    limit: u64,
    name: &'a str,
    paths: &[&'a str],
) -> Result<Option<Task<'a>>>
    ensures asked { IfOk result (λ r. option_map task_seen r
        ≡ Some (json_of (options_seen options.now) limit name.now (map (λ w. w.now) paths.now))) }
    ensures memory { IfErr result (λ e. e.kind ≡ OutOfMemory) }
{
    let mut list = Vec::with_capacity(alloc, paths.len())?;
    list.extend_from_slice(paths)?;
    Ok(Some(Task::Json(JsonRequest {
        root: NamedRoot {
            file: options.set,
            name,
        },
        paths: list,
        indented: options.indent,
        packed: options.packed,
        messages: read_messages(options),
        limit,
    })))
}

/// What is asked of values that are shown, as JSON or not. Refused with `OutOfMemory` alone.
fn read_got<'a>(
    alloc: Global,
    options: &Options<'a>,
    limit: u64,
    name: &'a str,
    paths: &[&'a str],
) -> Result<Option<Task<'a>>>
    ensures asked { IfOk result (λ r. option_map task_seen r
        ≡ Some (got_of (options_seen options.now).json (options_seen options.now) limit name.now
        (map (λ w. w.now) paths.now))) }
    ensures memory { IfErr result (λ e. e.kind ≡ OutOfMemory) }
{
    if options.json {
        read_json_shown(alloc, options, limit, name, paths)
    } else {
        read_shown(alloc, options, limit, name, paths)
    }
}

/// What is asked of a message that is shown as JSON, by the other words. Refused with `OutOfMemory` alone.
fn read_json<'a>(alloc: Global, options: &Options<'a>, limit: u64) -> Result<Option<Task<'a>>>
    ensures asked { IfOk result (λ r. option_map task_seen r
        ≡ json_asked (options_seen options.now) limit (options_seen options.now).others) }
    ensures memory { IfErr result (λ e. e.kind ≡ OutOfMemory) }
{
    let [name, paths @ ..] = options.others.as_slice() else {
        return Ok(None);
    };
    if paths.is_empty() {
        return read_json_shown(alloc, options, limit, *name, &["."]);
    }
    read_json_shown(alloc, options, limit, *name, paths)
}

/// What is asked of values that are shown, by the other words. Refused with `OutOfMemory` alone.
fn read_get<'a>(alloc: Global, options: &Options<'a>, limit: u64) -> Result<Option<Task<'a>>>
    ensures asked { IfOk result (λ r. option_map task_seen r
        ≡ get_asked (options_seen options.now) limit (options_seen options.now).others) }
    ensures memory { IfErr result (λ e. e.kind ≡ OutOfMemory) }
{
    let [name, paths @ ..] = options.others.as_slice() else {
        return Ok(None);
    };
    if paths.is_empty() {
        return Ok(None);
    }
    read_got(alloc, options, limit, *name, paths)
}

/// What is asked of JSON texts that are made messages.
fn read_from_json<'a>(options: &Options<'a>, limit: u64, name: &'a str) -> Task<'a>
    ensures { task_seen result ≡ from_json_of (options_seen options.now) limit name.now }
{
    Task::FromJson(FromJsonRequest {
        root: NamedRoot {
            file: options.set,
            name,
        },
        strict: options.strict,
        packed: options.packed,
        messages: read_messages(options),
        limit,
    })
}

/// What is asked of the value at a path that is looked at.
fn read_checked<'a>(options: &Options<'a>, limit: u64, name: &'a str, path: &'a str) -> Task<'a>
    ensures { task_seen result ≡ checked_of (options_seen options.now) limit name.now path.now }
{
    Task::Check(CheckRequest {
        root: NamedRoot {
            file: options.set,
            name,
        },
        path,
        all: options.all,
        packed: options.packed,
        messages: read_messages(options),
        limit,
    })
}

/// What is asked of two versions.
fn read_compared<'a>(
    options: &Options<'a>,
    older: &'a str,
    newer: &'a str,
    name: Option<&'a str>,
    limit: u64,
) -> Task<'a>
    ensures { task_seen result ≡ compared_of (options_seen options.now) limit older.now newer.now
        (option_map (λ w. w.now) name.entry) }
{
    Task::Compatible(CompareRequest {
        older,
        newer,
        name,
        quiet: options.quiet,
        breaking_only: options.breaking_only,
        both: options.both,
        limit,
    })
}

/// What is asked of JSON texts, of a value that is looked at, of sets, or of two messages, by its verb and the other words.
fn read_plain<'a>(verb: Verb, options: &Options<'a>, limit: u64) -> Option<Task<'a>>
    ensures { option_map task_seen result ≡ plain_asked verb (options_seen options.now) limit }
{
    let file = options.set;
    match (verb, options.others.as_slice()) {
        (Verb::FromJson, [name]) => Some(read_from_json(options, limit, *name)),
        (Verb::Check, [name]) => Some(read_checked(options, limit, *name, ".")),
        (Verb::Check, [name, path]) => Some(read_checked(options, limit, *name, *path)),
        (Verb::Structs, []) => Some(Task::Structs(file, limit)),
        (Verb::Structs, [name]) => Some(Task::Fields(NamedRoot { file, name: *name }, limit)),
        (Verb::Schemas, []) => Some(Task::Convert(options.strict, limit)),
        (Verb::Compatible, [older, newer]) => {
            Some(read_compared(options, *older, *newer, None, limit))
        }
        (Verb::Compatible, [older, newer, name]) => {
            Some(read_compared(options, *older, *newer, Some(*name), limit))
        }
        (Verb::Diff, [name, old, new]) => Some(Task::Diff(DiffRequest {
            root: NamedRoot { file, name: *name },
            old: *old,
            new: *new,
            packed: options.packed,
            limit,
        })),
        _ => None,
    }
}

/// What is asked of a verb with its options. Refused with `OutOfMemory` alone.
fn read_task<'a>(
    alloc: Global,
    verb: Verb,
    options: &Options<'a>,
    limit: u64,
) -> Result<Option<Task<'a>>>
    ensures asked { IfOk result (λ r. option_map task_seen r ≡ options_asked verb (options_seen options.now) limit) }
    ensures memory { IfErr result (λ e. e.kind ≡ OutOfMemory) }
{
    if !is_fit(verb, options) {
        return Ok(None);
    }
    match verb {
        Verb::Patch => match read_calls(alloc, options, limit)? {
            Some(request) => Ok(Some(Task::Patch(request))),
            None => Ok(None),
        },
        Verb::New => match read_calls(alloc, options, limit)? {
            Some(request) => Ok(Some(Task::New(request))),
            None => Ok(None),
        },
        Verb::Show => read_show(alloc, options, limit),
        Verb::Get => read_get(alloc, options, limit),
        Verb::Json => read_json(alloc, options, limit),
        Verb::FromJson
        | Verb::Check
        | Verb::Structs
        | Verb::Schemas
        | Verb::Compatible
        | Verb::Diff => Ok(read_plain(verb, options, limit)),
    }
}

/// What is asked of a verb by these words. Refused with `OutOfMemory` alone.
fn read_behind<'a>(alloc: Global, verb: Verb, words: &'a [String]) -> Result<Asked<'a>>
    ensures asked { IfOk result (λ r. asked_seen r ≡ verb_request verb (map string_bytes words.now)) }
    ensures memory { IfErr result (λ e. e.kind ≡ OutOfMemory) }
{
    let options = match read_options(alloc, words)? {
        Ok(options) => options,
        Err(word) => return Ok(Err(Misuse::UnknownOption(verb, word))),
    };
    if options.help {
        return Ok(Ok(Task::Help(Some(verb))));
    }
    if options.waiting.is_some() {
        return Ok(Err(Misuse::OtherWords(verb)));
    }
    let limit = match read_limit(options.limit) {
        Ok(limit) => limit,
        Err(word) => return Ok(Err(Misuse::NoBytes(verb, word))),
    };
    match read_task(alloc, verb, &options, limit)? {
        Some(task) => Ok(Ok(task)),
        None => Ok(Err(Misuse::OtherWords(verb))),
    }
}

/// What the words after the program's name ask for, or why they ask for nothing:
///
/// |words|what is done|
/// |---|---|
/// |`show NAME`|a message is shown|
/// |`get NAME PATH..`|values of a message are shown|
/// |`json NAME`, `json NAME PATH..`|a message is shown as JSON, or values of it|
/// |`from-json NAME`|a JSON text is made a message|
/// |`check NAME`, `check NAME PATH`|a message is looked at, or a value of it, whether it can be shown|
/// |`patch NAME CALL..`|calls are made on a copy of a message|
/// |`new NAME CALL..`|calls are made on an empty root|
/// |`structs`, `structs NAME`|the structs of a set are shown, or the fields of one|
/// |`schemas`|a compiler's request is made a set|
/// |`compatible OLD NEW`, `compatible OLD NEW NAME`|two versions of all structs are compared, or of one|
/// |`diff NAME OLD NEW`|the calls are told that make one message into another|
/// |`--help`, and behind a verb|help, of all or of the verb|
/// |`--version`|the version|
///
/// Options stand anywhere behind the verb, and of one that stands twice the last counts:
///
/// |options|verbs|
/// |---|---|
/// |`--set FILE`|those on messages, `from-json`, `diff` and `structs`|
/// |`--packed`|those on messages, `from-json`, `diff`|
/// |`--limit N`|all|
/// |`--indent`|`show`, `get`, `json`|
/// |`--raw`, `--paths`, or `--json`|`get`|
/// |`--each`|`show`, `get`, `json`, `from-json`, `check`, `patch`|
/// |`--keep-going`|the same, but for `patch` with `--each`, and `new`|
/// |`--calls FILE`, with no call beside it|`patch`, `new`|
/// |`--all`|`check`|
/// |`--strict`|`schemas`, `from-json`|
/// |`--quiet`, `--breaking-only`, `--both`|`compatible`|
///
/// Refused with `OutOfMemory` alone.
pub fn read_words<'a>(alloc: Global, words: &'a [String]) -> Result<Asked<'a>>
    ensures asked { IfOk result (λ r. asked_seen r ≡ asked_request (map string_bytes words.now)) }
    ensures memory { IfErr result (λ e. e.kind ≡ OutOfMemory) }
{
    let [first, rest @ ..] = words else {
        return Ok(Err(Misuse::NoVerb));
    };
    let word = first.as_str();
    if word == "--help" {
        return Ok(Ok(Task::Help(None)));
    }
    if word == "--version" {
        return Ok(Ok(Task::Version));
    }
    match read_verb(word) {
        Some(verb) => read_behind(alloc, verb, rest),
        None => Ok(Err(Misuse::UnknownVerb(word))),
    }
}
