//! Refusals, and what they blame.
ghost use Rattle.std.specs.Prelude.{◌≡◌, ◌++◌, IfErr, IfOk, Ok, OnOk, string_bytes};
ghost use Rattle.std.specs.Option.{option_map};
ghost use Rattle.capnp_device.specs.declared.error.ErrorKind.TheVariants.{OutOfMemory};
ghost use Rattle.riftcalico_core.specs.Faults.{IsFaultOf, IsPlainFault, blamed_word, fault_line, file_word, hint_of, input_file, is_of_bytes, message_word, name_hint, name_word, old_file, place_file, set_hint, task_name, task_set_file};
ghost use Rattle.riftcalico_words.specs.RequestSeen.{task_seen};

use crate::plan::get_calls_file;
use capnp_patch::lines::put_word;
use capnp_wire::error::{Error, ErrorKind, Result};
use riftcalico_words::request::Task;
use std::alloc::Global;

/// What is to be looked at.
#[derive(Clone, Copy, Debug, PartialEq, Eq)]
pub enum Blamed {
    /// The file of the calls, or of the newer of two sets or messages.
    Calls,
    /// The file of the set, or the built-in set.
    Set,
    /// The name of the root's struct.
    Name,
    /// Standard input, or the file whose messages are replaced, or that of the older of two messages.
    Input,
    /// Standard output, or that file.
    Output,
}

/// A refusal, what is to be looked at, and what tells more.
#[derive(Debug, Drop, PartialEq, Eq)]
pub struct Fault {
    pub error: Error,
    pub blamed: Blamed,
    pub note: String,
}

/// A value, or the refusal of what has none.
pub type Faulty<T> = std::result::Result<T, Fault>;

/// A refusal of which no more is told.
pub fn get_fault(alloc: Global, error: Error, blamed: Blamed) -> Fault
    ensures { IsPlainFault result error blamed }
{
    Fault {
        error,
        blamed,
        note: String::new(alloc),
    }
}

/// What was found, or its refusal with what is to be looked at.
pub fn blame<T>(alloc: Global, found: Result<T>, blamed: Blamed) -> Faulty<T>
    ensures value { IfOk result (λ x. found ≡ Ok x) }
    ensures refused { IfErr result (IsFaultOf found blamed) }
{
    match found {
        Ok(value) => Ok(value),
        Err(error) => Err(get_fault(alloc, error, blamed)),
    }
}

/// The file of a task's set; none where it is the built-in one, or where there is no set to look into.
pub fn get_set_file<'a>(task: &Task<'a>) -> Option<&'a str>
    ensures { option_map (λ f. f.now) result ≡ task_set_file (task_seen task.now) }
{
    match task {
        Task::Get(request) => request.root.file,
        Task::Json(request) => request.root.file,
        Task::FromJson(request) => request.root.file,
        Task::Check(request) => request.root.file,
        Task::Patch(request) | Task::New(request) => request.root.file,
        Task::Structs(file, _) => *file,
        Task::Fields(root, _) => root.file,
        Task::Compatible(request) => Some(request.older),
        Task::Diff(request) => request.root.file,
        Task::Convert(_, _) | Task::Help(_) | Task::Version => None,
    }
}

/// The file whose messages a task replaces, if there is one.
pub fn get_place_file<'a>(task: &Task<'a>) -> Option<&'a str>
    ensures { option_map (λ f. f.now) result ≡ place_file (task_seen task.now) }
{
    match task {
        Task::Patch(request) => request.in_place,
        _ => None,
    }
}

/// The file that a task reads a message from and leaves as it is, if there is one.
pub fn get_old_file<'a>(task: &Task<'a>) -> Option<&'a str>
    ensures { option_map (λ f. f.now) result ≡ old_file (task_seen task.now) }
{
    match task {
        Task::Diff(request) => Some(request.old),
        _ => None,
    }
}

/// The file that is read in place of standard input, if there is one.
fn get_input_file<'a>(task: &Task<'a>) -> Option<&'a str>
    ensures { option_map (λ f. f.now) result ≡ input_file (task_seen task.now) }
{
    match task {
        Task::Diff(_) => get_old_file(task),
        _ => get_place_file(task),
    }
}

/// A file by its path, or what stands for none.
pub(crate) fn get_file_word<'a>(file: Option<&'a str>, other: &'a str) -> &'a str
    ensures { result.now ≡ file_word (option_map (λ f. f.now) file.entry) other.now }
{
    match file {
        Some(path) => path,
        None => other,
    }
}

/// A name, empty where there is none.
fn get_name_word<'a>(name: Option<&'a str>) -> &'a str
    ensures { result.now ≡ name_word (option_map (λ w. w.now) name.entry) }
{
    match name {
        Some(name) => name,
        None => "",
    }
}

/// The name of a task's root, empty where it has none.
fn get_name<'a>(task: &Task<'a>) -> &'a str
    ensures { result.now ≡ task_name (task_seen task.now) }
{
    match task {
        Task::Get(request) => request.root.name,
        Task::Json(request) => request.root.name,
        Task::FromJson(request) => request.root.name,
        Task::Check(request) => request.root.name,
        Task::Patch(request) | Task::New(request) => request.root.name,
        Task::Fields(root, _) => root.name,
        Task::Diff(request) => request.root.name,
        Task::Compatible(request) => get_name_word(request.name),
        Task::Structs(_, _) | Task::Convert(_, _) | Task::Help(_) | Task::Version => "",
    }
}

/// How that is called which is to be looked at.
fn get_word<'a>(task: &Task<'a>, blamed: Blamed) -> &'a str
    ensures { result.now ≡ blamed_word (task_seen task.now) blamed }
{
    match blamed {
        Blamed::Calls => get_file_word(get_calls_file(task), ""),
        Blamed::Set => get_file_word(get_set_file(task), "the built-in set"),
        Blamed::Name => get_name(task),
        Blamed::Input => get_file_word(get_input_file(task), "standard input"),
        Blamed::Output => get_file_word(get_place_file(task), "standard output"),
    }
}

/// Whether what a file holds is refused, and not for memory or because it can't be read.
fn is_of_bytes(kind: ErrorKind) -> bool
    ensures { result ≡ is_of_bytes kind }
{
    match kind {
        ErrorKind::OutOfMemory | ErrorKind::ReadFailed => false,
        _ => true,
    }
}

/// What tells more of a refusal of a set's file: what makes one.
fn get_set_hint(file: Option<&str>, kind: ErrorKind) -> &'static str
    ensures { result.now ≡ set_hint (option_map (λ f. f.now) file.entry) kind }
{
    match file {
        Some(_) => {
            if is_of_bytes(kind) {
                "; a set is what riftcalico schemas writes"
            } else {
                ""
            }
        }
        None => "",
    }
}

/// What tells more of a refusal of a name: how all are listed.
fn get_name_hint(kind: ErrorKind) -> &'static str
    ensures { result.now ≡ name_hint kind }
{
    match kind {
        ErrorKind::NameNotFound => "; see riftcalico structs",
        _ => "",
    }
}

/// What tells more of a refusal: of a name that no struct has, how all are listed; of the file of a set, what makes one.
fn get_hint(task: &Task<'_>, fault: &Fault) -> &'static str
    ensures { result.now ≡ hint_of (task_seen task.now) fault.now }
{
    match fault.blamed {
        Blamed::Name => get_name_hint(fault.error.kind),
        Blamed::Set => get_set_hint(get_set_file(task), fault.error.kind),
        Blamed::Calls | Blamed::Input | Blamed::Output => "",
    }
}

/// Appends the number of a message of several, if it is one.
fn put_message(line: &mut String, message: Option<u64>) -> Result<()>
    ensures put { OnOk result (string_bytes line.new ≡ string_bytes line.old ++ message_word message) }
    ensures memory { IfErr result (λ e. e.kind ≡ OutOfMemory) }
{
    match message {
        Some(number) => Ok(write!(line, ", message {number}")?),
        None => Ok(()),
    }
}

/// The line of a refusal: its number and name, what is to be looked at, of several messages the number of one, and what
/// tells more. Control characters are told by their numbers. Refused with `OutOfMemory` alone.
pub fn put_fault(
    alloc: Global,
    task: &Task<'_>,
    message: Option<u64>,
    fault: &Fault,
) -> Result<String>
    ensures line { IfOk result (λ line. string_bytes line ≡ fault_line (task_seen task.now) message fault.now) }
    ensures memory { IfErr result (λ e. e.kind ≡ OutOfMemory) }
{
    let number = fault.error.kind.number();
    let name = fault.error.kind.name();
    let word = get_word(task, fault.blamed);
    let mut line = format!(in alloc; "refused: {number} {name} (")?;
    put_word(&mut line, word)?;
    put_message(&mut line, message)?;
    line.push_str(")")?;
    put_word(&mut line, fault.note.as_str())?;
    line.push_str(get_hint(task, fault))?;
    line.push_str("\n")?;
    Ok(line)
}
