//! A task done over files and streams, stage by stage: the file of its calls, its words, the file of its set, the set, the
//! struct of its root and the values of its calls, the message, the answer, what is written and told. Where a stage stops,
//! none that comes after it has touched a file or stream.
ghost use Rattle.std.specs.Prelude.{◌∷◌, ◌≡◌, IfErr, IfOk, Err};
ghost use Rattle.std.specs.Option.{option_map};
ghost use Rattle.capnp_show_engine.specs.Opened.{AsksAmong, file_paths};
ghost use Rattle.riftcalico_engine.specs.Files.{IsFileRead, IsFileUnread};
ghost use Rattle.riftcalico_engine.specs.Outputs.{IsFault};
ghost use Rattle.riftcalico_core.specs.Faults.{old_file};
ghost use Rattle.riftcalico_engine.specs.Runs.{IsRun, IsRunFrom, IsRunOf, run_paths, task_paths};
ghost use Rattle.riftcalico_words.specs.RequestSeen.{task_seen};

use crate::answering::put_answer;
use crate::ended::{Ran, Refusal, refuse};
use crate::stages::{Asked, Way, find_plan, find_schemas, find_task_job, get_way};
use crate::stream::run_each;
use capnp_packed::source::UnpackSource;
use capnp_show_engine::opener::Opener;
use capnp_streams::next::LentSource;
use capnp_wire::device::{Sink, Source};
use capnp_wire::error::{Error, ErrorKind};
use capnp_wire::transfer::read_all;
use riftcalico_core::answer::get_answer;
use riftcalico_core::fault::{Blamed, get_old_file, get_set_file};
use riftcalico_core::plan::get_calls_file;
use riftcalico_core::whole::{answer_whole, get_whole_plan};
use riftcalico_words::request::Task;
use std::alloc::Global;

/// The bytes of a file, none where no file is named. Refused with what the file is blamed for.
#[tactic(auto, using(capnp_show_engine::specs::Facts::Opening::none_asked, capnp_show_engine::specs::Facts::Opening::one_asked))]
fn read_file<O: Opener>(
    alloc: Global,
    opener: &mut O,
    file: Option<&str>,
    blamed: Blamed,
) -> std::result::Result<Vec<u8>, Refusal>
    ensures read { IfOk result (λ bytes. IsFileRead O.opens O.File.left opener.old opener.new
        (option_map (λ f. f.now) file.entry) bytes.items) }
    ensures unread { IfErr result (λ x. IsFault (Err x) (λ f. (f.blamed ≡ blamed) × IsFileUnread O.opens O.File.failures
        opener.old opener.new (option_map (λ f. f.now) file.entry) f.error.kind)) }
    ensures opened { AsksAmong O.opens (file_paths (option_map (λ f. f.now) file.entry)) opener.old opener.new }
{
    let Some(path) = file else {
        return Ok(Vec::new(alloc));
    };
    let Ok(mut file) = opener.open(path) else {
        let error = Error::from(ErrorKind::ReadFailed);
        return Err(refuse(alloc, None, error, blamed));
    };
    match read_all(alloc, &mut file) {
        Ok(bytes) => Ok(bytes),
        Err(error) => Err(refuse(alloc, None, error, blamed)),
    }
}

/// Does a task. Files are opened and read first: that of the calls, then that of the set. Then the struct of the root is
/// looked up and the values of calls are read, and only then the message. The answer is made whole before its first byte
/// is written, and its lines are told behind it; of several messages one after another. Where all structs of two sets are
/// compared, both sets are taken apart for that, which copies nothing of them.
pub fn run<O: Opener, R: Source, W: Sink, F: Sink>(
    alloc: Global,
    opener: &mut O,
    task: &Task<'_>,
    source: &mut R,
    sink: &mut W,
    errors: &mut F,
) -> Ran
    ensures ran { IsRun O.opens O.File.left O.File.failures R.left R.failures W.written W.failures F.written F.failures
        (task_seen task.now) opener.old opener.new source.old source.new sink.old sink.new errors.old errors.new result }
    ensures opened { AsksAmong O.opens (task_paths (task_seen task.now)) opener.old opener.new }
{
    let calls = read_file(alloc, opener, get_calls_file(task), Blamed::Calls)?;
    let asked = Asked { task, calls };
    let plan = match find_plan(alloc, &asked) {
        Ok(plan) => plan,
        Err(ran) => return ran,
    };
    let file = get_set_file(task);
    let bytes = read_file(alloc, opener, file, Blamed::Set)?;
    let schemas = find_schemas(alloc, &plan, file, &bytes)?;
    let job = match find_task_job(alloc, &schemas, &plan) {
        Ok(job) => job,
        Err(ran) => return ran,
    };
    match get_way(task, &job) {
        Way::Unread => {
            let Some(whole) = get_whole_plan(&plan) else {
                return put_answer(alloc, None, get_answer(alloc, &job, b""), sink, errors);
            };
            drop(job);
            put_answer(
                alloc,
                None,
                answer_whole(alloc, schemas, whole),
                sink,
                errors,
            )
        }
        Way::Whole => match read_all(alloc, source) {
            Ok(input) => put_answer(alloc, None, get_answer(alloc, &job, &input), sink, errors),
            Err(error) => Err(refuse(alloc, None, error, Blamed::Input)),
        },
        Way::Each(going) => run_each(alloc, task, &job, going, source, sink, errors),
        Way::Packed(going) => {
            let mut unpacked = UnpackSource::new(LentSource { source });
            run_each(alloc, task, &job, going, &mut unpacked, sink, errors)
        }
    }
}

/// Does a task as `run`, on the file of an older message, which is opened first of all.
fn run_older<O: Opener, W: Sink, F: Sink>(
    alloc: Global,
    opener: &mut O,
    path: &str,
    task: &Task<'_>,
    sink: &mut W,
    errors: &mut F,
) -> Ran
    ensures ran { IsRunOf O.opens O.File.left O.File.failures W.written W.failures F.written F.failures
        path.now (task_seen task.now) opener.old opener.new sink.old sink.new errors.old errors.new result }
    ensures opened { AsksAmong O.opens (path.now ∷ task_paths (task_seen task.now)) opener.old opener.new }
{
    match opener.open(path) {
        Ok(mut old) => run(alloc, opener, task, &mut old, sink, errors),
        Err(_) => {
            let error = Error::from(ErrorKind::ReadFailed);
            Err(refuse(alloc, None, error, Blamed::Input))
        }
    }
}

/// Does a task as `run`, and where it names the file of an older message, on that in place of the source, which isn't touched
/// then. That file is opened first of all.
pub fn run_from<O: Opener, R: Source, W: Sink, F: Sink>(
    alloc: Global,
    opener: &mut O,
    task: &Task<'_>,
    source: &mut R,
    sink: &mut W,
    errors: &mut F,
) -> Ran
    ensures ran { IsRunFrom O.opens O.File.left O.File.failures R.left R.failures W.written W.failures F.written F.failures
        (old_file (task_seen task.now)) (task_seen task.now) opener.old opener.new source.old source.new sink.old sink.new
        errors.old errors.new result }
    ensures opened { AsksAmong O.opens (run_paths (task_seen task.now)) opener.old opener.new }
{
    match get_old_file(task) {
        Some(path) => run_older(alloc, opener, path, task, sink, errors),
        None => run(alloc, opener, task, source, sink, errors),
    }
}
