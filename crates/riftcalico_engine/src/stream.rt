//! Messages that follow one another, each of which is answered to.
ghost use Rattle.std.specs.Prelude.{◌≡◌, ◌||◌};
ghost use Rattle.riftcalico_core.specs.Answers.{IsSoundJob};
ghost use Rattle.riftcalico_engine.specs.Steps.Passing.{IsNext};
ghost use Rattle.riftcalico_engine.specs.Streams.{IsStreamRun};
ghost use Rattle.riftcalico_words.specs.RequestSeen.{task_seen};

use crate::answering::put_answer;
use crate::ended::{Ended, Ran, refuse};
use crate::told::{Told, get_told};
use capnp_show_engine::command::{report, tell};
use capnp_streams::next::try_read_next;
use capnp_wire::device::{Sink, Source};
use capnp_wire::error::{Error, ErrorKind};
use riftcalico_core::answer::answer_message;
use riftcalico_core::fault::Blamed;
use riftcalico_core::job::Job;
use riftcalico_words::request::Task;
use std::alloc::Global;

/// What comes behind a message.
pub(crate) enum Next {
    /// The one behind it, and nothing is told; whether a call was refused.
    Quietly(bool),
    /// The one behind it, once the refusal of this one is told.
    Telling(Told),
    /// No more: the messages come to this.
    Ends(Ran),
}

/// What comes behind a message which came to this: the one behind it, and a refusal is told; or it ends here with the same.
/// A write that failed ends it.
fn go_on(alloc: Global, task: &Task<'_>, going: bool, ran: Ran) -> Next
    ensures { IsNext (task_seen task.now) going ran result }
{
    match ran {
        Ok(Ended::Answered(refused)) => {
            if refused && !going {
                Next::Ends(Ok(Ended::Answered(refused)))
            } else {
                Next::Quietly(refused)
            }
        }
        Ok(Ended::Unreadable(line)) => Next::Ends(Ok(Ended::Unreadable(line))),
        Ok(Ended::NamesMeet(line)) => Next::Ends(Ok(Ended::NamesMeet(line))),
        Err(refusal) => {
            if !going || refusal.fault.error.kind == ErrorKind::WriteFailed {
                return Next::Ends(Err(refusal));
            }
            Next::Telling(get_told(alloc, task, &refusal))
        }
    }
}

/// Whether one of two holds.
fn either(a: bool, b: bool) -> bool
    ensures { result ≡ (a || b) }
{
    a || b
}

/// Answers to the messages of a source, one after another, which are not packed, or to its texts. Each is read when the answer to the one
/// before was written and told, so memory is taken for one alone. Where one can't be read it ends, since it isn't known
/// where the next begins; where one is refused otherwise, or a call on it, it ends too unless it is to go on.
pub(crate) fn run_each<R: Source, W: Sink, F: Sink>(
    alloc: Global,
    task: &Task<'_>,
    job: &Job<'_, '_, '_>,
    going: bool,
    source: &mut R,
    sink: &mut W,
    errors: &mut F,
) -> Ran
    requires { IsSoundJob job.now }
    ensures { IsStreamRun R.left R.failures W.written W.failures F.written F.failures (task_seen task.now) job.now going
        source.old source.new sink.old sink.new errors.old errors.new result }
{
    let mut number: u64 = 0;
    let mut refused = false;
    loop {
        let Some(next) = number.checked_add(1) else {
            let error = Error::from(ErrorKind::TooLarge);
            return Err(refuse(alloc, None, error, Blamed::Input));
        };
        let message = match try_read_next(alloc, job.reads_texts(), source) {
            Ok(Some(message)) => message,
            Ok(None) => return Ok(Ended::Answered(refused)),
            Err(error) => return Err(refuse(alloc, Some(next), error, Blamed::Input)),
        };
        let answer = answer_message(alloc, job, &message);
        let ran = put_answer(alloc, Some(next), answer, sink, errors);
        match go_on(alloc, task, going, ran) {
            Next::Quietly(one) => refused = either(refused, one),
            Next::Telling(Told::Line(line)) => {
                tell(line.as_bytes(), errors);
                refused = true;
            }
            Next::Telling(Told::Number(kind)) => {
                report(kind, errors);
                refused = true;
            }
            Next::Ends(ran) => return ran,
        }
        number = next;
    }
}
