//! The answer to a message's bytes, written and told.
ghost use Rattle.std.specs.Prelude.{IfOk};
ghost use Rattle.riftcalico_core.specs.Answers.{IsWritableOutput};
ghost use Rattle.riftcalico_engine.specs.Outputs.{IsAnsweredWith};

use crate::ended::{Ended, Ran, Refusal, refuse};
use capnp_show_engine::command::tell;
use capnp_wire::device::Sink;
use capnp_wire::transfer::write_all;
use riftcalico_core::answer::{Answer, Output};
use riftcalico_core::fault::{Blamed, Faulty};
use riftcalico_core::numbered::number_lines;
use std::alloc::Global;

/// Writes an answer, and then tells its lines; of several messages this is to the one of a number. Where there is none,
/// nothing is written or told.
pub(crate) fn put_answer<W: Sink, F: Sink>(
    alloc: Global,
    message: Option<u64>,
    answer: Faulty<Answer>,
    sink: &mut W,
    errors: &mut F,
) -> Ran
    requires { IfOk answer (λ a. IsWritableOutput a.output) }
    ensures { IsAnsweredWith W.written W.failures F.written F.failures answer message sink.old sink.new errors.old
        errors.new result }
{
    let Answer {
        output,
        lines,
        refused,
    } = match answer {
        Ok(answer) => answer,
        Err(fault) => return Err(Refusal { message, fault }),
    };
    let lines = match number_lines(alloc, message, lines) {
        Ok(lines) => lines,
        Err(error) => return Err(refuse(alloc, message, error, Blamed::Output)),
    };
    let written = match &output {
        Output::Nothing => Ok(()),
        Output::Fixed(text) => write_all(sink, text.as_bytes()),
        Output::Text(text) => write_all(sink, text.as_bytes()),
        Output::Bytes(bytes) => write_all(sink, bytes),
        Output::Message(message) => message.write_message_to(sink),
    };
    match written {
        Ok(()) => {
            tell(lines.as_bytes(), errors);
            Ok(Ended::Answered(refused))
        }
        Err(error) => Err(refuse(alloc, message, error, Blamed::Output)),
    }
}
