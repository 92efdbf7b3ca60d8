//! Shows a value of a message, or makes calls on a message or an empty root and writes what they leave.
#![tactic(auto)]

use capnp_show_engine::command::{report, words};
use capnp_wire::device::{ReadSource, WriteSink};
use capnp_wire::error::ErrorKind;
use riftcalico_engine::command::command;
use std::env;
use std::io::BufReader;
use std::process::ExitCode;

/// The bytes that are read of standard input at a time, where messages follow one another.
const INPUT_BYTES: usize = 1 << 16;

fn main(rt: HostRuntime) -> ExitCode {
    let mut sink = WriteSink::new(rt.stdout());
    let mut errors = WriteSink::new(rt.stderr());
    let Ok(input) = BufReader::with_capacity(rt.alloc(), INPUT_BYTES, rt.stdin()) else {
        report(ErrorKind::OutOfMemory, &mut errors);
        return ExitCode::from(1);
    };
    let mut source = ReadSource::new(input);
    let status = match words(rt.alloc(), env::args(&rt)) {
        Ok(words) => command(&rt, rt.alloc(), &words, &mut source, &mut sink, &mut errors),
        Err(error) => {
            report(error.kind, &mut errors);
            1
        }
    };
    ExitCode::from(status)
}
