//! Reads a compiler's request from standard input and writes its set of schemas.
#![tactic(auto)]

use capnp_set_engine::command;
use capnp_show_engine::command::{report, words};
use capnp_wire::device::{ReadSource, WriteSink};
use std::env;
use std::process::ExitCode;

fn main(rt: HostRuntime) -> ExitCode {
    let mut source = ReadSource::new(rt.stdin());
    let mut sink = WriteSink::new(rt.stdout());
    let mut errors = WriteSink::new(rt.stderr());
    let status = match words(rt.alloc(), env::args(&rt)) {
        Ok(words) => command::command(rt.alloc(), &words, &mut source, &mut sink, &mut errors),
        Err(error) => {
            report(error.kind, &mut errors);
            1
        }
    };
    ExitCode::from(status)
}
