//! Sets of schemas from the public compiler: what a source has is read to its end, the first message there is a
//! compiler's request, and the message of its set is written to a sink.
//!
//! `engine::convert` does so. `command::command` is the program `capnp_set`, from its words to its exit status, over a
//! source and sinks in place of the standard streams.
#![tactic(auto)]

pub mod command;
pub mod engine;
mod notes;
