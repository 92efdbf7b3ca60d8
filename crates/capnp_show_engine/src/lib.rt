//! Messages shown as texts: what a source has is read to its end, and the text of its first message's root is written
//! to a sink.
//!
//! `engine::show` does so under a struct of any accepted set. `command::command` is the program `capnp_show`, from its
//! words to its exit status, over a source and sinks in place of the standard streams.
#![tactic(auto)]

pub mod command;
pub mod engine;
mod line;
pub mod opener;
pub mod request;
pub mod with_set;
