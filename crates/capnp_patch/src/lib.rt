//! Messages that are patched: calls are made on a copy of the root of a message's bytes, and each that asked or was
//! refused has its line. What stands at a path of a message is shown as its text.
#![tactic(auto)]

pub mod engine;
pub mod get;
pub mod lines;
pub mod place;
pub mod reach;
