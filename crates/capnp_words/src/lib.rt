//! Paths, calls and values as words of a command line.
//!
//! `path::parse_path`, `call::parse_call` and `value::parse_value` read a word, or say the place in it of the first
//! byte that can't stand. `target::target_type` is the type under which a call's value is read. What capnp_show prints
//! of a number, truth value, enum, ASCII text or data is read back as that value (`laws`).
#![tactic(auto)]

pub mod call;
pub mod laws;
pub mod marked;
mod numbers;
pub mod path;
mod quoted;
pub mod target;
pub mod value;
mod words;
