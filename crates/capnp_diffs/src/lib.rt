//! The calls that make one message into another.
#![tactic(auto)]

pub mod change;
pub mod diff;
pub mod laws;
mod leaves;
mod lists;
mod pointers;
mod puts;
mod reads;
mod records;
