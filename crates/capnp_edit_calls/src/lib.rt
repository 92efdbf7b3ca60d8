//! Lists that are edited where they stand in a message, along a path.
#![tactic(auto)]

pub mod acts;
pub mod appends;
pub mod change;
pub mod copy;
pub mod edit;
pub mod engine;
pub mod laws;
pub mod message;
pub mod runs;
