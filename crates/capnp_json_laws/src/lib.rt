//! What is written as JSON is read back: laws of the definitions, as contracts of functions that do nothing.
#![tactic(auto)]

pub mod laws;
pub mod texts;
