//! What is printed of a value is read back as that value: laws of the definitions, as contracts of functions that do nothing.
#![tactic(auto)]

pub mod callers;
pub mod laws;
