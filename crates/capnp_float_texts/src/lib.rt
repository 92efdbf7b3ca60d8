//! The texts of values with their floats.
#![tactic(auto)]

pub mod laws;
pub mod printer;
mod style;
