//! What the words of the program `riftcalico` ask for, and what it tells of itself.
#![tactic(auto)]

mod fit;
mod numbers;
pub mod options;
pub mod request;
pub mod usage;
