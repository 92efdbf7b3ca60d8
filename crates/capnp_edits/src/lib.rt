//! Lists whose elements are added, taken out, and put in others' place.
#![tactic(auto)]

pub mod added;
pub mod edit;
pub mod laws;
