//! What the set of schemas that a compiler's request is converted to says of the request, in the request's own words.
#![tactic(auto)]

pub mod callers;
pub mod laws;
