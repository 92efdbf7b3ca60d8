//! What JSON asks of a field of a set, and of an enumerant: its name, whether its numbers are floats, how its data is
//! written. Annotations say so.
#![tactic(auto)]

mod annotations;
pub mod fields;
pub mod names;
