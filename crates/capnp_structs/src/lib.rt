//! A set of schemas as text: its structs by their names, and the fields of a struct.
#![tactic(auto)]

mod annotations;
mod enums;
pub mod fields;
pub mod laws;
mod limits;
pub mod names;
pub mod sides;
mod values;
