//! Whether names of a set meet in JSON: two fields of a struct or group, or two enumerants of an enum, that annotations give one
//! name.
#![tactic(auto)]

mod enumerants;
mod fields;
mod labels;
pub mod laws;
pub mod names;
