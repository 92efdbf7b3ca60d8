//! Two sets of schemas in one: the entries of both, where the numbers of the second count on behind those of the first.
//! So questions that are asked within one set can be asked of two versions of a schema.
#![tactic(auto)]

mod annotations;
mod entries;
mod in_place;
pub mod laws;
mod moves;
mod names;
mod owned;
mod sets;
mod types;

pub use crate::owned::join_owned;
pub use crate::sets::join;
