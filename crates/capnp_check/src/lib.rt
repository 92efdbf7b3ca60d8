//! Whether a value's text is refused, and why.
//!
//! A text (`capnp_dynamic_readers::printer`) is refused where a value in it can't be read. Here it is walked without
//! being made.
#![tactic(auto)]

pub mod check;
mod parts;
mod parts_below;
pub mod place;
mod visits;
