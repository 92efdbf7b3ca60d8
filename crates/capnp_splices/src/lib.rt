//! Lists of which some elements are taken out, with others in their place, each in a message of its own.
#![tactic(auto)]

pub mod alone;
pub mod pick;
pub mod put;
pub mod read;
pub mod rows;
pub mod splice;
