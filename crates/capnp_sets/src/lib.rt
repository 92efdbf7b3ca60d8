//! Sets of schemas that come as messages: the lists that the record of a set stands for.
//!
//! A set is written as a message whose root is a `SetRecord` of the meta set (`capnp_schema::meta`). It is read by
//! fields' numbers, each part once; no name is looked up.
#![tactic(auto)]

mod fields;
pub mod laws;
mod lists;
pub mod message;
mod parts;
mod rows;
pub mod sets;
mod types;
mod unfolded;
mod values;
