//! Sets of schemas as messages: the way back from `capnp_sets`.
//!
//! A set is written as a message whose root is a `SetRecord` of the meta set (`capnp_schema::meta`), in one pass over
//! its records. What is written is read as the set's own lists.
#![tactic(auto)]

mod entries;
mod nodes;
mod rows;
pub mod set_writer;
mod types;
mod values;
mod writes;
