//! Writes of fields whose types are known only at run time, on plain references.
//!
//! Each call says what becomes of the struct's tree, in the words that `capnp_records` has for writes on trees; its
//! laws then say what becomes of the struct's record. No call walks a schema: a field is found by its plan.
#![tactic(auto)]

pub mod copied;
mod copies;
pub mod element;
pub mod field;
mod fill;
mod fill_element;
pub mod group;
mod group_copy;
pub mod laws;
mod make;
pub mod part;
mod planned;
mod pointer;
pub mod primitive;
pub mod setter;
pub mod slot;
pub mod source;

pub use make::size_of;
