//! Builders of texts, data and untyped pointers of messages in one segment, and the traits of what is built at a
//! pointer. The readers and the types of them are those of `capnp_base`.
#![tactic(auto)]

pub mod any_pointer;
pub mod data;
mod defaults;
pub mod text;
pub mod traits;
