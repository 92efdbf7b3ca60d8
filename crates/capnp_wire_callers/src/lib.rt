//! Proved callers of `capnp_wire`, `capnp_arena` and `capnp_device`, over nothing but their public calls and contracts.
//!
//! The contract of a read is a function of the tree that its reader stands on and of the levels that are left: a caller
//! of the readers needs to know nothing else of them.
#![tactic(auto)]

pub mod blobs;
pub mod built;
pub mod defaults;
pub mod devices;
pub mod elements;
pub mod numbers;
pub mod path;
pub mod pointers;
pub mod structs;
pub mod sum;
