//! Proved callers of the crates above `capnp_wire`, over nothing but their public calls and contracts.
#![tactic(auto)]

pub mod brands;
pub mod enumerants;
pub mod lookup;
pub mod members;
pub mod named;
pub mod parts;
pub mod pointers;
pub mod read_back;
pub mod roots;
pub mod round_trips;
pub mod sets;
pub mod starts;
pub mod streams;
pub mod texts;
pub mod typed;
pub mod values;
