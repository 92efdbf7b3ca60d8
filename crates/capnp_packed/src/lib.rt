//! Packing: messages with fewer zeros (encoding, "Packing").
#![tactic(auto)]

pub mod pack;
pub mod received;
pub mod source;
pub mod unpack;
mod window;
