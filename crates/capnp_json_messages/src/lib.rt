//! Steps of the read of a JSON text into a message in memory.
#![tactic(auto)]

pub mod laws;
pub mod leaf;
pub mod message;
pub mod one;
pub mod opened;
pub mod put;
pub mod read_back;
pub mod row;
pub mod started;
pub mod value;
pub mod walk;
pub mod ways;
