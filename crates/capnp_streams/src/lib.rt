//! Messages that follow one another in a stream (encoding, "Serialization Over a Stream"), and texts that do, each a line.
#![tactic(auto)]

pub mod next;
pub mod receive;
pub mod texts;
