//! Cap'n Proto messages as they are read: streams, pointers, structs, lists, text and data.
//!
//! A reader stands on a tree: what the encoding says of the bytes at its place. Each call's contract says what it
//! answers in terms of that tree and of the levels that the reader has left.
#![tactic(auto)]

mod equal;
pub mod fault;
mod faults;
pub mod laws;
mod list_reader;
pub mod message;
mod numbers;
pub mod parts;
mod pointer_reader;
pub mod primitive;
pub mod size;
mod struct_reader;
mod total;
mod unfolded;

pub use capnp_device::device::{Sink, Source};
pub use capnp_device::error::{Error, ErrorKind};
pub use capnp_device::{call_plan, device, error, memory, transfer};
pub use list_reader::ListReader;
pub use numbers::{NumberIter, Numbers};
pub use pointer_reader::PointerReader;
pub use primitive::PrimitiveElement;
pub use size::{ElementSize, MessageSize, StructSize};
pub use struct_reader::StructReader;
