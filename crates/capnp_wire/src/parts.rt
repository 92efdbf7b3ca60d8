//! What serves the crates that build messages, and the readers of this one: where pointer words lead, one level of a
//! tree, and the bytes of elements. A user of messages needs none of it.

pub mod block;
pub mod bytes;
pub mod due;
pub mod elements;
pub mod found;
pub mod locate;
pub mod look;
pub mod pointer;
pub mod pointers;
pub mod row;
pub mod segments;
