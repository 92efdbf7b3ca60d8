//! What is asked for by a path of a message: the text, bytes or JSON of what stands there, or how many elements it has; and
//! the paths that a pattern stands for.
#![tactic(auto)]

pub mod floats;
pub mod json;
pub mod length;
pub mod patterns;
pub mod reach;
pub mod shown;
