//! Messages from JSON texts.
#![tactic(auto)]

pub mod elements;
pub mod encodings;
pub mod error;
pub mod given;
pub mod held;
pub mod integers;
pub mod leaves;
pub mod looks;
pub mod reading;
pub mod values;
