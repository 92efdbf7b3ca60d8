//! Decimal texts of binary floating point numbers.
#![tactic(auto)]

mod counted;
pub mod decimal;
mod digits;
mod grammar;
mod large;
pub mod laws;
mod limbs;
mod moderate;
mod natural;
pub mod nearest;
mod search;
mod small;
pub mod text;
mod wide;
pub mod width;
pub mod word;
