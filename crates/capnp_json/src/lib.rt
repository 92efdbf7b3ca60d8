//! Messages as JSON.
#![tactic(auto)]

mod data;
pub mod error;
mod floats;
pub mod forms;
mod items;
pub mod json;
mod leaves;
mod lines;
pub mod message;
mod numbers;
mod output;
mod parts;
mod standing;
mod strings;
mod values;
mod walk;
