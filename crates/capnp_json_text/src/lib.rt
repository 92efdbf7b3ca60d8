//! JSON texts by RFC 8259.
//!
//! `faults::first_fault` says whether bytes are a text, or which byte can't stand. In a text, `kinds`, `items`, `contents`
//! and `values::skip_value` say what stands where, each from the bytes on with which a value begins. `writing` writes
//! strings.
#![tactic(auto)]

pub mod contents;
pub mod decimals;
pub mod faults;
pub mod items;
pub mod kinds;
pub mod laws;
pub mod numbers;
pub mod rest;
pub mod strings;
pub mod values;
pub mod writing;
