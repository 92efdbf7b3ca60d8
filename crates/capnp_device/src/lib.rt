//! The refusals of every call, and the devices that give and take bytes.
#![tactic(auto)]

pub mod call_plan;
pub mod device;
pub mod error;
pub mod memory;
pub mod transfer;
