//! Structs, lists and values whose types are known only at run time, as they are read, and their texts.
//!
//! A reader stands on a value of the records (`capnp_records`): what a call answers is said of that value, and a
//! refusal is the fault of its number. A call that reads takes no memory. No call walks a schema: a field is found by
//! its plan. `capnp_dynamic` has all of this, and the builders beside it.
#![tactic(auto)]

mod behind;
mod bits;
pub mod dynamic_list;
pub mod dynamic_struct;
pub mod dynamic_value;
pub mod elements;
pub mod parts;
mod placed;
pub mod presence;
pub mod printer;
mod views;
pub mod walk;
