//! Reads of structs under a set that is known when the code is written.
//!
//! Who asks names a field by its brand and index and tells its place. The place is proved to be the field's, so that no
//! schema, plan or name is looked up.
#![tactic(auto)]

pub mod known_set;
pub mod laws;
pub mod members;
pub mod numbers;
pub mod pointers;
