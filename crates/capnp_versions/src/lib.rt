//! What differs between two versions of a schema, which come as two sets.
#![tactic(auto)]

mod changes;
mod every;
mod lines;
mod names;
mod notes;
mod shared;
mod versions;

pub use every::{FullComparison, compare_all, compare_all_owned, get_report};
pub use versions::{Comparison, compare, get_named_report};
