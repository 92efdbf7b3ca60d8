//! Why a struct schema is no compatible successor of another: each difference, with the pair of structs and the field that it
//! is of.
#![tactic(auto)]

mod brands;
mod defaults;
mod differences;
mod enums;
mod fields;
mod first;
mod lists;
mod marks;
mod named;
mod namers;
mod noted;
mod notes;
mod pairs;
mod tell;
mod types;
mod unions;
mod walk;

pub use differences::{Cause, Difference, Explanation, Pair};
pub use enums::enumerant_name;
pub use noted::{Change, EnumPair, Note};
pub use walk::{explain, explain_all};
