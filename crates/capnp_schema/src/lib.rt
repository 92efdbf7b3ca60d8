//! Schemas that are known only at run time: records of structs, groups and enums, the check that they fit together, and
//! queries of what was checked.
#![tactic(auto)]

pub mod builtin;
mod check;
pub mod exact;
pub mod laws;
mod layers;
mod lists;
pub mod loaded;
mod making;
pub mod meta;
mod names;
pub mod plan;
mod ranges;
pub mod record;
pub mod schema;
pub mod set;
pub mod table_rows;
mod tables;
pub mod value;
