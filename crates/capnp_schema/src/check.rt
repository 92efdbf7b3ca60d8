//! The rules of a schema set, each with a function that decides it.

mod claims;
pub(crate) mod counts;
mod entries;
pub(crate) mod fields;
pub(crate) mod footprints;
pub(crate) mod groups;
pub(crate) mod lengths;
mod list_defaults;
pub(crate) mod names;
mod refusal;
mod spans;
mod tour;
pub(crate) mod types;
pub(crate) mod unions;
pub(crate) mod values;
