//! Which struct schemas are compatible successors of others, and what an older schema sees of a struct.
#![tactic(auto)]

mod brands;
mod check;
mod decide;
mod defaults;
mod fields;
mod first;
mod named;
mod pairs;
mod types;

pub use check::Compatible;
