//! Calls along paths of a struct that is built, whose schema is known only at run time: one, lists of them, and runs on
//! whole messages.
#![tactic(auto)]

pub mod answer;
pub mod calls;
pub mod end;
pub mod enter;
pub mod hop;
pub mod list_end;
pub mod message;
pub mod runs;
pub mod walk;
pub mod way;
