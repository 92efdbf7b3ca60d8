//! What the program `riftcalico` does, without its files and streams: words to a plan, a set's bytes to a checked set, and
//! a plan, a set and a message's bytes to an answer.
#![tactic(auto)]

mod all_faults;
pub mod answer;
pub mod calls;
mod change_line;
mod compare;
mod depth;
mod diff;
mod expand;
pub mod fault;
mod field_names;
mod from_json;
mod get;
pub mod job;
mod json;
mod json_values;
mod kinds;
mod last_field;
pub mod laws;
pub mod names;
mod near;
mod note;
pub mod numbered;
mod place;
pub mod plan;
pub mod queries;
mod replies;
mod room;
pub mod schemas;
mod sets;
mod shown_values;
mod wanted;
pub mod whole;
mod words;
