//! Values as they are printed, read back: structs, lists and what they hold.
//!
//! `shown::read_shown` reads the brackets, names and leaves of a text. `calls::field_calls` and `calls::root_calls` say by
//! which calls such a text makes a field's value or a root. `value::read_field`, `value::read_element` and `value::read_root` make them
//! on a new message.
#![tactic(auto)]

mod alone;
pub mod calls;
pub mod error;
pub mod laws;
mod leaf;
mod lengths;
pub mod made;
pub mod parts;
pub mod shown;
pub mod target;
pub mod value;
