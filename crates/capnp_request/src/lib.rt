//! Sets of schemas from the requests of the public compiler: what `capnp compile -o-` writes becomes the three lists of
//! which `SchemaSet::new` makes a set.
//!
//! A request is read under the request set (`request_set`). The crate stands on readers alone.
#![tactic(auto)]

mod annotations;
mod context;
mod conversion;
mod entries;
mod enums;
mod field_lists;
mod fields;
mod handles;
mod marks;
mod met;
mod names;
mod notes;
mod parts;
mod places;
pub mod request_set;
mod roots;
mod schema_nodes;
mod scopes;
mod sizes;
mod structs;
mod types;
mod values;
mod within;

pub use conversion::{Converted, read_request};
pub use notes::{Note, StandIn};
pub use within::read_request_within;
