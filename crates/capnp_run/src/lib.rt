//! Lists of calls along paths of a struct that is built, whose schema is known only at run time, by its builder; and,
//! from the crates below, those by its place, runs on whole messages, a single call, schemas that are compatible
//! successors of others, and sets of schemas that come as messages.
#![tactic(auto)]

pub mod run;

pub use capnp_call::{answer, calls, end, enter, list_end, message, walk, way};
pub use capnp_compatible::Compatible;
pub use capnp_sets::message::read_message;
pub use capnp_sets::sets::{read_schema_set, read_set};
