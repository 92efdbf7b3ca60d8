//! Parts of structs and lists, taken one after another without a condition but that a field belongs to its struct: of
//! those that are read here, of those that are built in `build`.

pub mod build;

pub use capnp_dynamic_readers::parts::{list_named, struct_at, struct_in, struct_named};
