//! Structs whose schemas are known only at run time.

mod build;

pub use build::Builder;
pub use capnp_dynamic_readers::dynamic_struct::Reader;
