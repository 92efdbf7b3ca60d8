//! Lists whose element types are known only at run time.

mod build;

pub use build::Builder;
pub use capnp_dynamic_readers::dynamic_list::Reader;
