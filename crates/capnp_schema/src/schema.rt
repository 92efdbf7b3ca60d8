//! Schemas of structs and enums: queries of a set by handles that are copied.
//!
//! A handle borrows the set. Its numbers mean something in that set alone, so handles that are compared come from one
//! set.
//!
//! No call takes memory. The conditions are that a raw schema which is given to `new` is one of the set, and that an
//! index is below the length.
mod annotations;
mod by_name;
mod by_number;
mod enums;
mod field_list;
mod field_subset;
mod fields;
mod group_walk;
pub mod laws;
mod positions;
mod structs;

pub use annotations::{Annotation, AnnotationList};
pub use enums::{EnumSchema, Enumerant, EnumerantList};
pub use field_list::FieldList;
pub use field_subset::FieldSubset;
pub use fields::Field;
pub use group_walk::GroupWalk;
pub use structs::StructSchema;
