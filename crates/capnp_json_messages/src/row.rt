//! Lists that elements are read into.

use capnp_base::introspect::Type;
use capnp_schema::set::SchemaSet;

/// What a list holds: elements of a type of a set, and whether their numbers are floats.
#[derive(Clone, Copy)]
pub struct Row<'s> {
    pub schemas: &'s SchemaSet,
    pub element: Type,
    pub is_float: bool,
}
