//! What a conversion reads everywhere.
use crate::schema_nodes::SchemaNodes;
use std::alloc::Global;

/// What a conversion reads everywhere: memory, whether floats and interfaces are refused, and the schema nodes.
#[derive(Clone, Copy)]
pub(crate) struct Context<'n, 'a> {
    pub(crate) alloc: Global,
    pub(crate) strict: bool,
    pub(crate) nodes: &'n SchemaNodes<'a>,
}
