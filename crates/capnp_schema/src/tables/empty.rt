//! The records past the ends of the lists of a set.
ghost use Rattle.std.specs.Prelude.{◌≡◌};
ghost use Rattle.capnp_schema.specs.Schema.{no_enum, no_node, seen_enum, seen_node};

use crate::record::{AnnotationTypes, EnumRecord, NodeRecord, StructRecord};
use std::alloc::Global;

/// A node and an enum with nothing in them: what look-ups by numbers past the end of a list hand out.
#[derive(Drop)]
pub(crate) struct EmptyRecords {
    pub(crate) node: NodeRecord,
    pub(crate) enumeration: EnumRecord,
}

/// A node with nothing in it. It takes no memory.
fn empty_node(alloc: Global) -> NodeRecord
    ensures { seen_node result ≡ no_node }
{
    NodeRecord {
        id: 0,
        display_name: String::new(alloc),
        annotations: Vec::new(alloc),
        body: StructRecord {
            data_word_count: 0,
            pointer_count: 0,
            is_group: false,
            discriminant_count: 0,
            discriminant_offset: 0,
            fields: Vec::new(alloc),
        },
    }
}

/// An enum with nothing in it. It takes no memory.
fn empty_enum(alloc: Global) -> EnumRecord
    ensures { seen_enum result ≡ no_enum }
{
    EnumRecord {
        id: 0,
        display_name: String::new(alloc),
        annotations: Vec::new(alloc),
        enumerants: Vec::new(alloc),
        annotation_types: AnnotationTypes {
            own: Vec::new(alloc),
            children: Vec::new(alloc),
        },
    }
}

impl EmptyRecords {
    /// Records that take no memory.
    pub(crate) fn new(alloc: Global) -> EmptyRecords
        ensures node { seen_node result.node ≡ no_node }
        ensures enumeration { seen_enum result.enumeration ≡ no_enum }
    {
        EmptyRecords {
            node: empty_node(alloc),
            enumeration: empty_enum(alloc),
        }
    }
}
