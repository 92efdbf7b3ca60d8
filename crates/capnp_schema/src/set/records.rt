//! Records by numbers, for every number: past the end of a list stands a record with nothing in it.
ghost use Rattle.std.specs.Prelude.{◌≡◌};
ghost use Rattle.capnp_schema.specs.Accepted.{DiscriminantFits};
ghost use Rattle.capnp_schema.specs.Entries.{lists_seen};
ghost use Rattle.capnp_schema.specs.Schema.{enum_at, node_of, seen_enum, seen_node};
ghost use Rattle.capnp_schema.specs.StructHandles.{generic_at};

use crate::record::{EnumRecord, NodeRecord};
use crate::set::SchemaSet;

impl SchemaSet {
    /// The node of a brand.
    #[tactic(auto, using(crate::proofs::ByNumber::node_missing_seen, crate::proofs::ByNumber::node_found_seen))]
    pub(crate) fn node_record(&self, brand: u32) -> &NodeRecord
        ensures is { seen_node result.now ≡ node_of (lists_seen self.now) brand }
        ensures discriminant { DiscriminantFits (node_of (lists_seen self.now) brand) }
    {
        match self.lists.node_of(brand as usize) {
            Some(node) => node,
            None => &self.tables.empty.node,
        }
    }

    /// The number of a brand's node, 0 past the last brand.
    pub(crate) fn generic_number(&self, brand: u32) -> u32
        ensures { result ≡ generic_at (lists_seen self.now) brand }
    {
        match self.lists.brand_at(brand as usize) {
            Some(record) => record.node,
            None => 0,
        }
    }

    /// The enum of a number.
    pub(crate) fn enum_record(&self, number: u32) -> &EnumRecord
        ensures { seen_enum result.now ≡ enum_at (lists_seen self.now) number }
    {
        match self.lists.enum_at(number as usize) {
            Some(record) => record,
            None => &self.tables.empty.enumeration,
        }
    }
}
