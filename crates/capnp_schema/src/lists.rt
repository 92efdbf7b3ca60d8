//! The three lists of a set while they are checked, and their entries by number.
ghost use Rattle.std.specs.Prelude.{◌≡◌, ◌<◌, length, map, slice_get};
ghost use Rattle.std.specs.Option.{option_copied, option_map};
ghost use Rattle.capnp_schema.specs.Types.{seen_type};
ghost use Rattle.capnp_schema.specs.Schema.{seen_node, seen_brand, seen_enum, seen_field, typed_fields, fields_of};
ghost use Rattle.capnp_schema.specs.Entries.{lists_seen, brand_entry};
ghost use Rattle.capnp_schema.specs.Steps.Entries.{node_entry, enum_entry, brand_node, seen_typed};

use crate::record::{BrandRecord, EnumRecord, FieldRecord, NodeRecord};
use capnp_base::introspect::Type;

/// The nodes, brands and enums of a set.
#[derive(Drop)]
pub(crate) struct Lists {
    pub(crate) nodes: Vec<NodeRecord>,
    pub(crate) brands: Vec<BrandRecord>,
    pub(crate) enums: Vec<EnumRecord>,
}

/// A field of a brand: its record, and the type that it has in the brand.
#[derive(Clone, Copy)]
pub(crate) struct TypedField<'r> {
    pub(crate) field: &'r FieldRecord,
    pub(crate) field_type: &'r Type,
}

impl Lists {
    /// The node of a number.
    pub(crate) fn node_at(&self, node: usize) -> Option<&NodeRecord>
        ensures { option_map seen_node (option_copied result) ≡ node_entry (lists_seen self.now) node }
    {
        self.nodes.get(node)
    }

    /// The brand of a number.
    pub(crate) fn brand_at(&self, brand: usize) -> Option<&BrandRecord>
        ensures { option_map seen_brand (option_copied result) ≡ brand_entry (lists_seen self.now) brand }
    {
        self.brands.get(brand)
    }

    /// The enum of a number.
    pub(crate) fn enum_at(&self, number: usize) -> Option<&EnumRecord>
        ensures { option_map seen_enum (option_copied result) ≡ enum_entry (lists_seen self.now) number }
    {
        self.enums.get(number)
    }

    /// The node of a brand.
    pub(crate) fn node_of(&self, brand: usize) -> Option<&NodeRecord>
        ensures { option_map seen_node (option_copied result) ≡ brand_node (lists_seen self.now) brand }
    {
        match self.brand_at(brand) {
            Some(record) => self.node_at(record.node as usize),
            None => None,
        }
    }

    /// How many fields a brand has: as many as there are both in its node and among its types.
    #[tactic(auto, using(crate::specs::Facts::Fields::typed_nothing))]
    pub(crate) fn field_count(&self, brand: usize) -> usize
        ensures { result ≡ length (fields_of (lists_seen self.now) brand) }
    {
        let Some(record) = self.brand_at(brand) else {
            return 0;
        };
        let Some(node) = self.node_at(record.node as usize) else {
            return 0;
        };
        count_typed(&node.body.fields, &record.field_types)
    }

    /// A field of a brand.
    #[tactic(auto, using(crate::specs::Facts::Fields::typed_nothing))]
    pub(crate) fn field_at(&self, brand: usize, field: usize) -> Option<TypedField<'_>>
        ensures { option_map seen_typed result ≡ slice_get (fields_of (lists_seen self.now) brand) field }
    {
        let Some(record) = self.brand_at(brand) else {
            return None;
        };
        let Some(node) = self.node_at(record.node as usize) else {
            return None;
        };
        typed_at(&node.body.fields, &record.field_types, field)
    }
}

/// How many fields have a type.
#[tactic(auto, using(crate::proofs::Typed::typed_length))]
fn count_typed(fields: &[FieldRecord], types: &[Type]) -> usize
    ensures { result ≡ length (typed_fields (map seen_field fields.now) (map seen_type types.now)) }
{
    fields.len().min(types.len())
}

/// A field with its type.
#[tactic(auto, using(crate::proofs::Typed::typed_entry_at, crate::proofs::Typed::typed_entry_none))]
fn typed_at<'r>(fields: &'r [FieldRecord], types: &'r [Type], i: usize) -> Option<TypedField<'r>>
    ensures { option_map seen_typed result ≡ slice_get (typed_fields (map seen_field fields.now) (map seen_type types.now)) i }
{
    let Some(field) = entry_at(fields, i) else {
        return None;
    };
    let Some(field_type) = entry_at(types, i) else {
        return None;
    };
    Some(TypedField { field, field_type })
}

/// The entry of a number, none past the last.
pub(crate) fn entry_at<T>(entries: &[T], i: usize) -> Option<&T>
    ensures { option_copied result ≡ slice_get entries.now i }
{
    entries.get(i)
}
