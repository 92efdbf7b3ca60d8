//! Brands of a set by their numbers.
ghost use Rattle.std.specs.Prelude.{◌≡◌, ◌<◌, length};
ghost use Rattle.capnp_schema.specs.Entries.{lists_seen};
ghost use Rattle.capnp_schema.specs.Accepted.{IsAccepted};
ghost use Rattle.capnp_schema.specs.Schema.{field_at, fields_of, node_of, seen_node};
ghost use Rattle.capnp_schema.specs.FieldLists.{list_schema, typed_of};
ghost use Rattle.capnp_schema.specs.StructHandles.{number_of, set_of};

use capnp_schema::record::NodeRecord;
use capnp_schema::schema::{Field, FieldList};
use capnp_schema::set::SchemaSet;

/// The node of a brand.
pub(crate) fn node_of(schemas: &SchemaSet, number: u32) -> &NodeRecord
    ensures { seen_node result.now ≡ node_of (lists_seen schemas.now) number }
{
    schemas.struct_schema(number).get_proto()
}

/// The fields of a brand.
fn list_of(schemas: &SchemaSet, number: u32) -> FieldList<'_>
    ensures set { set_of (list_schema result) ≡ lists_seen schemas.now }
    ensures number { number_of (list_schema result) ≡ number }
{
    match schemas.struct_schema(number).get_fields() {
        Ok(list) => list,
        Err(_) => unreachable!(),
    }
}

/// How many fields a brand has.
pub(crate) fn field_count(schemas: &SchemaSet, number: u32) -> u16
    ensures { result ≡ length (fields_of (lists_seen schemas.now) number) }
{
    list_of(schemas, number).len()
}

/// A field of a brand.
#[tactic(auto, using(crate::proofs::FieldLookUps::field_is))]
pub(crate) fn field_of(schemas: &SchemaSet, number: u32, index: u16) -> Field<'_>
    requires { index < length (fields_of (lists_seen schemas.now) number) }
    ensures { typed_of result ≡ field_at (lists_seen schemas.now) number index }
{
    list_of(schemas, number).get(index)
}

/// Every set meets the rules.
pub(crate) fn is_accepted(schemas: &SchemaSet)
    ensures { IsAccepted (lists_seen schemas.now) }
{
    let _nodes = schemas.nodes();
}
