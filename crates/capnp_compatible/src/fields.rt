//! Fields and structs that are shared, where all pairs of structs are related.
ghost use Rattle.std.specs.Prelude.{◌<◌, ◌≤◌, ◌↔◌, IsTrue, length};
ghost use Rattle.capnp_schema.specs.Entries.{lists_seen};
ghost use Rattle.capnp_schema.specs.Schema.{fields_of, node_of};
ghost use Rattle.capnp_schema.specs.FieldLists.{typed_of};
ghost use Rattle.capnp_records.specs.Compatible.{SharedField, SharedStruct};
ghost use Rattle.capnp_compatible.specs.Steps.Closing.{UnionGrows, all_pairs, FieldsShared};

use crate::brands::{field_count, field_of, node_of};
use crate::defaults::are_same_kind;
use crate::types::are_related;
use capnp_schema::schema::Field;
use capnp_schema::set::SchemaSet;

/// Whether two fields are of one place and discriminant value, with the same default and related types. `lists` is
/// whether lists may have become lists of structs.
#[tactic(auto, using(crate::proofs::SharedParts::field_parts))]
fn is_shared(schemas: &SchemaSet, lists: bool, older: Field<'_>, newer: Field<'_>) -> bool
    ensures { IsTrue result ↔ SharedField lists (lists_seen schemas.now) all_pairs (typed_of older.entry)
        (typed_of newer.entry) }
{
    let one = older.get_proto();
    let other = newer.get_proto();
    if one.discriminant_value != other.discriminant_value {
        return false;
    }
    if !are_same_kind(&one.kind, &other.kind) {
        return false;
    }
    are_related(schemas, lists, older.get_type(), newer.get_type())
}

/// Whether the fields of an older struct are shared by a newer one, which has as many.
fn are_fields_shared(schemas: &SchemaSet, lists: bool, older: u32, newer: u32) -> bool
    requires older { older < length (lists_seen schemas.now).brands }
    requires newer { newer < length (lists_seen schemas.now).brands }
    requires enough { length (fields_of (lists_seen schemas.now) older) ≤ length (fields_of (lists_seen schemas.now) newer) }
    ensures yes { IsTrue result → FieldsShared lists (lists_seen schemas.now) all_pairs older newer
        (length (fields_of (lists_seen schemas.now) older)) }
    ensures no { FieldsShared lists (lists_seen schemas.now) all_pairs older newer
        (length (fields_of (lists_seen schemas.now) older)) → IsTrue result }
{
    for i in 0..field_count(schemas, older) {
        if !is_shared(
            schemas,
            lists,
            field_of(schemas, older, i),
            field_of(schemas, newer, i),
        ) {
            return false;
        }
    }
    true
}

/// Whether a newer struct has the union of an older one, with at least as many members.
fn does_union_grow(schemas: &SchemaSet, older: u32, newer: u32) -> bool
    requires older { older < length (lists_seen schemas.now).brands }
    requires newer { newer < length (lists_seen schemas.now).brands }
    ensures { IsTrue result ↔ UnionGrows (node_of (lists_seen schemas.now) older) (node_of (lists_seen schemas.now) newer) }
{
    let one = node_of(schemas, older);
    let other = node_of(schemas, newer);
    if one.body.discriminant_count == 0 {
        return true;
    }
    one.body.discriminant_offset == other.body.discriminant_offset
        && one.body.discriminant_count <= other.body.discriminant_count
}

/// Whether a newer struct is related to an older one, where all pairs of structs are.
#[tactic(auto, using(crate::proofs::SharedParts::struct_parts))]
pub(crate) fn is_successor(schemas: &SchemaSet, lists: bool, older: u32, newer: u32) -> bool
    requires older { older < length (lists_seen schemas.now).brands }
    requires newer { newer < length (lists_seen schemas.now).brands }
    ensures { IsTrue result ↔ SharedStruct lists (lists_seen schemas.now) all_pairs older newer }
{
    if field_count(schemas, older) > field_count(schemas, newer) {
        return false;
    }
    if !does_union_grow(schemas, older, newer) {
        return false;
    }
    are_fields_shared(schemas, lists, older, newer)
}
