//! How much there is of the values of a set: what pointers in their words lead to can be shared, so a small set can hold
//! values without end.
ghost use Rattle.std.specs.Prelude.{ℕ, ◌+◌, map};
ghost use Rattle.capnp_wire.specs.Steps.Unfolding.{IsLeft};
ghost use Rattle.capnp_wire.specs.Unfolded.{unfolded};
ghost use Rattle.capnp_schema.specs.Accepted.{words_root};
ghost use Rattle.capnp_schema.specs.Schema.{Annotation, Enum, Enumerant, Field, Node, default_of, seen_annotation, seen_enum, seen_enumerant, seen_field, seen_node, seen_value};
ghost use Rattle.capnp_sets.specs.Unfolded.{annotation_size, enum_size, enumerant_size, field_size, node_size, total, value_size};

use capnp_schema::record::{
    AnnotationRecord, EnumRecord, EnumerantRecord, FieldKind, FieldRecord, NodeRecord, ValueRecord,
};
use capnp_wire::PointerReader;

/// A part of a set that has values.
trait Unfolded {
    // What it is to definitions, and how much there is of its values.
    ghost Seen: { Type 0 };

    ghost seen: { Self → Seen };

    ghost size: { Seen → ℕ };

    /// What is left of an allowance behind its values.
    fn left_of(&self, left: u64) -> Option<u64>
        ensures { IsLeft left (size (seen self.now)) result };
}

/// What is left behind the values of parts.
fn left_of_all<T: Unfolded>(left: u64, parts: &[T]) -> Option<u64>
    ensures { IsLeft left (total T.size (map T.seen parts.now)) result }
{
    let mut rest = left;
    for index in 0..parts.len() {
        match parts[index].left_of(rest) {
            Some(less) => rest = less,
            None => return None,
        }
    }
    Some(rest)
}

/// What is left behind words.
fn left_of_words(left: u64, words: &[u8]) -> Option<u64>
    ensures { IsLeft left (unfolded (words_root words.now)) result }
{
    match PointerReader::from_words(words).unfolded_size(left) {
        Some(size) => Some(left - size),
        None => None,
    }
}

/// What is left behind a value.
fn left_of_value(left: u64, value: &ValueRecord) -> Option<u64>
    ensures { IsLeft left (value_size (seen_value value.now)) result }
{
    match value {
        ValueRecord::Struct(words) => left_of_words(left, words.as_slice()),
        ValueRecord::List(words) => left_of_words(left, words.as_slice()),
        ValueRecord::AnyPointer(words) => left_of_words(left, words.as_slice()),
        _ => Some(left),
    }
}

/// What is left behind a field's default; a group has none.
fn left_of_default(left: u64, field: &FieldRecord) -> Option<u64>
    ensures { IsLeft left (value_size (default_of (seen_field field.now))) result }
{
    match &field.kind {
        FieldKind::Slot { default, .. } => left_of_value(left, default),
        FieldKind::Group { .. } => Some(left),
    }
}

impl Unfolded for AnnotationRecord {
    ghost Seen = { Annotation };

    ghost seen = { seen_annotation };

    ghost size = { annotation_size };

    fn left_of(&self, left: u64) -> Option<u64> {
        left_of_value(left, &self.value)
    }
}

impl Unfolded for FieldRecord {
    ghost Seen = { Field };

    ghost seen = { seen_field };

    ghost size = { field_size };

    fn left_of(&self, left: u64) -> Option<u64> {
        match left_of_default(left, self) {
            Some(rest) => left_of_all(rest, self.annotations.as_slice()),
            None => None,
        }
    }
}

impl Unfolded for NodeRecord {
    ghost Seen = { Node };

    ghost seen = { seen_node };

    ghost size = { node_size };

    fn left_of(&self, left: u64) -> Option<u64> {
        match left_of_all(left, self.annotations.as_slice()) {
            Some(rest) => left_of_all(rest, self.body.fields.as_slice()),
            None => None,
        }
    }
}

impl Unfolded for EnumerantRecord {
    ghost Seen = { Enumerant };

    ghost seen = { seen_enumerant };

    ghost size = { enumerant_size };

    fn left_of(&self, left: u64) -> Option<u64> {
        left_of_all(left, self.annotations.as_slice())
    }
}

impl Unfolded for EnumRecord {
    ghost Seen = { Enum };

    ghost seen = { seen_enum };

    ghost size = { enum_size };

    fn left_of(&self, left: u64) -> Option<u64> {
        match left_of_all(left, self.annotations.as_slice()) {
            Some(rest) => left_of_all(rest, self.enumerants.as_slice()),
            None => None,
        }
    }
}

/// What is left behind the values of a set's nodes and enums.
pub(crate) fn left_of_values(left: u64, nodes: &[NodeRecord], enums: &[EnumRecord]) -> Option<u64>
    ensures { IsLeft left (total node_size (map seen_node nodes.now) + total enum_size (map seen_enum enums.now)) result }
{
    match left_of_all(left, nodes) {
        Some(rest) => left_of_all(rest, enums),
        None => None,
    }
}
