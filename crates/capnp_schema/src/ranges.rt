//! What Rust's integer types bound in the records of a set. The walk only says so: it computes nothing.
ghost use Rattle.std.specs.Prelude.{All, map};
ghost use Rattle.capnp_wire.specs.WellFormed.{AreBytes};
ghost use Rattle.capnp_schema.specs.Schema.{seen_annotations, seen_enum, seen_enumerant, seen_field, seen_kind, seen_node, seen_value, kind_default, Enumerant};
ghost use Rattle.capnp_schema.specs.Entries.{lists_seen};
ghost use Rattle.capnp_schema.specs.Accepted.{EachOfEnum, IsAccepted};
ghost use Rattle.capnp_schema.specs.Ranges.{HasRanges, IsSigned, KindFits, NodeFits, ValueFits, ValuesFit};
ghost use Rattle.capnp_schema.specs.Steps.EntryRanges.{EntriesFit, EntryFits, FieldFits};

use crate::lists::Lists;
use crate::record::{
    AnnotationRecord, EnumRecord, EnumerantRecord, FieldKind, FieldRecord, NodeRecord, ValueRecord,
};

/// What a slice of `u8` holds is bytes.
fn bytes_fit(bytes: &[u8])
    ensures { AreBytes bytes.now }
{}

fn one_byte_fits(_number: i8)
    ensures { IsSigned 1 _number }
{}

fn two_bytes_fit(_number: i16)
    ensures { IsSigned 2 _number }
{}

fn four_bytes_fit(_number: i32)
    ensures { IsSigned 4 _number }
{}

fn eight_bytes_fit(_number: i64)
    ensures { IsSigned 8 _number }
{}

/// The numbers and bytes of a value.
fn value_fits(value: &ValueRecord)
    ensures { ValueFits (seen_value value.now) }
{
    match value {
        ValueRecord::Void | ValueRecord::Bool(_) => {}
        ValueRecord::Int8(number) => one_byte_fits(*number),
        ValueRecord::Int16(number) => two_bytes_fit(*number),
        ValueRecord::Int32(number) => four_bytes_fit(*number),
        ValueRecord::Int64(number) => eight_bytes_fit(*number),
        ValueRecord::UInt8(number) => {
            let _number = *number;
        }
        ValueRecord::UInt16(number) => {
            let _number = *number;
        }
        ValueRecord::UInt32(number) => {
            let _number = *number;
        }
        ValueRecord::UInt64(number) => {
            let _number = *number;
        }
        ValueRecord::Enum(number) => {
            let _number = *number;
        }
        ValueRecord::Text(bytes) => bytes_fit(bytes),
        ValueRecord::Data(bytes) => bytes_fit(bytes),
        ValueRecord::Struct(words) => bytes_fit(words),
        ValueRecord::List(words) => bytes_fit(words),
        ValueRecord::AnyPointer(words) => bytes_fit(words),
    }
}

/// The values of annotations.
fn values_fit(annotations: &[AnnotationRecord])
    ensures { ValuesFit (seen_annotations annotations.now) }
{
    for i in 0..annotations.len() {
        value_fits(&annotations[i].value);
    }
}

/// The number of a field's kind, and its default.
fn kind_fits(kind: &FieldKind)
    ensures number { KindFits (seen_kind kind.now) }
    ensures default { ValueFits (kind_default (seen_kind kind.now)) }
{
    match kind {
        FieldKind::Slot { offset, default } => {
            let _offset = *offset;
            value_fits(default);
        }
        FieldKind::Group { node } => {
            let _node = *node;
        }
    }
}

/// The numbers of a field, its default and its annotations' values.
fn field_fits(field: &FieldRecord)
    ensures { FieldFits (seen_field field.now) }
{
    let _discriminant_value = field.discriminant_value;
    kind_fits(&field.kind);
    values_fit(&field.annotations);
}

fn fields_fit(fields: &[FieldRecord])
    ensures { All FieldFits (map seen_field fields.now) }
{
    for i in 0..fields.len() {
        field_fits(&fields[i]);
    }
}

/// The sections of a node, and its union's count and offset.
fn sections_fit(node: &NodeRecord)
    ensures { NodeFits (seen_node node.now) }
{
    let _data_words = node.body.data_word_count;
    let _pointers = node.body.pointer_count;
    let _discriminant_count = node.body.discriminant_count;
    let _discriminant_offset = node.body.discriminant_offset;
}

/// The numbers of a node and of its fields.
fn node_fits(node: &NodeRecord)
    ensures { EntryFits (seen_node node.now) }
{
    sections_fit(node);
    fields_fit(&node.body.fields);
    values_fit(&node.annotations);
}

fn nodes_fit(nodes: &[NodeRecord])
    ensures { All EntryFits (map seen_node nodes.now) }
{
    for i in 0..nodes.len() {
        node_fits(&nodes[i]);
    }
}

fn enumerants_fit(enumerants: &[EnumerantRecord])
    ensures { All (λ (x : Enumerant). ValuesFit x.annotations) (map seen_enumerant enumerants.now) }
{
    for i in 0..enumerants.len() {
        values_fit(&enumerants[i].annotations);
    }
}

fn enum_fits(entry: &EnumRecord)
    ensures { EachOfEnum ValuesFit (seen_enum entry.now) }
{
    values_fit(&entry.annotations);
    enumerants_fit(&entry.enumerants);
}

fn enums_fit(enums: &[EnumRecord])
    ensures { All (EachOfEnum ValuesFit) (map seen_enum enums.now) }
{
    for i in 0..enums.len() {
        enum_fits(&enums[i]);
    }
}

fn entries_fit(lists: &Lists)
    ensures { EntriesFit (lists_seen lists.now) }
{
    nodes_fit(&lists.nodes);
    enums_fit(&lists.enums);
}

/// The numbers of lists that meet the twelve rules fit their integer types.
pub(crate) fn numbers_fit(lists: &Lists)
    requires { IsAccepted (lists_seen lists.now) }
    ensures { HasRanges (lists_seen lists.now) }
{
    entries_fit(lists);
}
