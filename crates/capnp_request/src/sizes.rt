//! How many bytes structs and enums have, taken from those that are left.
ghost use Rattle.std.specs.Prelude.{◌≡◌, length, ◌+◌};
ghost use Rattle.std.specs.List.{sum_by};
ghost use Rattle.capnp_schema.specs.Schema.{seen_annotation, seen_enum, seen_enumerant, seen_field, seen_kind, seen_node, seen_value, kind_default};
ghost use Rattle.capnp_schema.specs.declared.record.AnnotationRecord.{AnnotationRecord};
ghost use Rattle.capnp_schema.specs.declared.record.EnumerantRecord.{EnumerantRecord};
ghost use Rattle.capnp_schema.specs.declared.record.FieldRecord.{FieldRecord};
ghost use Rattle.capnp_request.specs.Sizes.{annotation_bytes, enum_bytes, enumerant_bytes, field_bytes, node_bytes, value_bytes};
ghost use Rattle.capnp_request.specs.Steps.Sizes.{IsTaken, enum_bytes_at, node_bytes_at};

use crate::conversion::Converted;
use capnp_schema::record::{
    AnnotationRecord, EnumRecord, EnumerantRecord, FieldKind, FieldRecord, NodeRecord, ValueRecord,
};
use capnp_wire::error::{Error, ErrorKind, Result};

/// What an annotation has in a set's message, its value with it, beside what the value's pointer leads to.
const ANNOTATION_ROW: usize = 40;
/// What a field has there, beside its name, annotations and default.
const FIELD_ROW: usize = 32;
/// What an enumerant has there, beside its name and annotations.
const ENUMERANT_ROW: usize = 16;
/// What a struct or an enum has there, beside its name, annotations, and fields or enumerants.
const ENTRY_ROW: usize = 48;

/// What is left of so many bytes without these. Refused with `TooLarge` where there are fewer.
fn take(left: u64, bytes: usize) -> Result<u64>
    ensures { IsTaken left bytes result }
{
    match left.checked_sub(bytes as u64) {
        Some(rest) => Ok(rest),
        None => Err(Error::from(ErrorKind::TooLarge)),
    }
}

/// How many bytes are behind the pointer of a value.
fn value_size(value: &ValueRecord) -> usize
    ensures { result ≡ value_bytes (seen_value value.now) }
{
    match value {
        ValueRecord::Text(bytes) => bytes.len(),
        ValueRecord::Data(bytes) => bytes.len(),
        ValueRecord::Struct(words) => words.len(),
        ValueRecord::List(words) => words.len(),
        _ => 0,
    }
}

/// How many bytes are behind the pointer of a slot's default.
fn default_size(kind: &FieldKind) -> usize
    ensures { result ≡ value_bytes (kind_default (seen_kind kind.now)) }
{
    match kind {
        FieldKind::Slot { offset: _, default } => value_size(default),
        FieldKind::Group { node: _ } => 0,
    }
}

/// Takes the bytes of annotations. Refused with `TooLarge` where fewer are left.
fn take_annotations(left: u64, annotations: &[AnnotationRecord]) -> Result<u64>
    ensures { IsTaken left (sum_by (λ (a : AnnotationRecord). annotation_bytes (seen_annotation a)) annotations.now) result }
{
    let mut rest = left;
    for annotation in annotations {
        rest = take(rest, ANNOTATION_ROW)?;
        rest = take(rest, value_size(&annotation.value))?;
    }
    Ok(rest)
}

/// Takes the bytes of a row with a name and annotations. Refused with `TooLarge` where fewer are left.
fn take_row(left: u64, row: usize, name: &str, annotations: &[AnnotationRecord]) -> Result<u64>
    ensures { IsTaken left (row + length name.now
        + sum_by (λ (a : AnnotationRecord). annotation_bytes (seen_annotation a)) annotations.now) result }
{
    let left = take(left, row)?;
    let left = take(left, name.len())?;
    take_annotations(left, annotations)
}

/// Takes the bytes of a field. Refused with `TooLarge` where fewer are left.
fn take_field(left: u64, field: &FieldRecord) -> Result<u64>
    ensures { IsTaken left (field_bytes (seen_field field.now)) result }
{
    let left = take_row(left, FIELD_ROW, &field.name, &field.annotations)?;
    take(left, default_size(&field.kind))
}

/// Takes the bytes of fields. Refused with `TooLarge` where fewer are left.
fn take_fields(left: u64, fields: &[FieldRecord]) -> Result<u64>
    ensures { IsTaken left (sum_by (λ (f : FieldRecord). field_bytes (seen_field f)) fields.now) result }
{
    let mut rest = left;
    for field in fields {
        rest = take_field(rest, field)?;
    }
    Ok(rest)
}

/// Takes the bytes of a struct. Refused with `TooLarge` where fewer are left.
fn take_node(left: u64, node: &NodeRecord) -> Result<u64>
    ensures { IsTaken left (node_bytes (seen_node node.now)) result }
{
    let left = take_row(left, ENTRY_ROW, &node.display_name, &node.annotations)?;
    take_fields(left, &node.body.fields)
}

/// Takes the bytes of an enumerant. Refused with `TooLarge` where fewer are left.
fn take_enumerant(left: u64, enumerant: &EnumerantRecord) -> Result<u64>
    ensures { IsTaken left (enumerant_bytes (seen_enumerant enumerant.now)) result }
{
    take_row(left, ENUMERANT_ROW, &enumerant.name, &enumerant.annotations)
}

/// Takes the bytes of enumerants. Refused with `TooLarge` where fewer are left.
fn take_enumerants(left: u64, enumerants: &[EnumerantRecord]) -> Result<u64>
    ensures { IsTaken left (sum_by (λ (e : EnumerantRecord). enumerant_bytes (seen_enumerant e)) enumerants.now) result }
{
    let mut rest = left;
    for enumerant in enumerants {
        rest = take_enumerant(rest, enumerant)?;
    }
    Ok(rest)
}

/// Takes the bytes of an enum. Refused with `TooLarge` where fewer are left.
fn take_enum(left: u64, record: &EnumRecord) -> Result<u64>
    ensures { IsTaken left (enum_bytes (seen_enum record.now)) result }
{
    let left = take_row(left, ENTRY_ROW, &record.display_name, &record.annotations)?;
    take_enumerants(left, &record.enumerants)
}

/// Takes the bytes of the struct of a number, where there is one. Refused with `TooLarge` where fewer are left.
fn take_node_at(left: u64, structs: &[NodeRecord], number: usize) -> Result<u64>
    ensures { IsTaken left (node_bytes_at structs.now number) result }
{
    match structs.get(number) {
        Some(node) => take_node(left, node),
        None => Ok(left),
    }
}

/// Takes the bytes of the enum of a number, where there is one. Refused with `TooLarge` where fewer are left.
fn take_enum_at(left: u64, enums: &[EnumRecord], number: usize) -> Result<u64>
    ensures { IsTaken left (enum_bytes_at enums.now number) result }
{
    match enums.get(number) {
        Some(record) => take_enum(left, record),
        None => Ok(left),
    }
}

/// Takes the bytes of the struct and the enum of these numbers, where there are such. Refused with `TooLarge` where fewer
/// are left.
pub(crate) fn take_next(left: u64, made: &Converted, structs: usize, enums: usize) -> Result<u64>
    ensures { IsTaken left (node_bytes_at made.now.nodes.items structs + enum_bytes_at made.now.enums.items enums) result }
{
    let left = take_node_at(left, &made.nodes, structs)?;
    take_enum_at(left, &made.enums, enums)
}
