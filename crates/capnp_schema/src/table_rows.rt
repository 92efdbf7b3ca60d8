//! Tables of schemas: rows in the words of their definitions, and the records that are made of them.
//!
//! A row is a variant, since a constant's value calls no function. Brand k of a table is that of node k, so that one
//! number names both.
ghost use Rattle.std.specs.Prelude.{◌≡◌, List, map, IfOk};
ghost use Rattle.capnp_schema.specs.Types.{SchemaType, seen_type};
ghost use Rattle.capnp_schema.specs.Builtin.{annotated_node};
ghost use Rattle.capnp_schema.specs.Schema.{Annotation, Brand, Field, Node, Slot, seen_annotation, seen_brand, seen_field, seen_kind, seen_node, seen_value};
ghost use Rattle.capnp_schema.specs.Steps.TableRows as row_steps;
ghost use Rattle.capnp_schema.specs.TableRows as rows;

use crate::record::{
    AnnotationRecord, AnnotationTypes, BrandRecord, FieldKind, FieldRecord, NO_DISCRIMINANT,
    NodeRecord, StructRecord, ValueRecord,
};
use capnp_base::introspect::{RawBrandedStructSchema, RawEnumSchema, Type, TypeVariant};
use std::alloc::{AllocError, Global};

/// A value, with what its field's type needs besides: the number of an enum or a struct.
#[derive(Clone, Copy)]
pub enum ValueRow {
    Void,
    Bool(bool),
    Int8(i8),
    Int16(i16),
    Int32(i32),
    Int64(i64),
    UInt8(u8),
    UInt16(u16),
    UInt32(u32),
    UInt64(u64),
    Enum(u32, u16),
    Text(&'static [u8]),
    Data(&'static [u8]),
    Struct(u32, &'static [u8]),
    StructList(u32, &'static [u8]),
    /// A list of lists of structs.
    StructListList(u32, &'static [u8]),
    UInt8List(&'static [u8]),
    AnyPointer(&'static [u8]),
}

/// The words of a null pointer.
pub const NULL: [u8; 8] = [0; 8];

/// An annotation: its id, its type and its value, which need not be of the type.
#[derive(Clone, Copy)]
pub struct AnnotationRow(pub u64, pub TypeVariant, pub ValueRow);

/// A field.
#[derive(Clone, Copy)]
pub enum FieldRow {
    /// One outside the union: its name, its offset and its default.
    Plain(&'static str, u32, ValueRow),
    /// A member of the union: its discriminant value, and the same.
    Member(u16, &'static str, u32, ValueRow),
    /// A member that is a group: its discriminant value, its name and the group's number.
    GroupMember(u16, &'static str, u32),
    /// One outside the union, with annotations.
    AnnotatedField(&'static str, u32, ValueRow, &'static [AnnotationRow]),
}

/// A node: its number, its id, its name, its data words and pointers; then its union and its fields.
#[derive(Clone, Copy)]
pub enum NodeRow {
    /// A struct without a union.
    StructNode(u32, u64, &'static str, u16, u16, &'static [FieldRow]),
    /// A struct with a union: how many members it has, and where its discriminant stands.
    UnionNode(u32, u64, &'static str, u16, u16, u16, u32, &'static [FieldRow]),
    /// A group, with the same of its union, 0 and 0 where there is none.
    GroupNode(u32, u64, &'static str, u16, u16, u16, u32, &'static [FieldRow]),
    /// A struct without a union, with annotations behind its fields.
    AnnotatedNode(u32, u64, &'static str, u16, u16, &'static [FieldRow], &'static [AnnotationRow]),
}

/// What a row of a table is made into.
pub(crate) trait MadeOf<Row> {
    // What it is to definitions, and what a row stands for there.
    ghost Seen: { Type 0 };

    ghost seen: { Self → Seen };

    ghost of_row: { Row → Seen };

    fn make(alloc: Global, row: &Row) -> Result<Self, AllocError>
        ensures { IfOk result (λ made. seen made ≡ of_row row.now) };
}

/// One of each row.
pub(crate) fn all_made<Row, T: MadeOf<Row> + Drop>(
    alloc: Global,
    rows: &[Row],
) -> Result<Vec<T>, AllocError>
    ensures { IfOk result (λ v. map T.seen v.items ≡ map T.of_row rows.now) }
{
    let mut out = Vec::new(alloc);
    for row in rows {
        let made = T::make(alloc, row)?;
        out.push(made)?;
    }
    Ok(out)
}

/// The nodes of a table.
pub fn node_records(alloc: Global, table: &[NodeRow]) -> Result<Vec<NodeRecord>, AllocError>
    ensures { IfOk result (λ nodes. map seen_node nodes.items ≡ map rows.row_node table.now) }
{
    all_made(alloc, table)
}

/// The brands of a table.
pub fn brand_records(alloc: Global, table: &[NodeRow]) -> Result<Vec<BrandRecord>, AllocError>
    ensures { IfOk result (λ brands. map seen_brand brands.items ≡ map rows.row_brand table.now) }
{
    all_made(alloc, table)
}

/// The struct whose brand and node have a number.
fn struct_variant(number: u32) -> TypeVariant
    ensures { result ≡ row_steps.struct_variant number }
{
    TypeVariant::Struct(RawBrandedStructSchema {
        number,
        generic: number,
    })
}

/// The type of the field whose default a value is.
fn type_of(row: ValueRow) -> Type
    ensures { seen_type result ≡ rows.row_type row }
{
    match row {
        ValueRow::Void => Type::from(TypeVariant::Void),
        ValueRow::Bool(_) => Type::from(TypeVariant::Bool),
        ValueRow::Int8(_) => Type::from(TypeVariant::Int8),
        ValueRow::Int16(_) => Type::from(TypeVariant::Int16),
        ValueRow::Int32(_) => Type::from(TypeVariant::Int32),
        ValueRow::Int64(_) => Type::from(TypeVariant::Int64),
        ValueRow::UInt8(_) => Type::from(TypeVariant::UInt8),
        ValueRow::UInt16(_) => Type::from(TypeVariant::UInt16),
        ValueRow::UInt32(_) => Type::from(TypeVariant::UInt32),
        ValueRow::UInt64(_) => Type::from(TypeVariant::UInt64),
        ValueRow::Enum(number, _) => Type::from(TypeVariant::Enum(RawEnumSchema { number })),
        ValueRow::Text(_) => Type::from(TypeVariant::Text),
        ValueRow::Data(_) => Type::from(TypeVariant::Data),
        ValueRow::Struct(number, _) => Type::from(struct_variant(number)),
        ValueRow::StructList(number, _) => Type::list_of(Type::from(struct_variant(number))),
        ValueRow::StructListList(number, _) => {
            Type::list_of(Type::list_of(Type::from(struct_variant(number))))
        }
        ValueRow::UInt8List(_) => Type::list_of(Type::from(TypeVariant::UInt8)),
        ValueRow::AnyPointer(_) => Type::from(TypeVariant::AnyPointer),
    }
}

fn value_of(alloc: Global, row: ValueRow) -> Result<ValueRecord, AllocError>
    ensures { IfOk result (λ v. seen_value v ≡ rows.row_value row) }
{
    match row {
        ValueRow::Void => Ok(ValueRecord::Void),
        ValueRow::Bool(x) => Ok(ValueRecord::Bool(x)),
        ValueRow::Int8(x) => Ok(ValueRecord::Int8(x)),
        ValueRow::Int16(x) => Ok(ValueRecord::Int16(x)),
        ValueRow::Int32(x) => Ok(ValueRecord::Int32(x)),
        ValueRow::Int64(x) => Ok(ValueRecord::Int64(x)),
        ValueRow::UInt8(x) => Ok(ValueRecord::UInt8(x)),
        ValueRow::UInt16(x) => Ok(ValueRecord::UInt16(x)),
        ValueRow::UInt32(x) => Ok(ValueRecord::UInt32(x)),
        ValueRow::UInt64(x) => Ok(ValueRecord::UInt64(x)),
        ValueRow::Enum(_, x) => Ok(ValueRecord::Enum(x)),
        ValueRow::Text(x) => Ok(ValueRecord::Text(x.to_vec(alloc)?)),
        ValueRow::Data(x) => Ok(ValueRecord::Data(x.to_vec(alloc)?)),
        ValueRow::Struct(_, x) => Ok(ValueRecord::Struct(x.to_vec(alloc)?)),
        ValueRow::StructList(_, x) => Ok(ValueRecord::List(x.to_vec(alloc)?)),
        ValueRow::StructListList(_, x) => Ok(ValueRecord::List(x.to_vec(alloc)?)),
        ValueRow::UInt8List(x) => Ok(ValueRecord::List(x.to_vec(alloc)?)),
        ValueRow::AnyPointer(x) => Ok(ValueRecord::AnyPointer(x.to_vec(alloc)?)),
    }
}

impl MadeOf<AnnotationRow> for AnnotationRecord {
    ghost Seen = { Annotation };

    ghost seen = { seen_annotation };

    ghost of_row = { rows.row_annotation };

    fn make(alloc: Global, row: &AnnotationRow) -> Result<AnnotationRecord, AllocError> {
        let value = value_of(alloc, row.2)?;
        Ok(AnnotationRecord { id: row.0, value })
    }
}

impl MadeOf<AnnotationRow> for Type {
    ghost Seen = { SchemaType };

    ghost seen = { seen_type };

    ghost of_row = { rows.annotation_type };

    fn make(alloc: Global, row: &AnnotationRow) -> Result<Type, AllocError> {
        let _alloc = alloc;
        Ok(Type::from(row.1))
    }
}

fn slot_of(alloc: Global, offset: u32, default: ValueRow) -> Result<FieldKind, AllocError>
    ensures { IfOk result (λ kind. seen_kind kind ≡ Slot offset (rows.row_value default)) }
{
    let default = value_of(alloc, default)?;
    Ok(FieldKind::Slot { offset, default })
}

fn field_of(
    alloc: Global,
    discriminant_value: u16,
    name: &str,
    kind: FieldKind,
    annotations: &[AnnotationRow],
) -> Result<FieldRecord, AllocError>
    ensures { IfOk result (λ f. seen_field f
        ≡ row_steps.typed_row_field discriminant_value name.now (seen_kind kind) (map rows.row_annotation annotations.now)) }
{
    Ok(FieldRecord {
        name: String::from_str(alloc, name)?,
        discriminant_value,
        annotations: all_made(alloc, annotations)?,
        kind,
    })
}

impl MadeOf<FieldRow> for FieldRecord {
    ghost Seen = { Field };

    ghost seen = { seen_field };

    ghost of_row = { rows.row_field };

    fn make(alloc: Global, row: &FieldRow) -> Result<FieldRecord, AllocError> {
        let row = *row;
        match row {
            FieldRow::Plain(name, offset, default) => {
                let kind = slot_of(alloc, offset, default)?;
                field_of(alloc, NO_DISCRIMINANT, name, kind, &[])
            }
            FieldRow::Member(value, name, offset, default) => {
                let kind = slot_of(alloc, offset, default)?;
                field_of(alloc, value, name, kind, &[])
            }
            FieldRow::GroupMember(value, name, node) => {
                field_of(alloc, value, name, FieldKind::Group { node }, &[])
            }
            FieldRow::AnnotatedField(name, offset, default, annotations) => {
                let kind = slot_of(alloc, offset, default)?;
                field_of(alloc, NO_DISCRIMINANT, name, kind, annotations)
            }
        }
    }
}

impl MadeOf<FieldRow> for Type {
    ghost Seen = { SchemaType };

    ghost seen = { seen_type };

    ghost of_row = { rows.field_row_type };

    fn make(alloc: Global, row: &FieldRow) -> Result<Type, AllocError> {
        let _alloc = alloc;
        let row = *row;
        match row {
            FieldRow::Plain(_, _, default) => Ok(type_of(default)),
            FieldRow::Member(_, _, _, default) => Ok(type_of(default)),
            FieldRow::GroupMember(_, _, node) => Ok(Type::from(struct_variant(node))),
            FieldRow::AnnotatedField(_, _, default, _) => Ok(type_of(default)),
        }
    }
}

/// The types of the annotations of a field.
impl MadeOf<FieldRow> for Vec<Type> {
    ghost Seen = { List SchemaType };

    ghost seen = { λ types. map seen_type types.items };

    ghost of_row = { rows.field_annotation_types };

    fn make(alloc: Global, row: &FieldRow) -> Result<Vec<Type>, AllocError> {
        let row = *row;
        match row {
            FieldRow::AnnotatedField(_, _, _, annotations) => all_made(alloc, annotations),
            _ => Ok(Vec::new(alloc)),
        }
    }
}

/// A struct without a union.
fn node_of(
    alloc: Global,
    id: u64,
    name: &str,
    sections: (u16, u16),
    fields: &[FieldRow],
    annotations: &[AnnotationRow],
) -> Result<NodeRecord, AllocError>
    ensures { IfOk result (λ n. seen_node n ≡ annotated_node id name.now sections.0 sections.1
        (map rows.row_field fields.now) (map rows.row_annotation annotations.now)) }
{
    Ok(NodeRecord {
        id,
        display_name: String::from_str(alloc, name)?,
        annotations: all_made(alloc, annotations)?,
        body: StructRecord {
            data_word_count: sections.0,
            pointer_count: sections.1,
            is_group: false,
            discriminant_count: 0,
            discriminant_offset: 0,
            fields: all_made(alloc, fields)?,
        },
    })
}

impl MadeOf<NodeRow> for NodeRecord {
    ghost Seen = { Node };

    ghost seen = { seen_node };

    ghost of_row = { rows.row_node };

    fn make(alloc: Global, row: &NodeRow) -> Result<NodeRecord, AllocError> {
        let row = *row;
        match row {
            NodeRow::StructNode(_, id, name, words, pointers, fields) => {
                node_of(alloc, id, name, (words, pointers), fields, &[])
            }
            NodeRow::UnionNode(_, id, name, words, pointers, count, offset, fields) => {
                let node = node_of(alloc, id, name, (words, pointers), fields, &[])?;
                Ok(node.with_union(count, offset))
            }
            NodeRow::GroupNode(_, id, name, words, pointers, count, offset, fields) => {
                let node = node_of(alloc, id, name, (words, pointers), fields, &[])?;
                Ok(node.with_union(count, offset).as_group())
            }
            NodeRow::AnnotatedNode(_, id, name, words, pointers, fields, annotations) => {
                node_of(alloc, id, name, (words, pointers), fields, annotations)
            }
        }
    }
}

fn brand_of(
    alloc: Global,
    node: u32,
    fields: &[FieldRow],
    annotations: &[AnnotationRow],
) -> Result<BrandRecord, AllocError>
    ensures { IfOk result (λ b. seen_brand b ≡ rows.typed_brand node fields.now annotations.now) }
{
    Ok(BrandRecord {
        node,
        field_types: all_made(alloc, fields)?,
        annotation_types: AnnotationTypes {
            own: all_made(alloc, annotations)?,
            children: all_made(alloc, fields)?,
        },
    })
}

impl MadeOf<NodeRow> for BrandRecord {
    ghost Seen = { Brand };

    ghost seen = { seen_brand };

    ghost of_row = { rows.row_brand };

    fn make(alloc: Global, row: &NodeRow) -> Result<BrandRecord, AllocError> {
        let row = *row;
        match row {
            NodeRow::StructNode(number, _, _, _, _, fields) => brand_of(alloc, number, fields, &[]),
            NodeRow::UnionNode(number, _, _, _, _, _, _, fields) => {
                brand_of(alloc, number, fields, &[])
            }
            NodeRow::GroupNode(number, _, _, _, _, _, _, fields) => {
                brand_of(alloc, number, fields, &[])
            }
            NodeRow::AnnotatedNode(number, _, _, _, _, fields, annotations) => {
                brand_of(alloc, number, fields, annotations)
            }
        }
    }
}
