//! The built-in set as a table.

use crate::builtin::{FLAT, LOOP};
use crate::table_rows::FieldRow::{AnnotatedField, GroupMember, Member, Plain};
use crate::table_rows::NodeRow::{AnnotatedNode, GroupNode, StructNode, UnionNode};
use crate::table_rows::ValueRow::{
    AnyPointer, Bool, Data, Enum, Int8, Int32, Struct, StructList, Text, UInt8, UInt8List, UInt16,
    UInt32, UInt64, Void,
};
use crate::table_rows::{AnnotationRow, FieldRow, NULL, NodeRow};
use capnp_base::introspect::{RawEnumSchema, TypeVariant};

/// The numbers of the groups.
const CIRCLE: u32 = 4;

const TAG: u32 = 5;

/// A struct of one data word, which is 1, and one null pointer.
const LOOP_WORDS: [u8; 24] = [
    0, 0, 0, 0, 1, 0, 1, 0, 1, 0, 0, 0, 0, 0, 0, 0, 0, 0, 0, 0, 0, 0, 0, 0,
];

const FLAT_FIELDS: &[FieldRow] = &[Plain("a", 0, UInt16(0))];

const MIXED_FIELDS: &[FieldRow] = &[
    Plain("a", 0, UInt16(0)),
    Member(0, "x", 0, Void),
    Member(1, "y", 4, UInt8(0)),
    Plain("b", 0, Text(&[])),
];

const MANY_FIELDS: &[FieldRow] = &[
    Plain("flag", 0, Bool(true)),
    Plain("s", 1, Int8(-1)),
    Plain("n", 1, UInt16(7)),
    Plain("w", 1, Int32(0)),
    Plain("q", 1, UInt64(0)),
    Plain("z", 0, Void),
];

const SHAPES_FIELDS: &[FieldRow] = &[
    Plain("id", 0, UInt16(0)),
    GroupMember(0, "circle", CIRCLE),
    GroupMember(1, "tag", TAG),
    Member(2, "word", 0, Text(&[])),
];

const CIRCLE_FIELDS: &[FieldRow] = &[Plain("r", 1, UInt32(0))];

const TAG_FIELDS: &[FieldRow] = &[
    Plain("n", 2, UInt16(0)),
    Member(0, "u0", 0, Void),
    Member(1, "u1", 8, UInt8(0)),
    Plain("any", 0, AnyPointer(&NULL)),
    Plain("q", 1, Text(&[])),
];

const LOOP_FIELDS: &[FieldRow] = &[
    Member(0, "end", 0, Void),
    Member(1, "again", 0, Struct(LOOP, &LOOP_WORDS)),
];

const LISTS_FIELDS: &[FieldRow] = &[
    Plain("bytes", 0, UInt8List(&NULL)),
    Plain("raw", 1, Data(&[])),
    Plain("t", 2, Text(&[])),
    Plain("items", 3, StructList(FLAT, &NULL)),
];

const SIZE: TypeVariant = TypeVariant::Enum(RawEnumSchema { number: 0 });

const ID_ANNOTATIONS: &[AnnotationRow] = &[
    AnnotationRow(8, TypeVariant::Text, UInt16(5)),
    AnnotationRow(9, SIZE, Enum(0, 2)),
    AnnotationRow(10, TypeVariant::Text, Enum(0, 2)),
];

const NODE_FIELDS: &[FieldRow] = &[
    AnnotatedField("id", 0, UInt64(0), ID_ANNOTATIONS),
    Plain("displayName", 0, Text(&[])),
    Plain("size", 4, Enum(0, 0)),
];

const NODE_ANNOTATIONS: &[AnnotationRow] = &[AnnotationRow(7, TypeVariant::Text, Text(b"note"))];

/// The nodes: brand k is that of node k.
pub(super) static NODES: [NodeRow; 9] = [
    StructNode(0, 100, "Flat", 1, 0, FLAT_FIELDS),
    UnionNode(1, 101, "Mixed", 1, 1, 2, 1, MIXED_FIELDS),
    StructNode(2, 102, "Many", 2, 0, MANY_FIELDS),
    UnionNode(3, 103, "Shapes", 2, 2, 3, 1, SHAPES_FIELDS),
    GroupNode(4, 104, "Shapes.circle", 2, 2, 0, 0, CIRCLE_FIELDS),
    GroupNode(5, 105, "Shapes.tag", 2, 2, 2, 3, TAG_FIELDS),
    UnionNode(6, 106, "Loop", 1, 1, 2, 0, LOOP_FIELDS),
    StructNode(7, 107, "Lists", 0, 4, LISTS_FIELDS),
    AnnotatedNode(8, 108, "Node", 2, 1, NODE_FIELDS, NODE_ANNOTATIONS),
];

/// The names of the enumerants of `ElementSize`.
pub(super) static SIZES: [&str; 8] = [
    "empty",
    "bit",
    "byte",
    "twoBytes",
    "fourBytes",
    "eightBytes",
    "pointer",
    "inlineComposite",
];
