//! The meta set as a table.

use crate::table_rows::FieldRow::{GroupMember, Member, Plain};
use crate::table_rows::NodeRow::{GroupNode, StructNode, UnionNode};
use crate::table_rows::ValueRow::{
    Bool, Data, Int8, Int16, Int32, Int64, Struct, StructList, StructListList, Text, UInt8, UInt16,
    UInt32, UInt64, Void,
};
use crate::table_rows::{FieldRow, NULL, NodeRow};

const NODE: u32 = 1;

const FIELD: u32 = 2;

const SLOT: u32 = 3;

const ANNOTATION: u32 = 4;

const VALUE: u32 = 5;

const BRAND: u32 = 6;

const TYPE: u32 = 7;

const ENUM: u32 = 8;

const ENUMERANT: u32 = 9;

const SET_FIELDS: &[FieldRow] = &[
    Plain("nodes", 0, StructList(NODE, &NULL)),
    Plain("brands", 1, StructList(BRAND, &NULL)),
    Plain("enums", 2, StructList(ENUM, &NULL)),
];

const NODE_FIELDS: &[FieldRow] = &[
    Plain("id", 0, UInt64(0)),
    Plain("dataWords", 4, UInt16(0)),
    Plain("pointers", 5, UInt16(0)),
    Plain("discriminantCount", 6, UInt16(0)),
    Plain("isGroup", 112, Bool(false)),
    Plain("discriminantOffset", 4, UInt32(0)),
    Plain("displayName", 0, Text(&[])),
    Plain("annotations", 1, StructList(ANNOTATION, &NULL)),
    Plain("fields", 2, StructList(FIELD, &NULL)),
];

const FIELD_FIELDS: &[FieldRow] = &[
    Plain("discriminantValue", 0, UInt16(65_535)),
    Plain("name", 0, Text(&[])),
    Plain("annotations", 1, StructList(ANNOTATION, &NULL)),
    GroupMember(0, "slot", SLOT),
    Member(1, "group", 1, UInt32(0)),
];

const SLOT_FIELDS: &[FieldRow] = &[
    Plain("offset", 1, UInt32(0)),
    Plain("default", 2, Struct(VALUE, &NULL)),
];

const ANNOTATION_FIELDS: &[FieldRow] = &[
    Plain("id", 0, UInt64(0)),
    Plain("value", 0, Struct(VALUE, &NULL)),
];

const VALUE_FIELDS: &[FieldRow] = &[
    Member(0, "void", 0, Void),
    Member(1, "bool", 64, Bool(false)),
    Member(2, "int8", 8, Int8(0)),
    Member(3, "int16", 4, Int16(0)),
    Member(4, "int32", 2, Int32(0)),
    Member(5, "int64", 1, Int64(0)),
    Member(6, "uint8", 8, UInt8(0)),
    Member(7, "uint16", 4, UInt16(0)),
    Member(8, "uint32", 2, UInt32(0)),
    Member(9, "uint64", 1, UInt64(0)),
    Member(10, "enum", 4, UInt16(0)),
    Member(11, "text", 0, Text(&[])),
    Member(12, "data", 0, Data(&[])),
    Member(13, "struct", 0, Data(&[])),
    Member(14, "list", 0, Data(&[])),
];

const BRAND_FIELDS: &[FieldRow] = &[
    Plain("node", 0, UInt32(0)),
    Plain("fieldTypes", 0, StructList(TYPE, &NULL)),
    Plain("ownTypes", 1, StructList(TYPE, &NULL)),
    Plain("childTypes", 2, StructListList(TYPE, &NULL)),
];

const TYPE_FIELDS: &[FieldRow] = &[
    Plain("base", 0, UInt16(0)),
    Plain("listCount", 1, UInt16(0)),
    Plain("number", 1, UInt32(0)),
];

const ENUM_FIELDS: &[FieldRow] = &[
    Plain("id", 0, UInt64(0)),
    Plain("displayName", 0, Text(&[])),
    Plain("annotations", 1, StructList(ANNOTATION, &NULL)),
    Plain("enumerants", 2, StructList(ENUMERANT, &NULL)),
    Plain("ownTypes", 3, StructList(TYPE, &NULL)),
    Plain("childTypes", 4, StructListList(TYPE, &NULL)),
];

const ENUMERANT_FIELDS: &[FieldRow] = &[
    Plain("name", 0, Text(&[])),
    Plain("annotations", 1, StructList(ANNOTATION, &NULL)),
];

/// The nodes: brand k is that of node k.
pub(super) static NODES: [NodeRow; 10] = [
    StructNode(0, 0, "SetRecord", 0, 3, SET_FIELDS),
    StructNode(1, 0, "NodeRecord", 3, 3, NODE_FIELDS),
    UnionNode(2, 0, "FieldRecord", 1, 3, 2, 1, FIELD_FIELDS),
    GroupNode(3, 0, "FieldRecord.slot", 1, 3, 0, 0, SLOT_FIELDS),
    StructNode(4, 0, "AnnotationRecord", 1, 1, ANNOTATION_FIELDS),
    UnionNode(5, 0, "ValueRecord", 2, 1, 15, 0, VALUE_FIELDS),
    StructNode(6, 0, "BrandRecord", 1, 3, BRAND_FIELDS),
    StructNode(7, 0, "TypeRecord", 1, 0, TYPE_FIELDS),
    StructNode(8, 0, "EnumRecord", 1, 5, ENUM_FIELDS),
    StructNode(9, 0, "EnumerantRecord", 0, 2, ENUMERANT_FIELDS),
];
