//! The request set as a table.

use crate::places::brands;
use capnp_schema::table_rows::FieldRow::{GroupMember, Member, Plain};
use capnp_schema::table_rows::NodeRow::{GroupNode, StructNode, UnionNode};
use capnp_schema::table_rows::ValueRow::{
    AnyPointer, Bool, Data, Int8, Int16, Int32, Int64, Struct, StructList, Text, UInt8, UInt16,
    UInt32, UInt64, Void,
};
use capnp_schema::table_rows::{FieldRow, NULL, NodeRow};

const REQUEST: &[FieldRow] = &[
    Plain("nodes", 0, StructList(brands::NODE, &NULL)),
    Plain("requestedFiles", 1, StructList(brands::FILE, &NULL)),
];

const FILE: &[FieldRow] = &[Plain("id", 0, UInt64(0))];

const NODE: &[FieldRow] = &[
    Plain("id", 0, UInt64(0)),
    Plain("displayName", 0, Text(&[])),
    Plain("scopeId", 2, UInt64(0)),
    Plain("nestedNodes", 1, StructList(brands::NESTED, &NULL)),
    Plain("annotations", 2, StructList(brands::ANNOTATION, &NULL)),
    Member(0, "file", 0, Void),
    GroupMember(1, "struct", brands::STRUCT),
    GroupMember(2, "enum", brands::ENUM),
    Member(3, "interface", 0, Void),
    Member(4, "const", 0, Void),
    GroupMember(5, "annotation", brands::DECLARATION),
    Plain("parameters", 5, StructList(brands::PARAMETER, &NULL)),
];

const STRUCT: &[FieldRow] = &[
    Plain("dataWordCount", 7, UInt16(0)),
    Plain("pointerCount", 12, UInt16(0)),
    Plain("isGroup", 224, Bool(false)),
    Plain("discriminantCount", 15, UInt16(0)),
    Plain("discriminantOffset", 8, UInt32(0)),
    Plain("fields", 3, StructList(brands::FIELD, &NULL)),
];

const ENUM: &[FieldRow] = &[Plain("enumerants", 3, StructList(brands::ENUMERANT, &NULL))];

const DECLARATION: &[FieldRow] = &[Plain("type", 3, Struct(brands::TYPE, &NULL))];

const NESTED: &[FieldRow] = &[Plain("id", 0, UInt64(0))];

const NODE_PARAMETER: &[FieldRow] = &[Plain("name", 0, Text(&[]))];

const FIELD: &[FieldRow] = &[
    Plain("name", 0, Text(&[])),
    Plain("annotations", 1, StructList(brands::ANNOTATION, &NULL)),
    Plain("discriminantValue", 1, UInt16(65_535)),
    GroupMember(0, "slot", brands::SLOT),
    GroupMember(1, "group", brands::GROUP),
];

const SLOT: &[FieldRow] = &[
    Plain("offset", 1, UInt32(0)),
    Plain("type", 2, Struct(brands::TYPE, &NULL)),
    Plain("defaultValue", 3, Struct(brands::VALUE, &NULL)),
];

const GROUP: &[FieldRow] = &[Plain("typeId", 2, UInt64(0))];

const ENUMERANT: &[FieldRow] = &[
    Plain("name", 0, Text(&[])),
    Plain("annotations", 1, StructList(brands::ANNOTATION, &NULL)),
];

const ANNOTATION: &[FieldRow] = &[
    Plain("id", 0, UInt64(0)),
    Plain("value", 0, Struct(brands::VALUE, &NULL)),
    Plain("brand", 1, Struct(brands::BRAND, &NULL)),
];

const TYPE: &[FieldRow] = &[
    Member(0, "void", 0, Void),
    Member(1, "bool", 0, Void),
    Member(2, "int8", 0, Void),
    Member(3, "int16", 0, Void),
    Member(4, "int32", 0, Void),
    Member(5, "int64", 0, Void),
    Member(6, "uint8", 0, Void),
    Member(7, "uint16", 0, Void),
    Member(8, "uint32", 0, Void),
    Member(9, "uint64", 0, Void),
    Member(10, "float32", 0, Void),
    Member(11, "float64", 0, Void),
    Member(12, "text", 0, Void),
    Member(13, "data", 0, Void),
    GroupMember(14, "list", brands::TYPE_LIST),
    GroupMember(15, "enum", brands::TYPE_ENUM),
    GroupMember(16, "struct", brands::TYPE_STRUCT),
    Member(17, "interface", 0, Void),
    GroupMember(18, "anyPointer", brands::TYPE_UNTYPED),
];

const TYPE_LIST: &[FieldRow] = &[Plain("elementType", 0, Struct(brands::TYPE, &NULL))];

const TYPE_ENUM: &[FieldRow] = &[Plain("typeId", 1, UInt64(0))];

const TYPE_STRUCT: &[FieldRow] = &[
    Plain("typeId", 1, UInt64(0)),
    Plain("brand", 0, Struct(brands::BRAND, &NULL)),
];

const TYPE_UNTYPED: &[FieldRow] = &[
    Member(0, "unconstrained", 0, Void),
    GroupMember(1, "parameter", brands::TYPE_PARAMETER),
    Member(2, "implicitMethodParameter", 0, Void),
];

const PARAMETER: &[FieldRow] = &[
    Plain("scopeId", 2, UInt64(0)),
    Plain("parameterIndex", 5, UInt16(0)),
];

const BRAND: &[FieldRow] = &[Plain("scopes", 0, StructList(brands::SCOPE, &NULL))];

const SCOPE: &[FieldRow] = &[
    Plain("scopeId", 0, UInt64(0)),
    Member(0, "bind", 0, StructList(brands::BINDING, &NULL)),
    Member(1, "inherit", 0, Void),
];

const BINDING: &[FieldRow] = &[
    Member(0, "unbound", 0, Void),
    Member(1, "type", 0, Struct(brands::TYPE, &NULL)),
];

const VALUE: &[FieldRow] = &[
    Member(0, "void", 0, Void),
    Member(1, "bool", 16, Bool(false)),
    Member(2, "int8", 2, Int8(0)),
    Member(3, "int16", 1, Int16(0)),
    Member(4, "int32", 1, Int32(0)),
    Member(5, "int64", 1, Int64(0)),
    Member(6, "uint8", 2, UInt8(0)),
    Member(7, "uint16", 1, UInt16(0)),
    Member(8, "uint32", 1, UInt32(0)),
    Member(9, "uint64", 1, UInt64(0)),
    Member(10, "float32", 1, UInt32(0)),
    Member(11, "float64", 1, UInt64(0)),
    Member(12, "text", 0, Text(&[])),
    Member(13, "data", 0, Data(&[])),
    Member(14, "list", 0, AnyPointer(&NULL)),
    Member(15, "enum", 1, UInt16(0)),
    Member(16, "struct", 0, AnyPointer(&NULL)),
    Member(17, "interface", 0, Void),
    Member(18, "anyPointer", 0, AnyPointer(&NULL)),
];

/// The nodes: brand k is that of node k.
pub(super) static NODES: [NodeRow; 23] = [
    StructNode(0, 0, "CodeGeneratorRequest", 0, 4, REQUEST),
    StructNode(1, 0, "CodeGeneratorRequest.RequestedFile", 1, 2, FILE),
    UnionNode(2, 0, "Node", 5, 6, 6, 6, NODE),
    GroupNode(3, 0, "Node.struct", 5, 6, 0, 0, STRUCT),
    GroupNode(4, 0, "Node.enum", 5, 6, 0, 0, ENUM),
    GroupNode(5, 0, "Node.annotation", 5, 6, 0, 0, DECLARATION),
    StructNode(6, 0, "Node.NestedNode", 1, 1, NESTED),
    StructNode(7, 0, "Node.Parameter", 0, 1, NODE_PARAMETER),
    UnionNode(8, 0, "Field", 3, 4, 2, 4, FIELD),
    GroupNode(9, 0, "Field.slot", 3, 4, 0, 0, SLOT),
    GroupNode(10, 0, "Field.group", 3, 4, 0, 0, GROUP),
    StructNode(11, 0, "Enumerant", 1, 2, ENUMERANT),
    StructNode(12, 0, "Annotation", 1, 2, ANNOTATION),
    UnionNode(13, 0, "Type", 3, 1, 19, 0, TYPE),
    GroupNode(14, 0, "Type.list", 3, 1, 0, 0, TYPE_LIST),
    GroupNode(15, 0, "Type.enum", 3, 1, 0, 0, TYPE_ENUM),
    GroupNode(16, 0, "Type.struct", 3, 1, 0, 0, TYPE_STRUCT),
    GroupNode(17, 0, "Type.anyPointer", 3, 1, 3, 4, TYPE_UNTYPED),
    GroupNode(18, 0, "Type.anyPointer.parameter", 3, 1, 0, 0, PARAMETER),
    StructNode(19, 0, "Brand", 0, 1, BRAND),
    UnionNode(20, 0, "Brand.Scope", 2, 1, 2, 4, SCOPE),
    UnionNode(21, 0, "Brand.Binding", 1, 1, 2, 0, BINDING),
    UnionNode(22, 0, "Value", 2, 1, 19, 0, VALUE),
];
