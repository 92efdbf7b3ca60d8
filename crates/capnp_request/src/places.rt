//! The brands of the request set, and the fields of each by index.

/// The brands, by number.
pub(crate) mod brands {
    pub(crate) const REQUEST: u32 = 0;

    pub(crate) const FILE: u32 = 1;

    pub(crate) const NODE: u32 = 2;

    pub(crate) const STRUCT: u32 = 3;

    pub(crate) const ENUM: u32 = 4;

    pub(crate) const DECLARATION: u32 = 5;

    pub(crate) const NESTED: u32 = 6;

    pub(crate) const PARAMETER: u32 = 7;

    pub(crate) const FIELD: u32 = 8;

    pub(crate) const SLOT: u32 = 9;

    pub(crate) const GROUP: u32 = 10;

    pub(crate) const ENUMERANT: u32 = 11;

    pub(crate) const ANNOTATION: u32 = 12;

    pub(crate) const TYPE: u32 = 13;

    pub(crate) const TYPE_LIST: u32 = 14;

    pub(crate) const TYPE_ENUM: u32 = 15;

    pub(crate) const TYPE_STRUCT: u32 = 16;

    pub(crate) const TYPE_UNTYPED: u32 = 17;

    pub(crate) const TYPE_PARAMETER: u32 = 18;

    pub(crate) const BRAND: u32 = 19;

    pub(crate) const SCOPE: u32 = 20;

    pub(crate) const BINDING: u32 = 21;

    pub(crate) const VALUE: u32 = 22;
}

pub(crate) const REQUEST_NODES: u16 = 0;

pub(crate) const REQUEST_FILES: u16 = 1;

/// The id of a requested file, and that of a nested node.
pub(crate) const LISTED_ID: u16 = 0;

pub(crate) const NODE_ID: u16 = 0;

pub(crate) const NODE_DISPLAY_NAME: u16 = 1;

pub(crate) const NODE_SCOPE_ID: u16 = 2;

pub(crate) const NODE_NESTED_NODES: u16 = 3;

pub(crate) const NODE_ANNOTATIONS: u16 = 4;

pub(crate) const NODE_STRUCT: u16 = 6;

pub(crate) const NODE_ENUM: u16 = 7;

pub(crate) const NODE_ANNOTATION: u16 = 10;

pub(crate) const NODE_PARAMETERS: u16 = 11;

pub(crate) const STRUCT_DATA_WORDS: u16 = 0;

pub(crate) const STRUCT_POINTERS: u16 = 1;

pub(crate) const STRUCT_IS_GROUP: u16 = 2;

pub(crate) const STRUCT_DISCRIMINANTS: u16 = 3;

pub(crate) const STRUCT_DISCRIMINANT_OFFSET: u16 = 4;

pub(crate) const STRUCT_FIELDS: u16 = 5;

pub(crate) const ENUM_ENUMERANTS: u16 = 0;

pub(crate) const DECLARED_TYPE: u16 = 0;

pub(crate) const FIELD_NAME: u16 = 0;

pub(crate) const FIELD_ANNOTATIONS: u16 = 1;

pub(crate) const FIELD_DISCRIMINANT: u16 = 2;

pub(crate) const FIELD_SLOT: u16 = 3;

pub(crate) const FIELD_GROUP: u16 = 4;

pub(crate) const SLOT_OFFSET: u16 = 0;

pub(crate) const SLOT_TYPE: u16 = 1;

pub(crate) const SLOT_DEFAULT: u16 = 2;

pub(crate) const GROUP_ID: u16 = 0;

pub(crate) const ENUMERANT_NAME: u16 = 0;

pub(crate) const ENUMERANT_ANNOTATIONS: u16 = 1;

pub(crate) const ANNOTATION_ID: u16 = 0;

pub(crate) const ANNOTATION_VALUE: u16 = 1;

pub(crate) const ANNOTATION_BRAND: u16 = 2;

pub(crate) const TYPE_LIST: u16 = 14;

pub(crate) const TYPE_ENUM: u16 = 15;

pub(crate) const TYPE_STRUCT: u16 = 16;

pub(crate) const TYPE_UNTYPED: u16 = 18;

pub(crate) const LIST_ELEMENT: u16 = 0;

/// The id of the struct or enum that a type names.
pub(crate) const NAMED_ID: u16 = 0;

pub(crate) const STRUCT_BRAND: u16 = 1;

pub(crate) const PARAMETER_SCOPE: u16 = 0;

pub(crate) const PARAMETER_INDEX: u16 = 1;

pub(crate) const BRAND_SCOPES: u16 = 0;

pub(crate) const SCOPE_ID: u16 = 0;

pub(crate) const SCOPE_BIND: u16 = 1;

pub(crate) const SCOPE_INHERIT: u16 = 2;

pub(crate) const BINDING_UNBOUND: u16 = 0;

pub(crate) const BINDING_TYPE: u16 = 1;

pub(crate) const VALUE_UNTYPED: u16 = 18;

/// Where the slots among these are: a number in units of its size, a truth value in bits, any other among the pointers.
pub(crate) mod slots {
    pub(crate) const REQUEST_NODES: u16 = 0;

    pub(crate) const REQUEST_FILES: u16 = 1;

    pub(crate) const LISTED_ID: u32 = 0;

    pub(crate) const NODE_ID: u32 = 0;

    pub(crate) const NODE_DISPLAY_NAME: u16 = 0;

    pub(crate) const NODE_SCOPE_ID: u32 = 2;

    pub(crate) const NODE_NESTED_NODES: u16 = 1;

    pub(crate) const NODE_ANNOTATIONS: u16 = 2;

    pub(crate) const NODE_PARAMETERS: u16 = 5;

    pub(crate) const STRUCT_DATA_WORDS: u32 = 7;

    pub(crate) const STRUCT_POINTERS: u32 = 12;

    pub(crate) const STRUCT_IS_GROUP: u32 = 224;

    pub(crate) const STRUCT_DISCRIMINANTS: u32 = 15;

    pub(crate) const STRUCT_DISCRIMINANT_OFFSET: u32 = 8;

    pub(crate) const STRUCT_FIELDS: u16 = 3;

    pub(crate) const ENUM_ENUMERANTS: u16 = 3;

    pub(crate) const DECLARED_TYPE: u16 = 3;

    pub(crate) const FIELD_NAME: u16 = 0;

    pub(crate) const FIELD_ANNOTATIONS: u16 = 1;

    pub(crate) const FIELD_DISCRIMINANT: u32 = 1;

    pub(crate) const SLOT_OFFSET: u32 = 1;

    pub(crate) const SLOT_TYPE: u16 = 2;

    pub(crate) const SLOT_DEFAULT: u16 = 3;

    pub(crate) const GROUP_ID: u32 = 2;

    pub(crate) const ENUMERANT_NAME: u16 = 0;

    pub(crate) const ENUMERANT_ANNOTATIONS: u16 = 1;

    pub(crate) const ANNOTATION_ID: u32 = 0;

    pub(crate) const ANNOTATION_VALUE: u16 = 0;

    pub(crate) const ANNOTATION_BRAND: u16 = 1;

    pub(crate) const LIST_ELEMENT: u16 = 0;

    pub(crate) const NAMED_ID: u32 = 1;

    pub(crate) const STRUCT_BRAND: u16 = 0;

    pub(crate) const PARAMETER_SCOPE: u32 = 2;

    pub(crate) const PARAMETER_INDEX: u32 = 5;

    pub(crate) const BRAND_SCOPES: u16 = 0;

    pub(crate) const SCOPE_ID: u32 = 0;

    pub(crate) const SCOPE_BIND: u16 = 0;

    pub(crate) const BINDING_TYPE: u16 = 0;
}
