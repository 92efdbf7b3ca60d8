//! The refusals of every call.
ghost use Rattle.std.specs.Prelude.{◌≡◌};
ghost use Rattle.capnp_device.specs.ErrorNumber.{error_name, error_number};
ghost use Rattle.capnp_device.specs.declared.error.ErrorKind.TheVariants.{OutOfMemory, TypeMismatch};

use std::alloc::{AllocError, AllocFailed};
use std::fmt;

/// The list of schema records in which a rule is broken.
#[derive(Clone, Copy, Debug, PartialEq, Eq)]
pub enum SchemaTable {
    /// The nodes: structs and groups.
    Node,
    /// The brands: the types that a node's fields have.
    Brand,
    /// The enums.
    Enum,
}

impl fmt::Display for SchemaTable {
    fn fmt<W: fmt::Write>(&self, f: &mut fmt::Formatter<W>) -> fmt::Result {
        match self {
            SchemaTable::Node => f.write_str("node"),
            SchemaTable::Brand => f.write_str("brand"),
            SchemaTable::Enum => f.write_str("enum"),
        }
    }
}

/// Why a call was refused. The sections named in quotes are those of the public Cap'n Proto encoding
/// page.
#[derive(Clone, Copy, Debug, PartialEq, Eq, thiserror::Error)]
pub enum ErrorKind {
    /// A growth was refused.
    #[error("out of memory")]
    OutOfMemory,
    /// The input ends inside the segment table, its padding or a segment ("Serialization Over a
    /// Stream").
    #[error("the input is cut short")]
    Truncated,
    /// The segment table says more than 512 segments ("Serialization Over a Stream").
    #[error("more than 512 segments")]
    TooManySegments,
    /// A pointer's target, landing pad or tag is malformed or outside its segment ("Inter-Segment
    /// Pointers", "Pointer Validation").
    #[error("a malformed pointer, or one that leaves its segment")]
    BadPointer,
    /// A struct is read as a list, text or data, or a list as a struct ("Pointer Validation").
    #[error("another kind of pointer stands there")]
    WrongPointerKind,
    /// The list's elements cannot be read with the size that was asked for ("Lists").
    #[error("the list has another element size")]
    WrongElementSize,
    /// A list of bytes that is read as text is empty, or its last byte is not 0 ("Blobs").
    #[error("a text without its final zero byte")]
    TextNotTerminated,
    /// No level of nesting is left ("Stack Overflow DoS Attack").
    #[error("nested too deep")]
    TooDeep,
    /// A capability pointer stands there ("Capabilities (Interfaces)").
    #[error("a capability pointer")]
    CapabilityPointer,
    /// A list, text or data is larger than the format can say ("Lists").
    #[error("larger than the format allows")]
    SizePastFormat,
    /// A total is past 2^64 - 1 words, or a message to encode past 2^29 - 1 words.
    #[error("the message is too large")]
    TooLarge,
    /// The source failed during this call.
    #[error("the source failed")]
    ReadFailed,
    /// The sink failed during this call.
    #[error("the sink failed")]
    WriteFailed,
    /// The struct has no field of that name or number.
    #[error("no such field")]
    FieldNotFound,
    /// The value's kind is not that of the field or element.
    #[error("a value of another type")]
    TypeMismatch,
    /// A group is set to a value that is no struct.
    #[error("the value is not a struct")]
    NotAStruct,
    /// An element that is neither a list nor a text or data is given a length.
    #[error("the element is neither a list nor a blob")]
    ExpectedAListOrBlob,
    /// An element of a list of untyped pointers is set or initialized.
    #[error("lists of untyped pointers are not supported")]
    ListAnyPointerNotSupported,
    /// A field that is neither a struct nor an untyped pointer is initialized without a length.
    #[error("init is only valid for struct and untyped pointer fields")]
    InitIsOnlyValidForStructAndAnyPointerFields,
    /// A field that is no list, text or data is initialized with a length.
    #[error("initn is only valid for list, text or data fields")]
    InitnIsOnlyValidForListTextOrDataFields,
    /// An untyped field is set to a value that no pointer stands for.
    #[error("an untyped pointer field cannot be set to a primitive value")]
    CannotSetAnyPointerFieldToAPrimitiveValue,
    /// A path goes through a union's member that is not the active one.
    #[error("the union's active member is another one")]
    InactiveMember,
    /// A path goes through an untyped pointer.
    #[error("a step through an untyped pointer")]
    UntypedStep,
    /// A path names an element past the end of its list.
    #[error("no such element")]
    NoSuchElement,
    /// A step or call of a path does not fit what stands there.
    #[error("the step does not fit what stands there")]
    NotAContainer,
    /// A rule of schemas is broken at this place. Where several are, any of them may be named.
    #[error("schema rule {rule} is broken in {table} {entry}, field {field}")]
    Schema {
        // The small ones first, so that they stand beside the number of the variant: a refusal is copied at each
        // return.
        /// The list of records.
        table: SchemaTable,
        /// The field, counted from 0 in its record; 65,535 where the whole record is meant.
        field: u16,
        /// The rule's number.
        rule: u32,
        /// The record, counted from 0 in its list.
        entry: usize,
    },
    /// A type is a floating point number, which schema records do not have.
    #[error("schemas here have no floating point types")]
    FloatType,
    /// A type is an interface, which schema records do not have.
    #[error("schemas here have no interface types")]
    InterfaceType,
    /// A type's base, or the discriminant of a part of a schema, is one that is not known.
    #[error("a kind that is not known")]
    UnknownKind,
    /// A name in a schema is not UTF-8.
    #[error("a name is not UTF-8")]
    NameNotUtf8,
    /// No struct of the schema set has the name that was asked for.
    #[error("no struct of that name")]
    NameNotFound,
    /// An id names no node, or a node of another kind.
    #[error("no such schema node")]
    NodeNotFound,
    /// The bindings of generic structs make more types, or longer names, than a set may have.
    #[error("too many bound types")]
    TooManyTypes,
}

impl ErrorKind {
    /// The number that stands for this kind: 1 to 13 for messages, 20 to 27 for values and fields,
    /// 30 to 33 for paths, 40 + k where rule k of schemas is broken, at most `u32::MAX`, and 60 to 66
    /// for schemas that come as messages.
    pub fn number(&self) -> u32
        ensures { result ≡ error_number self.now }
    {
        match self {
            ErrorKind::OutOfMemory => 1,
            ErrorKind::Truncated => 2,
            ErrorKind::TooManySegments => 3,
            ErrorKind::BadPointer => 4,
            ErrorKind::WrongPointerKind => 5,
            ErrorKind::WrongElementSize => 6,
            ErrorKind::TextNotTerminated => 7,
            ErrorKind::TooDeep => 8,
            ErrorKind::CapabilityPointer => 9,
            ErrorKind::SizePastFormat => 10,
            ErrorKind::TooLarge => 11,
            ErrorKind::ReadFailed => 12,
            ErrorKind::WriteFailed => 13,
            ErrorKind::FieldNotFound => 20,
            ErrorKind::TypeMismatch => 21,
            ErrorKind::NotAStruct => 22,
            ErrorKind::ExpectedAListOrBlob => 23,
            ErrorKind::ListAnyPointerNotSupported => 24,
            ErrorKind::InitIsOnlyValidForStructAndAnyPointerFields => 25,
            ErrorKind::InitnIsOnlyValidForListTextOrDataFields => 26,
            ErrorKind::CannotSetAnyPointerFieldToAPrimitiveValue => 27,
            ErrorKind::InactiveMember => 30,
            ErrorKind::UntypedStep => 31,
            ErrorKind::NoSuchElement => 32,
            ErrorKind::NotAContainer => 33,
            ErrorKind::Schema { rule, .. } => rule.saturating_add(40),
            ErrorKind::FloatType => 60,
            ErrorKind::InterfaceType => 61,
            ErrorKind::UnknownKind => 62,
            ErrorKind::NameNotUtf8 => 63,
            ErrorKind::NameNotFound => 64,
            ErrorKind::NodeNotFound => 65,
            ErrorKind::TooManyTypes => 66,
        }
    }

    /// The name of this kind, as the variant is spelled.
    pub fn name(&self) -> &'static str
        ensures { result.now ≡ error_name self.now }
    {
        match self {
            ErrorKind::OutOfMemory => "OutOfMemory",
            ErrorKind::Truncated => "Truncated",
            ErrorKind::TooManySegments => "TooManySegments",
            ErrorKind::BadPointer => "BadPointer",
            ErrorKind::WrongPointerKind => "WrongPointerKind",
            ErrorKind::WrongElementSize => "WrongElementSize",
            ErrorKind::TextNotTerminated => "TextNotTerminated",
            ErrorKind::TooDeep => "TooDeep",
            ErrorKind::CapabilityPointer => "CapabilityPointer",
            ErrorKind::SizePastFormat => "SizePastFormat",
            ErrorKind::TooLarge => "TooLarge",
            ErrorKind::ReadFailed => "ReadFailed",
            ErrorKind::WriteFailed => "WriteFailed",
            ErrorKind::FieldNotFound => "FieldNotFound",
            ErrorKind::TypeMismatch => "TypeMismatch",
            ErrorKind::NotAStruct => "NotAStruct",
            ErrorKind::ExpectedAListOrBlob => "ExpectedAListOrBlob",
            ErrorKind::ListAnyPointerNotSupported => "ListAnyPointerNotSupported",
            ErrorKind::InitIsOnlyValidForStructAndAnyPointerFields =>
                "InitIsOnlyValidForStructAndAnyPointerFields",
            ErrorKind::InitnIsOnlyValidForListTextOrDataFields =>
                "InitnIsOnlyValidForListTextOrDataFields",
            ErrorKind::CannotSetAnyPointerFieldToAPrimitiveValue =>
                "CannotSetAnyPointerFieldToAPrimitiveValue",
            ErrorKind::InactiveMember => "InactiveMember",
            ErrorKind::UntypedStep => "UntypedStep",
            ErrorKind::NoSuchElement => "NoSuchElement",
            ErrorKind::NotAContainer => "NotAContainer",
            ErrorKind::Schema { .. } => "Schema",
            ErrorKind::FloatType => "FloatType",
            ErrorKind::InterfaceType => "InterfaceType",
            ErrorKind::UnknownKind => "UnknownKind",
            ErrorKind::NameNotUtf8 => "NameNotUtf8",
            ErrorKind::NameNotFound => "NameNotFound",
            ErrorKind::NodeNotFound => "NodeNotFound",
            ErrorKind::TooManyTypes => "TooManyTypes",
        }
    }
}

/// A refusal.
#[derive(Clone, Copy, Debug, PartialEq, Eq, thiserror::Error)]
#[error("{kind}")]
pub struct Error {
    /// Why the call was refused.
    pub kind: ErrorKind,
}

/// What a call that may be refused answers.
pub type Result<T> = std::result::Result<T, Error>;

impl Error {
    /// The refusal of a value of another kind than that of the field or element.
    pub fn type_mismatch() -> Error
        ensures { result.kind ≡ TypeMismatch }
    {
        Error {
            kind: ErrorKind::TypeMismatch,
        }
    }
}

impl From<ErrorKind> for Error {
    ghost from_gives = { λ kind e. e.kind ≡ kind };

    fn from(kind: ErrorKind) -> Error {
        Error { kind }
    }
}

impl From<AllocError> for Error {
    ghost from_gives = { λ _ e. e.kind ≡ OutOfMemory };

    fn from(_error: AllocError) -> Error {
        Error {
            kind: ErrorKind::OutOfMemory,
        }
    }
}

impl<T: Drop> From<AllocFailed<T>> for Error {
    ghost from_gives = { λ _ e. e.kind ≡ OutOfMemory };

    fn from(_error: AllocFailed<T>) -> Error {
        Error {
            kind: ErrorKind::OutOfMemory,
        }
    }
}
