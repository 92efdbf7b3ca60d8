//! Values of records, as they are read.
ghost use Rattle.capnp_schema.specs.Schema.{seen_value};
ghost use Rattle.capnp_schema.specs.Views.{IsViewOf};

use crate::record::ValueRecord;
use capnp_base::text;
use capnp_wire::PointerReader;

/// A value of a record, of the same variant: a number, the bytes of a text or of data, or a reader of the root pointer
/// of a struct, a list or an untyped pointer, with 64 levels. It takes no memory, and lives as long as the set of its
/// record.
#[derive(Clone, Copy)]
pub enum Value<'s> {
    Void,
    Bool(bool),
    Int8(i8),
    Int16(i16),
    Int32(i32),
    Int64(i64),
    UInt8(u8),
    UInt16(u16),
    UInt32(u32),
    UInt64(u64),
    Enum(u16),
    Text(text::Reader<'s>),
    Data(&'s [u8]),
    Struct(PointerReader<'s>),
    List(PointerReader<'s>),
    AnyPointer(PointerReader<'s>),
}

/// The view of a record's value, as of a default or an annotation. The words of a struct, a list or an untyped pointer
/// are read where they lie, with 64 levels.
#[inline(always)]
pub fn view(stored: &ValueRecord) -> Value<'_>
    ensures { IsViewOf (seen_value stored.now) result }
{
    match stored {
        ValueRecord::Void => Value::Void,
        ValueRecord::Bool(x) => Value::Bool(*x),
        ValueRecord::Int8(x) => Value::Int8(*x),
        ValueRecord::Int16(x) => Value::Int16(*x),
        ValueRecord::Int32(x) => Value::Int32(*x),
        ValueRecord::Int64(x) => Value::Int64(*x),
        ValueRecord::UInt8(x) => Value::UInt8(*x),
        ValueRecord::UInt16(x) => Value::UInt16(*x),
        ValueRecord::UInt32(x) => Value::UInt32(*x),
        ValueRecord::UInt64(x) => Value::UInt64(*x),
        ValueRecord::Enum(x) => Value::Enum(*x),
        ValueRecord::Text(bytes) => Value::Text(text::Reader::from(bytes.as_slice())),
        ValueRecord::Data(bytes) => Value::Data(bytes.as_slice()),
        ValueRecord::Struct(words) => Value::Struct(PointerReader::from_words(words)),
        ValueRecord::List(words) => Value::List(PointerReader::from_words(words)),
        ValueRecord::AnyPointer(words) => Value::AnyPointer(PointerReader::from_words(words)),
    }
}
