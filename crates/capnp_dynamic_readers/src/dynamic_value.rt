//! Values whose types are known only at run time.
ghost use Rattle.std.specs.Prelude.{◌≡◌, IfOk};
ghost use Rattle.capnp_schema.specs.Accepted.{NamesEntries};
ghost use Rattle.capnp_schema.specs.Entries.{lists_seen};
ghost use Rattle.capnp_schema.specs.Types.{seen_type};
ghost use Rattle.capnp_dynamic_readers.specs.Kinds.{IsStructAnd};
ghost use Rattle.capnp_dynamic_readers.specs.Handles.{reader_of, schema_of};
ghost use Rattle.capnp_dynamic_readers.specs.Seen.{answered_value};
ghost use Rattle.capnp_dynamic_readers.specs.Typed.{IsOf, struct_type};
ghost use Rattle.capnp_dynamic_readers.specs.Viewed.{view_read, view_type};
ghost use Rattle.capnp_dynamic_readers.specs.declared.dynamic_value.Reader.{Reader};

mod annotation_value;
mod conversions;

use crate::printer::print_debug;
use crate::views::read_view;
use crate::{dynamic_list, dynamic_struct};
pub use annotation_value::AnnotationValue;
use capnp_base::introspect::Type;
use capnp_base::traits::OwnedStruct;
use capnp_base::{any_pointer, data, text};
use capnp_schema::schema::{EnumSchema, Enumerant};
use capnp_schema::set::SchemaSet;
use capnp_schema::value::Value;
use capnp_wire::error::Result;
use std::fmt;
use std::mem::size_of;

/// The value of an enum field.
#[derive(Clone, Copy)]
pub struct Enum<'a> {
    value: u16,
    schema: EnumSchema<'a>,
}

impl<'a> Enum<'a> {
    ghost use Rattle.std.specs.Prelude.{IsOkAnd, MatchOption, length, ◌≡◌, ◌≤◌};
    ghost use Rattle.capnp_schema.specs.Enumerants.{IsEnumerantOf};
    ghost use Rattle.capnp_schema.specs.Enums.{enum_in};
    ghost use Rattle.capnp_dynamic_readers.specs.Handles.{enum_of, enum_value_number};

    /// A number under an enum.
    pub fn new(value: u16, schema: EnumSchema<'a>) -> Enum<'a>
        ensures value { enum_value_number result ≡ value }
        ensures schema { enum_of result ≡ schema.entry }
    {
        Enum { value, schema }
    }

    /// The number, as it stands in a message.
    pub fn get_value(&self) -> u16
        ensures { result ≡ enum_value_number self.now }
    {
        self.value
    }

    /// The enumerant of that number; none from the count of enumerants on. The answer is always Ok.
    pub fn get_enumerant(self) -> Result<Option<Enumerant<'a>>>
        ensures { IsOkAnd result (λ o. MatchOption o
            (length (enum_in (enum_of self.entry)).enumerants ≤ enum_value_number self.entry)
            (IsEnumerantOf (enum_of self.entry) (enum_value_number self.entry))) }
    {
        let enumerants = self.schema.get_enumerants()?;
        if self.value < enumerants.len() {
            return Ok(Some(enumerants.get(self.value)));
        }
        Ok(None)
    }
}

/// A value that is read.
///
/// # Example
///
/// ```rust
/// match reader.get_named(name)? {
///     dynamic_value::Reader::UInt16(number) => Ok(number),
///     _ => Err(Error::type_mismatch()),
/// }
/// ```
#[derive(Clone, Copy)]
pub enum Reader<'a> {
    Void,
    Bool(bool),
    Int8(i8),
    Int16(i16),
    Int32(i32),
    Int64(i64),
    UInt8(u8),
    UInt16(u16),
    UInt32(u32),
    UInt64(u64),
    Enum(Enum<'a>),
    Text(text::Reader<'a>),
    Data(data::Reader<'a>),
    Struct(dynamic_struct::Reader<'a>),
    List(dynamic_list::Reader<'a>),
    AnyPointer(any_pointer::Reader<'a>),
}

// The answer of a read is moved at each step: past 128 bytes by a call, up to there without.
const _: () = prove!(size_of::<Result<Reader<'static>>>() <= 128);

impl fmt::Debug for Reader<'_> {
    /// The printed form of the value.
    fn fmt<W: fmt::Write>(&self, f: &mut fmt::Formatter<W>) -> fmt::Result {
        print_debug(*self, f)
    }
}

/// What a value that is read can be taken as.
pub trait DowncastReader<'a>: Sized {
    // The dynamic value of it.
    ghost value_of: { Self → Reader };

    // Whether a dynamic value is of its kind.
    ghost is_kind: { Reader → Type 0 };

    /// The value that a dynamic value holds.
    ///
    /// # Conditions
    ///
    /// The dynamic value is of the type's kind (`is_kind`).
    fn downcast_reader(value: Reader<'a>) -> Self
        requires { is_kind value }
        ensures { value_of result ≡ value.entry };
}

impl<'a> Reader<'a> {
    /// The value of a record, as a default or an annotation has it, under a type of the set: a void, a truth value, a
    /// number, a text or data is answered whatever the type, and an enum, a struct, a list and an untyped pointer under
    /// their type. Each of them refused as `TypeMismatch` under another type.
    ///
    /// A struct or list is entered as one behind a pointer is, and refused as that is. A type that names a struct or
    /// enum past the set's last is one without fields or enumerants.
    pub fn new(schemas: &'a SchemaSet, value: Value<'a>, value_type: Type) -> Result<Reader<'a>>
        ensures value { answered_value result ≡ view_read (lists_seen schemas.now) value.entry (seen_type value_type) }
        ensures typed { NamesEntries (lists_seen schemas.now) (seen_type value_type)
            → IfOk result (IsOf (lists_seen schemas.now) (view_type value.entry (seen_type value_type))) }
    {
        read_view(schemas, value, value_type.which())
    }

    /// The value that it holds, of the kind that the type names.
    ///
    /// # Conditions
    ///
    /// The value is of the kind that `T` names (`is_kind`).
    pub fn downcast<T: DowncastReader<'a>>(self) -> T
        requires { T.is_kind self }
        ensures { T.value_of result ≡ self.entry }
    {
        T::downcast_reader(self)
    }

    /// The struct that it holds, by the handle of a struct type.
    ///
    /// # Conditions
    ///
    /// The value is a struct, and `T` is the handle of its schema's type (`type_of`).
    pub fn downcast_struct<T: OwnedStruct<'a>>(self) -> T::Reader
        requires { IsStructAnd self (λ s. seen_type T.type_of ≡ struct_type (schema_of s)) }
        ensures { IsStructAnd self.entry (λ s. T.Reader.from_gives (reader_of s) result) }
    {
        match self {
            Reader::Struct(inner) => inner.downcast::<T>(),
            _ => unreachable!(),
        }
    }
}
