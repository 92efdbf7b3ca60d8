//! Values whose types are known only at run time, as they are built.
ghost use Rattle.std.specs.Prelude.{◌≡◌};
ghost use Rattle.capnp_dynamic.specs.BuiltKinds.{IsBuiltStructAnd};
ghost use Rattle.capnp_dynamic.specs.BuiltValues.{CanBeRead, IsReaderOf, StandsAs};
ghost use Rattle.capnp_dynamic.specs.Built.{built_schema, handle_of};
ghost use Rattle.capnp_dynamic_readers.specs.Typed.{struct_type};
ghost use Rattle.capnp_schema.specs.Types.{seen_type};
ghost use Rattle.capnp_dynamic.specs.declared.dynamic_value.build.Builder.{Builder};

use crate::dynamic_value::{Enum, Reader};
use crate::{dynamic_list, dynamic_struct};
use capnp_builders::traits::OwnedStruct;
use capnp_builders::{any_pointer, data, text};
use std::marker::PhantomData;

/// A value that is built: a number is what stood there, and the others can be written through.
///
/// # Example
///
/// ```rust
/// match part {
///     dynamic_value::Builder::Text(text) => Ok(text),
///     _ => Err(Error::type_mismatch()),
/// }
/// ```
#[derive(Drop)]
pub enum Builder<'a> {
    Void,
    Bool(bool),
    Int8(i8),
    Int16(i16),
    Int32(i32),
    Int64(i64),
    UInt8(u8),
    UInt16(u16),
    UInt32(u32),
    UInt64(u64),
    Enum(Enum<'a>),
    Text(text::Builder<'a>),
    Data(data::Builder<'a>),
    Struct(dynamic_struct::Builder<'a>),
    List(dynamic_list::Builder<'a>),
    AnyPointer(any_pointer::Builder<'a>),
}

/// What was taken out of a value that lives for `'a`.
#[derive(Drop)]
pub struct Kept<'a, T> {
    pub value: T,
    marker: PhantomData<&'a ()>,
}

impl<'a, T> Kept<'a, T> {
    /// Keeps a value with the lifetime of what it was taken out of.
    pub fn new(value: T) -> Kept<'a, T>
        ensures { result.value ≡ value }
    {
        Kept {
            value,
            marker: PhantomData,
        }
    }
}

/// What a value that is built can be taken as.
pub trait DowncastBuilder<'a>: Sized {
    // The dynamic value of it.
    ghost value_of: { Self → Builder };

    // Whether a dynamic value is of its kind.
    ghost is_kind: { Builder → Type 0 };

    /// The value that a dynamic value holds.
    ///
    /// # Conditions
    ///
    /// The dynamic value is of the type's kind (`is_kind`).
    fn downcast_builder(value: Builder<'a>) -> Kept<'a, Self>
        requires { is_kind value }
        ensures { value_of result.value ≡ value.entry };
}

impl<'a> Builder<'a> {
    /// This value for a shorter time.
    pub fn reborrow(&mut self) -> Builder<'_>
        ensures { StandsAs result self.old }
    {
        match self {
            Builder::Void => Builder::Void,
            Builder::Bool(x) => Builder::Bool(*x),
            Builder::Int8(x) => Builder::Int8(*x),
            Builder::Int16(x) => Builder::Int16(*x),
            Builder::Int32(x) => Builder::Int32(*x),
            Builder::Int64(x) => Builder::Int64(*x),
            Builder::UInt8(x) => Builder::UInt8(*x),
            Builder::UInt16(x) => Builder::UInt16(*x),
            Builder::UInt32(x) => Builder::UInt32(*x),
            Builder::UInt64(x) => Builder::UInt64(*x),
            Builder::Enum(x) => Builder::Enum(*x),
            Builder::Text(x) => Builder::Text(x.reborrow()),
            Builder::Data(x) => Builder::Data(x.reborrow()),
            Builder::Struct(x) => Builder::Struct(x.reborrow()),
            Builder::List(x) => Builder::List(x.reborrow()),
            Builder::AnyPointer(x) => Builder::AnyPointer(x.reborrow()),
        }
    }

    /// A reader of the value for as long as the builder would be there; a struct, a list and an untyped pointer are
    /// read with 64 levels.
    ///
    /// # Conditions
    ///
    /// A value with a place stands there; a struct has at least its schema's sections, and a list elements of its type
    /// (`CanBeRead`). That holds of what a builder handed out.
    pub fn into_reader(self) -> Reader<'a>
        requires { CanBeRead self }
        ensures { IsReaderOf self.entry result }
    {
        match self {
            Builder::Void => Reader::Void,
            Builder::Bool(x) => Reader::Bool(x),
            Builder::Int8(x) => Reader::Int8(x),
            Builder::Int16(x) => Reader::Int16(x),
            Builder::Int32(x) => Reader::Int32(x),
            Builder::Int64(x) => Reader::Int64(x),
            Builder::UInt8(x) => Reader::UInt8(x),
            Builder::UInt16(x) => Reader::UInt16(x),
            Builder::UInt32(x) => Reader::UInt32(x),
            Builder::UInt64(x) => Reader::UInt64(x),
            Builder::Enum(x) => Reader::Enum(x),
            Builder::Text(x) => Reader::Text(x.into_reader()),
            Builder::Data(x) => Reader::Data(x.into_reader()),
            Builder::Struct(x) => Reader::Struct(x.into_reader()),
            Builder::List(x) => Reader::List(x.into_reader()),
            Builder::AnyPointer(x) => Reader::AnyPointer(x.into_reader()),
        }
    }

    /// The value that it holds, of the kind that the type names.
    ///
    /// # Conditions
    ///
    /// The value is of the kind that `T` names (`is_kind`).
    pub fn downcast<T: DowncastBuilder<'a>>(self) -> T
        requires { T.is_kind self }
        ensures { T.value_of result ≡ self.entry }
    {
        T::downcast_builder(self).value
    }

    /// The struct that it holds, by the handle of a struct type.
    ///
    /// # Conditions
    ///
    /// The value is a struct, and `T` is the handle of its schema's type (`type_of`).
    pub fn downcast_struct<T: OwnedStruct<'a>>(self) -> T::Builder
        requires { IsBuiltStructAnd self (λ s. seen_type T.type_of ≡ struct_type (built_schema s)) }
        ensures { IsBuiltStructAnd self.entry (λ s. T.Builder.from_gives (handle_of s) result) }
    {
        match self {
            Builder::Struct(inner) => inner.downcast::<T>(),
            _ => unreachable!(),
        }
    }
}
