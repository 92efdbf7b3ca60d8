//! Conversions of dynamic values: what each kind is made of, and what is taken out of it again.
ghost use Rattle.std.specs.Prelude.{◌≡◌};
ghost use Rattle.capnp_dynamic_readers.specs.Kinds.{AnyPointerKind, BoolKind, DataKind, EnumKind, Int16Kind, Int32Kind, Int64Kind, Int8Kind, ListKind, StructKind, TextKind, UInt16Kind, UInt32Kind, UInt64Kind, UInt8Kind, VoidKind, kind_of};
ghost use Rattle.capnp_dynamic_readers.specs.Seen.{value_seen};
ghost use Rattle.capnp_dynamic_readers.specs.declared.dynamic_value.Reader.TheVariants as dynamic;
ghost use Rattle.capnp_records.specs.Record as value;

use crate::dynamic_value::{DowncastReader, Enum, Reader};
use crate::{dynamic_list, dynamic_struct};
use capnp_base::{any_pointer, data, text};

impl<'a> DowncastReader<'a> for () {
    ghost value_of = { λ _. dynamic.Void };

    ghost is_kind = { λ v. kind_of v ≡ VoidKind };

    fn downcast_reader(value: Reader<'a>) {
        let Reader::Void = value else { unreachable!() };
    }
}

impl<'a> From<()> for Reader<'a> {
    ghost from_gives = { λ _ v. v ≡ dynamic.Void };

    fn from(_value: ()) -> Reader<'a> {
        Reader::Void
    }
}

impl<'a> From<&'a str> for Reader<'a> {
    ghost from_gives = { λ x v. value_seen v ≡ value.Text x.now };

    fn from(value: &'a str) -> Reader<'a> {
        Reader::Text(text::Reader::from(value))
    }
}

impl<'a> DowncastReader<'a> for bool {
    ghost value_of = { λ x. dynamic.Bool x };

    ghost is_kind = { λ v. kind_of v ≡ BoolKind };

    fn downcast_reader(value: Reader<'a>) -> bool {
        let Reader::Bool(x) = value else {
            unreachable!()
        };
        x
    }
}

impl<'a> From<bool> for Reader<'a> {
    ghost from_gives = { λ x v. v ≡ dynamic.Bool x };

    fn from(value: bool) -> Reader<'a> {
        Reader::Bool(value)
    }
}

impl<'a> DowncastReader<'a> for i8 {
    ghost value_of = { λ x. dynamic.Int8 x };

    ghost is_kind = { λ v. kind_of v ≡ Int8Kind };

    fn downcast_reader(value: Reader<'a>) -> i8 {
        let Reader::Int8(x) = value else {
            unreachable!()
        };
        x
    }
}

impl<'a> From<i8> for Reader<'a> {
    ghost from_gives = { λ x v. v ≡ dynamic.Int8 x };

    fn from(value: i8) -> Reader<'a> {
        Reader::Int8(value)
    }
}

impl<'a> DowncastReader<'a> for i16 {
    ghost value_of = { λ x. dynamic.Int16 x };

    ghost is_kind = { λ v. kind_of v ≡ Int16Kind };

    fn downcast_reader(value: Reader<'a>) -> i16 {
        let Reader::Int16(x) = value else {
            unreachable!()
        };
        x
    }
}

impl<'a> From<i16> for Reader<'a> {
    ghost from_gives = { λ x v. v ≡ dynamic.Int16 x };

    fn from(value: i16) -> Reader<'a> {
        Reader::Int16(value)
    }
}

impl<'a> DowncastReader<'a> for i32 {
    ghost value_of = { λ x. dynamic.Int32 x };

    ghost is_kind = { λ v. kind_of v ≡ Int32Kind };

    fn downcast_reader(value: Reader<'a>) -> i32 {
        let Reader::Int32(x) = value else {
            unreachable!()
        };
        x
    }
}

impl<'a> From<i32> for Reader<'a> {
    ghost from_gives = { λ x v. v ≡ dynamic.Int32 x };

    fn from(value: i32) -> Reader<'a> {
        Reader::Int32(value)
    }
}

impl<'a> DowncastReader<'a> for i64 {
    ghost value_of = { λ x. dynamic.Int64 x };

    ghost is_kind = { λ v. kind_of v ≡ Int64Kind };

    fn downcast_reader(value: Reader<'a>) -> i64 {
        let Reader::Int64(x) = value else {
            unreachable!()
        };
        x
    }
}

impl<'a> From<i64> for Reader<'a> {
    ghost from_gives = { λ x v. v ≡ dynamic.Int64 x };

    fn from(value: i64) -> Reader<'a> {
        Reader::Int64(value)
    }
}

impl<'a> DowncastReader<'a> for u8 {
    ghost value_of = { λ x. dynamic.UInt8 x };

    ghost is_kind = { λ v. kind_of v ≡ UInt8Kind };

    fn downcast_reader(value: Reader<'a>) -> u8 {
        let Reader::UInt8(x) = value else {
            unreachable!()
        };
        x
    }
}

impl<'a> From<u8> for Reader<'a> {
    ghost from_gives = { λ x v. v ≡ dynamic.UInt8 x };

    fn from(value: u8) -> Reader<'a> {
        Reader::UInt8(value)
    }
}

impl<'a> DowncastReader<'a> for u16 {
    ghost value_of = { λ x. dynamic.UInt16 x };

    ghost is_kind = { λ v. kind_of v ≡ UInt16Kind };

    fn downcast_reader(value: Reader<'a>) -> u16 {
        let Reader::UInt16(x) = value else {
            unreachable!()
        };
        x
    }
}

impl<'a> From<u16> for Reader<'a> {
    ghost from_gives = { λ x v. v ≡ dynamic.UInt16 x };

    fn from(value: u16) -> Reader<'a> {
        Reader::UInt16(value)
    }
}

impl<'a> DowncastReader<'a> for u32 {
    ghost value_of = { λ x. dynamic.UInt32 x };

    ghost is_kind = { λ v. kind_of v ≡ UInt32Kind };

    fn downcast_reader(value: Reader<'a>) -> u32 {
        let Reader::UInt32(x) = value else {
            unreachable!()
        };
        x
    }
}

impl<'a> From<u32> for Reader<'a> {
    ghost from_gives = { λ x v. v ≡ dynamic.UInt32 x };

    fn from(value: u32) -> Reader<'a> {
        Reader::UInt32(value)
    }
}

impl<'a> DowncastReader<'a> for u64 {
    ghost value_of = { λ x. dynamic.UInt64 x };

    ghost is_kind = { λ v. kind_of v ≡ UInt64Kind };

    fn downcast_reader(value: Reader<'a>) -> u64 {
        let Reader::UInt64(x) = value else {
            unreachable!()
        };
        x
    }
}

impl<'a> From<u64> for Reader<'a> {
    ghost from_gives = { λ x v. v ≡ dynamic.UInt64 x };

    fn from(value: u64) -> Reader<'a> {
        Reader::UInt64(value)
    }
}

impl<'a> DowncastReader<'a> for Enum<'a> {
    ghost value_of = { λ x. dynamic.Enum x };

    ghost is_kind = { λ v. kind_of v ≡ EnumKind };

    fn downcast_reader(value: Reader<'a>) -> Enum<'a> {
        let Reader::Enum(x) = value else {
            unreachable!()
        };
        x
    }
}

impl<'a> From<Enum<'a>> for Reader<'a> {
    ghost from_gives = { λ x v. v ≡ dynamic.Enum x };

    fn from(value: Enum<'a>) -> Reader<'a> {
        Reader::Enum(value)
    }
}

impl<'a> DowncastReader<'a> for text::Reader<'a> {
    ghost value_of = { λ x. dynamic.Text x };

    ghost is_kind = { λ v. kind_of v ≡ TextKind };

    fn downcast_reader(value: Reader<'a>) -> text::Reader<'a> {
        let Reader::Text(x) = value else {
            unreachable!()
        };
        x
    }
}

impl<'a> From<text::Reader<'a>> for Reader<'a> {
    ghost from_gives = { λ x v. v ≡ dynamic.Text x };

    fn from(value: text::Reader<'a>) -> Reader<'a> {
        Reader::Text(value)
    }
}

impl<'a> DowncastReader<'a> for data::Reader<'a> {
    ghost value_of = { λ x. dynamic.«Data» x };

    ghost is_kind = { λ v. kind_of v ≡ DataKind };

    fn downcast_reader(value: Reader<'a>) -> data::Reader<'a> {
        let Reader::Data(x) = value else {
            unreachable!()
        };
        x
    }
}

impl<'a> From<data::Reader<'a>> for Reader<'a> {
    ghost from_gives = { λ x v. v ≡ dynamic.«Data» x };

    fn from(value: data::Reader<'a>) -> Reader<'a> {
        Reader::Data(value)
    }
}

impl<'a> DowncastReader<'a> for dynamic_struct::Reader<'a> {
    ghost value_of = { λ x. dynamic.Struct x };

    ghost is_kind = { λ v. kind_of v ≡ StructKind };

    fn downcast_reader(value: Reader<'a>) -> dynamic_struct::Reader<'a> {
        let Reader::Struct(x) = value else {
            unreachable!()
        };
        x
    }
}

impl<'a> From<dynamic_struct::Reader<'a>> for Reader<'a> {
    ghost from_gives = { λ x v. v ≡ dynamic.Struct x };

    fn from(value: dynamic_struct::Reader<'a>) -> Reader<'a> {
        Reader::Struct(value)
    }
}

impl<'a> DowncastReader<'a> for dynamic_list::Reader<'a> {
    ghost value_of = { λ x. dynamic.List x };

    ghost is_kind = { λ v. kind_of v ≡ ListKind };

    fn downcast_reader(value: Reader<'a>) -> dynamic_list::Reader<'a> {
        let Reader::List(x) = value else {
            unreachable!()
        };
        x
    }
}

impl<'a> From<dynamic_list::Reader<'a>> for Reader<'a> {
    ghost from_gives = { λ x v. v ≡ dynamic.List x };

    fn from(value: dynamic_list::Reader<'a>) -> Reader<'a> {
        Reader::List(value)
    }
}

impl<'a> DowncastReader<'a> for any_pointer::Reader<'a> {
    ghost value_of = { λ x. dynamic.AnyPointer x };

    ghost is_kind = { λ v. kind_of v ≡ AnyPointerKind };

    fn downcast_reader(value: Reader<'a>) -> any_pointer::Reader<'a> {
        let Reader::AnyPointer(x) = value else {
            unreachable!()
        };
        x
    }
}

impl<'a> From<any_pointer::Reader<'a>> for Reader<'a> {
    ghost from_gives = { λ x v. v ≡ dynamic.AnyPointer x };

    fn from(value: any_pointer::Reader<'a>) -> Reader<'a> {
        Reader::AnyPointer(value)
    }
}
