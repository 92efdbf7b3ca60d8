//! Conversions of dynamic values that are built: what each kind is made of, and what is taken out of it again.
ghost use Rattle.std.specs.Prelude.{◌≡◌};
ghost use Rattle.capnp_dynamic.specs.BuiltKinds.{built_kind};
ghost use Rattle.capnp_dynamic_readers.specs.Kinds.{AnyPointerKind, BoolKind, DataKind, EnumKind, Int16Kind, Int32Kind, Int64Kind, Int8Kind, ListKind, StructKind, TextKind, UInt16Kind, UInt32Kind, UInt64Kind, UInt8Kind, VoidKind};
ghost use Rattle.capnp_dynamic.specs.declared.dynamic_value.build.Builder.TheVariants as built;

use crate::dynamic_value::{Builder, DowncastBuilder, Enum, Kept};
use crate::{dynamic_list, dynamic_struct};
use capnp_builders::{any_pointer, data, text};

impl<'a> DowncastBuilder<'a> for () {
    ghost value_of = { λ _. built.Void };

    ghost is_kind = { λ v. built_kind v ≡ VoidKind };

    fn downcast_builder(value: Builder<'a>) -> Kept<'a, ()> {
        let Builder::Void = value else { unreachable!() };
        Kept::new(())
    }
}

impl<'a> DowncastBuilder<'a> for bool {
    ghost value_of = { λ x. built.Bool x };

    ghost is_kind = { λ v. built_kind v ≡ BoolKind };

    fn downcast_builder(value: Builder<'a>) -> Kept<'a, bool> {
        let Builder::Bool(x) = value else {
            unreachable!()
        };
        Kept::new(x)
    }
}

impl<'a> DowncastBuilder<'a> for i8 {
    ghost value_of = { λ x. built.Int8 x };

    ghost is_kind = { λ v. built_kind v ≡ Int8Kind };

    fn downcast_builder(value: Builder<'a>) -> Kept<'a, i8> {
        let Builder::Int8(x) = value else {
            unreachable!()
        };
        Kept::new(x)
    }
}

impl<'a> DowncastBuilder<'a> for i16 {
    ghost value_of = { λ x. built.Int16 x };

    ghost is_kind = { λ v. built_kind v ≡ Int16Kind };

    fn downcast_builder(value: Builder<'a>) -> Kept<'a, i16> {
        let Builder::Int16(x) = value else {
            unreachable!()
        };
        Kept::new(x)
    }
}

impl<'a> DowncastBuilder<'a> for i32 {
    ghost value_of = { λ x. built.Int32 x };

    ghost is_kind = { λ v. built_kind v ≡ Int32Kind };

    fn downcast_builder(value: Builder<'a>) -> Kept<'a, i32> {
        let Builder::Int32(x) = value else {
            unreachable!()
        };
        Kept::new(x)
    }
}

impl<'a> DowncastBuilder<'a> for i64 {
    ghost value_of = { λ x. built.Int64 x };

    ghost is_kind = { λ v. built_kind v ≡ Int64Kind };

    fn downcast_builder(value: Builder<'a>) -> Kept<'a, i64> {
        let Builder::Int64(x) = value else {
            unreachable!()
        };
        Kept::new(x)
    }
}

impl<'a> DowncastBuilder<'a> for u8 {
    ghost value_of = { λ x. built.UInt8 x };

    ghost is_kind = { λ v. built_kind v ≡ UInt8Kind };

    fn downcast_builder(value: Builder<'a>) -> Kept<'a, u8> {
        let Builder::UInt8(x) = value else {
            unreachable!()
        };
        Kept::new(x)
    }
}

impl<'a> DowncastBuilder<'a> for u16 {
    ghost value_of = { λ x. built.UInt16 x };

    ghost is_kind = { λ v. built_kind v ≡ UInt16Kind };

    fn downcast_builder(value: Builder<'a>) -> Kept<'a, u16> {
        let Builder::UInt16(x) = value else {
            unreachable!()
        };
        Kept::new(x)
    }
}

impl<'a> DowncastBuilder<'a> for u32 {
    ghost value_of = { λ x. built.UInt32 x };

    ghost is_kind = { λ v. built_kind v ≡ UInt32Kind };

    fn downcast_builder(value: Builder<'a>) -> Kept<'a, u32> {
        let Builder::UInt32(x) = value else {
            unreachable!()
        };
        Kept::new(x)
    }
}

impl<'a> DowncastBuilder<'a> for u64 {
    ghost value_of = { λ x. built.UInt64 x };

    ghost is_kind = { λ v. built_kind v ≡ UInt64Kind };

    fn downcast_builder(value: Builder<'a>) -> Kept<'a, u64> {
        let Builder::UInt64(x) = value else {
            unreachable!()
        };
        Kept::new(x)
    }
}

impl<'a> DowncastBuilder<'a> for Enum<'a> {
    ghost value_of = { λ x. built.Enum x };

    ghost is_kind = { λ v. built_kind v ≡ EnumKind };

    fn downcast_builder(value: Builder<'a>) -> Kept<'a, Enum<'a>> {
        let Builder::Enum(x) = value else {
            unreachable!()
        };
        Kept::new(x)
    }
}

impl<'a> From<Enum<'a>> for Builder<'a> {
    ghost from_gives = { λ x v. v ≡ built.Enum x };

    fn from(value: Enum<'a>) -> Builder<'a> {
        Builder::Enum(value)
    }
}

impl<'a> DowncastBuilder<'a> for text::Builder<'a> {
    ghost value_of = { λ x. built.Text x };

    ghost is_kind = { λ v. built_kind v ≡ TextKind };

    fn downcast_builder(value: Builder<'a>) -> Kept<'a, text::Builder<'a>> {
        let Builder::Text(x) = value else {
            unreachable!()
        };
        Kept::new(x)
    }
}

impl<'a> From<text::Builder<'a>> for Builder<'a> {
    ghost from_gives = { λ x v. v ≡ built.Text x };

    fn from(value: text::Builder<'a>) -> Builder<'a> {
        Builder::Text(value)
    }
}

impl<'a> DowncastBuilder<'a> for data::Builder<'a> {
    ghost value_of = { λ x. built.«Data» x };

    ghost is_kind = { λ v. built_kind v ≡ DataKind };

    fn downcast_builder(value: Builder<'a>) -> Kept<'a, data::Builder<'a>> {
        let Builder::Data(x) = value else {
            unreachable!()
        };
        Kept::new(x)
    }
}

impl<'a> From<data::Builder<'a>> for Builder<'a> {
    ghost from_gives = { λ x v. v ≡ built.«Data» x };

    fn from(value: data::Builder<'a>) -> Builder<'a> {
        Builder::Data(value)
    }
}

impl<'a> DowncastBuilder<'a> for dynamic_struct::Builder<'a> {
    ghost value_of = { λ x. built.Struct x };

    ghost is_kind = { λ v. built_kind v ≡ StructKind };

    fn downcast_builder(value: Builder<'a>) -> Kept<'a, dynamic_struct::Builder<'a>> {
        let Builder::Struct(x) = value else {
            unreachable!()
        };
        Kept::new(x)
    }
}

impl<'a> From<dynamic_struct::Builder<'a>> for Builder<'a> {
    ghost from_gives = { λ x v. v ≡ built.Struct x };

    fn from(value: dynamic_struct::Builder<'a>) -> Builder<'a> {
        Builder::Struct(value)
    }
}

impl<'a> DowncastBuilder<'a> for dynamic_list::Builder<'a> {
    ghost value_of = { λ x. built.List x };

    ghost is_kind = { λ v. built_kind v ≡ ListKind };

    fn downcast_builder(value: Builder<'a>) -> Kept<'a, dynamic_list::Builder<'a>> {
        let Builder::List(x) = value else {
            unreachable!()
        };
        Kept::new(x)
    }
}

impl<'a> From<dynamic_list::Builder<'a>> for Builder<'a> {
    ghost from_gives = { λ x v. v ≡ built.List x };

    fn from(value: dynamic_list::Builder<'a>) -> Builder<'a> {
        Builder::List(value)
    }
}

impl<'a> DowncastBuilder<'a> for any_pointer::Builder<'a> {
    ghost value_of = { λ x. built.AnyPointer x };

    ghost is_kind = { λ v. built_kind v ≡ AnyPointerKind };

    fn downcast_builder(value: Builder<'a>) -> Kept<'a, any_pointer::Builder<'a>> {
        let Builder::AnyPointer(x) = value else {
            unreachable!()
        };
        Kept::new(x)
    }
}

impl<'a> From<any_pointer::Builder<'a>> for Builder<'a> {
    ghost from_gives = { λ x v. v ≡ built.AnyPointer x };

    fn from(value: any_pointer::Builder<'a>) -> Builder<'a> {
        Builder::AnyPointer(value)
    }
}
