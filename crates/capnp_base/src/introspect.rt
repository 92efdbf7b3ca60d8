//! Types as values: what a program that learns its schema at run time knows of a field, an element or an annotation.
//!
//! A type is a type that is no list, inside a number of lists. It takes no memory of its own and is copied.
ghost use Rattle.std.specs.Prelude.{◌≡◌};
ghost use Rattle.capnp_base.specs.declared.introspect.«Type».{«Type» as TypeHandle};
ghost use Rattle.capnp_base.specs.declared.introspect.TypeVariant.TheVariants as variant;
ghost use Rattle.capnp_base.specs.Types.{base_type, variant_element_size, innermost, is_behind_pointer, list_type, loosely_equal_types, type_from, variant_of};

pub mod laws;

use capnp_wire::size::ElementSize;

/// A Rust type that stands for a type of the schema.
pub trait Introspect {
    // The type as a value.
    ghost type_of: { TypeHandle };

    /// The type as a value.
    fn introspect() -> Type
        ensures { result ≡ type_of };
}

/// A struct schema of one set: the number of its brand, and the number of its node, which brands with other type
/// parameters share. Equality and hash look at `number` alone, so two of them are compared within one set.
#[derive(Clone, Copy, Debug)]
#[derive_where(PartialEq, Eq, Hash)]
pub struct RawBrandedStructSchema {
    pub number: u32,
    #[derive_where(skip(EqHashOrd))]
    pub generic: u32,
}

/// An enum schema of one set, by its number.
#[derive(Clone, Copy, Debug, PartialEq, Eq, Hash)]
pub struct RawEnumSchema {
    pub number: u32,
}

/// A type, of which one layer is looked at. `Type::from` makes the type of it again.
#[derive(Clone, Copy, Debug, PartialEq, Eq, Hash)]
pub enum TypeVariant {
    Void,
    Bool,
    Int8,
    Int16,
    Int32,
    Int64,
    UInt8,
    UInt16,
    UInt32,
    UInt64,
    Text,
    Data,
    Struct(RawBrandedStructSchema),
    AnyPointer,
    Enum(RawEnumSchema),
    List(Type),
}

/// A type that is no list.
#[derive(Clone, Copy, Debug, PartialEq, Eq, Hash)]
enum BaseType {
    Void,
    Bool,
    Int8,
    Int16,
    Int32,
    Int64,
    UInt8,
    UInt16,
    UInt32,
    UInt64,
    Text,
    Data,
    Struct(RawBrandedStructSchema),
    AnyPointer,
    Enum(RawEnumSchema),
}

/// A type of the schema language.
#[derive(Clone, Copy, Debug, PartialEq, Eq, Hash)]
pub struct Type {
    base: BaseType,
    list_count: usize,
}

impl Type {
    fn new_base(base: BaseType) -> Type
        ensures { result ≡ base_type base }
    {
        Type {
            base,
            list_count: 0,
        }
    }

    /// The type of lists of `element_type`. The number of lists around a type stays at `usize::MAX`, its last value.
    pub fn list_of(element_type: Type) -> Type
        ensures { result ≡ list_type element_type }
    {
        Type {
            base: element_type.base,
            list_count: element_type.list_count.saturating_add(1),
        }
    }

    /// The outermost layer of the type: what it is, and of a list the type of its elements.
    pub fn which(&self) -> TypeVariant
        ensures { result ≡ variant_of self.now }
    {
        if self.list_count > 0 {
            return TypeVariant::List(Type {
                base: self.base,
                list_count: self.list_count - 1,
            });
        }
        self.innermost()
    }

    /// What stands inside all lists of the type, which is no list. A type that is no list is its own
    /// answer.
    pub fn innermost(&self) -> TypeVariant
        ensures { result ≡ innermost self.now }
    {
        match self.base {
            BaseType::Void => TypeVariant::Void,
            BaseType::Bool => TypeVariant::Bool,
            BaseType::Int8 => TypeVariant::Int8,
            BaseType::Int16 => TypeVariant::Int16,
            BaseType::Int32 => TypeVariant::Int32,
            BaseType::Int64 => TypeVariant::Int64,
            BaseType::UInt8 => TypeVariant::UInt8,
            BaseType::UInt16 => TypeVariant::UInt16,
            BaseType::UInt32 => TypeVariant::UInt32,
            BaseType::UInt64 => TypeVariant::UInt64,
            BaseType::Text => TypeVariant::Text,
            BaseType::Data => TypeVariant::Data,
            BaseType::Struct(schema) => TypeVariant::Struct(schema),
            BaseType::AnyPointer => TypeVariant::AnyPointer,
            BaseType::Enum(schema) => TypeVariant::Enum(schema),
        }
    }

    /// The size of the elements of a list of such values ("Lists" of the encoding).
    pub fn expected_element_size(&self) -> ElementSize
        ensures { result ≡ variant_element_size (variant_of self.now) }
    {
        match self.which() {
            TypeVariant::Void => ElementSize::Void,
            TypeVariant::Bool => ElementSize::Bit,
            TypeVariant::Int8 | TypeVariant::UInt8 => ElementSize::Byte,
            TypeVariant::Int16 | TypeVariant::UInt16 | TypeVariant::Enum(_) =>
                ElementSize::TwoBytes,
            TypeVariant::Int32 | TypeVariant::UInt32 => ElementSize::FourBytes,
            TypeVariant::Int64 | TypeVariant::UInt64 => ElementSize::EightBytes,
            TypeVariant::Struct(_) => ElementSize::InlineComposite,
            TypeVariant::Text
            | TypeVariant::Data
            | TypeVariant::AnyPointer
            | TypeVariant::List(_) => ElementSize::Pointer,
        }
    }

    /// Whether such values stand behind pointers: lists, texts, data, structs and untyped pointers do.
    pub fn is_pointer_type(&self) -> bool
        ensures { result ≡ is_behind_pointer self.now }
    {
        match self.which() {
            TypeVariant::Text
            | TypeVariant::Data
            | TypeVariant::Struct(_)
            | TypeVariant::AnyPointer
            | TypeVariant::List(_) => true,
            _ => false,
        }
    }

    /// Equality, but structs go by their generic number, inside lists too: type parameters are not looked at.
    pub fn loose_equals(&self, other: Type) -> bool
        ensures { result ≡ loosely_equal_types self.now other }
    {
        if self.list_count != other.list_count {
            return false;
        }
        match (self.base, other.base) {
            (BaseType::Struct(one), BaseType::Struct(another)) => one.generic == another.generic,
            (one, another) => one == another,
        }
    }
}

impl From<TypeVariant> for Type {
    ghost from_gives = { λ v t. t ≡ type_from v };

    fn from(variant: TypeVariant) -> Type {
        match variant {
            TypeVariant::Void => Type::new_base(BaseType::Void),
            TypeVariant::Bool => Type::new_base(BaseType::Bool),
            TypeVariant::Int8 => Type::new_base(BaseType::Int8),
            TypeVariant::Int16 => Type::new_base(BaseType::Int16),
            TypeVariant::Int32 => Type::new_base(BaseType::Int32),
            TypeVariant::Int64 => Type::new_base(BaseType::Int64),
            TypeVariant::UInt8 => Type::new_base(BaseType::UInt8),
            TypeVariant::UInt16 => Type::new_base(BaseType::UInt16),
            TypeVariant::UInt32 => Type::new_base(BaseType::UInt32),
            TypeVariant::UInt64 => Type::new_base(BaseType::UInt64),
            TypeVariant::Text => Type::new_base(BaseType::Text),
            TypeVariant::Data => Type::new_base(BaseType::Data),
            TypeVariant::Struct(schema) => Type::new_base(BaseType::Struct(schema)),
            TypeVariant::AnyPointer => Type::new_base(BaseType::AnyPointer),
            TypeVariant::Enum(schema) => Type::new_base(BaseType::Enum(schema)),
            TypeVariant::List(element_type) => Type::list_of(element_type),
        }
    }
}

impl Introspect for () {
    ghost type_of = { type_from variant.Void };

    fn introspect() -> Type {
        TypeVariant::Void.into()
    }
}

impl Introspect for bool {
    ghost type_of = { type_from variant.Bool };

    fn introspect() -> Type {
        TypeVariant::Bool.into()
    }
}

impl Introspect for i8 {
    ghost type_of = { type_from variant.Int8 };

    fn introspect() -> Type {
        TypeVariant::Int8.into()
    }
}

impl Introspect for i16 {
    ghost type_of = { type_from variant.Int16 };

    fn introspect() -> Type {
        TypeVariant::Int16.into()
    }
}

impl Introspect for i32 {
    ghost type_of = { type_from variant.Int32 };

    fn introspect() -> Type {
        TypeVariant::Int32.into()
    }
}

impl Introspect for i64 {
    ghost type_of = { type_from variant.Int64 };

    fn introspect() -> Type {
        TypeVariant::Int64.into()
    }
}

impl Introspect for u8 {
    ghost type_of = { type_from variant.UInt8 };

    fn introspect() -> Type {
        TypeVariant::UInt8.into()
    }
}

impl Introspect for u16 {
    ghost type_of = { type_from variant.UInt16 };

    fn introspect() -> Type {
        TypeVariant::UInt16.into()
    }
}

impl Introspect for u32 {
    ghost type_of = { type_from variant.UInt32 };

    fn introspect() -> Type {
        TypeVariant::UInt32.into()
    }
}

impl Introspect for u64 {
    ghost type_of = { type_from variant.UInt64 };

    fn introspect() -> Type {
        TypeVariant::UInt64.into()
    }
}
