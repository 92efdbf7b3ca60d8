//! What one layer of a type says of the field that has it.
ghost use Rattle.std.specs.Prelude.{◌≡◌, ◌≤◌};
ghost use Rattle.capnp_schema.specs.Types.{width, is_pointer, struct_brand, struct_number, seen_variant};

use capnp_base::introspect::TypeVariant;

/// The bits of a data slot of such a type; 0 for what takes a pointer or nothing.
pub(crate) fn width(variant: TypeVariant) -> u8
    ensures value { result ≡ width (seen_variant variant) }
    ensures small { result ≤ 64 }
{
    match variant {
        TypeVariant::Bool => 1,
        TypeVariant::Int8 | TypeVariant::UInt8 => 8,
        TypeVariant::Int16 | TypeVariant::UInt16 | TypeVariant::Enum(_) => 16,
        TypeVariant::Int32 | TypeVariant::UInt32 => 32,
        TypeVariant::Int64 | TypeVariant::UInt64 => 64,
        _ => 0,
    }
}

/// Whether values of such a type stand behind a pointer.
pub(crate) fn is_pointer(variant: TypeVariant) -> bool
    ensures { result ≡ is_pointer (seen_variant variant) }
{
    match variant {
        TypeVariant::Text
        | TypeVariant::Data
        | TypeVariant::Struct(_)
        | TypeVariant::AnyPointer
        | TypeVariant::List(_) => true,
        _ => false,
    }
}

/// The brand that a struct type names, nothing for every other type.
pub(crate) fn struct_brand(variant: TypeVariant) -> Option<u32>
    ensures { result ≡ struct_brand (seen_variant variant) }
{
    match variant {
        TypeVariant::Struct(schema) => Some(schema.number),
        _ => None,
    }
}

/// The brand that a struct type names, 0 for every other type.
pub(crate) fn struct_number(variant: TypeVariant) -> u32
    ensures { result ≡ struct_number (seen_variant variant) }
{
    match struct_brand(variant) {
        Some(number) => number,
        None => 0,
    }
}
