//! Values of records, as they are read under a type.
ghost use Rattle.std.specs.Prelude.{IfOk, ◌≡◌};
ghost use Rattle.capnp_schema.specs.Accepted.{NamesEntries};
ghost use Rattle.capnp_schema.specs.Entries.{lists_seen};
ghost use Rattle.capnp_schema.specs.Types.{seen_variant};
ghost use Rattle.capnp_schema.specs.declared.value.Value.TheVariants as view;
ghost use Rattle.capnp_dynamic_readers.specs.Seen.{answered_value};
ghost use Rattle.capnp_dynamic_readers.specs.Typed.{IsOf};
ghost use Rattle.capnp_dynamic_readers.specs.Viewed.{view_read, view_type};

use crate::behind::{undefaulted_list, undefaulted_struct};
use crate::dynamic_value::{Enum, Reader};
use crate::{dynamic_list, dynamic_struct};
use capnp_base::any_pointer;
use capnp_base::introspect::TypeVariant;
use capnp_schema::set::SchemaSet;
use capnp_schema::value::Value;
use capnp_wire::PointerReader;
use capnp_wire::error::{Error, Result};

/// A value under a type: one that needs its type is refused under another.
pub(crate) fn read_view<'a>(
    schemas: &'a SchemaSet,
    value: Value<'a>,
    variant: TypeVariant,
) -> Result<Reader<'a>>
    ensures value { answered_value result ≡ view_read (lists_seen schemas.now) value.entry (seen_variant variant) }
    ensures typed { NamesEntries (lists_seen schemas.now) (seen_variant variant)
        → IfOk result (IsOf (lists_seen schemas.now) (view_type value.entry (seen_variant variant))) }
{
    match value {
        Value::Void => Ok(Reader::Void),
        Value::Bool(x) => Ok(Reader::Bool(x)),
        Value::Int8(x) => Ok(Reader::Int8(x)),
        Value::Int16(x) => Ok(Reader::Int16(x)),
        Value::Int32(x) => Ok(Reader::Int32(x)),
        Value::Int64(x) => Ok(Reader::Int64(x)),
        Value::UInt8(x) => Ok(Reader::UInt8(x)),
        Value::UInt16(x) => Ok(Reader::UInt16(x)),
        Value::UInt32(x) => Ok(Reader::UInt32(x)),
        Value::UInt64(x) => Ok(Reader::UInt64(x)),
        Value::Enum(x) => view_enum(schemas, x, variant),
        Value::Text(x) => Ok(Reader::Text(x)),
        Value::Data(x) => Ok(Reader::Data(x)),
        Value::Struct(pointer) => view_struct(schemas, pointer, variant),
        Value::List(pointer) => view_list(schemas, pointer, variant),
        Value::AnyPointer(pointer) => view_untyped(schemas, pointer, variant),
    }
}

/// A number under an enum's type.
fn view_enum<'a>(schemas: &'a SchemaSet, value: u16, variant: TypeVariant) -> Result<Reader<'a>>
    ensures value { answered_value result ≡ view_read (lists_seen schemas.now) (view.Enum value) (seen_variant variant) }
    ensures typed { NamesEntries (lists_seen schemas.now) (seen_variant variant)
        → IfOk result (IsOf (lists_seen schemas.now) (seen_variant variant)) }
{
    let TypeVariant::Enum(raw) = variant else {
        return Err(Error::type_mismatch());
    };
    Ok(Reader::Enum(Enum::new(value, schemas.enum_schema(raw.number))))
}

/// A struct under a struct's type.
fn view_struct<'a>(
    schemas: &'a SchemaSet,
    pointer: PointerReader<'a>,
    variant: TypeVariant,
) -> Result<Reader<'a>>
    ensures value { answered_value result ≡ view_read (lists_seen schemas.now) (view.Struct pointer.entry)
        (seen_variant variant) }
    ensures typed { NamesEntries (lists_seen schemas.now) (seen_variant variant)
        → IfOk result (IsOf (lists_seen schemas.now) (seen_variant variant)) }
{
    let TypeVariant::Struct(raw) = variant else {
        return Err(Error::type_mismatch());
    };
    let reader = undefaulted_struct(&pointer)?;
    let schema = schemas.struct_schema(raw.number);
    Ok(Reader::Struct(dynamic_struct::Reader::new(reader, schema)))
}

/// A list under a list's type.
fn view_list<'a>(
    schemas: &'a SchemaSet,
    pointer: PointerReader<'a>,
    variant: TypeVariant,
) -> Result<Reader<'a>>
    ensures value { answered_value result ≡ view_read (lists_seen schemas.now) (view.List pointer.entry) (seen_variant variant) }
    ensures typed { NamesEntries (lists_seen schemas.now) (seen_variant variant)
        → IfOk result (IsOf (lists_seen schemas.now) (seen_variant variant)) }
{
    let TypeVariant::List(element_type) = variant else {
        return Err(Error::type_mismatch());
    };
    let size = element_type.expected_element_size();
    let reader = undefaulted_list(size, &pointer)?;
    Ok(Reader::List(dynamic_list::Reader::new(reader, element_type, schemas)))
}

/// An untyped pointer under its type.
fn view_untyped<'a>(
    schemas: &'a SchemaSet,
    pointer: PointerReader<'a>,
    variant: TypeVariant,
) -> Result<Reader<'a>>
    ensures value { answered_value result ≡ view_read (lists_seen schemas.now) (view.AnyPointer pointer.entry)
        (seen_variant variant) }
    ensures typed { NamesEntries (lists_seen schemas.now) (seen_variant variant)
        → IfOk result (IsOf (lists_seen schemas.now) (seen_variant variant)) }
{
    match variant {
        TypeVariant::AnyPointer => Ok(Reader::AnyPointer(any_pointer::Reader::new(pointer))),
        _ => Err(Error::type_mismatch()),
    }
}
