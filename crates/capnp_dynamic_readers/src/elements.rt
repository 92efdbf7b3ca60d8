//! Elements of lists.
ghost use Rattle.std.specs.Prelude.{IfOk, ◌≡◌};
ghost use Rattle.capnp_wire.specs.Standing.{list_levels, list_of};
ghost use Rattle.capnp_schema.specs.Accepted.{NamesEntries};
ghost use Rattle.capnp_schema.specs.Entries.{lists_seen};
ghost use Rattle.capnp_schema.specs.Schema.{VoidValue};
ghost use Rattle.capnp_schema.specs.Types.{seen_variant};
ghost use Rattle.capnp_records.specs.Facts.Readers.{element_read};
ghost use Rattle.capnp_records.specs.Default.{read_of};
ghost use Rattle.capnp_dynamic_readers.specs.Seen.{answered_value};
ghost use Rattle.capnp_dynamic_readers.specs.Typed.{IsOf, IsValueUnder};

use crate::behind::{undefaulted_data, undefaulted_list, undefaulted_text};
use crate::dynamic_value::{Enum, Reader as Value};
use crate::{dynamic_list, dynamic_struct};
use capnp_base::introspect::TypeVariant;
use capnp_base::{any_pointer, text};
use capnp_schema::set::SchemaSet;
use capnp_wire::ListReader;
use capnp_wire::error::Result;

/// An element under a type: a number as it stands, an enum, text, data, struct, list or untyped pointer as the read of
/// an element answers it. Past the end of the list it is that of a null element.
///
/// Refused as the read of an element of that type is.
pub fn read_element<'a>(
    list: &ListReader<'a>,
    schemas: &'a SchemaSet,
    variant: TypeVariant,
    index: u32,
) -> Result<Value<'a>>
    ensures value { answered_value result ≡ read_of (lists_seen schemas.now) VoidValue (seen_variant variant)
        (element_read (lists_seen schemas.now) (list_of list.now) (list_levels list.now) (seen_variant variant) index) }
    ensures under { IfOk result (IsValueUnder (lists_seen schemas.now) (seen_variant variant)) }
    ensures typed { NamesEntries (lists_seen schemas.now) (seen_variant variant)
        → IfOk result (IsOf (lists_seen schemas.now) (seen_variant variant)) }
{
    match variant {
        TypeVariant::Void => Ok(Value::Void),
        TypeVariant::Bool => Ok(Value::Bool(list.get_bool_element(index))),
        TypeVariant::Int8 => Ok(Value::Int8(list.get_data_element::<i8>(index))),
        TypeVariant::Int16 => Ok(Value::Int16(list.get_data_element::<i16>(index))),
        TypeVariant::Int32 => Ok(Value::Int32(list.get_data_element::<i32>(index))),
        TypeVariant::Int64 => Ok(Value::Int64(list.get_data_element::<i64>(index))),
        TypeVariant::UInt8 => Ok(Value::UInt8(list.get_data_element::<u8>(index))),
        TypeVariant::UInt16 => Ok(Value::UInt16(list.get_data_element::<u16>(index))),
        TypeVariant::UInt32 => Ok(Value::UInt32(list.get_data_element::<u32>(index))),
        TypeVariant::UInt64 => Ok(Value::UInt64(list.get_data_element::<u64>(index))),
        TypeVariant::Enum(raw) => {
            let value = list.get_data_element::<u16>(index);
            Ok(Value::Enum(Enum::new(value, schemas.enum_schema(raw.number))))
        }
        TypeVariant::Text => {
            let bytes = undefaulted_text(&list.get_pointer_element(index))?;
            Ok(Value::Text(text::Reader(bytes)))
        }
        TypeVariant::Data => Ok(Value::Data(undefaulted_data(&list.get_pointer_element(index))?)),
        TypeVariant::Struct(raw) => {
            let reader = list.get_struct_element(index)?;
            let schema = schemas.struct_schema(raw.number);
            Ok(Value::Struct(dynamic_struct::Reader::new(reader, schema)))
        }
        TypeVariant::AnyPointer => {
            let reader = list.get_pointer_element(index);
            Ok(Value::AnyPointer(any_pointer::Reader::new(reader)))
        }
        TypeVariant::List(element_type) => {
            let size = element_type.expected_element_size();
            let reader = undefaulted_list(size, &list.get_pointer_element(index))?;
            Ok(Value::List(dynamic_list::Reader::new(reader, element_type, schemas)))
        }
    }
}
