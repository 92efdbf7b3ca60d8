//! Reads at the place of a field.
ghost use Rattle.std.specs.Prelude.{true, IfOk, IfSome, ◌≡◌, ◌<◌, ◌%◌, ◌^◌, bit_xor};
ghost use Rattle.capnp_wire.specs.Standing.{struct_levels, struct_of};
ghost use Rattle.capnp_schema.specs.Accepted.{NamesEntries};
ghost use Rattle.capnp_schema.specs.Entries.{lists_seen};
ghost use Rattle.capnp_schema.specs.Schema.{kind_default, seen_kind};
ghost use Rattle.capnp_schema.specs.SlotValue.{bits_at};
ghost use Rattle.capnp_schema.specs.Types.{is_pointer, width, seen_variant};
ghost use Rattle.capnp_records.specs.Reading.{number_value};
ghost use Rattle.capnp_records.specs.Record.{Left};
ghost use Rattle.capnp_dynamic_readers.specs.Steps.Planned.{IsSound, member_there, placed_read, planned_has};
ghost use Rattle.capnp_dynamic_readers.specs.Reads.{pointer_read};
ghost use Rattle.capnp_dynamic_readers.specs.Seen.{answered_value};
ghost use Rattle.capnp_dynamic_readers.specs.Typed.{IsOf};

use crate::behind::{read_data, read_list, read_struct, read_text};
use crate::bits::{bit_at, byte_at, half_at, pair_at, word_at};
use crate::dynamic_value::{Enum, Reader as Value};
use crate::presence::is_there;
use crate::{dynamic_list, dynamic_struct};
use capnp_base::introspect::TypeVariant;
use capnp_base::{any_pointer, text};
use capnp_schema::loaded::load_pair;
use capnp_schema::plan::{Place, SlotPlan};
use capnp_schema::record::FieldKind;
use capnp_schema::set::SchemaSet;
use capnp_wire::error::{Error, Result};
use capnp_wire::{PointerReader, StructReader};

/// The number at a place of the data section.
#[inline(always)]
fn read_bits<'a>(
    reader: &StructReader<'a>,
    schemas: &'a SchemaSet,
    variant: TypeVariant,
    start: u32,
    mask: u64,
) -> Result<Value<'a>>
    requires wide { 0 < width (seen_variant variant) }
    requires start { start % width (seen_variant variant) ≡ 0 }
    requires mask { mask < 2 ^ width (seen_variant variant) }
    ensures value { answered_value result ≡ number_value (seen_variant variant)
        (bit_xor (bits_at (struct_of reader.now).bytes start (width (seen_variant variant))) mask) }
    ensures typed { NamesEntries (lists_seen schemas.now) (seen_variant variant)
        → IfOk result (IsOf (lists_seen schemas.now) (seen_variant variant)) }
{
    match variant {
        TypeVariant::Bool => Ok(Value::Bool(bit_at(reader, start, mask))),
        TypeVariant::Int8 => Ok(Value::Int8(byte_at(reader, start, mask).cast_signed())),
        TypeVariant::Int16 => Ok(Value::Int16(pair_at(reader, start, mask).cast_signed())),
        TypeVariant::Int32 => Ok(Value::Int32(half_at(reader, start, mask).cast_signed())),
        TypeVariant::Int64 => Ok(Value::Int64(word_at(reader, start, mask).cast_signed())),
        TypeVariant::UInt8 => Ok(Value::UInt8(byte_at(reader, start, mask))),
        TypeVariant::UInt16 => Ok(Value::UInt16(pair_at(reader, start, mask))),
        TypeVariant::UInt32 => Ok(Value::UInt32(half_at(reader, start, mask))),
        TypeVariant::UInt64 => Ok(Value::UInt64(word_at(reader, start, mask))),
        TypeVariant::Enum(raw) => {
            let value = pair_at(reader, start, mask);
            Ok(Value::Enum(Enum::new(value, schemas.enum_schema(raw.number))))
        }
        _ => Err(Error::type_mismatch()),
    }
}

/// What stands behind a pointer, or in the default of its slot.
#[inline(never)]
fn read_pointer<'a>(
    schemas: &'a SchemaSet,
    kind: &'a FieldKind,
    variant: TypeVariant,
    pointer: PointerReader<'a>,
) -> Result<Value<'a>>
    requires { is_pointer (seen_variant variant) ≡ true }
    ensures value { answered_value result ≡ pointer_read (lists_seen schemas.now) (kind_default (seen_kind kind.now))
        (seen_variant variant) pointer.entry }
    ensures typed { NamesEntries (lists_seen schemas.now) (seen_variant variant)
        → IfOk result (IsOf (lists_seen schemas.now) (seen_variant variant)) }
{
    match variant {
        TypeVariant::Text => Ok(Value::Text(text::Reader(read_text(kind, &pointer)?))),
        TypeVariant::Data => Ok(Value::Data(read_data(kind, &pointer)?)),
        TypeVariant::Struct(raw) => {
            let reader = read_struct(kind, &pointer)?;
            let schema = schemas.struct_schema(raw.number);
            Ok(Value::Struct(dynamic_struct::Reader::new(reader, schema)))
        }
        TypeVariant::List(element_type) => {
            let size = element_type.expected_element_size();
            let reader = read_list(kind, size, &pointer)?;
            Ok(Value::List(dynamic_list::Reader::new(reader, element_type, schemas)))
        }
        TypeVariant::AnyPointer => Ok(Value::AnyPointer(any_pointer::Reader::new(pointer))),
        _ => Err(Error::type_mismatch()),
    }
}

/// What stands at a place.
#[inline(always)]
pub(crate) fn read_placed<'a>(
    reader: &StructReader<'a>,
    schemas: &'a SchemaSet,
    kind: &'a FieldKind,
    variant: TypeVariant,
    place: Place,
) -> Result<Value<'a>>
    requires { IsSound (lists_seen schemas.now) (seen_variant variant) place }
    ensures value { answered_value result ≡ placed_read (lists_seen schemas.now) (Left (struct_levels reader.now))
        (struct_of reader.now)
        (kind_default (seen_kind kind.now)) (seen_variant variant) place }
    ensures typed { NamesEntries (lists_seen schemas.now) (seen_variant variant)
        → IfOk result (IsOf (lists_seen schemas.now) (seen_variant variant)) }
{
    match place {
        Place::Nothing => Ok(Value::Void),
        Place::Bits {
            start,
            width: _,
            mask,
        } => read_bits(reader, schemas, variant, start, mask),
        Place::Pointer(index) => read_pointer(
            schemas,
            kind,
            variant,
            reader.get_pointer_field(index),
        ),
        Place::Group(brand) => {
            let schema = schemas.struct_schema(brand);
            Ok(Value::Struct(dynamic_struct::Reader::new(*reader, schema)))
        }
    }
}

/// Whether a member of a plan is active; a field that is no member always is.
#[inline(always)]
pub(crate) fn is_member_active(reader: &StructReader<'_>, member: Option<(u32, u16)>) -> bool
    requires { IfSome member (λ m. m.0 % 16 ≡ 0) }
    ensures { result ≡ member_there (struct_of reader.now).bytes member }
{
    match member {
        Some((start, value)) => load_pair(reader, start) == value,
        None => true,
    }
}

/// Whether a member is active by its plan, and what stands at its place is no null.
#[inline(always)]
pub(crate) fn has_planned(reader: &StructReader<'_>, plan: SlotPlan) -> bool
    requires { IfSome plan.member (λ m. m.0 % 16 ≡ 0) }
    ensures { result ≡ planned_has (struct_of reader.now) plan }
{
    is_member_active(reader, plan.member) && is_there(reader, plan.place)
}
