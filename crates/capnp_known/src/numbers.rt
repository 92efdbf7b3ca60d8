//! Numbers at their fields' places in the data section.
//!
//! An offset is in units of the number's size, that of a truth value in bits.
ghost use Rattle.std.specs.Prelude.{◌≡◌, false, pos};
ghost use Rattle.capnp_schema.specs.Schema.{BoolValue, IntValue, UIntValue};
ghost use Rattle.capnp_schema.specs.Types.{BoolType, IntType, UIntType};
ghost use Rattle.capnp_records.specs.Record as value;
ghost use Rattle.capnp_known.specs.Known.{IsActive, IsSlot, read_at, record_in};

use crate::known_set::KnownSet;
use capnp_wire::StructReader;
use capnp_wire::laws::struct_is_well_formed;

/// A truth value whose default is false.
///
/// # Conditions
///
/// The field is a slot of this type there, with this default, and is active (`IsSlot`, `IsActive`).
#[inline(always)]
pub fn bool_at<S: KnownSet>(reader: &StructReader<'_>, brand: u32, index: u16, offset: u32) -> bool
    requires field { IsSlot S.set brand index BoolType offset (BoolValue false) }
    requires active { IsActive S.set brand index reader.now }
    ensures { value.Truth result ≡ read_at S.set brand index (record_in S.set brand reader.now) }
{
    let (_brand, _index) = (brand, index);
    reader.get_bool_field(offset)
}

/// A `u8` whose default is 0.
///
/// # Conditions
///
/// The field is a slot of this type there, with this default, and is active (`IsSlot`, `IsActive`).
#[inline(always)]
pub fn u8_at<S: KnownSet>(reader: &StructReader<'_>, brand: u32, index: u16, offset: u32) -> u8
    requires field { IsSlot S.set brand index (UIntType 1) offset (UIntValue 1 0) }
    requires active { IsActive S.set brand index reader.now }
    ensures { value.Number (pos result) ≡ read_at S.set brand index (record_in S.set brand reader.now) }
{
    let (_brand, _index) = (brand, index);
    struct_is_well_formed(reader);
    reader.get_data_field_mask::<u8>(offset, 0)
}

/// A `u16`, with its default.
///
/// # Conditions
///
/// The field is a slot of this type there, with this default, and is active (`IsSlot`, `IsActive`).
#[inline(always)]
pub fn u16_at<S: KnownSet>(
    reader: &StructReader<'_>,
    brand: u32,
    index: u16,
    offset: u32,
    default: u16,
) -> u16
    requires field { IsSlot S.set brand index (UIntType 2) offset (UIntValue 2 default) }
    requires active { IsActive S.set brand index reader.now }
    ensures { value.Number (pos result) ≡ read_at S.set brand index (record_in S.set brand reader.now) }
{
    let (_brand, _index) = (brand, index);
    struct_is_well_formed(reader);
    reader.get_data_field_mask::<u16>(offset, default)
}

/// A `u32` whose default is 0.
///
/// # Conditions
///
/// The field is a slot of this type there, with this default, and is active (`IsSlot`, `IsActive`).
#[inline(always)]
pub fn u32_at<S: KnownSet>(reader: &StructReader<'_>, brand: u32, index: u16, offset: u32) -> u32
    requires field { IsSlot S.set brand index (UIntType 4) offset (UIntValue 4 0) }
    requires active { IsActive S.set brand index reader.now }
    ensures { value.Number (pos result) ≡ read_at S.set brand index (record_in S.set brand reader.now) }
{
    let (_brand, _index) = (brand, index);
    struct_is_well_formed(reader);
    reader.get_data_field_mask::<u32>(offset, 0)
}

/// A `u64` whose default is 0.
///
/// # Conditions
///
/// The field is a slot of this type there, with this default, and is active (`IsSlot`, `IsActive`).
#[inline(always)]
pub fn u64_at<S: KnownSet>(reader: &StructReader<'_>, brand: u32, index: u16, offset: u32) -> u64
    requires field { IsSlot S.set brand index (UIntType 8) offset (UIntValue 8 0) }
    requires active { IsActive S.set brand index reader.now }
    ensures { value.Number (pos result) ≡ read_at S.set brand index (record_in S.set brand reader.now) }
{
    let (_brand, _index) = (brand, index);
    struct_is_well_formed(reader);
    reader.get_data_field_mask::<u64>(offset, 0)
}

/// An `i8` whose default is 0.
///
/// # Conditions
///
/// The field is a slot of this type there, with this default, and is active (`IsSlot`, `IsActive`).
#[inline(always)]
pub fn i8_at<S: KnownSet>(reader: &StructReader<'_>, brand: u32, index: u16, offset: u32) -> i8
    requires field { IsSlot S.set brand index (IntType 1) offset (IntValue 1 (pos 0)) }
    requires active { IsActive S.set brand index reader.now }
    ensures { value.Number result ≡ read_at S.set brand index (record_in S.set brand reader.now) }
{
    let (_brand, _index) = (brand, index);
    struct_is_well_formed(reader);
    reader.get_data_field_mask::<u8>(offset, 0).cast_signed()
}

/// An `i16` whose default is 0.
///
/// # Conditions
///
/// The field is a slot of this type there, with this default, and is active (`IsSlot`, `IsActive`).
#[inline(always)]
pub fn i16_at<S: KnownSet>(reader: &StructReader<'_>, brand: u32, index: u16, offset: u32) -> i16
    requires field { IsSlot S.set brand index (IntType 2) offset (IntValue 2 (pos 0)) }
    requires active { IsActive S.set brand index reader.now }
    ensures { value.Number result ≡ read_at S.set brand index (record_in S.set brand reader.now) }
{
    let (_brand, _index) = (brand, index);
    struct_is_well_formed(reader);
    reader.get_data_field_mask::<u16>(offset, 0).cast_signed()
}

/// An `i32` whose default is 0.
///
/// # Conditions
///
/// The field is a slot of this type there, with this default, and is active (`IsSlot`, `IsActive`).
#[inline(always)]
pub fn i32_at<S: KnownSet>(reader: &StructReader<'_>, brand: u32, index: u16, offset: u32) -> i32
    requires field { IsSlot S.set brand index (IntType 4) offset (IntValue 4 (pos 0)) }
    requires active { IsActive S.set brand index reader.now }
    ensures { value.Number result ≡ read_at S.set brand index (record_in S.set brand reader.now) }
{
    let (_brand, _index) = (brand, index);
    struct_is_well_formed(reader);
    reader.get_data_field_mask::<u32>(offset, 0).cast_signed()
}

/// An `i64` whose default is 0.
///
/// # Conditions
///
/// The field is a slot of this type there, with this default, and is active (`IsSlot`, `IsActive`).
#[inline(always)]
pub fn i64_at<S: KnownSet>(reader: &StructReader<'_>, brand: u32, index: u16, offset: u32) -> i64
    requires field { IsSlot S.set brand index (IntType 8) offset (IntValue 8 (pos 0)) }
    requires active { IsActive S.set brand index reader.now }
    ensures { value.Number result ≡ read_at S.set brand index (record_in S.set brand reader.now) }
{
    let (_brand, _index) = (brand, index);
    struct_is_well_formed(reader);
    reader.get_data_field_mask::<u64>(offset, 0).cast_signed()
}
