//! What stands behind the pointers at their fields' places.
//!
//! A null is read as the field's default, which is empty.
ghost use Rattle.std.specs.Prelude.{◌≡◌, ◌<◌, IsTrue, []};
ghost use Rattle.capnp_wire.specs.Standing.{levels_of, tree_of};
ghost use Rattle.capnp_wire.specs.Tree.{Null};
ghost use Rattle.capnp_schema.specs.Builtin.{zero_word};
ghost use Rattle.capnp_schema.specs.Schema.{DataValue, ListValue, StructValue, TextValue, field_at};
ghost use Rattle.capnp_schema.specs.Types.{DataType, ListType, TextType, element_size};
ghost use Rattle.capnp_records.specs.Reading.{element_type};
ghost use Rattle.capnp_records.specs.Record as value;
ghost use Rattle.capnp_records.specs.Record.{NoValues};
ghost use Rattle.capnp_known.specs.Known.{IsActive, IsSlot, data_value, list_value, read_at, record_in, struct_type, struct_value, text_value};

use crate::known_set::KnownSet;
use capnp_wire::error::Result;
use capnp_wire::size::ElementSize;
use capnp_wire::{ListReader, PointerReader, StructReader};

/// The bytes of a text.
///
/// Refused as `PointerReader::get_text`.
///
/// # Conditions
///
/// The field is a slot of a text there, and is active (`IsSlot`, `IsActive`).
#[inline(always)]
pub fn text_at<'a, S: KnownSet>(
    reader: &StructReader<'a>,
    brand: u32,
    index: u16,
    place: u16,
) -> Result<&'a [u8]>
    requires field { IsSlot S.set brand index TextType place (TextValue []) }
    requires active { IsActive S.set brand index reader.now }
    ensures { text_value result ≡ read_at S.set brand index (record_in S.set brand reader.now) }
{
    let (_brand, _index) = (brand, index);
    reader.get_pointer_field(place).get_text()
}

/// The bytes of a data.
///
/// Refused as `PointerReader::get_data`.
///
/// # Conditions
///
/// The field is a slot of a data there, and is active (`IsSlot`, `IsActive`).
#[inline(always)]
pub fn data_at<'a, S: KnownSet>(
    reader: &StructReader<'a>,
    brand: u32,
    index: u16,
    place: u16,
) -> Result<&'a [u8]>
    requires field { IsSlot S.set brand index DataType place (DataValue []) }
    requires active { IsActive S.set brand index reader.now }
    ensures { data_value result ≡ read_at S.set brand index (record_in S.set brand reader.now) }
{
    let (_brand, _index) = (brand, index);
    reader.get_pointer_field(place).get_data()
}

/// The struct of a brand.
///
/// Refused as `PointerReader::get_struct`.
///
/// # Conditions
///
/// The field is a slot of such a struct there, and is active (`IsSlot`, `IsActive`).
#[inline(always)]
pub fn struct_at<'a, S: KnownSet>(
    reader: &StructReader<'a>,
    brand: u32,
    index: u16,
    place: u16,
    inner: u32,
) -> Result<StructReader<'a>>
    requires field { IsSlot S.set brand index (struct_type inner) place (StructValue zero_word) }
    requires active { IsActive S.set brand index reader.now }
    ensures { struct_value S.set inner result ≡ read_at S.set brand index (record_in S.set brand reader.now) }
{
    let (_brand, _index, _inner) = (brand, index, inner);
    reader.get_pointer_field(place).get_struct()
}

/// A list, whose elements have a size.
///
/// Refused as `PointerReader::get_list`.
///
/// # Conditions
///
/// The field is a slot of a list there whose elements' type has this size, and is active (`IsSlot`, `IsActive`).
#[inline(always)]
pub fn list_at<'a, S: KnownSet>(
    reader: &StructReader<'a>,
    brand: u32,
    index: u16,
    place: u16,
    size: ElementSize,
) -> Result<ListReader<'a>>
    requires field { IsSlot S.set brand index (ListType (element_type (field_at S.set brand index).type)) place
        (ListValue zero_word) }
    requires size { element_size (element_type (field_at S.set brand index).type) ≡ size }
    requires active { IsActive S.set brand index reader.now }
    ensures { list_value S.set (element_type (field_at S.set brand index).type) result
        ≡ read_at S.set brand index (record_in S.set brand reader.now) }
{
    let (_brand, _index) = (brand, index);
    reader.get_pointer_field(place).get_list(size)
}

/// A list of structs of a brand.
///
/// Refused as `PointerReader::get_list`.
///
/// # Conditions
///
/// The field is a slot of such a list there, and is active (`IsSlot`, `IsActive`).
#[inline(always)]
pub fn structs_at<'a, S: KnownSet>(
    reader: &StructReader<'a>,
    brand: u32,
    index: u16,
    place: u16,
    inner: u32,
) -> Result<ListReader<'a>>
    requires field { IsSlot S.set brand index (ListType (struct_type inner)) place (ListValue zero_word) }
    requires active { IsActive S.set brand index reader.now }
    ensures { list_value S.set (struct_type inner) result ≡ read_at S.set brand index (record_in S.set brand reader.now) }
{
    let (_brand, _index, _inner) = (brand, index, inner);
    reader
        .get_pointer_field(place)
        .get_list(ElementSize::InlineComposite)
}

/// Whether a pointer is null and a level is left for a list behind it, which then is empty. A null is all that is read
/// both as data and as a struct, and both tests stand where they are asked, while a list is read by a call.
#[inline(always)]
pub fn is_no_list(pointer: &PointerReader<'_>) -> bool
    ensures null { IsTrue result → tree_of pointer.now ≡ Null }
    ensures level { IsTrue result → 0 < levels_of pointer.now }
{
    match pointer.get_data() {
        Ok(_) => match pointer.get_struct() {
            Ok(_) => true,
            Err(_) => false,
        },
        Err(_) => false,
    }
}

/// Whether a list is null where a level is left for it: then it is empty, and need not be read.
///
/// # Conditions
///
/// The field is a slot of a list there, and is active (`IsSlot`, `IsActive`).
#[inline(always)]
pub fn is_null_list_at<S: KnownSet>(
    reader: &StructReader<'_>,
    brand: u32,
    index: u16,
    place: u16,
) -> bool
    requires field { IsSlot S.set brand index (ListType (element_type (field_at S.set brand index).type)) place
        (ListValue zero_word) }
    requires active { IsActive S.set brand index reader.now }
    ensures { IsTrue result → value.Elements NoValues ≡ read_at S.set brand index (record_in S.set brand reader.now) }
{
    let (_brand, _index) = (brand, index);
    is_no_list(&reader.get_pointer_field(place))
}
