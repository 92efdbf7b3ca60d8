//! What is read of the fields of records of a request, by brand and index.
//!
//! The place of a slot is told by who asks, and proved to be the field's. No plan is looked up.
ghost use Rattle.std.specs.Prelude.{◌≡◌, ◌≢◌, ◌<◌, [], false, length, pos, IfErr, IfOk, string_bytes, Ok, Err};
ghost use Rattle.capnp_device.specs.declared.error.ErrorKind.TheVariants.{OutOfMemory};
ghost use Rattle.capnp_wire.specs.Reading.{list_length};
ghost use Rattle.capnp_wire.specs.Standing.{list_of, tree_of};
ghost use Rattle.capnp_base.specs.AnyPointer.{pointer_of};
ghost use Rattle.capnp_schema.specs.Builtin.{zero_word};
ghost use Rattle.capnp_schema.specs.Schema.{AnyPointerValue, BoolValue, DataValue, IntValue, ListValue, StructValue, TextValue, UIntValue};
ghost use Rattle.capnp_schema.specs.Types.{AnyPointerType, BoolType, DataType, IntType, TextType, UIntType};
ghost use Rattle.capnp_records.specs.Part.{which_of};
ghost use Rattle.capnp_records.specs.Record as value;
ghost use Rattle.capnp_known.specs.Known.{IsActive, record_in};
ghost use Rattle.capnp_request.specs.Conversion.{converted_name};
ghost use Rattle.capnp_request.specs.Parts.{request_struct, request_read_at};
ghost use Rattle.capnp_request.specs.Refusals.{IsUnstrict};
ghost use Rattle.capnp_request.specs.RequestSet.{request_set};
ghost use Rattle.capnp_request.specs.Steps.Handles.{IsRequestFieldActive, IsRequestField, IsRequestSlot, IsGroupField, IsListOf};
ghost use Rattle.capnp_request.specs.Steps.Parts.{request_structs};
ghost use Rattle.capnp_request.specs.Steps.Seen.{IsRequestRecord, element_seen, list_seen, record_seen};

use crate::handles::{RequestList, RequestRecord};
use crate::places::{FIELD_SLOT, SCOPE_BIND, brands};
use capnp_base::{any_pointer, text};
use capnp_known::known_set::KnownSet;
use capnp_known::members::member_at;
use capnp_known::{numbers, pointers};
use capnp_schema::loaded::load_pair;
use capnp_wire::StructReader;
use capnp_wire::error::{Error, ErrorKind, Result};
use std::alloc::Global;

/// The request set, as one that is known.
pub(crate) struct RequestSet;

impl KnownSet for RequestSet {
    ghost set = { request_set };
}

/// The index of the active member of a node's record, none where its number is unknown.
///
/// A field that is no member stands behind the members, so that this is no case of `member_at`.
#[inline(always)]
pub(crate) fn node_member(reader: RequestRecord<'_>) -> Option<u16>
    requires { IsRequestRecord 2 reader }
    ensures { result ≡ which_of (record_seen reader.entry) }
{
    let number = load_pair(&reader.sections, 96);
    if number < 6 {
        return Some(5 + number);
    }
    None
}

/// The active member of a field's record: that of index 3, a slot, that of index 4, a group, or none, where its number
/// is unknown.
#[inline(always)]
pub(crate) fn field_member(reader: RequestRecord<'_>) -> Option<u16>
    requires { IsRequestRecord 8 reader }
    ensures { result ≡ which_of (record_seen reader.entry) }
{
    member_at::<RequestSet>(&reader.sections, brands::FIELD, 64, FIELD_SLOT, 2)
}

/// The index of the active member of a type's record, none where its number is unknown.
#[inline(always)]
pub(crate) fn type_member(reader: RequestRecord<'_>) -> Option<u16>
    requires { IsRequestRecord 13 reader }
    ensures { result ≡ which_of (record_seen reader.entry) }
{
    member_at::<RequestSet>(&reader.sections, brands::TYPE, 0, 0, 19)
}

/// The index of the active member of a value's record, none where its number is unknown.
#[inline(always)]
pub(crate) fn value_member(reader: RequestRecord<'_>) -> Option<u16>
    requires { IsRequestRecord 22 reader }
    ensures { result ≡ which_of (record_seen reader.entry) }
{
    member_at::<RequestSet>(&reader.sections, brands::VALUE, 0, 0, 19)
}

/// The index of the active member of the record of an untyped pointer's type, none where its number is unknown.
#[inline(always)]
pub(crate) fn untyped_member(reader: RequestRecord<'_>) -> Option<u16>
    requires { IsRequestRecord 17 reader }
    ensures { result ≡ which_of (record_seen reader.entry) }
{
    member_at::<RequestSet>(&reader.sections, brands::TYPE_UNTYPED, 64, 0, 3)
}

/// The active member of a scope's record: that of index 1, what it binds, that of index 2, or none, where its number is
/// unknown.
#[inline(always)]
pub(crate) fn scope_member(reader: RequestRecord<'_>) -> Option<u16>
    requires { IsRequestRecord 20 reader }
    ensures { result ≡ which_of (record_seen reader.entry) }
{
    member_at::<RequestSet>(&reader.sections, brands::SCOPE, 64, SCOPE_BIND, 2)
}

/// The index of the active member of a binding's record, none where its number is unknown.
#[inline(always)]
pub(crate) fn binding_member(reader: RequestRecord<'_>) -> Option<u16>
    requires { IsRequestRecord 21 reader }
    ensures { result ≡ which_of (record_seen reader.entry) }
{
    member_at::<RequestSet>(&reader.sections, brands::BINDING, 0, 0, 2)
}

/// The sections of a record, of which a field is read.
#[inline(always)]
fn sections_at<'a>(reader: RequestRecord<'a>, brand: u32, index: u16) -> StructReader<'a>
    requires record { IsRequestRecord brand reader }
    requires active { IsRequestFieldActive brand index reader }
    ensures record { record_in request_set brand result ≡ record_seen reader.entry }
    ensures active { IsActive request_set brand index result }
{
    let (_brand, _index) = (brand, index);
    reader.sections
}

/// A `u8` whose default is 0, at an offset in units of its size.
#[inline(always)]
pub(crate) fn u8_at(reader: RequestRecord<'_>, brand: u32, index: u16, offset: u32) -> u8
    requires record { IsRequestRecord brand reader }
    requires field { IsRequestSlot brand index (UIntType 1) offset (UIntValue 1 0) }
    requires active { IsRequestFieldActive brand index reader }
    ensures { value.Number (pos result) ≡ request_read_at brand index (record_seen reader.entry) }
{
    let sections = sections_at(reader, brand, index);
    numbers::u8_at::<RequestSet>(&sections, brand, index, offset)
}

/// A `u16`, with its default.
#[inline(always)]
pub(crate) fn u16_at(
    reader: RequestRecord<'_>,
    brand: u32,
    index: u16,
    offset: u32,
    default: u16,
) -> u16
    requires record { IsRequestRecord brand reader }
    requires field { IsRequestSlot brand index (UIntType 2) offset (UIntValue 2 default) }
    requires active { IsRequestFieldActive brand index reader }
    ensures { value.Number (pos result) ≡ request_read_at brand index (record_seen reader.entry) }
{
    let sections = sections_at(reader, brand, index);
    numbers::u16_at::<RequestSet>(&sections, brand, index, offset, default)
}

/// A `u32` whose default is 0.
#[inline(always)]
pub(crate) fn u32_at(reader: RequestRecord<'_>, brand: u32, index: u16, offset: u32) -> u32
    requires record { IsRequestRecord brand reader }
    requires field { IsRequestSlot brand index (UIntType 4) offset (UIntValue 4 0) }
    requires active { IsRequestFieldActive brand index reader }
    ensures { value.Number (pos result) ≡ request_read_at brand index (record_seen reader.entry) }
{
    let sections = sections_at(reader, brand, index);
    numbers::u32_at::<RequestSet>(&sections, brand, index, offset)
}

/// A `u64` whose default is 0.
#[inline(always)]
pub(crate) fn u64_at(reader: RequestRecord<'_>, brand: u32, index: u16, offset: u32) -> u64
    requires record { IsRequestRecord brand reader }
    requires field { IsRequestSlot brand index (UIntType 8) offset (UIntValue 8 0) }
    requires active { IsRequestFieldActive brand index reader }
    ensures { value.Number (pos result) ≡ request_read_at brand index (record_seen reader.entry) }
{
    let sections = sections_at(reader, brand, index);
    numbers::u64_at::<RequestSet>(&sections, brand, index, offset)
}

/// An `i8` whose default is 0.
#[inline(always)]
pub(crate) fn i8_at(reader: RequestRecord<'_>, brand: u32, index: u16, offset: u32) -> i8
    requires record { IsRequestRecord brand reader }
    requires field { IsRequestSlot brand index (IntType 1) offset (IntValue 1 (pos 0)) }
    requires active { IsRequestFieldActive brand index reader }
    ensures { value.Number result ≡ request_read_at brand index (record_seen reader.entry) }
{
    let sections = sections_at(reader, brand, index);
    numbers::i8_at::<RequestSet>(&sections, brand, index, offset)
}

/// An `i16` whose default is 0.
#[inline(always)]
pub(crate) fn i16_at(reader: RequestRecord<'_>, brand: u32, index: u16, offset: u32) -> i16
    requires record { IsRequestRecord brand reader }
    requires field { IsRequestSlot brand index (IntType 2) offset (IntValue 2 (pos 0)) }
    requires active { IsRequestFieldActive brand index reader }
    ensures { value.Number result ≡ request_read_at brand index (record_seen reader.entry) }
{
    let sections = sections_at(reader, brand, index);
    numbers::i16_at::<RequestSet>(&sections, brand, index, offset)
}

/// An `i32` whose default is 0.
#[inline(always)]
pub(crate) fn i32_at(reader: RequestRecord<'_>, brand: u32, index: u16, offset: u32) -> i32
    requires record { IsRequestRecord brand reader }
    requires field { IsRequestSlot brand index (IntType 4) offset (IntValue 4 (pos 0)) }
    requires active { IsRequestFieldActive brand index reader }
    ensures { value.Number result ≡ request_read_at brand index (record_seen reader.entry) }
{
    let sections = sections_at(reader, brand, index);
    numbers::i32_at::<RequestSet>(&sections, brand, index, offset)
}

/// An `i64` whose default is 0.
#[inline(always)]
pub(crate) fn i64_at(reader: RequestRecord<'_>, brand: u32, index: u16, offset: u32) -> i64
    requires record { IsRequestRecord brand reader }
    requires field { IsRequestSlot brand index (IntType 8) offset (IntValue 8 (pos 0)) }
    requires active { IsRequestFieldActive brand index reader }
    ensures { value.Number result ≡ request_read_at brand index (record_seen reader.entry) }
{
    let sections = sections_at(reader, brand, index);
    numbers::i64_at::<RequestSet>(&sections, brand, index, offset)
}

/// A truth value whose default is false.
#[inline(always)]
pub(crate) fn bool_at(reader: RequestRecord<'_>, brand: u32, index: u16, offset: u32) -> bool
    requires record { IsRequestRecord brand reader }
    requires field { IsRequestSlot brand index BoolType offset (BoolValue false) }
    requires active { IsRequestFieldActive brand index reader }
    ensures { value.Truth result ≡ request_read_at brand index (record_seen reader.entry) }
{
    let sections = sections_at(reader, brand, index);
    numbers::bool_at::<RequestSet>(&sections, brand, index, offset)
}

/// The bytes of a text.
#[inline(always)]
pub(crate) fn text_at<'a>(
    reader: RequestRecord<'a>,
    brand: u32,
    index: u16,
    place: u16,
) -> Result<&'a [u8]>
    requires record { IsRequestRecord brand reader }
    requires field { IsRequestSlot brand index TextType place (TextValue []) }
    requires active { IsRequestFieldActive brand index reader }
    ensures read { IfOk result (λ x. value.Text x.now ≡ request_read_at brand index (record_seen reader.entry)) }
    ensures refused { IfErr result (λ e. value.Fault e.kind ≡ request_read_at brand index (record_seen reader.entry)) }
    ensures kinds { IfErr result (λ e. IsUnstrict e.kind) }
{
    let sections = sections_at(reader, brand, index);
    pointers::text_at::<RequestSet>(&sections, brand, index, place)
}

/// The bytes of a data.
#[inline(always)]
pub(crate) fn data_at<'a>(
    reader: RequestRecord<'a>,
    brand: u32,
    index: u16,
    place: u16,
) -> Result<&'a [u8]>
    requires record { IsRequestRecord brand reader }
    requires field { IsRequestSlot brand index DataType place (DataValue []) }
    requires active { IsRequestFieldActive brand index reader }
    ensures read { IfOk result (λ x. value.«Data» x.now ≡ request_read_at brand index (record_seen reader.entry)) }
    ensures refused { IfErr result (λ e. value.Fault e.kind ≡ request_read_at brand index (record_seen reader.entry)) }
    ensures kinds { IfErr result (λ e. IsUnstrict e.kind) }
{
    let sections = sections_at(reader, brand, index);
    pointers::data_at::<RequestSet>(&sections, brand, index, place)
}

/// An untyped pointer.
#[inline(always)]
pub(crate) fn untyped_at<'a>(
    reader: RequestRecord<'a>,
    brand: u32,
    index: u16,
    place: u16,
) -> any_pointer::Reader<'a>
    requires record { IsRequestRecord brand reader }
    requires field { IsRequestSlot brand index AnyPointerType place (AnyPointerValue zero_word) }
    requires active { IsRequestFieldActive brand index reader }
    ensures { value.Untyped (tree_of (pointer_of result)) ≡ request_read_at brand index (record_seen reader.entry) }
{
    let sections = sections_at(reader, brand, index);
    any_pointer::Reader::new(sections.get_pointer_field(place))
}

/// A copy of a name's bytes. Refused with `NameNotUtf8` where they are no UTF-8.
pub(crate) fn owned(alloc: Global, bytes: &[u8]) -> Result<String>
    ensures read { IfOk result (λ x. converted_name bytes.now ≡ Ok (string_bytes x)) }
    ensures refused { IfErr result (λ e. e.kind ≢ OutOfMemory → converted_name bytes.now ≡ Err e.kind) }
    ensures kinds { IfErr result (λ e. IsUnstrict e.kind) }
{
    match text::Reader(bytes).to_str() {
        Ok(text) => Ok(String::from_str(alloc, text)?),
        Err(_) => Err(Error {
            kind: ErrorKind::NameNotUtf8,
        }),
    }
}

/// The struct of a brand.
#[inline(always)]
pub(crate) fn struct_at<'a>(
    reader: RequestRecord<'a>,
    brand: u32,
    index: u16,
    place: u16,
    inner: u32,
) -> Result<RequestRecord<'a>>
    requires record { IsRequestRecord brand reader }
    requires field { IsRequestSlot brand index (request_struct inner) place (StructValue zero_word) }
    requires active { IsRequestFieldActive brand index reader }
    ensures read { IfOk result (λ s. value.Struct (record_seen s) ≡ request_read_at brand index (record_seen reader.entry)) }
    ensures record { IfOk result (IsRequestRecord inner) }
    ensures refused { IfErr result (λ e. value.Fault e.kind ≡ request_read_at brand index (record_seen reader.entry)) }
    ensures kinds { IfErr result (λ e. IsUnstrict e.kind) }
{
    let sections = sections_at(reader, brand, index);
    match pointers::struct_at::<RequestSet>(&sections, brand, index, place, inner) {
        Ok(found) => Ok(RequestRecord {
            sections: found,
            brand: inner,
        }),
        Err(error) => Err(error),
    }
}

/// The group of a brand: the same struct, of which nothing is entered.
#[inline(always)]
pub(crate) fn group_at<'a>(
    reader: RequestRecord<'a>,
    brand: u32,
    index: u16,
    inner: u32,
) -> RequestRecord<'a>
    requires record { IsRequestRecord brand reader }
    requires field { IsRequestField brand index (request_struct inner) }
    requires group { IsGroupField brand index }
    requires brand { brand < length request_set.brands }
    requires active { IsRequestFieldActive brand index reader }
    ensures read { value.Struct (record_seen result) ≡ request_read_at brand index (record_seen reader.entry) }
    ensures record { IsRequestRecord inner result }
{
    let (_brand, _index) = (brand, index);
    RequestRecord {
        sections: reader.sections,
        brand: inner,
    }
}

/// The list of structs of a brand that a field has.
#[inline(always)]
pub(crate) fn list_at<'a>(
    reader: RequestRecord<'a>,
    brand: u32,
    index: u16,
    place: u16,
    inner: u32,
) -> Result<RequestList<'a>>
    requires record { IsRequestRecord brand reader }
    requires field { IsRequestSlot brand index (request_structs inner) place (ListValue zero_word) }
    requires active { IsRequestFieldActive brand index reader }
    ensures read { IfOk result (λ l. list_seen l ≡ request_read_at brand index (record_seen reader.entry)) }
    ensures elements { IfOk result (IsListOf inner) }
    ensures refused { IfErr result (λ e. value.Fault e.kind ≡ request_read_at brand index (record_seen reader.entry)) }
    ensures kinds { IfErr result (λ e. IsUnstrict e.kind) }
{
    let sections = sections_at(reader, brand, index);
    match pointers::structs_at::<RequestSet>(&sections, brand, index, place, inner) {
        Ok(elements) => Ok(RequestList {
            elements,
            brand: inner,
        }),
        Err(error) => Err(error),
    }
}

/// An element of a list of structs of a brand.
#[inline(always)]
pub(crate) fn element_at<'a>(
    list: RequestList<'a>,
    index: u32,
    inner: u32,
) -> Result<RequestRecord<'a>>
    requires elements { IsListOf inner list }
    requires inside { index < list_length (list_of list.elements) }
    ensures read { IfOk result (λ s. value.Struct (record_seen s) ≡ element_seen list.entry index) }
    ensures record { IfOk result (IsRequestRecord inner) }
    ensures refused { IfErr result (λ e. value.Fault e.kind ≡ element_seen list.entry index) }
    ensures kinds { IfErr result (λ e. IsUnstrict e.kind) }
{
    match list.elements.get_struct_element(index) {
        Ok(sections) => Ok(RequestRecord {
            sections,
            brand: inner,
        }),
        Err(error) => Err(error),
    }
}
