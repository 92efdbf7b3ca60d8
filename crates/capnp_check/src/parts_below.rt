//! What is looked at on the way to a refusal: values, and the first part of each that is refused.
ghost use Rattle.std.specs.Prelude.{None, ◌≡◌, MatchOption};
ghost use Rattle.capnp_schema.specs.FieldLists.{IsFieldOf, index_of};
ghost use Rattle.capnp_schema.specs.Schema.{Schemas};
ghost use Rattle.capnp_schema.specs.StructHandles.{set_of};
ghost use Rattle.capnp_dynamic_readers.specs.Handles.{list_set, schema_of};
ghost use Rattle.capnp_dynamic_readers.specs.Shown.{set_seen};
ghost use Rattle.capnp_dynamic_readers.specs.Steps.GroupTexts.{IsSlotField};
ghost use Rattle.capnp_dynamic_readers.specs.Steps.PartsRead.{field_in};
ghost use Rattle.capnp_dynamic_readers.specs.Steps.Shown.{list_shown, record_shown};
ghost use Rattle.capnp_check.specs.Places.{root_parts};
ghost use Rattle.capnp_check.specs.Refusals.{answer_refusal, text_refusal};
ghost use Rattle.capnp_check.specs.Steps.PlaceSteps.{IsElementOpened, IsElementSaid, IsElementUnsaid, IsFieldOpened, IsFieldRefused, IsFieldSaid, IsOpenIn, IsStepBelow, own_number, parts_refusal, parts_seen, value_opened};
ghost use Rattle.capnp_check.specs.declared.parts_below.OpenValue.TheVariants as opened;

use crate::check::{PRINT_LEVELS, check_list, check_record};
use crate::parts::{is_field_shown, read_element, read_slot, refusal_at};
use crate::place::PlaceStep;
use capnp_dynamic_readers::dynamic_value::Reader as Value;
use capnp_dynamic_readers::{dynamic_list, dynamic_struct};
use capnp_schema::schema::{Field, GroupWalk};
use capnp_wire::error::{Error, ErrorKind, Result};

/// A value, as a text shows it.
#[derive(Clone, Copy)]
pub(crate) enum OpenValue<'a> {
    /// It has no parts.
    Whole,
    /// It is refused itself.
    Refused(ErrorKind),
    /// A struct or group, and the levels of its parts.
    Struct(dynamic_struct::Reader<'a>, u32),
    /// A list, and the levels of its elements.
    List(dynamic_list::Reader<'a>, u32),
}

/// A value that was read. A struct or list takes a level.
fn open_value<'a>(value: Value<'a>, left: u32) -> OpenValue<'a>
    ensures { result ≡ value_opened left value.entry }
{
    match value {
        Value::Struct(reader) => {
            if left == 0 {
                return OpenValue::Refused(ErrorKind::TooDeep);
            }
            OpenValue::Struct(reader, left - 1)
        }
        Value::List(list) => {
            if left == 0 {
                return OpenValue::Refused(ErrorKind::TooDeep);
            }
            OpenValue::List(list, left - 1)
        }
        _ => OpenValue::Whole,
    }
}

/// A value that stands alone. A group takes no level.
pub(crate) fn open_root<'a>(value: Value<'a>) -> OpenValue<'a>
    ensures parts { parts_seen result ≡ root_parts value.entry }
    ensures set { IsOpenIn (set_seen value.entry) result }
{
    if let Value::Struct(reader) = value {
        if reader.get_schema().get_proto().body.is_group {
            return OpenValue::Struct(reader, PRINT_LEVELS);
        }
    }
    open_value(value, PRINT_LEVELS)
}

/// What stands under a field that is no group.
fn open_slot<'a>(reader: dynamic_struct::Reader<'a>, field: Field<'a>, left: u32) -> OpenValue<'a>
    requires field { IsFieldOf (schema_of reader) (index_of field) field }
    requires slot { IsSlotField field }
    ensures { IsFieldOpened left reader.entry (field_in reader.entry field.entry) result }
{
    match read_slot(reader, field) {
        Ok(value) => open_value(value, left),
        Err(error) => OpenValue::Refused(refusal_at(field.get_type(), left, error).kind),
    }
}

/// What stands under a field.
pub(crate) fn open_field<'a>(
    reader: dynamic_struct::Reader<'a>,
    field: Field<'a>,
    left: u32,
) -> OpenValue<'a>
    requires field { IsFieldOf (schema_of reader) (index_of field) field }
    ensures { IsFieldOpened left reader.entry (field_in reader.entry field.entry) result }
{
    let Some(group) = field.get_group() else {
        return open_slot(reader, field, left);
    };
    OpenValue::Struct(
        dynamic_struct::Reader::new(reader.get_sections(), group),
        left,
    )
}

/// An element of a list.
pub(crate) fn open_element<'a>(
    list: dynamic_list::Reader<'a>,
    index: u32,
    left: u32,
) -> OpenValue<'a>
    ensures { IsElementOpened left list.entry index result }
{
    match read_element(list, index) {
        Ok(value) => open_value(value, left),
        Err(error) => OpenValue::Refused(refusal_at(list.element_type(), left, error).kind),
    }
}

/// Why a value is refused itself.
pub(crate) fn get_own_kind(value: OpenValue<'_>) -> Option<ErrorKind>
    ensures { result ≡ own_number value.entry }
{
    match value {
        OpenValue::Whole => None,
        OpenValue::Refused(kind) => Some(kind),
        OpenValue::Struct(_, _) => None,
        OpenValue::List(_, _) => None,
    }
}

/// Whether a value has a text, or why not.
fn check_open(value: OpenValue<'_>) -> Result<()>
    ensures { (set : Schemas) → IsOpenIn set value.entry → answer_refusal result ≡ parts_refusal set (parts_seen value.entry) }
{
    match value {
        OpenValue::Whole => Ok(()),
        OpenValue::Refused(kind) => Err(Error::from(kind)),
        OpenValue::Struct(reader, left) => check_record(reader, left),
        OpenValue::List(list, left) => check_list(list, left),
    }
}

/// What stands under a field that is shown and refused.
fn find_in_field<'a>(
    reader: dynamic_struct::Reader<'a>,
    field: Field<'a>,
    left: u32,
) -> Option<OpenValue<'a>>
    requires field { IsFieldOf (schema_of reader) (index_of field) field }
    ensures { MatchOption result (IsFieldSaid left reader.entry (index_of field.entry))
        (IsFieldRefused left reader.entry (index_of field.entry)) }
{
    if !is_field_shown(reader, field) {
        return None;
    }
    let value = open_field(reader, field, left);
    match check_open(value) {
        Ok(()) => None,
        Err(_) => Some(value),
    }
}

/// The first field of a struct that is refused.
fn find_field<'a>(
    reader: dynamic_struct::Reader<'a>,
    left: u32,
) -> Option<(PlaceStep, OpenValue<'a>)>
    ensures { MatchOption result (text_refusal (record_shown left None reader.entry) ≡ None)
        (λ x. IsStepBelow (set_of (schema_of reader.entry)) (opened.Struct reader.entry left) x.0 x.1) }
{
    let mut walk = GroupWalk::start(reader.get_schema());
    while let Some(field) = walk.get_field() {
        if let Some(value) = find_in_field(reader, field, left) {
            return Some((PlaceStep::Field(field.get_index()), value));
        }
        walk = walk.advance();
    }
    None
}

/// An element that is refused.
fn find_in_element<'a>(
    list: dynamic_list::Reader<'a>,
    index: u32,
    left: u32,
) -> Option<OpenValue<'a>>
    ensures { MatchOption result (IsElementSaid left list.entry index) (IsElementUnsaid left list.entry index) }
{
    let value = open_element(list, index, left);
    match check_open(value) {
        Ok(()) => None,
        Err(_) => Some(value),
    }
}

/// The first element of a list that is refused.
fn find_element<'a>(list: dynamic_list::Reader<'a>, left: u32) -> Option<(PlaceStep, OpenValue<'a>)>
    ensures { MatchOption result (text_refusal (list_shown left None list.entry) ≡ None)
        (λ x. IsStepBelow (list_set list.entry) (opened.List list.entry left) x.0 x.1) }
{
    for index in 0..list.len() {
        if let Some(value) = find_in_element(list, index, left) {
            return Some((PlaceStep::Element(index), value));
        }
    }
    None
}

/// The first part of a value that is refused; none where the value is refused itself, or has a text.
pub(crate) fn find_step<'a>(value: OpenValue<'a>) -> Option<(PlaceStep, OpenValue<'a>)>
    ensures { MatchOption result
        ((set : Schemas) → IsOpenIn set value.entry → own_number value.entry ≡ parts_refusal set (parts_seen value.entry))
        (λ x. (set : Schemas) → IsOpenIn set value.entry → IsStepBelow set value.entry x.0 x.1) }
{
    match value {
        OpenValue::Whole => None,
        OpenValue::Refused(_) => None,
        OpenValue::Struct(reader, left) => find_field(reader, left),
        OpenValue::List(list, left) => find_element(list, left),
    }
}
