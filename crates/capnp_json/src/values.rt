//! The JSON of a value, item by item. Only a level of the message is gone into by a call: through the groups of a struct
//! goes a loop, which knows its way back out.
ghost use Rattle.std.specs.Prelude.{◌≡◌, ◌<◌, ◌≤◌, ◌^◌, IfErr, IfOk, OnOk, false, length, true};
ghost use Rattle.capnp_schema.specs.FieldLists.{IsFieldOf, index_of, typed_of};
ghost use Rattle.capnp_schema.specs.StructHandles.{struct_fields};
ghost use Rattle.capnp_records.specs.Record.{is_there};
ghost use Rattle.capnp_dynamic_readers.specs.Handles.{reader_of, schema_of};
ghost use Rattle.capnp_dynamic_readers.specs.Steps.GroupTexts.{IsSlotField, read_part_at};
ghost use Rattle.capnp_dynamic_readers.specs.Steps.PartsRead.{field_in};
ghost use Rattle.capnp_dynamic_readers.specs.Steps.Shown.{count_of, part_seen};
ghost use Rattle.capnp_json.specs.Steps.Puts.{IsPut, IsStopped};
ghost use Rattle.capnp_json.specs.Steps.Records.{IsBehind, IsItemPut, IsNext, IsStep, item_onward, named, onward_of};
ghost use Rattle.capnp_json.specs.Steps.Shown.{element_shown, elements_onward, field_shown, list_shown, record_shown, value_shown};
ghost use Rattle.capnp_json.specs.Steps.Walks.{is_done, walk_depth, walk_index, walk_schema, walk_set};

use crate::error::JsonError;
use crate::forms::{Form, form_of};
use crate::items::{find_member, is_item, is_member_there};
use crate::leaves::put_leaf;
use crate::lines::{one_deeper, put_closing, put_colon, put_separator};
use crate::output::Output;
use crate::parts::{is_missing, read_element, read_slot, refusal};
use crate::standing::{Standing, close, open, start};
use crate::strings::put_text;
use crate::walk::Walk;
use capnp_dynamic_readers::dynamic_value::Reader as Value;
use capnp_dynamic_readers::{dynamic_list, dynamic_struct};
use capnp_json_fields::names::json_name;
use capnp_schema::schema::Field;
use capnp_wire::StructReader;
use capnp_wire::error::ErrorKind;

/// Appends the JSON of a value. A struct or list takes a level.
#[cycle(json)]
pub(crate) fn put_value(
    out: &mut Output,
    at: Option<u64>,
    form: Form,
    left: u32,
    value: Value<'_>,
) -> Result<(), JsonError>
    ensures put { OnOk result (IsPut out.old (value_shown left at form value.entry) out.new) }
    ensures stopped { IfErr result (IsStopped out.old (value_shown left at form value.entry)) }
{
    match value {
        Value::Struct(reader) => {
            if left == 0 {
                return Err(JsonError::Read(ErrorKind::TooDeep));
            }
            put_record(out, at, left - 1, reader)
        }
        Value::List(list) => {
            if left == 0 {
                return Err(JsonError::Read(ErrorKind::TooDeep));
            }
            put_list(out, at, form, left - 1, list)
        }
        _ => put_leaf(out, at, form, value),
    }
}

/// Appends the JSON of a list, whose elements have so many levels.
#[cycle(json)]
fn put_list(
    out: &mut Output,
    at: Option<u64>,
    form: Form,
    left: u32,
    list: dynamic_list::Reader<'_>,
) -> Result<(), JsonError>
    ensures put { OnOk result (IsPut out.old (list_shown left at form list.entry) out.new) }
    ensures stopped { IfErr result (IsStopped out.old (list_shown left at form list.entry)) }
{
    if let Err(why) = out.put(b"[") {
        return Err(why);
    }
    let further = one_deeper(at)?;
    put_elements(out, further, form, left, list)
}

/// Appends the elements of a list and its closing bracket.
#[cycle(json)]
fn put_elements(
    out: &mut Output,
    at: Option<u64>,
    form: Form,
    left: u32,
    list: dynamic_list::Reader<'_>,
) -> Result<(), JsonError>
    ensures put { OnOk result (IsPut out.old (elements_onward left at form list.entry true 0) out.new) }
    ensures stopped { IfErr result (IsStopped out.old (elements_onward left at form list.entry true 0)) }
{
    for i in 0..list.len() {
        if let Err(why) = put_separator(out, at, i == 0) {
            return Err(why);
        }
        if let Err(why) = put_element(out, at, form, left, list, i) {
            return Err(why);
        }
    }
    put_closing(out, at, list.len() == 0, b"]")
}

/// Appends the JSON of an element.
#[cycle(json)]
fn put_element(
    out: &mut Output,
    at: Option<u64>,
    form: Form,
    left: u32,
    list: dynamic_list::Reader<'_>,
    index: u32,
) -> Result<(), JsonError>
    ensures put { OnOk result (IsPut out.old (element_shown left at form list.entry index) out.new) }
    ensures stopped { IfErr result (IsStopped out.old (element_shown left at form list.entry index)) }
{
    if is_missing(list, index) {
        return out.put(b"null");
    }
    match read_element(list, index) {
        Ok(value) => put_value(out, at, form, left, value),
        Err(error) => Err(refusal(list.element_type(), left, error)),
    }
}

/// Appends the JSON of a struct or group, whose parts have so many levels. A group in it is gone into where it stands,
/// and left by its own field.
#[cycle(json)]
pub(crate) fn put_record(
    out: &mut Output,
    at: Option<u64>,
    left: u32,
    reader: dynamic_struct::Reader<'_>,
) -> Result<(), JsonError>
    ensures put { OnOk result (IsPut out.old (record_shown left at reader.entry) out.new) }
    ensures stopped { IfErr result (IsStopped out.old (record_shown left at reader.entry)) }
{
    if let Err(why) = out.put(b"{") {
        return Err(why);
    }
    let sections = reader.get_sections();
    let mut now = start(reader.get_schema(), at)?;
    loop {
        match put_next(out, left, sections, now) {
            Ok(Some(next)) => now = next,
            Ok(None) => return Ok(()),
            Err(why) => return Err(why),
        }
    }
}

/// Appends what comes next of a struct: an item, that of a group as far as its bracket, or a closing bracket.
#[cycle(json)]
fn put_next<'a>(
    out: &mut Output,
    left: u32,
    sections: StructReader<'a>,
    now: Standing<'a>,
) -> Result<Option<Standing<'a>>, JsonError>
    requires small { walk_depth now.walk < 2 ^ 64 }
    ensures put { IfOk result (IsNext left sections.entry now.entry out.old out.new) }
    ensures stopped { IfErr result (IsStopped out.old (onward_of left sections.entry now.entry)) }
{
    if now.walk.is_done() {
        return close(out, now);
    }
    match now.walk.get_field() {
        Some(field) => match put_field(out, left, sections, now, field) {
            Ok(next) => Ok(Some(next)),
            Err(why) => Err(why),
        },
        None => match put_member(out, left, sections, now) {
            Ok(next) => Ok(Some(next)),
            Err(why) => Err(why),
        },
    }
}

/// Appends the item of the field that a write stands at, where it is no member and there.
#[cycle(json)]
fn put_field<'a>(
    out: &mut Output,
    left: u32,
    sections: StructReader<'a>,
    now: Standing<'a>,
    field: Field<'a>,
) -> Result<Standing<'a>, JsonError>
    requires done { is_done now.walk ≡ false }
    requires field { IsFieldOf (walk_schema now.walk) (walk_index now.walk) field }
    ensures put { IfOk result (IsStep left sections.entry now.entry out.old out.new) }
    ensures stopped { IfErr result (IsStopped out.old (onward_of left sections.entry now.entry)) }
{
    let behind = now.walk.advance();
    let reader = dynamic_struct::Reader::new(sections, now.walk.get_schema());
    if !is_item(reader, field) {
        return Ok(Standing {
            walk: behind,
            first: now.first,
            at: now.at,
        });
    }
    put_item(out, left, sections, now, behind, field, true)
}

/// Appends the item of the active member, where it has one, from behind the last field on.
#[cycle(json)]
fn put_member<'a>(
    out: &mut Output,
    left: u32,
    sections: StructReader<'a>,
    now: Standing<'a>,
) -> Result<Standing<'a>, JsonError>
    requires done { is_done now.walk ≡ false }
    requires end { length (struct_fields (walk_schema now.walk)) ≤ walk_index now.walk }
    ensures put { IfOk result (IsStep left sections.entry now.entry out.old out.new) }
    ensures stopped { IfErr result (IsStopped out.old (onward_of left sections.entry now.entry)) }
{
    let behind = now.walk.finish();
    let reader = dynamic_struct::Reader::new(sections, now.walk.get_schema());
    let Some(member) = find_member(reader) else {
        return Ok(Standing {
            walk: behind,
            first: now.first,
            at: now.at,
        });
    };
    let is_there = is_member_there(reader, member);
    put_item(out, left, sections, now, behind, member, is_there)
}

/// Appends the item of a field, that of a group as far as its bracket, where a walk stands behind it.
#[cycle(json)]
fn put_item<'a>(
    out: &mut Output,
    left: u32,
    sections: StructReader<'a>,
    now: Standing<'a>,
    behind: Walk<'a>,
    field: Field<'a>,
    there: bool,
) -> Result<Standing<'a>, JsonError>
    requires behind { IsBehind field behind }
    requires there { there ≡ is_there (read_part_at (walk_set behind) sections (typed_of field)) }
    ensures put { IfOk result (IsItemPut left sections.entry now.entry behind.entry field.entry out.old out.new) }
    ensures stopped { IfErr result (IsStopped out.old (item_onward left sections.entry now.entry behind.entry field.entry)) }
{
    if let Err(why) = put_name(out, now.at, now.first, field) {
        return Err(why);
    }
    let reader = dynamic_struct::Reader::new(sections, behind.get_schema());
    let Some(group) = field.get_group() else {
        return match put_slot(out, now.at, left, reader, field, there) {
            Ok(()) => Ok(Standing {
                walk: behind,
                first: false,
                at: now.at,
            }),
            Err(why) => Err(why),
        };
    };
    if let Err(why) = out.put(b"{") {
        return Err(why);
    }
    open(behind, now.at, field, group)
}

/// Appends what stands before the value of a field.
fn put_name(
    out: &mut Output,
    at: Option<u64>,
    first: bool,
    field: Field<'_>,
) -> Result<(), JsonError>
    ensures put { OnOk result (IsPut out.old (named at first (typed_of field.entry)) out.new) }
    ensures stopped { IfErr result (IsStopped out.old (named at first (typed_of field.entry))) }
{
    if let Err(why) = put_separator(out, at, first) {
        return Err(why);
    }
    if let Err(why) = put_text(out, json_name(field)) {
        return Err(why);
    }
    put_colon(out, at)
}

/// Appends the JSON of what stands under a field that is no group: of a missing member null.
#[cycle(json)]
fn put_slot(
    out: &mut Output,
    at: Option<u64>,
    left: u32,
    reader: dynamic_struct::Reader<'_>,
    field: Field<'_>,
    there: bool,
) -> Result<(), JsonError>
    requires field { IsFieldOf (schema_of reader) (index_of field) field }
    requires slot { IsSlotField field }
    requires there { there ≡ is_there (part_seen reader (field_in reader field)) }
    ensures put { OnOk result (IsPut out.old
        (field_shown left at reader.entry (field_in reader.entry field.entry)) out.new) }
    ensures stopped { IfErr result (IsStopped out.old
        (field_shown left at reader.entry (field_in reader.entry field.entry))) }
{
    if !there {
        // The prover learns the set's invariant from this call.
        let _schema = field.get_containing_struct();
        return out.put(b"null");
    }
    match read_slot(reader, field) {
        Ok(value) => put_value(out, at, form_of(field), left, value),
        Err(error) => Err(refusal(field.get_type(), left, error)),
    }
}
