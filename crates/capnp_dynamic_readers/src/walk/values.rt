//! The text of a value, item by item. Only a level of the message is gone into by a call: through the groups of a struct
//! goes a loop, which knows its way back out.
ghost use Rattle.std.specs.Prelude.{true, false, IfErr, IfOk, OnOk};
ghost use Rattle.capnp_schema.specs.GroupWalks.{walk_index, walk_schema};
ghost use Rattle.capnp_schema.specs.FieldLists.{IsFieldOf, index_of};
ghost use Rattle.capnp_records.specs.Text.{more_text};
ghost use Rattle.capnp_dynamic_readers.specs.Steps.GroupTexts.{IsSlotField};
ghost use Rattle.capnp_dynamic_readers.specs.Handles.{reader_of, schema_of};
ghost use Rattle.capnp_dynamic_readers.specs.Steps.PartsRead.{field_in};
ghost use Rattle.capnp_dynamic_readers.specs.Steps.Pieces.{IsPut, IsStopped};
ghost use Rattle.capnp_dynamic_readers.specs.Steps.Shown.{count_of};
ghost use Rattle.capnp_dynamic_readers.specs.Steps.WalkSteps.{IsPrintStep, onward_of};
ghost use Rattle.capnp_dynamic_readers.specs.Steps.Styled.{list_in, record_in};

use crate::dynamic_value::Reader as Value;
use crate::walk::groups::{Standing, close, has_fields, open, past, start};
use crate::walk::leaves::put_leaf;
use crate::walk::output::{Out, Stop};
use crate::walk::parts::{has_item, read_element, read_slot, refusal};
use crate::walk::pieces::{one_deeper, put_line, put_name, put_separator};
use crate::walk::style::Style;
use crate::{dynamic_list, dynamic_struct};
use capnp_schema::schema::Field;
use capnp_wire::StructReader;
use capnp_wire::error::{Error, ErrorKind};

/// Appends the text of a value. A struct or list takes a level.
#[cycle(print)]
pub(crate) fn print_value<O: Out, S: Style<O>>(
    value: Value<'_>,
    style: S,
    left: u32,
    at: Option<u64>,
    out: &mut O,
) -> Result<(), Stop>
    ensures put { OnOk result (IsPut (O.text out.old) ((S.texts style).value left at value.entry) (O.text out.new)) }
    ensures stopped { IfErr result (IsStopped (O.text out.old) ((S.texts style).value left at value.entry)) }
{
    match value {
        Value::Struct(reader) => {
            if left == 0 {
                return Err(Stop::Refused(Error::from(ErrorKind::TooDeep)));
            }
            print_record(reader, style, left - 1, at, out)
        }
        Value::List(list) => {
            if left == 0 {
                return Err(Stop::Refused(Error::from(ErrorKind::TooDeep)));
            }
            print_list(list, style, left - 1, at, out)
        }
        _ => put_leaf(value, style, out),
    }
}

/// Appends the text of a list, whose elements have so many levels.
#[cycle(print)]
fn print_list<O: Out, S: Style<O>>(
    list: dynamic_list::Reader<'_>,
    style: S,
    left: u32,
    at: Option<u64>,
    out: &mut O,
) -> Result<(), Stop>
    ensures put { OnOk result (IsPut (O.text out.old) (list_in (S.texts style) left at list.entry) (O.text out.new)) }
    ensures stopped { IfErr result (IsStopped (O.text out.old) (list_in (S.texts style) left at list.entry)) }
{
    if list.len() == 0 {
        return out.put("[]");
    }
    out.put("[")?;
    let further = one_deeper(at)?;
    if let Err(stop) = print_elements(list, style, left, further, out) {
        return Err(stop);
    }
    put_line(at, out)?;
    out.put("]")
}

/// Appends the elements of a list.
#[cycle(print)]
fn print_elements<O: Out, S: Style<O>>(
    list: dynamic_list::Reader<'_>,
    style: S,
    left: u32,
    at: Option<u64>,
    out: &mut O,
) -> Result<(), Stop>
    ensures put { OnOk result (IsPut (O.text out.old)
        (more_text at true ((S.texts style).elements left at list.entry 0 (count_of list.entry))) (O.text out.new)) }
    ensures stopped { IfErr result (IsStopped (O.text out.old) (more_text at true ((S.texts style).elements left at list.entry 0 (count_of list.entry)))) }
{
    for i in 0..list.len() {
        put_separator(at, i == 0, out)?;
        match read_element(list, i) {
            Ok(value) => {
                if let Err(stop) = print_value(value, style, left, at, out) {
                    return Err(stop);
                }
            }
            Err(error) => return Err(Stop::Refused(refusal(list.element_type(), left, error))),
        }
    }
    Ok(())
}

/// Appends the text of a struct or group, whose parts have so many levels. A group in it is gone into where it stands,
/// and left by its own field.
#[cycle(print)]
pub(crate) fn print_record<O: Out, S: Style<O>>(
    reader: dynamic_struct::Reader<'_>,
    style: S,
    left: u32,
    at: Option<u64>,
    out: &mut O,
) -> Result<(), Stop>
    ensures put { OnOk result (IsPut (O.text out.old) (record_in (S.texts style) left at reader.entry) (O.text out.new)) }
    ensures stopped { IfErr result (IsStopped (O.text out.old) (record_in (S.texts style) left at reader.entry)) }
{
    if !has_fields(reader.get_schema()) {
        return out.put("()");
    }
    out.put("(")?;
    let sections = reader.get_sections();
    let mut now = start(reader.get_schema(), at)?;
    loop {
        match now.walk.get_field() {
            Some(field) => match print_field(sections, now, field, style, left, out) {
                Ok(next) => now = next,
                Err(stop) => return Err(stop),
            },
            None => match close(now, out)? {
                Some(outer) => now = outer,
                None => return Ok(()),
            },
        }
    }
}

/// Appends the item of the field that a print stands at, where there is one: of a group as far as its bracket.
#[cycle(print)]
fn print_field<'a, O: Out, S: Style<O>>(
    sections: StructReader<'a>,
    now: Standing<'a>,
    field: Field<'a>,
    style: S,
    left: u32,
    out: &mut O,
) -> Result<Standing<'a>, Stop>
    requires field { IsFieldOf (walk_schema now.walk) (walk_index now.walk) field }
    ensures put { IfOk result (IsPrintStep (S.texts style) left sections.entry now.entry (O.text out.old) (O.text out.new)) }
    ensures stopped { IfErr result (IsStopped (O.text out.old) (onward_of (S.texts style) left sections.entry now.entry)) }
{
    let reader = dynamic_struct::Reader::new(sections, now.walk.get_schema());
    if !has_item(reader, field) {
        return Ok(past(now, now.first));
    }
    put_name(field, now.at, now.first, out)?;
    let Some(group) = field.get_group() else {
        return match print_slot(reader, field, style, left, now.at, out) {
            Ok(()) => Ok(past(now, false)),
            Err(stop) => Err(stop),
        };
    };
    if !has_fields(group) {
        out.put("()")?;
        return Ok(past(now, false));
    }
    out.put("(")?;
    open(now, group)
}

/// Appends the text of what stands under a field that is no group.
#[cycle(print)]
fn print_slot<O: Out, S: Style<O>>(
    reader: dynamic_struct::Reader<'_>,
    field: Field<'_>,
    style: S,
    left: u32,
    at: Option<u64>,
    out: &mut O,
) -> Result<(), Stop>
    requires field { IsFieldOf (schema_of reader) (index_of field) field }
    requires slot { IsSlotField field }
    ensures put { OnOk result (IsPut (O.text out.old)
        ((S.texts style).field left at reader.entry (field_in reader.entry field.entry)) (O.text out.new)) }
    ensures stopped { IfErr result (IsStopped (O.text out.old) ((S.texts style).field left at reader.entry (field_in reader.entry field.entry))) }
{
    match read_slot(reader, field) {
        Ok(value) => print_value(value, style.under(field), left, at, out),
        Err(error) => Err(Stop::Refused(refusal(field.get_type(), left, error))),
    }
}
