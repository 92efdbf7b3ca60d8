//! Where a value's text is refused.
ghost use Rattle.std.specs.Prelude.{Bool, ◌≡◌, ◌≢◌, ◌≤◌, ◌++◌, ◌∷◌, IfErr, IfOk, IfSome, OnOk, string_bytes};
ghost use Rattle.capnp_device.specs.declared.error.ErrorKind.TheVariants.{OutOfMemory, TooLarge};
ghost use Rattle.capnp_dynamic_readers.specs.Shown.{printed_text};
ghost use Rattle.capnp_schema.specs.Schema.{Schemas};
ghost use Rattle.capnp_schema.specs.StructHandles.{struct_field};
ghost use Rattle.capnp_check.specs.Faults.{AreAllPlaces, IsFirstPlace, IsPartCount, ShowsAtMost, ShowsMoreThan};
ghost use Rattle.capnp_check.specs.Places.{IsPlace, place_refusal, part_word};
ghost use Rattle.capnp_check.specs.Refusals.{text_refusal};
ghost use Rattle.capnp_check.specs.Steps.PlaceSteps.{IsOpenIn, parts_seen};
ghost use Rattle.capnp_check.specs.declared.place.PlaceStep.TheVariants.{Field, Element};

use crate::parts_below::{OpenValue, find_step, get_own_kind, open_root};
use crate::visits::{Frame, find_next_part, tell_refused};
use capnp_dynamic_readers::dynamic_value::Reader as Value;
use capnp_schema::schema::StructSchema;
use capnp_wire::error::{Error, ErrorKind, Result};
use std::alloc::Global;

/// A step from a value to a part of it.
#[derive(Clone, Copy, Debug, PartialEq, Eq)]
pub enum PlaceStep {
    /// Into the field of that index, of a struct or group.
    Field(u16),
    /// Into the element of that index, of a list.
    Element(u32),
}

/// A part of a value that can't be read, or is too deep.
#[derive(Debug, Drop, PartialEq, Eq)]
pub struct RefusedPlace {
    /// Why it is refused.
    pub kind: ErrorKind,
    /// The steps that lead to it from the value.
    pub path: Vec<PlaceStep>,
    /// The steps as words, each behind a point: a field by its name, an element by its index.
    pub words: String,
}

/// The name of a field by its index, empty where there is no such field.
fn get_name<'a>(schema: StructSchema<'a>, index: u16) -> &'a str
    ensures { result.now ≡ (struct_field schema.entry index).field.name }
{
    let Ok(fields) = schema.get_fields() else {
        return "";
    };
    if index >= fields.len() {
        return "";
    }
    fields.get(index).get_proto().name.as_str()
}

/// The word of a step into a field; empty where the value is no struct.
fn get_field_word<'a>(value: OpenValue<'a>, index: u16) -> &'a str
    ensures { (set : Schemas) → IsOpenIn set value.entry → result.now ≡ part_word set (parts_seen value.entry) (Field index) }
{
    match value {
        OpenValue::Whole => "",
        OpenValue::Refused(_) => "",
        OpenValue::Struct(reader, _) => get_name(reader.get_schema(), index),
        OpenValue::List(_, _) => "",
    }
}

/// Appends the word of a step into an element; none where the value is no list. Refused with `OutOfMemory` alone.
fn put_element_word(out: &mut String, value: OpenValue<'_>, index: u32) -> Result<()>
    ensures put { (set : Schemas) → OnOk result (string_bytes out.new
        ≡ string_bytes out.old ++ part_word set (parts_seen value.entry) (Element index)) }
    ensures memory { IfErr result (λ e. e.kind ≡ OutOfMemory) }
{
    match value {
        OpenValue::Whole => Ok(()),
        OpenValue::Refused(_) => Ok(()),
        OpenValue::Struct(_, _) => Ok(()),
        OpenValue::List(_, _) => Ok(write!(out, "{index}")?),
    }
}

/// Appends the word of a step that leads on from a value, behind a point. Refused with `OutOfMemory` alone.
pub(crate) fn put_step(out: &mut String, value: OpenValue<'_>, step: PlaceStep) -> Result<()>
    ensures put { (set : Schemas) → IsOpenIn set value.entry → OnOk result (string_bytes out.new
        ≡ string_bytes out.old ++ 46 ∷ part_word set (parts_seen value.entry) step) }
    ensures memory { IfErr result (λ e. e.kind ≡ OutOfMemory) }
{
    out.push_str(".")?;
    match step {
        PlaceStep::Field(index) => Ok(out.push_str(get_field_word(value, index))?),
        PlaceStep::Element(index) => {
            put_element_word(out, value, index)?;
            Ok(())
        }
    }
}

/// The place of the first refusal of a value's text, with the number of `check_text`; none where the value has a text. All
/// that the text shows before that place has a text.
///
/// At most 64 levels are gone down, and at each step all that stands before it is checked once more.
///
/// Refused with `OutOfMemory` alone, where there is none for the path or its words.
pub fn find_refusal(alloc: Global, value: Value<'_>) -> Result<Option<RefusedPlace>>
    ensures number { IfOk result (λ found. (indented : Bool) → place_refusal found ≡ text_refusal (printed_text indented value.entry)) }
    ensures place { IfOk result (λ found. IfSome found (IsPlace value.entry)) }
    ensures first { IfOk result (λ found. IsFirstPlace value.entry found) }
    ensures memory { IfErr result (λ e. e.kind ≡ OutOfMemory) }
{
    let mut path = Vec::new(alloc);
    let mut words = String::new(alloc);
    let mut current = open_root(value);
    while let Some((step, next)) = find_step(current) {
        path.push(step)?;
        put_step(&mut words, current, step)?;
        current = next;
    }
    let Some(kind) = get_own_kind(current) else {
        return Ok(None);
    };
    Ok(Some(RefusedPlace { kind, path, words }))
}

/// The places of all refusals of a value's text, in its order, each once; none where the value has a text. A part that is
/// refused hides none of the others.
///
/// Each part that the text shows is visited once: the value itself, the fields that are shown, and the elements. Where
/// there are more than `limit` of them the call is refused with `TooLarge`, after so many visits. Else it is refused with
/// `OutOfMemory` alone, where there is none for the places, or for the values that lead to where the visit stands.
pub fn find_refusals(alloc: Global, value: Value<'_>, limit: u64) -> Result<Vec<RefusedPlace>>
    ensures places { IfOk result (λ places. AreAllPlaces value.entry places.items) }
    ensures within { OnOk result (ShowsAtMost limit value.entry) }
    ensures too_large { IfErr result (λ e. e.kind ≡ TooLarge → ShowsMoreThan limit value.entry) }
    ensures refused { IfErr result (λ e. e.kind ≢ TooLarge → e.kind ≡ OutOfMemory) }
{
    if limit == 0 {
        return Err(Error::from(ErrorKind::TooLarge));
    }
    let mut frames = Vec::new(alloc);
    let mut places = Vec::new(alloc);
    let root = open_root(value);
    let mut visited = 1;
    tell_refused(alloc, &mut places, &frames, root)?;
    frames.push(Frame {
        value: root,
        last: None,
    })?;
    while let Some(frame) = frames.pop() {
        if let Some((step, part)) = find_next_part(frame.value, frame.last) {
            if visited == limit {
                return Err(Error::from(ErrorKind::TooLarge));
            }
            visited += 1;
            frames.push(Frame {
                value: frame.value,
                last: Some(step),
            })?;
            tell_refused(alloc, &mut places, &frames, part)?;
            frames.push(Frame {
                value: part,
                last: None,
            })?;
        }
    }
    Ok(places)
}

/// How many parts the text of a value shows, the value itself among them: of each refused part, that part alone.
///
/// Refused with `TooLarge` where there are more than `limit`, after so many visits, and with `OutOfMemory` where there is
/// none for the values that lead to where the visit stands.
pub fn count_parts(alloc: Global, value: Value<'_>, limit: u64) -> Result<u64>
    ensures count { IfOk result (λ count. IsPartCount count value.entry) }
    ensures within { IfOk result (λ count. count ≤ limit) }
    ensures too_large { IfErr result (λ e. e.kind ≡ TooLarge → ShowsMoreThan limit value.entry) }
    ensures refused { IfErr result (λ e. e.kind ≢ TooLarge → e.kind ≡ OutOfMemory) }
{
    if limit == 0 {
        return Err(Error::from(ErrorKind::TooLarge));
    }
    let mut frames = Vec::new(alloc);
    let mut count = 1;
    frames.push(Frame {
        value: open_root(value),
        last: None,
    })?;
    while let Some(frame) = frames.pop() {
        if let Some((step, part)) = find_next_part(frame.value, frame.last) {
            if count == limit {
                return Err(Error::from(ErrorKind::TooLarge));
            }
            count += 1;
            frames.push(Frame {
                value: frame.value,
                last: Some(step),
            })?;
            frames.push(Frame {
                value: part,
                last: None,
            })?;
        }
    }
    Ok(count)
}

/// As `find_refusal`, for a value whose text shows at most `limit` parts, the value itself among them: it takes time in
/// proportion to the limit and the steps of the place. Refused with `TooLarge` where there are more parts, wherever the
/// first refusal stands, and else with `OutOfMemory` alone.
pub fn find_refusal_within(
    alloc: Global,
    value: Value<'_>,
    limit: u64,
) -> Result<Option<RefusedPlace>>
    ensures number { IfOk result (λ found. (indented : Bool) → place_refusal found ≡ text_refusal (printed_text indented value.entry)) }
    ensures place { IfOk result (λ found. IfSome found (IsPlace value.entry)) }
    ensures first { IfOk result (λ found. IsFirstPlace value.entry found) }
    ensures within { OnOk result (ShowsAtMost limit value.entry) }
    ensures too_large { IfErr result (λ e. e.kind ≡ TooLarge → ShowsMoreThan limit value.entry) }
    ensures refused { IfErr result (λ e. e.kind ≢ TooLarge → e.kind ≡ OutOfMemory) }
{
    count_parts(alloc, value, limit)?;
    find_refusal(alloc, value)
}
