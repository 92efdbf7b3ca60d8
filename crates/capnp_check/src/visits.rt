//! A visit of all parts that a text shows of a value, each once. No call goes into a part: the values that lead to where
//! the visit stands are in a list.
ghost use Rattle.std.specs.Prelude.{◌≡◌, ◌++◌, ◌∷◌, [], map, string_bytes, IfErr, IfOk, MatchOption, None, OnOk, Some};
ghost use Rattle.capnp_device.specs.declared.error.ErrorKind.TheVariants.{OutOfMemory};
ghost use Rattle.capnp_schema.specs.Schema.{Schemas};
ghost use Rattle.capnp_schema.specs.StructHandles.{set_of};
ghost use Rattle.capnp_dynamic_readers.specs.Handles.{list_set, schema_of};
ghost use Rattle.capnp_check.specs.Faults.{part_told, refusal_itself, refused_parts};
ghost use Rattle.capnp_check.specs.Steps.Frames.{AreNoneLeft, AreOpenIn, IsNextPart, next_index, part_above, step_index, steps_told, words_told};
ghost use Rattle.capnp_check.specs.Steps.PlaceSteps.{IsOpenIn, parts_seen};
ghost use Rattle.capnp_check.specs.declared.parts_below.OpenValue.TheVariants as opened;

use crate::parts::is_field_shown;
use crate::parts_below::{OpenValue, get_own_kind, open_element, open_field};
use crate::place::{PlaceStep, RefusedPlace, put_step};
use capnp_dynamic_readers::{dynamic_list, dynamic_struct};
use capnp_wire::error::{ErrorKind, Result};
use std::alloc::Global;

/// A value that was visited, and the step to the last of its parts that was; none before the first.
#[derive(Clone, Copy)]
pub(crate) struct Frame<'a> {
    pub(crate) value: OpenValue<'a>,
    pub(crate) last: Option<PlaceStep>,
}

fn get_step_index(step: PlaceStep) -> u64
    ensures { result ≡ step_index step }
{
    match step {
        PlaceStep::Field(index) => u64::from(index),
        PlaceStep::Element(index) => u64::from(index),
    }
}

/// The index of the part behind the last one.
fn get_next_index(last: Option<PlaceStep>) -> u64
    ensures { result ≡ next_index last }
{
    match last {
        None => 0,
        Some(step) => get_step_index(step) + 1,
    }
}

/// The first field of a struct from an index on that a text shows.
fn find_shown_field<'a>(
    reader: dynamic_struct::Reader<'a>,
    left: u32,
    first: u64,
) -> Option<(PlaceStep, OpenValue<'a>)>
    ensures { MatchOption result (AreNoneLeft (set_of (schema_of reader.entry)) (opened.Struct reader.entry left) first)
        (λ x. IsNextPart (set_of (schema_of reader.entry)) (opened.Struct reader.entry left) first x.0 x.1) }
{
    let Ok(fields) = reader.get_schema().get_fields() else {
        return None;
    };
    for index in first..u64::from(fields.len()) {
        let field = fields.get(index as u16);
        if is_field_shown(reader, field) {
            return Some((
                PlaceStep::Field(field.get_index()),
                open_field(reader, field, left),
            ));
        }
    }
    None
}

/// The element of a list at an index.
fn find_element_at<'a>(
    list: dynamic_list::Reader<'a>,
    left: u32,
    index: u64,
) -> Option<(PlaceStep, OpenValue<'a>)>
    ensures { MatchOption result (AreNoneLeft (list_set list.entry) (opened.List list.entry left) index)
        (λ x. IsNextPart (list_set list.entry) (opened.List list.entry left) index x.0 x.1) }
{
    if index >= u64::from(list.len()) {
        return None;
    }
    let index = index as u32;
    Some((PlaceStep::Element(index), open_element(list, index, left)))
}

/// The next part of a value that a text shows; none past the last.
pub(crate) fn find_next_part<'a>(
    value: OpenValue<'a>,
    last: Option<PlaceStep>,
) -> Option<(PlaceStep, OpenValue<'a>)>
    ensures { MatchOption result
        ((set : Schemas) → IsOpenIn set value.entry → AreNoneLeft set value.entry (next_index last))
        (λ x. (set : Schemas) → IsOpenIn set value.entry → IsNextPart set value.entry (next_index last) x.0 x.1) }
{
    match value {
        OpenValue::Whole => None,
        OpenValue::Refused(_) => None,
        OpenValue::Struct(reader, left) => find_shown_field(reader, left, get_next_index(last)),
        OpenValue::List(list, left) => find_element_at(list, left, get_next_index(last)),
    }
}

/// Appends the last step of a value, and its word. Refused with `OutOfMemory` alone.
fn put_last(path: &mut Vec<PlaceStep>, words: &mut String, frame: Frame<'_>) -> Result<()>
    ensures path { OnOk result (path.new.items ≡ path.old.items ++ steps_told frame.entry.last) }
    ensures words { (set : Schemas) → IsOpenIn set frame.entry.value → OnOk result (string_bytes words.new
        ≡ string_bytes words.old ++ words_told set (parts_seen frame.entry.value) frame.entry.last) }
    ensures memory { IfErr result (λ e. e.kind ≡ OutOfMemory) }
{
    match frame.last {
        None => Ok(()),
        Some(step) => {
            path.push(step)?;
            put_step(words, frame.value, step)?;
            Ok(())
        }
    }
}

/// The place of a part that is refused, behind the last steps of all values that lead to it. Refused with `OutOfMemory`
/// alone.
fn tell_place(alloc: Global, frames: &Vec<Frame<'_>>, kind: ErrorKind) -> Result<RefusedPlace>
    ensures place { (set : Schemas) → AreOpenIn set frames.now.items → IfOk result (λ place.
        part_told place ≡ part_above set frames.now.items (Some kind)) }
    ensures memory { IfErr result (λ e. e.kind ≡ OutOfMemory) }
{
    let mut path = Vec::new(alloc);
    let mut words = String::new(alloc);
    for index in 0..frames.len() {
        put_last(&mut path, &mut words, frames[index])?;
    }
    Ok(RefusedPlace { kind, path, words })
}

/// Tells the place of a part, where it is refused. Refused with `OutOfMemory` alone.
pub(crate) fn tell_refused(
    alloc: Global,
    places: &mut Vec<RefusedPlace>,
    frames: &Vec<Frame<'_>>,
    part: OpenValue<'_>,
) -> Result<()>
    ensures told { (set : Schemas) → AreOpenIn set frames.now.items → OnOk result (map part_told places.new.items
        ≡ map part_told places.old.items ++ refused_parts (part_above set frames.now.items (refusal_itself (parts_seen part.entry)) ∷ [])) }
    ensures memory { IfErr result (λ e. e.kind ≡ OutOfMemory) }
{
    match get_own_kind(part) {
        None => Ok(()),
        Some(kind) => {
            let place = tell_place(alloc, frames, kind)?;
            places.push(place)?;
            Ok(())
        }
    }
}
