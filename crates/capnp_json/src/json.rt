//! The JSON of a value that is read.
ghost use Rattle.std.specs.Prelude.{◌≡◌, ◌≤◌, IfErr, IfOk, OnOk, length};
ghost use Rattle.capnp_json.specs.Pieces.{IsJson};
ghost use Rattle.capnp_json.specs.Steps.Puts.{IsPut, IsStopped};
ghost use Rattle.capnp_json.specs.Steps.Shown.{root_shown};
ghost use Rattle.capnp_json.specs.Written.{IsOnlyJson, IsRefused, written_json, written_json_as};

use crate::error::JsonError;
use crate::forms::{Form, plain};
use crate::lines::layout;
use crate::output::Output;
use crate::values::{put_record, put_value};
use capnp_dynamic_readers::dynamic_value;
use std::alloc::Global;

/// The levels that a JSON goes down.
const JSON_LEVELS: u32 = 64;

/// The JSON of a value, on one line or on lines indented by two spaces for each bracket around them.
///
/// A struct or group is an object: its non-union fields that are there by index, and then the active member, one of
/// discriminant value 0 where it is there and every other one always. A list is an array of its elements, data an array
/// of its bytes or a string as its field says, an enum its enumerant's name or its number, a 64-bit integer its digits
/// in quotes. A missing member or element is `null`. Fields and enumerants have their names in JSON, and fields that are
/// marked as floats show these.
///
/// A struct or list takes a level of 64, a group none. Of several refusals the first in the JSON's order counts:
/// `Read` with the number of a value that can't be read, and with `TooDeep` where no level is left; `UntypedHasNoJson`
/// at an untyped pointer that is not null; `TextNotUtf8` at a text or name that is no UTF-8. `TooLarge` says that each
/// JSON of the value is longer than the limit, if there is one at all; `OutOfMemory` says nothing of it.
pub fn to_json(
    alloc: Global,
    value: dynamic_value::Reader<'_>,
    indented: bool,
    limit: usize,
) -> Result<Vec<u8>, JsonError>
    ensures json { IfOk result (λ bytes. IsJson (written_json indented value.entry) bytes.items) }
    ensures only { IfOk result (λ bytes. IsOnlyJson (written_json indented value.entry) bytes.items) }
    ensures within { IfOk result (λ bytes. length bytes.items ≤ limit) }
    ensures refused { IfErr result (IsRefused limit (written_json indented value.entry)) }
{
    to_json_as(alloc, value, plain(), indented, limit)
}

/// The JSON of a value as that of a field's is written: its numbers as floats, and its data in base64 or by digits, where the form
/// says so. Else as `to_json`, and refused as it.
pub fn to_json_as(
    alloc: Global,
    value: dynamic_value::Reader<'_>,
    form: Form,
    indented: bool,
    limit: usize,
) -> Result<Vec<u8>, JsonError>
    ensures json { IfOk result (λ bytes. IsJson (written_json_as form indented value.entry) bytes.items) }
    ensures only { IfOk result (λ bytes. IsOnlyJson (written_json_as form indented value.entry) bytes.items) }
    ensures within { IfOk result (λ bytes. length bytes.items ≤ limit) }
    ensures refused { IfErr result (IsRefused limit (written_json_as form indented value.entry)) }
{
    let mut out = Output::new(alloc, limit);
    match put_root(&mut out, layout(indented), form, value) {
        Ok(()) => Ok(out.finish()),
        Err(why) => Err(why),
    }
}

/// Appends the JSON of a value that stands alone, as that of a field's is written. A group takes no level, here as elsewhere.
fn put_root(
    out: &mut Output,
    at: Option<u64>,
    form: Form,
    value: dynamic_value::Reader<'_>,
) -> Result<(), JsonError>
    ensures put { OnOk result (IsPut out.old (root_shown at form value.entry) out.new) }
    ensures stopped { IfErr result (IsStopped out.old (root_shown at form value.entry)) }
{
    if let dynamic_value::Reader::Struct(reader) = value {
        if reader.get_schema().get_proto().body.is_group {
            return put_record(out, at, JSON_LEVELS, reader);
        }
    }
    put_value(out, at, form, JSON_LEVELS, value)
}
