//! How many elements what stands at a path of a message has.
ghost use Rattle.std.specs.Prelude.{◌≡◌, IfErr, IfOk, Ok};
ghost use Rattle.capnp_schema.specs.StructHandles.{IsStruct, number_of, set_of};
ghost use Rattle.capnp_call.specs.Seen.{path_seen};
ghost use Rattle.capnp_patch.specs.Gets.{value_part_seen};
ghost use Rattle.capnp_queries.specs.Lengths.{HasNoLength, length_at, part_length};
ghost use Rattle.capnp_queries.specs.Steps.Counts.{counted};

use crate::reach::reach_path;
use capnp_call::calls::Step;
use capnp_dynamic_readers::dynamic_value::Reader as Value;
use capnp_patch::place::Refusal;
use capnp_schema::schema::StructSchema;
use capnp_wire::error::ErrorKind;
use std::alloc::Global;

/// Why what is asked for by a path has no length.
#[derive(Drop)]
pub enum NoLength<'a> {
    /// The message, its root or a step of the path is refused.
    Unreached(Refusal<'a>),
    /// What stands at the path is no list.
    NoList(ErrorKind),
}

/// How many elements a list has. Refused of an untyped pointer with `UntypedStep`, and of what is no list else with
/// `NotAContainer`.
#[tactic(auto, using(crate::proofs::Counts::elements_counted))]
fn count_elements(value: Value<'_>) -> Result<u32, ErrorKind>
    ensures { counted result ≡ part_length (value_part_seen value.entry) }
{
    match value {
        Value::List(list) => Ok(list.len()),
        Value::AnyPointer(_) => Err(ErrorKind::UntypedStep),
        _ => Err(ErrorKind::NotAContainer),
    }
}

/// How many elements the list at a path of the first message in these bytes has. Refused as `crate::reach::reach_path`, with
/// the place; and where no list stands there, with `UntypedStep` for an untyped pointer and else with `NotAContainer`.
///
/// # Conditions
///
/// The schema is one of an accepted set (`IsStruct`).
pub fn get_length<'a>(
    alloc: Global,
    schema: StructSchema<'a>,
    path: &[Step<'_>],
    bytes: &'a [u8],
) -> Result<u32, NoLength<'a>>
    requires { IsStruct schema }
    ensures length { IfOk result (λ n. length_at (set_of schema.entry) (number_of schema.entry) (path_seen path.now)
        bytes.now ≡ Ok n) }
    ensures refused { IfErr result (HasNoLength (set_of schema.entry) (number_of schema.entry) (path_seen path.now)
        bytes.now) }
{
    let value = match reach_path(alloc, schema, path, bytes) {
        Ok(value) => value,
        Err(refusal) => return Err(NoLength::Unreached(refusal)),
    };
    match count_elements(value) {
        Ok(count) => Ok(count),
        Err(kind) => Err(NoLength::NoList(kind)),
    }
}
