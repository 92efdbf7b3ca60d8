//! Where what stands at a path of a message that is read can't be shown.
ghost use Rattle.std.specs.Prelude.{Bool, None, Some, ◌≡◌, ◌≢◌, IfErr, IfOk, IfSome};
ghost use Rattle.capnp_check.specs.Refusals.{text_refusal};
ghost use Rattle.capnp_device.specs.declared.error.ErrorKind.TheVariants.{OutOfMemory, TooLarge};
ghost use Rattle.capnp_schema.specs.StructHandles.{IsStruct, number_of, set_of};
ghost use Rattle.capnp_call.specs.Seen.{path_seen};
ghost use Rattle.capnp_patch.specs.Gets.{got_text};
ghost use Rattle.capnp_patch.specs.Places.{AreFewLookedAt, AreRefusedAt, HasFewParts, HasMoreParts, IsRefusedAt, refusal_number};
ghost use Rattle.capnp_patch.specs.declared.place.Place.TheVariants.{Root};

use crate::reach::{RefusedStep, walk_path};
use capnp_call::calls::Step;
use capnp_check::place::{RefusedPlace, find_refusal, find_refusal_within, find_refusals};
use capnp_dynamic_readers::dynamic_struct;
use capnp_dynamic_readers::dynamic_value::Reader as Value;
use capnp_schema::schema::StructSchema;
use capnp_wire::error::{ErrorKind, Result};
use capnp_wire::message::Reader;
use std::alloc::Global;

/// What is refused of a value that is asked for by a path.
#[derive(Drop)]
pub enum Place<'a> {
    /// The message, or its root.
    Root,
    /// A step of the path.
    Step(RefusedStep<'a>),
    /// A part of what stands at the path, or all of it.
    Part(RefusedPlace),
}

/// Why a value that is asked for has no text, and where.
#[derive(Drop)]
pub struct Refusal<'a> {
    pub kind: ErrorKind,
    pub place: Place<'a>,
}

/// All that is refused of a value that is asked for by a path.
#[derive(Drop)]
pub enum Refusals<'a> {
    /// The message, or its root.
    Root(ErrorKind),
    /// A step of the path.
    Step(RefusedStep<'a>),
    /// Parts of what stands at the path, or all of it, in the order of its text; none where it has one.
    Parts(Vec<RefusedPlace>),
}

/// A refusal of a message, or of its root.
fn refuse_root<'a>(kind: ErrorKind) -> Option<Refusal<'a>>
    ensures { result ≡ Some (record { kind = kind; place = Root }) }
{
    Some(Refusal {
        kind,
        place: Place::Root,
    })
}

/// Why what stands at a path of the first message in these bytes has no text, in both forms, and where; none where it
/// has one. No text is made.
///
/// What is refused is as `crate::get::get_line` has it. Refused itself with `OutOfMemory` alone.
///
/// # Conditions
///
/// The schema is one of an accepted set (`IsStruct`).
pub fn find_place<'a>(
    alloc: Global,
    schema: StructSchema<'a>,
    path: &[Step<'_>],
    bytes: &'a [u8],
) -> Result<Option<Refusal<'a>>>
    requires { IsStruct schema }
    ensures number { IfOk result (λ found. (indented : Bool) → refusal_number found ≡ text_refusal
        (got_text (set_of schema.entry) (number_of schema.entry) (path_seen path.now) indented bytes.now)) }
    ensures place { IfOk result (λ found. IfSome found (λ r. IsRefusedAt (set_of schema.entry) (number_of schema.entry)
        (path_seen path.now) bytes.now r.kind r.place)) }
    ensures memory { IfErr result (λ e. e.kind ≡ OutOfMemory) }
{
    let reader = match Reader::new(alloc, bytes) {
        Ok(reader) => reader,
        Err(error) => return Ok(refuse_root(error.kind)),
    };
    let root = match reader.get_root().get_struct() {
        Ok(root) => root,
        Err(error) => return Ok(refuse_root(error.kind)),
    };
    let value = Value::Struct(dynamic_struct::Reader::new(root, schema));
    let part = match walk_path(value, path) {
        Ok(part) => part,
        Err(step) => {
            return Ok(Some(Refusal {
                kind: step.error.kind,
                place: Place::Step(step),
            }));
        }
    };
    match find_refusal(alloc, part)? {
        None => Ok(None),
        Some(found) => Ok(Some(Refusal {
            kind: found.kind,
            place: Place::Part(found),
        })),
    }
}

/// As `find_place`, where the text of what stands at the path shows at most `limit` parts, itself among them: it takes
/// time in proportion to the limit and the steps of the place. Refused with `TooLarge` where there are more parts, wherever
/// the first refusal stands, and else with `OutOfMemory` alone.
///
/// # Conditions
///
/// The schema is one of an accepted set (`IsStruct`).
pub fn find_place_within<'a>(
    alloc: Global,
    schema: StructSchema<'a>,
    path: &[Step<'_>],
    bytes: &'a [u8],
    limit: u64,
) -> Result<Option<Refusal<'a>>>
    requires { IsStruct schema }
    ensures number { IfOk result (λ found. (indented : Bool) → refusal_number found ≡ text_refusal
        (got_text (set_of schema.entry) (number_of schema.entry) (path_seen path.now) indented bytes.now)) }
    ensures place { IfOk result (λ found. IfSome found (λ r. IsRefusedAt (set_of schema.entry) (number_of schema.entry)
        (path_seen path.now) bytes.now r.kind r.place)) }
    ensures few { IfOk result (λ found. found ≡ None → HasFewParts limit (set_of schema.entry)
        (number_of schema.entry) (path_seen path.now) bytes.now) }
    ensures too_large { IfErr result (λ e. e.kind ≡ TooLarge → HasMoreParts limit (set_of schema.entry)
        (number_of schema.entry) (path_seen path.now) bytes.now) }
    ensures refused { IfErr result (λ e. e.kind ≢ TooLarge → e.kind ≡ OutOfMemory) }
{
    let reader = match Reader::new(alloc, bytes) {
        Ok(reader) => reader,
        Err(error) => return Ok(refuse_root(error.kind)),
    };
    let root = match reader.get_root().get_struct() {
        Ok(root) => root,
        Err(error) => return Ok(refuse_root(error.kind)),
    };
    let value = Value::Struct(dynamic_struct::Reader::new(root, schema));
    let part = match walk_path(value, path) {
        Ok(part) => part,
        Err(step) => {
            return Ok(Some(Refusal {
                kind: step.error.kind,
                place: Place::Step(step),
            }));
        }
    };
    let found = match find_refusal_within(alloc, part, limit) {
        Ok(found) => found,
        Err(error) => return Err(error),
    };
    match found {
        None => Ok(None),
        Some(found) => Ok(Some(Refusal {
            kind: found.kind,
            place: Place::Part(found),
        })),
    }
}

/// All that is refused of what stands at a path of the first message in these bytes: the message, its root or a step of
/// the path alone, where that is refused; else each part that the text of what stands there shows and that is refused
/// itself. No text is made.
///
/// Each part is visited once. Where there are more than `limit`, what stands at the path among them, the call is refused
/// with `TooLarge`, after so many visits; else with `OutOfMemory` alone.
///
/// # Conditions
///
/// The schema is one of an accepted set (`IsStruct`).
pub fn find_places<'a>(
    alloc: Global,
    schema: StructSchema<'a>,
    path: &[Step<'_>],
    bytes: &'a [u8],
    limit: u64,
) -> Result<Refusals<'a>>
    requires { IsStruct schema }
    ensures places { IfOk result (AreRefusedAt (set_of schema.entry) (number_of schema.entry) (path_seen path.now) bytes.now) }
    ensures few { IfOk result (AreFewLookedAt limit (set_of schema.entry) (number_of schema.entry) (path_seen path.now) bytes.now) }
    ensures too_large { IfErr result (λ e. e.kind ≡ TooLarge → HasMoreParts limit (set_of schema.entry)
        (number_of schema.entry) (path_seen path.now) bytes.now) }
    ensures refused { IfErr result (λ e. e.kind ≢ TooLarge → e.kind ≡ OutOfMemory) }
{
    let reader = match Reader::new(alloc, bytes) {
        Ok(reader) => reader,
        Err(error) => return Ok(Refusals::Root(error.kind)),
    };
    let root = match reader.get_root().get_struct() {
        Ok(root) => root,
        Err(error) => return Ok(Refusals::Root(error.kind)),
    };
    let value = Value::Struct(dynamic_struct::Reader::new(root, schema));
    match walk_path(value, path) {
        Ok(part) => match find_refusals(alloc, part, limit) {
            Ok(places) => Ok(Refusals::Parts(places)),
            Err(error) => Err(error),
        },
        Err(step) => Ok(Refusals::Step(step)),
    }
}
