//! What stands at a path of a message.
ghost use Rattle.std.specs.Prelude.{◌≡◌, IfErr, IfOk};
ghost use Rattle.capnp_schema.specs.StructHandles.{IsStruct, number_of, set_of};
ghost use Rattle.capnp_call.specs.Seen.{path_seen};
ghost use Rattle.capnp_dynamic_readers.specs.Shown.{type_seen};
ghost use Rattle.capnp_dynamic_readers.specs.Typed.{IsOf};
ghost use Rattle.capnp_patch.specs.Places.{IsRefusedAt, root_reached};
ghost use Rattle.capnp_queries.specs.Reach.{IsOnWay, at_path, reach_seen};
ghost use Rattle.capnp_queries.specs.Steps.Roots.{root_seen};
ghost use Rattle.capnp_wire.specs.Stream.{message_tree_of};

use capnp_call::calls::Step;
use capnp_dynamic_readers::dynamic_struct;
use capnp_dynamic_readers::dynamic_value::Reader as Value;
use capnp_patch::place::{Place, Refusal};
use capnp_patch::reach::walk_path;
use capnp_schema::schema::StructSchema;
use capnp_wire::error::ErrorKind;
use capnp_wire::message::Reader;
use std::alloc::Global;

/// The refusal of a message, or of its root.
fn refuse_root<'a>(kind: ErrorKind) -> Refusal<'a>
    ensures { result ≡ record { kind = kind; place = Place.Root } }
{
    Refusal {
        kind,
        place: Place::Root,
    }
}

/// The root of the first message in these bytes, or the number of its refusal or the message's.
pub(crate) fn read_root<'a>(
    alloc: Global,
    schema: StructSchema<'a>,
    bytes: &'a [u8],
) -> Result<Value<'a>, ErrorKind>
    requires { IsStruct schema }
    ensures read { root_seen result ≡ root_reached (set_of schema.entry) (number_of schema.entry) (message_tree_of bytes.now) }
    ensures typed { IfOk result (λ v. IsOf (set_of schema.entry) (type_seen v) v) }
{
    let reader = match Reader::new(alloc, bytes) {
        Ok(reader) => reader,
        Err(error) => return Err(error.kind),
    };
    let root = match reader.get_root().get_struct() {
        Ok(root) => root,
        Err(error) => return Err(error.kind),
    };
    Ok(Value::Struct(dynamic_struct::Reader::new(root, schema)))
}

/// What stands at a path of the first message in these bytes. Refused as the message is, as its root where it can't be read
/// as a struct, and as the first step of `capnp_patch::reach::walk_path` that is, with the place.
///
/// # Conditions
///
/// The schema is one of an accepted set (`IsStruct`).
#[tactic(auto, using(crate::proofs::Reaching::nowhere))]
pub fn reach_path<'a>(
    alloc: Global,
    schema: StructSchema<'a>,
    path: &[Step<'_>],
    bytes: &'a [u8],
) -> Result<Value<'a>, Refusal<'a>>
    requires { IsStruct schema }
    ensures reached { reach_seen result
        ≡ at_path (set_of schema.entry) (number_of schema.entry) (path_seen path.now) bytes.now }
    ensures typed { IfOk result (λ v. IsOf (set_of schema.entry) (type_seen v) v) }
    ensures place { IfErr result (λ r. IsRefusedAt (set_of schema.entry) (number_of schema.entry)
        (path_seen path.now) bytes.now r.kind r.place) }
    ensures way { IfErr result (λ r. IsOnWay r.place) }
{
    let value = match read_root(alloc, schema, bytes) {
        Ok(value) => value,
        Err(kind) => return Err(refuse_root(kind)),
    };
    match walk_path(value, path) {
        Ok(part) => Ok(part),
        Err(step) => Err(Refusal {
            kind: step.error.kind,
            place: Place::Step(step),
        }),
    }
}
