//! What stands at a path of a message, as JSON.
ghost use Rattle.std.specs.Prelude.{◌≤◌, IfErr, IfOk, length};
ghost use Rattle.capnp_schema.specs.StructHandles.{IsStruct, number_of, set_of};
ghost use Rattle.capnp_call.specs.Seen.{path_seen};
ghost use Rattle.capnp_json.specs.Pieces.{IsJson};
ghost use Rattle.capnp_json.specs.Written.{IsOnlyJson};
ghost use Rattle.capnp_queries.specs.Json.{HasNoJson, json_at};

use crate::floats::get_form_at;
use crate::reach::reach_path;
use capnp_call::calls::Step;
use capnp_json::error::JsonError;
use capnp_json::json::to_json_as;
use capnp_patch::place::Refusal;
use capnp_schema::schema::StructSchema;
use std::alloc::Global;

/// Why there is no JSON of what is asked for by a path.
#[derive(Drop)]
pub enum NoJson<'a> {
    /// The message, its root or a step of the path is refused.
    Unreached(Refusal<'a>),
    /// What stands at the path has none, or none within the limit.
    Value(JsonError),
}

/// The JSON of what stands at a path of the first message in these bytes, as `capnp_json::json::to_json_as` writes it by the last field
/// that the path names, in at most `limit` bytes. Refused as `crate::reach::reach_path`, with the place, and else as `to_json_as`.
///
/// # Conditions
///
/// The schema is one of an accepted set (`IsStruct`).
pub fn get_json<'a>(
    alloc: Global,
    schema: StructSchema<'a>,
    path: &[Step<'_>],
    bytes: &'a [u8],
    indented: bool,
    limit: usize,
) -> Result<Vec<u8>, NoJson<'a>>
    requires { IsStruct schema }
    ensures json { IfOk result (λ json. IsJson (json_at (set_of schema.entry) (number_of schema.entry) (path_seen path.now)
        indented bytes.now) json.items) }
    ensures only { IfOk result (λ json. IsOnlyJson (json_at (set_of schema.entry) (number_of schema.entry)
        (path_seen path.now) indented bytes.now) json.items) }
    ensures within { IfOk result (λ json. length json.items ≤ limit) }
    ensures refused { IfErr result (HasNoJson limit (set_of schema.entry) (number_of schema.entry) (path_seen path.now)
        indented bytes.now) }
{
    let value = match reach_path(alloc, schema, path, bytes) {
        Ok(value) => value,
        Err(refusal) => return Err(NoJson::Unreached(refusal)),
    };
    let form = get_form_at(schema, path);
    match to_json_as(alloc, value, form, indented, limit) {
        Ok(json) => Ok(json),
        Err(why) => Err(NoJson::Value(why)),
    }
}
