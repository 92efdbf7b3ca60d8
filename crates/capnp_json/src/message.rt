//! The JSON of a message.
ghost use Rattle.std.specs.Prelude.{◌≡◌, ◌≤◌, IfErr, IfOk, length};
ghost use Rattle.capnp_schema.specs.StructHandles.{IsStruct, number_of, set_of};
ghost use Rattle.capnp_json.specs.Message.{message_json};
ghost use Rattle.capnp_json.specs.Pieces.{IsJson};
ghost use Rattle.capnp_json.specs.Written.{IsOnlyJson, IsRefused};

use crate::error::JsonError;
use crate::json::to_json;
use capnp_dynamic_readers::{dynamic_struct, dynamic_value};
use capnp_schema::schema::StructSchema;
use capnp_wire::message::Reader;
use std::alloc::Global;

/// The JSON of the root of the first message in these bytes, read as a struct of the schema, as `to_json`. What follows
/// the message is not looked at.
///
/// Refused as `to_json`, and with `Read` where the bytes are no message (`Truncated`, `TooManySegments`) or its root is
/// not read as a struct.
///
/// # Conditions
///
/// The schema is one of an accepted set (`IsStruct`).
pub fn message_to_json(
    alloc: Global,
    schema: StructSchema<'_>,
    message: &[u8],
    indented: bool,
    limit: usize,
) -> Result<Vec<u8>, JsonError>
    requires { IsStruct schema }
    ensures json { IfOk result (λ bytes. IsJson (message_json (set_of schema.entry) (number_of schema.entry) indented
        message.now) bytes.items) }
    ensures only { IfOk result (λ bytes. IsOnlyJson (message_json (set_of schema.entry) (number_of schema.entry) indented
        message.now) bytes.items) }
    ensures within { IfOk result (λ bytes. length bytes.items ≤ limit) }
    ensures refused { IfErr result (IsRefused limit (message_json (set_of schema.entry) (number_of schema.entry) indented
        message.now)) }
{
    let reader = match Reader::new(alloc, message) {
        Ok(reader) => reader,
        Err(error) => return Err(JsonError::Read(error.kind)),
    };
    let root = match reader.get_root().get_struct() {
        Ok(root) => root,
        Err(error) => return Err(JsonError::Read(error.kind)),
    };
    let value = dynamic_struct::Reader::new(root, schema);
    to_json(alloc, dynamic_value::Reader::Struct(value), indented, limit)
}
