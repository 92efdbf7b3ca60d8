//! Calls on messages in streams, from bytes to bytes.
ghost use Rattle.std.specs.Prelude.{IfErr, IfOk, false, length, string_bytes, ◌+◌, ◌≢◌, ◌≤◌};
ghost use Rattle.capnp_device.specs.declared.error.ErrorKind.TheVariants.{OutOfMemory};
ghost use Rattle.capnp_wire.specs.Stream.{message_tree_of};
ghost use Rattle.capnp_schema.specs.Entries.{lists_seen};
ghost use Rattle.capnp_schema.specs.StructHandles.{IsStruct};
ghost use Rattle.capnp_call.specs.Seen.{path_seen};
ghost use Rattle.capnp_show_engine.specs.Show.{IsLineOf};
ghost use Rattle.capnp_patch.specs.Gets.{got_text};
ghost use Rattle.capnp_patch.specs.Patches.{IsUnread};
ghost use Rattle.capnp_callers.specs.Streams.{IsPatched, IsRunOn};

use capnp_call::calls::{Call, Reply, Step};
use capnp_call::message::{Run, whole_copied};
use capnp_patch::engine::run_bytes;
use capnp_patch::get::get_line_within;
use capnp_schema::schema::StructSchema;
use capnp_schema::set::SchemaSet;
use capnp_wire::error::{Error, ErrorKind, Result};
use capnp_wire::message::Reader;
use std::alloc::Global;

/// Makes calls on a copy of the first message of a stream, prints its root and writes it.
///
/// Refused as `message::Reader::new` and `whole_copied`.
///
/// # Conditions
///
/// The schema is one of an accepted set (`IsStruct`).
pub fn run_on_stream(
    alloc: Global,
    schema: StructSchema<'_>,
    stream: &[u8],
    calls: &[Call<'_>],
    out: &mut String,
    indented: bool,
) -> Result<(Vec<Reply>, Vec<u8>)>
    requires { IsStruct schema }
    ensures { IfOk result (λ done. IsRunOn schema.entry
        (message_tree_of stream.now) calls.now done.0.items done.1.items indented (string_bytes out.old)
        (string_bytes out.new)) }
{
    let root = Reader::new(alloc, stream)?.get_root();
    whole_copied(alloc, root, schema, calls, out, indented)
}

/// Makes calls on a copy of the root of the first message of a stream, and writes the message that they leave.
///
/// Refused as `run_bytes`, and with `OutOfMemory`.
///
/// # Conditions
///
/// The schema is one of an accepted set (`IsStruct`).
pub fn patched(
    alloc: Global,
    schema: StructSchema<'_>,
    stream: &[u8],
    calls: &[Call<'_>],
) -> Result<(Vec<Reply>, Vec<u8>)>
    requires { IsStruct schema }
    ensures left { IfOk result (λ done. IsPatched schema.entry stream.now calls.now done.0.items done.1.items) }
    ensures refused { IfErr result (λ e. e.kind ≢ OutOfMemory → IsUnread stream.now e.kind) }
{
    let Run { message, replies } = run_bytes(alloc, stream, schema, calls)?;
    let written = message.write_message()?;
    Ok((replies, written))
}

/// What stands at a path of the first message of a stream, as a line, where its root is a struct of a brand of the set.
///
/// Refused with `NoSuchElement` where the set has no brand of that number, and else as `get_line_within`.
pub fn line_of_brand(
    alloc: Global,
    schemas: &SchemaSet,
    brand: u32,
    path: &[Step<'_>],
    stream: &[u8],
    limit: u64,
) -> Result<String>
    ensures line { IfOk result (λ line. IsLineOf
        (got_text (lists_seen schemas.now) brand (path_seen path.now) false stream.now) (string_bytes line)) }
    ensures within { IfOk result (λ line. length (string_bytes line) ≤ limit + 1) }
{
    let Some(schema) = schemas.get_struct(brand) else {
        return Err(Error::from(ErrorKind::NoSuchElement));
    };
    get_line_within(alloc, schema, path, stream, false, limit)
}
