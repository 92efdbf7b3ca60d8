//! The set of a plan, and the struct of its root.
ghost use Rattle.std.specs.Prelude.{◌≡◌, ◌≢◌, IfErr, IfOk, None, Some};
ghost use Rattle.std.specs.Option.{option_map};
ghost use Rattle.capnp_device.specs.declared.error.ErrorKind.TheVariants.{NameNotFound, OutOfMemory};
ghost use Rattle.capnp_schema.specs.ByName.{brand_asked};
ghost use Rattle.capnp_schema.specs.Entries.{lists_seen};
ghost use Rattle.riftcalico_core.specs.Jobs.{IsNamedStruct, IsNoSetIn, IsNoSetOf, IsSetIn, IsSetOfFile, set_room};

use capnp_schema::builtin;
use capnp_schema::schema::StructSchema;
use capnp_schema::set::SchemaSet;
use capnp_sets::message::read_message_within;
use capnp_wire::error::{Error, ErrorKind, Result};
use std::alloc::Global;

/// How much there may be of what pointers lead to in a set of so many bytes: a set in which no target is shared has no more
/// than its bits, whatever the limit.
pub(crate) fn get_set_room(limit: u64, count: usize) -> u64
    ensures { result ≡ set_room limit count }
{
    limit.saturating_add((count as u64).saturating_mul(8))
}

/// The set that these bytes hold as a message, read and checked. Refused as `make_schemas`.
pub(crate) fn read_set(alloc: Global, bytes: &[u8], limit: u64) -> Result<SchemaSet>
    ensures set { IfOk result (λ schemas. IsSetIn limit bytes.now (lists_seen schemas)) }
    ensures refused { IfErr result (λ e. e.kind ≢ OutOfMemory → IsNoSetIn limit bytes.now e) }
{
    read_message_within(alloc, bytes, get_set_room(limit, bytes.len()))
}

/// The set that these bytes of a file hold as a message, read and checked; or where no file is named the built-in one.
///
/// Refused with `OutOfMemory`, and as `capnp_sets::message::read_message_within` refuses the set, of which there may be as
/// much as the limit beside its bits.
pub fn make_schemas(
    alloc: Global,
    file: Option<&str>,
    bytes: &[u8],
    limit: u64,
) -> Result<SchemaSet>
    ensures set { IfOk result (λ schemas. IsSetOfFile limit (option_map (λ f. f.now) file.entry) bytes.now
        (lists_seen schemas)) }
    ensures refused { IfErr result (λ e. e.kind ≢ OutOfMemory
        → IsNoSetOf limit (option_map (λ f. f.now) file.entry) bytes.now e) }
{
    match file {
        Some(_) => read_set(alloc, bytes, limit),
        None => builtin::new_set(alloc),
    }
}

/// The struct of a display name. Refused with `NameNotFound` where the set has none.
pub fn find_schema<'s>(schemas: &'s SchemaSet, name: &str) -> Result<StructSchema<'s>>
    ensures found { IfOk result (IsNamedStruct (lists_seen schemas.now) name.now) }
    ensures missing { IfErr result (λ e. (e.kind ≡ NameNotFound)
        × (brand_asked (lists_seen schemas.now) name.now ≡ None)) }
{
    match schemas.find_struct(name) {
        Some(schema) => Ok(schema),
        None => Err(Error::from(ErrorKind::NameNotFound)),
    }
}
