//! The set that a message stands for, under a meta set that the caller has made once.
ghost use Rattle.std.specs.Prelude.{◌≡◌, ◌≢◌, Some, IfErr, IfOk};
ghost use Rattle.capnp_device.specs.declared.error.ErrorKind.TheVariants.{OutOfMemory};
ghost use Rattle.capnp_schema.specs.Entries.{lists_seen};
ghost use Rattle.capnp_schema.specs.Meta.{meta};
ghost use Rattle.capnp_schema.specs.Schema.{seen_schemas};
ghost use Rattle.capnp_sets.specs.Message.{IsMessageRefusal, message_set};

use capnp_dynamic_readers::dynamic_struct;
use capnp_schema::record::{BrandRecord, EnumRecord, NodeRecord};
use capnp_schema::set::SchemaSet;
use capnp_sets::sets::{read_schema_set, read_set};
use capnp_wire::error::Result;
use capnp_wire::message::Reader;
use std::alloc::Global;

/// The lists of the first message in these bytes, under the meta set. Refused as the stream, its root and `read_set`
/// are.
///
/// # Conditions
///
/// `meta_set` is the meta set.
pub fn lists_in(
    alloc: Global,
    meta_set: &SchemaSet,
    bytes: &[u8],
) -> Result<(Vec<NodeRecord>, Vec<BrandRecord>, Vec<EnumRecord>)>
    requires { lists_seen meta_set.now ≡ meta }
    ensures lists { IfOk result (λ r. message_set bytes.now ≡ Some (seen_schemas r.0.items r.1.items r.2.items)) }
    ensures refused { IfErr result (λ e. e.kind ≢ OutOfMemory → IsMessageRefusal bytes.now e) }
{
    let reader = Reader::new(alloc, bytes)?;
    let root = reader.get_root().get_struct()?;
    let record = dynamic_struct::Reader::new(root, meta_set.struct_schema(0));
    read_set(alloc, record)
}

/// The checked set of the first message in these bytes, under the meta set. Refused as the stream, its root and
/// `read_schema_set` are.
///
/// # Conditions
///
/// `meta_set` is the meta set.
pub fn set_in(alloc: Global, meta_set: &SchemaSet, bytes: &[u8]) -> Result<SchemaSet>
    requires { lists_seen meta_set.now ≡ meta }
    ensures set { IfOk result (λ schemas. message_set bytes.now ≡ Some (lists_seen schemas)) }
    ensures refused { IfErr result (λ e. e.kind ≢ OutOfMemory → IsMessageRefusal bytes.now e) }
{
    let reader = Reader::new(alloc, bytes)?;
    let root = reader.get_root().get_struct()?;
    let record = dynamic_struct::Reader::new(root, meta_set.struct_schema(0));
    read_schema_set(alloc, record)
}
