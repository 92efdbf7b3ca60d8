//! Sets of schemas that are read from the bytes of a message.
ghost use Rattle.std.specs.Prelude.{◌≡◌, ◌≢◌, ◌≤◌, true, Some, IfErr, IfOk};
ghost use Rattle.capnp_device.specs.declared.error.ErrorKind.TheVariants.{OutOfMemory, TooLarge};
ghost use Rattle.capnp_schema.specs.Accepted.{IsAccepted};
ghost use Rattle.capnp_schema.specs.Entries.{lists_seen};
ghost use Rattle.capnp_schema.specs.Schema.{seen_schemas};
ghost use Rattle.capnp_sets.specs.Message.{HasLargeMessage, IsMessageRefusal, IsPastLimit, message_set};
ghost use Rattle.capnp_sets.specs.Steps.MessageCauses.{IsMessageCause};
ghost use Rattle.capnp_sets.specs.Refusals.{IsRefusalOfSet, is_set_kind};
ghost use Rattle.capnp_sets.specs.Unfolded.{values_size};

use crate::sets::{read_schema_set, read_set};
use crate::unfolded::left_of_values;
use capnp_dynamic_readers::dynamic_struct;
use capnp_schema::meta;
use capnp_schema::record::{BrandRecord, EnumRecord, NodeRecord};
use capnp_schema::set::SchemaSet;
use capnp_wire::error::{Error, ErrorKind, Result};
use capnp_wire::message::Reader;
use std::alloc::Global;

/// The set that the root of the first message in these bytes stands for, checked. What follows the message is not
/// looked at (encoding, "Serialization Over a Stream").
///
/// Refused with `OutOfMemory`, as the stream is (`Truncated`, `TooManySegments`), as the root is where it can't be read
/// as a struct (`BadPointer`, `WrongPointerKind`, `CapabilityPointer`), or as `read_schema_set`.
pub fn read_message(alloc: Global, bytes: &[u8]) -> Result<SchemaSet>
    ensures set { IfOk result (λ schemas. message_set bytes.now ≡ Some (lists_seen schemas)) }
    ensures accepted { IfOk result (λ schemas. IsAccepted (lists_seen schemas)) }
    ensures refused { IfErr result (λ e. e.kind ≢ OutOfMemory → IsMessageRefusal bytes.now e) }
    ensures kinds { IfErr result (λ e. is_set_kind e.kind ≡ true) }
    ensures of_no_device { IfErr result (λ e. IsRefusalOfSet e.kind) }
{
    let meta_set = meta::new_set(alloc)?;
    let reader = Reader::new(alloc, bytes)?;
    let root = reader.get_root().get_struct()?;
    let record = dynamic_struct::Reader::new(root, meta_set.struct_schema(0));
    read_schema_set(alloc, record)
}

/// The lists that the root of the first message in these bytes stands for, where what it leads to is within the limit.
///
/// Refused with `TooLarge` where it isn't, and else as `read_message`, but for the rules of schemas.
fn read_lists_within(
    alloc: Global,
    bytes: &[u8],
    limit: u64,
) -> Result<(Vec<NodeRecord>, Vec<BrandRecord>, Vec<EnumRecord>)>
    ensures lists { IfOk result (λ r. message_set bytes.now ≡ Some (seen_schemas r.0.items r.1.items r.2.items)) }
    ensures fits { IfOk result (λ r. HasLargeMessage limit bytes.now → ⊥) }
    ensures refused { IfErr result (λ e. e.kind ≢ OutOfMemory → e.kind ≢ TooLarge → IsMessageCause bytes.now e.kind) }
    ensures too_large { IfErr result (λ e. e.kind ≡ TooLarge → HasLargeMessage limit bytes.now) }
    ensures of_no_device { IfErr result (λ e. IsRefusalOfSet e.kind) }
{
    let meta_set = meta::new_set(alloc)?;
    let reader = Reader::new(alloc, bytes)?;
    let pointer = reader.get_root();
    let Some(_) = pointer.unfolded_size(limit) else {
        return Err(Error::from(ErrorKind::TooLarge));
    };
    let root = pointer.get_struct()?;
    let record = dynamic_struct::Reader::new(root, meta_set.struct_schema(0));
    read_set(alloc, record)
}

/// As `read_message`, of a set that can be read and checked within a limit. What pointers lead to can be shared, in the
/// message and in the words of its values, so that a small set may have no end. The message and the values are each
/// counted as `PointerReader::unfolded_size` does, before they are looked at: a call takes time and memory in
/// proportion to the limit and to the bytes.
///
/// Refused with `TooLarge` where there is more in the message, or in the defaults and values of annotations together, than
/// the limit, and else as `read_message`; of a message past the limit nothing else is told.
pub fn read_message_within(alloc: Global, bytes: &[u8], limit: u64) -> Result<SchemaSet>
    ensures set { IfOk result (λ schemas. message_set bytes.now ≡ Some (lists_seen schemas)) }
    ensures accepted { IfOk result (λ schemas. IsAccepted (lists_seen schemas)) }
    ensures fits { IfOk result (λ schemas. HasLargeMessage limit bytes.now → ⊥) }
    ensures within { IfOk result (λ schemas. values_size (lists_seen schemas) ≤ limit) }
    ensures refused { IfErr result (λ e. e.kind ≢ OutOfMemory → e.kind ≢ TooLarge → IsMessageRefusal bytes.now e) }
    ensures too_large { IfErr result (λ e. e.kind ≡ TooLarge → IsPastLimit limit bytes.now) }
    ensures of_no_device { IfErr result (λ e. IsRefusalOfSet e.kind) }
{
    let (nodes, brands, enums) = read_lists_within(alloc, bytes, limit)?;
    match left_of_values(limit, &nodes, &enums) {
        Some(_) => SchemaSet::new(alloc, nodes, brands, enums),
        None => Err(Error::from(ErrorKind::TooLarge)),
    }
}
