//! The meta set: schemas of a message that stands for a set of schemas.
ghost use Rattle.std.specs.Prelude.{◌≡◌, IfErr, IfOk};
ghost use Rattle.capnp_device.specs.declared.error.ErrorKind.TheVariants.{OutOfMemory};
ghost use Rattle.capnp_schema.specs.Schema.{seen_schemas};
ghost use Rattle.capnp_schema.specs.Accepted.{IsAccepted};
ghost use Rattle.capnp_schema.specs.Meta as set;
ghost use Rattle.capnp_schema.specs.Entries.{lists_seen};

mod table;

use crate::meta::table::NODES;
use crate::record::{BrandRecord, EnumRecord, NodeRecord};
use crate::set::SchemaSet;
use crate::table_rows::{brand_records, node_records};
use capnp_wire::error::Error;
use std::alloc::Global;

/// The nodes, brands and enums of the meta set, of which a `SchemaSet` is made. A message whose root is a `SetRecord`
/// stands for such lists.
///
/// Brand k has node k, whose id is 0: 0 `SetRecord`, 1 `NodeRecord`, 2 `FieldRecord`, a union of the group 3
/// `FieldRecord.slot` and the number of a group's node, 4 `AnnotationRecord`, 5 `ValueRecord`, a union with a member
/// for each kind of value, 6 `BrandRecord`, 7 `TypeRecord`, 8 `EnumRecord`, 9 `EnumerantRecord`. There are no enums and
/// no annotations.
///
/// The lists meet the twelve rules, so that a set of them is refused for memory alone.
///
/// Refused with `OutOfMemory` alone.
pub fn records(alloc: Global) -> Result<(Vec<NodeRecord>, Vec<BrandRecord>, Vec<EnumRecord>), Error>
    ensures ok { IfOk result (λ r. seen_schemas r.0.items r.1.items r.2.items ≡ set.meta) }
    ensures accepted { IfOk result (λ r. IsAccepted (seen_schemas r.0.items r.1.items r.2.items)) }
    ensures err { IfErr result (λ e. e.kind ≡ OutOfMemory) }
{
    let nodes = node_records(alloc, &NODES)?;
    let brands = brand_records(alloc, &NODES)?;
    Ok((nodes, brands, Vec::new(alloc)))
}

/// The meta set, whose lists meet the twelve rules. Refused for memory alone.
pub fn new_set(alloc: Global) -> Result<SchemaSet, Error>
    ensures set { IfOk result (λ made. lists_seen made ≡ set.meta) }
    ensures refused { IfErr result (λ e. e.kind ≡ OutOfMemory) }
{
    let (nodes, brands, enums) = records(alloc)?;
    SchemaSet::of_accepted(alloc, nodes, brands, enums)
}
