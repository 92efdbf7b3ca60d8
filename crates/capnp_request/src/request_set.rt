//! The set of schemas under which a compiler's request is read: the structs of the public `schema.capnp`, as far as a
//! request is looked at.
ghost use Rattle.std.specs.Prelude.{◌≡◌, IfErr, IfOk};
ghost use Rattle.capnp_device.specs.declared.error.ErrorKind.TheVariants.{OutOfMemory};
ghost use Rattle.capnp_schema.specs.Schema.{seen_schemas};
ghost use Rattle.capnp_schema.specs.Accepted.{IsAccepted};
ghost use Rattle.capnp_request.specs.RequestSet.{request_set};
ghost use Rattle.capnp_schema.specs.Entries.{lists_seen};

mod table;

use crate::request_set::table::NODES;
use capnp_schema::record::{BrandRecord, EnumRecord, NodeRecord};
use capnp_schema::set::SchemaSet;
use capnp_schema::table_rows::{brand_records, node_records};
use capnp_wire::error::Error;
use std::alloc::Global;

/// The nodes, brands and enums of the request set, of which a `SchemaSet` is made.
///
/// Brand k has node k, with the names, places and types of the public `schema.capnp`: 0 `CodeGeneratorRequest`, 2
/// `Node`, 8 `Field`, 11 `Enumerant`, 12 `Annotation`, 13 `Type`, 19 `Brand`, 22 `Value`, and their groups and parts.
/// All ids are 0, and there are no annotations and no enums. Members that a conversion does not look at stand as
/// `Void`.
///
/// The lists meet the twelve rules, so that a set of them is refused for memory alone.
///
/// Refused with `OutOfMemory` alone.
pub fn records(alloc: Global) -> Result<(Vec<NodeRecord>, Vec<BrandRecord>, Vec<EnumRecord>), Error>
    ensures ok { IfOk result (λ r. seen_schemas r.0.items r.1.items r.2.items ≡ request_set) }
    ensures accepted { IfOk result (λ r. IsAccepted (seen_schemas r.0.items r.1.items r.2.items)) }
    ensures err { IfErr result (λ e. e.kind ≡ OutOfMemory) }
{
    let nodes = node_records(alloc, &NODES)?;
    let brands = brand_records(alloc, &NODES)?;
    Ok((nodes, brands, Vec::new(alloc)))
}

/// The request set, whose lists meet the twelve rules. Refused for memory alone.
pub fn new_set(alloc: Global) -> Result<SchemaSet, Error>
    ensures set { IfOk result (λ made. lists_seen made ≡ request_set) }
    ensures refused { IfErr result (λ e. e.kind ≡ OutOfMemory) }
{
    let (nodes, brands, enums) = records(alloc)?;
    SchemaSet::of_accepted(alloc, nodes, brands, enums)
}
