//! Sets of schemas that are read from the record of a set.
ghost use Rattle.std.specs.Prelude.{◌≡◌, ◌≢◌, Some, IfErr, IfOk};
ghost use Rattle.capnp_device.specs.declared.error.ErrorKind.TheVariants.{OutOfMemory};
ghost use Rattle.capnp_schema.specs.Entries.{lists_seen};
ghost use Rattle.capnp_schema.specs.Schema.{seen_schemas};
ghost use Rattle.capnp_dynamic_readers.specs.Seen.{record_seen};
ghost use Rattle.capnp_sets.specs.Handles.{IsMetaRecord};
ghost use Rattle.capnp_sets.specs.Lists.{IsSchemaSetRefusal, has_cause, lists_meant};

use crate::parts::{BRAND, MetaSet, SET};
use crate::rows::{Context, all_read, list_read};
use capnp_dynamic_readers::dynamic_struct;
use capnp_known::pointers::structs_at;
use capnp_schema::record::{BrandRecord, EnumRecord, NodeRecord};
use capnp_schema::set::SchemaSet;
use capnp_wire::error::Result;
use std::alloc::Global;

/// The nodes, brands and enums that the record of a set stands for, of which `SchemaSet::new` makes a set. Missing
/// parts are read as their defaults.
///
/// Refused with `OutOfMemory`, or with a number whose cause stands in the record: that of a part that can't be read
/// (`BadPointer`, `WrongPointerKind`, `WrongElementSize`, `TextNotTerminated`, `TooDeep`, `CapabilityPointer`),
/// `FloatType` or `InterfaceType` for a type that is one, `UnknownKind` for another base or for the discriminant of a
/// field or value that is none of the meta set's, and `NameNotUtf8`. Where several stand in the record, any of them may
/// be named.
///
/// # Conditions
///
/// The record is of brand 0 of the meta set (`IsMetaRecord`).
#[tactic(auto, unfolding(crate::specs::Lists::set_meant))]
pub fn read_set(
    alloc: Global,
    reader: dynamic_struct::Reader<'_>,
) -> Result<(Vec<NodeRecord>, Vec<BrandRecord>, Vec<EnumRecord>)>
    requires { IsMetaRecord 0 reader }
    ensures lists { IfOk result (λ r. lists_meant (record_seen reader.entry)
        ≡ Some (seen_schemas r.0.items r.1.items r.2.items)) }
    ensures refused { IfErr result (λ e. e.kind ≢ OutOfMemory → has_cause (record_seen reader.entry) e.kind) }
{
    let sections = reader.get_sections();
    let brand_records = structs_at::<MetaSet>(&sections, SET, 1, 1, BRAND)?;
    let context = Context {
        alloc,
        brands: brand_records,
    };
    let nodes = list_read::<NodeRecord>(&context, &sections, SET, 0, 0)?;
    let brands = all_read::<BrandRecord>(&context, &brand_records)?;
    let enums = list_read::<EnumRecord>(&context, &sections, SET, 2, 2)?;
    Ok((nodes, brands, enums))
}

/// The set that a record stands for, checked: `read_set` and `SchemaSet::new`.
///
/// Refused as these are: with `OutOfMemory`, with a number whose cause stands in the record, or, where the record
/// stands for lists, with `Schema` and the number of a rule that they break.
///
/// # Conditions
///
/// The record is of brand 0 of the meta set (`IsMetaRecord`).
pub fn read_schema_set(alloc: Global, reader: dynamic_struct::Reader<'_>) -> Result<SchemaSet>
    requires { IsMetaRecord 0 reader }
    ensures set { IfOk result (λ schemas. lists_meant (record_seen reader.entry) ≡ Some (lists_seen schemas)) }
    ensures refused { IfErr result (λ e. e.kind ≢ OutOfMemory → IsSchemaSetRefusal (record_seen reader.entry) e) }
{
    let (nodes, brands, enums) = read_set(alloc, reader)?;
    SchemaSet::new(alloc, nodes, brands, enums)
}
