//! Rule 3: the names of a node's fields are distinct. The tables by name that show it are kept for look-ups.
ghost use Rattle.std.specs.Prelude.{◌≡◌, map, MatchResult};
ghost use Rattle.capnp_schema.specs.Schema.{node_at, seen_field};
ghost use Rattle.capnp_schema.specs.Entries.{lists_seen};
ghost use Rattle.capnp_schema.specs.Accepted.{HasSmallCounts, Rule3};
ghost use Rattle.capnp_schema.specs.Broken.{IsRefusalOf};
ghost use Rattle.capnp_schema.specs.Names.{IsNameTable};
ghost use Rattle.capnp_schema.specs.Tables.{AreNameTables};

use crate::check::counts::check_counts;
use crate::check::refusal::refusal;
use crate::lists::Lists;
use crate::names::{name_order, repeated_name};
use crate::record::FieldRecord;
use capnp_device::error::{Result, SchemaTable};
use std::alloc::Global;

/// The fields of a node, none past the end.
pub(crate) fn fields_at(lists: &Lists, node: usize) -> &[FieldRecord]
    ensures { map seen_field result.now ≡ (node_at (lists_seen lists.now) node).fields }
{
    match lists.node_at(node) {
        Some(record) => &record.body.fields,
        None => &[],
    }
}

/// The table of a node, refused with rule 3 where two of its fields have one name.
fn name_table(alloc: Global, lists: &Lists, node: usize) -> Result<Vec<u16>>
    requires { HasSmallCounts (lists_seen lists.now) }
    ensures { MatchResult result (λ table. IsNameTable (node_at (lists_seen lists.now) node).fields table.items)
        (IsRefusalOf (lists_seen lists.now)) }
{
    let fields = fields_at(lists, node);
    let order = name_order(alloc, fields)?;
    match repeated_name(fields, &order) {
        Some(field) => Err(refusal(3, SchemaTable::Node, node, field)),
        None => Ok(order),
    }
}

/// The table of each node.
pub(crate) fn name_tables(alloc: Global, lists: &Lists) -> Result<Vec<Vec<u16>>>
    requires { HasSmallCounts (lists_seen lists.now) }
    ensures { MatchResult result (λ tables. AreNameTables (lists_seen lists.now) tables.items)
        (IsRefusalOf (lists_seen lists.now)) }
{
    let mut tables = Vec::new(alloc);
    for n in 0..lists.nodes.len() {
        let table = name_table(alloc, lists, n)?;
        tables.push(table)?;
    }
    Ok(tables)
}

/// The indices of each node's fields by name. Refuses the lists where rule 3 is broken: where two fields of a node have
/// one name, where a node has more than 65,535 fields or an enum more than 65,535 enumerants, and where 2^29
/// annotations or more stand at one place.
pub(crate) fn check_names(alloc: Global, lists: &Lists) -> Result<Vec<Vec<u16>>>
    ensures { MatchResult result
        (λ tables. Rule3 (lists_seen lists.now) × AreNameTables (lists_seen lists.now) tables.items)
        (IsRefusalOf (lists_seen lists.now)) }
{
    check_counts(lists)?;
    let tables = name_tables(alloc, lists)?;
    Ok(tables)
}
