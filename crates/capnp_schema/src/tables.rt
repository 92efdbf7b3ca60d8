//! The tables of fields that queries look up.
ghost use Rattle.std.specs.Prelude.{◌≡◌, ◌≤◌, ◌<◌, ◌^◌, ◌++◌, [], false, length, map, replicate, IfOk, IfErr, IfSome, OnOk};
ghost use Rattle.capnp_device.specs.declared.error.ErrorKind.TheVariants.{OutOfMemory};
ghost use Rattle.capnp_schema.specs.Schema.{node_at, seen_field, seen_node};
ghost use Rattle.capnp_schema.specs.Entries.{lists_seen};
ghost use Rattle.capnp_schema.specs.Query.{indices_from, keep_index, is_non_union};
ghost use Rattle.capnp_schema.specs.Steps.Checking.Parents.{IsParentTable};
ghost use Rattle.capnp_schema.specs.GroupFields.{AreGroupFields, numbered_pair};
ghost use Rattle.capnp_schema.specs.Accepted.{AreApartBelow, HasEachMember, IsAccepted};
ghost use Rattle.capnp_schema.specs.Tables.{AreMemberTables, AreNameTables, AreNonUnionTables, AreTables, IsMemberTable};
ghost use Rattle.capnp_schema.specs.Steps.Tables.{ArePlaced, placed_member};

mod empty;

use crate::check::names::fields_at;
use crate::lists::Lists;
use crate::plan::SlotPlan;
use crate::plan::table::plan_tables;
use crate::record::{FieldRecord, NodeRecord};
use crate::tables::empty::EmptyRecords;
use capnp_wire::error::Result;
use std::alloc::Global;

/// For each node tables of its fields, by their indices, and for each brand the plans of its fields and its group field;
/// and what stands past the ends of the lists.
#[derive(Drop)]
pub(crate) struct FieldTables {
    /// The fields in the order of their names.
    pub(crate) by_name: Vec<Vec<u16>>,
    /// The members of the union, at their discriminant values.
    pub(crate) members: Vec<Vec<u16>>,
    /// The non-union fields.
    pub(crate) non_union: Vec<Vec<u16>>,
    pub(crate) plans: Vec<Vec<SlotPlan>>,
    /// At each brand the brand and the index of the group field that names it.
    pub(crate) group_fields: Vec<Option<(u32, u16)>>,
    pub(crate) empty: EmptyRecords,
}

/// Adds an index where it is kept.
fn push_if(indices: &mut Vec<u16>, index: u16, kept: bool) -> Result<()>
    ensures added { OnOk result (indices.new.items ≡ indices.old.items ++ keep_index kept index []) }
    ensures refused { IfErr result (λ e. e.kind ≡ OutOfMemory) }
{
    if kept {
        indices.push(index)?;
    }
    Ok(())
}

/// The indices of the non-union fields.
fn non_union_table(alloc: Global, fields: &[FieldRecord]) -> Result<Vec<u16>>
    requires { length fields.now ≤ 65535 }
    ensures table { IfOk result (λ v. v.items ≡ indices_from 0 is_non_union (map seen_field fields.now)) }
    ensures refused { IfErr result (λ e. e.kind ≡ OutOfMemory) }
{
    let mut non_union = Vec::with_capacity(alloc, fields.len())?;
    for i in 0..fields.len() {
        push_if(&mut non_union, i as u16, !fields[i].is_member())?;
    }
    Ok(non_union)
}

/// So many indices, all 0.
fn no_indices(alloc: Global, count: u16) -> Result<Vec<u16>>
    ensures set { IfOk result (λ v. v.items ≡ replicate count 0) }
    ensures few { count ≤ 65535 }
    ensures refused { IfErr result (λ e. e.kind ≡ OutOfMemory) }
{
    Ok(vec![in alloc; 0; count as usize]?)
}

/// Sets a member's index at its discriminant value; a non-union field has none.
fn place_member(table: &mut [u16], field: &FieldRecord, index: u16)
    requires { is_non_union (seen_field field.now) ≡ false → field.now.discriminant_value < length table.old }
    ensures { table.new ≡ placed_member (is_non_union (seen_field field.now)) table.old field.now.discriminant_value index }
{
    if field.is_member() {
        table[field.discriminant_value as usize] = index;
    }
}

/// Sets at each member's discriminant value the member's index.
fn place_members(table: &mut [u16], fields: &[FieldRecord])
    requires few { length fields.now ≤ 65535 }
    requires apart { AreApartBelow (map seen_field fields.now) (length table.old) }
    ensures { ArePlaced (map seen_field fields.now) (length fields.now) (length table.old) table.new }
{
    for i in 0..fields.len() {
        place_member(table, &fields[i], i as u16);
    }
}

/// The index of each member, at its discriminant value.
fn member_table(alloc: Global, node: &NodeRecord) -> Result<Vec<u16>>
    requires few { length (seen_node node.now).fields ≤ 65535 }
    requires each { HasEachMember (seen_node node.now) }
    ensures table { IfOk result (λ v. IsMemberTable (seen_node node.now) v.items) }
    ensures refused { IfErr result (λ e. e.kind ≡ OutOfMemory) }
{
    let mut table = no_indices(alloc, node.body.discriminant_count)?;
    place_members(&mut table, &node.body.fields);
    Ok(table)
}

/// The member table of a node, an empty one past the last node.
fn member_table_of(alloc: Global, lists: &Lists, node: usize) -> Result<Vec<u16>>
    requires { IsAccepted (lists_seen lists.now) }
    ensures table { IfOk result (λ v. IsMemberTable (node_at (lists_seen lists.now) node) v.items) }
    ensures refused { IfErr result (λ e. e.kind ≡ OutOfMemory) }
{
    match lists.node_at(node) {
        Some(record) => member_table(alloc, record),
        None => Ok(Vec::new(alloc)),
    }
}

/// The member table of each node.
fn member_tables(alloc: Global, lists: &Lists) -> Result<Vec<Vec<u16>>>
    requires { IsAccepted (lists_seen lists.now) }
    ensures tables { IfOk result (λ v. AreMemberTables (lists_seen lists.now) v.items) }
    ensures refused { IfErr result (λ e. e.kind ≡ OutOfMemory) }
{
    let mut tables = Vec::new(alloc);
    for n in 0..lists.nodes.len() {
        let table = member_table_of(alloc, lists, n)?;
        tables.push(table)?;
    }
    Ok(tables)
}

/// The non-union fields of each node.
fn non_union_tables(alloc: Global, lists: &Lists) -> Result<Vec<Vec<u16>>>
    requires { IsAccepted (lists_seen lists.now) }
    ensures tables { IfOk result (λ v. AreNonUnionTables (lists_seen lists.now) v.items) }
    ensures refused { IfErr result (λ e. e.kind ≡ OutOfMemory) }
{
    let mut tables = Vec::new(alloc);
    for n in 0..lists.nodes.len() {
        let table = non_union_table(alloc, fields_at(lists, n))?;
        tables.push(table)?;
    }
    Ok(tables)
}

/// A group field by numbers as handles have them, where its brand's is one.
fn numbered(parent: Option<(usize, usize)>) -> Option<(u32, u16)>
    requires { IfSome parent (λ p. p.1 < 2 ^ 16) }
    ensures { result ≡ numbered_pair parent }
{
    match parent {
        Some((brand, field)) => {
            if brand < 1 << 32 {
                Some((brand as u32, field as u16))
            } else {
                None
            }
        }
        None => None,
    }
}

/// The group field of each brand, by numbers as handles have them.
fn group_fields(
    alloc: Global,
    lists: &Lists,
    parents: &[Option<(usize, usize)>],
) -> Result<Vec<Option<(u32, u16)>>>
    requires accepted { IsAccepted (lists_seen lists.now) }
    requires parents { IsParentTable (lists_seen lists.now) parents.now }
    ensures fields { IfOk result (λ v. AreGroupFields (lists_seen lists.now) v.items) }
    ensures refused { IfErr result (λ e. e.kind ≡ OutOfMemory) }
{
    let mut fields: Vec<Option<(u32, u16)>> = Vec::new(alloc);
    for brand in 0..parents.len() {
        fields.push(numbered(parents[brand]))?;
    }
    Ok(fields)
}

/// The tables of lists that meet the twelve rules, by their tables of names and of parents.
pub(crate) fn field_tables(
    alloc: Global,
    lists: &Lists,
    by_name: Vec<Vec<u16>>,
    parents: &[Option<(usize, usize)>],
) -> Result<FieldTables>
    requires accepted { IsAccepted (lists_seen lists.now) }
    requires names { AreNameTables (lists_seen lists.now) by_name.items }
    requires parents { IsParentTable (lists_seen lists.now) parents.now }
    ensures tables { IfOk result (AreTables (lists_seen lists.now)) }
    ensures refused { IfErr result (λ e. e.kind ≡ OutOfMemory) }
{
    let members = member_tables(alloc, lists)?;
    let non_union = non_union_tables(alloc, lists)?;
    let plans = plan_tables(alloc, lists)?;
    let group_fields = group_fields(alloc, lists, parents)?;
    Ok(FieldTables {
        by_name,
        members,
        non_union,
        plans,
        group_fields,
        empty: EmptyRecords::new(alloc),
    })
}
