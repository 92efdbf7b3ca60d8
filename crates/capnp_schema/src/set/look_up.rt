//! What queries look up in a set. None takes memory, and each answers for every number.
ghost use Rattle.std.specs.Prelude.{◌≡◌, ◌<◌, ◌≤◌, ◌*◌, ◌^◌, [], length, map, slice_get, IfSome, MatchOption};
ghost use Rattle.std.specs.Option.{option_flatten, option_map, unwrap_or};
ghost use Rattle.capnp_schema.specs.Accepted.{IsAccepted, NamesEntries};
ghost use Rattle.capnp_schema.specs.Schema.{seen_field, field_at, fields_of, node_at, node_of};
ghost use Rattle.capnp_schema.specs.Discriminant.{discriminant_of};
ghost use Rattle.capnp_schema.specs.Entries.{lists_seen};
ghost use Rattle.capnp_schema.specs.Steps.Entries.{seen_typed};
ghost use Rattle.capnp_schema.specs.GroupFields.{group_field_of};
ghost use Rattle.capnp_schema.specs.GroupsDown.{IfGroup, LeadsToGroup};
ghost use Rattle.capnp_schema.specs.Names.{IsNameTable};
ghost use Rattle.capnp_schema.specs.Plan.{IsPlan, plan_of};
ghost use Rattle.capnp_schema.specs.Query.{AreMembers, field_named, member_of, non_union_fields, records_of};
ghost use Rattle.capnp_schema.specs.Tables.{table_at};
ghost use Rattle.capnp_schema.specs.Steps.Tables.{no_plan};
ghost use Rattle.capnp_schema.specs.Types.{seen_type};

use crate::check::names::fields_at;
use crate::lists::TypedField;
use crate::names::find_counted;
use crate::plan::{NO_PLAN, SlotPlan};
use crate::record::FieldRecord;
use crate::set::SchemaSet;

/// What is in a table of so many, nothing past the last table.
#[inline(always)]
fn table_at<T>(tables: &[Vec<T>], table: usize) -> &[T]
    ensures { result.now ≡ table_at tables.now table }
{
    match tables.get(table) {
        Some(entries) => entries,
        None => &[],
    }
}

/// The plan of a number, that of a slot without room past the end.
#[inline(always)]
fn plan_at(plans: &[SlotPlan], i: usize) -> &SlotPlan
    ensures { result.now ≡ unwrap_or (slice_get plans.now i) no_plan }
{
    match plans.get(i) {
        Some(plan) => plan,
        None => &NO_PLAN,
    }
}

/// The group field of a number.
#[inline(always)]
fn group_field_at(fields: &[Option<(u32, u16)>], i: usize) -> Option<(u32, u16)>
    ensures { result ≡ option_flatten (slice_get fields.now i) }
{
    match fields.get(i) {
        Some(field) => *field,
        None => None,
    }
}

/// The index of a number.
fn index_at(indices: &[u16], i: usize) -> Option<u16>
    ensures { result ≡ slice_get indices.now i }
{
    indices.get(i).copied()
}

impl SchemaSet {
    /// The number of a brand's node, whose fields are the brand's. None past the last brand, where no fields are.
    fn node_number(&self, brand: u32) -> Option<usize>
        ensures { MatchOption result (records_of (lists_seen self.now) brand ≡ [])
            (λ n. records_of (lists_seen self.now) brand ≡ (node_at (lists_seen self.now) n).fields) }
    {
        match self.lists.brand_at(brand as usize) {
            Some(record) => Some(record.node as usize),
            None => None,
        }
    }

    /// How many fields a brand has: those of its node, where there is the brand.
    pub(crate) fn field_count(&self, brand: u32) -> u16
        ensures is { result ≡ length (fields_of (lists_seen self.now) brand) }
        ensures whole { brand < length (lists_seen self.now).brands
            → result ≡ length (node_of (lists_seen self.now) brand).fields }
        ensures few { length (node_of (lists_seen self.now) brand).fields ≤ 65535 }
    {
        self.lists.field_count(brand as usize) as u16
    }

    /// A field of a brand.
    pub(crate) fn field_record(&self, brand: u32, field: u16) -> Option<TypedField<'_>>
        ensures is { option_map seen_typed result ≡ slice_get (fields_of (lists_seen self.now) brand) field }
        ensures named { IfSome result (λ f. NamesEntries (lists_seen self.now) (seen_type f.field_type.now)) }
    {
        self.lists.field_at(brand as usize, field as usize)
    }

    /// The fields of a node.
    fn node_fields(&self, node: usize) -> &[FieldRecord]
        ensures is { map seen_field result.now ≡ (node_at (lists_seen self.now) node).fields }
        ensures few { length result.now ≤ 65535 }
    {
        fields_at(&self.lists, node)
    }

    /// The indices of a node's fields, by name.
    fn node_names(&self, node: usize) -> &[u16]
        ensures { IsNameTable (node_at (lists_seen self.now) node).fields result.now }
    {
        table_at(&self.tables.by_name, node)
    }

    /// The indices of a node's members, by discriminant value.
    fn node_members(&self, node: usize) -> &[u16]
        ensures { AreMembers (node_at (lists_seen self.now) node).fields result.now }
    {
        table_at(&self.tables.members, node)
    }

    /// The indices of a node's non-union fields, by index.
    fn node_non_union(&self, node: usize) -> &[u16]
        ensures is { result.now ≡ non_union_fields (node_at (lists_seen self.now) node).fields }
        ensures few { length result.now ≤ 65535 }
    {
        table_at(&self.tables.non_union, node)
    }

    /// The index of the field of a name, and how many names were compared: none where there are no fields, and
    /// otherwise at least one and at most as many as their count has binary digits.
    pub(crate) fn find_field(&self, brand: u32, name: &str) -> (Option<u16>, u32)
        ensures found { result.0 ≡ field_named (records_of (lists_seen self.now) brand) name.now }
        ensures none { length (records_of (lists_seen self.now) brand) ≡ 0 → result.1 ≡ 0 }
        ensures some { 0 < length (records_of (lists_seen self.now) brand) → 0 < result.1 }
        ensures digits { 0 < length (records_of (lists_seen self.now) brand)
            → 2 ^ result.1 ≤ 2 * length (records_of (lists_seen self.now) brand) }
    {
        match self.node_number(brand) {
            Some(node) => find_counted(self.node_fields(node), self.node_names(node), name),
            None => (None, 0),
        }
    }

    /// The indices of the members, by discriminant value.
    pub(crate) fn members(&self, brand: u32) -> &[u16]
        ensures { AreMembers (records_of (lists_seen self.now) brand) result.now }
    {
        match self.node_number(brand) {
            Some(node) => self.node_members(node),
            None => &[],
        }
    }

    /// The index of the member of a discriminant value.
    pub(crate) fn find_member(&self, brand: u32, discriminant: u16) -> Option<u16>
        ensures { result ≡ member_of (records_of (lists_seen self.now) brand) discriminant }
    {
        index_at(self.members(brand), discriminant as usize)
    }

    /// The indices of the non-union fields, by index.
    pub(crate) fn non_union(&self, brand: u32) -> &[u16]
        ensures is { result.now ≡ non_union_fields (records_of (lists_seen self.now) brand) }
        ensures few { length result.now ≤ 65535 }
    {
        match self.node_number(brand) {
            Some(node) => self.node_non_union(node),
            None => &[],
        }
    }

    /// The plan of a field, that of a slot without room where there is no such field.
    #[tactic(auto, using(crate::proofs::LookUps::plan_here))]
    #[inline(always)]
    pub(crate) fn plan(&self, brand: u32, field: u16) -> &SlotPlan
        ensures is { result.now ≡ plan_of (lists_seen self.now) brand (field_at (lists_seen self.now) brand field) }
        ensures stands { field < length (fields_of (lists_seen self.now) brand)
            → IsPlan (lists_seen self.now) brand (field_at (lists_seen self.now) brand field) result.now }
        ensures group { field < length (fields_of (lists_seen self.now) brand)
            → IfGroup result.now.place (LeadsToGroup (lists_seen self.now) brand) }
    {
        plan_at(table_at(&self.tables.plans, brand as usize), field as usize)
    }

    /// The brand and the index of the group field that names a brand.
    #[inline(always)]
    pub(crate) fn group_field(&self, brand: u32) -> Option<(u32, u16)>
        ensures is { result ≡ group_field_of (lists_seen self.now) brand }
        ensures inside { IfSome result (λ p. (p.1 < length (fields_of (lists_seen self.now) p.0)) × (p.1 < 65535)) }
        ensures accepted { IsAccepted (lists_seen self.now) }
    {
        group_field_at(&self.tables.group_fields, brand as usize)
    }

    /// The first bit of a brand's discriminant, by the plan of the member of value 0, which each union has; none where
    /// there is no union.
    #[inline(always)]
    pub(crate) fn discriminant(&self, brand: u32) -> Option<u32>
        ensures { result ≡ discriminant_of (node_of (lists_seen self.now) brand) }
    {
        // The prover learns the set's invariant from this call.
        let _lists = self.accepted_lists();
        let Some(index) = self.find_member(brand, 0) else {
            return None;
        };
        match self.plan(brand, index).member {
            Some((first, _)) => Some(first),
            None => None,
        }
    }
}
