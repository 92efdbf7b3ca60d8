//! Rule 8: each group stands under one field, has its parent's section sizes, and stands in a struct.
ghost use Rattle.std.specs.Prelude.{true, false, ◌≡◌, ◌<◌, ◌↔◌, IsTrue, IfOk, IfErr, length, get_or, slice_get, MatchResult};
ghost use Rattle.std.specs.Option.{option_flatten};
ghost use Rattle.capnp_device.specs.declared.error.ErrorKind.TheVariants.{OutOfMemory};
ghost use Rattle.capnp_schema.specs.Schema.{node_of};
ghost use Rattle.capnp_schema.specs.Entries.{lists_seen};
ghost use Rattle.capnp_schema.specs.Accepted.{GroupStands, HaveSameSizes, IsGroupBrand, Rule1, Rule7, Rule8, StandsInStruct};
ghost use Rattle.capnp_schema.specs.Broken.{IsRefusalOf};
ghost use Rattle.capnp_schema.specs.Steps.Checking.Parents.{group_target, TargetsAreGroups, HasNoParents, IsParentTable, AreKnown};

use crate::check::refusal::{WHOLE, refusal};
use crate::check::unions::no_marks;
use crate::layers::struct_brand;
use crate::lists::Lists;
use crate::record::FieldKind;
use capnp_wire::error::{Result, SchemaTable};
use std::alloc::Global;

/// How many brands there are.
pub(crate) fn brand_count(lists: &Lists) -> usize
    ensures { result ≡ length (lists_seen lists.now).brands }
{
    lists.brands.len()
}

/// The brand that a group field names, nothing for a slot or where the type is no struct type.
#[tactic(auto, using(crate::specs::Facts::Layers::seen_which))]
pub(crate) fn group_target(lists: &Lists, brand: usize, field: usize) -> Option<usize>
    ensures { result ≡ group_target (lists_seen lists.now) brand field }
{
    let Some(typed) = lists.field_at(brand, field) else {
        return None;
    };
    match typed.field.kind {
        FieldKind::Slot { .. } => None,
        FieldKind::Group { .. } => match struct_brand(typed.field_type.which()) {
            Some(group) => Some(group as usize),
            None => None,
        },
    }
}

/// Whether there is a brand, of a node that is marked as a group.
#[tactic(auto, using(crate::proofs::FoundEntries::found_node, crate::proofs::GroupTargets::node_missing))]
pub(crate) fn is_group(lists: &Lists, brand: usize) -> bool
    ensures { result ≡ (node_of (lists_seen lists.now) brand).is_group }
{
    match lists.node_of(brand) {
        Some(node) => node.body.is_group,
        None => false,
    }
}

/// The words of a brand's data section.
fn data_words(lists: &Lists, brand: usize) -> u16
    requires { brand < length (lists_seen lists.now).brands }
    ensures { result ≡ (node_of (lists_seen lists.now) brand).data_word_count }
{
    match lists.node_of(brand) {
        Some(node) => node.body.data_word_count,
        None => 0,
    }
}

/// The pointers of a brand's pointer section.
fn pointers(lists: &Lists, brand: usize) -> u16
    requires { brand < length (lists_seen lists.now).brands }
    ensures { result ≡ (node_of (lists_seen lists.now) brand).pointer_count }
{
    match lists.node_of(brand) {
        Some(node) => node.body.pointer_count,
        None => 0,
    }
}

/// Whether two brands have sections of the same sizes.
fn has_same_sizes(lists: &Lists, a: usize, b: usize) -> bool
    requires a_in { a < length (lists_seen lists.now).brands }
    requires b_in { b < length (lists_seen lists.now).brands }
    ensures { IsTrue result ↔ HaveSameSizes (lists_seen lists.now) a b }
{
    data_words(lists, a) == data_words(lists, b) && pointers(lists, a) == pointers(lists, b)
}

/// A table that names no parent yet.
fn no_parents(alloc: Global, count: usize) -> Result<Vec<Option<(usize, usize)>>>
    ensures ok { IfOk result (λ table. HasNoParents table.items count) }
    ensures refused { IfErr result (λ e. e.kind ≡ OutOfMemory) }
{
    let mut table: Vec<Option<(usize, usize)>> = Vec::new(alloc);
    for _ in 0..count {
        table.push(None)?;
    }
    Ok(table)
}

/// At each brand the brand and the index of the group field that names it. A group that two fields name is refused.
pub(crate) fn parent_table(alloc: Global, lists: &Lists) -> Result<Vec<Option<(usize, usize)>>>
    requires { TargetsAreGroups (lists_seen lists.now) }
    ensures { MatchResult result (λ table. IsParentTable (lists_seen lists.now) table.items)
        (IsRefusalOf (lists_seen lists.now)) }
{
    let mut table = no_parents(alloc, brand_count(lists))?;
    for brand in 0..brand_count(lists) {
        for field in 0..lists.field_count(brand) {
            if let Some(group) = group_target(lists, brand, field) {
                if table[group].is_some() {
                    return Err(refusal(8, SchemaTable::Brand, group, WHOLE));
                }
                table[group] = Some((brand, field));
            }
        }
    }
    Ok(table)
}

/// The group field that names a brand.
fn parent_at(parents: &[Option<(usize, usize)>], group: usize) -> Option<(usize, usize)>
    ensures { result ≡ option_flatten (slice_get parents.now group) }
{
    match parents.get(group) {
        Some(parent) => *parent,
        None => None,
    }
}

/// Whether a brand is marked.
fn is_known(known: &[bool], brand: usize) -> bool
    ensures { result ≡ get_or known.now brand false }
{
    brand < known.len() && known[brand]
}

/// Whether the parents of a group lead to a struct. They are followed to the first that is known to stand in one, and
/// no more of them than there are brands.
fn stands_in_struct(
    lists: &Lists,
    parents: &[Option<(usize, usize)>],
    known: &[bool],
    group: usize,
) -> bool
    requires targets { TargetsAreGroups (lists_seen lists.now) }
    requires table { IsParentTable (lists_seen lists.now) parents.now }
    requires known { AreKnown (lists_seen lists.now) known.now }
    requires within { group < length (lists_seen lists.now).brands }
    ensures { IsTrue result ↔ StandsInStruct (lists_seen lists.now) group }
{
    let mut at = group;
    for _ in 0..lists.brands.len() + 1 {
        if !is_group(lists, at) {
            return true;
        }
        if is_known(known, at) {
            return true;
        }
        match parent_at(parents, at) {
            Some((brand, _)) => at = brand,
            None => return false,
        }
    }
    false
}

/// Marks a group that stands in a struct, and its parents up to one that is marked, or is no group.
fn mark_way(lists: &Lists, parents: &[Option<(usize, usize)>], known: &mut Vec<bool>, group: usize)
    requires targets { TargetsAreGroups (lists_seen lists.now) }
    requires table { IsParentTable (lists_seen lists.now) parents.now }
    requires known { AreKnown (lists_seen lists.now) known.old.items }
    requires stands { IsGroupBrand (lists_seen lists.now) group → StandsInStruct (lists_seen lists.now) group }
    requires within { group < length (lists_seen lists.now).brands }
    ensures { AreKnown (lists_seen lists.now) known.new.items }
{
    let mut at = group;
    for _ in 0..lists.brands.len() {
        if !is_group(lists, at) {
            return;
        }
        if is_known(known, at) {
            return;
        }
        known[at] = true;
        match parent_at(parents, at) {
            Some((parent, _)) => at = parent,
            None => return,
        }
    }
}

/// Whether a group has one parent, with sections of its own sizes, and stands in a struct.
fn group_stands(
    lists: &Lists,
    parents: &[Option<(usize, usize)>],
    known: &[bool],
    group: usize,
) -> bool
    requires targets { TargetsAreGroups (lists_seen lists.now) }
    requires table { IsParentTable (lists_seen lists.now) parents.now }
    requires known { AreKnown (lists_seen lists.now) known.now }
    requires within { group < length (lists_seen lists.now).brands }
    ensures yes { result ≡ true → GroupStands (lists_seen lists.now) group }
    ensures no { result ≡ false → GroupStands (lists_seen lists.now) group → ⊥ }
{
    if !is_group(lists, group) {
        return true;
    }
    let Some((brand, _)) = parent_at(parents, group) else {
        return false;
    };
    if !has_same_sizes(lists, group, brand) {
        return false;
    }
    stands_in_struct(lists, parents, known, group)
}

/// Decides rule 8: a group brand is named by exactly one group field, has its parent's section sizes, and its chain of
/// parents ends at a struct that is no group. It takes one pass over the fields, and each group is walked past once by
/// what it leads to. It answers at each brand the brand and the index of the group field that names it. It is refused
/// where memory is short, or at a group for which the rule is broken.
pub(crate) fn check_groups(alloc: Global, lists: &Lists) -> Result<Vec<Option<(usize, usize)>>>
    requires rule1 { Rule1 (lists_seen lists.now) }
    requires rule7 { Rule7 (lists_seen lists.now) }
    ensures { MatchResult result
        (λ parents. Rule8 (lists_seen lists.now) × IsParentTable (lists_seen lists.now) parents.items)
        (IsRefusalOf (lists_seen lists.now)) }
{
    let parents = parent_table(alloc, lists)?;
    let mut known = no_marks(alloc, brand_count(lists))?;
    for group in 0..brand_count(lists) {
        if !group_stands(lists, &parents, &known, group) {
            return Err(refusal(8, SchemaTable::Brand, group, WHOLE));
        }
        mark_way(lists, &parents, &mut known, group);
    }
    Ok(parents)
}
