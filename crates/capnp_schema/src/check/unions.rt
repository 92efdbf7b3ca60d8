//! Rules 9 and 10, of a struct's unnamed union: its members' discriminant values are all below the count, each once,
//! and its discriminant lies inside the data section.
ghost use Rattle.std.specs.Prelude.{ℕ, true, false, ◌≡◌, ◌≤◌, ◌<◌, length, map, get_or, replicate, slice_set, IfOk, MatchResult};
ghost use Rattle.std.specs.Bool.{Decides};
ghost use Rattle.capnp_schema.specs.Schema.{Node, seen_node, seen_field};
ghost use Rattle.capnp_schema.specs.Entries.{lists_seen};
ghost use Rattle.capnp_schema.specs.Accepted.{DiscriminantFits, HasEachMember, Rule9, Rule10};
ghost use Rattle.capnp_schema.specs.Broken.{IsRefusalOf};
ghost use Rattle.capnp_schema.specs.Steps.Checking.Marks.{Marked};

use crate::check::refusal::{WHOLE, refusal};
use crate::lists::Lists;
use crate::record::{FieldRecord, NodeRecord};
use capnp_device::error::{Result, SchemaTable};
use std::alloc::{AllocError, Global};

/// Whether the discriminant, if there is one, lies inside the data section.
fn is_discriminant_inside(node: &NodeRecord) -> bool
    ensures { Decides result (DiscriminantFits (seen_node node.now)) }
{
    node.body.discriminant_count == 0
        || 16 * (node.body.discriminant_offset as u64 + 1) <= 64 * node.body.data_word_count as u64
}

/// Each discriminant lies inside its struct's data section.
pub(crate) fn check_discriminants(lists: &Lists) -> Result<()>
    ensures { MatchResult result (λ _. Rule10 (lists_seen lists.now)) (IsRefusalOf (lists_seen lists.now)) }
{
    for n in 0..lists.nodes.len() {
        let Some(node) = lists.node_at(n) else {
            return Ok(());
        };
        if !is_discriminant_inside(node) {
            return Err(refusal(10, SchemaTable::Node, n, WHOLE));
        }
    }
    Ok(())
}

/// So many marks, none of them set.
pub(crate) fn no_marks(alloc: Global, count: usize) -> std::result::Result<Vec<bool>, AllocError>
    ensures { IfOk result (λ marks. marks.items ≡ replicate count false) }
{
    vec![in alloc; false; count]
}

/// Sets the mark of a discriminant value; false, and nothing is set, where there is none or it was
/// set before.
fn mark(marks: &mut [bool], value: usize) -> bool
    ensures free { result ≡ true → (value < length marks.old) × (get_or marks.old value false ≡ false)
        × (marks.new ≡ slice_set marks.old value true) }
    ensures taken { result ≡ false → get_or marks.old value false ≡ false → length marks.old ≤ value }
    ensures unchanged { result ≡ false → marks.new ≡ marks.old }
{
    if value >= marks.len() || marks[value] {
        return false;
    }
    marks[value] = true;
    true
}

/// Whether all marks are set.
pub(crate) fn all_set(marks: &[bool]) -> bool
    ensures yes { result ≡ true → (d : ℕ) → d < length marks.now → get_or marks.now d false ≡ true }
    ensures not_so { result ≡ false → (d : ℕ) × (d < length marks.now) × (get_or marks.now d false ≡ false) }
{
    for d in 0..marks.len() {
        if !marks[d] {
            return false;
        }
    }
    true
}

/// Sets the marks of the members' discriminant values; false where one has no mark, or two have
/// one.
fn mark_members(marks: &mut [bool], fields: &[FieldRecord]) -> bool
    requires { marks.old ≡ replicate (length marks.old) false }
    ensures yes { result ≡ true → (length marks.new ≡ length marks.old)
        × Marked (map seen_field fields.now) (length fields.now) marks.new }
    ensures not_so { result ≡ false → (n : Node) → n.fields ≡ map seen_field fields.now
        → n.discriminant_count ≡ length marks.old
        → HasEachMember n → ⊥ }
{
    for field in fields {
        if field.is_member() && !mark(marks, field.discriminant_value as usize) {
            return false;
        }
    }
    true
}

/// Whether the members' values are all marked, each once, and no value is left.
fn all_marked(marks: &mut [bool], node: &NodeRecord) -> bool
    requires unset { marks.old ≡ replicate (length marks.old) false }
    requires counted { length marks.old ≡ (seen_node node.now).discriminant_count }
    requires few { length marks.old ≤ 65535 }
    ensures { Decides result (HasEachMember (seen_node node.now)) }
{
    if !mark_members(marks, &node.body.fields) {
        return false;
    }
    all_set(marks)
}

/// Whether the members' discriminant values are all below the count, each once.
fn has_each_member(alloc: Global, node: &NodeRecord) -> std::result::Result<bool, AllocError>
    ensures { IfOk result (λ b. Decides b (HasEachMember (seen_node node.now))) }
{
    let mut marks = no_marks(alloc, node.body.discriminant_count as usize)?;
    Ok(all_marked(&mut marks, node))
}

/// Each struct's members have the discriminant values below its count, each once; also refused
/// where the allocator refuses the marks, one for each value of one struct.
pub(crate) fn check_unions(alloc: Global, lists: &Lists) -> Result<()>
    ensures { MatchResult result (λ _. Rule9 (lists_seen lists.now)) (IsRefusalOf (lists_seen lists.now)) }
{
    for n in 0..lists.nodes.len() {
        let Some(node) = lists.node_at(n) else {
            return Ok(());
        };
        if !has_each_member(alloc, node)? {
            return Err(refusal(9, SchemaTable::Node, n, WHOLE));
        }
    }
    Ok(())
}
