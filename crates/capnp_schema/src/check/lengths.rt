//! Rule 2: each brand names a node; brands and enums have one type for each field and each annotation.
ghost use Rattle.std.specs.Prelude.{◌≡◌, ◌<◌, length, get_or, All, MatchResult};
ghost use Rattle.std.specs.Bool.{Decides};
ghost use Rattle.capnp_schema.specs.Schema.{seen_node, seen_brand, seen_enum};
ghost use Rattle.capnp_schema.specs.Entries.{lists_seen};
ghost use Rattle.capnp_schema.specs.Accepted.{BrandHasTypes, BrandStands, EnumHasTypes, Rule2, BrandsStand};
ghost use Rattle.capnp_schema.specs.Broken.{IsRefusalOf};
ghost use Rattle.capnp_schema.specs.Steps.Checking.Lengths.{annotation_counts, children_counts};

use crate::check::entries::Annotated;
use crate::check::refusal::{WHOLE, refusal};
use crate::lists::{Lists, entry_at};
use crate::record::{BrandRecord, EnumRecord, EnumerantRecord, FieldRecord, NodeRecord};
use capnp_base::introspect::Type;
use capnp_device::error::{Result, SchemaTable};

/// How many types a field's or enumerant's annotations have, none past the last.
#[tactic(auto, using(crate::proofs::Checking::Lengths::types_at))]
fn types_at(types: &[Vec<Type>], i: usize) -> usize
    ensures { result ≡ get_or (children_counts types.now) i 0 }
{
    match entry_at(types, i) {
        Some(child) => child.len(),
        None => 0,
    }
}

/// How many annotations a field or enumerant has, none past the last.
fn annotations_at<E: Annotated>(entries: &[E], i: usize) -> usize
    ensures { result ≡ get_or (annotation_counts E.seen E.annotations_of entries.now) i 0 }
{
    match entry_at(entries, i) {
        Some(entry) => entry.annotations().len(),
        None => 0,
    }
}

/// Whether each field's or enumerant's annotations have one type each.
fn have_types<E: Annotated>(types: &[Vec<Type>], entries: &[E]) -> bool
    ensures { Decides result (children_counts types.now ≡ annotation_counts E.seen E.annotations_of entries.now) }
{
    if types.len() != entries.len() {
        return false;
    }
    for i in 0..types.len() {
        if types_at(types, i) != annotations_at(entries, i) {
            return false;
        }
    }
    true
}

/// Whether a brand has one type for each field and each annotation of its node.
fn brand_has_types(node: &NodeRecord, brand: &BrandRecord) -> bool
    ensures { Decides result (BrandHasTypes (seen_node node.now) (seen_brand brand.now)) }
{
    if brand.field_types.len() != node.body.fields.len() {
        return false;
    }
    if brand.annotation_types.own.len() != node.annotations.len() {
        return false;
    }
    have_types::<FieldRecord>(&brand.annotation_types.children, &node.body.fields)
}

/// Whether an enum has one type for each annotation.
fn enum_has_types(entry: &EnumRecord) -> bool
    ensures { Decides result (EnumHasTypes (seen_enum entry.now)) }
{
    if entry.annotation_types.own.len() != entry.annotations.len() {
        return false;
    }
    have_types::<EnumerantRecord>(&entry.annotation_types.children, &entry.enumerants)
}

/// One brand: it names a node and has a type for each field and each annotation.
fn check_brand(lists: &Lists, brand: usize) -> Result<()>
    requires { brand < length (lists_seen lists.now).brands }
    ensures { MatchResult result (λ _. BrandStands (lists_seen lists.now) brand) (IsRefusalOf (lists_seen lists.now)) }
{
    let Some(record) = lists.brand_at(brand) else {
        return Ok(());
    };
    let Some(node) = lists.node_of(brand) else {
        return Err(refusal(2, SchemaTable::Brand, brand, WHOLE));
    };
    if !brand_has_types(node, record) {
        return Err(refusal(2, SchemaTable::Brand, brand, WHOLE));
    }
    Ok(())
}

fn check_brands(lists: &Lists) -> Result<()>
    ensures { MatchResult result (λ _. BrandsStand (lists_seen lists.now)) (IsRefusalOf (lists_seen lists.now)) }
{
    for brand in 0..lists.brands.len() {
        check_brand(lists, brand)?;
    }
    Ok(())
}

fn check_enums(lists: &Lists) -> Result<()>
    ensures { MatchResult result (λ _. All EnumHasTypes (lists_seen lists.now).enums)
        (IsRefusalOf (lists_seen lists.now)) }
{
    for e in 0..lists.enums.len() {
        let Some(record) = lists.enum_at(e) else {
            return Ok(());
        };
        if !enum_has_types(record) {
            return Err(refusal(2, SchemaTable::Enum, e, WHOLE));
        }
    }
    Ok(())
}

/// Each brand names a node; brands and enums have one type for each field, each annotation of their
/// own and each annotation of a field or enumerant.
pub(crate) fn check_lengths(lists: &Lists) -> Result<()>
    ensures { MatchResult result (λ _. Rule2 (lists_seen lists.now)) (IsRefusalOf (lists_seen lists.now)) }
{
    check_brands(lists)?;
    check_enums(lists)?;
    Ok(())
}
