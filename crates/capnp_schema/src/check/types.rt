//! Rule 1 of the types of annotations: they name existing entries.
ghost use Rattle.std.specs.Prelude.{◌≤◌, length, map, MatchOption, MatchResult};
ghost use Rattle.std.specs.Bool.{Decides};
ghost use Rattle.capnp_schema.specs.Types.{seen_type};
ghost use Rattle.capnp_schema.specs.Schema.{Brand, Enum, seen_types};
ghost use Rattle.capnp_schema.specs.Entries.{lists_seen};
ghost use Rattle.capnp_schema.specs.Accepted.{AllName, BrandTypesName, EnumTypesName, Rule2, Rule3, TypesName};
ghost use Rattle.capnp_schema.specs.Broken.{IsRefusalOf};
ghost use Rattle.capnp_schema.specs.Steps.Checking.Types.{seen_children, IsUnnamed, TypesStand};
ghost use Rattle.capnp_schema.specs.Steps.Checking.Entry.{AllOrBroken};

use crate::check::fields::{check_fields, names_entry};
use crate::check::refusal::{WHOLE, refusal};
use crate::lists::{Lists, entry_at};
use crate::record::AnnotationTypes;
use capnp_base::introspect::Type;
use capnp_device::error::{Result, SchemaTable};

/// Whether all types name existing entries.
fn all_named(lists: &Lists, types: &[Type]) -> bool
    ensures { Decides result (AllName (lists_seen lists.now) (map seen_type types.now)) }
{
    for i in 0..types.len() {
        let Some(of) = entry_at(types, i) else {
            return true;
        };
        if !names_entry(lists, of) {
            return false;
        }
    }
    true
}

/// The first field or enumerant with an annotation whose type names no entry.
fn unnamed_child(lists: &Lists, children: &[Vec<Type>]) -> Option<u16>
    requires { length children.now ≤ 65535 }
    ensures { AllOrBroken (seen_children children.now) (AllName (lists_seen lists.now)) result }
{
    for i in 0..children.len() {
        let Some(types) = entry_at(children, i) else {
            return None;
        };
        if !all_named(lists, types) {
            return Some(i as u16);
        }
    }
    None
}

/// Where an annotation's type names no entry: a field or enumerant, or the whole entry.
fn unnamed(lists: &Lists, types: &AnnotationTypes) -> Option<u16>
    requires { length types.now.children.items ≤ 65535 }
    ensures { MatchOption result (TypesName (lists_seen lists.now) (seen_types types.now))
        (IsUnnamed (lists_seen lists.now) (seen_types types.now)) }
{
    if !all_named(lists, &types.own) {
        return Some(WHOLE);
    }
    unnamed_child(lists, &types.children)
}

/// The types of each brand's annotations.
fn check_brand_types(lists: &Lists) -> Result<()>
    requires rule2 { Rule2 (lists_seen lists.now) }
    requires rule3 { Rule3 (lists_seen lists.now) }
    ensures { MatchResult result (λ _. BrandTypesName (lists_seen lists.now)) (IsRefusalOf (lists_seen lists.now)) }
{
    for brand in 0..lists.brands.len() {
        let Some(entry) = lists.brand_at(brand) else {
            return Ok(());
        };
        if let Some(place) = unnamed(lists, &entry.annotation_types) {
            return Err(refusal(1, SchemaTable::Brand, brand, place));
        }
    }
    Ok(())
}

/// The types of each enum's annotations.
fn check_enum_types(lists: &Lists) -> Result<()>
    requires rule2 { Rule2 (lists_seen lists.now) }
    requires rule3 { Rule3 (lists_seen lists.now) }
    ensures { MatchResult result (λ _. EnumTypesName (lists_seen lists.now)) (IsRefusalOf (lists_seen lists.now)) }
{
    for e in 0..lists.enums.len() {
        let Some(entry) = lists.enum_at(e) else {
            return Ok(());
        };
        if let Some(place) = unnamed(lists, &entry.annotation_types) {
            return Err(refusal(1, SchemaTable::Enum, e, place));
        }
    }
    Ok(())
}

/// Each type names an existing entry; and each field's slot, default and group fit its type.
pub(crate) fn check_types(lists: &Lists) -> Result<()>
    requires rule2 { Rule2 (lists_seen lists.now) }
    requires rule3 { Rule3 (lists_seen lists.now) }
    ensures { MatchResult result (λ _. TypesStand (lists_seen lists.now)) (IsRefusalOf (lists_seen lists.now)) }
{
    check_fields(lists)?;
    check_brand_types(lists)?;
    check_enum_types(lists)?;
    Ok(())
}
