//! Rules 1, 4, 5 and 7 of fields: a field's type names an existing entry, its slot lies inside its section, its default
//! is of its type's kind, and groups are named by group fields alone.
ghost use Rattle.std.specs.Prelude.{◌<◌, length, MatchResult};
ghost use Rattle.std.specs.Bool.{Decides};
ghost use Rattle.capnp_schema.specs.Types.{StructType, seen_type, seen_variant};
ghost use Rattle.capnp_schema.specs.Schema.{Value, Slot, Group, seen_node, seen_kind, seen_value, fields_of};
ghost use Rattle.capnp_schema.specs.Entries.{lists_seen};
ghost use Rattle.capnp_schema.specs.Accepted.{NamesEntries, LiesInside, IsDefaultOf, KindDefault, NamesNoGroup, GroupFits, Rule3};
ghost use Rattle.capnp_schema.specs.Broken.{IsRefusalOf};
ghost use Rattle.capnp_schema.specs.Steps.Checking.Fields.{FieldsStand, FieldStandsAt, FieldsStandIn};

use crate::check::groups::is_group;
use crate::check::refusal::refusal;
use crate::layers::{is_pointer, width};
use crate::lists::Lists;
use crate::record::{FieldKind, NodeRecord, ValueRecord};
use capnp_base::introspect::{Type, TypeVariant};
use capnp_device::error::{Result, SchemaTable};

/// Whether there is a brand, of this node.
fn brand_is(lists: &Lists, brand: u32, node: u32) -> bool
    ensures { Decides result (NamesEntries (lists_seen lists.now) (StructType brand node)) }
{
    match lists.brand_at(brand as usize) {
        Some(record) => record.node == node,
        None => false,
    }
}

/// Whether a type, or what its lists hold, names an existing entry of the right kind.
pub(crate) fn names_entry(lists: &Lists, of: &Type) -> bool
    ensures { Decides result (NamesEntries (lists_seen lists.now) (seen_type of.now)) }
{
    match of.innermost() {
        TypeVariant::Struct(schema) => brand_is(lists, schema.number, schema.generic),
        TypeVariant::Enum(schema) => (schema.number as usize) < lists.enums.len(),
        _ => true,
    }
}

/// Whether a slot lies inside its section.
#[tactic(auto, using(crate::specs::Facts::Layers::seen_which))]
fn is_inside(node: &NodeRecord, kind: &FieldKind, of: &Type) -> bool
    ensures { Decides result (LiesInside (seen_node node.now) (seen_kind kind.now) (seen_type of.now)) }
{
    match kind {
        FieldKind::Slot { offset, default: _ } => slot_is_inside(node, *offset, of.which()),
        FieldKind::Group { node: _ } => true,
    }
}

fn slot_is_inside(node: &NodeRecord, offset: u32, variant: TypeVariant) -> bool
    ensures { (default : Value) → Decides result
        (LiesInside (seen_node node.now) (Slot offset default) (seen_variant variant)) }
{
    let end = (offset as u64 + 1) * width(variant) as u64;
    end <= 64 * node.body.data_word_count as u64
        && (!is_pointer(variant) || offset < node.body.pointer_count as u32)
}

/// Whether a value is of a type's kind, or an untyped pointer for a pointer type.
fn is_default(value: &ValueRecord, variant: TypeVariant) -> bool
    ensures { Decides result (IsDefaultOf (seen_value value.now) (seen_variant variant)) }
{
    match (value, variant) {
        (ValueRecord::Void, TypeVariant::Void) => true,
        (ValueRecord::Bool(_), TypeVariant::Bool) => true,
        (ValueRecord::Int8(_), TypeVariant::Int8) => true,
        (ValueRecord::Int16(_), TypeVariant::Int16) => true,
        (ValueRecord::Int32(_), TypeVariant::Int32) => true,
        (ValueRecord::Int64(_), TypeVariant::Int64) => true,
        (ValueRecord::UInt8(_), TypeVariant::UInt8) => true,
        (ValueRecord::UInt16(_), TypeVariant::UInt16) => true,
        (ValueRecord::UInt32(_), TypeVariant::UInt32) => true,
        (ValueRecord::UInt64(_), TypeVariant::UInt64) => true,
        (ValueRecord::Enum(_), TypeVariant::Enum(_)) => true,
        (ValueRecord::Text(_), TypeVariant::Text) => true,
        (ValueRecord::Data(_), TypeVariant::Data) => true,
        (ValueRecord::Struct(_), TypeVariant::Struct(_)) => true,
        (ValueRecord::List(_), TypeVariant::List(_)) => true,
        (ValueRecord::AnyPointer(_), pointed) => is_pointer(pointed),
        _ => false,
    }
}

/// Whether a field's default is of its type's kind; a group has none.
#[tactic(auto, using(crate::specs::Facts::Layers::seen_which))]
fn has_default(kind: &FieldKind, of: &Type) -> bool
    ensures { Decides result (KindDefault IsDefaultOf (seen_kind kind.now) (seen_type of.now)) }
{
    match kind {
        FieldKind::Slot { offset: _, default } => is_default(default, of.which()),
        FieldKind::Group { node: _ } => true,
    }
}

/// Whether neither a type nor what its lists hold is a group.
fn names_no_group(lists: &Lists, of: &Type) -> bool
    ensures { Decides result (NamesNoGroup (lists_seen lists.now) (seen_type of.now)) }
{
    match of.innermost() {
        TypeVariant::Struct(schema) => !is_group(lists, schema.number as usize),
        _ => true,
    }
}

/// Whether a type is the struct of a group node.
fn is_group_type(lists: &Lists, node: u32, variant: TypeVariant) -> bool
    ensures { Decides result (GroupFits (lists_seen lists.now) (Group node) (seen_variant variant)) }
{
    match variant {
        TypeVariant::Struct(schema) => brand_is(lists, schema.number, node)
            && is_group(lists, schema.number as usize),
        _ => false,
    }
}

/// Whether groups are named by group fields alone, and each by the type of its node.
#[tactic(auto, using(crate::specs::Facts::Layers::seen_which))]
fn group_fits(lists: &Lists, kind: &FieldKind, of: &Type) -> bool
    ensures { Decides result (GroupFits (lists_seen lists.now) (seen_kind kind.now) (seen_type of.now)) }
{
    match kind {
        FieldKind::Slot { .. } => names_no_group(lists, of),
        FieldKind::Group { node } => is_group_type(lists, *node, of.which()),
    }
}

/// One field: the first of rules 1, 4, 5 and 7 that it breaks is refused.
fn check_field(lists: &Lists, brand: usize, i: usize) -> Result<()>
    requires rule3 { Rule3 (lists_seen lists.now) }
    requires brand_in { brand < length (lists_seen lists.now).brands }
    requires field_in { i < length (fields_of (lists_seen lists.now) brand) }
    ensures { MatchResult result (λ _. FieldStandsAt (lists_seen lists.now) brand i)
        (IsRefusalOf (lists_seen lists.now)) }
{
    let Some(node) = lists.node_of(brand) else {
        return Ok(());
    };
    let Some(typed) = lists.field_at(brand, i) else {
        return Ok(());
    };
    let place = i as u16;
    if !names_entry(lists, typed.field_type) {
        return Err(refusal(1, SchemaTable::Brand, brand, place));
    }
    if !is_inside(node, &typed.field.kind, typed.field_type) {
        return Err(refusal(4, SchemaTable::Brand, brand, place));
    }
    if !has_default(&typed.field.kind, typed.field_type) {
        return Err(refusal(5, SchemaTable::Brand, brand, place));
    }
    if !group_fits(lists, &typed.field.kind, typed.field_type) {
        return Err(refusal(7, SchemaTable::Brand, brand, place));
    }
    Ok(())
}

/// The fields of one brand.
fn check_fields_of(lists: &Lists, brand: usize) -> Result<()>
    requires rule3 { Rule3 (lists_seen lists.now) }
    requires brand_in { brand < length (lists_seen lists.now).brands }
    ensures { MatchResult result (λ _. FieldsStandIn (lists_seen lists.now) brand)
        (IsRefusalOf (lists_seen lists.now)) }
{
    for i in 0..lists.field_count(brand) {
        check_field(lists, brand, i)?;
    }
    Ok(())
}

/// Each field of each brand: its type names an existing entry, its slot lies inside its section,
/// its default is of its type's kind, and groups are named by group fields alone.
pub(crate) fn check_fields(lists: &Lists) -> Result<()>
    requires { Rule3 (lists_seen lists.now) }
    ensures { MatchResult result (λ _. FieldsStand (lists_seen lists.now)) (IsRefusalOf (lists_seen lists.now)) }
{
    for brand in 0..lists.brands.len() {
        check_fields_of(lists, brand)?;
    }
    Ok(())
}
