//! Rules 11 and 12: a non-union field's footprint meets that of no other field of its struct, and the discriminant
//! meets none.
ghost use Rattle.std.specs.Prelude.{true, false, ◌<◌, ◌↔◌, IsTrue, IsFalse, length, MatchResult, IfSome, IfErr};
ghost use Rattle.capnp_schema.specs.Schema.{fields_of, field_at, is_member};
ghost use Rattle.capnp_schema.specs.Entries.{lists_seen};
ghost use Rattle.capnp_schema.specs.Accepted.{Rule3, Rule11, Rule12};
ghost use Rattle.capnp_schema.specs.Broken.{IsRefusalOf};
ghost use Rattle.capnp_schema.specs.Steps.Checking.Spans.{AreSpansOf, IsSpotNamedBy, seen_spot};
ghost use Rattle.capnp_schema.specs.Steps.Checking.Meetings.{IsMeetingField, IsDiscriminantField};

use crate::check::groups::brand_count;
use crate::check::refusal::refusal;
use crate::check::spans::{
    Span, Spot, brand_spans, discriminant_span, holds_spot, some_holds, spans_meet,
};
use crate::check::tour::{Step, tour_all};
use crate::lists::Lists;
use capnp_wire::error::{Result, SchemaTable};
use std::alloc::Global;

/// Whether a field is no member of its struct's union.
fn is_outside_union(lists: &Lists, brand: usize, field: usize) -> bool
    requires { field < length (fields_of (lists_seen lists.now) brand) }
    ensures { IsTrue result ↔ IsFalse (is_member (field_at (lists_seen lists.now) brand field).field) }
{
    match lists.field_at(brand, field) {
        Some(typed) => !typed.field.is_member(),
        None => false,
    }
}

/// A non-union field of a brand whose footprint meets that of another field.
fn meeting_field(lists: &Lists, brand: usize, spans: &[Vec<Span>]) -> Option<usize>
    requires within { brand < length (lists_seen lists.now).brands }
    requires spans { AreSpansOf (lists_seen lists.now) brand spans.now }
    ensures { IsMeetingField (lists_seen lists.now) brand result }
{
    for i in 0..spans.len() {
        if is_outside_union(lists, brand, i) {
            for j in 0..spans.len() {
                if i != j && spans_meet(&spans[i], &spans[j]) {
                    return Some(i);
                }
            }
        }
    }
    None
}

/// A field of a brand whose footprint meets the bits of the brand's discriminant.
fn discriminant_field(lists: &Lists, brand: usize, spans: &[Vec<Span>]) -> Option<usize>
    requires within { brand < length (lists_seen lists.now).brands }
    requires spans { AreSpansOf (lists_seen lists.now) brand spans.now }
    ensures { IsDiscriminantField (lists_seen lists.now) brand result }
{
    let Some(node) = lists.node_of(brand) else {
        return None;
    };
    let own = [discriminant_span(node)];
    for i in 0..spans.len() {
        if spans_meet(&own, &spans[i]) {
            return Some(i);
        }
    }
    None
}

/// A field of a brand other than one that names a spot, and is non-union where a non-union one is asked for.
fn named_at(
    lists: &Lists,
    brand: usize,
    spans: &[Vec<Span>],
    spot: Spot,
    other: usize,
    non_union: bool,
) -> Option<usize>
    requires { AreSpansOf (lists_seen lists.now) brand spans.now }
    ensures { IfSome result (IsSpotNamedBy (lists_seen lists.now) brand (seen_spot spot) other non_union) }
{
    for i in 0..spans.len() {
        if i != other && some_holds(&spans[i], spot) {
            if !non_union || is_outside_union(lists, brand, i) {
                return Some(i);
            }
        }
    }
    None
}

/// Refuses where two fields of a brand, of which one is non-union, meet at a spot, or one the brand's discriminant.
fn refuse_meeting(alloc: Global, lists: &Lists, brand: usize, spot: Spot) -> Result<()>
    requires rule3 { Rule3 (lists_seen lists.now) }
    requires within { brand < length (lists_seen lists.now).brands }
    ensures { IfErr result (IsRefusalOf (lists_seen lists.now)) }
{
    let spans = brand_spans(alloc, lists, brand)?;
    if let Some(field) = named_at(lists, brand, &spans, spot, usize::MAX, true) {
        if let Some(_second) = named_at(lists, brand, &spans, spot, field, false) {
            return Err(refusal(11, SchemaTable::Brand, brand, field as u16));
        }
    }
    let Some(node) = lists.node_of(brand) else {
        return Ok(());
    };
    if holds_spot(discriminant_span(node), spot) {
        if let Some(field) = named_at(lists, brand, &spans, spot, usize::MAX, false) {
            return Err(refusal(12, SchemaTable::Brand, brand, field as u16));
        }
    }
    Ok(())
}

/// Decides the same by the spans of each field of each brand: a refusal names a field that meets another.
fn find_meeting(alloc: Global, lists: &Lists) -> Result<()>
    requires { Rule3 (lists_seen lists.now) }
    ensures { MatchResult result (λ _. Rule11 (lists_seen lists.now) × Rule12 (lists_seen lists.now))
        (IsRefusalOf (lists_seen lists.now)) }
{
    for brand in 0..brand_count(lists) {
        let spans = brand_spans(alloc, lists, brand)?;
        if let Some(field) = meeting_field(lists, brand, &spans) {
            return Err(refusal(11, SchemaTable::Brand, brand, field as u16));
        }
        if let Some(field) = discriminant_field(lists, brand, &spans) {
            return Err(refusal(12, SchemaTable::Brand, brand, field as u16));
        }
    }
    Ok(())
}

/// Decides rules 11 and 12: a non-union field's footprint meets that of no other field of its struct, and no field's
/// meets the discriminant of its struct. One tour through each struct and its groups accepts, or finds where fields
/// meet. It says neither where there are more fields than 32 bits count; then all are compared. It is refused where
/// memory is short, or at a field for which one of the rules is broken.
pub(crate) fn check_footprints(alloc: Global, lists: &Lists) -> Result<()>
    requires { Rule3 (lists_seen lists.now) }
    ensures { MatchResult result (λ _. Rule11 (lists_seen lists.now) × Rule12 (lists_seen lists.now))
        (IsRefusalOf (lists_seen lists.now)) }
{
    match tour_all(alloc, lists)? {
        Step::Ended => return Ok(()),
        Step::Met(Some(meeting)) => {
            if meeting.brand < brand_count(lists) {
                refuse_meeting(alloc, lists, meeting.brand, meeting.spot)?;
            }
        }
        _ => {}
    }
    find_meeting(alloc, lists)
}
