//! Footprints for rules 11 and 12: the data bits and pointers that fields name, as spans.
ghost use Rattle.std.specs.Prelude.{true, false, ◌≡◌, ◌<◌, length, OnOk, IfOk, IfErr};
ghost use Rattle.capnp_device.specs.declared.error.ErrorKind.TheVariants.{OutOfMemory};
ghost use Rattle.capnp_schema.specs.Types.{seen_type};
ghost use Rattle.capnp_schema.specs.Schema.{seen_node};
ghost use Rattle.capnp_schema.specs.Footprint.{Spot as SeenSpot, slot_names, discriminant_names};
ghost use Rattle.capnp_schema.specs.Entries.{lists_seen};
ghost use Rattle.capnp_schema.specs.Steps.Checking.Spans.{span_names, some_span, SpansMeet, AreSpansOf, seen_spot, AddsBrand, AddsBrands, AddsDepths, AddsField, AddsFields, AreSpansAt};

use crate::check::groups::brand_count;
use crate::layers::{is_pointer, struct_brand, width};
use crate::lists::Lists;
use crate::record::{FieldKind, NodeRecord};
use capnp_base::introspect::Type;
use capnp_wire::error::Result;
use std::alloc::Global;

/// Data bits that stand one after another, or a pointer.
#[derive(Clone, Copy)]
pub(crate) enum Span {
    /// The first bit and how many bits there are.
    Data { first: u64, count: u64 },
    /// The pointer of a number.
    Pointer(u32),
}

/// A data bit or a pointer.
#[derive(Clone, Copy)]
pub(crate) enum Spot {
    Bit(u64),
    Pointer(u32),
}

/// What a slot names.
#[tactic(auto, using(crate::specs::Facts::Layers::seen_which))]
pub(crate) fn slot_span(offset: u32, field_type: &Type) -> Span
    ensures { (p : SeenSpot) → span_names result p ≡ slot_names offset (seen_type field_type.now) p }
{
    let variant = field_type.which();
    if is_pointer(variant) {
        return Span::Pointer(offset);
    }
    let count = width(variant) as u64;
    Span::Data {
        first: offset as u64 * count,
        count,
    }
}

/// What the discriminant of a struct or group names: its 16 bits, none without a union.
pub(crate) fn discriminant_span(node: &NodeRecord) -> Span
    ensures { (p : SeenSpot) → span_names result p ≡ discriminant_names (seen_node node.now) p }
{
    Span::Data {
        first: 16 * node.body.discriminant_offset as u64,
        count: if node.body.discriminant_count > 0 {
            16
        } else {
            0
        },
    }
}

/// Whether a span holds a spot.
pub(crate) fn holds_spot(span: Span, spot: Spot) -> bool
    ensures { result ≡ true → span_names span (seen_spot spot) ≡ true }
{
    match (span, spot) {
        (Span::Data { first, count }, Spot::Bit(bit)) => first <= bit && bit - first < count,
        (Span::Pointer(number), Spot::Pointer(other)) => other == number,
        _ => false,
    }
}

/// Whether one of the spans holds a spot.
pub(crate) fn some_holds(spans: &[Span], spot: Spot) -> bool
    ensures { result ≡ true → some_span spans.now (seen_spot spot) ≡ true }
{
    for span in spans {
        if holds_spot(*span, spot) {
            return true;
        }
    }
    false
}

/// Whether two spans have a spot in common.
fn span_meets(a: Span, b: Span) -> bool
    ensures yes { result ≡ true → (p : SeenSpot) × (span_names a p ≡ true) × (span_names b p ≡ true) }
    ensures not_met { result ≡ false → (p : SeenSpot) → span_names a p ≡ true → span_names b p ≡ false }
{
    match (a, b) {
        (
            Span::Data { first, count },
            Span::Data {
                first: other,
                count: length,
            },
        ) => {
            count > 0
                && length > 0
                && (if first <= other {
                    other - first < count
                } else {
                    first - other < length
                })
        }
        (Span::Pointer(x), Span::Pointer(y)) => x == y,
        _ => false,
    }
}

/// Whether two lists of spans have a spot in common.
pub(crate) fn spans_meet(a: &[Span], b: &[Span]) -> bool
    ensures yes { result ≡ true → SpansMeet a.now b.now }
    ensures not_met { result ≡ false → (p : SeenSpot) → some_span a.now p ≡ true → some_span b.now p ≡ false }
{
    for x in a {
        for y in b {
            if span_meets(*x, *y) {
                return true;
            }
        }
    }
    false
}

/// Adds what a brand's discriminant and slots name, and to `below` the brands that its group fields name.
fn add_brand(lists: &Lists, brand: usize, below: &mut Vec<usize>, out: &mut Vec<Span>) -> Result<()>
    ensures added { OnOk result (AddsBrand (lists_seen lists.now) brand (out.old.items, below.old.items)
        (out.new.items, below.new.items)) }
    ensures refused { IfErr result (λ e. e.kind ≡ OutOfMemory) }
{
    add_fields(lists, brand, below, out)?;
    if let Some(node) = lists.node_of(brand) {
        out.push(discriminant_span(node))?;
    }
    Ok(())
}

/// Adds what the slots of a brand name, and to `below` the brands that its group fields name.
fn add_fields(
    lists: &Lists,
    brand: usize,
    below: &mut Vec<usize>,
    out: &mut Vec<Span>,
) -> Result<()>
    ensures added { OnOk result (AddsFields (lists_seen lists.now) brand (out.old.items, below.old.items)
        (out.new.items, below.new.items)) }
    ensures refused { IfErr result (λ e. e.kind ≡ OutOfMemory) }
{
    for i in 0..lists.field_count(brand) {
        add_field(lists, brand, i, below, out)?;
    }
    Ok(())
}

/// Adds what a slot names, or to `below` the brand that a group field names; nothing for a field that isn't there, or a
/// group field of a type that is no struct type.
#[tactic(auto, using(crate::specs::Facts::Layers::seen_which))]
fn add_field(
    lists: &Lists,
    brand: usize,
    field: usize,
    below: &mut Vec<usize>,
    out: &mut Vec<Span>,
) -> Result<()>
    ensures added { OnOk result (AddsField (lists_seen lists.now) brand field (out.old.items, below.old.items)
        (out.new.items, below.new.items)) }
    ensures refused { IfErr result (λ e. e.kind ≡ OutOfMemory) }
{
    let Some(typed) = lists.field_at(brand, field) else {
        return Ok(());
    };
    match typed.field.kind {
        FieldKind::Slot { offset, .. } => {
            out.push(slot_span(offset, typed.field_type))?;
            Ok(())
        }
        FieldKind::Group { .. } => match struct_brand(typed.field_type.which()) {
            Some(group) => {
                below.push(group as usize)?;
                Ok(())
            }
            None => Ok(()),
        },
    }
}

/// Adds what the discriminants and slots of brands name; answers the brands that their group fields name.
fn add_brands(
    alloc: Global,
    lists: &Lists,
    brands: &[usize],
    out: &mut Vec<Span>,
) -> Result<Vec<usize>>
    ensures added { IfOk result (λ below. AddsBrands (lists_seen lists.now) brands.now out.old.items
        (out.new.items, below.items)) }
    ensures refused { IfErr result (λ e. e.kind ≡ OutOfMemory) }
{
    let mut below = Vec::new(alloc);
    for i in 0..brands.len() {
        add_brand(lists, brands[i], &mut below, out)?;
    }
    Ok(below)
}

/// Adds what brands name, through their groups: these are gone through one depth after another.
fn add_depths(alloc: Global, lists: &Lists, brands: Vec<usize>, out: &mut Vec<Span>) -> Result<()>
    ensures added { OnOk result (AddsDepths (lists_seen lists.now) brands.items out.old.items out.new.items) }
    ensures refused { IfErr result (λ e. e.kind ≡ OutOfMemory) }
{
    let mut brands = brands;
    for depth in 0..brand_count(lists) {
        if brands.is_empty() {
            return Ok(());
        }
        let below = add_brands(alloc, lists, &brands, out)?;
        brands = below;
    }
    Ok(())
}

/// What a field of a brand names, through its groups.
fn field_spans(alloc: Global, lists: &Lists, brand: usize, field: usize) -> Result<Vec<Span>>
    ensures spans { IfOk result (λ spans. AreSpansAt (lists_seen lists.now) brand field spans.items) }
    ensures refused { IfErr result (λ e. e.kind ≡ OutOfMemory) }
{
    let mut spans = Vec::new(alloc);
    let mut brands = Vec::new(alloc);
    add_field(lists, brand, field, &mut brands, &mut spans)?;
    add_depths(alloc, lists, brands, &mut spans)?;
    Ok(spans)
}

/// What each field of a brand names, through its groups.
pub(crate) fn brand_spans(alloc: Global, lists: &Lists, brand: usize) -> Result<Vec<Vec<Span>>>
    ensures spans { IfOk result (λ spans. AreSpansOf (lists_seen lists.now) brand spans.items) }
    ensures refused { IfErr result (λ e. e.kind ≡ OutOfMemory) }
{
    let mut all = Vec::new(alloc);
    for field in 0..lists.field_count(brand) {
        all.push(field_spans(alloc, lists, brand, field)?)?;
    }
    Ok(all)
}
