//! Rules 11 and 12 by one tour of each struct through its groups.
ghost use Rattle.std.specs.Prelude.{true, false, ◌≡◌, [], ◌<◌, ◌≤◌, ◌+◌, ◌^◌, ◌-◌, cond, length, Some, IfOk, IfErr};
ghost use Rattle.capnp_device.specs.declared.error.ErrorKind.TheVariants.{OutOfMemory};
ghost use Rattle.capnp_schema.specs.Schema.{fields_of, is_member};
ghost use Rattle.capnp_schema.specs.Footprint.{Spot};
ghost use Rattle.capnp_schema.specs.Entries.{lists_seen};
ghost use Rattle.capnp_schema.specs.Accepted.{Rule11, Rule12};
ghost use Rattle.capnp_schema.specs.Steps.Checking.Parents.{group_target};
ghost use Rattle.capnp_schema.specs.Steps.Checking.Spans.{span_names};
ghost use Rattle.capnp_schema.specs.Steps.Checking.Levels.{member_at, Names, IsCurrent, IsCurrentGroup, TourStands, TourRests, StepStands};
ghost use Rattle.capnp_schema.specs.declared.check.tour.Step.TheVariants.{Ended};

use crate::check::claims::{Claims, Level, Meeting};
use crate::check::groups::{brand_count, group_target, is_group};
use crate::check::spans::{Span, discriminant_span, slot_span};
use crate::check::unions::{all_set, no_marks};
use crate::lists::Lists;
use crate::record::FieldKind;
use capnp_wire::error::Result;
use std::alloc::Global;

/// A tour through the groups of one struct after another.
#[derive(Drop)]
pub(crate) struct Tour {
    /// When each spot was named last, also by structs before.
    pub(crate) claims: Claims,
    /// The levels below the one that is gone through.
    pub(crate) below: Vec<Level>,
    /// Which brands are done.
    pub(crate) done: Vec<bool>,
    /// The time of the next claim.
    pub(crate) now: u32,
}

/// Where a step leads.
#[derive(Clone, Copy)]
pub(crate) enum Step {
    /// The tour goes on at a level.
    At(Level),
    /// All of the struct is past.
    Ended,
    /// Two fields meet, maybe there, or a number is too large for the tour.
    Met(Option<Meeting>),
}

/// Whether a field is a member of its struct's union.
fn is_member_at(lists: &Lists, brand: usize, field: usize) -> bool
    ensures { result ≡ member_at (lists_seen lists.now) brand field }
{
    match lists.field_at(brand, field) {
        Some(typed) => typed.field.is_member(),
        None => false,
    }
}

/// The level after one more step; all that a non-union field names is claimed before `now`.
fn advanced(level: Level, is_member: bool, now: u32) -> Level
    requires { level.steps < 2 ^ 62 }
    ensures { result ≡ record {
      brand = level.brand;
      steps = level.steps + 1;
      start = level.start;
      non_union_end = cond is_member level.non_union_end now;
    } }
{
    Level {
        brand: level.brand,
        steps: level.steps + 1,
        start: level.start,
        non_union_end: if is_member { level.non_union_end } else { now },
    }
}

/// A level that is past nothing but its discriminant, which was claimed at a time.
fn entered(brand: usize, now: u32) -> Level
    requires { now < 2 ^ 32 - 1 }
    ensures { result ≡ record { brand = brand; steps = 0; start = now; non_union_end = now + 1 } }
{
    Level {
        brand,
        steps: 0,
        start: now,
        non_union_end: now + 1,
    }
}

/// The tour goes into a level at a group, or at a struct with no levels below; what its discriminant names is claimed.
fn enter(lists: &Lists, tour: &mut Tour, top: Level, group: usize) -> Result<Step>
    requires stands { TourStands (lists_seen lists.now) tour.old top }
    requires entered { IsCurrentGroup (lists_seen lists.now) top group }
    ensures stands { IfOk result (λ step. StepStands (lists_seen lists.now) tour.new step) }
    ensures refused { IfErr result (λ e. e.kind ≡ OutOfMemory) }
{
    let Some(node) = lists.node_of(group) else {
        return Ok(Step::Met(None));
    };
    if tour.now >= u32::MAX - 1 {
        return Ok(Step::Met(None));
    }
    let now = tour.now;
    let span = discriminant_span(node);
    if !tour.claims.claim(span, now, &tour.below, top)? {
        return Ok(Step::Met(tour.claims.find_meeting(span, &tour.below, top)));
    }
    tour.below.push(top)?;
    tour.now = now + 1;
    Ok(Step::At(entered(group, now)))
}

/// The tour goes past a slot, whose spots are claimed.
fn take_slot(lists: &Lists, tour: &mut Tour, top: Level, field: usize, span: Span) -> Result<Step>
    requires stands { TourStands (lists_seen lists.now) tour.old top }
    requires current { IsCurrent (lists_seen lists.now) top.brand top.steps field }
    requires names { (p : Spot) → Names (lists_seen lists.now) top.brand field p → span_names span p ≡ true }
    requires small { top.steps < 2 ^ 62 }
    ensures stands { IfOk result (λ step. StepStands (lists_seen lists.now) tour.new step) }
    ensures refused { IfErr result (λ e. e.kind ≡ OutOfMemory) }
{
    if tour.now >= u32::MAX - 1 {
        return Ok(Step::Met(None));
    }
    let now = tour.now;
    if !tour.claims.claim(span, now, &tour.below, top)? {
        return Ok(Step::Met(tour.claims.find_meeting(span, &tour.below, top)));
    }
    tour.now = now + 1;
    Ok(Step::At(advanced(top, is_member_at(lists, top.brand, field), now + 1)))
}

/// The tour goes past a slot or into a group.
fn take_field(lists: &Lists, tour: &mut Tour, top: Level, field: usize) -> Result<Step>
    requires stands { TourStands (lists_seen lists.now) tour.old top }
    requires current { IsCurrent (lists_seen lists.now) top.brand top.steps field }
    requires small { top.steps < 2 ^ 62 }
    ensures stands { IfOk result (λ step. StepStands (lists_seen lists.now) tour.new step) }
    ensures refused { IfErr result (λ e. e.kind ≡ OutOfMemory) }
{
    if let Some(group) = group_target(lists, top.brand, field) {
        return enter(lists, tour, top, group);
    }
    let Some(typed) = lists.field_at(top.brand, field) else {
        return Ok(Step::Met(None));
    };
    match typed.field.kind {
        FieldKind::Slot { offset, .. } => {
            take_slot(lists, tour, top, field, slot_span(offset, typed.field_type))
        }
        FieldKind::Group { .. } => Ok(Step::Met(None)),
    }
}

/// The tour leaves a level that is past all its fields.
fn leave(lists: &Lists, tour: &mut Tour, top: Level) -> Step
    requires stands { TourStands (lists_seen lists.now) tour.old top }
    requires past { length (fields_of (lists_seen lists.now) top.brand) + length
        (fields_of (lists_seen lists.now) top.brand) ≤ top.steps }
    ensures { StepStands (lists_seen lists.now) tour.new result }
{
    if top.brand < tour.done.len() {
        tour.done[top.brand] = true;
    }
    match tour.below.pop() {
        Some(level) => {
            if level.steps >= 1 << 61 {
                return Step::Met(None);
            }
            let is_member = level.steps >= lists.field_count(level.brand);
            Step::At(advanced(level, is_member, tour.now))
        }
        None => Step::Ended,
    }
}

/// The tour starts at a struct.
fn start(lists: &Lists, tour: &mut Tour, brand: usize) -> Result<Step>
    requires { TourRests (lists_seen lists.now) tour.old }
    ensures stands { IfOk result (λ step. StepStands (lists_seen lists.now) tour.new step) }
    ensures refused { IfErr result (λ e. e.kind ≡ OutOfMemory) }
{
    let Some(node) = lists.node_of(brand) else {
        return Ok(Step::Met(None));
    };
    if tour.now >= u32::MAX - 1 {
        return Ok(Step::Met(None));
    }
    let now = tour.now;
    let nowhere = Level {
        brand,
        steps: 0,
        start: now,
        non_union_end: now,
    };
    let below: [Level; 0] = [];
    if !tour
        .claims
        .claim(discriminant_span(node), now, &below, nowhere)?
    {
        return Ok(Step::Met(None));
    }
    tour.now = now + 1;
    Ok(Step::At(entered(brand, now)))
}

/// One step of the tour, past a field that is not taken now, past a slot, into a group or out of one.
fn take_step(lists: &Lists, tour: &mut Tour, top: Level) -> Result<Step>
    requires { TourStands (lists_seen lists.now) tour.old top }
    ensures stands { IfOk result (λ step. StepStands (lists_seen lists.now) tour.new step) }
    ensures refused { IfErr result (λ e. e.kind ≡ OutOfMemory) }
{
    if top.steps >= 1 << 61 {
        return Ok(Step::Met(None));
    }
    let count = lists.field_count(top.brand);
    if top.steps < count {
        if is_member_at(lists, top.brand, top.steps) {
            return Ok(Step::At(advanced(top, true, tour.now)));
        }
        return take_field(lists, tour, top, top.steps);
    }
    let field = top.steps - count;
    if field >= count {
        return Ok(leave(lists, tour, top));
    }
    if is_member_at(lists, top.brand, field) {
        return take_field(lists, tour, top, field);
    }
    Ok(Step::At(advanced(top, true, tour.now)))
}

/// Goes through a struct and its groups to their end, or to where two fields meet.
fn tour_struct(lists: &Lists, tour: &mut Tour, brand: usize) -> Result<Step>
    requires { TourRests (lists_seen lists.now) tour.old }
    ensures stands { IfOk result (λ step. step ≡ Ended → TourRests (lists_seen lists.now) tour.new) }
    ensures refused { IfErr result (λ e. e.kind ≡ OutOfMemory) }
{
    let mut step = start(lists, tour, brand)?;
    for _ in 0..u32::MAX {
        let Step::At(top) = step else {
            return Ok(step);
        };
        let next = take_step(lists, tour, top)?;
        step = next;
    }
    Ok(step)
}

/// A tour that has gone through nothing.
fn no_tour(alloc: Global, lists: &Lists) -> Result<Tour>
    ensures stands { IfOk result (λ tour. TourRests (lists_seen lists.now) tour) }
    ensures refused { IfErr result (λ e. e.kind ≡ OutOfMemory) }
{
    Ok(Tour {
        claims: Claims {
            bits: Vec::new(alloc),
            pointers: Vec::new(alloc),
        },
        below: Vec::new(alloc),
        done: no_marks(alloc, brand_count(lists))?,
        now: 1,
    })
}

/// Goes once through each struct and its groups. Where it ends, no non-union field meets another field of its struct,
/// and no discriminant a field; otherwise it may say where two meet, and says nothing of sets where a group stands in
/// no struct.
pub(crate) fn tour_all(alloc: Global, lists: &Lists) -> Result<Step>
    ensures apart { IfOk result (λ step. step ≡ Ended → Rule11 (lists_seen lists.now) × Rule12 (lists_seen lists.now)) }
    ensures refused { IfErr result (λ e. e.kind ≡ OutOfMemory) }
{
    let mut tour = no_tour(alloc, lists)?;
    for brand in 0..brand_count(lists) {
        if !is_group(lists, brand) {
            match tour_struct(lists, &mut tour, brand)? {
                Step::Ended => {}
                Step::Met(meeting) => return Ok(Step::Met(meeting)),
                Step::At(_) => return Ok(Step::Met(None)),
            }
        }
    }
    if all_set(&tour.done) {
        return Ok(Step::Ended);
    }
    Ok(Step::Met(None))
}
