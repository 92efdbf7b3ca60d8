//! For rules 11 and 12: marks of the spots that a tour of a struct's fields has named, and the times that are closed to
//! what comes.
ghost use Rattle.std.specs.Prelude.{true, false, ◌≡◌, ◌++◌, ◌∷◌, [], ℕ, ◌≤◌, ◌+◌, ◌^◌, length, get_or, IfOk, OnOk, IfErr};
ghost use Rattle.capnp_device.specs.declared.error.ErrorKind.TheVariants.{OutOfMemory};
ghost use Rattle.capnp_schema.specs.Steps.Checking.Levels.{AreOpen, AreInOrder, AreClaimed, IsClaimed};

use crate::check::spans::{Span, Spot};
use capnp_wire::error::Result;

/// When each data bit and each pointer was named last; 0 for never.
#[derive(Drop)]
pub(crate) struct Claims {
    pub(crate) bits: Vec<u32>,
    pub(crate) pointers: Vec<u32>,
}

/// A struct or group whose fields are gone through.
#[derive(Clone, Copy)]
pub(crate) struct Level {
    /// Its brand.
    pub(crate) brand: usize,
    /// How many steps are past: one for each field that takes the non-union ones, then one for each that takes the
    /// members.
    pub(crate) steps: usize,
    /// The time of its first claim.
    pub(crate) start: u32,
    /// The time after its last non-union claim.
    pub(crate) non_union_end: u32,
}

/// A spot of a brand's struct where two of its fields may meet, or one its discriminant.
#[derive(Clone, Copy)]
pub(crate) struct Meeting {
    pub(crate) brand: usize,
    pub(crate) spot: Spot,
}

/// The brand of a level in whose non-union part a time lies.
fn closing_brand(below: &[Level], top: Level, time: u32) -> Option<usize> {
    if top.start <= time && time < top.non_union_end {
        return Some(top.brand);
    }
    for level in below {
        if level.start <= time && time < level.non_union_end {
            return Some(level.brand);
        }
    }
    None
}

/// Whether a time lies in the non-union part of none of the levels.
fn is_open_below(below: &[Level], time: u32) -> bool
    requires { AreInOrder below.now }
    ensures { result ≡ true → AreOpen below.now time }
{
    let mut low = 0;
    let mut high = below.len();
    while low < high {
        let middle = low + (high - low) / 2;
        let level = below[middle];
        if time < level.start {
            high = middle;
        } else if time < level.non_union_end {
            return false;
        } else {
            low = middle + 1;
        }
    }
    true
}

/// Whether a time lies in the non-union part of none of the levels, nor of the one above them.
fn is_open(below: &[Level], top: Level, time: u32) -> bool
    requires { AreInOrder (below.now ++ top ∷ []) }
    ensures { result ≡ true → AreOpen (below.now ++ top ∷ []) time }
{
    if time >= top.start {
        return time >= top.non_union_end;
    }
    is_open_below(below, time)
}

/// Adds marks that were never set, up to an end.
#[tactic(auto, using(crate::proofs::Checking::LevelTimes::push_zero))]
fn lengthen(marks: &mut Vec<u32>, end: usize) -> Result<()>
    ensures same { OnOk result ((i : ℕ) → get_or marks.new.items i 0 ≡ get_or marks.old.items i 0) }
    ensures long { OnOk result (end ≤ length marks.new.items) }
    ensures refused { IfErr result (λ e. e.kind ≡ OutOfMemory) }
{
    for _ in marks.len()..end {
        marks.push(0)?;
    }
    Ok(())
}

/// Sets so many marks to the time; false where one of them lies in the non-union part of a level.
fn claim_marks(
    marks: &mut [u32],
    first: usize,
    count: usize,
    now: u32,
    below: &[Level],
    top: Level,
) -> bool
    requires order { AreInOrder (below.now ++ top ∷ []) }
    requires within { first + count ≤ length marks.old }
    ensures { result ≡ true → AreClaimed (below.now ++ top ∷ []) now first count marks.old marks.new }
{
    for i in first..first + count {
        if !is_open(below, top, marks[i]) {
            return false;
        }
        marks[i] = now;
    }
    true
}

/// Sets so many marks to the time, lengthened first where they must be. No marks lengthen nothing, wherever they
/// stand: a node without a union can give any offset of a discriminant.
fn claim_range(
    marks: &mut Vec<u32>,
    first: usize,
    count: usize,
    now: u32,
    below: &[Level],
    top: Level,
) -> Result<bool>
    requires order { AreInOrder (below.now ++ top ∷ []) }
    requires small { first + count ≤ 2 ^ 62 }
    ensures claimed { IfOk result (λ yes. yes ≡ true
        → AreClaimed (below.now ++ top ∷ []) now first count marks.old.items marks.new.items) }
    ensures refused { IfErr result (λ e. e.kind ≡ OutOfMemory) }
{
    if count == 0 {
        return Ok(true);
    }
    lengthen(marks, first + count)?;
    Ok(claim_marks(marks, first, count, now, below, top))
}

/// A meeting at a spot, by when it was named last.
fn meeting_at(marks: &[u32], i: usize, spot: Spot, below: &[Level], top: Level) -> Option<Meeting> {
    let time = *marks.get(i)?;
    let brand = closing_brand(below, top, time)?;
    Some(Meeting { brand, spot })
}

/// A meeting at one of the first 64 of so many bits.
fn meeting_bit(
    marks: &[u32],
    first: u64,
    count: u64,
    below: &[Level],
    top: Level,
) -> Option<Meeting> {
    for i in 0..count.min(64) {
        let bit = first.wrapping_add(i);
        let met = meeting_at(marks, bit as usize, Spot::Bit(bit), below, top);
        if met.is_some() {
            return met;
        }
    }
    None
}

impl Claims {
    /// Claims the spots of a span; false where one of them was claimed in the non-union part of a level.
    pub(crate) fn claim(
        &mut self,
        span: Span,
        now: u32,
        below: &[Level],
        top: Level,
    ) -> Result<bool>
        requires { AreInOrder (below.now ++ top ∷ []) }
        ensures claimed { IfOk result (λ yes. yes ≡ true
            → IsClaimed (below.now ++ top ∷ []) now span self.old self.new) }
        ensures refused { IfErr result (λ e. e.kind ≡ OutOfMemory) }
    {
        match span {
            Span::Data { first, count } => {
                if first >= 1 << 61 || count > 64 {
                    return Ok(false);
                }
                claim_range(
                    &mut self.bits,
                    first as usize,
                    count as usize,
                    now,
                    below,
                    top,
                )
            }
            Span::Pointer(number) => {
                claim_range(&mut self.pointers, number as usize, 1, now, below, top)
            }
        }
    }

    /// A meeting in a span that could not be claimed. It is a hint: who takes it looks at what stands there.
    pub(crate) fn find_meeting(&self, span: Span, below: &[Level], top: Level) -> Option<Meeting> {
        match span {
            Span::Data { first, count } => meeting_bit(&self.bits, first, count, below, top),
            Span::Pointer(number) => {
                let spot = Spot::Pointer(number);
                meeting_at(&self.pointers, number as usize, spot, below, top)
            }
        }
    }
}
