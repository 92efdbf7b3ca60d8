//! Intervals around a value that is counted in units, by numbers of 128 bits.
ghost use Rattle.std.specs.Prelude.{◌≡◌, ◌+◌, ◌*◌, ◌/◌, ◌%◌, ◌^◌, ◌<◌, ◌≤◌, ◌⊎◌, ℕ, IfSome, true, false};
ghost use Rattle.capnp_floats.specs.Shortest.{IsRounded, Lies, reaches};
ghost use Rattle.capnp_floats.specs.Steps.Counting.{CountsTens, IsCounted, IsReached, around_counted, in_tens, tenfold};

/// Whether a number is at least another, or more than it where an end does not belong.
#[inline(always)]
fn reaches(has_ends: bool, first: u128, second: u128) -> bool
    ensures { result ≡ reaches has_ends first second }
{
    if has_ends {
        first >= second
    } else {
        first > second
    }
}

/// A value in units: it is `digits` and `rest / one` of them. The interval's ends are `below / one` and `above / one` away.
#[derive(Clone, Copy)]
pub(crate) struct Counted {
    pub(crate) one: u128,
    pub(crate) digits: u64,
    pub(crate) rest: u128,
    pub(crate) below: u128,
    pub(crate) above: u128,
    pub(crate) has_ends: bool,
}

impl Counted {
    /// Whether the digits lie in the interval.
    #[inline(always)]
    fn is_down(&self) -> bool
        ensures { result ≡ reaches self.now.has_ends self.now.below self.now.rest }
    {
        reaches(self.has_ends, self.below, self.rest)
    }

    /// Whether the digits and one more lie in the interval.
    #[inline(always)]
    fn is_up(&self) -> bool
        requires { self.now.rest + self.now.above < 2 ^ 128 }
        ensures { result ≡ reaches self.now.has_ends (self.now.rest + self.now.above) self.now.one }
    {
        reaches(self.has_ends, self.rest + self.above, self.one)
    }

    /// Whether a natural lies in the interval.
    #[inline(always)]
    pub(crate) fn is_reached(&self) -> bool
        requires { self.now.rest + self.now.above < 2 ^ 128 }
        ensures yes { result ≡ true → IsReached self.now }
        ensures down { result ≡ false → reaches self.now.has_ends self.now.below self.now.rest ≡ false }
        ensures up { result ≡ false → reaches self.now.has_ends (self.now.rest + self.now.above) self.now.one ≡ false }
    {
        if self.is_down() {
            return true;
        }
        self.is_up()
    }

    /// The value in units of ten.
    #[inline(always)]
    fn coarser(&self) -> Counted
        requires counted { IsCounted self.now }
        requires room { self.now.one < 2 ^ 124 }
        ensures { result ≡ tenfold self.now }
    {
        Counted {
            one: 10 * self.one,
            digits: self.digits / 10,
            rest: (self.digits % 10) as u128 * self.one + self.rest,
            below: self.below,
            above: self.above,
            has_ends: self.has_ends,
        }
    }

    /// Counts in units of ten, as long as one of their multiples lies in the interval, and answers how often. None where
    /// that has no room.
    fn coarsen(&mut self) -> Option<u32>
        requires counted { IsCounted self.old }
        requires reached { IsReached self.old }
        ensures counted { IfSome result (λ tens. IsCounted self.new) }
        ensures reached { IfSome result (λ tens. IsReached self.new) }
        ensures coarse { IfSome result (λ tens. (n : ℕ) → Lies (around_counted self.new) (10 * n) → ⊥) }
        ensures tens { IfSome result (λ tens. CountsTens self.old self.new tens) }
        ensures few { IfSome result (λ tens. tens < 40) }
    {
        'growing: for tens in 0..40 {
            if self.one >= 21267647932558653966460912964485513216 {
                return None;
            }
            let next = self.coarser();
            if !next.is_reached() {
                return Some(tens);
            }
            *self = next;
        }
        None
    }

    /// The digits, or these and one more, whichever is nearer to the value and lies in the interval.
    fn rounded(&self) -> u64
        requires counted { IsCounted self.now }
        requires reached { IsReached self.now }
        requires coarse { (n : ℕ) → Lies (around_counted self.now) (10 * n) → ⊥ }
        ensures { IsRounded (around_counted self.now) result }
    {
        if !self.is_up() {
            return self.digits;
        }
        if !self.is_down() {
            return self.digits + 1;
        }
        let other = self.one - self.rest;
        if self.rest < other {
            return self.digits;
        }
        if other < self.rest {
            return self.digits + 1;
        }
        self.digits + self.digits % 2
    }

    /// The shortest digits in units of a power of ten, and that power. None where that has no room.
    pub(crate) fn shortest(&mut self) -> Option<(u64, u32)>
        requires counted { IsCounted self.old }
        ensures rounded { IfSome result (λ r. IsRounded (in_tens self.old r.1) r.0) }
        ensures few { IfSome result (λ r. r.1 < 40) }
    {
        if !self.is_reached() {
            return None;
        }
        let tens = self.coarsen()?;
        Some((self.rounded(), tens))
    }
}
