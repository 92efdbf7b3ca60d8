//! The search for the digits of the shortest decimal in an interval.
ghost use Rattle.std.specs.Prelude.{◌≡◌, ◌+◌, ◌*◌, ◌^◌, ◌<◌, ◌≤◌, ◌⊎◌, true, false};
ghost use Rattle.capnp_floats.specs.Naturals.{room};
ghost use Rattle.capnp_floats.specs.Shortest.{IsRounded, reaches};
ghost use Rattle.capnp_floats.specs.Steps.Going.{Advances, FollowsSearch, IsGoing, IsSearchOpen, around};

use crate::natural::Natural;

/// Whether a number is at least another, or more than it where an end does not belong.
fn reaches(has_ends: bool, first: &Natural, second: &Natural) -> bool
    ensures { result ≡ reaches has_ends first.now second.now }
{
    if has_ends {
        !first.is_below(second)
    } else {
        second.is_below(first)
    }
}

/// How often a number can be taken from another, less than ten times. What is left stays.
fn take(rest: &mut Natural, one: &Natural) -> u64
    requires positive { 0 < one.now }
    requires few { rest.old < 10 * one.now }
    ensures value { result * one.now + rest.new ≡ rest.old }
    ensures less { rest.new < one.now }
    ensures small { result < 10 }
{
    let mut count: u64 = 0;
    'taking: while !rest.is_below(one) {
        rest.subtract(one);
        count += 1;
    }
    count
}

/// What stands for one becomes ten times as much until no number up to `high` reaches it. How often is answered.
pub(crate) fn raise(one: &mut Natural, high: &Natural, has_ends: bool) -> u32
    requires positive { 0 < one.old }
    requires one_small { 100 * one.old < room }
    requires high_small { 1000 * high.now < room }
    ensures value { one.new ≡ one.old * 10 ^ result }
    ensures passed { reaches has_ends high.now one.new ≡ false }
    ensures small { 100 * one.new < room }
    ensures few { result < 1152 }
{
    let mut tens: u32 = 0;
    'raising: while reaches(has_ends, high, &*one) {
        one.multiply(10);
        tens += 1;
    }
    tens
}

/// The digits found, and what is left of the value: it is `digits` and `rest / one`, in units of 10^-tenths.
#[derive(Drop)]
pub(crate) struct Search {
    pub(crate) one: Natural,
    pub(crate) rest: Natural,
    pub(crate) below: Natural,
    pub(crate) above: Natural,
    pub(crate) has_ends: bool,
    pub(crate) digits: u64,
    pub(crate) tenths: u32,
}

impl Search {
    /// Whether the digits found lie in the interval.
    fn is_down(&self) -> bool
        ensures { result ≡ reaches self.now.has_ends self.now.below self.now.rest }
    {
        reaches(self.has_ends, &self.below, &self.rest)
    }

    /// Whether the digits found and one more lie in the interval.
    fn is_up(&self) -> bool
        requires { self.now.rest + self.now.above < room }
        ensures { result ≡ reaches self.now.has_ends (self.now.rest + self.now.above) self.now.one }
    {
        let high = self.rest.sum(&self.above);
        reaches(self.has_ends, &high, &self.one)
    }

    /// Whether neither does.
    fn is_open(&self) -> bool
        requires { self.now.rest + self.now.above < room }
        ensures down { result ≡ true → reaches self.now.has_ends self.now.below self.now.rest ≡ false }
        ensures up { result ≡ true → reaches self.now.has_ends (self.now.rest + self.now.above) self.now.one ≡ false }
        ensures done { result ≡ false → (reaches self.now.has_ends self.now.below self.now.rest ≡ true)
            ⊎ (reaches self.now.has_ends (self.now.rest + self.now.above) self.now.one ≡ true) }
    {
        if self.is_down() {
            return false;
        }
        !self.is_up()
    }

    /// Finds one digit more.
    fn advance(&mut self)
        requires { IsSearchOpen self.old }
        ensures { Advances self.old self.new }
    {
        self.rest.multiply(10);
        self.below.multiply(10);
        self.above.multiply(10);
        self.digits = 10 * self.digits + take(&mut self.rest, &self.one);
        self.tenths += 1;
    }

    /// Finds the digits up to the first place where a number of so many lies in the interval.
    pub(crate) fn run(&mut self)
        requires begun { IsSearchOpen self.old }
        requires digits { self.old.digits ≡ 0 }
        requires tenths { self.old.tenths ≡ 0 }
        ensures going { IsGoing self.new }
        ensures follows { FollowsSearch self.old self.new }
        ensures done { (reaches self.new.has_ends self.new.below self.new.rest ≡ true)
            ⊎ (reaches self.new.has_ends (self.new.rest + self.new.above) self.new.one ≡ true) }
    {
        self.advance();
        'going: while self.is_open() {
            self.advance();
        }
    }

    /// The digits found, or these and one more, whichever is nearer to the value and lies in the interval.
    pub(crate) fn rounded(&self) -> u64
        requires going { IsGoing self.now }
        requires done { (reaches self.now.has_ends self.now.below self.now.rest ≡ true)
            ⊎ (reaches self.now.has_ends (self.now.rest + self.now.above) self.now.one ≡ true) }
        ensures { IsRounded (around self.now) result }
    {
        if !self.is_up() {
            return self.digits;
        }
        if !self.is_down() {
            return self.digits + 1;
        }
        let twice = self.rest.sum(&self.rest);
        if twice.is_below(&self.one) {
            return self.digits;
        }
        if self.one.is_below(&twice) {
            return self.digits + 1;
        }
        if self.digits % 2 == 0 {
            self.digits
        } else {
            self.digits + 1
        }
    }
}
