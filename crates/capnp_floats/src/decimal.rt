//! The shortest decimals of binary floating point numbers.
ghost use Rattle.std.specs.Prelude.{◌≡◌, ◌+◌, ◌*◌, ◌-◌, ◌^◌, ◌<◌, ◌≤◌, ◌%◌, ◌==◌, ◌⊎◌, IfSome, is_some};
ghost use Rattle.capnp_floats.specs.Floats.{IsDecimalOf, interval_of, is_finite, place, quarter_places, significand};
ghost use Rattle.capnp_floats.specs.Naturals.{room};
ghost use Rattle.capnp_floats.specs.Shortest.{IsShortest, tens, tenths};
ghost use Rattle.capnp_floats.specs.Steps.Intervals.{interval};

use crate::moderate::find_moderate;
use crate::natural::Natural;
use crate::search::{Search, raise};
use crate::width::{Width, exponent, exponent_end, gap_below, quarter_places, significand};

/// A decimal: `digits` times ten to the power of `exponent`.
#[derive(Clone, Copy, Drop)]
pub struct Decimal {
    pub digits: u64,
    pub exponent: i32,
}

/// The tens of a power of ten.
pub(crate) fn tens_of(exponent: i32) -> u64
    ensures value { result ≡ tens exponent }
    ensures few { result < 2 ^ 32 }
{
    if exponent < 0 { 0 } else { exponent as u64 }
}

/// The tenths of a power of ten.
pub(crate) fn tenths_of(exponent: i32) -> u64
    ensures value { result ≡ tenths exponent }
    ensures few { result < 2 ^ 32 }
{
    if exponent < 0 {
        (0 - exponent as i64) as u64
    } else {
        0
    }
}

/// What is left of a number where another is taken from it, or 0.
fn less(number: u64, other: u64) -> u32
    requires { number ≤ 4096 }
    ensures { result ≡ number - other }
{
    if number > other {
        (number - other) as u32
    } else {
        0
    }
}

/// About the tens that a power of two has. None where there is another factor.
fn tens_within(twos: u32, other: u32) -> u32
    requires { twos ≤ 1131 }
    ensures many { result ≤ 340 }
    ensures few { twos ≤ 1076 → result ≤ 323 }
    ensures alone { (other ≡ 0) ⊎ (result ≡ 0) }
{
    if other > 0 { 0 } else { twos * 1233 / 4096 }
}

/// A number times a power of two and one of ten.
fn scaled(number: u64, twos: u32, tens: u32) -> Natural
    requires { number * 2 ^ twos * 10 ^ tens ≤ 2 ^ 1138 }
    ensures value { result ≡ number * 2 ^ twos * 10 ^ tens }
    ensures small { 10000 * result < room }
    ensures positive { 0 < number → 0 < result }
{
    let mut natural = Natural::new(number);
    natural.double(twos);
    natural.multiply_tens(tens);
    natural
}

/// The power of ten that is so many tens over so many.
pub(crate) fn exponent_of(up: u32, down: u32) -> i32
    requires up { up ≤ 4096 }
    requires down { down ≤ 4096 }
    ensures { up + tenths result ≡ down + tens result }
{
    up as i32 - down as i32
}

/// The shortest decimal around `4 significand` quarters, of which each is 2^up / 2^down.
fn find(significand: u64, gap: u64, up: u32, down: u32, has_ends: bool) -> Decimal
    requires positive { 0 < significand }
    requires few { significand < 2 ^ 53 }
    requires wide { 1 ≤ gap }
    requires narrow { gap ≤ 2 }
    requires up { up ≤ 1076 }
    requires down { down ≤ 1076 }
    ensures { IsShortest (interval has_ends (2 ^ down) (4 * significand * 2 ^ up) (gap * 2 ^ up) (2 * 2 ^ up)) result.digits result.exponent }
{
    // most digits in front of the first are skipped; a power that is too large is made up for by the other
    let tenths = tens_within(down.saturating_sub(55), up);
    let tens = tens_within(up + 55, down);
    let value = scaled(4 * significand, up, tenths);
    let below = scaled(gap, up, tenths);
    let above = scaled(2, up, tenths);
    let mut one = scaled(1, down, tens);
    let high = value.sum(&above);
    let power = raise(&mut one, &high, has_ends);
    let mut search = Search {
        one,
        rest: value,
        below,
        above,
        has_ends,
        digits: 0,
        tenths: 0,
    };
    search.run();
    let digits = search.rounded();
    let exponent = exponent_of(tens + power, tenths + search.tenths);
    Decimal { digits, exponent }
}

/// The shortest decimal of a number that is not zero.
fn shortest_of(width: Width, bits: u64) -> Decimal
    requires { 0 < significand width bits }
    ensures { IsShortest (interval_of width bits) result.digits result.exponent }
{
    let last = less(exponent(width, bits), 1) as u64;
    let quarter = quarter_places(width);
    let number = significand(width, bits);
    let gap = gap_below(width, bits);
    let (up, down) = (less(last, quarter), less(quarter, last));
    let has_ends = number % 2 == 0;
    if let Some(decimal) = find_moderate(number, gap, up, down, has_ends) {
        return decimal;
    }
    find(number, gap, up, down, has_ends)
}

/// The shortest decimal that is nearer to a number than to any other of its width, without its sign; a middle between
/// two belongs to the one whose significand is even. Of the shortest it is the nearest. 0 has the decimal 0.
///
/// `bits` are those of the number, of which a width of 32 has the lowest 32. Infinities and what is no number have none.
pub fn decimal_of(width: Width, bits: u64) -> Option<Decimal>
    ensures finite { is_some result ≡ is_finite width bits }
    ensures decimal { IfSome result (λ d. IsDecimalOf width bits d.digits d.exponent) }
{
    if exponent(width, bits) >= exponent_end(width) - 1 {
        return None;
    }
    if significand(width, bits) == 0 {
        return Some(Decimal {
            digits: 0,
            exponent: 0,
        });
    }
    Some(shortest_of(width, bits))
}
