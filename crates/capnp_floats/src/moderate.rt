//! The shortest decimals of numbers that are neither very small nor very large, by numbers of 128 bits.
ghost use Rattle.std.specs.Prelude.{◌≡◌, ◌+◌, ◌*◌, ◌^◌, ◌<◌, ◌≤◌, IfSome};
ghost use Rattle.capnp_floats.specs.Shortest.{IsShortest};
ghost use Rattle.capnp_floats.specs.Steps.Counting.{CountsFrom, IsCounted};
ghost use Rattle.capnp_floats.specs.Steps.Intervals.{interval};

use crate::counted::Counted;
use crate::decimal::{Decimal, exponent_of};

/// A number times a power of two.
#[inline(always)]
fn doubled(number: u64, twos: u32) -> u128
    requires number { number < 2 ^ 56 }
    requires twos { twos ≤ 64 }
    ensures value { result ≡ number * 2 ^ twos }
    ensures small { result < 2 ^ 120 }
{
    (number as u128) << twos
}

/// A power of two.
#[inline(always)]
fn power_of_two(twos: u32) -> u128
    requires { twos ≤ 89 }
    ensures value { result ≡ 2 ^ twos }
    ensures positive { 0 < result }
    ensures small { result ≤ 2 ^ 89 }
{
    1 << twos
}

/// `4 significand` in units of 2^twos / power. None where there are too many.
#[inline(always)]
fn in_twos(significand: u64, gap: u64, twos: u32, power: u64, has_ends: bool) -> Option<Counted>
    requires few { significand < 2 ^ 53 }
    requires wide { 1 ≤ gap }
    requires narrow { gap ≤ 2 }
    requires twos { twos ≤ 89 }
    requires power { 0 < power }
    ensures counted { IfSome result (λ s. IsCounted s) }
    ensures begins { IfSome result (λ s. CountsFrom s has_ends (2 ^ twos) (4 * significand * power) (gap * power) (2 * power)) }
{
    let one = power_of_two(twos);
    let value = (4 * significand) as u128 * power as u128;
    let digits = value >> twos;
    if digits >= 9223372036854775808 {
        return None;
    }
    Some(Counted {
        one,
        digits: digits as u64,
        rest: value % one,
        below: gap as u128 * power as u128,
        above: 2 * power as u128,
        has_ends,
    })
}

/// `4 significand * 2^twos` in units of `one`. None where there are too many.
#[inline(always)]
fn in_ones(significand: u64, gap: u64, twos: u32, one: u64, has_ends: bool) -> Option<Counted>
    requires few { significand < 2 ^ 53 }
    requires wide { 1 ≤ gap }
    requires narrow { gap ≤ 2 }
    requires twos { twos ≤ 64 }
    requires one { 0 < one }
    ensures counted { IfSome result (λ s. IsCounted s) }
    ensures begins { IfSome result (λ s. CountsFrom s has_ends one (4 * significand * 2 ^ twos) (gap * 2 ^ twos) (2 * 2 ^ twos)) }
{
    let value = doubled(4 * significand, twos);
    let digits = value / one as u128;
    if digits >= 9223372036854775808 {
        return None;
    }
    Some(Counted {
        one: one as u128,
        digits: digits as u64,
        rest: value % one as u128,
        below: doubled(gap, twos),
        above: doubled(2, twos),
        has_ends,
    })
}

/// The shortest decimal around `4 significand` quarters, of which each is 1 / 2^down. None where numbers of 128 bits have no
/// room for it.
fn find_tenths(significand: u64, gap: u64, down: u32, has_ends: bool) -> Option<Decimal>
    requires few { significand < 2 ^ 53 }
    requires wide { 1 ≤ gap }
    requires narrow { gap ≤ 2 }
    ensures { IfSome result (λ d. IsShortest (interval has_ends (2 ^ down) (4 * significand) gap 2) d.digits d.exponent) }
{
    if down > 89 {
        return None;
    }
    // 10^-tenths is about as many quarters as the interval has, or a few tenths of that; 10 is 5 times 2
    let tenths = (down * 1233 + 2200) / 4096;
    let twos = down - tenths;
    let power = 5u64.checked_pow(tenths)?;
    let mut counted = in_twos(significand, gap, twos, power, has_ends)?;
    let (digits, more) = counted.shortest()?;
    Some(Decimal {
        digits,
        exponent: exponent_of(more, tenths),
    })
}

/// The shortest decimal around `4 significand` quarters, of which each is 2^up. None where numbers of 128 bits have no room
/// for it.
fn find_tens(significand: u64, gap: u64, up: u32, has_ends: bool) -> Option<Decimal>
    requires few { significand < 2 ^ 53 }
    requires wide { 1 ≤ gap }
    requires narrow { gap ≤ 2 }
    ensures { IfSome result (λ d. IsShortest (interval has_ends 1 (4 * significand * 2 ^ up) (gap * 2 ^ up) (2 * 2 ^ up)) d.digits d.exponent) }
{
    if up > 89 {
        return None;
    }
    // 10^tens is about as many quarters as the interval has, or a few tenths of that; 10 is 5 times 2
    let tens = (up * 1233 + 1900) / 4096;
    let twos = up - tens;
    let one = 5u64.checked_pow(tens)?;
    let mut counted = in_ones(significand, gap, twos, one, has_ends)?;
    let (digits, more) = counted.shortest()?;
    Some(Decimal {
        digits,
        exponent: exponent_of(tens + more, 0),
    })
}

/// The shortest decimal around `4 significand` quarters, of which each is 2^up / 2^down. None where numbers of 128 bits have
/// no room for it.
pub(crate) fn find_moderate(
    significand: u64,
    gap: u64,
    up: u32,
    down: u32,
    has_ends: bool,
) -> Option<Decimal>
    requires few { significand < 2 ^ 53 }
    requires wide { 1 ≤ gap }
    requires narrow { gap ≤ 2 }
    ensures { IfSome result (λ d. IsShortest (interval has_ends (2 ^ down) (4 * significand * 2 ^ up) (gap * 2 ^ up) (2 * 2 ^ up)) d.digits d.exponent) }
{
    if up == 0 {
        return find_tenths(significand, gap, down, has_ends);
    }
    if down == 0 {
        return find_tens(significand, gap, up, has_ends);
    }
    None
}
