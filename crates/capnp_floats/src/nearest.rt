//! The binary floating point number that is nearest to a decimal.
ghost use Rattle.std.specs.Prelude.{ℕ, ◌≡◌, ◌+◌, ◌-◌, ◌*◌, ◌^◌, ◌<◌, ◌≤◌, ◌%◌, cond, IfSome, IfNone, nat_le};
ghost use Rattle.capnp_floats.specs.Floats.{place, significand};
ghost use Rattle.capnp_floats.specs.Naturals.{large_room};
ghost use Rattle.capnp_floats.specs.Nearest.{IsNearest, IsPastRange, decimal_numbers, infinity_bits, least_numbers, least_places};
ghost use Rattle.capnp_floats.specs.Shortest.{tens, tenths};
ghost use lib.IntN.{ℤ};
ghost use Rattle.capnp_floats.specs.Steps.Digits.{AreDigits, HoldsDigits, IsCapped};
ghost use Rattle.capnp_floats.specs.Steps.Nearing.{IsChosen, IsFloor, TakesNearer, twice_middle};

use crate::decimal::{tens_of, tenths_of};
use crate::digits::Digits;
use crate::large::Large;
use crate::small::chosen_small;
use crate::width::{Width, exponent, fraction_end, precision, significand};

/// The bits of infinity.
pub(crate) fn infinity_bits(width: Width) -> u64
    ensures value { result ≡ infinity_bits width }
    ensures few { result < 2 ^ 63 }
    ensures some { 0 < result }
{
    match width {
        Width::Float32 => 2139095040,
        Width::Float64 => 9218868437227405312,
    }
}

/// How often one is halved down to the least number.
pub(crate) fn least_places(width: Width) -> u32
    ensures value { result ≡ least_places width }
    ensures few { result ≤ 1074 }
{
    match width {
        Width::Float32 => 149,
        Width::Float64 => 1074,
    }
}

/// The last place of a significand, from that of the least number.
fn place(width: Width, bits: u64) -> u32
    ensures value { result ≡ place width bits }
    ensures few { result < 2048 }
{
    let number = exponent(width, bits);
    if number > 0 { (number - 1) as u32 } else { 0 }
}

/// A number times powers of two and ten.
fn scaled(number: u64, places: u32, zeros: u32) -> Large
    requires few { number < 2 ^ 65 }
    requires places { places < 2048 }
    requires zeros { zeros ≤ 1152 }
    ensures { result ≡ number * 2 ^ places * 10 ^ zeros }
{
    let mut natural = Large::new(number);
    natural.double(places);
    natural.multiply_tens(zeros);
    natural
}

/// Whether a number is at most a decimal.
fn is_reached(width: Width, bits: u64, decimal: &Large, zeros: u32) -> bool
    requires { zeros ≤ 1152 }
    ensures { result ≡ nat_le (least_numbers width bits * 10 ^ zeros) decimal.now }
{
    let number = scaled(significand(width, bits), place(width, bits), zeros);
    !decimal.is_below(&number)
}

/// About the bits of the greatest number that is at most a decimal over so many parts. Nothing rests on them but time.
fn guess_bits(width: Width, decimal: &Large, parts: &Large) -> u64 {
    let (value, value_below) = decimal.head();
    let (one, one_below) = parts.head();
    let value_shift = value.leading_zeros().min(127);
    let one_shift = one.leading_zeros().min(127);
    let divisor = one.wrapping_shl(one_shift) / 18446744073709551616;
    let Some(quotient) = value.wrapping_shl(value_shift).checked_div(divisor) else {
        return 0;
    };
    // `quotient * 2^(scale - 2^14)` is about the decimal
    let scale = (16320 + 32 * value_below + one_shift).saturating_sub(32 * one_below + value_shift);
    let size = 128u32.saturating_sub(quotient.leading_zeros());
    let place = (scale + size).saturating_sub(16384 + precision(width));
    let shift = (place + 16384).saturating_sub(scale);
    if shift > 127 {
        return 0;
    }
    let significand = quotient.wrapping_shr(shift) % 18446744073709551616;
    (place as u64)
        .wrapping_mul(fraction_end(width))
        .wrapping_add(significand as u64)
}

/// Bits of which the first are a number at most a decimal, and the second one above it or infinity. Few lie between where
/// the guess is good.
fn bracket(width: Width, decimal: &Large, zeros: u32, guess: u64) -> (u64, u64)
    requires { zeros ≤ 1152 }
    ensures order { result.0 < result.1 }
    ensures finite { result.1 ≤ infinity_bits width }
    ensures low { least_numbers width result.0 * 10 ^ zeros ≤ decimal.now }
    ensures high { result.1 < infinity_bits width → decimal.now < least_numbers width result.1 * 10 ^ zeros }
{
    let end = infinity_bits(width);
    if guess == 0 || guess >= end - 2 {
        return (0, end);
    }
    if !is_reached(width, guess - 1, decimal, zeros) {
        return (0, end);
    }
    if is_reached(width, guess + 2, decimal, zeros) {
        return (0, end);
    }
    (guess - 1, guess + 2)
}

/// The greatest finite number that is at most a decimal.
fn floor(width: Width, decimal: &Large, zeros: u32) -> u64
    requires { zeros ≤ 1152 }
    ensures { IsFloor width decimal.now (10 ^ zeros) result }
{
    let guess = guess_bits(width, decimal, &scaled(1, 0, zeros));
    let (mut low, mut high) = bracket(width, decimal, zeros, guess);
    'halving: while high - low > 1 {
        let middle = low + (high - low) / 2;
        if is_reached(width, middle, decimal, zeros) {
            low = middle;
        } else {
            high = middle;
        }
    }
    low
}

/// A number or the next, whichever is nearer to half of what is given; of two the even one.
fn nearer(width: Width, low: u64, twice: &Large, zeros: u32) -> u64
    requires finite { low < infinity_bits width }
    requires zeros { zeros ≤ 1152 }
    ensures { TakesNearer width twice.now (10 ^ zeros) low result }
{
    let middle = scaled(2 * significand(width, low) + 1, place(width, low), zeros);
    if twice.is_below(&middle) {
        return low;
    }
    if middle.is_below(twice) {
        return low + 1;
    }
    low + low % 2
}

/// How many least numbers a decimal `digits * 10^up` is.
fn numbers_of(width: Width, digits: &Large, up: u32) -> Large
    requires digits { digits.now < 10 ^ 801 }
    requires up { up ≤ 400 }
    ensures { result ≡ digits.now * 10 ^ up * 2 ^ least_places width }
{
    let mut natural = digits.copied();
    natural.double(least_places(width));
    natural.multiply_tens(up);
    natural
}

/// Twice a natural.
fn doubled(natural: &Large) -> Large
    requires { natural.now * 2 < large_room }
    ensures { result ≡ 2 * natural.now }
{
    let mut twice = natural.copied();
    twice.multiply(2);
    twice
}

/// The number that is nearest to `digits * 10^up / 10^down`, or the bits of infinity where it is past the range.
fn chosen(width: Width, digits: &Large, up: u32, down: u32) -> u64
    requires digits { digits.now < 10 ^ 801 }
    requires up { up ≤ 400 }
    requires down { down ≤ 1150 }
    ensures { IsChosen width (digits.now * 10 ^ up * 2 ^ least_places width) (10 ^ down) result }
{
    let decimal = numbers_of(width, digits, up);
    let twice = doubled(&decimal);
    let low = floor(width, &decimal, down);
    nearer(width, low, &twice, down)
}

/// The number that is nearest to few digits scaled so, by numbers of 128 bits where these do.
fn chosen_few(width: Width, digits: u64, up: u32, down: u32) -> u64
    requires up { up ≤ 400 }
    requires down { down ≤ 1150 }
    ensures { IsChosen width (digits * 10 ^ up * 2 ^ least_places width) (10 ^ down) result }
{
    if let Some(bits) = chosen_small(width, digits, up, down) {
        return bits;
    }
    chosen(width, &Large::new(digits), up, down)
}

/// Bits that are finite.
fn in_range(width: Width, bits: u64) -> Option<u64>
    ensures some { IfSome result (λ b. (b ≡ bits) × (bits < infinity_bits width)) }
    ensures none { IfNone result (infinity_bits width ≤ bits) }
{
    if bits < infinity_bits(width) {
        Some(bits)
    } else {
        None
    }
}

/// The number that is nearest to `digits * 10^up / 10^down`, of which `up` or `down` is 0. None past the range.
pub(crate) fn nearest_few(width: Width, digits: u64, up: u128, down: u128) -> Option<u64>
    ensures found { IfSome result (λ bits. (k : ℤ) → IsCapped (2 ^ 119) up (tens k) → IsCapped (2 ^ 119) down (tenths k) → IsNearest width digits k bits) }
    ensures past { IfNone result ((k : ℤ) → IsCapped (2 ^ 119) up (tens k) → IsCapped (2 ^ 119) down (tenths k) → IsPastRange width digits k) }
{
    if digits == 0 {
        return Some(0);
    }
    if down > 400 {
        return Some(0);
    }
    if up > 400 {
        return None;
    }
    in_range(width, chosen_few(width, digits, up as u32, down as u32))
}

/// The number that is nearest to digits that are all kept.
fn nearest_whole(width: Width, digits: &Digits, up: u128, down: u128) -> Option<u64>
    requires fits { AreDigits digits.now }
    requires whole { digits.now.cut ≡ 0 }
    requires up { up ≤ 400 }
    ensures found { IfSome result (λ bits. (n : ℕ) (k : ℤ) → HoldsDigits digits.now n → IsCapped (2 ^ 119) up (tens k) → IsCapped (2 ^ 119) down (tenths k) → IsNearest width n k bits) }
    ensures past { IfNone result ((n : ℕ) (k : ℤ) → HoldsDigits digits.now n → IsCapped (2 ^ 119) up (tens k) → IsCapped (2 ^ 119) down (tenths k) → IsPastRange width n k) }
{
    if down > 1150 {
        return Some(0);
    }
    let bits = chosen(width, &digits.front, up as u32, down as u32);
    in_range(width, bits)
}

fn one_if(more: bool) -> u8
    ensures value { result ≡ cond more 1 0 }
    ensures few { result ≤ 1 }
{
    if more { 1 } else { 0 }
}

/// The digits that are kept, and one more that is 0 where all others are.
fn cut_digits(digits: &Digits) -> Large
    requires { AreDigits digits.now }
    ensures value { result ≡ digits.now.front * 10 + cond digits.now.more 1 0 }
    ensures few { result < 10 ^ 801 }
{
    let mut number = digits.front.copied();
    number.append(one_if(digits.more));
    number
}

/// The number that is nearest to digits that are not all kept, which have tenths.
fn nearest_cut(width: Width, digits: &Digits, down: u128) -> Option<u64>
    requires fits { AreDigits digits.now }
    requires cut { 0 < digits.now.cut }
    ensures found { IfSome result (λ bits. (n : ℕ) (k : ℤ) → HoldsDigits digits.now n → IsCapped (2 ^ 119) down (tenths k) → IsNearest width n k bits) }
    ensures past { IfNone result ((n : ℕ) (k : ℤ) → HoldsDigits digits.now n → IsCapped (2 ^ 119) down (tenths k) → IsPastRange width n k) }
{
    let cut = digits.cut as u128;
    if down <= cut {
        return None;
    }
    let tenths = down - cut;
    if tenths > 1149 {
        return Some(0);
    }
    let number = cut_digits(digits);
    let bits = chosen(width, &number, 0, (tenths + 1) as u32);
    in_range(width, bits)
}

/// The number that is nearest to digits of any number times `10^up / 10^down`, of which `up` or `down` is 0. None past
/// the range.
pub(crate) fn nearest_many(width: Width, digits: &Digits, up: u128, down: u128) -> Option<u64>
    requires fits { AreDigits digits.now }
    ensures found { IfSome result (λ bits. (n : ℕ) (k : ℤ) → HoldsDigits digits.now n → IsCapped (2 ^ 119) up (tens k) → IsCapped (2 ^ 119) down (tenths k) → IsNearest width n k bits) }
    ensures past { IfNone result ((n : ℕ) (k : ℤ) → HoldsDigits digits.now n → IsCapped (2 ^ 119) up (tens k) → IsCapped (2 ^ 119) down (tenths k) → IsPastRange width n k) }
{
    if digits.count == 0 {
        return Some(0);
    }
    if up > 400 {
        return None;
    }
    if digits.cut > 0 {
        return nearest_cut(width, digits, down);
    }
    nearest_whole(width, digits, up, down)
}

/// The bits of the number, without sign, that is nearest to the decimal `digits * 10^exponent`; of two the one whose bits
/// are even. Half the least number and what is less is 0.
///
/// None where the decimal is at least the middle between the largest number and the next power of two.
pub fn nearest(width: Width, digits: u64, exponent: i32) -> Option<u64>
    ensures found { IfSome result (λ bits. IsNearest width digits exponent bits) }
    ensures past { IfNone result (IsPastRange width digits exponent) }
{
    nearest_few(
        width,
        digits,
        tens_of(exponent) as u128,
        tenths_of(exponent) as u128,
    )
}
