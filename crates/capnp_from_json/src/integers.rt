//! Whole numbers, exactly.
ghost use Rattle.std.specs.Prelude.{ℕ, Bool, pos, Some, ◌≡◌, ◌≢◌, ◌+◌, ◌-◌, ◌*◌, ◌/◌, ◌%◌, ◌^◌, ◌<◌, ◌≤◌, length};
ghost use Rattle.std.specs.Option.{option_map};
ghost use Rattle.capnp_json_text.specs.Decimals.{decimal_by, decimal_of, natural_from};
ghost use Rattle.capnp_from_json.specs.Integers.{in_word, is_in_signed, natural_of, only_if, signed_of, small, unsigned_of, with_sign};
ghost use Rattle.capnp_from_json.specs.Steps.Digits.{AreDigits, ArePowers, IsCapped, IsDifference, IsTrimmed, scaled_by, shifted_natural};

use capnp_json_text::decimals::{NumberParts, number_parts};

/// A natural with digits behind it. None where 64 bits don't hold it.
fn digits_behind(number: u64, digits: &[u8]) -> Option<u64>
    ensures { result ≡ in_word (natural_from number digits.now) }
{
    let mut total = number;
    for index in 0..digits.len() {
        let Some(tens) = total.checked_mul(10) else {
            return None;
        };
        let Some(next) = tens.checked_add(u64::from(digits[index].saturating_sub(48))) else {
            return None;
        };
        total = next;
    }
    Some(total)
}

/// The natural of digits and of those behind them. None where 64 bits don't hold it.
fn digits_joined(front: &[u8], behind: &[u8]) -> Option<u64>
    ensures { result ≡ in_word (natural_from (natural_from 0 front.now) behind.now) }
{
    match digits_behind(0, front) {
        Some(number) => digits_behind(number, behind),
        None => None,
    }
}

/// Digits without the zeros at their end.
fn trimmed(digits: &[u8]) -> &[u8]
    requires { AreDigits digits.now }
    ensures { IsTrimmed digits.now result.now }
{
    let mut count = digits.len();
    while count > 0 {
        if digits[count - 1] != b'0' {
            return &digits[..count];
        }
        count -= 1;
    }
    &digits[..0]
}

/// An exponent with one digit more. One of 2^100 or more stays.
fn more_exponent(number: u128, digit: u8) -> u128
    requires { number < 2 ^ 110 }
    ensures holds { (n : ℕ) → IsCapped (2 ^ 100) number n → IsCapped (2 ^ 100) result (10 * n + (digit - 48)) }
    ensures few { result < 2 ^ 110 }
{
    if number >= 1267650600228229401496703205376 {
        return number;
    }
    10 * number + u128::from(digit.saturating_sub(48))
}

/// The natural of an exponent's digits. One of 2^100 or more may have another such in its place.
fn exponent_of(digits: &[u8]) -> u128
    ensures value { IsCapped (2 ^ 100) result (natural_from 0 digits.now) }
    ensures few { result < 2 ^ 110 }
{
    let mut number: u128 = 0;
    for index in 0..digits.len() {
        number = more_exponent(number, digits[index]);
    }
    number
}

/// A natural with zeros behind it, as many as there are more tens than tenths. None where there are fewer, or where 64
/// bits don't hold it. The natural is none where 64 bits don't hold it.
fn scaled(number: Option<u64>, up: u128, down: u128) -> Option<u64>
    ensures { (d u v : ℕ) → number ≡ in_word d → 0 < d → IsDifference up down u v → result ≡ scaled_by d u v }
{
    if up < down {
        return None;
    }
    let Some(front) = number else {
        return None;
    };
    let zeros = up - down;
    if zeros >= 20 {
        return None;
    }
    with_zeros(front, zeros as u32)
}

/// A natural with so many zeros behind it. None where 64 bits don't hold it.
fn with_zeros(number: u64, zeros: u32) -> Option<u64>
    ensures { result ≡ in_word (number * 10 ^ zeros) }
{
    let mut total = number;
    for _index in 0..zeros {
        let Some(next) = total.checked_mul(10) else {
            return None;
        };
        total = next;
    }
    Some(total)
}

/// The tens and tenths of an exponent.
fn exponents(is_negative: bool, exponent: &[u8]) -> (u128, u128)
    ensures powers { ArePowers is_negative (natural_from 0 exponent.now) result.0 result.1 }
    ensures up { result.0 < 2 ^ 110 }
    ensures down { result.1 < 2 ^ 110 }
{
    let number = exponent_of(exponent);
    if is_negative {
        (0, number)
    } else {
        (number, 0)
    }
}

/// The natural of a number whose digits may stand behind a point, or with an exponent.
fn shifted(whole: &[u8], fraction: &[u8], up: u128, down: u128) -> Option<u64>
    requires whole { AreDigits whole.now }
    requires fraction { AreDigits fraction.now }
    requires up { up < 2 ^ 110 }
    requires down { down < 2 ^ 110 }
    ensures { (below : Bool) (e : ℕ) → ArePowers below e up down → result
        ≡ shifted_natural below e whole.now fraction.now }
{
    let kept = trimmed(fraction);
    if kept.len() > 0 {
        return scaled(digits_joined(whole, kept), up, kept.len() as u128 + down);
    }
    let front = trimmed(whole);
    if front.len() > 0 {
        return scaled(
            digits_behind(0, front),
            (whole.len() - front.len()) as u128 + up,
            down,
        );
    }
    Some(0)
}

/// The natural that a number is, without its sign. None where it is not whole, or where 64 bits don't hold it.
fn natural_of(parts: NumberParts<'_>) -> Option<u64>
    requires whole { AreDigits parts.whole.now }
    requires fraction { AreDigits parts.fraction.now }
    ensures { result ≡ small (natural_of (decimal_by parts.entry.is_negative parts.entry.whole.now
        parts.entry.fraction.now parts.entry.is_exponent_negative parts.entry.exponent.now)) }
{
    if parts.fraction.len() == 0 && parts.exponent.len() == 0 {
        return digits_behind(0, parts.whole);
    }
    let (up, down) = exponents(parts.is_exponent_negative, parts.exponent);
    shifted(parts.whole, parts.fraction, up, down)
}

/// A natural with a sign, where 64 bits hold it in two's complement.
fn signed(is_negative: bool, number: u64) -> Option<i64>
    ensures { result ≡ only_if (is_in_signed 64) (Some (with_sign is_negative number)) }
{
    if !is_negative || number == 0 {
        if number > 9223372036854775807 {
            return None;
        }
        return Some(number as i64);
    }
    if number > 9223372036854775808 {
        return None;
    }
    Some(-1 - (number - 1) as i64)
}

/// The whole number that a number's bytes stand for, where 64 bits hold it with its sign.
#[tactic(auto, unfolding(crate::specs::Integers::signed_of))]
pub fn read_signed(token: &[u8]) -> Option<i64>
    ensures { result ≡ signed_of 64 token.now }
{
    let parts = number_parts(token);
    match natural_of(parts) {
        Some(number) => signed(parts.is_negative, number),
        None => None,
    }
}

/// The whole number that a number's bytes stand for, where 64 bits hold it without a sign.
#[tactic(auto, unfolding(crate::specs::Integers::unsigned_of))]
pub fn read_unsigned(token: &[u8]) -> Option<u64>
    ensures { option_map pos result ≡ unsigned_of 64 token.now }
{
    let parts = number_parts(token);
    match natural_of(parts) {
        Some(number) => {
            if parts.is_negative && number > 0 {
                return None;
            }
            Some(number)
        }
        None => None,
    }
}
