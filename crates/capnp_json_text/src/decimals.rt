//! The parts of numbers.
ghost use Rattle.std.specs.Prelude.{◌≡◌};
ghost use Rattle.capnp_json_text.specs.Decimals.{after_point, before, behind_letter, behind_point, decimal_by, decimal_of, digits_of, exponent_digits, exponent_of, fraction_digits, is_minus, whole_digits};

use crate::numbers::{skip_digits, skip_minus, skip_sign};

/// The parts of a number. It is the natural whose digits are `whole` and then `fraction`, times ten to the power of the
/// exponent less the number of digits in `fraction`.
#[derive(Clone, Copy, Debug)]
pub struct NumberParts<'a> {
    pub is_negative: bool,
    /// The digits before the point.
    pub whole: &'a [u8],
    /// Those behind it.
    pub fraction: &'a [u8],
    pub is_exponent_negative: bool,
    /// The digits of the exponent, none where there is no exponent.
    pub exponent: &'a [u8],
}

/// What stands before what is left.
fn before<'a>(bytes: &'a [u8], rest: &[u8]) -> &'a [u8]
    ensures { result.now ≡ before bytes.now rest.now }
{
    let count = bytes.len().saturating_sub(rest.len());
    &bytes[..count]
}

/// The digits at the front.
fn digits_of(bytes: &[u8]) -> &[u8]
    ensures { result.now ≡ digits_of bytes.now }
{
    before(bytes, skip_digits(bytes))
}

fn is_minus(bytes: &[u8]) -> bool
    ensures { result ≡ is_minus bytes.now }
{
    let [first, ..] = bytes else {
        return false;
    };
    *first == b'-'
}

/// What stands behind a point, or nothing.
fn behind_point(bytes: &[u8]) -> &[u8]
    ensures { result.now ≡ behind_point bytes.now }
{
    let [first, behind @ ..] = bytes else {
        return bytes;
    };
    if *first == b'.' { behind } else { &bytes[..0] }
}

/// What stands behind a point and its digits, or all of it where no point is there.
fn skip_point(bytes: &[u8]) -> &[u8]
    ensures { result.now ≡ after_point bytes.now }
{
    let [first, behind @ ..] = bytes else {
        return bytes;
    };
    if *first == b'.' {
        skip_digits(behind)
    } else {
        bytes
    }
}

/// What stands behind the letter of an exponent, or nothing.
fn behind_letter(bytes: &[u8]) -> &[u8]
    ensures { result.now ≡ behind_letter bytes.now }
{
    let [first, behind @ ..] = bytes else {
        return bytes;
    };
    if *first == b'e' || *first == b'E' {
        behind
    } else {
        &bytes[..0]
    }
}

/// The parts of the number with which bytes begin.
#[tactic(auto, unfolding(crate::specs::Decimals::whole_digits, crate::specs::Decimals::fraction_digits, crate::specs::Decimals::exponent_of, crate::specs::Decimals::decimal_of))]
pub fn number_parts(bytes: &[u8]) -> NumberParts<'_>
    ensures negative { result.is_negative ≡ is_minus bytes.now }
    ensures whole { result.whole.now ≡ whole_digits bytes.now }
    ensures fraction { result.fraction.now ≡ fraction_digits bytes.now }
    ensures exponent_negative { result.is_exponent_negative ≡ is_minus (exponent_of bytes.now) }
    ensures exponent { result.exponent.now ≡ exponent_digits bytes.now }
    ensures decimal { decimal_of bytes.now ≡ decimal_by result.is_negative result.whole.now result.fraction.now
        result.is_exponent_negative result.exponent.now }
{
    let whole = skip_minus(bytes);
    let point = skip_digits(whole);
    let exponent = behind_letter(skip_point(point));
    NumberParts {
        is_negative: is_minus(bytes),
        whole: digits_of(whole),
        fraction: digits_of(behind_point(point)),
        is_exponent_negative: is_minus(exponent),
        exponent: digits_of(skip_sign(exponent)),
    }
}
