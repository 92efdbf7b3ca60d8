//! Floats from words.
ghost use Rattle.std.specs.Prelude.{ℕ, ◌≡◌, ◌+◌, ◌<◌, ◌≤◌, ◌^◌, IfNone, IfSome, Bool, drop, length};
ghost use Rattle.std.specs.List.{after_first, before_first, position_or_len};
ghost use Rattle.capnp_floats.specs.Nearest.{IsNearest, IsPastRange, infinity_bits};
ghost use Rattle.capnp_floats.specs.Shortest.{tens, tenths};
ghost use Rattle.capnp_floats.specs.Words.{IsFloatOf, ReadsDecimal, ReadsKind, begins_with_minus, digits_among, exponent_by, exponent_text, is_exponent_mark, is_point, nan_bits, places_of, significant, with_sign, word_digits, word_exponent};
ghost use Rattle.capnp_floats.specs.Steps.Digits.{IsCapped};

use crate::digits::{digits_of, exponent_of, few_digits};
use crate::grammar::{Kind, is_exponent_mark, kind_of};
use crate::nearest::{infinity_bits, nearest_few, nearest_many};
use crate::width::{Width, sign_bit};

/// Why a word is no float.
#[derive(Clone, Copy, Debug, PartialEq, Eq)]
pub enum Refusal {
    /// The word is none. The first byte that can't stand has this place; it is the word's length where it ends too soon.
    NoFloat(usize),
    /// The number is at least the middle between the largest float and the next power of two.
    PastRange,
}

/// Where the first byte stands that is an exponent's mark, or the length.
fn find_exponent(word: &[u8]) -> usize
    ensures place { result ≡ position_or_len is_exponent_mark word.now }
    ensures inside { result ≤ length word.now }
{
    for index in 0..word.len() {
        if is_exponent_mark(word[index]) {
            return index;
        }
    }
    word.len()
}

/// Where the first byte stands that is a point, or the length.
fn find_point(word: &[u8]) -> usize
    ensures { result ≡ position_or_len is_point word.now }
{
    for index in 0..word.len() {
        if word[index] == b'.' {
            return index;
        }
    }
    word.len()
}

/// What stands behind a place.
fn behind(word: &[u8], place: usize) -> &[u8]
    ensures { result.now ≡ drop (place + 1) word.now }
{
    if place < word.len() {
        &word[place + 1..]
    } else {
        &word[word.len()..]
    }
}

/// Whether a minus stands in front.
fn begins_with_minus(word: &[u8]) -> bool
    ensures { result ≡ begins_with_minus word.now }
{
    word.len() > 0 && word[0] == b'-'
}

/// The tens and tenths of a number, by the text of its exponent and its places behind the point. Of 2^119 or more there
/// may be another such number in their place.
fn power_of(exponent: &[u8], places: usize) -> (u128, u128)
    ensures up { IsCapped (2 ^ 119) result.0 (tens (exponent_by (begins_with_minus exponent.now) (digits_among exponent.now) places)) }
    ensures down { IsCapped (2 ^ 119) result.1 (tenths (exponent_by (begins_with_minus exponent.now) (digits_among exponent.now) places)) }
{
    let number = exponent_of(exponent);
    let places = places as u128;
    if begins_with_minus(exponent) {
        return (0, places + number);
    }
    if number < places {
        return (0, places - number);
    }
    (number - places, 0)
}

/// The float that is nearest to a number's word, without its sign. None past the range.
fn read_decimal(width: Width, word: &[u8]) -> Option<u64>
    ensures found { IfSome result (λ bits. IsNearest width (word_digits word.now) (word_exponent word.now) bits) }
    ensures past { IfNone result (IsPastRange width (word_digits word.now) (word_exponent word.now)) }
{
    let mark = find_exponent(word);
    let digits = &word[..mark];
    let exponent = behind(word, mark);
    let places = behind(digits, find_point(digits)).len();
    let (up, down) = power_of(exponent, places);
    if let Some(number) = few_digits(digits) {
        return nearest_few(width, number, up, down);
    }
    nearest_many(width, &digits_of(digits), up, down)
}

/// Bits with a sign.
fn with_sign(width: Width, negative: bool, bits: u64) -> u64
    requires { bits < 2 ^ 63 }
    ensures { result ≡ with_sign width negative bits }
{
    if negative {
        bits + sign_bit(width)
    } else {
        bits
    }
}

/// The bits for what is no number: the quiet one without a sign.
fn nan_bits(width: Width) -> u64
    ensures { result ≡ nan_bits width }
{
    match width {
        Width::Float32 => 2143289344,
        Width::Float64 => 9221120237041090560,
    }
}

/// The bits of a number's word, with its sign.
fn read_number(width: Width, word: &[u8]) -> Result<u64, Refusal>
    ensures { ReadsDecimal width (begins_with_minus word.now) (word_digits word.now) (word_exponent word.now) result }
{
    match read_decimal(width, word) {
        Some(bits) => Ok(with_sign(width, begins_with_minus(word), bits)),
        None => Err(Refusal::PastRange),
    }
}

/// The bits of a word of a kind.
fn read_kind(width: Width, word: &[u8], kind: Kind) -> Result<u64, Refusal>
    ensures { ReadsKind width word.now kind result }
{
    match kind {
        Kind::Number => read_number(width, word),
        Kind::Infinity => Ok(with_sign(width, begins_with_minus(word), infinity_bits(width))),
        Kind::Nan => Ok(nan_bits(width)),
    }
}

/// The bits of the float that a word is: a decimal number as JSON has them (no plus in front, no zero before other digits,
/// a digit on both sides of a point), or `inf`, `-inf`, `nan`. A number has any count of digits, and is rounded once: to the
/// nearest float of the width, of two to the one whose bits are even. Half the least number and what is less is 0 with the
/// number's sign. `nan` is the quiet one, `7fc00000` or `7ff8000000000000`.
///
/// Refused with `NoFloat` where the word is none, and with `PastRange` where its number is at least the middle between the
/// largest float and the next power of two.
pub fn read_float(width: Width, word: &[u8]) -> Result<u64, Refusal>
    ensures { IsFloatOf width word.now result }
{
    match kind_of(word) {
        Ok(kind) => read_kind(width, word, kind),
        Err(place) => Err(Refusal::NoFloat(place)),
    }
}
