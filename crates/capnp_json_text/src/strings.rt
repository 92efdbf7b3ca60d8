//! Strings, character for character.
ghost use Rattle.std.specs.Prelude.{◌≡◌};
ghost use Rattle.std.specs.Char.{is_ascii_hexdigit};
ghost use Rattle.capnp_json_text.specs.Readings.{after_one};
ghost use Rattle.capnp_json_text.specs.Strings.{after_character, after_d, after_escape, after_second_half, after_string, after_two_digits, after_unicode, character_of, is_d, is_high, is_low, is_octal, is_short_escape};
ghost use Rattle.capnp_json_text.specs.Seen.{rest_seen};
ghost use Rattle.capnp_json_text.specs.Steps.Seen.{character_seen};

use crate::rest::{Rest, skip_only};

/// What a byte is within a string.
#[derive(Clone, Copy)]
pub(crate) enum Character {
    /// The closing quote.
    Quote,
    /// The first byte of an escape.
    Backslash,
    /// A byte below 32, which can't stand in a string.
    Control,
    /// A byte that stands for itself.
    Plain,
}

#[inline(always)]
pub(crate) fn character_of(byte: u8) -> Character
    ensures { result ≡ character_of byte }
{
    if byte == b'"' {
        Character::Quote
    } else if byte == b'\\' {
        Character::Backslash
    } else if byte < 32 {
        Character::Control
    } else {
        Character::Plain
    }
}

fn is_short_escape(byte: u8) -> bool
    ensures { result ≡ is_short_escape byte }
{
    match byte {
        b'"' | b'\\' | b'/' | b'b' | b'f' | b'n' | b'r' | b't' => true,
        _ => false,
    }
}

fn is_d(byte: u8) -> bool
    ensures { result ≡ is_d byte }
{
    byte == b'D' || byte == b'd'
}

fn is_octal(byte: u8) -> bool
    ensures { result ≡ is_octal byte }
{
    b'0' <= byte && byte <= b'7'
}

fn is_high(byte: u8) -> bool
    ensures { result ≡ is_high byte }
{
    match byte {
        b'8'..=b'9' => true,
        b'A'..=b'B' => true,
        b'a'..=b'b' => true,
        _ => false,
    }
}

fn is_low(byte: u8) -> bool
    ensures { result ≡ is_low byte }
{
    match byte {
        b'C'..=b'F' => true,
        b'c'..=b'f' => true,
        _ => false,
    }
}

/// The bytes behind a hexadecimal digit.
fn skip_digit(bytes: &[u8]) -> Rest<'_>
    ensures { rest_seen result ≡ after_one is_ascii_hexdigit bytes.now }
{
    let [first, behind @ ..] = bytes else {
        return Err(bytes);
    };
    if first.is_ascii_hexdigit() {
        Ok(behind)
    } else {
        Err(bytes)
    }
}

/// The bytes behind a D.
fn skip_only_d(bytes: &[u8]) -> Rest<'_>
    ensures { rest_seen result ≡ after_one is_d bytes.now }
{
    let [first, behind @ ..] = bytes else {
        return Err(bytes);
    };
    if is_d(*first) { Ok(behind) } else { Err(bytes) }
}

/// The bytes behind a digit from C to F.
fn skip_low(bytes: &[u8]) -> Rest<'_>
    ensures { rest_seen result ≡ after_one is_low bytes.now }
{
    let [first, behind @ ..] = bytes else {
        return Err(bytes);
    };
    if is_low(*first) {
        Ok(behind)
    } else {
        Err(bytes)
    }
}

/// The bytes behind two hexadecimal digits.
fn skip_two_digits(bytes: &[u8]) -> Rest<'_>
    ensures { rest_seen result ≡ after_two_digits bytes.now }
{
    let rest = skip_digit(bytes)?;
    skip_digit(rest)
}

/// The bytes behind the second half of a pair, with its backslash and u.
fn skip_second_half(bytes: &[u8]) -> Rest<'_>
    ensures { rest_seen result ≡ after_second_half bytes.now }
{
    let backslash = skip_only(b'\\', bytes)?;
    let letter = skip_only(b'u', backslash)?;
    let first = skip_only_d(letter)?;
    let second = skip_low(first)?;
    skip_two_digits(second)
}

/// The bytes behind an escape, from its number on, whose first digit was D: a pair, or a number that is no half of one.
fn skip_d(bytes: &[u8]) -> Rest<'_>
    ensures { rest_seen result ≡ after_d bytes.now }
{
    let [first, behind @ ..] = bytes else {
        return Err(bytes);
    };
    if is_octal(*first) {
        return skip_two_digits(behind);
    }
    if is_high(*first) {
        let half = skip_two_digits(behind)?;
        return skip_second_half(half);
    }
    Err(bytes)
}

/// The bytes behind an escape, from its number on.
fn skip_unicode(bytes: &[u8]) -> Rest<'_>
    ensures { rest_seen result ≡ after_unicode bytes.now }
{
    let [first, behind @ ..] = bytes else {
        return Err(bytes);
    };
    if is_d(*first) {
        return skip_d(behind);
    }
    if first.is_ascii_hexdigit() {
        let rest = skip_digit(behind)?;
        return skip_two_digits(rest);
    }
    Err(bytes)
}

/// The bytes behind an escape, from behind its backslash on.
#[tactic(auto, unfolding(crate::specs::Strings::after_escape))]
fn skip_escape(bytes: &[u8]) -> Rest<'_>
    ensures { rest_seen result ≡ after_escape bytes.now }
{
    let [first, behind @ ..] = bytes else {
        return Err(bytes);
    };
    if *first == b'u' {
        return skip_unicode(behind);
    }
    if is_short_escape(*first) {
        return Ok(behind);
    }
    Err(bytes)
}

/// The bytes behind a character, with `true`, or behind the closing quote, with `false`.
#[inline(always)]
pub(crate) fn skip_character(bytes: &[u8]) -> std::result::Result<(bool, &[u8]), &[u8]>
    ensures { character_seen result ≡ after_character bytes.now }
{
    let [first, behind @ ..] = bytes else {
        return Err(bytes);
    };
    match character_of(*first) {
        Character::Quote => Ok((false, behind)),
        Character::Backslash => {
            let rest = skip_escape(behind)?;
            Ok((true, rest))
        }
        Character::Control => Err(bytes),
        Character::Plain => Ok((true, behind)),
    }
}

/// The bytes behind a string, from behind its opening quote on.
pub fn skip_string(bytes: &[u8]) -> Rest<'_>
    ensures { rest_seen result ≡ after_string bytes.now }
{
    let mut rest = bytes;
    'characters: loop {
        let (more, behind) = match skip_character(rest) {
            Ok(read) => read,
            Err(fault) => return Err(fault),
        };
        if !more {
            return Ok(behind);
        }
        rest = behind;
    }
}
