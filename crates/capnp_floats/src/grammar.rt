//! Which bytes are a float's word.
ghost use Rattle.std.specs.Prelude.{◌≡◌};
ghost use Rattle.capnp_floats.specs.Words.{digit_then, end_of, exponent_step, first_step, is_exponent_mark, kind_of, mark_step, only, places_step, step_of, unsigned_step, whole_step, zero_step};

/// What may stand next.
#[derive(Clone, Copy, Drop)]
pub(crate) enum Expected {
    /// The first byte of a word.
    First,
    /// The byte behind a minus.
    Unsigned,
    /// What follows a zero in front: a point, an exponent or nothing.
    AfterZero,
    /// A digit before the point, or what follows these.
    Whole,
    /// The first digit behind the point.
    Point,
    /// Another digit behind the point, an exponent or nothing.
    Places,
    /// An exponent's sign, or its first digit.
    Exponent,
    /// An exponent's first digit.
    SignedExponent,
    /// Another digit of an exponent, or nothing.
    ExponentDigits,
    /// The second and third letter of `inf`.
    InfinityN,
    InfinityF,
    /// Nothing.
    AfterInfinity,
    /// The second and third letter of `nan`.
    NanA,
    NanN,
    /// Nothing.
    AfterNan,
}

/// What a word is.
#[derive(Clone, Copy, Drop)]
pub(crate) enum Kind {
    Number,
    Infinity,
    Nan,
}

fn step_only(wanted: u8, byte: u8, next: Expected) -> Option<Expected>
    ensures { result ≡ only wanted byte next }
{
    if byte == wanted { Some(next) } else { None }
}

fn step_digit(next: Expected, byte: u8) -> Option<Expected>
    ensures { result ≡ digit_then next byte }
{
    if byte.is_ascii_digit() {
        Some(next)
    } else {
        None
    }
}

/// Whether a byte stands before an exponent.
pub(crate) fn is_exponent_mark(byte: u8) -> bool
    ensures { result ≡ is_exponent_mark byte }
{
    byte == b'e' || byte == b'E'
}

fn step_mark(byte: u8) -> Option<Expected>
    ensures { result ≡ mark_step byte }
{
    if is_exponent_mark(byte) {
        Some(Expected::Exponent)
    } else {
        None
    }
}

fn step_zero(byte: u8) -> Option<Expected>
    ensures { result ≡ zero_step byte }
{
    if byte == b'.' {
        return Some(Expected::Point);
    }
    step_mark(byte)
}

fn step_whole(byte: u8) -> Option<Expected>
    ensures { result ≡ whole_step byte }
{
    if byte.is_ascii_digit() {
        return Some(Expected::Whole);
    }
    step_zero(byte)
}

fn step_places(byte: u8) -> Option<Expected>
    ensures { result ≡ places_step byte }
{
    if byte.is_ascii_digit() {
        return Some(Expected::Places);
    }
    step_mark(byte)
}

fn step_exponent(byte: u8) -> Option<Expected>
    ensures { result ≡ exponent_step byte }
{
    if byte == b'+' || byte == b'-' {
        return Some(Expected::SignedExponent);
    }
    step_digit(Expected::ExponentDigits, byte)
}

fn step_unsigned(byte: u8) -> Option<Expected>
    ensures { result ≡ unsigned_step byte }
{
    if byte == b'i' {
        return Some(Expected::InfinityN);
    }
    if byte == b'0' {
        return Some(Expected::AfterZero);
    }
    step_digit(Expected::Whole, byte)
}

fn step_first(byte: u8) -> Option<Expected>
    ensures { result ≡ first_step byte }
{
    if byte == b'-' {
        return Some(Expected::Unsigned);
    }
    if byte == b'n' {
        return Some(Expected::NanA);
    }
    step_unsigned(byte)
}

/// What may stand behind a byte. None where it can't stand.
fn step(expected: Expected, byte: u8) -> Option<Expected>
    ensures { result ≡ step_of expected byte }
{
    match expected {
        Expected::First => step_first(byte),
        Expected::Unsigned => step_unsigned(byte),
        Expected::AfterZero => step_zero(byte),
        Expected::Whole => step_whole(byte),
        Expected::Point => step_digit(Expected::Places, byte),
        Expected::Places => step_places(byte),
        Expected::Exponent => step_exponent(byte),
        Expected::SignedExponent => step_digit(Expected::ExponentDigits, byte),
        Expected::ExponentDigits => step_digit(Expected::ExponentDigits, byte),
        Expected::InfinityN => step_only(b'n', byte, Expected::InfinityF),
        Expected::InfinityF => step_only(b'f', byte, Expected::AfterInfinity),
        Expected::NanA => step_only(b'a', byte, Expected::NanN),
        Expected::NanN => step_only(b'n', byte, Expected::AfterNan),
        Expected::AfterInfinity => None,
        Expected::AfterNan => None,
    }
}

/// What a word is that ends here.
fn end(expected: Expected) -> Option<Kind>
    ensures { result ≡ end_of expected }
{
    match expected {
        Expected::AfterZero => Some(Kind::Number),
        Expected::Whole => Some(Kind::Number),
        Expected::Places => Some(Kind::Number),
        Expected::ExponentDigits => Some(Kind::Number),
        Expected::AfterInfinity => Some(Kind::Infinity),
        Expected::AfterNan => Some(Kind::Nan),
        _ => None,
    }
}

/// What a word is, or the place of the first byte that can't stand; its length where it ends too soon.
pub(crate) fn kind_of(word: &[u8]) -> Result<Kind, usize>
    ensures { result ≡ kind_of word.now }
{
    let mut expected = Expected::First;
    for index in 0..word.len() {
        let Some(next) = step(expected, word[index]) else {
            return Err(index);
        };
        expected = next;
    }
    match end(expected) {
        Some(kind) => Ok(kind),
        None => Err(word.len()),
    }
}
