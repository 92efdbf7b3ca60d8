//! Numbers, digit for digit.
ghost use Rattle.std.specs.Prelude.{◌≡◌};
ghost use Rattle.capnp_json_text.specs.Numbers.{after_digits, after_exponent, after_fraction, after_minus, after_number, after_sign, after_some_digits, after_whole};
ghost use Rattle.capnp_json_text.specs.Seen.{rest_seen};

use crate::rest::Rest;

/// The bytes behind digits, if there are any.
pub(crate) fn skip_digits(bytes: &[u8]) -> &[u8]
    ensures { result.now ≡ after_digits bytes.now }
{
    for index in 0..bytes.len() {
        if !bytes[index].is_ascii_digit() {
            return &bytes[index..];
        }
    }
    &bytes[bytes.len()..]
}

/// The bytes behind digits, of which there has to be one.
fn skip_some_digits(bytes: &[u8]) -> Rest<'_>
    ensures { rest_seen result ≡ after_some_digits bytes.now }
{
    let [first, behind @ ..] = bytes else {
        return Err(bytes);
    };
    if first.is_ascii_digit() {
        Ok(skip_digits(behind))
    } else {
        Err(bytes)
    }
}

/// The bytes behind a minus, if there is one.
pub(crate) fn skip_minus(bytes: &[u8]) -> &[u8]
    ensures { result.now ≡ after_minus bytes.now }
{
    let [first, behind @ ..] = bytes else {
        return bytes;
    };
    if *first == b'-' { behind } else { bytes }
}

/// The bytes behind a plus or a minus, if there is one.
pub(crate) fn skip_sign(bytes: &[u8]) -> &[u8]
    ensures { result.now ≡ after_sign bytes.now }
{
    let [first, behind @ ..] = bytes else {
        return bytes;
    };
    if *first == b'+' || *first == b'-' {
        behind
    } else {
        bytes
    }
}

/// The bytes behind a zero, or behind digits with no zero in front.
fn skip_whole(bytes: &[u8]) -> Rest<'_>
    ensures { rest_seen result ≡ after_whole bytes.now }
{
    let [first, behind @ ..] = bytes else {
        return Err(bytes);
    };
    if *first == b'0' {
        Ok(behind)
    } else {
        skip_some_digits(bytes)
    }
}

/// The bytes behind a point and its digits, if a point is there.
fn skip_fraction(bytes: &[u8]) -> Rest<'_>
    ensures { rest_seen result ≡ after_fraction bytes.now }
{
    let [first, behind @ ..] = bytes else {
        return Ok(bytes);
    };
    if *first == b'.' {
        skip_some_digits(behind)
    } else {
        Ok(bytes)
    }
}

/// The bytes behind an exponent, if one is there.
fn skip_exponent(bytes: &[u8]) -> Rest<'_>
    ensures { rest_seen result ≡ after_exponent bytes.now }
{
    let [first, behind @ ..] = bytes else {
        return Ok(bytes);
    };
    if *first == b'e' || *first == b'E' {
        skip_some_digits(skip_sign(behind))
    } else {
        Ok(bytes)
    }
}

/// The bytes behind a number, which has to stand first.
#[tactic(auto, unfolding(crate::specs::Numbers::after_number))]
pub fn skip_number(bytes: &[u8]) -> Rest<'_>
    ensures { rest_seen result ≡ after_number bytes.now }
{
    let whole = skip_whole(skip_minus(bytes))?;
    let fraction = skip_fraction(whole)?;
    skip_exponent(fraction)
}
