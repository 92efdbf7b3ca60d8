//! What stands between the values of a text: names, commas and brackets.
ghost use Rattle.std.specs.Prelude.{◌≡◌, ◌<◌, ◌≤◌, length, IfErr, IfOk, Ok};
ghost use Rattle.capnp_json_text.specs.Readings.{after_blanks};
ghost use Rattle.capnp_value_texts.specs.Errors.{IsErrorOf};
ghost use Rattle.capnp_value_texts.specs.Steps.Seen.{name_read, rest_read};
ghost use Rattle.capnp_value_texts.specs.Written.{after_equals, behind_part, bracket_of, closing, name_at, name_of};

use crate::error::{Error, cannot_stand, place_of};
use crate::lengths::name_length;
use capnp_json_text::rest::skip_blanks;

/// A bracket that is open.
#[derive(Clone, Copy, Debug, PartialEq, Eq)]
pub enum Bracket {
    /// That of a struct.
    Round,
    /// That of a list.
    Square,
}

/// A name with the place of its first byte. An item of a list has no name, and the place is its own.
#[derive(Clone, Copy, Debug, PartialEq, Eq)]
pub struct Name<'t> {
    pub place: usize,
    pub bytes: &'t [u8],
}

/// The bracket that a byte opens.
pub(crate) fn bracket_of(byte: u8) -> Option<Bracket>
    ensures { result ≡ bracket_of byte }
{
    match byte {
        b'(' => Some(Bracket::Round),
        b'[' => Some(Bracket::Square),
        _ => None,
    }
}

/// The byte that closes a bracket.
pub(crate) fn closing(bracket: Bracket) -> u8
    ensures { result ≡ closing bracket }
{
    match bracket {
        Bracket::Round => b')',
        Bracket::Square => b']',
    }
}

/// The bytes behind blanks, if there are any.
#[tactic(auto, using(crate::proofs::Shorter::blanks_shorter))]
pub(crate) fn behind_blanks(bytes: &[u8]) -> &[u8]
    ensures is { result.now ≡ after_blanks bytes.now }
    ensures shorter { length result.now ≤ length bytes.now }
{
    skip_blanks(bytes)
}

/// The bytes behind an equals sign, which has to stand first, and blanks.
fn behind_equals(whole: usize, bytes: &[u8]) -> Result<&[u8], Error>
    ensures read { IfOk result (λ rest. after_equals whole bytes.now ≡ Ok rest.now) }
    ensures shorter { IfOk result (λ rest. length rest.now < length bytes.now) }
    ensures refused { IfErr result (IsErrorOf (after_equals whole bytes.now)) }
{
    let [first, behind @ ..] = bytes else {
        return Err(cannot_stand(whole, bytes));
    };
    if *first == b'=' {
        Ok(behind_blanks(behind))
    } else {
        Err(cannot_stand(whole, bytes))
    }
}

/// A name of so many bytes with its equals sign, and the bytes behind it.
fn read_field_name(whole: usize, count: usize, bytes: &[u8]) -> Result<(Name<'_>, &[u8]), Error>
    requires { count ≤ length bytes.now }
    ensures read { IfOk result (λ r. name_of whole count bytes.now ≡ Ok (name_read r)) }
    ensures shorter { IfOk result (λ r. length r.1.now < length bytes.now) }
    ensures refused { IfErr result (IsErrorOf (name_of whole count bytes.now)) }
{
    if count == 0 {
        return Err(cannot_stand(whole, bytes));
    }
    let place = place_of(whole, bytes);
    let name = Name {
        place,
        bytes: &bytes[..count],
    };
    match behind_equals(whole, behind_blanks(&bytes[count..])) {
        Ok(rest) => Ok((name, rest)),
        Err(error) => Err(error),
    }
}

/// The name of a part in brackets, and the bytes behind it. An item has none.
pub(crate) fn read_name(
    bracket: Bracket,
    whole: usize,
    bytes: &[u8],
) -> Result<(Name<'_>, &[u8]), Error>
    ensures read { IfOk result (λ r. name_at bracket whole bytes.now ≡ Ok (name_read r)) }
    ensures shorter { IfOk result (λ r. length r.1.now ≤ length bytes.now) }
    ensures refused { IfErr result (IsErrorOf (name_at bracket whole bytes.now)) }
{
    match bracket {
        Bracket::Round => read_field_name(whole, name_length(bytes), bytes),
        Bracket::Square => {
            let place = place_of(whole, bytes);
            let name = Name {
                place,
                bytes: &bytes[..0],
            };
            Ok((name, bytes))
        }
    }
}

/// Whether another part follows in brackets, from behind one and blanks on, and the bytes behind the comma or the closing
/// bracket.
pub(crate) fn behind_part(
    bracket: Bracket,
    whole: usize,
    bytes: &[u8],
) -> Result<(bool, &[u8]), Error>
    ensures read { IfOk result (λ r. behind_part bracket whole bytes.now ≡ Ok (rest_read r)) }
    ensures shorter { IfOk result (λ r. length r.1.now < length bytes.now) }
    ensures refused { IfErr result (IsErrorOf (behind_part bracket whole bytes.now)) }
{
    let [first, behind @ ..] = bytes else {
        return Err(cannot_stand(whole, bytes));
    };
    if *first == closing(bracket) {
        return Ok((false, behind));
    }
    if *first == b',' {
        return Ok((true, behind_blanks(behind)));
    }
    Err(cannot_stand(whole, bytes))
}
