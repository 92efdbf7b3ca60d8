//! What arrays and objects of a text hold, one after another.
ghost use Rattle.std.specs.Prelude.{◌≡◌};
ghost use Rattle.std.specs.Option.{option_map};
ghost use Rattle.capnp_json_text.specs.Values.{closing, first_item, next_item};

use crate::kinds::Bracket;
use crate::rest::skip_blanks;

fn closing(bracket: Bracket) -> u8
    ensures { result ≡ closing bracket }
{
    match bracket {
        Bracket::Square => b']',
        Bracket::Curly => b'}',
    }
}

/// Where the first element of an array or the first name of an object begins, from behind the opening bracket and blanks
/// on. None at the closing bracket.
pub fn first_item(bracket: Bracket, bytes: &[u8]) -> Option<&[u8]>
    ensures { option_map (λ x. x.now) result ≡ first_item bracket bytes.now }
{
    let [first, ..] = bytes else {
        return None;
    };
    if *first == closing(bracket) {
        return None;
    }
    Some(bytes)
}

/// Where the next element or name begins, from behind an element or a member's value and blanks on. None at the closing
/// bracket.
pub fn next_item(bytes: &[u8]) -> Option<&[u8]>
    ensures { option_map (λ x. x.now) result ≡ next_item bytes.now }
{
    let [first, behind @ ..] = bytes else {
        return None;
    };
    if *first == b',' {
        return Some(skip_blanks(behind));
    }
    None
}
