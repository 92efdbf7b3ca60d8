//! What stands without brackets.
ghost use Rattle.std.specs.Prelude.{◌≡◌, ◌<◌, length, IfErr, IfOk, Ok};
ghost use Rattle.capnp_value_texts.specs.Errors.{IsErrorOf};
ghost use Rattle.capnp_value_texts.specs.Steps.Seen.{written_read};
ghost use Rattle.capnp_value_texts.specs.Written.{leaf_at};

use crate::error::{Error, cannot_stand, place_of};
use crate::lengths::leaf_length;
use crate::shown::Shown;

/// A leaf with which bytes begin, and the bytes behind it.
pub(crate) fn read_leaf(whole: usize, bytes: &[u8]) -> Result<(Shown<'_>, &[u8]), Error>
    ensures read { IfOk result (λ r. leaf_at whole bytes.now ≡ Ok (written_read r)) }
    ensures shorter { IfOk result (λ r. length r.1.now < length bytes.now) }
    ensures refused { IfErr result (IsErrorOf (leaf_at whole bytes.now)) }
{
    let [first, ..] = bytes else {
        return Err(cannot_stand(whole, bytes));
    };
    if *first == b'<' {
        return Err(cannot_stand(whole, bytes));
    }
    let count = leaf_length(bytes);
    if count == 0 {
        return Err(cannot_stand(whole, bytes));
    }
    let place = place_of(whole, bytes);
    Ok((Shown::Leaf(place, &bytes[..count]), &bytes[count..]))
}
