//! Values without parts, as they are compared.
ghost use Rattle.std.specs.Prelude.{◌≡◌, false, MatchOption};
ghost use Rattle.capnp_records.specs.Record.{Number};
ghost use Rattle.capnp_dynamic_readers.specs.Seen.{value_seen};
ghost use Rattle.capnp_diffs.specs.Changes.{same_leaf};
ghost use Rattle.capnp_diffs.specs.Steps.Leaves.{AreAlike, integer_seen, is_integer, text_value};

use capnp_dynamic_readers::dynamic_value::Reader as Value;

/// An integer by its sign and its size: of one below zero, how far it is below -1.
fn split(number: i64) -> (bool, u64)
    ensures { integer_seen result ≡ number }
{
    if number < 0 {
        (true, (-(number + 1)) as u64)
    } else {
        (false, number as u64)
    }
}

/// The integer of a value that is one.
fn integer_of(value: Value<'_>) -> Option<(bool, u64)>
    ensures { MatchOption result (is_integer value.entry ≡ false)
        (λ p. value_seen value.entry ≡ Number (integer_seen p)) }
{
    match value {
        Value::Int8(x) => Some(split(x as i64)),
        Value::Int16(x) => Some(split(x as i64)),
        Value::Int32(x) => Some(split(x as i64)),
        Value::Int64(x) => Some(split(x)),
        Value::UInt8(x) => Some((false, x as u64)),
        Value::UInt16(x) => Some((false, x as u64)),
        Value::UInt32(x) => Some((false, x as u64)),
        Value::UInt64(x) => Some((false, x)),
        _ => None,
    }
}

/// Whether the bytes of two texts, or their absence, are the same.
pub(crate) fn is_same_blob(one: Option<&[u8]>, another: Option<&[u8]>) -> bool
    ensures { result ≡ same_leaf (text_value one.entry) (text_value another.entry) }
{
    match one {
        Some(bytes) => match another {
            Some(others) => bytes == others,
            None => false,
        },
        None => another.is_none(),
    }
}

/// Whether two values of a data slot's type are the same.
pub(crate) fn is_same_leaf(one: Value<'_>, another: Value<'_>) -> bool
    requires { AreAlike one another }
    ensures { result ≡ same_leaf (value_seen one.entry) (value_seen another.entry) }
{
    if let Some(x) = integer_of(one) {
        return match integer_of(another) {
            Some(y) => x.0 == y.0 && x.1 == y.1,
            None => false,
        };
    }
    match one {
        Value::Bool(x) => match another {
            Value::Bool(y) => x == y,
            _ => false,
        },
        Value::Enum(x) => match another {
            Value::Enum(y) => x.get_value() == y.get_value(),
            _ => false,
        },
        _ => true,
    }
}
