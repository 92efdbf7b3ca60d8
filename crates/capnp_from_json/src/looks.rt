//! Values of a text, as far as their first bytes tell.
ghost use Rattle.std.specs.Prelude.{ℕ, ◌≡◌, ◌-◌, length, IfErr, IfOk};
ghost use Rattle.capnp_device.specs.declared.error.ErrorKind.TheVariants.{OutOfMemory};
ghost use Rattle.capnp_json_text.specs.Decimals.{before};
ghost use Rattle.capnp_json_text.specs.Numbers.{after_number};
ghost use Rattle.capnp_json_text.specs.Values.{json_at, left};
ghost use Rattle.capnp_from_json.specs.Looks.{IsWithin, look_seen};

use capnp_device::error::Result;
use capnp_json_text::contents::read_string;
use capnp_json_text::kinds::{Kind, kind_of};
use capnp_json_text::laws::values_stand_in_steps;
use capnp_json_text::numbers::skip_number;
use std::alloc::Global;

/// What a value is.
#[derive(Debug, Drop)]
pub enum Look<'a> {
    Null,
    Truth(bool),
    /// A number, by its bytes.
    Number(&'a [u8]),
    /// A string, by what it stands for.
    Text(Vec<u8>),
    /// An array, by the bytes behind its opening bracket.
    Array(&'a [u8]),
    /// An object, by the bytes behind its opening bracket.
    Object(&'a [u8]),
}

/// The bytes of the number that stands first.
fn number_token(bytes: &[u8]) -> &[u8]
    ensures { result.now ≡ before bytes.now (left (after_number bytes.now)) }
{
    match skip_number(bytes) {
        Ok(rest) => &bytes[..bytes.len().saturating_sub(rest.len())],
        Err(_fault) => bytes,
    }
}

/// What the value is with which bytes begin.
///
/// Refused with `OutOfMemory` alone: what a string stands for takes memory.
pub fn look_at(alloc: Global, bytes: &[u8]) -> Result<Look<'_>>
    ensures read { (whole : ℕ) → IfOk result (λ l. look_seen whole (whole - length bytes.now) l
        ≡ json_at whole bytes.now) }
    ensures within { IfOk result (λ l. IsWithin l bytes.now) }
    ensures memory { IfErr result (λ e. e.kind ≡ OutOfMemory) }
{
    values_stand_in_steps();
    let [first, behind @ ..] = bytes else {
        return Ok(Look::Null);
    };
    let Some(kind) = kind_of(*first) else {
        return Ok(Look::Null);
    };
    match kind {
        Kind::Null => Ok(Look::Null),
        Kind::True => Ok(Look::Truth(true)),
        Kind::False => Ok(Look::Truth(false)),
        Kind::Number => Ok(Look::Number(number_token(bytes))),
        Kind::String => {
            let content = read_string(alloc, behind)?;
            Ok(Look::Text(content))
        }
        Kind::Array => Ok(Look::Array(behind)),
        Kind::Object => Ok(Look::Object(behind)),
    }
}
