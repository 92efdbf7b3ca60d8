//! How long a text may be.
ghost use Rattle.std.specs.Prelude.{◌≡◌, ◌-◌, ◌<◌, ◌≤◌, IfErr, OnOk, length, string_bytes};
ghost use Rattle.capnp_device.specs.declared.error.ErrorKind.TheVariants.{TooLarge};

use capnp_wire::error::{Error, ErrorKind, Result};

/// Refused where a string has more bytes than it may.
pub(crate) fn check_length(text: &String, limit: u64) -> Result<()>
    ensures within { OnOk result (length (string_bytes text.now) ≤ limit) }
    ensures too_long { IfErr result (λ e. (e.kind ≡ TooLarge) × (limit < length (string_bytes text.now))) }
{
    if text.len() as u64 > limit {
        return Err(Error::from(ErrorKind::TooLarge));
    }
    Ok(())
}

/// How many bytes a string may have more.
pub(crate) fn room_left(text: &String, limit: u64) -> u64
    ensures { result ≡ limit - length (string_bytes text.now) }
{
    limit.saturating_sub(text.len() as u64)
}
