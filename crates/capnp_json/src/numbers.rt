//! Numbers as they are written.
ghost use Rattle.std.specs.Prelude.{◌≡◌, ◌+◌, ◌≤◌, IfErr, IfOk, OnOk, decimal, drop, length, string_bytes};
ghost use Rattle.std.specs.Fmt.{signed_decimal};
ghost use Rattle.capnp_json.specs.Leaves.{quoted};
ghost use Rattle.capnp_json.specs.Pieces.{said};
ghost use Rattle.capnp_json.specs.Steps.Puts.{IsPut, IsStopped};

use crate::error::JsonError;
use crate::output::Output;
use crate::strings::{behind, put_quoted};
use std::alloc::{AllocError, Global};

/// Writes the digits of a number at the end of a buffer, and answers where they begin.
fn write_digits(number: u64, buffer: &mut [u8; 20]) -> usize
    ensures within { result ≤ 20 }
    ensures written { drop result buffer.new ≡ decimal number }
{
    let mut left = number;
    let mut at = 20;
    while left >= 10 {
        at -= 1;
        buffer[at] = b'0' + (left % 10) as u8;
        left /= 10;
    }
    at -= 1;
    buffer[at] = b'0' + left as u8;
    at
}

/// A number with its sign as text.
fn signed_text(alloc: Global, number: i64) -> Result<String, AllocError>
    ensures { IfOk result (λ text. string_bytes text ≡ signed_decimal number) }
{
    format!(in alloc; "{number}")
}

/// Appends a number without a sign.
pub(crate) fn put_unsigned(out: &mut Output, number: u64) -> Result<(), JsonError>
    ensures put { OnOk result (IsPut out.old (said (decimal number)) out.new) }
    ensures stopped { IfErr result (IsStopped out.old (said (decimal number))) }
{
    let mut buffer = [0; 20];
    let start = write_digits(number, &mut buffer);
    out.put(behind(&buffer, start))
}

/// Appends a number.
pub(crate) fn put_signed(out: &mut Output, number: i64) -> Result<(), JsonError>
    ensures put { OnOk result (IsPut out.old (said (signed_decimal number)) out.new) }
    ensures stopped { IfErr result (IsStopped out.old (said (signed_decimal number))) }
{
    match signed_text(out.allocator(), number) {
        Ok(text) => out.put(text.as_bytes()),
        Err(_) => Err(JsonError::OutOfMemory),
    }
}

/// Appends a number without a sign in quotes.
pub(crate) fn put_wide_unsigned(out: &mut Output, number: u64) -> Result<(), JsonError>
    ensures put { OnOk result (IsPut out.old (said (quoted (decimal number))) out.new) }
    ensures stopped { IfErr result (IsStopped out.old (said (quoted (decimal number)))) }
{
    let mut buffer = [0; 20];
    let start = write_digits(number, &mut buffer);
    put_quoted(out, behind(&buffer, start))
}

/// Appends a number in quotes.
pub(crate) fn put_wide_signed(out: &mut Output, number: i64) -> Result<(), JsonError>
    ensures put { OnOk result (IsPut out.old (said (quoted (signed_decimal number))) out.new) }
    ensures stopped { IfErr result (IsStopped out.old (said (quoted (signed_decimal number)))) }
{
    match signed_text(out.allocator(), number) {
        Ok(text) => put_quoted(out, text.as_bytes()),
        Err(_) => Err(JsonError::OutOfMemory),
    }
}
