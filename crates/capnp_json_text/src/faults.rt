//! The first byte of what is no JSON text that can't stand there.
ghost use Rattle.std.specs.Prelude.{◌≡◌, IfErr, IfOk};
ghost use Rattle.capnp_device.specs.declared.error.ErrorKind.TheVariants.{OutOfMemory};
ghost use Rattle.capnp_json_text.specs.Faults.{earlier, fault_of, grammar_fault, utf8_fault};
ghost use Rattle.capnp_json_text.specs.Texts.{after_text, at_end};
ghost use Rattle.capnp_json_text.specs.Seen.{rest_seen};

use crate::rest::{Rest, skip_blanks};
use crate::values::skip_value;
use capnp_device::error::Result;
use std::alloc::Global;

/// Nothing, which has to be all that is left.
fn at_end(bytes: &[u8]) -> Rest<'_>
    ensures { rest_seen result ≡ at_end bytes.now }
{
    let [_, ..] = bytes else {
        return Ok(bytes);
    };
    Err(bytes)
}

/// What is left behind a text, which is nothing.
fn skip_text(alloc: Global, bytes: &[u8]) -> Result<Rest<'_>>
    ensures read { IfOk result (λ r. rest_seen r ≡ after_text bytes.now) }
    ensures memory { IfErr result (λ e. e.kind ≡ OutOfMemory) }
{
    match skip_value(alloc, skip_blanks(bytes))? {
        Ok(rest) => Ok(at_end(skip_blanks(rest))),
        Err(fault) => Ok(Err(fault)),
    }
}

/// The place of the first sequence of bytes that is no character in UTF-8.
fn utf8_fault(bytes: &[u8]) -> Option<usize>
    ensures { result ≡ utf8_fault bytes.now }
{
    match std::str::from_utf8(bytes) {
        Ok(_) => None,
        Err(error) => Some(error.valid_up_to()),
    }
}

/// The place at which what is left begins.
fn grammar_fault(bytes: &[u8], read: Rest<'_>) -> Option<usize>
    ensures { result ≡ grammar_fault bytes.now (rest_seen read.entry) }
{
    match read {
        Ok(_) => None,
        Err(fault) => Some(bytes.len().saturating_sub(fault.len())),
    }
}

fn earlier(one: Option<usize>, other: Option<usize>) -> Option<usize>
    ensures { result ≡ earlier one other }
{
    let Some(place) = one else {
        return other;
    };
    match other {
        Some(second) => Some(place.min(second)),
        None => Some(place),
    }
}

/// Whether bytes are a JSON text by RFC 8259: none where they are. Else the place of the first byte that can't stand there,
/// counted from 0: the bytes before it are the longest beginning that is UTF-8 and the beginning of a text. It is the
/// number of bytes where they end too soon, and of a sequence that is no character in UTF-8 its first byte.
///
/// Nesting has no limit, and the stack does not grow with it. Refused with `OutOfMemory` alone.
#[tactic(auto, unfolding(crate::specs::Faults::fault_of))]
pub fn first_fault(alloc: Global, bytes: &[u8]) -> Result<Option<usize>>
    ensures fault { IfOk result (λ fault. fault ≡ fault_of bytes.now) }
    ensures memory { IfErr result (λ e. e.kind ≡ OutOfMemory) }
{
    let read = skip_text(alloc, bytes)?;
    Ok(earlier(utf8_fault(bytes), grammar_fault(bytes, read)))
}
