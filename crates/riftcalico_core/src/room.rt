//! Room within a limit of bytes, and how a refusal for the want of it is told.
ghost use Rattle.std.specs.Prelude.{true, ◌≡◌, ◌≢◌};
ghost use Rattle.capnp_device.specs.declared.error.ErrorKind.TheVariants.{OutOfMemory};
ghost use Rattle.riftcalico_core.specs.Room.{IsBelowFormat, IsPastLimit};

use capnp_call::message::MOST_WORDS;
use capnp_patch::engine::words_within;
use capnp_wire::error::{Error, ErrorKind, Result};
use std::alloc::Global;

/// Takes memory for so many bytes. Refused where there is none.
#[inline(never)]
fn take_memory(alloc: Global, bytes: usize) -> Result<Vec<u8>> {
    let memory = Vec::with_capacity(alloc, bytes)?;
    Ok(memory)
}

/// Whether there is memory for so many bytes. What is taken to find that out is given back at once.
fn has_memory(alloc: Global, bytes: usize) -> bool {
    match take_memory(alloc, bytes) {
        Ok(_) => true,
        Err(_) => false,
    }
}

/// Whether something was refused for the limit of a message's bytes, where it was for want of memory: the limit is below the
/// format's, and there is memory for as much as it allows.
pub(crate) fn is_by_limit(alloc: Global, limit: u64) -> bool
    ensures below { result ≡ true → IsBelowFormat limit }
{
    let words = words_within(limit);
    words < MOST_WORDS && has_memory(alloc, 8 * words)
}

/// A refusal as it is told: one for want of memory as one for the limit, where that is the cause.
pub(crate) fn tell_room(alloc: Global, limit: u64, error: Error) -> Error
    ensures same { error.kind ≢ OutOfMemory → result.kind ≡ error.kind }
    ensures told { error.kind ≡ OutOfMemory → result.kind ≢ OutOfMemory → IsPastLimit limit result.kind }
{
    match error.kind {
        ErrorKind::OutOfMemory => {
            if is_by_limit(alloc, limit) {
                Error::from(ErrorKind::TooLarge)
            } else {
                error
            }
        }
        _ => error,
    }
}
