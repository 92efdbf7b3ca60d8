//! What a task comes to.
ghost use Rattle.std.specs.Prelude.{◌≡◌};

use capnp_wire::error::Error;
use riftcalico_core::fault::{Blamed, Fault, get_fault};
use std::alloc::Global;

/// What a task came to.
#[derive(Drop)]
pub enum Ended {
    /// All was answered, and what is told of it was; whether a call or a message was refused.
    Answered(bool),
    /// A word or a file of calls can't be read, which this line tells.
    Unreadable(String),
    /// Names of the set meet in JSON, which this line tells.
    NamesMeet(String),
}

/// A refusal.
#[derive(Drop)]
pub struct Refusal {
    /// Of several messages the number of that which is refused, from 1 on.
    pub message: Option<u64>,
    pub fault: Fault,
}

/// What a task came to, or its refusal.
pub type Ran = std::result::Result<Ended, Refusal>;

/// A refusal that blames this, of which no more is told.
pub(crate) fn refuse(alloc: Global, message: Option<u64>, error: Error, blamed: Blamed) -> Refusal
    ensures message { result.message ≡ message }
    ensures error { result.fault.error ≡ error }
    ensures blamed { result.fault.blamed ≡ blamed }
{
    Refusal {
        message,
        fault: get_fault(alloc, error, blamed),
    }
}
