//! Where JSON goes: bytes that are made, and no more than so many.
ghost use Rattle.std.specs.Prelude.{[], ◌≡◌, ◌<◌, ◌≤◌, IfErr, IfOk, OnOk, length};
ghost use Rattle.capnp_json.specs.Pieces.{said};
ghost use Rattle.capnp_json.specs.Steps.Puts.{IsPut, IsStopped, limit_of, made};

use crate::error::JsonError;
use std::alloc::Global;

/// Bytes that are made, and how many there may be.
#[derive(Drop)]
pub(crate) struct Output {
    bytes: Vec<u8>,
    limit: usize,
}

impl Output {
    /// Nothing yet.
    pub(crate) fn new(alloc: Global, limit: usize) -> Output
        ensures made { made result ≡ [] }
        ensures limit { limit_of result ≡ limit }
    {
        Output {
            bytes: Vec::new(alloc),
            limit,
        }
    }

    /// Appends bytes. Where that is refused all is as it was.
    #[tactic(auto, using(crate::proofs::Puts::bytes_put, crate::proofs::Puts::bytes_too_long))]
    pub(crate) fn put(&mut self, piece: &[u8]) -> Result<(), JsonError>
        ensures put { OnOk result (IsPut self.old (said piece.now) self.new) }
        ensures stopped { IfErr result (IsStopped self.old (said piece.now)) }
    {
        if self.limit.saturating_sub(self.bytes.len()) < piece.len() {
            return Err(JsonError::TooLarge);
        }
        match self.bytes.extend_from_slice(piece) {
            Ok(()) => Ok(()),
            Err(_) => Err(JsonError::OutOfMemory),
        }
    }

    /// The memory that it takes.
    pub(crate) fn allocator(&self) -> Global {
        *self.bytes.allocator()
    }

    /// All bytes that were made.
    pub(crate) fn finish(self) -> Vec<u8>
        ensures { result.items ≡ made self }
    {
        self.bytes
    }
}
