//! The next of what follows one another in a source, and a source that is lent.
ghost use Rattle.std.specs.Prelude.{◌≡◌, ◌≢◌, IfErr, IfOk, MatchOption};
ghost use Rattle.capnp_device.specs.Device.{HasFailed};
ghost use Rattle.capnp_device.specs.declared.error.ErrorKind.TheVariants.{OutOfMemory, ReadFailed};
ghost use Rattle.capnp_streams.specs.Next.{IsNextRead, IsNextRefused, IsNoneLeft};

use crate::receive::try_read_message;
use crate::texts::try_read_text;
use capnp_device::device::{DeviceFault, Source};
use capnp_device::error::Result;
use std::alloc::Global;

/// The next message of a source, as `receive::try_read_message` reads it; or the next text where `texts` says so, as
/// `texts::try_read_text`. None where none is left. Refused as these.
pub fn try_read_next<S: Source>(
    alloc: Global,
    texts: bool,
    source: &mut S,
) -> Result<Option<Vec<u8>>>
    ensures message { IfOk result (λ r. MatchOption r (IsNoneLeft texts (S.left source.old) (S.left source.new))
        (λ m. IsNextRead texts (S.left source.old) (S.left source.new) m.items)) }
    ensures refused { IfErr result (λ e. e.kind ≢ ReadFailed → e.kind ≢ OutOfMemory
        → IsNextRefused texts (S.left source.old) (S.left source.new) e.kind) }
    ensures failed { IfErr result (λ e. e.kind ≡ ReadFailed →
        HasFailed (S.failures source.old) (S.failures source.new)) }
{
    if texts {
        try_read_text(alloc, source)
    } else {
        try_read_message(alloc, source)
    }
}

/// A source that is lent: what is read of it is read of the source behind it.
#[derive(Drop)]
pub struct LentSource<'a, R> {
    pub source: &'a mut R,
}

impl<R: Source> Source for LentSource<'_, R> {
    ghost left = { λ s. R.left s.source.now };

    ghost failures = { λ s. R.failures s.source.now };

    fn read_some(&mut self, buffer: &mut [u8]) -> std::result::Result<usize, DeviceFault> {
        self.source.read_some(buffer)
    }
}
