//! A source of the bytes that the packed bytes of another source stand for.
ghost use Rattle.std.specs.Prelude.{◌≡◌, OnOk, []};
ghost use Rattle.std.specs.Option.{option_map};
ghost use Rattle.std.specs.Io.KnownBytes.{IsAtEnd, Keeps};
ghost use Rattle.capnp_packed.specs.Sources.{bytes_ready, held, left_unpacked, packed_read, packed_source, unpack_failures};
ghost use Rattle.capnp_packed.specs.Unpacking.{unpacked_bytes};

use crate::window::Window;
use capnp_device::device::{DeviceFault, Source};

/// Makes bytes ready where there are any, and else comes to the end of the source of the packed bytes.
fn make_ready<S: Source>(
    ready: &mut Window,
    packed: &mut Window,
    source: &mut S,
) -> Result<(), DeviceFault>
    ensures kept { Keeps (left_unpacked (held ready.old) (held packed.old) (S.left source.old))
        (left_unpacked (held ready.new) (held packed.new) (S.left source.new)) }
    ensures ended { OnOk result (held ready.new ≡ [] → IsAtEnd (left_unpacked (held ready.new) (held packed.new) (S.left source.new))) }
{
    if !ready.is_empty() {
        return Ok(());
    }
    'reads: loop {
        ready.unpack(packed);
        if !ready.is_empty() {
            return Ok(());
        }
        let Ok(count) = packed.read_more(source) else {
            return Err(DeviceFault);
        };
        if count == 0 {
            return Ok(());
        }
    }
}

/// A source that unpacks another one, whose bytes are packed (encoding, "Packing"): it gives the bytes of their whole
/// pieces. A piece that is cut at the end gives none.
///
/// No memory is taken: at most 4,096 packed bytes are read ahead, and at most 4,096 bytes are unpacked ahead. A failed
/// read of the other source is a failure of this one, and loses nothing.
#[derive(Drop)]
pub struct UnpackSource<S> {
    source: S,
    packed: Window,
    ready: Window,
    failures: u64,
}

impl<S: Source> UnpackSource<S> {
    /// The source that unpacks this one, with no failure yet. Nothing is read yet.
    #[tactic(auto, unfolding(crate::specs::Sources::packed_source, crate::specs::Sources::packed_read, crate::specs::Sources::bytes_ready, crate::specs::Sources::unpack_failures))]
    pub fn new(source: S) -> Self
        ensures source { packed_source result ≡ source }
        ensures packed { packed_read result ≡ [] }
        ensures ready { bytes_ready result ≡ [] }
        ensures failures { unpack_failures result ≡ 0 }
        ensures left { left_unpacked (bytes_ready result) (packed_read result) (S.left (packed_source result))
            ≡ option_map unpacked_bytes (S.left source) }
    {
        UnpackSource {
            source,
            packed: Window::new(),
            ready: Window::new(),
            failures: 0,
        }
    }
}

impl<S: Source> Source for UnpackSource<S> {
    ghost left = { λ s. left_unpacked (bytes_ready s) (packed_read s) (S.left (packed_source s)) };

    ghost failures = { λ s. unpack_failures s };

    #[tactic(auto, unfolding(crate::specs::Sources::packed_source, crate::specs::Sources::packed_read, crate::specs::Sources::bytes_ready, crate::specs::Sources::unpack_failures))]
    fn read_some(&mut self, buffer: &mut [u8]) -> Result<usize, DeviceFault> {
        if self.failures == u64::MAX {
            return Err(DeviceFault);
        }
        if buffer.is_empty() {
            return Ok(0);
        }
        if make_ready(&mut self.ready, &mut self.packed, &mut self.source).is_err() {
            self.failures += 1;
            return Err(DeviceFault);
        }
        Ok(self.ready.give(buffer))
    }
}
