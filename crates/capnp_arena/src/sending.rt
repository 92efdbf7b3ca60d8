//! A segment that is the encoding already goes to a sink as it is.
ghost use Rattle.std.specs.Prelude.{IfErr, OnErr, OnOk, ◌*◌, ◌++◌, ◌+◌, ◌/◌, ◌<◌, ◌≡◌, ◌≤◌, length};
ghost use Rattle.capnp_device.specs.Device.{HasFailed, HasWorked};
ghost use Rattle.capnp_device.specs.declared.error.ErrorKind.TheVariants.{WriteFailed};
ghost use Rattle.capnp_wire.specs.Encoding.{encoding_of, spelled_number};
ghost use Rattle.capnp_wire.specs.Locate.{words_past_format};
ghost use Rattle.capnp_wire.specs.Message.{IsCutShort, IsWritten};
ghost use Rattle.capnp_arena.specs.Forest.{tree};
ghost use Rattle.capnp_arena.specs.Shape.{word_count};

use capnp_device::device::Sink;
use capnp_device::error::Result;
use capnp_device::transfer::write_all;

/// The bytes that are gathered for the sink's first call. A message with no more of them takes one call.
const FRONT: usize = 4096;

/// The table of one segment of so many words, and the segment's first bytes.
fn fill_front(front: &mut [u8], words: u32, part: &[u8])
    requires { length front.old ≡ 8 + length part.now }
    ensures { front.new ≡ spelled_number 4 0 ++ (spelled_number 4 words ++ part.now) }
{
    front[..4].copy_from_slice(&0u32.to_le_bytes());
    front[4..8].copy_from_slice(&words.to_le_bytes());
    front[8..].copy_from_slice(part);
}

/// Writes the table of a segment that is the encoding already, and the segment. Takes no memory.
///
/// Refused with `WriteFailed` where a call of the sink failed, and then a proper beginning of the bytes was written.
pub(crate) fn put_whole<W: Sink>(sink: &mut W, bytes: &[u8]) -> Result<()>
    requires few { word_count bytes.now < words_past_format }
    requires order { bytes.now ≡ encoding_of (tree bytes.now 0) }
    ensures written { OnOk result (IsWritten (tree bytes.now 0) (W.written sink.old) (W.written sink.new)) }
    ensures worked { OnOk result (HasWorked (W.failures sink.old) (W.failures sink.new)) }
    ensures kind { IfErr result (λ e. e.kind ≡ WriteFailed) }
    ensures failed { OnErr result (HasFailed (W.failures sink.old) (W.failures sink.new)) }
    ensures beginning { OnErr result (IsCutShort (tree bytes.now 0) (W.written sink.old) (W.written sink.new)) }
{
    let mut buffer = [0u8; FRONT];
    let count = bytes.len().min(FRONT - 8);
    let front = &mut buffer[..8 + count];
    fill_front(front, (bytes.len() / 8) as u32, &bytes[..count]);
    write_all(sink, front)?;
    write_all(sink, &bytes[count..])
}
