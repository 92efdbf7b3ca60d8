//! Reading a source to its end, and writing all bytes to a sink.
ghost use Rattle.std.specs.Prelude.{◌≡◌, ◌≢◌, ℕ, List, ◌<◌, length, take, IfOk, IfErr, OnOk, OnErr};
ghost use Rattle.std.specs.Io.KnownBytes.{Appends, Consumes, IsAtEnd};
ghost use Rattle.capnp_device.specs.Device.{HasWorked, HasFailed, last_count};
ghost use Rattle.capnp_device.specs.declared.error.ErrorKind.TheVariants.{OutOfMemory, ReadFailed, WriteFailed};

use crate::device::{Sink, Source};
use crate::error::{Error, ErrorKind, Result};
use std::alloc::Global;

/// All bytes that the source has left. Refused as `ReadFailed` where a call of the source failed,
/// and as `OutOfMemory` where a growth was refused; the bytes that were read till then are lost.
pub fn read_all<S: Source>(alloc: Global, source: &mut S) -> Result<Vec<u8>>
    ensures whole { IfOk result (λ v. Consumes (S.left source.old) (S.left source.new) v.items) }
    ensures to_end { OnOk result (IsAtEnd (S.left source.new)) }
    ensures worked { OnOk result (HasWorked (S.failures source.old) (S.failures source.new)) }
    ensures kinds { IfErr result (λ e. e.kind ≢ ReadFailed → e.kind ≡ OutOfMemory) }
    ensures failed { IfErr result (λ e. e.kind ≡ ReadFailed →
        HasFailed (S.failures source.old) (S.failures source.new)) }
    ensures memory { IfErr result (λ e. e.kind ≡ OutOfMemory →
        HasWorked (S.failures source.old) (S.failures source.new)) }
    ensures beginning { OnErr result ((read : List ℕ) ×
        Consumes (S.left source.old) (S.left source.new) read) }
{
    let mut bytes = Vec::new(alloc);
    let mut buffer = [0u8; 65536];
    loop {
        let Ok(count) = source.read_some(&mut buffer) else {
            return Err(Error::from(ErrorKind::ReadFailed));
        };
        if count == 0 {
            return Ok(bytes);
        }
        bytes.extend_from_slice(&buffer[..count])?;
    }
}

/// Writes all bytes. Refused as `WriteFailed` where a call of the sink failed; a beginning of the
/// bytes, and not all of them, has then been written. Without bytes the sink is not called.
#[tactic(auto, using(crate::proofs::Known::appends_more))]
pub fn write_all<W: Sink>(sink: &mut W, bytes: &[u8]) -> Result<()>
    ensures whole { OnOk result (Appends (W.written sink.old) (W.written sink.new) bytes.now) }
    ensures worked { OnOk result (W.failures sink.new ≡ W.failures sink.old) }
    ensures last { OnOk result (0 < length bytes.now → W.failures sink.old < last_count) }
    ensures kind { IfErr result (λ e. e.kind ≡ WriteFailed) }
    ensures failed { OnErr result (HasFailed (W.failures sink.old) (W.failures sink.new)) }
    ensures beginning { OnErr result ((n : ℕ) × (n < length bytes.now) ×
        Appends (W.written sink.old) (W.written sink.new) (take n bytes.now)) }
{
    let mut done = 0;
    while done < bytes.len() {
        let Ok(count) = sink.write_some(&bytes[done..]) else {
            return Err(Error::from(ErrorKind::WriteFailed));
        };
        done += count;
    }
    Ok(())
}
