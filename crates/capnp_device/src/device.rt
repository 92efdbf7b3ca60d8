//! What gives and takes bytes, and counts its failures.
ghost use Rattle.std.specs.Prelude.{◌≡◌, ℕ, List, Option, ◌<◌, length, IfOk};
ghost use Rattle.std.specs.Io.{ReadsAtMost, WritesAtMost};
ghost use Rattle.std.specs.Io.KnownBytes.{ReadConsumes, WriteAppends};
ghost use Rattle.capnp_device.specs.Device.{Counts};
ghost use Rattle.capnp_device.specs.Ends.{source_reader, source_failures, sink_writer, sink_failures};

use std::io::{Read, Write};

/// A call of a source or sink failed.
#[derive(Clone, Copy, Debug, PartialEq, Eq)]
pub struct DeviceFault;

/// What gives bytes. It counts its failed calls in a u64; once the count stands at `u64::MAX`,
/// every call fails and the count stays.
pub trait Source {
    // The bytes that are left to read, where they are known.
    ghost left: { Self → Option (List ℕ) };

    // How many calls have failed.
    ghost failures: { Self → ℕ };

    /// Reads into the front of the buffer, and answers how many bytes: 0 only at the end or where
    /// the buffer is empty. A failed call leaves the bytes that are left as they were.
    fn read_some(&mut self, buffer: &mut [u8]) -> Result<usize, DeviceFault>
        ensures bound { ReadsAtMost result buffer.new }
        ensures bytes { ReadConsumes (left self.old) (left self.new) result buffer.new }
        ensures counted { Counts (failures self.old) (failures self.new) result };
}

/// What takes bytes. It counts its failed calls in a u64; once the count stands at `u64::MAX`,
/// every call fails and the count stays.
pub trait Sink {
    // The bytes that were taken, where they are known.
    ghost written: { Self → Option (List ℕ) };

    // How many calls have failed.
    ghost failures: { Self → ℕ };

    /// Takes a beginning of the bytes, at least one byte where there is one, and answers how many.
    /// A failed call takes none.
    fn write_some(&mut self, bytes: &[u8]) -> Result<usize, DeviceFault>
        ensures bound { WritesAtMost result bytes.now }
        ensures some { 0 < length bytes.now → IfOk result (λ n. 0 < n) }
        ensures bytes { WriteAppends (written self.old) (written self.new) result bytes.now }
        ensures counted { Counts (failures self.old) (failures self.new) result };
}

/// A reader of std as a source. Each error of the reader is a failure, an interruption too.
#[derive(Drop)]
pub struct ReadSource<R> {
    reader: R,
    failures: u64,
}

impl<R: Read> ReadSource<R> {
    /// The source that reads from this reader, with no failure yet.
    #[tactic(auto, unfolding(crate::specs::Ends::source_reader, crate::specs::Ends::source_failures))]
    pub fn new(reader: R) -> Self
        ensures reader { source_reader result ≡ reader }
        ensures failures { source_failures result ≡ 0 }
    {
        ReadSource {
            reader,
            failures: 0,
        }
    }

    /// The reader, as the reads have left it.
    #[tactic(auto, unfolding(crate::specs::Ends::source_reader))]
    pub fn into_inner(self) -> R
        ensures { result ≡ source_reader self }
    {
        self.reader
    }
}

impl<R: Read> Source for ReadSource<R> {
    ghost left = { λ s. R.remaining (source_reader s) };

    ghost failures = { λ s. source_failures s };

    #[tactic(auto, unfolding(crate::specs::Ends::source_reader, crate::specs::Ends::source_failures))]
    fn read_some(&mut self, buffer: &mut [u8]) -> Result<usize, DeviceFault> {
        if self.failures == u64::MAX {
            return Err(DeviceFault);
        }
        match self.reader.read(buffer) {
            Ok(count) => Ok(count),
            Err(_) => {
                self.failures += 1;
                Err(DeviceFault)
            }
        }
    }
}

/// A writer of std as a sink. Each error of the writer is a failure, an interruption too, and so is
/// a write that takes none of some bytes.
#[derive(Drop)]
pub struct WriteSink<W> {
    writer: W,
    failures: u64,
}

impl<W: Write> WriteSink<W> {
    /// The sink that writes to this writer, with no failure yet.
    #[tactic(auto, unfolding(crate::specs::Ends::sink_writer, crate::specs::Ends::sink_failures))]
    pub fn new(writer: W) -> Self
        ensures writer { sink_writer result ≡ writer }
        ensures failures { sink_failures result ≡ 0 }
    {
        WriteSink {
            writer,
            failures: 0,
        }
    }

    /// The writer, as the writes have left it. What it has buffered is not flushed.
    #[tactic(auto, unfolding(crate::specs::Ends::sink_writer))]
    pub fn into_inner(self) -> W
        ensures { result ≡ sink_writer self }
    {
        self.writer
    }
}

impl<W: Write> Sink for WriteSink<W> {
    ghost written = { λ s. W.contents (sink_writer s) };

    ghost failures = { λ s. sink_failures s };

    #[tactic(auto, unfolding(crate::specs::Ends::sink_writer, crate::specs::Ends::sink_failures))]
    fn write_some(&mut self, bytes: &[u8]) -> Result<usize, DeviceFault> {
        if self.failures == u64::MAX {
            return Err(DeviceFault);
        }
        match self.writer.write(bytes) {
            Ok(count) if count > 0 || bytes.is_empty() => Ok(count),
            _ => {
                self.failures += 1;
                Err(DeviceFault)
            }
        }
    }
}
