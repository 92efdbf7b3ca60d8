//! Sources and sinks in memory, where one chosen call fails.
ghost use Rattle.std.specs.Prelude.{◌≡◌, ◌≢◌, ◌<◌, min, length, Some, [], IfOk, IsOk, IsErr};
ghost use Rattle.std.specs.Io.{ReadsAtMost, WritesAtMost};
ghost use Rattle.std.specs.Io.KnownBytes.{ReadConsumes, WriteAppends};
ghost use Rattle.capnp_device.specs.Device.{Counts, last_count, calls_after};
ghost use Rattle.capnp_device.specs.Ends.{memory_left, read_plan, memory_written, write_plan};

use crate::call_plan::CallPlan;
use crate::device::{DeviceFault, Sink, Source};
use std::alloc::Global;

/// Bytes in memory as a source: a call gives at most `chunk` bytes, and one chosen call fails.
#[derive(Drop)]
pub struct MemorySource<'a> {
    rest: &'a [u8],
    plan: CallPlan,
}

#[tactic(auto, unfolding(crate::specs::Ends::memory_left, crate::specs::Ends::read_plan))]
impl<'a> MemorySource<'a> {
    /// The source of these bytes, with no failure yet. Where `calls_before_failure` is some n, the
    /// first n calls work, the next one fails, and those after it work again.
    ///
    /// # Conditions
    ///
    /// `chunk` is not 0.
    pub fn new(bytes: &'a [u8], chunk: usize, calls_before_failure: Option<u64>) -> Self
        requires { 0 < chunk }
        ensures left { memory_left result ≡ bytes.now }
        ensures chunk { (read_plan result).chunk ≡ chunk }
        ensures chosen { (read_plan result).calls_before_failure ≡ calls_before_failure }
        ensures failures { (read_plan result).failures ≡ 0 }
    {
        MemorySource {
            rest: bytes,
            plan: CallPlan::new(chunk, calls_before_failure),
        }
    }
}

#[tactic(auto, unfolding(crate::specs::Ends::memory_left, crate::specs::Ends::read_plan))]
impl Source for MemorySource<'_> {
    ghost left = { λ s. Some (memory_left s) };

    ghost failures = { λ s. (read_plan s).failures };

    /// Gives as many bytes as there are, as the chunk allows and as the buffer has room for. Fails
    /// at the chosen call, and at every call once the count of failures stands at its last value.
    fn read_some(&mut self, buffer: &mut [u8]) -> Result<usize, DeviceFault>
        ensures bound { ReadsAtMost result buffer.new }
        ensures bytes { ReadConsumes (Some (memory_left self.old)) (Some (memory_left self.new))
            result buffer.new }
        ensures counted { Counts (read_plan self.old).failures (read_plan self.new).failures result }
        ensures count { IfOk result (λ n. n ≡
            min (min (length (memory_left self.old)) (read_plan self.old).chunk) (length buffer.new)) }
        ensures chosen { (read_plan self.old).calls_before_failure ≡ Some 0 → IsErr result }
        ensures others { (read_plan self.old).calls_before_failure ≢ Some 0 →
            (read_plan self.old).failures < last_count → IsOk result }
        ensures next { (read_plan self.old).failures < last_count →
            (read_plan self.new).calls_before_failure ≡
            calls_after (read_plan self.old).calls_before_failure }
        ensures chunk { (read_plan self.new).chunk ≡ (read_plan self.old).chunk }
    {
        let chunk = self.plan.begin()?;
        let count = self.rest.len().min(chunk).min(buffer.len());
        let (given, rest) = self.rest.split_at(count);
        buffer[..count].copy_from_slice(given);
        self.rest = rest;
        Ok(count)
    }
}

/// A sink that keeps its bytes in memory: a call takes at most `chunk` bytes, and one chosen call
/// fails. A call that finds no memory fails too.
#[derive(Drop)]
pub struct MemorySink {
    bytes: Vec<u8>,
    plan: CallPlan,
}

#[tactic(auto, unfolding(crate::specs::Ends::memory_written, crate::specs::Ends::write_plan))]
impl MemorySink {
    /// The sink that has taken no byte, with no failure yet. Where `calls_before_failure` is some n,
    /// the first n calls work as far as there is memory, the next one fails, and those after it work
    /// again.
    ///
    /// # Conditions
    ///
    /// `chunk` is not 0.
    pub fn new(alloc: Global, chunk: usize, calls_before_failure: Option<u64>) -> Self
        requires { 0 < chunk }
        ensures written { memory_written result ≡ [] }
        ensures chunk { (write_plan result).chunk ≡ chunk }
        ensures chosen { (write_plan result).calls_before_failure ≡ calls_before_failure }
        ensures failures { (write_plan result).failures ≡ 0 }
    {
        MemorySink {
            bytes: Vec::new(alloc),
            plan: CallPlan::new(chunk, calls_before_failure),
        }
    }

    /// The bytes that were taken.
    pub fn as_slice(&self) -> &[u8]
        ensures { result.now ≡ memory_written self.now }
    {
        self.bytes.as_slice()
    }
}

#[tactic(auto, unfolding(crate::specs::Ends::memory_written, crate::specs::Ends::write_plan))]
impl Sink for MemorySink {
    ghost written = { λ s. Some (memory_written s) };

    ghost failures = { λ s. (write_plan s).failures };

    /// Takes as many bytes as there are and as the chunk allows. Fails at the chosen call, where no
    /// memory is left, and at every call once the count of failures stands at its last value.
    fn write_some(&mut self, bytes: &[u8]) -> Result<usize, DeviceFault>
        ensures bound { WritesAtMost result bytes.now }
        ensures some { 0 < length bytes.now → IfOk result (λ n. 0 < n) }
        ensures bytes { WriteAppends (Some (memory_written self.old)) (Some (memory_written self.new))
            result bytes.now }
        ensures counted { Counts (write_plan self.old).failures (write_plan self.new).failures result }
        ensures count { IfOk result (λ n. n ≡ min (length bytes.now) (write_plan self.old).chunk) }
        ensures chosen { (write_plan self.old).calls_before_failure ≡ Some 0 → IsErr result }
        ensures next { (write_plan self.old).failures < last_count →
            (write_plan self.new).calls_before_failure ≡
            calls_after (write_plan self.old).calls_before_failure }
        ensures chunk { (write_plan self.new).chunk ≡ (write_plan self.old).chunk }
    {
        let chunk = self.plan.begin()?;
        let count = bytes.len().min(chunk);
        if self.bytes.extend_from_slice(&bytes[..count]).is_err() {
            return Err(self.plan.fail());
        }
        Ok(count)
    }
}
