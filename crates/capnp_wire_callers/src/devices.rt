//! Bytes moved through a source and a sink in memory, one at a time.
ghost use Rattle.std.specs.Prelude.{◌≡◌, IfOk, Some};

use capnp_device::device::Sink;
use capnp_device::error::Result;
use capnp_device::memory::{MemorySink, MemorySource};
use capnp_device::transfer::{read_all, write_all};
use std::alloc::Global;

/// The bytes of a source that gives one at a time.
pub fn bytes_of(alloc: Global, bytes: &[u8]) -> Result<Vec<u8>>
    ensures { IfOk result (λ v. v.items ≡ bytes.now) }
{
    let mut source = MemorySource::new(bytes, 1, None);
    read_all(alloc, &mut source)
}

/// The sink that has taken just these bytes, one at a time.
pub fn sink_of(alloc: Global, bytes: &[u8]) -> Result<MemorySink>
    ensures { IfOk result (λ s. ⟦<MemorySink as Sink>⟧.written s ≡ Some bytes.now) }
{
    let mut sink = MemorySink::new(alloc, 1, None);
    write_all(&mut sink, bytes)?;
    Ok(sink)
}
