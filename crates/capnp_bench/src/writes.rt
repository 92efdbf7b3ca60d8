//! Messages that are copied and encoded.

use capnp_arena::message::Builder;
use capnp_wire::error::Result;
use capnp_wire::message::Reader;
use std::alloc::Global;

#[inline(never)]
fn copy_once(alloc: Global, reader: Reader<'_>) -> Result<u64> {
    let mut message = Builder::new(alloc)?;
    message.set_root(reader.get_root())?;
    Ok(!message.is_null(0) as u64)
}

fn copy(alloc: Global, message: &[u8], rounds: u64) -> Result<u64> {
    let reader = Reader::new(alloc, message)?;
    let mut sum: u64 = 0;
    for _ in 0..rounds {
        sum = sum.wrapping_add(copy_once(alloc, reader)?);
    }
    Ok(sum)
}

fn encode(alloc: Global, message: &[u8], rounds: u64) -> Result<u64> {
    let mut built = Builder::new(alloc)?;
    built.set_root(Reader::new(alloc, message)?.get_root())?;
    let mut sum: u64 = 0;
    for _ in 0..rounds {
        sum = sum.wrapping_add(built.write_message()?.len() as u64 / 8);
    }
    Ok(sum)
}

#[unsafe(no_mangle)]
pub extern "C" fn bench_wire_copy(alloc: Global, message: &[u8], rounds: u64) -> u64 {
    copy(alloc, message, rounds).unwrap_or(0)
}

#[unsafe(no_mangle)]
pub extern "C" fn bench_wire_encode(alloc: Global, message: &[u8], rounds: u64) -> u64 {
    encode(alloc, message, rounds).unwrap_or(0)
}
