//! Sets of schemas that are read from their message and checked.

use capnp_sets::message::read_message;
use capnp_wire::error::Result;
use std::alloc::Global;

/// Reads a set so many times, and adds the numbers of its nodes.
fn read(alloc: Global, bytes: &[u8], rounds: u64) -> Result<u64> {
    let mut sum: u64 = 0;
    for _ in 0..rounds {
        let schemas = read_message(alloc, bytes)?;
        sum = sum.wrapping_add(schemas.nodes().len() as u64);
    }
    Ok(sum)
}

#[unsafe(no_mangle)]
pub extern "C" fn bench_read_set(alloc: Global, message: &[u8], rounds: u64) -> u64 {
    read(alloc, message, rounds).unwrap_or(0)
}
