//! Compilers' requests that are converted to checked sets.

use capnp_request::{Converted, read_request};
use capnp_schema::set::SchemaSet;
use capnp_wire::error::Result;
use capnp_wire::message::Reader;
use std::alloc::Global;

/// The checked set of a request.
fn convert(alloc: Global, bytes: &[u8]) -> Result<SchemaSet> {
    let root = Reader::new(alloc, bytes)?.get_root().get_struct()?;
    let Converted {
        nodes,
        brands,
        enums,
        notes: _,
    } = read_request(alloc, root, false)?;
    SchemaSet::new(alloc, nodes, brands, enums)
}

/// Converts a request so many times, and adds the numbers of structs.
fn convert_all(alloc: Global, bytes: &[u8], rounds: u64) -> Result<u64> {
    let mut sum: u64 = 0;
    for _ in 0..rounds {
        let made = convert(alloc, bytes)?;
        sum = sum.wrapping_add(made.nodes().len() as u64);
    }
    Ok(sum)
}

#[unsafe(no_mangle)]
pub extern "C" fn bench_convert_request(alloc: Global, message: &[u8], rounds: u64) -> u64 {
    convert_all(alloc, message, rounds).unwrap_or(0)
}
