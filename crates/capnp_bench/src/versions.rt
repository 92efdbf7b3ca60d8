//! Two versions of a set, which are compared once both are read.

use capnp_schema::set::SchemaSet;
use capnp_sets::message::read_message;
use capnp_versions::compare_all_owned;
use capnp_wire::error::Result;
use std::alloc::Global;

/// How many rounds find their sets read, as many as a run has.
const READ: u32 = 8;

/// A set twice: a comparison takes both apart.
#[derive(Drop)]
struct Versions {
    older: SchemaSet,
    newer: SchemaSet,
}

/// A set, as it is read twice.
fn read_versions(alloc: Global, bytes: &[u8]) -> Result<Versions> {
    let older = read_message(alloc, bytes)?;
    let newer = read_message(alloc, bytes)?;
    Ok(Versions { older, newer })
}

/// The sets of the rounds of a run. A run without rounds reads them too, so that the reading can be told from the rest.
fn read_all(alloc: Global, bytes: &[u8]) -> Result<Vec<Versions>> {
    let mut all = Vec::new(alloc);
    for _ in 0..READ {
        let versions = read_versions(alloc, bytes)?;
        all.push(versions)?;
    }
    Ok(all)
}

/// The sets of the next round, which are read only where those that were read are at an end.
fn next_versions(alloc: Global, bytes: &[u8], all: &mut Vec<Versions>) -> Result<Versions> {
    match all.pop() {
        Some(versions) => Ok(versions),
        None => read_versions(alloc, bytes),
    }
}

/// Compares a set with itself, as it is read again, so many times, and adds how many structs are compatible.
fn compare(alloc: Global, bytes: &[u8], rounds: u64) -> Result<u64> {
    let mut all = read_all(alloc, bytes)?;
    let mut sum: u64 = 0;
    for _ in 0..rounds {
        let versions = next_versions(alloc, bytes, &mut all)?;
        let comparison = compare_all_owned(alloc, versions.older, versions.newer)?;
        sum = sum.wrapping_add(comparison.compatible as u64);
    }
    Ok(sum)
}

#[unsafe(no_mangle)]
pub extern "C" fn bench_compare_sets(alloc: Global, message: &[u8], rounds: u64) -> u64 {
    compare(alloc, message, rounds).unwrap_or(0)
}
