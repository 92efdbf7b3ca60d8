//! Reads of a message's words: opening, fields, hops, blobs, lists and far pointers.

use capnp_wire::error::Result;
use capnp_wire::message::Reader;
use capnp_wire::size::ElementSize;
use capnp_wire::{ListReader, StructReader};
use std::alloc::Global;

/// The root struct's pointers.
const ITEMS: u16 = 0;

const SMALL_NUMBERS: u16 = 1;

const LARGE_NUMBERS: u16 = 2;

const CHAIN: u16 = 4;

/// An item's pointers.
const BLOB: u16 = 0;

const NEXT: u16 = 1;

/// How many hops a chain is followed for.
const HOPS: u16 = 50;

fn root_of(alloc: Global, message: &[u8]) -> Result<StructReader<'_>> {
    Reader::new(alloc, message)?.get_root().get_struct()
}

fn chain_of(alloc: Global, message: &[u8]) -> Result<StructReader<'_>> {
    root_of(alloc, message)?
        .get_pointer_field(CHAIN)
        .get_struct()
}

fn list_of(
    alloc: Global,
    message: &[u8],
    pointer: u16,
    size: ElementSize,
) -> Result<ListReader<'_>> {
    root_of(alloc, message)?
        .get_pointer_field(pointer)
        .get_list(size)
}

fn items_of(alloc: Global, message: &[u8]) -> Result<ListReader<'_>> {
    list_of(alloc, message, ITEMS, ElementSize::InlineComposite)
}

fn open(alloc: Global, message: &[u8], rounds: u64) -> Result<u64> {
    let mut sum: u64 = 0;
    for _ in 0..rounds {
        let root = root_of(alloc, message)?;
        sum = sum.wrapping_add(!root.get_pointer_field(ITEMS).is_null() as u64);
    }
    Ok(sum)
}

fn bytes(alloc: Global, message: &[u8], rounds: u64) -> Result<u64> {
    let item = chain_of(alloc, message)?;
    let mut sum: u64 = 0;
    for i in 0..rounds {
        sum = sum.wrapping_add(item.get_data_field::<u8>((i % 32) as u32) as u64);
    }
    Ok(sum)
}

fn halves(alloc: Global, message: &[u8], rounds: u64) -> Result<u64> {
    let item = chain_of(alloc, message)?;
    let mut sum: u64 = 0;
    for i in 0..rounds {
        sum = sum.wrapping_add(item.get_data_field::<u16>((i % 16) as u32) as u64);
    }
    Ok(sum)
}

fn words(alloc: Global, message: &[u8], rounds: u64) -> Result<u64> {
    let item = chain_of(alloc, message)?;
    let mut sum: u64 = 0;
    for i in 0..rounds {
        sum = sum.wrapping_add(item.get_data_field::<u64>((i % 4) as u32));
    }
    Ok(sum)
}

fn bits(alloc: Global, message: &[u8], rounds: u64) -> Result<u64> {
    let item = chain_of(alloc, message)?;
    let mut sum: u64 = 0;
    for i in 0..rounds {
        sum = sum.wrapping_add(item.get_bool_field((i % 256) as u32) as u64);
    }
    Ok(sum)
}

#[inline(never)]
fn follow(alloc: Global, message: &[u8]) -> Result<u16> {
    let mut item = chain_of(alloc, message)?;
    for _ in 0..HOPS {
        item = item.get_pointer_field(NEXT).get_struct()?;
    }
    Ok(item.get_data_field::<u16>(1))
}

fn hops(alloc: Global, message: &[u8], rounds: u64) -> Result<u64> {
    let mut sum: u64 = 0;
    for _ in 0..rounds {
        sum = sum.wrapping_add(follow(alloc, message)? as u64);
    }
    Ok(sum)
}

#[inline(never)]
fn sum_texts(items: ListReader<'_>) -> Result<u64> {
    let mut sum: u64 = 0;
    for i in 0..items.len() {
        let item = items.get_struct_element(i)?;
        sum = sum.wrapping_add(item.get_pointer_field(BLOB).get_text()?.len() as u64);
    }
    Ok(sum)
}

fn texts(alloc: Global, message: &[u8], rounds: u64) -> Result<u64> {
    let items = items_of(alloc, message)?;
    let mut sum: u64 = 0;
    for _ in 0..rounds {
        sum = sum.wrapping_add(sum_texts(items)?);
    }
    Ok(sum)
}

#[inline(never)]
fn sum_data(items: ListReader<'_>) -> Result<u64> {
    let mut sum: u64 = 0;
    for i in 0..items.len() {
        let item = items.get_struct_element(i)?;
        sum = sum.wrapping_add(item.get_pointer_field(BLOB).get_data()?.len() as u64);
    }
    Ok(sum)
}

fn data(alloc: Global, message: &[u8], rounds: u64) -> Result<u64> {
    let items = items_of(alloc, message)?;
    let mut sum: u64 = 0;
    for _ in 0..rounds {
        sum = sum.wrapping_add(sum_data(items)?);
    }
    Ok(sum)
}

#[inline(never)]
fn sum_items(items: ListReader<'_>) -> Result<u64> {
    let mut sum: u64 = 0;
    for i in 0..items.len() {
        let item = items.get_struct_element(i)?;
        sum = sum.wrapping_add(item.get_data_field::<u16>(1) as u64);
    }
    Ok(sum)
}

fn structs(alloc: Global, message: &[u8], rounds: u64) -> Result<u64> {
    let items = items_of(alloc, message)?;
    let mut sum: u64 = 0;
    for _ in 0..rounds {
        sum = sum.wrapping_add(sum_items(items)?);
    }
    Ok(sum)
}

fn small_numbers(alloc: Global, message: &[u8], rounds: u64) -> Result<u64> {
    let list = list_of(alloc, message, SMALL_NUMBERS, ElementSize::TwoBytes)?;
    let mut sum: u64 = 0;
    for _ in 0..rounds {
        for number in list.numbers::<u16>() {
            sum = sum.wrapping_add(number as u64);
        }
    }
    Ok(sum)
}

fn large_numbers(alloc: Global, message: &[u8], rounds: u64) -> Result<u64> {
    let list = list_of(alloc, message, LARGE_NUMBERS, ElementSize::EightBytes)?;
    let mut sum: u64 = 0;
    for _ in 0..rounds {
        for number in list.numbers::<u64>() {
            sum = sum.wrapping_add(number);
        }
    }
    Ok(sum)
}

#[inline(never)]
fn sum_next(items: ListReader<'_>) -> Result<u64> {
    let mut sum: u64 = 0;
    for i in 0..items.len() {
        let item = items
            .get_struct_element(i)?
            .get_pointer_field(NEXT)
            .get_struct()?;
        sum = sum.wrapping_add(item.get_data_field::<u16>(1) as u64);
    }
    Ok(sum)
}

fn next(alloc: Global, message: &[u8], rounds: u64) -> Result<u64> {
    let items = items_of(alloc, message)?;
    let mut sum: u64 = 0;
    for _ in 0..rounds {
        sum = sum.wrapping_add(sum_next(items)?);
    }
    Ok(sum)
}

fn total_size(alloc: Global, message: &[u8], rounds: u64) -> Result<u64> {
    let reader = Reader::new(alloc, message)?;
    let mut sum: u64 = 0;
    for _ in 0..rounds {
        sum = sum.wrapping_add(reader.get_root().total_size()?.word_count);
    }
    Ok(sum)
}

#[unsafe(no_mangle)]
pub extern "C" fn bench_wire_open(alloc: Global, message: &[u8], rounds: u64) -> u64 {
    open(alloc, message, rounds).unwrap_or(0)
}

#[unsafe(no_mangle)]
pub extern "C" fn bench_wire_bytes(alloc: Global, message: &[u8], rounds: u64) -> u64 {
    bytes(alloc, message, rounds).unwrap_or(0)
}

#[unsafe(no_mangle)]
pub extern "C" fn bench_wire_halves(alloc: Global, message: &[u8], rounds: u64) -> u64 {
    halves(alloc, message, rounds).unwrap_or(0)
}

#[unsafe(no_mangle)]
pub extern "C" fn bench_wire_words(alloc: Global, message: &[u8], rounds: u64) -> u64 {
    words(alloc, message, rounds).unwrap_or(0)
}

#[unsafe(no_mangle)]
pub extern "C" fn bench_wire_bits(alloc: Global, message: &[u8], rounds: u64) -> u64 {
    bits(alloc, message, rounds).unwrap_or(0)
}

#[unsafe(no_mangle)]
pub extern "C" fn bench_wire_hops(alloc: Global, message: &[u8], rounds: u64) -> u64 {
    hops(alloc, message, rounds).unwrap_or(0)
}

#[unsafe(no_mangle)]
pub extern "C" fn bench_wire_texts(alloc: Global, message: &[u8], rounds: u64) -> u64 {
    texts(alloc, message, rounds).unwrap_or(0)
}

#[unsafe(no_mangle)]
pub extern "C" fn bench_wire_data(alloc: Global, message: &[u8], rounds: u64) -> u64 {
    data(alloc, message, rounds).unwrap_or(0)
}

#[unsafe(no_mangle)]
pub extern "C" fn bench_wire_structs(alloc: Global, message: &[u8], rounds: u64) -> u64 {
    structs(alloc, message, rounds).unwrap_or(0)
}

#[unsafe(no_mangle)]
pub extern "C" fn bench_wire_small_numbers(alloc: Global, message: &[u8], rounds: u64) -> u64 {
    small_numbers(alloc, message, rounds).unwrap_or(0)
}

#[unsafe(no_mangle)]
pub extern "C" fn bench_wire_large_numbers(alloc: Global, message: &[u8], rounds: u64) -> u64 {
    large_numbers(alloc, message, rounds).unwrap_or(0)
}

#[unsafe(no_mangle)]
pub extern "C" fn bench_wire_next(alloc: Global, message: &[u8], rounds: u64) -> u64 {
    next(alloc, message, rounds).unwrap_or(0)
}

#[unsafe(no_mangle)]
pub extern "C" fn bench_wire_total_size(alloc: Global, message: &[u8], rounds: u64) -> u64 {
    total_size(alloc, message, rounds).unwrap_or(0)
}
