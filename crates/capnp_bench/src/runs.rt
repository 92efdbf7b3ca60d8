//! Runs: a list of calls along paths of one message, which is made again and again.
ghost use Rattle.std.specs.Prelude.{◌<◌};
ghost use Rattle.capnp_slots.specs.Standing.{IsStanding, TakesCalls};

use capnp_arena::arena::{Arena, Place};
use capnp_arena::message::Builder;
use capnp_call::calls::{Call, Op, Plain, Reply, Step};
use capnp_call::runs::run_on;
use capnp_dynamic_readers::dynamic_value::Reader as Value;
use capnp_schema::builtin::new_set;
use capnp_schema::schema::StructSchema;
use capnp_slots::size_of;
use capnp_wire::error::Result;
use std::alloc::Global;

/// The number of the struct that may hold another one of it among the built-in brands.
const LOOP: u32 = 6;

/// The number of the struct of lists.
const LISTS: u32 = 7;

/// The length of the list that calls go into.
const ITEMS: u32 = 1_000;

/// A path through structs that stand in one another.
static AGAIN: [Step<'static>; 8] = [Step::Field(1); 8];

/// What a reply adds: a number that was read, whether something is there as 0 or 1, and 1 for another one that is no
/// refusal.
fn number_of(reply: &Reply) -> u64 {
    match reply {
        Reply::Value(Plain::UInt16(number)) => *number as u64,
        Reply::Flag(there) => *there as u64,
        Reply::Refused(_) => 0,
        _ => 1,
    }
}

fn sum_of(replies: &[Reply]) -> u64 {
    let mut sum: u64 = 0;
    for reply in replies {
        sum = sum.wrapping_add(number_of(reply));
    }
    sum
}

/// Makes a list of calls so many times on a struct, and adds the replies.
#[tactic(auto, using(crate::proofs::Started::standing_on))]
fn make(
    alloc: Global,
    arena: &mut Arena,
    place: Place,
    schema: StructSchema<'_>,
    calls: &[Call<'_>],
    rounds: u64,
) -> Result<u64>
    requires ready { TakesCalls schema arena.old place }
    ensures standing { IsStanding schema.entry arena.new place }
{
    let mut sum: u64 = 0;
    for _ in 0..rounds {
        let replies = run_on(alloc, arena, place, schema, calls)?;
        sum = sum.wrapping_add(sum_of(&replies));
    }
    Ok(sum)
}

/// Makes calls once on an empty struct, and then others so many times.
fn make_after(
    alloc: Global,
    brand: u32,
    first: &[Call<'_>],
    calls: &[Call<'_>],
    rounds: u64,
) -> Result<u64> {
    let schemas = new_set(alloc)?;
    let Some(schema) = schemas.get_struct(brand) else {
        return Ok(0);
    };
    let mut message = Builder::new(alloc)?;
    let place = message.init_struct(0, size_of(schema))?;
    make(alloc, &mut message, place, schema, first, 1)?;
    make(alloc, &mut message, place, schema, calls, rounds)
}

/// The paths to the elements of the list.
fn item_paths(alloc: Global) -> Result<Vec<[Step<'static>; 2]>> {
    let mut paths = Vec::with_capacity(alloc, ITEMS as usize)?;
    for index in 0..ITEMS {
        paths.push([Step::Field(3), Step::Element(index)])?;
    }
    Ok(paths)
}

/// So many sets and gets in turn, of the number of an element.
fn item_calls<'c>(
    alloc: Global,
    paths: &'c [[Step<'static>; 2]],
    count: u32,
) -> Result<Vec<Call<'c>>> {
    let mut calls = Vec::with_capacity(alloc, count as usize)?;
    for number in 0..count {
        let Some(path) = paths.get((number / 2 % ITEMS) as usize) else {
            return Ok(calls);
        };
        let op = if number % 2 == 0 {
            Op::Set(Value::UInt16((number % 65_536) as u16))
        } else {
            Op::Get
        };
        calls.push(Call {
            path,
            last: Step::Field(0),
            op,
        })?;
    }
    Ok(calls)
}

fn items(alloc: Global, count: u32, rounds: u64) -> Result<u64> {
    let paths = item_paths(alloc)?;
    let calls = item_calls(alloc, &paths, count)?;
    let first = [Call {
        path: &[],
        last: Step::Field(3),
        op: Op::Initn(ITEMS),
    }];
    make_after(alloc, LISTS, &first, &calls, rounds)
}

/// Starts structs in one another.
fn chain_calls(alloc: Global) -> Result<Vec<Call<'static>>> {
    let mut calls = Vec::new(alloc);
    for depth in 0..8usize {
        calls.push(Call {
            path: &AGAIN[..depth],
            last: Step::Field(1),
            op: Op::Init,
        })?;
    }
    Ok(calls)
}

/// So many questions whether a struct is there, which stands in so many others.
fn has_calls(alloc: Global, count: u32, depth: usize) -> Result<Vec<Call<'static>>>
    requires { depth < 8 }
{
    let mut calls = Vec::with_capacity(alloc, count as usize)?;
    for _ in 0..count {
        calls.push(Call {
            path: &AGAIN[..depth],
            last: Step::Field(1),
            op: Op::Has,
        })?;
    }
    Ok(calls)
}

fn chain(alloc: Global, count: u32, depth: usize, rounds: u64) -> Result<u64>
    requires { depth < 8 }
{
    let first = chain_calls(alloc)?;
    let calls = has_calls(alloc, count, depth)?;
    make_after(alloc, LOOP, &first, &calls, rounds)
}

#[unsafe(no_mangle)]
pub extern "C" fn bench_run_items(alloc: Global, _message: &[u8], rounds: u64) -> u64 {
    items(alloc, 1_000, rounds).unwrap_or(0)
}

#[unsafe(no_mangle)]
pub extern "C" fn bench_run_items_many(alloc: Global, _message: &[u8], rounds: u64) -> u64 {
    items(alloc, 10_000, rounds).unwrap_or(0)
}

#[unsafe(no_mangle)]
pub extern "C" fn bench_run_short(alloc: Global, _message: &[u8], rounds: u64) -> u64 {
    chain(alloc, 1_000, 2, rounds).unwrap_or(0)
}

#[unsafe(no_mangle)]
pub extern "C" fn bench_run_short_many(alloc: Global, _message: &[u8], rounds: u64) -> u64 {
    chain(alloc, 10_000, 2, rounds).unwrap_or(0)
}

#[unsafe(no_mangle)]
pub extern "C" fn bench_run_long(alloc: Global, _message: &[u8], rounds: u64) -> u64 {
    chain(alloc, 1_000, 5, rounds).unwrap_or(0)
}

#[unsafe(no_mangle)]
pub extern "C" fn bench_run_long_many(alloc: Global, _message: &[u8], rounds: u64) -> u64 {
    chain(alloc, 10_000, 5, rounds).unwrap_or(0)
}
