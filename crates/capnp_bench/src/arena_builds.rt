//! Messages as `builds` makes them, built by the message's calls at places, and written into memory.
ghost use Rattle.std.specs.Prelude.{◌+◌, ◌*◌, ◌<◌, ◌≡◌, ◌≤◌};
ghost use Rattle.capnp_arena.specs.Forest.{Changes, Forest, PartChanges, Planted};
ghost use Rattle.capnp_arena.specs.Segment.{segment};
ghost use Rattle.capnp_arena.specs.Shape.{CompositeIn, StructIn, shape_at};

use capnp_arena::arena::{Arena, Place};
use capnp_wire::error::Result;
use capnp_wire::primitive::PrimitiveElement;
use capnp_wire::size::{ElementSize, StructSize};
use std::alloc::Global;

const ITEMS: u32 = 10_000;

const TEXT: &str = "a text of 20 letters";

/// Writes a number into the item that starts at a word.
fn put<T: PrimitiveElement>(arena: &mut Arena, start: usize, offset: u32, value: T)
    requires item { Planted (segment arena.old) (StructIn start 2 2) }
    requires inside { (offset + 1) * T.width ≤ 16 }
    ensures item { Planted (segment arena.new) (StructIn start 2 2) }
    ensures changes { PartChanges (StructIn start 2 2) (segment arena.old) (segment arena.new) }
{
    let place = Place {
        start,
        data_words: 2,
        pointers: 2,
    };
    arena.set_number(place, offset, value);
}

/// Writes the bit of an item.
fn put_flag(arena: &mut Arena, start: usize, value: bool)
    requires item { Planted (segment arena.old) (StructIn start 2 2) }
    ensures item { Planted (segment arena.new) (StructIn start 2 2) }
    ensures changes { PartChanges (StructIn start 2 2) (segment arena.old) (segment arena.new) }
{
    let place = Place {
        start,
        data_words: 2,
        pointers: 2,
    };
    arena.set_bool(place, 8, value);
}

/// Puts the text of an item, which stays one, also where it is refused.
fn put_text(arena: &mut Arena, start: usize, text: &[u8]) -> Result<()>
    requires item { Planted (segment arena.old) (StructIn start 2 2) }
    ensures item { Planted (segment arena.new) (StructIn start 2 2) }
    ensures changes { PartChanges (StructIn start 2 2) (segment arena.old) (segment arena.new) }
{
    arena.set_text(start + 2, text)
}

/// Fills the item of a number.
fn fill(arena: &mut Arena, start: usize, number: u32) -> Result<()>
    requires item { Planted (segment arena.old) (StructIn start 2 2) }
    ensures item { Planted (segment arena.new) (StructIn start 2 2) }
    ensures changes { PartChanges (StructIn start 2 2) (segment arena.old) (segment arena.new) }
{
    put::<u8>(arena, start, 0, (number % 256) as u8);
    put_flag(arena, start, number % 2 == 1);
    put::<u16>(arena, start, 1, (number % 65_536) as u16);
    put::<u32>(arena, start, 1, number);
    put::<u64>(arena, start, 1, number as u64);
    put_text(arena, start, TEXT.as_bytes())
}

/// Fills the items of a list, which the pointer at a word leads to.
fn fill_items(arena: &mut Arena, at: usize, tag: usize, count: u32) -> Result<()>
    requires forest { Forest (segment arena.old) at }
    requires list { shape_at (segment arena.old) at ≡ CompositeIn tag count 2 2 }
    ensures forest { Forest (segment arena.new) at }
    ensures changes { Changes at (segment arena.old) (segment arena.new) }
{
    for index in 0..count {
        fill(arena, tag + 1 + 4 * index as usize, index)?;
    }
    Ok(())
}

#[inline(never)]
fn build_once(alloc: Global) -> Result<u64> {
    let root_size = StructSize {
        data_words: 0,
        pointers: 5,
    };
    let item_size = StructSize {
        data_words: 2,
        pointers: 2,
    };
    let mut arena = Arena::new(alloc)?;
    let root = arena.init_struct(0, root_size)?;
    let tag = arena.init_struct_list(root.start, ITEMS, item_size)?;
    fill_items(&mut arena, root.start, tag, ITEMS)?;
    Ok(arena.write_message()?.len() as u64 / 8)
}

fn build(alloc: Global, rounds: u64) -> Result<u64> {
    let mut sum: u64 = 0;
    for _ in 0..rounds {
        sum = sum.wrapping_add(build_once(alloc)?);
    }
    Ok(sum)
}

#[unsafe(no_mangle)]
pub extern "C" fn bench_arena_build(alloc: Global, _message: &[u8], rounds: u64) -> u64 {
    build(alloc, rounds).unwrap_or(0)
}

/// Asks the longest list of nothing to be one of structs, which a limit of 60 words has no room for. Answers 1 where
/// that is refused.
fn grow_past_limit(alloc: Global) -> Result<u64> {
    let mut arena = Arena::with_limit(alloc, 60)?;
    arena.init_list(0, ElementSize::Void, (1 << 29) - 1)?;
    let size = StructSize {
        data_words: 1,
        pointers: 0,
    };
    match arena.get_struct_list(0, size) {
        Ok(_) => Ok(0),
        Err(_) => Ok(1),
    }
}

fn grow_often(alloc: Global, rounds: u64) -> Result<u64> {
    let mut sum: u64 = 0;
    for _ in 0..rounds {
        sum = sum.wrapping_add(grow_past_limit(alloc)?);
    }
    Ok(sum)
}

#[unsafe(no_mangle)]
pub extern "C" fn bench_arena_limit(alloc: Global, _message: &[u8], rounds: u64) -> u64 {
    grow_often(alloc, rounds).unwrap_or(0)
}
