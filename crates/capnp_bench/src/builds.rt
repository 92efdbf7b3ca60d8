//! Messages that are built by builders, and written into memory.
ghost use Rattle.std.specs.Prelude.{◌≡◌, ◌<◌};
ghost use Rattle.capnp_arena.specs.Forest.{Changes, Forest, PartChanges, tree};
ghost use Rattle.capnp_arena.specs.Handles.{IsBuiltStruct, handle_words};
ghost use Rattle.capnp_arena.specs.Segment.{segment};
ghost use Rattle.capnp_bench.specs.Steps.Items.{AreItems};

use capnp_arena::handles::StructBuilder;
use capnp_arena::message::Builder;
use capnp_wire::error::Result;
use capnp_wire::size::StructSize;
use std::alloc::Global;

const ITEMS: u32 = 10_000;

const TEXT: &str = "a text of 20 letters";

/// Puts the text of an item, which stays one, also where it is refused.
fn put_text(item: &mut StructBuilder<'_>, text: &[u8]) -> Result<()>
    requires item { IsBuiltStruct item.old }
    requires pointer { 0 < item.old.place.pointers }
    ensures same { item.new.arena.ghost_name ≡ item.old.arena.ghost_name }
    ensures place { item.new.place ≡ item.old.place }
    ensures item { IsBuiltStruct item.new }
    ensures changes { PartChanges (handle_words item.old.place) (segment item.old.arena.now) (segment item.new.arena.now) }
{
    let place = item.place;
    let mut pointer = item.arena.pointer_field(place, 0);
    pointer.set_text(text)?;
    Ok(())
}

/// Fills the item of a number.
fn fill(item: &mut StructBuilder<'_>, number: u32) -> Result<()>
    requires item { IsBuiltStruct item.old }
    requires size { (item.old.place.data_words ≡ 2) × (item.old.place.pointers ≡ 2) }
    ensures same { item.new.arena.ghost_name ≡ item.old.arena.ghost_name }
    ensures place { item.new.place ≡ item.old.place }
    ensures item { IsBuiltStruct item.new }
    ensures changes { PartChanges (handle_words item.old.place) (segment item.old.arena.now) (segment item.new.arena.now) }
{
    item.set_data_field::<u8>(0, (number % 256) as u8);
    item.set_bool_field(8, number % 2 == 1);
    item.set_data_field::<u16>(1, (number % 65_536) as u16);
    item.set_data_field::<u32>(1, number);
    item.set_data_field::<u64>(1, number as u64);
    put_text(item, TEXT.as_bytes())
}

/// Fills an item of so many, in the list that the pointer at a word leads to.
fn fill_at(message: &mut Builder, at: usize, count: u32, index: u32) -> Result<()>
    requires forest { Forest (segment message.old) at }
    requires items { AreItems count (tree (segment message.old) at) }
    requires inside { index < count }
    ensures forest { Forest (segment message.new) at }
    ensures items { AreItems count (tree (segment message.new) at) }
    ensures changes { Changes at (segment message.old) (segment message.new) }
{
    let mut item = message.struct_element(at, index);
    let filled = fill(&mut item, index);
    message.tree_is_sound(at);
    filled
}

/// Fills the items of a list, which the pointer at a word leads to.
fn fill_items(message: &mut Builder, at: usize, count: u32) -> Result<()>
    requires forest { Forest (segment message.old) at }
    requires items { AreItems count (tree (segment message.old) at) }
    ensures forest { Forest (segment message.new) at }
    ensures changes { Changes at (segment message.old) (segment message.new) }
{
    for index in 0..count {
        fill_at(message, at, count, index)?;
    }
    Ok(())
}

#[inline(never)]
fn build_once(alloc: Global) -> Result<u64> {
    let root_size = StructSize {
        data_words: 0,
        pointers: 5,
    };
    let item_size = StructSize {
        data_words: 2,
        pointers: 2,
    };
    let mut message = Builder::new(alloc)?;
    let root = message.root().init_struct(root_size)?;
    let items = root
        .get_pointer_field(0)
        .init_struct_list(ITEMS, item_size)?;
    let at = items.at;
    fill_items(&mut message, at, ITEMS)?;
    Ok(message.write_message()?.len() as u64 / 8)
}

fn build(alloc: Global, rounds: u64) -> Result<u64> {
    let mut sum: u64 = 0;
    for _ in 0..rounds {
        sum = sum.wrapping_add(build_once(alloc)?);
    }
    Ok(sum)
}

#[unsafe(no_mangle)]
pub extern "C" fn bench_wire_build(alloc: Global, _message: &[u8], rounds: u64) -> u64 {
    build(alloc, rounds).unwrap_or(0)
}
