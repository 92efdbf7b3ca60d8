//! Documents: each has items with two texts, a list of numbers and two tagged structs. One is patched, and a list of
//! items is built.
ghost use Rattle.std.specs.Prelude.{IfOk, OnOk, ◌<◌};
ghost use Rattle.capnp_arena.specs.Built.{ChangesIn, IsBuilt};
ghost use Rattle.capnp_arena.specs.Forest.{Changes, Forest, tree};
ghost use Rattle.capnp_arena.specs.Segment.{segment};
ghost use Rattle.capnp_wire.specs.Reading.{list_length};
ghost use Rattle.capnp_schema.specs.StructHandles.{IsStruct};
ghost use Rattle.capnp_slots.specs.Standing.{IsStanding};
ghost use Rattle.capnp_bench.specs.Steps.Room.{AreItemFields, HoldsItems, IsSlotOfList, LiesIn};

use crate::document_set::{DOCUMENT, ITEM, read_documents, schema_of};
use crate::sets::{field_of, set, start_root};
use capnp_arena::arena::{Arena, Place};
use capnp_arena::message::Builder;
use capnp_base::introspect::TypeVariant;
use capnp_call::calls::{Call, Op, Step};
use capnp_call::message::{MOST_WORDS, run_copied};
use capnp_dynamic::{part, slot};
use capnp_dynamic_readers::dynamic_value::Reader as Value;
use capnp_schema::schema::{Field, StructSchema};
use capnp_slots::size_of;
use capnp_wire::error::{Error, Result};
use capnp_wire::message::Reader;
use capnp_wire::size::ElementSize;
use std::alloc::Global;

/// The length of a list that is built.
const COUNT: u32 = 100_000;

/// The paths of the calls of a patch.
static NAMED: [Step<'static>; 2] = [Step::Field(2), Step::Element(77_777)];

static TAGGED: [Step<'static>; 4] = [
    Step::Field(2),
    Step::Element(5),
    Step::Field(5),
    Step::Element(1),
];

/// The calls of a patch: a number, the name of an item and the label of a tag are set.
fn calls_of(alloc: Global) -> Result<Vec<Call<'static>>> {
    let mut calls = Vec::new(alloc);
    calls.push(Call {
        path: &[],
        last: Step::Field(0),
        op: Op::Set(Value::UInt32(8)),
    })?;
    calls.push(Call {
        path: &NAMED,
        last: Step::Field(2),
        op: Op::Set(Value::from("another name of 26 letters")),
    })?;
    calls.push(Call {
        path: &TAGGED,
        last: Step::Field(1),
        op: Op::Set(Value::from("another label")),
    })?;
    Ok(calls)
}

/// What a patch has set, as it is read.
fn seen_in(alloc: Global, bytes: &[u8]) -> Result<u64> {
    let root = Reader::new(alloc, bytes)?.get_root().get_struct()?;
    let items = root
        .get_pointer_field(1)
        .get_list(ElementSize::InlineComposite)?;
    if items.len() <= 77_777 {
        return Ok(0);
    }
    let name = items
        .get_struct_element(77_777)?
        .get_pointer_field(0)
        .get_text()?;
    let tags = items
        .get_struct_element(5)?
        .get_pointer_field(3)
        .get_list(ElementSize::InlineComposite)?;
    if tags.len() <= 1 {
        return Ok(0);
    }
    let label = tags.get_struct_element(1)?.get_pointer_field(0).get_text()?;
    let version = root.get_data_field::<u32>(0);
    Ok(
        (version as u64)
            .wrapping_add(name.len() as u64)
            .wrapping_add(label.len() as u64),
    )
}

/// Makes the calls on a copy of a document.
fn patch_once(
    alloc: Global,
    bytes: &[u8],
    document: StructSchema<'_>,
    calls: &[Call<'_>],
) -> Result<Builder>
    requires { IsStruct document }
    ensures { IfOk result (λ message. Forest (segment message) 0) }
{
    let root = Reader::new(alloc, bytes)?.get_root();
    let left = run_copied(alloc, MOST_WORDS, root, document, calls)?;
    Ok(left.message)
}

fn patch(alloc: Global, bytes: &[u8], rounds: u64) -> Result<u64> {
    let schemas = read_documents(alloc)?;
    let document = schema_of(&schemas, DOCUMENT)?;
    let calls = calls_of(alloc)?;
    let mut sum: u64 = 0;
    for _ in 0..rounds {
        let message = patch_once(alloc, bytes, document, &calls)?;
        sum = sum.wrapping_add(seen_in(alloc, &message.write_message()?)?);
    }
    Ok(sum)
}

/// Writes a document that was patched once so many times.
fn write_patched(alloc: Global, bytes: &[u8], rounds: u64) -> Result<u64> {
    let schemas = read_documents(alloc)?;
    let document = schema_of(&schemas, DOCUMENT)?;
    let calls = calls_of(alloc)?;
    let message = patch_once(alloc, bytes, document, &calls)?;
    let mut sum: u64 = 0;
    for _ in 0..rounds {
        sum = sum.wrapping_add(seen_in(alloc, &message.write_message()?)?);
    }
    Ok(sum)
}

/// The fields of an item that are set.
#[derive(Clone, Copy)]
struct ItemFields<'s> {
    id: Field<'s>,
    kind: Field<'s>,
    name: Field<'s>,
}

fn item_fields<'s>(item: StructSchema<'s>) -> Result<ItemFields<'s>>
    ensures { IfOk result (AreItemFields item.entry) }
{
    let id = field_of(item, "id")?;
    let kind = field_of(item, "kind")?;
    let name = field_of(item, "name")?;
    Ok(ItemFields { id, kind, name })
}

/// The slot of a list of that name; refused as `field_of`, and with `TypeMismatch` for another field.
fn list_field<'s>(schema: StructSchema<'s>, name: &str) -> Result<Field<'s>>
    ensures lies { IfOk result (LiesIn schema.entry) }
    ensures list { IfOk result IsSlotOfList }
{
    let field = field_of(schema, name)?;
    if !slot::is_slot(field) {
        return Err(Error::type_mismatch());
    }
    match field.get_type().which() {
        TypeVariant::List(_) => Ok(field),
        _ => Err(Error::type_mismatch()),
    }
}

/// Fills the item that stands at a place.
fn fill_item(
    arena: &mut Arena,
    place: Place,
    item: StructSchema<'_>,
    fields: &ItemFields<'_>,
    index: u32,
) -> Result<()>
    requires fields { AreItemFields item fields.now }
    requires standing { IsStanding item arena.old place }
    ensures standing { IsStanding item.entry arena.new place }
    ensures changes { ChangesIn place arena.old arena.new }
{
    set(arena, place, item, fields.id, Value::UInt64(index as u64))?;
    let kind = Value::UInt16((index % 65_536) as u16);
    set(arena, place, item, fields.kind, kind)?;
    let name = Value::from("a text of 20 letters");
    set(arena, place, item, fields.name, name)
}

/// Fills an item of the list that a pointer leads to.
fn fill_at(
    arena: &mut Arena,
    at: usize,
    item: StructSchema<'_>,
    fields: &ItemFields<'_>,
    index: u32,
) -> Result<()>
    requires fields { AreItemFields item fields.now }
    requires forest { Forest (segment arena.old) at }
    requires holds { HoldsItems item (tree (segment arena.old) at) }
    requires inside { index < list_length (tree (segment arena.old) at) }
    ensures forest { Forest (segment arena.new) at }
    ensures holds { HoldsItems item.entry (tree (segment arena.new) at) }
    ensures changes { Changes at (segment arena.old) (segment arena.new) }
{
    arena.tree_is_sound(at);
    let place = arena.get_struct_at(at, index);
    fill_item(arena, place, item, fields, index)
}

/// Fills the items of the list that a pointer leads to.
fn fill_items(
    arena: &mut Arena,
    at: usize,
    item: StructSchema<'_>,
    fields: &ItemFields<'_>,
) -> Result<()>
    requires fields { AreItemFields item fields.now }
    requires forest { Forest (segment arena.old) at }
    requires holds { HoldsItems item (tree (segment arena.old) at) }
    ensures forest { OnOk result (Forest (segment arena.new) at) }
    ensures changes { OnOk result (Changes at (segment arena.old) (segment arena.new)) }
{
    let mut index = 0;
    while index < arena.get_length(at) {
        fill_at(arena, at, item, fields, index)?;
        index += 1;
    }
    Ok(())
}

/// Builds a document with a list of items, and writes it.
#[inline(never)]
fn build_once(
    alloc: Global,
    document: StructSchema<'_>,
    items: Field<'_>,
    item: StructSchema<'_>,
    fields: &ItemFields<'_>,
) -> Result<u64>
    requires fields { AreItemFields item fields.now }
    requires lies { LiesIn document items }
    requires list { IsSlotOfList items }
{
    let mut message = Builder::new(alloc)?;
    let root = start_root(&mut message, document)?;
    slot::initn(&mut message, root, items, COUNT)?;
    let at = part::pointer(&message, root, items);
    message.tree_is_sound(at);
    message.get_struct_list(at, size_of(item))?;
    fill_items(&mut message, at, item, fields)?;
    Ok(message.write_message()?.len() as u64 / 8)
}

fn build(alloc: Global, rounds: u64) -> Result<u64> {
    let schemas = read_documents(alloc)?;
    let document = schema_of(&schemas, DOCUMENT)?;
    let item = schema_of(&schemas, ITEM)?;
    let fields = item_fields(item)?;
    let items = list_field(document, "items")?;
    let mut sum: u64 = 0;
    for _ in 0..rounds {
        sum = sum.wrapping_add(build_once(alloc, document, items, item, &fields)?);
    }
    Ok(sum)
}

#[unsafe(no_mangle)]
pub extern "C" fn bench_patch_document(alloc: Global, message: &[u8], rounds: u64) -> u64 {
    patch(alloc, message, rounds).unwrap_or(0)
}

#[unsafe(no_mangle)]
pub extern "C" fn bench_write_patched(alloc: Global, message: &[u8], rounds: u64) -> u64 {
    write_patched(alloc, message, rounds).unwrap_or(0)
}

#[unsafe(no_mangle)]
pub extern "C" fn bench_build_items(alloc: Global, _message: &[u8], rounds: u64) -> u64 {
    build(alloc, rounds).unwrap_or(0)
}
