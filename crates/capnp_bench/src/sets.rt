//! Dynamic sets: numbers by field handle in a struct and its groups, and messages that are built whole.
ghost use Rattle.std.specs.Prelude.{◌<◌, ◌≡◌, IfOk, OnOk};
ghost use Rattle.capnp_arena.specs.Built.{ChangesIn, IsBuilt, place_words};
ghost use Rattle.capnp_arena.specs.Forest.{Forest};
ghost use Rattle.capnp_arena.specs.Segment.{segment};
ghost use Rattle.capnp_arena.specs.Shape.{shape_at, word_count};
ghost use Rattle.capnp_schema.specs.FieldLists.{field_schema};
ghost use Rattle.capnp_slots.specs.Groups.{IsGroup, IsGroupAt};
ghost use Rattle.capnp_slots.specs.Standing.{IsStanding};
ghost use Rattle.capnp_bench.specs.Steps.Room.{AreShapes, LiesIn};

use crate::reads::number_of;
use capnp_arena::arena::{Arena, Place};
use capnp_arena::message;
use capnp_dynamic::dynamic_struct::{Builder, Reader};
use capnp_dynamic::dynamic_value::Reader as Value;
use capnp_dynamic::group;
use capnp_schema::builtin::new_set;
use capnp_schema::schema::{Field, StructSchema};
use capnp_slots::size_of;
use capnp_wire::error::{Error, Result};
use std::alloc::Global;

/// The number of the struct with groups among the built-in brands.
const SHAPES: u32 = 3;

/// The fields of it that are set, and of its groups.
#[derive(Clone, Copy)]
struct Shapes<'s> {
    id: Field<'s>,
    circle: Field<'s>,
    r: Field<'s>,
    tag: Field<'s>,
    n: Field<'s>,
    u1: Field<'s>,
    q: Field<'s>,
}

/// The field of a name; refused with `FieldNotFound` where there is none.
#[tactic(auto, using(crate::proofs::Kept::own_lies))]
pub(crate) fn field_of<'s>(schema: StructSchema<'s>, name: &str) -> Result<Field<'s>>
    ensures own { IfOk result (λ f. field_schema f ≡ schema.entry) }
    ensures lies { IfOk result (LiesIn schema.entry) }
{
    schema.get_field_by_name(name)
}

/// The schema of a field's group; refused with `TypeMismatch` for a slot.
fn group_of<'s>(field: Field<'s>) -> Result<StructSchema<'s>>
    ensures { IfOk result (IsGroupAt field.entry) }
{
    match group::group_of(field) {
        Some(group) => Ok(group),
        None => Err(Error::type_mismatch()),
    }
}

/// The group of a name; refused as `field_of`, and with `TypeMismatch` for a slot.
fn group_named<'s>(schema: StructSchema<'s>, name: &str) -> Result<Field<'s>>
    ensures lies { IfOk result (LiesIn schema.entry) }
    ensures group { IfOk result IsGroup }
{
    let field = field_of(schema, name)?;
    group_of(field)?;
    Ok(field)
}

/// The field of a name of a group; refused as `group_of` and `field_of`.
#[tactic(auto, using(crate::proofs::Kept::group_lies))]
fn inner_field<'s>(schema: StructSchema<'s>, group: Field<'s>, name: &str) -> Result<Field<'s>>
    requires { LiesIn schema group }
    ensures { IfOk result (LiesIn schema.entry) }
{
    let inner = group_of(group)?;
    field_of(inner, name)
}

/// The fields of a schema that are set.
fn shapes_of<'s>(schema: StructSchema<'s>) -> Result<Shapes<'s>>
    ensures { IfOk result (AreShapes schema.entry) }
{
    let id = field_of(schema, "id")?;
    let circle = group_named(schema, "circle")?;
    let r = inner_field(schema, circle, "r")?;
    let tag = group_named(schema, "tag")?;
    let n = inner_field(schema, tag, "n")?;
    let u1 = inner_field(schema, tag, "u1")?;
    let q = inner_field(schema, tag, "q")?;
    Ok(Shapes {
        id,
        circle,
        r,
        tag,
        n,
        u1,
        q,
    })
}

/// Sets a field of a struct.
#[tactic(auto, using(crate::proofs::Kept::kept_ready))]
#[inline(always)]
pub(crate) fn set<'s>(
    arena: &mut Arena,
    place: Place,
    schema: StructSchema<'s>,
    field: Field<'s>,
    value: Value<'_>,
) -> Result<()>
    requires lies { LiesIn schema field }
    requires standing { IsStanding schema arena.old place }
    ensures standing { IsStanding schema.entry arena.new place }
    ensures changes { ChangesIn place arena.old arena.new }
{
    let mut builder = Builder {
        arena,
        place,
        schema: field.get_containing_struct(),
    };
    builder.set(field, value)
}

/// Starts a group of a struct anew.
#[tactic(auto, using(crate::proofs::Kept::kept_ready))]
fn start<'s>(arena: &mut Arena, place: Place, schema: StructSchema<'s>, field: Field<'s>)
    requires group { IsGroup field }
    requires lies { LiesIn schema field }
    requires standing { IsStanding schema arena.old place }
    ensures standing { IsStanding schema.entry arena.new place }
    ensures changes { ChangesIn place arena.old arena.new }
{
    group::init(arena, place, field);
}

/// What a field reads as, as a number.
#[inline(always)]
fn get<'s>(arena: &Arena, place: Place, schema: StructSchema<'s>, field: Field<'s>) -> Result<u64>
    requires lies { LiesIn schema field }
    requires standing { IsStanding schema arena.now place }
{
    let reader = Reader::new(
        arena.get_struct_reader(place),
        field.get_containing_struct(),
    );
    Ok(number_of(reader.get(field)?))
}

/// Sets numbers of a struct and of its groups, and adds three of them as they then read.
#[inline(never)]
fn set_numbers(
    arena: &mut Arena,
    place: Place,
    schema: StructSchema<'_>,
    fields: &Shapes<'_>,
    number: u64,
    sum: &mut u64,
) -> Result<()>
    requires fields { AreShapes schema fields.now }
    requires standing { IsStanding schema arena.old place }
    ensures { IsStanding schema.entry arena.new place }
{
    let half = Value::UInt16((number % 65_536) as u16);
    set(arena, place, schema, fields.id, half)?;
    start(arena, place, schema, fields.circle);
    let whole = Value::UInt32((number % 4_294_967_296) as u32);
    set(arena, place, schema, fields.r, whole)?;
    start(arena, place, schema, fields.tag);
    set(arena, place, schema, fields.n, half)?;
    let byte = Value::UInt8((number % 256) as u8);
    set(arena, place, schema, fields.u1, byte)?;
    *sum = sum.wrapping_add(get(arena, place, schema, fields.id)?);
    *sum = sum.wrapping_add(get(arena, place, schema, fields.n)?);
    *sum = sum.wrapping_add(get(arena, place, schema, fields.u1)?);
    Ok(())
}

/// Sets numbers so many times.
fn set_all(
    arena: &mut Arena,
    place: Place,
    schema: StructSchema<'_>,
    fields: &Shapes<'_>,
    rounds: u64,
) -> Result<u64>
    requires fields { AreShapes schema fields.now }
    requires standing { IsStanding schema arena.old place }
{
    let mut sum: u64 = 0;
    for number in 0..rounds {
        set_numbers(arena, place, schema, fields, number, &mut sum)?;
    }
    Ok(sum)
}

/// Starts the root of a message, and answers where it stands.
pub(crate) fn start_root(message: &mut Arena, schema: StructSchema<'_>) -> Result<Place>
    requires { 0 < word_count (segment message.old) }
    ensures forest { OnOk result (Forest (segment message.new) 0) }
    ensures place { IfOk result (λ p. shape_at (segment message.new) 0 ≡ place_words p) }
    ensures standing { IfOk result (λ p. IsStanding schema.entry message.new p) }
{
    let size = size_of(schema);
    let place = message.init_struct(0, size)?;
    Ok(place)
}

fn numbers(alloc: Global, rounds: u64) -> Result<u64> {
    let schemas = new_set(alloc)?;
    let schema = schemas.struct_schema(SHAPES);
    let fields = shapes_of(schema)?;
    let mut message = message::Builder::new(alloc)?;
    let place = start_root(&mut message, schema)?;
    set_all(&mut message, place, schema, &fields, rounds)
}

/// Fills a struct with numbers and a text.
fn fill(
    arena: &mut Arena,
    place: Place,
    schema: StructSchema<'_>,
    fields: &Shapes<'_>,
) -> Result<()>
    requires fields { AreShapes schema fields.now }
    requires standing { IsStanding schema arena.old place }
    ensures planted { IsBuilt arena.new place }
    ensures changes { ChangesIn place arena.old arena.new }
{
    set(arena, place, schema, fields.id, Value::UInt16(5))?;
    start(arena, place, schema, fields.tag);
    set(arena, place, schema, fields.n, Value::UInt16(3))?;
    set(arena, place, schema, fields.u1, Value::UInt8(9))?;
    set(arena, place, schema, fields.q, Value::from("hello"))
}

/// Builds and writes a message, and gives the number of its bytes.
#[inline(never)]
fn build(alloc: Global, schema: StructSchema<'_>, fields: &Shapes<'_>) -> Result<u64>
    requires { AreShapes schema fields.now }
{
    let mut message = message::Builder::new(alloc)?;
    let place = start_root(&mut message, schema)?;
    fill(&mut message, place, schema, fields)?;
    Ok(message.write_message()?.len() as u64)
}

fn messages(alloc: Global, rounds: u64) -> Result<u64> {
    let schemas = new_set(alloc)?;
    let schema = schemas.struct_schema(SHAPES);
    let fields = shapes_of(schema)?;
    let mut sum: u64 = 0;
    for _ in 0..rounds {
        sum = sum.wrapping_add(build(alloc, schema, &fields)?);
    }
    Ok(sum)
}

#[unsafe(no_mangle)]
pub extern "C" fn bench_set_shapes_numbers(alloc: Global, _message: &[u8], rounds: u64) -> u64 {
    numbers(alloc, rounds).unwrap_or(0)
}

#[unsafe(no_mangle)]
pub extern "C" fn bench_set_shapes_message(alloc: Global, _message: &[u8], rounds: u64) -> u64 {
    messages(alloc, rounds).unwrap_or(0)
}
