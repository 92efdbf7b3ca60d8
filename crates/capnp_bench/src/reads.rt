//! Dynamic reads: the six fields of a struct, by name and by field handle.
ghost use Rattle.std.specs.Prelude.{◌≡◌, All, IfOk};
ghost use Rattle.capnp_dynamic_readers.specs.Handles.{schema_of};
ghost use Rattle.capnp_dynamic_readers.specs.Reads.{BelongsTo};

use capnp_dynamic::dynamic_struct::Reader;
use capnp_dynamic::dynamic_value::Reader as Value;
use capnp_schema::builtin::new_set;
use capnp_schema::schema::{Field, StructSchema};
use capnp_wire::error::Result;
use capnp_wire::message;
use std::alloc::Global;

const NAMES: [&str; 6] = ["flag", "s", "n", "w", "q", "z"];

/// The number of the struct of six numbers among the built-in brands.
const MANY: u32 = 2;

pub(crate) fn root_of<'a>(
    alloc: Global,
    message: &'a [u8],
    schema: StructSchema<'a>,
) -> Result<Reader<'a>>
    ensures { IfOk result (λ root. schema_of root ≡ schema.entry) }
{
    let root = message::Reader::new(alloc, message)?
        .get_root()
        .get_struct()?;
    Ok(Reader::new(root, schema))
}

/// The handles of all fields.
fn fields_of<'s>(alloc: Global, schema: StructSchema<'s>) -> Result<Vec<Field<'s>>>
    ensures { IfOk result (λ fields. All (λ f. BelongsTo f schema.entry) fields.items) }
{
    let all = schema.get_fields()?;
    let mut fields = Vec::new(alloc);
    for i in 0..all.len() {
        fields.push(all.get(i))?;
    }
    Ok(fields)
}

/// A field as a number of 64 bits: in two's complement, a truth value as 0 or 1, and nothing as 0.
pub(crate) fn number_of(value: Value<'_>) -> u64 {
    match value {
        Value::Bool(x) => x as u64,
        Value::Int8(x) => (x as i64).cast_unsigned(),
        Value::Int16(x) => (x as i64).cast_unsigned(),
        Value::Int32(x) => (x as i64).cast_unsigned(),
        Value::Int64(x) => x.cast_unsigned(),
        Value::UInt8(x) => x as u64,
        Value::UInt16(x) => x as u64,
        Value::UInt32(x) => x as u64,
        Value::UInt64(x) => x,
        _ => 0,
    }
}

#[inline(never)]
fn sum_by_field<'a>(root: Reader<'a>, fields: &[Field<'a>], sum: &mut u64)
    requires { All (λ f. BelongsTo f (schema_of root)) fields.now }
{
    for field in fields {
        if let Ok(value) = root.get(*field) {
            *sum = sum.wrapping_add(number_of(value));
        }
    }
}

#[inline(never)]
fn sum_by_name(root: Reader<'_>, sum: &mut u64) {
    for name in NAMES {
        if let Ok(value) = root.get_named(name) {
            *sum = sum.wrapping_add(number_of(value));
        }
    }
}

fn by_name_opened(alloc: Global, message: &[u8], rounds: u64) -> Result<u64> {
    let schemas = new_set(alloc)?;
    let schema = schemas.struct_schema(MANY);
    let mut sum = 0;
    for _ in 0..rounds {
        let root = root_of(alloc, message, schema)?;
        sum_by_name(root, &mut sum);
    }
    Ok(sum)
}

fn by_name(alloc: Global, message: &[u8], rounds: u64) -> Result<u64> {
    let schemas = new_set(alloc)?;
    let root = root_of(alloc, message, schemas.struct_schema(MANY))?;
    let mut sum = 0;
    for _ in 0..rounds {
        sum_by_name(root, &mut sum);
    }
    Ok(sum)
}

fn by_field_opened(alloc: Global, message: &[u8], rounds: u64) -> Result<u64> {
    let schemas = new_set(alloc)?;
    let schema = schemas.struct_schema(MANY);
    let fields = fields_of(alloc, schema)?;
    let mut sum = 0;
    for _ in 0..rounds {
        let root = root_of(alloc, message, schema)?;
        sum_by_field(root, fields.as_slice(), &mut sum);
    }
    Ok(sum)
}

fn by_field(alloc: Global, message: &[u8], rounds: u64) -> Result<u64> {
    let schemas = new_set(alloc)?;
    let schema = schemas.struct_schema(MANY);
    let fields = fields_of(alloc, schema)?;
    let root = root_of(alloc, message, schema)?;
    let mut sum = 0;
    for _ in 0..rounds {
        sum_by_field(root, fields.as_slice(), &mut sum);
    }
    Ok(sum)
}

fn find_by_name(alloc: Global, rounds: u64) -> Result<u64> {
    let schemas = new_set(alloc)?;
    let schema = schemas.struct_schema(MANY);
    let mut sum: u64 = 0;
    for _ in 0..rounds {
        for name in NAMES {
            if let Some(field) = schema.find_field_by_name(name)? {
                sum = sum.wrapping_add(field.get_index() as u64);
            }
        }
    }
    Ok(sum)
}

#[unsafe(no_mangle)]
pub extern "C" fn bench_read_by_name_opened(alloc: Global, message: &[u8], rounds: u64) -> u64 {
    by_name_opened(alloc, message, rounds).unwrap_or(0)
}

#[unsafe(no_mangle)]
pub extern "C" fn bench_read_by_name(alloc: Global, message: &[u8], rounds: u64) -> u64 {
    by_name(alloc, message, rounds).unwrap_or(0)
}

#[unsafe(no_mangle)]
pub extern "C" fn bench_read_by_field_opened(alloc: Global, message: &[u8], rounds: u64) -> u64 {
    by_field_opened(alloc, message, rounds).unwrap_or(0)
}

#[unsafe(no_mangle)]
pub extern "C" fn bench_read_by_field(alloc: Global, message: &[u8], rounds: u64) -> u64 {
    by_field(alloc, message, rounds).unwrap_or(0)
}

#[unsafe(no_mangle)]
pub extern "C" fn bench_find_by_name(alloc: Global, _message: &[u8], rounds: u64) -> u64 {
    find_by_name(alloc, rounds).unwrap_or(0)
}
