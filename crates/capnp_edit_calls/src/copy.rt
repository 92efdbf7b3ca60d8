//! What stands at the end of a path is copied to the end of another.
ghost use Rattle.std.specs.Prelude.{IfErr, IfOk, Err as ErrOf, Ok as OkOf, ◌≡◌, ◌≢◌, ◌⊎◌};
ghost use Rattle.capnp_device.specs.declared.error.ErrorKind.TheVariants.{OutOfMemory, TooDeep};
ghost use Rattle.capnp_wire.specs.Depth.{IsShallow, message_levels};
ghost use Rattle.capnp_wire.specs.Reading.{as_struct};
ghost use Rattle.capnp_wire.specs.Standing.{struct_of};
ghost use Rattle.capnp_arena.specs.Built.{IsBuilt, built_at};
ghost use Rattle.capnp_arena.specs.Frame.{LeavesStruct};
ghost use Rattle.capnp_arena.specs.Message.{IsMessage, message_tree};
ghost use Rattle.capnp_arena.specs.Segment.{segment};
ghost use Rattle.capnp_records.specs.Call.{Source};
ghost use Rattle.capnp_schema.specs.StructHandles.{IsStruct};
ghost use Rattle.capnp_dynamic_readers.specs.declared.dynamic_value.Reader.TheVariants.{List as ListOf, Struct as StructOf};
ghost use Rattle.capnp_slots.specs.Primitives.{primitive_source};
ghost use Rattle.capnp_slots.specs.SetValues.{source_of};
ghost use Rattle.capnp_slots.specs.Standing.{TakesCalls};
ghost use Rattle.capnp_call.specs.Seen.{path_seen, reply_seen};
ghost use Rattle.capnp_edit_calls.specs.Copies.{Copies, IsCopyRefused, IsKeepRefusal};
ghost use Rattle.capnp_edit_calls.specs.Steps.Kept.{HasMessage, IsKept, IsKeptAt, SetsCopy};

use crate::edit::make_call;
use capnp_arena::arena::{Arena, Place};
use capnp_base::introspect::{RawBrandedStructSchema, Type};
use capnp_base::text;
use capnp_call::calls::{Op, Reply, Step};
use capnp_dynamic_readers::dynamic_value::{Enum, Reader as Value};
use capnp_dynamic_readers::{dynamic_list, dynamic_struct};
use capnp_patch::reach::read_path;
use capnp_schema::schema::StructSchema;
use capnp_schema::set::SchemaSet;
use capnp_slots::primitive::Primitive;
use capnp_splices::read::read_list;
use capnp_wire::StructReader;
use capnp_wire::error::{Error, ErrorKind, Result};
use std::alloc::Global;

/// A copy: the path that is set, and the one that is read.
#[derive(Clone, Copy)]
pub struct PathCopy<'c> {
    pub path: &'c [Step<'c>],
    pub from: &'c [Step<'c>],
}

/// A value with memory of its own.
#[derive(Drop)]
enum Kept {
    Primitive(Primitive),
    Text(Vec<u8>),
    Data(Vec<u8>),
    /// A struct at the root of a message, and the number of its schema.
    Struct(Arena, u32),
    /// A list at the root of a message, and the type of its elements.
    List(Arena, Type),
}

/// A copy of a struct in a message of its own.
fn keep_struct(alloc: Global, value: dynamic_struct::Reader<'_>) -> Result<Kept>
    ensures message { IfOk result HasMessage }
    ensures kept { IfOk result (IsKept (source_of (StructOf value.entry))) }
    ensures cause { IfErr result (λ e. e.kind ≢ OutOfMemory → IsKeepRefusal (source_of (StructOf value.entry)) e.kind) }
{
    let mut made = Arena::new(alloc)?;
    made.set_struct(0, &value.get_sections())?;
    let raw = RawBrandedStructSchema::from(value.get_schema());
    Ok(Kept::Struct(made, raw.number))
}

/// A copy of a list in a message of its own.
fn keep_list(alloc: Global, value: dynamic_list::Reader<'_>) -> Result<Kept>
    ensures message { IfOk result HasMessage }
    ensures kept { IfOk result (IsKept (source_of (ListOf value.entry))) }
    ensures cause { IfErr result (λ e. e.kind ≢ OutOfMemory → IsKeepRefusal (source_of (ListOf value.entry)) e.kind) }
{
    let mut made = Arena::new(alloc)?;
    made.set_list(0, &value.get_elements())?;
    Ok(Kept::List(made, value.element_type()))
}

/// A copy of a value, with memory of its own.
fn keep_value(alloc: Global, value: Value<'_>) -> Result<Kept>
    ensures message { IfOk result HasMessage }
    ensures kept { IfOk result (IsKept (source_of value.entry)) }
    ensures cause { IfErr result (λ e. e.kind ≢ OutOfMemory → IsKeepRefusal (source_of value.entry) e.kind) }
{
    match value {
        Value::Void => Ok(Kept::Primitive(Primitive::Void)),
        Value::Bool(x) => Ok(Kept::Primitive(Primitive::Bool(x))),
        Value::Int8(x) => Ok(Kept::Primitive(Primitive::Int8(x))),
        Value::Int16(x) => Ok(Kept::Primitive(Primitive::Int16(x))),
        Value::Int32(x) => Ok(Kept::Primitive(Primitive::Int32(x))),
        Value::Int64(x) => Ok(Kept::Primitive(Primitive::Int64(x))),
        Value::UInt8(x) => Ok(Kept::Primitive(Primitive::UInt8(x))),
        Value::UInt16(x) => Ok(Kept::Primitive(Primitive::UInt16(x))),
        Value::UInt32(x) => Ok(Kept::Primitive(Primitive::UInt32(x))),
        Value::UInt64(x) => Ok(Kept::Primitive(Primitive::UInt64(x))),
        Value::Enum(x) => Ok(Kept::Primitive(Primitive::Enum(x.get_value()))),
        Value::Text(x) => Ok(Kept::Text(x.0.to_vec(alloc)?)),
        Value::Data(x) => Ok(Kept::Data(x.to_vec(alloc)?)),
        Value::Struct(x) => keep_struct(alloc, x),
        Value::List(x) => keep_list(alloc, x),
        Value::AnyPointer(_) => Err(Error::from(
            ErrorKind::CannotSetAnyPointerFieldToAPrimitiveValue,
        )),
    }
}

/// A value that no pointer stands for, as it is given to a set. A set asks an enum for its number alone.
fn value_of(schemas: &SchemaSet, held: Primitive) -> Value<'_>
    ensures { source_of result ≡ primitive_source held }
{
    match held {
        Primitive::Void => Value::Void,
        Primitive::Bool(x) => Value::Bool(x),
        Primitive::Int8(x) => Value::Int8(x),
        Primitive::Int16(x) => Value::Int16(x),
        Primitive::Int32(x) => Value::Int32(x),
        Primitive::Int64(x) => Value::Int64(x),
        Primitive::UInt8(x) => Value::UInt8(x),
        Primitive::UInt16(x) => Value::UInt16(x),
        Primitive::UInt32(x) => Value::UInt32(x),
        Primitive::UInt64(x) => Value::UInt64(x),
        Primitive::Enum(x) => Value::Enum(Enum::new(x, schemas.enum_schema(0))),
    }
}

/// A reader of the struct at a message's root, with 64 levels, that of the root aside.
fn read_struct(made: &Arena) -> Result<StructReader<'_>>
    requires { IsMessage made.now }
    ensures read { IfOk result (λ r. as_struct (message_tree made.now) message_levels ≡ OkOf (struct_of r)) }
    ensures cause { IfErr result (λ e. ((e.kind ≡ TooDeep) × (IsShallow (message_tree made.now) → ⊥))
        ⊎ (as_struct (message_tree made.now) message_levels ≡ ErrOf e.kind)) }
{
    if !made.is_shallow() {
        return Err(Error::from(ErrorKind::TooDeep));
    }
    made.get_pointer_reader(0).get_struct()
}

/// Sets what a path names to a copy of a value.
fn set_kept(
    alloc: Global,
    arena: &mut Arena,
    place: Place,
    schema: StructSchema<'_>,
    path: &[Step<'_>],
    kept: &Kept,
) -> Reply
    requires ready { TakesCalls schema arena.old place }
    requires message { HasMessage kept.now }
    ensures sets { (s : Source) → IsKept s kept.now → SetsCopy schema.entry (built_at arena.old place)
        (path_seen path.now) s (reply_seen result) (built_at arena.new place) (segment arena.old) (segment arena.new) }
    ensures frame { LeavesStruct place arena.old arena.new }
{
    let schemas = schema.get_set();
    match kept {
        Kept::Primitive(held) => make_call(
            alloc,
            arena,
            place,
            schema,
            path,
            Op::Set(value_of(schemas, *held)),
        ),
        Kept::Text(bytes) => make_call(
            alloc,
            arena,
            place,
            schema,
            path,
            Op::Set(Value::Text(text::Reader(bytes.as_slice()))),
        ),
        Kept::Data(bytes) => make_call(
            alloc,
            arena,
            place,
            schema,
            path,
            Op::Set(Value::Data(bytes.as_slice())),
        ),
        Kept::Struct(made, number) => match read_struct(made) {
            Ok(reader) => {
                let value = dynamic_struct::Reader::new(reader, schemas.struct_schema(*number));
                make_call(
                    alloc,
                    arena,
                    place,
                    schema,
                    path,
                    Op::Set(Value::Struct(value)),
                )
            }
            Err(error) => Reply::Refused(error.kind),
        },
        Kept::List(made, element) => match read_list(made) {
            Ok(list) => {
                let value = dynamic_list::Reader::new(list, *element, schemas);
                make_call(
                    alloc,
                    arena,
                    place,
                    schema,
                    path,
                    Op::Set(Value::List(value)),
                )
            }
            Err(error) => Reply::Refused(error.kind),
        },
    }
}

/// A copy of what stands at the end of a path, with memory of its own.
fn keep_at(
    alloc: Global,
    arena: &Arena,
    place: Place,
    schema: StructSchema<'_>,
    from: &[Step<'_>],
) -> Result<Kept>
    requires stands { IsStruct schema }
    requires planted { IsBuilt arena.now place }
    ensures message { IfOk result HasMessage }
    ensures kept { IfOk result (IsKeptAt schema.entry (built_at arena.now place) (path_seen from.now)) }
    ensures cause { IfErr result (λ e. e.kind ≢ OutOfMemory → IsCopyRefused schema.entry (built_at arena.now place)
        (path_seen from.now) e.kind) }
{
    let root = dynamic_struct::Reader::new(arena.get_struct_reader(place), schema);
    match read_path(Value::Struct(root), from) {
        Ok(value) => keep_value(alloc, value),
        Err(error) => Err(error),
    }
}

/// Sets what a path names to a copy of what stands at the end of another, which stays as it is: an absent struct, list, text
/// or data as its default, or empty. The copy is made first, so either path may lead through the other.
///
/// Refused where nothing can be read there, as the first step of `walk_path` that is; with
/// `CannotSetAnyPointerFieldToAPrimitiveValue` for an untyped pointer; with `BadPointer`, `TooDeep` or `CapabilityPointer`
/// where a pointer in what is copied can't be followed, by the first of these in preorder; with `TooDeep` where it goes more
/// than 64 levels down; and with `OutOfMemory`. Then nothing is written, and the message is as it was. Once the copy is made,
/// as a set of it, which leaves what its steps filled: with `TypeMismatch` where the two are of two types.
///
/// # Conditions
///
/// The schema is one of an accepted set. A struct of this message stands at the place, with at least the schema's
/// sections (`TakesCalls`).
pub fn copy_part(
    alloc: Global,
    arena: &mut Arena,
    place: Place,
    schema: StructSchema<'_>,
    path: &[Step<'_>],
    from: &[Step<'_>],
) -> Reply
    requires ready { TakesCalls schema arena.old place }
    ensures copies { Copies schema.entry (built_at arena.old place) (path_seen path.now) (path_seen from.now)
        (reply_seen result) (built_at arena.new place) (segment arena.old) (segment arena.new) }
    ensures frame { LeavesStruct place arena.old arena.new }
{
    match keep_at(alloc, arena, place, schema, from) {
        Ok(kept) => set_kept(alloc, arena, place, schema, path, &kept),
        Err(error) => Reply::Refused(error.kind),
    }
}
