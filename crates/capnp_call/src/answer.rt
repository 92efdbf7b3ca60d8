//! What is read at the end of a path. Nothing is filled or switched.
ghost use Rattle.capnp_arena.specs.Segment.{segment};
ghost use Rattle.capnp_arena.specs.Built.{ChangesIn, IsBuilt, built_at};
ghost use Rattle.std.specs.Prelude.{◌≡◌, IfErr, IfOk, OnErr, true};
ghost use Rattle.capnp_device.specs.declared.error.ErrorKind.TheVariants.{OutOfMemory};
ghost use Rattle.capnp_wire.specs.Place.{struct_tree};
ghost use Rattle.capnp_schema.specs.Schema.{Schemas};
ghost use Rattle.capnp_schema.specs.StructHandles.{IsStruct, number_of, set_of};
ghost use Rattle.capnp_schema.specs.Types.{SchemaType};
ghost use Rattle.capnp_records.specs.Call.{Get, Has, Member};
ghost use Rattle.capnp_records.specs.Operation.{Answers, Does, answer_of, takes_memory};
ghost use Rattle.capnp_records.specs.Part.{which_of};
ghost use Rattle.capnp_records.specs.Reading.{reads};
ghost use Rattle.capnp_records.specs.Record.{Record, Value as RecordValue};
ghost use Rattle.capnp_records.specs.Step.{fault_of};
ghost use Rattle.capnp_dynamic_readers.specs.Seen.{answered_value, value_seen};
ghost use Rattle.capnp_dynamic_readers.specs.Typed.{IsOf};
ghost use Rattle.capnp_slots.specs.Fields.{field_set};
ghost use Rattle.capnp_call.specs.Seen.{answer_seen, reply_seen};
ghost use Rattle.capnp_call.specs.Ways.{target_in};

use crate::calls::{Plain, Reply};
use crate::way::is_inactive;
use capnp_arena::arena::{Arena, Place};
use capnp_dynamic_readers::dynamic_struct;
use capnp_dynamic_readers::dynamic_value::Reader as Value;
use capnp_schema::schema::{Field, StructSchema};
use capnp_wire::error::{ErrorKind, Result};
use std::alloc::Global;

/// A value as it is answered: the bytes of a text or data are copied, of a struct only that it is one, of a list its
/// length, and of an untyped pointer whether it is null.
///
/// Refused with `OutOfMemory` for the copy of a text or data.
fn plain_of(alloc: Global, value: Value<'_>) -> Result<Plain>
    ensures plain { (schemas : Schemas) (t : SchemaType) → IsOf schemas t value.entry
        → IfOk result (λ p. answer_seen p ≡ answer_of t (value_seen value.entry)) }
    ensures memory { (schemas : Schemas) (t : SchemaType) → IsOf schemas t value.entry → OnErr result (takes_memory t ≡ true) }
    ensures cause { IfErr result (λ e. e.kind ≡ OutOfMemory) }
{
    match value {
        Value::Void => Ok(Plain::Void),
        Value::Bool(x) => Ok(Plain::Bool(x)),
        Value::Int8(x) => Ok(Plain::Int8(x)),
        Value::Int16(x) => Ok(Plain::Int16(x)),
        Value::Int32(x) => Ok(Plain::Int32(x)),
        Value::Int64(x) => Ok(Plain::Int64(x)),
        Value::UInt8(x) => Ok(Plain::UInt8(x)),
        Value::UInt16(x) => Ok(Plain::UInt16(x)),
        Value::UInt32(x) => Ok(Plain::UInt32(x)),
        Value::UInt64(x) => Ok(Plain::UInt64(x)),
        Value::Enum(x) => Ok(Plain::Enum(x.get_value())),
        Value::Text(text) => Ok(Plain::Text(text.0.to_vec(alloc)?)),
        Value::Data(bytes) => Ok(Plain::Data(bytes.to_vec(alloc)?)),
        Value::Struct(_) => Ok(Plain::Struct),
        Value::List(list) => Ok(Plain::List(list.len())),
        Value::AnyPointer(pointer) => Ok(Plain::AnyPointer(pointer.is_null())),
    }
}

/// The reply to a read.
pub(crate) fn answer(alloc: Global, read: Result<Value<'_>>) -> Reply
    ensures { (schemas : Schemas) (t : SchemaType) (old : RecordValue) → IfOk read.entry (IsOf schemas t)
        → Answers t (answered_value read.entry) (fault_of (answered_value read.entry)) old (reply_seen result) old }
{
    match read {
        Err(error) => Reply::Refused(error.kind),
        Ok(value) => match plain_of(alloc, value) {
            Ok(plain) => Reply::Value(plain),
            Err(error) => Reply::Refused(error.kind),
        },
    }
}

/// What a field of a struct has, or its default where that is missing.
///
/// Refused with `InactiveMember` for a member that isn't active; with `WrongPointerKind`, `WrongElementSize` or
/// `TextNotTerminated` where what stands there is not read as the field's type; and with `OutOfMemory` for the copy of
/// a text or data.
///
/// # Conditions
///
/// A struct of this message stands at the place (`IsBuilt`).
pub fn get_field(alloc: Global, arena: &Arena, place: Place, field: Field<'_>) -> Reply
    requires planted { IsBuilt arena.now place }
    ensures { (whole : Record → RecordValue) (old : RecordValue)
        → Does (field_set field.entry) Get (target_in whole field.entry (built_at arena.now place)) old
        (reply_seen result) old }
{
    if is_inactive(arena, place, field) {
        return Reply::Refused(ErrorKind::InactiveMember);
    }
    let reader = dynamic_struct::Reader::new(
        arena.get_struct_reader(place),
        field.get_containing_struct(),
    );
    answer(alloc, reader.get(field))
}

/// Whether a field of a struct is there: false for a member that isn't active and for a null pointer.
///
/// # Conditions
///
/// A struct of this message stands at the place (`IsBuilt`).
pub fn has_field(arena: &Arena, place: Place, field: Field<'_>) -> Reply
    requires planted { IsBuilt arena.now place }
    ensures { (whole : Record → RecordValue) (old : RecordValue)
        → Does (field_set field.entry) Has (target_in whole field.entry (built_at arena.now place)) old
        (reply_seen result) old }
{
    // What the type of every field is known to meet is known of it here.
    let _variant = field.get_type().which();
    let reader = dynamic_struct::Reader::new(
        arena.get_struct_reader(place),
        field.get_containing_struct(),
    );
    let Ok(there) = reader.has(field) else {
        unreachable!()
    };
    Reply::Flag(there)
}

/// The active member of a struct, by its index; none without a union and for an unknown number.
///
/// # Conditions
///
/// A struct of this message stands at the place (`IsBuilt`). The schema is one of an accepted set (`IsStruct`).
pub fn which_member(arena: &Arena, place: Place, schema: StructSchema<'_>) -> Reply
    requires planted { IsBuilt arena.now place }
    requires stands { IsStruct schema }
    ensures { reply_seen result ≡ Member (which_of
        (reads (set_of schema.entry) (built_at arena.now place) (number_of schema.entry))) }
{
    let reader = dynamic_struct::Reader::new(arena.get_struct_reader(place), schema);
    match reader.which() {
        Ok(Some(field)) => Reply::Member(Some(field.get_index())),
        Ok(None) => Reply::Member(None),
        Err(_) => Reply::Member(None),
    }
}
