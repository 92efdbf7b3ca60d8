//! Values of defaults and annotations.
ghost use Rattle.std.specs.Prelude.{◌≡◌, ◌≢◌, ◌<◌, ◌≤◌, Ok, Some, IfErr, IfOk};
ghost use Rattle.capnp_device.specs.declared.error.ErrorKind.TheVariants.{OutOfMemory};
ghost use Rattle.capnp_schema.specs.Builtin.{zero_word};
ghost use Rattle.capnp_schema.specs.Meta.{meta_struct};
ghost use Rattle.capnp_schema.specs.Schema.{Annotation, StructValue, seen_annotation, seen_value};
ghost use Rattle.capnp_records.specs.Part.{which_of};
ghost use Rattle.capnp_sets.specs.Causes.{HasCause};
ghost use Rattle.capnp_sets.specs.Steps.Handles.{IsMetaFieldActive, IsMetaSlot, meta_record_in};
ghost use Rattle.capnp_sets.specs.Parts.{meta_read_at, struct};
ghost use Rattle.capnp_sets.specs.Values.{annotation_meant, list_value, value_by, value_meant};

use crate::parts::{ANNOTATION, MetaSet, VALUE, value_member};
use crate::rows::{Context, FromRecord};
use capnp_known::numbers::{bool_at, i8_at, i16_at, i32_at, i64_at, u8_at, u16_at, u32_at, u64_at};
use capnp_known::pointers::{data_at, struct_at, text_at};
use capnp_schema::record::{AnnotationRecord, ValueRecord};
use capnp_wire::StructReader;
use capnp_wire::error::{Error, ErrorKind, Result};
use std::alloc::Global;

/// The value of a member that is a number.
#[inline(always)]
#[tactic(auto, unfolding(crate::specs::Values::value_by))]
fn number_value(reader: &StructReader<'_>, member: u16) -> Result<ValueRecord>
    requires active { which_of (meta_record_in 5 reader.now) ≡ Some member }
    requires number { member < 11 }
    ensures read { IfOk result (λ v. value_by (Some member) (meta_record_in 5 reader.now) ≡ Ok (seen_value v)) }
    ensures refused { IfErr result (λ e. HasCause (value_by (Some member) (meta_record_in 5 reader.now)) e.kind) }
{
    match member {
        0 => Ok(ValueRecord::Void),
        1 => Ok(ValueRecord::Bool(bool_at::<MetaSet>(reader, VALUE, 1, 64))),
        2 => Ok(ValueRecord::Int8(i8_at::<MetaSet>(reader, VALUE, 2, 8))),
        3 => Ok(ValueRecord::Int16(i16_at::<MetaSet>(reader, VALUE, 3, 4))),
        4 => Ok(ValueRecord::Int32(i32_at::<MetaSet>(reader, VALUE, 4, 2))),
        5 => Ok(ValueRecord::Int64(i64_at::<MetaSet>(reader, VALUE, 5, 1))),
        6 => Ok(ValueRecord::UInt8(u8_at::<MetaSet>(reader, VALUE, 6, 8))),
        7 => Ok(ValueRecord::UInt16(u16_at::<MetaSet>(reader, VALUE, 7, 4, 0))),
        8 => Ok(ValueRecord::UInt32(u32_at::<MetaSet>(reader, VALUE, 8, 2))),
        9 => Ok(ValueRecord::UInt64(u64_at::<MetaSet>(reader, VALUE, 9, 1))),
        10 => Ok(ValueRecord::Enum(u16_at::<MetaSet>(reader, VALUE, 10, 4, 0))),
        _ => unreachable!(),
    }
}

/// The words of a list; none stand for a null untyped pointer.
fn list_words(alloc: Global, words: &[u8]) -> Result<ValueRecord>
    ensures read { IfOk result (λ v. seen_value v ≡ list_value words.now) }
    ensures refused { IfErr result (λ e. e.kind ≡ OutOfMemory) }
{
    if words.is_empty() {
        return Ok(ValueRecord::AnyPointer([0; 8].to_vec(alloc)?));
    }
    Ok(ValueRecord::List(words.to_vec(alloc)?))
}

/// A copy of bytes.
fn copied(alloc: Global, bytes: &[u8]) -> Result<Vec<u8>>
    ensures read { IfOk result (λ copy. copy.items ≡ bytes.now) }
    ensures refused { IfErr result (λ e. e.kind ≡ OutOfMemory) }
{
    Ok(bytes.to_vec(alloc)?)
}

/// The value of a member that stands behind a pointer.
#[tactic(auto, unfolding(crate::specs::Values::value_by))]
fn pointer_value(alloc: Global, reader: &StructReader<'_>, member: u16) -> Result<ValueRecord>
    requires active { which_of (meta_record_in 5 reader.now) ≡ Some member }
    requires pointer { 11 ≤ member }
    ensures read { IfOk result (λ v. value_by (Some member) (meta_record_in 5 reader.now) ≡ Ok (seen_value v)) }
    ensures refused { IfErr result (λ e. e.kind ≢ OutOfMemory
        → HasCause (value_by (Some member) (meta_record_in 5 reader.now)) e.kind) }
{
    if member > 14 {
        return Err(Error {
            kind: ErrorKind::UnknownKind,
        });
    }
    if member == 11 {
        let text = text_at::<MetaSet>(reader, VALUE, 11, 0)?;
        let letters = copied(alloc, text)?;
        return Ok(ValueRecord::Text(letters));
    }
    if member == 12 {
        let data = data_at::<MetaSet>(reader, VALUE, 12, 0)?;
        let bytes = copied(alloc, data)?;
        return Ok(ValueRecord::Data(bytes));
    }
    if member == 13 {
        let inner = data_at::<MetaSet>(reader, VALUE, 13, 0)?;
        let words = copied(alloc, inner)?;
        return Ok(ValueRecord::Struct(words));
    }
    let elements = data_at::<MetaSet>(reader, VALUE, 14, 0)?;
    list_words(alloc, elements)
}

/// The value of a record of a value.
#[inline(always)]
fn read_value(alloc: Global, reader: &StructReader<'_>) -> Result<ValueRecord>
    ensures read { IfOk result (λ v. value_meant (meta_record_in 5 reader.now) ≡ Ok (seen_value v)) }
    ensures refused { IfErr result (λ e. e.kind ≢ OutOfMemory → HasCause (value_meant (meta_record_in 5 reader.now)) e.kind) }
{
    let Some(member) = value_member(reader) else {
        return Err(Error {
            kind: ErrorKind::UnknownKind,
        });
    };
    if member < 11 {
        return number_value(reader, member);
    }
    pointer_value(alloc, reader, member)
}

/// The value that a field has.
#[inline(always)]
pub(crate) fn value_at(
    alloc: Global,
    reader: &StructReader<'_>,
    brand: u32,
    index: u16,
    place: u16,
) -> Result<ValueRecord>
    requires field { IsMetaSlot brand index (meta_struct 5) place (StructValue zero_word) }
    requires active { IsMetaFieldActive brand index reader.now }
    ensures read { IfOk result (λ v. struct value_meant (meta_read_at brand index (meta_record_in brand reader.now))
        ≡ Ok (seen_value v)) }
    ensures refused { IfErr result (λ e. e.kind ≢ OutOfMemory
        → HasCause (struct value_meant (meta_read_at brand index (meta_record_in brand reader.now))) e.kind) }
{
    let record = struct_at::<MetaSet>(reader, brand, index, place, VALUE)?;
    read_value(alloc, &record)
}

/// An annotation of a record of one.
#[tactic(auto, unfolding(crate::specs::Values::annotation_meant))]
fn read_annotation(alloc: Global, reader: &StructReader<'_>) -> Result<AnnotationRecord>
    ensures read { IfOk result (λ a. annotation_meant (meta_record_in 4 reader.now) ≡ Ok (seen_annotation a)) }
    ensures refused { IfErr result (λ e. e.kind ≢ OutOfMemory
        → HasCause (annotation_meant (meta_record_in 4 reader.now)) e.kind) }
{
    let id = u64_at::<MetaSet>(reader, ANNOTATION, 0, 0);
    let value = value_at(alloc, reader, ANNOTATION, 1, 0)?;
    Ok(AnnotationRecord { id, value })
}

impl FromRecord for AnnotationRecord {
    ghost Seen = { Annotation };

    ghost seen = { seen_annotation };

    ghost brand = { 4 };

    ghost of_record = { λ _ r. annotation_meant r };

    fn from_record(context: &Context<'_>, reader: &StructReader<'_>) -> Result<AnnotationRecord> {
        read_annotation(context.alloc, reader)
    }
}
