//! Values of defaults and annotations, as a request says them.
ghost use Rattle.std.specs.Prelude.{◌≡◌, ◌≢◌, None, Some, Ok, Err, drop, IfErr, IfOk, option_map};
ghost use Rattle.capnp_device.specs.declared.error.ErrorKind.TheVariants.{OutOfMemory};
ghost use Rattle.capnp_wire.specs.Reading.{refusal};
ghost use Rattle.capnp_wire.specs.Standing.{tree_of};
ghost use Rattle.capnp_wire.specs.Words.{first_fault};
ghost use Rattle.capnp_arena.specs.Message.{IsMessage, message_tree};
ghost use Rattle.capnp_base.specs.AnyPointer.{pointer_of};
ghost use Rattle.capnp_schema.specs.Schema.{seen_value};
ghost use Rattle.capnp_records.specs.Part.{which_of};
ghost use Rattle.capnp_request.specs.Steps.Seen.{IsRequestRecord, record_seen};
ghost use Rattle.capnp_request.specs.Steps.ValueMembers.{IsDataMember};
ghost use Rattle.capnp_request.specs.Conversion.{is_untyped_default};
ghost use Rattle.capnp_request.specs.Reading.{value_said};
ghost use Rattle.capnp_request.specs.Refusals.{IsUnstrict};
ghost use Rattle.capnp_request.specs.Values.{value_stated, words_or_fault};

use crate::handles::RequestRecord;
use crate::parts::{
    bool_at, data_at, i8_at, i16_at, i32_at, i64_at, text_at, u8_at, u16_at, u32_at, u64_at,
    untyped_at, value_member,
};
use crate::places::{VALUE_UNTYPED, brands};
use capnp_arena::message::Builder;
use capnp_base::any_pointer;
use capnp_schema::record::ValueRecord;
use capnp_wire::error::{Error, ErrorKind, Result};
use std::alloc::Global;

/// The bytes of the table of a message of one segment.
const TABLE_BYTES: usize = 8;

/// A message whose root is a copy of what stands at a pointer. Refused as the first pointer there that can't be
/// followed, in preorder, and with `OutOfMemory`.
#[tactic(auto, using(crate::proofs::RefusedKinds::copy_kinds))]
fn copy_of(alloc: Global, pointer: any_pointer::Reader<'_>) -> Result<Builder>
    ensures message { IfOk result IsMessage }
    ensures read { IfOk result (λ m. message_tree m ≡ tree_of (pointer_of pointer.entry)) }
    ensures sound { IfOk result (λ _. first_fault (tree_of (pointer_of pointer.entry)) ≡ None) }
    ensures refused { IfErr result (λ e. e.kind ≢ OutOfMemory
        → option_map refusal (first_fault (tree_of (pointer_of pointer.entry))) ≡ Some e.kind) }
    ensures kinds { IfErr result (λ e. IsUnstrict e.kind) }
{
    let mut message = Builder::new(alloc)?;
    message.copy_from(0, pointer.get_pointer())?;
    Ok(message)
}

/// What stands behind the table of a message.
#[tactic(auto, using(crate::proofs::ValuesRead::behind_table))]
fn behind_table(bytes: &[u8]) -> &[u8]
    ensures { result.now ≡ drop 8 bytes.now }
{
    let start = bytes.len().min(TABLE_BYTES);
    &bytes[start..]
}

/// The words of one segment whose root pointer leads to a copy of what stands at a pointer. Refused as the first
/// pointer there that can't be followed, in preorder, and with `OutOfMemory`, also where they would be 2^29 words or
/// more.
fn words_of(alloc: Global, pointer: any_pointer::Reader<'_>) -> Result<Vec<u8>>
    ensures read { IfOk result (λ w. words_or_fault (first_fault (tree_of (pointer_of pointer.entry)))
        (tree_of (pointer_of pointer.entry)) ≡ Ok w.items) }
    ensures refused { IfErr result (λ e. e.kind ≢ OutOfMemory
        → words_or_fault (first_fault (tree_of (pointer_of pointer.entry))) (tree_of (pointer_of pointer.entry))
        ≡ Err e.kind) }
    ensures kinds { IfErr result (λ e. IsUnstrict e.kind) }
{
    let message = copy_of(alloc, pointer)?;
    let bytes = message.write_message()?;
    let behind = behind_table(bytes.as_slice());
    let words = copied(alloc, behind)?;
    Ok(words)
}

/// A copy of bytes.
fn copied(alloc: Global, bytes: &[u8]) -> Result<Vec<u8>>
    ensures read { IfOk result (λ copy. copy.items ≡ bytes.now) }
    ensures kinds { IfErr result (λ e. e.kind ≡ OutOfMemory) }
{
    Ok(bytes.to_vec(alloc)?)
}

/// The value of a member that stands in the data section. Floats are their bits. Refused with `UnknownKind` for a
/// member that is none.
fn data_value(reader: RequestRecord<'_>, member: u16) -> Result<ValueRecord>
    requires is_record { IsRequestRecord 22 reader }
    requires active { which_of (record_seen reader) ≡ Some member }
    requires data { IsDataMember member }
    ensures read { IfOk result (λ v. value_stated (value_said (record_seen reader.entry)) ≡ Ok (seen_value v)) }
    ensures refused { IfErr result (λ e. e.kind ≢ OutOfMemory
        → value_stated (value_said (record_seen reader.entry)) ≡ Err e.kind) }
    ensures kinds { IfErr result (λ e. IsUnstrict e.kind) }
{
    match member {
        0 => Ok(ValueRecord::Void),
        1 => Ok(ValueRecord::Bool(bool_at(reader, brands::VALUE, 1, 16))),
        2 => Ok(ValueRecord::Int8(i8_at(reader, brands::VALUE, 2, 2))),
        3 => Ok(ValueRecord::Int16(i16_at(reader, brands::VALUE, 3, 1))),
        4 => Ok(ValueRecord::Int32(i32_at(reader, brands::VALUE, 4, 1))),
        5 => Ok(ValueRecord::Int64(i64_at(reader, brands::VALUE, 5, 1))),
        6 => Ok(ValueRecord::UInt8(u8_at(reader, brands::VALUE, 6, 2))),
        7 => Ok(ValueRecord::UInt16(u16_at(reader, brands::VALUE, 7, 1, 0))),
        8 => Ok(ValueRecord::UInt32(u32_at(reader, brands::VALUE, 8, 1))),
        9 => Ok(ValueRecord::UInt64(u64_at(reader, brands::VALUE, 9, 1))),
        10 => Ok(ValueRecord::UInt32(u32_at(reader, brands::VALUE, 10, 1))),
        11 => Ok(ValueRecord::UInt64(u64_at(reader, brands::VALUE, 11, 1))),
        15 => Ok(ValueRecord::Enum(u16_at(reader, brands::VALUE, 15, 1, 0))),
        _ => Err(Error::from(ErrorKind::UnknownKind)),
    }
}

/// The value of the active member.
fn member_value(alloc: Global, reader: RequestRecord<'_>, member: u16) -> Result<ValueRecord>
    requires is_record { IsRequestRecord 22 reader }
    requires active { which_of (record_seen reader) ≡ Some member }
    ensures read { IfOk result (λ v. value_stated (value_said (record_seen reader.entry)) ≡ Ok (seen_value v)) }
    ensures refused { IfErr result (λ e. e.kind ≢ OutOfMemory
        → value_stated (value_said (record_seen reader.entry)) ≡ Err e.kind) }
    ensures kinds { IfErr result (λ e. IsUnstrict e.kind) }
{
    match member {
        12 => {
            let text = text_at(reader, brands::VALUE, 12, 0)?;
            let letters = copied(alloc, text)?;
            Ok(ValueRecord::Text(letters))
        }
        13 => {
            let data = data_at(reader, brands::VALUE, 13, 0)?;
            let bytes = copied(alloc, data)?;
            Ok(ValueRecord::Data(bytes))
        }
        14 => {
            let list = untyped_at(reader, brands::VALUE, 14, 0);
            let elements = words_of(alloc, list)?;
            Ok(ValueRecord::List(elements))
        }
        16 => {
            let inner = untyped_at(reader, brands::VALUE, 16, 0);
            let words = words_of(alloc, inner)?;
            Ok(ValueRecord::Struct(words))
        }
        17 => {
            let nothing = copied(alloc, &[0; 8])?;
            Ok(ValueRecord::AnyPointer(nothing))
        }
        18 => {
            let _untyped = untyped_at(reader, brands::VALUE, 18, 0);
            let null = copied(alloc, &[0; 8])?;
            Ok(ValueRecord::AnyPointer(null))
        }
        _ => data_value(reader, member),
    }
}

/// The value of a record of a value, by its own kind.
///
/// A struct or list is its words. An interface and an untyped value are a null untyped pointer, whatever stands there.
/// Refused with `UnknownKind` for another kind, as the parts that are read, and with `OutOfMemory`.
pub(crate) fn value_of(alloc: Global, reader: RequestRecord<'_>) -> Result<ValueRecord>
    requires { IsRequestRecord 22 reader }
    ensures read { IfOk result (λ v. value_stated (value_said (record_seen reader.entry)) ≡ Ok (seen_value v)) }
    ensures refused { IfErr result (λ e. e.kind ≢ OutOfMemory
        → value_stated (value_said (record_seen reader.entry)) ≡ Err e.kind) }
    ensures kinds { IfErr result (λ e. IsUnstrict e.kind) }
{
    let Some(member) = value_member(reader) else {
        return Err(Error::from(ErrorKind::UnknownKind));
    };
    member_value(alloc, reader, member)
}

/// Whether a value is an untyped pointer that isn't null.
pub(crate) fn is_untyped_value(reader: RequestRecord<'_>) -> bool
    requires { IsRequestRecord 22 reader }
    ensures { is_untyped_default (value_said (record_seen reader.entry)) ≡ result }
{
    match value_member(reader) {
        Some(member) => {
            if member == VALUE_UNTYPED {
                return !untyped_at(reader, brands::VALUE, VALUE_UNTYPED, 0).is_null();
            }
            false
        }
        None => false,
    }
}
