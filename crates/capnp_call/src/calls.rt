//! Calls along paths, and their replies.
ghost use Rattle.std.specs.Prelude.{◌≡◌};
ghost use Rattle.capnp_slots.specs.Copied.{refusal_of};
ghost use Rattle.capnp_call.specs.Refusals.{any_refused, is_refused};
ghost use Rattle.capnp_call.specs.Seen.{reply_seen};
ghost use Rattle.capnp_call.specs.Steps.Seen.{reply_by};

use capnp_dynamic_readers::dynamic_value::Reader as Value;
use capnp_wire::error::{ErrorKind, Result};
use std::alloc::Global;

/// A step of a path.
#[derive(Clone, Copy)]
pub enum Step<'c> {
    /// The field of an index, at a struct or group.
    Field(u16),
    /// The field of a name, at a struct or group.
    Named(&'c str),
    /// The element of an index, at a list.
    Element(u32),
}

/// What a call does at the end of its path.
#[derive(Clone, Copy)]
pub enum Op<'c> {
    /// Reads what the last step names; nothing is filled.
    Get,
    /// Asks whether a field is there: false for an inactive member and for a null pointer.
    Has,
    /// Asks the struct at the end of the path for its active member; the last step isn't looked at.
    Which,
    /// Sets a field or element to a value; a struct's, list's, text's or data's copy is made first.
    Set(Value<'c>),
    /// Makes a struct or group all zero and null, and an untyped pointer null.
    Init,
    /// Makes a text or data of so many zero bytes, or a list of so many elements.
    Initn(u32),
    /// Puts a field back to its default.
    Clear,
}

/// A call: the path is walked, and the operation is done at its end to what the last step names.
#[derive(Clone, Copy)]
pub struct Call<'c> {
    pub path: &'c [Step<'c>],
    pub last: Step<'c>,
    pub op: Op<'c>,
}

/// What is done where a path ends: a call's last step and operation; and what a reply takes its memory from. A walk
/// hands it on from step to step, so it is small.
#[derive(Clone, Copy)]
pub struct Ending<'c> {
    pub alloc: Global,
    pub call: &'c Call<'c>,
}

/// A value as it is answered.
#[derive(Debug, Drop, PartialEq, Eq)]
pub enum Plain {
    Void,
    Bool(bool),
    Int8(i8),
    Int16(i16),
    Int32(i32),
    Int64(i64),
    UInt8(u8),
    UInt16(u16),
    UInt32(u32),
    UInt64(u64),
    /// An enum, by the number that stands there.
    Enum(u16),
    /// The bytes of a text, without the zero that ends it.
    Text(Vec<u8>),
    Data(Vec<u8>),
    /// A struct or group.
    Struct,
    /// A list, by its length.
    List(u32),
    /// An untyped pointer: whether it is null.
    AnyPointer(bool),
}

/// What a call is answered.
#[derive(Debug, Drop, PartialEq, Eq)]
pub enum Reply {
    /// Something was written.
    Done,
    /// What a `Get` read.
    Value(Plain),
    /// Whether a `Has` found something.
    Flag(bool),
    /// The index of the active member that a `Which` found; none without a union or for an unknown number.
    Member(Option<u16>),
    /// The call was refused.
    Refused(ErrorKind),
}

/// Whether a call was refused.
pub fn is_refused(reply: &Reply) -> bool
    ensures { result ≡ is_refused reply.now }
{
    match reply {
        Reply::Refused(_) => true,
        Reply::Done | Reply::Value(_) | Reply::Flag(_) | Reply::Member(_) => false,
    }
}

/// Whether one of these calls was refused.
pub fn any_refused(replies: &[Reply]) -> bool
    ensures { result ≡ any_refused replies.now }
{
    for index in 0..replies.len() {
        if is_refused(&replies[index]) {
            return true;
        }
    }
    false
}

/// The reply to a write that may have been refused.
#[inline(always)]
pub(crate) fn reply_of(outcome: Result<()>) -> Reply
    ensures { reply_seen result ≡ reply_by (refusal_of outcome) }
{
    match outcome {
        Ok(()) => Reply::Done,
        Err(error) => Reply::Refused(error.kind),
    }
}
