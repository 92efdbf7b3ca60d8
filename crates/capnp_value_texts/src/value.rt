//! Values of texts, each in a message of its own.
ghost use Rattle.std.specs.Prelude.{◌≡◌, ◌≤◌, IfErr, IfOk, map};
ghost use Rattle.capnp_arena.specs.Message.{IsMessage, message_tree};
ghost use Rattle.capnp_arena.specs.Segment.{segment};
ghost use Rattle.capnp_arena.specs.Shape.{word_count};
ghost use Rattle.capnp_schema.specs.FieldLists.{field_schema, index_of, typed_of};
ghost use Rattle.capnp_schema.specs.StructHandles.{IsStruct, number_of, set_of};
ghost use Rattle.capnp_call.specs.Messages.{most_words};
ghost use Rattle.capnp_call.specs.Seen.{reply_seen};
ghost use Rattle.capnp_slots.specs.Fields.{field_set};
ghost use Rattle.capnp_value_texts.specs.Calls.{element_of_text, field_of_text, root_of_text};
ghost use Rattle.capnp_value_texts.specs.Made.{calls_made};
ghost use Rattle.capnp_value_texts.specs.Values.{IsLeftBy, IsMadeOf, IsNotMade, IsNotMadeOf, first_refusal, refusal_in};

use crate::alone::put_within;
use crate::calls::{field_calls, root_calls};
use crate::error::Error;
use crate::made::{Made, as_calls};
use crate::shown::read_shown;
use capnp_arena::message::Builder;
use capnp_call::calls::Reply;
use capnp_call::message::run_new;
use capnp_device::error::ErrorKind;
use capnp_schema::schema::{Field, StructSchema};
use std::alloc::Global;

/// Why a call was refused, if it was.
fn refusal_in(reply: &Reply) -> Option<ErrorKind>
    ensures { result ≡ refusal_in (reply_seen reply.now) }
{
    match reply {
        Reply::Refused(kind) => Some(*kind),
        Reply::Done | Reply::Value(_) | Reply::Flag(_) | Reply::Member(_) => None,
    }
}

/// Why the first of these calls that was refused was.
fn first_refusal(replies: &[Reply]) -> Option<ErrorKind>
    ensures { result ≡ first_refusal (map reply_seen replies.now) }
{
    for index in 0..replies.len() {
        if let Some(kind) = refusal_in(&replies[index]) {
            return Some(kind);
        }
    }
    None
}

/// Makes calls on an empty root of a new message of at most so many words, none of which may be refused.
fn run_made(
    alloc: Global,
    limit: usize,
    schema: StructSchema<'_>,
    made: &[Made<'_>],
) -> Result<Builder, Error>
    requires stands { IsStruct schema }
    ensures message { IfOk result IsMessage }
    ensures made { IfOk result (λ m. IsLeftBy schema.entry (calls_made made.now) (message_tree m)) }
    ensures within { IfOk result (λ m. word_count (segment m) ≤ most_words limit) }
    ensures refused { IfErr result (IsNotMade schema.entry (calls_made made.now)) }
{
    let calls = match as_calls(alloc, made) {
        Ok(calls) => calls,
        Err(error) => return Err(error),
    };
    let left = match run_new(alloc, limit, schema, calls.as_slice()) {
        Ok(left) => left,
        Err(_memory) => return Err(Error::OutOfMemory),
    };
    match first_refusal(left.replies.as_slice()) {
        Some(kind) => Err(Error::NotMade(kind)),
        None => Ok(left.message),
    }
}

/// Reads a text as the value of a field, into a new message: its root is a struct of the field's schema, in which nothing is
/// but the value, and a member is active. The message never has more words than `limit`, as `capnp_call::message::run_new`
/// has it.
///
/// Refused as `crate::shown::read_shown` and then as `crate::calls::field_calls`, with the place; with `NotMade` where a
/// call by which the value is made is refused, as past the limit, for room only one that takes memory; and with
/// `OutOfMemory`.
///
/// # Conditions
///
/// The field's schema is one of an accepted set (`IsStruct`).
pub fn read_field(
    alloc: Global,
    limit: usize,
    field: Field<'_>,
    text: &[u8],
) -> Result<Builder, Error>
    ensures message { IfOk result IsMessage }
    ensures made { IfOk result (λ m. IsMadeOf (field_schema field.entry) (field_of_text (field_set field.entry)
        (typed_of field.entry) (index_of field.entry) text.now) (message_tree m)) }
    ensures within { IfOk result (λ m. word_count (segment m) ≤ most_words limit) }
    ensures refused { IfErr result (IsNotMadeOf (field_schema field.entry) (field_of_text (field_set field.entry)
        (typed_of field.entry) (index_of field.entry) text.now)) }
{
    read_element(alloc, limit, field, 0, text)
}

/// Reads a text as an element of the lists that a field is, so many of them one within another, into a new message with a
/// limit: as `read_field`, but each of these lists has one element, and that of the innermost is the value. At depth 0 it is
/// the field's own.
///
/// Refused as `read_field`, and with `CannotStand` at the text's first byte where the field has not so many lists.
///
/// # Conditions
///
/// The field's schema is one of an accepted set (`IsStruct`).
pub fn read_element(
    alloc: Global,
    limit: usize,
    field: Field<'_>,
    depth: usize,
    text: &[u8],
) -> Result<Builder, Error>
    ensures message { IfOk result IsMessage }
    ensures made { IfOk result (λ m. IsMadeOf (field_schema field.entry) (element_of_text (field_set field.entry)
        (typed_of field.entry) (index_of field.entry) depth text.now) (message_tree m)) }
    ensures within { IfOk result (λ m. word_count (segment m) ≤ most_words limit) }
    ensures refused { IfErr result (IsNotMadeOf (field_schema field.entry) (element_of_text (field_set field.entry)
        (typed_of field.entry) (index_of field.entry) depth text.now)) }
{
    let shown = match read_shown(alloc, text) {
        Ok(shown) => shown,
        Err(error) => return Err(error),
    };
    let held = match put_within(alloc, depth, shown) {
        Ok(held) => held,
        Err(error) => return Err(error),
    };
    let made = match field_calls(alloc, field, &held) {
        Ok(made) => made,
        Err(error) => return Err(error),
    };
    run_made(alloc, limit, field.get_containing_struct(), made.as_slice())
}

/// Reads a text as a struct of a schema, the root of a new message, with a limit as that of `read_field`.
///
/// Refused as `read_field`, and with `CannotStand` at what are no round brackets.
///
/// # Conditions
///
/// The schema is one of an accepted set (`IsStruct`).
pub fn read_root(
    alloc: Global,
    limit: usize,
    schema: StructSchema<'_>,
    text: &[u8],
) -> Result<Builder, Error>
    requires stands { IsStruct schema }
    ensures message { IfOk result IsMessage }
    ensures made { IfOk result (λ m. IsMadeOf schema.entry (root_of_text (set_of schema.entry) (number_of schema.entry)
        text.now) (message_tree m)) }
    ensures within { IfOk result (λ m. word_count (segment m) ≤ most_words limit) }
    ensures refused { IfErr result (IsNotMadeOf schema.entry (root_of_text (set_of schema.entry) (number_of schema.entry)
        text.now)) }
{
    let shown = match read_shown(alloc, text) {
        Ok(shown) => shown,
        Err(error) => return Err(error),
    };
    let made = match root_calls(alloc, schema, &shown) {
        Ok(made) => made,
        Err(error) => return Err(error),
    };
    run_made(alloc, limit, schema, made.as_slice())
}
