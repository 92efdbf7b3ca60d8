//! Values by their JSON texts, each in a message of its own: those of fields, and those of a type.
ghost use Rattle.std.specs.Prelude.{None, ◌≡◌, ◌≤◌, length, IfErr, IfOk};
ghost use Rattle.capnp_arena.specs.Message.{IsMessage, message_tree};
ghost use Rattle.capnp_arena.specs.Segment.{segment};
ghost use Rattle.capnp_arena.specs.Shape.{word_count};
ghost use Rattle.capnp_json_text.specs.Faults.{fault_of};
ghost use Rattle.capnp_json_messages.specs.Holders.{IsHolderOf, IsOneOf, text_element, text_value};
ghost use Rattle.capnp_json_messages.specs.Rows.{IsRow, row_set, row_type};
ghost use Rattle.capnp_json_messages.specs.Messages.{most_words};
ghost use Rattle.capnp_json_messages.specs.Walks.{IsRefused};
ghost use Rattle.capnp_slots.specs.Fields.{field_set};

use crate::message::{keep_within, start_root};
use crate::row::Row;
use crate::walk::{read_element, read_field};
use capnp_arena::arena::Arena;
use capnp_arena::message::Builder;
use capnp_edits::added::new_elements;
use capnp_from_json::error::{Error, RefusalKind};
use capnp_from_json::reading::{Reading, refused};
use capnp_json_text::faults::first_fault;
use capnp_json_text::laws::values_stand_in_steps;
use capnp_json_text::rest::skip_blanks;
use capnp_schema::schema::Field;
use std::alloc::Global;

/// Reads bytes that are a JSON text into a field of the root of a new message of at most so many words.
fn read_text(
    reading: Reading,
    limit: usize,
    field: Field<'_>,
    text: &[u8],
) -> Result<Builder, Error>
    requires is_text { fault_of text.now ≡ None }
    requires whole { reading.whole ≡ length text.now }
    ensures message { IfOk result IsMessage }
    ensures holds { IfOk result (λ m. IsHolderOf field.entry reading.strict text.now (message_tree m)) }
    ensures within { IfOk result (λ m. word_count (segment m) ≤ most_words limit) }
    ensures refused { IfErr result (IsRefused (field_set field.entry) reading.strict (text_value field.entry text.now)) }
{
    values_stand_in_steps();
    let mut message = match Builder::with_limit(reading.alloc, limit) {
        Ok(message) => message,
        Err(_memory) => return Err(Error::OutOfMemory),
    };
    let root = match start_root(&mut message, field.get_containing_struct()) {
        Ok(root) => root,
        Err(error) => return Err(error),
    };
    // a message has 64 levels, of which its root takes one
    match read_field(&mut message, reading, root, field, 63, skip_blanks(text)) {
        Ok(()) => {}
        Err(error) => return Err(error),
    }
    if let Err(error) = keep_within(&message, limit) {
        return Err(error);
    }
    message.tree_is_sound(0);
    Ok(message)
}

/// Reads a JSON text as the value of a field, into a new message: its root is a struct of the field's schema with its
/// defaults, in which the field has the value that the text stands for, and a member is active. `dynamic_struct::Reader::get`
/// takes it out there. With `strict` a name that a struct lacks is refused; else it is passed over with its value. The
/// message never has more words than `limit`, which stands for 1 where it is 0, and for 2^29 - 1 where it is more.
///
/// Refused with `NotJson` where the bytes are no JSON text, at the first byte that can't stand there; with `WrongJsonKind`
/// where the field's type does not take the value; then for the first value or name in it that is refused, as by
/// `crate::message::read_message_within`. And with `OutOfMemory`, also where the message would have more words than the
/// limit.
pub fn read_value_within(
    alloc: Global,
    limit: usize,
    field: Field<'_>,
    text: &[u8],
    strict: bool,
) -> Result<Builder, Error>
    ensures message { IfOk result IsMessage }
    ensures holds { IfOk result (λ m. IsHolderOf field.entry strict text.now (message_tree m)) }
    ensures within { IfOk result (λ m. word_count (segment m) ≤ most_words limit) }
    ensures refused { IfErr result (IsRefused (field_set field.entry) strict (text_value field.entry text.now)) }
{
    values_stand_in_steps();
    let fault = match first_fault(alloc, text) {
        Ok(fault) => fault,
        Err(_memory) => return Err(Error::OutOfMemory),
    };
    if let Some(place) = fault {
        return Err(refused(RefusalKind::NotJson, place));
    }
    let reading = Reading {
        alloc,
        whole: text.len(),
        strict,
    };
    read_text(reading, limit, field, text)
}

/// Reads bytes that are a JSON text into the element of a new list of one.
fn read_into_one(reading: Reading, row: Row<'_>, text: &[u8]) -> Result<Arena, Error>
    requires row { IsRow row }
    requires is_text { fault_of text.now ≡ None }
    requires whole { reading.whole ≡ length text.now }
    ensures message { IfOk result IsMessage }
    ensures one { IfOk result (λ m. IsOneOf row.entry reading.strict text.now (message_tree m)) }
    ensures refused { IfErr result (IsRefused (row_set row.entry) reading.strict (text_element (row_type row.entry) row.entry.is_float text.now)) }
{
    values_stand_in_steps();
    let mut made = match new_elements(reading.alloc, row.schemas, row.element, 1) {
        Ok(made) => made,
        Err(_memory) => return Err(Error::OutOfMemory),
    };
    // a message has 64 levels, of which the list takes one
    match read_element(&mut made, reading, 0, row, 63, 0, skip_blanks(text)) {
        Ok(()) => {}
        Err(error) => return Err(error),
    }
    made.tree_is_sound(0);
    Ok(made)
}

/// Reads a JSON text as a value of a type, into a new message: its root is a list of one element, which is that value.
/// `dynamic_list::Reader::get` takes it out there. With `strict` a name that a struct lacks is refused; else it is passed over
/// with its value.
///
/// Refused as `read_value_within`, but for a limit.
///
/// # Conditions
///
/// The type names entries of the set (`IsRow`). Where numbers are floats, its base is UInt32 or UInt64.
pub fn read_one(alloc: Global, row: Row<'_>, text: &[u8], strict: bool) -> Result<Arena, Error>
    requires { IsRow row }
    ensures message { IfOk result IsMessage }
    ensures one { IfOk result (λ m. IsOneOf row.entry strict text.now (message_tree m)) }
    ensures refused { IfErr result (IsRefused (row_set row.entry) strict (text_element (row_type row.entry) row.entry.is_float text.now)) }
{
    values_stand_in_steps();
    let fault = match first_fault(alloc, text) {
        Ok(fault) => fault,
        Err(_memory) => return Err(Error::OutOfMemory),
    };
    if let Some(place) = fault {
        return Err(refused(RefusalKind::NotJson, place));
    }
    let reading = Reading {
        alloc,
        whole: text.len(),
        strict,
    };
    read_into_one(reading, row, text)
}
