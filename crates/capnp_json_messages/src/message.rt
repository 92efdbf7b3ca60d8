//! Messages of JSON texts.
ghost use Rattle.std.specs.Prelude.{ℕ, IsTrue, None, ◌≡◌, ◌-◌, ◌<◌, ◌≤◌, length, IfErr, IfOk, OnOk};
ghost use Rattle.capnp_wire.specs.Edits.{is_struct};
ghost use Rattle.capnp_arena.specs.Built.{IsBuilt, built_at};
ghost use Rattle.capnp_arena.specs.Message.{IsMessage, message_tree};
ghost use Rattle.capnp_arena.specs.Segment.{segment};
ghost use Rattle.capnp_arena.specs.Shape.{word_count};
ghost use Rattle.capnp_schema.specs.StructHandles.{IsStruct, number_of, set_of};
ghost use Rattle.capnp_json_text.specs.Faults.{fault_of};
ghost use Rattle.capnp_from_json.specs.declared.error.Error.TheVariants.{OutOfMemory};
ghost use Rattle.capnp_json_messages.specs.Messages.{IsRootOf, most_words, text_record};
ghost use Rattle.capnp_json_messages.specs.Started.{new_struct};
ghost use Rattle.capnp_json_messages.specs.Steps.Roots.{RootStarted};
ghost use Rattle.capnp_json_messages.specs.Walks.{IsRefused};

use crate::opened::open_root;
use crate::walk::read_members;
use capnp_arena::arena::Place;
use capnp_arena::message::Builder;
use capnp_arena::segment::bytes_of;
use capnp_from_json::error::{Error, RefusalKind};
use capnp_from_json::reading::{Reading, refused};
use capnp_json_text::faults::first_fault;
use capnp_json_text::laws::values_stand_in_steps;
use capnp_json_text::rest::skip_blanks;
use capnp_schema::schema::StructSchema;
use capnp_slots::size_of;
use std::alloc::Global;

/// The most words that a message can have.
const MOST_WORDS: usize = (1 << 29) - 1;

/// Makes the root of a message a new struct of a schema, and answers where it stands.
///
/// Refused with `OutOfMemory` alone.
pub(crate) fn start_root(message: &mut Builder, schema: StructSchema<'_>) -> Result<Place, Error>
    requires inside { 0 < word_count (segment message.old) }
    ensures started { IfOk result (RootStarted schema.entry message.new) }
    ensures memory { IfErr result (λ e. e ≡ OutOfMemory) }
{
    let size = size_of(schema);
    if let Err(_memory) = message.init_struct(0, size) {
        return Err(Error::OutOfMemory);
    }
    Ok(message.struct_here(0))
}

/// Asks whether a message has at most the words of its limit. No read changes that limit: what was read is measured here, so
/// that a contract says so. Else refused with `OutOfMemory`, as a value for which there was no room.
pub(crate) fn keep_within(message: &Builder, limit: usize) -> Result<(), Error>
    ensures within { OnOk result (word_count (segment message.now) ≤ most_words limit) }
    ensures memory { IfErr result (λ e. e ≡ OutOfMemory) }
{
    if bytes_of(message).len() / 8 > limit.max(1).min(MOST_WORDS) {
        return Err(Error::OutOfMemory);
    }
    Ok(())
}

/// Reads bytes that are a JSON text into a new message of at most so many words.
fn read_text(
    reading: Reading,
    limit: usize,
    schema: StructSchema<'_>,
    text: &[u8],
) -> Result<Builder, Error>
    requires stands { IsStruct schema }
    requires is_text { fault_of text.now ≡ None }
    requires whole { reading.whole ≡ length text.now }
    ensures message { IfOk result IsMessage }
    ensures read { IfOk result (λ m. IsRootOf schema.entry reading.strict text.now (message_tree m)) }
    ensures within { IfOk result (λ m. word_count (segment m) ≤ most_words limit) }
    ensures refused { IfErr result (IsRefused (set_of schema.entry) reading.strict (text_record schema.entry text.now)) }
{
    values_stand_in_steps();
    let first = match open_root(reading, skip_blanks(text)) {
        Ok(first) => first,
        Err(error) => return Err(error),
    };
    let mut message = match Builder::with_limit(reading.alloc, limit) {
        Ok(message) => message,
        Err(_memory) => return Err(Error::OutOfMemory),
    };
    let root = match start_root(&mut message, schema) {
        Ok(root) => root,
        Err(error) => return Err(error),
    };
    // a message has 64 levels, of which its root takes one
    match read_members(&mut message, reading, root, schema, 63, first) {
        Ok(()) => {}
        Err(error) => return Err(error),
    }
    if let Err(error) = keep_within(&message, limit) {
        return Err(error);
    }
    message.tree_is_sound(0);
    Ok(message)
}

/// Reads a JSON text into a new message, whose root is a struct of the schema: it reads as the record that the text
/// stands for. With `strict` a name that a struct lacks is refused; else it is passed over with its value. The message
/// never has more words than `limit`, which stands for 1 where it is 0, and for 2^29 - 1 where it is more.
///
/// Refused with `NotJson` where the bytes are no JSON text, at the first byte that can't stand there; with `WrongJsonKind`
/// where it is no object; then for the first member in the text's order that is refused: at a name with `NameUnknown`
/// and `GivenTwice`, at a value with `WrongJsonKind`, `TooDeep`, `SizePastFormat`, `NumberOutOfRange` and `NameUnknown`.
/// And with `OutOfMemory`, also where the message would have more words than the limit.
///
/// # Conditions
///
/// The schema is one of an accepted set (`IsStruct`).
pub fn read_message_within(
    alloc: Global,
    limit: usize,
    schema: StructSchema<'_>,
    text: &[u8],
    strict: bool,
) -> Result<Builder, Error>
    requires { IsStruct schema }
    ensures message { IfOk result IsMessage }
    ensures read { IfOk result (λ m. IsRootOf schema.entry strict text.now (message_tree m)) }
    ensures within { IfOk result (λ m. word_count (segment m) ≤ most_words limit) }
    ensures refused { IfErr result (IsRefused (set_of schema.entry) strict (text_record schema.entry text.now)) }
{
    values_stand_in_steps();
    let fault = match first_fault(alloc, text) {
        Ok(fault) => fault,
        Err(_memory) => return Err(Error::OutOfMemory),
    };
    if let Some(place) = fault {
        return Err(refused(RefusalKind::NotJson, place));
    }
    let reading = Reading {
        alloc,
        whole: text.len(),
        strict,
    };
    read_text(reading, limit, schema, text)
}

/// As `read_message_within`, with as many words as the format allows.
///
/// # Conditions
///
/// The schema is one of an accepted set (`IsStruct`).
pub fn read_message(
    alloc: Global,
    schema: StructSchema<'_>,
    text: &[u8],
    strict: bool,
) -> Result<Builder, Error>
    requires { IsStruct schema }
    ensures message { IfOk result IsMessage }
    ensures read { IfOk result (λ m. IsRootOf schema.entry strict text.now (message_tree m)) }
    ensures refused { IfErr result (IsRefused (set_of schema.entry) strict (text_record schema.entry text.now)) }
{
    read_message_within(alloc, MOST_WORDS, schema, text, strict)
}
