//! Calls and edits in a row on whole messages: on an empty root, or on a message that was copied in whole.
ghost use Rattle.std.specs.Prelude.{IfErr, IfOk, IsTrue, None, OnOk, Some, ◌+◌, ◌<◌, ◌≡◌, ◌≢◌, ◌≤◌, length, vec_len};
ghost use Rattle.std.specs.Vec.{vec_capacity};
ghost use Rattle.capnp_device.specs.declared.error.ErrorKind.TheVariants.{OutOfMemory};
ghost use Rattle.capnp_wire.specs.Edits.{is_struct, struct_in};
ghost use Rattle.capnp_wire.specs.Standing.{tree_of};
ghost use Rattle.capnp_arena.specs.Message.{IsMessage, message_tree};
ghost use Rattle.capnp_arena.specs.Segment.{segment};
ghost use Rattle.capnp_arena.specs.Shape.{word_count};
ghost use Rattle.capnp_schema.specs.StructHandles.{IsStruct};
ghost use Rattle.capnp_slots.specs.Standing.{IsUnder};
ghost use Rattle.capnp_call.specs.Messages.{IsRoot, copied_root, most_words, new_root, root_refusal};
ghost use Rattle.capnp_edit_calls.specs.ActsLeft.{IsActsLeftOfCopy, IsActsLeftOfNew};
ghost use Rattle.capnp_edit_calls.specs.ActsMade.{ActsMade};
ghost use Rattle.capnp_edit_calls.specs.Steps.Next.{IsNextOf};

use crate::acts::Act;
use crate::laws::acts_law;
use crate::runs::{Next, make_next};
use capnp_arena::message::Builder;
use capnp_arena::segment::bytes_of;
use capnp_call::calls::Reply;
use capnp_call::message::{MOST_WORDS, Run, run_copied, run_new};
use capnp_records::laws::overlay_law;
use capnp_schema::laws::numbers_fit;
use capnp_schema::schema::StructSchema;
use capnp_wire::PointerReader;
use capnp_wire::error::{Error, ErrorKind, Result};
use std::alloc::Global;

/// Compacts a message, and answers the words that it holds then; where there is no memory to, those that it held.
fn compact_held(message: &mut Builder, held: usize) -> usize
    requires message { IsMessage message.old }
    ensures message { IsMessage message.new }
    ensures tree { message_tree message.new ≡ message_tree message.old }
{
    match message.compact() {
        Ok(()) => bytes_of(message).len() / 8,
        Err(_) => held,
    }
}

/// Compacts a message where less room is left than was added since it was compacted last, or where anything was added and
/// the act before was refused for room: what edits replace is left in the message.
fn keep_room(message: &mut Builder, held: usize, is_full: bool) -> usize
    requires message { IsMessage message.old }
    ensures message { IsMessage message.new }
    ensures tree { message_tree message.new ≡ message_tree message.old }
{
    let words = bytes_of(message).len() / 8;
    let added = words.saturating_sub(held);
    if message.get_limit() - words >= added && !(is_full && added > 0) {
        return held;
    }
    compact_held(message, held)
}

/// Makes the next of these acts on a root.
fn next_on_root(
    alloc: Global,
    message: &mut Builder,
    schema: StructSchema<'_>,
    acts: &[Act<'_>],
    apart: usize,
    replies: &mut Vec<Reply>,
) -> Next
    requires stands { IsStruct schema }
    requires message { IsMessage message.old }
    requires here { IsTrue (is_struct (message_tree message.old)) }
    requires room { IsUnder schema (struct_in (message_tree message.old)) }
    requires some { 0 < length acts.now }
    requires space { vec_len replies.old + length acts.now ≤ vec_capacity replies.old }
    ensures message { IsMessage message.new }
    ensures here { IsTrue (is_struct (message_tree message.new)) }
    ensures room { IsUnder schema.entry (struct_in (message_tree message.new)) }
    ensures next { IsNextOf schema.entry (struct_in (message_tree message.old)) acts.now result.count replies.old.items
        replies.new.items (struct_in (message_tree message.new)) }
    ensures len { vec_len replies.new ≡ vec_len replies.old + result.count }
    ensures capacity { vec_capacity replies.old ≤ vec_capacity replies.new }
{
    let place = message.struct_here(0);
    make_next(alloc, message, place, schema, acts, apart, replies)
}

/// Makes acts on a root one after another, and keeps room for them.
fn make_acts_on_root(
    alloc: Global,
    message: &mut Builder,
    schema: StructSchema<'_>,
    acts: &[Act<'_>],
) -> Result<Vec<Reply>>
    requires stands { IsStruct schema }
    requires message { IsMessage message.old }
    requires here { IsTrue (is_struct (message_tree message.old)) }
    requires room { IsUnder schema (struct_in (message_tree message.old)) }
    ensures message { IsMessage message.new }
    ensures here { IsTrue (is_struct (message_tree message.new)) }
    ensures room { IsUnder schema.entry (struct_in (message_tree message.new)) }
    ensures made { IfOk result (λ replies. ActsMade schema.entry (struct_in (message_tree message.old)) acts.now
        replies.items (struct_in (message_tree message.new))) }
    ensures cause { IfErr result (λ e. e.kind ≡ OutOfMemory) }
{
    let mut replies = Vec::with_capacity(alloc, acts.len())?;
    let mut held = bytes_of(message).len() / 8;
    let mut is_full = false;
    let mut apart = 0;
    let mut made = 0;
    while made < acts.len() {
        held = keep_room(message, held, is_full);
        let (_, rest) = acts.split_at(made);
        let next = next_on_root(alloc, message, schema, rest, apart, &mut replies);
        made += next.count;
        apart = next.apart;
        is_full = next.is_full;
    }
    Ok(replies)
}

/// Makes calls and edits on a message's root, one after another, and gives one reply to each, in order. One that is
/// refused doesn't end the run. Where acts that follow one another each append one value to the list at the same path, they
/// are made as one edit: the list is copied once, and each value once for each doubling of their number. Where that is
/// refused, each of them is made by itself, with a copy of the list. The message is compacted where its room gets short.
///
/// Refused with `OutOfMemory` where there is no room for the replies, and then the root reads as it did.
///
/// # Conditions
///
/// The schema is one of an accepted set (`IsStruct`). A struct with at least its sections stands at the message's root
/// (`IsMessage`, `IsRoot`).
pub fn run_acts(
    alloc: Global,
    message: &mut Builder,
    schema: StructSchema<'_>,
    acts: &[Act<'_>],
) -> Result<Vec<Reply>>
    requires stands { IsStruct schema }
    requires message { IsMessage message.old }
    requires root { IsRoot schema (message_tree message.old) }
    ensures message { IsMessage message.new }
    ensures root { IsRoot schema.entry (message_tree message.new) }
    ensures made { IfOk result (λ replies. ActsMade schema.entry (struct_in (message_tree message.old)) acts.now
        replies.items (struct_in (message_tree message.new))) }
    ensures cause { IfErr result (λ e. e.kind ≡ OutOfMemory) }
{
    let replies = make_acts_on_root(alloc, message, schema, acts);
    message.tree_is_sound(0);
    replies
}

/// Asks whether a message has at most the words of its limit, which no act changes; else refused with `OutOfMemory`.
fn keep_within(message: &Builder, limit: usize) -> Result<()>
    ensures within { OnOk result (word_count (segment message.now) ≤ most_words limit) }
    ensures cause { IfErr result (λ e. e.kind ≡ OutOfMemory) }
{
    if bytes_of(message).len() / 8 > limit.max(1).min(MOST_WORDS) {
        return Err(Error::from(ErrorKind::OutOfMemory));
    }
    Ok(())
}

/// Makes calls and edits on an empty root of a new message, as `run_acts`. The message never has more words than `limit`,
/// as that of `run_new`. Where all are calls, what they leave is what `run_new` says of them.
///
/// Refused with `OutOfMemory` alone, where there is no room for the root or the replies.
///
/// # Conditions
///
/// The schema is one of an accepted set (`IsStruct`).
pub fn run_acts_new(
    alloc: Global,
    limit: usize,
    schema: StructSchema<'_>,
    acts: &[Act<'_>],
) -> Result<Run>
    requires { IsStruct schema }
    ensures message { IfOk result (λ left. IsMessage left.message) }
    ensures root { IfOk result (λ left. IsRoot schema.entry (message_tree left.message)) }
    ensures made { IfOk result (λ left. ActsMade schema.entry (new_root schema.entry) acts.now left.replies.items
        (struct_in (message_tree left.message))) }
    ensures left { IfOk result (λ left. IsActsLeftOfNew schema.entry acts.now left.replies.items
        (message_tree left.message)) }
    ensures within { IfOk result (λ left. word_count (segment left.message) ≤ most_words limit) }
    ensures cause { IfErr result (λ e. e.kind ≡ OutOfMemory) }
{
    acts_law();
    overlay_law();
    numbers_fit(schema.get_set());
    let Run {
        mut message,
        replies: _,
    } = run_new(alloc, limit, schema, &[])?;
    let replies = run_acts(alloc, &mut message, schema, acts)?;
    keep_within(&message, limit)?;
    Ok(Run { message, replies })
}

/// Makes calls and edits on a copy of a message's root, which is a struct, as `run_acts`. The message never has more words
/// than `limit`, as that of `run_copied`. What the schema doesn't know stays as the source has it. Where all are calls, what
/// they leave is what `run_copied` says of them.
///
/// Refused with `BadPointer`, `TooDeep` or `CapabilityPointer` where a pointer in the source can't be followed, by the
/// first of these in preorder; else with `WrongPointerKind` where the source is a list; and with `OutOfMemory`.
///
/// # Conditions
///
/// The schema is one of an accepted set (`IsStruct`).
pub fn run_acts_copied(
    alloc: Global,
    limit: usize,
    source: PointerReader<'_>,
    schema: StructSchema<'_>,
    acts: &[Act<'_>],
) -> Result<Run>
    requires { IsStruct schema }
    ensures message { IfOk result (λ left. IsMessage left.message) }
    ensures root { IfOk result (λ left. IsRoot schema.entry (message_tree left.message)) }
    ensures made { IfOk result (λ left. ActsMade schema.entry (copied_root schema.entry source.entry) acts.now
        left.replies.items (struct_in (message_tree left.message))) }
    ensures left { IfOk result (λ left. IsActsLeftOfCopy schema.entry (tree_of source.entry) acts.now left.replies.items
        (message_tree left.message)) }
    ensures within { IfOk result (λ left. word_count (segment left.message) ≤ most_words limit) }
    ensures sound { OnOk result (root_refusal (tree_of source.entry) ≡ None) }
    ensures cause { IfErr result (λ e. e.kind ≢ OutOfMemory → root_refusal (tree_of source.entry) ≡ Some e.kind) }
{
    acts_law();
    overlay_law();
    numbers_fit(schema.get_set());
    let Run {
        mut message,
        replies: _,
    } = run_copied(alloc, limit, source, schema, &[])?;
    let replies = run_acts(alloc, &mut message, schema, acts)?;
    keep_within(&message, limit)?;
    Ok(Run { message, replies })
}
