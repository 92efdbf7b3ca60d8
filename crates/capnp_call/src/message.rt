//! Calls on whole messages: on an empty root, or on a message that was copied in whole.
ghost use Rattle.std.specs.Prelude.{IsTrue, None, Some, Err, ◌<◌, ◌≤◌, ◌≡◌, ◌≢◌, OnErr, OnOk, IfErr, IfOk, string_bytes};
ghost use Rattle.capnp_device.specs.declared.error.ErrorKind.TheVariants.{OutOfMemory};
ghost use Rattle.capnp_wire.specs.Edits.{is_struct, struct_in};
ghost use Rattle.capnp_wire.specs.Standing.{tree_of};
ghost use Rattle.capnp_arena.specs.Message.{IsMessage, message_tree};
ghost use Rattle.capnp_arena.specs.Segment.{segment};
ghost use Rattle.capnp_arena.specs.Shape.{word_count};
ghost use Rattle.capnp_schema.specs.StructHandles.{IsStruct, number_of, set_of};
ghost use Rattle.capnp_slots.specs.Standing.{IsUnder};
ghost use Rattle.capnp_dynamic_readers.specs.Pieces.{IsAppended};
ghost use Rattle.capnp_call.specs.Messages.{HasRoot, IsCopiedRefusal, IsRoot, IsWhole, IsWholeRefusal, LeavesRun, copied_record, copied_root, most_words, new_record, new_root, root_refusal};
ghost use Rattle.capnp_call.specs.Steps.Messages.{RunsOn, read_text, root_text};
ghost use Rattle.capnp_call.specs.Runs.{IsCallMade, MakesCalls, RestsWhole};

use crate::calls::{Call, Reply};
use crate::runs::call_at;
use capnp_arena::message::Builder;
use capnp_arena::segment::bytes_of;
use capnp_dynamic_readers::dynamic_struct;
use capnp_dynamic_readers::dynamic_value::Reader as Value;
use capnp_dynamic_readers::printer::print;
use capnp_records::laws::{overlay_law, print_law};
use capnp_schema::laws::numbers_fit;
use capnp_schema::schema::StructSchema;
use capnp_slots::size_of;
use capnp_wire::PointerReader;
use capnp_wire::error::{Error, ErrorKind, Result};
use capnp_wire::laws::pointer_is_well_formed;
use std::alloc::Global;

/// The most words that a message can have.
pub const MOST_WORDS: usize = (1 << 29) - 1;

/// What a run leaves: the message, and one reply to each call, in order.
#[derive(Drop)]
pub struct Run {
    pub message: Builder,
    pub replies: Vec<Reply>,
}

/// Makes the root a struct of a schema, all zero and null. Refused with `OutOfMemory`.
fn empty_root(message: &mut Builder, schema: StructSchema<'_>) -> Result<()>
    requires { 0 < word_count (segment message.old) }
    ensures message { OnOk result (IsMessage message.new) }
    ensures root { OnOk result (HasRoot schema.entry (new_record schema.entry) (message_tree message.new)) }
    ensures anew { OnOk result (struct_in (message_tree message.new) ≡ new_root schema.entry) }
    ensures cause { IfErr result (λ e. e.kind ≡ OutOfMemory) }
{
    let size = size_of(schema);
    message.init_struct(0, size)?;
    Ok(())
}

/// Makes the root a copy of a struct, with at least its schema's sections. Refused as `set_root` and `get_struct`.
fn copied_root(
    message: &mut Builder,
    source: PointerReader<'_>,
    schema: StructSchema<'_>,
) -> Result<()>
    ensures message { OnOk result (IsMessage message.new) }
    ensures root { OnOk result (HasRoot schema.entry (copied_record schema.entry source.entry)
        (message_tree message.new)) }
    ensures copied { OnOk result (struct_in (message_tree message.new) ≡ copied_root schema.entry source.entry) }
    ensures sound { OnOk result (root_refusal (tree_of source.entry) ≡ None) }
    ensures cause { IfErr result (λ e. e.kind ≢ OutOfMemory → root_refusal (tree_of source.entry) ≡ Some e.kind) }
{
    pointer_is_well_formed(&source);
    let size = size_of(schema);
    message.set_root(source)?;
    message.get_struct(0, size)?;
    Ok(())
}

/// Whether a call was refused for room.
#[inline(always)]
fn is_for_room(reply: &Reply) -> bool {
    match reply {
        Reply::Refused(ErrorKind::OutOfMemory) => true,
        _ => false,
    }
}

/// Compacts a message where less room is left than was added to the words that it held when it was compacted last, or
/// where anything was added and the call before was refused for room. Answers the words that it holds now; else those.
/// Where there is no memory to compact, it stays as it is.
///
/// So calls that replace what others wrote go on where their message may not grow any more. It is compacted again only
/// when half of the room that it had then is used, or for each call that is refused.
#[inline(always)]
fn keep_room(message: &mut Builder, held: usize, is_full: bool) -> usize
    requires message { IsMessage message.old }
    ensures message { IsMessage message.new }
    ensures tree { message_tree message.new ≡ message_tree message.old }
{
    let words = bytes_of(message).len() / 8;
    let added = words.saturating_sub(held);
    if message.get_limit() - words >= added && !(is_full && added > 0) {
        return held;
    }
    compact_held(message, held)
}

/// Compacts a message, and answers the words that it holds then; where there is no memory to, those that it held.
#[inline(never)]
fn compact_held(message: &mut Builder, held: usize) -> usize
    requires message { IsMessage message.old }
    ensures message { IsMessage message.new }
    ensures tree { message_tree message.new ≡ message_tree message.old }
{
    match message.compact() {
        Ok(()) => bytes_of(message).len() / 8,
        Err(_) => held,
    }
}

/// Makes one call on a root.
#[inline(always)]
fn call_on_root(
    alloc: Global,
    message: &mut Builder,
    schema: StructSchema<'_>,
    call: &Call<'_>,
) -> Reply
    requires stands { IsStruct schema }
    requires message { IsMessage message.old }
    requires here { IsTrue (is_struct (message_tree message.old)) }
    requires room { IsUnder schema (struct_in (message_tree message.old)) }
    ensures message { IsMessage message.new }
    ensures here { IsTrue (is_struct (message_tree message.new)) }
    ensures room { IsUnder schema.entry (struct_in (message_tree message.new)) }
    ensures made { IsCallMade (set_of schema.entry) (number_of schema.entry) (struct_in (message_tree message.old)) call.now
        result (struct_in (message_tree message.new)) }
{
    let place = message.struct_here(0);
    call_at(alloc, message, place, schema, call)
}

/// Makes calls on a root one after another, and keeps room for them.
fn make_calls_on_root(
    alloc: Global,
    message: &mut Builder,
    schema: StructSchema<'_>,
    calls: &[Call<'_>],
) -> Result<Vec<Reply>>
    requires stands { IsStruct schema }
    requires message { IsMessage message.old }
    requires here { IsTrue (is_struct (message_tree message.old)) }
    requires room { IsUnder schema (struct_in (message_tree message.old)) }
    ensures message { IsMessage message.new }
    ensures here { IsTrue (is_struct (message_tree message.new)) }
    ensures made { IfOk result (λ replies. MakesCalls (set_of schema.entry) (number_of schema.entry)
        (struct_in (message_tree message.old)) calls.now replies.items
        (struct_in (message_tree message.new))) }
    ensures cause { IfErr result (λ e. e.kind ≡ OutOfMemory) }
{
    let mut replies = Vec::with_capacity(alloc, calls.len())?;
    let mut held = bytes_of(message).len() / 8;
    let mut is_full = false;
    for call in calls {
        held = keep_room(message, held, is_full);
        let reply = call_on_root(alloc, message, schema, call);
        is_full = is_for_room(&reply);
        if replies.push(reply).is_err() {
            unreachable!();
        }
    }
    Ok(replies)
}

/// Makes calls on a root. Refused with `OutOfMemory`.
fn run_root(
    alloc: Global,
    message: &mut Builder,
    schema: StructSchema<'_>,
    calls: &[Call<'_>],
) -> Result<Vec<Reply>>
    requires stands { IsStruct schema }
    requires message { IsMessage message.old }
    requires root { IsRoot schema (message_tree message.old) }
    ensures message { IsMessage message.new }
    ensures run { IfOk result (λ replies. RunsOn schema.entry (message_tree message.old) calls.now replies.items
        (message_tree message.new)) }
    ensures made { IfOk result (λ replies. MakesCalls (set_of schema.entry) (number_of schema.entry)
        (struct_in (message_tree message.old)) calls.now replies.items
        (struct_in (message_tree message.new))) }
    ensures cause { IfErr result (λ e. e.kind ≡ OutOfMemory) }
{
    overlay_law();
    numbers_fit(schema.get_set());
    let replies = make_calls_on_root(alloc, message, schema, calls);
    message.tree_is_sound(0);
    replies
}

/// Asks whether a message has at most the words of its limit. No call changes that limit: what calls left is measured here,
/// so that a contract says so. Else refused with `OutOfMemory`, as a call for which there was no room.
fn keep_within(message: &Builder, limit: usize) -> Result<()>
    ensures within { OnOk result (word_count (segment message.now) ≤ most_words limit) }
    ensures cause { IfErr result (λ e. e.kind ≡ OutOfMemory) }
{
    if bytes_of(message).len() / 8 > limit.max(1).min(MOST_WORDS) {
        return Err(Error::from(ErrorKind::OutOfMemory));
    }
    Ok(())
}

/// Makes calls on an empty root of a new message: the root is a struct of the schema, all zero and null, and what it
/// reads as after the calls is what the machine of records makes of the schema's default record. The message never has
/// more words than `limit`, which stands for 1 where it is 0, and for `MOST_WORDS` where it is more, as
/// `Builder::with_limit` has it. It is compacted before a call where its room gets short, and behind one that was
/// refused for room.
///
/// Refused with `OutOfMemory` alone, where there is no room for the root or the replies; then no call was made. A call
/// that is refused has its reply, and doesn't refuse the run. One that takes no memory on what the one before it left
/// is refused neither with `OutOfMemory` nor with `SizePastFormat`.
///
/// # Conditions
///
/// The schema is one of an accepted set (`IsStruct`).
pub fn run_new(
    alloc: Global,
    limit: usize,
    schema: StructSchema<'_>,
    calls: &[Call<'_>],
) -> Result<Run>
    requires { IsStruct schema }
    ensures message { IfOk result (λ left. IsMessage left.message) }
    ensures run { IfOk result (λ left. LeavesRun schema.entry (new_record schema.entry) calls.now left.replies.items
        (message_tree left.message)) }
    ensures made { IfOk result (λ left. MakesCalls (set_of schema.entry) (number_of schema.entry)
        (new_root schema.entry) calls.now left.replies.items
        (struct_in (message_tree left.message))) }
    ensures rests { IfOk result (λ left. RestsWhole schema.entry (new_root schema.entry) calls.now
        left.replies.items) }
    ensures within { IfOk result (λ left. word_count (segment left.message) ≤ most_words limit) }
    ensures cause { IfErr result (λ e. e.kind ≡ OutOfMemory) }
{
    let mut message = Builder::with_limit(alloc, limit)?;
    empty_root(&mut message, schema)?;
    let replies = run_root(alloc, &mut message, schema, calls)?;
    keep_within(&message, limit)?;
    Ok(Run { message, replies })
}

/// Makes calls on a copy of a message's root, which is a struct: what it reads as after the calls is what the machine
/// of records makes of the record that the source reads as. The limit is one of words, as that of `run_new`.
///
/// Refused with `BadPointer`, `TooDeep` or `CapabilityPointer` where a pointer in the source can't be followed, by the
/// first of these in preorder; else with `WrongPointerKind` where the source is a list; and with `OutOfMemory`. Then no
/// call was made. Once the copy and the replies have room, calls are refused as by `run_new`.
///
/// # Conditions
///
/// The schema is one of an accepted set (`IsStruct`).
pub fn run_copied(
    alloc: Global,
    limit: usize,
    source: PointerReader<'_>,
    schema: StructSchema<'_>,
    calls: &[Call<'_>],
) -> Result<Run>
    requires { IsStruct schema }
    ensures message { IfOk result (λ left. IsMessage left.message) }
    ensures run { IfOk result (λ left. LeavesRun schema.entry
        (copied_record schema.entry source.entry) calls.now left.replies.items
        (message_tree left.message)) }
    ensures made { IfOk result (λ left. MakesCalls (set_of schema.entry) (number_of schema.entry)
        (copied_root schema.entry source.entry) calls.now left.replies.items
        (struct_in (message_tree left.message))) }
    ensures rests { IfOk result (λ left. RestsWhole schema.entry
        (copied_root schema.entry source.entry) calls.now left.replies.items) }
    ensures within { IfOk result (λ left. word_count (segment left.message) ≤ most_words limit) }
    ensures sound { OnOk result (root_refusal (tree_of source.entry) ≡ None) }
    ensures cause { IfErr result (λ e. e.kind ≢ OutOfMemory → root_refusal (tree_of source.entry) ≡ Some e.kind) }
{
    let mut message = Builder::with_limit(alloc, limit)?;
    copied_root(&mut message, source, schema)?;
    let replies = run_root(alloc, &mut message, schema, calls)?;
    keep_within(&message, limit)?;
    Ok(Run { message, replies })
}

/// Appends the text of a message's root. Refused as the print, and then nothing is appended.
fn print_message_root(
    message: &Builder,
    schema: StructSchema<'_>,
    out: &mut String,
    indented: bool,
) -> Result<()>
    requires message { IsMessage message.now }
    requires here { IsTrue (is_struct (message_tree message.now)) }
    ensures printed { OnOk result (IsAppended (string_bytes out.old)
        (root_text schema.entry indented (message_tree message.now)) (string_bytes out.new)) }
    ensures refused { OnErr result (string_bytes out.new ≡ string_bytes out.old) }
    ensures cause { IfErr result (λ e. e.kind ≢ OutOfMemory
        → read_text schema.entry indented (message_tree message.now) ≡ Err e.kind) }
{
    print_law();
    let reader = message.get_pointer_reader(0).get_struct()?;
    let root = dynamic_struct::Reader::new(reader, schema);
    print(Value::Struct(root), out, indented)
}

/// Makes calls on an empty root of a new message, writes the message and prints its root: the promise of this crate,
/// whole. The replies and the record that the bytes are read back as are related by the machine of records to the
/// default record, and what is printed is the text of that record.
///
/// Refused with `OutOfMemory`, and as the print of the root that the calls left. Then the string is as it was. A call
/// that is refused has its reply, and doesn't refuse the whole.
///
/// # Conditions
///
/// The schema is one of an accepted set (`IsStruct`).
///
/// # Example
///
/// ```rust
/// let calls = [
///     on_field("name", Op::Set(Value::Text(name))),
///     on_field("balance", Op::Set(Value::Int64(12))),
/// ];
/// let (replies, bytes) = whole_new(alloc, account, &calls, out, false)?;
/// ```
pub fn whole_new(
    alloc: Global,
    schema: StructSchema<'_>,
    calls: &[Call<'_>],
    out: &mut String,
    indented: bool,
) -> Result<(Vec<Reply>, Vec<u8>)>
    requires { IsStruct schema }
    ensures whole { IfOk result (λ done. IsWhole schema.entry
        (new_record schema.entry) (new_root schema.entry) calls.now done.0.items done.1.items indented
        (string_bytes out.old) (string_bytes out.new)) }
    ensures refused { OnErr result (string_bytes out.new ≡ string_bytes out.old) }
    ensures cause { IfErr result (λ e. e.kind ≢ OutOfMemory
        → IsWholeRefusal schema.entry (new_record schema.entry) calls.now indented e.kind) }
{
    let Run { message, replies } = run_new(alloc, MOST_WORDS, schema, calls)?;
    let bytes = message.write_message()?;
    print_message_root(&message, schema, out, indented)?;
    Ok((replies, bytes))
}

/// Makes calls on a copy of a message's root, writes the message and prints its root, as `whole_new` on an empty one.
/// The root is a struct. What the schema doesn't know stays as the source has it.
///
/// Refused as `run_copied`, and then as `whole_new`. Then the string is as it was.
///
/// # Conditions
///
/// The schema is one of an accepted set (`IsStruct`).
///
/// # Example
///
/// ```rust
/// let source = Reader::new(alloc, message)?.get_root();
/// let calls = [on_field("balance", Op::Set(Value::Int64(20)))];
/// let (replies, bytes) = whole_copied(alloc, source, account, &calls, out, false)?;
/// ```
pub fn whole_copied(
    alloc: Global,
    source: PointerReader<'_>,
    schema: StructSchema<'_>,
    calls: &[Call<'_>],
    out: &mut String,
    indented: bool,
) -> Result<(Vec<Reply>, Vec<u8>)>
    requires { IsStruct schema }
    ensures whole { IfOk result (λ done. IsWhole schema.entry
        (copied_record schema.entry source.entry) (copied_root schema.entry source.entry) calls.now done.0.items
        done.1.items indented
        (string_bytes out.old) (string_bytes out.new)) }
    ensures sound { OnOk result (root_refusal (tree_of source.entry) ≡ None) }
    ensures refused { OnErr result (string_bytes out.new ≡ string_bytes out.old) }
    ensures cause { IfErr result (λ e. e.kind ≢ OutOfMemory
        → IsCopiedRefusal schema.entry source.entry calls.now indented e.kind) }
{
    let Run { message, replies } = run_copied(alloc, MOST_WORDS, source, schema, calls)?;
    let bytes = message.write_message()?;
    print_message_root(&message, schema, out, indented)?;
    Ok((replies, bytes))
}
