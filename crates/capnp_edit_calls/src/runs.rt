//! Calls and edits in a row on a struct that is built: one edit for all appends to one list that follow one another.
ghost use Rattle.std.specs.Prelude.{[], ◌∷◌, ◌++◌, ◌≡◌, ◌≢◌, ◌≤◌, ◌<◌, ◌+◌, false, length, replicate, true, vec_len};
ghost use Rattle.std.specs.Vec.{vec_capacity};
ghost use Rattle.capnp_arena.specs.Built.{built_at};
ghost use Rattle.capnp_arena.specs.Frame.{LeavesStruct};
ghost use Rattle.capnp_slots.specs.Standing.{TakesCalls};
ghost use Rattle.capnp_records.specs.Call.{Done as DoneSeen};
ghost use Rattle.capnp_call.specs.Seen.{path_seen, reply_seen};
ghost use Rattle.capnp_call.specs.declared.calls.Reply.TheVariants.{Done};
ghost use Rattle.capnp_edit_calls.specs.ActsMade.{ActsMade};
ghost use Rattle.capnp_edit_calls.specs.ChangesSeen.{sources_of};
ghost use Rattle.capnp_edit_calls.specs.Steps.Next.{IsAppendedAs, IsJoinedAs, IsNextOf};

use crate::acts::{Act, values_to};
use crate::change::Change;
use crate::copy::copy_part;
use crate::edit::{ListEdit, edit_list};
use capnp_arena::arena::{Arena, Place};
use capnp_call::calls::{Ending, Reply, Step};
use capnp_call::walk::walk;
use capnp_dynamic_readers::dynamic_value::Reader as Value;
use capnp_schema::schema::StructSchema;
use capnp_wire::error::ErrorKind;
use std::alloc::Global;

/// How the first acts of a run are made.
#[derive(Clone, Copy)]
pub(crate) enum Joined {
    /// So many appends were made as one.
    All(usize),
    /// So many acts are to be made each by itself.
    Apart(usize),
}

/// How many acts were made, how many of those that follow are to be made each by itself, and whether the last was refused
/// for room.
#[derive(Clone, Copy)]
pub(crate) struct Next {
    pub count: usize,
    pub apart: usize,
    pub is_full: bool,
}

/// Makes one act.
fn make_act(
    alloc: Global,
    arena: &mut Arena,
    place: Place,
    schema: StructSchema<'_>,
    act: &Act<'_>,
) -> Reply
    requires ready { TakesCalls schema arena.old place }
    ensures made { ActsMade schema.entry (built_at arena.old place) (act.now ∷ []) (result ∷ [])
        (built_at arena.new place) }
    ensures frame { LeavesStruct place arena.old arena.new }
{
    match act {
        Act::Call(call) => walk(arena, place, schema, call.path, Ending { alloc, call }),
        Act::Edit(edit) => edit_list(alloc, arena, place, schema, edit),
        Act::Copy(copy) => copy_part(alloc, arena, place, schema, copy.path, copy.from),
    }
}

/// Whether something was written.
fn is_done(reply: &Reply) -> bool
    ensures done { result ≡ true → reply_seen reply.now ≡ DoneSeen }
    ensures other { result ≡ false → reply_seen reply.now ≢ DoneSeen }
{
    match reply {
        Reply::Done => true,
        Reply::Value(_) | Reply::Flag(_) | Reply::Member(_) | Reply::Refused(_) => false,
    }
}

/// Appends values to one list, as one edit.
fn append_values(
    alloc: Global,
    arena: &mut Arena,
    place: Place,
    schema: StructSchema<'_>,
    path: &[Step<'_>],
    values: &[Value<'_>],
) -> Joined
    requires ready { TakesCalls schema arena.old place }
    ensures joined { IsAppendedAs schema.entry (built_at arena.old place) (path_seen path.now) (sources_of values.now)
        result (built_at arena.new place) }
    ensures frame { LeavesStruct place arena.old arena.new }
{
    let edit = ListEdit {
        path,
        change: Change::Append(values),
    };
    let reply = edit_list(alloc, arena, place, schema, &edit);
    if is_done(&reply) {
        return Joined::All(values.len());
    }
    Joined::Apart(values.len())
}

/// Appends the values of the first acts as one edit, where at least two of these append one to the same list.
fn join_appends(
    alloc: Global,
    arena: &mut Arena,
    place: Place,
    schema: StructSchema<'_>,
    acts: &[Act<'_>],
) -> Joined
    requires ready { TakesCalls schema arena.old place }
    requires some { 0 < length acts.now }
    ensures joined { IsJoinedAs schema.entry (built_at arena.old place) acts.now result (built_at arena.new place) }
    ensures frame { LeavesStruct place arena.old arena.new }
{
    match acts[0] {
        Act::Call(_) => Joined::Apart(1),
        Act::Copy(_) => Joined::Apart(1),
        Act::Edit(first) => match values_to(alloc, acts, first.path) {
            Err(_) => Joined::Apart(1),
            Ok(values) => {
                if values.len() < 2 {
                    return Joined::Apart(1);
                }
                append_values(alloc, arena, place, schema, first.path, values.as_slice())
            }
        },
    }
}

/// Puts so many replies of something done behind others, for which there is room.
fn push_done(replies: &mut Vec<Reply>, count: usize)
    requires room { vec_len replies.old + count ≤ vec_capacity replies.old }
    ensures items { replies.new.items ≡ replies.old.items ++ replicate count Done }
    ensures len { vec_len replies.new ≡ vec_len replies.old + count }
    ensures capacity { vec_capacity replies.old ≤ vec_capacity replies.new }
{
    for _index in 0..count {
        if replies.push(Reply::Done).is_err() {
            unreachable!();
        }
    }
}

/// Whether a reply refuses for room.
fn is_for_room(reply: &Reply) -> bool {
    match reply {
        Reply::Refused(ErrorKind::OutOfMemory) => true,
        _ => false,
    }
}

/// Makes the first of these acts by itself; so many of those behind it are too.
fn make_one(
    alloc: Global,
    arena: &mut Arena,
    place: Place,
    schema: StructSchema<'_>,
    acts: &[Act<'_>],
    apart: usize,
    replies: &mut Vec<Reply>,
) -> Next
    requires ready { TakesCalls schema arena.old place }
    requires some { 0 < length acts.now }
    requires room { vec_len replies.old + length acts.now ≤ vec_capacity replies.old }
    ensures next { IsNextOf schema.entry (built_at arena.old place) acts.now result.count replies.old.items
        replies.new.items (built_at arena.new place) }
    ensures len { vec_len replies.new ≡ vec_len replies.old + result.count }
    ensures capacity { vec_capacity replies.old ≤ vec_capacity replies.new }
    ensures frame { LeavesStruct place arena.old arena.new }
{
    let reply = make_act(alloc, arena, place, schema, &acts[0]);
    let is_full = is_for_room(&reply);
    if replies.push(reply).is_err() {
        unreachable!();
    }
    Next {
        count: 1,
        apart,
        is_full,
    }
}

/// Makes the first of these acts, or the first few as one edit; there is room for their replies. The first so many are
/// known to be made each by itself.
pub(crate) fn make_next(
    alloc: Global,
    arena: &mut Arena,
    place: Place,
    schema: StructSchema<'_>,
    acts: &[Act<'_>],
    apart: usize,
    replies: &mut Vec<Reply>,
) -> Next
    requires ready { TakesCalls schema arena.old place }
    requires some { 0 < length acts.now }
    requires room { vec_len replies.old + length acts.now ≤ vec_capacity replies.old }
    ensures next { IsNextOf schema.entry (built_at arena.old place) acts.now result.count replies.old.items
        replies.new.items (built_at arena.new place) }
    ensures len { vec_len replies.new ≡ vec_len replies.old + result.count }
    ensures capacity { vec_capacity replies.old ≤ vec_capacity replies.new }
    ensures frame { LeavesStruct place arena.old arena.new }
{
    if apart > 0 {
        return make_one(alloc, arena, place, schema, acts, apart - 1, replies);
    }
    match join_appends(alloc, arena, place, schema, acts) {
        Joined::All(count) => {
            push_done(replies, count);
            Next {
                count,
                apart: 0,
                is_full: false,
            }
        }
        Joined::Apart(count) => make_one(alloc, arena, place, schema, acts, count - 1, replies),
    }
}
