//! The walk of a path: a step after another, each into a part of what the one before it entered.
ghost use Rattle.capnp_arena.specs.Frame.{LeavesStruct};
ghost use Rattle.capnp_arena.specs.Segment.{segment};
ghost use Rattle.capnp_arena.specs.Built.{built_at};
ghost use Rattle.std.specs.Prelude.{[]};
ghost use Rattle.capnp_wire.specs.Tree.{Null};
ghost use Rattle.capnp_schema.specs.Entries.{lists_seen};
ghost use Rattle.capnp_schema.specs.Schema.{Schemas};
ghost use Rattle.capnp_schema.specs.StructHandles.{number_of, set_of};
ghost use Rattle.capnp_schema.specs.Types.{SchemaType, seen_type};
ghost use Rattle.capnp_slots.specs.Standing.{TakesCalls};
ghost use Rattle.capnp_call.specs.Steps.Hops.{HopGoes, IsAt, IsAtList, ListGoes, StructGoes};
ghost use Rattle.capnp_call.specs.Steps.Lists.{ListWalks};
ghost use Rattle.capnp_call.specs.Memory.{IsNotForRoom, PathRests};
ghost use Rattle.capnp_call.specs.Seen.{reply_seen};
ghost use Rattle.capnp_call.specs.Walks.{StructWalks};

use crate::calls::{Ending, Op, Reply, Step};
use crate::end::end_at_struct;
use crate::hop::{At, hop, refusal_at_nothing};
use crate::list_end::end_at_list;
use capnp_arena::arena::{Arena, Place};
use capnp_base::introspect::Type;
use capnp_schema::schema::StructSchema;
use capnp_schema::set::SchemaSet;
use capnp_wire::error::ErrorKind;

/// Walks a path from a struct or group, and does what a call does at its end. A path may have any number of steps: the
/// walk is a loop.
///
/// A step is refused with `NotAContainer` where it names an element, then with `FieldNotFound` where there is no such
/// field, then as `way::way_of`, and then as `enter::enter_struct` and `enter::enter_list`; at a list with
/// `NotAContainer` where it names a field, then with `NoSuchElement` past the end, then with `UntypedStep` into an
/// untyped element and with `NotAContainer` into another one that is no struct or list. The end is refused as
/// `end::end_at_struct` and `list_end::end_at_list`. What the steps before a refusal filled stays. Where nothing has to
/// be filled or extended behind a step and the operation takes no memory, nothing is refused with `OutOfMemory`, and
/// nothing with `SizePastFormat`.
///
/// # Conditions
///
/// The schema is one of an accepted set. A struct of this message stands at the place, with at least the schema's
/// sections (`TakesCalls`).
#[inline(always)]
pub fn walk(
    arena: &mut Arena,
    place: Place,
    schema: StructSchema<'_>,
    path: &[Step<'_>],
    end: Ending<'_>,
) -> Reply
    requires ready { TakesCalls schema arena.old place }
    ensures walks { StructWalks (set_of schema.entry) (number_of schema.entry) path.now end.entry
        (built_at arena.old place) result
        (built_at arena.new place) }
    ensures rests { PathRests schema.entry path.now end.entry (built_at arena.old place)
        → IsNotForRoom (reply_seen result) }
    ensures frame { LeavesStruct place arena.old arena.new }
{
    let mut reply = Reply::Done;
    walk_all(arena, place, schema, path, end, &mut reply);
    reply
}

/// Walks a path and leaves the reply in its place: replies are large, and would be copied at each return.
fn walk_all(
    arena: &mut Arena,
    place: Place,
    schema: StructSchema<'_>,
    path: &[Step<'_>],
    end: Ending<'_>,
    reply: &mut Reply,
)
    requires { TakesCalls schema arena.old place }
    ensures { StructGoes place schema.entry (segment arena.old) path.now end.entry reply.new (segment arena.new) }
{
    let mut at = At::Struct(place, schema);
    for step in path {
        match hop(arena, at, step) {
            Ok(next) => at = next,
            Err(error) => {
                *reply = Reply::Refused(error.kind);
                return;
            }
        }
    }
    end_at(arena, at, end, reply);
}

/// Does what a call does where its path ends.
#[inline(always)]
fn end_at(arena: &mut Arena, at: At<'_>, end: Ending<'_>, reply: &mut Reply)
    requires { IsAt at (segment arena.old) }
    ensures { HopGoes at.entry (segment arena.old) [] end.entry reply.new (segment arena.new) }
{
    match at {
        At::Struct(place, schema) => *reply = end_at_struct(arena, place, schema, end),
        At::List(word, schemas, element) => *reply = end_in_list(
            arena, word, schemas, element, end,
        ),
    }
}

/// Does what a call does at a list, or at the list of nothing that a null is.
fn end_in_list(
    arena: &mut Arena,
    word: usize,
    schemas: &SchemaSet,
    element: Type,
    end: Ending<'_>,
) -> Reply
    requires { IsAtList word (lists_seen schemas.now) (seen_type element) (segment arena.old) }
    ensures { ListGoes word (lists_seen schemas.now) (seen_type element) (segment arena.old) [] end.entry result
        (segment arena.new) }
{
    if arena.is_list(word) {
        end_at_list(arena, word, schemas, element, end)
    } else {
        Reply::Refused(refusal_of_end(end))
    }
}

/// What the end of a path is refused with at a null that no default filled: it has no elements.
fn refusal_of_end(end: Ending<'_>) -> ErrorKind
    ensures { (schemas : Schemas) (e : SchemaType) → ListWalks schemas e [] end.entry Null (Reply.Refused result) Null }
{
    match end.call.op {
        Op::Which => ErrorKind::NotAContainer,
        _ => refusal_at_nothing(end.call.last),
    }
}
