//! Lists of calls on a struct that is built.
ghost use Rattle.std.specs.Prelude.{◌≡◌, IfErr, IfOk, OnErr};
ghost use Rattle.capnp_device.specs.declared.error.ErrorKind.TheVariants.{OutOfMemory};
ghost use Rattle.capnp_arena.specs.Frame.{LeavesStruct};
ghost use Rattle.capnp_arena.specs.Segment.{segment};
ghost use Rattle.capnp_schema.specs.StructHandles.{IsStruct, number_of, set_of};
ghost use Rattle.capnp_arena.specs.Built.{built_at};
ghost use Rattle.capnp_slots.specs.Groups.{KeepsSize};
ghost use Rattle.capnp_slots.specs.Standing.{TakesCalls};
ghost use Rattle.capnp_call.specs.Runs.{IsCallMade, MakesCalls, RestsWhole, RunsTo};

use crate::calls::{Call, Ending, Reply};
use crate::walk::walk;
use capnp_arena::arena::{Arena, Place};
use capnp_records::laws::overlay_law;
use capnp_schema::laws::numbers_fit;
use capnp_schema::schema::StructSchema;
use capnp_wire::error::Result;
use std::alloc::Global;

/// Makes one call.
#[inline(always)]
pub(crate) fn call_at(
    alloc: Global,
    arena: &mut Arena,
    place: Place,
    schema: StructSchema<'_>,
    call: &Call<'_>,
) -> Reply
    requires ready { TakesCalls schema arena.old place }
    ensures made { IsCallMade (set_of schema.entry) (number_of schema.entry) (built_at arena.old place) call.now result
        (built_at arena.new place) }
    ensures frame { LeavesStruct place arena.old arena.new }
{
    walk(arena, place, schema, call.path, Ending { alloc, call })
}

/// Makes calls one after another; there is room for the replies.
fn make_calls(
    alloc: Global,
    arena: &mut Arena,
    place: Place,
    schema: StructSchema<'_>,
    calls: &[Call<'_>],
) -> Result<Vec<Reply>>
    requires ready { TakesCalls schema arena.old place }
    ensures made { IfOk result (λ replies. MakesCalls (set_of schema.entry) (number_of schema.entry)
        (built_at arena.old place) calls.now replies.items
        (built_at arena.new place)) }
    ensures frame { LeavesStruct place arena.old arena.new }
    ensures refused { OnErr result (segment arena.new ≡ segment arena.old) }
    ensures cause { IfErr result (λ e. e.kind ≡ OutOfMemory) }
{
    let mut replies = Vec::with_capacity(alloc, calls.len())?;
    for call in calls {
        let reply = call_at(alloc, arena, place, schema, call);
        if replies.push(reply).is_err() {
            unreachable!();
        }
    }
    Ok(replies)
}

/// Makes calls along paths of a struct, one after another, and gives one reply to each, in order. A refused call
/// doesn't end the run, and leaves the nulls filled that the steps before the refusal filled.
///
/// Refused with `OutOfMemory` where there is no room for the replies, and then nothing has changed. Once there is, a
/// call that takes no memory on what the one before it left is refused neither with `OutOfMemory` nor with
/// `SizePastFormat`.
///
/// # Conditions
///
/// The schema is one of an accepted set. A struct of this message stands at the place, with at least the schema's
/// sections (`TakesCalls`).
pub fn run_on(
    alloc: Global,
    arena: &mut Arena,
    place: Place,
    schema: StructSchema<'_>,
    calls: &[Call<'_>],
) -> Result<Vec<Reply>>
    requires ready { TakesCalls schema arena.old place }
    ensures runs { IfOk result (λ replies. RunsTo schema.entry (built_at arena.old place) calls.now replies.items
        (built_at arena.new place)) }
    ensures made { IfOk result (λ replies. MakesCalls (set_of schema.entry) (number_of schema.entry)
        (built_at arena.old place) calls.now replies.items
        (built_at arena.new place)) }
    ensures rests { IfOk result (λ replies. RestsWhole schema.entry (built_at arena.old place) calls.now replies.items) }
    ensures kept { KeepsSize (built_at arena.old place) (built_at arena.new place) }
    ensures frame { LeavesStruct place arena.old arena.new }
    ensures refused { OnErr result (segment arena.new ≡ segment arena.old) }
    ensures cause { IfErr result (λ e. e.kind ≡ OutOfMemory) }
{
    overlay_law();
    numbers_fit(schema.get_set());
    let replies = make_calls(alloc, arena, place, schema, calls);
    arena.struct_is_sound(place);
    replies
}
