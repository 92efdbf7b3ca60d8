//! Lists of calls on a struct that is built, at its place or by its builder.
ghost use Rattle.std.specs.Prelude.{◌≡◌, IfErr, IfOk, OnErr};
ghost use Rattle.capnp_device.specs.declared.error.ErrorKind.TheVariants.{OutOfMemory};
ghost use Rattle.capnp_arena.specs.Frame.{LeavesStruct};
ghost use Rattle.capnp_arena.specs.Segment.{segment};
ghost use Rattle.capnp_schema.specs.StructHandles.{IsStruct, number_of, set_of};
ghost use Rattle.capnp_arena.specs.Built.{built_at};
ghost use Rattle.capnp_slots.specs.Groups.{KeepsSize};
ghost use Rattle.capnp_dynamic.specs.Built.{IsReady, built_schema, built_struct, place_of, struct_behind};
ghost use Rattle.capnp_call.specs.Runs.{MakesCalls, RestsWhole, RunsTo};

use capnp_call::calls::{Call, Reply};
pub use capnp_call::runs::run_on;
use capnp_dynamic::dynamic_struct;
use capnp_wire::error::Result;
use std::alloc::Global;

/// Makes calls along paths of the struct that a builder stands on, as `run_on`. The builder is given by value, and
/// `root.exit.0` is what its reference leads to then.
///
/// Refused with `OutOfMemory` where there is no room for the replies, and then nothing has changed. Once there is, a
/// call that takes no memory on what the one before it left is refused neither with `OutOfMemory` nor with
/// `SizePastFormat`.
///
/// # Conditions
///
/// The builder's schema is one of an accepted set (`IsStruct`). The struct has at least its schema's sections, and
/// stands at its place (`IsReady`).
pub fn run(
    alloc: Global,
    root: dynamic_struct::Builder<'_>,
    calls: &[Call<'_>],
) -> Result<Vec<Reply>>
    requires stands { IsStruct (built_schema root) }
    requires ready { IsReady root }
    ensures runs { IfOk result (λ replies. RunsTo (built_schema root.entry)
        (built_struct root.entry) calls.now replies.items
        (built_at root.exit.0.now (place_of root.entry))) }
    ensures made { IfOk result (λ replies. MakesCalls (set_of (built_schema root.entry))
        (number_of (built_schema root.entry)) (built_struct root.entry) calls.now
        replies.items (built_at root.exit.0.now (place_of root.entry))) }
    ensures rests { IfOk result (λ replies. RestsWhole (built_schema root.entry)
        (built_struct root.entry) calls.now replies.items) }
    ensures kept { KeepsSize (built_struct root.entry) (built_at root.exit.0.now (place_of root.entry)) }
    ensures frame { LeavesStruct (place_of root.entry) (struct_behind root.entry).now root.exit.0.now }
    ensures refused { OnErr result (segment root.exit.0.now ≡ segment (struct_behind root.entry).now) }
    ensures cause { IfErr result (λ e. e.kind ≡ OutOfMemory) }
{
    let dynamic_struct::Builder {
        arena,
        place,
        schema,
    } = root;
    run_on(alloc, arena, place, schema, calls)
}
