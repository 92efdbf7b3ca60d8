//! Calls and edits on a copy of the root of a message that is received.
ghost use Rattle.std.specs.Prelude.{IfErr, IfOk, ◌≡◌, ◌≢◌, ◌≤◌};
ghost use Rattle.capnp_device.specs.declared.error.ErrorKind.TheVariants.{OutOfMemory};
ghost use Rattle.capnp_arena.specs.Message.{IsMessage, message_tree};
ghost use Rattle.capnp_arena.specs.Segment.{segment};
ghost use Rattle.capnp_arena.specs.Shape.{word_count};
ghost use Rattle.capnp_call.specs.Messages.{most_words};
ghost use Rattle.capnp_patch.specs.Patches.{IsUnread};
ghost use Rattle.capnp_schema.specs.StructHandles.{IsStruct};
ghost use Rattle.capnp_edit_calls.specs.ActsLeft.{IsActsLeftOfBytes};

use crate::acts::Act;
use crate::message::run_acts_copied;
use capnp_call::message::Run;
use capnp_schema::schema::StructSchema;
use capnp_wire::error::Result;
use capnp_wire::message::Reader;
use std::alloc::Global;

/// Makes calls and edits on a copy of the root of the first message in these bytes, read as a struct of the schema. What
/// follows the message is not looked at. The message that is made never has more words than `limit`, which stands for 1
/// where it is 0, and for `capnp_call::message::MOST_WORDS` where it is more; an act that has no room is refused with
/// `OutOfMemory` in its reply. Where all are calls, what they leave is what `capnp_patch::engine::run_bytes_within` says of
/// them.
///
/// Refused with `OutOfMemory`, also where the copy has no room within the limit, as the message is (`Truncated`,
/// `TooManySegments`), with `BadPointer`, `TooDeep` or `CapabilityPointer` where a pointer in it can't be followed, by the
/// first of these in preorder, and with `WrongPointerKind` where its root is a list.
///
/// # Conditions
///
/// The schema is one of an accepted set (`IsStruct`).
pub fn run_acts_bytes_within(
    alloc: Global,
    limit: usize,
    bytes: &[u8],
    schema: StructSchema<'_>,
    acts: &[Act<'_>],
) -> Result<Run>
    requires { IsStruct schema }
    ensures message { IfOk result (λ run. IsMessage run.message) }
    ensures left { IfOk result (λ run. IsActsLeftOfBytes schema.entry bytes.now acts.now run.replies.items
        (message_tree run.message)) }
    ensures within { IfOk result (λ run. word_count (segment run.message) ≤ most_words limit) }
    ensures refused { IfErr result (λ e. e.kind ≢ OutOfMemory → IsUnread bytes.now e.kind) }
{
    let reader = Reader::new(alloc, bytes)?;
    run_acts_copied(alloc, limit, reader.get_root(), schema, acts)
}
