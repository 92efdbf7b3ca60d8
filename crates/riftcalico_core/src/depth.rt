//! What is told of a message that is deeper than readers go.
ghost use Rattle.std.specs.Prelude.{◌≡◌, IfErr, OnOk, string_bytes};
ghost use Rattle.capnp_device.specs.declared.error.ErrorKind.TheVariants.{OutOfMemory};
ghost use Rattle.capnp_arena.specs.Message.{IsMessage, message_tree};
ghost use Rattle.riftcalico_core.specs.Depths.{IsDepthNoted};

use capnp_arena::message::Builder;
use capnp_wire::error::Result;

/// Appends a line where a message has more than 64 levels. Refused with `OutOfMemory` alone.
pub(crate) fn put_depth_note(lines: &mut String, message: &Builder) -> Result<()>
    requires { IsMessage message.now }
    ensures noted { OnOk result (IsDepthNoted (message_tree message.now) (string_bytes lines.old)
        (string_bytes lines.new)) }
    ensures memory { IfErr result (λ e. e.kind ≡ OutOfMemory) }
{
    if message.is_shallow() {
        return Ok(());
    }
    lines.push_str("note: the message has more than 64 levels, past which readers refuse it\n")?;
    Ok(())
}
