//! Lists of numbers that are set where they stand in a message.
ghost use Rattle.std.specs.Prelude.{◌≡◌, ◌-◌, ◌<◌, OnErr, OnOk};
ghost use Rattle.capnp_wire.specs.Edits.{zero_list};
ghost use Rattle.capnp_wire.specs.Elements.{with_number_element};
ghost use Rattle.capnp_arena.specs.Message.{IsMessage, message_tree};
ghost use Rattle.capnp_arena.specs.Segment.{segment};

use capnp_arena::lists::ListPlace;
use capnp_arena::message::Builder;
use capnp_wire::error::Result;
use capnp_wire::size::ElementSize;

/// Replaces a message's root by a list of so many numbers of two bytes: zeros, but for the last one.
///
/// Refused as `init_list`; then nothing has changed.
///
/// # Conditions
///
/// A tree stands at the message's root (`IsMessage`), and `count` is not 0.
pub fn put_zeros_and_last(message: &mut Builder, count: u32, last: u16) -> Result<()>
    requires message { IsMessage message.old }
    requires some { 0 < count }
    ensures message { IsMessage message.new }
    ensures list { OnOk result (message_tree message.new
        ≡ with_number_element 2 (count - 1) last (zero_list ElementSize.TwoBytes count)) }
    ensures refused { OnErr result (segment message.new ≡ segment message.old) }
{
    let start = message.init_list(0, ElementSize::TwoBytes, count)?;
    let list = ListPlace {
        start,
        size: ElementSize::TwoBytes,
        count,
    };
    message.set_list_number::<u16>(0, list, count - 1, last);
    Ok(())
}
