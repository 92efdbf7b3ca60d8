//! Lists in messages of their own, and lists of nothing, as they are read.
ghost use Rattle.std.specs.Prelude.{IfErr, IfOk, ◌≡◌};
ghost use Rattle.capnp_device.specs.declared.error.ErrorKind.TheVariants.{TooDeep};
ghost use Rattle.capnp_wire.specs.Depth.{IsShallow};
ghost use Rattle.capnp_wire.specs.Reading.{empty_list};
ghost use Rattle.capnp_wire.specs.Standing.{list_of};
ghost use Rattle.capnp_arena.specs.Message.{IsMessage, message_tree};

use capnp_arena::arena::Arena;
use capnp_wire::ListReader;
use capnp_wire::error::{Error, ErrorKind, Result};
use capnp_wire::laws::pointer_is_well_formed;
use capnp_wire::parts::found::empty_list;
use capnp_wire::parts::pointer::{MESSAGE_LEVELS, look};
use capnp_wire::size::ElementSize;

/// A reader of the list at a message's root, all of it, with 64 levels.
///
/// Refused with `TooDeep` exactly where it goes more than 64 levels down.
///
/// # Conditions
///
/// A tree stands at the message's root (`IsMessage`).
pub fn read_list(made: &Arena) -> Result<ListReader<'_>>
    requires { IsMessage made.now }
    ensures list { IfOk result (λ l. list_of l ≡ message_tree made.now) }
    ensures cause { IfErr result (λ e. e.kind ≡ TooDeep) }
    ensures deep { IfErr result (λ _. IsShallow (message_tree made.now) → ⊥) }
{
    if !made.is_shallow() {
        return Err(Error::from(ErrorKind::TooDeep));
    }
    let pointer = made.get_pointer_reader(0);
    pointer_is_well_formed(&pointer);
    Ok(ListReader::new(look(pointer.pointer()), MESSAGE_LEVELS))
}

/// A reader of a list without elements, of a size.
pub fn read_nothing<'a>(size: ElementSize) -> ListReader<'a>
    ensures { list_of result ≡ empty_list size }
{
    ListReader::new(empty_list(size), MESSAGE_LEVELS)
}
