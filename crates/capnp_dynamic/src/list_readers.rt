//! Readers of lists that are built.
ghost use Rattle.std.specs.Prelude.{None, ◌≡◌};
ghost use Rattle.capnp_wire.specs.Defaults.{list_refusal};
ghost use Rattle.capnp_wire.specs.Depth.{IsBelow, memory_depth, message_levels};
ghost use Rattle.capnp_wire.specs.Elements.{or_empty};
ghost use Rattle.capnp_wire.specs.Standing.{list_levels, list_of};
ghost use Rattle.capnp_arena.specs.Forest.{Forest, tree};
ghost use Rattle.capnp_arena.specs.Same.{IsCutOf};
ghost use Rattle.capnp_arena.specs.Segment.{segment};

use capnp_arena::arena::Arena;
use capnp_arena::list_reads::ListTarget;
use capnp_wire::ListReader;
use capnp_wire::laws::pointer_is_well_formed;
use capnp_wire::parts::pointer::{MESSAGE_LEVELS, look};
use capnp_wire::size::ElementSize;

/// A reader of the list that a pointer leads to, with 64 levels; a null reads as a list of no elements of a size.
#[tactic(auto, using(crate::proofs::Readers::no_shape))]
pub(crate) fn read_list(arena: &Arena, at: usize, size: ElementSize) -> ListReader<'_>
    requires { Forest (segment arena.now) at }
    ensures cut { IsCutOf (list_of result) (or_empty size (tree (segment arena.now) at)) }
    ensures list { IsBelow memory_depth (tree (segment arena.now) at)
        → list_of result ≡ or_empty size (tree (segment arena.now) at) }
    ensures levels { list_levels result ≡ message_levels }
{
    if arena.is_null(at) {
        return arena.get_list_reader(at, ListTarget::Nothing(size));
    }
    let pointer = arena.get_pointer_reader(at);
    pointer_is_well_formed(&pointer);
    ListReader::new(look(pointer.pointer()), MESSAGE_LEVELS)
}
