//! The segment as it stands.
ghost use Rattle.std.specs.Prelude.{◌≡◌};
ghost use Rattle.capnp_arena.specs.Segment.{segment};

use crate::arena::Arena;

/// The words of a message's segment as they stand, also those that no pointer leads to any more. Nothing is asked of
/// them: one who lost sight of what builders left reads them as he reads any message.
pub fn bytes_of(arena: &Arena) -> &[u8]
    ensures { result.now ≡ segment arena.now }
{
    arena.bytes.as_slice()
}
