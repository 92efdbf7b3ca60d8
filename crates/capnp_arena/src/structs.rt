//! Structs by the place where they stand in a message in memory, in the words of their trees.
ghost use Rattle.std.specs.Prelude.{List, ℕ, ◌*◌, ◌+◌, ◌<◌, ◌≡◌, ◌≤◌, length};
ghost use Rattle.capnp_wire.specs.Edits.{with_bit, with_bytes, with_number};
ghost use Rattle.capnp_wire.specs.Tree.{nth_tree, tree_count};
ghost use Rattle.capnp_arena.specs.Forest.{Changes, Forest, tree};
ghost use Rattle.capnp_arena.specs.Segment.{segment};
ghost use Rattle.capnp_arena.specs.Shape.{word_count};
ghost use Rattle.capnp_arena.specs.Built.{ChangesIn, IsBuilt, LeavesIn, built_at};

use crate::arena::{Arena, Place};
use capnp_wire::primitive::PrimitiveElement;

/// Stores a number at `offset`, in units of its own size. No memory is taken.
///
/// # Conditions
///
/// A struct of this message stands at the place (`IsBuilt`), and the number lies inside its data section.
#[inline(always)]
pub fn set_data_field<T: PrimitiveElement>(arena: &mut Arena, place: Place, offset: u32, value: T)
    requires planted { IsBuilt arena.old place }
    requires inside { (offset + 1) * T.width ≤ length (built_at arena.old place).bytes }
    ensures planted { IsBuilt arena.new place }
    ensures changes { ChangesIn place arena.old arena.new }
    ensures tree { built_at arena.new place ≡ with_bytes (built_at arena.old place)
        (with_number T.width offset (T.to_number value) (built_at arena.old place).bytes) }
    ensures long { length (segment arena.new) ≡ length (segment arena.old) }
{
    arena.set_number(place, offset, value);
}

/// Stores a bit at `offset`, counted from the lowest of the first byte. No memory is taken.
///
/// # Conditions
///
/// A struct of this message stands at the place (`IsBuilt`), and the bit lies inside its data section.
#[inline(always)]
pub fn set_bool_field(arena: &mut Arena, place: Place, offset: u32, value: bool)
    requires planted { IsBuilt arena.old place }
    requires inside { offset < 8 * length (built_at arena.old place).bytes }
    ensures planted { IsBuilt arena.new place }
    ensures changes { ChangesIn place arena.old arena.new }
    ensures tree { built_at arena.new place ≡ with_bytes (built_at arena.old place)
        (with_bit offset value (built_at arena.old place).bytes) }
    ensures long { length (segment arena.new) ≡ length (segment arena.old) }
{
    arena.set_bool(place, offset, value);
}

/// The word of the pointer at `index`.
///
/// # Conditions
///
/// A struct of this message stands at the place (`IsBuilt`), and `index` is below the number of its pointers.
#[inline(always)]
pub fn pointer_at(arena: &Arena, place: Place, index: u16) -> usize
    requires planted { IsBuilt arena.now place }
    requires inside { index < tree_count (built_at arena.now place).pointers }
    ensures word { result ≡ place.start + place.data_words + index }
    ensures inside { result < word_count (segment arena.now) }
    ensures forest { Forest (segment arena.now) result }
    ensures tree { tree (segment arena.now) result ≡ nth_tree (built_at arena.now place).pointers index }
    ensures leaves { (new : List ℕ) → Forest new result → Changes result (segment arena.now) new
        → LeavesIn place index arena.now result new }
{
    arena.get_pointer_field(place, index)
}
