//! Copies of what a reader stands on, into a message in memory. The target's words are added first, and the pointer is
//! put last: what was added for a copy that is refused is taken back.

use crate::arena::Arena;
use crate::copy::{append_found, append_struct, point_to, point_to_struct};
use crate::spell::put_word;
use capnp_device::error::Result;
use capnp_wire::laws::{list_is_well_formed, pointer_is_well_formed, struct_is_well_formed};
use capnp_wire::parts::found::{Found, StructParts};
use capnp_wire::parts::pointer::{Pointer, look};
use capnp_wire::{ListReader, PointerReader, StructReader};

/// The bytes that a copy of a message begins with room for: those of the segment that its root stands in, and an eighth
/// more for what will be written then. Of another pointer it isn't known how much it leads to.
fn room_of_copy(pointer: Pointer<'_>) -> usize {
    match pointer {
        Pointer::Word {
            segment,
            index: 0,
            ..
        } => segment.len().saturating_add(segment.len() / 8),
        _ => 0,
    }
}

impl Arena {
    ghost use Rattle.std.specs.Prelude.{IfErr, None, OnErr, OnOk, suc, ◌+◌, ◌-◌, ◌*◌, ◌/◌, ◌<◌, ◌≡◌, length};
    ghost use Rattle.capnp_wire.specs.Edits.{IsCopyRefusal, rounded_struct};
    ghost use Rattle.capnp_wire.specs.Encoding.{bytes_of, encoding_of, pointer_word};
    ghost use Rattle.capnp_wire.specs.Found.{found_tree, parts_tree};
    ghost use Rattle.capnp_wire.specs.Place.{struct_tree};
    ghost use Rattle.capnp_wire.specs.Standing.{list_of, struct_of, tree_of};
    ghost use Rattle.capnp_wire.specs.WellFormed.{IsWellFormed, IsWellFormedStruct};
    ghost use Rattle.capnp_wire.specs.Words.{first_fault, first_fault_of_all};
    ghost use Rattle.capnp_arena.specs.Forest.{Changes, Forest, tree};
    ghost use Rattle.capnp_arena.specs.Steps.Made.{IsObjectMade};
    ghost use Rattle.capnp_arena.specs.Segment.{segment};
    ghost use Rattle.capnp_arena.specs.Shape.{word_count};

    /// Makes a pointer lead to a copy of what was found.
    #[inline(always)]
    fn copy_found(&mut self, at: usize, found: Found<'_>) -> Result<()>
        requires inside { at < word_count (segment self.old) }
        requires held { IsWellFormed (found_tree found) }
        ensures made { OnOk result (IsObjectMade (segment self.old) (segment self.new) (bytes_of (found_tree found.entry)) at
            (pointer_word (word_count (segment self.old) - suc at) (found_tree found.entry))) }
        ensures sound { OnOk result (first_fault (found_tree found.entry) ≡ None) }
        ensures cause { IfErr result (λ e. IsCopyRefusal e (first_fault (found_tree found.entry))) }
        ensures refused { OnErr result (segment self.new ≡ segment self.old) }
    {
        let end = self.count_words();
        if let Err(refused) = append_found(self, found) {
            self.cut(end);
            return Err(refused);
        }
        put_word(
            &mut self.bytes,
            8 * at,
            point_to((end - at - 1) as u64, found),
        );
        Ok(())
    }

    /// Makes a pointer lead to a copy of a struct.
    #[inline(always)]
    fn copy_parts(&mut self, at: usize, parts: StructParts<'_>) -> Result<()>
        requires inside { at < word_count (segment self.old) }
        requires held { IsWellFormedStruct (parts_tree parts) }
        ensures made { OnOk result (IsObjectMade (segment self.old) (segment self.new)
            (bytes_of (struct_tree (rounded_struct (parts_tree parts.entry)))) at
            (pointer_word (word_count (segment self.old) - suc at) (struct_tree (rounded_struct (parts_tree parts.entry))))) }
        ensures sound { OnOk result (first_fault_of_all (parts_tree parts.entry).pointers ≡ None) }
        ensures cause { IfErr result (λ e. IsCopyRefusal e (first_fault_of_all (parts_tree parts.entry).pointers)) }
        ensures refused { OnErr result (segment self.new ≡ segment self.old) }
    {
        let end = self.count_words();
        if let Err(refused) = append_struct(self, parts) {
            self.cut(end);
            return Err(refused);
        }
        put_word(
            &mut self.bytes,
            8 * at,
            point_to_struct((end - at - 1) as u64, parts),
        );
        Ok(())
    }

    /// Makes the pointer at a word one to a copy of what a reader stands on, by its tree and not by the levels that the
    /// reader has left. Of a target that is shared each occurrence is copied.
    ///
    /// Refused with `BadPointer`, `TooDeep` or `CapabilityPointer` where a pointer in the source can't be followed, by
    /// the first of these in preorder, and with `OutOfMemory`, also where the segment would have 2^29 words; then
    /// nothing has changed.
    ///
    /// # Conditions
    ///
    /// The word lies inside the message's segment.
    pub fn copy_from(&mut self, at: usize, source: PointerReader<'_>) -> Result<()>
        requires inside { at < word_count (segment self.old) }
        ensures forest { OnOk result (Forest (segment self.new) at) }
        ensures tree { OnOk result (tree (segment self.new) at ≡ tree_of source.entry) }
        ensures changes { OnOk result (Changes at (segment self.old) (segment self.new)) }
        ensures sound { OnOk result (first_fault (tree_of source.entry) ≡ None) }
        ensures cause { IfErr result (λ e. IsCopyRefusal e (first_fault (tree_of source.entry))) }
        ensures refused { OnErr result (segment self.new ≡ segment self.old) }
    {
        pointer_is_well_formed(&source);
        self.copy_found(at, look(source.pointer()))?;
        Ok(())
    }

    /// Makes the pointer at a word one to a copy of a struct, with its data rounded up to whole words.
    ///
    /// Refused as `copy_from`.
    ///
    /// # Conditions
    ///
    /// The word lies inside the message's segment.
    pub fn set_struct(&mut self, at: usize, source: &StructReader<'_>) -> Result<()>
        requires inside { at < word_count (segment self.old) }
        ensures forest { OnOk result (Forest (segment self.new) at) }
        ensures tree { OnOk result (tree (segment self.new) at ≡ struct_tree (rounded_struct (struct_of source.now))) }
        ensures changes { OnOk result (Changes at (segment self.old) (segment self.new)) }
        ensures sound { OnOk result (first_fault_of_all (struct_of source.now).pointers ≡ None) }
        ensures cause { IfErr result (λ e. IsCopyRefusal e (first_fault_of_all (struct_of source.now).pointers)) }
        ensures refused { OnErr result (segment self.new ≡ segment self.old) }
    {
        struct_is_well_formed(source);
        self.copy_parts(at, source.parts())?;
        Ok(())
    }

    /// Makes the pointer at a word one to a copy of a list, with the elements that it has, whatever they were read as.
    /// A reader of a null stands on an empty list of the size that was asked, and that is what is copied.
    ///
    /// Refused as `copy_from`.
    ///
    /// # Conditions
    ///
    /// The word lies inside the message's segment.
    pub fn set_list(&mut self, at: usize, source: &ListReader<'_>) -> Result<()>
        requires inside { at < word_count (segment self.old) }
        ensures forest { OnOk result (Forest (segment self.new) at) }
        ensures tree { OnOk result (tree (segment self.new) at ≡ list_of source.now) }
        ensures changes { OnOk result (Changes at (segment self.old) (segment self.new)) }
        ensures sound { OnOk result (first_fault (list_of source.now) ≡ None) }
        ensures cause { IfErr result (λ e. IsCopyRefusal e (first_fault (list_of source.now))) }
        ensures refused { OnErr result (segment self.new ≡ segment self.old) }
    {
        list_is_well_formed(source);
        self.copy_found(at, source.found())?;
        Ok(())
    }

    /// Replaces the whole message by a copy of what a reader stands on, in a segment of its own: nothing is left of
    /// what stood there, and no place in it is one any more.
    ///
    /// Refused as `copy_from`.
    pub fn set_root(&mut self, source: PointerReader<'_>) -> Result<()>
        ensures bytes { OnOk result (segment self.new ≡ encoding_of (tree_of source.entry)) }
        ensures forest { OnOk result (Forest (segment self.new) 0) }
        ensures tree { OnOk result (tree (segment self.new) 0 ≡ tree_of source.entry) }
        ensures sound { OnOk result (first_fault (tree_of source.entry) ≡ None) }
        ensures cause { IfErr result (λ e. IsCopyRefusal e (first_fault (tree_of source.entry))) }
        ensures refused { OnErr result (segment self.new ≡ segment self.old) }
    {
        pointer_is_well_formed(&source);
        let mut anew = Arena::with_limit(*self.bytes.allocator(), self.limit)?;
        let pointer = source.pointer();
        anew.reserve(room_of_copy(pointer));
        anew.copy_found(0, look(pointer))?;
        *self = anew;
        Ok(())
    }
}
