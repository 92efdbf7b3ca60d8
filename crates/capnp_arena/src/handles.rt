//! Builders as a reference to the message beside a place.
//!
//! A builder that the message hands out is known by the message's own reference: what calls by value and calls of
//! `&mut self` leave, one after another, is known to be left in the message. Of a builder that another one lends
//! (`reborrow` and the calls named `_mut`) a caller knows that where it is taken apart, or passed on by value; where
//! its calls of `&mut self` are to be known, let the message behind it hand one out, as
//! `built.arena.pointer_field(place, 0)`.
ghost use Rattle.std.specs.Prelude.{IfErr, OnErr, OnOk, ◌*◌, ◌+◌, ◌≡◌, ◌≤◌};
ghost use Rattle.capnp_wire.specs.Edits.{IsStructRefusal, extended_struct, struct_in, with_bytes, with_number};
ghost use Rattle.capnp_wire.specs.Place.{struct_tree};
ghost use Rattle.capnp_arena.specs.Forest.{Changes, Forest, tree};
ghost use Rattle.capnp_arena.specs.Segment.{segment};

use crate::arena::{Arena, Place};
pub use crate::blob_builder::BlobBuilder;
pub use crate::list_builder::ListBuilder;
use crate::list_reads::ListTarget;
pub use crate::pointer_builder::PointerBuilder;
pub use crate::struct_builder::StructBuilder;
use capnp_device::error::Result;
use capnp_wire::primitive::PrimitiveElement;
use capnp_wire::size::StructSize;

impl Arena {
    ghost use Rattle.std.specs.Prelude.{List, ℕ, ◌<◌};
    ghost use Rattle.capnp_wire.specs.Tree.{nth_tree};
    ghost use Rattle.capnp_arena.specs.Facts.Laws.{IsInPointer};
    ghost use Rattle.capnp_wire.specs.Elements.{HasPointer, HasStruct, with_pointer_element, with_struct_element};
    ghost use Rattle.capnp_wire.specs.Reading.{element_pointer, element_struct};
    ghost use Rattle.capnp_arena.specs.Forest.{PartChanges, Planted, struct_from};
    ghost use Rattle.capnp_arena.specs.Handles.{IsBuiltPointer, IsBuiltStruct, built_struct_tree, handle_words, built_pointer_tree};
    ghost use Rattle.capnp_arena.specs.Leaves.{Leaves};
    ghost use Rattle.capnp_arena.specs.Message.{IsMessage, message_tree};
    ghost use Rattle.capnp_arena.specs.Shape.{StructIn, word_count};

    /// The message's root pointer.
    ///
    /// # Conditions
    ///
    /// A tree stands at the message's root (`IsMessage`).
    #[inline(always)]
    pub fn root(&mut self) -> PointerBuilder<'_>
        requires message { IsMessage self.old }
        ensures same { result.arena.ghost_name ≡ self.entry.ghost_name }
        ensures now { result.arena.now ≡ self.old }
        ensures at { result.at ≡ 0 }
        ensures inside { result.at < word_count (segment self.old) }
        ensures forest { IsBuiltPointer result }
        ensures tree { built_pointer_tree result ≡ message_tree self.old }
    {
        PointerBuilder { arena: self, at: 0 }
    }

    /// The pointer at a word.
    #[inline(always)]
    pub fn pointer_builder(&mut self, at: usize) -> PointerBuilder<'_>
        ensures same { result.arena.ghost_name ≡ self.entry.ghost_name }
        ensures now { result.arena.now ≡ self.old }
        ensures at { result.at ≡ at }
    {
        PointerBuilder { arena: self, at }
    }

    /// The struct at a place.
    #[inline(always)]
    pub fn struct_builder(&mut self, place: Place) -> StructBuilder<'_>
        ensures same { result.arena.ghost_name ≡ self.entry.ghost_name }
        ensures now { result.arena.now ≡ self.old }
        ensures place { result.place ≡ place }
    {
        StructBuilder { arena: self, place }
    }

    /// The list that the pointer at a word leads to, as it was got.
    #[inline(always)]
    pub fn list_builder(&mut self, at: usize, list: ListTarget) -> ListBuilder<'_>
        ensures same { result.arena.ghost_name ≡ self.entry.ghost_name }
        ensures now { result.arena.now ≡ self.old }
        ensures at { result.at ≡ at }
        ensures list { result.list ≡ list }
    {
        ListBuilder {
            arena: self,
            at,
            list,
        }
    }

    /// The pointer at `index` of a struct.
    ///
    /// # Conditions
    ///
    /// The place is that of a struct of this message (`Planted`), and `index` is below the number of its pointers.
    #[inline(always)]
    pub fn pointer_field(&mut self, place: Place, index: u16) -> PointerBuilder<'_>
        requires planted { Planted (segment self.old) (StructIn place.start place.data_words place.pointers) }
        requires inside { index < place.pointers }
        ensures same { result.arena.ghost_name ≡ self.entry.ghost_name }
        ensures now { result.arena.now ≡ self.old }
        ensures at { result.at ≡ place.start + place.data_words + index }
        ensures inside { result.at < word_count (segment self.old) }
        ensures forest { IsBuiltPointer result }
        ensures tree { built_pointer_tree result ≡ nth_tree
            (struct_from (segment self.old) place.start place.data_words place.pointers).pointers index }
        ensures leaves { (new : List ℕ) → Forest new result.at → Changes result.at (segment self.old) new
            → IsInPointer (segment self.old) new place.start place.data_words place.pointers index }
    {
        let at = self.get_pointer_field(place, index);
        PointerBuilder { arena: self, at }
    }

    /// The struct at `index` of the list of structs that the pointer at a word leads to.
    ///
    /// # Conditions
    ///
    /// The pointer at the word leads to a tree of this message, no two of whose parts share a word (`Forest`). That is
    /// a list with a struct at `index` (`HasStruct`).
    #[inline(always)]
    pub fn struct_element(&mut self, at: usize, index: u32) -> StructBuilder<'_>
        requires forest { Forest (segment self.old) at }
        requires there { HasStruct (tree (segment self.old) at) index }
        ensures same { result.arena.ghost_name ≡ self.entry.ghost_name }
        ensures now { result.arena.now ≡ self.old }
        ensures planted { IsBuiltStruct result }
        ensures tree { built_struct_tree result ≡ element_struct (tree (segment self.old) at) index }
        ensures leaves { (new : List ℕ) → Planted new (handle_words result.place)
            → PartChanges (handle_words result.place) (segment self.old) new
            → Leaves at
            (with_struct_element index
            (struct_from new result.place.start result.place.data_words result.place.pointers)
            (tree (segment self.old) at)) (segment self.old) new }
    {
        let place = self.get_struct_at(at, index);
        StructBuilder { arena: self, place }
    }

    /// The pointer at `index` of the list that the pointer at a word leads to: of a list of structs, the first of the
    /// struct.
    ///
    /// # Conditions
    ///
    /// The pointer at the word leads to a tree of this message, no two of whose parts share a word (`Forest`). That is
    /// a list with a pointer at `index` (`HasPointer`).
    #[inline(always)]
    pub fn pointer_element(&mut self, at: usize, index: u32) -> PointerBuilder<'_>
        requires forest { Forest (segment self.old) at }
        requires pointer { HasPointer (tree (segment self.old) at) index }
        ensures same { result.arena.ghost_name ≡ self.entry.ghost_name }
        ensures now { result.arena.now ≡ self.old }
        ensures inside { result.at < word_count (segment self.old) }
        ensures forest { IsBuiltPointer result }
        ensures tree { built_pointer_tree result ≡ element_pointer (tree (segment self.old) at) index 1 }
        ensures leaves { (new : List ℕ) → Forest new result.at → Changes result.at (segment self.old) new
            → Leaves at (with_pointer_element index (tree new result.at) (tree (segment self.old) at))
            (segment self.old) new }
    {
        let at = self.get_pointer_element(at, index);
        PointerBuilder { arena: self, at }
    }
}

/// A caller: a struct of at least a size, and a number in it.
///
/// Refused as `get_struct`; then nothing has changed.
///
/// # Conditions
///
/// The pointer at the word leads to a tree of this message, no two of whose parts share a word (`Forest`). The number
/// lies inside the data section of a struct of that size.
pub fn get_and_set<T: PrimitiveElement>(
    arena: &mut Arena,
    at: usize,
    size: StructSize,
    offset: u32,
    value: T,
) -> Result<()>
    requires forest { Forest (segment arena.old) at }
    requires inside { (offset + 1) * T.width ≤ 8 * size.data_words }
    ensures forest { OnOk result (Forest (segment arena.new) at) }
    ensures tree { OnOk result (tree (segment arena.new) at
        ≡ struct_tree (with_bytes (extended_struct size (struct_in (tree (segment arena.old) at)))
        (with_number T.width offset (T.to_number value)
        (extended_struct size (struct_in (tree (segment arena.old) at))).bytes))) }
    ensures changes { OnOk result (Changes at (segment arena.old) (segment arena.new)) }
    ensures cause { IfErr result (λ e. IsStructRefusal e (tree (segment arena.old) at)) }
    ensures refused { OnErr result (segment arena.new ≡ segment arena.old) }
{
    let pointer = PointerBuilder { arena, at };
    let mut built = pointer.get_struct(size)?;
    built.set_data_field(offset, value);
    Ok(())
}
