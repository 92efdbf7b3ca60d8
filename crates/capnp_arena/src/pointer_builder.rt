//! Builders of pointers: a reference to the message beside the pointer's word.
//!
//! A call by value takes the step that can be refused first, and then hands the reference on. What the message ends as
//! is known by that reference: `same` where a handle is answered, and `rests` where the call is refused.
ghost use Rattle.capnp_wire.specs.Depth.{message_levels};
ghost use Rattle.capnp_wire.specs.Locate.{words_past_format};

use crate::arena::Arena;
use crate::list_builder::ListBuilder;
use crate::list_reads::ListTarget;
use crate::lists::{ListPlace, StructsPlace};
use crate::struct_builder::StructBuilder;
use capnp_device::error::Result;
use capnp_wire::size::{ElementSize, StructSize};
use capnp_wire::{ListReader, PointerReader, StructReader};

/// A pointer that is built.
#[derive(Drop)]
pub struct PointerBuilder<'a> {
    pub arena: &'a mut Arena,
    /// The pointer's word.
    pub at: usize,
}

impl<'a> PointerBuilder<'a> {
    ghost use Rattle.std.specs.Prelude.{[], Err, None, Ok, false, IfErr, IfOk, IsOk, OnErr, OnOk, ◌*◌, ◌+◌, ◌++◌, ◌∷◌, ◌≡◌, ◌≢◌, ◌<◌, ◌≤◌, ◌⊎◌, length};
    ghost use Rattle.std.specs.Borrow.{sem};
    ghost use Rattle.capnp_device.specs.declared.error.ErrorKind.TheVariants.{OutOfMemory};
    ghost use Rattle.capnp_wire.specs.Depth.{IsBelow, memory_depth};
    ghost use Rattle.capnp_wire.specs.Defaults.{default_tree, filled_list_refusal, filled_struct, filled_struct_refusal, filled_structs, filled_structs_refusal, or_default, takes_default};
    ghost use Rattle.capnp_wire.specs.Edits.{HoldsStruct, IsCopyRefusal, IsDueRefusal, IsRoomRefusal, IsStructRefusal, extended_struct, is_struct, rounded_struct, struct_in, struct_refusal, zero_list, zero_struct, zero_structs};
    ghost use Rattle.capnp_wire.specs.Elements.{or_empty};
    ghost use Rattle.capnp_wire.specs.Place.{struct_tree, tree_below};
    ghost use Rattle.capnp_wire.specs.Reading.{as_data, as_list, as_text, is_list, is_null_tree};
    ghost use Rattle.capnp_wire.specs.Standing.{bytes_read, levels_of, list_of, struct_of, tree_of};
    ghost use Rattle.capnp_wire.specs.StructLists.{HoldsStructs, struct_list, struct_list_refusal};
    ghost use Rattle.capnp_wire.specs.Tree.{Null, Numbers};
    ghost use Rattle.capnp_wire.specs.Words.{first_fault, first_fault_of_all};
    ghost use Rattle.capnp_arena.specs.Forest.{Changes, Forest, tree};
    ghost use Rattle.capnp_arena.specs.Handles.{IsBuiltPointer, IsBuiltStruct, built_pointer_tree};
    ghost use Rattle.capnp_arena.specs.Steps.Handles.{LentByPointer, ListRests, StructRests};
    ghost use Rattle.capnp_arena.specs.Listed.{list_shape, listed_tree};
    ghost use Rattle.capnp_arena.specs.Segment.{segment};
    ghost use Rattle.capnp_arena.specs.Shape.{StructIn, shape_at, word_count};

    /// This pointer for a shorter time. What is left there is what this builder has then.
    #[inline(always)]
    pub fn reborrow(&mut self) -> PointerBuilder<'_>
        ensures* lends { sem 𝓛 (LentByPointer self.entry result.arena) }
        ensures now { result.arena.now ≡ self.old.arena.now }
        ensures at { result.at ≡ self.old.at }
    {
        let at = self.at;
        let arena = &mut *self.arena;
        PointerBuilder { arena, at }
    }

    /// A reader of the pointer, with 64 levels. Its tree is cut off past 129 levels, which only walks of a whole
    /// tree can see.
    ///
    /// # Conditions
    ///
    /// A tree of the message stands at the pointer (`IsBuiltPointer`).
    #[inline(always)]
    pub fn as_reader(&self) -> PointerReader<'_>
        requires forest { IsBuiltPointer self.now }
        ensures read { tree_of result ≡ tree_below memory_depth (segment self.now.arena.now ∷ [])
            (segment self.now.arena.now) self.now.at }
        ensures tree { IsBelow memory_depth (built_pointer_tree self.now) → tree_of result ≡ built_pointer_tree self.now }
        ensures levels { levels_of result ≡ message_levels }
    {
        self.arena.get_pointer_reader(self.at)
    }

    /// A reader of the pointer for as long as the builder would be there, as `as_reader`. The message stays as it is;
    /// only `Arena::into_pointer_reader` says so to a caller.
    ///
    /// # Conditions
    ///
    /// A tree of the message stands at the pointer (`IsBuiltPointer`).
    #[inline(always)]
    pub fn into_reader(self) -> PointerReader<'a>
        requires forest { IsBuiltPointer self }
        ensures read { tree_of result ≡ tree_below memory_depth (segment self.entry.arena.now ∷ [])
            (segment self.entry.arena.now) self.entry.at }
        ensures tree { IsBelow memory_depth (built_pointer_tree self.entry) → tree_of result ≡ built_pointer_tree self.entry }
        ensures levels { levels_of result ≡ message_levels }
    {
        let PointerBuilder { arena, at } = self;
        arena.into_pointer_reader(at)
    }

    /// Whether the pointer is null.
    ///
    /// # Conditions
    ///
    /// A tree of the message stands at the pointer (`IsBuiltPointer`).
    #[inline(always)]
    pub fn is_null(&self) -> bool
        requires forest { IsBuiltPointer self.now }
        ensures { result ≡ is_null_tree (built_pointer_tree self.now) }
    {
        self.arena.is_null(self.at)
    }

    /// Whether the pointer leads to a struct.
    ///
    /// # Conditions
    ///
    /// A tree of the message stands at the pointer (`IsBuiltPointer`).
    #[inline(always)]
    pub fn is_struct(&self) -> bool
        requires forest { IsBuiltPointer self.now }
        ensures { result ≡ is_struct (built_pointer_tree self.now) }
    {
        self.arena.is_struct(self.at)
    }

    /// Whether the pointer leads to a list.
    ///
    /// # Conditions
    ///
    /// A tree of the message stands at the pointer (`IsBuiltPointer`).
    #[inline(always)]
    pub fn is_list(&self) -> bool
        requires forest { IsBuiltPointer self.now }
        ensures { result ≡ is_list (built_pointer_tree self.now) }
    {
        self.arena.is_list(self.at)
    }

    /// Makes the pointer null. What it led to stays where it was; no memory is taken.
    ///
    /// # Conditions
    ///
    /// The pointer's word lies inside the message's segment.
    #[inline(always)]
    pub fn clear(&mut self)
        requires inside { self.old.at < word_count (segment self.old.arena.now) }
        ensures same { self.new.arena.ghost_name ≡ self.old.arena.ghost_name }
        ensures at { self.new.at ≡ self.old.at }
        ensures forest { IsBuiltPointer self.new }
        ensures tree { built_pointer_tree self.new ≡ Null }
        ensures changes { Changes self.old.at (segment self.old.arena.now) (segment self.new.arena.now) }
        ensures long { length (segment self.new.arena.now) ≡ length (segment self.old.arena.now) }
    {
        self.arena.clear(self.at);
    }

    /// The struct that stands here, with at least a size: a null becomes a struct of that size, all zero and null, and
    /// a smaller struct gets zeros and nulls after what it has.
    ///
    /// Refused with `WrongPointerKind` for a list, and else with `OutOfMemory`; then nothing has changed. A struct that
    /// is large enough takes no memory and is never refused.
    ///
    /// # Conditions
    ///
    /// A tree of the message stands at the pointer (`Forest`).
    #[tactic(auto, using(crate::specs::Facts::Laws::struct_planted))]
    #[inline(always)]
    pub fn get_struct(self, size: StructSize) -> Result<StructBuilder<'a>>
        requires forest { Forest (segment self.arena.now) self.at }
        ensures* rests { sem 𝓛 (StructRests self.entry.arena result) }
        ensures same { IfOk result (λ s. s.arena.ghost_name ≡ self.entry.arena.ghost_name) }
        ensures forest { IfOk result (λ s. Forest (segment s.arena.now) self.entry.at) }
        ensures place { IfOk result (λ s. shape_at (segment s.arena.now) self.entry.at
            ≡ StructIn s.place.start s.place.data_words s.place.pointers) }
        ensures planted { IfOk result IsBuiltStruct }
        ensures tree { IfOk result (λ s. tree (segment s.arena.now) self.entry.at
            ≡ struct_tree (extended_struct size (struct_in (tree (segment self.entry.arena.now) self.entry.at)))) }
        ensures changes { IfOk result (λ s. Changes self.entry.at (segment self.entry.arena.now)
            (segment s.arena.now)) }
        ensures within { OnOk result (struct_refusal (built_pointer_tree self.entry) ≡ None) }
        ensures cause { IfErr result (λ e. IsStructRefusal e (tree (segment self.entry.arena.now) self.entry.at)) }
        ensures succeeds { HoldsStruct size (built_pointer_tree self.entry) → IsOk result }
        ensures stays { HoldsStruct size (built_pointer_tree self.entry)
            → IfOk result (λ s. segment s.arena.now ≡ segment self.entry.arena.now) }
    {
        let PointerBuilder { arena, at } = self;
        let place = arena.get_struct(at, size)?;
        Ok(StructBuilder { arena, place })
    }

    /// The list that stands here, as one of elements of a size. A null is a list without elements, and stays null.
    ///
    /// Refused with `WrongPointerKind` for a struct, and with `WrongElementSize` for a list that is not read so; then
    /// nothing has changed. No memory is taken.
    ///
    /// # Conditions
    ///
    /// A tree of the message stands at the pointer (`IsBuiltPointer`). `size` is not `InlineComposite`.
    #[inline(always)]
    pub fn get_list(self, size: ElementSize) -> Result<ListBuilder<'a>>
        requires forest { IsBuiltPointer self }
        requires simple { size ≢ ElementSize.InlineComposite }
        ensures* rests { sem 𝓛 (ListRests self.entry.arena result) }
        ensures same { IfOk result (λ l. l.arena.ghost_name ≡ self.entry.arena.ghost_name) }
        ensures now { IfOk result (λ l. l.arena.now ≡ self.entry.arena.now) }
        ensures at { IfOk result (λ l. l.at ≡ self.entry.at) }
        ensures place { IfOk result (λ l. shape_at (segment l.arena.now) l.at ≡ list_shape l.list) }
        ensures read { IfOk result (λ l. as_list size (built_pointer_tree self.entry) 1
            ≡ Ok (listed_tree (built_pointer_tree self.entry) l.list)) }
        ensures cause { IfErr result (λ e. as_list size (built_pointer_tree self.entry) 1 ≡ Err e.kind) }
    {
        let PointerBuilder { arena, at } = self;
        let list = arena.get_list(at, size)?;
        Ok(ListBuilder { arena, at, list })
    }

    /// The list that stands here, as one of structs of at least a size. A null is a list without elements, and stays
    /// null. A list of other elements becomes one of structs, and structs that are smaller are extended: each element
    /// then has at least the size, with zeros and nulls after what it had, and has lost nothing.
    ///
    /// Refused with `WrongPointerKind` for a struct, with `WrongElementSize` for a list of bits, with `SizePastFormat`
    /// where the structs would take 2^29 words or more, and else with `OutOfMemory`; then nothing has changed. A null,
    /// and a list of structs that have at least the size, take no memory and are never refused.
    ///
    /// # Conditions
    ///
    /// A tree of the message stands at the pointer (`IsBuiltPointer`).
    #[inline(always)]
    pub fn get_struct_list(self, size: StructSize) -> Result<ListBuilder<'a>>
        requires forest { IsBuiltPointer self }
        ensures* rests { sem 𝓛 (ListRests self.entry.arena result) }
        ensures same { IfOk result (λ l. l.arena.ghost_name ≡ self.entry.arena.ghost_name) }
        ensures at { IfOk result (λ l. l.at ≡ self.entry.at) }
        ensures forest { IfOk result (λ l. Forest (segment l.arena.now) l.at) }
        ensures place { IfOk result (λ l. shape_at (segment l.arena.now) l.at ≡ list_shape l.list) }
        ensures tree { IfOk result (λ l. tree (segment l.arena.now) l.at ≡ struct_list size (built_pointer_tree self.entry)) }
        ensures reads { IfOk result (λ l. listed_tree (tree (segment l.arena.now) l.at) l.list
            ≡ or_empty ElementSize.InlineComposite (struct_list size (built_pointer_tree self.entry))) }
        ensures changes { IfOk result (λ l. Changes self.entry.at (segment self.entry.arena.now)
            (segment l.arena.now)) }
        ensures within { OnOk result (struct_list_refusal size (built_pointer_tree self.entry) ≡ None) }
        ensures cause { IfErr result (λ e. IsDueRefusal e (struct_list_refusal size (built_pointer_tree self.entry))) }
        ensures succeeds { HoldsStructs size (built_pointer_tree self.entry) → IsOk result }
        ensures stays { HoldsStructs size (built_pointer_tree self.entry)
            → IfOk result (λ l. segment l.arena.now ≡ segment self.entry.arena.now) }
    {
        let PointerBuilder { arena, at } = self;
        let list = arena.get_struct_list(at, size)?;
        Ok(ListBuilder { arena, at, list })
    }

    /// Replaces what stands here by a struct of a size, all zero and null.
    ///
    /// Refused with `OutOfMemory`; then nothing has changed.
    ///
    /// # Conditions
    ///
    /// The pointer's word lies inside the message's segment.
    #[tactic(auto, using(crate::specs::Facts::Laws::struct_planted))]
    #[inline(always)]
    pub fn init_struct(self, size: StructSize) -> Result<StructBuilder<'a>>
        requires { self.at < word_count (segment self.arena.now) }
        ensures* rests { sem 𝓛 (StructRests self.entry.arena result) }
        ensures same { IfOk result (λ s. s.arena.ghost_name ≡ self.entry.arena.ghost_name) }
        ensures forest { IfOk result (λ s. Forest (segment s.arena.now) self.entry.at) }
        ensures place { IfOk result (λ s. shape_at (segment s.arena.now) self.entry.at
            ≡ StructIn s.place.start s.place.data_words s.place.pointers) }
        ensures planted { IfOk result IsBuiltStruct }
        ensures size { IfOk result (λ s. (s.place.data_words ≡ size.data_words) × (s.place.pointers ≡ size.pointers)) }
        ensures tree { IfOk result (λ s. tree (segment s.arena.now) self.entry.at ≡ struct_tree (zero_struct size)) }
        ensures changes { IfOk result (λ s. Changes self.entry.at (segment self.entry.arena.now)
            (segment s.arena.now)) }
        ensures kind { IfErr result (λ e. e.kind ≡ OutOfMemory) }
    {
        let PointerBuilder { arena, at } = self;
        let place = arena.init_struct(at, size)?;
        Ok(StructBuilder { arena, place })
    }

    /// Replaces what stands here by a list of so many elements of a size, all zero, false or null.
    ///
    /// Refused with `SizePastFormat` for 2^29 elements or more, and else with `OutOfMemory`; then nothing has changed.
    ///
    /// # Conditions
    ///
    /// The pointer's word lies inside the message's segment. `size` is not `InlineComposite`.
    #[inline(always)]
    pub fn init_list(self, size: ElementSize, count: u32) -> Result<ListBuilder<'a>>
        requires inside { self.at < word_count (segment self.arena.now) }
        requires simple { size ≢ ElementSize.InlineComposite }
        ensures* rests { sem 𝓛 (ListRests self.entry.arena result) }
        ensures same { IfOk result (λ l. l.arena.ghost_name ≡ self.entry.arena.ghost_name) }
        ensures at { IfOk result (λ l. l.at ≡ self.entry.at) }
        ensures forest { IfOk result (λ l. Forest (segment l.arena.now) l.at) }
        ensures place { IfOk result (λ l. shape_at (segment l.arena.now) l.at ≡ list_shape l.list) }
        ensures tree { IfOk result (λ l. tree (segment l.arena.now) l.at ≡ zero_list size count) }
        ensures changes { IfOk result (λ l. Changes self.entry.at (segment self.entry.arena.now)
            (segment l.arena.now)) }
        ensures within { OnOk result (count < words_past_format) }
        ensures cause { IfErr result (λ e. IsRoomRefusal e (words_past_format ≤ count)) }
    {
        let PointerBuilder { arena, at } = self;
        let start = arena.init_list(at, size, count)?;
        let list = ListTarget::Plain(ListPlace { start, size, count });
        Ok(ListBuilder { arena, at, list })
    }

    /// Replaces what stands here by a list of so many structs of a size, all zero and null.
    ///
    /// Refused with `SizePastFormat` for 2^29 elements or more, or where they take 2^29 words or more, and else with
    /// `OutOfMemory`; then nothing has changed.
    ///
    /// # Conditions
    ///
    /// The pointer's word lies inside the message's segment.
    #[inline(always)]
    pub fn init_struct_list(self, count: u32, size: StructSize) -> Result<ListBuilder<'a>>
        requires inside { self.at < word_count (segment self.arena.now) }
        ensures* rests { sem 𝓛 (ListRests self.entry.arena result) }
        ensures same { IfOk result (λ l. l.arena.ghost_name ≡ self.entry.arena.ghost_name) }
        ensures at { IfOk result (λ l. l.at ≡ self.entry.at) }
        ensures forest { IfOk result (λ l. Forest (segment l.arena.now) l.at) }
        ensures place { IfOk result (λ l. shape_at (segment l.arena.now) l.at ≡ list_shape l.list) }
        ensures tree { IfOk result (λ l. tree (segment l.arena.now) l.at ≡ zero_structs size count) }
        ensures changes { IfOk result (λ l. Changes self.entry.at (segment self.entry.arena.now)
            (segment l.arena.now)) }
        ensures within { OnOk result ((count < words_past_format) × (count * (size.data_words + size.pointers) < words_past_format)) }
        ensures cause { IfErr result (λ e. IsRoomRefusal e
            ((words_past_format ≤ count) ⊎ (words_past_format ≤ count * (size.data_words + size.pointers)))) }
    {
        let PointerBuilder { arena, at } = self;
        let tag = arena.init_struct_list(at, count, size)?;
        let list = ListTarget::Structs(StructsPlace {
            tag,
            count,
            data_words: size.data_words,
            pointers: size.pointers,
        });
        Ok(ListBuilder { arena, at, list })
    }

    /// The struct that stands here, with at least a size: a null becomes a copy of the default first, where there is
    /// one, or else a struct of that size, all zero and null. What is smaller is extended as by `get_struct`.
    ///
    /// Refused with `WrongPointerKind` for a list, which of a null the default may be; of a null also with
    /// `BadPointer`, `TooDeep` or `CapabilityPointer` where a pointer in the default can't be followed, by the first of
    /// these in preorder; and else with `OutOfMemory`. Then nothing has changed. A struct that is large enough takes no
    /// memory and is never refused.
    ///
    /// # Conditions
    ///
    /// A tree of the message stands at the pointer (`IsBuiltPointer`).
    #[tactic(auto, using(crate::specs::Facts::Laws::struct_planted))]
    #[inline(always)]
    pub fn get_struct_or_default(
        self,
        size: StructSize,
        default: Option<PointerReader<'_>>,
    ) -> Result<StructBuilder<'a>>
        requires forest { IsBuiltPointer self }
        ensures* rests { sem 𝓛 (StructRests self.entry.arena result) }
        ensures same { IfOk result (λ s. s.arena.ghost_name ≡ self.entry.arena.ghost_name) }
        ensures forest { IfOk result (λ s. Forest (segment s.arena.now) self.entry.at) }
        ensures place { IfOk result (λ s. shape_at (segment s.arena.now) self.entry.at
            ≡ StructIn s.place.start s.place.data_words s.place.pointers) }
        ensures planted { IfOk result IsBuiltStruct }
        ensures tree { IfOk result (λ s. tree (segment s.arena.now) self.entry.at
            ≡ struct_tree (filled_struct (default_tree default.entry) size (built_pointer_tree self.entry))) }
        ensures changes { IfOk result (λ s. Changes self.entry.at (segment self.entry.arena.now)
            (segment s.arena.now)) }
        ensures within { OnOk result (filled_struct_refusal (default_tree default.entry) (built_pointer_tree self.entry)
            ≡ None) }
        ensures cause { IfErr result (λ e. IsDueRefusal e
            (filled_struct_refusal (default_tree default.entry) (built_pointer_tree self.entry))) }
        ensures succeeds { HoldsStruct size (built_pointer_tree self.entry) → IsOk result }
        ensures stays { HoldsStruct size (built_pointer_tree self.entry)
            → IfOk result (λ s. segment s.arena.now ≡ segment self.entry.arena.now) }
    {
        let PointerBuilder { arena, at } = self;
        let place = arena.get_struct_or_default(at, size, default)?;
        Ok(StructBuilder { arena, place })
    }

    /// The list that stands here, as one of elements of a size: a null becomes a copy of the default first, where there
    /// is one, or else is a list without elements, and stays null.
    ///
    /// Refused with `WrongPointerKind` for a struct, and with `WrongElementSize` for a list that is not read so, which
    /// of a null the default may be; of a null also with `BadPointer`, `TooDeep` or `CapabilityPointer` where a pointer
    /// in the default can't be followed, by the first of these in preorder; and else with `OutOfMemory`. Then nothing
    /// has changed. Where no default is copied no memory is taken.
    ///
    /// # Conditions
    ///
    /// A tree of the message stands at the pointer (`IsBuiltPointer`). `size` is not `InlineComposite`.
    #[inline(always)]
    pub fn get_list_or_default(
        self,
        size: ElementSize,
        default: Option<PointerReader<'_>>,
    ) -> Result<ListBuilder<'a>>
        requires forest { IsBuiltPointer self }
        requires simple { size ≢ ElementSize.InlineComposite }
        ensures* rests { sem 𝓛 (ListRests self.entry.arena result) }
        ensures same { IfOk result (λ l. l.arena.ghost_name ≡ self.entry.arena.ghost_name) }
        ensures at { IfOk result (λ l. l.at ≡ self.entry.at) }
        ensures forest { IfOk result (λ l. Forest (segment l.arena.now) l.at) }
        ensures place { IfOk result (λ l. shape_at (segment l.arena.now) l.at ≡ list_shape l.list) }
        ensures tree { IfOk result (λ l. tree (segment l.arena.now) l.at
            ≡ or_default (default_tree default.entry) (built_pointer_tree self.entry)) }
        ensures reads { IfOk result (λ l. listed_tree (tree (segment l.arena.now) l.at) l.list
            ≡ or_empty size (or_default (default_tree default.entry) (built_pointer_tree self.entry))) }
        ensures changes { IfOk result (λ l. Changes self.entry.at (segment self.entry.arena.now)
            (segment l.arena.now)) }
        ensures within { OnOk result (filled_list_refusal (default_tree default.entry) size (built_pointer_tree self.entry)
            ≡ None) }
        ensures cause { IfErr result (λ e. IsDueRefusal e
            (filled_list_refusal (default_tree default.entry) size (built_pointer_tree self.entry))) }
        ensures succeeds { takes_default (default_tree default.entry) (built_pointer_tree self.entry) ≡ false →
            filled_list_refusal (default_tree default.entry) size (built_pointer_tree self.entry) ≡ None → IsOk result }
        ensures stays { takes_default (default_tree default.entry) (built_pointer_tree self.entry) ≡ false
            → IfOk result (λ l. segment l.arena.now ≡ segment self.entry.arena.now) }
    {
        let PointerBuilder { arena, at } = self;
        let list = arena.get_list_or_default(at, size, default)?;
        Ok(ListBuilder { arena, at, list })
    }

    /// The list that stands here, as one of structs of at least a size: a null becomes a copy of the default first,
    /// where there is one, or else is a list without elements, and stays null. A list becomes one of structs as by
    /// `get_struct_list`.
    ///
    /// Refused with `WrongPointerKind` for a struct, with `WrongElementSize` for a list of bits, and with
    /// `SizePastFormat` where the structs would take 2^29 words or more, which of a null the default may be; of a null
    /// also with `BadPointer`, `TooDeep` or `CapabilityPointer` where a pointer in the default can't be followed, by
    /// the first of these in preorder; and else with `OutOfMemory`. Then nothing has changed. A null without a default,
    /// and a list of structs that have at least the size, take no memory and are never refused.
    ///
    /// # Conditions
    ///
    /// A tree of the message stands at the pointer (`IsBuiltPointer`).
    #[inline(always)]
    pub fn get_struct_list_or_default(
        self,
        size: StructSize,
        default: Option<PointerReader<'_>>,
    ) -> Result<ListBuilder<'a>>
        requires forest { IsBuiltPointer self }
        ensures* rests { sem 𝓛 (ListRests self.entry.arena result) }
        ensures same { IfOk result (λ l. l.arena.ghost_name ≡ self.entry.arena.ghost_name) }
        ensures at { IfOk result (λ l. l.at ≡ self.entry.at) }
        ensures forest { IfOk result (λ l. Forest (segment l.arena.now) l.at) }
        ensures place { IfOk result (λ l. shape_at (segment l.arena.now) l.at ≡ list_shape l.list) }
        ensures tree { IfOk result (λ l. tree (segment l.arena.now) l.at
            ≡ filled_structs (default_tree default.entry) size (built_pointer_tree self.entry)) }
        ensures reads { IfOk result (λ l. listed_tree (tree (segment l.arena.now) l.at) l.list ≡
            or_empty ElementSize.InlineComposite (filled_structs (default_tree default.entry) size
            (built_pointer_tree self.entry))) }
        ensures changes { IfOk result (λ l. Changes self.entry.at (segment self.entry.arena.now)
            (segment l.arena.now)) }
        ensures within { OnOk result (filled_structs_refusal (default_tree default.entry) size
            (built_pointer_tree self.entry) ≡ None) }
        ensures cause { IfErr result (λ e. IsDueRefusal e
            (filled_structs_refusal (default_tree default.entry) size (built_pointer_tree self.entry))) }
        ensures succeeds { takes_default (default_tree default.entry) (built_pointer_tree self.entry) ≡ false
            → HoldsStructs size (built_pointer_tree self.entry) → IsOk result }
        ensures stays { takes_default (default_tree default.entry) (built_pointer_tree self.entry) ≡ false
            → HoldsStructs size (built_pointer_tree self.entry)
            → IfOk result (λ l. segment l.arena.now ≡ segment self.entry.arena.now) }
    {
        let PointerBuilder { arena, at } = self;
        let list = arena.get_struct_list_or_default(at, size, default)?;
        Ok(ListBuilder { arena, at, list })
    }

    /// The bytes of the data that stands here, none for a null.
    ///
    /// Refused with `WrongPointerKind` for a struct, and with `WrongElementSize` for another list.
    ///
    /// # Conditions
    ///
    /// A tree of the message stands at the pointer (`IsBuiltPointer`).
    #[inline(always)]
    pub fn get_data(&self) -> Result<&[u8]>
        requires forest { IsBuiltPointer self.now }
        ensures { bytes_read result ≡ as_data (built_pointer_tree self.now) }
    {
        self.arena.get_data(self.at)
    }

    /// The bytes of the text that stands here, without the zero that ends it; none for a null.
    ///
    /// Refused as `get_data`, and with `TextNotTerminated` where the list is empty or its last byte is not zero.
    ///
    /// # Conditions
    ///
    /// A tree of the message stands at the pointer (`IsBuiltPointer`).
    #[inline(always)]
    pub fn get_text(&self) -> Result<&[u8]>
        requires forest { IsBuiltPointer self.now }
        ensures { bytes_read result ≡ as_text (built_pointer_tree self.now) }
    {
        self.arena.get_text(self.at)
    }

    /// Replaces what stands here by a text: these bytes, and the zero that ends it.
    ///
    /// Refused with `SizePastFormat` where these would be 2^29 bytes or more, and else with `OutOfMemory`; then nothing
    /// has changed.
    ///
    /// # Conditions
    ///
    /// The pointer's word lies inside the message's segment.
    #[inline(always)]
    pub fn set_text(&mut self, text: &[u8]) -> Result<()>
        requires inside { self.old.at < word_count (segment self.old.arena.now) }
        ensures same { self.new.arena.ghost_name ≡ self.old.arena.ghost_name }
        ensures at { self.new.at ≡ self.old.at }
        ensures forest { OnOk result (IsBuiltPointer self.new) }
        ensures tree { OnOk result (built_pointer_tree self.new ≡ Numbers 1 (text.now ++ 0 ∷ [])) }
        ensures changes { OnOk result (Changes self.old.at (segment self.old.arena.now) (segment self.new.arena.now)) }
        ensures within { OnOk result (length text.now + 1 < words_past_format) }
        ensures cause { IfErr result (λ e. IsRoomRefusal e (words_past_format ≤ length text.now + 1)) }
        ensures refused { OnErr result (segment self.new.arena.now ≡ segment self.old.arena.now) }
    {
        self.arena.set_text(self.at, text)
    }

    /// Replaces what stands here by a list of these bytes.
    ///
    /// Refused with `SizePastFormat` for 2^29 bytes or more, and else with `OutOfMemory`; then nothing has changed.
    ///
    /// # Conditions
    ///
    /// The pointer's word lies inside the message's segment.
    #[inline(always)]
    pub fn set_data(&mut self, bytes: &[u8]) -> Result<()>
        requires inside { self.old.at < word_count (segment self.old.arena.now) }
        ensures same { self.new.arena.ghost_name ≡ self.old.arena.ghost_name }
        ensures at { self.new.at ≡ self.old.at }
        ensures forest { OnOk result (IsBuiltPointer self.new) }
        ensures tree { OnOk result (built_pointer_tree self.new ≡ Numbers 1 bytes.now) }
        ensures changes { OnOk result (Changes self.old.at (segment self.old.arena.now) (segment self.new.arena.now)) }
        ensures within { OnOk result (length bytes.now < words_past_format) }
        ensures cause { IfErr result (λ e. IsRoomRefusal e (words_past_format ≤ length bytes.now)) }
        ensures refused { OnErr result (segment self.new.arena.now ≡ segment self.old.arena.now) }
    {
        self.arena.set_data(self.at, bytes)
    }

    /// Replaces what stands here by a copy of what a reader stands on, of each occurrence of a shared target.
    ///
    /// Refused with `BadPointer`, `TooDeep` or `CapabilityPointer` where a pointer in the source can't be followed, by
    /// the first of these in preorder, and with `OutOfMemory`; then nothing has changed.
    ///
    /// # Conditions
    ///
    /// The pointer's word lies inside the message's segment.
    #[inline(always)]
    pub fn copy_from(&mut self, source: PointerReader<'_>) -> Result<()>
        requires inside { self.old.at < word_count (segment self.old.arena.now) }
        ensures same { self.new.arena.ghost_name ≡ self.old.arena.ghost_name }
        ensures at { self.new.at ≡ self.old.at }
        ensures forest { OnOk result (IsBuiltPointer self.new) }
        ensures tree { OnOk result (built_pointer_tree self.new ≡ tree_of source.entry) }
        ensures changes { OnOk result (Changes self.old.at (segment self.old.arena.now) (segment self.new.arena.now)) }
        ensures sound { OnOk result (first_fault (tree_of source.entry) ≡ None) }
        ensures cause { IfErr result (λ e. IsCopyRefusal e (first_fault (tree_of source.entry))) }
        ensures refused { OnErr result (segment self.new.arena.now ≡ segment self.old.arena.now) }
    {
        self.arena.copy_from(self.at, source)
    }

    /// Replaces what stands here by a copy of a struct, with its data rounded up to whole words.
    ///
    /// Refused as `copy_from`.
    ///
    /// # Conditions
    ///
    /// The pointer's word lies inside the message's segment.
    #[inline(always)]
    pub fn set_struct(&mut self, source: &StructReader<'_>) -> Result<()>
        requires inside { self.old.at < word_count (segment self.old.arena.now) }
        ensures same { self.new.arena.ghost_name ≡ self.old.arena.ghost_name }
        ensures at { self.new.at ≡ self.old.at }
        ensures forest { OnOk result (IsBuiltPointer self.new) }
        ensures tree { OnOk result (built_pointer_tree self.new ≡ struct_tree (rounded_struct (struct_of source.now))) }
        ensures changes { OnOk result (Changes self.old.at (segment self.old.arena.now) (segment self.new.arena.now)) }
        ensures sound { OnOk result (first_fault_of_all (struct_of source.now).pointers ≡ None) }
        ensures cause { IfErr result (λ e. IsCopyRefusal e (first_fault_of_all (struct_of source.now).pointers)) }
        ensures refused { OnErr result (segment self.new.arena.now ≡ segment self.old.arena.now) }
    {
        self.arena.set_struct(self.at, source)
    }

    /// Replaces what stands here by a copy of a list, with the elements that it has, whatever they were read as. A
    /// reader of a null stands on an empty list of the size that was asked, and that is what is copied.
    ///
    /// Refused as `copy_from`.
    ///
    /// # Conditions
    ///
    /// The pointer's word lies inside the message's segment.
    #[inline(always)]
    pub fn set_list(&mut self, source: &ListReader<'_>) -> Result<()>
        requires inside { self.old.at < word_count (segment self.old.arena.now) }
        ensures same { self.new.arena.ghost_name ≡ self.old.arena.ghost_name }
        ensures at { self.new.at ≡ self.old.at }
        ensures forest { OnOk result (IsBuiltPointer self.new) }
        ensures tree { OnOk result (built_pointer_tree self.new ≡ list_of source.now) }
        ensures changes { OnOk result (Changes self.old.at (segment self.old.arena.now) (segment self.new.arena.now)) }
        ensures sound { OnOk result (first_fault (list_of source.now) ≡ None) }
        ensures cause { IfErr result (λ e. IsCopyRefusal e (first_fault (list_of source.now))) }
        ensures refused { OnErr result (segment self.new.arena.now ≡ segment self.old.arena.now) }
    {
        self.arena.set_list(self.at, source)
    }
}
