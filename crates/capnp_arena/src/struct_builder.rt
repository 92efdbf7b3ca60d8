//! Builders of structs: a reference to the message beside the struct's place.
ghost use Rattle.capnp_wire.specs.Depth.{message_levels};

use crate::arena::{Arena, Place};
use crate::pointer_builder::PointerBuilder;
use capnp_device::error::Result;
use capnp_wire::primitive::PrimitiveElement;
use capnp_wire::size::{MessageSize, StructSize};
use capnp_wire::{PointerReader, StructReader};

/// A struct that is built.
#[derive(Drop)]
pub struct StructBuilder<'a> {
    pub arena: &'a mut Arena,
    pub place: Place,
}

impl<'a> StructBuilder<'a> {
    ghost use Rattle.std.specs.Prelude.{[], List, None, ℕ, IfErr, IfOk, IsOk, OnErr, OnOk, bit_xor, length, ◌*◌, ◌+◌, ◌/◌, ◌∷◌, ◌<◌, ◌≡◌, ◌≤◌, ◌^◌};
    ghost use Rattle.std.specs.Borrow.{sem};
    ghost use Rattle.capnp_device.specs.declared.error.ErrorKind.TheVariants.{OutOfMemory};
    ghost use Rattle.capnp_wire.specs.Depth.{AreBelow, IsBelow, memory_depth};
    ghost use Rattle.capnp_wire.specs.Edits.{IsCopyRefusal, fitted_struct, with_bit, with_bytes, with_number};
    ghost use Rattle.capnp_wire.specs.Place.{struct_at, tree_below};
    ghost use Rattle.capnp_wire.specs.Slot.{bit_at, masked_bit, number_at};
    ghost use Rattle.capnp_wire.specs.Standing.{levels_of, struct_levels, struct_of, tree_of};
    ghost use Rattle.capnp_wire.specs.Total.{IsSize};
    ghost use Rattle.capnp_wire.specs.Tree.{nth_tree, tree_count};
    ghost use Rattle.capnp_wire.specs.Words.{first_fault_of_all, words_of_struct};
    ghost use Rattle.capnp_arena.specs.Facts.Laws.{IsInPointer};
    ghost use Rattle.capnp_arena.specs.Forest.{Changes, Forest, PartChanges, Planted, struct_from, tree};
    ghost use Rattle.capnp_arena.specs.Handles.{IsBuiltPointer, IsBuiltStruct, built_struct_tree, handle_words, built_pointer_tree};
    ghost use Rattle.capnp_arena.specs.Steps.Handles.{LentByStruct};
    ghost use Rattle.capnp_arena.specs.Segment.{segment};
    ghost use Rattle.capnp_arena.specs.Shape.{StructIn, word_count};

    /// This struct for a shorter time. What is left there is what this builder has then.
    #[inline(always)]
    pub fn reborrow(&mut self) -> StructBuilder<'_>
        ensures* lends { sem 𝓛 (LentByStruct self.entry result.arena) }
        ensures now { result.arena.now ≡ self.old.arena.now }
        ensures place { result.place ≡ self.old.place }
    {
        let place = self.place;
        let arena = &mut *self.arena;
        StructBuilder { arena, place }
    }

    /// A reader of the struct, with 64 levels. What its pointers lead to is cut off past 129 levels, which only
    /// walks of a whole tree can see.
    ///
    /// # Conditions
    ///
    /// A struct of the message stands at the builder's place (`IsBuiltStruct`).
    #[inline(always)]
    pub fn as_reader(&self) -> StructReader<'_>
        requires planted { IsBuiltStruct self.now }
        ensures read { struct_of result ≡ struct_at
            (tree_below memory_depth (segment self.now.arena.now ∷ []) (segment self.now.arena.now))
            (segment self.now.arena.now) self.now.place.data_words self.now.place.pointers self.now.place.start }
        ensures parts { AreBelow memory_depth (built_struct_tree self.now).pointers → struct_of result ≡ built_struct_tree self.now }
        ensures levels { struct_levels result ≡ message_levels }
    {
        self.arena.get_struct_reader(self.place)
    }

    /// A reader of the struct for as long as the builder would be there, as `as_reader`. The message stays as it is;
    /// only `Arena::into_struct_reader` says so to a caller.
    ///
    /// # Conditions
    ///
    /// A struct of the message stands at the builder's place (`IsBuiltStruct`).
    #[inline(always)]
    pub fn into_reader(self) -> StructReader<'a>
        requires planted { IsBuiltStruct self }
        ensures read { struct_of result ≡ struct_at
            (tree_below memory_depth (segment self.entry.arena.now ∷ []) (segment self.entry.arena.now))
            (segment self.entry.arena.now) self.entry.place.data_words self.entry.place.pointers
            self.entry.place.start }
        ensures parts { AreBelow memory_depth (built_struct_tree self.entry).pointers → struct_of result ≡ built_struct_tree self.entry }
        ensures levels { struct_levels result ≡ message_levels }
    {
        let StructBuilder { arena, place } = self;
        arena.into_struct_reader(place)
    }

    /// How many words its data section has and how many pointers there are (encoding, "Structs").
    ///
    /// # Conditions
    ///
    /// A struct of the message stands at the builder's place (`IsBuiltStruct`).
    #[inline(always)]
    pub fn get_size(&self) -> StructSize
        requires planted { IsBuiltStruct self.now }
        ensures data { result.data_words ≡ length (built_struct_tree self.now).bytes / 8 }
        ensures pointers { result.pointers ≡ tree_count (built_struct_tree self.now).pointers }
    {
        self.arena.get_size(self.place)
    }

    /// The size of the struct with all that its pointers lead to: its data section and its pointers, and the targets,
    /// the tag of a composite list with them. There are no capabilities. Takes no memory.
    ///
    /// Refused with `OutOfMemory` exactly where one of its pointers leads more than 129 levels down.
    ///
    /// # Conditions
    ///
    /// A struct of the message stands at the builder's place (`IsBuiltStruct`).
    #[inline(always)]
    pub fn total_size(&self) -> Result<MessageSize>
        requires planted { IsBuiltStruct self.now }
        ensures size { IfOk result (λ size. IsSize size None (words_of_struct (built_struct_tree self.now))) }
        ensures succeeds { AreBelow memory_depth (built_struct_tree self.now).pointers → IsOk result }
        ensures cause { IfErr result (λ e. (e.kind ≡ OutOfMemory)
            × (AreBelow memory_depth (built_struct_tree self.now).pointers → ⊥)) }
    {
        self.arena.total_size(self.place)
    }

    /// The number at `offset`, in units of its own size, as it is stored; zero bits past the end.
    ///
    /// # Conditions
    ///
    /// A struct of the message stands at the builder's place (`IsBuiltStruct`).
    #[inline(always)]
    pub fn get_data_field<T: PrimitiveElement>(&self, offset: u32) -> T
        requires planted { IsBuiltStruct self.now }
        ensures { result ≡ T.of_number (number_at T.width offset (built_struct_tree self.now).bytes) }
    {
        self.arena.get_data_field(self.place, offset)
    }

    /// The number at `offset`, in units of its own size, where it is stored XORed with its default `mask`; past the end
    /// it is `mask`.
    ///
    /// # Conditions
    ///
    /// A struct of the message stands at the builder's place (`IsBuiltStruct`).
    #[inline(always)]
    pub fn get_data_field_mask<T: PrimitiveElement>(&self, offset: u32, mask: T) -> T
        requires planted { IsBuiltStruct self.now }
        ensures { result ≡ T.of_number (bit_xor (number_at T.width offset (built_struct_tree self.now).bytes)
            (T.to_number mask)) }
    {
        self.arena.get_data_field_mask(self.place, offset, mask)
    }

    /// The bit at `offset`, counted from the lowest of the first byte, as it is stored; false past the end.
    ///
    /// # Conditions
    ///
    /// A struct of the message stands at the builder's place (`IsBuiltStruct`).
    #[inline(always)]
    pub fn get_bool_field(&self, offset: u32) -> bool
        requires planted { IsBuiltStruct self.now }
        ensures { result ≡ bit_at (built_struct_tree self.now).bytes offset }
    {
        self.arena.get_bool_field(self.place, offset)
    }

    /// The bit at `offset`, counted from the lowest of the first byte, where it is stored XORed with its default
    /// `mask`; past the end it is `mask`.
    ///
    /// # Conditions
    ///
    /// A struct of the message stands at the builder's place (`IsBuiltStruct`).
    #[inline(always)]
    pub fn get_bool_field_mask(&self, offset: u32, mask: bool) -> bool
        requires planted { IsBuiltStruct self.now }
        ensures { result ≡ masked_bit (bit_at (built_struct_tree self.now).bytes offset) mask }
    {
        self.arena.get_bool_field_mask(self.place, offset, mask)
    }

    /// Stores a number at `offset`, in units of its own size. No memory is taken.
    ///
    /// # Conditions
    ///
    /// A struct of the message stands at the builder's place (`Planted`), and the number lies inside its data section.
    #[inline(always)]
    pub fn set_data_field<T: PrimitiveElement>(&mut self, offset: u32, value: T)
        requires planted { Planted (segment self.old.arena.now)
            (StructIn self.old.place.start self.old.place.data_words self.old.place.pointers) }
        requires inside { (offset + 1) * T.width ≤ 8 * self.old.place.data_words }
        ensures same { self.new.arena.ghost_name ≡ self.old.arena.ghost_name }
        ensures place { self.new.place ≡ self.old.place }
        ensures planted { Planted (segment self.new.arena.now)
            (StructIn self.old.place.start self.old.place.data_words self.old.place.pointers) }
        ensures changes { PartChanges (StructIn self.old.place.start self.old.place.data_words self.old.place.pointers)
            (segment self.old.arena.now) (segment self.new.arena.now) }
        ensures tree { struct_from
            (segment self.new.arena.now) self.old.place.start self.old.place.data_words self.old.place.pointers ≡
            with_bytes
            (struct_from
            (segment self.old.arena.now) self.old.place.start self.old.place.data_words self.old.place.pointers)
            (with_number T.width offset (T.to_number value)
            (struct_from (segment self.old.arena.now) self.old.place.start self.old.place.data_words
            self.old.place.pointers).bytes) }
        ensures long { length (segment self.new.arena.now) ≡ length (segment self.old.arena.now) }
    {
        let place = self.place;
        self.arena.set_number(place, offset, value);
    }

    /// Stores a number at `offset`, in units of its own size, XORed with its default `mask`. No memory is taken.
    ///
    /// # Conditions
    ///
    /// A struct of the message stands at the builder's place (`IsBuiltStruct`), and the number lies inside its data
    /// section.
    #[inline(always)]
    pub fn set_data_field_mask<T: PrimitiveElement>(&mut self, offset: u32, value: T, mask: T)
        requires planted { IsBuiltStruct self.old }
        requires inside { (offset + 1) * T.width ≤ 8 * self.old.place.data_words }
        ensures same { self.new.arena.ghost_name ≡ self.old.arena.ghost_name }
        ensures place { self.new.place ≡ self.old.place }
        ensures planted { Planted (segment self.new.arena.now) (handle_words self.old.place) }
        ensures changes { PartChanges (handle_words self.old.place) (segment self.old.arena.now) (segment self.new.arena.now) }
        ensures tree { struct_from
            (segment self.new.arena.now) self.old.place.start self.old.place.data_words self.old.place.pointers ≡
            with_bytes (built_struct_tree self.old) (with_number T.width offset
            (bit_xor (T.to_number value) (T.to_number mask)) (built_struct_tree self.old).bytes) }
        ensures long { length (segment self.new.arena.now) ≡ length (segment self.old.arena.now) }
    {
        let place = self.place;
        self.arena.set_number_mask(place, offset, value, mask);
    }

    /// Stores a bit at `offset`. `offset` is counted in bits from the lowest of the first byte. No memory is taken.
    ///
    /// # Conditions
    ///
    /// A struct of the message stands at the builder's place (`IsBuiltStruct`), and the bit lies inside its data
    /// section.
    #[inline(always)]
    pub fn set_bool_field(&mut self, offset: u32, value: bool)
        requires planted { IsBuiltStruct self.old }
        requires inside { offset < 64 * self.old.place.data_words }
        ensures same { self.new.arena.ghost_name ≡ self.old.arena.ghost_name }
        ensures place { self.new.place ≡ self.old.place }
        ensures planted { Planted (segment self.new.arena.now) (handle_words self.old.place) }
        ensures changes { PartChanges (handle_words self.old.place) (segment self.old.arena.now) (segment self.new.arena.now) }
        ensures tree { struct_from
            (segment self.new.arena.now) self.old.place.start self.old.place.data_words self.old.place.pointers ≡
            with_bytes (built_struct_tree self.old) (with_bit offset value (built_struct_tree self.old).bytes) }
        ensures long { length (segment self.new.arena.now) ≡ length (segment self.old.arena.now) }
    {
        let place = self.place;
        self.arena.set_bool(place, offset, value);
    }

    /// Stores a bit at `offset`, XORed with its default `mask`. `offset` is counted in bits from the lowest of the
    /// first byte. No memory is taken.
    ///
    /// # Conditions
    ///
    /// A struct of the message stands at the builder's place (`IsBuiltStruct`), and the bit lies inside its data
    /// section.
    #[inline(always)]
    pub fn set_bool_field_mask(&mut self, offset: u32, value: bool, mask: bool)
        requires planted { IsBuiltStruct self.old }
        requires inside { offset < 64 * self.old.place.data_words }
        ensures same { self.new.arena.ghost_name ≡ self.old.arena.ghost_name }
        ensures place { self.new.place ≡ self.old.place }
        ensures planted { Planted (segment self.new.arena.now) (handle_words self.old.place) }
        ensures changes { PartChanges (handle_words self.old.place) (segment self.old.arena.now) (segment self.new.arena.now) }
        ensures tree { struct_from
            (segment self.new.arena.now) self.old.place.start self.old.place.data_words self.old.place.pointers ≡
            with_bytes (built_struct_tree self.old) (with_bit offset (masked_bit value mask) (built_struct_tree self.old).bytes) }
        ensures long { length (segment self.new.arena.now) ≡ length (segment self.old.arena.now) }
    {
        let place = self.place;
        self.arena.set_bool(place, offset, value != mask);
    }

    /// Replaces what the struct holds by what fits of another one, with zeros and nulls after that: the struct keeps
    /// its size.
    ///
    /// Refused with `BadPointer`, `TooDeep` or `CapabilityPointer` where a pointer in the source can't be followed, by
    /// the first of these in preorder, also where it would not fit, and with `OutOfMemory`; then nothing has changed.
    ///
    /// # Conditions
    ///
    /// A struct of the message stands at the builder's place (`IsBuiltStruct`).
    #[inline(always)]
    pub fn copy_content_from(&mut self, source: &StructReader<'_>) -> Result<()>
        requires planted { IsBuiltStruct self.old }
        ensures same { self.new.arena.ghost_name ≡ self.old.arena.ghost_name }
        ensures place { self.new.place ≡ self.old.place }
        ensures planted { OnOk result (Planted (segment self.new.arena.now) (handle_words self.old.place)) }
        ensures changes { OnOk result (PartChanges (handle_words self.old.place) (segment self.old.arena.now)
            (segment self.new.arena.now)) }
        ensures tree { OnOk result
            (struct_from
            (segment self.new.arena.now) self.old.place.start self.old.place.data_words self.old.place.pointers ≡
            fitted_struct (8 * self.old.place.data_words) self.old.place.pointers (struct_of source.now)) }
        ensures sound { OnOk result (first_fault_of_all (struct_of source.now).pointers ≡ None) }
        ensures cause { IfErr result (λ e. IsCopyRefusal e (first_fault_of_all (struct_of source.now).pointers)) }
        ensures refused { OnErr result (segment self.new.arena.now ≡ segment self.old.arena.now) }
    {
        let place = self.place;
        self.arena.copy_content_from(place, source)
    }

    /// A reader of the pointer at `index`, with 64 levels. Its tree is cut off as by `as_reader`.
    ///
    /// # Conditions
    ///
    /// A struct of the message stands at the builder's place (`IsBuiltStruct`), and `index` is below the number of its
    /// pointers.
    #[inline(always)]
    pub fn pointer_field(&self, index: u16) -> PointerReader<'_>
        requires planted { IsBuiltStruct self.now }
        requires inside { index < self.now.place.pointers }
        ensures read { tree_of result ≡ tree_below memory_depth (segment self.now.arena.now ∷ []) (segment self.now.arena.now)
            (self.now.place.start + self.now.place.data_words + index) }
        ensures tree { IsBelow memory_depth (nth_tree (built_struct_tree self.now).pointers index)
            → tree_of result ≡ nth_tree (built_struct_tree self.now).pointers index }
        ensures levels { levels_of result ≡ message_levels }
    {
        let at = self.arena.get_pointer_field(self.place, index);
        self.arena.get_pointer_reader(at)
    }

    /// The pointer at `index`.
    ///
    /// # Conditions
    ///
    /// A struct of the message stands at the builder's place (`Planted`), and `index` is below the number of its
    /// pointers.
    #[inline(always)]
    pub fn get_pointer_field(self, index: u16) -> PointerBuilder<'a>
        requires planted { Planted (segment self.arena.now)
            (StructIn self.place.start self.place.data_words self.place.pointers) }
        requires inside { index < self.place.pointers }
        ensures same { result.arena.ghost_name ≡ self.entry.arena.ghost_name }
        ensures now { result.arena.now ≡ self.entry.arena.now }
        ensures at { result.at ≡ self.entry.place.start + self.entry.place.data_words + index }
        ensures inside { result.at < word_count (segment self.entry.arena.now) }
        ensures forest { IsBuiltPointer result }
        ensures tree { built_pointer_tree result ≡ nth_tree (built_struct_tree self.entry).pointers index }
        ensures leaves { (new : List ℕ) → Forest new result.at → Changes result.at (segment self.entry.arena.now) new
            → IsInPointer (segment self.entry.arena.now) new
            self.entry.place.start self.entry.place.data_words self.entry.place.pointers index }
    {
        let StructBuilder { arena, place } = self;
        let at = arena.get_pointer_field(place, index);
        PointerBuilder { arena, at }
    }

    /// The pointer at `index` for a shorter time. What is left there is what this builder has then.
    ///
    /// # Conditions
    ///
    /// A struct of the message stands at the builder's place (`IsBuiltStruct`), and `index` is below the number of its
    /// pointers.
    #[inline(always)]
    pub fn pointer_field_mut(&mut self, index: u16) -> PointerBuilder<'_>
        requires planted { IsBuiltStruct self.old }
        requires inside { index < self.old.place.pointers }
        ensures* lends { sem 𝓛 (LentByStruct self.entry result.arena) }
        ensures now { result.arena.now ≡ self.old.arena.now }
        ensures at { result.at ≡ self.old.place.start + self.old.place.data_words + index }
        ensures inside { result.at < word_count (segment self.old.arena.now) }
        ensures forest { IsBuiltPointer result }
        ensures tree { built_pointer_tree result ≡ nth_tree (built_struct_tree self.old).pointers index }
        ensures leaves { (new : List ℕ) → Forest new result.at → Changes result.at (segment self.old.arena.now) new
            → IsInPointer (segment self.old.arena.now) new
            self.old.place.start self.old.place.data_words self.old.place.pointers index }
    {
        let at = self.arena.get_pointer_field(self.place, index);
        let arena = &mut *self.arena;
        PointerBuilder { arena, at }
    }
}
