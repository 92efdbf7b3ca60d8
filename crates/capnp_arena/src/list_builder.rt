//! Builders of lists: a reference to the message beside the word of the list's pointer and what stands there.
//!
//! The elements of a list that is built are where its pointer leads: that of a list that was got as it is, and those of
//! a null nowhere.
ghost use Rattle.capnp_wire.specs.Depth.{message_levels};

use crate::arena::Arena;
use crate::list_reads::ListTarget;
use crate::pointer_builder::PointerBuilder;
use crate::struct_builder::StructBuilder;
use capnp_wire::ListReader;
use capnp_wire::primitive::PrimitiveElement;
use capnp_wire::size::ElementSize;

/// A list that is built.
#[derive(Drop)]
pub struct ListBuilder<'a> {
    pub arena: &'a mut Arena,
    /// The word of the pointer that leads to the list.
    pub at: usize,
    pub list: ListTarget,
}

impl<'a> ListBuilder<'a> {
    ghost use Rattle.std.specs.Prelude.{[], List, ℕ, ◌+◌, ◌==◌, ◌∷◌, ◌<◌, ◌≡◌, ◌^◌, length};
    ghost use Rattle.std.specs.Borrow.{sem};
    ghost use Rattle.capnp_wire.specs.Depth.{IsBelow, memory_depth};
    ghost use Rattle.capnp_wire.specs.ElementSizes.{element_size_of};
    ghost use Rattle.capnp_wire.specs.Elements.{HasBit, HasNumber, HasPointer, HasStruct, with_bit_element, with_number_element, with_pointer_element, with_struct_element};
    ghost use Rattle.capnp_wire.specs.Place.{tree_below};
    ghost use Rattle.capnp_wire.specs.Reading.{element_bit, element_number, element_pointer, element_struct, list_length};
    ghost use Rattle.capnp_wire.specs.Standing.{list_levels, list_of};
    ghost use Rattle.capnp_arena.specs.Forest.{Changes, Forest, PartChanges, Planted, struct_from, tree};
    ghost use Rattle.capnp_arena.specs.Handles.{IsBuiltPointer, IsBuiltStruct, built_struct_tree, built_list_tree, handle_words, built_pointer_tree};
    ghost use Rattle.capnp_arena.specs.Steps.Handles.{LentByList};
    ghost use Rattle.capnp_arena.specs.Leaves.{Leaves};
    ghost use Rattle.capnp_arena.specs.Listed.{list_shape, listed_tree};
    ghost use Rattle.capnp_arena.specs.Segment.{segment};
    ghost use Rattle.capnp_arena.specs.Shape.{shape_at, word_count};

    /// This list for a shorter time. What is left there is what this builder has then.
    #[inline(always)]
    pub fn reborrow(&mut self) -> ListBuilder<'_>
        ensures* lends { sem 𝓛 (LentByList self.entry result.arena) }
        ensures now { result.arena.now ≡ self.old.arena.now }
        ensures at { result.at ≡ self.old.at }
        ensures list { result.list ≡ self.old.list }
    {
        let at = self.at;
        let list = self.list;
        let arena = &mut *self.arena;
        ListBuilder { arena, at, list }
    }

    /// A reader of the list, with 64 levels. What it leads to is cut off past 129 levels, which only walks of a
    /// whole tree can see.
    ///
    /// # Conditions
    ///
    /// A tree of the message stands at the list's pointer (`Forest`), and the list is what that leads to, of a null
    /// nothing (`list_shape`).
    #[inline(always)]
    pub fn as_reader(&self) -> ListReader<'_>
        requires forest { Forest (segment self.now.arena.now) self.now.at }
        requires there { shape_at (segment self.now.arena.now) self.now.at ≡ list_shape self.now.list }
        ensures read { list_of result ≡ listed_tree
            (tree_below memory_depth (segment self.now.arena.now ∷ [])
            (segment self.now.arena.now) self.now.at) self.now.list }
        ensures list { IsBelow memory_depth (built_list_tree self.now)
            → list_of result ≡ listed_tree (built_list_tree self.now) self.now.list }
        ensures levels { list_levels result ≡ message_levels }
    {
        self.arena.get_list_reader(self.at, self.list)
    }

    /// A reader of the list for as long as the builder would be there, as `as_reader`. The message stays as it is; only
    /// `Arena::into_list_reader` says so to a caller.
    ///
    /// # Conditions
    ///
    /// A tree of the message stands at the list's pointer (`Forest`), and the list is what that leads to, of a null
    /// nothing (`list_shape`).
    #[inline(always)]
    pub fn into_reader(self) -> ListReader<'a>
        requires forest { Forest (segment self.arena.now) self.at }
        requires there { shape_at (segment self.arena.now) self.at ≡ list_shape self.list }
        ensures read { list_of result ≡ listed_tree
            (tree_below memory_depth (segment self.entry.arena.now ∷ [])
            (segment self.entry.arena.now) self.entry.at) self.entry.list }
        ensures list { IsBelow memory_depth (built_list_tree self.entry)
            → list_of result ≡ listed_tree (built_list_tree self.entry) self.entry.list }
        ensures levels { list_levels result ≡ message_levels }
    {
        let ListBuilder { arena, at, list } = self;
        arena.into_list_reader(at, list)
    }

    /// How many elements there are.
    ///
    /// # Conditions
    ///
    /// A tree of the message stands at the list's pointer (`Forest`), and the list is what that leads to, of a null
    /// nothing (`list_shape`).
    #[inline(always)]
    pub fn len(&self) -> u32
        requires forest { Forest (segment self.now.arena.now) self.now.at }
        requires there { shape_at (segment self.now.arena.now) self.now.at ≡ list_shape self.now.list }
        ensures { result ≡ list_length (built_list_tree self.now) }
    {
        self.arena.count_elements(self.at, self.list)
    }

    /// Whether there is no element.
    ///
    /// # Conditions
    ///
    /// A tree of the message stands at the list's pointer (`Forest`), and the list is what that leads to, of a null
    /// nothing (`list_shape`).
    #[inline(always)]
    pub fn is_empty(&self) -> bool
        requires forest { Forest (segment self.now.arena.now) self.now.at }
        requires there { shape_at (segment self.now.arena.now) self.now.at ≡ list_shape self.now.list }
        ensures { result ≡ (list_length (built_list_tree self.now) == 0) }
    {
        self.arena.count_elements(self.at, self.list) == 0
    }

    /// The size of the elements, as the list has it: of one that is not there yet, the size that was asked (encoding,
    /// "Lists").
    ///
    /// # Conditions
    ///
    /// A tree of the message stands at the list's pointer (`Forest`), and the list is what that leads to, of a null
    /// nothing (`list_shape`).
    #[inline(always)]
    pub fn get_element_size(&self) -> ElementSize
        requires forest { Forest (segment self.now.arena.now) self.now.at }
        requires there { shape_at (segment self.now.arena.now) self.now.at ≡ list_shape self.now.list }
        ensures { result ≡ element_size_of (listed_tree (built_list_tree self.now) self.now.list) }
    {
        self.arena.get_element_size(self.at, self.list)
    }

    /// The bit at `index`; false where the elements are no bits, and past the end.
    ///
    /// # Conditions
    ///
    /// A tree of the message stands at the list's pointer (`Forest`), and the list is what that leads to, of a null
    /// nothing (`list_shape`).
    #[inline(always)]
    pub fn get_bool_element(&self, index: u32) -> bool
        requires forest { Forest (segment self.now.arena.now) self.now.at }
        requires there { shape_at (segment self.now.arena.now) self.now.at ≡ list_shape self.now.list }
        ensures { result ≡ element_bit (built_list_tree self.now) index }
    {
        self.arena.get_bool_element(self.at, self.list, index)
    }

    /// Stores the bit at `index`. No memory is taken.
    ///
    /// # Conditions
    ///
    /// A tree of the message stands at the list's pointer (`Forest`), and is a list with a bit at `index` (`HasBit`).
    #[inline(always)]
    pub fn set_bool_element(&mut self, index: u32, value: bool)
        requires forest { Forest (segment self.old.arena.now) self.old.at }
        requires bit { HasBit (built_list_tree self.old) index }
        ensures same { self.new.arena.ghost_name ≡ self.old.arena.ghost_name }
        ensures at { self.new.at ≡ self.old.at }
        ensures list { self.new.list ≡ self.old.list }
        ensures leaves { Leaves self.old.at (with_bit_element index value (built_list_tree self.old))
            (segment self.old.arena.now) (segment self.new.arena.now) }
        ensures long { length (segment self.new.arena.now) ≡ length (segment self.old.arena.now) }
    {
        self.arena.set_bool_element(self.at, index, value);
    }

    /// The number at `index`: of a struct, that at its start. Zero past the end.
    ///
    /// # Conditions
    ///
    /// A tree of the message stands at the list's pointer (`Forest`), and the list is what that leads to, of a null
    /// nothing (`list_shape`).
    #[inline(always)]
    pub fn get_data_element<T: PrimitiveElement>(&self, index: u32) -> T
        requires forest { Forest (segment self.now.arena.now) self.now.at }
        requires there { shape_at (segment self.now.arena.now) self.now.at ≡ list_shape self.now.list }
        ensures { result ≡ T.of_number (element_number T.width (built_list_tree self.now) index) }
    {
        self.arena.get_data_element(self.at, self.list, index)
    }

    /// Stores the number at `index`: in a struct, at its start. No memory is taken.
    ///
    /// # Conditions
    ///
    /// A tree of the message stands at the list's pointer (`Forest`), and is a list with a number of that width at
    /// `index` (`HasNumber`).
    #[inline(always)]
    pub fn set_data_element<T: PrimitiveElement>(&mut self, index: u32, value: T)
        requires forest { Forest (segment self.old.arena.now) self.old.at }
        requires number { HasNumber T.width (built_list_tree self.old) index }
        ensures same { self.new.arena.ghost_name ≡ self.old.arena.ghost_name }
        ensures at { self.new.at ≡ self.old.at }
        ensures list { self.new.list ≡ self.old.list }
        ensures leaves { Leaves self.old.at (with_number_element T.width index (T.to_number value)
            (built_list_tree self.old)) (segment self.old.arena.now) (segment self.new.arena.now) }
        ensures long { length (segment self.new.arena.now) ≡ length (segment self.old.arena.now) }
    {
        self.arena.set_data_element(self.at, index, value);
    }

    /// The struct at `index` of a list of structs.
    ///
    /// # Conditions
    ///
    /// A tree of the message stands at the list's pointer (`Forest`), and is a list with a struct at `index`
    /// (`HasStruct`).
    #[inline(always)]
    pub fn get_struct_element(self, index: u32) -> StructBuilder<'a>
        requires forest { Forest (segment self.arena.now) self.at }
        requires there { HasStruct (built_list_tree self) index }
        ensures same { result.arena.ghost_name ≡ self.entry.arena.ghost_name }
        ensures now { result.arena.now ≡ self.entry.arena.now }
        ensures planted { IsBuiltStruct result }
        ensures tree { built_struct_tree result ≡ element_struct (built_list_tree self.entry) index }
        ensures leaves { (new : List ℕ) → Planted new (handle_words result.place)
            → PartChanges (handle_words result.place) (segment self.entry.arena.now) new
            → Leaves self.entry.at (with_struct_element index
            (struct_from new result.place.start result.place.data_words result.place.pointers) (built_list_tree self.entry))
            (segment self.entry.arena.now) new }
    {
        let ListBuilder { arena, at, list: _ } = self;
        let place = arena.get_struct_at(at, index);
        StructBuilder { arena, place }
    }

    /// The struct at `index` for a shorter time. What is left there is what this builder has then.
    ///
    /// # Conditions
    ///
    /// A tree of the message stands at the list's pointer (`Forest`), and is a list with a struct at `index`
    /// (`HasStruct`).
    #[inline(always)]
    pub fn struct_element_mut(&mut self, index: u32) -> StructBuilder<'_>
        requires forest { Forest (segment self.old.arena.now) self.old.at }
        requires there { HasStruct (built_list_tree self.old) index }
        ensures* lends { sem 𝓛 (LentByList self.entry result.arena) }
        ensures now { result.arena.now ≡ self.old.arena.now }
        ensures planted { IsBuiltStruct result }
        ensures tree { built_struct_tree result ≡ element_struct (built_list_tree self.old) index }
        ensures leaves { (new : List ℕ) → Planted new (handle_words result.place)
            → PartChanges (handle_words result.place) (segment self.old.arena.now) new
            → Leaves self.old.at (with_struct_element index
            (struct_from new result.place.start result.place.data_words result.place.pointers) (built_list_tree self.old))
            (segment self.old.arena.now) new }
    {
        let place = self.arena.get_struct_at(self.at, index);
        let arena = &mut *self.arena;
        StructBuilder { arena, place }
    }

    /// The pointer at `index`: of a list of structs, the first of the struct.
    ///
    /// # Conditions
    ///
    /// A tree of the message stands at the list's pointer (`Forest`), and is a list with a pointer at `index`
    /// (`HasPointer`).
    #[inline(always)]
    pub fn get_pointer_element(self, index: u32) -> PointerBuilder<'a>
        requires forest { Forest (segment self.arena.now) self.at }
        requires pointer { HasPointer (built_list_tree self) index }
        ensures same { result.arena.ghost_name ≡ self.entry.arena.ghost_name }
        ensures now { result.arena.now ≡ self.entry.arena.now }
        ensures inside { result.at < word_count (segment self.entry.arena.now) }
        ensures forest { IsBuiltPointer result }
        ensures tree { built_pointer_tree result ≡ element_pointer (built_list_tree self.entry) index 1 }
        ensures leaves { (new : List ℕ) → Forest new result.at → Changes result.at (segment self.entry.arena.now) new
            → Leaves self.entry.at (with_pointer_element index (tree new result.at) (built_list_tree self.entry))
            (segment self.entry.arena.now) new }
    {
        let ListBuilder { arena, at, list: _ } = self;
        let at = arena.get_pointer_element(at, index);
        PointerBuilder { arena, at }
    }

    /// The pointer at `index` for a shorter time. What is left there is what this builder has then.
    ///
    /// # Conditions
    ///
    /// A tree of the message stands at the list's pointer (`Forest`), and is a list with a pointer at `index`
    /// (`HasPointer`).
    #[inline(always)]
    pub fn pointer_element_mut(&mut self, index: u32) -> PointerBuilder<'_>
        requires forest { Forest (segment self.old.arena.now) self.old.at }
        requires pointer { HasPointer (built_list_tree self.old) index }
        ensures* lends { sem 𝓛 (LentByList self.entry result.arena) }
        ensures now { result.arena.now ≡ self.old.arena.now }
        ensures inside { result.at < word_count (segment self.old.arena.now) }
        ensures forest { IsBuiltPointer result }
        ensures tree { built_pointer_tree result ≡ element_pointer (built_list_tree self.old) index 1 }
        ensures leaves { (new : List ℕ) → Forest new result.at → Changes result.at (segment self.old.arena.now) new
            → Leaves self.old.at (with_pointer_element index (tree new result.at) (built_list_tree self.old))
            (segment self.old.arena.now) new }
    {
        let at = self.arena.get_pointer_element(self.at, index);
        let arena = &mut *self.arena;
        PointerBuilder { arena, at }
    }
}
