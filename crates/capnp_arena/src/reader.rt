//! The segment, read where it lies by the code that reads what is received.
ghost use Rattle.std.specs.Prelude.{ℕ, ◌+◌, ◌^◌, ◌<◌, ◌≤◌};
ghost use Rattle.capnp_wire.specs.Depth.{message_levels};
ghost use Rattle.capnp_wire.specs.Place.{struct_tree};
ghost use Rattle.capnp_wire.specs.WellFormed.{IsWellFormed};
ghost use Rattle.capnp_arena.specs.Forest.{struct_from, tree};
ghost use Rattle.capnp_arena.specs.Shape.{word_count};

use crate::arena::{Arena, Place};
use crate::list_reads::ListTarget;
use capnp_wire::laws::pointer_is_well_formed;
use capnp_wire::parts::pointer::{MEMORY_DEPTH, MESSAGE_LEVELS, look};
use capnp_wire::size::StructSize;
use capnp_wire::{ListReader, PointerReader, StructReader};

/// What stands in the words of a segment is well-formed.
fn words_are_well_formed(_words: &[u8])
    ensures trees { (w : ℕ) → IsWellFormed (tree _words.now w) }
    ensures structs { (a d p : ℕ) → d < 2 ^ 16 → p < 2 ^ 16 → a + d ≤ word_count _words.now
        → IsWellFormed (struct_tree (struct_from _words.now a d p)) }
{}

impl Arena {
    ghost use Rattle.std.specs.Prelude.{None, [], ◌∷◌, ◌≡◌};
    ghost use Rattle.capnp_wire.specs.Words.{first_fault, first_fault_of_all};
    ghost use Rattle.capnp_wire.specs.Depth.{AreBelow, IsBelow, memory_depth};
    ghost use Rattle.capnp_wire.specs.Place.{struct_at, tree_at, tree_below};
    ghost use Rattle.capnp_wire.specs.Reading.{as_data, as_text};
    ghost use Rattle.std.specs.Borrow.{sem};
    ghost use Rattle.capnp_wire.specs.Standing.{levels_of, list_levels, list_of, struct_levels, struct_of, tree_of};
    ghost use Rattle.capnp_arena.specs.Steps.Ends.{EndsUnchanged};
    ghost use Rattle.capnp_arena.specs.Forest.{Forest, Planted};
    ghost use Rattle.capnp_arena.specs.Listed.{list_shape, listed_tree};
    ghost use Rattle.capnp_arena.specs.Same.{IsCutOf, IsStructCutOf};
    ghost use Rattle.capnp_arena.specs.Segment.{segment};
    ghost use Rattle.capnp_arena.specs.Shape.{StructIn, shape_at};

    /// A reader of the pointer at a word, with 64 levels. Its tree is cut off past 129 levels, which only walks of a
    /// whole tree can see.
    ///
    /// # Conditions
    ///
    /// The pointer at the word leads to a tree of this message, no two of whose parts share a word (`Forest`).
    pub fn get_pointer_reader(&self, at: usize) -> PointerReader<'_>
        requires forest { Forest (segment self.now) at }
        ensures read { tree_of result ≡ tree_below memory_depth (segment self.now ∷ []) (segment self.now) at }
        ensures cut { IsCutOf (tree_of result) (tree (segment self.now) at) }
        ensures tree { IsBelow memory_depth (tree (segment self.now) at) → tree_of result ≡ tree (segment self.now) at }
        ensures levels { levels_of result ≡ message_levels }
    {
        PointerReader::of_word(self.bytes.as_slice(), at, MEMORY_DEPTH, MESSAGE_LEVELS)
    }

    /// A reader of whatever stands at a word, whether or not that is a tree, with 64 levels, as of what is received: of
    /// a text and of data it has the bytes.
    pub fn peek(&self, at: usize) -> PointerReader<'_>
        ensures read { tree_of result ≡ tree_at message_levels (segment self.now ∷ []) (segment self.now) at }
        ensures text { Forest (segment self.now) at → as_text (tree_of result) ≡ as_text (tree (segment self.now) at) }
        ensures data { Forest (segment self.now) at → as_data (tree_of result) ≡ as_data (tree (segment self.now) at) }
        ensures levels { levels_of result ≡ message_levels }
    {
        let levels = MESSAGE_LEVELS;
        PointerReader::of_word(self.bytes.as_slice(), at, levels + 1, levels)
    }

    /// A reader of whatever stands at a word for as long as the message is lent, which stays as it is.
    ///
    /// # Conditions
    ///
    /// The pointer at the word leads to a tree of this message, no two of whose parts share a word (`Forest`).
    pub fn into_pointer_reader(&mut self, at: usize) -> PointerReader<'_>
        requires forest { Forest (segment self.old) at }
        ensures* ends { sem 𝓛 (EndsUnchanged self.entry) }
        ensures read { tree_of result ≡ tree_below memory_depth (segment self.old ∷ []) (segment self.old) at }
        ensures tree { IsBelow memory_depth (tree (segment self.old) at) → tree_of result ≡ tree (segment self.old) at }
        ensures levels { levels_of result ≡ message_levels }
    {
        self.get_pointer_reader(at)
    }

    /// A reader of a struct, with 64 levels. What its pointers lead to is cut off as by `get_pointer_reader`.
    ///
    /// # Conditions
    ///
    /// The place is that of a struct of this message (`Planted`).
    pub fn get_struct_reader(&self, place: Place) -> StructReader<'_>
        requires planted { Planted (segment self.now) (StructIn place.start place.data_words place.pointers) }
        ensures read { struct_of result ≡ struct_at (tree_below memory_depth (segment self.now ∷ []) (segment self.now))
            (segment self.now) place.data_words place.pointers place.start }
        ensures cut { IsStructCutOf (struct_of result)
            (struct_from (segment self.now) place.start place.data_words place.pointers) }
        ensures parts { AreBelow memory_depth (struct_from
            (segment self.now) place.start place.data_words place.pointers).pointers
            → struct_of result ≡ struct_from (segment self.now) place.start place.data_words place.pointers }
        ensures levels { struct_levels result ≡ message_levels }
    {
        let size = StructSize {
            data_words: place.data_words,
            pointers: place.pointers,
        };
        StructReader::of_words(
            self.bytes.as_slice(),
            place.start,
            size,
            MEMORY_DEPTH,
            MESSAGE_LEVELS,
        )
    }

    /// A reader of a struct for as long as the message is lent, which stays as it is.
    ///
    /// # Conditions
    ///
    /// The place is that of a struct of this message (`Planted`).
    pub fn into_struct_reader(&mut self, place: Place) -> StructReader<'_>
        requires planted { Planted (segment self.old) (StructIn place.start place.data_words place.pointers) }
        ensures* ends { sem 𝓛 (EndsUnchanged self.entry) }
        ensures read { struct_of result ≡ struct_at (tree_below memory_depth (segment self.old ∷ []) (segment self.old))
            (segment self.old) place.data_words place.pointers place.start }
        ensures parts { AreBelow memory_depth (struct_from
            (segment self.old) place.start place.data_words place.pointers).pointers
            → struct_of result ≡ struct_from (segment self.old) place.start place.data_words place.pointers }
        ensures levels { struct_levels result ≡ message_levels }
    {
        self.get_struct_reader(place)
    }

    /// A reader of the list that the pointer at a word leads to, with 64 levels: of a null, of the list without
    /// elements that was got. What it leads to is cut off as by `get_pointer_reader`.
    ///
    /// # Conditions
    ///
    /// The pointer at the word leads to a tree of this message, no two of whose parts share a word (`Forest`). `list`
    /// is what that pointer leads to, of a null nothing (`list_shape`).
    pub fn get_list_reader(&self, at: usize, list: ListTarget) -> ListReader<'_>
        requires forest { Forest (segment self.now) at }
        requires there { shape_at (segment self.now) at ≡ list_shape list }
        ensures read { list_of result ≡ listed_tree
            (tree_below memory_depth (segment self.now ∷ []) (segment self.now) at) list }
        ensures list { IsBelow memory_depth (tree (segment self.now) at)
            → list_of result ≡ listed_tree (tree (segment self.now) at) list }
        ensures levels { list_levels result ≡ message_levels }
    {
        let size = self.get_element_size(at, list);
        let levels = MESSAGE_LEVELS + 1;
        let reader = PointerReader::of_word(self.bytes.as_slice(), at, MEMORY_DEPTH, levels);
        let Ok(list) = reader.get_list(size) else {
            unreachable!()
        };
        list
    }

    /// A reader of the list that a pointer leads to for as long as the message is lent, which stays as it is.
    ///
    /// # Conditions
    ///
    /// The pointer at the word leads to a tree of this message, no two of whose parts share a word (`Forest`). `list`
    /// is what that pointer leads to, of a null nothing (`list_shape`).
    pub fn into_list_reader(&mut self, at: usize, list: ListTarget) -> ListReader<'_>
        requires forest { Forest (segment self.old) at }
        requires there { shape_at (segment self.old) at ≡ list_shape list }
        ensures* ends { sem 𝓛 (EndsUnchanged self.entry) }
        ensures read { list_of result ≡ listed_tree
            (tree_below memory_depth (segment self.old ∷ []) (segment self.old) at) list }
        ensures list { IsBelow memory_depth (tree (segment self.old) at)
            → list_of result ≡ listed_tree (tree (segment self.old) at) list }
        ensures levels { list_levels result ≡ message_levels }
    {
        self.get_list_reader(at, list)
    }

    /// A reader of the list that the pointer at a word leads to, as it stands, with 64 levels. It is cut off as by
    /// `get_pointer_reader`.
    ///
    /// # Conditions
    ///
    /// The pointer at the word leads to a tree of this message, no two of whose parts share a word (`Forest`).
    pub fn list_reader(&self, at: usize) -> ListReader<'_>
        requires forest { Forest (segment self.now) at }
        ensures cut { IsCutOf (list_of result) (tree (segment self.now) at) }
        ensures levels { list_levels result ≡ message_levels }
    {
        let pointer = self.get_pointer_reader(at);
        pointer_is_well_formed(&pointer);
        ListReader::new(look(pointer.pointer()), MESSAGE_LEVELS)
    }

    /// What a pointer of the segment leads to is well-formed, and each pointer in it can be followed.
    ///
    /// # Conditions
    ///
    /// The pointer at the word leads to a tree of this message, no two of whose parts share a word (`Forest`).
    pub fn tree_is_sound(&self, at: usize)
        requires { Forest (segment self.now) at }
        ensures formed { IsWellFormed (tree (segment self.now) at) }
        ensures whole { first_fault (tree (segment self.now) at) ≡ None }
    {
        words_are_well_formed(self.bytes.as_slice());
    }

    /// So is a struct.
    ///
    /// # Conditions
    ///
    /// The place is that of a struct of this message (`Planted`).
    pub fn struct_is_sound(&self, place: Place)
        requires { Planted (segment self.now) (StructIn place.start place.data_words place.pointers) }
        ensures formed { IsWellFormed (struct_tree
            (struct_from (segment self.now) place.start place.data_words place.pointers)) }
        ensures whole { first_fault_of_all (struct_from
            (segment self.now) place.start place.data_words place.pointers).pointers ≡ None }
    {
        words_are_well_formed(self.bytes.as_slice());
    }

    /// A reader of the root pointer, as `get_pointer_reader`.
    ///
    /// # Conditions
    ///
    /// A tree stands at the message's root (`Forest`).
    pub fn as_reader(&self) -> PointerReader<'_>
        requires forest { Forest (segment self.now) 0 }
        ensures read { tree_of result ≡ tree_below memory_depth (segment self.now ∷ []) (segment self.now) 0 }
        ensures tree { IsBelow memory_depth (tree (segment self.now) 0) → tree_of result ≡ tree (segment self.now) 0 }
        ensures levels { levels_of result ≡ message_levels }
    {
        self.get_pointer_reader(0)
    }
}
