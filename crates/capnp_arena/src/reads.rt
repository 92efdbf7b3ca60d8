//! What is read in a message in memory, where it stands.
ghost use Rattle.std.specs.Prelude.{◌≡◌};
ghost use Rattle.capnp_arena.specs.Steps.Looked.{shape_found};
ghost use Rattle.capnp_arena.specs.Steps.Reads.{is_list_shape, is_no_shape, is_struct_shape};

use crate::append::get_part;
use crate::arena::{Arena, Place};
use crate::look::Target;
use crate::target::look;
use capnp_wire::parts::bytes::get_bit;
use capnp_wire::primitive::PrimitiveElement;
use capnp_wire::size::StructSize;

impl Target {
    #[inline(always)]
    fn is_null(self) -> bool
        ensures { result ≡ is_no_shape (shape_found self) }
    {
        match self {
            Target::Null => true,
            Target::Struct { .. } => false,
            Target::List { .. } => false,
            Target::Composite { .. } => false,
        }
    }

    #[inline(always)]
    fn is_struct(self) -> bool
        ensures { result ≡ is_struct_shape (shape_found self) }
    {
        match self {
            Target::Null => false,
            Target::Struct { .. } => true,
            Target::List { .. } => false,
            Target::Composite { .. } => false,
        }
    }

    #[inline(always)]
    fn is_list(self) -> bool
        ensures { result ≡ is_list_shape (shape_found self) }
    {
        match self {
            Target::Null => false,
            Target::Struct { .. } => false,
            Target::List { .. } => true,
            Target::Composite { .. } => true,
        }
    }
}

impl Arena {
    ghost use Rattle.std.specs.Prelude.{IsTrue, bit_xor, length, ◌*◌, ◌+◌, ◌/◌, ◌<◌};
    ghost use Rattle.capnp_wire.specs.Edits.{is_struct};
    ghost use Rattle.capnp_wire.specs.Reading.{is_list, is_null_tree};
    ghost use Rattle.capnp_wire.specs.Slot.{bit_at, masked_bit, number_at};
    ghost use Rattle.capnp_wire.specs.Tree.{nth_tree, tree_count};
    ghost use Rattle.capnp_arena.specs.Forest.{Forest, Planted, struct_from, tree};
    ghost use Rattle.capnp_arena.specs.Segment.{segment};
    ghost use Rattle.capnp_arena.specs.Shape.{Points, StructIn, shape_at};

    /// Where a pointer leads.
    #[inline(always)]
    pub(crate) fn look(&self, at: usize) -> Target
        requires { Forest (segment self.now) at }
        ensures shape { shape_found result ≡ shape_at (segment self.now) at }
        ensures points { Points (segment self.now) at (shape_found result) }
    {
        look(self.bytes.as_slice(), at)
    }

    /// Whether the pointer at a word is null.
    ///
    /// # Conditions
    ///
    /// The pointer at the word leads to a tree of this message, no two of whose parts share a word (`Forest`).
    #[inline(always)]
    pub fn is_null(&self, at: usize) -> bool
        requires { Forest (segment self.now) at }
        ensures { result ≡ is_null_tree (tree (segment self.now) at) }
    {
        self.look(at).is_null()
    }

    /// Whether it leads to a struct.
    ///
    /// # Conditions
    ///
    /// The pointer at the word leads to a tree of this message, no two of whose parts share a word (`Forest`).
    #[inline(always)]
    pub fn is_struct(&self, at: usize) -> bool
        requires { Forest (segment self.now) at }
        ensures { result ≡ is_struct (tree (segment self.now) at) }
    {
        self.look(at).is_struct()
    }

    /// Whether it leads to a list.
    ///
    /// # Conditions
    ///
    /// The pointer at the word leads to a tree of this message, no two of whose parts share a word (`Forest`).
    #[inline(always)]
    pub fn is_list(&self, at: usize) -> bool
        requires { Forest (segment self.now) at }
        ensures { result ≡ is_list (tree (segment self.now) at) }
    {
        self.look(at).is_list()
    }

    /// The struct that the pointer at a word leads to.
    ///
    /// # Conditions
    ///
    /// The pointer at the word leads to a tree of this message, no two of whose parts share a word (`Forest`). That is
    /// a struct, as `is_struct` says.
    #[inline(always)]
    pub fn struct_here(&self, at: usize) -> Place
        requires forest { Forest (segment self.now) at }
        requires there { IsTrue (is_struct (tree (segment self.now) at)) }
        ensures place { shape_at (segment self.now) at ≡ StructIn result.start result.data_words result.pointers }
    {
        match self.look(at) {
            Target::Null => unreachable!(),
            Target::Struct {
                start,
                data_words,
                pointers,
            } => Place {
                start,
                data_words,
                pointers,
            },
            Target::List { .. } => unreachable!(),
            Target::Composite { .. } => unreachable!(),
        }
    }

    /// How many words the data of a struct has and how many pointers there are.
    ///
    /// # Conditions
    ///
    /// The place is that of a struct of this message (`Planted`).
    pub fn get_size(&self, place: Place) -> StructSize
        requires { Planted (segment self.now) (StructIn place.start place.data_words place.pointers) }
        ensures data { result.data_words ≡ length
            (struct_from (segment self.now) place.start place.data_words place.pointers).bytes / 8 }
        ensures pointers { result.pointers ≡ tree_count
            (struct_from (segment self.now) place.start place.data_words place.pointers).pointers }
    {
        StructSize {
            data_words: place.data_words,
            pointers: place.pointers,
        }
    }

    /// The data of a struct.
    #[inline(always)]
    pub(crate) fn get_data_bytes(&self, place: Place) -> &[u8]
        requires { Planted (segment self.now) (StructIn place.start place.data_words place.pointers) }
        ensures { result.now ≡ (struct_from (segment self.now) place.start place.data_words place.pointers).bytes }
    {
        get_part(
            self.bytes.as_slice(),
            place.start,
            8 * place.data_words as usize,
        )
    }

    /// The number at `offset`, in units of its own size, as it is stored; zero bits past the end.
    ///
    /// # Conditions
    ///
    /// The place is that of a struct of this message (`Planted`).
    #[inline(always)]
    pub fn get_data_field<T: PrimitiveElement>(&self, place: Place, offset: u32) -> T
        requires { Planted (segment self.now) (StructIn place.start place.data_words place.pointers) }
        ensures { result ≡ T.of_number (number_at T.width offset
            (struct_from (segment self.now) place.start place.data_words place.pointers).bytes) }
    {
        T::read(self.get_data_bytes(place), offset)
    }

    /// The number at `offset`, in units of its own size, where it is stored XORed with its default `mask`; past the end
    /// it is `mask`.
    ///
    /// # Conditions
    ///
    /// The place is that of a struct of this message (`Planted`).
    #[inline(always)]
    pub fn get_data_field_mask<T: PrimitiveElement>(&self, place: Place, offset: u32, mask: T) -> T
        requires { Planted (segment self.now) (StructIn place.start place.data_words place.pointers) }
        ensures { result ≡ T.of_number (bit_xor (number_at T.width offset
            (struct_from (segment self.now) place.start place.data_words place.pointers).bytes) (T.to_number mask)) }
    {
        T::read_masked(self.get_data_bytes(place), offset, mask)
    }

    /// The bit at `offset`, counted from the lowest of the first byte, as it is stored; false past the end.
    ///
    /// # Conditions
    ///
    /// The place is that of a struct of this message (`Planted`).
    #[inline(always)]
    pub fn get_bool_field(&self, place: Place, offset: u32) -> bool
        requires { Planted (segment self.now) (StructIn place.start place.data_words place.pointers) }
        ensures { result
            ≡ bit_at (struct_from (segment self.now) place.start place.data_words place.pointers).bytes offset }
    {
        get_bit(self.get_data_bytes(place), offset as usize)
    }

    /// The bit at `offset`, counted from the lowest of the first byte, where it is stored XORed with its default
    /// `mask`; past the end it is `mask`.
    ///
    /// # Conditions
    ///
    /// The place is that of a struct of this message (`Planted`).
    #[inline(always)]
    pub fn get_bool_field_mask(&self, place: Place, offset: u32, mask: bool) -> bool
        requires { Planted (segment self.now) (StructIn place.start place.data_words place.pointers) }
        ensures { result ≡ masked_bit (bit_at (struct_from
            (segment self.now) place.start place.data_words place.pointers).bytes offset) mask }
    {
        self.get_bool_field(place, offset) != mask
    }

    /// The word of a struct's pointer.
    ///
    /// # Conditions
    ///
    /// The place is that of a struct of this message (`Planted`), and `index` is below the number of its pointers.
    #[inline(always)]
    pub fn get_pointer_field(&self, place: Place, index: u16) -> usize
        requires planted { Planted (segment self.now) (StructIn place.start place.data_words place.pointers) }
        requires inside { index < place.pointers }
        ensures word { result ≡ place.start + place.data_words + index }
        ensures forest { Forest (segment self.now) result }
        ensures tree { tree (segment self.now) result
            ≡ nth_tree (struct_from (segment self.now) place.start place.data_words place.pointers).pointers index }
    {
        place.start + place.data_words as usize + index as usize
    }
}
