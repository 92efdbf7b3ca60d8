//! Elements of lists, read where they stand, whatever the list was got as.

use crate::append::get_part;
use crate::arena::Arena;
use crate::list_reads::ListTarget;
use crate::lists::{ListPlace, StructsPlace, get_width};
use crate::struct_lists::get_number;
use capnp_wire::parts::elements::bit_at;
use capnp_wire::parts::found::Found;
use capnp_wire::primitive::PrimitiveElement;

impl Arena {
    ghost use Rattle.std.specs.Prelude.{ℕ, ◌≡◌};
    ghost use Rattle.capnp_wire.specs.Reading.{element_bit, element_number, element_struct};
    ghost use Rattle.capnp_wire.specs.Slot.{number_at};
    ghost use Rattle.capnp_arena.specs.Forest.{Forest, tree};
    ghost use Rattle.capnp_arena.specs.Listed.{list_shape};
    ghost use Rattle.capnp_arena.specs.Made.{size_number};
    ghost use Rattle.capnp_arena.specs.Segment.{segment};
    ghost use Rattle.capnp_arena.specs.Shape.{CompositeIn, ListIn, shape_at};

    /// The bytes of a list of numbers, none of another list that is not of structs.
    #[inline(always)]
    fn get_number_bytes(&self, at: usize, list: ListPlace) -> &[u8]
        requires forest { Forest (segment self.now) at }
        requires there { shape_at (segment self.now) at ≡ ListIn list.start (size_number list.size) list.count }
        ensures { (width index : ℕ) → number_at width index result.now
            ≡ element_number width (tree (segment self.now) at) index }
    {
        get_part(
            self.bytes.as_slice(),
            list.start,
            get_width(list.size) * list.count as usize,
        )
    }

    /// The data of a struct of a list, none past its end.
    #[inline(always)]
    fn get_first_bytes(&self, at: usize, list: StructsPlace, index: u32) -> &[u8]
        requires forest { Forest (segment self.now) at }
        requires there { shape_at (segment self.now) at
            ≡ CompositeIn list.tag list.count list.data_words list.pointers }
        ensures { result.now ≡ (element_struct (tree (segment self.now) at) index).bytes }
    {
        if index >= list.count {
            return &[];
        }
        self.get_data_bytes(self.get_struct_element(at, list, index))
    }

    /// The number at `index`: of a struct, that at its start. Zero past the end.
    ///
    /// # Conditions
    ///
    /// The pointer at the word leads to a tree of this message, no two of whose parts share a word (`Forest`). `list`
    /// is what that pointer leads to, of a null nothing (`list_shape`).
    #[inline(always)]
    pub fn get_data_element<T: PrimitiveElement>(
        &self,
        at: usize,
        list: ListTarget,
        index: u32,
    ) -> T
        requires forest { Forest (segment self.now) at }
        requires there { shape_at (segment self.now) at ≡ list_shape list }
        ensures { result ≡ T.of_number (element_number T.width (tree (segment self.now) at) index) }
    {
        match list {
            ListTarget::Nothing(_) => T::read(&[], 0),
            ListTarget::Plain(plain) => T::read(self.get_number_bytes(at, plain), index),
            ListTarget::Structs(structs) => T::read(self.get_first_bytes(at, structs, index), 0),
        }
    }

    /// The bit at `index` of a list that is not of structs.
    #[inline(always)]
    fn get_plain_bit(&self, at: usize, list: ListPlace, index: u32) -> bool
        requires forest { Forest (segment self.now) at }
        requires there { shape_at (segment self.now) at ≡ ListIn list.start (size_number list.size) list.count }
        ensures { result ≡ element_bit (tree (segment self.now) at) index }
    {
        if get_number(list.size) != 1 {
            return false;
        }
        let words = (list.count as usize + 63) / 64;
        let bytes = get_part(self.bytes.as_slice(), list.start, 8 * words);
        bit_at(Found::Bits(bytes, list.count), index)
    }

    /// The bit at `index`; false where the elements are no bits, and past the end.
    ///
    /// # Conditions
    ///
    /// The pointer at the word leads to a tree of this message, no two of whose parts share a word (`Forest`). `list`
    /// is what that pointer leads to, of a null nothing (`list_shape`).
    #[inline(always)]
    pub fn get_bool_element(&self, at: usize, list: ListTarget, index: u32) -> bool
        requires forest { Forest (segment self.now) at }
        requires there { shape_at (segment self.now) at ≡ list_shape list }
        ensures { result ≡ element_bit (tree (segment self.now) at) index }
    {
        match list {
            ListTarget::Nothing(_) => false,
            ListTarget::Plain(plain) => self.get_plain_bit(at, plain, index),
            ListTarget::Structs(_) => false,
        }
    }
}
