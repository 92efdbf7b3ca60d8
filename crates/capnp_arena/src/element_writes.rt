//! Elements of lists that are built, by the pointer that leads to the list.

use crate::arena::{Arena, Place};
use crate::list_reads::get_element_size;
use crate::lists::{ListPlace, StructsPlace, get_width};
use crate::look::Target;
use crate::spell::{write_bit, write_number};
use capnp_wire::primitive::PrimitiveElement;

impl Arena {
    ghost use Rattle.std.specs.Prelude.{List, ℕ, ◌*◌, ◌+◌, ◌/◌, ◌<◌, ◌≡◌, length};
    ghost use Rattle.capnp_wire.specs.Elements.{HasBit, HasNumber, HasPointer, HasStruct, with_bit_element, with_number_element, with_pointer_element, with_struct_element};
    ghost use Rattle.capnp_wire.specs.Reading.{element_pointer, element_struct};
    ghost use Rattle.capnp_arena.specs.Forest.{Changes, Forest, PartChanges, Planted, struct_from, tree};
    ghost use Rattle.capnp_arena.specs.Leaves.{Leaves};
    ghost use Rattle.capnp_arena.specs.Made.{size_number};
    ghost use Rattle.capnp_arena.specs.Segment.{segment};
    ghost use Rattle.capnp_arena.specs.Shape.{ListIn, StructIn, shape_at, word_count};

    /// The word of a pointer of the list that the pointer at a word leads to: of a list of structs, the first pointer
    /// of the struct.
    ///
    /// # Conditions
    ///
    /// The pointer at the word leads to a tree of this message, no two of whose parts share a word (`Forest`). That is
    /// a list with a pointer at `index` (`HasPointer`).
    #[inline(always)]
    pub fn get_pointer_element(&self, at: usize, index: u32) -> usize
        requires forest { Forest (segment self.now) at }
        requires pointer { HasPointer (tree (segment self.now) at) index }
        ensures inside { result < word_count (segment self.now) }
        ensures forest { Forest (segment self.now) result }
        ensures tree { tree (segment self.now) result ≡ element_pointer (tree (segment self.now) at) index 1 }
        ensures leaves { (new : List ℕ) → Forest new result → Changes result (segment self.now) new
            → Leaves at (with_pointer_element index (tree new result) (tree (segment self.now) at))
            (segment self.now) new }
    {
        match self.look(at) {
            Target::Null => unreachable!(),
            Target::Struct { .. } => unreachable!(),
            Target::List { start, .. } => start + index as usize,
            Target::Composite {
                tag,
                count: _,
                data_words,
                pointers,
            } => {
                let step = data_words as usize + pointers as usize;
                tag + 1 + index as usize * step + data_words as usize
            }
        }
    }

    /// Where a struct of the list that the pointer at a word leads to stands.
    ///
    /// # Conditions
    ///
    /// The pointer at the word leads to a tree of this message, no two of whose parts share a word (`Forest`). That is
    /// a list with a struct at `index` (`HasStruct`).
    #[inline(always)]
    pub fn get_struct_at(&self, at: usize, index: u32) -> Place
        requires forest { Forest (segment self.now) at }
        requires there { HasStruct (tree (segment self.now) at) index }
        ensures planted { Planted (segment self.now) (StructIn result.start result.data_words result.pointers) }
        ensures tree { struct_from (segment self.now) result.start result.data_words result.pointers
            ≡ element_struct (tree (segment self.now) at) index }
        ensures leaves { (new : List ℕ) → Planted new (StructIn result.start result.data_words result.pointers)
            → PartChanges (StructIn result.start result.data_words result.pointers) (segment self.now) new
            → Leaves at (with_struct_element index (struct_from new result.start result.data_words result.pointers)
            (tree (segment self.now) at)) (segment self.now) new }
    {
        match self.look(at) {
            Target::Null => unreachable!(),
            Target::Struct { .. } => unreachable!(),
            Target::List { .. } => unreachable!(),
            Target::Composite {
                tag,
                count,
                data_words,
                pointers,
            } => {
                let list = StructsPlace {
                    tag,
                    count,
                    data_words,
                    pointers,
                };
                self.get_struct_element(at, list, index)
            }
        }
    }

    /// Stores a number in a list that is not of structs.
    fn set_plain_number<T: PrimitiveElement>(
        &mut self,
        at: usize,
        list: ListPlace,
        index: u32,
        value: T,
    )
        requires forest { Forest (segment self.old) at }
        requires there { shape_at (segment self.old) at ≡ ListIn list.start (size_number list.size) list.count }
        requires number { HasNumber T.width (tree (segment self.old) at) index }
        ensures leaves { Leaves at (with_number_element T.width index (T.to_number value) (tree (segment self.old) at))
            (segment self.old) (segment self.new) }
        ensures long { length (segment self.new) ≡ length (segment self.old) }
    {
        write_number(
            &mut self.bytes,
            8 * list.start,
            get_width(list.size) * list.count as usize,
            index,
            value,
        );
    }

    /// Stores the number at `index` of the list that the pointer at a word leads to: in a struct, at its start. No
    /// memory is taken.
    ///
    /// # Conditions
    ///
    /// The pointer at the word leads to a tree of this message, no two of whose parts share a word (`Forest`). That is
    /// a list with a number of that width at `index` (`HasNumber`).
    pub fn set_data_element<T: PrimitiveElement>(&mut self, at: usize, index: u32, value: T)
        requires forest { Forest (segment self.old) at }
        requires number { HasNumber T.width (tree (segment self.old) at) index }
        ensures leaves { Leaves at (with_number_element T.width index (T.to_number value) (tree (segment self.old) at))
            (segment self.old) (segment self.new) }
        ensures long { length (segment self.new) ≡ length (segment self.old) }
    {
        match self.look(at) {
            Target::Null => unreachable!(),
            Target::Struct { .. } => unreachable!(),
            Target::List {
                start,
                element_size,
                count,
            } => {
                let size = get_element_size(element_size);
                let list = ListPlace { start, size, count };
                self.set_plain_number(at, list, index, value)
            }
            Target::Composite { .. } => {
                let place = self.get_struct_at(at, index);
                self.set_number(place, 0, value)
            }
        }
    }

    /// Stores the bit at `index` of the list that the pointer at a word leads to. No memory is taken.
    ///
    /// # Conditions
    ///
    /// The pointer at the word leads to a tree of this message, no two of whose parts share a word (`Forest`). That is
    /// a list with a bit at `index` (`HasBit`).
    pub fn set_bool_element(&mut self, at: usize, index: u32, value: bool)
        requires forest { Forest (segment self.old) at }
        requires bit { HasBit (tree (segment self.old) at) index }
        ensures leaves { Leaves at (with_bit_element index value (tree (segment self.old) at)) (segment self.old)
            (segment self.new) }
        ensures long { length (segment self.new) ≡ length (segment self.old) }
    {
        let Target::List {
            start,
            element_size: _,
            count,
        } = self.look(at)
        else {
            unreachable!()
        };
        let words = (count as usize + 63) / 64;
        write_bit(&mut self.bytes, 8 * start, 8 * words, index as usize, value);
    }
}
