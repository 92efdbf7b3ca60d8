//! Elements of lists that are not of structs.
ghost use Rattle.std.specs.Prelude.{◌≡◌};
ghost use Rattle.capnp_arena.specs.Made.{width_of};

use crate::arena::{Arena, Place};
use crate::spell::{write_bit, write_number};
use capnp_wire::primitive::PrimitiveElement;
use capnp_wire::size::ElementSize;

/// Where a list starts that is not of structs, and what its elements are.
#[derive(Clone, Copy)]
pub struct ListPlace {
    pub start: usize,
    pub size: ElementSize,
    pub count: u32,
}

/// Where the tag of a list of structs stands, and what its elements are.
#[derive(Clone, Copy)]
pub struct StructsPlace {
    pub tag: usize,
    pub count: u32,
    pub data_words: u16,
    pub pointers: u16,
}

/// The bytes of an element that is a number.
#[inline(always)]
pub fn get_width(size: ElementSize) -> usize
    ensures { result ≡ width_of size }
{
    match size {
        ElementSize::Byte => 1,
        ElementSize::TwoBytes => 2,
        ElementSize::FourBytes => 4,
        ElementSize::EightBytes => 8,
        ElementSize::Void => 0,
        ElementSize::Bit => 0,
        ElementSize::Pointer => 0,
        ElementSize::InlineComposite => 0,
    }
}

impl Arena {
    ghost use Rattle.std.specs.Prelude.{length, ◌*◌, ◌<◌};
    ghost use Rattle.capnp_wire.specs.Edits.{with_bit, with_bytes};
    ghost use Rattle.capnp_wire.specs.Elements.{with_bit_element, with_number_element};
    ghost use Rattle.capnp_arena.specs.Forest.{Changes, Forest, PartChanges, Planted, struct_from, tree};
    ghost use Rattle.capnp_arena.specs.Made.{size_number};
    ghost use Rattle.capnp_arena.specs.Segment.{segment};
    ghost use Rattle.capnp_arena.specs.Shape.{ListIn, StructIn, shape_at};

    /// Stores a bit in the data of a struct, at an offset in bits. No memory is taken.
    ///
    /// # Conditions
    ///
    /// The place is that of a struct of this message (`Planted`), and the bit lies inside its data section.
    pub fn set_bool(&mut self, place: Place, offset: u32, value: bool)
        requires planted { Planted (segment self.old) (StructIn place.start place.data_words place.pointers) }
        requires inside { offset < 64 * place.data_words }
        ensures planted { Planted (segment self.new) (StructIn place.start place.data_words place.pointers) }
        ensures changes { PartChanges (StructIn place.start place.data_words place.pointers) (segment self.old)
            (segment self.new) }
        ensures tree { struct_from (segment self.new) place.start place.data_words place.pointers ≡
            with_bytes (struct_from (segment self.old) place.start place.data_words place.pointers)
            (with_bit offset value (struct_from (segment self.old) place.start place.data_words place.pointers).bytes) }
        ensures long { length (segment self.new) ≡ length (segment self.old) }
    {
        write_bit(
            &mut self.bytes,
            8 * place.start,
            8 * place.data_words as usize,
            offset as usize,
            value,
        );
    }

    /// Stores a number in the list that the pointer at a word leads to. No memory is taken.
    ///
    /// # Conditions
    ///
    /// The pointer at the word leads to a tree of this message, no two of whose parts share a word (`Forest`). `list`
    /// is the list that it leads to, and `index` is below the number of its elements. These have the number's width,
    /// which is not 0.
    pub fn set_list_number<T: PrimitiveElement>(
        &mut self,
        at: usize,
        list: ListPlace,
        index: u32,
        value: T,
    )
        requires forest { Forest (segment self.old) at }
        requires there { shape_at (segment self.old) at ≡ ListIn list.start (size_number list.size) list.count }
        requires width { (T.width ≡ width_of list.size) × (0 < T.width) }
        requires inside { index < list.count }
        ensures forest { Forest (segment self.new) at }
        ensures there { shape_at (segment self.new) at ≡ ListIn list.start (size_number list.size) list.count }
        ensures tree { tree (segment self.new) at
            ≡ with_number_element T.width index (T.to_number value) (tree (segment self.old) at) }
        ensures changes { Changes at (segment self.old) (segment self.new) }
        ensures long { length (segment self.new) ≡ length (segment self.old) }
    {
        write_number(
            &mut self.bytes,
            8 * list.start,
            get_width(list.size) * list.count as usize,
            index,
            value,
        );
    }
}
