//! Lists, read where they stand.
ghost use Rattle.std.specs.Prelude.{◌<◌, ◌≡◌};
ghost use Rattle.capnp_arena.specs.Made.{size_number};
ghost use Rattle.capnp_arena.specs.Steps.Reads.{reads_kind};

use crate::arena::{Arena, Place};
use crate::lists::{ListPlace, StructsPlace};
use crate::look::Target;
use capnp_device::error::{Error, ErrorKind, Result};
use capnp_wire::parts::due::{reads_numbers_as, reads_structs_as};
use capnp_wire::size::{ElementSize, StructSize};

/// Where a list stands. A null is read as one without elements, of the size that was asked.
#[derive(Clone, Copy)]
pub enum ListTarget {
    Nothing(ElementSize),
    /// A list that is not of structs.
    Plain(ListPlace),
    Structs(StructsPlace),
}

/// The element size of a number.
///
/// # Conditions
///
/// `number` is below 7.
#[inline(always)]
pub fn get_element_size(number: u8) -> ElementSize
    requires { number < 7 }
    ensures { size_number result ≡ number }
{
    match number {
        0 => ElementSize::Void,
        1 => ElementSize::Bit,
        2 => ElementSize::Byte,
        3 => ElementSize::TwoBytes,
        4 => ElementSize::FourBytes,
        5 => ElementSize::EightBytes,
        _ => ElementSize::Pointer,
    }
}

/// Whether a list of elements of the size with this number is.
fn reads_as(asked: ElementSize, number: u8) -> bool
    ensures { result ≡ reads_kind asked number }
{
    match number {
        0 => matches!(asked, ElementSize::Void | ElementSize::InlineComposite),
        1 => matches!(asked, ElementSize::Void | ElementSize::Bit),
        2 => reads_numbers_as(asked, 1),
        3 => reads_numbers_as(asked, 2),
        4 => reads_numbers_as(asked, 4),
        5 => reads_numbers_as(asked, 8),
        _ => matches!(
            asked,
            ElementSize::Void | ElementSize::Pointer | ElementSize::InlineComposite
        ),
    }
}

impl Arena {
    ghost use Rattle.std.specs.Prelude.{IfOk, IsTrue, ◌*◌, ◌+◌, ◌≢◌};
    ghost use Rattle.capnp_wire.specs.ElementSizes.{element_size_of};
    ghost use Rattle.capnp_wire.specs.Reading.{as_list, element_struct, is_list, list_length};
    ghost use Rattle.capnp_arena.specs.Forest.{Forest, Planted, struct_from, tree};
    ghost use Rattle.capnp_arena.specs.Listed.{list_tree_answered, list_shape, listed_tree};
    ghost use Rattle.capnp_arena.specs.Segment.{segment};
    ghost use Rattle.capnp_arena.specs.Shape.{CompositeIn, StructIn, shape_at};

    /// The list that the pointer at a word leads to, as one of elements of a size. A null is a list without elements,
    /// and stays null.
    ///
    /// Refused with `WrongPointerKind` for a struct, and with `WrongElementSize` for a list that is not read so.
    ///
    /// # Conditions
    ///
    /// The pointer at the word leads to a tree of this message, no two of whose parts share a word (`Forest`). `size`
    /// is not `InlineComposite`.
    pub fn get_list(&self, at: usize, size: ElementSize) -> Result<ListTarget>
        requires forest { Forest (segment self.now) at }
        requires simple { size ≢ ElementSize.InlineComposite }
        ensures place { IfOk result (λ list. list_shape list ≡ shape_at (segment self.now) at) }
        ensures read { list_tree_answered (tree (segment self.now) at) result ≡ as_list size (tree (segment self.now) at) 1 }
    {
        match self.look(at) {
            Target::Null => Ok(ListTarget::Nothing(size)),
            Target::Struct { .. } => Err(Error::from(ErrorKind::WrongPointerKind)),
            Target::List {
                start,
                element_size,
                count,
            } => {
                if !reads_as(size, element_size) {
                    return Err(Error::from(ErrorKind::WrongElementSize));
                }
                Ok(ListTarget::Plain(ListPlace {
                    start,
                    size: get_element_size(element_size),
                    count,
                }))
            }
            Target::Composite {
                tag,
                count,
                data_words,
                pointers,
            } => {
                let of_elements = StructSize {
                    data_words,
                    pointers,
                };
                if !reads_structs_as(size, of_elements) {
                    return Err(Error::from(ErrorKind::WrongElementSize));
                }
                let list = StructsPlace {
                    tag,
                    count,
                    data_words,
                    pointers,
                };
                Ok(ListTarget::Structs(list))
            }
        }
    }

    /// How many elements a list has.
    ///
    /// # Conditions
    ///
    /// The pointer at the word leads to a tree of this message, no two of whose parts share a word (`Forest`). `list`
    /// is what that pointer leads to, of a null nothing (`list_shape`).
    #[inline(always)]
    pub fn count_elements(&self, at: usize, list: ListTarget) -> u32
        requires forest { Forest (segment self.now) at }
        requires there { shape_at (segment self.now) at ≡ list_shape list }
        ensures { result ≡ list_length (tree (segment self.now) at) }
    {
        match list {
            ListTarget::Nothing(_) => 0,
            ListTarget::Plain(plain) => plain.count,
            ListTarget::Structs(structs) => structs.count,
        }
    }

    /// How many elements the list has that the pointer at a word leads to; what is no list has none.
    ///
    /// # Conditions
    ///
    /// The pointer at the word leads to a tree of this message, no two of whose parts share a word (`Forest`).
    #[inline(always)]
    pub fn get_length(&self, at: usize) -> u32
        requires { Forest (segment self.now) at }
        ensures { result ≡ list_length (tree (segment self.now) at) }
    {
        match self.look(at) {
            Target::Null => 0,
            Target::Struct { .. } => 0,
            Target::List { count, .. } => count,
            Target::Composite { count, .. } => count,
        }
    }

    /// The size of a list's elements, as the list has it: of a null, the size that was asked.
    ///
    /// # Conditions
    ///
    /// The pointer at the word leads to a tree of this message, no two of whose parts share a word (`Forest`). `list`
    /// is what that pointer leads to, of a null nothing (`list_shape`).
    pub fn get_element_size(&self, at: usize, list: ListTarget) -> ElementSize
        requires forest { Forest (segment self.now) at }
        requires there { shape_at (segment self.now) at ≡ list_shape list }
        ensures { result ≡ element_size_of (listed_tree (tree (segment self.now) at) list) }
    {
        match list {
            ListTarget::Nothing(size) => match size {
                ElementSize::Void => ElementSize::Void,
                ElementSize::Bit => ElementSize::Bit,
                ElementSize::Byte => ElementSize::Byte,
                ElementSize::TwoBytes => ElementSize::TwoBytes,
                ElementSize::FourBytes => ElementSize::FourBytes,
                ElementSize::EightBytes => ElementSize::EightBytes,
                ElementSize::Pointer => ElementSize::Pointer,
                ElementSize::InlineComposite => ElementSize::InlineComposite,
            },
            ListTarget::Plain(plain) => plain.size,
            ListTarget::Structs(_) => ElementSize::InlineComposite,
        }
    }

    /// Where a struct of a list of structs stands.
    ///
    /// # Conditions
    ///
    /// The pointer at the word leads to a tree of this message, no two of whose parts share a word (`Forest`). `list`
    /// is the list of structs that it leads to, and `index` is below the number of its elements.
    #[inline(always)]
    pub fn get_struct_element(&self, at: usize, list: StructsPlace, index: u32) -> Place
        requires forest { Forest (segment self.now) at }
        requires there { shape_at (segment self.now) at
            ≡ CompositeIn list.tag list.count list.data_words list.pointers }
        requires inside { index < list.count }
        ensures place { (result.start ≡ list.tag + 1 + index * (list.data_words + list.pointers))
            × (result.data_words ≡ list.data_words) × (result.pointers ≡ list.pointers) }
        ensures planted { Planted (segment self.now) (StructIn result.start result.data_words result.pointers) }
        ensures tree { struct_from (segment self.now) result.start result.data_words result.pointers
            ≡ element_struct (tree (segment self.now) at) index }
    {
        let step = list.data_words as usize + list.pointers as usize;
        Place {
            start: list.tag + 1 + index as usize * step,
            data_words: list.data_words,
            pointers: list.pointers,
        }
    }
}
