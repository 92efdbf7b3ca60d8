//! One level of what stands at a pointer, as it was found, and what an element of a list holds as a struct.
ghost use Rattle.std.specs.Prelude.{◌≡◌};
ghost use Rattle.capnp_wire.specs.Tree.{empty_struct};
ghost use Rattle.capnp_wire.specs.ElementSizes.{element_size_of, size_of_width};
ghost use Rattle.capnp_wire.specs.Reading.{element_struct, empty_list, list_length};
ghost use Rattle.capnp_wire.specs.WellFormed.{IsWellFormed};
ghost use Rattle.capnp_wire.specs.Found.{found_tree, parts_tree};

use crate::fault::Fault;
use crate::parts::block::{count_elements, get_element, no_elements};
use crate::parts::bytes::{divide, part};
use crate::parts::pointers::{count_pointers, get_only_pointer, no_pointers};
use crate::parts::row::{Elements, Pointers};
use crate::size::{ElementSize, StructSize};

/// What a struct holds: its data section and its pointers.
#[derive(Clone, Copy)]
pub struct StructParts<'a> {
    pub data: &'a [u8],
    pub pointers: Pointers<'a>,
}

/// One level of what stands at a place.
#[derive(Clone, Copy)]
pub enum Found<'a> {
    Null,
    Bad(Fault),
    Struct(StructParts<'a>),
    Voids(u32),
    /// The bytes that hold the bits, lowest first, and how many bits there are.
    Bits(&'a [u8], u32),
    /// The width of a number in bytes, and the numbers' bytes.
    Numbers(u8, &'a [u8]),
    Pointers(Pointers<'a>),
    Composite(StructSize, Elements<'a>),
}

/// A struct of size zero.
#[inline(always)]
pub fn empty_parts<'a>() -> StructParts<'a>
    ensures { parts_tree result ≡ empty_struct }
{
    StructParts {
        data: &[],
        pointers: no_pointers(),
    }
}

/// A list without elements.
pub fn empty_list<'a>(size: ElementSize) -> Found<'a>
    ensures { found_tree result ≡ empty_list size }
{
    match size {
        ElementSize::Void => Found::Voids(0),
        ElementSize::Bit => Found::Bits(&[], 0),
        ElementSize::Byte => Found::Numbers(1, &[]),
        ElementSize::TwoBytes => Found::Numbers(2, &[]),
        ElementSize::FourBytes => Found::Numbers(4, &[]),
        ElementSize::EightBytes => Found::Numbers(8, &[]),
        ElementSize::Pointer => Found::Pointers(no_pointers()),
        ElementSize::InlineComposite => {
            let size = StructSize {
                data_words: 0,
                pointers: 0,
            };
            Found::Composite(size, no_elements())
        }
    }
}

/// How many elements a list has; what is no list has none.
///
/// # Conditions
///
/// What was found is well-formed (`IsWellFormed`).
#[inline(always)]
pub fn count_list(found: Found<'_>) -> usize
    requires { IsWellFormed (found_tree found) }
    ensures { result ≡ list_length (found_tree found.entry) }
{
    match found {
        Found::Voids(count) => count as usize,
        Found::Bits(_, count) => count as usize,
        Found::Numbers(width, bytes) => divide(bytes.len(), width),
        Found::Pointers(pointers) => count_pointers(pointers),
        Found::Composite(size, elements) => count_elements(size, elements),
        _ => 0,
    }
}

/// The size of a number of so many bytes.
fn size_of_width(width: u8) -> ElementSize
    ensures { result ≡ size_of_width width }
{
    match width {
        1 => ElementSize::Byte,
        2 => ElementSize::TwoBytes,
        4 => ElementSize::FourBytes,
        _ => ElementSize::EightBytes,
    }
}

/// The size of a list's elements.
pub fn size_of_elements(found: Found<'_>) -> ElementSize
    ensures { result ≡ element_size_of (found_tree found.entry) }
{
    match found {
        Found::Bits(_, _) => ElementSize::Bit,
        Found::Numbers(width, _) => size_of_width(width),
        Found::Pointers(_) => ElementSize::Pointer,
        Found::Composite(_, _) => ElementSize::InlineComposite,
        _ => ElementSize::Void,
    }
}

/// What an element of a list holds as a struct.
#[inline(always)]
pub fn get_element_parts(found: Found<'_>, index: u32) -> StructParts<'_>
    ensures { parts_tree result ≡ element_struct (found_tree found.entry) index }
{
    match found {
        Found::Numbers(width, bytes) => {
            let width = width as usize;
            let data = part(bytes, index as usize * width, width);
            let pointers = no_pointers();
            StructParts { data, pointers }
        }
        Found::Pointers(pointers) => {
            let pointers = get_only_pointer(pointers, index as usize);
            StructParts {
                data: &[],
                pointers,
            }
        }
        Found::Composite(size, elements) => get_element(size, elements, index as usize),
        _ => {
            let pointers = no_pointers();
            StructParts {
                data: &[],
                pointers,
            }
        }
    }
}
