//! The elements of a composite list, and where their pointers stand.
ghost use Rattle.std.specs.Prelude.{◌≡◌, ◌==◌, IsTrue, None};
ghost use Rattle.capnp_wire.specs.Tree.{NoStructs, nth_struct, struct_count};
ghost use Rattle.capnp_wire.specs.Found.{AreEmptyStructs, counted_structs, element_structs, parts_tree};
ghost use Rattle.capnp_wire.specs.Words.{first_fault_of_elements, words_below_all};

use crate::parts::found::{StructParts, empty_parts};
use crate::parts::look::bytes_from;
use crate::parts::row::{Elements, Pointers};
use crate::size::StructSize;

/// No elements.
pub fn no_elements<'a>() -> Elements<'a>
    ensures { element_structs 0 0 result ≡ NoStructs }
{
    Elements {
        is_stream: false,
        depth: 0,
        count: 0,
        bytes: &[],
        segment: &[],
        first: 0,
    }
}

/// The struct at `index` of a composite list, of size zero past its end.
#[inline(always)]
pub fn get_element<'a>(size: StructSize, elements: Elements<'a>, index: usize) -> StructParts<'a>
    ensures { parts_tree result ≡ nth_struct (element_structs size.data_words size.pointers elements.entry) index }
{
    if index >= elements.count as usize {
        return empty_parts();
    }
    let start = elements.first + index * (size.data_words as usize + size.pointers as usize);
    StructParts {
        data: bytes_from(elements.segment, start, 8 * size.data_words as usize),
        pointers: Pointers {
            is_stream: elements.is_stream,
            depth: elements.depth,
            count: size.pointers as u32,
            bytes: elements.bytes,
            segment: elements.segment,
            first: start + size.data_words as usize,
        },
    }
}

/// How many elements there are.
#[inline(always)]
pub fn count_elements(size: StructSize, elements: Elements<'_>) -> usize
    ensures { result ≡ struct_count (element_structs size.data_words size.pointers elements.entry) }
{
    elements.count as usize
}

/// How many structs of size zero the elements of a composite list are, if they are such structs. Two words of a message
/// can say 2^29 - 1 of them.
#[inline(always)]
pub fn count_empty_structs(size: StructSize, elements: Elements<'_>) -> Option<u32>
    ensures counted { result ≡ counted_structs size elements.entry }
    ensures structs { AreEmptyStructs result size (element_structs size.data_words size.pointers elements.entry) }
{
    if size.data_words == 0 && size.pointers == 0 {
        Some(elements.count)
    } else {
        None
    }
}

/// Whether it is known of the elements of a composite list, before they are gone to, that they have no pointers.
#[inline(always)]
pub fn have_no_pointers(size: StructSize, elements: Elements<'_>) -> bool
    ensures known { result ≡ (size.pointers == 0) }
    ensures faults { IsTrue result → None ≡ first_fault_of_elements
        (element_structs size.data_words size.pointers elements.entry) }
    ensures words { IsTrue result → 0 ≡ words_below_all (element_structs size.data_words size.pointers elements.entry) }
{
    size.pointers == 0
}
