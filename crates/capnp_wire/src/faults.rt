//! Looks for the first fault leaf of what stands at a place.
ghost use Rattle.std.specs.Prelude.{◌≡◌};
ghost use Rattle.capnp_wire.specs.Found.{element_structs, found_tree, pointer_tree, pointer_trees};
ghost use Rattle.capnp_wire.specs.Standing.{tree_of};
ghost use Rattle.capnp_wire.specs.Words.{first_fault, first_fault_of_all, first_fault_of_elements};

use crate::fault::Fault;
use crate::parts::block::{count_elements, get_element, have_no_pointers};
use crate::parts::found::Found;
use crate::parts::pointer::{Pointer, look};
use crate::parts::pointers::{count_pointers, get_pointer};
use crate::parts::row::{Elements, Pointers};
use crate::pointer_reader::PointerReader;
use crate::size::StructSize;

/// The first fault leaf of what stands at a place.
#[cycle(faults)]
fn fault_of_pointer(pointer: Pointer<'_>) -> Option<Fault>
    ensures { result ≡ first_fault (pointer_tree pointer.entry) }
{
    fault_of_found(look(pointer))
}

/// The first fault leaf of what was found.
#[cycle(faults)]
fn fault_of_found(found: Found<'_>) -> Option<Fault>
    ensures { result ≡ first_fault (found_tree found.entry) }
{
    match found {
        Found::Null => None,
        Found::Bad(fault) => Some(fault),
        Found::Struct(parts) => fault_of_pointers(parts.pointers),
        Found::Voids(_) => None,
        Found::Bits(_, _) => None,
        Found::Numbers(_, _) => None,
        Found::Pointers(pointers) => fault_of_pointers(pointers),
        Found::Composite(size, elements) => fault_of_elements(size, elements),
    }
}

/// The first fault leaf of what pointers in a row lead to.
#[cycle(faults)]
fn fault_of_pointers(pointers: Pointers<'_>) -> Option<Fault>
    ensures { result ≡ first_fault_of_all (pointer_trees pointers.entry) }
{
    let count = count_pointers(pointers);
    for i in 0..count {
        if let Some(fault) = fault_of_pointer(get_pointer(pointers, i)) {
            return Some(fault);
        }
    }
    None
}

/// The first fault leaf of what the pointers of a composite list's elements lead to.
#[cycle(faults)]
fn fault_of_elements(size: StructSize, elements: Elements<'_>) -> Option<Fault>
    ensures { result ≡ first_fault_of_elements (element_structs size.data_words size.pointers elements.entry) }
{
    if have_no_pointers(size, elements) {
        return None;
    }
    let count = count_elements(size, elements);
    for i in 0..count {
        if let Some(fault) = fault_of_pointers(get_element(size, elements, i).pointers) {
            return Some(fault);
        }
    }
    None
}

impl<'a> PointerReader<'a> {
    /// The first pointer in preorder, from this one on, that can't be followed, by why it can't; nothing where each
    /// can. Takes no memory.
    pub fn first_fault(&self) -> Option<Fault>
        ensures { result ≡ first_fault (tree_of self.now) }
    {
        fault_of_pointer(self.pointer())
    }
}
