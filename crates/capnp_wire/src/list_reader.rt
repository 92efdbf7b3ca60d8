//! Readers of lists.
ghost use Rattle.std.specs.Prelude.{◌≡◌};
ghost use Rattle.capnp_wire.specs.Found.{found_tree};
ghost use Rattle.capnp_wire.specs.Locate.{words_past_format};
ghost use Rattle.capnp_wire.specs.WellFormed.{IsWellFormed};
ghost use Rattle.capnp_wire.specs.Steps.WellFormed.{IsWellFormed_prop};

use crate::fault::Fault;
use crate::numbers::Numbers;
use crate::parts::block::get_element;
use crate::parts::due::reads_list_as;
use crate::parts::elements::{bit_at, number_at};
use crate::parts::found::{Found, count_list, empty_list, get_element_parts, size_of_elements};
use crate::parts::pointer::{Pointer, look};
use crate::parts::pointers::get_pointer;
use crate::pointer_reader::PointerReader;
use crate::primitive::PrimitiveElement;
use crate::size::{ElementSize, StructSize};
use crate::struct_reader::StructReader;
use capnp_device::error::{Error, ErrorKind, Result};
use std::mem::size_of;

/// A list, as it is read: its elements, and the levels that are left below it. Past its end elements read as zero,
/// false, null and a struct of size zero, so each call answers for any index.
///
/// # Example
///
/// ```rust
/// let list = pointer.get_list(ElementSize::FourBytes)?;
/// let mut total = 0u64;
/// for number in list.numbers::<u32>() {
///     total += number as u64;
/// }
/// ```
#[derive(Clone, Copy)]
pub struct ListReader<'a> {
    found: Found<'a>,
    levels: u8,
    ghost well_formed: { IsWellFormed (found_tree found) } by { IsWellFormed_prop (found_tree found) },
}

// A reader is copied at each step, so it is kept small.
const _: () = prove!(size_of::<ListReader<'static>>() <= 80);

impl<'a> ListReader<'a> {
    ghost use Rattle.capnp_wire.specs.ElementSizes.{element_size_of};
    ghost use Rattle.std.specs.Prelude.{Ok, false, ◌≡◌, ◌==◌, ◌+◌, ◌<◌, IfOk};
    ghost use Rattle.capnp_wire.specs.Reading.{as_list, empty_list, element_bit, element_levels, element_number, element_pointer, element_struct, list_length, with_level};
    ghost use Rattle.capnp_wire.specs.Steps.Reading.{is_fault_leaf};
    ghost use Rattle.capnp_wire.specs.Numbers.{numbers_tree};
    ghost use Rattle.capnp_wire.specs.Standing.{levels_of, list_levels, list_of, list_read, struct_levels, struct_read, tree_of};

    /// A reader of a list.
    ///
    /// # Conditions
    ///
    /// What was found is well-formed (`IsWellFormed`).
    #[tactic(auto, unfolding(crate::specs::Standing::list_of, crate::specs::Standing::list_levels))]
    pub fn new(found: Found<'a>, levels: u8) -> ListReader<'a>
        requires { IsWellFormed (found_tree found) }
        ensures list { list_of result ≡ found_tree found.entry }
        ensures levels { list_levels result ≡ levels }
    {
        ListReader { found, levels }
    }

    /// A list without elements.
    fn empty(size: ElementSize, levels: u8) -> ListReader<'a>
        ensures list { list_of result ≡ empty_list size }
        ensures levels { list_levels result ≡ levels }
    {
        ListReader::new(empty_list(size), levels)
    }

    /// What stands at a place, where it is no fault leaf, as a list of elements of a size.
    pub(crate) fn read_as(found: Found<'a>, size: ElementSize, levels: u8) -> Result<ListReader<'a>>
        requires followed { is_fault_leaf (found_tree found) ≡ false }
        requires well_formed { IsWellFormed (found_tree found) }
        ensures read { list_read result ≡ as_list size (found_tree found.entry) (levels + 1) }
        ensures levels { IfOk result (λ l. list_levels l ≡ levels) }
    {
        match found {
            Found::Null => return Ok(ListReader::empty(size, levels)),
            Found::Struct(_) => return Err(Error::from(ErrorKind::WrongPointerKind)),
            _ => {}
        }
        if reads_list_as(size, found) {
            Ok(ListReader::new(found, levels))
        } else {
            Err(Error::from(ErrorKind::WrongElementSize))
        }
    }

    /// What the reader stands on.
    #[tactic(auto, unfolding(crate::specs::Standing::list_of))]
    #[inline(always)]
    pub fn found(&self) -> Found<'a>
        ensures { found_tree result ≡ list_of self.now }
    {
        self.found
    }

    /// How many elements there are, below 2^29.
    #[tactic(auto, unfolding(crate::specs::Standing::list_of))]
    #[inline(always)]
    pub fn len(&self) -> u32
        ensures length { result ≡ list_length (list_of self.now) }
        ensures bound { result < words_past_format }
    {
        count_list(self.found) as u32
    }

    /// Whether there is no element.
    pub fn is_empty(&self) -> bool
        ensures { result ≡ (list_length (list_of self.now) == 0) }
    {
        self.len() == 0
    }

    /// The size of the elements, as the list has it: of a null, the size that it was read as (encoding, "Lists").
    #[tactic(auto, unfolding(crate::specs::Standing::list_of))]
    pub fn get_element_size(&self) -> ElementSize
        ensures { result ≡ element_size_of (list_of self.now) }
    {
        size_of_elements(self.found)
    }

    /// The bit at `index`; false where the elements are no bits.
    #[tactic(auto, unfolding(crate::specs::Standing::list_of))]
    #[inline(always)]
    pub fn get_bool_element(&self, index: u32) -> bool
        ensures { result ≡ element_bit (list_of self.now) index }
    {
        bit_at(self.found, index)
    }

    /// The number at `index`: of a struct, that at its start.
    #[tactic(auto, unfolding(crate::specs::Standing::list_of))]
    #[inline(always)]
    pub fn get_data_element<T: PrimitiveElement>(&self, index: u32) -> T
        ensures { result ≡ T.of_number (element_number T.width (list_of self.now) index) }
    {
        number_at(self.found, index)
    }

    /// The numbers of the list as a value of their own: at each index what `get_data_element` reads there. A loop over
    /// them looks at the list once.
    #[inline(always)]
    pub fn numbers<T: PrimitiveElement>(&self) -> Numbers<'a, T>
        ensures { numbers_tree result ≡ list_of self.now }
    {
        Numbers::new(*self)
    }

    /// The struct at `index`. Needs a level and leaves one fewer. A number is a struct with its bytes as data, a
    /// pointer one with that pointer, and what takes no room a struct of size zero.
    ///
    /// Refused with `TooDeep` where no level is left.
    #[tactic(auto, unfolding(crate::specs::Standing::list_of, crate::specs::Standing::list_levels))]
    #[inline(always)]
    pub fn get_struct_element(&self, index: u32) -> Result<StructReader<'a>>
        ensures read { struct_read result ≡ with_level (list_levels self.now)
            (Ok (element_struct (list_of self.now) index)) }
        ensures levels { IfOk result (λ s. struct_levels s + 1 ≡ list_levels self.now) }
    {
        if self.levels == 0 {
            return Err(Error::from(ErrorKind::TooDeep));
        }
        let levels = self.levels - 1;
        Ok(StructReader::new(get_element_parts(self.found, index), levels))
    }

    /// The pointer at `index`: of a struct, its first, which is entered through the struct and leaves one level fewer.
    /// Where no level is left for that, one that is not null can't be followed (`TooDeep`). Null where the elements
    /// have no pointers.
    #[tactic(auto, unfolding(crate::specs::Standing::list_of, crate::specs::Standing::list_levels))]
    #[inline(always)]
    pub fn get_pointer_element(&self, index: u32) -> PointerReader<'a>
        ensures tree { tree_of result ≡ element_pointer (list_of self.now) index (list_levels self.now) }
        ensures levels { levels_of result ≡ element_levels (list_of self.now) (list_levels self.now) }
    {
        match self.found {
            Found::Pointers(pointers) => PointerReader::new(
                get_pointer(pointers, index as usize),
                self.levels,
            ),
            Found::Composite(size, elements) => {
                let pointer = get_pointer(get_element(size, elements, index as usize).pointers, 0);
                if self.levels > 0 {
                    return PointerReader::new(pointer, self.levels - 1);
                }
                match look(pointer) {
                    Found::Null => PointerReader::new(Pointer::Null, 0),
                    _ => PointerReader::new(Pointer::Bad(Fault::TooDeep), 0),
                }
            }
            _ => PointerReader::new(Pointer::Null, self.levels),
        }
    }
}
