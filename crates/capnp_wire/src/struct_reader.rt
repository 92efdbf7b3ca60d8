//! Readers of structs.
ghost use Rattle.capnp_wire.specs.Found.{parts_tree};
ghost use Rattle.capnp_wire.specs.WellFormed.{IsWellFormedStruct};
ghost use Rattle.capnp_wire.specs.Steps.WellFormed.{IsWellFormedStruct_prop};

use crate::parts::bytes::get_bit;
use crate::parts::found::{StructParts, empty_parts};
use crate::parts::look::bytes_from;
use crate::parts::pointer::MEMORY_DEPTH;
use crate::parts::pointers::{count_pointers, get_pointer};
use crate::parts::row::Pointers;
use crate::pointer_reader::PointerReader;
use crate::primitive::PrimitiveElement;
use crate::size::{MessageSize, StructSize};
use crate::total::size_of_parts;
use capnp_device::error::Result;
use std::mem::size_of;

/// A struct, as it is read: its data section and its pointers, and the levels that are left below it. What lies past
/// the end of a section reads as zero bits or as null, so each call answers for any offset.
#[derive(Clone, Copy)]
pub struct StructReader<'a> {
    parts: StructParts<'a>,
    levels: u8,
    ghost well_formed: { IsWellFormedStruct (parts_tree parts) } by { IsWellFormedStruct_prop (parts_tree parts) },
}

// A reader is copied at each step, so it is kept small.
const _: () = prove!(size_of::<StructReader<'static>>() <= 72);

impl<'a> StructReader<'a> {
    ghost use Rattle.std.specs.Prelude.{[], ◌∷◌, ◌≡◌, ◌≤◌, ◌^◌, ◌/◌, bit_xor, length, IfErr, IfOk, min};
    ghost use Rattle.capnp_wire.specs.Depth.{memory_depth};
    ghost use Rattle.capnp_wire.specs.Place.{struct_at, tree_below};
    ghost use Rattle.capnp_wire.specs.Tree.{empty_struct, nth_tree, tree_count};
    ghost use Rattle.capnp_wire.specs.Slot.{bit_at, masked_bit, number_at};
    ghost use Rattle.capnp_wire.specs.Standing.{levels_of, struct_levels, struct_of, tree_of};
    ghost use Rattle.capnp_wire.specs.Total.{IsSize, IsSizeRefusal};
    ghost use Rattle.capnp_wire.specs.Words.{first_fault_of_all, words_of_struct};

    /// A reader of a struct's parts.
    ///
    /// # Conditions
    ///
    /// The struct of these parts is well-formed (`IsWellFormedStruct`).
    #[tactic(auto, unfolding(crate::specs::Standing::struct_of, crate::specs::Standing::struct_levels))]
    #[inline(always)]
    pub fn new(parts: StructParts<'a>, levels: u8) -> StructReader<'a>
        requires { IsWellFormedStruct (parts_tree parts) }
        ensures parts { struct_of result ≡ parts_tree parts.entry }
        ensures levels { struct_levels result ≡ levels }
    {
        StructReader { parts, levels }
    }

    /// A reader of a struct of size zero.
    #[inline(always)]
    pub fn empty(levels: u8) -> StructReader<'a>
        ensures parts { struct_of result ≡ empty_struct }
        ensures levels { struct_levels result ≡ levels }
    {
        StructReader::new(empty_parts(), levels)
    }

    /// A reader of the struct that starts at the word `start` of one segment that stands alone. Its pointers' trees
    /// have one level less than `depth`: 129 at most.
    ///
    /// # Conditions
    ///
    /// `start` is at most 2^60.
    pub fn of_words(
        words: &'a [u8],
        start: usize,
        size: StructSize,
        depth: u8,
        levels: u8,
    ) -> StructReader<'a>
        requires { start ≤ 2 ^ 60 }
        ensures parts { struct_of result ≡ struct_at
            (tree_below (min depth memory_depth) (words.now ∷ []) words.now) words.now size.data_words size.pointers start }
        ensures levels { struct_levels result ≡ levels }
    {
        let parts = StructParts {
            data: bytes_from(words, start, 8 * size.data_words as usize),
            pointers: Pointers {
                is_stream: false,
                depth: depth.min(MEMORY_DEPTH),
                count: size.pointers as u32,
                bytes: words,
                segment: words,
                first: start + size.data_words as usize,
            },
        };
        StructReader::new(parts, levels)
    }

    /// What the struct holds.
    #[tactic(auto, unfolding(crate::specs::Standing::struct_of))]
    pub fn parts(&self) -> StructParts<'a>
        ensures { parts_tree result ≡ struct_of self.now }
    {
        self.parts
    }

    /// The bytes of the data section: whole words, but in an element of a list of numbers, which has that number's
    /// bytes alone (encoding, "Structs", "Lists").
    #[tactic(auto, unfolding(crate::specs::Standing::struct_of))]
    pub fn get_data_section(&self) -> &'a [u8]
        ensures { result.now ≡ (struct_of self.now).bytes }
    {
        self.parts.data
    }

    /// How many pointers there are (encoding, "Structs").
    #[tactic(auto, unfolding(crate::specs::Standing::struct_of))]
    pub fn get_pointer_count(&self) -> u16
        ensures { result ≡ tree_count (struct_of self.now).pointers }
    {
        count_pointers(self.parts.pointers) as u16
    }

    /// How many words its data section has and how many pointers there are (encoding, "Structs"). An element of a list
    /// of numbers below 8 bytes has no whole word.
    #[tactic(auto, unfolding(crate::specs::Standing::struct_of))]
    pub fn get_size(&self) -> StructSize
        ensures data { result.data_words ≡ length (struct_of self.now).bytes / 8 }
        ensures pointers { result.pointers ≡ tree_count (struct_of self.now).pointers }
    {
        StructSize {
            data_words: (self.get_data_section().len() / 8) as u16,
            pointers: self.get_pointer_count(),
        }
    }

    /// The number at `offset`, in units of its own size, as it is stored (encoding, "Structs").
    #[tactic(auto, unfolding(crate::specs::Standing::struct_of))]
    #[inline(always)]
    pub fn get_data_field<T: PrimitiveElement>(&self, offset: u32) -> T
        ensures { result ≡ T.of_number (number_at T.width offset (struct_of self.now).bytes) }
    {
        T::read(self.parts.data, offset)
    }

    /// The number at `offset`, in units of its own size, where it is stored XORed with its default `mask` (encoding,
    /// "Default Values").
    #[tactic(auto, unfolding(crate::specs::Standing::struct_of))]
    pub fn get_data_field_mask<T: PrimitiveElement>(&self, offset: u32, mask: T) -> T
        ensures { result ≡ T.of_number (bit_xor (number_at T.width offset (struct_of self.now).bytes)
            (T.to_number mask)) }
    {
        T::read_masked(self.parts.data, offset, mask)
    }

    /// The bit at `offset`, counted from the lowest of the first byte, as it is stored; false past the end.
    #[tactic(auto, unfolding(crate::specs::Standing::struct_of))]
    #[inline(always)]
    pub fn get_bool_field(&self, offset: u32) -> bool
        ensures { result ≡ bit_at (struct_of self.now).bytes offset }
    {
        get_bit(self.parts.data, offset as usize)
    }

    /// The bit at `offset`, counted from the lowest of the first byte, where it is stored XORed with its default
    /// `mask`; past the end it is `mask`.
    #[tactic(auto, unfolding(crate::specs::Standing::struct_of))]
    pub fn get_bool_field_mask(&self, offset: u32, mask: bool) -> bool
        ensures { result ≡ masked_bit (bit_at (struct_of self.now).bytes offset) mask }
    {
        self.get_bool_field(offset) != mask
    }

    /// The pointer at `index`, with the levels of the struct.
    #[tactic(auto, unfolding(crate::specs::Standing::struct_of, crate::specs::Standing::struct_levels))]
    #[inline(always)]
    pub fn get_pointer_field(&self, index: u16) -> PointerReader<'a>
        ensures tree { tree_of result ≡ nth_tree (struct_of self.now).pointers index }
        ensures levels { levels_of result ≡ struct_levels self.now }
    {
        PointerReader::new(
            get_pointer(self.parts.pointers, index as usize),
            self.levels,
        )
    }

    /// The size of the struct with all that its pointers lead to: its data section in whole words, its pointers, and
    /// the targets. A target that several pointers share counts once for each of them, and the tag of a composite list
    /// counts with it. There are no capabilities. Takes no memory.
    ///
    /// Refused with `BadPointer`, `TooDeep` or `CapabilityPointer` where a pointer in it can't be followed, by the
    /// first of these in preorder, and with `TooLarge` past 2^64 - 1 words; with either where both hold (encoding,
    /// "Structs", "Lists").
    #[tactic(auto, unfolding(crate::specs::Standing::struct_of))]
    pub fn total_size(&self) -> Result<MessageSize>
        ensures size { IfOk result (λ size. IsSize size (first_fault_of_all (struct_of self.now).pointers)
            (words_of_struct (struct_of self.now))) }
        ensures refused { IfErr result
            (λ error. IsSizeRefusal error (first_fault_of_all (struct_of self.now).pointers)
            (words_of_struct (struct_of self.now))) }
    {
        size_of_parts(self.parts)
    }
}
