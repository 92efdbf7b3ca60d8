//! Readers of pointers.
ghost use Rattle.capnp_wire.specs.Depth.{message_levels};
ghost use Rattle.capnp_wire.specs.Found.{pointer_tree};
ghost use Rattle.capnp_wire.specs.WellFormed.{IsWellFormed};
ghost use Rattle.capnp_wire.specs.Steps.WellFormed.{IsWellFormed_prop};

use crate::fault::refuse;
use crate::list_reader::ListReader;
use crate::parts::elements::{data_of, text_of};
use crate::parts::found::Found;
use crate::parts::pointer::{MEMORY_DEPTH, MESSAGE_LEVELS, Pointer, get_root_pointer, look};
use crate::parts::segments::Segments;
use crate::size::{ElementSize, MessageSize};
use crate::struct_reader::StructReader;
use crate::total::size_of_pointer;
use capnp_device::error::{Error, ErrorKind, Result};
use std::mem::size_of;

/// A pointer, as it is read: a place in a message, and the levels that are left below it.
/// Every call answers for any message, takes no memory and leaves the reader as it was.
#[derive(Clone, Copy)]
pub struct PointerReader<'a> {
    pointer: Pointer<'a>,
    levels: u8,
    ghost well_formed: { IsWellFormed (pointer_tree pointer) } by { IsWellFormed_prop (pointer_tree pointer) },
}

// A reader is copied at each step, so it is kept small.
const _: () = prove!(size_of::<PointerReader<'static>>() <= 56);

impl<'a> PointerReader<'a> {
    ghost use Rattle.std.specs.Prelude.{[], ◌∷◌, ◌≡◌, ◌+◌, IfErr, IfOk, min};
    ghost use Rattle.capnp_wire.specs.Depth.{memory_depth};
    ghost use Rattle.capnp_wire.specs.Place.{root_tree, tree_below};
    ghost use Rattle.capnp_wire.specs.Reading.{as_data, as_list, as_struct, as_text, is_list, is_null_tree};
    ghost use Rattle.capnp_wire.specs.Edits.{is_struct};
    ghost use Rattle.capnp_wire.specs.Standing.{bytes_read, levels_of, list_levels, list_read, struct_levels, struct_read, tree_of};
    ghost use Rattle.capnp_wire.specs.Total.{IsSize, IsSizeRefusal};
    ghost use Rattle.capnp_wire.specs.Words.{first_fault, words_of};

    /// A reader of a place.
    ///
    /// # Conditions
    ///
    /// What the pointer leads to is well-formed (`IsWellFormed`).
    #[tactic(auto, unfolding(crate::specs::Standing::tree_of, crate::specs::Standing::levels_of))]
    #[inline(always)]
    pub fn new(pointer: Pointer<'a>, levels: u8) -> PointerReader<'a>
        requires { IsWellFormed (pointer_tree pointer) }
        ensures tree { tree_of result ≡ pointer_tree pointer.entry }
        ensures levels { levels_of result ≡ levels }
    {
        PointerReader { pointer, levels }
    }

    /// Where the pointer stands.
    #[tactic(auto, unfolding(crate::specs::Standing::tree_of))]
    pub fn pointer(&self) -> Pointer<'a>
        ensures { pointer_tree result ≡ tree_of self.now }
    {
        self.pointer
    }

    /// A reader of the root pointer of one segment that stands alone, without a table before it, as a default or an
    /// annotation's value does. It has 64 levels. Bytes past the last whole word are not looked at; where there is no
    /// word the pointer can't be followed (`BadPointer`).
    pub fn from_words(words: &'a [u8]) -> PointerReader<'a>
        ensures tree { tree_of result ≡ root_tree (words.now ∷ []) }
        ensures levels { levels_of result ≡ message_levels }
    {
        let segments = Segments {
            bytes: words,
            is_stream: false,
        };
        PointerReader::new(get_root_pointer(segments), MESSAGE_LEVELS)
    }

    /// A reader of the pointer at the word `index` of one segment that stands alone, whose tree has one level less than
    /// `depth`: 129 at most, so that no stack runs out on them.
    pub fn of_word(words: &'a [u8], index: usize, depth: u8, levels: u8) -> PointerReader<'a>
        ensures tree { tree_of result ≡ tree_below (min depth memory_depth) (words.now ∷ []) words.now index }
        ensures levels { levels_of result ≡ levels }
    {
        let pointer = Pointer::Word {
            depth: depth.min(MEMORY_DEPTH),
            is_stream: false,
            bytes: words,
            segment: words,
            index,
        };
        PointerReader::new(pointer, levels)
    }

    /// Whether the pointer is null. A pointer that can't be followed is not.
    #[tactic(auto, unfolding(crate::specs::Standing::tree_of))]
    #[inline(always)]
    pub fn is_null(&self) -> bool
        ensures { result ≡ is_null_tree (tree_of self.now) }
    {
        match look(self.pointer) {
            Found::Null => true,
            _ => false,
        }
    }

    /// Whether the pointer leads to a struct, whatever levels are left. A null does not.
    #[tactic(auto, unfolding(crate::specs::Standing::tree_of))]
    pub fn is_struct(&self) -> bool
        ensures { result ≡ is_struct (tree_of self.now) }
    {
        match look(self.pointer) {
            Found::Struct(_) => true,
            _ => false,
        }
    }

    /// Whether the pointer leads to a list, whatever levels are left. A null does not.
    #[tactic(auto, unfolding(crate::specs::Standing::tree_of))]
    pub fn is_list(&self) -> bool
        ensures { result ≡ is_list (tree_of self.now) }
    {
        match look(self.pointer) {
            Found::Null => false,
            Found::Bad(_) => false,
            Found::Struct(_) => false,
            _ => true,
        }
    }

    /// The struct that the pointer leads to; of size zero for a null. Needs a level and leaves one fewer.
    ///
    /// Refused with `BadPointer` or `CapabilityPointer` where the pointer can't be followed, with `TooDeep` where no
    /// level is left for it, and then with `WrongPointerKind` for a list (encoding, "Structs").
    #[tactic(auto, unfolding(crate::specs::Standing::tree_of, crate::specs::Standing::levels_of))]
    #[inline(always)]
    pub fn get_struct(&self) -> Result<StructReader<'a>>
        ensures read { struct_read result ≡ as_struct (tree_of self.now) (levels_of self.now) }
        ensures levels { IfOk result (λ s. struct_levels s + 1 ≡ levels_of self.now) }
    {
        let found = look(self.pointer);
        if let Found::Bad(fault) = found {
            return Err(refuse(fault));
        }
        if self.levels == 0 {
            return Err(Error::from(ErrorKind::TooDeep));
        }
        let levels = self.levels - 1;
        match found {
            Found::Null => Ok(StructReader::empty(levels)),
            Found::Struct(parts) => Ok(StructReader::new(parts, levels)),
            _ => Err(Error::from(ErrorKind::WrongPointerKind)),
        }
    }

    /// The list that the pointer leads to, where it is read as elements of `size`; an empty one of that size for a
    /// null. Needs a level and leaves one fewer.
    ///
    /// Every list is read as `Void`. A list of bits is read as `Bit`, one of numbers as their own size, one of pointers
    /// as `Pointer`; a list of structs is read as numbers where each has a data word, by the number at its start, and
    /// as pointers where each has a pointer, by its first. Every list but one of bits is read as `InlineComposite`.
    ///
    /// Refused with `BadPointer` or `CapabilityPointer` where the pointer can't be followed, with `TooDeep` where no
    /// level is left for it, then with `WrongPointerKind` for a struct, and with `WrongElementSize` for a list that is
    /// not read so (encoding, "Lists").
    #[tactic(auto, unfolding(crate::specs::Standing::tree_of, crate::specs::Standing::levels_of))]
    #[inline(always)]
    pub fn get_list(&self, size: ElementSize) -> Result<ListReader<'a>>
        ensures read { list_read result ≡ as_list size (tree_of self.now) (levels_of self.now) }
        ensures levels { IfOk result (λ l. list_levels l + 1 ≡ levels_of self.now) }
    {
        let found = look(self.pointer);
        if let Found::Bad(fault) = found {
            return Err(refuse(fault));
        }
        if self.levels == 0 {
            return Err(Error::from(ErrorKind::TooDeep));
        }
        ListReader::read_as(found, size, self.levels - 1)
    }

    /// The bytes of the list of bytes that the pointer leads to, none for a null. They are those of the message, and
    /// take no level.
    ///
    /// Refused with `BadPointer`, `TooDeep` or `CapabilityPointer` where the pointer can't be followed, with
    /// `WrongPointerKind` for a struct, and with `WrongElementSize` for another list (encoding, "Blobs").
    #[tactic(auto, unfolding(crate::specs::Standing::tree_of))]
    #[inline(always)]
    pub fn get_data(&self) -> Result<&'a [u8]>
        ensures { bytes_read result ≡ as_data (tree_of self.now) }
    {
        data_of(look(self.pointer))
    }

    /// The bytes of the text that the pointer leads to, without the zero that ends it; none for a null. They take no
    /// level, and need not be UTF-8.
    ///
    /// Refused as `get_data`, and with `TextNotTerminated` where the list is empty or its last byte is not zero
    /// (encoding, "Blobs").
    #[tactic(auto, unfolding(crate::specs::Standing::tree_of))]
    #[inline(always)]
    pub fn get_text(&self) -> Result<&'a [u8]>
        ensures { bytes_read result ≡ as_text (tree_of self.now) }
    {
        text_of(look(self.pointer))
    }

    /// The size of all that the pointer leads to, without the pointer itself: 0 words for a null. A target that several
    /// pointers share counts once for each of them, and the tag of a composite list counts with it. There are no
    /// capabilities. Takes no memory.
    ///
    /// Refused with `BadPointer`, `TooDeep` or `CapabilityPointer` where a pointer in it can't be followed, by the
    /// first of these in preorder, and with `TooLarge` past 2^64 - 1 words; with either where both hold (encoding,
    /// "Structs", "Lists").
    #[tactic(auto, unfolding(crate::specs::Standing::tree_of))]
    pub fn total_size(&self) -> Result<MessageSize>
        ensures size { IfOk result (λ size. IsSize size (first_fault (tree_of self.now))
            (words_of (tree_of self.now))) }
        ensures refused { IfErr result (λ error. IsSizeRefusal error (first_fault (tree_of self.now))
            (words_of (tree_of self.now))) }
    {
        size_of_pointer(self.pointer)
    }
}
