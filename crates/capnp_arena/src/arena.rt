//! A message in memory: one segment of words that grows at its end.
//!
//! A pointer is named by the word where it stands, and a struct by the word where it starts and its size. What is new
//! is made at the end, so that each target lies after its pointer. What no pointer leads to any more stays where it
//! was.
ghost use Rattle.std.specs.Prelude.{◌*◌, ◌/◌, ◌^◌, ◌<◌, ◌≡◌, ◌≤◌, length};
ghost use Rattle.capnp_arena.specs.Made.{size_number};
ghost use Rattle.capnp_arena.specs.Steps.Made.{struct_pointer, struct_start};
ghost use Rattle.capnp_wire.specs.Locate.{list_words, words_past_format};

use crate::spell::{
    append_zeros, make_list_word, make_struct_word, put_bytes, put_word, write_number,
    write_number_mask,
};
use capnp_device::error::{Error, ErrorKind, Result};
use capnp_wire::primitive::PrimitiveElement;
use capnp_wire::size::{ElementSize, StructSize};
use std::alloc::Global;

/// The words of one segment, its root pointer first.
#[derive(Drop)]
pub struct Arena {
    pub(crate) bytes: Vec<u8>,
    /// So many words at most.
    pub(crate) limit: usize,
    ghost whole: { length bytes.items ≡ 8 * (length bytes.items / 8) },
    ghost few: { length bytes.items / 8 < words_past_format },
    ghost within: { length bytes.items / 8 ≤ limit },
    ghost low: { limit < words_past_format },
    ghost some: { 0 < limit },
}

/// The bytes that a new message has room for.
const FIRST_ROOM: usize = 1024;

/// The words of the largest segment.
const MOST_WORDS: usize = (1 << 29) - 1;

/// Where a struct starts, and its size.
#[derive(Clone, Copy)]
pub struct Place {
    pub start: usize,
    pub data_words: u16,
    pub pointers: u16,
}

/// Where a struct of so many words starts that is made at `end` for the pointer at a word.
#[inline(always)]
fn get_struct_start(end: usize, at: usize, words: usize) -> usize
    ensures { result ≡ struct_start end at words }
{
    if words == 0 { at } else { end }
}

/// The pointer to it. One of size zero is not null: it leads to where it stands.
#[inline(always)]
fn get_struct_pointer(end: usize, at: usize, size: StructSize) -> u64
    requires { (at < end) × (end < words_past_format) }
    ensures { result ≡ struct_pointer end at size.data_words size.pointers }
{
    if size.data_words as usize + size.pointers as usize == 0 {
        return make_struct_word((1 << 30) - 1, 0, 0);
    }
    make_struct_word(
        (end - at - 1) as u64,
        size.data_words as u64,
        size.pointers as u64,
    )
}

/// The number of an element size.
#[inline(always)]
fn get_size_number(size: ElementSize) -> u64
    ensures value { result ≡ size_number size }
    ensures fits { result < 8 }
{
    match size {
        ElementSize::Void => 0,
        ElementSize::Bit => 1,
        ElementSize::Byte => 2,
        ElementSize::TwoBytes => 3,
        ElementSize::FourBytes => 4,
        ElementSize::EightBytes => 5,
        ElementSize::Pointer => 6,
        ElementSize::InlineComposite => 7,
    }
}

/// The words of so many elements of a size.
#[inline(always)]
fn get_list_words(size: ElementSize, count: u32) -> usize
    ensures value { result ≡ list_words (size_number size) count }
    ensures fits { result < 2 ^ 32 }
{
    let bits = match size {
        ElementSize::Void => 0,
        ElementSize::Bit => 1,
        ElementSize::Byte => 8,
        ElementSize::TwoBytes => 16,
        ElementSize::FourBytes => 32,
        ElementSize::EightBytes => 64,
        ElementSize::Pointer => 64,
        ElementSize::InlineComposite => 64,
    };
    (count as usize * bits + 63) / 64
}

impl Arena {
    ghost use Rattle.std.specs.Prelude.{IfErr, IfOk, IsTrue, OnErr, OnOk, bit_xor, ◌↔◌, ◌⊎◌, ◌≢◌, ◌∷◌, [], ◌+◌, ◌++◌, ◌-◌, ◌≤◌, replicate};
    ghost use Rattle.capnp_wire.specs.Edits.{IsRoomRefusal, with_bytes, with_number, zero_list, zero_struct, zero_structs};
    ghost use Rattle.capnp_wire.specs.Encoding.{spelled_number};
    ghost use Rattle.capnp_wire.specs.Place.{struct_tree};
    ghost use Rattle.capnp_wire.specs.Tree.{Null, Numbers};
    ghost use Rattle.capnp_device.specs.declared.error.ErrorKind.TheVariants.{OutOfMemory};
    ghost use Rattle.capnp_arena.specs.Steps.Made.{IsObjectMade, filled_up};
    ghost use Rattle.capnp_arena.specs.Segment.{segment};
    ghost use Rattle.capnp_arena.specs.Shape.{CompositeIn, ListIn, StructIn, shape_at, word_count};
    ghost use Rattle.capnp_arena.specs.Forest.{Changes, Forest, PartChanges, Planted, struct_from, tree};

    /// A message whose root is null.
    ///
    /// Refused with `OutOfMemory`.
    pub fn new(alloc: Global) -> Result<Arena>
        ensures inside { IfOk result (λ arena. 0 < word_count (segment arena)) }
        ensures forest { IfOk result (λ arena. Forest (segment arena) 0) }
        ensures null { IfOk result (λ arena. tree (segment arena) 0 ≡ Null) }
        ensures alone { IfOk result (λ arena. length (segment arena) ≡ 8) }
        ensures limit { IfOk result (λ arena. arena.limit ≡ words_past_format - 1) }
        ensures kind { IfErr result (λ e. e.kind ≡ OutOfMemory) }
    {
        Arena::with_limit(alloc, MOST_WORDS)
    }

    /// A message whose root is null, and whose segment never has more words than so many: the root pointer, what it
    /// leads to, and what was replaced or cleared since the message was compacted. A call that would add more is
    /// refused with `OutOfMemory`. No segment has more than 2^29 - 1 words, and each has the root pointer.
    ///
    /// Refused with `OutOfMemory`.
    pub fn with_limit(alloc: Global, words: usize) -> Result<Arena>
        ensures inside { IfOk result (λ arena. 0 < word_count (segment arena)) }
        ensures forest { IfOk result (λ arena. Forest (segment arena) 0) }
        ensures null { IfOk result (λ arena. tree (segment arena) 0 ≡ Null) }
        ensures alone { IfOk result (λ arena. length (segment arena) ≡ 8) }
        ensures limit { IfOk result (λ arena. (1 ≤ words → words < words_past_format → arena.limit ≡ words)) }
        ensures least { IfOk result (λ arena. (words ≡ 0 → arena.limit ≡ 1)) }
        ensures most { IfOk result (λ arena. (words_past_format ≤ words → arena.limit ≡ words_past_format - 1)) }
        ensures kind { IfErr result (λ e. e.kind ≡ OutOfMemory) }
    {
        let mut bytes = Vec::with_capacity(alloc, FIRST_ROOM)?;
        append_zeros(&mut bytes, 1)?;
        let limit = words.max(1).min(MOST_WORDS);
        Ok(Arena { bytes, limit })
    }

    /// The words that the segment never has more of.
    #[inline(always)]
    pub fn get_limit(&self) -> usize
        ensures limit { result ≡ self.now.limit }
        ensures within { word_count (segment self.now) ≤ result }
        ensures few { result < words_past_format }
    {
        self.limit
    }

    /// Whether so many words more are within the limit. It is asked before memory is taken for them, here or beside the
    /// segment.
    #[inline(always)]
    pub(crate) fn has_room(&self, words: usize) -> bool
        requires { words < 2 ^ 61 }
        ensures { IsTrue result ↔ (word_count (segment self.now) + words ≤ self.now.limit) }
    {
        self.bytes.len() / 8 + words <= self.limit
    }

    /// So many words of zeros at the end.
    ///
    /// Refused with `OutOfMemory`, also where there would be more words than the limit; then nothing has changed.
    pub(crate) fn grow(&mut self, words: usize) -> Result<()>
        requires { words < 2 ^ 32 }
        ensures longer { IfOk result (λ _. segment self.new ≡ segment self.old ++ replicate (8 * words) 0) }
        ensures few { IfOk result (λ _. word_count (segment self.old) + words < words_past_format) }
        ensures limit { self.new.limit ≡ self.old.limit }
        ensures kind { IfErr result (λ e. e.kind ≡ OutOfMemory) }
        ensures refused { OnErr result (segment self.new ≡ segment self.old) }
    {
        if !self.has_room(words) {
            return Err(Error::from(ErrorKind::OutOfMemory));
        }
        append_zeros(&mut self.bytes, words)?;
        Ok(())
    }

    /// Makes a pointer lead to so many new words of zeros.
    ///
    /// Refused with `OutOfMemory`; then nothing has changed.
    #[inline(always)]
    fn make(&mut self, at: usize, word: u64, words: usize) -> Result<()>
        requires inside { at < word_count (segment self.old) }
        requires few { words < 2 ^ 32 }
        ensures made { IfOk result (λ _. IsObjectMade (segment self.old) (segment self.new)
            (replicate (8 * words) 0) at word) }
        ensures kind { IfErr result (λ e. e.kind ≡ OutOfMemory) }
        ensures refused { OnErr result (segment self.new ≡ segment self.old) }
    {
        self.grow(words)?;
        put_word(&mut self.bytes, 8 * at, word);
        Ok(())
    }

    /// Makes a pointer lead to these bytes at the end, with zeros up to so many words.
    ///
    /// Refused with `OutOfMemory`; then nothing has changed.
    #[inline(always)]
    pub(crate) fn make_with(
        &mut self,
        at: usize,
        word: u64,
        words: usize,
        content: &[u8],
    ) -> Result<()>
        requires inside { at < word_count (segment self.old) }
        requires few { words < 2 ^ 32 }
        requires room { length content.now ≤ 8 * words }
        ensures made { IfOk result (λ _. IsObjectMade (segment self.old) (segment self.new)
            (filled_up words content.now) at word) }
        ensures kind { IfErr result (λ e. e.kind ≡ OutOfMemory) }
        ensures refused { OnErr result (segment self.new ≡ segment self.old) }
    {
        let end = self.bytes.len();
        self.grow(words)?;
        put_bytes(&mut self.bytes, end, content);
        put_word(&mut self.bytes, 8 * at, word);
        Ok(())
    }

    /// Makes a pointer lead to this word at the end, with zeros up to so many words. Refused with `OutOfMemory`.
    #[inline(always)]
    fn make_tagged(&mut self, at: usize, word: u64, words: usize, tag: u64) -> Result<()>
        requires inside { at < word_count (segment self.old) }
        requires few { (0 < words) × (words < 2 ^ 32) }
        ensures made { IfOk result (λ _. IsObjectMade (segment self.old) (segment self.new)
            (filled_up words (spelled_number 8 tag)) at word) }
        ensures kind { IfErr result (λ e. e.kind ≡ OutOfMemory) }
        ensures refused { OnErr result (segment self.new ≡ segment self.old) }
    {
        let end = self.bytes.len();
        self.grow(words)?;
        put_word(&mut self.bytes, end, tag);
        put_word(&mut self.bytes, 8 * at, word);
        Ok(())
    }

    /// Makes the pointer at a word null. What it led to stays where it was; no memory is taken.
    ///
    /// # Conditions
    ///
    /// The word lies inside the message's segment.
    pub fn clear(&mut self, at: usize)
        requires inside { at < word_count (segment self.old) }
        ensures forest { Forest (segment self.new) at }
        ensures tree { tree (segment self.new) at ≡ Null }
        ensures changes { Changes at (segment self.old) (segment self.new) }
        ensures long { length (segment self.new) ≡ length (segment self.old) }
    {
        put_word(&mut self.bytes, 8 * at, 0);
    }

    /// Makes the pointer at a word one to a new struct, all zero and null.
    ///
    /// Refused with `OutOfMemory`; then nothing has changed.
    ///
    /// # Conditions
    ///
    /// The word lies inside the message's segment.
    pub fn init_struct(&mut self, at: usize, size: StructSize) -> Result<Place>
        requires inside { at < word_count (segment self.old) }
        ensures forest { IfOk result (λ _. Forest (segment self.new) at) }
        ensures place { IfOk result (λ p. shape_at (segment self.new) at ≡ StructIn p.start p.data_words p.pointers) }
        ensures size { IfOk result (λ p. (p.data_words ≡ size.data_words) × (p.pointers ≡ size.pointers)) }
        ensures tree { IfOk result (λ _. tree (segment self.new) at ≡ struct_tree (zero_struct size)) }
        ensures changes { IfOk result (λ _. Changes at (segment self.old) (segment self.new)) }
        ensures kind { IfErr result (λ e. e.kind ≡ OutOfMemory) }
        ensures refused { OnErr result (segment self.new ≡ segment self.old) }
    {
        let end = self.bytes.len() / 8;
        let words = size.data_words as usize + size.pointers as usize;
        self.make(at, get_struct_pointer(end, at, size), words)?;
        Ok(Place {
            start: get_struct_start(end, at, words),
            data_words: size.data_words,
            pointers: size.pointers,
        })
    }

    /// Makes the pointer at a word one to a new list of so many elements of a size, all zero, false or null, and
    /// answers where it starts.
    ///
    /// Refused with `SizePastFormat` for 2^29 elements or more, and else with `OutOfMemory`; then nothing has changed.
    ///
    /// # Conditions
    ///
    /// The word lies inside the message's segment. `size` is not `InlineComposite`.
    pub fn init_list(&mut self, at: usize, size: ElementSize, count: u32) -> Result<usize>
        requires inside { at < word_count (segment self.old) }
        requires simple { size ≢ ElementSize.InlineComposite }
        ensures forest { IfOk result (λ _. Forest (segment self.new) at) }
        ensures place { IfOk result (λ start. shape_at (segment self.new) at ≡ ListIn start (size_number size) count) }
        ensures tree { IfOk result (λ _. tree (segment self.new) at ≡ zero_list size count) }
        ensures changes { IfOk result (λ _. Changes at (segment self.old) (segment self.new)) }
        ensures within { OnOk result (count < words_past_format) }
        ensures cause { IfErr result (λ e. IsRoomRefusal e (words_past_format ≤ count)) }
        ensures refused { OnErr result (segment self.new ≡ segment self.old) }
    {
        if count >= 1 << 29 {
            return Err(Error::from(ErrorKind::SizePastFormat));
        }
        let end = self.bytes.len() / 8;
        let word = make_list_word((end - at - 1) as u64, get_size_number(size), count as u64);
        self.make(at, word, get_list_words(size, count))?;
        Ok(end)
    }

    /// Makes the pointer at a word one to a new list of so many structs of a size, all zero and null, and answers where
    /// its tag stands.
    ///
    /// Refused with `SizePastFormat` for 2^29 elements or more, or where they take 2^29 words or more, and else with
    /// `OutOfMemory`; then nothing has changed.
    ///
    /// # Conditions
    ///
    /// The word lies inside the message's segment.
    pub fn init_struct_list(&mut self, at: usize, count: u32, size: StructSize) -> Result<usize>
        requires inside { at < word_count (segment self.old) }
        ensures forest { IfOk result (λ _. Forest (segment self.new) at) }
        ensures place { IfOk result (λ tag. shape_at (segment self.new) at
            ≡ CompositeIn tag count size.data_words size.pointers) }
        ensures tree { IfOk result (λ _. tree (segment self.new) at ≡ zero_structs size count) }
        ensures changes { IfOk result (λ _. Changes at (segment self.old) (segment self.new)) }
        ensures within { OnOk result ((count < words_past_format) × (count * (size.data_words + size.pointers) < words_past_format)) }
        ensures cause { IfErr result (λ e. IsRoomRefusal e
            ((words_past_format ≤ count) ⊎ (words_past_format ≤ count * (size.data_words + size.pointers)))) }
        ensures refused { OnErr result (segment self.new ≡ segment self.old) }
    {
        if count >= 1 << 29 {
            return Err(Error::from(ErrorKind::SizePastFormat));
        }
        let words = count as usize * (size.data_words as usize + size.pointers as usize);
        if words >= 1 << 29 {
            return Err(Error::from(ErrorKind::SizePastFormat));
        }
        let end = self.bytes.len() / 8;
        let word = make_list_word((end - at - 1) as u64, 7, words as u64);
        let tag = make_struct_word(count as u64, size.data_words as u64, size.pointers as u64);
        self.make_tagged(at, word, words + 1, tag)?;
        Ok(end)
    }

    /// Makes the pointer at a word one to a copy of these bytes.
    ///
    /// Refused with `SizePastFormat` for 2^29 bytes or more, and else with `OutOfMemory`; then nothing has changed.
    ///
    /// # Conditions
    ///
    /// The word lies inside the message's segment.
    pub fn set_data(&mut self, at: usize, bytes: &[u8]) -> Result<()>
        requires inside { at < word_count (segment self.old) }
        ensures forest { OnOk result (Forest (segment self.new) at) }
        ensures tree { OnOk result (tree (segment self.new) at ≡ Numbers 1 bytes.now) }
        ensures changes { OnOk result (Changes at (segment self.old) (segment self.new)) }
        ensures within { OnOk result (length bytes.now < words_past_format) }
        ensures cause { IfErr result (λ e. IsRoomRefusal e (words_past_format ≤ length bytes.now)) }
        ensures refused { OnErr result (segment self.new ≡ segment self.old) }
    {
        if bytes.len() >= 1 << 29 {
            return Err(Error::from(ErrorKind::SizePastFormat));
        }
        let end = self.bytes.len() / 8;
        let word = make_list_word((end - at - 1) as u64, 2, bytes.len() as u64);
        self.make_with(at, word, (bytes.len() + 7) / 8, bytes)?;
        Ok(())
    }

    /// Makes the pointer at a word one to a copy of a text, with a zero after it.
    ///
    /// Refused with `SizePastFormat` for 2^29 - 1 bytes or more, and else with `OutOfMemory`; then nothing has changed.
    ///
    /// # Conditions
    ///
    /// The word lies inside the message's segment.
    pub fn set_text(&mut self, at: usize, text: &[u8]) -> Result<()>
        requires inside { at < word_count (segment self.old) }
        ensures forest { OnOk result (Forest (segment self.new) at) }
        ensures tree { OnOk result (tree (segment self.new) at ≡ Numbers 1 (text.now ++ 0 ∷ [])) }
        ensures changes { OnOk result (Changes at (segment self.old) (segment self.new)) }
        ensures within { OnOk result (length text.now + 1 < words_past_format) }
        ensures cause { IfErr result (λ e. IsRoomRefusal e (words_past_format ≤ length text.now + 1)) }
        ensures refused { OnErr result (segment self.new ≡ segment self.old) }
    {
        if text.len() >= (1 << 29) - 1 {
            return Err(Error::from(ErrorKind::SizePastFormat));
        }
        let end = self.bytes.len() / 8;
        let word = make_list_word((end - at - 1) as u64, 2, text.len() as u64 + 1);
        self.make_with(at, word, text.len() / 8 + 1, text)?;
        Ok(())
    }

    /// Stores a number in the data of a struct, at an offset in units of its width. No memory is taken.
    ///
    /// # Conditions
    ///
    /// The place is that of a struct of this message (`Planted`), and the number lies inside its data section.
    pub fn set_number<T: PrimitiveElement>(&mut self, place: Place, offset: u32, value: T)
        requires planted { Planted (segment self.old) (StructIn place.start place.data_words place.pointers) }
        requires inside { (offset + 1) * T.width ≤ 8 * place.data_words }
        ensures planted { Planted (segment self.new) (StructIn place.start place.data_words place.pointers) }
        ensures changes { PartChanges (StructIn place.start place.data_words place.pointers) (segment self.old)
            (segment self.new) }
        ensures tree { struct_from (segment self.new) place.start place.data_words place.pointers ≡
            with_bytes (struct_from (segment self.old) place.start place.data_words place.pointers)
            (with_number T.width offset (T.to_number value)
            (struct_from (segment self.old) place.start place.data_words place.pointers).bytes) }
        ensures long { length (segment self.new) ≡ length (segment self.old) }
    {
        write_number(
            &mut self.bytes,
            8 * place.start,
            8 * place.data_words as usize,
            offset,
            value,
        );
    }

    /// Stores a number in the data of a struct, XORed with its default `mask`. No memory is taken.
    ///
    /// # Conditions
    ///
    /// The place is that of a struct of this message (`Planted`), and the number lies inside its data section.
    pub fn set_number_mask<T: PrimitiveElement>(
        &mut self,
        place: Place,
        offset: u32,
        value: T,
        mask: T,
    )
        requires planted { Planted (segment self.old) (StructIn place.start place.data_words place.pointers) }
        requires inside { (offset + 1) * T.width ≤ 8 * place.data_words }
        ensures planted { Planted (segment self.new) (StructIn place.start place.data_words place.pointers) }
        ensures changes { PartChanges (StructIn place.start place.data_words place.pointers) (segment self.old)
            (segment self.new) }
        ensures tree { struct_from (segment self.new) place.start place.data_words place.pointers ≡
            with_bytes (struct_from (segment self.old) place.start place.data_words place.pointers)
            (with_number T.width offset (bit_xor (T.to_number value) (T.to_number mask))
            (struct_from (segment self.old) place.start place.data_words place.pointers).bytes) }
        ensures long { length (segment self.new) ≡ length (segment self.old) }
    {
        write_number_mask(
            &mut self.bytes,
            8 * place.start,
            8 * place.data_words as usize,
            offset,
            value,
            mask,
        );
    }
}
