//! Structs that are got with at least a size.
ghost use Rattle.std.specs.Prelude.{IfErr, IfOk, length, max, ◌*◌, ◌+◌, ◌/◌, ◌<◌, ◌≡◌, ◌≤◌};
ghost use Rattle.capnp_device.specs.declared.error.ErrorKind.TheVariants.{OutOfMemory};
ghost use Rattle.capnp_wire.specs.Edits.{extended_struct};
ghost use Rattle.capnp_wire.specs.Encoding.{bytes_of};
ghost use Rattle.capnp_wire.specs.Locate.{words_past_format};
ghost use Rattle.capnp_wire.specs.Steps.WellFormed.{IsElement};
ghost use Rattle.capnp_wire.specs.Place.{struct_tree};
ghost use Rattle.capnp_arena.specs.Forest.{Forest, struct_from};
ghost use Rattle.capnp_arena.specs.Shape.{StructIn, shape_at, word_count};

use crate::arena::{Arena, Place};
use crate::grown::{PartRow, encode_grown};
use crate::look::Target;
use crate::spell::make_struct_word;
use capnp_device::error::{Error, ErrorKind, Result};
use capnp_wire::size::StructSize;
use std::alloc::Global;

impl Place {
    /// At least a size, and what the struct has.
    #[inline(always)]
    fn grow(self, size: StructSize) -> StructSize
        ensures data { result.data_words ≡ max size.data_words self.data_words }
        ensures pointers { result.pointers ≡ max size.pointers self.pointers }
    {
        StructSize {
            data_words: size.data_words.max(self.data_words),
            pointers: size.pointers.max(self.pointers),
        }
    }
}

/// The encoding of the struct that a pointer leads to with at least a size, where there is room for the struct itself in
/// so many words: what its pointers lead to stands in the segment, so no more words are taken than these.
///
/// Refused with `OutOfMemory`.
fn encode_larger(
    alloc: Global,
    bytes: &[u8],
    at: usize,
    place: Place,
    size: StructSize,
    limit: usize,
) -> Result<Vec<u8>>
    requires forest { Forest bytes.now at }
    requires there { shape_at bytes.now at ≡ StructIn place.start place.data_words place.pointers }
    requires few { limit < words_past_format }
    requires room { word_count bytes.now + (size.data_words + size.pointers) ≤ limit }
    requires larger { (place.data_words ≤ size.data_words) × (place.pointers ≤ size.pointers) }
    ensures content { IfOk result (λ v. v.items
        ≡ bytes_of (struct_tree (extended_struct size (struct_from bytes.now place.start place.data_words place.pointers)))) }
    ensures held { IfOk result (λ _. IsElement size.data_words size.pointers
        (extended_struct size (struct_from bytes.now place.start place.data_words place.pointers))) }
    ensures words { IfOk result (λ v. (length v.items ≡ 8 * (length v.items / 8)) × (length v.items ≤ 8 * limit)) }
    ensures kind { IfErr result (λ e. e.kind ≡ OutOfMemory) }
{
    let row = PartRow {
        first_byte: 8 * place.start,
        data_count: 8 * place.data_words as usize,
        data_step: 0,
        first: place.start + place.data_words as usize,
        pointers: place.pointers as usize,
        pointer_step: 0,
    };
    let content = encode_grown(alloc, bytes, row, size)?;
    Ok(content)
}

impl Arena {
    ghost use Rattle.std.specs.Prelude.{IsOk, None, OnErr, OnOk};
    ghost use Rattle.capnp_wire.specs.Edits.{HoldsStruct, IsStructRefusal, struct_in, struct_refusal};
    ghost use Rattle.capnp_arena.specs.Forest.{Changes, tree};
    ghost use Rattle.capnp_arena.specs.Segment.{segment};

    /// Makes the pointer at a word, which leads to a struct, lead to a larger one at the end: with its data and zeros
    /// after that, and copies of what its pointers lead to and nulls after these.
    ///
    /// Refused with `OutOfMemory`; then nothing has changed.
    #[inline(never)]
    fn extend_struct(&mut self, at: usize, place: Place, size: StructSize) -> Result<Place>
        requires forest { Forest (segment self.old) at }
        requires there { shape_at (segment self.old) at ≡ StructIn place.start place.data_words place.pointers }
        requires larger { (place.data_words ≤ size.data_words) × (place.pointers ≤ size.pointers)
            × (0 < size.data_words + size.pointers) }
        ensures forest { IfOk result (λ _. Forest (segment self.new) at) }
        ensures place { IfOk result (λ p. shape_at (segment self.new) at ≡ StructIn p.start p.data_words p.pointers) }
        ensures tree { IfOk result (λ _. tree (segment self.new) at
            ≡ struct_tree (extended_struct size (struct_from
            (segment self.old) place.start place.data_words place.pointers))) }
        ensures changes { IfOk result (λ _. Changes at (segment self.old) (segment self.new)) }
        ensures kind { IfErr result (λ e. e.kind ≡ OutOfMemory) }
        ensures refused { OnErr result (segment self.new ≡ segment self.old) }
    {
        if !self.has_room(size.data_words as usize + size.pointers as usize) {
            return Err(Error::from(ErrorKind::OutOfMemory));
        }
        let alloc = *self.bytes.allocator();
        let bytes = self.bytes.as_slice();
        let content = encode_larger(alloc, bytes, at, place, size, self.limit)?;
        let end = self.bytes.len() / 8;
        let word = make_struct_word(
            (end - at - 1) as u64,
            size.data_words as u64,
            size.pointers as u64,
        );
        self.make_with(at, word, content.len() / 8, content.as_slice())?;
        Ok(Place {
            start: end,
            data_words: size.data_words,
            pointers: size.pointers,
        })
    }

    /// The struct that the pointer at a word leads to, with at least a size. A null becomes a struct of that size, all
    /// zero and null. A smaller struct becomes a larger one at the end, with zeros and nulls after what it had.
    ///
    /// Refused with `WrongPointerKind` for a list, and else with `OutOfMemory`; then nothing has changed. A struct that
    /// is large enough takes no memory, is never refused, and stays where it is.
    ///
    /// # Conditions
    ///
    /// The pointer at the word leads to a tree of this message, no two of whose parts share a word (`Forest`).
    #[inline(always)]
    pub fn get_struct(&mut self, at: usize, size: StructSize) -> Result<Place>
        requires forest { Forest (segment self.old) at }
        ensures forest { IfOk result (λ _. Forest (segment self.new) at) }
        ensures place { IfOk result (λ p. shape_at (segment self.new) at ≡ StructIn p.start p.data_words p.pointers) }
        ensures tree { IfOk result (λ _. tree (segment self.new) at
            ≡ struct_tree (extended_struct size (struct_in (tree (segment self.old) at)))) }
        ensures changes { IfOk result (λ _. Changes at (segment self.old) (segment self.new)) }
        ensures within { OnOk result (struct_refusal (tree (segment self.old) at) ≡ None) }
        ensures cause { IfErr result (λ e. IsStructRefusal e (tree (segment self.old) at)) }
        ensures refused { OnErr result (segment self.new ≡ segment self.old) }
        ensures succeeds { HoldsStruct size (tree (segment self.old) at) → IsOk result }
        ensures stays { HoldsStruct size (tree (segment self.old) at) → segment self.new ≡ segment self.old }
    {
        match self.look(at) {
            Target::Null => self.init_struct(at, size),
            Target::Struct {
                start,
                data_words,
                pointers,
            } => {
                let place = Place {
                    start,
                    data_words,
                    pointers,
                };
                if size.data_words <= data_words && size.pointers <= pointers {
                    return Ok(place);
                }
                self.extend_struct(at, place, place.grow(size))
            }
            Target::List { .. } => Err(Error::from(ErrorKind::WrongPointerKind)),
            Target::Composite { .. } => Err(Error::from(ErrorKind::WrongPointerKind)),
        }
    }
}
