//! Texts and data that are built: their bytes are lent where they stand.
ghost use Rattle.capnp_wire.specs.Locate.{words_past_format};

use crate::arena::Arena;
use crate::lists::ListPlace;
use crate::look::Target;
use crate::pointer_builder::PointerBuilder;
use capnp_device::error::{Error, ErrorKind, Result};
use capnp_wire::size::ElementSize;

/// So many bytes from a word on.
#[derive(Clone, Copy)]
pub(crate) struct Bytes {
    start: usize,
    count: usize,
}

/// The bytes of a text or of data that is built: the message beside the pointer that leads to them, and where they
/// stand.
#[derive(Drop)]
pub struct BlobBuilder<'a> {
    pub arena: &'a mut Arena,
    /// The pointer's word.
    pub at: usize,
    /// The word where the bytes start.
    pub start: usize,
    /// How many there are.
    pub count: usize,
}

impl Arena {
    ghost use Rattle.std.specs.Prelude.{List, ℕ, IfErr, IfOk, OnErr, OnOk, drop, length, replicate, ◌*◌, ◌+◌, ◌++◌, ◌<◌, ◌≡◌, ◌≤◌};
    ghost use Rattle.capnp_wire.specs.Edits.{IsRoomRefusal};
    ghost use Rattle.capnp_wire.specs.Tree.{Numbers};
    ghost use Rattle.capnp_arena.specs.Leaves.{Leaves};
    ghost use Rattle.capnp_arena.specs.Shape.{ListIn, shape_at, word_count};
    ghost use Rattle.std.specs.Borrow.{sem};
    ghost use Rattle.capnp_wire.specs.Place.{bytes_at};
    ghost use Rattle.capnp_wire.specs.Reading.{as_data, as_text};
    ghost use Rattle.capnp_arena.specs.Blobs.{IsFront, with_front};
    ghost use Rattle.capnp_arena.specs.Steps.Blobs.{bytes_found};
    ghost use Rattle.capnp_arena.specs.Forest.{Changes, Forest, tree};
    ghost use Rattle.capnp_arena.specs.Parts.{with_struct_part};
    ghost use Rattle.capnp_arena.specs.Steps.Parts.{LendsPart};
    ghost use Rattle.capnp_arena.specs.Segment.{segment};

    /// So many bytes from a word on, as they stand. The message ends with what is left in them.
    ///
    /// # Conditions
    ///
    /// The bytes lie inside the message's segment.
    pub fn part_mut(&mut self, start: usize, count: usize) -> &mut [u8]
        requires inside { 8 * start + count ≤ length (segment self.old) }
        ensures* lends { sem 𝓛 (LendsPart self.entry start result) }
        ensures now { result.now ≡ bytes_at (segment self.old) start count }
        ensures long { length result.now ≡ count }
    {
        let bytes = &mut self.bytes;
        bytes.slice_mut(8 * start..8 * start + count)
    }

    /// Where the bytes of the data stand that the pointer at a word leads to, of a null none.
    ///
    /// Refused as `get_data`.
    fn find_data(&self, at: usize) -> Result<Bytes>
        requires forest { Forest (segment self.now) at }
        ensures inside { IfOk result (λ b. 8 * b.start + b.count ≤ length (segment self.now)) }
        ensures front { IfOk result (λ b. IsFront (segment self.now) at b.start b.count) }
        ensures found { bytes_found (segment self.now) result ≡ as_data (tree (segment self.now) at) }
    {
        match self.look(at) {
            Target::Null => Ok(Bytes { start: 0, count: 0 }),
            Target::Struct { .. } => Err(Error::from(ErrorKind::WrongPointerKind)),
            Target::List {
                start,
                element_size,
                count,
            } => {
                if element_size != 2 {
                    return Err(Error::from(ErrorKind::WrongElementSize));
                }
                let count = count as usize;
                Ok(Bytes { start, count })
            }
            Target::Composite { .. } => Err(Error::from(ErrorKind::WrongElementSize)),
        }
    }

    /// Where the bytes of the text stand that the pointer at a word leads to, without the zero that ends it; of a null
    /// none.
    ///
    /// Refused as `get_text`.
    fn find_text(&self, at: usize) -> Result<Bytes>
        requires forest { Forest (segment self.now) at }
        ensures inside { IfOk result (λ b. 8 * b.start + b.count ≤ length (segment self.now)) }
        ensures front { IfOk result (λ b. IsFront (segment self.now) at b.start b.count) }
        ensures found { bytes_found (segment self.now) result ≡ as_text (tree (segment self.now) at) }
    {
        let text = self.get_text(at)?;
        let count = text.len();
        let found = self.find_data(at)?;
        Ok(Bytes {
            start: found.start,
            count,
        })
    }

    /// Makes the pointer at a word one to a new text of so many zero bytes, and answers where they start.
    ///
    /// Refused with `SizePastFormat` where these would be 2^29 bytes or more with the zero that ends them, and else
    /// with `OutOfMemory`; then nothing has changed.
    fn init_text_list(&mut self, at: usize, count: u32) -> Result<usize>
        requires inside { at < word_count (segment self.old) }
        ensures forest { IfOk result (λ _. Forest (segment self.new) at) }
        ensures place { IfOk result (λ start. shape_at (segment self.new) at ≡ ListIn start 2 (count + 1)) }
        ensures tree { IfOk result (λ _. tree (segment self.new) at ≡ Numbers 1 (replicate (count + 1) 0)) }
        ensures changes { IfOk result (λ _. Changes at (segment self.old) (segment self.new)) }
        ensures within { OnOk result (count + 1 < words_past_format) }
        ensures cause { IfErr result (λ e. IsRoomRefusal e (words_past_format ≤ count + 1)) }
        ensures refused { OnErr result (segment self.new ≡ segment self.old) }
    {
        if count >= (1 << 29) - 1 {
            return Err(Error::from(ErrorKind::SizePastFormat));
        }
        self.init_list(at, ElementSize::Byte, count + 1)
    }

    /// The first bytes of the list of bytes that the pointer at a word leads to, of a null none, as they stand. The
    /// message ends with what is left in them (`leaves`).
    ///
    /// # Conditions
    ///
    /// The pointer at the word leads to a tree of this message, no two of whose parts share a word (`Forest`). The
    /// bytes are the first of the list of bytes that it leads to, of a null none (`IsFront`).
    pub fn front_mut(&mut self, at: usize, start: usize, count: usize) -> &mut [u8]
        requires forest { Forest (segment self.old) at }
        requires front { IsFront (segment self.old) at start count }
        ensures* lends { sem 𝓛 (LendsPart self.entry start result) }
        ensures now { result.now ≡ bytes_at (segment self.old) start count }
        ensures long { length result.now ≡ count }
        ensures leaves { (left : List ℕ) → length left ≡ count
            → Leaves at (with_front left (tree (segment self.old) at)) (segment self.old)
            (segment (with_struct_part self.old start left)) }
    {
        self.part_mut(start, count)
    }

    /// The first bytes of the list of bytes that the pointer at a word leads to, as they stand. The message ends with
    /// what is left in them (`leaves`).
    ///
    /// # Conditions
    ///
    /// The pointer at the word leads to a tree of this message, no two of whose parts share a word (`Forest`). `list`
    /// is the list of bytes that it leads to, and `count` is no more than this has.
    pub fn bytes_mut(&mut self, at: usize, list: ListPlace, count: usize) -> &mut [u8]
        requires forest { Forest (segment self.old) at }
        requires there { shape_at (segment self.old) at ≡ ListIn list.start 2 list.count }
        requires inside { count ≤ list.count }
        ensures* lends { sem 𝓛 (LendsPart self.entry list.start result) }
        ensures now { result.now ≡ bytes_at (segment self.old) list.start count }
        ensures long { length result.now ≡ count }
        ensures leaves { (left : List ℕ) → length left ≡ count
            → Leaves at (Numbers 1 (left ++ drop count (bytes_at (segment self.old) list.start list.count)))
            (segment self.old) (segment (with_struct_part self.old list.start left)) }
    {
        self.part_mut(list.start, count)
    }
}

impl<'a> BlobBuilder<'a> {
    ghost use Rattle.std.specs.Prelude.{List, ℕ, length, ◌≡◌};
    ghost use Rattle.std.specs.Borrow.{sem};
    ghost use Rattle.capnp_arena.specs.Blobs.{IsBlob, blob_bytes, with_front};
    ghost use Rattle.capnp_arena.specs.Forest.{tree};
    ghost use Rattle.capnp_arena.specs.Leaves.{Leaves};
    ghost use Rattle.capnp_arena.specs.Parts.{with_struct_part};
    ghost use Rattle.capnp_arena.specs.Steps.Parts.{LendsPart};
    ghost use Rattle.capnp_arena.specs.Segment.{segment};

    /// How many bytes there are.
    #[inline(always)]
    pub fn len(&self) -> usize
        ensures { result ≡ self.now.count }
    {
        self.count
    }

    /// The bytes, for as long as the builder would be there. The message ends with what is left in them (`leaves`).
    ///
    /// # Conditions
    ///
    /// A tree of the message stands at the builder's pointer. The bytes are the first of the list of bytes that it
    /// leads to, of a null none (`IsBlob`).
    pub fn into_bytes(self) -> &'a mut [u8]
        requires { IsBlob self }
        ensures* lends { sem 𝓛 (LendsPart self.entry.arena self.entry.start result) }
        ensures now { result.now ≡ blob_bytes self.entry }
        ensures long { length result.now ≡ self.entry.count }
        ensures leaves { (left : List ℕ) → length left ≡ self.entry.count
            → Leaves self.entry.at (with_front left (tree (segment self.entry.arena.now) self.entry.at))
            (segment self.entry.arena.now) (segment (with_struct_part self.entry.arena.now self.entry.start left)) }
    {
        let BlobBuilder {
            arena,
            at,
            start,
            count,
        } = self;
        arena.front_mut(at, start, count)
    }
}

impl<'a> PointerBuilder<'a> {
    ghost use Rattle.std.specs.Prelude.{List, ℕ, IfErr, IfOk, OnOk, drop, length, replicate, ◌+◌, ◌++◌, ◌<◌, ◌≡◌, ◌≤◌};
    ghost use Rattle.std.specs.Borrow.{sem};
    ghost use Rattle.capnp_wire.specs.Place.{bytes_at};
    ghost use Rattle.capnp_wire.specs.Tree.{Numbers};
    ghost use Rattle.capnp_arena.specs.Leaves.{Leaves};
    ghost use Rattle.capnp_arena.specs.Parts.{with_struct_part};
    ghost use Rattle.capnp_arena.specs.Steps.Parts.{LendsPart};
    ghost use Rattle.capnp_wire.specs.Edits.{IsRoomRefusal};
    ghost use Rattle.capnp_wire.specs.Reading.{as_data, as_text};
    ghost use Rattle.capnp_arena.specs.Blobs.{IsBlob, blob_bytes, bytes_built};
    ghost use Rattle.capnp_arena.specs.Steps.Blobs.{BlobRests};
    ghost use Rattle.capnp_arena.specs.Forest.{Changes, tree};
    ghost use Rattle.capnp_arena.specs.Handles.{IsBuiltPointer, built_pointer_tree};
    ghost use Rattle.capnp_arena.specs.Segment.{segment};
    ghost use Rattle.capnp_arena.specs.Shape.{ListIn, shape_at, word_count};

    /// The bytes of the data that stands here, to be changed; none for a null, which stays null.
    ///
    /// Refused with `WrongPointerKind` for a struct, and with `WrongElementSize` for another list. Nothing has changed
    /// then.
    ///
    /// # Conditions
    ///
    /// A tree of the message stands at the pointer (`IsBuiltPointer`).
    pub fn get_data_mut(self) -> Result<BlobBuilder<'a>>
        requires forest { IsBuiltPointer self }
        ensures* rests { sem 𝓛 (BlobRests self.entry.arena result) }
        ensures same { IfOk result (λ b. b.arena.ghost_name ≡ self.entry.arena.ghost_name) }
        ensures now { IfOk result (λ b. b.arena.now ≡ self.entry.arena.now) }
        ensures at { IfOk result (λ b. b.at ≡ self.entry.at) }
        ensures there { IfOk result IsBlob }
        ensures bytes { bytes_built result ≡ as_data (built_pointer_tree self.entry) }
    {
        let PointerBuilder { arena, at } = self;
        let Bytes { start, count } = arena.find_data(at)?;
        Ok(BlobBuilder {
            arena,
            at,
            start,
            count,
        })
    }

    /// The bytes of the text that stands here, without the zero that ends it, to be changed; none for a null, which
    /// stays null.
    ///
    /// Refused as `get_data_mut`, and with `TextNotTerminated` where the list is empty or its last byte is not zero.
    /// Nothing has changed then.
    ///
    /// # Conditions
    ///
    /// A tree of the message stands at the pointer (`IsBuiltPointer`).
    pub fn get_text_mut(self) -> Result<BlobBuilder<'a>>
        requires forest { IsBuiltPointer self }
        ensures* rests { sem 𝓛 (BlobRests self.entry.arena result) }
        ensures same { IfOk result (λ b. b.arena.ghost_name ≡ self.entry.arena.ghost_name) }
        ensures now { IfOk result (λ b. b.arena.now ≡ self.entry.arena.now) }
        ensures at { IfOk result (λ b. b.at ≡ self.entry.at) }
        ensures there { IfOk result IsBlob }
        ensures bytes { bytes_built result ≡ as_text (built_pointer_tree self.entry) }
    {
        let PointerBuilder { arena, at } = self;
        let Bytes { start, count } = arena.find_text(at)?;
        Ok(BlobBuilder {
            arena,
            at,
            start,
            count,
        })
    }

    /// Replaces what stands here by a list of so many zero bytes.
    ///
    /// Refused with `SizePastFormat` for 2^29 bytes or more, and else with `OutOfMemory`. Nothing has changed then.
    ///
    /// # Conditions
    ///
    /// The pointer's word lies inside the message's segment.
    pub fn init_data(self, count: u32) -> Result<BlobBuilder<'a>>
        requires inside { self.at < word_count (segment self.arena.now) }
        ensures* rests { sem 𝓛 (BlobRests self.entry.arena result) }
        ensures same { IfOk result (λ b. b.arena.ghost_name ≡ self.entry.arena.ghost_name) }
        ensures at { IfOk result (λ b. b.at ≡ self.entry.at) }
        ensures there { IfOk result IsBlob }
        ensures count { IfOk result (λ b. b.count ≡ count) }
        ensures bytes { IfOk result (λ b. blob_bytes b ≡ replicate count 0) }
        ensures tree { IfOk result (λ b. tree (segment b.arena.now) self.entry.at ≡ Numbers 1 (replicate count 0)) }
        ensures changes { IfOk result (λ b. Changes self.entry.at (segment self.entry.arena.now)
            (segment b.arena.now)) }
        ensures within { OnOk result (count < words_past_format) }
        ensures cause { IfErr result (λ e. IsRoomRefusal e (words_past_format ≤ count)) }
    {
        let PointerBuilder { arena, at } = self;
        let start = arena.init_list(at, ElementSize::Byte, count)?;
        Ok(BlobBuilder {
            arena,
            at,
            start,
            count: count as usize,
        })
    }

    /// Replaces what stands here by a text of so many zero bytes; the zero that ends it is not among them.
    ///
    /// Refused with `SizePastFormat` where these would be 2^29 bytes or more with that zero, and else with
    /// `OutOfMemory`. Nothing has changed then.
    ///
    /// # Conditions
    ///
    /// The pointer's word lies inside the message's segment.
    pub fn init_text(self, count: u32) -> Result<BlobBuilder<'a>>
        requires inside { self.at < word_count (segment self.arena.now) }
        ensures* rests { sem 𝓛 (BlobRests self.entry.arena result) }
        ensures same { IfOk result (λ b. b.arena.ghost_name ≡ self.entry.arena.ghost_name) }
        ensures at { IfOk result (λ b. b.at ≡ self.entry.at) }
        ensures there { IfOk result IsBlob }
        ensures count { IfOk result (λ b. b.count ≡ count) }
        ensures bytes { IfOk result (λ b. blob_bytes b ≡ replicate count 0) }
        ensures tree { IfOk result (λ b. tree (segment b.arena.now) self.entry.at
            ≡ Numbers 1 (replicate (count + 1) 0)) }
        ensures changes { IfOk result (λ b. Changes self.entry.at (segment self.entry.arena.now)
            (segment b.arena.now)) }
        ensures within { OnOk result (count + 1 < words_past_format) }
        ensures cause { IfErr result (λ e. IsRoomRefusal e (words_past_format ≤ count + 1)) }
    {
        let PointerBuilder { arena, at } = self;
        let start = arena.init_text_list(at, count)?;
        Ok(BlobBuilder {
            arena,
            at,
            start,
            count: count as usize,
        })
    }

    /// The first bytes of the list of bytes that stands here, for as long as the builder would be there. The message
    /// ends with what is left in them (`leaves`).
    ///
    /// # Conditions
    ///
    /// A tree of the message stands at the pointer (`IsBuiltPointer`). `list` is the list of bytes that the pointer
    /// leads to, and `count` is no more than it has.
    pub fn bytes_mut(self, list: ListPlace, count: usize) -> &'a mut [u8]
        requires forest { IsBuiltPointer self }
        requires there { shape_at (segment self.arena.now) self.at ≡ ListIn list.start 2 list.count }
        requires inside { count ≤ list.count }
        ensures* lends { sem 𝓛 (LendsPart self.entry.arena list.start result) }
        ensures now { result.now ≡ bytes_at (segment self.entry.arena.now) list.start count }
        ensures long { length result.now ≡ count }
        ensures leaves { (left : List ℕ) → length left ≡ count
            → Leaves self.entry.at (Numbers 1 (left ++ drop count
            (bytes_at (segment self.entry.arena.now) list.start list.count))) (segment self.entry.arena.now)
            (segment (with_struct_part self.entry.arena.now list.start left)) }
    {
        let PointerBuilder { arena, at } = self;
        arena.bytes_mut(at, list, count)
    }
}
