//! Data as they are built.
//!
//! A builder is the message beside the word of the data's pointer. Each call asks that data stand there, or a null, as
//! a builder that was handed out has it (`IsData`).
ghost use Rattle.std.specs.Prelude.{[], None, IfErr, IsTrue, OnErr, OnOk, length, replicate, slice_set, ◌≤◌, ◌<◌, ◌≡◌, ◌↔◌};
ghost use Rattle.std.specs.Borrow.{sem};
ghost use Rattle.capnp_wire.specs.Edits.{IsRoomRefusal};
ghost use Rattle.capnp_wire.specs.Locate.{words_past_format};
ghost use Rattle.capnp_wire.specs.Reading.{as_data};
ghost use Rattle.capnp_wire.specs.Tree.{Numbers};
ghost use Rattle.capnp_base.specs.ReadBack.{data_read_back};
ghost use Rattle.capnp_base.specs.Traits.{IsDefaultRefusal, IsReadRefusal, default_refusal, tree_or};
ghost use Rattle.capnp_arena.specs.Frame.{LeavesPointer};
ghost use Rattle.capnp_arena.specs.Forest.{Changes, Forest, tree};
ghost use Rattle.capnp_arena.specs.Segment.{segment};
ghost use Rattle.capnp_builders.specs.Blobs.{IsData, data_behind, data_bytes, data_there, data_word};
ghost use Rattle.capnp_builders.specs.Steps.Blobs.{LendsData};

use crate::defaults::{enter, fill};
use crate::traits::{self, FromPointerBuilder};
use capnp_arena::arena::Arena;
use capnp_arena::handles::PointerBuilder;
pub use capnp_base::data::{Owned, Reader};
use capnp_wire::PointerReader;
use capnp_wire::error::Result;
use capnp_wire::size::ElementSize;
use std::fmt;

impl<'a> traits::Owned<'a> for Owned {
    type Reader = Reader<'a>;

    type Builder = Builder<'a>;

    ghost same = { λ x y. y.now ≡ x.now };

    ghost set_is_read = { data_read_back };
}

/// Data that are built.
#[derive(Drop)]
pub struct Builder<'a> {
    pub arena: &'a mut Arena,
    /// The word of the data's pointer.
    pub at: usize,
}

impl fmt::Debug for Builder<'_> {
    fn fmt<W: fmt::Write>(&self, f: &mut fmt::Formatter<W>) -> fmt::Result {
        match self.arena.peek(self.at).get_data() {
            Ok(bytes) => write!(f, "{bytes:?}"),
            Err(_) => f.write_str("<invalid data>"),
        }
    }
}

impl<'a> Builder<'a> {
    /// A builder of the data at a pointer.
    pub fn new(builder: PointerBuilder<'a>) -> Builder<'a>
        ensures behind { data_behind result ≡ builder.entry.arena }
        ensures at { data_word result ≡ builder.entry.at }
    {
        let PointerBuilder { arena, at } = builder;
        Builder { arena, at }
    }

    /// A reader of the bytes.
    ///
    /// # Conditions
    ///
    /// Data of the message, or a null, stands at the pointer (`IsData`).
    #[tactic(auto, using(crate::proofs::Blobs::bytes_there))]
    pub fn reborrow_as_reader(&self) -> Reader<'_>
        requires { IsData self.now }
        ensures { result.now ≡ data_bytes self.now }
    {
        let Ok(bytes) = self.arena.get_data(self.at) else {
            unreachable!()
        };
        bytes
    }

    /// How many bytes there are.
    ///
    /// # Conditions
    ///
    /// Data of the message, or a null, stands at the pointer (`IsData`).
    pub fn len(&self) -> usize
        requires { IsData self.now }
        ensures { result ≡ length (data_bytes self.now) }
    {
        self.reborrow_as_reader().len()
    }

    /// Whether there is no byte.
    ///
    /// # Conditions
    ///
    /// Data of the message, or a null, stands at the pointer (`IsData`).
    pub fn is_empty(&self) -> bool
        requires { IsData self.now }
        ensures { IsTrue result ↔ (data_bytes self.now ≡ []) }
    {
        self.reborrow_as_reader().is_empty()
    }

    /// Writes the byte at an index.
    ///
    /// # Conditions
    ///
    /// Data of the message, or a null, stands at the pointer (`IsData`). `index` is below the number of its bytes.
    pub fn set(&mut self, index: usize, byte: u8)
        requires there { IsData self.old }
        requires inside { index < length (data_bytes self.old) }
        ensures same { (data_behind self.new).ghost_name ≡ (data_behind self.old).ghost_name }
        ensures at { data_word self.new ≡ data_word self.old }
        ensures bytes { data_bytes self.new ≡ slice_set (data_bytes self.old) index byte }
        ensures there { IsData self.new }
        ensures changes { Changes (data_word self.old) (segment (data_behind self.old).now)
            (segment (data_behind self.new).now) }
    {
        self.arena.tree_is_sound(self.at);
        self.arena
            .set_data_element::<u8>(self.at, index as u32, byte);
    }

    /// A builder of the same data for a shorter time. What is left of them is what this builder has then.
    pub fn reborrow(&mut self) -> Builder<'_>
        ensures* lends { sem 𝓛 (LendsData self.entry (data_behind result)) }
        ensures now { (data_behind result).now ≡ (data_behind self.old).now }
        ensures at { data_word result ≡ data_word self.old }
    {
        let at = self.at;
        let arena = &mut *self.arena;
        Builder { arena, at }
    }

    /// A reader of the bytes for as long as the builder would be there.
    ///
    /// # Conditions
    ///
    /// Data of the message, or a null, stands at the pointer (`IsData`).
    #[tactic(auto, using(crate::proofs::Blobs::bytes_there))]
    pub fn into_reader(self) -> Reader<'a>
        requires { IsData self }
        ensures { result.now ≡ data_bytes self.entry }
    {
        let Builder { arena, at } = self;
        let Ok(bytes) = arena.get_data(at) else {
            unreachable!()
        };
        bytes
    }
}

/// Copies a default that reads as data into a null; else nothing changes.
///
/// Refused only where a default would be copied: as `PointerReader::get_data` where it does not read as data, and else
/// with `OutOfMemory`; then nothing has changed.
///
/// # Conditions
///
/// A tree of the message stands at the pointer (`Forest`).
pub fn copy_default(builder: PointerBuilder<'_>, default: Option<PointerReader<'_>>) -> Result<()>
    requires { Forest (segment builder.arena.now) builder.at }
    ensures frame { OnOk result (LeavesPointer builder.entry.at builder.entry.arena.now builder.exit.0.now) }
    ensures tree { OnOk result (tree (segment builder.exit.0.now) builder.entry.at
        ≡ tree_or (tree (segment builder.entry.arena.now) builder.entry.at) default.entry) }
    ensures reads { OnOk result (default_refusal as_data
        (tree (segment builder.entry.arena.now) builder.entry.at) default.entry ≡ None) }
    ensures refused { OnErr result (segment builder.exit.0.now ≡ segment builder.entry.arena.now) }
    ensures cause { IfErr result (IsDefaultRefusal as_data
        (tree (segment builder.entry.arena.now) builder.entry.at) default.entry) }
{
    let PointerBuilder { arena, at } = builder;
    fill(arena, at, default, false)
}

impl<'a> FromPointerBuilder<'a> for Builder<'a> {
    ghost behind = { data_behind };

    ghost word = { data_word };

    ghost started = { λ length. Numbers 1 (replicate length 0) };

    ghost starts = { λ length builder. IsData builder × (data_bytes builder ≡ replicate length 0) };

    ghost new_refusal = { λ length error. IsRoomRefusal error (words_past_format ≤ length) };

    ghost stands = { λ tree builder. IsData builder × (data_there builder ≡ tree) };

    ghost refuses = { IsReadRefusal as_data };

    fn init_pointer(builder: PointerBuilder<'a>, length: u32) -> Result<Builder<'a>> {
        let PointerBuilder { arena, at } = builder;
        arena.init_list(at, ElementSize::Byte, length)?;
        Ok(Builder { arena, at })
    }

    fn get_from_pointer(
        builder: PointerBuilder<'a>,
        default: Option<PointerReader<'a>>,
    ) -> Result<Builder<'a>> {
        let PointerBuilder { arena, at } = builder;
        enter(arena, at, default, false)?;
        Ok(Builder { arena, at })
    }
}
