//! Texts as they are built.
//!
//! A builder is the message beside the word of the text's pointer. Each call asks that a text stands there, or a null,
//! as a builder that was handed out has it (`IsText`).
ghost use Rattle.std.specs.Prelude.{[], None, Ok, IfErr, IfOk, IsTrue, IsUtf8, OnErr, OnOk, length, nat_eq, replicate, slice_set, take, drop, ◌++◌, ◌+◌, ◌-◌, ◌<◌, ◌≡◌, ◌≤◌, ◌↔◌};
ghost use Rattle.std.specs.Borrow.{sem};
ghost use Rattle.std.proofs.Common.{rules};
ghost use Rattle.std.specs.Cmp.Lexicographic.{pointwise};
ghost use Rattle.std.specs.Cmp.Rules.{comparing};
ghost use Rattle.std.specs.Ordering.{on};
ghost use Rattle.capnp_device.specs.declared.error.ErrorKind.TheVariants.{OutOfMemory};
ghost use Rattle.capnp_wire.specs.Edits.{IsRoomRefusal};
ghost use Rattle.capnp_wire.specs.Locate.{words_past_format};
ghost use Rattle.capnp_wire.specs.Reading.{as_text};
ghost use Rattle.capnp_wire.specs.Tree.{Numbers};
ghost use Rattle.capnp_base.specs.Text.{IsStringOf, IsStrOf};
ghost use Rattle.capnp_base.specs.ReadBack.{text_read_back};
ghost use Rattle.capnp_base.specs.Traits.{IsDefaultRefusal, IsReadRefusal, default_refusal, tree_or};
ghost use Rattle.capnp_arena.specs.Frame.{LeavesPointer};
ghost use Rattle.capnp_arena.specs.Forest.{Changes, Forest, tree};
ghost use Rattle.capnp_arena.specs.Segment.{segment};
ghost use Rattle.capnp_arena.specs.Shape.{word_count};
ghost use Rattle.capnp_builders.specs.Blobs.{IsBuiltText, position, text_behind, text_bytes, text_seen, text_there, text_word};
ghost use Rattle.capnp_builders.specs.Steps.Blobs.{LendsText, written_bytes};

use crate::defaults::{enter, fill};
use crate::traits::{self, FromPointerBuilder};
use capnp_arena::arena::Arena;
use capnp_arena::handles::PointerBuilder;
pub use capnp_base::text::{Owned, Reader};
use capnp_wire::PointerReader;
use capnp_wire::error::{Error, ErrorKind, Result};
use capnp_wire::size::ElementSize;
use std::alloc::Global;
use std::fmt;
use std::str::Utf8Error;

impl<'a> traits::Owned<'a> for Owned {
    type Reader = Reader<'a>;

    type Builder = Builder<'a>;

    ghost same = { λ x y. y.0.now ≡ x.0.now };

    ghost set_is_read = { text_read_back };
}

/// A text that is built, and a position in its bytes, without the zero that ends them. Builders are compared by their
/// bytes alone; where no text stands there are none.
#[derive(Drop)]
pub struct Builder<'a> {
    pub arena: &'a mut Arena,
    /// The word of the text's pointer.
    pub at: usize,
    /// The position.
    pub pos: usize,
}

impl PartialEq for Builder<'_> {
    ghost eq = { on text_seen (pointwise nat_eq) };

    ghost laws = { Prim.search (comparing, rules) };

    fn eq(&self, other: &Self) -> bool {
        *self.peek() == *other.peek()
    }
}

impl fmt::Debug for Builder<'_> {
    fn fmt<W: fmt::Write>(&self, f: &mut fmt::Formatter<W>) -> fmt::Result {
        match std::str::from_utf8(self.peek()) {
            Ok(text) => write!(f, "{text:?}"),
            Err(_) => f.write_str("<invalid utf-8>"),
        }
    }
}

impl<'a> Builder<'a> {
    /// A builder of the text at a pointer that writes at its start.
    pub fn new(builder: PointerBuilder<'a>) -> Builder<'a>
        ensures behind { text_behind result ≡ builder.entry.arena }
        ensures at { text_word result ≡ builder.entry.at }
        ensures position { position result ≡ 0 }
    {
        let PointerBuilder { arena, at } = builder;
        Builder { arena, at, pos: 0 }
    }

    /// A builder of the text at a pointer that writes at a position, in bytes, which is to be at most the length.
    pub fn with_pos(builder: PointerBuilder<'a>, pos: usize) -> Builder<'a>
        ensures behind { text_behind result ≡ builder.entry.arena }
        ensures at { text_word result ≡ builder.entry.at }
        ensures position { position result ≡ pos }
    {
        let PointerBuilder { arena, at } = builder;
        Builder { arena, at, pos }
    }

    /// The bytes.
    #[tactic(auto, using(crate::proofs::Blobs::bytes_there))]
    fn bytes(&self) -> &[u8]
        requires { IsBuiltText self.now }
        ensures { result.now ≡ text_bytes self.now }
    {
        let Ok(bytes) = self.arena.get_text(self.at) else {
            unreachable!()
        };
        bytes
    }

    /// The bytes, and none where no text stands.
    fn peek(&self) -> &[u8]
        ensures { result.now ≡ text_seen self.now }
    {
        match self.arena.peek(self.at).get_text() {
            Ok(bytes) => bytes,
            Err(_) => &[],
        }
    }

    /// How many bytes there are, wherever the position is.
    ///
    /// # Conditions
    ///
    /// A text of the message, or a null, stands at the pointer (`IsBuiltText`).
    pub fn len(&self) -> usize
        requires { IsBuiltText self.now }
        ensures { result ≡ length (text_bytes self.now) }
    {
        self.bytes().len()
    }

    /// Whether there is no byte.
    ///
    /// # Conditions
    ///
    /// A text of the message, or a null, stands at the pointer (`IsBuiltText`).
    pub fn is_empty(&self) -> bool
        requires { IsBuiltText self.now }
        ensures { IsTrue result ↔ (text_bytes self.now ≡ []) }
    {
        self.bytes().is_empty()
    }

    /// How many bytes there are from the position on: as many can be pushed.
    ///
    /// # Conditions
    ///
    /// A text of the message, or a null, stands at the pointer (`IsBuiltText`).
    pub fn room(&self) -> usize
        requires { IsBuiltText self.now }
        ensures { result ≡ length (text_bytes self.now) - position self.now }
    {
        self.bytes().len().saturating_sub(self.pos)
    }

    /// Writes a byte at the position, which moves past it.
    fn push_byte(&mut self, byte: u8)
        requires there { IsBuiltText self.old }
        requires room { position self.old < length (text_bytes self.old) }
        ensures same { (text_behind self.new).ghost_name ≡ (text_behind self.old).ghost_name }
        ensures at { text_word self.new ≡ text_word self.old }
        ensures position { position self.new ≡ position self.old + 1 }
        ensures bytes { text_bytes self.new ≡ slice_set (text_bytes self.old) (position self.old) byte }
        ensures there { IsBuiltText self.new }
        ensures changes { Changes (text_word self.old) (segment (text_behind self.old).now)
            (segment (text_behind self.new).now) }
    {
        self.arena.tree_is_sound(self.at);
        self.arena
            .set_data_element::<u8>(self.at, self.pos as u32, byte);
        self.pos += 1;
    }

    /// Writes bytes at the position, which moves past them.
    fn push_bytes(&mut self, bytes: &[u8])
        requires there { IsBuiltText self.old }
        requires room { position self.old + length bytes.now ≤ length (text_bytes self.old) }
        ensures same { (text_behind self.new).ghost_name ≡ (text_behind self.old).ghost_name }
        ensures at { text_word self.new ≡ text_word self.old }
        ensures position { position self.new ≡ position self.old + length bytes.now }
        ensures bytes { text_bytes self.new ≡ written_bytes (text_bytes self.old) (position self.old) bytes.now }
        ensures there { IsBuiltText self.new }
        ensures changes { Changes (text_word self.old) (segment (text_behind self.old).now)
            (segment (text_behind self.new).now) }
    {
        for i in 0..bytes.len() {
            self.push_byte(bytes[i]);
        }
    }

    /// Writes an ASCII character at the position, which moves past it.
    ///
    /// # Conditions
    ///
    /// A text of the message, or a null, stands at the pointer (`IsBuiltText`). The position is below the number of its
    /// bytes, and `ascii` below 128.
    pub fn push_ascii(&mut self, ascii: u8)
        requires there { IsBuiltText self.old }
        requires room { position self.old < length (text_bytes self.old) }
        requires ascii { ascii < 128 }
        ensures same { (text_behind self.new).ghost_name ≡ (text_behind self.old).ghost_name }
        ensures at { text_word self.new ≡ text_word self.old }
        ensures position { position self.new ≡ position self.old + 1 }
        ensures bytes { text_bytes self.new ≡ slice_set (text_bytes self.old) (position self.old) ascii }
        ensures there { IsBuiltText self.new }
        ensures changes { Changes (text_word self.old) (segment (text_behind self.old).now)
            (segment (text_behind self.new).now) }
    {
        self.push_byte(ascii);
    }

    /// Writes a string at the position, which moves past it.
    ///
    /// # Conditions
    ///
    /// A text of the message, or a null, stands at the pointer (`IsBuiltText`). From the position on the text has room
    /// for the string's bytes.
    #[tactic(auto, using(crate::proofs::Writes::written_is))]
    pub fn push_str(&mut self, string: &str)
        requires there { IsBuiltText self.old }
        requires room { position self.old + length string.now ≤ length (text_bytes self.old) }
        ensures same { (text_behind self.new).ghost_name ≡ (text_behind self.old).ghost_name }
        ensures at { text_word self.new ≡ text_word self.old }
        ensures position { position self.new ≡ position self.old + length string.now }
        ensures bytes { text_bytes self.new
            ≡ take (position self.old) (text_bytes self.old) ++ string.now ++ drop
            (position self.old + length string.now) (text_bytes self.old) }
        ensures there { IsBuiltText self.new }
        ensures changes { Changes (text_word self.old) (segment (text_behind self.old).now)
            (segment (text_behind self.new).now) }
    {
        self.push_bytes(string.as_bytes());
    }

    /// Makes all bytes zero, and writes at their start again.
    ///
    /// # Conditions
    ///
    /// A text of the message, or a null, stands at the pointer (`IsBuiltText`).
    pub fn clear(&mut self)
        requires there { IsBuiltText self.old }
        ensures same { (text_behind self.new).ghost_name ≡ (text_behind self.old).ghost_name }
        ensures at { text_word self.new ≡ text_word self.old }
        ensures position { position self.new ≡ 0 }
        ensures bytes { text_bytes self.new ≡ replicate (length (text_bytes self.old)) 0 }
        ensures there { IsBuiltText self.new }
        ensures changes { Changes (text_word self.old) (segment (text_behind self.old).now)
            (segment (text_behind self.new).now) }
    {
        let count = self.len();
        self.pos = 0;
        self.push_zeros(count);
        self.pos = 0;
    }

    /// Writes so many zeros at the position, which moves past them.
    #[tactic(auto, using(crate::proofs::Writes::zeros_first))]
    fn push_zeros(&mut self, count: usize)
        requires there { IsBuiltText self.old }
        requires room { position self.old + count ≤ length (text_bytes self.old) }
        ensures same { (text_behind self.new).ghost_name ≡ (text_behind self.old).ghost_name }
        ensures at { text_word self.new ≡ text_word self.old }
        ensures bytes { text_bytes self.new ≡ written_bytes (text_bytes self.old) (position self.old) (replicate count 0) }
        ensures there { IsBuiltText self.new }
        ensures changes { Changes (text_word self.old) (segment (text_behind self.old).now)
            (segment (text_behind self.new).now) }
    {
        for _i in 0..count {
            self.push_byte(0);
        }
    }

    /// A builder of the same text for a shorter time. It writes at the same position; this builder's position stays.
    /// What is left of the text is what this builder has then.
    pub fn reborrow(&mut self) -> Builder<'_>
        ensures* lends { sem 𝓛 (LendsText self.entry (text_behind result)) }
        ensures now { (text_behind result).now ≡ (text_behind self.old).now }
        ensures at { text_word result ≡ text_word self.old }
        ensures position { position result ≡ position self.old }
    {
        let at = self.at;
        let pos = self.pos;
        let arena = &mut *self.arena;
        Builder { arena, at, pos }
    }

    /// A reader of the bytes.
    ///
    /// # Conditions
    ///
    /// A text of the message, or a null, stands at the pointer (`IsBuiltText`).
    pub fn reborrow_as_reader(&self) -> Reader<'_>
        requires { IsBuiltText self.now }
        ensures { result.0.now ≡ text_bytes self.now }
    {
        Reader(self.bytes())
    }

    /// A reader of the bytes for as long as the builder would be there.
    ///
    /// # Conditions
    ///
    /// A text of the message, or a null, stands at the pointer (`IsBuiltText`).
    #[tactic(auto, using(crate::proofs::Blobs::bytes_there))]
    pub fn into_reader(self) -> Reader<'a>
        requires { IsBuiltText self }
        ensures { result.0.now ≡ text_bytes self.entry }
    {
        let Builder { arena, at, pos: _ } = self;
        let Ok(bytes) = arena.get_text(at) else {
            unreachable!()
        };
        Reader(bytes)
    }

    /// The bytes.
    ///
    /// # Conditions
    ///
    /// A text of the message, or a null, stands at the pointer (`IsBuiltText`).
    pub fn as_bytes(self) -> &'a [u8]
        requires { IsBuiltText self }
        ensures { result.now ≡ text_bytes self.entry }
    {
        self.into_reader().as_bytes()
    }

    /// The text as a `str`, or the error that says how many bytes of it are UTF-8.
    ///
    /// # Conditions
    ///
    /// A text of the message, or a null, stands at the pointer (`IsBuiltText`).
    pub fn to_str(self) -> std::result::Result<&'a str, Utf8Error>
        requires { IsBuiltText self }
        ensures { IsStrOf (text_bytes self.entry) result }
    {
        self.into_reader().to_str()
    }

    /// A copy of the text as a `String`, or the error of `to_str`.
    ///
    /// Refused with `OutOfMemory`, and only where the text is UTF-8.
    ///
    /// # Conditions
    ///
    /// A text of the message, or a null, stands at the pointer (`IsBuiltText`).
    pub fn to_string(self, alloc: Global) -> Result<std::result::Result<String, Utf8Error>>
        requires { IsBuiltText self }
        ensures string { IfOk result (IsStringOf (text_bytes self.entry)) }
        ensures refused { IfErr result (λ e. e.kind ≡ OutOfMemory) }
        ensures utf8 { OnErr result (IsUtf8 (text_bytes self.entry)) }
    {
        self.into_reader().to_string(alloc)
    }

    /// Whether the bytes are those of a `str`, wherever the position is.
    ///
    /// # Conditions
    ///
    /// A text of the message, or a null, stands at the pointer (`IsBuiltText`).
    pub fn eq_str(&self, other: &str) -> bool
        requires { IsBuiltText self.now }
        ensures { IsTrue result ↔ (text_bytes self.now ≡ other.now) }
    {
        self.reborrow_as_reader().eq_str(other)
    }
}

/// Makes a pointer one to a new text of so many zero bytes.
///
/// Refused with `SizePastFormat` where these would be 2^29 bytes or more with the zero that ends them, and else with
/// `OutOfMemory`; then nothing has changed.
fn start(arena: &mut Arena, at: usize, length: u32) -> Result<()>
    requires { at < word_count (segment arena.old) }
    ensures frame { OnOk result (LeavesPointer at arena.old arena.new) }
    ensures tree { OnOk result (tree (segment arena.new) at ≡ Numbers 1 (replicate (length + 1) 0)) }
    ensures text { OnOk result (as_text (tree (segment arena.new) at) ≡ Ok (replicate length 0)) }
    ensures refused { OnErr result (segment arena.new ≡ segment arena.old) }
    ensures cause { IfErr result (λ error. IsRoomRefusal error (words_past_format ≤ length + 1)) }
{
    if length >= (1 << 29) - 1 {
        return Err(Error::from(ErrorKind::SizePastFormat));
    }
    arena.init_list(at, ElementSize::Byte, length + 1)?;
    Ok(())
}

/// Copies a default that reads as a text into a null; else nothing changes.
///
/// Refused only where a default would be copied: as `PointerReader::get_text` where it does not read as a text, and
/// else with `OutOfMemory`; then nothing has changed.
///
/// # Conditions
///
/// A tree of the message stands at the pointer (`Forest`).
pub fn copy_default(builder: PointerBuilder<'_>, default: Option<PointerReader<'_>>) -> Result<()>
    requires { Forest (segment builder.arena.now) builder.at }
    ensures frame { OnOk result (LeavesPointer builder.entry.at builder.entry.arena.now builder.exit.0.now) }
    ensures tree { OnOk result (tree (segment builder.exit.0.now) builder.entry.at
        ≡ tree_or (tree (segment builder.entry.arena.now) builder.entry.at) default.entry) }
    ensures reads { OnOk result (default_refusal as_text
        (tree (segment builder.entry.arena.now) builder.entry.at) default.entry ≡ None) }
    ensures refused { OnErr result (segment builder.exit.0.now ≡ segment builder.entry.arena.now) }
    ensures cause { IfErr result (IsDefaultRefusal as_text
        (tree (segment builder.entry.arena.now) builder.entry.at) default.entry) }
{
    let PointerBuilder { arena, at } = builder;
    fill(arena, at, default, true)
}

impl<'a> FromPointerBuilder<'a> for Builder<'a> {
    ghost behind = { text_behind };

    ghost word = { text_word };

    ghost started = { λ length. Numbers 1 (replicate (length + 1) 0) };

    ghost starts = { λ length builder. IsBuiltText builder × (text_bytes builder ≡ replicate length 0)
        × (position builder ≡ 0) };

    ghost new_refusal = { λ length error. IsRoomRefusal error (words_past_format ≤ length + 1) };

    ghost stands = { λ tree builder. IsBuiltText builder × (text_there builder ≡ tree)
        × (position builder ≡ length (text_bytes builder)) };

    ghost refuses = { IsReadRefusal as_text };

    fn init_pointer(builder: PointerBuilder<'a>, length: u32) -> Result<Builder<'a>> {
        let PointerBuilder { arena, at } = builder;
        start(arena, at, length)?;
        Ok(Builder { arena, at, pos: 0 })
    }

    fn get_from_pointer(
        builder: PointerBuilder<'a>,
        default: Option<PointerReader<'a>>,
    ) -> Result<Builder<'a>> {
        let PointerBuilder { arena, at } = builder;
        let pos = enter(arena, at, default, true)?;
        Ok(Builder { arena, at, pos })
    }
}
