//! Whole messages that are built, and what is written of them.
ghost use Rattle.std.specs.Prelude.{IfErr, IfOk, OnOk, suc, [], ◌*◌, ◌++◌, ◌+◌, ◌/◌, ◌<◌, ◌≡◌, ◌≢◌, ◌≤◌, length};
ghost use Rattle.capnp_device.specs.Device.{HasFailed, HasWorked};
ghost use Rattle.capnp_device.specs.declared.error.ErrorKind.TheVariants.{OutOfMemory, WriteFailed};
ghost use Rattle.capnp_wire.specs.Encoding.{encoding_of, message_of};
ghost use Rattle.capnp_wire.specs.Locate.{words_past_format};
ghost use Rattle.capnp_wire.specs.Message.{IsCutShort, IsWritten};
ghost use Rattle.capnp_wire.specs.WellFormed.{IsWellFormed};
ghost use Rattle.capnp_wire.specs.Words.{words_of};
ghost use Rattle.capnp_arena.specs.Forest.{Forest, tree};
ghost use Rattle.capnp_arena.specs.Shape.{word_count};

use crate::append::{Appended, append_half, append_word};
use crate::arena::Arena;
use crate::compact::append_anew;
use crate::count::{count_within, count_words};
use crate::in_order::is_in_order;
use crate::sending::put_whole;
use crate::spell::put_half;
use capnp_device::device::Sink;
use capnp_device::error::{Error, ErrorKind, Result};
use capnp_device::transfer::write_all;
use std::alloc::Global;

/// The table of one segment, its root pointer, and what that leads to, made from the tree.
fn append_made(out: &mut Vec<u8>, bytes: &[u8]) -> Appended
    requires new { out.old.items ≡ [] }
    requires forest { Forest bytes.now 0 }
    requires few { word_count bytes.now < words_past_format }
    ensures bytes { IfOk result (λ _. out.new.items ≡ message_of (tree bytes.now 0)) }
    ensures held { IfOk result (λ _. IsWellFormed (tree bytes.now 0)) }
{
    append_word(out, 0)?;
    append_anew(out, bytes)?;
    // the number of words is known now
    let words = (out.len() / 8 - 1) as u32;
    put_half(out, 4, words);
    Ok(())
}

/// The table of a segment that is the encoding already, and the segment.
fn append_whole(out: &mut Vec<u8>, bytes: &[u8]) -> Appended
    requires new { out.old.items ≡ [] }
    requires few { word_count bytes.now < words_past_format }
    requires order { bytes.now ≡ encoding_of (tree bytes.now 0) }
    ensures bytes { IfOk result (λ _. out.new.items ≡ message_of (tree bytes.now 0)) }
    ensures held { IfOk result (λ _. IsWellFormed (tree bytes.now 0)) }
{
    append_half(out, 0)?;
    append_half(out, (bytes.len() / 8) as u32)?;
    out.extend_from_slice(bytes)?;
    Ok(())
}

/// The table of one segment, its root pointer, and what that leads to: the segment as it is, where it is that already.
fn append_message(out: &mut Vec<u8>, bytes: &[u8]) -> Appended
    requires new { out.old.items ≡ [] }
    requires forest { Forest bytes.now 0 }
    requires few { word_count bytes.now < words_past_format }
    requires whole { length bytes.now ≡ 8 * word_count bytes.now }
    ensures bytes { IfOk result (λ _. out.new.items ≡ message_of (tree bytes.now 0)) }
    ensures held { IfOk result (λ _. IsWellFormed (tree bytes.now 0)) }
{
    if is_in_order(bytes) {
        return append_whole(out, bytes);
    }
    append_made(out, bytes)
}

/// Makes the bytes of a message from its tree, and then writes them.
fn put_made<W: Sink>(alloc: Global, sink: &mut W, bytes: &[u8]) -> Result<()>
    requires forest { Forest bytes.now 0 }
    requires few { word_count bytes.now < words_past_format }
    ensures written { OnOk result (IsWritten (tree bytes.now 0) (W.written sink.old) (W.written sink.new)) }
    ensures worked { OnOk result (HasWorked (W.failures sink.old) (W.failures sink.new)) }
    ensures kind { IfErr result (λ e. e.kind ≢ OutOfMemory → e.kind ≡ WriteFailed) }
    ensures nothing { IfErr result (λ e. e.kind ≢ WriteFailed → sink.new ≡ sink.old) }
    ensures failed { IfErr result (λ e. e.kind ≡ WriteFailed
        → HasFailed (W.failures sink.old) (W.failures sink.new)) }
    ensures beginning { IfErr result (λ e. e.kind ≡ WriteFailed
        → IsCutShort (tree bytes.now 0) (W.written sink.old) (W.written sink.new)) }
{
    let mut made = Vec::with_capacity(alloc, bytes.len() + 8)?;
    append_made(&mut made, bytes)?;
    write_all(sink, &made)
}

/// A message that is built: its words.
///
/// It is no struct round the words: what a builder of the root leaves is known by its reference, which is the message's
/// own. A message is one as long as a tree stands at the root (`IsMessage`), as each builder's contract says of what it
/// leaves; so the calls that read it ask for that.
///
/// # Example
///
/// ```rust
/// let mut message = Builder::new(alloc)?;
/// let mut root = message.root().init_struct(SIZE)?;
/// root.set_data_field(0, id);
/// root.get_pointer_field(0).set_text(name.as_bytes())?;
/// message.write_message_to(sink)
/// ```
pub type Builder = Arena;

impl Arena {
    ghost use Rattle.std.specs.Prelude.{IsOk, false, true};
    ghost use Rattle.capnp_wire.specs.Depth.{IsBelow, IsShallow, memory_depth};
    ghost use Rattle.capnp_wire.specs.Message.{IsReadAs};
    ghost use Rattle.capnp_arena.specs.Message.{IsMessage, message_tree};
    ghost use Rattle.capnp_arena.specs.Segment.{segment};

    /// The words of the message's segment as it is written: one for the root pointer, and those of each object that it
    /// leads to, the tag of a composite list with them. Takes no memory.
    ///
    /// Refused with `OutOfMemory` exactly where the message has more than 129 levels.
    ///
    /// # Conditions
    ///
    /// A tree stands at the message's root (`IsMessage`).
    pub fn size_in_words(&self) -> Result<u64>
        requires message { IsMessage self.now }
        ensures words { IfOk result (λ words. words ≡ suc (words_of (message_tree self.now))) }
        ensures fits { suc (words_of (message_tree self.now)) < words_past_format }
        ensures succeeds { IsBelow memory_depth (message_tree self.now) → IsOk result }
        ensures cause { IfErr result (λ e. (e.kind ≡ OutOfMemory)
            × (IsBelow memory_depth (message_tree self.now) → ⊥)) }
    {
        let Some(words) = count_words(self.bytes.as_slice(), 0) else {
            return Err(Error::from(ErrorKind::OutOfMemory));
        };
        Ok(words + 1)
    }

    /// Whether a reader reads the message in full that has 64 levels, as a message's reader has them. What lies deeper it
    /// refuses with `TooDeep`. Takes no memory, and the time of `size_in_words`.
    ///
    /// # Conditions
    ///
    /// A tree stands at the message's root (`IsMessage`).
    pub fn is_shallow(&self) -> bool
        requires message { IsMessage self.now }
        ensures shallow { result ≡ true → IsShallow (message_tree self.now) }
        ensures deep { result ≡ false → IsShallow (message_tree self.now) → ⊥ }
    {
        let Some(_words) = count_within(self.bytes.as_slice(), 0, 64) else {
            return false;
        };
        true
    }

    /// The bytes of the message in a stream: one segment, with what the root leads to and nothing else. The message
    /// takes its memory once.
    ///
    /// Refused with `OutOfMemory`, also where the message has more than 129 levels. None in memory has 2^29 words.
    ///
    /// # Conditions
    ///
    /// A tree stands at the message's root (`Forest`).
    pub fn write_message(&self) -> Result<Vec<u8>>
        requires forest { Forest (segment self.now) 0 }
        ensures bytes { IfOk result (λ v. v.items ≡ message_of (tree (segment self.now) 0)) }
        ensures held { IfOk result (λ _. IsWellFormed (tree (segment self.now) 0)
            × (suc (words_of (tree (segment self.now) 0)) < words_past_format)) }
        ensures read { IfOk result (λ v. IsReadAs (tree (segment self.now) 0) v.items) }
        ensures kind { IfErr result (λ e. e.kind ≡ OutOfMemory) }
        ensures fits { suc (words_of (tree (segment self.now) 0)) < words_past_format }
    {
        let bytes = self.bytes.as_slice();
        let mut out = Vec::with_capacity(*self.bytes.allocator(), bytes.len() + 8)?;
        append_message(&mut out, bytes)?;
        Ok(out)
    }

    /// Writes the message's bytes, those of `write_message`, to a sink. A segment that is its encoding already, as what
    /// was built in order or copied is, goes there as it lies, and no memory is taken. Else the bytes are made whole
    /// before the first of them is written.
    ///
    /// Refused as `write_message`, and then nothing was written; and with `WriteFailed` where a call of the sink
    /// failed, and then a proper beginning of the bytes was written.
    ///
    /// # Conditions
    ///
    /// A tree stands at the message's root (`IsMessage`).
    pub fn write_message_to<W: Sink>(&self, sink: &mut W) -> Result<()>
        requires message { IsMessage self.now }
        ensures written { OnOk result (IsWritten (message_tree self.now) (W.written sink.old) (W.written sink.new)) }
        ensures worked { OnOk result (HasWorked (W.failures sink.old) (W.failures sink.new)) }
        ensures held { OnOk result (IsWellFormed (message_tree self.now)
            × (suc (words_of (message_tree self.now)) < words_past_format)) }
        ensures read { OnOk result (IsReadAs (message_tree self.now) (message_of (message_tree self.now))) }
        ensures kind { IfErr result (λ e. e.kind ≢ OutOfMemory → e.kind ≡ WriteFailed) }
        ensures fits { IfErr result (λ _. IsWellFormed (message_tree self.now)
            × (suc (words_of (message_tree self.now)) < words_past_format)) }
        ensures nothing { IfErr result (λ e. e.kind ≢ WriteFailed → sink.new ≡ sink.old) }
        ensures failed { IfErr result (λ e. e.kind ≡ WriteFailed
            → HasFailed (W.failures sink.old) (W.failures sink.new)) }
        ensures beginning { IfErr result (λ e. e.kind ≡ WriteFailed
            → IsCutShort (message_tree self.now) (W.written sink.old) (W.written sink.new)) }
    {
        self.tree_is_sound(0);
        let bytes = self.bytes.as_slice();
        if !is_in_order(bytes) {
            return put_made(*self.bytes.allocator(), sink, bytes);
        }
        put_whole(sink, bytes)
    }
}
