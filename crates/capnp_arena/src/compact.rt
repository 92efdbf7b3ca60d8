//! The message of a segment without what no pointer leads to any more.
ghost use Rattle.std.specs.Prelude.{IfErr, IfOk, suc, ◌++◌, ◌+◌, ◌*◌, ◌/◌, ◌<◌, ◌≡◌, ◌≤◌, length};
ghost use Rattle.capnp_device.specs.declared.error.ErrorKind.TheVariants.{OutOfMemory};
ghost use Rattle.capnp_wire.specs.Depth.{IsBelow, memory_depth};
ghost use Rattle.capnp_wire.specs.Encoding.{encoding_of};
ghost use Rattle.capnp_wire.specs.Locate.{words_past_format};
ghost use Rattle.capnp_wire.specs.WellFormed.{IsWellFormed};
ghost use Rattle.capnp_wire.specs.Words.{words_of};
ghost use Rattle.capnp_arena.specs.Forest.{Forest, tree};
ghost use Rattle.capnp_arena.specs.Shape.{word_count};

use crate::append::{Appended, append_word};
use crate::arena::Arena;
use crate::count::count_words;
use crate::encode::{append_tree, make_pointer};
use crate::in_order::is_in_order;
use crate::target::look;
use capnp_device::error::{Error, ErrorKind, Result};
use capnp_wire::parts::pointer::MEMORY_DEPTH;
use std::alloc::Global;

/// The root pointer, and what it leads to: the segment as it is, where it is that already.
pub(crate) fn append_encoding(out: &mut Vec<u8>, bytes: &[u8]) -> Appended
    requires forest { Forest bytes.now 0 }
    requires few { word_count bytes.now < words_past_format }
    requires whole { length bytes.now ≡ 8 * word_count bytes.now }
    requires small { words_of (tree bytes.now 0) < words_past_format }
    ensures { IfOk result (λ _. out.new.items ≡ out.old.items ++ encoding_of (tree bytes.now 0)) }
{
    if is_in_order(bytes) {
        out.extend_from_slice(bytes)?;
        return Ok(());
    }
    append_anew(out, bytes)
}

/// The root pointer and what it leads to, made from the tree.
pub(crate) fn append_anew(out: &mut Vec<u8>, bytes: &[u8]) -> Appended
    requires forest { Forest bytes.now 0 }
    requires few { word_count bytes.now < words_past_format }
    requires small { words_of (tree bytes.now 0) < words_past_format }
    ensures { IfOk result (λ _. out.new.items ≡ out.old.items ++ encoding_of (tree bytes.now 0)) }
{
    let target = look(bytes, 0);
    append_word(out, make_pointer(0, target))?;
    append_tree(out, bytes, 0, target, MEMORY_DEPTH)?;
    Ok(())
}

/// The segment of what the root leads to and nothing else. It takes its memory once.
///
/// Refused with `OutOfMemory`, also where it would have more words than the limit or is deeper than a walk goes.
fn encode(alloc: Global, bytes: &[u8], limit: usize) -> Result<Vec<u8>>
    requires forest { Forest bytes.now 0 }
    requires low { limit < words_past_format }
    requires few { word_count bytes.now < words_past_format }
    requires whole { length bytes.now ≡ 8 * word_count bytes.now }
    ensures bytes { IfOk result (λ v. v.items ≡ encoding_of (tree bytes.now 0)) }
    ensures held { IfOk result (λ _. IsWellFormed (tree bytes.now 0) × (suc (words_of (tree bytes.now 0)) ≤ limit)) }
    ensures depth { IfOk result (λ _. IsBelow memory_depth (tree bytes.now 0)) }
    ensures kind { IfErr result (λ e. e.kind ≡ OutOfMemory) }
{
    let Some(words) = count_words(bytes, 0) else {
        return Err(Error::from(ErrorKind::OutOfMemory));
    };
    if words + 1 > limit as u64 {
        return Err(Error::from(ErrorKind::OutOfMemory));
    }
    let mut out = Vec::with_capacity(alloc, 8 * words as usize + 8)?;
    append_encoding(&mut out, bytes)?;
    Ok(out)
}

impl Arena {
    ghost use Rattle.std.specs.Prelude.{OnErr, OnOk};
    ghost use Rattle.capnp_arena.specs.Segment.{segment};

    /// Leaves the root pointer and what it leads to, in the order of the encoding: what was replaced or cleared is
    /// given up. Places move, so none below the root is one any more.
    ///
    /// Refused with `OutOfMemory`, also where the message has more than 129 levels; then nothing has changed.
    ///
    /// # Conditions
    ///
    /// A tree stands at the message's root (`Forest`).
    pub fn compact(&mut self) -> Result<()>
        requires forest { Forest (segment self.old) 0 }
        ensures bytes { OnOk result (segment self.new ≡ encoding_of (tree (segment self.old) 0)) }
        ensures forest { OnOk result (Forest (segment self.new) 0) }
        ensures tree { OnOk result (tree (segment self.new) 0 ≡ tree (segment self.old) 0) }
        ensures depth { OnOk result (IsBelow memory_depth (tree (segment self.old) 0)) }
        ensures limit { self.new.limit ≡ self.old.limit }
        ensures kind { IfErr result (λ e. e.kind ≡ OutOfMemory) }
        ensures refused { OnErr result (segment self.new ≡ segment self.old) }
    {
        let encoded = encode(*self.bytes.allocator(), self.bytes.as_slice(), self.limit)?;
        self.bytes = encoded;
        Ok(())
    }
}
