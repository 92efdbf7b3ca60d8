//! Words and bytes at the end of a segment. What is refused has added nothing.
ghost use Rattle.std.specs.Prelude.{OnErr, OnOk, ◌++◌, ◌≡◌};
ghost use Rattle.capnp_wire.specs.Encoding.{padded_bytes};
ghost use Rattle.capnp_wire.specs.Locate.{words_past_format};

use crate::append::{append_bits, append_few_zeros};
use crate::arena::Arena;
use capnp_device::error::{Error, ErrorKind, Result};
use std::alloc::AllocError;

/// Bytes, and zeros up to a whole word.
///
/// Refused where memory is; then nothing has changed.
#[inline(always)]
fn append_whole(out: &mut Vec<u8>, bytes: &[u8]) -> std::result::Result<(), AllocError>
    ensures longer { OnOk result (out.new.items ≡ out.old.items ++ padded_bytes bytes.now) }
    ensures refused { OnErr result (out.new.items ≡ out.old.items) }
{
    let end = out.len();
    out.extend_from_slice(bytes)?;
    let over = bytes.len() % 8;
    if over > 0 {
        if let Err(refused) = append_few_zeros(out, 8 - over) {
            out.truncate(end);
            return Err(refused);
        }
    }
    Ok(())
}

impl Arena {
    ghost use Rattle.std.specs.Prelude.{IfErr, take, ◌≤◌, ◌*◌, ◌+◌, ◌/◌, ◌<◌, length};
    ghost use Rattle.capnp_device.specs.declared.error.ErrorKind.TheVariants.{OutOfMemory};
    ghost use Rattle.capnp_wire.specs.Encoding.{packed_bits, spelled_number};
    ghost use Rattle.capnp_wire.specs.Locate.{list_words};
    ghost use Rattle.capnp_wire.specs.Place.{bits_from};
    ghost use Rattle.capnp_arena.specs.Segment.{segment};
    ghost use Rattle.capnp_arena.specs.Shape.{word_count};

    /// How many words there are.
    #[inline(always)]
    pub(crate) fn count_words(&self) -> usize
        ensures count { result ≡ word_count (segment self.now) }
        ensures whole { length (segment self.now) ≡ 8 * result }
        ensures few { result < words_past_format }
    {
        self.bytes.len() / 8
    }

    /// Takes memory for so many bytes more at once, as far as they are within the limit and there is as much. Until they
    /// are there the segment stays.
    pub(crate) fn reserve(&mut self, more: usize)
        ensures same { segment self.new ≡ segment self.old }
        ensures limit { self.new.limit ≡ self.old.limit }
    {
        let room = 8 * self.limit - self.bytes.len();
        // what can't be had now is asked for again when it is needed
        let _ = self.bytes.reserve(more.min(room));
    }

    /// Bytes, and zeros up to a whole word.
    ///
    /// Refused with `OutOfMemory`, also where there would be more words than the limit.
    #[inline(always)]
    pub(crate) fn append_bytes(&mut self, bytes: &[u8]) -> Result<()>
        ensures longer { OnOk result (segment self.new ≡ segment self.old ++ padded_bytes bytes.now) }
        ensures limit { self.new.limit ≡ self.old.limit }
        ensures kind { IfErr result (λ e. e.kind ≡ OutOfMemory) }
        ensures refused { OnErr result (segment self.new ≡ segment self.old) }
    {
        if !self.has_room(bytes.len().div_ceil(8)) {
            return Err(Error::from(ErrorKind::OutOfMemory));
        }
        append_whole(&mut self.bytes, bytes)?;
        Ok(())
    }

    /// A word.
    ///
    /// Refused with `OutOfMemory`, also where there would be more words than the limit.
    pub(crate) fn append_word(&mut self, word: u64) -> Result<()>
        ensures longer { OnOk result (segment self.new ≡ segment self.old ++ spelled_number 8 word) }
        ensures kind { IfErr result (λ e. e.kind ≡ OutOfMemory) }
        ensures refused { OnErr result (segment self.new ≡ segment self.old) }
    {
        self.append_bytes(&word.to_le_bytes())?;
        Ok(())
    }

    /// Bits, eight in each byte, up to a whole word. They are packed beside the segment first.
    ///
    /// Refused with `OutOfMemory`, also where there would be more words than the limit.
    #[inline(never)]
    pub(crate) fn append_bits(&mut self, bits: &[u8], count: u32) -> Result<()>
        ensures longer { OnOk result (segment self.new
            ≡ segment self.old ++ packed_bits (8 * list_words 1 count) (bits_from bits.now 0 count)) }
        ensures kind { IfErr result (λ e. e.kind ≡ OutOfMemory) }
        ensures refused { OnErr result (segment self.new ≡ segment self.old) }
    {
        if !self.has_room((count as usize + 63) / 64) {
            return Err(Error::from(ErrorKind::OutOfMemory));
        }
        let mut row = Vec::new(*self.bytes.allocator());
        append_bits(&mut row, bits, count)?;
        self.append_bytes(row.as_slice())?;
        Ok(())
    }

    /// Takes back what was added since there were so many words.
    pub(crate) fn cut(&mut self, words: usize)
        requires { words ≤ word_count (segment self.old) }
        ensures { segment self.new ≡ take (8 * words) (segment self.old) }
    {
        self.bytes.truncate(8 * words);
    }
}
