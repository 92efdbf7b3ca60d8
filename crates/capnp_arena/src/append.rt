//! Words, bytes and bits at the end of bytes.
ghost use Rattle.std.specs.Prelude.{IfOk, OnErr, drop, replicate, take, ◌*◌, ◌++◌, ◌+◌, ◌<◌, ◌^◌, ◌≡◌, ◌≤◌, length};
ghost use Rattle.capnp_wire.specs.Encoding.{bits_number, packed_bits, padded_bytes, spelled_number};
ghost use Rattle.capnp_wire.specs.Locate.{list_words};
ghost use Rattle.capnp_wire.specs.Place.{bits_from, bytes_at};

use std::alloc::AllocError;

pub(crate) type Appended = std::result::Result<(), AllocError>;

pub(crate) fn append_word(out: &mut Vec<u8>, word: u64) -> Appended
    ensures { IfOk result (λ _. out.new.items ≡ out.old.items ++ spelled_number 8 word) }
{
    out.extend_from_slice(&word.to_le_bytes())
}

pub(crate) fn append_half(out: &mut Vec<u8>, half: u32) -> Appended
    ensures { IfOk result (λ _. out.new.items ≡ out.old.items ++ spelled_number 4 half) }
{
    out.extend_from_slice(&half.to_le_bytes())
}

/// Fewer zeros than a word has.
///
/// Refused where memory is; then nothing has changed.
#[inline(always)]
pub(crate) fn append_few_zeros(out: &mut Vec<u8>, count: usize) -> Appended
    requires few { count < 8 }
    ensures longer { IfOk result (λ _. out.new.items ≡ out.old.items ++ replicate count 0) }
    ensures refused { OnErr result (out.new.items ≡ out.old.items) }
{
    let zeros: [u8; 8] = [0; 8];
    out.extend_from_slice(&zeros[..count])
}

/// Bytes, and zeros up to a whole word.
#[inline(always)]
pub(crate) fn append_padded(out: &mut Vec<u8>, bytes: &[u8]) -> Appended
    ensures { IfOk result (λ _. out.new.items ≡ out.old.items ++ padded_bytes bytes.now) }
{
    out.extend_from_slice(bytes)?;
    let over = bytes.len() % 8;
    if over > 0 {
        append_few_zeros(out, 8 - over)?;
    }
    Ok(())
}

/// Byte `k` of `count` bits, without what lies past them.
pub(crate) fn get_bits(bits: &[u8], count: u32, k: usize) -> u8
    ensures { result ≡ bits_number (take 8 (drop (8 * k) (bits_from bits.now 0 count))) }
{
    let byte = if k < bits.len() { bits[k] } else { 0 };
    let count = count as usize;
    if k >= count / 8 + 1 {
        0
    } else if count - 8 * k >= 8 {
        byte
    } else {
        byte % (1 << (count - 8 * k))
    }
}

/// Bits, eight in each byte, up to a whole word.
#[inline(never)]
pub(crate) fn append_bits(out: &mut Vec<u8>, bits: &[u8], count: u32) -> Appended
    ensures { IfOk result (λ _. out.new.items
        ≡ out.old.items ++ packed_bits (8 * list_words 1 count) (bits_from bits.now 0 count)) }
{
    let size = 8 * ((count as usize + 63) / 64);
    for k in 0..size {
        out.push(get_bits(bits, count, k))?;
    }
    Ok(())
}

/// Room for so many words.
pub(crate) fn append_room(out: &mut Vec<u8>, words: usize) -> Appended
    requires { words < 2 ^ 32 }
    ensures { IfOk result (λ _. out.new.items ≡ out.old.items ++ replicate (8 * words) 0) }
{
    out.resize(out.len() + 8 * words, 0)
}

/// So many bytes from a word on.
#[inline(always)]
pub(crate) fn get_part(bytes: &[u8], word: usize, count: usize) -> &[u8]
    requires { 8 * word + count ≤ length bytes.now }
    ensures part { result.now ≡ bytes_at bytes.now word count }
    ensures long { length result.now ≡ count }
{
    &bytes[8 * word..8 * word + count]
}
