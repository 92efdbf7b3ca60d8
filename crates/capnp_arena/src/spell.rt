//! Words of a segment as they are written.
ghost use Rattle.std.specs.Prelude.{IfOk, OnErr, bit_xor, drop, replicate, take, ◌*◌, ◌++◌, ◌+◌, ◌<◌, ◌^◌, ◌≡◌, ◌≤◌, length};
ghost use Rattle.capnp_wire.specs.Edits.{with_bit, with_number};
ghost use Rattle.capnp_wire.specs.Encoding.{list_word, spelled_number, struct_word};
ghost use Rattle.capnp_wire.specs.Locate.{words_past_format};
ghost use Rattle.capnp_wire.specs.Steps.Filling.{bytes_with};

use capnp_wire::primitive::PrimitiveElement;
use std::alloc::AllocError;

/// A struct pointer, or the tag of a composite list, which has its count in place of the offset.
pub(crate) fn make_struct_word(offset: u64, data_words: u64, pointers: u64) -> u64
    requires { (offset < 2 ^ 30) × (data_words < 2 ^ 16) × (pointers < 2 ^ 16) }
    ensures { result ≡ struct_word offset data_words pointers }
{
    4 * offset + (data_words << 32) + (pointers << 48)
}

/// A list pointer.
pub(crate) fn make_list_word(offset: u64, element_size: u64, count: u64) -> u64
    requires { (offset < 2 ^ 30) × (element_size < 8) × (count < words_past_format) }
    ensures { result ≡ list_word offset element_size count }
{
    1 + 4 * offset + (element_size << 32) + (count << 35)
}

/// Bytes in the place of as many from an index on.
#[inline(always)]
pub(crate) fn put_bytes(out: &mut Vec<u8>, at: usize, bytes: &[u8])
    requires { at + length bytes.now ≤ length out.old.items }
    ensures put { out.new.items ≡ bytes_with at bytes.now out.old.items }
    ensures long { length out.new.items ≡ length out.old.items }
{
    out[at..at + bytes.len()].copy_from_slice(bytes);
}

/// A word in the place of another from an index on.
#[inline(always)]
pub(crate) fn put_word(out: &mut Vec<u8>, at: usize, word: u64)
    requires { at + 8 ≤ length out.old.items }
    ensures put { out.new.items ≡ bytes_with at (spelled_number 8 word) out.old.items }
    ensures long { length out.new.items ≡ length out.old.items }
{
    put_bytes(out, at, &word.to_le_bytes());
}

/// Half a word in the place of another from an index on.
pub(crate) fn put_half(out: &mut Vec<u8>, at: usize, half: u32)
    requires { at + 4 ≤ length out.old.items }
    ensures put { out.new.items ≡ bytes_with at (spelled_number 4 half) out.old.items }
{
    put_bytes(out, at, &half.to_le_bytes());
}

/// So many words of zeros at the end.
///
/// Refused where memory is; then nothing has changed.
pub(crate) fn append_zeros(out: &mut Vec<u8>, words: usize) -> Result<(), AllocError>
    requires { words < 2 ^ 32 }
    ensures longer { IfOk result (λ _. out.new.items ≡ out.old.items ++ replicate (8 * words) 0) }
    ensures refused { OnErr result (out.new.items ≡ out.old.items) }
{
    out.resize(out.len() + 8 * words, 0)
}

/// A number in a part of bytes, at an offset in units of its width.
#[inline(always)]
pub(crate) fn write_number<T: PrimitiveElement>(
    out: &mut Vec<u8>,
    at: usize,
    count: usize,
    offset: u32,
    value: T,
)
    requires part { at + count ≤ length out.old.items }
    requires inside { (offset + 1) * T.width ≤ count }
    ensures long { length out.new.items ≡ length out.old.items }
    ensures put { out.new.items ≡ bytes_with at (with_number T.width offset (T.to_number value)
        (take count (drop at out.old.items))) out.old.items }
{
    T::write(&mut out[at..at + count], offset, value);
}

/// A number in a part of bytes, at an offset in units of its width, stored XORed with its default `mask`.
#[inline(always)]
pub(crate) fn write_number_mask<T: PrimitiveElement>(
    out: &mut Vec<u8>,
    at: usize,
    count: usize,
    offset: u32,
    value: T,
    mask: T,
)
    requires part { at + count ≤ length out.old.items }
    requires inside { (offset + 1) * T.width ≤ count }
    ensures long { length out.new.items ≡ length out.old.items }
    ensures put { out.new.items ≡ bytes_with at (with_number T.width offset (bit_xor (T.to_number value) (T.to_number mask))
        (take count (drop at out.old.items))) out.old.items }
{
    T::write_masked(&mut out[at..at + count], offset, value, mask);
}

/// A bit in a part of bytes, counted from the lowest of its first byte.
#[inline(always)]
pub(crate) fn write_bit(out: &mut Vec<u8>, at: usize, count: usize, index: usize, bit: bool)
    requires part { at + count ≤ length out.old.items }
    requires inside { index < 8 * count }
    ensures long { length out.new.items ≡ length out.old.items }
    ensures put { out.new.items ≡ bytes_with at (with_bit index bit (take count (drop at out.old.items))) out.old.items }
{
    set_bit(&mut out[at..at + count], index, bit);
}

/// Writes bit `i`, counted from the lowest of the first byte.
#[inline]
fn set_bit(bytes: &mut [u8], i: usize, bit: bool)
    requires { i < 8 * length bytes.old }
    ensures { bytes.new ≡ with_bit i bit bytes.old }
{
    let at = i / 8;
    let place = 1u8 << (i % 8);
    if bit {
        bytes[at] = bytes[at] | place;
    } else {
        bytes[at] = bytes[at] & !place;
    }
}
