//! Numbers that a data field or a list element holds.
//!
//! A number stands lowest byte first, a signed one in two's complement (the encoding page,
//! "Primitive Values").
ghost use Rattle.std.specs.Prelude.{◌≡◌, ◌<◌, ◌≤◌, ◌+◌, ◌*◌, ◌^◌, length, ℕ, bit_xor, refl, FitsSigned};
ghost use Rattle.std.specs.Int.{w8, w16, w32, w64, cast_signed, cast_unsigned};
ghost use Rattle.std.proofs.lemmas.Int.{of_z-to_z, to_z-of_z};
ghost use Rattle.std.proofs.Math.Facts.{Fits-lt-pow, Fits-of_z};
ghost use Rattle.capnp_wire.specs.Slot.{number_at};
ghost use Rattle.capnp_wire.specs.Edits.{with_number};

use crate::parts::bytes::{get_word, number_from, read_word};

/// A number that a data field or a list element holds.
pub trait PrimitiveElement: Copy {
    /// The width in bytes.
    ghost width: { ℕ };

    /// The value of a stored number.
    ghost of_number: { ℕ → Self };

    /// The number that is stored for a value.
    ghost to_number: { Self → ℕ };

    /// That a value lies in the range of its type.
    ghost in_range: { Self → Type 0 };

    /// The number at `offset`, in units of its own width, with zeros past the end of `bytes`, also
    /// where only some of its bytes are there.
    fn read(bytes: &[u8], offset: u32) -> Self
        ensures { result ≡ of_number (number_at width offset bytes.now) };

    /// The width as a number.
    fn count_bytes() -> u8
        ensures { result ≡ width };

    /// The number at `index`, in units of its own width.
    ///
    /// # Conditions
    ///
    /// All bytes of the number lie inside `bytes`.
    fn read_inside(bytes: &[u8], index: usize) -> Self
        requires { (index + 1) * width ≤ length bytes.now }
        ensures { result ≡ of_number (number_at width index bytes.now) };

    /// The number at `offset`, in units of its own width, XORed with `mask`: a field whose default
    /// is `mask` is stored so, and reads as its default where zeros or no bytes stand (the encoding
    /// page, "Default Values").
    fn read_masked(bytes: &[u8], offset: u32, mask: Self) -> Self
        ensures { result ≡ of_number (bit_xor (number_at width offset bytes.now) (to_number mask)) };

    /// Writes a value at `offset`, in units of its own width.
    ///
    /// # Conditions
    ///
    /// All bytes of the number lie inside `bytes`.
    fn write(bytes: &mut [u8], offset: u32, value: Self)
        requires { (offset + 1) * width ≤ length bytes.old }
        ensures { bytes.new ≡ with_number width offset (to_number value) bytes.old };

    /// Writes a value XORed with `mask` at `offset`, as a field whose default is `mask` is stored.
    ///
    /// # Conditions
    ///
    /// All bytes of the number lie inside `bytes`.
    fn write_masked(bytes: &mut [u8], offset: u32, value: Self, mask: Self)
        requires { (offset + 1) * width ≤ length bytes.old }
        ensures { bytes.new ≡ with_number width offset (bit_xor (to_number value) (to_number mask)) bytes.old };

    /// The number of a value takes no more bytes than the width.
    ghost number_fits: { (x : Self) → in_range x → to_number x < 256 ^ width };

    /// A value is read back from its number.
    ghost value_kept: { (x : Self) → in_range x → of_number (to_number x) ≡ x };

    /// A number is stored again for its value.
    ghost number_kept: { (n : ℕ) → n < 256 ^ width → to_number (of_number n) ≡ n };
}

impl PrimitiveElement for u8 {
    ghost width = { 1 };

    ghost of_number = { λ n. n };

    ghost to_number = { λ n. n };

    ghost in_range = { λ n. n < 256 ^ 1 };

    ghost number_fits = { λ n h. h };

    ghost value_kept = { λ n h. refl };

    ghost number_kept = { λ n h. refl };

    #[inline]
    fn read(bytes: &[u8], offset: u32) -> u8 {
        let at = offset as usize;
        if at < bytes.len() { bytes[at] } else { 0 }
    }

    #[inline(always)]
    fn count_bytes() -> u8 {
        1
    }

    #[inline(always)]
    fn read_inside(bytes: &[u8], index: usize) -> u8 {
        bytes[index]
    }

    #[inline]
    fn read_masked(bytes: &[u8], offset: u32, mask: u8) -> u8 {
        u8::read(bytes, offset) ^ mask
    }

    #[inline]
    fn write(bytes: &mut [u8], offset: u32, value: u8) {
        bytes[offset as usize] = value;
    }

    #[inline]
    fn write_masked(bytes: &mut [u8], offset: u32, value: u8, mask: u8) {
        u8::write(bytes, offset, value ^ mask);
    }
}

impl PrimitiveElement for u16 {
    ghost width = { 2 };

    ghost of_number = { λ n. n };

    ghost to_number = { λ n. n };

    ghost in_range = { λ n. n < 256 ^ 2 };

    ghost number_fits = { λ n h. h };

    ghost value_kept = { λ n h. refl };

    ghost number_kept = { λ n h. refl };

    #[inline]
    fn read(bytes: &[u8], offset: u32) -> u16 {
        let at = offset as usize * 2;
        if bytes.len() >= 2 && at <= bytes.len() - 2 {
            u16::from_le_bytes([bytes[at], bytes[at + 1]])
        } else {
            number_from(bytes, at, 2) as u16
        }
    }

    #[inline(always)]
    fn count_bytes() -> u8 {
        2
    }

    #[inline(always)]
    fn read_inside(bytes: &[u8], index: usize) -> u16 {
        let at = index * 2;
        u16::from_le_bytes([bytes[at], bytes[at + 1]])
    }

    #[inline]
    fn read_masked(bytes: &[u8], offset: u32, mask: u16) -> u16 {
        u16::read(bytes, offset) ^ mask
    }

    #[inline]
    fn write(bytes: &mut [u8], offset: u32, value: u16) {
        let start = 2 * offset as usize;
        bytes[start..start + 2].copy_from_slice(&value.to_le_bytes());
    }

    #[inline]
    fn write_masked(bytes: &mut [u8], offset: u32, value: u16, mask: u16) {
        u16::write(bytes, offset, value ^ mask);
    }
}

impl PrimitiveElement for u32 {
    ghost width = { 4 };

    ghost of_number = { λ n. n };

    ghost to_number = { λ n. n };

    ghost in_range = { λ n. n < 256 ^ 4 };

    ghost number_fits = { λ n h. h };

    ghost value_kept = { λ n h. refl };

    ghost number_kept = { λ n h. refl };

    #[inline]
    fn read(bytes: &[u8], offset: u32) -> u32 {
        let at = offset as usize * 4;
        if bytes.len() >= 4 && at <= bytes.len() - 4 {
            u32::from_le_bytes([bytes[at], bytes[at + 1], bytes[at + 2], bytes[at + 3]])
        } else {
            number_from(bytes, at, 4) as u32
        }
    }

    #[inline(always)]
    fn count_bytes() -> u8 {
        4
    }

    #[inline(always)]
    fn read_inside(bytes: &[u8], index: usize) -> u32 {
        let at = index * 4;
        u32::from_le_bytes([bytes[at], bytes[at + 1], bytes[at + 2], bytes[at + 3]])
    }

    #[inline]
    fn read_masked(bytes: &[u8], offset: u32, mask: u32) -> u32 {
        u32::read(bytes, offset) ^ mask
    }

    #[inline]
    fn write(bytes: &mut [u8], offset: u32, value: u32) {
        let start = 4 * offset as usize;
        bytes[start..start + 4].copy_from_slice(&value.to_le_bytes());
    }

    #[inline]
    fn write_masked(bytes: &mut [u8], offset: u32, value: u32, mask: u32) {
        u32::write(bytes, offset, value ^ mask);
    }
}

impl PrimitiveElement for u64 {
    ghost width = { 8 };

    ghost of_number = { λ n. n };

    ghost to_number = { λ n. n };

    ghost in_range = { λ n. n < 256 ^ 8 };

    ghost number_fits = { λ n h. h };

    ghost value_kept = { λ n h. refl };

    ghost number_kept = { λ n h. refl };

    #[inline]
    fn read(bytes: &[u8], offset: u32) -> u64 {
        get_word(bytes, offset as usize)
    }

    #[inline(always)]
    fn count_bytes() -> u8 {
        8
    }

    #[inline(always)]
    fn read_inside(bytes: &[u8], index: usize) -> u64 {
        read_word(bytes, index)
    }

    #[inline]
    fn read_masked(bytes: &[u8], offset: u32, mask: u64) -> u64 {
        u64::read(bytes, offset) ^ mask
    }

    #[inline]
    fn write(bytes: &mut [u8], offset: u32, value: u64) {
        let start = 8 * offset as usize;
        bytes[start..start + 8].copy_from_slice(&value.to_le_bytes());
    }

    #[inline]
    fn write_masked(bytes: &mut [u8], offset: u32, value: u64, mask: u64) {
        u64::write(bytes, offset, value ^ mask);
    }
}

impl PrimitiveElement for i8 {
    ghost width = { 1 };

    ghost of_number = { cast_signed w8 };

    ghost to_number = { cast_unsigned w8 };

    ghost in_range = { FitsSigned w8 };

    ghost number_fits = { λ x h. Fits-lt-pow (Fits-of_z h) };

    ghost value_kept = { to_z-of_z w8 };

    ghost number_kept = { of_z-to_z w8 };

    #[inline]
    fn read(bytes: &[u8], offset: u32) -> i8 {
        u8::read(bytes, offset).cast_signed()
    }

    #[inline(always)]
    fn count_bytes() -> u8 {
        1
    }

    #[inline(always)]
    fn read_inside(bytes: &[u8], index: usize) -> i8 {
        u8::read_inside(bytes, index).cast_signed()
    }

    #[inline]
    fn read_masked(bytes: &[u8], offset: u32, mask: i8) -> i8 {
        u8::read_masked(bytes, offset, mask.cast_unsigned()).cast_signed()
    }

    #[inline]
    fn write(bytes: &mut [u8], offset: u32, value: i8) {
        u8::write(bytes, offset, value.cast_unsigned());
    }

    #[inline]
    fn write_masked(bytes: &mut [u8], offset: u32, value: i8, mask: i8) {
        u8::write_masked(bytes, offset, value.cast_unsigned(), mask.cast_unsigned());
    }
}

impl PrimitiveElement for i16 {
    ghost width = { 2 };

    ghost of_number = { cast_signed w16 };

    ghost to_number = { cast_unsigned w16 };

    ghost in_range = { FitsSigned w16 };

    ghost number_fits = { λ x h. Fits-lt-pow (Fits-of_z h) };

    ghost value_kept = { to_z-of_z w16 };

    ghost number_kept = { of_z-to_z w16 };

    #[inline]
    fn read(bytes: &[u8], offset: u32) -> i16 {
        u16::read(bytes, offset).cast_signed()
    }

    #[inline(always)]
    fn count_bytes() -> u8 {
        2
    }

    #[inline(always)]
    fn read_inside(bytes: &[u8], index: usize) -> i16 {
        u16::read_inside(bytes, index).cast_signed()
    }

    #[inline]
    fn read_masked(bytes: &[u8], offset: u32, mask: i16) -> i16 {
        u16::read_masked(bytes, offset, mask.cast_unsigned()).cast_signed()
    }

    #[inline]
    fn write(bytes: &mut [u8], offset: u32, value: i16) {
        u16::write(bytes, offset, value.cast_unsigned());
    }

    #[inline]
    fn write_masked(bytes: &mut [u8], offset: u32, value: i16, mask: i16) {
        u16::write_masked(bytes, offset, value.cast_unsigned(), mask.cast_unsigned());
    }
}

impl PrimitiveElement for i32 {
    ghost width = { 4 };

    ghost of_number = { cast_signed w32 };

    ghost to_number = { cast_unsigned w32 };

    ghost in_range = { FitsSigned w32 };

    ghost number_fits = { λ x h. Fits-lt-pow (Fits-of_z h) };

    ghost value_kept = { to_z-of_z w32 };

    ghost number_kept = { of_z-to_z w32 };

    #[inline]
    fn read(bytes: &[u8], offset: u32) -> i32 {
        u32::read(bytes, offset).cast_signed()
    }

    #[inline(always)]
    fn count_bytes() -> u8 {
        4
    }

    #[inline(always)]
    fn read_inside(bytes: &[u8], index: usize) -> i32 {
        u32::read_inside(bytes, index).cast_signed()
    }

    #[inline]
    fn read_masked(bytes: &[u8], offset: u32, mask: i32) -> i32 {
        u32::read_masked(bytes, offset, mask.cast_unsigned()).cast_signed()
    }

    #[inline]
    fn write(bytes: &mut [u8], offset: u32, value: i32) {
        u32::write(bytes, offset, value.cast_unsigned());
    }

    #[inline]
    fn write_masked(bytes: &mut [u8], offset: u32, value: i32, mask: i32) {
        u32::write_masked(bytes, offset, value.cast_unsigned(), mask.cast_unsigned());
    }
}

impl PrimitiveElement for i64 {
    ghost width = { 8 };

    ghost of_number = { cast_signed w64 };

    ghost to_number = { cast_unsigned w64 };

    ghost in_range = { FitsSigned w64 };

    ghost number_fits = { λ x h. Fits-lt-pow (Fits-of_z h) };

    ghost value_kept = { to_z-of_z w64 };

    ghost number_kept = { of_z-to_z w64 };

    #[inline]
    fn read(bytes: &[u8], offset: u32) -> i64 {
        u64::read(bytes, offset).cast_signed()
    }

    #[inline(always)]
    fn count_bytes() -> u8 {
        8
    }

    #[inline(always)]
    fn read_inside(bytes: &[u8], index: usize) -> i64 {
        u64::read_inside(bytes, index).cast_signed()
    }

    #[inline]
    fn read_masked(bytes: &[u8], offset: u32, mask: i64) -> i64 {
        u64::read_masked(bytes, offset, mask.cast_unsigned()).cast_signed()
    }

    #[inline]
    fn write(bytes: &mut [u8], offset: u32, value: i64) {
        u64::write(bytes, offset, value.cast_unsigned());
    }

    #[inline]
    fn write_masked(bytes: &mut [u8], offset: u32, value: i64, mask: i64) {
        u64::write_masked(bytes, offset, value.cast_unsigned(), mask.cast_unsigned());
    }
}
