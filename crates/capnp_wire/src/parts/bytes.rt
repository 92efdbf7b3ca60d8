//! Numbers, bits and parts of a run of bytes, which has zeros past its end.
//!
//! Offsets count bytes, words of eight bytes or bits, as each function says. Numbers stand lowest
//! byte first (the encoding page, "Primitive Values"). No read refuses.
ghost use Rattle.std.specs.Prelude.{◌≡◌, ◌+◌, ◌≤◌, ◌<◌, ◌^◌, ◌*◌, ◌/◌, ◌%◌, length, take, drop};
ghost use Rattle.capnp_wire.specs.Slot.{little_endian, word_at, bit_at};

/// The bytes from byte `start` on, none past the end.
#[inline(always)]
pub fn rest(bytes: &[u8], start: usize) -> &[u8]
    ensures { result.now ≡ drop start bytes.now }
{
    if start < bytes.len() {
        &bytes[start..]
    } else {
        &bytes[..0]
    }
}

/// At most `count` bytes from byte `start` on, none past the end.
#[inline(always)]
pub fn part(bytes: &[u8], start: usize, count: usize) -> &[u8]
    ensures { result.now ≡ take count (drop start bytes.now) }
{
    let rest = rest(bytes, start);
    if count < rest.len() {
        &rest[..count]
    } else {
        rest
    }
}

/// The number that at most eight bytes spell, lowest first, byte by byte.
#[cold]
#[inline(never)]
fn spell(bytes: &[u8]) -> u64
    requires { length bytes.now ≤ 8 }
    ensures { result ≡ little_endian bytes.now }
{
    let mut number: u64 = 0;
    let mut i = bytes.len();
    while i > 0 {
        i -= 1;
        number = number * 256 + bytes[i] as u64;
    }
    number
}

/// The number of at most eight bytes: 0 at once where there is no byte, as for a field past the end of a struct.
#[inline(always)]
fn number(bytes: &[u8]) -> u64
    requires { length bytes.now ≤ 8 }
    ensures { result ≡ little_endian bytes.now }
{
    if bytes.is_empty() { 0 } else { spell(bytes) }
}

/// The number that `width` bytes from byte `start` on spell, with zeros past the end.
///
/// The reads below test for the end first, and call it only where bytes are missing.
///
/// # Conditions
///
/// `width` is at most 8.
#[inline(always)]
pub fn number_from(bytes: &[u8], start: usize, width: usize) -> u64
    requires { width ≤ 8 }
    ensures value { result ≡ little_endian (take width (drop start bytes.now)) }
    ensures fits { result < 256 ^ width }
{
    number(part(bytes, start, width))
}

/// The number of 32 bits from byte `start` on, with zeros past the end.
#[inline]
pub fn half_at(bytes: &[u8], start: usize) -> u32
    ensures { result ≡ little_endian (take 4 (drop start bytes.now)) }
{
    if bytes.len() >= 4 && start <= bytes.len() - 4 {
        u32::from_le_bytes([
            bytes[start],
            bytes[start + 1],
            bytes[start + 2],
            bytes[start + 3],
        ])
    } else {
        number_from(bytes, start, 4) as u32
    }
}

/// Word `w`, the eight bytes from byte `8 * w` on.
///
/// # Conditions
///
/// The eight bytes are there.
#[inline(always)]
pub fn read_word(bytes: &[u8], w: usize) -> u64
    requires { 8 * w + 8 ≤ length bytes.now }
    ensures { result ≡ word_at bytes.now w }
{
    let start = 8 * w;
    u64::from_le_bytes([
        bytes[start],
        bytes[start + 1],
        bytes[start + 2],
        bytes[start + 3],
        bytes[start + 4],
        bytes[start + 5],
        bytes[start + 6],
        bytes[start + 7],
    ])
}

/// Word `w`, the eight bytes from byte `8 * w` on, with zeros past the end.
///
/// # Conditions
///
/// `w` is below 2^61.
#[inline(always)]
pub fn get_word(bytes: &[u8], w: usize) -> u64
    requires { w < 2 ^ 61 }
    ensures { result ≡ word_at bytes.now w }
{
    let start = 8 * w;
    if bytes.len() >= 8 && start <= bytes.len() - 8 {
        read_word(bytes, w)
    } else {
        number_from(bytes, start, 8)
    }
}

/// Bit `i`, counted from the lowest of the first byte, and false past the end.
#[inline(always)]
pub fn get_bit(bytes: &[u8], i: usize) -> bool
    ensures { result ≡ bit_at bytes.now i }
{
    let at = i / 8;
    if at < bytes.len() {
        bytes[at] >> (i % 8) & 1 == 1
    } else {
        false
    }
}

/// How many numbers of `width` bytes there are in `count` bytes.
///
/// A division by a width that varies costs more than the rest of a step, so the widths of numbers are told apart.
///
/// # Conditions
///
/// `width` is not 0.
#[inline(always)]
pub fn divide(count: usize, width: u8) -> usize
    requires { 0 < width }
    ensures { result ≡ count / width }
{
    if width == 1 {
        count / 1
    } else if width == 2 {
        count / 2
    } else if width == 4 {
        count / 4
    } else if width == 8 {
        count / 8
    } else {
        count / width as usize
    }
}
