//! Where a pointer of the segment leads. It was written by a builder, so no bound is tested.
ghost use Rattle.std.specs.Prelude.{◌+◌, ◌*◌, ◌/◌, ◌<◌, ◌^◌, ◌≡◌, ◌≤◌, length};
ghost use Rattle.capnp_wire.specs.Locate.{count, data_words, element_size_number, pointer_kind, offset, pointer_count};
ghost use Rattle.capnp_wire.specs.Slot.{number_at};

use capnp_wire::primitive::PrimitiveElement;

/// What a pointer leads to, from the word `start` on.
#[derive(Clone, Copy)]
pub(crate) enum Target {
    Null,
    Struct {
        start: usize,
        data_words: u16,
        pointers: u16,
    },
    /// A list that is not composite, by the encoding's number of its element size.
    List {
        start: usize,
        element_size: u8,
        count: u32,
    },
    /// A composite list: its elements stand behind its tag.
    Composite {
        tag: usize,
        count: u32,
        data_words: u16,
        pointers: u16,
    },
}

pub(crate) fn get_offset(word: u64) -> usize
    ensures { result ≡ offset word }
{
    (word / 4 % (1 << 30)) as usize
}

pub(crate) fn get_data_words(word: u64) -> u16
    ensures { result ≡ data_words word }
{
    ((word >> 32) % (1 << 16)) as u16
}

pub(crate) fn get_pointer_count(word: u64) -> u16
    ensures { result ≡ pointer_count word }
{
    (word >> 48) as u16
}

pub(crate) fn get_element_size(word: u64) -> u8
    ensures { result ≡ element_size_number word }
{
    ((word >> 32) % 8) as u8
}

pub(crate) fn get_count(word: u64) -> u32
    ensures { result ≡ count word }
{
    (word >> 35) as u32
}

/// A word of the segment.
#[inline(always)]
pub(crate) fn get_word(bytes: &[u8], w: usize) -> u64
    requires { w < 2 ^ 32 }
    ensures { result ≡ number_at 8 w bytes.now }
{
    u64::read(bytes, w as u32)
}

/// A word that is inside.
#[inline(always)]
pub(crate) fn get_inner_word(bytes: &[u8], w: usize) -> u64
    requires { 8 * w + 8 ≤ length bytes.now }
    ensures { result ≡ number_at 8 w bytes.now }
{
    let mut word: [u8; 8] = [0; 8];
    word.copy_from_slice(&bytes[8 * w..8 * w + 8]);
    u64::from_le_bytes(word)
}
