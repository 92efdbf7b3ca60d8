//! The texts and data of a message that lie behind their pointers: most of what a pointer leads to.
ghost use Rattle.std.specs.Prelude.{IsTrue, ◌*◌, ◌+◌, ◌/◌, ◌<◌, ◌^◌, ◌≡◌, ◌≤◌};
ghost use Rattle.capnp_wire.specs.Found.{pointer_tree};
ghost use Rattle.capnp_wire.specs.Locate.{element_size_number, offset, pointer_kind, words_past_format};
ghost use Rattle.capnp_wire.specs.Tree.{Null};
ghost use Rattle.capnp_arena.specs.Steps.Blob.{IsBlobAt, IsBlobOf};

use crate::append::get_part;
use crate::in_order::end_of_bytes;
use crate::look::{get_count, get_offset};
use capnp_wire::parts::bytes::read_word;
use capnp_wire::parts::pointer::Pointer;

/// So many bytes, and the words that they take.
#[derive(Clone, Copy)]
pub(crate) struct Blob<'a> {
    pub count: u32,
    pub words: &'a [u8],
}

/// Whether the word of a pointer is that to bytes which lie behind it.
#[inline(always)]
fn leads_to_bytes(word: u64) -> bool
    ensures { IsTrue result → (pointer_kind word ≡ 1) × (element_size_number word ≡ 2) × (offset word < 2 ^ 29) }
{
    let low = word % (1 << 35);
    low % 4 == 1 && low >= 2 << 32 && low < (2 << 32) + (1 << 31)
}

/// So many bytes from a word on, if they are there and zeros are behind them up to a whole word.
#[inline(always)]
fn get_blob(segment: &[u8], start: usize, count: u32) -> Option<Blob<'_>>
    requires start { start < 2 ^ 61 }
    requires count { count < words_past_format }
    ensures { IsBlobAt segment.now start count result }
{
    let words = (count as usize + 7) / 8;
    if start >= 1 << 30 {
        return None;
    }
    if start + words > segment.len() / 8 {
        return None;
    }
    match end_of_bytes(segment, start, count as usize) {
        Some(next) => Some(Blob {
            count,
            words: get_part(segment, start, 8 * (next - start)),
        }),
        None => None,
    }
}

/// Whether the word of a pointer is that of a null.
#[inline(always)]
pub(crate) fn is_null_word(pointer: Pointer<'_>) -> bool
    ensures { IsTrue result → pointer_tree pointer.entry ≡ Null }
{
    match pointer {
        Pointer::Null => false,
        Pointer::Bad(_) => false,
        Pointer::Word {
            depth: _,
            is_stream: _,
            bytes: _,
            segment,
            index,
        } => {
            if index >= segment.len() / 8 {
                return false;
            }
            read_word(segment, index) == 0
        }
    }
}

/// The text or data that a pointer leads to, if it lies behind the pointer in its segment, with zeros up to a whole
/// word.
#[inline(always)]
pub(crate) fn find_blob(pointer: Pointer<'_>) -> Option<Blob<'_>>
    ensures { IsBlobOf result (pointer_tree pointer.entry) }
{
    match pointer {
        Pointer::Null => None,
        Pointer::Bad(_) => None,
        Pointer::Word {
            depth,
            is_stream: _,
            bytes: _,
            segment,
            index,
        } => {
            if depth == 0 {
                return None;
            }
            if index >= segment.len() / 8 {
                return None;
            }
            let word = read_word(segment, index);
            if !leads_to_bytes(word) {
                return None;
            }
            get_blob(segment, index + 1 + get_offset(word), get_count(word))
        }
    }
}
