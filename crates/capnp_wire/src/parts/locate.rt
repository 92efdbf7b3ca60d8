//! Finds where a pointer word leads: far pointers are followed and bounds tested, no level is counted. Only the
//! pointer, its landing pad and a composite list's tag are looked at (encoding, "Structs", "Lists", "Inter-Segment
//! Pointers").
ghost use Rattle.std.specs.Prelude.{◌≡◌, ◌+◌, ◌<◌, ◌^◌, slice_get};
ghost use Rattle.capnp_wire.specs.Backing.{StartFits, segment_list, target_of};
ghost use Rattle.capnp_wire.specs.Locate.{count, data_words, double_target, element_size_number, is_double, pointer_kind, lies, list_target, list_words, near_target, near_target_from, offset, pad_segment, pad_target, pad_word, pointer_count, start_of, struct_target, tagged_target, target_at};

use crate::fault::Fault;
use crate::parts::bytes::get_word;
use crate::parts::segments::{Segments, get_segment};

/// What a pointer leads to, in the segment with these bytes, from the word `start` on.
#[derive(Clone, Copy)]
pub enum Target<'a> {
    Null,
    Bad(Fault),
    Struct {
        segment: &'a [u8],
        start: usize,
        data_words: u16,
        pointers: u16,
    },
    /// A list that is not composite, by the encoding's number of its element size.
    List {
        segment: &'a [u8],
        start: usize,
        element_size: u8,
        count: u32,
    },
    /// A composite list, from the word behind its tag on.
    Composite {
        segment: &'a [u8],
        start: usize,
        count: u32,
        data_words: u16,
        pointers: u16,
    },
}

// The parts of a pointer word.

fn get_kind(word: u64) -> u64
    ensures { result ≡ pointer_kind word }
{
    word % 4
}

fn get_offset(word: u64) -> usize
    ensures { result ≡ offset word }
{
    (word / 4 % (1 << 30)) as usize
}

fn get_data_words(word: u64) -> u16
    ensures { result ≡ data_words word }
{
    ((word >> 32) % (1 << 16)) as u16
}

fn get_pointer_count(word: u64) -> u16
    ensures { result ≡ pointer_count word }
{
    (word >> 48) as u16
}

fn get_element_size(word: u64) -> u8
    ensures { result ≡ element_size_number word }
{
    ((word >> 32) % 8) as u8
}

fn get_count(word: u64) -> u32
    ensures { result ≡ count word }
{
    (word >> 35) as u32
}

fn has_double_pad(word: u64) -> bool
    ensures { result ≡ is_double word }
{
    word / 4 % 2 == 1
}

fn get_pad_word(word: u64) -> usize
    ensures { result ≡ pad_word word }
{
    (word / 8 % (1 << 29)) as usize
}

fn get_pad_segment(word: u64) -> u32
    ensures { result ≡ pad_segment word }
{
    (word >> 32) as u32
}

/// Whether the words below `end` are there.
fn reaches(segment: &[u8], end: usize) -> bool
    ensures { result ≡ lies segment.now end }
{
    end <= segment.len() / 8
}

/// Where the target of a pointer at word `w` starts, none before the segment: the offset is signed and counts from the
/// word behind the pointer.
#[inline(always)]
fn get_start(w: usize, word: u64) -> Option<usize>
    requires { w < 2 ^ 61 }
    ensures { result ≡ start_of w word }
{
    let end = w + 1 + get_offset(word);
    if get_offset(word) < 1 << 29 {
        Some(end)
    } else if end < 1 << 30 {
        None
    } else {
        Some(end - (1 << 30))
    }
}

#[inline(always)]
fn locate_struct(segment: &[u8], start: usize, word: u64) -> Target<'_>
    requires { start < 2 ^ 61 + 2 ^ 31 }
    ensures value { target_of result ≡ struct_target segment.now start word }
    ensures start { StartFits result }
{
    let data_words = get_data_words(word);
    let pointers = get_pointer_count(word);
    if reaches(segment, start + data_words as usize + pointers as usize) {
        Target::Struct {
            segment,
            start,
            data_words,
            pointers,
        }
    } else {
        Target::Bad(Fault::BadPointer)
    }
}

/// A composite list of `words` words, with its tag at `start`: the tag's elements lie in those words.
fn locate_tagged(segment: &[u8], start: usize, words: u32, tag: u64) -> Target<'_>
    requires { start < 2 ^ 60 }
    ensures value { target_of result ≡ tagged_target segment.now start words tag }
    ensures start { StartFits result }
{
    if get_kind(tag) != 0 {
        return Target::Bad(Fault::BadPointer);
    }
    let count = get_offset(tag);
    if count >= 1 << 29 {
        return Target::Bad(Fault::BadPointer);
    }
    let data_words = get_data_words(tag);
    let pointers = get_pointer_count(tag);
    if count * (data_words as usize + pointers as usize) <= words as usize {
        Target::Composite {
            segment,
            start: start + 1,
            count: count as u32,
            data_words,
            pointers,
        }
    } else {
        Target::Bad(Fault::BadPointer)
    }
}

/// The words of `count` elements of a size from 0 to 6.
#[inline(always)]
fn get_list_words(element_size: u8, count: u32) -> usize
    ensures { result ≡ list_words element_size count }
{
    let bits = if element_size == 0 {
        0
    } else if element_size == 1 {
        1
    } else if element_size == 2 {
        8
    } else if element_size == 3 {
        16
    } else if element_size == 4 {
        32
    } else {
        64
    };
    (count as usize * bits + 63) / 64
}

#[inline(always)]
fn locate_list(segment: &[u8], start: usize, word: u64) -> Target<'_>
    requires { start < 2 ^ 61 + 2 ^ 31 }
    ensures value { target_of result ≡ list_target segment.now start word }
    ensures start { StartFits result }
{
    let element_size = get_element_size(word);
    let count = get_count(word);
    if element_size == 7 {
        if reaches(segment, start + 1 + count as usize) {
            locate_tagged(segment, start, count, get_word(segment, start))
        } else {
            Target::Bad(Fault::BadPointer)
        }
    } else if reaches(segment, start + get_list_words(element_size, count)) {
        Target::List {
            segment,
            start,
            element_size,
            count,
        }
    } else {
        Target::Bad(Fault::BadPointer)
    }
}

/// The target of a word that may be no far pointer, where it starts at `start`.
#[inline(always)]
fn locate_near(segment: &[u8], start: usize, word: u64) -> Target<'_>
    requires { start < 2 ^ 61 + 2 ^ 31 }
    ensures value { target_of result ≡ near_target segment.now start word }
    ensures start { StartFits result }
{
    let kind = get_kind(word);
    if kind == 0 {
        locate_struct(segment, start, word)
    } else if kind == 1 {
        locate_list(segment, start, word)
    } else if kind == 2 {
        Target::Bad(Fault::BadPointer)
    } else {
        Target::Bad(Fault::CapabilityPointer)
    }
}

/// The target of a word that may be no far pointer, where it stands at word `w`.
#[inline(always)]
fn locate_near_from(segment: &[u8], w: usize, word: u64) -> Target<'_>
    requires { w < 2 ^ 61 }
    ensures value { target_of result ≡ near_target_from segment.now (start_of w word) word }
    ensures start { StartFits result }
{
    match get_start(w, word) {
        Some(start) => locate_near(segment, start, word),
        None => {
            if get_kind(word) == 3 {
                Target::Bad(Fault::CapabilityPointer)
            } else {
                Target::Bad(Fault::BadPointer)
            }
        }
    }
}

/// The target of a landing pad of two words: a far pointer to where it starts, and its tag.
#[inline(never)]
fn locate_double(segments: Segments<'_>, first: u64, tag: u64) -> Target<'_>
    ensures value { target_of result ≡ double_target (segment_list segments.entry) first tag }
    ensures start { StartFits result }
{
    if get_kind(first) != 2 {
        return Target::Bad(Fault::BadPointer);
    }
    if has_double_pad(first) {
        return Target::Bad(Fault::BadPointer);
    }
    if get_kind(tag) == 3 {
        return Target::Bad(Fault::CapabilityPointer);
    }
    match get_segment(segments, get_pad_segment(first)) {
        Some(segment) => locate_near(segment, get_pad_word(first), tag),
        None => Target::Bad(Fault::BadPointer),
    }
}

/// The target of a far pointer, by its landing pad.
#[inline(never)]
fn locate_far(segments: Segments<'_>, word: u64) -> Target<'_>
    ensures value { target_of result ≡ pad_target (segment_list segments.entry)
        (slice_get (segment_list segments.entry) (pad_segment word)) word }
    ensures start { StartFits result }
{
    let w = get_pad_word(word);
    match get_segment(segments, get_pad_segment(word)) {
        Some(segment) => {
            if has_double_pad(word) {
                if reaches(segment, w + 2) {
                    locate_double(segments, get_word(segment, w), get_word(segment, w + 1))
                } else {
                    Target::Bad(Fault::BadPointer)
                }
            } else if reaches(segment, w + 1) {
                locate_near_from(segment, w, get_word(segment, w))
            } else {
                Target::Bad(Fault::BadPointer)
            }
        }
        None => Target::Bad(Fault::BadPointer),
    }
}

/// The target of the pointer at word `w` of a segment of the message.
#[inline(always)]
pub fn locate<'a>(segments: Segments<'a>, segment: &'a [u8], w: usize) -> Target<'a>
    ensures value { target_of result ≡ target_at (segment_list segments.entry) segment.now w }
    ensures start { StartFits result }
{
    if w >= segment.len() / 8 {
        return Target::Bad(Fault::BadPointer);
    }
    let word = get_word(segment, w);
    if word == 0 {
        Target::Null
    } else if get_kind(word) == 2 {
        locate_far(segments, word)
    } else {
        locate_near_from(segment, w, word)
    }
}
