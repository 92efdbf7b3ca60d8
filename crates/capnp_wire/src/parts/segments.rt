//! The segments of a message, as they lie.
ghost use Rattle.std.specs.Prelude.{[], ◌≡◌, ◌≤◌, ◌<◌, ◌*◌, ◌+◌, ◌%◌, ◌^◌, drop, length, option_map, slice_get, slice_index_or, take};
ghost use Rattle.capnp_wire.specs.Backing.{segment_list};
ghost use Rattle.capnp_wire.specs.Slot.{little_endian};
ghost use Rattle.capnp_wire.specs.Stream.{header_bytes, stream_segments, table_of, total_words};

use crate::parts::bytes::{half_at, part};

/// The segments of a stream, which begins with the table of their sizes, or one segment that stands alone. A table is
/// looked up where a pointer leads to another segment, so readers need not carry it.
#[derive(Clone, Copy)]
pub struct Segments<'a> {
    pub bytes: &'a [u8],
    /// Whether the bytes are a stream; else they are the one segment.
    pub is_stream: bool,
}

/// The words of the segment that stands at `index` in a table of sizes: 4 bytes for each.
#[inline(always)]
fn get_size(table: &[u8], index: usize) -> usize
    requires { 4 * index + 4 ≤ length table.now }
    ensures value { result ≡ little_endian (take 4 (drop (4 * index) table.now)) }
    ensures fits { result < 2 ^ 32 }
{
    let start = 4 * index;
    u32::from_le_bytes([
        table[start],
        table[start + 1],
        table[start + 2],
        table[start + 3],
    ]) as usize
}

/// The words of the first segments of a table, as a `u32` that wraps, and the size of the largest of them.
///
/// So narrow a sum goes over four sizes at a time, where wider ones go over two.
fn add_sizes(table: &[u8], count: usize) -> (u32, u32)
    requires { 4 * count ≤ length table.now }
    ensures words { result.0 ≡ total_words count table.now % 2 ^ 32 }
    ensures largest { result.1 < 2 ^ 22 → total_words count table.now ≤ 2 ^ 22 * count }
{
    let mut words: u32 = 0;
    let mut largest: u32 = 0;
    for i in 0..count {
        let size = get_size(table, i) as u32;
        words = words.wrapping_add(size);
        if size > largest {
            largest = size;
        }
    }
    (words, largest)
}

/// The words of the first segments of a table, of any sizes.
#[cold]
#[inline(never)]
fn count_many_words(table: &[u8], count: usize) -> usize
    requires there { 4 * count ≤ length table.now }
    requires few { count < 2 ^ 32 }
    ensures value { result ≡ total_words count table.now }
    ensures fits { result ≤ 2 ^ 32 * count }
{
    let mut words: usize = 0;
    for i in 0..count {
        words += get_size(table, i);
    }
    words
}

/// The words of the first segments of a table.
///
/// # Conditions
///
/// The table has at least `count` sizes, and `count` is below 2^32.
#[inline(never)]
pub fn count_words(table: &[u8], count: usize) -> usize
    requires there { 4 * count ≤ length table.now }
    requires few { count < 2 ^ 32 }
    ensures value { result ≡ total_words count table.now }
    ensures fits { result ≤ 2 ^ 32 * count }
{
    let (words, largest) = add_sizes(table, count);
    if count < 1 << 10 && largest < 1 << 22 {
        words as usize
    } else {
        count_many_words(table, count)
    }
}

/// The table of a stream, as much of it as is there.
fn get_table(stream: &[u8]) -> &[u8]
    ensures { result.now ≡ table_of stream.now }
{
    part(stream, 4, 4 * (half_at(stream, 0) as usize + 1))
}

/// The bytes of segment `index` of a stream, where it is there.
#[inline(always)]
fn get_stream_segment(stream: &[u8], index: u32) -> Option<&[u8]>
    ensures { option_map (λ s. s.now) result ≡ slice_get (stream_segments stream.now) index }
{
    let table = get_table(stream);
    let index = index as usize;
    if index >= table.len() / 4 {
        return None;
    }
    let words = count_words(table, index);
    if words > stream.len() / 8 {
        // It begins past the end of the stream.
        return Some(&[]);
    }
    let header = get_header_bytes(half_at(stream, 0) as usize + 1);
    let start = header + 8 * words;
    Some(part(stream, start, 8 * get_size(table, index)))
}

/// The bytes of segment `index`, where it is there.
#[inline(always)]
pub fn get_segment(segments: Segments<'_>, index: u32) -> Option<&[u8]>
    ensures { option_map (λ s. s.now) result ≡ slice_get (segment_list segments.entry) index }
{
    if segments.is_stream {
        return get_stream_segment(segments.bytes, index);
    }
    if index == 0 {
        Some(segments.bytes)
    } else {
        None
    }
}

/// The bytes of the first segment, none where there is no segment.
pub fn get_first_segment(segments: Segments<'_>) -> &[u8]
    ensures { result.now ≡ slice_index_or (segment_list segments.entry) 0 [] }
{
    match get_segment(segments, 0) {
        Some(segment) => segment,
        None => &[],
    }
}

/// The bytes before the segments: their count, the table of their sizes and its padding.
///
/// # Conditions
///
/// `count` is at most 2^32.
pub fn get_header_bytes(count: usize) -> usize
    requires { count ≤ 2 ^ 32 }
    ensures { result ≡ header_bytes count }
{
    (count / 2 + 1) * 8
}
