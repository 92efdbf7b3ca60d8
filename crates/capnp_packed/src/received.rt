//! Packed messages as they are received.
ghost use Rattle.std.specs.Prelude.{ℕ, ◌*◌, ◌+◌, ◌++◌, ◌<◌, ◌^◌, ◌↔◌, ◌≡◌, ◌≢◌, ◌≤◌, Err, IfErr, IfOk, IsOk, IsTrue, Ok, length, replicate, take};
ghost use Rattle.capnp_device.specs.declared.error.ErrorKind.TheVariants.{OutOfMemory};
ghost use Rattle.capnp_wire.specs.Stream.{message_tree_of};
ghost use Rattle.capnp_packed.specs.Received.{received_message};
ghost use Rattle.capnp_packed.specs.Steps.Seen.{piece_seen, run_seen};
ghost use Rattle.capnp_packed.specs.Unpacking.{unpacked_bytes};
ghost use Rattle.capnp_streams.specs.Lengths.{message_length, most_bytes};

use crate::unpack::{Run, WordRun, next_piece};
use capnp_device::error::{Error, ErrorKind, Result};
use capnp_streams::receive::MOST_BYTES;
use capnp_wire::laws::more_bytes_change_nothing;
use capnp_wire::parts::bytes::{half_at, part};
use capnp_wire::parts::segments::{count_words, get_header_bytes};
use std::alloc::Global;

/// The longest table of a message, which has 512 segments.
const LONGEST_TABLE: usize = 2056;

/// The words of the longest run.
static ZEROS: [u8; 2040] = [0; 2040];

/// Writes bytes from a place on, as many as there is room for, and answers where they end.
fn put(out: &mut [u8], at: usize, bytes: &[u8]) -> usize
    requires { at ≤ length out.old }
    ensures inside { result ≤ length out.old }
    ensures later { at ≤ result }
    ensures within { result ≤ at + length bytes.now }
    ensures whole { result < length out.old → result ≡ at + length bytes.now }
    ensures bytes { take result out.new ≡ take result (take at out.old ++ bytes.now) }
    ensures length { length out.new ≡ length out.old }
{
    let room = out.len() - at;
    let count = if bytes.len() < room {
        bytes.len()
    } else {
        room
    };
    out[at..at + count].copy_from_slice(part(bytes, 0, count));
    at + count
}

/// Writes so many words of zeros from a place on, as many bytes as there is room for, and answers where they end.
fn put_zeros(out: &mut [u8], at: usize, count: u8) -> usize
    requires { at ≤ length out.old }
    ensures inside { result ≤ length out.old }
    ensures later { at ≤ result }
    ensures within { result ≤ at + 8 * count }
    ensures whole { result < length out.old → result ≡ at + 8 * count }
    ensures bytes { take result out.new ≡ take result (◌++◌ {A = ℕ} (take at out.old) (replicate (8 * count) 0)) }
    ensures length { length out.new ≡ length out.old }
{
    put(out, at, part(&ZEROS, 0, 8 * count as usize))
}

/// Writes the bytes of a piece from a place on, as many as there is room for, and answers where they end.
pub(crate) fn put_piece(out: &mut [u8], at: usize, piece: WordRun<'_>) -> usize
    requires { at ≤ length out.old }
    ensures inside { result ≤ length out.old }
    ensures later { at < length out.old → at < result }
    ensures within { result ≤ at + length (piece_seen piece.entry).0 }
    ensures whole { result < length out.old → result ≡ at + length (piece_seen piece.entry).0 }
    ensures bytes { take result out.new ≡ take result (take at out.old ++ (piece_seen piece.entry).0) }
    ensures length { length out.new ≡ length out.old }
{
    let behind = put(out, at, &piece.word);
    match piece.run {
        Run::Alone => behind,
        Run::Zeros(count) => put_zeros(out, behind, count),
        Run::Words(words) => put(out, behind, words),
    }
}

/// Writes the first of the bytes that packed bytes stand for, as many as there is room for, and answers their number.
fn unpack_into(out: &mut [u8], packed: &[u8]) -> usize
    ensures inside { result ≤ length out.old }
    ensures whole { result < length out.old → result ≡ length (unpacked_bytes packed.now) }
    ensures bytes { take result out.new ≡ take result (unpacked_bytes packed.now) }
    ensures length { length out.new ≡ length out.old }
{
    let mut at = 0;
    let mut left = packed;
    while at < out.len() {
        let Some(piece) = next_piece(left) else {
            return at;
        };
        at = put_piece(out, at, piece);
        left = piece.rest;
    }
    at
}

/// The bytes of a piece.
fn count_bytes(piece: WordRun<'_>) -> usize
    requires { length (run_seen piece.run) ≤ 2040 }
    ensures { result ≡ length (piece_seen piece.entry).0 }
{
    match piece.run {
        Run::Alone => 8,
        Run::Zeros(count) => 8 + 8 * count as usize,
        Run::Words(words) => 8 + words.len(),
    }
}

/// Whether packed bytes stand for so many bytes.
fn has_bytes(packed: &[u8], needed: usize) -> bool
    requires { needed ≤ most_bytes }
    ensures { IsTrue result ↔ needed ≤ length (unpacked_bytes packed.now) }
{
    let mut at = 0;
    let mut left = packed;
    while at < needed {
        let Some(piece) = next_piece(left) else {
            return false;
        };
        at += count_bytes(piece);
        left = piece.rest;
    }
    true
}

/// The bytes of the message that packed bytes stand for, its table with them. No memory is taken.
fn measure(packed: &[u8]) -> Result<usize>
    ensures length { IfOk result (λ n. message_length (unpacked_bytes packed.now) ≡ Ok n) }
    ensures refused { IfErr result (λ e. message_length (unpacked_bytes packed.now) ≡ Err e.kind) }
{
    let mut begin = [0u8; LONGEST_TABLE];
    let known = unpack_into(&mut begin, packed);
    if known < 8 {
        return Err(Error::from(ErrorKind::Truncated));
    }
    let count = half_at(&begin, 0) as usize + 1;
    if count > 512 {
        return Err(Error::from(ErrorKind::TooManySegments));
    }
    let header = get_header_bytes(count);
    if known < header {
        return Err(Error::from(ErrorKind::Truncated));
    }
    let length = header + 8 * count_words(part(&begin, 4, 4 * count), count);
    if length > MOST_BYTES {
        return Err(Error::from(ErrorKind::TooLarge));
    }
    if !has_bytes(packed, length) {
        return Err(Error::from(ErrorKind::Truncated));
    }
    Ok(length)
}

/// The message that packed bytes stand for.
fn unpack_message(alloc: Global, packed: &[u8]) -> Result<Vec<u8>>
    ensures message { IfOk result (λ v. received_message packed.now ≡ Ok v.items) }
    ensures refused { IfErr result (λ e. e.kind ≢ OutOfMemory → received_message packed.now ≡ Err e.kind) }
    ensures memory { IfErr result (λ e. e.kind ≡ OutOfMemory → IsOk (received_message packed.now)) }
{
    let length = measure(packed)?;
    let mut out = vec![in alloc; 0u8; length]?;
    unpack_into(&mut out, packed);
    Ok(out)
}

/// The message that packed bytes stand for, as it stands in a stream: the first, if there are several. What follows it is
/// not looked at. `capnp_wire::message::Reader::new` reads it.
///
/// Refused with `Truncated` where the packed bytes stand for less than the message (a piece that is cut stands for
/// nothing), with `TooManySegments` where its table has more than 512, and with `TooLarge` where the message has more
/// than 1 GiB: 2 packed bytes may stand for 2,048, so a small input could else ask for all of a machine's memory. No memory
/// is taken before this is known. Then refused with `OutOfMemory` alone.
pub fn read_message(alloc: Global, packed: &[u8]) -> Result<Vec<u8>>
    ensures message { IfOk result (λ v. received_message packed.now ≡ Ok v.items) }
    ensures read { IfOk result (λ v. message_tree_of v.items ≡ message_tree_of (unpacked_bytes packed.now)) }
    ensures refused { IfErr result (λ e. e.kind ≢ OutOfMemory → received_message packed.now ≡ Err e.kind) }
    ensures memory { IfErr result (λ e. e.kind ≡ OutOfMemory → IsOk (received_message packed.now)) }
{
    // the prover learns that what follows a message changes nothing
    more_bytes_change_nothing();
    let message = unpack_message(alloc, packed)?;
    Ok(message)
}
