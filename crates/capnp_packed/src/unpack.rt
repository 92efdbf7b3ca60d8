//! Bytes out of packed bytes.
ghost use Rattle.std.specs.Prelude.{◌++◌, ◌+◌, ◌<◌, ◌≡◌, ◌≤◌, IfErr, IfNone, IfOk, IfSome, MatchOption, OnOk, length};
ghost use Rattle.std.specs.Option.{option_map};
ghost use Rattle.capnp_device.specs.declared.error.ErrorKind.TheVariants.{OutOfMemory};
ghost use Rattle.capnp_packed.specs.Unpacking.{byte_under, piece_of, unpacked_bytes, word_under, words_counted, zeros_counted};
ghost use Rattle.capnp_packed.specs.Steps.Seen.{piece_seen, run_seen};

use capnp_device::error::Result;
use std::alloc::Global;

/// The words that follow a word in its piece.
#[derive(Clone, Copy)]
pub(crate) enum Run<'a> {
    Alone,
    /// So many words of zeros.
    Zeros(u8),
    /// The words that stand in these bytes.
    Words(&'a [u8]),
}

/// A piece of packed bytes, by its first word, and what follows it.
#[derive(Clone, Copy)]
pub(crate) struct WordRun<'a> {
    pub word: [u8; 8],
    pub run: Run<'a>,
    pub rest: &'a [u8],
}

/// The byte under a bit, and what is left; none where no byte is left for it.
fn next_byte(bit: bool, bytes: &[u8]) -> Option<(u8, &[u8])>
    ensures byte { option_map (λ x. (x.0, x.1.now)) result ≡ byte_under bit bytes.now }
    ensures shorter { IfSome result (λ x. length x.1.now ≤ length bytes.now) }
    ensures few { MatchOption result (length bytes.now ≡ 0) (λ x. length bytes.now ≤ length x.1.now + 1) }
{
    if !bit {
        return Some((0, bytes));
    }
    match bytes {
        [] => None,
        [first, rest @ ..] => Some((*first, rest)),
    }
}

/// The bytes of a word under a tag, and what follows them; none where the bytes end first.
fn read_word(tag: u8, bytes: &[u8]) -> Option<([u8; 8], &[u8])>
    ensures word { option_map (λ x. (x.0, x.1.now)) result ≡ word_under tag bytes.now }
    ensures shorter { IfSome result (λ x. length x.1.now ≤ length bytes.now) }
    ensures few { MatchOption result (length bytes.now < 8) (λ x. length bytes.now ≤ length x.1.now + 8) }
{
    let mut word = [0u8; 8];
    let mut rest = bytes;
    let mut bits = tag;
    for i in 0..8 {
        let (byte, behind) = next_byte(bits % 2 == 1, rest)?;
        word[i] = byte;
        rest = behind;
        bits /= 2;
    }
    Some((word, rest))
}

/// A piece of words of zeros: one, and so many more as the next byte says, which has to be there.
fn zeros_behind(rest: &[u8]) -> Option<WordRun<'_>>
    ensures piece { option_map piece_seen result ≡ zeros_counted rest.now }
    ensures shorter { IfSome result (λ p. length p.rest.now ≤ length rest.now) }
    ensures short { IfSome result (λ p. length (run_seen p.run) ≤ 2040) }
    ensures cut { IfNone result (length rest.now ≡ 0) }
{
    let [count, rest @ ..] = rest else {
        return None;
    };
    Some(WordRun {
        word: [0; 8],
        run: Run::Zeros(*count),
        rest,
    })
}

/// A piece of words as they stand: one, and so many more as the next byte says, which have to be there.
fn words_behind(word: [u8; 8], rest: &[u8]) -> Option<WordRun<'_>>
    ensures piece { option_map piece_seen result ≡ words_counted word rest.now }
    ensures shorter { IfSome result (λ p. length p.rest.now ≤ length rest.now) }
    ensures short { IfSome result (λ p. length (run_seen p.run) ≤ 2040) }
    ensures cut { IfNone result (length rest.now ≤ 2040) }
{
    let [first, behind @ ..] = rest else {
        return None;
    };
    let count = 8 * (*first as usize);
    if behind.len() < count {
        return None;
    }
    let run = Run::Words(&behind[..count]);
    let rest = &behind[count..];
    Some(WordRun { word, run, rest })
}

/// The first piece of packed bytes; none where they end within it, which is at most 2,050 bytes long.
pub(crate) fn next_piece(packed: &[u8]) -> Option<WordRun<'_>>
    ensures piece { option_map piece_seen result ≡ piece_of packed.now }
    ensures shorter { IfSome result (λ p. length p.rest.now < length packed.now) }
    ensures short { IfSome result (λ p. length (run_seen p.run) ≤ 2040) }
    ensures cut { IfNone result (length packed.now < 2050) }
{
    let [tag, behind @ ..] = packed else {
        return None;
    };
    let (word, rest) = read_word(*tag, behind)?;
    match *tag {
        0 => zeros_behind(rest),
        255 => words_behind(word, rest),
        _ => {
            let run = Run::Alone;
            Some(WordRun { word, run, rest })
        }
    }
}

/// Appends the bytes of a piece.
fn append_piece(out: &mut Vec<u8>, piece: WordRun<'_>) -> Result<()>
    ensures bytes { OnOk result (out.new.items ≡ out.old.items ++ (piece_seen piece.entry).0) }
    ensures memory { IfErr result (λ e. e.kind ≡ OutOfMemory) }
{
    out.extend_from_slice(&piece.word)?;
    match piece.run {
        Run::Alone => {}
        Run::Zeros(count) => {
            let length = out.len() + 8 * count as usize;
            out.resize(length, 0)?;
        }
        Run::Words(words) => out.extend_from_slice(words)?,
    }
    Ok(())
}

/// The bytes that packed bytes stand for, those of their whole pieces (encoding, "Packing"): a piece that is cut gives
/// none, and none follow it. 2 bytes may stand for 2,048, so see that input which isn't trusted is short.
///
/// Refused with `OutOfMemory` alone.
pub fn unpack(alloc: Global, packed: &[u8]) -> Result<Vec<u8>>
    ensures bytes { IfOk result (λ v. v.items ≡ unpacked_bytes packed.now) }
    ensures memory { IfErr result (λ e. e.kind ≡ OutOfMemory) }
{
    let mut out = Vec::new(alloc);
    let mut rest = packed;
    while let Some(piece) = next_piece(rest) {
        append_piece(&mut out, piece)?;
        rest = piece.rest;
    }
    Ok(out)
}
