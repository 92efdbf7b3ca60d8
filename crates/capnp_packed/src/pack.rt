//! Packed bytes out of bytes.
ghost use Rattle.std.specs.Prelude.{◌%◌, ◌*◌, ◌+◌, ◌++◌, ◌≡◌, ◌≤◌, IfErr, IfOk, OnOk, length};
ghost use Rattle.capnp_device.specs.declared.error.ErrorKind.TheVariants.{OutOfMemory};
ghost use Rattle.capnp_packed.specs.Packing.{bit_of, goes_on_packed, nonzero, packed_form, packed_piece, run_bytes, run_length, run_words, tag_of};
ghost use Rattle.capnp_packed.specs.Unpacking.{unpacked_bytes};

use capnp_device::error::Result;
use capnp_wire::parts::bytes::{part, rest};
use std::alloc::Global;

/// The bit of a byte in a tag.
fn bit_of(byte: u8) -> u8
    ensures bit { result ≡ bit_of byte }
    ensures small { result ≤ 1 }
{
    if byte == 0 { 0 } else { 1 }
}

/// The tag of a word.
#[tactic(auto, using(crate::proofs::Tags::tag_sum))]
fn tag_of(word: &[u8]) -> u8
    requires { length word.now ≡ 8 }
    ensures { result ≡ tag_of word.now }
{
    bit_of(word[0])
        + 2 * bit_of(word[1])
        + 4 * bit_of(word[2])
        + 8 * bit_of(word[3])
        + 16 * bit_of(word[4])
        + 32 * bit_of(word[5])
        + 64 * bit_of(word[6])
        + 128 * bit_of(word[7])
}

/// The number of bytes that are not zero.
fn count_nonzero(bytes: &[u8]) -> usize
    ensures { result ≡ length (nonzero bytes.now) }
{
    let mut count = 0;
    for i in 0..bytes.len() {
        count += bit_of(bytes[i]) as usize;
    }
    count
}

/// Whether a word goes on with a run of zeros, or else with one of full words.
fn goes_on(zeros: bool, word: &[u8]) -> bool
    requires { length word.now ≡ 8 }
    ensures { result ≡ goes_on_packed zeros word.now }
{
    let count = count_nonzero(word);
    if zeros { count == 0 } else { count > 6 }
}

/// The words that go on with a run, at most 255.
fn count_run(zeros: bool, bytes: &[u8]) -> usize
    ensures words { result ≡ run_length zeros bytes.now }
    ensures few { result ≤ 255 }
    ensures inside { 8 * result ≤ length bytes.now }
{
    let mut left = bytes;
    for count in 0..255 {
        if left.len() < 8 {
            return count;
        }
        if !goes_on(zeros, part(left, 0, 8)) {
            return count;
        }
        left = rest(left, 8);
    }
    255
}

/// Appends the bytes that are not zero.
fn append_nonzero(out: &mut Vec<u8>, bytes: &[u8]) -> Result<()>
    ensures bytes { OnOk result (out.new.items ≡ out.old.items ++ nonzero bytes.now) }
    ensures memory { IfErr result (λ e. e.kind ≡ OutOfMemory) }
{
    for i in 0..bytes.len() {
        if bytes[i] != 0 {
            out.push(bytes[i])?;
        }
    }
    Ok(())
}

/// Appends what stands behind a tag and its bytes, and answers the number of the words that follow in the piece.
fn append_run(out: &mut Vec<u8>, tag: u8, bytes: &[u8]) -> Result<usize>
    ensures words { IfOk result (λ n. n ≡ run_words tag bytes.now) }
    ensures few { IfOk result (λ n. n ≤ 255) }
    ensures bytes { OnOk result (out.new.items ≡ out.old.items ++ run_bytes tag (run_words tag bytes.now) bytes.now) }
    ensures memory { IfErr result (λ e. e.kind ≡ OutOfMemory) }
{
    match tag {
        0 => {
            let count = count_run(true, bytes);
            out.push(count as u8)?;
            Ok(count)
        }
        255 => {
            let count = count_run(false, bytes);
            out.push(count as u8)?;
            out.extend_from_slice(part(bytes, 0, 8 * count))?;
            Ok(count)
        }
        _ => Ok(0),
    }
}

/// Appends the piece that begins with a word, and answers the number of the words that follow in it.
fn append_piece(out: &mut Vec<u8>, word: &[u8], behind: &[u8]) -> Result<usize>
    requires { length word.now ≡ 8 }
    ensures words { IfOk result (λ n. n ≡ run_words (tag_of word.now) behind.now) }
    ensures few { IfOk result (λ n. n ≤ 255) }
    ensures bytes { OnOk result (out.new.items
        ≡ out.old.items ++ packed_piece word.now (run_words (tag_of word.now) behind.now) behind.now) }
    ensures memory { IfErr result (λ e. e.kind ≡ OutOfMemory) }
{
    let tag = tag_of(word);
    out.push(tag)?;
    append_nonzero(out, word)?;
    append_run(out, tag, behind)
}

/// The packed form of bytes (encoding, "Packing"). So the C++ library packs a message of one segment, byte for byte.
/// 8 n bytes take at most 10 n.
///
/// Refused with `OutOfMemory` alone.
///
/// # Conditions
///
/// The bytes are whole words.
pub fn pack(alloc: Global, bytes: &[u8]) -> Result<Vec<u8>>
    requires whole { length bytes.now % 8 ≡ 0 }
    ensures packed { IfOk result (λ v. v.items ≡ packed_form bytes.now) }
    ensures back { IfOk result (λ v. unpacked_bytes v.items ≡ bytes.now) }
    ensures memory { IfErr result (λ e. e.kind ≡ OutOfMemory) }
{
    let mut out = Vec::new(alloc);
    let mut left = bytes;
    while left.len() >= 8 {
        let behind = rest(left, 8);
        let count = append_piece(&mut out, part(left, 0, 8), behind)?;
        left = rest(behind, 8 * count);
    }
    Ok(out)
}
