//! What strings stand for.
ghost use Rattle.std.specs.Prelude.{ℕ, List, ◌≡◌, ◌++◌, ◌<◌, drop, IfErr, IfOk, Ok, OnOk, slice_index};
ghost use Rattle.std.specs.Str.{IsUtf8};
ghost use Rattle.capnp_device.specs.declared.error.ErrorKind.TheVariants.{OutOfMemory};
ghost use Rattle.capnp_json_text.specs.Contents.{character_bytes, character_content, escape_content, escaped_character, hex_value, short_meaning, string_content, unit_of};
ghost use Rattle.capnp_json_text.specs.Strings.{after_string};

use crate::strings::{Character, character_of, skip_character};
use capnp_device::error::Result;
use std::alloc::Global;

/// The byte at a place, or 0 past the end.
fn byte_at(bytes: &[u8], at: usize) -> u8
    ensures { result ≡ slice_index bytes.now at }
{
    if at < bytes.len() { bytes[at] } else { 0 }
}

/// The bytes from a place on, none past the end.
fn bytes_from(bytes: &[u8], at: usize) -> &[u8]
    ensures { result.now ≡ drop at bytes.now }
{
    if at < bytes.len() {
        &bytes[at..]
    } else {
        &bytes[..0]
    }
}

/// The number of a hexadecimal digit.
fn hex_value(byte: u8) -> u32
    ensures value { result ≡ hex_value byte }
    ensures few { result < 16 }
{
    match byte {
        b'0'..=b'9' => u32::from(byte - b'0'),
        b'A'..=b'F' => u32::from(byte - b'A' + 10),
        b'a'..=b'f' => u32::from(byte - b'a' + 10),
        _ => 0,
    }
}

/// The number that four hexadecimal digits write.
fn unit_of(bytes: &[u8]) -> u32
    ensures value { result ≡ unit_of bytes.now }
    ensures few { result < 65536 }
{
    let first = hex_value(byte_at(bytes, 0));
    let second = hex_value(byte_at(bytes, 1));
    let third = hex_value(byte_at(bytes, 2));
    let fourth = hex_value(byte_at(bytes, 3));
    4096 * first + 256 * second + 16 * third + fourth
}

/// The character whose number stands behind `\u`, in one half or two.
fn escaped_character(bytes: &[u8]) -> u32
    ensures value { result ≡ escaped_character bytes.now }
    ensures few { result < 1114112 }
{
    let unit = unit_of(bytes);
    if 0xD800 <= unit && unit <= 0xDBFF {
        let half = unit_of(bytes_from(bytes, 6));
        return 0x1_0000 + 1024 * (unit % 1024) + half % 1024;
    }
    unit
}

/// What a letter behind a backslash stands for.
fn short_meaning(byte: u8) -> u8
    ensures { result ≡ short_meaning byte }
{
    match byte {
        b'b' => 8,
        b'f' => 12,
        b'n' => 10,
        b'r' => 13,
        b't' => 9,
        _ => byte,
    }
}

/// Appends a character in UTF-8.
fn append_character(out: &mut Vec<u8>, number: u32) -> Result<()>
    requires { number < 1114112 }
    ensures appended { OnOk result (out.new.items ≡ out.old.items ++ character_bytes number) }
    ensures memory { IfErr result (λ e. e.kind ≡ OutOfMemory) }
{
    if let Some(character) = char::from_u32(number) {
        let mut room = [0; 4];
        let encoded = character.encode_utf8(&mut room);
        out.extend_from_slice(encoded.as_bytes())?;
    }
    Ok(())
}

/// Appends what an escape stands for, behind its backslash.
fn append_escape(out: &mut Vec<u8>, bytes: &[u8]) -> Result<()>
    ensures appended { OnOk result (out.new.items ≡ out.old.items ++ escape_content bytes.now) }
    ensures memory { IfErr result (λ e. e.kind ≡ OutOfMemory) }
{
    let [first, behind @ ..] = bytes else {
        return Ok(());
    };
    if *first == b'u' {
        return append_character(out, escaped_character(behind));
    }
    out.push(short_meaning(*first))?;
    Ok(())
}

/// Appends what the first character stands for.
#[tactic(auto, unfolding(crate::specs::Contents::character_content))]
fn append_content(out: &mut Vec<u8>, bytes: &[u8]) -> Result<()>
    ensures appended { OnOk result (out.new.items ≡ out.old.items ++ character_content bytes.now) }
    ensures memory { IfErr result (λ e. e.kind ≡ OutOfMemory) }
{
    let [first, behind @ ..] = bytes else {
        return Ok(());
    };
    match character_of(*first) {
        Character::Quote => Ok(()),
        Character::Backslash => append_escape(out, behind),
        Character::Control => Ok(()),
        Character::Plain => {
            out.push(*first)?;
            Ok(())
        }
    }
}

/// What a string stands for, from behind its opening quote on: UTF-8 where the bytes are, as those of a text. Of bytes
/// that are no string it is what the characters before the first fault stand for.
///
/// Refused with `OutOfMemory` alone.
pub fn read_string(alloc: Global, bytes: &[u8]) -> Result<Vec<u8>>
    ensures content { IfOk result (λ v. v.items ≡ string_content bytes.now) }
    ensures utf8 { IfOk result (λ v. IsUtf8 bytes.now → (rest : List ℕ) → after_string bytes.now ≡ Ok rest → IsUtf8 v.items) }
    ensures memory { IfErr result (λ e. e.kind ≡ OutOfMemory) }
{
    let mut out = Vec::new(alloc);
    let mut rest = bytes;
    'characters: loop {
        let Ok((more, behind)) = skip_character(rest) else {
            return Ok(out);
        };
        if !more {
            return Ok(out);
        }
        append_content(&mut out, rest)?;
        rest = behind;
    }
}
