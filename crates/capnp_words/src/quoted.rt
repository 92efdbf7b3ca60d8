//! Texts and data in quotes, byte for byte.
ghost use Rattle.std.specs.Prelude.{◌≡◌, ◌+◌, ◌++◌, ◌<◌, ◌≤◌, ◌^◌, length, IfErr, IfOk, IfSome, OnOk};
ghost use Rattle.capnp_device.specs.declared.error.ErrorKind.TheVariants.{OutOfMemory};
ghost use Rattle.capnp_words.specs.Reads.{read_as};
ghost use Rattle.capnp_words.specs.Quoted.{character_step, code_step, escape_step, hex_value, high_step, is_code_begun, low_digit, only, piece_bytes, quoted_at, step_of};
ghost use Rattle.capnp_words.specs.Steps.Quoted.{IsReached};

use crate::path::Read;
use capnp_wire::error::Result;
use std::alloc::Global;

/// What may stand next.
#[derive(Clone, Copy)]
pub(crate) enum Expected {
    /// A character of a text, or its closing quote.
    Character,
    /// What follows a backslash.
    Escape,
    /// The brace before a character's number.
    Brace,
    /// A digit of that number, or the brace behind it: how many digits there were, and their number.
    CodeDigit(u8, u32),
    /// The first three bytes of data.
    Zero,
    Ex,
    Quote,
    /// The first digit of a byte of data, or the closing quote.
    HighDigit,
    /// The second digit of a byte of data, whose first is this.
    LowDigit(u8),
    /// Nothing.
    End,
}

/// What a byte of the word stands for.
#[derive(Clone, Copy)]
pub(crate) enum Piece {
    Nothing,
    Byte(u8),
    Character(char),
}

/// The value of a hexadecimal digit, in lower case.
fn hex_digit(byte: u8) -> Option<u8>
    ensures is { result ≡ hex_value byte }
    ensures inside { IfSome result (λ digit. digit < 16) }
{
    match byte {
        b'0'..=b'9' => Some(byte - b'0'),
        b'a'..=b'f' => Some(byte - b'a' + 10),
        _ => None,
    }
}

fn step_character(byte: u8) -> Option<(Piece, Expected)>
    ensures { result ≡ character_step byte }
{
    if byte == b'"' {
        Some((Piece::Nothing, Expected::End))
    } else if byte == b'\\' {
        Some((Piece::Nothing, Expected::Escape))
    } else if byte < 32 || byte == 127 {
        None
    } else {
        Some((Piece::Byte(byte), Expected::Character))
    }
}

fn step_escape(byte: u8) -> Option<(Piece, Expected)>
    ensures { result ≡ escape_step byte }
{
    let meant = match byte {
        b'"' | b'\\' => byte,
        b'n' => b'\n',
        b'r' => b'\r',
        b't' => b'\t',
        b'0' => 0,
        b'u' => return Some((Piece::Nothing, Expected::Brace)),
        _ => return None,
    };
    Some((Piece::Byte(meant), Expected::Character))
}

/// Whether so many digits begin a character's number, or are all of it where they are six.
fn is_code_begun(count: u8, number: u32) -> bool
    ensures { result ≡ is_code_begun count number }
{
    let is_surrogate = 0xD800 <= number && number <= 0xDFFF;
    number < 0x11_0000 && !(count == 6 && is_surrogate)
}

fn step_code(count: u8, number: u32, byte: u8) -> Option<(Piece, Expected)>
    requires { number < 1114112 }
    ensures { result ≡ code_step count number byte }
{
    if byte == b'}' {
        if count == 0 {
            return None;
        }
        let character = char::from_u32(number)?;
        return Some((Piece::Character(character), Expected::Character));
    }
    let digit = hex_digit(byte)?;
    let longer = 16 * number + u32::from(digit);
    if count < 6 && is_code_begun(count + 1, longer) {
        return Some((Piece::Nothing, Expected::CodeDigit(count + 1, longer)));
    }
    None
}

fn step_only(wanted: u8, byte: u8, next: Expected) -> Option<(Piece, Expected)>
    ensures { result ≡ only wanted byte next }
{
    if byte == wanted {
        return Some((Piece::Nothing, next));
    }
    None
}

fn step_high(byte: u8) -> Option<(Piece, Expected)>
    ensures { result ≡ high_step byte }
{
    if byte == b'"' {
        return Some((Piece::Nothing, Expected::End));
    }
    let digit = hex_digit(byte)?;
    Some((Piece::Nothing, Expected::LowDigit(digit)))
}

fn step_low(high: u8, byte: u8) -> Option<(Piece, Expected)>
    requires { high < 16 }
    ensures { result ≡ low_digit high (hex_value byte) }
{
    let digit = hex_digit(byte)?;
    Some((Piece::Byte(16 * high + digit), Expected::HighDigit))
}

/// What a byte stands for, and what may stand behind it. None where it can't stand.
fn step(expected: Expected, byte: u8) -> Option<(Piece, Expected)>
    requires { IsReached expected }
    ensures is { result ≡ step_of expected byte }
    ensures reached { IfSome result (λ s. IsReached s.1) }
{
    match expected {
        Expected::Character => step_character(byte),
        Expected::Escape => step_escape(byte),
        Expected::Brace => step_only(b'{', byte, Expected::CodeDigit(0, 0)),
        Expected::CodeDigit(count, number) => step_code(count, number, byte),
        Expected::Zero => step_only(b'0', byte, Expected::Ex),
        Expected::Ex => step_only(b'x', byte, Expected::Quote),
        Expected::Quote => step_only(b'"', byte, Expected::HighDigit),
        Expected::HighDigit => step_high(byte),
        Expected::LowDigit(high) => step_low(high, byte),
        Expected::End => None,
    }
}

/// Appends the bytes that a piece stands for; a character's are its UTF-8.
fn append_piece(bytes: &mut Vec<u8>, piece: Piece) -> Result<()>
    ensures appended { OnOk result (bytes.new.items ≡ bytes.old.items ++ piece_bytes piece) }
    ensures memory { IfErr result (λ e. e.kind ≡ OutOfMemory) }
{
    match piece {
        Piece::Nothing => {}
        Piece::Byte(byte) => bytes.push(byte)?,
        Piece::Character(character) => {
            let mut room = [0; 4];
            let encoded = character.encode_utf8(&mut room);
            bytes.extend_from_slice(encoded.as_bytes())?;
        }
    }
    Ok(())
}

/// The bytes that stand in quotes, from what may stand first. `place` is where the first byte stands.
pub(crate) fn read_quoted(
    alloc: Global,
    word: &[u8],
    place: usize,
    first: Expected,
) -> Result<Read<Vec<u8>>>
    requires room { place + length word.now < 2 ^ 64 }
    requires first { IsReached first }
    ensures read { IfOk result (λ r. read_as (λ v. v.items) r ≡ quoted_at first place word.now) }
    ensures memory { IfErr result (λ e. e.kind ≡ OutOfMemory) }
{
    let mut bytes = Vec::new(alloc);
    let mut expected = first;
    for index in 0..word.len() {
        let Some((piece, next)) = step(expected, word[index]) else {
            return Ok(Err(place + index));
        };
        append_piece(&mut bytes, piece)?;
        expected = next;
    }
    if matches!(expected, Expected::End) {
        Ok(Ok(bytes))
    } else {
        Ok(Err(place + word.len()))
    }
}
