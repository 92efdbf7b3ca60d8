//! Data of strings: in base64 and by hexadecimal digits.
ghost use Rattle.std.specs.Prelude.{ℕ, List, [], ◌∷◌, ◌++◌, ◌≡◌, ◌+◌, ◌*◌, ◌/◌, ◌%◌, ◌<◌, ◌&&◌, true, false, cond, Option, Some, None, IfErr, IfOk, IfSome, length};
ghost use Rattle.std.specs.Char.{is_ascii_hexdigit};
ghost use Rattle.std.specs.Option.{option_map};
ghost use Rattle.capnp_device.specs.declared.error.ErrorKind.TheVariants.{OutOfMemory};
ghost use Rattle.capnp_schema.specs.Types.{DataType};
ghost use Rattle.capnp_json_text.specs.Contents.{hex_value};
ghost use Rattle.capnp_json_fields.specs.declared.fields.DataForm.{DataForm};
ghost use Rattle.capnp_from_json.specs.Encodings.{base64_decoded, base64_value, before_bytes, hex_decoded, last_bytes, one_byte, three_bytes, two_bytes};
ghost use Rattle.capnp_from_json.specs.Leaves.{data_read, decoded};
ghost use Rattle.capnp_from_json.specs.LeafReads.{IsLeafOf, is_typed};

use crate::error::Error;
use crate::leaves::{Leaf, past_format, wrong_kind};
use capnp_device::error::Result;
use capnp_json_fields::fields::DataForm;
use std::alloc::Global;

/// The number of a hexadecimal digit of either case. None where a byte is none.
fn digit_of(byte: u8) -> Option<u8>
    ensures digit { result ≡ cond (is_ascii_hexdigit byte) (Some (hex_value byte)) None }
    ensures few { IfSome result (λ n. n < 16) }
{
    match byte {
        b'0'..=b'9' => Some(byte - b'0'),
        b'A'..=b'F' => Some(byte - b'A' + 10),
        b'a'..=b'f' => Some(byte - b'a' + 10),
        _ => None,
    }
}

/// The byte that two hexadecimal digits write. None where one is no digit.
fn byte_of(high: u8, low: u8) -> Option<u8>
    ensures { result ≡ cond (is_ascii_hexdigit high && is_ascii_hexdigit low) (Some (16 * hex_value high + hex_value low)) None }
{
    let Some(first) = digit_of(high) else {
        return None;
    };
    let Some(second) = digit_of(low) else {
        return None;
    };
    Some(16 * first + second)
}

/// The bytes that hexadecimal digits write, of either case and two for each byte. None where they are no such digits.
///
/// Refused with `OutOfMemory` alone.
pub fn read_hexadecimal(alloc: Global, string: &[u8]) -> Result<Option<Vec<u8>>>
    ensures read { IfOk result (λ bytes. option_map (λ v. v.items) bytes ≡ hex_decoded string.now) }
    ensures memory { IfErr result (λ e. e.kind ≡ OutOfMemory) }
{
    let mut out = Vec::new(alloc);
    let mut rest = string;
    'pairs: while let [high, low, more @ ..] = rest {
        let Some(byte) = byte_of(*high, *low) else {
            return Ok(None);
        };
        out.push(byte)?;
        rest = more;
    }
    if rest.is_empty() {
        Ok(Some(out))
    } else {
        Ok(None)
    }
}

/// The six bits of a character of base64. None where a byte is no such character.
fn base64_value(byte: u8) -> Option<u8>
    ensures value { result ≡ base64_value byte }
    ensures few { IfSome result (λ n. n < 64) }
{
    match byte {
        b'A'..=b'Z' => Some(byte - 65),
        b'a'..=b'z' => Some(byte - 71),
        b'0'..=b'9' => Some(byte + 4),
        b'+' => Some(62),
        b'/' => Some(63),
        _ => None,
    }
}

/// Appends the three bytes of four characters. False where one is no character of base64, and then nothing is appended.
///
/// Refused with `OutOfMemory` alone.
fn put_three(out: &mut Vec<u8>, a: u8, b: u8, c: u8, d: u8) -> Result<bool>
    ensures put { IfOk result (λ is. cond is (Some out.new.items) None ≡ before_bytes out.old.items
        (three_bytes (base64_value a) (base64_value b) (base64_value c) (base64_value d) (Some []))) }
    ensures memory { IfErr result (λ e. e.kind ≡ OutOfMemory) }
{
    let Some(first) = base64_value(a) else {
        return Ok(false);
    };
    let Some(second) = base64_value(b) else {
        return Ok(false);
    };
    let Some(third) = base64_value(c) else {
        return Ok(false);
    };
    let Some(fourth) = base64_value(d) else {
        return Ok(false);
    };
    out.push(4 * first + second / 16)?;
    out.push(16 * (second % 16) + third / 4)?;
    out.push(64 * (third % 4) + fourth)?;
    Ok(true)
}

/// Appends the two bytes of three characters before one `=`. False where they are no such characters, or their last two
/// bits are not zero.
///
/// Refused with `OutOfMemory` alone.
fn put_two(out: &mut Vec<u8>, a: u8, b: u8, c: u8) -> Result<bool>
    ensures put { IfOk result (λ is. cond is (Some out.new.items) None
        ≡ before_bytes out.old.items (two_bytes (base64_value a) (base64_value b) (base64_value c))) }
    ensures memory { IfErr result (λ e. e.kind ≡ OutOfMemory) }
{
    let Some(first) = base64_value(a) else {
        return Ok(false);
    };
    let Some(second) = base64_value(b) else {
        return Ok(false);
    };
    let Some(third) = base64_value(c) else {
        return Ok(false);
    };
    if third % 4 != 0 {
        return Ok(false);
    }
    out.push(4 * first + second / 16)?;
    out.push(16 * (second % 16) + third / 4)?;
    Ok(true)
}

/// Appends the byte of two characters before `==`. False where they are no such characters, or their last four bits are
/// not zero.
///
/// Refused with `OutOfMemory` alone.
fn put_one(out: &mut Vec<u8>, a: u8, b: u8) -> Result<bool>
    ensures put { IfOk result (λ is. cond is (Some out.new.items) None
        ≡ before_bytes out.old.items (one_byte (base64_value a) (base64_value b))) }
    ensures memory { IfErr result (λ e. e.kind ≡ OutOfMemory) }
{
    let Some(first) = base64_value(a) else {
        return Ok(false);
    };
    let Some(second) = base64_value(b) else {
        return Ok(false);
    };
    if second % 16 != 0 {
        return Ok(false);
    }
    out.push(4 * first + second / 16)?;
    Ok(true)
}

/// Appends the bytes of the last four characters, which may be padded. False where they are no such characters.
///
/// Refused with `OutOfMemory` alone.
fn put_last(out: &mut Vec<u8>, a: u8, b: u8, c: u8, d: u8) -> Result<bool>
    ensures put { IfOk result (λ is. cond is (Some out.new.items) None
        ≡ before_bytes out.old.items (last_bytes a b c d)) }
    ensures memory { IfErr result (λ e. e.kind ≡ OutOfMemory) }
{
    if d != b'=' {
        return put_three(out, a, b, c, d);
    }
    if c != b'=' {
        return put_two(out, a, b, c);
    }
    put_one(out, a, b)
}

/// The bytes that a string in base64 stands for, by RFC 4648: with the standard alphabet, full padding, no blanks, and
/// zeros for the bits that are not used. None where it is no such string.
///
/// Refused with `OutOfMemory` alone.
pub fn read_base64(alloc: Global, string: &[u8]) -> Result<Option<Vec<u8>>>
    ensures read { IfOk result (λ bytes. option_map (λ v. v.items) bytes ≡ base64_decoded string.now) }
    ensures memory { IfErr result (λ e. e.kind ≡ OutOfMemory) }
{
    let mut out = Vec::new(alloc);
    let mut rest = string;
    'groups: while let [a, b, c, d, more @ ..] = rest {
        let behind = more.len();
        if behind == 0 {
            if put_last(&mut out, *a, *b, *c, *d)? {
                return Ok(Some(out));
            }
            return Ok(None);
        }
        let is_group = put_three(&mut out, *a, *b, *c, *d)?;
        if !is_group {
            return Ok(None);
        }
        rest = more;
    }
    if rest.is_empty() {
        Ok(Some(out))
    } else {
        Ok(None)
    }
}

/// The bytes that a string stands for as data of a form. None where it is none; no string is data that is an array.
///
/// Refused with `OutOfMemory` alone.
fn read_string(alloc: Global, form: DataForm, string: &[u8]) -> Result<Option<Vec<u8>>>
    ensures read { IfOk result (λ bytes. option_map (λ v. v.items) bytes ≡ decoded form string.now) }
    ensures memory { IfErr result (λ e. e.kind ≡ OutOfMemory) }
{
    match form {
        DataForm::Array => Ok(None),
        DataForm::Base64 => read_base64(alloc, string),
        DataForm::Hexadecimal => read_hexadecimal(alloc, string),
    }
}

/// Data that is a string of a form.
///
/// Refused with `OutOfMemory`, with `WrongJsonKind` where the string is not of the form, and with `SizePastFormat`
/// where it stands for 2^29 bytes or more.
pub fn read_encoded(
    alloc: Global,
    form: DataForm,
    string: &[u8],
    place: usize,
) -> std::result::Result<Leaf, Error>
    ensures read { IsLeafOf (data_read place (decoded form string.now)) result }
    ensures typed { IfOk result (λ l. is_typed DataType l ≡ true) }
{
    let bytes = match read_string(alloc, form, string) {
        Ok(bytes) => bytes,
        Err(_memory) => return Err(Error::OutOfMemory),
    };
    let Some(content) = bytes else {
        return Err(Error::Refused(wrong_kind(place)));
    };
    if content.len() > 536870911 {
        return Err(Error::Refused(past_format(place)));
    }
    Ok(Leaf::Data(content))
}
