//! Data as it is written.
ghost use Rattle.std.specs.Prelude.{[], ◌∷◌, ◌≡◌, ◌++◌, ◌+◌, ◌*◌, ◌/◌, ◌%◌, ◌<◌, ◌==◌, IfErr, OnOk, codes, decimal, flat_map, length, true};
ghost use Rattle.capnp_json.specs.Leaves.{base64_digit, base64_text, byte_items, data_json, hex_digits, hex_text, quoted};
ghost use Rattle.capnp_json.specs.Pieces.{after, array, items_left, said, separator};
ghost use Rattle.capnp_json.specs.Steps.Puts.{IsPut, IsStopped};

use crate::error::JsonError;
use crate::lines::{one_deeper, put_closing, put_separator};
use crate::numbers::put_unsigned;
use crate::output::Output;
use crate::strings::{behind, digit_char};
use capnp_json_fields::fields::DataForm;

/// Whether there are no bytes.
fn is_empty(bytes: &[u8]) -> bool
    ensures { result ≡ (length bytes.now == 0) }
{
    bytes.len() == 0
}

/// Appends a number of an array, behind what stands before it.
fn put_item(out: &mut Output, at: Option<u64>, first: bool, byte: u8) -> Result<(), JsonError>
    ensures put { OnOk result (IsPut out.old (after (said (separator at first)) (said (decimal byte))) out.new) }
    ensures stopped { IfErr result (IsStopped out.old (after (said (separator at first)) (said (decimal byte)))) }
{
    if let Err(why) = put_separator(out, at, first) {
        return Err(why);
    }
    put_unsigned(out, byte as u64)
}

/// Appends the numbers of an array and its closing bracket.
fn put_items(out: &mut Output, at: Option<u64>, bytes: &[u8]) -> Result<(), JsonError>
    ensures put { OnOk result (IsPut out.old (items_left (codes "]") at true (byte_items bytes.now)) out.new) }
    ensures stopped { IfErr result (IsStopped out.old (items_left (codes "]") at true (byte_items bytes.now))) }
{
    for index in 0..bytes.len() {
        if let Err(why) = put_item(out, at, index == 0, bytes[index]) {
            return Err(why);
        }
    }
    put_closing(out, at, is_empty(bytes), b"]")
}

/// Appends bytes as an array of numbers.
fn put_array(out: &mut Output, at: Option<u64>, bytes: &[u8]) -> Result<(), JsonError>
    ensures put { OnOk result (IsPut out.old (array at (byte_items bytes.now)) out.new) }
    ensures stopped { IfErr result (IsStopped out.old (array at (byte_items bytes.now))) }
{
    if let Err(why) = out.put(b"[") {
        return Err(why);
    }
    match one_deeper(at) {
        Ok(further) => put_items(out, further, bytes),
        Err(why) => Err(why),
    }
}

/// Appends a byte by its two digits.
fn put_digits(out: &mut Output, byte: u8) -> Result<(), JsonError>
    ensures put { OnOk result (IsPut out.old (said (hex_digits byte)) out.new) }
    ensures stopped { IfErr result (IsStopped out.old (said (hex_digits byte))) }
{
    out.put(&[digit_char(byte / 16), digit_char(byte % 16)])
}

/// Appends bytes by two digits each.
fn put_hex(out: &mut Output, bytes: &[u8]) -> Result<(), JsonError>
    ensures put { OnOk result (IsPut out.old (said (hex_text bytes.now)) out.new) }
    ensures stopped { IfErr result (IsStopped out.old (said (hex_text bytes.now))) }
{
    for index in 0..bytes.len() {
        if let Err(why) = put_digits(out, bytes[index]) {
            return Err(why);
        }
    }
    Ok(())
}

/// The character of six bits.
fn base64_digit(bits: u8) -> u8
    requires { bits < 64 }
    ensures { result ≡ base64_digit bits }
{
    if bits < 26 {
        65 + bits
    } else if bits < 52 {
        71 + bits
    } else if bits < 62 {
        bits - 4
    } else if bits == 62 {
        43
    } else {
        47
    }
}

/// Appends four characters for three bytes.
fn put_three(out: &mut Output, a: u8, b: u8, c: u8) -> Result<(), JsonError>
    ensures put { OnOk result (IsPut out.old (said (base64_text (a ∷ b ∷ c ∷ []))) out.new) }
    ensures stopped { IfErr result (IsStopped out.old (said (base64_text (a ∷ b ∷ c ∷ [])))) }
{
    out.put(&[
        base64_digit(a / 4),
        base64_digit(a % 4 * 16 + b / 16),
        base64_digit(b % 16 * 4 + c / 64),
        base64_digit(c % 64),
    ])
}

/// Appends four characters for two bytes at the end.
fn put_two(out: &mut Output, a: u8, b: u8) -> Result<(), JsonError>
    ensures put { OnOk result (IsPut out.old (said (base64_text (a ∷ b ∷ []))) out.new) }
    ensures stopped { IfErr result (IsStopped out.old (said (base64_text (a ∷ b ∷ [])))) }
{
    out.put(&[
        base64_digit(a / 4),
        base64_digit(a % 4 * 16 + b / 16),
        base64_digit(b % 16 * 4),
        61,
    ])
}

/// Appends four characters for one byte at the end.
fn put_one(out: &mut Output, a: u8) -> Result<(), JsonError>
    ensures put { OnOk result (IsPut out.old (said (base64_text (a ∷ []))) out.new) }
    ensures stopped { IfErr result (IsStopped out.old (said (base64_text (a ∷ [])))) }
{
    out.put(&[base64_digit(a / 4), base64_digit(a % 4 * 16), 61, 61])
}

/// Appends what stands for the last bytes, of which there are less than three.
fn put_last(out: &mut Output, bytes: &[u8]) -> Result<(), JsonError>
    requires { length bytes.now < 3 }
    ensures put { OnOk result (IsPut out.old (said (base64_text bytes.now)) out.new) }
    ensures stopped { IfErr result (IsStopped out.old (said (base64_text bytes.now))) }
{
    let count = bytes.len();
    if count == 0 {
        return Ok(());
    }
    if count == 1 {
        return put_one(out, bytes[0]);
    }
    put_two(out, bytes[0], bytes[1])
}

/// Appends bytes in base64.
fn put_base64(out: &mut Output, bytes: &[u8]) -> Result<(), JsonError>
    ensures put { OnOk result (IsPut out.old (said (base64_text bytes.now)) out.new) }
    ensures stopped { IfErr result (IsStopped out.old (said (base64_text bytes.now))) }
{
    let mut rest = bytes;
    while rest.len() >= 3 {
        if let Err(why) = put_three(out, rest[0], rest[1], rest[2]) {
            return Err(why);
        }
        rest = behind(rest, 3);
    }
    put_last(out, rest)
}

/// Appends bytes by two digits each, in quotes.
fn put_hex_string(out: &mut Output, bytes: &[u8]) -> Result<(), JsonError>
    ensures put { OnOk result (IsPut out.old (said (quoted (hex_text bytes.now))) out.new) }
    ensures stopped { IfErr result (IsStopped out.old (said (quoted (hex_text bytes.now)))) }
{
    if let Err(why) = out.put(b"\"") {
        return Err(why);
    }
    if let Err(why) = put_hex(out, bytes) {
        return Err(why);
    }
    out.put(b"\"")
}

/// Appends bytes in base64, in quotes.
fn put_base64_string(out: &mut Output, bytes: &[u8]) -> Result<(), JsonError>
    ensures put { OnOk result (IsPut out.old (said (quoted (base64_text bytes.now))) out.new) }
    ensures stopped { IfErr result (IsStopped out.old (said (quoted (base64_text bytes.now)))) }
{
    if let Err(why) = out.put(b"\"") {
        return Err(why);
    }
    if let Err(why) = put_base64(out, bytes) {
        return Err(why);
    }
    out.put(b"\"")
}

/// Appends data in its form.
pub(crate) fn put_data(
    out: &mut Output,
    form: DataForm,
    at: Option<u64>,
    bytes: &[u8],
) -> Result<(), JsonError>
    ensures put { OnOk result (IsPut out.old (data_json form at bytes.now) out.new) }
    ensures stopped { IfErr result (IsStopped out.old (data_json form at bytes.now)) }
{
    match form {
        DataForm::Array => put_array(out, at, bytes),
        DataForm::Base64 => put_base64_string(out, bytes),
        DataForm::Hexadecimal => put_hex_string(out, bytes),
    }
}
