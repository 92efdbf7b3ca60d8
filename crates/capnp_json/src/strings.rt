//! Strings as they are written.
ghost use Rattle.std.specs.Prelude.{[], ◌∷◌, ◌≡◌, ◌++◌, ◌+◌, ◌<◌, ◌≤◌, IfErr, IfOk, OnOk, drop, flat_map, length, take};
ghost use Rattle.std.specs.Char.{digit_char};
ghost use Rattle.capnp_json_text.specs.Writing.{byte_written, control_written, string_written};
ghost use Rattle.capnp_json.specs.Leaves.{quoted, text_json};
ghost use Rattle.capnp_json.specs.Pieces.{said};
ghost use Rattle.capnp_json.specs.Steps.Puts.{IsPut, IsStopped, Leads};
ghost use Rattle.capnp_json.specs.Steps.Strings.{is_plain};

use crate::error::JsonError;
use crate::output::Output;

/// A hexadecimal digit, in lower case.
pub(crate) fn digit_char(digit: u8) -> u8
    requires { digit < 16 }
    ensures { result ≡ digit_char digit }
{
    if digit < 10 {
        b'0' + digit
    } else {
        b'a' - 10 + digit
    }
}

/// Whether a byte stands in a string as it is.
fn is_plain(byte: u8) -> bool
    ensures { result ≡ is_plain byte }
{
    if byte < 32 {
        return false;
    }
    if byte == b'"' {
        return false;
    }
    byte != b'\\'
}

/// How many bytes in front stand in a string as they are.
fn count_plain(bytes: &[u8]) -> usize
    ensures plain { flat_map byte_written bytes.now ≡ take result bytes.now ++ flat_map byte_written (drop result bytes.now) }
    ensures within { result ≤ length bytes.now }
{
    let mut index = 0;
    while index < bytes.len() {
        if !is_plain(bytes[index]) {
            return index;
        }
        index += 1;
    }
    index
}

/// So many bytes in front.
fn front(bytes: &[u8], count: usize) -> &[u8]
    requires { count ≤ length bytes.now }
    ensures { result.now ≡ take count bytes.now }
{
    &bytes[..count]
}

/// The bytes behind so many.
pub(crate) fn behind(bytes: &[u8], count: usize) -> &[u8]
    requires { count ≤ length bytes.now }
    ensures is { result.now ≡ drop count bytes.now }
    ensures fewer { length result.now + count ≡ length bytes.now }
{
    &bytes[count..]
}

/// Appends a byte below 32 as an escape.
fn put_control(out: &mut Output, byte: u8) -> Result<(), JsonError>
    requires { byte < 32 }
    ensures put { OnOk result (IsPut out.old (said (control_written byte)) out.new) }
    ensures stopped { IfErr result (IsStopped out.old (said (control_written byte))) }
{
    match byte {
        8 => out.put(b"\\b"),
        9 => out.put(b"\\t"),
        10 => out.put(b"\\n"),
        12 => out.put(b"\\f"),
        13 => out.put(b"\\r"),
        _ => out.put(&[
            b'\\',
            b'u',
            b'0',
            b'0',
            digit_char(byte / 16),
            digit_char(byte % 16),
        ]),
    }
}

/// Appends a byte of a string.
#[tactic(auto, unfolding(capnp_json_text::specs::Writing::byte_written))]
fn put_byte(out: &mut Output, byte: u8) -> Result<(), JsonError>
    ensures put { OnOk result (IsPut out.old (said (byte_written byte)) out.new) }
    ensures stopped { IfErr result (IsStopped out.old (said (byte_written byte))) }
{
    if byte == b'"' || byte == b'\\' {
        return out.put(&[b'\\', byte]);
    }
    if byte < 32 {
        return put_control(out, byte);
    }
    out.put(&[byte])
}

/// Appends the first byte of what stands between the quotes of a string, and answers what is left.
fn put_first<'a>(out: &mut Output, rest: &'a [u8]) -> Result<&'a [u8], JsonError>
    requires { 0 < length rest.now }
    ensures put { IfOk result (λ left. Leads out.old (said (flat_map byte_written rest.now)) out.new
        (said (flat_map byte_written left.now))) }
    ensures fewer { IfOk result (λ left. length left.now < length rest.now) }
    ensures stopped { IfErr result (IsStopped out.old (said (flat_map byte_written rest.now))) }
{
    match put_byte(out, rest[0]) {
        Ok(()) => Ok(behind(rest, 1)),
        Err(why) => Err(why),
    }
}

/// Appends so many bytes, which stand there as they are, and answers what is left.
fn put_run<'a>(out: &mut Output, rest: &'a [u8], count: usize) -> Result<&'a [u8], JsonError>
    requires plain { flat_map byte_written rest.now ≡ take count rest.now ++ flat_map byte_written (drop count rest.now) }
    requires within { count ≤ length rest.now }
    requires some { 0 < count }
    ensures put { IfOk result (λ left. Leads out.old (said (flat_map byte_written rest.now)) out.new
        (said (flat_map byte_written left.now))) }
    ensures fewer { IfOk result (λ left. length left.now < length rest.now) }
    ensures stopped { IfErr result (IsStopped out.old (said (flat_map byte_written rest.now))) }
{
    match out.put(front(rest, count)) {
        Ok(()) => Ok(behind(rest, count)),
        Err(why) => Err(why),
    }
}

/// Appends a part of what stands between the quotes of a string, and answers what is left.
fn put_part<'a>(out: &mut Output, rest: &'a [u8]) -> Result<&'a [u8], JsonError>
    requires { 0 < length rest.now }
    ensures put { IfOk result (λ left. Leads out.old (said (flat_map byte_written rest.now)) out.new
        (said (flat_map byte_written left.now))) }
    ensures fewer { IfOk result (λ left. length left.now < length rest.now) }
    ensures stopped { IfErr result (IsStopped out.old (said (flat_map byte_written rest.now))) }
{
    let count = count_plain(rest);
    if count == 0 {
        return put_first(out, rest);
    }
    put_run(out, rest, count)
}

/// Appends what stands between the quotes of a string.
fn put_contents(out: &mut Output, text: &[u8]) -> Result<(), JsonError>
    ensures put { OnOk result (IsPut out.old (said (flat_map byte_written text.now)) out.new) }
    ensures stopped { IfErr result (IsStopped out.old (said (flat_map byte_written text.now))) }
{
    let mut rest = text;
    while rest.len() > 0 {
        match put_part(out, rest) {
            Ok(left) => rest = left,
            Err(why) => return Err(why),
        }
    }
    Ok(())
}

/// Appends bytes between quotes.
pub(crate) fn put_quoted(out: &mut Output, piece: &[u8]) -> Result<(), JsonError>
    ensures put { OnOk result (IsPut out.old (said (quoted piece.now)) out.new) }
    ensures stopped { IfErr result (IsStopped out.old (said (quoted piece.now))) }
{
    if let Err(why) = out.put(b"\"") {
        return Err(why);
    }
    if let Err(why) = out.put(piece) {
        return Err(why);
    }
    out.put(b"\"")
}

/// Appends a string that stands for these bytes.
fn put_string(out: &mut Output, text: &[u8]) -> Result<(), JsonError>
    ensures put { OnOk result (IsPut out.old (said (string_written text.now)) out.new) }
    ensures stopped { IfErr result (IsStopped out.old (said (string_written text.now))) }
{
    if let Err(why) = out.put(b"\"") {
        return Err(why);
    }
    if let Err(why) = put_contents(out, text) {
        return Err(why);
    }
    out.put(b"\"")
}

/// Appends a text as a string, where it is UTF-8.
pub(crate) fn put_text(out: &mut Output, text: &[u8]) -> Result<(), JsonError>
    ensures put { OnOk result (IsPut out.old (text_json text.now) out.new) }
    ensures stopped { IfErr result (IsStopped out.old (text_json text.now)) }
{
    match std::str::from_utf8(text) {
        Ok(_) => put_string(out, text),
        Err(_) => Err(JsonError::TextNotUtf8),
    }
}
