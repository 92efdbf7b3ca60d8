//! Strings as they are written.
ghost use Rattle.std.specs.Prelude.{[], ◌∷◌, ◌≡◌, ◌++◌, ◌<◌, IfErr, OnOk};
ghost use Rattle.std.specs.Char.{digit_char};
ghost use Rattle.capnp_device.specs.declared.error.ErrorKind.TheVariants.{OutOfMemory};
ghost use Rattle.capnp_json_text.specs.Writing.{byte_written, control_written, string_written};

use capnp_device::error::Result;

/// A hexadecimal digit, in lower case.
fn digit_char(digit: u8) -> u8
    requires { digit < 16 }
    ensures { result ≡ digit_char digit }
{
    if digit < 10 {
        b'0' + digit
    } else {
        b'a' - 10 + digit
    }
}

/// Appends a byte behind a backslash.
fn put_escape(out: &mut Vec<u8>, byte: u8) -> Result<()>
    ensures put { OnOk result (out.new.items ≡ out.old.items ++ 92 ∷ byte ∷ []) }
    ensures memory { IfErr result (λ e. e.kind ≡ OutOfMemory) }
{
    out.extend_from_slice(&[b'\\', byte])?;
    Ok(())
}

/// Appends a byte below 32 as an escape.
fn put_control(out: &mut Vec<u8>, byte: u8) -> Result<()>
    requires { byte < 32 }
    ensures put { OnOk result (out.new.items ≡ out.old.items ++ control_written byte) }
    ensures memory { IfErr result (λ e. e.kind ≡ OutOfMemory) }
{
    match byte {
        8 => put_escape(out, b'b'),
        9 => put_escape(out, b't'),
        10 => put_escape(out, b'n'),
        12 => put_escape(out, b'f'),
        13 => put_escape(out, b'r'),
        _ => {
            let digits = [
                b'\\',
                b'u',
                b'0',
                b'0',
                digit_char(byte / 16),
                digit_char(byte % 16),
            ];
            out.extend_from_slice(&digits)?;
            Ok(())
        }
    }
}

/// Appends a byte of a string.
#[tactic(auto, unfolding(crate::specs::Writing::byte_written))]
fn put_byte(out: &mut Vec<u8>, byte: u8) -> Result<()>
    ensures put { OnOk result (out.new.items ≡ out.old.items ++ byte_written byte) }
    ensures memory { IfErr result (λ e. e.kind ≡ OutOfMemory) }
{
    if byte == b'"' || byte == b'\\' {
        return put_escape(out, byte);
    }
    if byte < 32 {
        return put_control(out, byte);
    }
    out.push(byte)?;
    Ok(())
}

/// Appends a string that stands for these bytes: between quotes, with as few escapes as there can be. It is JSON where
/// the bytes are UTF-8.
///
/// Refused with `OutOfMemory` alone; a beginning of the string may then have been appended.
pub fn put_string(out: &mut Vec<u8>, text: &[u8]) -> Result<()>
    ensures put { OnOk result (out.new.items ≡ out.old.items ++ string_written text.now) }
    ensures memory { IfErr result (λ e. e.kind ≡ OutOfMemory) }
{
    out.push(b'"')?;
    for index in 0..text.len() {
        put_byte(out, text[index])?;
    }
    out.push(b'"')?;
    Ok(())
}
