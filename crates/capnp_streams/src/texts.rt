//! Texts that follow one another, each a line.
ghost use Rattle.std.specs.Prelude.{[], ◌≡◌, ◌≢◌, IfErr, IfOk, MatchOption, OnOk, true, false};
ghost use Rattle.capnp_device.specs.Device.{HasFailed};
ghost use Rattle.capnp_device.specs.declared.error.ErrorKind.TheVariants.{OutOfMemory, ReadFailed};
ghost use Rattle.capnp_streams.specs.Received.{IsOver};
ghost use Rattle.capnp_streams.specs.Texts.{AreTextsOver, HasEndlessBlanks, IsLineRead, IsTextReceived};

use capnp_json_text::rest::skip_blanks;
use capnp_wire::device::Source;
use capnp_wire::error::{Error, ErrorKind, Result};
use std::alloc::Global;

/// Reads a line of a source, without the line feed that ends it; or to the end, where there is none. Answers whether there
/// was a byte. Refused with `ReadFailed` where a call of the source failed, and with `OutOfMemory`.
fn read_line<S: Source>(source: &mut S, line: &mut Vec<u8>) -> Result<bool>
    requires { line.old.items ≡ [] }
    ensures line { IfOk result (λ r. r ≡ true → IsLineRead (S.left source.old) (S.left source.new) line.new.items) }
    ensures over { IfOk result (λ r. r ≡ false → IsOver (S.left source.old) (S.left source.new)) }
    ensures worked { OnOk result (S.failures source.new ≡ S.failures source.old) }
    ensures failed { IfErr result (λ e. e.kind ≡ ReadFailed →
        HasFailed (S.failures source.old) (S.failures source.new)) }
    ensures memory { IfErr result (λ e. e.kind ≢ ReadFailed → e.kind ≡ OutOfMemory) }
{
    let mut buffer = [0u8; 1];
    'bytes: loop {
        let Ok(count) = source.read_some(&mut buffer) else {
            return Err(Error::from(ErrorKind::ReadFailed));
        };
        if count == 0 {
            return Ok(line.len() > 0);
        }
        let byte = buffer[0];
        if byte == b'\n' {
            return Ok(true);
        }
        line.push(byte)?;
    }
}

/// The next text of a source whose texts are lines, without the line feed that ends it; none where only blanks are left.
/// Lines of blanks alone are passed over. Nothing behind the text's line is read.
///
/// Refused with `ReadFailed` where a call of the source failed, with `OutOfMemory`, and with `TooLarge` where 2^64 lines of
/// blanks come before.
pub fn try_read_text<S: Source>(alloc: Global, source: &mut S) -> Result<Option<Vec<u8>>>
    ensures text { IfOk result (λ r. MatchOption r (AreTextsOver (S.left source.old) (S.left source.new))
        (λ m. IsTextReceived (S.left source.old) (S.left source.new) m.items)) }
    ensures refused { IfErr result (λ e. e.kind ≢ ReadFailed → e.kind ≢ OutOfMemory
        → HasEndlessBlanks (S.left source.old) (S.left source.new) e.kind) }
    ensures failed { IfErr result (λ e. e.kind ≡ ReadFailed →
        HasFailed (S.failures source.old) (S.failures source.new)) }
{
    let mut blanks: u64 = 0;
    'lines: loop {
        let Some(next) = blanks.checked_add(1) else {
            return Err(Error::from(ErrorKind::TooLarge));
        };
        let mut line = Vec::new(alloc);
        if !read_line(source, &mut line)? {
            return Ok(None);
        }
        if skip_blanks(&line).len() > 0 {
            return Ok(Some(line));
        }
        blanks = next;
    }
}
