//! A message of a stream, read as far as it goes.
ghost use Rattle.std.specs.Prelude.{◌≡◌, ◌≢◌, ◌≤◌, ◌<◌, Err, IfErr, IfOk, MatchOption, Ok, OnOk, length};
ghost use Rattle.std.specs.Io.KnownBytes.{IsAtEnd};
ghost use Rattle.capnp_device.specs.Device.{HasFailed};
ghost use Rattle.capnp_device.specs.declared.error.ErrorKind.TheVariants.{OutOfMemory, ReadFailed, Truncated};
ghost use Rattle.capnp_streams.specs.Lengths.{message_length};
ghost use Rattle.capnp_streams.specs.Received.{IsNotReceived, IsOver, IsReadOn, IsReceived};

use capnp_device::device::Source;
use capnp_device::error::{Error, ErrorKind, Result};
use capnp_wire::parts::bytes::{half_at, part};
use capnp_wire::parts::segments::{count_words, get_header_bytes};
use std::alloc::Global;

/// The most bytes of a message that is received, its table with them: 1 GiB.
pub const MOST_BYTES: usize = 1 << 30;

/// Reads bytes behind others until there are so many. Refused with `Truncated` where the source ends before, with
/// `ReadFailed` where a call of it failed, and with `OutOfMemory`.
fn read_on<S: Source>(source: &mut S, bytes: &mut Vec<u8>, goal: usize) -> Result<()>
    requires { length bytes.old.items ≤ goal }
    ensures read { OnOk result (IsReadOn (S.left source.old) (S.left source.new) bytes.old.items bytes.new.items) }
    ensures there { OnOk result (length bytes.new.items ≡ goal) }
    ensures worked { OnOk result (S.failures source.new ≡ S.failures source.old) }
    ensures cut { IfErr result (λ e. e.kind ≡ Truncated
        → IsReadOn (S.left source.old) (S.left source.new) bytes.old.items bytes.new.items) }
    ensures short { IfErr result (λ e. e.kind ≡ Truncated → length bytes.new.items < goal) }
    ensures ended { IfErr result (λ e. e.kind ≡ Truncated → IsAtEnd (S.left source.new)) }
    ensures failed { IfErr result (λ e. e.kind ≡ ReadFailed →
        HasFailed (S.failures source.old) (S.failures source.new)) }
    ensures memory { IfErr result (λ e. e.kind ≢ Truncated → e.kind ≢ ReadFailed → e.kind ≡ OutOfMemory) }
{
    let mut buffer = [0u8; 1024];
    while bytes.len() < goal {
        let missing = goal - bytes.len();
        let room = if missing < 1024 { missing } else { 1024 };
        let Ok(count) = source.read_some(&mut buffer[..room]) else {
            return Err(Error::from(ErrorKind::ReadFailed));
        };
        if count == 0 {
            return Err(Error::from(ErrorKind::Truncated));
        }
        bytes.extend_from_slice(&buffer[..count])?;
    }
    Ok(())
}

/// Reads a message on, of which the first 8 bytes are there, to its end. Refused as `try_read_message`.
fn read_message_on<S: Source>(source: &mut S, message: &mut Vec<u8>) -> Result<()>
    requires { length message.old.items ≡ 8 }
    ensures read { OnOk result (IsReadOn (S.left source.old) (S.left source.new) message.old.items message.new.items) }
    ensures whole { OnOk result (message_length message.new.items ≡ Ok (length message.new.items)) }
    ensures on { IfErr result (λ e. e.kind ≢ ReadFailed → e.kind ≢ OutOfMemory
        → IsReadOn (S.left source.old) (S.left source.new) message.old.items message.new.items) }
    ensures why { IfErr result (λ e. e.kind ≢ ReadFailed → e.kind ≢ OutOfMemory
        → message_length message.new.items ≡ Err e.kind) }
    ensures ended { IfErr result (λ e. e.kind ≡ Truncated → IsAtEnd (S.left source.new)) }
    ensures failed { IfErr result (λ e. e.kind ≡ ReadFailed →
        HasFailed (S.failures source.old) (S.failures source.new)) }
{
    let count = half_at(message, 0) as usize + 1;
    if count > 512 {
        return Err(Error::from(ErrorKind::TooManySegments));
    }
    let header = get_header_bytes(count);
    read_on(source, message, header)?;
    let length = header + 8 * count_words(part(message, 4, 4 * count), count);
    if length > MOST_BYTES {
        return Err(Error::from(ErrorKind::TooLarge));
    }
    read_on(source, message, length)?;
    Ok(())
}

/// The next message of a source in which messages follow one another, as it stands there, with its table; none where no
/// byte is left. Nothing behind the message is read. `capnp_wire::message::Reader::new` reads it.
///
/// Refused with `Truncated` where the source ends within the message, with `TooManySegments` where its table has more than
/// 512, with `TooLarge` where the message has more than 1 GiB, with `ReadFailed` where a call of the source failed, and
/// with `OutOfMemory`. Memory is taken for what was read alone. After a refusal it isn't known where another message
/// begins.
pub fn try_read_message<S: Source>(alloc: Global, source: &mut S) -> Result<Option<Vec<u8>>>
    ensures message { IfOk result (λ r. MatchOption r (IsOver (S.left source.old) (S.left source.new))
        (λ m. IsReceived (S.left source.old) (S.left source.new) m.items)) }
    ensures refused { IfErr result (λ e. e.kind ≢ ReadFailed → e.kind ≢ OutOfMemory
        → IsNotReceived (S.left source.old) (S.left source.new) e.kind) }
    ensures failed { IfErr result (λ e. e.kind ≡ ReadFailed →
        HasFailed (S.failures source.old) (S.failures source.new)) }
{
    let mut message = Vec::new(alloc);
    if let Err(error) = read_on(source, &mut message, 8) {
        if error.kind == ErrorKind::Truncated && message.is_empty() {
            return Ok(None);
        }
        return Err(error);
    }
    read_message_on(source, &mut message)?;
    Ok(Some(message))
}
