//! Lines that tell of one message of several.
ghost use Rattle.std.specs.Prelude.{◌≡◌, ◌++◌, IfErr, IfOk, OnOk, string_bytes};
ghost use Rattle.capnp_device.specs.declared.error.ErrorKind.TheVariants.{OutOfMemory};
ghost use Rattle.riftcalico_core.specs.Numbered.{numbered_line, numbered_lines, told_lines};

use capnp_wire::error::Result;
use std::alloc::Global;

/// Appends a line behind the number of its message. Refused with `OutOfMemory` alone.
fn put_line(text: &mut String, number: u64, line: &str) -> Result<()>
    ensures put { OnOk result (string_bytes text.new ≡ string_bytes text.old ++ numbered_line number line.now) }
    ensures memory { IfErr result (λ e. e.kind ≡ OutOfMemory) }
{
    Ok(write!(text, "message {number}: {line}\n")?)
}

/// Lines, each behind the number of its message. Refused with `OutOfMemory` alone.
fn put_numbers(alloc: Global, number: u64, lines: &str) -> Result<String>
    ensures lines { IfOk result (λ text. string_bytes text ≡ numbered_lines number lines.now) }
    ensures memory { IfErr result (λ e. e.kind ≡ OutOfMemory) }
{
    let mut text = String::new(alloc);
    for line in lines.lines() {
        put_line(&mut text, number, line)?;
    }
    Ok(text)
}

/// Lines as they are told: of several messages behind the number of theirs. Refused with `OutOfMemory` alone.
pub fn number_lines(alloc: Global, message: Option<u64>, lines: String) -> Result<String>
    ensures lines { IfOk result (λ text. string_bytes text ≡ told_lines message (string_bytes lines)) }
    ensures memory { IfErr result (λ e. e.kind ≡ OutOfMemory) }
{
    match message {
        Some(number) => put_numbers(alloc, number, lines.as_str()),
        None => Ok(lines),
    }
}
