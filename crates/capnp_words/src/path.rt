//! Paths as words.
ghost use Rattle.std.specs.Prelude.{◌≡◌, ◌+◌, ◌<◌, ◌^◌, length, IfErr, IfOk};
ghost use Rattle.capnp_device.specs.declared.error.ErrorKind.TheVariants.{OutOfMemory};
ghost use Rattle.capnp_words.specs.Reads.{read_as};
ghost use Rattle.capnp_records.specs.Call.{FieldNumber, ElementAt};
ghost use Rattle.capnp_words.specs.Numbers.{decimal_at};
ghost use Rattle.capnp_words.specs.Paths.{path_name_at, path_at, step_at, steps_at};
ghost use Rattle.capnp_words.specs.Seen.{path_text_seen, step_text_seen};

use crate::numbers::read_decimal;
use capnp_wire::error::Result;
use std::alloc::Global;

/// A step of a path.
#[derive(Debug, Drop, PartialEq, Eq)]
pub enum PathStep {
    /// The field of a name, at a struct or group.
    Named(String),
    /// The field of a number, at a struct or group.
    Field(u16),
    /// The element of a number, at a list.
    Element(u32),
}

/// Steps from a struct to a part of it.
#[derive(Debug, Drop, PartialEq, Eq)]
pub struct Path {
    pub steps: Vec<PathStep>,
}

/// What a word, or a part of it, is read as, or the place in the word of the first byte that can't stand.
pub type Read<T> = std::result::Result<T, usize>;

/// The name of a field, which has no space.
fn parse_name(alloc: Global, name: &str, place: usize) -> Result<Read<PathStep>>
    requires { place + length name.now < 2 ^ 64 }
    ensures read { IfOk result (λ r. read_as step_text_seen r ≡ path_name_at place name.now) }
    ensures memory { IfErr result (λ e. e.kind ≡ OutOfMemory) }
{
    if let Some((before, _)) = name.split_once(' ') {
        return Ok(Err(place + before.len()));
    }
    Ok(Ok(PathStep::Named(String::from_str(alloc, name)?)))
}

/// A step, which is all of the bytes. `place` is where the first of them stands.
fn parse_step(alloc: Global, step: &str, place: usize) -> Result<Read<PathStep>>
    requires { place + length step.now < 2 ^ 64 }
    ensures read { IfOk result (λ r. read_as step_text_seen r ≡ step_at place step.now) }
    ensures memory { IfErr result (λ e. e.kind ≡ OutOfMemory) }
{
    let bytes = step.as_bytes();
    let Some(first) = bytes.first() else {
        return Ok(Err(place));
    };
    if *first == b'#' {
        return Ok(parse_field(&bytes[1..], place + 1));
    }
    if first.is_ascii_digit() {
        return Ok(parse_element(bytes, place));
    }
    parse_name(alloc, step, place)
}

/// The number of a field.
fn parse_field(number: &[u8], place: usize) -> Read<PathStep>
    requires { place + length number.now < 2 ^ 64 }
    ensures { read_as step_text_seen result ≡ read_as FieldNumber (decimal_at 65535 place number.now) }
{
    let index = read_decimal(number, place, u64::from(u16::MAX))?;
    Ok(PathStep::Field(index as u16))
}

/// The number of an element.
fn parse_element(number: &[u8], place: usize) -> Read<PathStep>
    requires { place + length number.now < 2 ^ 64 }
    ensures { read_as step_text_seen result ≡ read_as ElementAt (decimal_at 4294967295 place number.now) }
{
    let index = read_decimal(number, place, u64::from(u32::MAX))?;
    Ok(PathStep::Element(index as u32))
}

/// The steps of a path that is not empty. `place` is where the first byte stands.
pub(crate) fn parse_steps(alloc: Global, word: &str, place: usize) -> Result<Read<Path>>
    requires { place + length word.now < 2 ^ 64 }
    ensures read { IfOk result (λ r. read_as path_text_seen r ≡ steps_at place word.now) }
    ensures memory { IfErr result (λ e. e.kind ≡ OutOfMemory) }
{
    let mut steps = Vec::new(alloc);
    let mut at = place;
    let mut rest = word;
    while let Some((part, after)) = rest.split_once('.') {
        match parse_step(alloc, part, at)? {
            Ok(step) => steps.push(step)?,
            Err(fault) => return Ok(Err(fault)),
        }
        at += part.len() + 1;
        rest = after;
    }
    match parse_step(alloc, rest, at)? {
        Ok(step) => steps.push(step)?,
        Err(fault) => return Ok(Err(fault)),
    }
    Ok(Ok(Path { steps }))
}

/// A path, the empty one as a dot. `place` is where the first byte stands.
pub(crate) fn parse_path_at(alloc: Global, word: &str, place: usize) -> Result<Read<Path>>
    requires { place + length word.now < 2 ^ 64 }
    ensures read { IfOk result (λ r. read_as path_text_seen r ≡ path_at place word.now) }
    ensures memory { IfErr result (λ e. e.kind ≡ OutOfMemory) }
{
    let bytes = word.as_bytes();
    let Some(first) = bytes.first() else {
        return Ok(Err(place));
    };
    if *first != b'.' {
        return parse_steps(alloc, word, place);
    }
    if bytes.len() > 1 {
        return Ok(Err(place + 1));
    }
    Ok(Ok(Path {
        steps: Vec::new(alloc),
    }))
}

/// The path that a word is: steps with dots between them, where a step is a field's name, `#` and a field's number up
/// to 65,535, or an element's number up to 2^32 - 1; a dot alone is the empty path. A name has at least one byte, no
/// dot, no space, and no digit or `#` first. A number has no zero in front.
///
/// Any other word is refused, in the inner result, with the place of the first byte that can't stand, or with its
/// length where it ends too soon. The outer result is refused with `OutOfMemory` alone.
pub fn parse_path(alloc: Global, word: &str) -> Result<Read<Path>>
    ensures read { IfOk result (λ r. read_as path_text_seen r ≡ path_at 0 word.now) }
    ensures memory { IfErr result (λ e. e.kind ≡ OutOfMemory) }
{
    parse_path_at(alloc, word, 0)
}
