//! What a text says, without types: leaves, and brackets with parts.
ghost use Rattle.std.specs.Prelude.{suc, ◌≡◌, ◌<◌, length, IfErr, IfOk, Ok};
ghost use Rattle.capnp_value_texts.specs.Errors.{IsErrorOf};
ghost use Rattle.capnp_value_texts.specs.Seen.{shown_view};
ghost use Rattle.capnp_value_texts.specs.Steps.Seen.{part_read, parts_read, parts_view, written_read};
ghost use Rattle.capnp_value_texts.specs.Written.{at_end, bracketed, held_at, part_at, parts_within, written, written_within};

use crate::error::{Error, RefusalKind, cannot_stand, place_of, refused};
use crate::leaf::read_leaf;
use crate::parts::{Bracket, Name, behind_blanks, behind_part, bracket_of, closing, read_name};
use std::alloc::Global;

/// What a text says. Each has the place of its first byte.
#[derive(Debug, Drop)]
pub enum Shown<'t> {
    /// What stands without brackets, by its bytes.
    Leaf(usize, &'t [u8]),
    /// What round brackets hold, with names.
    Fields(usize, Vec<(Name<'t>, Shown<'t>)>),
    /// What square brackets hold.
    Items(usize, Vec<(Name<'t>, Shown<'t>)>),
}

/// A part that was read.
#[derive(Drop)]
struct OnePart<'t> {
    part: (Name<'t>, Shown<'t>),
    /// Whether another follows.
    goes_on: bool,
    /// The bytes behind the comma or the closing bracket.
    rest: &'t [u8],
}

/// What brackets at a place hold.
fn bracketed<'t>(bracket: Bracket, place: usize, parts: Vec<(Name<'t>, Shown<'t>)>) -> Shown<'t>
    ensures { shown_view result ≡ bracketed bracket place (parts_view parts.entry.items) }
{
    match bracket {
        Bracket::Round => Shown::Fields(place, parts),
        Bracket::Square => Shown::Items(place, parts),
    }
}

/// What stands at the front of bytes, with so many brackets within one another at the most, and the bytes behind it.
#[cycle(show)]
fn read_within<'t>(
    alloc: Global,
    levels: u32,
    whole: usize,
    bytes: &'t [u8],
) -> Result<(Shown<'t>, &'t [u8]), Error>
    ensures read { IfOk result (λ r. written_within levels whole bytes.now ≡ Ok (written_read r)) }
    ensures shorter { IfOk result (λ r. length r.1.now < length bytes.now) }
    ensures refused { IfErr result (IsErrorOf (written_within levels whole bytes.now)) }
{
    let [first, behind @ ..] = bytes else {
        return Err(cannot_stand(whole, bytes));
    };
    let Some(bracket) = bracket_of(*first) else {
        return read_leaf(whole, bytes);
    };
    let place = place_of(whole, bytes);
    if levels == 0 {
        return Err(refused(RefusalKind::TooDeep, place));
    }
    match read_held(alloc, levels - 1, bracket, whole, behind_blanks(behind)) {
        Ok(held) => Ok((bracketed(bracket, place, held.0), held.1)),
        Err(error) => Err(error),
    }
}

/// What brackets hold, from behind the opening one and blanks on, and the bytes behind the closing one.
#[cycle(show)]
fn read_held<'t>(
    alloc: Global,
    levels: u32,
    bracket: Bracket,
    whole: usize,
    bytes: &'t [u8],
) -> Result<(Vec<(Name<'t>, Shown<'t>)>, &'t [u8]), Error>
    ensures read { IfOk result (λ r. held_at (written_within levels whole) bracket whole bytes.now ≡ Ok (parts_read r)) }
    ensures shorter { IfOk result (λ r. length r.1.now < length bytes.now) }
    ensures refused { IfErr result (IsErrorOf (held_at (written_within levels whole) bracket whole bytes.now)) }
{
    let [first, behind @ ..] = bytes else {
        return Err(cannot_stand(whole, bytes));
    };
    if *first == closing(bracket) {
        return Ok((Vec::new(alloc), behind));
    }
    read_parts(alloc, levels, bracket, whole, bytes)
}

/// Parts up to the closing bracket, and the bytes behind that.
#[cycle(show)]
fn read_parts<'t>(
    alloc: Global,
    levels: u32,
    bracket: Bracket,
    whole: usize,
    bytes: &'t [u8],
) -> Result<(Vec<(Name<'t>, Shown<'t>)>, &'t [u8]), Error>
    ensures read { IfOk result (λ r. parts_within (part_at (written_within levels whole) bracket whole) (suc (length bytes.now)) bytes.now
        ≡ Ok (parts_read r)) }
    ensures shorter { IfOk result (λ r. length r.1.now < length bytes.now) }
    ensures refused { IfErr result (IsErrorOf (parts_within (part_at (written_within levels whole) bracket whole) (suc (length bytes.now))
        bytes.now)) }
{
    let mut parts = Vec::new(alloc);
    let mut rest = bytes;
    'parts: loop {
        let one = match read_part(alloc, levels, bracket, whole, rest) {
            Ok(one) => one,
            Err(error) => return Err(error),
        };
        let goes_on = one.goes_on;
        let behind = one.rest;
        if parts.push(one.part).is_err() {
            return Err(Error::OutOfMemory);
        }
        if !goes_on {
            return Ok((parts, behind));
        }
        rest = behind;
    }
}

/// A part, with what stands behind it.
#[cycle(show)]
fn read_part<'t>(
    alloc: Global,
    levels: u32,
    bracket: Bracket,
    whole: usize,
    bytes: &'t [u8],
) -> Result<OnePart<'t>, Error>
    ensures read { IfOk result (λ r. part_at (written_within levels whole) bracket whole bytes.now ≡ Ok (part_read r)) }
    ensures shorter { IfOk result (λ r. length r.rest.now < length bytes.now) }
    ensures refused { IfErr result (IsErrorOf (part_at (written_within levels whole) bracket whole bytes.now)) }
{
    let name = match read_name(bracket, whole, bytes) {
        Ok(name) => name,
        Err(error) => return Err(error),
    };
    let value = match read_within(alloc, levels, whole, name.1) {
        Ok(value) => value,
        Err(error) => return Err(error),
    };
    match behind_part(bracket, whole, behind_blanks(value.1)) {
        Ok(behind) => Ok(OnePart {
            part: (name.0, value.0),
            goes_on: behind.0,
            rest: behind.1,
        }),
        Err(error) => Err(error),
    }
}

/// The most brackets within one another.
const MOST_LEVELS: u32 = 64;

/// What a text says, with blanks around it and between its parts: spaces, tabs, line feeds and carriage returns.
///
/// - `(a = .., b = ..)`: a struct's fields, by their names, or `()`;
/// - `[.., ..]`: a list's elements, or `[]`;
/// - else a leaf: all bytes up to a blank, a comma or a closing bracket outside of its quotes, at least one, of which the
///   first is no `<`. In quotes a backslash takes the next byte with it.
///
/// Refused with `OutOfMemory`; with `CannotStand` at the first byte that can't stand there, or at the end of a text that
/// ends too soon; and with `TooDeep` at a bracket within 64 others.
pub fn read_shown<'t>(alloc: Global, text: &'t [u8]) -> Result<Shown<'t>, Error>
    ensures read { IfOk result (λ shown. written text.now ≡ Ok (shown_view shown)) }
    ensures refused { IfErr result (IsErrorOf (written text.now)) }
{
    match read_within(alloc, MOST_LEVELS, text.len(), behind_blanks(text)) {
        Ok(value) => check_end(text.len(), value.0, behind_blanks(value.1)),
        Err(error) => Err(error),
    }
}

/// What was read, behind which nothing may be left.
fn check_end<'t>(whole: usize, shown: Shown<'t>, rest: &[u8]) -> Result<Shown<'t>, Error>
    ensures read { IfOk result (λ s. at_end whole (shown_view shown.entry) rest.now ≡ Ok (shown_view s)) }
    ensures refused { IfErr result (IsErrorOf (at_end whole (shown_view shown.entry) rest.now)) }
{
    match rest {
        [] => Ok(shown),
        [_, ..] => Err(cannot_stand(whole, rest)),
    }
}
