//! Values, with what they hold.
ghost use Rattle.std.specs.Prelude.{◌≡◌, IfErr, IfOk};
ghost use Rattle.capnp_device.specs.declared.error.ErrorKind.TheVariants.{OutOfMemory};
ghost use Rattle.capnp_json_text.specs.Texts.{after_colon, after_false, after_name, after_null, after_true, after_value, begun, begun_value, ended, first_element, first_member, held, next_element, next_member};
ghost use Rattle.capnp_json_text.specs.Seen.{begun_seen, rest_seen};
ghost use Rattle.capnp_json_text.specs.declared.kinds.Bracket.TheVariants.{Curly};

use crate::kinds::{Bracket, Kind, Part, kind_of};
use crate::numbers::skip_number;
use crate::rest::{Rest, skip_blanks, skip_only};
use crate::strings::skip_string;
use capnp_device::error::Result;
use std::alloc::Global;

/// How a part of a text begins. Without a bracket it has ended before these bytes. With one, that bracket is open, and a
/// value that it holds begins with these bytes. An `Err` has the bytes from the first on that can't stand there.
pub type Begun<'a> = std::result::Result<(Option<Bracket>, &'a [u8]), &'a [u8]>;

/// The bytes behind `null`, from its second letter on.
fn skip_null(bytes: &[u8]) -> Rest<'_>
    ensures { rest_seen result ≡ after_null bytes.now }
{
    let second = skip_only(b'u', bytes)?;
    let third = skip_only(b'l', second)?;
    skip_only(b'l', third)
}

/// The bytes behind `true`, from its second letter on.
fn skip_true(bytes: &[u8]) -> Rest<'_>
    ensures { rest_seen result ≡ after_true bytes.now }
{
    let second = skip_only(b'r', bytes)?;
    let third = skip_only(b'u', second)?;
    skip_only(b'e', third)
}

/// The bytes behind `false`, from its second letter on.
fn skip_false(bytes: &[u8]) -> Rest<'_>
    ensures { rest_seen result ≡ after_false bytes.now }
{
    let second = skip_only(b'a', bytes)?;
    let third = skip_only(b'l', second)?;
    let fourth = skip_only(b's', third)?;
    skip_only(b'e', fourth)
}

/// The bytes behind a colon, with the blanks around it.
fn skip_colon(bytes: &[u8]) -> Rest<'_>
    ensures { rest_seen result ≡ after_colon bytes.now }
{
    let rest = skip_only(b':', skip_blanks(bytes))?;
    Ok(skip_blanks(rest))
}

/// The bytes behind the name of a member and its colon: those of the member's value.
pub fn skip_name(bytes: &[u8]) -> Rest<'_>
    ensures { rest_seen result ≡ after_name bytes.now }
{
    let name = skip_only(b'"', bytes)?;
    let rest = skip_string(name)?;
    skip_colon(rest)
}

/// A part that ends with what was read.
fn ended(read: Rest<'_>) -> Begun<'_>
    ensures { begun_seen result ≡ ended (rest_seen read.entry) }
{
    let rest = read?;
    Ok((None, rest))
}

/// A member's value, behind its name.
fn held_member(bytes: &[u8]) -> Begun<'_>
    ensures { begun_seen result ≡ held Curly (after_name bytes.now) }
{
    let rest = skip_name(bytes)?;
    Ok((Some(Bracket::Curly), rest))
}

/// The first element of an array, or its end: from behind its bracket and blanks on.
pub fn first_element(bytes: &[u8]) -> Begun<'_>
    ensures { begun_seen result ≡ first_element bytes.now }
{
    let [first, behind @ ..] = bytes else {
        return Err(bytes);
    };
    if *first == b']' {
        return Ok((None, behind));
    }
    Ok((Some(Bracket::Square), bytes))
}

/// The value of an object's first member, or its end: from behind its bracket and blanks on.
pub fn first_member(bytes: &[u8]) -> Begun<'_>
    ensures { begun_seen result ≡ first_member bytes.now }
{
    let [first, behind @ ..] = bytes else {
        return Err(bytes);
    };
    if *first == b'}' {
        return Ok((None, behind));
    }
    held_member(bytes)
}

/// The next element of an array, or its end: from behind an element and blanks on.
pub fn next_element(bytes: &[u8]) -> Begun<'_>
    ensures { begun_seen result ≡ next_element bytes.now }
{
    let [first, behind @ ..] = bytes else {
        return Err(bytes);
    };
    if *first == b']' {
        return Ok((None, behind));
    }
    if *first == b',' {
        return Ok((Some(Bracket::Square), skip_blanks(behind)));
    }
    Err(bytes)
}

/// The value of an object's next member, or its end: from behind a member's value and blanks on.
pub fn next_member(bytes: &[u8]) -> Begun<'_>
    ensures { begun_seen result ≡ next_member bytes.now }
{
    let [first, behind @ ..] = bytes else {
        return Err(bytes);
    };
    if *first == b'}' {
        return Ok((None, behind));
    }
    if *first == b',' {
        return held_member(skip_blanks(behind));
    }
    Err(bytes)
}

/// How a value begins.
fn begun_value(bytes: &[u8]) -> Begun<'_>
    ensures { begun_seen result ≡ begun_value bytes.now }
{
    let [first, behind @ ..] = bytes else {
        return Err(bytes);
    };
    let Some(kind) = kind_of(*first) else {
        return Err(bytes);
    };
    match kind {
        Kind::Null => ended(skip_null(behind)),
        Kind::True => ended(skip_true(behind)),
        Kind::False => ended(skip_false(behind)),
        Kind::Number => ended(skip_number(bytes)),
        Kind::String => ended(skip_string(behind)),
        Kind::Array => first_element(skip_blanks(behind)),
        Kind::Object => first_member(skip_blanks(behind)),
    }
}

/// How a part of a text begins.
#[tactic(auto, unfolding(crate::specs::Texts::begun))]
pub fn begun(part: Part, bytes: &[u8]) -> Begun<'_>
    ensures { begun_seen result ≡ begun part bytes.now }
{
    match part {
        Part::Value => begun_value(bytes),
        Part::Behind(Bracket::Square) => next_element(skip_blanks(bytes)),
        Part::Behind(Bracket::Curly) => next_member(skip_blanks(bytes)),
    }
}

/// The bytes behind a value, which has to stand first, with all that it holds. The nesting is kept in a row of bytes, one
/// for each bracket that is open.
///
/// Refused with `OutOfMemory` alone.
pub fn skip_value(alloc: Global, bytes: &[u8]) -> Result<Rest<'_>>
    ensures read { IfOk result (λ r. rest_seen r ≡ after_value bytes.now) }
    ensures memory { IfErr result (λ e. e.kind ≡ OutOfMemory) }
{
    let mut brackets: Vec<Bracket> = Vec::new(alloc);
    let mut part = Part::Value;
    let mut rest = bytes;
    'parts: loop {
        let (bracket, behind) = match begun(part, rest) {
            Ok(read) => read,
            Err(fault) => return Ok(Err(fault)),
        };
        if let Some(opened) = bracket {
            brackets.push(opened)?;
            part = Part::Value;
            rest = behind;
            continue;
        }
        let Some(closed) = brackets.pop() else {
            return Ok(Ok(behind));
        };
        part = Part::Behind(closed);
        rest = behind;
    }
}
