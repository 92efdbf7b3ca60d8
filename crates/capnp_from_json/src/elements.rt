//! What arrays hold, one after another.
ghost use Rattle.std.specs.Prelude.{ℕ, List, true, Ok, pos, ◌≡◌, ◌<◌, Err, IfErr, IfOk, IsErr, Option};
ghost use Rattle.std.specs.Option.{option_map};
ghost use Rattle.capnp_device.specs.declared.error.ErrorKind.TheVariants.{OutOfMemory};
ghost use Rattle.capnp_records.specs.Record as value;
ghost use Rattle.capnp_schema.specs.Types.{DataType};
ghost use Rattle.capnp_json_text.specs.Values.{Json, elements_of, following_item, json_at};
ghost use Rattle.capnp_from_json.specs.ElementReads.{array_bytes, element_bytes};
ghost use Rattle.capnp_from_json.specs.Errors.{IsErrorOf};
ghost use Rattle.capnp_from_json.specs.LeafReads.{is_typed, leaf_value};
ghost use Rattle.capnp_from_json.specs.Records.{Rules, byte_target, element_count, value_of_json};

use crate::error::{Error, Refusal};
use crate::leaves::{Leaf, integer_token, out_of_range, past_format, uint8_of, wrong_kind};
use crate::looks::look_at;
use capnp_device::error::Result;
use capnp_json_text::items::next_item;
use capnp_json_text::rest::skip_blanks;
use capnp_json_text::values::skip_value;
use std::alloc::Global;

/// Where the next element or name begins, from the value on that stands before it. None at the closing bracket.
///
/// Refused with `OutOfMemory` alone.
pub fn following_item(alloc: Global, bytes: &[u8]) -> Result<Option<&[u8]>>
    ensures next { IfOk result (λ next. option_map (λ x. x.now) next ≡ following_item bytes.now) }
    ensures memory { IfErr result (λ e. e.kind ≡ OutOfMemory) }
{
    match skip_value(alloc, bytes)? {
        Ok(rest) => Ok(next_item(skip_blanks(rest))),
        Err(_fault) => Ok(None),
    }
}

/// How many elements there are from the first on.
///
/// Refused with `OutOfMemory` alone.
#[tactic(auto, unfolding(capnp_json_text::specs::Values::elements_of))]
pub fn count_elements(alloc: Global, first: Option<&[u8]>) -> Result<usize>
    ensures count { (json : List ℕ → Json) → IfOk result (λ n. n ≡ element_count (elements_of json (option_map
        (λ x. x.now) first.entry))) }
    ensures memory { IfErr result (λ e. e.kind ≡ OutOfMemory) }
{
    let Some(bytes) = first else {
        return Ok(0);
    };
    let mut rest = bytes;
    let mut count = 0;
    'elements: while count < bytes.len() {
        count += 1;
        match following_item(alloc, rest)? {
            Some(next) => rest = next,
            None => return Ok(count),
        }
    }
    Ok(count + 1)
}

/// The byte that is the value with which bytes begin, in a text of so many bytes.
fn read_byte(alloc: Global, whole: usize, bytes: &[u8]) -> std::result::Result<u8, Error>
    ensures read { (rules : Rules) (levels : ℕ) → IfOk result
        (λ n. value_of_json rules (json_at whole bytes.now) levels byte_target ≡ Ok (value.Number (pos n))) }
    ensures refused { (rules : Rules) (levels : ℕ) → IfErr result (λ e. IsErrorOf
        (value_of_json rules (json_at whole bytes.now) levels byte_target) e) }
{
    let look = match look_at(alloc, bytes) {
        Ok(look) => look,
        Err(_memory) => return Err(Error::OutOfMemory),
    };
    let place = whole.saturating_sub(bytes.len());
    let Some(token) = integer_token(&look) else {
        return Err(Error::Refused(wrong_kind(place)));
    };
    match uint8_of(token) {
        Some(byte) => Ok(byte),
        None => Err(Error::Refused(out_of_range(place))),
    }
}

/// The bytes that elements are, from the first on, in a text of so many bytes.
///
/// Refused with `OutOfMemory`, and for the first element that is no byte: with `WrongJsonKind` or `NumberOutOfRange`.
#[tactic(auto, unfolding(capnp_json_text::specs::Values::elements_of))]
pub fn read_bytes(
    alloc: Global,
    whole: usize,
    first: Option<&[u8]>,
) -> std::result::Result<Vec<u8>, Error>
    ensures read { (rules : Rules) (levels : ℕ) → IfOk result (λ v. element_bytes rules whole (option_map
        (λ x. x.now) first.entry) levels ≡ Ok v.items) }
    ensures refused { (rules : Rules) (levels : ℕ) → IfErr result
        (λ e. IsErrorOf (element_bytes rules whole (option_map (λ x. x.now) first.entry) levels) e) }
{
    let mut out = Vec::new(alloc);
    let Some(bytes) = first else {
        return Ok(out);
    };
    let mut rest = bytes;
    let mut left = bytes.len();
    'elements: loop {
        let byte = match read_byte(alloc, whole, rest) {
            Ok(byte) => byte,
            Err(error) => return Err(error),
        };
        if out.push(byte).is_err() {
            return Err(Error::OutOfMemory);
        }
        let next = match following_item(alloc, rest) {
            Ok(next) => next,
            Err(_memory) => return Err(Error::OutOfMemory),
        };
        let Some(more) = next else {
            return Ok(out);
        };
        if left == 0 {
            return Ok(out);
        }
        left -= 1;
        rest = more;
    }
}

/// The refusal of data in an array: the size counts before what stands in it.
fn refused_array(
    alloc: Global,
    first: Option<&[u8]>,
    place: usize,
    refusal: Refusal,
) -> std::result::Result<Leaf, Error>
    ensures never { IsErr result }
    ensures refused { (rules : Rules) (whole levels : ℕ) → element_bytes rules whole (option_map
        (λ x. x.now) first.entry) levels ≡ Err refusal →
        IfErr result (λ e. IsErrorOf (array_bytes rules whole (option_map (λ x. x.now) first.entry) place levels) e) }
{
    let count = match count_elements(alloc, first) {
        Ok(count) => count,
        Err(_memory) => return Err(Error::OutOfMemory),
    };
    if count > 536870911 {
        return Err(Error::Refused(past_format(place)));
    }
    Err(Error::Refused(refusal))
}

/// Data that is an array, from behind its opening bracket and blanks on, in a text of so many bytes.
///
/// Refused with `OutOfMemory`; with `SizePastFormat` where there are 2^29 elements or more; and for the first that is
/// no byte, with `WrongJsonKind` or `NumberOutOfRange`.
pub fn read_data(
    alloc: Global,
    whole: usize,
    first: Option<&[u8]>,
    place: usize,
) -> std::result::Result<Leaf, Error>
    ensures read { (rules : Rules) (levels : ℕ) →
        IfOk result (λ l. array_bytes rules whole (option_map (λ x. x.now) first.entry) place levels
        ≡ Ok (leaf_value l)) }
    ensures typed { IfOk result (λ l. is_typed DataType l ≡ true) }
    ensures refused { (rules : Rules) (levels : ℕ) →
        IfErr result (λ e. IsErrorOf (array_bytes rules whole (option_map (λ x. x.now) first.entry) place levels) e) }
{
    match read_bytes(alloc, whole, first) {
        Ok(bytes) => {
            if bytes.len() > 536870911 {
                return Err(Error::Refused(past_format(place)));
            }
            Ok(Leaf::Data(bytes))
        }
        Err(Error::OutOfMemory) => Err(Error::OutOfMemory),
        Err(Error::TooLarge) => Err(Error::OutOfMemory),
        Err(Error::Refused(refusal)) => refused_array(alloc, first, place, refusal),
    }
}
