//! Values of fields that are marked as floats, as words.
ghost use Rattle.std.specs.Prelude.{◌≡◌, ◌<◌, ◌*◌, ◌^◌, IfErr, IfOk};
ghost use Rattle.capnp_device.specs.declared.error.ErrorKind.TheVariants.{OutOfMemory};
ghost use Rattle.capnp_floats.specs.declared.width.Width.TheVariants.{Float32, Float64};
ghost use Rattle.capnp_schema.specs.Entries.{lists_seen};
ghost use Rattle.capnp_schema.specs.Types.{UIntType, seen_type};
ghost use Rattle.capnp_words.specs.Marked.{FloatsAreReadBack, float_at, marked_value_by_word, unsigned_by_word};
ghost use Rattle.capnp_words.specs.Steps.Marked.{float_bytes};
ghost use Rattle.capnp_words.specs.Reads.{read_as};
ghost use Rattle.capnp_words.specs.Seen.{IsOfSet, word_value_seen, word_value_type};

use crate::path::Read;
use crate::value::{PlainValue, parse_value, read_uint32, read_uint64};
use capnp_base::introspect::{Type, TypeVariant};
use capnp_floats::laws::{texts_are_read, words_have_one_float};
use capnp_floats::width::Width;
use capnp_floats::word::{Refusal, read_float};
use capnp_schema::set::SchemaSet;
use capnp_wire::error::Result;
use std::alloc::Global;

/// The bits of the float that a word says; of a number past the range the place is the word's length.
fn read_bits(width: Width, word: &[u8]) -> Read<u64>
    ensures read { result ≡ float_at width word.now }
    ensures fits { IfOk result (λ bits. bits < 2 ^ (8 * float_bytes width)) }
{
    words_have_one_float();
    match read_float(width, word) {
        Ok(bits) => Ok(bits),
        Err(Refusal::NoFloat(place)) => Err(place),
        Err(Refusal::PastRange) => Err(word.len()),
    }
}

/// A number of 32 bits, or the float of these bits.
fn read_narrow<'s>(floats: bool, word: &[u8]) -> Read<PlainValue<'s>>
    ensures read { read_as word_value_seen result ≡ unsigned_by_word floats 4 word.now }
    ensures typed { IfOk result (λ v. word_value_type v ≡ UIntType 4) }
{
    if !floats {
        return read_uint32(word);
    }
    let bits = read_bits(Width::Float32, word)?;
    Ok(PlainValue::UInt32(bits as u32))
}

/// A number of 64 bits, or the float of these bits.
fn read_wide<'s>(floats: bool, word: &[u8]) -> Read<PlainValue<'s>>
    ensures read { read_as word_value_seen result ≡ unsigned_by_word floats 8 word.now }
    ensures typed { IfOk result (λ v. word_value_type v ≡ UIntType 8) }
{
    if !floats {
        return read_uint64(word);
    }
    let bits = read_bits(Width::Float64, word)?;
    Ok(PlainValue::UInt64(bits))
}

/// The value that a word stands for under a type, whose numbers are floats or not: of a `UInt32` or `UInt64` that is one the bits
/// of its float, and else as `parse_value` reads it.
///
/// A float's word is a decimal number as JSON has them, with any count of digits, or `inf`, `-inf`, `nan`; it is rounded once, to
/// the nearest float, of two to the even one. Any other word is refused with the place of the first byte that can't stand, and
/// one whose number is past the largest float with its length.
///
/// The outer result is refused with `OutOfMemory` alone.
#[tactic(auto, using(capnp_schema::specs::Facts::Layers::seen_which))]
pub fn parse_marked_value<'s>(
    alloc: Global,
    schemas: &'s SchemaSet,
    target: Type,
    floats: bool,
    word: &[u8],
) -> Result<Read<PlainValue<'s>>>
    ensures read { IfOk result (λ r. read_as word_value_seen r
        ≡ marked_value_by_word (lists_seen schemas.now) floats (seen_type target) word.now) }
    ensures typed { IfOk result (λ r. IfOk r (λ v. word_value_type v ≡ seen_type target)) }
    ensures set { IfOk result (λ r. IfOk r (IsOfSet (lists_seen schemas.now))) }
    ensures memory { IfErr result (λ e. e.kind ≡ OutOfMemory) }
{
    match target.which() {
        TypeVariant::UInt32 => Ok(read_narrow(floats, word)),
        TypeVariant::UInt64 => Ok(read_wide(floats, word)),
        _ => parse_value(alloc, schemas, target, word),
    }
}

/// What is shown of a marked number, a finite one or an infinity, is read back as its bits.
pub fn floats_are_read_back()
    ensures { FloatsAreReadBack }
{
    texts_are_read();
    words_have_one_float();
}
