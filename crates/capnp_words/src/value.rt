//! Values as words under a type.
ghost use Rattle.std.specs.Prelude.{◌≡◌, ◌<◌, ◌≤◌, length, IfErr, IfOk};
ghost use Rattle.capnp_device.specs.declared.error.ErrorKind.TheVariants.{OutOfMemory};
ghost use Rattle.capnp_schema.specs.Entries.{lists_seen};
ghost use Rattle.capnp_schema.specs.Annotated.{enumerant_at as enumerant_record};
ghost use Rattle.capnp_schema.specs.Enumerants.{enum_of_list, enumerants_in};
ghost use Rattle.capnp_schema.specs.Enums.{enum_number, enum_set};
ghost use Rattle.capnp_schema.specs.Types.{BoolType, EnumType, IntType, UIntType, VoidType, seen_type, seen_variant};
ghost use Rattle.capnp_dynamic_readers.specs.Seen.{value_seen};
ghost use Rattle.capnp_dynamic_readers.specs.Shown.{set_seen, type_seen};
ghost use Rattle.capnp_words.specs.Reads.{read_as};
ghost use Rattle.capnp_words.specs.Quoted.{text_word_at, data_at};
ghost use Rattle.capnp_records.specs.Record.{Truth, Enum as EnumNumber};
ghost use Rattle.capnp_words.specs.Words.{name_among};
ghost use Rattle.capnp_words.specs.Values.{enumerant_by_word, int_at, truth_at, uint_at, value_by_word, void_at};
ghost use Rattle.capnp_words.specs.Steps.Values.{IsSmall, enumerant_names};
ghost use Rattle.capnp_words.specs.Seen.{IsOfSet, word_value_seen, word_value_set, word_value_type};

use crate::numbers::{read_decimal, read_signed};
use crate::path::Read;
use crate::quoted::{Expected, read_quoted};
use crate::words::is_word;
use capnp_base::introspect::{Type, TypeVariant};
use capnp_base::text;
use capnp_dynamic_readers::dynamic_value::{Enum, Reader};
use capnp_schema::schema::{EnumSchema, EnumerantList};
use capnp_schema::set::SchemaSet;
use capnp_wire::error::Result;
use std::alloc::Global;

/// A value that a word stands for.
#[derive(Drop)]
pub enum PlainValue<'s> {
    Void,
    Bool(bool),
    Int8(i8),
    Int16(i16),
    Int32(i32),
    Int64(i64),
    UInt8(u8),
    UInt16(u16),
    UInt32(u32),
    UInt64(u64),
    Enum(Enum<'s>),
    Text(Vec<u8>),
    Data(Vec<u8>),
}

impl<'s> PlainValue<'s> {
    /// The value as one that is read, of the same type and the same schemas, which a set can be given.
    pub fn as_reader(&self) -> Reader<'_>
        ensures value { value_seen result ≡ word_value_seen self.now }
        ensures typed { type_seen result ≡ word_value_type self.now }
        ensures set { set_seen result ≡ word_value_set self.now }
    {
        match self {
            PlainValue::Void => Reader::Void,
            PlainValue::Bool(truth) => Reader::Bool(*truth),
            PlainValue::Int8(number) => Reader::Int8(*number),
            PlainValue::Int16(number) => Reader::Int16(*number),
            PlainValue::Int32(number) => Reader::Int32(*number),
            PlainValue::Int64(number) => Reader::Int64(*number),
            PlainValue::UInt8(number) => Reader::UInt8(*number),
            PlainValue::UInt16(number) => Reader::UInt16(*number),
            PlainValue::UInt32(number) => Reader::UInt32(*number),
            PlainValue::UInt64(number) => Reader::UInt64(*number),
            PlainValue::Enum(value) => Reader::Enum(*value),
            PlainValue::Text(bytes) => Reader::Text(text::Reader(bytes.as_slice())),
            PlainValue::Data(bytes) => Reader::Data(bytes.as_slice()),
        }
    }
}

/// `()`.
fn read_void<'s>(word: &[u8]) -> Read<PlainValue<'s>>
    ensures read { read_as word_value_seen result ≡ void_at word.now }
    ensures typed { IfOk result (λ v. word_value_type v ≡ VoidType) }
{
    let mut longest = 0;
    if is_word(b"()", word, &mut longest) {
        return Ok(PlainValue::Void);
    }
    Err(longest)
}

/// `false` or `true`.
fn read_truth(word: &[u8]) -> Read<bool>
    ensures { result ≡ truth_at word.now }
{
    let mut longest = 0;
    if is_word(b"false", word, &mut longest) {
        return Ok(false);
    }
    if is_word(b"true", word, &mut longest) {
        return Ok(true);
    }
    Err(longest)
}

/// The name of an enumerant, whose number has to be below the count.
fn enumerant_name<'s>(enumerants: EnumerantList<'s>, ordinal: u16) -> &'s str
    requires { ordinal < length (enumerants_in enumerants) }
    ensures { result.now ≡ (enumerant_record (enum_set (enum_of_list enumerants.entry))
        (enum_number (enum_of_list enumerants.entry)) ordinal).name }
{
    enumerants.get(ordinal).get_proto().name.as_str()
}

/// The number of the first enumerant of that name; else the most bytes that a name shares with the word.
fn find_name(enumerants: EnumerantList<'_>, word: &[u8]) -> Read<u16>
    ensures { result ≡ name_among (enumerant_names (enum_of_list enumerants.entry)) 0 0 word.now }
{
    let mut longest = 0;
    for ordinal in 0..enumerants.len() {
        let name = enumerant_name(enumerants, ordinal);
        if is_word(name.as_bytes(), word, &mut longest) {
            return Ok(ordinal);
        }
    }
    Err(longest)
}

/// The number of the first enumerant of that name; else the most bytes that a name shares with the word.
fn find_enumerant(schema: EnumSchema<'_>, word: &[u8]) -> Read<u16>
    ensures { result ≡ name_among (enumerant_names schema.entry) 0 0 word.now }
{
    match schema.get_enumerants() {
        Ok(enumerants) => find_name(enumerants, word),
        Err(_) => Err(0),
    }
}

/// An enumerant, by its name or its number.
fn read_enumerant(schema: EnumSchema<'_>, word: &[u8]) -> Read<u16>
    ensures { result ≡ enumerant_by_word (enumerant_names schema.entry) word.now }
{
    match find_enumerant(schema, word) {
        Ok(ordinal) => Ok(ordinal),
        Err(place) => match read_decimal(word, 0, u64::from(u16::MAX)) {
            Ok(number) => Ok(number as u16),
            Err(further) => Err(place.max(further)),
        },
    }
}

/// A text in quotes, or any bytes that begin with none.
fn read_text(alloc: Global, word: &[u8]) -> Result<Read<Vec<u8>>>
    ensures read { IfOk result (λ r. read_as (λ v. v.items) r ≡ text_word_at word.now) }
    ensures memory { IfErr result (λ e. e.kind ≡ OutOfMemory) }
{
    if word.first() == Some(&b'"') {
        return read_quoted(alloc, &word[1..], 1, Expected::Character);
    }
    Ok(Ok(word.to_vec(alloc)?))
}

/// A number of a signed type of one byte.
fn read_int8<'s>(word: &[u8]) -> Read<PlainValue<'s>>
    ensures read { read_as word_value_seen result ≡ int_at 1 word.now }
    ensures typed { IfOk result (λ v. word_value_type v ≡ IntType 1) }
{
    let number = read_signed(word, 0, 0x7F)?;
    Ok(PlainValue::Int8(number as i8))
}

/// A number of a signed type of two bytes.
fn read_int16<'s>(word: &[u8]) -> Read<PlainValue<'s>>
    ensures read { read_as word_value_seen result ≡ int_at 2 word.now }
    ensures typed { IfOk result (λ v. word_value_type v ≡ IntType 2) }
{
    let number = read_signed(word, 0, 0x7FFF)?;
    Ok(PlainValue::Int16(number as i16))
}

/// A number of a signed type of four bytes.
fn read_int32<'s>(word: &[u8]) -> Read<PlainValue<'s>>
    ensures read { read_as word_value_seen result ≡ int_at 4 word.now }
    ensures typed { IfOk result (λ v. word_value_type v ≡ IntType 4) }
{
    let number = read_signed(word, 0, 0x7FFF_FFFF)?;
    Ok(PlainValue::Int32(number as i32))
}

/// A number of a signed type of eight bytes.
fn read_int64<'s>(word: &[u8]) -> Read<PlainValue<'s>>
    ensures read { read_as word_value_seen result ≡ int_at 8 word.now }
    ensures typed { IfOk result (λ v. word_value_type v ≡ IntType 8) }
{
    let number = read_signed(word, 0, 0x7FFF_FFFF_FFFF_FFFF)?;
    Ok(PlainValue::Int64(number))
}

/// A number of an unsigned type of one byte.
fn read_uint8<'s>(word: &[u8]) -> Read<PlainValue<'s>>
    ensures read { read_as word_value_seen result ≡ uint_at 1 word.now }
    ensures typed { IfOk result (λ v. word_value_type v ≡ UIntType 1) }
{
    let number = read_decimal(word, 0, 0xFF)?;
    Ok(PlainValue::UInt8(number as u8))
}

/// A number of an unsigned type of two bytes.
fn read_uint16<'s>(word: &[u8]) -> Read<PlainValue<'s>>
    ensures read { read_as word_value_seen result ≡ uint_at 2 word.now }
    ensures typed { IfOk result (λ v. word_value_type v ≡ UIntType 2) }
{
    let number = read_decimal(word, 0, 0xFFFF)?;
    Ok(PlainValue::UInt16(number as u16))
}

/// A number of an unsigned type of four bytes.
pub(crate) fn read_uint32<'s>(word: &[u8]) -> Read<PlainValue<'s>>
    ensures read { read_as word_value_seen result ≡ uint_at 4 word.now }
    ensures typed { IfOk result (λ v. word_value_type v ≡ UIntType 4) }
{
    let number = read_decimal(word, 0, 0xFFFF_FFFF)?;
    Ok(PlainValue::UInt32(number as u32))
}

/// A number of an unsigned type of eight bytes.
pub(crate) fn read_uint64<'s>(word: &[u8]) -> Read<PlainValue<'s>>
    ensures read { read_as word_value_seen result ≡ uint_at 8 word.now }
    ensures typed { IfOk result (λ v. word_value_type v ≡ UIntType 8) }
{
    let number = read_decimal(word, 0, 0xFFFF_FFFF_FFFF_FFFF)?;
    Ok(PlainValue::UInt64(number))
}

/// A truth value.
fn read_bool<'s>(word: &[u8]) -> Read<PlainValue<'s>>
    ensures read { read_as word_value_seen result ≡ read_as Truth (truth_at word.now) }
    ensures typed { IfOk result (λ v. word_value_type v ≡ BoolType) }
{
    let truth = read_truth(word)?;
    Ok(PlainValue::Bool(truth))
}

/// An enumerant of an enum.
fn read_enum<'s>(schema: EnumSchema<'s>, word: &[u8]) -> Read<PlainValue<'s>>
    ensures read { read_as word_value_seen result
        ≡ read_as EnumNumber (enumerant_by_word (enumerant_names schema.entry) word.now) }
    ensures typed { IfOk result (λ v. word_value_type v ≡ EnumType (enum_number schema.entry)) }
    ensures set { IfOk result (IsOfSet (enum_set schema.entry)) }
{
    let number = read_enumerant(schema, word)?;
    Ok(PlainValue::Enum(Enum::new(number, schema)))
}

/// The value under a type that takes no memory; one under another type has none.
#[tactic(auto, using(crate::proofs::OfSet::of_no_set))]
fn read_small<'s>(schemas: &'s SchemaSet, kind: TypeVariant, word: &[u8]) -> Read<PlainValue<'s>>
    requires { IsSmall (seen_variant kind) }
    ensures read { read_as word_value_seen result ≡ value_by_word (lists_seen schemas.now) (seen_variant kind) word.now }
    ensures typed { IfOk result (λ v. word_value_type v ≡ seen_variant kind) }
    ensures set { IfOk result (IsOfSet (lists_seen schemas.now)) }
{
    match kind {
        TypeVariant::Void => read_void(word),
        TypeVariant::Bool => read_bool(word),
        TypeVariant::Int8 => read_int8(word),
        TypeVariant::Int16 => read_int16(word),
        TypeVariant::Int32 => read_int32(word),
        TypeVariant::Int64 => read_int64(word),
        TypeVariant::UInt8 => read_uint8(word),
        TypeVariant::UInt16 => read_uint16(word),
        TypeVariant::UInt32 => read_uint32(word),
        TypeVariant::UInt64 => read_uint64(word),
        TypeVariant::Enum(raw) => read_enum(schemas.enum_schema(raw.number), word),
        _ => Err(0),
    }
}

/// The value that a word stands for under a type, which is one of the set's:
///
/// - a void: `()`; a truth value: `false` or `true`;
/// - an integer: in decimal digits, within the type's range, with no zero in front and no `-0`;
/// - an enum: an enumerant's name, or else a number up to 65,535; the value has the set's enum;
/// - a text: any bytes that begin with no quote, as they stand; or in quotes, with the escapes `\"`, `\\`, `\n`, `\r`,
///   `\t`, `\0` and `\u{..}`, with one to six hexadecimal digits of a character's number, and no control character
///   else;
/// - data: `0x"..."` with two hexadecimal digits a byte. Hexadecimal digits are lower case.
///
/// Any other word is refused, in the inner result, with the place of the first byte that can't stand, or with its
/// length where it ends too soon. Under a struct, list or untyped pointer every word is, at 0. The outer result is
/// refused with `OutOfMemory` alone.
#[tactic(auto, using(capnp_schema::specs::Facts::Layers::seen_which))]
pub fn parse_value<'s>(
    alloc: Global,
    schemas: &'s SchemaSet,
    target: Type,
    word: &[u8],
) -> Result<Read<PlainValue<'s>>>
    ensures read { IfOk result (λ r. read_as word_value_seen r ≡ value_by_word (lists_seen schemas.now) (seen_type target) word.now) }
    ensures typed { IfOk result (λ r. IfOk r (λ v. word_value_type v ≡ seen_type target)) }
    ensures set { IfOk result (λ r. IfOk r (IsOfSet (lists_seen schemas.now))) }
    ensures memory { IfErr result (λ e. e.kind ≡ OutOfMemory) }
{
    match target.which() {
        TypeVariant::Text => match read_text(alloc, word)? {
            Ok(bytes) => Ok(Ok(PlainValue::Text(bytes))),
            Err(place) => Ok(Err(place)),
        },
        TypeVariant::Data => match read_quoted(alloc, word, 0, Expected::Zero)? {
            Ok(bytes) => Ok(Ok(PlainValue::Data(bytes))),
            Err(place) => Ok(Err(place)),
        },
        kind => Ok(read_small(schemas, kind, word)),
    }
}
