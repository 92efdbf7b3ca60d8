//! Values that hold no others, read under their types.
ghost use Rattle.std.specs.Prelude.{ℕ, Bool, true, false, pos, ◌≡◌, ◌<◌, ◌*◌, ◌^◌, length, IfOk, IfSome, Some};
ghost use Rattle.std.specs.Option.{option_map};
ghost use Rattle.capnp_records.specs.Record as value;
ghost use Rattle.capnp_floats.specs.Words.{IsFloatOf};
ghost use Rattle.capnp_schema.specs.Types.{AnyPointerType, BoolType, EnumType, IntType, TextType, UIntType, VoidType};
ghost use Rattle.capnp_schema.specs.Enums.{enum_in, enum_number, enum_set};
ghost use Rattle.capnp_json_fields.specs.Names.{enumerant_of_name};
ghost use Rattle.capnp_json_fields.specs.declared.fields.DataForm.{DataForm};
ghost use Rattle.capnp_from_json.specs.Integers.{is_in_signed, is_in_unsigned, only_if, signed_of, unsigned_of};
ghost use Rattle.capnp_from_json.specs.Leaves.{AreFloats, Part, enum_named, enum_value, float_word, in_range, is_number, text_read};
ghost use Rattle.capnp_from_json.specs.LeafReads.{float_bytes, float_word_of, integer_of_type, integer_token, integer_type, is_typed, leaf_option, leaf_read, leaf_value, out_of_range, past_format, under, wrong_kind};
ghost use Rattle.capnp_from_json.specs.Looks.{look_seen};
ghost use Rattle.capnp_from_json.specs.Records.{Rules, value_of_json};

use crate::error::{Refusal, RefusalKind};
use crate::integers::{read_signed, read_unsigned};
use crate::looks::Look;
use capnp_floats::width::Width;
use capnp_floats::word::{Refusal as FloatRefusal, read_float as read_word};
use capnp_json_fields::names::find_enumerant;
use capnp_json_text::numbers::skip_number;
use capnp_schema::schema::EnumSchema;

/// A value that holds no others.
#[derive(Debug, Drop)]
pub enum Leaf {
    Void,
    Bool(bool),
    Int8(i8),
    Int16(i16),
    Int32(i32),
    Int64(i64),
    UInt8(u8),
    UInt16(u16),
    UInt32(u32),
    UInt64(u64),
    /// An enum, by its number.
    Enum(u16),
    Text(Vec<u8>),
    Data(Vec<u8>),
    /// A null pointer.
    Null,
}

/// A type of integers.
#[derive(Clone, Copy, Debug, PartialEq, Eq)]
pub enum IntegerType {
    Int8,
    Int16,
    Int32,
    Int64,
    UInt8,
    UInt16,
    UInt32,
    UInt64,
}

/// The refusal of a value of a kind that its type does not take.
pub(crate) fn wrong_kind(place: usize) -> Refusal
    ensures { result ≡ wrong_kind place }
{
    Refusal {
        kind: RefusalKind::WrongJsonKind,
        place,
    }
}

/// The refusal of a number that is not whole, or past its type's range.
pub(crate) fn out_of_range(place: usize) -> Refusal
    ensures { result ≡ out_of_range place }
{
    Refusal {
        kind: RefusalKind::NumberOutOfRange,
        place,
    }
}

/// The refusal of a list, text or data past the format.
pub(crate) fn past_format(place: usize) -> Refusal
    ensures { result ≡ past_format place }
{
    Refusal {
        kind: RefusalKind::SizePastFormat,
        place,
    }
}

fn int8_leaf(token: &[u8]) -> Option<Leaf>
    ensures read { leaf_option result ≡ option_map value.Number (only_if (is_in_signed 8) (signed_of 64 token.now)) }
    ensures typed { IfSome result (λ l. is_typed (IntType 1) l ≡ true) }
{
    let Some(x) = read_signed(token) else {
        return None;
    };
    if x < -128 || x > 127 {
        return None;
    }
    Some(Leaf::Int8(x as i8))
}

fn int16_leaf(token: &[u8]) -> Option<Leaf>
    ensures read { leaf_option result ≡ option_map value.Number (only_if (is_in_signed 16) (signed_of 64 token.now)) }
    ensures typed { IfSome result (λ l. is_typed (IntType 2) l ≡ true) }
{
    let Some(x) = read_signed(token) else {
        return None;
    };
    if x < -32768 || x > 32767 {
        return None;
    }
    Some(Leaf::Int16(x as i16))
}

fn int32_leaf(token: &[u8]) -> Option<Leaf>
    ensures read { leaf_option result ≡ option_map value.Number (only_if (is_in_signed 32) (signed_of 64 token.now)) }
    ensures typed { IfSome result (λ l. is_typed (IntType 4) l ≡ true) }
{
    let Some(x) = read_signed(token) else {
        return None;
    };
    if x < -2147483648 || x > 2147483647 {
        return None;
    }
    Some(Leaf::Int32(x as i32))
}

fn int64_leaf(token: &[u8]) -> Option<Leaf>
    ensures read { leaf_option result ≡ option_map value.Number (signed_of 64 token.now) }
    ensures typed { IfSome result (λ l. is_typed (IntType 8) l ≡ true) }
{
    let Some(x) = read_signed(token) else {
        return None;
    };
    Some(Leaf::Int64(x))
}

/// The byte that a number's bytes stand for. None where the number is not whole, or past the range.
pub(crate) fn uint8_of(token: &[u8]) -> Option<u8>
    ensures { option_map pos result ≡ only_if (is_in_unsigned 8) (unsigned_of 64 token.now) }
{
    let Some(n) = read_unsigned(token) else {
        return None;
    };
    if n > 255 {
        return None;
    }
    Some(n as u8)
}

fn uint8_leaf(token: &[u8]) -> Option<Leaf>
    ensures read { leaf_option result ≡ option_map value.Number (only_if (is_in_unsigned 8) (unsigned_of 64 token.now)) }
    ensures typed { IfSome result (λ l. is_typed (UIntType 1) l ≡ true) }
{
    let Some(n) = uint8_of(token) else {
        return None;
    };
    Some(Leaf::UInt8(n))
}

fn uint16_leaf(token: &[u8]) -> Option<Leaf>
    ensures read { leaf_option result ≡ option_map value.Number (only_if (is_in_unsigned 16) (unsigned_of 64 token.now)) }
    ensures typed { IfSome result (λ l. is_typed (UIntType 2) l ≡ true) }
{
    let Some(n) = read_unsigned(token) else {
        return None;
    };
    if n > 65535 {
        return None;
    }
    Some(Leaf::UInt16(n as u16))
}

fn uint32_leaf(token: &[u8]) -> Option<Leaf>
    ensures read { leaf_option result ≡ option_map value.Number (only_if (is_in_unsigned 32) (unsigned_of 64 token.now)) }
    ensures typed { IfSome result (λ l. is_typed (UIntType 4) l ≡ true) }
{
    let Some(n) = read_unsigned(token) else {
        return None;
    };
    if n > 4294967295 {
        return None;
    }
    Some(Leaf::UInt32(n as u32))
}

fn uint64_leaf(token: &[u8]) -> Option<Leaf>
    ensures read { leaf_option result ≡ option_map value.Number (unsigned_of 64 token.now) }
    ensures typed { IfSome result (λ l. is_typed (UIntType 8) l ≡ true) }
{
    let Some(n) = read_unsigned(token) else {
        return None;
    };
    Some(Leaf::UInt64(n))
}

/// The integer of a type that a number's bytes stand for. None where the number is not whole, or past the type's range.
fn integer_leaf(of: IntegerType, token: &[u8]) -> Option<Leaf>
    ensures read { leaf_option result ≡ option_map value.Number (integer_of_type of token.now) }
    ensures typed { IfSome result (λ l. is_typed (integer_type of) l ≡ true) }
{
    match of {
        IntegerType::Int8 => int8_leaf(token),
        IntegerType::Int16 => int16_leaf(token),
        IntegerType::Int32 => int32_leaf(token),
        IntegerType::Int64 => int64_leaf(token),
        IntegerType::UInt8 => uint8_leaf(token),
        IntegerType::UInt16 => uint16_leaf(token),
        IntegerType::UInt32 => uint32_leaf(token),
        IntegerType::UInt64 => uint64_leaf(token),
    }
}

/// Whether bytes are a number and nothing else.
fn is_number(bytes: &[u8]) -> bool
    ensures { result ≡ is_number bytes.now }
{
    match skip_number(bytes) {
        Ok(rest) => rest.len() == 0,
        Err(_fault) => false,
    }
}

/// The bytes of a number, or of a string that is one.
pub(crate) fn integer_token<'a>(look: &'a Look<'a>) -> Option<&'a [u8]>
    ensures { (whole place : ℕ) → option_map (λ x. x.now) result ≡ integer_token (look_seen whole place look.now) }
{
    match look {
        Look::Null => None,
        Look::Truth(_truth) => None,
        Look::Number(token) => Some(token),
        Look::Text(content) => {
            if is_number(content) {
                Some(content)
            } else {
                None
            }
        }
        Look::Array(_behind) => None,
        Look::Object(_behind) => None,
    }
}

/// A value under a type of integers: a number, or a string that is one, exactly.
///
/// Refused with `WrongJsonKind` where it is of another kind, and with `NumberOutOfRange` where the number is not
/// whole or past the type's range.
pub fn read_integer(of: IntegerType, look: &Look<'_>, place: usize) -> Result<Leaf, Refusal>
    ensures read { (rules : Rules) (whole levels : ℕ) (part : Part) (form : DataForm) → leaf_read result
        ≡ value_of_json rules (look_seen whole place look.now) levels (under (integer_type of) part false form) }
    ensures typed { IfOk result (λ l. is_typed (integer_type of) l ≡ true) }
{
    let Some(token) = integer_token(look) else {
        return Err(wrong_kind(place));
    };
    match integer_leaf(of, token) {
        Some(leaf) => Ok(leaf),
        None => Err(out_of_range(place)),
    }
}

/// A value under Void: null.
///
/// Refused with `WrongJsonKind` where it is anything else.
pub fn read_void(look: &Look<'_>, place: usize) -> Result<Leaf, Refusal>
    ensures read { (rules : Rules) (whole levels : ℕ) (part : Part) (is_float : Bool) (form : DataForm) → leaf_read result
        ≡ value_of_json rules (look_seen whole place look.now) levels (under VoidType part is_float form) }
    ensures typed { IfOk result (λ l. is_typed VoidType l ≡ true) }
{
    match look {
        Look::Null => Ok(Leaf::Void),
        Look::Truth(_truth) => Err(wrong_kind(place)),
        Look::Number(_token) => Err(wrong_kind(place)),
        Look::Text(_content) => Err(wrong_kind(place)),
        Look::Array(_behind) => Err(wrong_kind(place)),
        Look::Object(_behind) => Err(wrong_kind(place)),
    }
}

/// A value under Bool: a truth value.
///
/// Refused with `WrongJsonKind` where it is anything else.
pub fn read_truth(look: &Look<'_>, place: usize) -> Result<Leaf, Refusal>
    ensures read { (rules : Rules) (whole levels : ℕ) (part : Part) (is_float : Bool) (form : DataForm) → leaf_read result
        ≡ value_of_json rules (look_seen whole place look.now) levels (under BoolType part is_float form) }
    ensures typed { IfOk result (λ l. is_typed BoolType l ≡ true) }
{
    match look {
        Look::Null => Err(wrong_kind(place)),
        Look::Truth(truth) => Ok(Leaf::Bool(*truth)),
        Look::Number(_token) => Err(wrong_kind(place)),
        Look::Text(_content) => Err(wrong_kind(place)),
        Look::Array(_behind) => Err(wrong_kind(place)),
        Look::Object(_behind) => Err(wrong_kind(place)),
    }
}

/// A text of the format, from its bytes.
fn text_leaf(content: Vec<u8>, place: usize) -> Result<Leaf, Refusal>
    ensures read { leaf_read result ≡ text_read place content.items }
    ensures typed { IfOk result (λ l. is_typed TextType l ≡ true) }
{
    if content.len() > 536870910 {
        return Err(past_format(place));
    }
    Ok(Leaf::Text(content))
}

/// A value under Text: a string, or null for a null pointer.
///
/// Refused with `WrongJsonKind` where it is anything else, and with `SizePastFormat` where it has more than 2^29 - 2
/// bytes.
pub fn read_text(look: Look<'_>, place: usize) -> Result<Leaf, Refusal>
    ensures read { (rules : Rules) (whole levels : ℕ) (part : Part) (is_float : Bool) (form : DataForm) → leaf_read result
        ≡ value_of_json rules (look_seen whole place look.entry) levels (under TextType part is_float form) }
    ensures typed { IfOk result (λ l. is_typed TextType l ≡ true) }
{
    match look {
        Look::Null => Ok(Leaf::Null),
        Look::Truth(_truth) => Err(wrong_kind(place)),
        Look::Number(_token) => Err(wrong_kind(place)),
        Look::Text(content) => text_leaf(content, place),
        Look::Array(_behind) => Err(wrong_kind(place)),
        Look::Object(_behind) => Err(wrong_kind(place)),
    }
}

/// The word of a string for a float: JSON's names of infinities and of what is no number have words of their own.
fn float_word(string: &[u8]) -> &[u8]
    ensures { result.now ≡ float_word string.now }
{
    if string == b"Infinity".as_slice() {
        return b"inf".as_slice();
    }
    if string == b"-Infinity".as_slice() {
        return b"-inf".as_slice();
    }
    if string == b"NaN".as_slice() {
        return b"nan".as_slice();
    }
    string
}

/// The word of a value for a float. None where a value is of no kind that floats take.
fn float_word_of<'a>(look: &'a Look<'a>) -> Option<&'a [u8]>
    ensures { (whole place : ℕ) → option_map (λ x. x.now) result ≡ float_word_of (look_seen whole place look.now) }
{
    match look {
        Look::Null => Some(b"nan".as_slice()),
        Look::Truth(_truth) => None,
        Look::Number(token) => Some(token),
        Look::Text(content) => Some(float_word(content)),
        Look::Array(_behind) => None,
        Look::Object(_behind) => None,
    }
}

/// A float by its bits, as the integer that stands for it.
fn float_leaf(width: Width, bits: u64) -> Leaf
    requires { bits < 2 ^ (8 * float_bytes width) }
    ensures value { leaf_value result ≡ value.Number (pos bits) }
    ensures typed { is_typed (UIntType (float_bytes width)) result ≡ true }
{
    match width {
        Width::Float32 => Leaf::UInt32(bits as u32),
        Width::Float64 => Leaf::UInt64(bits),
    }
}

/// A value under a type of floats, which stand as integers with the same bits: a number of any length, rounded once;
/// a string that is one; the strings `Infinity`, `-Infinity`, `NaN`, `inf`, `-inf`, `nan`; or null, which is the
/// quiet one that is no number.
///
/// Refused with `WrongJsonKind` where it is anything else, and with `NumberOutOfRange` where the number is past the
/// largest float.
pub fn read_float(width: Width, look: &Look<'_>, place: usize) -> Result<Leaf, Refusal>
    ensures read { (rules : Rules) (whole levels : ℕ) (part : Part) (form : DataForm) → AreFloats rules.floats →
        leaf_read result
        ≡ value_of_json rules (look_seen whole place look.now) levels
        (under (UIntType (float_bytes width)) part true form) }
    ensures typed { IfOk result (λ l. is_typed (UIntType (float_bytes width)) l ≡ true) }
{
    let Some(word) = float_word_of(look) else {
        return Err(wrong_kind(place));
    };
    match read_word(width, word) {
        Ok(bits) => Ok(float_leaf(width, bits)),
        Err(FloatRefusal::NoFloat(_fault)) => Err(wrong_kind(place)),
        Err(FloatRefusal::PastRange) => Err(out_of_range(place)),
    }
}

/// A value under an untyped pointer: null.
///
/// Refused with `WrongJsonKind` where it is anything else.
pub fn read_untyped(look: &Look<'_>, place: usize) -> Result<Leaf, Refusal>
    ensures read { (rules : Rules) (whole levels : ℕ) (part : Part) (is_float : Bool) (form : DataForm) → leaf_read result
        ≡ value_of_json rules (look_seen whole place look.now) levels (under AnyPointerType part is_float form) }
    ensures typed { IfOk result (λ l. is_typed AnyPointerType l ≡ true) }
{
    match look {
        Look::Null => Ok(Leaf::Null),
        Look::Truth(_truth) => Err(wrong_kind(place)),
        Look::Number(_token) => Err(wrong_kind(place)),
        Look::Text(_content) => Err(wrong_kind(place)),
        Look::Array(_behind) => Err(wrong_kind(place)),
        Look::Object(_behind) => Err(wrong_kind(place)),
    }
}

/// The number of an enum that a number's bytes stand for. None where it is not whole, or past 65,535.
fn enum_leaf(token: &[u8], place: usize) -> Result<Leaf, Refusal>
    ensures read { leaf_read result ≡ in_range place enum_value (only_if (is_in_unsigned 16) (unsigned_of 64 token.now)) }
    ensures typed { IfOk result (λ l. is_typed (EnumType 0) l ≡ true) }
{
    let Some(n) = read_unsigned(token) else {
        return Err(out_of_range(place));
    };
    if n > 65535 {
        return Err(out_of_range(place));
    }
    Ok(Leaf::Enum(n as u16))
}

/// The enumerant of a name, by its number.
fn named_leaf(schema: EnumSchema<'_>, name: &[u8], place: usize) -> Result<Leaf, Refusal>
    ensures read { leaf_read result ≡ enum_named place (enumerant_of_name (enum_in schema.entry) name.now) }
    ensures typed { IfOk result (λ l. is_typed (EnumType 0) l ≡ true) }
{
    match find_enumerant(schema, name) {
        Some(number) => Ok(Leaf::Enum(number)),
        None => Err(Refusal {
            kind: RefusalKind::NameUnknown,
            place,
        }),
    }
}

/// A value under an enum: the JSON name of an enumerant, of which the first that has it counts, or a whole number
/// from 0 to 65,535, whether or not an enumerant has it.
///
/// Refused with `WrongJsonKind` where it is anything else, with `NameUnknown` where no enumerant has the name, and with
/// `NumberOutOfRange` where the number is another.
pub fn read_enum(schema: EnumSchema<'_>, look: &Look<'_>, place: usize) -> Result<Leaf, Refusal>
    ensures read { (rules : Rules) → rules.set ≡ enum_set schema.entry →
        (whole levels : ℕ) (part : Part) (is_float : Bool) (form : DataForm) →
        leaf_read result ≡ value_of_json rules (look_seen whole place look.now) levels
        (under (EnumType (enum_number schema.entry)) part is_float form) }
    ensures typed { IfOk result (λ l. is_typed (EnumType (enum_number schema.entry)) l ≡ true) }
{
    match look {
        Look::Null => Err(wrong_kind(place)),
        Look::Truth(_truth) => Err(wrong_kind(place)),
        Look::Number(token) => enum_leaf(token, place),
        Look::Text(content) => named_leaf(schema, content, place),
        Look::Array(_behind) => Err(wrong_kind(place)),
        Look::Object(_behind) => Err(wrong_kind(place)),
    }
}
