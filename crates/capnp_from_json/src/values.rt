//! Leaves under their types, from the bytes on with which their values begin.
ghost use Rattle.std.specs.Prelude.{ℕ, Bool, true, false, ◌≡◌, ◌-◌, length, IfOk, Some};
ghost use Rattle.std.specs.Option.{option_map};
ghost use Rattle.capnp_base.specs.declared.introspect.TypeVariant.TheVariants as variant;
ghost use Rattle.capnp_schema.specs.Entries.{lists_seen};
ghost use Rattle.capnp_schema.specs.Types.{DataType, SchemaType, TextType, seen_variant};
ghost use Rattle.capnp_json_text.specs.Readings.{after_blanks};
ghost use Rattle.capnp_json_text.specs.declared.kinds.Bracket.TheVariants.{Square};
ghost use Rattle.capnp_json_text.specs.Values.{elements_of, first_item, json_at};
ghost use Rattle.capnp_json_fields.specs.declared.fields.DataForm.{DataForm};
ghost use Rattle.capnp_from_json.specs.Leaves.{AreFloats, Part};
ghost use Rattle.capnp_from_json.specs.LeafReads.{IsLeafOf, is_leaf, is_plain, is_typed, leaf_read, may_be_float, under};
ghost use Rattle.capnp_from_json.specs.Looks.{look_seen};
ghost use Rattle.capnp_from_json.specs.Records.{Rules, byte_target, data_array, element_count, elements_of_json, value_of_json};

use crate::elements::read_data;
use crate::encodings::read_encoded;
use crate::error::{Error, Refusal};
use crate::leaves::{
    IntegerType, Leaf, read_enum, read_float, read_integer, read_text, read_truth, read_untyped,
    read_void, wrong_kind,
};
use crate::looks::{Look, look_at};
use capnp_base::introspect::TypeVariant;
use capnp_floats::width::Width;
use capnp_json_fields::fields::DataForm;
use capnp_json_text::items::first_item;
use capnp_json_text::kinds::Bracket;
use capnp_json_text::rest::skip_blanks;
use capnp_schema::set::SchemaSet;
use std::alloc::Global;

/// A value under a type of leaves that are no texts and no data.
///
/// Refused as the read of its type.
fn read_plain(
    schemas: &SchemaSet,
    of: TypeVariant,
    is_float: bool,
    look: &Look<'_>,
    place: usize,
) -> Result<Leaf, Refusal>
    requires plain { is_plain of ≡ true }
    requires floats { is_float ≡ true → may_be_float of ≡ true }
    ensures read { (rules : Rules) → rules.set ≡ lists_seen schemas.now → AreFloats rules.floats →
        (whole levels : ℕ) (part : Part) (form : DataForm) → leaf_read result
        ≡ value_of_json rules (look_seen whole place look.now) levels (under (seen_variant of) part is_float form) }
    ensures typed { IfOk result (λ l. is_typed (seen_variant of) l ≡ true) }
{
    match of {
        TypeVariant::Void => read_void(look, place),
        TypeVariant::Bool => read_truth(look, place),
        TypeVariant::Int8 => read_integer(IntegerType::Int8, look, place),
        TypeVariant::Int16 => read_integer(IntegerType::Int16, look, place),
        TypeVariant::Int32 => read_integer(IntegerType::Int32, look, place),
        TypeVariant::Int64 => read_integer(IntegerType::Int64, look, place),
        TypeVariant::UInt8 => read_integer(IntegerType::UInt8, look, place),
        TypeVariant::UInt16 => read_integer(IntegerType::UInt16, look, place),
        TypeVariant::UInt32 => {
            if is_float {
                read_float(Width::Float32, look, place)
            } else {
                read_integer(IntegerType::UInt32, look, place)
            }
        }
        TypeVariant::UInt64 => {
            if is_float {
                read_float(Width::Float64, look, place)
            } else {
                read_integer(IntegerType::UInt64, look, place)
            }
        }
        TypeVariant::AnyPointer => read_untyped(look, place),
        TypeVariant::Enum(raw) => read_enum(schemas.enum_schema(raw.number), look, place),
        TypeVariant::Text => Err(wrong_kind(place)),
        TypeVariant::Data => Err(wrong_kind(place)),
        TypeVariant::Struct(_raw) => Err(wrong_kind(place)),
        TypeVariant::List(_element) => Err(wrong_kind(place)),
    }
}

/// A leaf that was read, or its refusal.
fn answer(read: Result<Leaf, Refusal>) -> Result<Leaf, Error>
    ensures read { IsLeafOf (leaf_read read) result }
    ensures same { (of : SchemaType) → IfOk read (λ l. is_typed of l ≡ true) → IfOk result (λ l. is_typed of l ≡ true) }
{
    match read {
        Ok(leaf) => Ok(leaf),
        Err(refusal) => Err(Error::Refused(refusal)),
    }
}

/// A value under a type of leaves that are no texts and no data, or why none was read.
fn read_other(
    schemas: &SchemaSet,
    of: TypeVariant,
    is_float: bool,
    look: &Look<'_>,
    place: usize,
) -> Result<Leaf, Error>
    requires plain { is_plain of ≡ true }
    requires floats { is_float ≡ true → may_be_float of ≡ true }
    ensures read { (rules : Rules) → rules.set ≡ lists_seen schemas.now → AreFloats rules.floats →
        (whole levels : ℕ) (part : Part) (form : DataForm) → IsLeafOf
        (value_of_json rules (look_seen whole place look.now) levels (under (seen_variant of) part is_float form)) result }
    ensures typed { IfOk result (λ l. is_typed (seen_variant of) l ≡ true) }
{
    answer(read_plain(schemas, of, is_float, look, place))
}

/// Data of a form where an array stands.
fn read_array(
    alloc: Global,
    form: DataForm,
    whole: usize,
    behind: &[u8],
    place: usize,
) -> Result<Leaf, Error>
    ensures read { (rules : Rules) (levels : ℕ) → IsLeafOf (data_array place form
        (element_count (elements_of (json_at whole) (first_item Square (after_blanks behind.now))))
        (elements_of_json rules (elements_of (json_at whole) (first_item Square (after_blanks behind.now))) levels byte_target))
        result }
    ensures typed { IfOk result (λ l. is_typed DataType l ≡ true) }
{
    match form {
        DataForm::Array => read_data(
            alloc,
            whole,
            first_item(Bracket::Square, skip_blanks(behind)),
            place,
        ),
        DataForm::Base64 => Err(Error::Refused(wrong_kind(place))),
        DataForm::Hexadecimal => Err(Error::Refused(wrong_kind(place))),
    }
}

/// Data of a form.
fn read_data_of(
    alloc: Global,
    form: DataForm,
    whole: usize,
    look: Look<'_>,
    place: usize,
) -> Result<Leaf, Error>
    ensures read { (rules : Rules) (levels : ℕ) (part : Part) (is_float : Bool) → IsLeafOf
        (value_of_json rules (look_seen whole place look.entry) levels (under DataType part is_float form)) result }
    ensures typed { IfOk result (λ l. is_typed DataType l ≡ true) }
{
    match look {
        Look::Null => Ok(Leaf::Null),
        Look::Truth(_truth) => Err(Error::Refused(wrong_kind(place))),
        Look::Number(_token) => Err(Error::Refused(wrong_kind(place))),
        Look::Text(content) => read_encoded(alloc, form, &content, place),
        Look::Array(behind) => read_array(alloc, form, whole, behind, place),
        Look::Object(_behind) => Err(Error::Refused(wrong_kind(place))),
    }
}

/// What a value is, as a leaf of a type.
fn read_looked(
    alloc: Global,
    schemas: &SchemaSet,
    of: TypeVariant,
    is_float: bool,
    form: DataForm,
    whole: usize,
    look: Look<'_>,
    place: usize,
) -> Result<Leaf, Error>
    requires leaf { is_leaf of ≡ true }
    requires floats { is_float ≡ true → may_be_float of ≡ true }
    ensures read { (rules : Rules) → rules.set ≡ lists_seen schemas.now → AreFloats rules.floats →
        (levels : ℕ) (part : Part) → IsLeafOf
        (value_of_json rules (look_seen whole place look.entry) levels
        (under (seen_variant of) part is_float form)) result }
    ensures typed { IfOk result (λ l. is_typed (seen_variant of) l ≡ true) }
{
    match of {
        TypeVariant::Text => answer(read_text(look, place)),
        TypeVariant::Data => read_data_of(alloc, form, whole, look, place),
        _ => read_other(schemas, of, is_float, &look, place),
    }
}

/// The leaf that is the value with which bytes begin, the last ones of a text of so many, under a type. Data is read in
/// its form: as an array, in base64 or by hexadecimal digits. `is_float` says that integers of 32 or 64 bits are floats
/// by their bits.
///
/// Refused with `OutOfMemory`; with `WrongJsonKind` for a value of a kind that the type does not take, and for a string
/// that is not in the form of data; with `NumberOutOfRange`, `NameUnknown` or `SizePastFormat`. The place is that of the
/// value, or of an element of data.
///
/// # Conditions
///
/// The type is neither a struct nor a list (`is_leaf`). Where `is_float` is true, it is UInt32 or UInt64
/// (`may_be_float`).
pub fn read_leaf(
    alloc: Global,
    schemas: &SchemaSet,
    of: TypeVariant,
    is_float: bool,
    form: DataForm,
    whole: usize,
    bytes: &[u8],
) -> Result<Leaf, Error>
    requires leaf { is_leaf of ≡ true }
    requires floats { is_float ≡ true → may_be_float of ≡ true }
    ensures read { (rules : Rules) → rules.set ≡ lists_seen schemas.now → AreFloats rules.floats →
        (levels : ℕ) (part : Part) → IsLeafOf
        (value_of_json rules (json_at whole bytes.now) levels (under (seen_variant of) part is_float form)) result }
    ensures typed { IfOk result (λ l. is_typed (seen_variant of) l ≡ true) }
{
    match look_at(alloc, bytes) {
        Ok(look) => {
            let place = whole.saturating_sub(bytes.len());
            read_looked(alloc, schemas, of, is_float, form, whole, look, place)
        }
        Err(_memory) => Err(Error::OutOfMemory),
    }
}
