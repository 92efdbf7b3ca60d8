//! How the values of a field are written.
ghost use Rattle.std.specs.Prelude.{◌≡◌};
ghost use Rattle.capnp_schema.specs.FieldLists.{typed_of};
ghost use Rattle.capnp_schema.specs.Types.{seen_type};
ghost use Rattle.capnp_json_fields.specs.Marks.{data_form, has_float_base, is_float};

use crate::annotations::is_annotated;
use capnp_base::introspect::{Type, TypeVariant};
use capnp_schema::schema::Field;

/// The annotation that says that a field's numbers are floats.
pub const FLOAT_ID: u64 = 0xf20f_bfb0_8027_d505;

/// The annotation `base64` of json.capnp.
pub const BASE64_ID: u64 = 0xd7d8_7945_0a25_3e4b;

/// The annotation `hex` of json.capnp.
pub const HEX_ID: u64 = 0xf061_e22f_0ae5_c7b5;

/// How JSON writes data.
#[derive(Clone, Copy, Debug, PartialEq, Eq)]
pub enum DataForm {
    /// An array of its bytes as numbers.
    Array,
    /// A string in base64 by RFC 4648, with padding.
    Base64,
    /// A string of two digits for each byte.
    Hexadecimal,
}

/// Whether the numbers of a field are floats, which stand as integers with the same bits: where the field is marked so,
/// and its type, inside its lists, is `UInt32` or `UInt64`.
pub fn is_float(field: Field<'_>) -> bool
    ensures { result ≡ is_float (typed_of field.entry) }
{
    if !is_annotated(&field.get_proto().annotations, FLOAT_ID) {
        return false;
    }
    has_float_base(field.get_type())
}

/// Whether a type, inside its lists, is one by which floats stand.
fn has_float_base(of: Type) -> bool
    ensures { result ≡ has_float_base (seen_type of) }
{
    match of.innermost() {
        TypeVariant::UInt32 => true,
        TypeVariant::UInt64 => true,
        _ => false,
    }
}

/// How data of a field is written: in base64 or by digits where the field is of type `Data`, no list, and annotated so.
/// Base64 counts where both stand.
pub fn data_form(field: Field<'_>) -> DataForm
    ensures { result ≡ data_form (typed_of field.entry) }
{
    let TypeVariant::Data = field.get_type().which() else {
        return DataForm::Array;
    };
    let annotations = &field.get_proto().annotations;
    if is_annotated(annotations, BASE64_ID) {
        return DataForm::Base64;
    }
    if is_annotated(annotations, HEX_ID) {
        return DataForm::Hexadecimal;
    }
    DataForm::Array
}
