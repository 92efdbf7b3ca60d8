//! Values that are no structs and no lists.
ghost use Rattle.std.specs.Prelude.{◌≡◌, IfErr, OnOk, cond, decimal, slice_get};
ghost use Rattle.capnp_floats.specs.declared.width.Width.TheVariants.{Float32, Float64};
ghost use Rattle.capnp_schema.specs.Enums.{enum_in};
ghost use Rattle.capnp_dynamic_readers.specs.Handles.{enum_of, enum_value_number};
ghost use Rattle.capnp_dynamic_readers.specs.Steps.Leaf.{IsLeaf};
ghost use Rattle.capnp_json.specs.Leaves.{float_json, name_or, quoted};
ghost use Rattle.capnp_json.specs.Pieces.{said};
ghost use Rattle.capnp_json.specs.Steps.Leaf.{leaf_json};
ghost use Rattle.capnp_json.specs.Steps.Puts.{IsPut, IsStopped};

use crate::data::put_data;
use crate::error::JsonError;
use crate::floats::put_float;
use crate::forms::Form;
use crate::numbers::{put_signed, put_unsigned, put_wide_signed, put_wide_unsigned};
use crate::output::Output;
use crate::strings::put_text;
use capnp_dynamic_readers::dynamic_value::{Enum, Reader};
use capnp_floats::width::Width;
use capnp_json_fields::names::json_enumerant_name;

/// Appends a number of 32 bits, or the float of these bits.
fn put_narrow(out: &mut Output, is_float: bool, number: u32) -> Result<(), JsonError>
    ensures put { OnOk result (IsPut out.old (cond is_float (float_json Float32 number) (said (decimal number))) out.new) }
    ensures stopped { IfErr result (IsStopped out.old (cond is_float (float_json Float32 number) (said (decimal number)))) }
{
    if is_float {
        put_float(out, Width::Float32, number as u64)
    } else {
        put_unsigned(out, number as u64)
    }
}

/// Appends a number of 64 bits, or the float of these bits.
fn put_wide(out: &mut Output, is_float: bool, number: u64) -> Result<(), JsonError>
    ensures put { OnOk result (IsPut out.old (cond is_float (float_json Float64 number) (said (quoted (decimal number))))
        out.new) }
    ensures stopped { IfErr result (IsStopped out.old (cond is_float (float_json Float64 number)
        (said (quoted (decimal number))))) }
{
    if is_float {
        put_float(out, Width::Float64, number)
    } else {
        put_wide_unsigned(out, number)
    }
}

/// Appends an enum by its enumerant's name, and past the enumerants by its number.
#[tactic(auto, using(crate::proofs::LeafJsons::name_there, crate::proofs::LeafJsons::name_past))]
fn put_enum(out: &mut Output, value: Enum<'_>) -> Result<(), JsonError>
    ensures put { OnOk result (IsPut out.old (name_or (enum_value_number value.entry)
        (slice_get (enum_in (enum_of value.entry)).enumerants (enum_value_number value.entry))) out.new) }
    ensures stopped { IfErr result (IsStopped out.old (name_or (enum_value_number value.entry)
        (slice_get (enum_in (enum_of value.entry)).enumerants (enum_value_number value.entry)))) }
{
    match value.get_enumerant() {
        Ok(Some(enumerant)) => put_text(out, json_enumerant_name(enumerant)),
        _ => put_unsigned(out, value.get_value() as u64),
    }
}

/// Appends a value that is no struct and no list.
pub(crate) fn put_leaf(
    out: &mut Output,
    at: Option<u64>,
    form: Form,
    value: Reader<'_>,
) -> Result<(), JsonError>
    requires { IsLeaf value }
    ensures put { OnOk result (IsPut out.old (leaf_json at form value.entry) out.new) }
    ensures stopped { IfErr result (IsStopped out.old (leaf_json at form value.entry)) }
{
    match value {
        Reader::Void => out.put(b"null"),
        Reader::Bool(true) => out.put(b"true"),
        Reader::Bool(false) => out.put(b"false"),
        Reader::Int8(number) => put_signed(out, i64::from(number)),
        Reader::Int16(number) => put_signed(out, i64::from(number)),
        Reader::Int32(number) => put_signed(out, i64::from(number)),
        Reader::Int64(number) => put_wide_signed(out, number),
        Reader::UInt8(number) => put_unsigned(out, u64::from(number)),
        Reader::UInt16(number) => put_unsigned(out, u64::from(number)),
        Reader::UInt32(number) => put_narrow(out, form.floats, number),
        Reader::UInt64(number) => put_wide(out, form.floats, number),
        Reader::Enum(inner) => put_enum(out, inner),
        Reader::Text(text) => put_text(out, text.as_bytes()),
        Reader::Data(bytes) => put_data(out, form.bytes, at, bytes),
        Reader::AnyPointer(_) => Err(JsonError::UntypedHasNoJson),
        Reader::Struct(_) | Reader::List(_) => unreachable!(),
    }
}
