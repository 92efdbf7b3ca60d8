//! Floats as they are written.
ghost use Rattle.std.specs.Prelude.{[], ◌∷◌, ◌≡◌, ◌==◌, IfErr, IfOk, IfSome, OnOk, Ok, false, string_bytes, true};
ghost use Rattle.capnp_floats.specs.Floats.{IsDecimalOf, fraction, is_finite};
ghost use Rattle.capnp_floats.specs.Layout.{is_negative};
ghost use Rattle.capnp_json.specs.Leaves.{float_json, infinite_json};
ghost use Rattle.capnp_json.specs.Pieces.{FloatNumber, IsNumberOf};
ghost use Rattle.capnp_json.specs.Steps.Puts.{IsPut, IsStopped};

use crate::error::JsonError;
use crate::output::Output;
use capnp_floats::decimal::{Decimal, decimal_of};
use capnp_floats::laws::decimals_are_unique;
use capnp_floats::text::put_decimal;
use capnp_floats::width::Width;
use std::alloc::{AllocError, Global};

/// Whether the sign is set.
fn is_negative(width: Width, bits: u64) -> bool
    ensures { result ≡ is_negative width bits }
{
    let sign = match width {
        Width::Float32 => bits / 2147483648 % 2,
        Width::Float64 => bits / 9223372036854775808 % 2,
    };
    sign == 1
}

/// Whether no bit of the fraction is set.
fn has_no_fraction(width: Width, bits: u64) -> bool
    ensures { result ≡ (fraction width bits == 0) }
{
    let fraction = match width {
        Width::Float32 => bits % 8388608,
        Width::Float64 => bits % 4503599627370496,
    };
    fraction == 0
}

/// The number of these bits, which have this decimal.
fn number_text(
    alloc: Global,
    width: Width,
    bits: u64,
    decimal: Decimal,
) -> Result<String, AllocError>
    requires { IsDecimalOf width bits decimal.digits decimal.exponent }
    ensures { IfOk result (λ text. IsNumberOf width bits (string_bytes text)) }
{
    let mut text = String::new(alloc);
    if is_negative(width, bits) {
        text.push_str("-")?;
    }
    put_decimal(&mut text, Width::Float64, decimal)?;
    Ok(text)
}

/// Appends the number of these bits.
fn put_number(out: &mut Output, width: Width, bits: u64, decimal: Decimal) -> Result<(), JsonError>
    requires { IsDecimalOf width bits decimal.digits decimal.exponent }
    ensures put { OnOk result (IsPut out.old (Ok (FloatNumber width bits ∷ [])) out.new) }
    ensures stopped { IfErr result (IsStopped out.old (Ok (FloatNumber width bits ∷ []))) }
{
    // The prover learns from this call that the number has no other text.
    decimals_are_unique();
    match number_text(out.allocator(), width, bits, decimal) {
        Ok(text) => out.put(text.as_bytes()),
        Err(_) => Err(JsonError::OutOfMemory),
    }
}

/// Appends what is said of bits that are no finite float.
fn put_infinite(out: &mut Output, width: Width, bits: u64) -> Result<(), JsonError>
    ensures put { OnOk result (IsPut out.old (infinite_json width bits) out.new) }
    ensures stopped { IfErr result (IsStopped out.old (infinite_json width bits)) }
{
    if !has_no_fraction(width, bits) {
        return out.put(b"\"NaN\"");
    }
    if is_negative(width, bits) {
        return out.put(b"\"-Infinity\"");
    }
    out.put(b"\"Infinity\"")
}

/// Appends a float by its bits, of which a width of 32 has the lowest 32.
pub(crate) fn put_float(out: &mut Output, width: Width, bits: u64) -> Result<(), JsonError>
    ensures put { OnOk result (IsPut out.old (float_json width bits) out.new) }
    ensures stopped { IfErr result (IsStopped out.old (float_json width bits)) }
{
    match decimal_of(width, bits) {
        Some(decimal) => put_number(out, width, bits, decimal),
        None => put_infinite(out, width, bits),
    }
}
