//! Floats as text.
ghost use Rattle.std.specs.Prelude.{ℕ, List, [], ◌++◌, ◌≡◌, ◌+◌, ◌-◌, ◌<◌, ◌≤◌, ◌^◌, Bool, IfOk, OnOk, length, replicate, string_bytes};
ghost use Rattle.std.specs.Str.{IsAscii};
ghost use Rattle.capnp_floats.specs.Floats.{fraction, is_finite};
ghost use Rattle.capnp_floats.specs.Layout.{AppendsFloat, IsFloatText, digits_text, few_places, is_negative, is_plain, layout, many_places, others_text, places_for, plain_text, power_text, scientific_text, sign_text, two_digits_text};

use crate::decimal::{Decimal, decimal_of, tens_of, tenths_of};
use crate::width::{Width, fraction, is_negative};
use std::alloc::{AllocError, Global};

/// Appends bytes of which each is a character.
fn put_bytes(out: &mut String, bytes: &[u8]) -> Result<(), AllocError>
    requires { IsAscii bytes.now }
    ensures put { OnOk result (string_bytes out.new ≡ string_bytes out.old ++ bytes.now) }
{
    let Ok(text) = std::str::from_utf8(bytes) else {
        unreachable!()
    };
    out.push_str(text)
}

/// Appends so many zeros.
fn put_zeros(out: &mut String, count: u64) -> Result<(), AllocError>
    ensures put { OnOk result (string_bytes out.new ≡ string_bytes out.old ++ replicate count 48) }
{
    for i in 0..count {
        out.push('0')?;
    }
    Ok(())
}

/// How many places before the point a text without exponent may have.
fn places_for(width: Width, count: u64) -> u64
    ensures value { result ≡ places_for width count }
    ensures few { result ≤ 17 }
{
    let (few, many) = match width {
        Width::Float32 => (6, 8),
        Width::Float64 => (15, 17),
    };
    if count <= few { few } else { many }
}

/// Whether a decimal stands without exponent.
fn is_plain(width: Width, count: u64, up: u64, down: u64) -> bool
    requires count { count < 2 ^ 32 }
    requires up { up < 2 ^ 32 }
    requires down { down < 2 ^ 32 }
    ensures { result ≡ is_plain width count up down }
{
    down <= count + up + 3 && count + up <= places_for(width, count) + down
}

/// Appends digits without exponent.
fn put_plain(out: &mut String, digits: &[u8], up: u64, down: u64) -> Result<(), AllocError>
    requires ascii { IsAscii digits.now }
    ensures put { OnOk result (string_bytes out.new ≡ string_bytes out.old ++ plain_text digits.now up down) }
{
    let count = digits.len() as u64;
    if down == 0 {
        put_bytes(out, digits)?;
        return put_zeros(out, up);
    }
    if down < count {
        let whole = (count - down) as usize;
        put_bytes(out, &digits[..whole])?;
        out.push_str(".")?;
        return put_bytes(out, &digits[whole..]);
    }
    out.push_str("0.")?;
    put_zeros(out, down - count)?;
    put_bytes(out, digits)
}

/// Appends a number in at least two digits.
fn put_two_digits(out: &mut String, number: u64) -> Result<(), AllocError>
    ensures put { OnOk result (string_bytes out.new ≡ string_bytes out.old ++ two_digits_text number) }
{
    if number < 10 {
        write!(out, "0{number}")
    } else {
        write!(out, "{number}")
    }
}

/// Appends a power of ten.
fn put_power(out: &mut String, up: u64, down: u64) -> Result<(), AllocError>
    ensures put { OnOk result (string_bytes out.new ≡ string_bytes out.old ++ power_text up down) }
{
    if up < down {
        out.push_str("e-")?;
        put_two_digits(out, down - up)
    } else {
        out.push_str("e")?;
        put_two_digits(out, up - down)
    }
}

/// Appends digits behind the first, and a point before them.
fn put_others(out: &mut String, digits: &[u8]) -> Result<(), AllocError>
    requires ascii { IsAscii digits.now }
    ensures put { OnOk result (string_bytes out.new ≡ string_bytes out.old ++ others_text digits.now) }
{
    if digits.len() > 1 {
        out.push_str(".")?;
        put_bytes(out, &digits[1..])?;
    }
    Ok(())
}

/// Appends digits with their exponent.
fn put_scientific(out: &mut String, digits: &[u8], up: u64, down: u64) -> Result<(), AllocError>
    requires ascii { IsAscii digits.now }
    requires some { 0 < length digits.now }
    requires up { up < 2 ^ 32 }
    ensures put { OnOk result (string_bytes out.new ≡ string_bytes out.old ++ scientific_text digits.now up down) }
{
    put_bytes(out, &digits[..1])?;
    put_others(out, digits)?;
    put_power(out, digits.len() as u64 - 1 + up, down)
}

/// Appends digits with as many tens and tenths.
fn put_digits(
    out: &mut String,
    width: Width,
    digits: &[u8],
    up: u64,
    down: u64,
) -> Result<(), AllocError>
    requires ascii { IsAscii digits.now }
    requires some { 0 < length digits.now }
    requires few { length digits.now < 2 ^ 32 }
    requires up { up < 2 ^ 32 }
    requires down { down < 2 ^ 32 }
    ensures put { OnOk result (string_bytes out.new ≡ string_bytes out.old ++ digits_text width digits.now up down) }
{
    if is_plain(width, digits.len() as u64, up, down) {
        put_plain(out, digits, up, down)
    } else {
        put_scientific(out, digits, up, down)
    }
}

/// Appends a decimal as text. Without exponent it has at most 15 places before the point under `Width::Float64`, and 17
/// where it has more than 15 digits; under `Width::Float32` 6 and 8.
///
/// Where memory is refused, a part of the text may stand there.
pub fn put_decimal(out: &mut String, width: Width, decimal: Decimal) -> Result<(), AllocError>
    ensures put { OnOk result (string_bytes out.new ≡ string_bytes out.old ++ layout width decimal.digits decimal.exponent) }
{
    // most texts have no more bytes, so that the string grows once
    out.reserve(24)?;
    let mut digits = String::new(*out.allocator());
    let number = decimal.digits;
    write!(digits, "{number}")?;
    put_digits(
        out,
        width,
        digits.as_bytes(),
        tens_of(decimal.exponent),
        tenths_of(decimal.exponent),
    )
}

/// Appends `-` where the sign is set.
fn put_sign(out: &mut String, width: Width, bits: u64) -> Result<(), AllocError>
    ensures put { OnOk result (string_bytes out.new ≡ string_bytes out.old ++ sign_text (is_negative width bits)) }
{
    if is_negative(width, bits) {
        out.push_str("-")?;
    }
    Ok(())
}

/// Appends a number as text: `-0.5`, `1e-07`, `inf`, `-inf`, `nan`. Its decimal is the shortest that is nearer to it than
/// to any other number of its width.
///
/// `bits` are those of the number, of which a width of 32 has the lowest 32. Where memory is refused, a part of the text
/// may stand there.
pub fn put_float(out: &mut String, width: Width, bits: u64) -> Result<(), AllocError>
    ensures put { OnOk result (AppendsFloat width bits (string_bytes out.old) (string_bytes out.new)) }
{
    let Some(decimal) = decimal_of(width, bits) else {
        if fraction(width, bits) != 0 {
            return out.push_str("nan");
        }
        put_sign(out, width, bits)?;
        return out.push_str("inf");
    };
    put_sign(out, width, bits)?;
    put_decimal(out, width, decimal)
}

/// A number's text, as `put_float` appends it.
///
/// `bits` are those of the number, of which a width of 32 has the lowest 32. Refused where there is no memory.
pub fn float_text(alloc: Global, width: Width, bits: u64) -> Result<String, AllocError>
    ensures { IfOk result (λ text. IsFloatText width bits (string_bytes text)) }
{
    let mut out = String::new(alloc);
    put_float(&mut out, width, bits)?;
    Ok(out)
}
