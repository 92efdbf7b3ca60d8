//! The parts of a binary floating point number.
ghost use Rattle.std.specs.Prelude.{◌≡◌, ◌+◌, ◌^◌, ◌<◌, ◌≤◌, ◌-◌};
ghost use Rattle.capnp_floats.specs.Floats.{exponent, exponent_bits, fraction, fraction_bits, gap_below, quarter_places, significand};
ghost use Rattle.capnp_floats.specs.Layout.{is_negative};

/// A width of binary floating point numbers: 32 or 64 bits.
#[derive(Clone, Copy, Drop)]
pub enum Width {
    Float32,
    Float64,
}

/// The power of two that fractions are below.
pub(crate) fn fraction_end(width: Width) -> u64
    ensures value { result ≡ 2 ^ fraction_bits width }
    ensures positive { 0 < result }
    ensures few { result ≤ 4503599627370496 }
{
    match width {
        Width::Float32 => 8388608,
        Width::Float64 => 4503599627370496,
    }
}

/// The bits of a significand that is not cut short.
pub(crate) fn precision(width: Width) -> u32
    ensures few { result ≤ 53 }
{
    match width {
        Width::Float32 => 24,
        Width::Float64 => 53,
    }
}

/// The power of two that exponents are below.
pub(crate) fn exponent_end(width: Width) -> u64
    ensures value { result ≡ 2 ^ exponent_bits width }
    ensures many { 2 ≤ result }
    ensures few { result ≤ 2048 }
{
    match width {
        Width::Float32 => 256,
        Width::Float64 => 2048,
    }
}

/// How often one is halved down to a quarter of the least number.
pub(crate) fn quarter_places(width: Width) -> u64
    ensures value { result ≡ quarter_places width }
    ensures few { result ≤ 1076 }
{
    match width {
        Width::Float32 => 151,
        Width::Float64 => 1076,
    }
}

/// The bits of the fraction.
pub(crate) fn fraction(width: Width, bits: u64) -> u64
    ensures value { result ≡ fraction width bits }
    ensures few { result < 4503599627370496 }
{
    bits % fraction_end(width)
}

/// The bits of the exponent.
pub(crate) fn exponent(width: Width, bits: u64) -> u64
    ensures value { result ≡ exponent width bits }
    ensures few { result < 2048 }
{
    bits / fraction_end(width) % exponent_end(width)
}

/// The significand: the fraction, behind a one where the exponent is not zero.
pub(crate) fn significand(width: Width, bits: u64) -> u64
    ensures value { result ≡ significand width bits }
    ensures few { result < 9007199254740992 }
{
    let part = fraction(width, bits);
    if exponent(width, bits) == 0 {
        part
    } else {
        part + fraction_end(width)
    }
}

/// How far the lower end is, in quarters of the last place: one below a power of two, else two.
pub(crate) fn gap_below(width: Width, bits: u64) -> u64
    ensures value { result ≡ gap_below width bits }
    ensures positive { 1 ≤ result }
    ensures few { result ≤ 2 }
{
    if fraction(width, bits) == 0 && exponent(width, bits) > 1 {
        1
    } else {
        2
    }
}

/// The bit of the sign.
pub(crate) fn sign_bit(width: Width) -> u64
    ensures value { result ≡ 2 ^ (fraction_bits width + exponent_bits width) }
    ensures few { result ≤ 2 ^ 63 }
{
    match width {
        Width::Float32 => 2147483648,
        Width::Float64 => 9223372036854775808,
    }
}

/// Whether the sign is set.
pub(crate) fn is_negative(width: Width, bits: u64) -> bool
    ensures { result ≡ is_negative width bits }
{
    let sign = match width {
        Width::Float32 => bits / 2147483648 % 2,
        Width::Float64 => bits / 9223372036854775808 % 2,
    };
    sign == 1
}
