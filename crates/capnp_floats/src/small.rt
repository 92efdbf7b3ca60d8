//! The binary floating point number that is nearest to a decimal of few digits and a small power of ten, by numbers of 128
//! bits.
ghost use Rattle.std.specs.Prelude.{ℕ, ◌≡◌, ◌+◌, ◌*◌, ◌^◌, ◌<◌, ◌≤◌, ◌%◌, ◌⊎◌, IfSome};
ghost use Rattle.capnp_floats.specs.Floats.{fraction_bits};
ghost use Rattle.capnp_floats.specs.Nearest.{infinity_bits, least_places};
ghost use Rattle.capnp_floats.specs.Steps.Nearing.{IsChosen};

use crate::nearest::{infinity_bits, least_places};
use crate::width::{Width, fraction_end, precision};

/// A number times a power. None where it does not fit.
pub(crate) fn times(number: u128, base: u128, exponent: u32) -> Option<u128>
    ensures { IfSome result (λ n. n ≡ number * base ^ exponent) }
{
    let power = base.checked_pow(exponent)?;
    let product = number.checked_mul(power)?;
    Some(product)
}

/// A value in parts, `value / parts` in units of a place: `number / tenths` least numbers are it. None where that does not fit.
fn in_places(width: Width, number: u128, tenths: u128, place: u32) -> Option<(u128, u128)>
    requires { place < 2048 }
    ensures { IfSome result (λ r. (s : ℕ) × (r.0 * 2 ^ s ≡ number * 2 ^ least_places width) × (r.1 * 2 ^ s ≡ tenths * 2 ^ place)) }
{
    let least = least_places(width);
    if place <= least {
        let value = times(number, 2, least - place)?;
        Some((value, tenths))
    } else {
        let parts = times(tenths, 2, place - least)?;
        Some((number, parts))
    }
}

/// The bits of a number by its significand and the place of that. None where there is no such finite number.
fn bits_of(width: Width, significand: u128, place: u32) -> Option<u64>
    requires { place < 2048 }
    ensures some { IfSome result (λ bits. (bits < infinity_bits width) × (bits ≡ place * 2 ^ fraction_bits width + significand)) }
    ensures normal { IfSome result (λ bits. 0 < place → 2 ^ fraction_bits width ≤ significand) }
    ensures few { IfSome result (λ bits. significand < 2 * 2 ^ fraction_bits width) }
{
    let end = fraction_end(width);
    if significand >= 2 * end as u128 {
        return None;
    }
    if place > 0 && significand < end as u128 {
        return None;
    }
    let bits = place as u64 * end + significand as u64;
    if bits < infinity_bits(width) {
        Some(bits)
    } else {
        None
    }
}

/// A number or the next, by what is left of a value in so many parts; of two the even one.
fn nearer_of(bits: u64, rest: u128, parts: u128) -> u64
    requires bits { bits < 2 ^ 63 }
    requires less { rest < parts }
    ensures { ((result ≡ bits) × ((2 * rest < parts) ⊎ ((2 * rest ≡ parts) × (bits % 2 ≡ 0))))
        ⊎ ((result ≡ bits + 1) × ((parts < 2 * rest) ⊎ ((2 * rest ≡ parts) × (bits % 2 ≡ 1)))) }
{
    let other = parts - rest;
    if rest < other {
        return bits;
    }
    if other < rest {
        return bits + 1;
    }
    bits + bits % 2
}

/// The number that is nearest to `number / tenths` least numbers times `2^least`, where its significand has the given
/// place. None where it has another, or where that does not fit.
fn chosen_at(width: Width, number: u128, tenths: u128, place: u32) -> Option<u64>
    requires tenths { 0 < tenths }
    requires place { place < 2048 }
    ensures { IfSome result (λ bits. IsChosen width (number * 2 ^ least_places width) tenths bits) }
{
    let (value, parts) = in_places(width, number, tenths, place)?;
    let significand = value.checked_div(parts)?;
    let rest = value.checked_rem(parts)?;
    let bits = bits_of(width, significand, place)?;
    Some(nearer_of(bits, rest, parts))
}

/// About the place that the significand of the nearest number has, or one less.
fn guess_place(width: Width, number: u128, tenths: u128) -> u32
    ensures { result < 2047 }
{
    let high = 128u32.saturating_sub(number.leading_zeros());
    let low = 128u32.saturating_sub(tenths.leading_zeros());
    (least_places(width) + high).saturating_sub(low + precision(width))
}

/// The number that is nearest to `digits * 10^up / 10^down`. None where that is not found by numbers of 128 bits.
pub(crate) fn chosen_small(width: Width, digits: u64, up: u32, down: u32) -> Option<u64>
    ensures { IfSome result (λ bits. IsChosen width (digits * 10 ^ up * 2 ^ least_places width) (10 ^ down) bits) }
{
    let number = times(digits as u128, 10, up)?;
    let tenths = times(1, 10, down)?;
    if tenths == 0 {
        return None;
    }
    let place = guess_place(width, number, tenths);
    if let Some(bits) = chosen_at(width, number, tenths, place) {
        return Some(bits);
    }
    chosen_at(width, number, tenths, place + 1)
}
