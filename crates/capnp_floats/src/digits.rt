//! Decimal digits of any number.
ghost use Rattle.std.specs.Prelude.{ℕ, ◌≡◌, ◌+◌, ◌-◌, ◌*◌, ◌^◌, ◌<◌, ◌≤◌, IfSome, length};
ghost use Rattle.capnp_floats.specs.Words.{digits_among, with_digit};
ghost use Rattle.capnp_floats.specs.Steps.Digits.{AreDigits, HoldsDigits, IsCapped};

use crate::large::Large;

/// A natural by its digits. No float and no middle between two has more than 768 digits, so of more than 800 it is
/// enough to know whether all others are 0.
#[derive(Drop)]
pub(crate) struct Digits {
    /// The natural of the first digits.
    pub(crate) front: Large,
    /// How many these are: at most 800, from the first that is not 0.
    pub(crate) count: u32,
    /// How many follow.
    pub(crate) cut: u64,
    /// Whether one of those is not 0.
    pub(crate) more: bool,
}

impl Digits {
    /// No digits.
    fn new() -> Digits
        ensures fits { AreDigits result }
        ensures holds { HoldsDigits result 0 }
        ensures none { result.cut ≡ 0 }
    {
        Digits {
            front: Large::new(0),
            count: 0,
            cut: 0,
            more: false,
        }
    }

    /// Puts a digit behind those that are kept.
    fn keep(&mut self, digit: u8)
        requires digit { digit < 10 }
        requires fits { AreDigits self.old }
        requires room { self.old.count < 800 }
        requires some { 0 < self.old.count + digit }
        ensures fits { AreDigits self.new }
        ensures holds { (n : ℕ) → HoldsDigits self.old n → HoldsDigits self.new (10 * n + digit) }
        ensures same { self.new.cut ≡ self.old.cut }
    {
        self.front.append(digit);
        self.count += 1;
    }

    /// Puts a digit behind those that are not kept.
    fn pass(&mut self, digit: u8)
        requires digit { digit < 10 }
        requires fits { AreDigits self.old }
        requires full { self.old.count ≡ 800 }
        requires room { self.old.cut < 2 ^ 64 - 1 }
        ensures fits { AreDigits self.new }
        ensures holds { (n : ℕ) → HoldsDigits self.old n → HoldsDigits self.new (10 * n + digit) }
        ensures more { self.new.cut ≡ self.old.cut + 1 }
    {
        self.cut += 1;
        if digit == 0 {
            return;
        }
        self.more = true;
    }

    /// Puts a digit behind the others.
    fn push(&mut self, digit: u8)
        requires digit { digit < 10 }
        requires fits { AreDigits self.old }
        requires room { self.old.cut < 2 ^ 64 - 1 }
        ensures fits { AreDigits self.new }
        ensures holds { (n : ℕ) → HoldsDigits self.old n → HoldsDigits self.new (10 * n + digit) }
        ensures more { self.new.cut ≤ self.old.cut + 1 }
    {
        if self.count >= 800 {
            self.pass(digit);
            return;
        }
        if self.count > 0 {
            self.keep(digit);
            return;
        }
        if digit == 0 {
            return;
        }
        self.keep(digit);
    }

    /// Puts a byte behind the digits, where it is one.
    fn push_byte(&mut self, byte: u8)
        requires fits { AreDigits self.old }
        requires room { self.old.cut < 2 ^ 64 - 1 }
        ensures fits { AreDigits self.new }
        ensures holds { (n : ℕ) → HoldsDigits self.old n → HoldsDigits self.new (with_digit n byte) }
        ensures more { self.new.cut ≤ self.old.cut + 1 }
    {
        if !byte.is_ascii_digit() {
            return;
        }
        self.push(byte - b'0');
    }
}

/// The digits that stand among bytes.
pub(crate) fn digits_of(bytes: &[u8]) -> Digits
    ensures fits { AreDigits result }
    ensures holds { HoldsDigits result (digits_among bytes.now) }
    ensures few { result.cut ≤ length bytes.now }
{
    let mut digits = Digits::new();
    for index in 0..bytes.len() {
        digits.push_byte(bytes[index]);
    }
    digits
}

/// A number with one byte more, where it is a digit. None where it does not fit.
fn with_digit(number: u64, byte: u8) -> Option<u64>
    ensures { IfSome result (λ n. n ≡ with_digit number byte) }
{
    if !byte.is_ascii_digit() {
        return Some(number);
    }
    let tens = number.checked_mul(10)?;
    let next = tens.checked_add((byte - b'0') as u64)?;
    Some(next)
}

/// The natural of the digits that stand among bytes. None where it does not fit.
pub(crate) fn few_digits(bytes: &[u8]) -> Option<u64>
    ensures { IfSome result (λ n. n ≡ digits_among bytes.now) }
{
    let mut number: u64 = 0;
    for index in 0..bytes.len() {
        number = with_digit(number, bytes[index])?;
    }
    Some(number)
}

/// An exponent with one byte more, where it is a digit. One of 2^120 or more stays.
fn more_exponent(number: u128, byte: u8) -> u128
    requires { number < 2 ^ 124 }
    ensures holds { (n : ℕ) → IsCapped (2 ^ 120) number n → IsCapped (2 ^ 120) result (with_digit n byte) }
    ensures few { result < 2 ^ 124 }
{
    if !byte.is_ascii_digit() {
        return number;
    }
    if number >= 1329227995784915872903807060280344576 {
        return number;
    }
    10 * number + (byte - b'0') as u128
}

/// The natural of the digits among bytes. One of 2^120 or more may have another such in its place.
pub(crate) fn exponent_of(bytes: &[u8]) -> u128
    ensures value { IsCapped (2 ^ 120) result (digits_among bytes.now) }
    ensures few { result < 2 ^ 124 }
{
    let mut number: u128 = 0;
    for index in 0..bytes.len() {
        number = more_exponent(number, bytes[index]);
    }
    number
}
