//! Naturals below 2^1152, in 36 places to the base 2^32.
ghost use Rattle.std.specs.Prelude.{ℕ, ◌≡◌, ◌+◌, ◌*◌, ◌^◌, ◌<◌, ◌≤◌, nat_lt};
ghost use Rattle.capnp_floats.specs.Naturals.{natural_of, room};

use crate::limbs;
use std::marker::Model;

/// A natural below 2^1152.
#[derive(Drop)]
pub struct Wide {
    row: [u32; 36],
}

impl Model for Wide {
    ghost Value = { ℕ };

    ghost view = { λ n. natural_of n.row };
}

impl Wide {
    /// The natural of a number.
    pub fn new(number: u128) -> Wide
        ensures { result ≡ number }
    {
        let mut row = [0u32; 36];
        row[0] = (number % 4294967296) as u32;
        row[1] = (number / 4294967296 % 4294967296) as u32;
        row[2] = (number / 18446744073709551616 % 4294967296) as u32;
        row[3] = (number / 79228162514264337593543950336) as u32;
        Wide { row }
    }

    /// A copy of this natural.
    pub fn copied(&self) -> Wide
        ensures { result ≡ self.now }
    {
        Wide { row: self.row }
    }

    /// The natural times a factor.
    ///
    /// # Conditions
    ///
    /// The product is below 2^1152 (`room`).
    pub fn multiply(&mut self, factor: u32)
        requires { self.old * factor < room }
        ensures { self.new ≡ self.old * factor }
    {
        limbs::scale(&mut self.row, factor, 0);
    }

    /// The natural times a power of a base, of which a power that fits is given.
    fn raise(&mut self, base: u32, few: u32, power: u32, times: u32)
        requires positive { 0 < base }
        requires some { 0 < few }
        requires power { power ≡ base ^ few }
        requires room { self.old * base ^ times < room }
        ensures { self.new ≡ self.old * base ^ times }
    {
        let mut left = times;
        'many: while left >= few {
            self.multiply(power);
            left -= few;
        }
        'single: while left > 0 {
            self.multiply(base);
            left -= 1;
        }
    }

    /// The natural times a power of two.
    ///
    /// # Conditions
    ///
    /// The product is below 2^1152 (`room`).
    pub fn double(&mut self, times: u32)
        requires { self.old * 2 ^ times < room }
        ensures { self.new ≡ self.old * 2 ^ times }
    {
        self.raise(2, 31, 2147483648, times);
    }

    /// The natural times a power of ten.
    ///
    /// # Conditions
    ///
    /// The product is below 2^1152 (`room`).
    pub fn multiply_tens(&mut self, times: u32)
        requires { self.old * 10 ^ times < room }
        ensures { self.new ≡ self.old * 10 ^ times }
    {
        self.raise(10, 9, 1000000000, times);
    }

    /// The sum with another.
    ///
    /// # Conditions
    ///
    /// The sum is below 2^1152 (`room`).
    pub fn sum(&self, other: &Wide) -> Wide
        requires { self.now + other.now < room }
        ensures { result ≡ self.now + other.now }
    {
        let mut row = self.row;
        limbs::add(&mut row, &other.row);
        Wide { row }
    }

    /// Takes another from the natural.
    ///
    /// # Conditions
    ///
    /// The other is no greater than the natural.
    pub fn subtract(&mut self, other: &Wide)
        requires { other.now ≤ self.old }
        ensures { self.new + other.now ≡ self.old }
    {
        limbs::subtract(&mut self.row, &other.row);
    }

    /// Whether it is less than another.
    pub fn is_below(&self, other: &Wide) -> bool
        ensures { result ≡ nat_lt self.now other.now }
    {
        limbs::is_below(&self.row, &other.row)
    }
}
