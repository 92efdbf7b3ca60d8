//! Naturals below 2^6144.
ghost use Rattle.std.specs.Prelude.{ℕ, ◌≡◌, ◌+◌, ◌*◌, ◌^◌, ◌<◌, ◌≤◌, nat_lt};
ghost use Rattle.capnp_floats.specs.Naturals.{large_room, natural_of};

use crate::limbs;
use std::marker::Model;

/// A natural below 2^6144.
#[derive(Drop)]
pub struct Large {
    row: [u32; 192],
}

impl Model for Large {
    ghost Value = { ℕ };

    ghost view = { λ n. natural_of n.row };
}

impl Large {
    /// The natural of a number.
    pub fn new(number: u64) -> Large
        ensures { result ≡ number }
    {
        let mut row = [0u32; 192];
        row[0] = (number % 4294967296) as u32;
        row[1] = (number / 4294967296) as u32;
        Large { row }
    }

    /// A copy of this natural.
    pub fn copied(&self) -> Large
        ensures { result ≡ self.now }
    {
        Large { row: self.row }
    }

    /// The natural times a factor.
    ///
    /// # Conditions
    ///
    /// The product is below 2^6144 (`large_room`).
    pub fn multiply(&mut self, factor: u32)
        requires { self.old * factor < large_room }
        ensures { self.new ≡ self.old * factor }
    {
        limbs::scale(&mut self.row, factor, 0);
    }

    /// Puts a decimal digit behind those of the natural.
    ///
    /// # Conditions
    ///
    /// The natural with that digit is below 2^6144 (`large_room`).
    pub fn append(&mut self, digit: u8)
        requires { self.old * 10 + digit < large_room }
        ensures { self.new ≡ self.old * 10 + digit }
    {
        limbs::scale(&mut self.row, 10, digit as u32);
    }

    /// The natural times a power of a base, of which a power that fits is given.
    fn raise(&mut self, base: u32, few: u32, power: u32, times: u32)
        requires positive { 0 < base }
        requires some { 0 < few }
        requires power { power ≡ base ^ few }
        requires room { self.old * base ^ times < large_room }
        ensures { self.new ≡ self.old * base ^ times }
    {
        let mut left = times;
        'many: while left >= few {
            self.multiply(power);
            left -= few;
        }
        'single: while left > 0 {
            self.multiply(base);
            left -= 1;
        }
    }

    /// The natural times a power of two.
    ///
    /// # Conditions
    ///
    /// The product is below 2^6144 (`large_room`).
    pub fn double(&mut self, times: u32)
        requires { self.old * 2 ^ times < large_room }
        ensures { self.new ≡ self.old * 2 ^ times }
    {
        self.raise(2, 31, 2147483648, times);
    }

    /// The natural times a power of ten.
    ///
    /// # Conditions
    ///
    /// The product is below 2^6144 (`large_room`).
    pub fn multiply_tens(&mut self, times: u32)
        requires { self.old * 10 ^ times < large_room }
        ensures { self.new ≡ self.old * 10 ^ times }
    {
        self.raise(10, 9, 1000000000, times);
    }

    /// The number of its highest places from the first that is not 0, of 32 bits each, up to 128 bits, and how many places
    /// are below those.
    pub fn head(&self) -> (u128, u32)
        ensures { result.1 ≤ 192 }
    {
        let mut head: u128 = 0;
        let mut below: u32 = 192;
        'places: for i in 0..192 {
            if head >= 79228162514264337593543950336 {
                return (head, below);
            }
            head = head * 4294967296 + self.row[191 - i] as u128;
            below = below.saturating_sub(1);
        }
        (head, below)
    }

    /// Whether it is less than another.
    pub fn is_below(&self, other: &Large) -> bool
        ensures { result ≡ nat_lt self.now other.now }
    {
        limbs::is_below(&self.row, &other.row)
    }
}
