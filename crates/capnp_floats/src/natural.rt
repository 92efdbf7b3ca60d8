//! Naturals below 2^1152: those of at most 128 bits as numbers, so that most floats are written by these alone.
ghost use Rattle.std.specs.Prelude.{ℕ, ◌≡◌, ◌+◌, ◌*◌, ◌^◌, ◌<◌, ◌≤◌, IfSome, nat_lt};
ghost use Rattle.capnp_floats.specs.Naturals.{room};
ghost use Rattle.capnp_floats.specs.Kept.{natural_kept};

use crate::small::times;
use crate::wide::Wide;
use std::marker::Model;

/// How a natural is kept.
#[derive(Drop)]
enum Kept {
    /// One of at most 128 bits.
    Few(u128),
    /// One that may have more.
    Many(Wide),
}

/// A natural below 2^1152.
#[derive(Drop)]
pub struct Natural {
    kept: Kept,
}

impl Model for Natural {
    ghost Value = { ℕ };

    ghost view = { λ n. natural_kept n.kept };
}

impl Natural {
    /// The natural of a number.
    pub fn new(number: u64) -> Natural
        ensures { result ≡ number }
    {
        Natural {
            kept: Kept::Few(number as u128),
        }
    }

    /// The number, where it is kept as one.
    #[inline(always)]
    fn few(&self) -> Option<u128>
        ensures { IfSome result (λ n. n ≡ self.now) }
    {
        match &self.kept {
            Kept::Few(number) => Some(*number),
            Kept::Many(_) => None,
        }
    }

    /// The natural in places.
    fn widened(&self) -> Wide
        ensures { result ≡ self.now }
    {
        match &self.kept {
            Kept::Few(number) => Wide::new(*number),
            Kept::Many(wide) => wide.copied(),
        }
    }

    /// The natural times a factor, where both are numbers.
    #[inline(always)]
    fn few_times(&self, factor: u32) -> Option<u128>
        ensures { IfSome result (λ n. n ≡ self.now * factor) }
    {
        let number = self.few()?;
        let product = number.checked_mul(factor as u128)?;
        Some(product)
    }

    /// The natural times a factor.
    ///
    /// # Conditions
    ///
    /// The product is below 2^1152 (`room`).
    #[inline(always)]
    pub fn multiply(&mut self, factor: u32)
        requires { self.old * factor < room }
        ensures { self.new ≡ self.old * factor }
    {
        if let Some(product) = self.few_times(factor) {
            self.kept = Kept::Few(product);
            return;
        }
        let mut wide = self.widened();
        wide.multiply(factor);
        self.kept = Kept::Many(wide);
    }

    /// The natural times a power of two, where both are numbers.
    fn few_doubled(&self, twos: u32) -> Option<u128>
        ensures { IfSome result (λ n. n ≡ self.now * 2 ^ twos) }
    {
        let number = self.few()?;
        times(number, 2, twos)
    }

    /// The natural times a power of two.
    ///
    /// # Conditions
    ///
    /// The product is below 2^1152 (`room`).
    pub fn double(&mut self, twos: u32)
        requires { self.old * 2 ^ twos < room }
        ensures { self.new ≡ self.old * 2 ^ twos }
    {
        if let Some(product) = self.few_doubled(twos) {
            self.kept = Kept::Few(product);
            return;
        }
        let mut wide = self.widened();
        wide.double(twos);
        self.kept = Kept::Many(wide);
    }

    /// The natural times a power of ten, where both are numbers.
    fn few_tens(&self, tens: u32) -> Option<u128>
        ensures { IfSome result (λ n. n ≡ self.now * 10 ^ tens) }
    {
        let number = self.few()?;
        times(number, 10, tens)
    }

    /// The natural times a power of ten.
    ///
    /// # Conditions
    ///
    /// The product is below 2^1152 (`room`).
    pub fn multiply_tens(&mut self, tens: u32)
        requires { self.old * 10 ^ tens < room }
        ensures { self.new ≡ self.old * 10 ^ tens }
    {
        if let Some(product) = self.few_tens(tens) {
            self.kept = Kept::Few(product);
            return;
        }
        let mut wide = self.widened();
        wide.multiply_tens(tens);
        self.kept = Kept::Many(wide);
    }

    /// The sum with another, where both and it are numbers.
    #[inline(always)]
    fn few_sum(&self, other: &Natural) -> Option<u128>
        ensures { IfSome result (λ n. n ≡ self.now + other.now) }
    {
        let first = self.few()?;
        let second = other.few()?;
        let sum = first.checked_add(second)?;
        Some(sum)
    }

    /// The sum with another.
    ///
    /// # Conditions
    ///
    /// The sum is below 2^1152 (`room`).
    #[inline(always)]
    pub fn sum(&self, other: &Natural) -> Natural
        requires { self.now + other.now < room }
        ensures { result ≡ self.now + other.now }
    {
        if let Some(sum) = self.few_sum(other) {
            return Natural {
                kept: Kept::Few(sum),
            };
        }
        let wide = self.widened();
        Natural {
            kept: Kept::Many(wide.sum(&other.widened())),
        }
    }

    /// What is left without another, where both are numbers.
    #[inline(always)]
    fn few_left(&self, other: &Natural) -> Option<u128>
        ensures { IfSome result (λ n. n + other.now ≡ self.now) }
    {
        let first = self.few()?;
        let second = other.few()?;
        let left = first.checked_sub(second)?;
        Some(left)
    }

    /// Takes another from the natural.
    ///
    /// # Conditions
    ///
    /// The other is no greater than the natural.
    #[inline(always)]
    pub fn subtract(&mut self, other: &Natural)
        requires { other.now ≤ self.old }
        ensures { self.new + other.now ≡ self.old }
    {
        if let Some(left) = self.few_left(other) {
            self.kept = Kept::Few(left);
            return;
        }
        let mut wide = self.widened();
        wide.subtract(&other.widened());
        self.kept = Kept::Many(wide);
    }

    /// Whether it is less than another, where both are numbers.
    #[inline(always)]
    fn is_few_below(&self, other: &Natural) -> Option<bool>
        ensures { IfSome result (λ b. b ≡ nat_lt self.now other.now) }
    {
        let first = self.few()?;
        let second = other.few()?;
        Some(first < second)
    }

    /// Whether it is less than another.
    #[inline(always)]
    pub fn is_below(&self, other: &Natural) -> bool
        ensures { result ≡ nat_lt self.now other.now }
    {
        if let Some(below) = self.is_few_below(other) {
            return below;
        }
        let wide = self.widened();
        wide.is_below(&other.widened())
    }
}
