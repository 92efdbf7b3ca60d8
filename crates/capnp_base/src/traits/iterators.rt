//! Lists that answer items by their indices, and iterators over them.
ghost use Rattle.std.specs.Prelude.{◌≡◌, ℕ, ◌<◌, ◌≤◌, length, IfSome};
ghost use Rattle.std.specs.Iterator.{at_most, UpTo};
ghost use Rattle.std.specs.Iterator.SizeHint.{IsWithinCount};
ghost use Rattle.capnp_base.specs.Taking.{indices, TakesFirst, TakesLast, TakesNth};

pub mod laws;

use std::marker::PhantomData;

/// A number that counts indices.
pub trait Index: Sized {
    ghost number: { Self → ℕ };

    // The largest of them.
    ghost largest: { ℕ };

    /// The index of a number.
    ///
    /// # Conditions
    ///
    /// `index` is at most the largest number of an index (`largest`).
    fn from_number(index: u32) -> Self
        requires { index ≤ largest }
        ensures { Self.number result ≡ index };

    /// Its number.
    fn to_number(self) -> u32
        ensures number { result ≡ Self.number self }
        ensures bound { result ≤ largest };
}

impl Index for u16 {
    ghost number = { λ i. i };

    ghost largest = { 65535 };

    #[inline(always)]
    fn from_number(index: u32) -> u16 {
        index as u16
    }

    #[inline(always)]
    fn to_number(self) -> u32 {
        self as u32
    }
}

impl Index for u32 {
    ghost number = { λ i. i };

    ghost largest = { 4294967295 };

    #[inline(always)]
    fn from_number(index: u32) -> u32 {
        index
    }

    #[inline(always)]
    fn to_number(self) -> u32 {
        self
    }
}

/// A list that answers its items by their indices.
pub trait IndexMove<I: Index, T> {
    // How many indices it answers: those below this number.
    ghost count: { Self → ℕ };

    // The items that it may answer at an index.
    ghost answers: { Self → ℕ → T → Type 0 };

    /// The item at an index.
    ///
    /// # Conditions
    ///
    /// The number of the index is below the list's `count`.
    fn index_move(&self, index: I) -> T
        requires { I.number index < count self.now }
        ensures { answers self.now (I.number index) result };
}

/// The items of a list whose indices are counted by a `u32`.
pub type ListIter<T, U> = IndexIter<T, u32, U>;

/// The items of a list whose indices are counted by a `u16`.
pub type ShortListIter<T, U> = IndexIter<T, u16, U>;

/// The items of a list at the indices still to come, which are taken from both ends.
///
/// Each item is given at most once. At its end it stays there.
#[derive(Drop)]
pub struct IndexIter<T: IndexMove<I, U>, I: Index, U> {
    marker: PhantomData<(I, U)>,
    list: T,
    index: u32,
    size: u32,
    ghost in_order: { index ≤ size },
    ghost answered: { size ≤ T.count list },
    ghost counted: { size ≤ I.largest },
}

impl<U, I: Index, T: IndexMove<I, U>> IndexIter<T, I, U> {
    ghost use Rattle.capnp_base.specs.IndexIter.{source, to_come};

    /// The items at all indices below `size`.
    ///
    /// # Conditions
    ///
    /// The list answers at all indices below `size`.
    #[tactic(auto, unfolding(crate::specs::IndexIter::source, crate::specs::IndexIter::to_come))]
    pub fn new(list: T, size: I) -> Self
        requires { I.number size ≤ T.count list }
        ensures source { source result ≡ list }
        ensures to_come { to_come result ≡ indices 0 (I.number size) }
    {
        let size = size.to_number();
        IndexIter {
            marker: PhantomData,
            list,
            index: 0,
            size,
        }
    }

    /// The number of items still to come.
    #[tactic(auto, using(crate::proofs::Indices::count_of_indices), unfolding(crate::specs::IndexIter::to_come))]
    fn count_left(&self) -> usize
        ensures { result ≡ length (to_come self.now) }
    {
        (self.size - self.index) as usize
    }
}

impl<U: Drop, I: Index + Drop, T: IndexMove<I, U> + Drop> IndexIter<T, I, U> {
    ghost use Rattle.capnp_base.specs.IndexIter.{source, to_come};

    /// Passes over `skipped` items and gives the next one. Where at most `skipped` are left it gives none, and none are
    /// left then, also where no index is that large. It is the `nth` of `Iterator`.
    pub fn nth_item(&mut self, skipped: usize) -> Option<U>
        ensures { TakesNth source to_come T.answers skipped self.old result self.new }
    {
        self.nth(skipped)
    }
}

impl<U, I: Index, T: IndexMove<I, U> + Drop> Iterator for IndexIter<T, I, U> {
    ghost use Rattle.capnp_base.specs.IndexIter.{source, to_come};

    type Item = U;

    ghost next_gives = { TakesFirst source to_come T.answers };

    ghost remaining = { λ s. at_most (length (to_come s)) };

    fn next(&mut self) -> Option<U> {
        if self.index < self.size {
            let item = self.list.index_move(I::from_number(self.index));
            self.index += 1;
            Some(item)
        } else {
            None
        }
    }

    fn size_hint(&self) -> (usize, Option<usize>)
        ensures lower { IsWithinCount result.0 (at_most (length (to_come self.now))) }
        ensures upper { IfSome result.1 (UpTo (at_most (length (to_come self.now)))) }
        ensures exact_lower { result.0 ≡ length (to_come self.now) }
        ensures exact_upper { result.1 ≡ Some (length (to_come self.now)) }
    {
        let left = self.count_left();
        (left, Some(left))
    }
}

impl<U, I: Index, T: IndexMove<I, U> + Drop> ExactSizeIterator for IndexIter<T, I, U> {
    fn len(&self) -> usize {
        self.count_left()
    }
}

impl<U, I: Index, T: IndexMove<I, U> + Drop> DoubleEndedIterator for IndexIter<T, I, U> {
    ghost use Rattle.capnp_base.specs.IndexIter.{source, to_come};

    ghost next_back_gives = { TakesLast source to_come T.answers };

    fn next_back(&mut self) -> Option<U> {
        if self.index < self.size {
            self.size -= 1;
            Some(self.list.index_move(I::from_number(self.size)))
        } else {
            None
        }
    }
}
