//! The numbers of a list, all of one type.
ghost use Rattle.std.specs.Prelude.{◌≡◌, ◌<◌, ◌≤◌};
ghost use Rattle.capnp_wire.specs.Found.{found_tree};
ghost use Rattle.capnp_wire.specs.Locate.{words_past_format};
ghost use Rattle.capnp_wire.specs.Reading.{element_number, list_length};
ghost use Rattle.capnp_wire.specs.WellFormed.{IsWellFormed};
ghost use Rattle.capnp_wire.specs.Steps.WellFormed.{IsWellFormed_prop};

use crate::list_reader::ListReader;
use crate::parts::elements::number_at;
use crate::parts::found::Found;
use crate::primitive::PrimitiveElement;
use std::marker::PhantomData;
use std::mem::size_of;

/// The numbers of a list, as `ListReader::numbers` answers them: what `get_data_element` reads at each index.
#[derive(Clone, Copy)]
pub struct Numbers<'a, T> {
    list: ListReader<'a>,
    marker: PhantomData<T>,
}

/// The numbers of a list that are still to come, in order. At its end it stays there.
#[derive(Drop)]
pub struct NumberIter<'a, T> {
    found: Found<'a>,
    index: usize,
    count: usize,
    marker: PhantomData<T>,
    ghost well_formed: { IsWellFormed (found_tree found) } by { IsWellFormed_prop (found_tree found) },
    ghost in_order: { index ≤ count },
    ghost counted: { count ≤ list_length (found_tree found) },
}

const _: () = prove!(size_of::<Numbers<'static, u64>>() <= 80);

/// The number at an index where an element stands. What its width alone decides is found for the list, not for each
/// number: a loop over this has one load for each.
#[inline(always)]
fn number_inside<T: PrimitiveElement>(list: Found<'_>, index: usize) -> T
    requires well_formed { IsWellFormed (found_tree list) }
    requires inside { index < list_length (found_tree list) }
    ensures { result ≡ T.of_number (element_number T.width (found_tree list.entry) index) }
{
    if let Found::Numbers(width, bytes) = list {
        if width == T::count_bytes() {
            return T::read_inside(bytes, index);
        }
    }
    number_at(list, index as u32)
}

impl<'a, T: PrimitiveElement> Numbers<'a, T> {
    ghost use Rattle.std.specs.Prelude.{◌==◌};
    ghost use Rattle.capnp_wire.specs.Numbers.{numbers_in_list, items_left, numbers_tree};
    ghost use Rattle.capnp_wire.specs.Standing.{list_of};

    /// The numbers of a list.
    #[tactic(auto, unfolding(crate::specs::Numbers::numbers_tree))]
    #[inline(always)]
    pub fn new(list: ListReader<'a>) -> Numbers<'a, T>
        ensures { numbers_tree result ≡ list_of list.entry }
    {
        Numbers {
            list,
            marker: PhantomData,
        }
    }

    /// How many numbers there are, below 2^29: one for each element.
    #[tactic(auto, unfolding(crate::specs::Numbers::numbers_tree))]
    #[inline(always)]
    pub fn len(&self) -> u32
        ensures length { result ≡ list_length (numbers_tree self.now) }
        ensures bound { result < words_past_format }
    {
        self.list.len()
    }

    /// Whether there is no number.
    pub fn is_empty(&self) -> bool
        ensures { result ≡ (list_length (numbers_tree self.now) == 0) }
    {
        self.len() == 0
    }

    /// The number at `index`; zero past the end.
    #[tactic(auto, unfolding(crate::specs::Numbers::numbers_tree))]
    #[inline(always)]
    pub fn get(&self, index: u32) -> T
        ensures { result ≡ T.of_number (element_number T.width (numbers_tree self.now) index) }
    {
        self.list.get_data_element(index)
    }

    /// The numbers in order.
    #[tactic(auto, unfolding(crate::specs::Numbers::numbers_tree, crate::specs::Numbers::items_left, crate::specs::Standing::list_of))]
    #[inline(always)]
    pub fn iter(&self) -> NumberIter<'a, T>
        ensures items { items_left T.of_number T.width result ≡
            numbers_in_list T.of_number T.width (numbers_tree self.now) }
        ensures bound { list_length (numbers_tree self.now) < words_past_format }
    {
        let count = self.len() as usize;
        NumberIter {
            found: self.list.found(),
            index: 0,
            count,
            marker: PhantomData,
        }
    }
}

impl<'a, T: PrimitiveElement> IntoIterator for Numbers<'a, T> {
    ghost use Rattle.std.specs.Prelude.{◌^◌};
    ghost use Rattle.capnp_wire.specs.Numbers.{numbers_in_list, items_left, numbers_tree};

    type Item = T;

    type IntoIter = NumberIter<'a, T>;

    ghost into_iter_gives = { λ numbers it. (items_left T.of_number T.width it ≡
        numbers_in_list T.of_number T.width (numbers_tree numbers)) × (list_length (numbers_tree numbers) < words_past_format) };

    #[inline(always)]
    fn into_iter(self) -> NumberIter<'a, T> {
        self.iter()
    }
}

impl<'a, T: PrimitiveElement> Iterator for NumberIter<'a, T> {
    ghost use Rattle.std.specs.Prelude.{Some, length, IfSome};
    ghost use Rattle.std.specs.Iterator.{UpTo, YieldsFirst, item_count};
    ghost use Rattle.std.specs.Iterator.SizeHint.{IsWithinCount};
    ghost use Rattle.capnp_wire.specs.Numbers.{items_left};

    type Item = T;

    ghost next_gives = { YieldsFirst (items_left T.of_number T.width) };

    ghost remaining = { item_count (items_left T.of_number T.width) };

    #[inline(always)]
    fn next(&mut self) -> Option<T> {
        if self.index == self.count {
            return None;
        }
        let number = number_inside(self.found, self.index);
        self.index += 1;
        Some(number)
    }

    #[tactic(auto, using(crate::specs::Facts::ElementValues::count_of_elements_from), unfolding(crate::specs::Numbers::items_left))]
    #[inline]
    fn size_hint(&self) -> (usize, Option<usize>)
        ensures lower { IsWithinCount result.0 (item_count (items_left T.of_number T.width) self.now) }
        ensures upper { IfSome result.1 (UpTo (item_count (items_left T.of_number T.width) self.now)) }
        ensures exact_lower { result.0 ≡ length (items_left T.of_number T.width self.now) }
        ensures exact_upper { result.1 ≡ Some (length (items_left T.of_number T.width self.now)) }
    {
        let left = self.count - self.index;
        (left, Some(left))
    }
}

impl<'a, T: PrimitiveElement> ExactSizeIterator for NumberIter<'a, T> {
    #[tactic(auto, using(crate::specs::Facts::ElementValues::count_of_elements_from), unfolding(crate::specs::Numbers::items_left))]
    #[inline]
    fn len(&self) -> usize {
        self.count - self.index
    }
}
