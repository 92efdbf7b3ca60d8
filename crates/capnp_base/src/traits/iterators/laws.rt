//! Laws of the iterators, over every list that answers its items by their indices.
ghost use Rattle.std.specs.Prelude.{All, ◌<◌};
ghost use Rattle.capnp_base.specs.IndexIter.{source, to_come};
ghost use Rattle.capnp_base.specs.Taking.{GivesAll, GivesEachOnce, GivesInOrder};

use crate::traits::iterators::{Index, IndexIter, IndexMove};

/// What calls of `next` gave are the items of the first indices to come, one for each, in order, and the other indices
/// are left. A whole loop gives the items of all of them.
pub fn items_come_in_order<U, I: Index, T: IndexMove<I, U>>(items: &IndexIter<T, I, U>)
    ensures run { GivesInOrder source to_come T.answers items.now }
    ensures whole { GivesAll source to_come T.answers items.now }
{}

/// What calls from both ends gave are the items of the first and of the last indices to come, each once.
pub fn items_come_once<U, I: Index, T: IndexMove<I, U>>(items: &IndexIter<T, I, U>)
    ensures { GivesEachOnce source to_come T.answers items.now }
{}

/// The indices still to come are indices that the list answers.
pub fn indices_are_answered<U, I: Index, T: IndexMove<I, U>>(items: &IndexIter<T, I, U>)
    ensures { All (λ i. i < T.count (source items.now)) (to_come items.now) }
{}
