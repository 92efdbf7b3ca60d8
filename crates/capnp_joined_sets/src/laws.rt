//! What holds of joined sets.
ghost use Rattle.capnp_joined_sets.specs.Laws.{FirstReadsAsBefore, FirstStandsAsBefore, JoinedAreAccepted, SecondReadsAsBefore, SecondStandsMoved, ShortSetsFit};

/// Two sets that meet the twelve rules meet them together.
pub fn joined_sets_are_accepted()
    ensures { JoinedAreAccepted }
{}

/// The entries of the first set have the numbers that they had, and are what they were.
pub fn first_set_stands()
    ensures { FirstStandsAsBefore }
{}

/// The entries of the second set stand as many numbers further on as the first set has entries, and so do the numbers
/// that they name.
pub fn second_set_stands()
    ensures { SecondStandsMoved }
{}

/// A struct reads under a brand of the first set as it read in that set.
pub fn first_set_reads()
    ensures { FirstReadsAsBefore }
{}

/// A struct reads under a brand of the second set, by its new number, as it read in that set.
pub fn second_set_reads()
    ensures { SecondReadsAsBefore }
{}

/// Where each node of two sets has a brand, their numbers fit as long as their lists together have at most 2^32 entries
/// each. So such sets are joined wherever there is memory.
pub fn short_sets_fit()
    ensures { ShortSetsFit }
{}
