//! What holds of spliced lists, of lists of values, and of edits.
ghost use Rattle.capnp_edits.specs.Laws.{EditLaw, ListedLaw, SpliceLaw};

/// A spliced list is read as the elements of the first list with those of the second at the place.
#[tactic(auto, using(crate::proofs::AllLaws::values_spliced))]
pub fn splice_law()
    ensures { SpliceLaw }
{}

/// A list of values is read as what a set of an element puts there for each.
#[tactic(auto, using(crate::proofs::AllLaws::values_listed))]
pub fn listed_law()
    ensures { ListedLaw }
{}

/// What an edit makes of a list is read as what it makes of its elements.
pub fn edit_law()
    ensures { EditLaw }
{}
