//! Laws of what the record of a set stands for. Their functions do nothing when they run.
ghost use Rattle.capnp_sets.specs.Laws.{CausesRefuse, RefusalsHaveCauses};

/// A record in which the cause of a refusal stands stands for no lists.
#[tactic(auto, using(crate::proofs::LawsOfSets::causes_refuse))]
pub fn causes_refuse()
    ensures { CausesRefuse }
{}

/// In a record that stands for no lists a cause stands.
#[tactic(auto, using(crate::proofs::LawsOfSets::refusals_have_causes))]
pub fn refusals_have_causes()
    ensures { RefusalsHaveCauses }
{}
