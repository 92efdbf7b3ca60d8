//! That a refusal of a set is never mistaken.
ghost use Rattle.capnp_schema.specs.BrokenLaw.{BrokenIsRefused, BrokenRuleFails};

/// Where a rule is broken at a place, that rule does not hold of the set. So a refusal never names a rule that the
/// lists meet, whatever other rules they break.
#[tactic(auto, using(crate::proofs::BrokenSets::broken_rule_fails))]
pub fn broken_rules_do_not_hold()
    ensures { BrokenRuleFails }
{}

/// Where a rule is broken at a place, the set is not accepted. So a set that meets the twelve rules is refused for want
/// of memory alone.
#[tactic(auto, using(crate::proofs::BrokenSets::broken_is_refused))]
pub fn broken_sets_are_not_accepted()
    ensures { BrokenIsRefused }
{}
