//! What holds of the changes from one record to another.
ghost use Rattle.capnp_diffs.specs.Laws.{CallsMakeNew, EqualNeedNone, NoneMeansEqual};
ghost use Rattle.capnp_diffs.specs.Left.{FoundCallsLeaveNew};
ghost use Rattle.capnp_diffs.specs.Made.{FoundCallsMakeNew};

/// Calls that make the changes from an old record to a new one, in order, are none refused where there is room, and leave the
/// new record.
#[tactic(auto, using(crate::proofs::Steps::calls_make_new))]
pub fn calls_make_new()
    ensures { CallsMakeNew }
{}

/// A record needs no change to become itself.
#[tactic(auto, using(crate::proofs::Steps::equal_need_none))]
pub fn equal_need_none()
    ensures { EqualNeedNone }
{}

/// Where no change leads from one record to another, they are equal.
#[tactic(auto, using(crate::proofs::Steps::none_means_equal))]
pub fn none_means_equal()
    ensures { NoneMeansEqual }
{}

/// The calls of changes that were found from an old record to a new one (`found`, `told` and `ready` of `find_changes`), run
/// on the old one, leave the new one; where there is room, none is refused.
#[tactic(auto, using(crate::proofs::Made::found_calls_make_new))]
pub fn found_calls_make_new()
    ensures { FoundCallsMakeNew }
{}

/// A message with an old record, on which the calls of changes to a new one are made (`run_copied` of `capnp_call`, the calls by
/// `as_calls`), reads as the new one; where there is room, none of the calls was refused.
#[tactic(auto, using(crate::proofs::Left::found_calls_leave_new))]
pub fn found_calls_leave_new()
    ensures { FoundCallsLeaveNew }
{}
