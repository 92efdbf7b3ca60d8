//! What holds of the lines of changes.
ghost use Rattle.riftcalico_core.specs.DiffLaws.{ChangeLinesAreRead, LeavesAreReadBack, NamesHaveTargets, NamesHaveTypes};

/// The line of a change is read as its call, along a path on which each field has its name or its number.
#[tactic(auto, using(crate::proofs::LinesRead::change_lines_are_read))]
pub fn change_lines_are_read()
    ensures { ChangeLinesAreRead }
{}

/// What is printed of a leaf in such a line is read as its value.
#[tactic(auto, using(crate::proofs::LinesRead::leaves_are_read_back))]
pub fn leaves_are_read_back()
    ensures { LeavesAreReadBack }
{}

/// The name of a field on such a path leads where its number does, in a schema and in a record.
#[tactic(auto, using(crate::proofs::LinesRead::names_have_types, crate::proofs::LinesRead::names_have_targets))]
pub fn names_lead_alike()
    ensures types { NamesHaveTypes }
    ensures targets { NamesHaveTargets }
{}
