//! Two enumerants of an enum that have one name in JSON.
ghost use Rattle.std.specs.Prelude.{◌≡◌, Some, map};
ghost use Rattle.capnp_schema.specs.Schema.{seen_enumerant};
ghost use Rattle.capnp_json_names.specs.Labels.{enumerant_labels};
ghost use Rattle.capnp_json_names.specs.Meetings.{other_of, pair_at, pair_of};
ghost use Rattle.capnp_json_names.specs.Met.{enumerant_name_at};
ghost use Rattle.capnp_json_names.specs.Steps.Labels.{label_seen};

use crate::labels::{Label, enumerant_label, is_other};
use capnp_schema::record::EnumerantRecord;

/// The first enumerant of another ordinal that has this name in JSON.
fn find_other(enumerants: &[EnumerantRecord], ordinal: usize, name: &[u8]) -> Option<usize>
    ensures { result ≡ other_of (enumerant_labels (map seen_enumerant enumerants.now)) ordinal name.now }
{
    for (other, enumerant) in enumerants.iter().enumerate() {
        if is_other(enumerant_label(enumerant), other, ordinal, name) {
            return Some(other);
        }
    }
    None
}

/// The enumerant at an ordinal and another that has its name, where an annotation `name` gives it one.
fn find_met(
    enumerants: &[EnumerantRecord],
    ordinal: usize,
    label: Label<'_>,
) -> Option<(usize, usize)>
    ensures { result ≡ pair_at (enumerant_labels (map seen_enumerant enumerants.now)) ordinal (Some (label_seen label.entry)) }
{
    if !label.is_given {
        return None;
    }
    match find_other(enumerants, ordinal, label.name) {
        Some(other) => Some((ordinal, other)),
        None => None,
    }
}

/// The first enumerant that has an annotation `name` and is named as another, with the first other.
pub(crate) fn find_pair(enumerants: &[EnumerantRecord]) -> Option<(usize, usize)>
    ensures { result ≡ pair_of (enumerant_labels (map seen_enumerant enumerants.now)) }
{
    for (ordinal, enumerant) in enumerants.iter().enumerate() {
        if let Some(pair) = find_met(enumerants, ordinal, enumerant_label(enumerant)) {
            return Some(pair);
        }
    }
    None
}

/// The own name of the enumerant of an ordinal; none past the end.
pub(crate) fn name_at(enumerants: &[EnumerantRecord], ordinal: usize) -> &str
    ensures { result.now ≡ enumerant_name_at (map seen_enumerant enumerants.now) ordinal }
{
    match enumerants.get(ordinal) {
        Some(enumerant) => enumerant.name.as_str(),
        None => "",
    }
}
