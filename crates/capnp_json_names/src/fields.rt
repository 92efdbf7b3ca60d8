//! Two fields of a struct or group that have one name in JSON.
ghost use Rattle.std.specs.Prelude.{◌≡◌, Some, map};
ghost use Rattle.capnp_schema.specs.Schema.{seen_field};
ghost use Rattle.capnp_json_names.specs.Labels.{field_labels};
ghost use Rattle.capnp_json_names.specs.Meetings.{other_of, pair_at, pair_of};
ghost use Rattle.capnp_json_names.specs.Met.{field_name_at};
ghost use Rattle.capnp_json_names.specs.Steps.Labels.{label_seen};

use crate::labels::{Label, field_label, is_other};
use capnp_schema::record::FieldRecord;

/// The first field of another index that has this name in JSON.
fn find_other(fields: &[FieldRecord], index: usize, name: &[u8]) -> Option<usize>
    ensures { result ≡ other_of (field_labels (map seen_field fields.now)) index name.now }
{
    for (other, field) in fields.iter().enumerate() {
        if is_other(field_label(field), other, index, name) {
            return Some(other);
        }
    }
    None
}

/// The field at an index and another that has its name in JSON, where an annotation gives it one.
fn find_met(fields: &[FieldRecord], index: usize, label: Label<'_>) -> Option<(usize, usize)>
    ensures { result ≡ pair_at (field_labels (map seen_field fields.now)) index (Some (label_seen label.entry)) }
{
    if !label.is_given {
        return None;
    }
    match find_other(fields, index, label.name) {
        Some(other) => Some((index, other)),
        None => None,
    }
}

/// The first field that an annotation names as another is named, with the first other.
pub(crate) fn find_pair(fields: &[FieldRecord]) -> Option<(usize, usize)>
    ensures { result ≡ pair_of (field_labels (map seen_field fields.now)) }
{
    for (index, field) in fields.iter().enumerate() {
        if let Some(pair) = find_met(fields, index, field_label(field)) {
            return Some(pair);
        }
    }
    None
}

/// The own name of the field of an index; none past the end.
pub(crate) fn name_at(fields: &[FieldRecord], index: usize) -> &str
    ensures { result.now ≡ field_name_at (map seen_field fields.now) index }
{
    match fields.get(index) {
        Some(field) => field.name.as_str(),
        None => "",
    }
}
