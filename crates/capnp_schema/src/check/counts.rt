//! Rule 3: how many fields, enumerants and annotations there are, and that the names of a node's fields are distinct.
ghost use Rattle.std.specs.Prelude.{◌↔◌, IsTrue, MatchResult};
ghost use Rattle.capnp_schema.specs.Schema.{seen_annotations};
ghost use Rattle.capnp_schema.specs.Entries.{lists_seen};
ghost use Rattle.capnp_schema.specs.Accepted.{HasFewAnnotations, HasFewEnumerants, HasFewFields, HasSmallCounts};
ghost use Rattle.capnp_schema.specs.Broken.{IsRefusalOf};
ghost use Rattle.capnp_schema.specs.Steps.Checking.Entry.{IsSoAt};

use crate::check::entries::{Annotated, Asked, broken_entry};
use crate::check::refusal::{WHOLE, refusal};
use crate::lists::Lists;
use crate::record::{AnnotationRecord, EnumerantRecord, FieldRecord};
use capnp_device::error::{Result, SchemaTable};

/// How many fields a node has at most, and an enum enumerants.
const MOST_ENTRIES: usize = 65535;

/// Whether there are fewer annotations than a list can have elements.
fn are_few(annotations: &[AnnotationRecord]) -> bool
    ensures { IsTrue result ↔ HasFewAnnotations (seen_annotations annotations.now) }
{
    annotations.len() < 1 << 29
}

/// That there are few annotations.
struct FewAnnotations;

impl<E: Annotated> Asked<FewAnnotations> for E {
    ghost Seen = { E.Seen };

    ghost seen = { E.seen };

    ghost is_met = { λ x. HasFewAnnotations (E.annotations_of x) };

    fn is_met(&self) -> bool {
        are_few(self.annotations())
    }
}

fn check_node_counts(lists: &Lists, entry: usize) -> Result<()>
    ensures { MatchResult result (λ _. IsSoAt (lists_seen lists.now).nodes HasFewFields entry)
        (IsRefusalOf (lists_seen lists.now)) }
{
    let Some(node) = lists.node_at(entry) else {
        return Ok(());
    };
    if node.body.fields.len() > MOST_ENTRIES {
        return Err(refusal(3, SchemaTable::Node, entry, WHOLE));
    }
    if !are_few(&node.annotations) {
        return Err(refusal(3, SchemaTable::Node, entry, WHOLE));
    }
    match broken_entry::<FewAnnotations, FieldRecord>(&node.body.fields) {
        Some(field) => Err(refusal(3, SchemaTable::Node, entry, field as u16)),
        None => Ok(()),
    }
}

fn check_enum_counts(lists: &Lists, entry: usize) -> Result<()>
    ensures { MatchResult result (λ _. IsSoAt (lists_seen lists.now).enums HasFewEnumerants entry)
        (IsRefusalOf (lists_seen lists.now)) }
{
    let Some(schema) = lists.enum_at(entry) else {
        return Ok(());
    };
    if schema.enumerants.len() > MOST_ENTRIES {
        return Err(refusal(3, SchemaTable::Enum, entry, WHOLE));
    }
    if !are_few(&schema.annotations) {
        return Err(refusal(3, SchemaTable::Enum, entry, WHOLE));
    }
    match broken_entry::<FewAnnotations, EnumerantRecord>(&schema.enumerants) {
        Some(field) => Err(refusal(3, SchemaTable::Enum, entry, field as u16)),
        None => Ok(()),
    }
}

/// Refuses a node of more than 65,535 fields, an enum of more than 65,535 enumerants, and 2^29 annotations or more at
/// one place, with rule 3.
pub(crate) fn check_counts(lists: &Lists) -> Result<()>
    ensures { MatchResult result (λ _. HasSmallCounts (lists_seen lists.now)) (IsRefusalOf (lists_seen lists.now)) }
{
    for n in 0..lists.nodes.len() {
        check_node_counts(lists, n)?;
    }
    for e in 0..lists.enums.len() {
        check_enum_counts(lists, e)?;
    }
    Ok(())
}
