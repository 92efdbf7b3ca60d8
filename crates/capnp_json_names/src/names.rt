//! The check of a set's names in JSON.
ghost use Rattle.std.specs.Prelude.{◌≡◌, MatchOption, MatchResult, None, codes};
ghost use Rattle.capnp_schema.specs.Entries.{lists_seen};
ghost use Rattle.capnp_schema.specs.Schema.{enum_at, node_at, seen_enum, seen_node};
ghost use Rattle.capnp_json_names.specs.Meetings.{enum_pair, enumerants_meeting, fields_meeting, meeting_of, node_pair};
ghost use Rattle.capnp_json_names.specs.Met.{IsMet};
ghost use Rattle.capnp_json_names.specs.Steps.Met.{IsMetEnumerants, IsMetFields};

use crate::{enumerants, fields};
use capnp_schema::record::{EnumRecord, NodeRecord};
use capnp_schema::set::SchemaSet;

/// Two names that meet in JSON.
#[derive(Clone, Copy, Debug, PartialEq, Eq)]
pub struct NamesMeet<'s> {
    /// The display name of the struct or group, or of the enum.
    pub place: &'s str,
    /// The own name of the field or enumerant that has an annotation `name`.
    pub first: &'s str,
    /// The own name of that which has the same name in JSON.
    pub second: &'s str,
}

impl NamesMeet<'_> {
    /// The number by which it is told.
    pub fn number(&self) -> u32
        ensures { result ≡ 69 }
    {
        69
    }

    /// The name by which it is told.
    pub fn name(&self) -> &'static str
        ensures { result.now ≡ codes "JsonNamesMeet" }
    {
        "JsonNamesMeet"
    }
}

/// The first two fields of a struct or group that meet.
fn find_in_node(node: &NodeRecord) -> Option<NamesMeet<'_>>
    ensures { MatchOption result (node_pair (seen_node node.now) ≡ None) (IsMetFields (seen_node node.now)) }
{
    let (first, second) = fields::find_pair(&node.body.fields)?;
    Some(NamesMeet {
        place: node.display_name.as_str(),
        first: fields::name_at(&node.body.fields, first),
        second: fields::name_at(&node.body.fields, second),
    })
}

/// The first two enumerants of an enum that meet.
fn find_in_enum(of: &EnumRecord) -> Option<NamesMeet<'_>>
    ensures { MatchOption result (enum_pair (seen_enum of.now) ≡ None) (IsMetEnumerants (seen_enum of.now)) }
{
    let (first, second) = enumerants::find_pair(&of.enumerants)?;
    Some(NamesMeet {
        place: of.display_name.as_str(),
        first: enumerants::name_at(&of.enumerants, first),
        second: enumerants::name_at(&of.enumerants, second),
    })
}

/// The first two fields that meet.
fn find_fields(schemas: &SchemaSet) -> Option<NamesMeet<'_>>
    ensures { MatchOption result (fields_meeting (lists_seen schemas.now) ≡ None)
        (IsMet (lists_seen schemas.now) (fields_meeting (lists_seen schemas.now))) }
{
    for node in schemas.nodes() {
        if let Some(met) = find_in_node(node) {
            return Some(met);
        }
    }
    None
}

/// The first two enumerants that meet.
fn find_enumerants(schemas: &SchemaSet) -> Option<NamesMeet<'_>>
    ensures { MatchOption result (enumerants_meeting (lists_seen schemas.now) ≡ None)
        (IsMet (lists_seen schemas.now) (enumerants_meeting (lists_seen schemas.now))) }
{
    for of in schemas.enums() {
        if let Some(met) = find_in_enum(of) {
            return Some(met);
        }
    }
    None
}

/// Whether each name in JSON has one meaning. Refused with `JsonNamesMeet`, 69, where in a struct or group of the set two fields
/// have one name in JSON, or in an enum two enumerants of which one has an annotation `name`. Then two are told: of the first
/// struct or group in the set's order, and else of the first enum; there the first field or enumerant that an annotation names
/// as another is named, and the first such other. It takes no memory.
///
/// Calls that write or read JSON don't check this: where names meet, what is written may not be read back.
///
/// Each field and enumerant with an annotation `name` is compared with the others beside it, and no others are: own names of
/// fields are distinct in a set.
pub fn check_names(schemas: &SchemaSet) -> Result<(), NamesMeet<'_>>
    ensures { MatchResult result (λ _. meeting_of (lists_seen schemas.now) ≡ None)
        (IsMet (lists_seen schemas.now) (meeting_of (lists_seen schemas.now))) }
{
    if let Some(met) = find_fields(schemas) {
        return Err(met);
    }
    match find_enumerants(schemas) {
        Some(met) => Err(met),
        None => Ok(()),
    }
}
