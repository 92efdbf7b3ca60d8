//! The pairs that the fields of two structs name.
ghost use Rattle.std.specs.Prelude.{◌≡◌, ◌<◌, ◌≤◌, ℕ, IfErr, OnOk, Some, length};
ghost use Rattle.capnp_device.specs.declared.error.ErrorKind.TheVariants.{OutOfMemory};
ghost use Rattle.capnp_schema.specs.Entries.{lists_seen};
ghost use Rattle.capnp_schema.specs.Schema.{fields_of, field_at};
ghost use Rattle.capnp_differences.specs.Differences.{struct_pair};
ghost use Rattle.capnp_differences.specs.Steps.Comparing.{Adds, IsNamed, pair_of};

use crate::brands::{field_count, field_of};
use crate::differences::Pair;
use crate::pairs::Pairs;
use crate::types::named;
use capnp_schema::set::SchemaSet;
use capnp_wire::error::Result;

/// The pair that two fields of one index name.
pub(crate) fn named_at(schemas: &SchemaSet, older: u32, newer: u32, index: u16) -> Option<Pair>
    requires older_field { index < length (fields_of (lists_seen schemas.now) older) }
    requires newer_field { index < length (fields_of (lists_seen schemas.now) newer) }
    ensures { result ≡ struct_pair (lists_seen schemas.now) (field_at (lists_seen schemas.now) older index).type
        (field_at (lists_seen schemas.now) newer index).type }
{
    named(
        schemas,
        field_of(schemas, older, index).get_type(),
        field_of(schemas, newer, index).get_type(),
    )
}

/// Adds a pair, where there is one.
fn add_some(pairs: &mut Pairs, pair: Option<Pair>) -> Result<()>
    ensures added { OnOk result (Adds pairs.old pairs.new (λ a b. pair ≡ Some (pair_of a b))) }
    ensures refused { IfErr result (λ e. e.kind ≡ OutOfMemory) }
{
    match pair {
        Some(found) => {
            pairs.add(found)?;
            Ok(())
        }
        None => Ok(()),
    }
}

/// How many fields two structs both have, by index.
pub(crate) fn shared_count(schemas: &SchemaSet, older: u32, newer: u32) -> u16
    ensures older { result ≤ length (fields_of (lists_seen schemas.now) older) }
    ensures newer { result ≤ length (fields_of (lists_seen schemas.now) newer) }
    ensures all { (i : ℕ) → i < length (fields_of (lists_seen schemas.now) older)
        → i < length (fields_of (lists_seen schemas.now) newer) → i < result }
{
    let one = field_count(schemas, older);
    let other = field_count(schemas, newer);
    if one < other { one } else { other }
}

/// Adds the pairs that the fields of two structs name.
pub(crate) fn add_named(
    schemas: &SchemaSet,
    older: u32,
    newer: u32,
    pairs: &mut Pairs,
) -> Result<()>
    ensures added { OnOk result (Adds pairs.old pairs.new (IsNamed (lists_seen schemas.now) older newer
        (length (fields_of (lists_seen schemas.now) older)))) }
    ensures refused { IfErr result (λ e. e.kind ≡ OutOfMemory) }
{
    for i in 0..shared_count(schemas, older, newer) {
        add_some(pairs, named_at(schemas, older, newer, i))?;
    }
    Ok(())
}
