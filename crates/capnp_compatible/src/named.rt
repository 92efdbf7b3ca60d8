//! The pairs that the fields of two structs name.
ghost use Rattle.std.specs.Prelude.{◌≡◌, ◌<◌, ◌≤◌, IfErr, OnOk, length};
ghost use Rattle.capnp_device.specs.declared.error.ErrorKind.TheVariants.{OutOfMemory};
ghost use Rattle.capnp_schema.specs.Entries.{lists_seen};
ghost use Rattle.capnp_schema.specs.Schema.{fields_of, field_at};
ghost use Rattle.capnp_compatible.specs.Closing.{listed_pairs};
ghost use Rattle.capnp_compatible.specs.Steps.Closing.{Adds, Apart, Begins, Holds, HoldsNamed, Within, named_pair};

use crate::brands::{field_count, field_of};
use crate::pairs::{Pair, Pairs};
use crate::types::named;
use capnp_schema::set::SchemaSet;
use capnp_wire::error::Result;

/// The pair that two fields of one index name.
fn named_at(schemas: &SchemaSet, lists: bool, older: u32, newer: u32, index: u16) -> Option<Pair>
    requires older { older < length (lists_seen schemas.now).brands }
    requires newer { newer < length (lists_seen schemas.now).brands }
    requires older_field { index < length (fields_of (lists_seen schemas.now) older) }
    requires newer_field { index < length (fields_of (lists_seen schemas.now) newer) }
    ensures { result ≡ named_pair lists (lists_seen schemas.now) (field_at (lists_seen schemas.now) older index).type
        (field_at (lists_seen schemas.now) newer index).type }
{
    named(
        schemas,
        lists,
        field_of(schemas, older, index).get_type(),
        field_of(schemas, newer, index).get_type(),
    )
}

/// Adds a pair, where there is one.
#[tactic(auto, using(crate::proofs::Lists::within_same, crate::proofs::Lists::begins_same, crate::proofs::Lists::adds_same))]
fn add_some(pairs: &mut Pairs, pair: Option<Pair>) -> Result<()>
    ensures more { Within (listed_pairs pairs.old) (listed_pairs pairs.new) }
    ensures begins { Begins pairs.old pairs.new }
    ensures added { OnOk result (Holds (listed_pairs pairs.new) pair) }
    ensures only { Adds pairs.old pairs.new (λ sets. Holds sets pair) }
    ensures apart { Apart pairs.old → Apart pairs.new }
    ensures refused { IfErr result (λ e. e.kind ≡ OutOfMemory) }
{
    match pair {
        Some(pair) => pairs.add(pair),
        None => Ok(()),
    }
}

/// Adds the pairs that the fields of two structs name.
pub(crate) fn add_named(
    schemas: &SchemaSet,
    lists: bool,
    older: u32,
    newer: u32,
    pairs: &mut Pairs,
) -> Result<()>
    requires older { older < length (lists_seen schemas.now).brands }
    requires newer { newer < length (lists_seen schemas.now).brands }
    requires enough { length (fields_of (lists_seen schemas.now) older) ≤ length (fields_of (lists_seen schemas.now) newer) }
    ensures more { Within (listed_pairs pairs.old) (listed_pairs pairs.new) }
    ensures begins { Begins pairs.old pairs.new }
    ensures added { OnOk result (HoldsNamed lists (lists_seen schemas.now) (listed_pairs pairs.new) older newer
        (length (fields_of (lists_seen schemas.now) older))) }
    ensures only { Adds pairs.old pairs.new (λ sets. HoldsNamed lists (lists_seen schemas.now) sets older newer
        (length (fields_of (lists_seen schemas.now) older))) }
    ensures apart { Apart pairs.old → Apart pairs.new }
    ensures refused { IfErr result (λ e. e.kind ≡ OutOfMemory) }
{
    for i in 0..field_count(schemas, older) {
        add_some(pairs, named_at(schemas, lists, older, newer, i))?;
    }
    Ok(())
}
