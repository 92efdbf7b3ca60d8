//! Whether a brand is a compatible successor of another, by a walk over pairs of brands.
ghost use Rattle.std.specs.Prelude.{◌≡◌, ◌<◌, IfErr, IfOk, length};
ghost use Rattle.std.specs.Bool.{Decides};
ghost use Rattle.capnp_device.specs.declared.error.ErrorKind.TheVariants.{OutOfMemory};
ghost use Rattle.capnp_schema.specs.Entries.{lists_seen};
ghost use Rattle.capnp_records.specs.Compatible.{IsSuccessor};

use crate::brands::is_accepted;
use crate::fields::is_successor;
use crate::named::add_named;
use crate::pairs::{Pair, Pairs};
use capnp_schema::set::SchemaSet;
use capnp_wire::error::Result;
use std::alloc::Global;

/// Whether a brand is a compatible successor of another. Each pair of brands that the fields of two structs name, from
/// the given pair on, is looked at once. `lists` is whether lists may have become lists of structs.
pub(crate) fn decide(
    alloc: Global,
    schemas: &SchemaSet,
    lists: bool,
    older: u32,
    newer: u32,
) -> Result<bool>
    requires older { older < length (lists_seen schemas.now).brands }
    requires newer { newer < length (lists_seen schemas.now).brands }
    ensures decides { IfOk result (λ yes. Decides yes (IsSuccessor lists (lists_seen schemas.now) older newer)) }
    ensures refused { IfErr result (λ e. e.kind ≡ OutOfMemory) }
{
    is_accepted(schemas);
    let mut pairs = Pairs::of(alloc, Pair { older, newer })?;
    let mut next = 0;
    while next < pairs.len() {
        let pair = pairs.at(next);
        if !is_successor(schemas, lists, pair.older, pair.newer) {
            return Ok(false);
        }
        add_named(schemas, lists, pair.older, pair.newer, &mut pairs)?;
        next += 1;
    }
    Ok(true)
}
