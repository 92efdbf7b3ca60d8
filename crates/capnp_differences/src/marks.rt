//! The pairs of structs from which a difference can be reached.
ghost use Rattle.std.specs.Prelude.{◌≡◌, ◌↔◌, Bool, Contains, IfErr, IfOk, IsTrue, OnOk, length, map, not};
ghost use Rattle.capnp_device.specs.declared.error.ErrorKind.TheVariants.{OutOfMemory};
ghost use Rattle.capnp_schema.specs.Entries.{lists_seen};
ghost use Rattle.capnp_differences.specs.Closing.{listed_pairs};
ghost use Rattle.capnp_differences.specs.Steps.Comparing.{Within, brand_pairs};
ghost use Rattle.capnp_differences.specs.Steps.Marking.{AreFound, Reaches};
ghost use Rattle.capnp_differences.specs.declared.differences.Pair.{Pair};

use crate::differences::{Difference, Pair};
use crate::namers::{mark_namers, namers_among};
use crate::pairs::Pairs;
use capnp_schema::set::SchemaSet;
use capnp_wire::error::Result;
use std::alloc::Global;

/// Whether nothing is told.
fn is_none_told(told: &[Difference]) -> bool
    ensures { IsTrue result ↔ (length told.now ≡ 0) }
{
    told.is_empty()
}

/// The pairs from which a difference can be reached: those in which something differs, and those that name one of these, until
/// there are no more. Each marked pair is looked at once, and of the edges between pairs those that lead to it.
pub(crate) fn reaching(
    alloc: Global,
    schemas: &SchemaSet,
    pairs: &Pairs,
    told: &[Difference],
) -> Result<Pairs>
    requires brands { Within (listed_pairs pairs.now) (brand_pairs (lists_seen schemas.now)) }
    requires found { AreFound (lists_seen schemas.now) pairs.now told.now }
    ensures reaching { IfOk result (Reaches (lists_seen schemas.now) pairs.now told.now) }
    ensures refused { IfErr result (λ e. e.kind ≡ OutOfMemory) }
{
    let mut marked = Pairs::of_differences(alloc, told)?;
    if is_none_told(told) {
        return Ok(marked);
    }
    let namers = namers_among(alloc, schemas, pairs)?;
    let mut next = 0;
    while next < marked.len() {
        let named = marked.at(next);
        mark_namers(&namers, named, &mut marked)?;
        next += 1;
    }
    Ok(marked)
}

/// Of each pair whether it is unmarked.
pub(crate) fn unmarked(alloc: Global, asked: &[Pair], marked: &Pairs) -> Result<Vec<bool>>
    ensures unmarked { IfOk result (λ follows. follows.items
        ≡ map (λ (p : Pair). not (listed_pairs marked.now p.older p.newer)) asked.now) }
    ensures refused { IfErr result (λ e. e.kind ≡ OutOfMemory) }
{
    let mut follows = Vec::new(alloc);
    for pair in asked {
        follows.push(!marked.has(*pair))?;
    }
    Ok(follows)
}
