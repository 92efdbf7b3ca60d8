//! Ids that are met on a way.
ghost use Rattle.std.specs.HashSet.{contains};
ghost use Rattle.std.specs.Prelude.{ℕ, List, [], ◌∷◌, ◌≡◌, ◌||◌, nat_eq, not, true, IfErr, IfOk};
ghost use Rattle.capnp_device.specs.declared.error.ErrorKind.TheVariants.{OutOfMemory};
ghost use Rattle.capnp_request.specs.Scopes.{is_met};
ghost use Rattle.capnp_request.specs.Steps.Way.{AreOnWay, is_on_way};

use capnp_wire::error::Result;
use std::alloc::Global;
use std::collections::HashSet;

/// How many ids stand in a row: most ways are short, so that no id of theirs is hashed.
const FEW: usize = 8;

/// The ids that were met on a way: the first few in a row, the others in a set.
#[derive(Drop)]
pub(crate) struct Way {
    few: Vec<u64>,
    others: HashSet<u64>,
}

/// Whether an id is one of these.
fn is_among(ids: &[u64], id: u64) -> bool
    ensures { result ≡ is_met ids.now id }
{
    for other in ids {
        if *other == id {
            return true;
        }
    }
    false
}

impl Way {
    /// A way on which nothing was met.
    pub(crate) fn new(alloc: Global) -> Way
        ensures { AreOnWay result [] }
    {
        Way {
            few: Vec::new(alloc),
            others: HashSet::new(alloc),
        }
    }

    /// Whether an id was met.
    fn has(&self, id: u64) -> bool
        ensures { result ≡ is_on_way self.now id }
    {
        is_among(self.few.as_slice(), id) || self.others.contains(&id)
    }

    /// Puts an id that was not met.
    fn put(&mut self, id: u64) -> Result<()>
        ensures put { IfOk result (λ _. (q : ℕ) → is_on_way self.new q ≡ (nat_eq id q || is_on_way self.old q)) }
        ensures kinds { IfErr result (λ e. e.kind ≡ OutOfMemory) }
    {
        if self.few.len() < FEW {
            self.few.push(id)?;
            return Ok(());
        }
        self.others.insert(id)?;
        Ok(())
    }

    /// Meets an id: whether it is new.
    pub(crate) fn meet(&mut self, id: u64) -> Result<bool>
        ensures new { (ids : List ℕ) → AreOnWay self.old ids → IfOk result (λ is_new. is_new ≡ not (is_met ids id)) }
        ensures met { (ids : List ℕ) → AreOnWay self.old ids
            → IfOk result (λ is_new. is_new ≡ true → AreOnWay self.new (id ∷ ids)) }
        ensures kinds { IfErr result (λ e. e.kind ≡ OutOfMemory) }
    {
        if self.has(id) {
            return Ok(false);
        }
        self.put(id)?;
        Ok(true)
    }
}
