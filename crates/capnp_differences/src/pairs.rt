//! Pairs of structs, in the order in which they were added, and none of them twice.
ghost use Rattle.std.specs.Prelude.{◌≡◌, ◌<◌, ◌++◌, [], ◌∷◌, IfErr, IfOk, OnErr, OnOk, Some, length, slice_get};
ghost use Rattle.capnp_device.specs.declared.error.ErrorKind.TheVariants.{OutOfMemory};
ghost use Rattle.capnp_differences.specs.Closing.{listed_pairs};
ghost use Rattle.capnp_differences.specs.Steps.Comparing.{Adds, IsPairOf};
ghost use Rattle.capnp_differences.specs.Steps.Gathering.{Gathers, IsAt, IsToldAt};

use crate::differences::{Difference, Pair};
use capnp_wire::error::{Error, Result};
use std::alloc::Global;
use std::collections::HashSet;
use std::marker::Model;

/// Pairs as a list. Whether it has a pair is asked of a set beside it, so that a long list isn't gone through.
#[derive(Drop)]
pub(crate) struct Pairs {
    list: Vec<Pair>,
    keys: HashSet<(u32, u32)>,
}

impl Model for Pairs {
    ghost use Rattle.std.specs.Prelude.{List};
    ghost use Rattle.capnp_differences.specs.declared.differences.Pair.{Pair};
    ghost use Rattle.capnp_differences.specs.Keys.{AreKeysOf};

    ghost Value = { List Pair };

    ghost view = { λ p. p.list.items };

    ghost invariant = { λ p. AreKeysOf p.list.items p.keys };
}

fn pair_at(pairs: &[Pair], index: usize) -> Pair
    requires { index < length pairs.now }
    ensures { slice_get pairs.now index ≡ Some result }
{
    pairs[index]
}

fn difference_at(told: &[Difference], index: usize) -> Difference
    requires { index < length told.now }
    ensures { slice_get told.now index ≡ Some result }
{
    told[index]
}

impl Pairs {
    /// The list of one pair.
    pub(crate) fn of(alloc: Global, first: Pair) -> Result<Pairs>
        ensures list { IfOk result (λ pairs. pairs ≡ first ∷ []) }
        ensures refused { IfErr result (λ e. e.kind ≡ OutOfMemory) }
    {
        let mut pairs = Pairs::empty(alloc);
        pairs.push(first)?;
        Ok(pairs)
    }

    /// The pairs of a list, each once.
    pub(crate) fn of_list(alloc: Global, asked: &[Pair]) -> Result<Pairs>
        ensures list { IfOk result (λ pairs. Gathers (IsAt asked.now) pairs (length asked.now)) }
        ensures refused { IfErr result (λ e. e.kind ≡ OutOfMemory) }
    {
        let mut pairs = Pairs::empty(alloc);
        for i in 0..asked.len() {
            pairs.add(pair_at(asked, i))?;
        }
        Ok(pairs)
    }

    /// The pairs in which something differs, each once.
    pub(crate) fn of_differences(alloc: Global, told: &[Difference]) -> Result<Pairs>
        ensures list { IfOk result (λ pairs. Gathers (IsToldAt told.now) pairs (length told.now)) }
        ensures refused { IfErr result (λ e. e.kind ≡ OutOfMemory) }
    {
        let mut pairs = Pairs::empty(alloc);
        for i in 0..told.len() {
            pairs.add(difference_at(told, i).pair)?;
        }
        Ok(pairs)
    }

    fn empty(alloc: Global) -> Pairs
        ensures { result ≡ [] }
    {
        Pairs {
            list: Vec::new(alloc),
            keys: HashSet::new(alloc),
        }
    }

    /// How many pairs there are.
    pub(crate) fn len(&self) -> usize
        ensures { result ≡ length self.now }
    {
        self.list.len()
    }

    /// The pair at an index.
    pub(crate) fn at(&self, index: usize) -> Pair
        requires { index < length self.now }
        ensures { slice_get self.now index ≡ Some result }
    {
        self.list[index]
    }

    /// Whether a pair is there.
    pub(crate) fn has(&self, pair: Pair) -> bool
        ensures { result ≡ listed_pairs self.now pair.older pair.newer }
    {
        self.keys.contains(&(pair.older, pair.newer))
    }

    /// Puts a pair at the end. Where there is no memory the list stays.
    #[tactic(auto, using(crate::proofs::Keys::keys_more, crate::proofs::Keys::keys_same))]
    pub(crate) fn push(&mut self, pair: Pair) -> Result<()>
        ensures more { OnOk result (self.new ≡ self.old ++ (pair ∷ [])) }
        ensures unchanged { OnErr result (self.new ≡ self.old) }
        ensures refused { IfErr result (λ e. e.kind ≡ OutOfMemory) }
    {
        self.list.push(pair)?;
        match self.keys.insert((pair.older, pair.newer)) {
            Ok(_) => Ok(()),
            Err(error) => {
                self.list.pop();
                Err(Error::from(error))
            }
        }
    }

    /// Adds a pair that isn't there yet.
    pub(crate) fn add(&mut self, pair: Pair) -> Result<()>
        ensures added { OnOk result (Adds self.old self.new (IsPairOf pair)) }
        ensures refused { IfErr result (λ e. e.kind ≡ OutOfMemory) }
    {
        if self.has(pair) {
            return Ok(());
        }
        self.push(pair)?;
        Ok(())
    }
}
