//! Who names each of the pairs that are compared.
ghost use Rattle.std.specs.Prelude.{[], ◌≡◌, ◌<◌, IfErr, IfOk, OnOk, Some, length, slice_get};
ghost use Rattle.capnp_device.specs.declared.error.ErrorKind.TheVariants.{OutOfMemory};
ghost use Rattle.capnp_schema.specs.Entries.{lists_seen};
ghost use Rattle.capnp_schema.specs.Schema.{fields_of};
ghost use Rattle.capnp_differences.specs.Steps.Comparing.{Adds, pair_of};
ghost use Rattle.capnp_differences.specs.Steps.Edges.{AreChained, AreNamers, HasEdge, IsNamedBy, Joins, last_number};

use crate::differences::Pair;
use crate::named::{named_at, shared_count};
use crate::pairs::Pairs;
use capnp_schema::set::SchemaSet;
use capnp_wire::error::Result;
use std::alloc::Global;
use std::collections::HashMap;

/// That a pair names another one, and the number of the last edge before this one that leads from the same named pair.
/// Edges are counted from 1, and 0 is none.
#[derive(Clone, Copy)]
pub(crate) struct Edge {
    pub(crate) named: Pair,
    pub(crate) namer: Pair,
    pub(crate) before: usize,
}

/// Edges from named pairs to those that name them, and the number of the last edge of each named pair. So those who name
/// one pair are found without a look at any other edge.
#[derive(Drop)]
pub(crate) struct Namers {
    pub(crate) edges: Vec<Edge>,
    pub(crate) last: HashMap<(u32, u32), usize>,
}

/// The number of the last edge of a named pair.
fn last_at(last: &HashMap<(u32, u32), usize>, named: Pair) -> usize
    ensures { result ≡ last_number last.now named }
{
    match last.get(&(named.older, named.newer)) {
        Some(number) => *number,
        None => 0,
    }
}

fn edge_at(edges: &[Edge], index: usize) -> Edge
    requires { index < length edges.now }
    ensures { slice_get edges.now index ≡ Some result }
{
    edges[index]
}

/// Puts an edge at the end.
fn push_edge(namers: &mut Namers, named: Pair, namer: Pair) -> Result<()>
    requires { AreChained namers.old }
    ensures chained { OnOk result (AreChained namers.new) }
    ensures joined { OnOk result (Joins namers.old.edges.items namers.new.edges.items (λ q p. (q ≡ named) × (p ≡ namer))) }
    ensures refused { IfErr result (λ e. e.kind ≡ OutOfMemory) }
{
    let before = last_at(&namers.last, named);
    namers.edges.push(Edge {
        named,
        namer,
        before,
    })?;
    let number = namers.edges.len();
    namers.last.insert((named.older, named.newer), number)?;
    Ok(())
}

/// Puts an edge at the end, where there is a named pair.
fn push_some(namers: &mut Namers, named: Option<Pair>, namer: Pair) -> Result<()>
    requires { AreChained namers.old }
    ensures chained { OnOk result (AreChained namers.new) }
    ensures joined { OnOk result (Joins namers.old.edges.items namers.new.edges.items (λ q p. (named ≡ Some q) × (p ≡ namer))) }
    ensures refused { IfErr result (λ e. e.kind ≡ OutOfMemory) }
{
    match named {
        Some(found) => {
            push_edge(namers, found, namer)?;
            Ok(())
        }
        None => Ok(()),
    }
}

/// Puts the edges from all that the fields of a pair name at the end.
fn push_named(schemas: &SchemaSet, namers: &mut Namers, namer: Pair) -> Result<()>
    requires { AreChained namers.old }
    ensures chained { OnOk result (AreChained namers.new) }
    ensures joined { OnOk result (Joins namers.old.edges.items namers.new.edges.items (IsNamedBy (lists_seen schemas.now) namer
        (length (fields_of (lists_seen schemas.now) namer.older)))) }
    ensures refused { IfErr result (λ e. e.kind ≡ OutOfMemory) }
{
    for i in 0..shared_count(schemas, namer.older, namer.newer) {
        push_some(
            namers,
            named_at(schemas, namer.older, namer.newer, i),
            namer,
        )?;
    }
    Ok(())
}

/// No edges.
fn no_namers(alloc: Global) -> Namers
    ensures chained { AreChained result }
    ensures none { result.edges.items ≡ [] }
{
    Namers {
        edges: Vec::new(alloc),
        last: HashMap::new(alloc),
    }
}

/// Who of the pairs names each other one.
pub(crate) fn namers_among(alloc: Global, schemas: &SchemaSet, pairs: &Pairs) -> Result<Namers>
    ensures chained { IfOk result AreChained }
    ensures namers { IfOk result (λ n. AreNamers (lists_seen schemas.now) pairs.now n.edges.items) }
    ensures refused { IfErr result (λ e. e.kind ≡ OutOfMemory) }
{
    let mut namers = no_namers(alloc);
    for i in 0..pairs.len() {
        push_named(schemas, &mut namers, pairs.at(i))?;
    }
    Ok(namers)
}

/// Marks those who name a pair.
pub(crate) fn mark_namers(namers: &Namers, named: Pair, marked: &mut Pairs) -> Result<()>
    requires { AreChained namers.now }
    ensures marked { OnOk result (Adds marked.old marked.new (λ a b. HasEdge namers.now.edges.items named (pair_of a b))) }
    ensures refused { IfErr result (λ e. e.kind ≡ OutOfMemory) }
{
    let mut number = last_at(&namers.last, named);
    while number > 0 {
        let edge = edge_at(&namers.edges, number - 1);
        marked.add(edge.namer)?;
        number = edge.before;
    }
    Ok(())
}
