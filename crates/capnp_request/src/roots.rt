//! The structs with which a conversion begins: those of the requested files.
ghost use Rattle.std.specs.Prelude.{ℕ, List, [], ◌∷◌, ◌≡◌, ◌++◌, false, slice_get, IfErr, IfOk, OnOk};
ghost use Rattle.capnp_device.specs.declared.error.ErrorKind.TheVariants.{OutOfMemory};
ghost use Rattle.capnp_request.specs.Steps.Seen.{IsRequestRecord, record_seen};
ghost use Rattle.capnp_request.specs.RequestSet.{request_set};
ghost use Rattle.capnp_schema.specs.Builtin.{zero_word};
ghost use Rattle.capnp_schema.specs.Schema.{ListValue, UIntValue, field_at, is_member};
ghost use Rattle.capnp_schema.specs.Types.{UIntType};
ghost use Rattle.capnp_request.specs.Steps.Done.{IsWorkDone, IsSaid, between};
ghost use Rattle.capnp_request.specs.Steps.Handles.{IsListOf, IsRequestSlot, values_left};
ghost use Rattle.capnp_request.specs.Steps.Met.{AreMet};
ghost use Rattle.capnp_request.specs.Steps.Nodes.{AreNodes, nodes_of};
ghost use Rattle.capnp_request.specs.Steps.Numbers.{AreNumbered};
ghost use Rattle.capnp_request.specs.Order.{name_files, name_root, new_ids};
ghost use Rattle.capnp_request.specs.Parts.{request_read_at};
ghost use Rattle.capnp_request.specs.Steps.Parts.{request_structs};
ghost use Rattle.capnp_request.specs.Reading.{all_said, each_said, id_said, node_said, whole_list};
ghost use Rattle.capnp_request.specs.Refusals.{IsUnstrict};
ghost use Rattle.capnp_request.specs.Types.{is_root};

use crate::context::Context;
use crate::entries::{BoundNode, Entries};
use crate::handles::RequestRecord;
use crate::parts::{element_at, list_at, u64_at};
use crate::places::{LISTED_ID, NODE_NESTED_NODES, REQUEST_FILES, brands, slots};
use crate::schema_nodes::{SchemaNodes, is_struct_not_group};
use crate::scopes::unbound;
use capnp_wire::error::Result;
use std::alloc::Global;
use std::collections::HashSet;

/// The ids of the records that a field lists.
fn listed_ids(
    alloc: Global,
    reader: RequestRecord<'_>,
    brand: u32,
    index: u16,
    place: u16,
    inner: u32,
) -> Result<Vec<u64>>
    requires record { IsRequestRecord brand reader }
    requires field { IsRequestSlot brand index (request_structs inner) place (ListValue zero_word) }
    requires non_union { is_member (field_at request_set brand index).field ≡ false }
    requires id { IsRequestSlot inner 0 (UIntType 8) 0 (UIntValue 8 0) }
    requires id_non_union { is_member (field_at request_set inner 0).field ≡ false }
    ensures said { IsSaid (λ ids. ids.items)
        (whole_list inner (id_said inner) (request_read_at brand index (record_seen reader.entry))) result }
    ensures kinds { IfErr result (λ e. IsUnstrict e.kind) }
{
    let listed = list_at(reader, brand, index, place, inner)?;
    let mut ids = Vec::new(alloc);
    for at in 0..listed.len() {
        let element = element_at(listed, at, inner)?;
        ids.push(u64_at(element, inner, LISTED_ID, slots::LISTED_ID))?;
    }
    Ok(ids)
}

/// Puts an id at the queue's end, but one that was put there before or that no node has.
fn put_id(
    nodes: &SchemaNodes<'_>,
    queue: &mut Vec<u64>,
    met: &mut HashSet<u64>,
    id: u64,
) -> Result<()>
    requires { AreNodes nodes.now }
    ensures queue { (before : List ℕ) → AreMet met.old before
        → IfOk result (λ _. queue.new.items ≡ queue.old.items ++ new_ids (nodes_of nodes.now) (id ∷ []) before) }
    ensures met { (before : List ℕ) → AreMet met.old before
        → IfOk result (λ _. AreMet met.new (new_ids (nodes_of nodes.now) (id ∷ []) before ++ before)) }
    ensures kinds { IfErr result (λ e. e.kind ≡ OutOfMemory) }
{
    if nodes.get(id).is_none() {
        return Ok(());
    }
    if !met.insert(id)? {
        return Ok(());
    }
    queue.push(id)?;
    Ok(())
}

/// Puts ids at the queue's end, but those that were put there before or that no node has.
fn put_ids(
    nodes: &SchemaNodes<'_>,
    queue: &mut Vec<u64>,
    met: &mut HashSet<u64>,
    ids: &[u64],
) -> Result<()>
    requires { AreNodes nodes.now }
    ensures queue { (before : List ℕ) → AreMet met.old before
        → IfOk result (λ _. queue.new.items ≡ queue.old.items ++ new_ids (nodes_of nodes.now) ids.now before) }
    ensures met { (before : List ℕ) → AreMet met.old before
        → IfOk result (λ _. AreMet met.new (new_ids (nodes_of nodes.now) ids.now before ++ before)) }
    ensures kinds { IfErr result (λ e. e.kind ≡ OutOfMemory) }
{
    for id in ids {
        put_id(nodes, queue, met, *id)?;
    }
    Ok(())
}

/// The id at a place of the queue.
fn queued(queue: &[u64], position: u32) -> Option<u64>
    ensures { result ≡ slice_get queue.now position }
{
    queue.get(position as usize).copied()
}

/// Numbers the struct of a node, where it is one and no group, with nothing bound.
fn number_root<'a>(
    context: Context<'_, 'a>,
    entries: &mut Entries,
    id: u64,
    node: RequestRecord<'a>,
) -> Result<()>
    requires nodes { AreNodes context.nodes.now }
    requires numbers { AreNumbered entries.now }
    requires is_record { IsRequestRecord 2 node }
    ensures done { IsWorkDone (λ _. []) (name_root (nodes_of context.entry.nodes.now) context.entry.strict id
        (is_root (node_said (record_seen node.entry)).kind)) (between entries.old) (between entries.new) result }
    ensures numbers { IfOk result (λ _. AreNumbered entries.new) }
    ensures kinds { IfErr result (λ e. IsUnstrict e.kind) }
{
    if !is_struct_not_group(node) {
        return Ok(());
    }
    let scopes = unbound(context.alloc, context.nodes, id)?;
    let _number = entries.number_of(context.alloc, BoundNode { id, scopes })?;
    Ok(())
}

/// Numbers the roots: the structs that are no groups among the requested files and what is nested in these, breadth
/// first, with nothing bound.
pub(crate) fn number_roots<'a>(
    context: Context<'_, 'a>,
    entries: &mut Entries,
    request: RequestRecord<'a>,
) -> Result<()>
    requires nodes { AreNodes context.nodes.now }
    requires numbers { AreNumbered entries.now }
    requires is_record { IsRequestRecord 0 request }
    ensures done { IsWorkDone (λ _. []) (name_files (nodes_of context.entry.nodes.now) context.entry.strict
        (whole_list 1 (id_said 1) (request_read_at 0 1 (record_seen request.entry)))) (between entries.old)
        (between entries.new) result }
    ensures numbers { IfOk result (λ _. AreNumbered entries.new) }
    ensures kinds { IfErr result (λ e. IsUnstrict e.kind) }
{
    let mut queue = Vec::new(context.alloc);
    let mut met = HashSet::new(context.alloc);
    let files = listed_ids(
        context.alloc,
        request,
        brands::REQUEST,
        REQUEST_FILES,
        slots::REQUEST_FILES,
        brands::FILE,
    )?;
    let listed = files.as_slice();
    put_ids(context.nodes, &mut queue, &mut met, listed)?;
    for position in 0..context.nodes.count() {
        let waiting = queue.as_slice();
        let Some(id) = queued(waiting, position) else {
            return Ok(());
        };
        let node = context.nodes.found(id)?;
        let nested = listed_ids(
            context.alloc,
            node,
            brands::NODE,
            NODE_NESTED_NODES,
            slots::NODE_NESTED_NODES,
            brands::NESTED,
        )?;
        number_root(context, entries, id, node)?;
        let inner = nested.as_slice();
        put_ids(context.nodes, &mut queue, &mut met, inner)?;
    }
    Ok(())
}
