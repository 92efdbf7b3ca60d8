//! The schema nodes of a request: by id, and by what they have.
ghost use Rattle.std.specs.HashMap.{get};
ghost use Rattle.std.specs.Prelude.{ℕ, [], ◌++◌, nat_eq, OnOk, ◌≡◌, ◌≢◌, IfErr, IfOk, IfSome, IsTrue, Some, None, Ok, Err, false, length, map, option_map, true};
ghost use Rattle.capnp_device.specs.declared.error.ErrorKind.TheVariants.{NodeNotFound, OutOfMemory};
ghost use Rattle.capnp_records.specs.Part.{which_of};
ghost use Rattle.capnp_request.specs.Steps.Seen.{IsRequestRecord, list_seen, record_seen};
ghost use Rattle.capnp_request.specs.Steps.Bindings.{with_nothing};
ghost use Rattle.capnp_request.specs.Conversion.{declared_term};
ghost use Rattle.capnp_request.specs.Steps.Handles.{IsListOf};
ghost use Rattle.capnp_request.specs.Steps.Nodes.{AreNodes, first_kept, node_record, nodes_of};
ghost use Rattle.capnp_request.specs.Reading.{declaration_said, enumerant_said, list_said, node_said, nodes_in, struct_said};
ghost use Rattle.capnp_request.specs.Refusals.{IsUnstrict};
ghost use Rattle.capnp_request.specs.Scopes.{node_named, scopes_of, with_scope};
ghost use Rattle.capnp_request.specs.Terms.{EnumNode, StructNode};
ghost use Rattle.capnp_request.specs.Types.{is_enum, is_of_kind, is_root, is_struct_kind};
ghost use Rattle.capnp_request.specs.Steps.Types.{is_annotation};

use crate::handles::{RequestList, RequestRecord};
use crate::met::Way;
use crate::parts::{bool_at, element_at, group_at, list_at, node_member, text_at, u64_at};
use crate::places::{
    ENUM_ENUMERANTS, NODE_ANNOTATION, NODE_DISPLAY_NAME, NODE_ENUM, NODE_ID, NODE_PARAMETERS,
    NODE_SCOPE_ID, NODE_STRUCT, REQUEST_NODES, STRUCT_IS_GROUP, brands, slots,
};
use capnp_wire::StructReader;
use capnp_wire::error::{Error, ErrorKind, Result};
use std::alloc::Global;
use std::collections::HashMap;

/// The schema nodes of a request, by their ids. Where two have one id, the first counts.
#[derive(Drop)]
pub(crate) struct SchemaNodes<'a> {
    request: RequestRecord<'a>,
    count: u32,
    by_id: HashMap<u64, StructReader<'a>>,
}

/// A scope of a node that has type parameters.
#[derive(Clone, Copy)]
pub(crate) struct GenericScope {
    pub(crate) id: u64,
    /// How many scopes are passed on the way out to it: 0 for the node itself.
    pub(crate) distance: u32,
    /// How many type parameters it has, at least one.
    pub(crate) parameters: u32,
}

/// The refusal of an id that no node of the kind has.
fn not_found() -> Error
    ensures { result.kind ≡ NodeNotFound }
{
    Error {
        kind: ErrorKind::NodeNotFound,
    }
}

/// Adds a scope, where it has parameters.
fn add_scope(scopes: &mut Vec<GenericScope>, id: u64, distance: u32, parameters: u32) -> Result<()>
    ensures added { OnOk result (map with_nothing scopes.new.items
        ≡ map with_nothing scopes.old.items ++ with_scope id distance parameters []) }
    ensures kinds { IfErr result (λ e. e.kind ≡ OutOfMemory) }
{
    if parameters == 0 {
        return Ok(());
    }
    scopes.push(GenericScope {
        id,
        distance,
        parameters,
    })?;
    Ok(())
}

/// Keeps the sections of a node by its id, where none is kept of that id.
fn keep_first<'a>(
    by_id: &mut HashMap<u64, StructReader<'a>>,
    id: u64,
    sections: StructReader<'a>,
) -> Result<()>
    ensures kept { OnOk result ((q : ℕ) → get nat_eq by_id.new q
        ≡ first_kept (get nat_eq by_id.old q) (nat_eq id q) sections.entry) }
    ensures kinds { IfErr result (λ e. e.kind ≡ OutOfMemory) }
{
    if by_id.contains_key(&id) {
        return Ok(());
    }
    by_id.insert(id, sections)?;
    Ok(())
}

/// The node of these sections.
fn node_of(sections: StructReader<'_>) -> RequestRecord<'_>
    ensures record { IsRequestRecord 2 result }
    ensures read { record_seen result ≡ node_record sections.entry }
{
    RequestRecord {
        sections,
        brand: brands::NODE,
    }
}

impl<'a> SchemaNodes<'a> {
    /// The nodes of a request.
    pub(crate) fn of_request(alloc: Global, request: RequestRecord<'a>) -> Result<SchemaNodes<'a>>
        requires { IsRequestRecord 0 request }
        ensures nodes { IfOk result AreNodes }
        ensures read { IfOk result (λ nodes. nodes_in (record_seen request.entry) ≡ Ok (nodes_of nodes)) }
        ensures refused { IfErr result (λ e. e.kind ≢ OutOfMemory → nodes_in (record_seen request.entry) ≡ Err e.kind) }
        ensures kinds { IfErr result (λ e. IsUnstrict e.kind) }
    {
        let listed = list_at(
            request,
            brands::REQUEST,
            REQUEST_NODES,
            slots::REQUEST_NODES,
            brands::NODE,
        )?;
        let mut by_id = HashMap::new(alloc);
        for index in 0..listed.len() {
            let reader = element_at(listed, index, brands::NODE)?;
            let id = u64_at(reader, brands::NODE, NODE_ID, slots::NODE_ID);
            keep_first(&mut by_id, id, reader.sections)?;
        }
        let count = listed.len();
        Ok(SchemaNodes {
            request,
            count,
            by_id,
        })
    }

    /// How many nodes the request lists.
    pub(crate) fn count(&self) -> u32
        requires { AreNodes self.now }
        ensures { result ≡ length (nodes_of self.now) }
    {
        self.count
    }

    /// The node of an id; none where no node has it.
    pub(crate) fn get(&self, id: u64) -> Option<RequestRecord<'a>>
        requires { AreNodes self.now }
        ensures record { IfSome result (IsRequestRecord 2) }
        ensures read { option_map (λ node. node_said (record_seen node)) result ≡ node_named (nodes_of self.now) id }
    {
        match self.by_id.get(&id) {
            Some(sections) => Some(node_of(*sections)),
            None => None,
        }
    }

    /// The node of an id. Refused with `NodeNotFound` where no node has it.
    pub(crate) fn found(&self, id: u64) -> Result<RequestRecord<'a>>
        requires { AreNodes self.now }
        ensures record { IfOk result (IsRequestRecord 2) }
        ensures read { IfOk result (λ node. node_named (nodes_of self.now) id ≡ Some (node_said (record_seen node))) }
        ensures missing { IfErr result (λ _. node_named (nodes_of self.now) id ≡ None) }
        ensures kinds { IfErr result (λ e. e.kind ≡ NodeNotFound) }
    {
        match self.get(id) {
            Some(node) => Ok(node),
            None => Err(not_found()),
        }
    }

    /// That an id is a struct's. Refused with `NodeNotFound` where no node has the id, or one that is no struct.
    pub(crate) fn struct_node(&self, id: u64) -> Result<()>
        requires { AreNodes self.now }
        ensures found { IfOk result (λ _. is_of_kind is_struct_kind (node_named (nodes_of self.now) id) ≡ true) }
        ensures missing { IfErr result (λ _. is_of_kind is_struct_kind (node_named (nodes_of self.now) id) ≡ false) }
        ensures kinds { IfErr result (λ e. e.kind ≡ NodeNotFound) }
    {
        let Some(node) = self.get(id) else {
            return Err(not_found());
        };
        if is_struct_node(node) {
            return Ok(());
        }
        Err(not_found())
    }

    /// That an id is an enum's. Refused with `NodeNotFound` where no node has the id, or one that is no enum.
    pub(crate) fn enum_node(&self, id: u64) -> Result<()>
        requires { AreNodes self.now }
        ensures found { IfOk result (λ _. is_of_kind is_enum (node_named (nodes_of self.now) id) ≡ true) }
        ensures missing { IfErr result (λ _. is_of_kind is_enum (node_named (nodes_of self.now) id) ≡ false) }
        ensures kinds { IfErr result (λ e. e.kind ≡ NodeNotFound) }
    {
        let Some(node) = self.get(id) else {
            return Err(not_found());
        };
        if is_enum_node(node) {
            return Ok(());
        }
        Err(not_found())
    }

    /// The declaration of an annotation by its id. Refused with `NodeNotFound` where no node has the id, or one that is
    /// no annotation.
    pub(crate) fn declaration(&self, id: u64) -> Result<RequestRecord<'a>>
        requires { AreNodes self.now }
        ensures record { IfOk result (IsRequestRecord 5) }
        ensures read { IfOk result (λ d. declared_term (node_named (nodes_of self.now) id)
            ≡ Some (declaration_said (record_seen d))) }
        ensures missing { IfErr result (λ _. declared_term (node_named (nodes_of self.now) id) ≡ None) }
        ensures kinds { IfErr result (λ e. e.kind ≡ NodeNotFound) }
    {
        let Some(node) = self.get(id) else {
            return Err(not_found());
        };
        if !is_annotation_node(node) {
            return Err(not_found());
        }
        let declaration = group_at(node, brands::NODE, NODE_ANNOTATION, brands::DECLARATION);
        Ok(declaration)
    }

    /// The scopes of an id's node that have type parameters, inmost first. The scopes are the node, the node of its
    /// scope id, and so on, up to an id that no node has or that was met.
    pub(crate) fn generic_scopes(&self, alloc: Global, id: u64) -> Result<Vec<GenericScope>>
        requires { AreNodes self.now }
        ensures read { IfOk result (λ scopes. scopes_of (nodes_of self.now) id ≡ Ok (map with_nothing scopes.items)) }
        ensures refused { IfErr result (λ e. e.kind ≢ OutOfMemory → scopes_of (nodes_of self.now) id ≡ Err e.kind) }
        ensures kinds { IfErr result (λ e. IsUnstrict e.kind) }
    {
        let mut scopes = Vec::new(alloc);
        let mut way = Way::new(alloc);
        let mut id = id;
        for distance in 0..self.count {
            let Some(node) = self.get(id) else {
                return Ok(scopes);
            };
            let is_new = way.meet(id)?;
            if !is_new {
                return Ok(scopes);
            }
            let listed = list_at(
                node,
                brands::NODE,
                NODE_PARAMETERS,
                slots::NODE_PARAMETERS,
                brands::PARAMETER,
            )?;
            add_scope(&mut scopes, id, distance, listed.len())?;
            id = u64_at(node, brands::NODE, NODE_SCOPE_ID, slots::NODE_SCOPE_ID);
        }
        Ok(scopes)
    }
}

/// Whether a node is a struct.
fn is_struct_node(node: RequestRecord<'_>) -> bool
    requires { IsRequestRecord 2 node }
    ensures kind { is_struct_kind (node_said (record_seen node.entry)).kind ≡ result }
    ensures active { IsTrue result → which_of (record_seen node.entry) ≡ Some 6 }
{
    match node_member(node) {
        Some(member) => member == NODE_STRUCT,
        None => false,
    }
}

/// Whether a node is an enum.
fn is_enum_node(node: RequestRecord<'_>) -> bool
    requires { IsRequestRecord 2 node }
    ensures kind { is_enum (node_said (record_seen node.entry)).kind ≡ result }
    ensures active { IsTrue result → which_of (record_seen node.entry) ≡ Some 7 }
{
    match node_member(node) {
        Some(member) => member == NODE_ENUM,
        None => false,
    }
}

/// Whether a node is an annotation.
fn is_annotation_node(node: RequestRecord<'_>) -> bool
    requires { IsRequestRecord 2 node }
    ensures kind { is_annotation (node_said (record_seen node.entry)).kind ≡ result }
    ensures active { IsTrue result → which_of (record_seen node.entry) ≡ Some 10 }
{
    match node_member(node) {
        Some(member) => member == NODE_ANNOTATION,
        None => false,
    }
}

/// The part of a struct's node that only structs have. Refused with `NodeNotFound` where the node is no struct.
pub(crate) fn struct_part<'a>(node: RequestRecord<'a>) -> Result<RequestRecord<'a>>
    requires { IsRequestRecord 2 node }
    ensures record { IfOk result (IsRequestRecord 3) }
    ensures read { IfOk result (λ s. (node_said (record_seen node.entry)).kind
        ≡ StructNode (struct_said (record_seen s))) }
    ensures missing { IfErr result (λ _. is_struct_kind (node_said (record_seen node.entry)).kind ≡ false) }
    ensures kinds { IfErr result (λ e. e.kind ≡ NodeNotFound) }
{
    if !is_struct_node(node) {
        return Err(not_found());
    }
    let part = group_at(node, brands::NODE, NODE_STRUCT, brands::STRUCT);
    Ok(part)
}

/// The enumerants of an enum's node. Refused with `NodeNotFound` where the node is no enum.
pub(crate) fn enumerants<'a>(node: RequestRecord<'a>) -> Result<RequestList<'a>>
    requires { IsRequestRecord 2 node }
    ensures elements { IfOk result (IsListOf 11) }
    ensures read { IfOk result (λ l. (node_said (record_seen node.entry)).kind
        ≡ EnumNode (list_said 11 enumerant_said (list_seen l))) }
    ensures missing { IfErr result (λ e. is_enum (node_said (record_seen node.entry)).kind ≡ false
        → e.kind ≡ NodeNotFound) }
    ensures refused { IfErr result (λ e. is_enum (node_said (record_seen node.entry)).kind ≡ true
        → (node_said (record_seen node.entry)).kind ≡ EnumNode (Err e.kind)) }
    ensures kinds { IfErr result (λ e. IsUnstrict e.kind) }
{
    if !is_enum_node(node) {
        return Err(not_found());
    }
    let part = group_at(node, brands::NODE, NODE_ENUM, brands::ENUM);
    let listed = list_at(
        part,
        brands::ENUM,
        ENUM_ENUMERANTS,
        slots::ENUM_ENUMERANTS,
        brands::ENUMERANT,
    )?;
    Ok(listed)
}

/// Whether a node is a struct that is no group.
pub(crate) fn is_struct_not_group(node: RequestRecord<'_>) -> bool
    requires { IsRequestRecord 2 node }
    ensures { is_root (node_said (record_seen node.entry)).kind ≡ result }
{
    match struct_part(node) {
        Ok(part) => !bool_at(
            part,
            brands::STRUCT,
            STRUCT_IS_GROUP,
            slots::STRUCT_IS_GROUP,
        ),
        Err(_) => false,
    }
}

/// The display name of a node, as it stands.
pub(crate) fn display_name<'a>(node: RequestRecord<'a>) -> Result<&'a [u8]>
    requires { IsRequestRecord 2 node }
    ensures read { IfOk result (λ x. (node_said (record_seen node.entry)).display_name ≡ Ok x.now) }
    ensures refused { IfErr result (λ e. (node_said (record_seen node.entry)).display_name ≡ Err e.kind) }
    ensures kinds { IfErr result (λ e. IsUnstrict e.kind) }
{
    let name = text_at(
        node,
        brands::NODE,
        NODE_DISPLAY_NAME,
        slots::NODE_DISPLAY_NAME,
    )?;
    Ok(name)
}
