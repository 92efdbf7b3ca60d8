//! What is bound to the type parameters of scopes.
ghost use Rattle.std.specs.Prelude.{◌≡◌, ◌≢◌, map, option_map, IfErr, IfOk, Ok, Err};
ghost use Rattle.capnp_device.specs.declared.error.ErrorKind.TheVariants.{OutOfMemory};
ghost use Rattle.capnp_schema.specs.Types.{AnyPointerType};
ghost use Rattle.capnp_request.specs.Steps.Bindings.{bounds, seen_bound, seen_marked, with_nothing};
ghost use Rattle.capnp_request.specs.Conversion.{is_untyped};
ghost use Rattle.capnp_request.specs.Steps.Nodes.{AreNodes, nodes_of};
ghost use Rattle.capnp_request.specs.Refusals.{IsUnstrict};
ghost use Rattle.capnp_request.specs.Scopes.{scope_among, scopes_of};
ghost use Rattle.capnp_request.specs.Types.{bound_to};
ghost use Rattle.capnp_request.specs.Work.{plain};

use crate::entries::BoundScope;
use crate::marks::{MarkedType, plain};
use crate::schema_nodes::{GenericScope, SchemaNodes};
use capnp_base::introspect::{Type, TypeVariant};
use capnp_wire::error::Result;
use std::alloc::Global;

/// Whether a type is an untyped pointer.
pub(crate) fn is_untyped(t: MarkedType) -> bool
    ensures { result ≡ is_untyped (seen_marked t).type }
{
    match t.standing.which() {
        TypeVariant::AnyPointer => true,
        _ => false,
    }
}

/// An untyped pointer's type.
pub(crate) fn untyped() -> MarkedType
    ensures { seen_marked result ≡ plain AnyPointerType }
{
    plain(Type::from(TypeVariant::AnyPointer))
}

/// The scopes of a node with nothing bound.
pub(crate) fn unbound(alloc: Global, nodes: &SchemaNodes<'_>, id: u64) -> Result<Vec<BoundScope>>
    requires { AreNodes nodes.now }
    ensures read { IfOk result (λ scopes. scopes_of (nodes_of nodes.now) id ≡ Ok (bounds scopes.items)) }
    ensures refused { IfErr result (λ e. e.kind ≢ OutOfMemory → scopes_of (nodes_of nodes.now) id ≡ Err e.kind) }
    ensures kinds { IfErr result (λ e. IsUnstrict e.kind) }
{
    let generic = nodes.generic_scopes(alloc, id)?;
    let mut scopes = Vec::new(alloc);
    for scope in generic.as_slice() {
        scopes.push(bound_scope(*scope, Vec::new(alloc)))?;
    }
    Ok(scopes)
}

/// A scope with the types of its first parameters.
pub(crate) fn bound_scope(scope: GenericScope, types: Vec<MarkedType>) -> BoundScope
    ensures { seen_bound result ≡ record (with_nothing scope) { types = map seen_marked types.items } }
{
    BoundScope {
        id: scope.id,
        distance: scope.distance,
        parameters: scope.parameters,
        types,
    }
}

/// A copy of scopes and of what is bound to them.
pub(crate) fn copied_scopes(alloc: Global, scopes: &[BoundScope]) -> Result<Vec<BoundScope>>
    ensures read { IfOk result (λ copy. bounds copy.items ≡ bounds scopes.now) }
    ensures kinds { IfErr result (λ e. e.kind ≡ OutOfMemory) }
{
    let mut copy = Vec::new(alloc);
    for scope in scopes {
        let types = scope.types.as_slice().to_vec(alloc)?;
        copy.push(BoundScope {
            id: scope.id,
            distance: scope.distance,
            parameters: scope.parameters,
            types,
        })?;
    }
    Ok(copy)
}

/// What is bound to a parameter of a scope: an untyped pointer where nothing is.
pub(crate) fn bound_to(scopes: &[BoundScope], id: u64, index: u16) -> MarkedType
    ensures { seen_marked result ≡ bound_to (bounds scopes.now) id index }
{
    match scope_of(scopes, id) {
        Some(scope) => scope
            .types
            .get(index as usize)
            .copied()
            .unwrap_or(untyped()),
        None => untyped(),
    }
}

/// The first scope of an id.
pub(crate) fn scope_of(scopes: &[BoundScope], id: u64) -> Option<&BoundScope>
    ensures { option_map (λ scope. seen_bound scope.now) result ≡ scope_among (bounds scopes.now) id }
{
    for scope in scopes {
        if scope.id == id {
            return Some(scope);
        }
    }
    None
}
