//! Types, as a request says them, with the bindings of their brands.
ghost use Rattle.std.specs.Prelude.{ℕ, List, Bool, cond, ◌≡◌, ◌≢◌, ◌<◌, ◌≤◌, ◌-◌, ◌^◌, false, map, option_map, [], IfErr, IfOk, IfSome, Ok, Err, Some};
ghost use Rattle.capnp_device.specs.declared.error.ErrorKind.TheVariants.{OutOfMemory, TooManyTypes};
ghost use Rattle.capnp_base.specs.Types.{type_from};
ghost use Rattle.capnp_request.specs.Steps.Seen.{IsRequestRecord, record_seen};
ghost use Rattle.capnp_request.specs.RequestSet.{request_set};
ghost use Rattle.capnp_schema.specs.Builtin.{zero_word};
ghost use Rattle.capnp_schema.specs.Schema.{StructValue, field_at, is_member};
ghost use Rattle.capnp_schema.specs.Types.{ListType, seen_type};
ghost use Rattle.capnp_records.specs.Part.{which_of};
ghost use Rattle.capnp_records.specs.Record.{Record};
ghost use Rattle.capnp_request.specs.Steps.Bindings.{bounds, flags, seen_marked, with_nothing};
ghost use Rattle.capnp_request.specs.Conversion.{is_untyped};
ghost use Rattle.capnp_request.specs.Steps.Done.{IsWorkDone, IsSaid, so_far};
ghost use Rattle.capnp_request.specs.Steps.Handles.{IsListOf, IsRequestSlot, values_left};
ghost use Rattle.capnp_request.specs.Steps.Meant.{IsSaidByMemberOr, float_type, scope_in};
ghost use Rattle.capnp_request.specs.Steps.Nodes.{AreNodes, nodes_of};
ghost use Rattle.capnp_request.specs.Steps.Numbers.{AreNumbered, numbered_entries};
ghost use Rattle.capnp_request.specs.Parts.{request_struct, request_read_at};
ghost use Rattle.capnp_request.specs.Reading.{binding_said, bindings_said, brand_in, enum_term, list_term, scope_said, scopes_said, struct_term, type_levels, type_said, untyped_term};
ghost use Rattle.capnp_request.specs.Refusals.{IsUnstrict, IsRefusal};
ghost use Rattle.capnp_request.specs.Scopes.{bound_types};
ghost use Rattle.capnp_request.specs.Terms.{SchemaNode, TypeTerm, UnreadBrand};
ghost use Rattle.capnp_request.specs.Types.{bind_scope, binding_types, brand_types, interface, list_of, lists_in, named_scopes, scope_types, type_of, without_untyped};
ghost use Rattle.capnp_request.specs.Work.{Bound, Named, each, Seen as WorkSeen};
ghost use Rattle.capnp_request.specs.Steps.Work.{Numbered, named_with};

use crate::context::Context;
use crate::entries::{BoundNode, BoundScope, Entries, entry_type, enum_type};
use crate::handles::{RequestList, RequestRecord};
use crate::marks::{MarkedType, float, plain};
use crate::notes::Seen;
use crate::parts::{
    binding_member, element_at, group_at, list_at, scope_member, struct_at, type_member, u16_at,
    u64_at, untyped_member,
};
use crate::places::{
    BINDING_TYPE, BINDING_UNBOUND, BRAND_SCOPES, LIST_ELEMENT, NAMED_ID, PARAMETER_INDEX,
    PARAMETER_SCOPE, SCOPE_BIND, SCOPE_ID, SCOPE_INHERIT, STRUCT_BRAND, TYPE_ENUM, TYPE_LIST,
    TYPE_STRUCT, TYPE_UNTYPED, brands, slots,
};
use crate::schema_nodes::GenericScope;
use crate::scopes::{bound_scope, bound_to, is_untyped, scope_of, untyped};
use capnp_base::introspect::{Type, TypeVariant};
use capnp_wire::error::{Error, ErrorKind, Result};
use std::alloc::Global;

/// Where a brand stands: a field of a record of a brand of the request set.
#[derive(Clone, Copy)]
pub(crate) struct BrandPlace<'a> {
    pub(crate) reader: RequestRecord<'a>,
    pub(crate) holder: u32,
    pub(crate) index: u16,
    pub(crate) pointer: u16,
}

/// The levels that a type is read through, as many as a message has.
#[tactic(auto, unfolding(crate::specs::Reading::type_levels))]
pub(crate) fn levels_of_types() -> u32
    ensures { result ≡ type_levels }
{
    64
}

/// The type of a member of a type's union that says all of it.
#[inline(always)]
pub(crate) fn type_said_by_member(member: u16) -> Option<Type>
    ensures { IsSaidByMemberOr member (option_map seen_type result) }
{
    match variant_said_by_member(member) {
        Some(variant) => Some(Type::from(variant)),
        None => None,
    }
}

/// That type as a variant.
#[inline(always)]
fn variant_said_by_member(member: u16) -> Option<TypeVariant>
    ensures { IsSaidByMemberOr member (option_map (λ v. seen_type (type_from v)) result) }
{
    match member {
        0 => Some(TypeVariant::Void),
        1 => Some(TypeVariant::Bool),
        2 => Some(TypeVariant::Int8),
        3 => Some(TypeVariant::Int16),
        4 => Some(TypeVariant::Int32),
        5 => Some(TypeVariant::Int64),
        6 => Some(TypeVariant::UInt8),
        7 => Some(TypeVariant::UInt16),
        8 => Some(TypeVariant::UInt32),
        9 => Some(TypeVariant::UInt64),
        12 => Some(TypeVariant::Text),
        13 => Some(TypeVariant::Data),
        _ => None,
    }
}

/// A `Float32` or `Float64` as an integer of its width, with a note. Refused with `FloatType` where that is asked for.
fn float_type(strict: bool, is_double: bool, seen: &mut Seen) -> Result<MarkedType>
    ensures done { (n : Numbered) → IsWorkDone seen_marked (float_type is_double strict) (named_with n (flags seen.old))
        (named_with n (flags seen.new)) result }
    ensures kinds { IfErr result (λ e. IsRefusal strict e.kind) }
{
    if strict {
        return Err(Error::from(ErrorKind::FloatType));
    }
    if is_double {
        seen.float64 = true;
        return Ok(float(TypeVariant::UInt64));
    }
    seen.float32 = true;
    Ok(float(TypeVariant::UInt32))
}

/// An interface as an untyped pointer, with a note. Refused with `InterfaceType` where that is asked for.
fn interface_type(strict: bool, seen: &mut Seen) -> Result<MarkedType>
    ensures done { (n : Numbered) → IsWorkDone seen_marked (interface strict) (named_with n (flags seen.old))
        (named_with n (flags seen.new)) result }
    ensures kinds { IfErr result (λ e. IsRefusal strict e.kind) }
{
    if strict {
        return Err(Error::from(ErrorKind::InterfaceType));
    }
    seen.interface = true;
    Ok(untyped())
}

/// An untyped pointer, or what is bound to the parameter that it is.
fn untyped_or_bound(inside: &[BoundScope], term: RequestRecord<'_>) -> Result<MarkedType>
    requires record { IsRequestRecord 13 term }
    requires active { which_of (record_seen term) ≡ Some 18 }
    ensures done { (nodes : List SchemaNode) → (strict : Bool) → (s : Named)
        → IsWorkDone seen_marked (type_of nodes strict (bounds inside.now)
        (untyped_term (request_read_at 13 18 (record_seen term.entry)))) s s result }
    ensures kinds { IfErr result (λ e. IsUnstrict e.kind) }
{
    let pointer = group_at(term, brands::TYPE, TYPE_UNTYPED, brands::TYPE_UNTYPED);
    let Some(member) = untyped_member(pointer) else {
        return Err(Error::from(ErrorKind::UnknownKind));
    };
    match member {
        0 => Ok(untyped()),
        1 => {
            let parameter = group_at(pointer, brands::TYPE_UNTYPED, 1, brands::TYPE_PARAMETER);
            let scope = u64_at(
                parameter,
                brands::TYPE_PARAMETER,
                PARAMETER_SCOPE,
                slots::PARAMETER_SCOPE,
            );
            let index = u16_at(
                parameter,
                brands::TYPE_PARAMETER,
                PARAMETER_INDEX,
                slots::PARAMETER_INDEX,
                0,
            );
            Ok(bound_to(inside, scope, index))
        }
        2 => Ok(untyped()),
        _ => Err(Error::from(ErrorKind::UnknownKind)),
    }
}

/// A list of a type. Refused with `TooManyTypes` where as many lists are around the type as are counted.
fn list_type(element: Type) -> Result<Type>
    ensures list { IfOk result (λ t. (lists_in (seen_type element) < 2 ^ 64 - 1)
        × (seen_type t ≡ ListType (seen_type element))) }
    ensures full { IfErr result (λ _. 2 ^ 64 - 1 ≤ lists_in (seen_type element)) }
    ensures kinds { IfErr result (λ e. e.kind ≡ TooManyTypes) }
{
    let list = Type::list_of(element);
    match list.which() {
        TypeVariant::List(inner) => {
            if inner == element {
                return Ok(list);
            }
            Err(Error::from(ErrorKind::TooManyTypes))
        }
        _ => unreachable!(),
    }
}

/// A list of a type, whose numbers are those of its elements. Refused as `list_type`.
fn marked_list(element: MarkedType) -> Result<MarkedType>
    ensures list { IfOk result (λ t. (lists_in (seen_marked element).type < 2 ^ 64 - 1)
        × (seen_marked t ≡ list_of (seen_marked element))) }
    ensures full { IfErr result (λ _. 2 ^ 64 - 1 ≤ lists_in (seen_marked element).type) }
    ensures kinds { IfErr result (λ e. e.kind ≡ TooManyTypes) }
{
    match list_type(element.standing) {
        Ok(standing) => Ok(MarkedType {
            standing,
            is_float: element.is_float,
        }),
        Err(error) => Err(error),
    }
}

/// The enum that a type names.
fn enum_type_of<'a>(
    context: Context<'_, 'a>,
    entries: &mut Entries,
    term: RequestRecord<'a>,
) -> Result<MarkedType>
    requires nodes { AreNodes context.nodes.now }
    requires numbers { AreNumbered entries.now }
    requires is_record { IsRequestRecord 13 term }
    requires active { which_of (record_seen term) ≡ Some 15 }
    ensures done { (inside : List Bound) → (levels : ℕ) → (seen : WorkSeen)
        → IsWorkDone seen_marked (type_of (nodes_of context.entry.nodes.now) context.entry.strict inside
        (enum_term (type_said levels) (request_read_at 13 15 (record_seen term.entry))))
        (named_with (numbered_entries entries.old) seen) (named_with (numbered_entries entries.new) seen) result }
    ensures numbers { IfOk result (λ _. AreNumbered entries.new) }
    ensures kinds { IfErr result (λ e. IsUnstrict e.kind) }
{
    let named = group_at(term, brands::TYPE, TYPE_ENUM, brands::TYPE_ENUM);
    let id = u64_at(named, brands::TYPE_ENUM, NAMED_ID, slots::NAMED_ID);
    let number = entries.number_enum(context.nodes, id)?;
    Ok(plain(enum_type(number)))
}

/// The list that a type is, of its element's type.
#[cycle(types)]
fn list_type_of<'a>(
    context: Context<'_, 'a>,
    entries: &mut Entries,
    inside: &[BoundScope],
    term: RequestRecord<'a>,
    seen: &mut Seen,
    depth: u32,
) -> Result<MarkedType>
    requires nodes { AreNodes context.nodes.now }
    requires numbers { AreNumbered entries.now }
    requires is_record { IsRequestRecord 13 term }
    requires active { which_of (record_seen term) ≡ Some 14 }
    ensures done { IsWorkDone seen_marked (type_of (nodes_of context.entry.nodes.now) context.entry.strict
        (bounds inside.now) (list_term (type_said depth) (request_read_at 13 14 (record_seen term.entry))))
        (so_far entries.old seen.old) (so_far entries.new seen.new) result }
    ensures numbers { IfOk result (λ _. AreNumbered entries.new) }
    ensures kinds { IfErr result (λ e. IsRefusal context.entry.strict e.kind) }
{
    let list = group_at(term, brands::TYPE, TYPE_LIST, brands::TYPE_LIST);
    let element = struct_at(
        list,
        brands::TYPE_LIST,
        LIST_ELEMENT,
        slots::LIST_ELEMENT,
        brands::TYPE,
    )?;
    let element_type = type_of(context, entries, inside, element, seen, depth)?;
    marked_list(element_type)
}

/// The struct that a type names, with the bindings of its brand.
#[cycle(types)]
fn struct_type_of<'a>(
    context: Context<'_, 'a>,
    entries: &mut Entries,
    inside: &[BoundScope],
    term: RequestRecord<'a>,
    seen: &mut Seen,
    depth: u32,
) -> Result<MarkedType>
    requires nodes { AreNodes context.nodes.now }
    requires numbers { AreNumbered entries.now }
    requires is_record { IsRequestRecord 13 term }
    requires active { which_of (record_seen term) ≡ Some 16 }
    ensures done { IsWorkDone seen_marked (type_of (nodes_of context.entry.nodes.now) context.entry.strict
        (bounds inside.now) (struct_term (type_said depth) (request_read_at 13 16 (record_seen term.entry))))
        (so_far entries.old seen.old) (so_far entries.new seen.new) result }
    ensures numbers { IfOk result (λ _. AreNumbered entries.new) }
    ensures kinds { IfErr result (λ e. IsRefusal context.entry.strict e.kind) }
{
    let named = group_at(term, brands::TYPE, TYPE_STRUCT, brands::TYPE_STRUCT);
    let id = u64_at(named, brands::TYPE_STRUCT, NAMED_ID, slots::NAMED_ID);
    context.nodes.struct_node(id)?;
    let place = BrandPlace {
        reader: named,
        holder: brands::TYPE_STRUCT,
        index: STRUCT_BRAND,
        pointer: slots::STRUCT_BRAND,
    };
    let scopes = bindings_of(context, entries, inside, id, place, seen, depth)?;
    let number = entries.number_of(context.alloc, BoundNode { id, scopes })?;
    Ok(plain(entry_type(number)))
}

/// The type that a term says inside an entry of these scopes, through at most so many types in one another.
///
/// Refused with `FloatType` or `InterfaceType` where floats and interfaces are, `NodeNotFound` for an id that is no
/// struct's or enum's, `TooManyTypes`, `UnknownKind`, and as the parts of the term that are read.
#[cycle(types)]
pub(crate) fn type_of<'a>(
    context: Context<'_, 'a>,
    entries: &mut Entries,
    inside: &[BoundScope],
    term: RequestRecord<'a>,
    seen: &mut Seen,
    depth: u32,
) -> Result<MarkedType>
    requires nodes { AreNodes context.nodes.now }
    requires numbers { AreNumbered entries.now }
    requires is_record { IsRequestRecord 13 term }
    ensures done { IsWorkDone seen_marked (type_of (nodes_of context.entry.nodes.now) context.entry.strict
        (bounds inside.now) (type_said depth (record_seen term.entry)))
        (so_far entries.old seen.old) (so_far entries.new seen.new) result }
    ensures numbers { IfOk result (λ _. AreNumbered entries.new) }
    ensures kinds { IfErr result (λ e. IsRefusal context.entry.strict e.kind) }
{
    if depth == 0 {
        return Err(Error::from(ErrorKind::TooDeep));
    }
    let Some(member) = type_member(term) else {
        return Err(Error::from(ErrorKind::UnknownKind));
    };
    if let Some(said) = type_said_by_member(member) {
        return Ok(plain(said));
    }
    match member {
        10 => float_type(context.strict, false, seen),
        11 => float_type(context.strict, true, seen),
        14 => list_type_of(context, entries, inside, term, seen, depth - 1),
        15 => enum_type_of(context, entries, term),
        16 => struct_type_of(context, entries, inside, term, seen, depth - 1),
        17 => interface_type(context.strict, seen),
        18 => untyped_or_bound(inside, term),
        _ => Err(Error::from(ErrorKind::UnknownKind)),
    }
}

/// The type that a term says, as `type_of`. Most say all of it by their member, which is seen here, without a call.
#[inline(always)]
pub(crate) fn slot_type<'a>(
    context: Context<'_, 'a>,
    entries: &mut Entries,
    inside: &[BoundScope],
    term: RequestRecord<'a>,
    seen: &mut Seen,
) -> Result<MarkedType>
    requires nodes { AreNodes context.nodes.now }
    requires numbers { AreNumbered entries.now }
    requires is_record { IsRequestRecord 13 term }
    ensures done { IsWorkDone seen_marked (type_of (nodes_of context.entry.nodes.now) context.entry.strict
        (bounds inside.now) (type_said type_levels (record_seen term.entry)))
        (so_far entries.old seen.old) (so_far entries.new seen.new) result }
    ensures numbers { IfOk result (λ _. AreNumbered entries.new) }
    ensures kinds { IfErr result (λ e. IsRefusal context.entry.strict e.kind) }
{
    if let Some(member) = type_member(term) {
        if let Some(said) = type_said_by_member(member) {
            return Ok(plain(said));
        }
    }
    let levels = levels_of_types();
    type_of(context, entries, inside, term, seen, levels)
}

/// The scopes of the brand at a place.
fn brand_list<'a>(place: BrandPlace<'a>) -> Result<RequestList<'a>>
    requires record { IsRequestRecord place.holder place.reader }
    requires field { IsRequestSlot place.holder place.index (request_struct 19) place.pointer (StructValue zero_word) }
    requires non_union { is_member (field_at request_set place.holder place.index).field ≡ false }
    ensures elements { IfOk result (IsListOf 20) }
    ensures read { (inner : Record → TypeTerm)
        → IfOk result (λ l. brand_in inner (request_read_at place.entry.holder place.entry.index
        (record_seen place.entry.reader)) ≡ scopes_said inner (values_left l 0)) }
    ensures refused { (inner : Record → TypeTerm)
        → IfErr result (λ e. brand_in inner (request_read_at place.entry.holder place.entry.index
        (record_seen place.entry.reader)) ≡ UnreadBrand e.kind) }
    ensures kinds { IfErr result (λ e. IsUnstrict e.kind) }
{
    let brand = struct_at(
        place.reader,
        place.holder,
        place.index,
        place.pointer,
        brands::BRAND,
    )?;
    let listed = list_at(
        brand,
        brands::BRAND,
        BRAND_SCOPES,
        slots::BRAND_SCOPES,
        brands::SCOPE,
    )?;
    Ok(listed)
}

/// The bindings of a node that is named with a brand inside an entry of these scopes.
#[cycle(types)]
pub(crate) fn bindings_of<'a>(
    context: Context<'_, 'a>,
    entries: &mut Entries,
    inside: &[BoundScope],
    id: u64,
    place: BrandPlace<'a>,
    seen: &mut Seen,
    depth: u32,
) -> Result<Vec<BoundScope>>
    requires nodes { AreNodes context.nodes.now }
    requires numbers { AreNumbered entries.now }
    requires record { IsRequestRecord place.holder place.reader }
    requires field { IsRequestSlot place.holder place.index (request_struct 19) place.pointer (StructValue zero_word) }
    requires non_union { is_member (field_at request_set place.holder place.index).field ≡ false }
    ensures done { IsWorkDone (λ scopes. bounds scopes.items)
        (named_scopes (nodes_of context.entry.nodes.now) context.entry.strict (bounds inside.now) id
        (brand_in (type_said depth) (request_read_at place.entry.holder place.entry.index (record_seen place.entry.reader))))
        (so_far entries.old seen.old) (so_far entries.new seen.new) result }
    ensures numbers { IfOk result (λ _. AreNumbered entries.new) }
    ensures kinds { IfErr result (λ e. IsRefusal context.entry.strict e.kind) }
{
    let generic = context.nodes.generic_scopes(context.alloc, id)?;
    let count = generic.len();
    if count == 0 {
        return Ok(Vec::new(context.alloc));
    }
    let said = brand_list(place)?;
    bound_scopes(
        context,
        entries,
        inside,
        generic.as_slice(),
        said,
        seen,
        depth,
    )
}

/// Scopes with the types that the scopes of a brand bind to each.
#[cycle(types)]
fn bound_scopes<'a>(
    context: Context<'_, 'a>,
    entries: &mut Entries,
    inside: &[BoundScope],
    generic: &[GenericScope],
    said: RequestList<'a>,
    seen: &mut Seen,
    depth: u32,
) -> Result<Vec<BoundScope>>
    requires nodes { AreNodes context.nodes.now }
    requires numbers { AreNumbered entries.now }
    requires is_list { IsListOf 20 said }
    ensures done { IsWorkDone (λ scopes. bounds scopes.items)
        (each (bind_scope (brand_types (nodes_of context.entry.nodes.now) context.entry.strict (bounds inside.now)
        (scopes_said (type_said depth) (values_left said.entry 0)))) (map with_nothing generic.now))
        (so_far entries.old seen.old) (so_far entries.new seen.new) result }
    ensures numbers { IfOk result (λ _. AreNumbered entries.new) }
    ensures kinds { IfErr result (λ e. IsRefusal context.entry.strict e.kind) }
{
    let mut scopes = Vec::new(context.alloc);
    for scope in generic {
        let types = scope_types(context, entries, inside, *scope, said, seen, depth)?;
        scopes.push(bound_scope(*scope, types))?;
    }
    Ok(scopes)
}

/// The first scope of an id in a brand.
fn brand_scope<'a>(said: RequestList<'a>, id: u64) -> Result<Option<RequestRecord<'a>>>
    requires { IsListOf 20 said }
    ensures record { IfOk result (λ found. IfSome found (IsRequestRecord 20)) }
    ensures said { (inner : Record → TypeTerm)
        → IsSaid (option_map (λ scope. scope_said inner (record_seen scope)))
        (scope_in (scopes_said inner (values_left said.entry 0)) id) result }
    ensures kinds { IfErr result (λ e. IsUnstrict e.kind) }
{
    for index in 0..said.len() {
        let scope = element_at(said, index, brands::SCOPE)?;
        let scope_id = u64_at(scope, brands::SCOPE, SCOPE_ID, slots::SCOPE_ID);
        if scope_id == id {
            return Ok(Some(scope));
        }
    }
    Ok(None)
}

/// A copy of the types that are bound to a scope's parameters inside an entry, none where it isn't there.
fn inherited(alloc: Global, inside: &[BoundScope], id: u64) -> Result<Vec<MarkedType>>
    ensures read { IfOk result (λ types. bound_types [] (λ b. b.types) (bounds inside.now) id
        ≡ map seen_marked types.items) }
    ensures kinds { IfErr result (λ e. e.kind ≡ OutOfMemory) }
{
    match scope_of(inside, id) {
        Some(own) => Ok(own.types.as_slice().to_vec(alloc)?),
        None => Ok(Vec::new(alloc)),
    }
}

/// The types that a brand binds to a scope's parameters: none where it doesn't speak of the scope.
#[cycle(types)]
fn scope_types<'a>(
    context: Context<'_, 'a>,
    entries: &mut Entries,
    inside: &[BoundScope],
    scope: GenericScope,
    said: RequestList<'a>,
    seen: &mut Seen,
    depth: u32,
) -> Result<Vec<MarkedType>>
    requires nodes { AreNodes context.nodes.now }
    requires numbers { AreNumbered entries.now }
    requires is_list { IsListOf 20 said }
    ensures done { IsWorkDone (λ types. map seen_marked types.items)
        (brand_types (nodes_of context.entry.nodes.now) context.entry.strict (bounds inside.now)
        (scopes_said (type_said depth) (values_left said.entry 0)) (with_nothing scope))
        (so_far entries.old seen.old) (so_far entries.new seen.new) result }
    ensures numbers { IfOk result (λ _. AreNumbered entries.new) }
    ensures kinds { IfErr result (λ e. IsRefusal context.entry.strict e.kind) }
{
    let found = brand_scope(said, scope.id)?;
    match found {
        Some(own) => said_types(context, entries, inside, scope, own, seen, depth),
        None => Ok(Vec::new(context.alloc)),
    }
}

/// The types that a scope of a brand binds to a scope's parameters. Untyped pointers at the end are left out.
#[cycle(types)]
fn said_types<'a>(
    context: Context<'_, 'a>,
    entries: &mut Entries,
    inside: &[BoundScope],
    scope: GenericScope,
    own: RequestRecord<'a>,
    seen: &mut Seen,
    depth: u32,
) -> Result<Vec<MarkedType>>
    requires nodes { AreNodes context.nodes.now }
    requires numbers { AreNumbered entries.now }
    requires is_record { IsRequestRecord 20 own }
    ensures done { IsWorkDone (λ types. map seen_marked types.items)
        (scope_types (nodes_of context.entry.nodes.now) context.entry.strict (bounds inside.now)
        (scope_said (type_said depth) (record_seen own.entry)) (with_nothing scope))
        (so_far entries.old seen.old) (so_far entries.new seen.new) result }
    ensures numbers { IfOk result (λ _. AreNumbered entries.new) }
    ensures kinds { IfErr result (λ e. IsRefusal context.entry.strict e.kind) }
{
    let Some(member) = scope_member(own) else {
        return Err(Error::from(ErrorKind::UnknownKind));
    };
    match member {
        SCOPE_BIND => {
            let bindings = list_at(
                own,
                brands::SCOPE,
                SCOPE_BIND,
                slots::SCOPE_BIND,
                brands::BINDING,
            )?;
            let count = scope.parameters;
            let mut types = bound_types(context, entries, inside, count, bindings, seen, depth)?;
            drop_untyped(&mut types);
            Ok(types)
        }
        SCOPE_INHERIT => inherited(context.alloc, inside, scope.id),
        _ => Err(Error::from(ErrorKind::UnknownKind)),
    }
}

/// The types of the first bindings, as many as there are parameters.
#[cycle(types)]
fn bound_types<'a>(
    context: Context<'_, 'a>,
    entries: &mut Entries,
    inside: &[BoundScope],
    parameters: u32,
    bindings: RequestList<'a>,
    seen: &mut Seen,
    depth: u32,
) -> Result<Vec<MarkedType>>
    requires nodes { AreNodes context.nodes.now }
    requires numbers { AreNumbered entries.now }
    requires is_list { IsListOf 21 bindings }
    ensures done { IsWorkDone (λ types. map seen_marked types.items)
        (binding_types (nodes_of context.entry.nodes.now) context.entry.strict (bounds inside.now)
        (bindings_said (type_said depth) (values_left bindings.entry 0)) parameters)
        (so_far entries.old seen.old) (so_far entries.new seen.new) result }
    ensures numbers { IfOk result (λ _. AreNumbered entries.new) }
    ensures kinds { IfErr result (λ e. IsRefusal context.entry.strict e.kind) }
{
    let mut types = Vec::new(context.alloc);
    for index in 0..bindings.len().min(parameters) {
        let binding = element_at(bindings, index, brands::BINDING)?;
        let bound = binding_type(context, entries, inside, binding, seen, depth)?;
        types.push(bound)?;
    }
    Ok(types)
}

/// The type of a binding: an untyped pointer where it is unbound.
#[cycle(types)]
fn binding_type<'a>(
    context: Context<'_, 'a>,
    entries: &mut Entries,
    inside: &[BoundScope],
    binding: RequestRecord<'a>,
    seen: &mut Seen,
    depth: u32,
) -> Result<MarkedType>
    requires nodes { AreNodes context.nodes.now }
    requires numbers { AreNumbered entries.now }
    requires is_record { IsRequestRecord 21 binding }
    ensures done { IsWorkDone seen_marked (type_of (nodes_of context.entry.nodes.now) context.entry.strict
        (bounds inside.now) (binding_said (type_said depth) (record_seen binding.entry)))
        (so_far entries.old seen.old) (so_far entries.new seen.new) result }
    ensures numbers { IfOk result (λ _. AreNumbered entries.new) }
    ensures kinds { IfErr result (λ e. IsRefusal context.entry.strict e.kind) }
{
    let Some(member) = binding_member(binding) else {
        return Err(Error::from(ErrorKind::UnknownKind));
    };
    match member {
        BINDING_UNBOUND => Ok(untyped()),
        BINDING_TYPE => {
            let term = struct_at(
                binding,
                brands::BINDING,
                BINDING_TYPE,
                slots::BINDING_TYPE,
                brands::TYPE,
            )?;
            type_of(context, entries, inside, term, seen, depth)
        }
        _ => Err(Error::from(ErrorKind::UnknownKind)),
    }
}

/// How many types are kept, where one more is looked at.
fn kept_with(t: MarkedType, kept: usize, with_it: usize) -> usize
    ensures { result ≡ cond (is_untyped (seen_marked t).type) kept with_it }
{
    if is_untyped(t) {
        return kept;
    }
    with_it
}

/// Drops the untyped pointers at the end.
fn drop_untyped(types: &mut Vec<MarkedType>)
    ensures { map seen_marked types.new.items ≡ without_untyped (map seen_marked types.old.items) }
{
    let mut kept = 0;
    for index in 0..types.len() {
        let looked_at = types[index];
        kept = kept_with(looked_at, kept, index + 1);
    }
    types.truncate(kept);
}
