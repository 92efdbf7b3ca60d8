//! The entries of a set while it is made: struct nodes with bindings, groups and enums, by the numbers that they got
//! when they were first named.
ghost use Rattle.std.specs.Prelude.{◌≡◌, ◌≢◌, ◌<◌, ◌≤◌, [], length, slice_get, option_map, IfErr, IfOk, Ok, Err};
ghost use Rattle.capnp_device.specs.declared.error.ErrorKind.TheVariants.{OutOfMemory, TooManyTypes};
ghost use Rattle.capnp_schema.specs.Types.{EnumType, StructType, seen_type};
ghost use Rattle.capnp_request.specs.Steps.Bindings.{bounds};
ghost use Rattle.capnp_request.specs.Steps.EntriesSeen.{group_entry, seen_entry};
ghost use Rattle.capnp_request.specs.Steps.Nodes.{AreNodes, nodes_of};
ghost use Rattle.capnp_request.specs.Steps.Numbers.{AreNumbered, numbered_entries};
ghost use Rattle.capnp_request.specs.Refusals.{IsUnstrict};
ghost use Rattle.capnp_request.specs.Types.{add_entry, bound_count, is_bound_count, number_enum, number_struct};
ghost use Rattle.capnp_request.specs.Work.{Seen};
ghost use Rattle.capnp_request.specs.Steps.Work.{named_with};

use crate::marks::MarkedType;
use crate::schema_nodes::SchemaNodes;
use crate::scopes::copied_scopes;
use capnp_base::introspect::{RawBrandedStructSchema, RawEnumSchema, Type, TypeVariant};
use capnp_wire::error::{Error, ErrorKind, Result};
use std::alloc::Global;
use std::collections::HashMap;

/// The most entries that a set is made of.
pub(crate) const MOST_ENTRIES: usize = 65_536;

/// The most types that are bound in one entry, as many as a display name may have bytes.
const MOST_BOUND: usize = 1_024;

/// What is bound to the type parameters of a scope.
#[derive(PartialEq, Eq, Hash, Drop)]
pub(crate) struct BoundScope {
    pub(crate) id: u64,
    /// How many scopes are passed on the way out to it.
    pub(crate) distance: u32,
    /// How many type parameters the scope has.
    pub(crate) parameters: u32,
    /// The types of the first parameters. Those of the others are untyped pointers, and the last type here is none.
    pub(crate) types: Vec<MarkedType>,
}

/// A struct node with bindings.
#[derive(PartialEq, Eq, Hash, Drop)]
pub(crate) struct BoundNode {
    pub(crate) id: u64,
    pub(crate) scopes: Vec<BoundScope>,
}

/// The field that names a group.
#[derive(Clone, Copy)]
pub(crate) struct GroupPlace {
    pub(crate) parent: u32,
    pub(crate) field: usize,
}

/// An entry: the id of the node that it is made of, the bindings in it, and of a group the field that names it.
#[derive(Drop)]
pub(crate) struct Entry {
    pub(crate) id: u64,
    pub(crate) scopes: Vec<BoundScope>,
    pub(crate) group: Option<GroupPlace>,
}

/// The entries and enums that were named so far, by number.
#[derive(Drop)]
pub(crate) struct Entries {
    structs: Vec<Entry>,
    by_binding: HashMap<BoundNode, u32>,
    enums: Vec<u64>,
    by_id: HashMap<u64, u32>,
}

/// The type of the structs of an entry, whose brand and node have its number.
pub(crate) fn entry_type(number: u32) -> Type
    ensures { seen_type result ≡ StructType number number }
{
    Type::from(TypeVariant::Struct(RawBrandedStructSchema {
        number,
        generic: number,
    }))
}

/// The type of an enum.
pub(crate) fn enum_type(number: u32) -> Type
    ensures { seen_type result ≡ EnumType number }
{
    Type::from(TypeVariant::Enum(RawEnumSchema { number }))
}

/// Whether at most 1,024 types are bound in scopes together.
fn are_few(scopes: &[BoundScope]) -> bool
    ensures { result ≡ is_bound_count (bound_count (bounds scopes.now)) }
{
    let mut left = MOST_BOUND;
    for scope in scopes {
        let count = scope.types.len();
        if count > left {
            return false;
        }
        left -= count;
    }
    true
}

impl Entries {
    pub(crate) fn new(alloc: Global) -> Entries
        ensures nothing { numbered_entries result ≡ record { entries = []; enums = [] } }
        ensures numbers { AreNumbered result }
    {
        Entries {
            structs: Vec::new(alloc),
            by_binding: HashMap::new(alloc),
            enums: Vec::new(alloc),
            by_id: HashMap::new(alloc),
        }
    }

    /// The entry of a number.
    pub(crate) fn entry(&self, number: usize) -> Option<&Entry>
        ensures { option_map (λ e. seen_entry e.now) result ≡ slice_get (numbered_entries self.now).entries number }
    {
        self.structs.get(number)
    }

    /// The id of the enum of a number.
    pub(crate) fn enum_id(&self, number: usize) -> Option<u64>
        ensures { result ≡ slice_get (numbered_entries self.now).enums number }
    {
        self.enums.get(number).copied()
    }

    /// How many enums were named.
    pub(crate) fn enum_count(&self) -> usize
        ensures { result ≡ length (numbered_entries self.now).enums }
    {
        self.enums.len()
    }

    /// The number of the next entry. Refused with `TooManyTypes` where there are 65,536.
    fn next_number(&self) -> Result<u32>
        ensures number { IfOk result (λ n. n ≡ length (numbered_entries self.now).entries) }
        ensures bound { IfOk result (λ n. n < 65536) }
        ensures full { IfErr result (λ _. 65536 ≤ length (numbered_entries self.now).entries) }
        ensures kinds { IfErr result (λ e. e.kind ≡ TooManyTypes) }
    {
        let number = self.structs.len();
        if number >= MOST_ENTRIES {
            return Err(Error::from(ErrorKind::TooManyTypes));
        }
        Ok(number as u32)
    }

    /// The number of a struct node with bindings, which it gets where it has none. Refused with `TooManyTypes` where more
    /// than 1,024 types are bound in it, or where there are 65,536 entries.
    pub(crate) fn number_of(&mut self, alloc: Global, bound: BoundNode) -> Result<u32>
        requires { AreNumbered self.now }
        ensures done { IfOk result (λ n. (seen : Seen)
            → number_struct bound.id (bounds bound.scopes.items) (named_with (numbered_entries self.old) seen)
            ≡ Ok (n, named_with (numbered_entries self.new) seen)) }
        ensures numbers { IfOk result (λ n. AreNumbered self.new) }
        ensures refused { IfErr result (λ e. e.kind ≢ OutOfMemory → (seen : Seen)
            → number_struct bound.id (bounds bound.scopes.items) (named_with (numbered_entries self.old) seen) ≡ Err e.kind) }
        ensures kinds { IfErr result (λ e. IsUnstrict e.kind) }
    {
        if !are_few(bound.scopes.as_slice()) {
            return Err(Error::from(ErrorKind::TooManyTypes));
        }
        if let Some(number) = self.by_binding.get(&bound) {
            return Ok(*number);
        }
        let number = self.next_number()?;
        let entry = Entry {
            id: bound.id,
            scopes: copied_scopes(alloc, bound.scopes.as_slice())?,
            group: None,
        };
        self.structs.push(entry)?;
        self.by_binding.insert(bound, number)?;
        Ok(number)
    }

    /// The number of the group that a field names: an entry of its own, with the bindings of its parent.
    pub(crate) fn number_group(
        &mut self,
        id: u64,
        scopes: Vec<BoundScope>,
        place: GroupPlace,
    ) -> Result<u32>
        requires { AreNumbered self.now }
        ensures done { IfOk result (λ n. (seen : Seen)
            → add_entry (group_entry id (bounds scopes.items) place) (named_with (numbered_entries self.old) seen)
            ≡ Ok (n, named_with (numbered_entries self.new) seen)) }
        ensures numbers { IfOk result (λ n. AreNumbered self.new) }
        ensures refused { IfErr result (λ e. e.kind ≢ OutOfMemory → (seen : Seen)
            → add_entry (group_entry id (bounds scopes.items) place) (named_with (numbered_entries self.old) seen) ≡ Err e.kind) }
        ensures kinds { IfErr result (λ e. IsUnstrict e.kind) }
    {
        let number = self.next_number()?;
        self.structs.push(Entry {
            id,
            scopes,
            group: Some(place),
        })?;
        Ok(number)
    }

    /// The number of an enum, which it gets where it has none. Refused with `NodeNotFound` where the id is no enum's.
    pub(crate) fn number_enum(&mut self, nodes: &SchemaNodes<'_>, id: u64) -> Result<u32>
        requires nodes { AreNodes nodes.now }
        requires numbers { AreNumbered self.now }
        ensures done { IfOk result (λ n. (seen : Seen)
            → number_enum (nodes_of nodes.now) id (named_with (numbered_entries self.old) seen)
            ≡ Ok (n, named_with (numbered_entries self.new) seen)) }
        ensures numbers { IfOk result (λ n. AreNumbered self.new) }
        ensures refused { IfErr result (λ e. e.kind ≢ OutOfMemory → (seen : Seen)
            → number_enum (nodes_of nodes.now) id (named_with (numbered_entries self.old) seen) ≡ Err e.kind) }
        ensures kinds { IfErr result (λ e. IsUnstrict e.kind) }
    {
        if let Some(number) = self.by_id.get(&id) {
            return Ok(*number);
        }
        nodes.enum_node(id)?;
        let number = self.enums.len();
        if number >= u32::MAX as usize {
            return Err(Error::from(ErrorKind::TooManyTypes));
        }
        self.enums.push(id)?;
        self.by_id.insert(id, number as u32)?;
        Ok(number as u32)
    }
}
