//! The names of a set's structs and enums.
ghost use Rattle.std.specs.Prelude.{ℕ, List, [], ◌∷◌, ◌≡◌, ◌≢◌, ◌≤◌, ◌++◌, ◌-◌, true, drop, length, map, option_map, string_bytes, take, IfErr, IfOk, OnOk, Ok, Err, Some};
ghost use Rattle.capnp_device.specs.declared.error.ErrorKind.TheVariants.{OutOfMemory, TooManyTypes};
ghost use Rattle.capnp_schema.specs.Schema.{seen_node};
ghost use Rattle.capnp_schema.specs.Types.{seen_base, seen_variant};
ghost use Rattle.capnp_base.specs.Types.{base_of, list_depth};
ghost use Rattle.capnp_request.specs.Steps.Bindings.{bounds, seen_bound, seen_marked};
ghost use Rattle.capnp_request.specs.Steps.EntriesSeen.{seen_entry, seen_place};
ghost use Rattle.capnp_request.specs.Names.{Holder as NameHolder, bindings_name, bound_name, occurrences_of, dotted_of, enum_name, file_of, finished_name, group_name, is_taken, more_names, part_bindings, set_type_name, struct_name, type_name};
ghost use Rattle.capnp_request.specs.Steps.NamesMade.{AreHolders, IsTooLong, file_when, bound_name_at, names_nothing, one_more, repeated_piece, struct_names, texts};
ghost use Rattle.capnp_request.specs.Steps.Nodes.{AreNodes, nodes_of};
ghost use Rattle.capnp_request.specs.Order.{name_entry};
ghost use Rattle.capnp_request.specs.Refusals.{IsUnstrict};
ghost use Rattle.capnp_request.specs.Work.{Whole};

use crate::entries::{BoundScope, Entry};
use crate::marks::MarkedType;
use crate::parts::owned;
use crate::schema_nodes::{SchemaNodes, display_name};
use capnp_base::introspect::{Type, TypeVariant};
use capnp_schema::record::{EnumRecord, NodeRecord};
use capnp_wire::error::{Error, ErrorKind, Result};
use std::alloc::Global;
use std::collections::HashMap;

/// The most bytes of a display name.
const MOST_BYTES: usize = 1_024;

/// The first entry of a name without its file: its id, and whether one of another id had it since.
#[derive(Clone, Copy)]
struct Holder {
    id: u64,
    is_shared: bool,
}

/// The names without files that entries had so far.
#[derive(Drop)]
pub(crate) struct Names {
    alloc: Global,
    holders: HashMap<Vec<u8>, Holder>,
}

/// What has been made of the set so far, whose names those of bindings are.
#[derive(Clone, Copy)]
pub(crate) struct Named<'m> {
    pub(crate) structs: &'m [NodeRecord],
    pub(crate) enums: &'m [String],
}

/// Where the part of a display name behind its last colon begins.
fn behind_colon(name: &[u8]) -> usize
    ensures inside { result ≤ length name.now }
    ensures file { take result name.now ≡ file_of name.now }
    ensures dotted { drop result name.now ≡ dotted_of name.now }
{
    let mut start = 0;
    for index in 0..name.len() {
        if name[index] == b':' {
            start = index + 1;
        }
    }
    start
}

/// Refused with `TooManyTypes` where a name has more than 1,024 bytes.
fn check_length(name: &[u8]) -> Result<()>
    ensures fits { IfOk result (λ _. length name.now ≤ 1024) }
    ensures refused { IfErr result (λ e. IsTooLong e.kind name.now) }
    ensures kind { IfErr result (λ e. e.kind ≡ TooManyTypes) }
{
    if name.len() > MOST_BYTES {
        return Err(Error::from(ErrorKind::TooManyTypes));
    }
    Ok(())
}

/// A copy of bytes as a name. Refused with `TooManyTypes` where there are more than 1,024, and with `NameNotUtf8`.
fn finished(alloc: Global, name: &[u8]) -> Result<String>
    ensures read { IfOk result (λ x. finished_name name.now ≡ Ok (string_bytes x)) }
    ensures refused { IfErr result (λ e. e.kind ≢ OutOfMemory → finished_name name.now ≡ Err e.kind) }
    ensures kinds { IfErr result (λ e. IsUnstrict e.kind) }
{
    check_length(name)?;
    let text = owned(alloc, name)?;
    Ok(text)
}

/// Appends bytes to a name. Refused with `TooManyTypes` where it gets longer than 1,024 bytes.
fn append(name: &mut Vec<u8>, piece: &[u8]) -> Result<()>
    ensures appended { IfOk result (λ _. name.new.items ≡ name.old.items ++ piece.now) }
    ensures refused { IfErr result (λ e. IsTooLong e.kind (name.old.items ++ piece.now)) }
    ensures kinds { IfErr result (λ e. IsUnstrict e.kind) }
{
    name.extend_from_slice(piece)?;
    check_length(name.as_slice())
}

/// The name of a node without its file.
pub(crate) fn enum_name(alloc: Global, display: &[u8]) -> Result<String>
    ensures read { IfOk result (λ x. enum_name display.now ≡ Ok (string_bytes x)) }
    ensures refused { IfErr result (λ e. e.kind ≢ OutOfMemory → enum_name display.now ≡ Err e.kind) }
    ensures kinds { IfErr result (λ e. IsUnstrict e.kind) }
{
    let start = behind_colon(display);
    let dotted = &display[start..];
    let name = finished(alloc, dotted)?;
    Ok(name)
}

/// The word for a type that names nothing.
fn type_word(base: TypeVariant, is_float: bool) -> &'static [u8]
    ensures { names_nothing base ≡ true → (structs enums : List (List ℕ))
        → result.now ≡ set_type_name structs enums is_float (seen_variant base) }
{
    match base {
        TypeVariant::Void => b"Void",
        TypeVariant::Bool => b"Bool",
        TypeVariant::Int8 => b"Int8",
        TypeVariant::Int16 => b"Int16",
        TypeVariant::Int32 => b"Int32",
        TypeVariant::Int64 => b"Int64",
        TypeVariant::UInt8 => b"UInt8",
        TypeVariant::UInt16 => b"UInt16",
        TypeVariant::UInt32 => {
            if is_float {
                return b"Float32";
            }
            b"UInt32"
        }
        TypeVariant::UInt64 => {
            if is_float {
                return b"Float64";
            }
            b"UInt64"
        }
        TypeVariant::Text => b"Text",
        TypeVariant::Data => b"Data",
        _ => b"AnyPointer",
    }
}

/// Appends the name of what stands inside all lists of a type.
fn append_base(name: &mut Vec<u8>, named: Named<'_>, bound: MarkedType) -> Result<()>
    ensures appended { IfOk result (λ _. name.new.items
        ≡ name.old.items ++ set_type_name (struct_names named.entry.structs.now) (texts named.entry.enums.now)
        bound.is_float (seen_base (base_of bound.standing))) }
    ensures refused { IfErr result (λ e. IsTooLong e.kind
        (name.old.items ++ set_type_name (struct_names named.entry.structs.now) (texts named.entry.enums.now)
        bound.is_float (seen_base (base_of bound.standing)))) }
    ensures kinds { IfErr result (λ e. IsUnstrict e.kind) }
{
    match bound.standing.innermost() {
        TypeVariant::Struct(entry) => match named.structs.get(entry.number as usize) {
            Some(node) => append(name, node.display_name.as_bytes()),
            None => Ok(()),
        },
        TypeVariant::Enum(entry) => match named.enums.get(entry.number as usize) {
            Some(enum_name) => append(name, enum_name.as_bytes()),
            None => Ok(()),
        },
        base => append(name, type_word(base, bound.is_float)),
    }
}

/// Appends a piece for each list around a type.
fn append_lists(name: &mut Vec<u8>, bound: Type, piece: &[u8]) -> Result<()>
    ensures appended { IfOk result (λ _. name.new.items ≡ name.old.items ++ repeated_piece (list_depth bound) piece.now) }
    ensures refused { IfErr result (λ e. IsTooLong e.kind (name.old.items ++ repeated_piece (list_depth bound) piece.now)) }
    ensures kinds { IfErr result (λ e. IsUnstrict e.kind) }
{
    let mut inner = bound;
    while let TypeVariant::List(element) = inner.which() {
        append(name, piece)?;
        inner = element;
    }
    Ok(())
}

/// Appends the name of a type.
fn append_type(name: &mut Vec<u8>, named: Named<'_>, bound: MarkedType) -> Result<()>
    ensures appended { IfOk result (λ _. name.new.items
        ≡ name.old.items ++ type_name (struct_names named.entry.structs.now) (texts named.entry.enums.now)
        (seen_marked bound)) }
    ensures refused { IfErr result (λ e. IsTooLong e.kind
        (name.old.items ++ type_name (struct_names named.entry.structs.now) (texts named.entry.enums.now)
        (seen_marked bound))) }
    ensures kinds { IfErr result (λ e. IsUnstrict e.kind) }
{
    append_lists(name, bound.standing, b"List(")?;
    append_base(name, named, bound)?;
    append_lists(name, bound.standing, b")")?;
    Ok(())
}

/// Appends the name of the type of a number among these, an untyped pointer's where there are fewer.
fn append_bound(
    name: &mut Vec<u8>,
    named: Named<'_>,
    types: &[MarkedType],
    index: u32,
) -> Result<()>
    ensures appended { IfOk result (λ _. name.new.items
        ≡ name.old.items ++ bound_name_at (struct_names named.entry.structs.now) (texts named.entry.enums.now)
        (map seen_marked types.now) index) }
    ensures refused { IfErr result (λ e. IsTooLong e.kind
        (name.old.items ++ bound_name_at (struct_names named.entry.structs.now) (texts named.entry.enums.now)
        (map seen_marked types.now) index)) }
    ensures kinds { IfErr result (λ e. IsUnstrict e.kind) }
{
    match types.get(index as usize) {
        Some(bound) => append_type(name, named, *bound),
        None => append(name, b"AnyPointer"),
    }
}

/// Appends what is bound to the parameters behind the first, each behind a comma.
fn append_others(
    name: &mut Vec<u8>,
    named: Named<'_>,
    types: &[MarkedType],
    parameters: u32,
) -> Result<()>
    ensures appended { IfOk result (λ _. name.new.items
        ≡ name.old.items ++ more_names (struct_names named.entry.structs.now) (texts named.entry.enums.now)
        (drop 1 (map seen_marked types.now)) (parameters - 1)) }
    ensures refused { IfErr result (λ e. IsTooLong e.kind
        (name.old.items ++ more_names (struct_names named.entry.structs.now) (texts named.entry.enums.now)
        (drop 1 (map seen_marked types.now)) (parameters - 1))) }
    ensures kinds { IfErr result (λ e. IsUnstrict e.kind) }
{
    for index in 1..parameters {
        append(name, b", ")?;
        append_bound(name, named, types, index)?;
    }
    Ok(())
}

/// Appends what is bound to a scope's parameters, in parentheses, where that isn't untyped pointers alone.
fn append_bindings(name: &mut Vec<u8>, named: Named<'_>, scope: &BoundScope) -> Result<()>
    ensures appended { IfOk result (λ _. name.new.items
        ≡ name.old.items ++ bindings_name (struct_names named.entry.structs.now) (texts named.entry.enums.now)
        (seen_bound scope.now).types scope.now.parameters) }
    ensures refused { IfErr result (λ e. IsTooLong e.kind
        (name.old.items ++ bindings_name (struct_names named.entry.structs.now) (texts named.entry.enums.now)
        (seen_bound scope.now).types scope.now.parameters)) }
    ensures kinds { IfErr result (λ e. IsUnstrict e.kind) }
{
    let types = scope.types.as_slice();
    if types.is_empty() {
        return Ok(());
    }
    append(name, b"(")?;
    append_bound(name, named, types, 0)?;
    append_others(name, named, types, scope.parameters)?;
    append(name, b")")
}

/// How many dots a name has.
fn dots_in(name: &[u8]) -> usize
    ensures { result ≡ occurrences_of 46 name.now }
{
    let mut dots = 0usize;
    for byte in name {
        if *byte == b'.' {
            dots += 1;
        }
    }
    dots
}

/// The part of a dotted name that a scope is paired with, by the number of dots in the name: the last for the node
/// itself, and the first for a scope that has no part of its own.
fn part_of_scope(dots: usize, distance: u32) -> usize
    ensures { result ≡ dots - distance }
{
    dots.saturating_sub(distance as usize)
}

/// Appends what is bound to the scopes of a part.
fn append_part_bindings(
    name: &mut Vec<u8>,
    named: Named<'_>,
    scopes: &[BoundScope],
    dots: usize,
    part: usize,
) -> Result<()>
    ensures appended { IfOk result (λ _. name.new.items
        ≡ name.old.items ++ part_bindings (struct_names named.entry.structs.now) (texts named.entry.enums.now)
        (bounds scopes.now) dots part) }
    ensures refused { IfErr result (λ e. IsTooLong e.kind
        (name.old.items ++ part_bindings (struct_names named.entry.structs.now) (texts named.entry.enums.now)
        (bounds scopes.now) dots part)) }
    ensures kinds { IfErr result (λ e. IsUnstrict e.kind) }
{
    for scope in scopes {
        if part_of_scope(dots, scope.distance) == part {
            append_bindings(name, named, scope)?;
        }
    }
    Ok(())
}

/// Appends a dotted name with what is bound to each scope behind the part of the scope.
fn append_dotted(
    name: &mut Vec<u8>,
    named: Named<'_>,
    dotted: &[u8],
    scopes: &[BoundScope],
) -> Result<()>
    ensures appended { IfOk result (λ _. name.new.items
        ≡ name.old.items ++ bound_name (struct_names named.entry.structs.now) (texts named.entry.enums.now)
        (bounds scopes.now) (occurrences_of 46 dotted.now) 0 dotted.now) }
    ensures refused { IfErr result (λ e. IsTooLong e.kind
        (name.old.items ++ bound_name (struct_names named.entry.structs.now) (texts named.entry.enums.now)
        (bounds scopes.now) (occurrences_of 46 dotted.now) 0 dotted.now)) }
    ensures kinds { IfErr result (λ e. IsUnstrict e.kind) }
{
    let dots = dots_in(dotted);
    let mut part = 0usize;
    for byte in dotted {
        if *byte == b'.' {
            append_part_bindings(name, named, scopes, dots, part)?;
            part += 1;
        }
        name.push(*byte)?;
    }
    append_part_bindings(name, named, scopes, dots, part)?;
    check_length(name.as_slice())
}

/// What stands before a dotted name: the file where the name is taken.
fn file_part(alloc: Global, file: &[u8], is_taken: bool) -> Result<Vec<u8>>
    ensures read { IfOk result (λ name. name.items ≡ file_when is_taken file.now) }
    ensures refused { IfErr result (λ e. IsTooLong e.kind (file_when is_taken file.now)) }
    ensures kinds { IfErr result (λ e. IsUnstrict e.kind) }
{
    let mut name = Vec::new(alloc);
    if is_taken {
        append(&mut name, file)?;
    }
    Ok(name)
}

/// A name, a dot, and another.
fn with_dot(alloc: Global, parent: &[u8], field: &[u8]) -> Result<Vec<u8>>
    ensures made { IfOk result (λ name. name.items ≡ parent.now ++ 46 ∷ field.now) }
    ensures refused { IfErr result (λ e. IsTooLong e.kind (parent.now ++ 46 ∷ field.now)) }
    ensures kinds { IfErr result (λ e. IsUnstrict e.kind) }
{
    let mut name = parent.to_vec(alloc)?;
    append(&mut name, b".")?;
    append(&mut name, field)?;
    Ok(name)
}

/// The name of the group that a field names: its parent's, a dot, and the field's.
fn dotted_name(alloc: Global, parent: &[u8], field: &[u8]) -> Result<String>
    ensures read { IfOk result (λ name. finished_name (parent.now ++ 46 ∷ field.now) ≡ Ok (string_bytes name)) }
    ensures refused { IfErr result (λ e. e.kind ≢ OutOfMemory → finished_name (parent.now ++ 46 ∷ field.now) ≡ Err e.kind) }
    ensures kinds { IfErr result (λ e. IsUnstrict e.kind) }
{
    let bytes = with_dot(alloc, parent, field)?;
    let name = finished(alloc, bytes.as_slice())?;
    Ok(name)
}

/// The name of the group that a field of a struct names. Refused with `NodeNotFound` where the struct has no such
/// field.
fn member_name(alloc: Global, parent: &NodeRecord, field: usize) -> Result<String>
    ensures read { IfOk result (λ name. group_name (Some (seen_node parent.now)) field ≡ Ok (string_bytes name)) }
    ensures refused { IfErr result (λ e. e.kind ≢ OutOfMemory
        → group_name (Some (seen_node parent.now)) field ≡ Err e.kind) }
    ensures kinds { IfErr result (λ e. IsUnstrict e.kind) }
{
    let fields = parent.body.fields.as_slice();
    match fields.get(field) {
        Some(member) => {
            let name = dotted_name(
                alloc,
                parent.display_name.as_bytes(),
                member.name.as_bytes(),
            )?;
            Ok(name)
        }
        None => Err(Error::from(ErrorKind::NodeNotFound)),
    }
}

/// The name of a group: its parent's, a dot, and the name of the field. Refused with `NodeNotFound` where its parent
/// isn't there or has no such field.
fn group_name(alloc: Global, parent: Option<&NodeRecord>, field: usize) -> Result<String>
    ensures read { IfOk result (λ name. group_name (option_map (λ n. seen_node n.now) parent.entry) field
        ≡ Ok (string_bytes name)) }
    ensures refused { IfErr result (λ e. e.kind ≢ OutOfMemory
        → group_name (option_map (λ n. seen_node n.now) parent.entry) field ≡ Err e.kind) }
    ensures kinds { IfErr result (λ e. IsUnstrict e.kind) }
{
    match parent {
        Some(parent) => member_name(alloc, parent, field),
        None => Err(Error::from(ErrorKind::NodeNotFound)),
    }
}

/// Who has a name from now on: the first entry that had it, shared where the entry of this id has another.
fn one_more(id: u64, held: Option<Holder>) -> Holder
    ensures { result ≡ one_more id held }
{
    match held {
        Some(holder) => Holder {
            id: holder.id,
            is_shared: holder.is_shared || holder.id != id,
        },
        None => Holder {
            id,
            is_shared: false,
        },
    }
}

impl Names {
    pub(crate) fn new(alloc: Global) -> Names
        ensures { AreHolders result [] }
    {
        Names {
            alloc,
            holders: HashMap::new(alloc),
        }
    }

    /// Whether an entry of another id had the name before; the entry has it from now on.
    fn is_taken(&mut self, dotted: &[u8], id: u64) -> Result<bool>
        ensures taken { (hs : List NameHolder) → AreHolders self.old hs
            → IfOk result (λ t. t ≡ is_taken hs id dotted.now) }
        ensures held { (hs : List NameHolder) → AreHolders self.old hs
            → OnOk result (AreHolders self.new (record { id = id; dotted = dotted.now } ∷ hs)) }
        ensures refused { IfErr result (λ e. e.kind ≡ OutOfMemory) }
    {
        let key = dotted.to_vec(self.alloc)?;
        let holder = one_more(id, self.holders.get(&key).copied());
        self.holders.insert(key, holder)?;
        Ok(holder.is_shared)
    }

    /// The name of an entry that is no group, by the display name of its node: that without the file, with what is
    /// bound to each scope behind the scope's part. Where an entry of another id had the name without file before, the
    /// file stands before it.
    fn name_by_display(&mut self, named: Named<'_>, entry: &Entry, display: &[u8]) -> Result<String>
        ensures read { (hs : List NameHolder) → AreHolders self.old hs
            → IfOk result (λ name. struct_name (struct_names named.entry.structs.now)
            (texts named.entry.enums.now) hs entry.now.id (bounds entry.now.scopes.items) display.now
            ≡ Ok (string_bytes name)) }
        ensures held { (hs : List NameHolder) → AreHolders self.old hs
            → OnOk result (AreHolders self.new (record { id = entry.now.id; dotted = dotted_of display.now } ∷ hs)) }
        ensures refused { (hs : List NameHolder) → AreHolders self.old hs
            → IfErr result (λ e. e.kind ≢ OutOfMemory
            → struct_name (struct_names named.entry.structs.now) (texts named.entry.enums.now) hs entry.now.id
            (bounds entry.now.scopes.items) display.now ≡ Err e.kind) }
        ensures kinds { IfErr result (λ e. IsUnstrict e.kind) }
    {
        let start = behind_colon(display);
        let file = &display[..start];
        let dotted = &display[start..];
        let is_taken = self.is_taken(dotted, entry.id)?;
        let mut name = file_part(self.alloc, file, is_taken)?;
        append_dotted(&mut name, named, dotted, entry.scopes.as_slice())?;
        let name = finished(self.alloc, name.as_slice())?;
        Ok(name)
    }

    /// The name of an entry that is no group.
    fn struct_name<'a>(
        &mut self,
        nodes: &SchemaNodes<'a>,
        named: Named<'_>,
        entry: &Entry,
    ) -> Result<String>
        requires { AreNodes nodes.now }
        ensures done { (hs : List NameHolder) → AreHolders self.old hs
            → IfOk result (λ name. (after : List NameHolder) × AreHolders self.new after
            × (name_entry (nodes_of nodes.now) (map seen_node named.entry.structs.now) (texts named.entry.enums.now) hs
            (seen_entry entry.now) Whole ≡ Ok (string_bytes name, after))) }
        ensures refused { (hs : List NameHolder) → AreHolders self.old hs
            → IfErr result (λ e. e.kind ≢ OutOfMemory
            → name_entry (nodes_of nodes.now) (map seen_node named.entry.structs.now) (texts named.entry.enums.now) hs
            (seen_entry entry.now) Whole ≡ Err e.kind) }
        ensures kinds { IfErr result (λ e. IsUnstrict e.kind) }
    {
        let node = nodes.found(entry.id)?;
        let display = display_name(node)?;
        let name = self.name_by_display(named, entry, display)?;
        Ok(name)
    }

    /// The name of an entry, where those of smaller numbers have their names.
    pub(crate) fn entry_name<'a>(
        &mut self,
        nodes: &SchemaNodes<'a>,
        named: Named<'_>,
        entry: &Entry,
    ) -> Result<String>
        requires { AreNodes nodes.now }
        ensures done { (hs : List NameHolder) → AreHolders self.old hs
            → IfOk result (λ name. (after : List NameHolder) × AreHolders self.new after
            × (name_entry (nodes_of nodes.now) (map seen_node named.entry.structs.now) (texts named.entry.enums.now) hs
            (seen_entry entry.now) (seen_place entry.now.group) ≡ Ok (string_bytes name, after))) }
        ensures refused { (hs : List NameHolder) → AreHolders self.old hs
            → IfErr result (λ e. e.kind ≢ OutOfMemory
            → name_entry (nodes_of nodes.now) (map seen_node named.entry.structs.now) (texts named.entry.enums.now) hs
            (seen_entry entry.now) (seen_place entry.now.group) ≡ Err e.kind) }
        ensures kinds { IfErr result (λ e. IsUnstrict e.kind) }
    {
        match entry.group {
            Some(place) => group_name(
                self.alloc,
                named.structs.get(place.parent as usize),
                place.field,
            ),
            None => self.struct_name(nodes, named, entry),
        }
    }
}
