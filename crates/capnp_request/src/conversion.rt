//! From a compiler's request to the lists of a set of schemas.
ghost use Rattle.std.specs.Prelude.{List, [], ◌∷◌, ◌++◌, suc, ◌≡◌, ◌≢◌, ◌<◌, ◌≤◌, ◌+◌, drop, length, map, string_bytes, IfErr, IfOk, OnOk, Ok, Err};
ghost use Rattle.capnp_device.specs.declared.error.ErrorKind.TheVariants.{OutOfMemory, TooManyTypes};
ghost use Rattle.capnp_schema.specs.Schema.{seen_node};
ghost use Rattle.capnp_request.specs.Steps.Seen.{IsRequestRecord, record_seen};
ghost use Rattle.capnp_request.specs.Steps.Bindings.{bounds};
ghost use Rattle.capnp_request.specs.Steps.Done.{IsWorkDone, IsSaid, between};
ghost use Rattle.capnp_request.specs.Steps.EntriesSeen.{seen_entry};
ghost use Rattle.capnp_request.specs.Handles.{root_record};
ghost use Rattle.capnp_request.specs.Names.{Holder};
ghost use Rattle.capnp_request.specs.Steps.NamesMade.{AreHolders, texts};
ghost use Rattle.capnp_request.specs.Steps.Nodes.{AreNodes, nodes_of};
ghost use Rattle.capnp_request.specs.Steps.Numbers.{AreNumbered, numbered_entries};
ghost use Rattle.capnp_request.specs.Order.{Made, add_struct, and_said, begin_enum, begin_struct, conversion_of, enum_names, make_all, make_enum, nothing_made, result_of};
ghost use Rattle.capnp_request.specs.ProgressSeen.{seen_lists};
ghost use Rattle.capnp_request.specs.Steps.ProgressSeen.{begun_of, made_of, work_rest};
ghost use Rattle.capnp_request.specs.Reading.{node_said, request_said};
ghost use Rattle.capnp_request.specs.Refusals.{IsUnstrict, IsRefusal};
ghost use Rattle.capnp_request.specs.Shapes.{AreBrandsOf};
ghost use Rattle.capnp_request.specs.Steps.Sizes.{HasGrown};
ghost use Rattle.capnp_request.specs.Within.{make_step};
ghost use Rattle.capnp_request.specs.Work.{Work};

use crate::context::Context;
use crate::entries::{BoundScope, Entries, Entry};
use crate::enums::{EnumPlace, enum_of};
use crate::handles::RequestRecord;
use crate::names::{Named, Names, enum_name};
use crate::notes::Note;
use crate::places::brands;
use crate::roots::number_roots;
use crate::schema_nodes::{SchemaNodes, display_name};
use crate::scopes::copied_scopes;
use crate::structs::{MadeStruct, NodePlace, struct_of};
use capnp_schema::record::{BrandRecord, EnumRecord, NodeRecord};
use capnp_wire::StructReader;
use capnp_wire::error::{Error, ErrorKind, Result};
use std::alloc::Global;

/// How many more steps than nodes a conversion takes at most: one for each entry, and one that finds all made.
pub(crate) const MORE_STEPS: u64 = 65_537;

/// What a request is converted to: the lists of which `SchemaSet::new` makes a set, and notes on what stands there for
/// something else, by entry and field.
#[derive(Drop)]
pub struct Converted {
    pub nodes: Vec<NodeRecord>,
    pub brands: Vec<BrandRecord>,
    pub enums: Vec<EnumRecord>,
    pub notes: Vec<Note>,
}

/// What a conversion has made so far.
#[derive(Drop)]
pub(crate) struct Progress {
    pub(crate) made: Converted,
    names: Names,
    enum_names: Vec<String>,
}

/// What an entry is made of: its node, its name, and a copy of what is bound in it.
#[derive(Drop)]
struct NextStruct<'a> {
    place: NodePlace<'a>,
    name: String,
    scopes: Vec<BoundScope>,
}

/// A count as the number of the next. Refused with `TooManyTypes` where it has more than 32 bits.
fn counted(count: usize) -> Result<u32>
    ensures number { IfOk result (λ n. n ≡ count) }
    ensures few { IfOk result (λ n. count < 4294967296) }
    ensures many { IfErr result (λ _. 4294967296 ≤ count) }
    ensures kind { IfErr result (λ e. e.kind ≡ TooManyTypes) }
{
    if count > u32::MAX as usize {
        return Err(Error::from(ErrorKind::TooManyTypes));
    }
    Ok(count as u32)
}

/// The name of an enum, and its node.
fn named_enum<'a>(context: Context<'_, 'a>, id: u64) -> Result<(String, RequestRecord<'a>)>
    requires { AreNodes context.nodes.now }
    ensures said { IsSaid (λ r. (string_bytes r.0, node_said (record_seen r.1)))
        (begin_enum (nodes_of context.entry.nodes.now) id) result }
    ensures record { IfOk result (λ r. IsRequestRecord 2 r.1) }
    ensures kinds { IfErr result (λ e. IsUnstrict e.kind) }
{
    let node = context.nodes.found(id)?;
    let display = display_name(node)?;
    let name = enum_name(context.alloc, display)?;
    Ok((name, node))
}

/// Adds a struct, its brand, and what is noted of it.
fn put_struct(all: &mut Converted, one: MadeStruct) -> Result<()>
    ensures nodes { IfOk result (λ _. all.new.nodes.items ≡ all.old.nodes.items ++ one.record ∷ []) }
    ensures brands { IfOk result (λ _. all.new.brands.items ≡ all.old.brands.items ++ one.brand ∷ []) }
    ensures notes { IfOk result (λ _. all.new.notes.items ≡ all.old.notes.items ++ one.notes.items) }
    ensures enums { IfOk result (λ _. all.new.enums ≡ all.old.enums) }
    ensures kinds { IfErr result (λ e. e.kind ≡ OutOfMemory) }
{
    let MadeStruct {
        record,
        brand,
        notes,
    } = one;
    all.notes.extend_from_slice(notes.as_slice())?;
    all.nodes.push(record)?;
    all.brands.push(brand)?;
    Ok(())
}

impl Progress {
    pub(crate) fn new(alloc: Global) -> Progress
        ensures brands { AreBrandsOf result.made.nodes.items result.made.brands.items }
        ensures made { made_of result [] ≡ nothing_made }
        ensures holders { AreHolders result.names [] }
    {
        Progress {
            made: Converted {
                nodes: Vec::new(alloc),
                brands: Vec::new(alloc),
                enums: Vec::new(alloc),
                notes: Vec::new(alloc),
            },
            names: Names::new(alloc),
            enum_names: Vec::new(alloc),
        }
    }

    /// Names the enums that were named by types since.
    fn name_enums<'a>(&mut self, context: Context<'_, 'a>, entries: &Entries) -> Result<()>
        requires { AreNodes context.nodes.now }
        ensures said { IsSaid (λ _. texts self.new.enum_names.items)
            (enum_names (nodes_of context.entry.nodes.now)
            (drop (length (texts self.old.enum_names.items)) (numbered_entries entries.now).enums)
            (texts self.old.enum_names.items)) result }
        ensures same { self.new.made ≡ self.old.made }
        ensures names { self.new.names ≡ self.old.names }
        ensures kinds { IfErr result (λ e. IsUnstrict e.kind) }
    {
        for number in self.enum_names.len()..entries.enum_count() {
            let Some(id) = entries.enum_id(number) else {
                break;
            };
            let named = named_enum(context, id)?;
            let (name, _node) = named;
            self.enum_names.push(name)?;
        }
        Ok(())
    }

    /// The name of an entry, its node, and a copy of the scopes that are bound in it.
    fn begin<'a>(
        &mut self,
        context: Context<'_, 'a>,
        entries: &Entries,
        entry: &Entry,
    ) -> Result<NextStruct<'a>>
        requires { AreNodes context.nodes.now }
        ensures done { (hs : List Holder) → AreHolders self.old.names hs
            → IfOk result (λ next. (after : List Holder) × AreHolders self.new.names after
            × (begin_struct (nodes_of context.entry.nodes.now) (made_of self.old hs) (seen_entry entry.now)
            (numbered_entries entries.now).enums ≡ Ok (begun_of self.new after next))) }
        ensures refused { (hs : List Holder) → AreHolders self.old.names hs → IfErr result (λ e. e.kind ≢ OutOfMemory →
            begin_struct (nodes_of context.entry.nodes.now) (made_of self.old hs) (seen_entry entry.now)
            (numbered_entries entries.now).enums ≡ Err e.kind) }
        ensures number { IfOk result (λ next. next.place.number ≡ length self.old.made.nodes.items) }
        ensures id { IfOk result (λ next. next.place.id ≡ entry.now.id) }
        ensures scopes { IfOk result (λ next. bounds next.scopes.items ≡ bounds entry.now.scopes.items) }
        ensures node { IfOk result (λ next. IsRequestRecord 2 next.place.node) }
        ensures same { self.new.made ≡ self.old.made }
        ensures kinds { IfErr result (λ e. IsUnstrict e.kind) }
    {
        let number = counted(self.made.nodes.len())?;
        self.name_enums(context, entries)?;
        let structs = self.made.nodes.as_slice();
        let enums = self.enum_names.as_slice();
        let named = Named { structs, enums };
        let name = self.names.entry_name(context.nodes, named, entry)?;
        let node = context.nodes.found(entry.id)?;
        let scopes = copied_scopes(context.alloc, entry.scopes.as_slice())?;
        let place = NodePlace {
            number,
            id: entry.id,
            node,
        };
        Ok(NextStruct {
            place,
            name,
            scopes,
        })
    }

    /// Makes the struct of an entry.
    fn add_struct<'a>(
        &mut self,
        context: Context<'_, 'a>,
        entries: &mut Entries,
        next: NextStruct<'a>,
    ) -> Result<()>
        requires nodes { AreNodes context.nodes.now }
        requires numbers { AreNumbered entries.now }
        requires brands { AreBrandsOf self.now.made.nodes.items self.now.made.brands.items }
        requires number { next.place.number ≡ length self.now.made.nodes.items }
        requires node { IsRequestRecord 2 next.place.node }
        ensures done { (hs : List Holder) → IsWorkDone (λ _. made_of self.new hs)
            (add_struct (nodes_of context.entry.nodes.now) context.entry.strict
            (made_of self.old hs) next.entry.place.id (bounds next.entry.scopes.items)
            (begun_of self.old hs next.entry)) (between entries.old) (between entries.new) result }
        ensures numbers { IfOk result (λ _. AreNumbered entries.new) }
        ensures names { self.new.names ≡ self.old.names }
        ensures structs { IfOk result (λ _. HasGrown self.old.made.nodes.items self.new.made.nodes.items) }
        ensures enums { IfOk result (λ _. self.new.made.enums ≡ self.old.made.enums) }
        ensures brands { IfOk result (λ _. AreBrandsOf self.new.made.nodes.items self.new.made.brands.items) }
        ensures kinds { IfErr result (λ e. IsRefusal context.entry.strict e.kind) }
    {
        let NextStruct {
            place,
            name,
            scopes,
        } = next;
        let made = struct_of(context, entries, scopes.as_slice(), place, name)?;
        put_struct(&mut self.made, made)?;
        Ok(())
    }

    /// Makes an enum.
    fn add_enum<'a>(
        &mut self,
        context: Context<'_, 'a>,
        entries: &mut Entries,
        id: u64,
    ) -> Result<()>
        requires nodes { AreNodes context.nodes.now }
        requires numbers { AreNumbered entries.now }
        ensures done { (hs : List Holder) → IsWorkDone (λ _. made_of self.new hs)
            (make_enum (nodes_of context.entry.nodes.now) context.entry.strict (made_of self.old hs) id)
            (between entries.old) (between entries.new) result }
        ensures numbers { IfOk result (λ _. AreNumbered entries.new) }
        ensures names { self.new.names ≡ self.old.names }
        ensures structs { self.new.made.nodes ≡ self.old.made.nodes }
        ensures enums { IfOk result (λ _. HasGrown self.old.made.enums.items self.new.made.enums.items) }
        ensures brands { self.new.made.brands ≡ self.old.made.brands }
        ensures kinds { IfErr result (λ e. IsRefusal context.entry.strict e.kind) }
    {
        let named = named_enum(context, id)?;
        let (name, node) = named;
        let place = EnumPlace { id, node };
        let record = enum_of(context, entries, place, name)?;
        self.made.enums.push(record)?;
        Ok(())
    }

    /// Makes the next struct, or where all are made the next enum. False where there is neither.
    pub(crate) fn make_next<'a>(
        &mut self,
        context: Context<'_, 'a>,
        entries: &mut Entries,
    ) -> Result<bool>
        requires nodes { AreNodes context.nodes.now }
        requires numbers { AreNumbered entries.now }
        requires brands { AreBrandsOf self.now.made.nodes.items self.now.made.brands.items }
        ensures done { (hs : List Holder) → AreHolders self.old.names hs
            → IfOk result (λ more. (after : List Holder) × AreHolders self.new.names after
            × ((again : Made → Work Made) → make_step (nodes_of context.entry.nodes.now) context.entry.strict again
            (made_of self.old hs) (between entries.old)
            ≡ work_rest more again (made_of self.new after) (between entries.new))) }
        ensures refused { (hs : List Holder) → AreHolders self.old.names hs
            → IfErr result (λ e. e.kind ≢ OutOfMemory → (again : Made → Work Made) →
            make_step (nodes_of context.entry.nodes.now) context.entry.strict again (made_of self.old hs)
            (between entries.old) ≡ Err e.kind) }
        ensures structs { IfOk result (λ _. HasGrown self.old.made.nodes.items self.new.made.nodes.items) }
        ensures enums { IfOk result (λ _. HasGrown self.old.made.enums.items self.new.made.enums.items) }
        ensures numbers { IfOk result (λ _. AreNumbered entries.new) }
        ensures brands { IfOk result (λ _. AreBrandsOf self.new.made.nodes.items self.new.made.brands.items) }
        ensures kinds { IfErr result (λ e. IsRefusal context.entry.strict e.kind) }
    {
        if let Some(entry) = entries.entry(self.made.nodes.len()) {
            let next = self.begin(context, entries, entry)?;
            self.add_struct(context, entries, next)?;
            return Ok(true);
        }
        if let Some(id) = entries.enum_id(self.made.enums.len()) {
            self.add_enum(context, entries, id)?;
            return Ok(true);
        }
        Ok(false)
    }
}

/// Makes all entries and enums, those too that these name.
fn make_all<'a>(context: Context<'_, 'a>, mut entries: Entries) -> Result<Converted>
    requires nodes { AreNodes context.nodes.now }
    requires numbers { AreNumbered entries }
    ensures read { IfOk result (λ made. result_of
        (make_all (nodes_of context.entry.nodes.now) context.entry.strict
        (65536 + suc (length (nodes_of context.entry.nodes.now))) nothing_made (between entries))
        ≡ Ok (seen_lists made)) }
    ensures refused { IfErr result (λ e. e.kind ≢ OutOfMemory
        → make_all (nodes_of context.entry.nodes.now) context.entry.strict
        (65536 + suc (length (nodes_of context.entry.nodes.now))) nothing_made (between entries) ≡ Err e.kind) }
    ensures brands { IfOk result (λ made. AreBrandsOf made.nodes.items made.brands.items) }
    ensures kinds { IfErr result (λ e. IsRefusal context.entry.strict e.kind) }
{
    let mut progress = Progress::new(context.alloc);
    let mut steps = u64::from(context.nodes.count()) + MORE_STEPS;
    while steps > 0 {
        steps -= 1;
        let more = progress.make_next(context, &mut entries)?;
        if !more {
            return Ok(progress.made);
        }
    }
    Err(Error::from(ErrorKind::TooManyTypes))
}

/// The lists and notes that a request stands for.
///
/// Brand k has node k: one for each struct node with bindings and for each group that a field names, in the order in
/// which they are first named. The roots come first, then what the fields and annotations of each name.
///
/// Floats stand as the unsigned integers of their width. A field whose type is a float, inside any lists, has the
/// annotation `0xf20fbfb08027d505` of value Void behind its own; no other field gets it.
///
/// Refused with `OutOfMemory`, or with a number whose cause stands in what is read: that of a part that can't be read
/// (`BadPointer`, `WrongPointerKind`, `WrongElementSize`, `TextNotTerminated`, `TooDeep`, `CapabilityPointer`),
/// `UnknownKind` for a discriminant that the request set lacks, `NameNotUtf8`, `NodeNotFound` for an id that no node of
/// the kind has, `TooManyTypes` for more than 65,536 entries, for more than 1,024 types that are bound in one entry or a
/// display name of more than 1,024 bytes, and where `strict` says so `FloatType` and `InterfaceType`. Where several
/// stand there, any of them may be named.
pub fn read_request(alloc: Global, reader: StructReader<'_>, strict: bool) -> Result<Converted>
    ensures read { IfOk result (λ made. and_said (request_said (root_record reader.entry))
        (λ r. conversion_of r strict) ≡ Ok (seen_lists made)) }
    ensures refused { IfErr result (λ e. e.kind ≢ OutOfMemory
        → and_said (request_said (root_record reader.entry)) (λ r. conversion_of r strict) ≡ Err e.kind) }
    ensures brands { IfOk result (λ made. AreBrandsOf made.nodes.items made.brands.items) }
    ensures kinds { IfErr result (λ e. IsRefusal strict e.kind) }
{
    let request = RequestRecord {
        sections: reader,
        brand: brands::REQUEST,
    };
    let nodes = SchemaNodes::of_request(alloc, request)?;
    let context = Context {
        alloc,
        strict,
        nodes: &nodes,
    };
    let mut entries = Entries::new(alloc);
    number_roots(context, &mut entries, request)?;
    let made = make_all(context, entries)?;
    Ok(made)
}
