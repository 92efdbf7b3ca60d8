//! Structs and lists that words give as they are printed, each in a message of its own.
ghost use Rattle.std.specs.Prelude.{None, Option, Some, ℕ, ◌≡◌, IfErr, IfOk, IfSome, IsOk};
ghost use Rattle.capnp_device.specs.declared.error.ErrorKind.TheVariants.{OutOfMemory};
ghost use Rattle.capnp_wire.specs.Depth.{IsShallow};
ghost use Rattle.capnp_wire.specs.Edits.{struct_in};
ghost use Rattle.capnp_wire.specs.Place.{struct_tree};
ghost use Rattle.capnp_wire.specs.Standing.{list_levels, list_of, struct_of, tree_of};
ghost use Rattle.capnp_wire.specs.Tree.{StructTree, nth_tree};
ghost use Rattle.capnp_wire.specs.Words.{first_fault};
ghost use Rattle.capnp_arena.specs.Message.{IsMessage, message_tree};
ghost use Rattle.capnp_schema.specs.Accepted.{NamesEntries};
ghost use Rattle.capnp_schema.specs.Entries.{lists_seen};
ghost use Rattle.capnp_schema.specs.FieldLists.{typed_of};
ghost use Rattle.capnp_schema.specs.StructHandles.{IsStruct, number_of, set_of};
ghost use Rattle.capnp_schema.specs.Types.{ListType, StructType, seen_type};
ghost use Rattle.capnp_records.specs.Call.{ListSource};
ghost use Rattle.capnp_records.specs.Record.{Left};
ghost use Rattle.capnp_records.specs.Writes.TreeEnds.{offset_of};
ghost use Rattle.std.specs.Option.{option_map};
ghost use Rattle.capnp_slots.specs.Fields.{field_set};
ghost use Rattle.capnp_slots.specs.SetValues.{source_of};
ghost use Rattle.capnp_value_texts.specs.Calls.{lists_of};
ghost use Rattle.riftcalico_core.specs.LastFields.{Spot as SpotSaid};
ghost use Rattle.riftcalico_core.specs.ShownSeen.{part_source, shown_source, tree_down};
ghost use Rattle.riftcalico_core.specs.ShownValues.{IsShownRead, IsShownUnread, begins_shown, shown_fault};
ghost use Rattle.riftcalico_core.specs.SpotsSeen.{IsSpotOf, spot_seen};
ghost use Rattle.riftcalico_core.specs.Steps.ShownValues.{IsPlaceOf};

use crate::json_values::find_begin;
use crate::last_field::Spot;
use capnp_arena::arena::Arena;
use capnp_base::introspect::{Type, TypeVariant};
use capnp_call::message::MOST_WORDS;
use capnp_dynamic_readers::dynamic_value::Reader as Value;
use capnp_dynamic_readers::{dynamic_list, dynamic_struct};
use capnp_json_text::faults::first_fault;
use capnp_json_text::rest::skip_blanks;
use capnp_schema::plan::Place;
use capnp_schema::schema::StructSchema;
use capnp_schema::set::SchemaSet;
use capnp_value_texts::error::Error as TextError;
use capnp_value_texts::value::{read_element, read_root};
use capnp_wire::error::{Error, ErrorKind, Result};
use capnp_wire::laws::pointer_is_well_formed;
use capnp_wire::parts::pointer::look;
use capnp_wire::{ListReader, PointerReader, StructReader};
use std::alloc::Global;
use std::marker::Model;

/// What is given of a root.
#[derive(Clone, Copy)]
pub enum Part<'s> {
    /// All of it, under a schema.
    Root(StructSchema<'s>),
    /// Of elements of a type of the set, the list so many lists down from that behind the pointer of an index, each time in
    /// the first element.
    Behind(&'s SchemaSet, Type, u16, usize),
}

/// A struct or a list: a root or a part of it, in a message of its own that can be read whole.
#[derive(Drop)]
pub struct ShownValue<'s> {
    root: Arena,
    part: Part<'s>,
}

impl<'s> Model for ShownValue<'s> {
    ghost use Rattle.std.specs.Prelude.{◌≡◌};
    ghost use Rattle.capnp_arena.specs.declared.arena.Arena.{Arena};
    ghost use Rattle.riftcalico_core.specs.declared.shown_values.Part.{Part};

    ghost Value = { Arena × Part };

    ghost use Rattle.capnp_wire.specs.Depth.{IsShallow};
    ghost use Rattle.capnp_wire.specs.Edits.{struct_in};
    ghost use Rattle.capnp_wire.specs.Place.{struct_tree};
    ghost use Rattle.capnp_arena.specs.Message.{IsMessage, message_tree};

    ghost view = { λ w. (w.root, w.part) };

    ghost invariant = { λ w. IsMessage w.root × IsShallow (message_tree w.root)
        × (message_tree w.root ≡ struct_tree (struct_in (message_tree w.root))) };
}

/// What a pointer leads to, as a list. Inside the root of a message 62 levels are left of 64.
fn list_at(pointer: PointerReader<'_>) -> ListReader<'_>
    ensures list { list_of result ≡ tree_of pointer.entry }
    ensures levels { list_levels result ≡ 62 }
{
    pointer_is_well_formed(&pointer);
    ListReader::new(look(pointer.pointer()), 62)
}

/// The list so many lists down from one, each time in the first element.
fn list_down(list: ListReader<'_>, depth: usize) -> ListReader<'_>
    requires levels { list_levels list ≡ 62 }
    ensures list { list_of result ≡ tree_down depth (list_of list.entry) }
    ensures levels { list_levels result ≡ 62 }
{
    let mut now = list;
    for _ in 0..depth {
        now = list_at(now.get_pointer_element(0));
    }
    now
}

/// The list so many lists down from what stands behind a pointer of a root.
fn list_behind<'a>(root: StructReader<'a>, index: u16, depth: usize) -> ListReader<'a>
    ensures list { list_of result ≡ tree_down depth (nth_tree (struct_of root.entry).pointers index) }
    ensures levels { list_levels result ≡ 62 }
{
    list_down(list_at(root.get_pointer_field(index)), depth)
}

impl ShownValue<'_> {
    /// The value, as a call is given it. Nothing is refused.
    pub fn as_reader(&self) -> Result<Value<'_>>
        ensures source { IfOk result (λ v. source_of v ≡ shown_source self.now) }
        ensures read { IsOk result }
    {
        let root = self.root.get_pointer_reader(0).get_struct()?;
        match self.part {
            Part::Root(schema) => Ok(Value::Struct(dynamic_struct::Reader::new(root, schema))),
            Part::Behind(schemas, element, index, depth) => {
                let list = list_behind(root, index, depth);
                Ok(Value::List(dynamic_list::Reader::new(list, element, schemas)))
            }
        }
    }
}

/// Whether a printed struct or list begins.
fn begins_shown(text: &[u8]) -> bool
    ensures { result ≡ begins_shown text.now }
{
    let [first, ..] = text else {
        return false;
    };
    *first == b'(' || *first == b'['
}

/// The place of the first byte that no JSON has there, of a text that is a printed value if anything: none of one that is JSON,
/// or that begins as no printed struct or list does. Refused with `OutOfMemory` alone.
pub fn find_shown_fault(alloc: Global, text: &[u8]) -> Result<Option<usize>>
    ensures fault { IfOk result (λ fault. fault ≡ shown_fault text.now) }
    ensures memory { IfErr result (λ e. e.kind ≡ OutOfMemory) }
{
    if begins_shown(skip_blanks(text)) {
        return first_fault(alloc, text);
    }
    Ok(None)
}

/// The place of what is refused in a text, or that of its first byte where a call is. Refused with `OutOfMemory` alone, where
/// memory was.
fn place_of(error: TextError, first: usize) -> Result<usize>
    ensures place { IfOk result (IsPlaceOf error first) }
    ensures memory { IfErr result (λ e. e.kind ≡ OutOfMemory) }
{
    match error {
        TextError::Refused(refusal) => Ok(refusal.place),
        TextError::NotMade(ErrorKind::OutOfMemory) => Err(Error::from(ErrorKind::OutOfMemory)),
        TextError::NotMade(_) => Ok(first),
        TextError::OutOfMemory => Err(Error::from(ErrorKind::OutOfMemory)),
    }
}

/// A root or a part of it; or the place of the first byte where the root is more than 64 levels deep.
fn keep_part<'s>(
    root: Arena,
    part: Part<'s>,
    first: usize,
) -> std::result::Result<ShownValue<'s>, usize>
    requires message { IsMessage root }
    requires root { message_tree root ≡ struct_tree (struct_in (message_tree root)) }
    ensures source { IfOk result (λ w. shown_source w ≡ part_source part.entry (struct_in (message_tree root))) }
    ensures shallow { IfOk result (λ _. IsShallow (message_tree root)) }
    ensures sound { IfOk result (λ _. first_fault (message_tree root) ≡ None) }
    ensures place { IfErr result (λ place. place ≡ first) }
    ensures deep { IfErr result (λ _. IsShallow (message_tree root) → ⊥) }
{
    if !root.is_shallow() {
        return Err(first);
    }
    root.tree_is_sound(0);
    Ok(ShownValue { root, part })
}

/// The struct of a schema that a text stands for.
fn read_shown_struct<'s>(
    alloc: Global,
    schema: StructSchema<'s>,
    text: &[u8],
) -> Result<std::result::Result<ShownValue<'s>, usize>>
    requires { IsStruct schema }
    ensures read { (spot : Option SpotSaid) → (generic : ℕ) → IfOk result (λ r. IfOk r (λ w. IsShownRead (set_of schema.entry)
        spot (StructType (number_of schema.entry) generic) text.now (shown_source w))) }
    ensures unread { (spot : Option SpotSaid) → (generic : ℕ) → IfOk result (λ r. IfErr r (IsShownUnread (set_of schema.entry)
        spot (StructType (number_of schema.entry) generic) text.now)) }
    ensures memory { IfErr result (λ e. e.kind ≡ OutOfMemory) }
{
    let first = find_begin(text);
    match read_root(alloc, MOST_WORDS, schema, text) {
        Ok(root) => Ok(keep_part(root, Part::Root(schema), first)),
        Err(error) => Ok(Err(place_of(error, first)?)),
    }
}

/// The list of elements of a type that is at a spot.
fn list_at_spot<'s>(spot: Spot<'s>, element: Type) -> Part<'s>
    requires typed { (typed_of spot.field).type ≡ lists_of spot.depth (ListType (seen_type element)) }
    ensures { (s : StructTree) → part_source result s ≡ ListSource (Left 62) (tree_down spot.entry.depth
        (nth_tree s.pointers (offset_of (typed_of spot.entry.field).field.kind))) (seen_type element) }
{
    let schemas = spot.field.get_containing_struct().get_set();
    let Place::Pointer(pointer) = spot.field.plan().place else {
        unreachable!()
    };
    Part::Behind(schemas, element, pointer, spot.depth)
}

/// The list of elements of a type that a text stands for, at its spot.
fn read_shown_list<'s>(
    alloc: Global,
    spot: Spot<'s>,
    element: Type,
    text: &[u8],
) -> Result<std::result::Result<ShownValue<'s>, usize>>
    requires typed { (typed_of spot.field).type ≡ lists_of spot.depth (ListType (seen_type element)) }
    ensures read { IfOk result (λ r. IfOk r (λ w. IsShownRead (field_set spot.entry.field) (Some (spot_seen spot.entry))
        (ListType (seen_type element)) text.now (shown_source w))) }
    ensures unread { IfOk result (λ r. IfErr r (IsShownUnread (field_set spot.entry.field) (Some (spot_seen spot.entry))
        (ListType (seen_type element)) text.now)) }
    ensures memory { IfErr result (λ e. e.kind ≡ OutOfMemory) }
{
    let first = find_begin(text);
    // The prover learns the set's invariant from this call.
    let _schema = spot.field.get_containing_struct();
    match read_element(alloc, MOST_WORDS, spot.field, spot.depth, text) {
        Ok(root) => Ok(keep_part(root, list_at_spot(spot, element), first)),
        Err(error) => Ok(Err(place_of(error, first)?)),
    }
}

/// The struct or list of a type that a printed text stands for: a list as the value of its field, or as an element of the lists
/// there. Or the place of the first byte that can't stand there; the text's first where no message can hold the value, or it is
/// more than 64 levels deep; and 0 of a list without a spot. Refused with `OutOfMemory` alone.
///
/// # Conditions
///
/// The type names entries of the set (`NamesEntries`), and is that of the spot (`IsSpotOf`).
pub fn read_shown<'s>(
    alloc: Global,
    schemas: &'s SchemaSet,
    target: Type,
    spot: Option<Spot<'s>>,
    text: &[u8],
) -> Result<std::result::Result<ShownValue<'s>, usize>>
    requires entries { NamesEntries (lists_seen schemas.now) (seen_type target) }
    requires typed { IfSome spot (IsSpotOf (lists_seen schemas.now) (seen_type target)) }
    ensures read { IfOk result (λ r. IfOk r (λ w. IsShownRead (lists_seen schemas.now)
        (option_map spot_seen spot.entry) (seen_type target) text.now (shown_source w))) }
    ensures unread { IfOk result (λ r. IfErr r (IsShownUnread (lists_seen schemas.now)
        (option_map spot_seen spot.entry) (seen_type target) text.now)) }
    ensures memory { IfErr result (λ e. e.kind ≡ OutOfMemory) }
{
    match target.which() {
        TypeVariant::Struct(raw) => {
            read_shown_struct(alloc, schemas.struct_schema(raw.number), text)
        }
        TypeVariant::List(element) => match spot {
            Some(spot) => read_shown_list(alloc, spot, element, text),
            None => Ok(Err(0)),
        },
        _ => Ok(Err(0)),
    }
}
