//! Structs, as a request says them.
ghost use Rattle.std.specs.Prelude.{List, [], ◌∷◌, ◌≡◌, ◌≢◌, ◌++◌, map, string_bytes, IfErr, IfOk, Ok, Err};
ghost use Rattle.capnp_device.specs.declared.error.ErrorKind.TheVariants.{OutOfMemory};
ghost use Rattle.capnp_schema.specs.Types.{seen_type};
ghost use Rattle.capnp_request.specs.Steps.Seen.{IsRequestRecord, record_seen};
ghost use Rattle.capnp_request.specs.Steps.Bindings.{bounds, flags};
ghost use Rattle.capnp_request.specs.Conversion.{field_of, notes_of};
ghost use Rattle.capnp_request.specs.Steps.Done.{IsWorkDone, between};
ghost use Rattle.capnp_request.specs.Steps.Nodes.{AreNodes, nodes_of};
ghost use Rattle.capnp_request.specs.Steps.Numbers.{AreNumbered};
ghost use Rattle.capnp_request.specs.Order.{all_fields, struct_made};
ghost use Rattle.capnp_request.specs.declared.fields.ConvertedField.{ConvertedField};
ghost use Rattle.capnp_request.specs.Reading.{field_said, node_said, struct_said};
ghost use Rattle.capnp_request.specs.Refusals.{IsRefusal};
ghost use Rattle.capnp_request.specs.Shapes.{IsBrandOf};
ghost use Rattle.capnp_request.specs.Steps.ConvertedSeen.{seen_converted};
ghost use Rattle.capnp_request.specs.Steps.PlainFields.{IsPut};
ghost use Rattle.capnp_request.specs.Steps.Shapes.{HasParts, note, noted_where};
ghost use Rattle.capnp_request.specs.StructsSeen.{seen_notes};
ghost use Rattle.capnp_request.specs.Steps.StructsSeen.{AreMadeOf, seen_fields, seen_struct};

use crate::annotations::annotations_of;
use crate::context::Context;
use crate::entries::{BoundScope, Entries, GroupPlace};
use crate::field_lists::{FieldLists, put_field, put_plain};
use crate::fields::field_of;
use crate::handles::RequestRecord;
use crate::notes::{Note, Seen, StandIn};
use crate::parts::{bool_at, element_at, list_at, u16_at, u32_at};
use crate::places::{
    NODE_ANNOTATIONS, STRUCT_DATA_WORDS, STRUCT_DISCRIMINANT_OFFSET, STRUCT_DISCRIMINANTS,
    STRUCT_FIELDS, STRUCT_IS_GROUP, STRUCT_POINTERS, brands, slots,
};
use crate::schema_nodes::struct_part;
use capnp_schema::record::{AnnotationTypes, BrandRecord, FieldRecord, NodeRecord, StructRecord};
use capnp_wire::error::Result;
use std::alloc::Global;

/// For how many fields room is made before the first is read: more may be said to be there than there are.
const MOST_ROOM: u32 = 64;

/// The fields of an entry, by index, and what is noted of them.
#[derive(Drop)]
struct MadeFields {
    parts: FieldLists,
    notes: Vec<Note>,
}

/// A note on a field.
fn note_at(entry: u32, field: u32, stand_in: StandIn) -> Note
    ensures { result ≡ record { entry = entry; field = field; stand_in = stand_in } }
{
    Note {
        entry,
        field,
        stand_in,
    }
}

/// Adds a note, where what it is of was seen.
fn add_note(notes: &mut Vec<Note>, is_seen: bool, note: Note) -> Result<()>
    ensures added { IfOk result (λ _. notes.new.items ≡ notes.old.items ++ noted_where is_seen note) }
    ensures kinds { IfErr result (λ e. e.kind ≡ OutOfMemory) }
{
    if is_seen {
        notes.push(note)?;
    }
    Ok(())
}

/// Adds what is noted of a field.
fn add_notes(notes: &mut Vec<Note>, entry: u32, field: u32, seen: Seen) -> Result<()>
    ensures added { IfOk result (λ _. seen_notes notes.new.items
        ≡ seen_notes notes.old.items ++ notes_of entry field (flags seen) seen.untyped_default) }
    ensures kinds { IfErr result (λ e. e.kind ≡ OutOfMemory) }
{
    add_note(notes, seen.float32, note_at(entry, field, StandIn::Float32))?;
    add_note(notes, seen.float64, note_at(entry, field, StandIn::Float64))?;
    add_note(
        notes,
        seen.interface,
        note_at(entry, field, StandIn::Interface),
    )?;
    add_note(
        notes,
        seen.untyped_default,
        note_at(entry, field, StandIn::UntypedDefault),
    )?;
    Ok(())
}

/// Adds a field of an entry, and what is noted of it.
#[inline(always)]
fn add_field<'a>(
    context: Context<'_, 'a>,
    entries: &mut Entries,
    inside: &[BoundScope],
    number: u32,
    index: u32,
    field: RequestRecord<'a>,
    made: &mut MadeFields,
) -> Result<()>
    requires nodes { AreNodes context.nodes.now }
    requires numbers { AreNumbered entries.now }
    requires is_record { IsRequestRecord 8 field }
    ensures done { IfOk result (λ _. (f : ConvertedField) × IsPut f made.old.parts made.new.parts
        × (seen_notes made.new.notes.items ≡ seen_notes made.old.notes.items ++ (seen_converted number index f).notes)
        × (field_of (nodes_of context.entry.nodes.now) context.entry.strict (bounds inside.now) number index
        (field_said (record_seen field.entry)) (between entries.old)
        ≡ Ok (seen_converted number index f, between entries.new))) }
    ensures refused { IfErr result (λ e. e.kind ≢ OutOfMemory
        → field_of (nodes_of context.entry.nodes.now) context.entry.strict (bounds inside.now) number index
        (field_said (record_seen field.entry)) (between entries.old) ≡ Err e.kind) }
    ensures numbers { IfOk result (λ _. AreNumbered entries.new) }
    ensures kinds { IfErr result (λ e. IsRefusal context.entry.strict e.kind) }
{
    let is_put = put_plain(context.alloc, &mut made.parts, field)?;
    if is_put {
        return Ok(());
    }
    let place = GroupPlace {
        parent: number,
        field: index as usize,
    };
    let converted = field_of(context, entries, inside, field, place)?;
    add_notes(&mut made.notes, number, index, converted.seen)?;
    put_field(&mut made.parts, converted)?;
    Ok(())
}

/// The fields of an entry, by index, and what is noted of them.
fn fields_of<'a>(
    context: Context<'_, 'a>,
    entries: &mut Entries,
    inside: &[BoundScope],
    number: u32,
    part: RequestRecord<'a>,
) -> Result<MadeFields>
    requires nodes { AreNodes context.nodes.now }
    requires numbers { AreNumbered entries.now }
    requires is_record { IsRequestRecord 3 part }
    ensures done { IfOk result (λ r. (fields : List ConvertedField) × AreMadeOf number fields r
        × (all_fields (nodes_of context.entry.nodes.now) context.entry.strict (bounds inside.now) number
        (struct_said (record_seen part.entry)).fields (between entries.old)
        ≡ Ok (seen_fields number 0 fields, between entries.new))) }
    ensures refused { IfErr result (λ e. e.kind ≢ OutOfMemory
        → all_fields (nodes_of context.entry.nodes.now) context.entry.strict (bounds inside.now) number
        (struct_said (record_seen part.entry)).fields (between entries.old) ≡ Err e.kind) }
    ensures numbers { IfOk result (λ _. AreNumbered entries.new) }
    ensures kinds { IfErr result (λ e. IsRefusal context.entry.strict e.kind) }
{
    let listed = list_at(
        part,
        brands::STRUCT,
        STRUCT_FIELDS,
        slots::STRUCT_FIELDS,
        brands::FIELD,
    )?;
    let room = listed.len().min(MOST_ROOM) as usize;
    let records = Vec::with_capacity(context.alloc, room)?;
    let types = Vec::with_capacity(context.alloc, room)?;
    let annotation_types = Vec::with_capacity(context.alloc, room)?;
    let mut made = MadeFields {
        parts: FieldLists {
            records,
            types,
            annotation_types,
        },
        notes: Vec::new(context.alloc),
    };
    for index in 0..listed.len() {
        let field = element_at(listed, index, brands::FIELD)?;
        add_field(context, entries, inside, number, index, field, &mut made)?;
    }
    Ok(made)
}

/// What a struct has beside its name and annotations, with these fields.
fn body_of(part: RequestRecord<'_>, fields: Vec<FieldRecord>) -> StructRecord
    requires { IsRequestRecord 3 part }
    ensures parts { HasParts (struct_said (record_seen part.entry)) result }
    ensures fields { result.fields ≡ fields }
{
    StructRecord {
        data_word_count: u16_at(
            part,
            brands::STRUCT,
            STRUCT_DATA_WORDS,
            slots::STRUCT_DATA_WORDS,
            0,
        ),
        pointer_count: u16_at(
            part,
            brands::STRUCT,
            STRUCT_POINTERS,
            slots::STRUCT_POINTERS,
            0,
        ),
        is_group: bool_at(
            part,
            brands::STRUCT,
            STRUCT_IS_GROUP,
            slots::STRUCT_IS_GROUP,
        ),
        discriminant_count: u16_at(
            part,
            brands::STRUCT,
            STRUCT_DISCRIMINANTS,
            slots::STRUCT_DISCRIMINANTS,
            0,
        ),
        discriminant_offset: u32_at(
            part,
            brands::STRUCT,
            STRUCT_DISCRIMINANT_OFFSET,
            slots::STRUCT_DISCRIMINANT_OFFSET,
        ),
        fields,
    }
}

/// The node and the brand of an entry, and what is noted of its fields.
#[derive(Drop)]
pub(crate) struct MadeStruct {
    pub(crate) record: NodeRecord,
    pub(crate) brand: BrandRecord,
    pub(crate) notes: Vec<Note>,
}

/// A struct node, and the number of the entry that is made of it.
#[derive(Clone, Copy)]
pub(crate) struct NodePlace<'a> {
    pub(crate) number: u32,
    pub(crate) id: u64,
    pub(crate) node: RequestRecord<'a>,
}

/// The node and the brand of an entry of that name, inside its own scopes.
pub(crate) fn struct_of<'a>(
    context: Context<'_, 'a>,
    entries: &mut Entries,
    inside: &[BoundScope],
    place: NodePlace<'a>,
    display_name: String,
) -> Result<MadeStruct>
    requires nodes { AreNodes context.nodes.now }
    requires numbers { AreNumbered entries.now }
    requires is_record { IsRequestRecord 2 place.node }
    ensures done { IsWorkDone seen_struct (struct_made
        (nodes_of context.entry.nodes.now) context.entry.strict place.entry.number place.entry.id (bounds inside.now)
        (string_bytes display_name) (node_said (record_seen place.entry.node)))
        (between entries.old) (between entries.new) result }
    ensures numbers { IfOk result (λ _. AreNumbered entries.new) }
    ensures brand { IfOk result (λ r. IsBrandOf place.entry.number r.record r.brand) }
    ensures kinds { IfErr result (λ e. IsRefusal context.entry.strict e.kind) }
{
    let part = struct_part(place.node)?;
    let made = fields_of(context, entries, inside, place.number, part)?;
    let annotated = annotations_of(
        context,
        entries,
        inside,
        place.node,
        brands::NODE,
        NODE_ANNOTATIONS,
        slots::NODE_ANNOTATIONS,
    )?;
    let (annotations, own) = annotated;
    let MadeFields { parts, notes } = made;
    let FieldLists {
        records,
        types,
        annotation_types,
    } = parts;
    let record = NodeRecord {
        id: place.id,
        display_name,
        annotations,
        body: body_of(part, records),
    };
    let brand = BrandRecord {
        node: place.number,
        field_types: types,
        annotation_types: AnnotationTypes {
            own,
            children: annotation_types,
        },
    };
    Ok(MadeStruct {
        record,
        brand,
        notes,
    })
}
