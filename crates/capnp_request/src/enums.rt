//! Enums, as a request says them.
ghost use Rattle.std.specs.Prelude.{◌≡◌, [], length, map, string_bytes, IfErr, IfOk};
ghost use Rattle.capnp_device.specs.declared.error.ErrorKind.TheVariants.{OutOfMemory};
ghost use Rattle.capnp_schema.specs.Schema.{seen_enum};
ghost use Rattle.capnp_request.specs.Steps.Seen.{IsRequestRecord, list_seen, record_seen};
ghost use Rattle.capnp_request.specs.Steps.Done.{IsWorkDone, between};
ghost use Rattle.capnp_request.specs.Steps.Handles.{IsListOf, values_left};
ghost use Rattle.capnp_request.specs.Steps.Nodes.{AreNodes, nodes_of};
ghost use Rattle.capnp_request.specs.Steps.Numbers.{AreNumbered};
ghost use Rattle.capnp_request.specs.Order.{enum_made, enumerant_of};
ghost use Rattle.capnp_request.specs.Reading.{each_said, enumerant_said, node_said};
ghost use Rattle.capnp_request.specs.Refusals.{IsRefusal};
ghost use Rattle.capnp_request.specs.Steps.StructsSeen.{enumerant_records, enumerant_types, seen_converted_enumerant, seen_enumerants};
ghost use Rattle.capnp_request.specs.Work.{each_read};

use crate::annotations::annotations_of;
use crate::context::Context;
use crate::entries::Entries;
use crate::handles::{RequestList, RequestRecord};
use crate::parts::{element_at, owned, text_at};
use crate::places::{ENUMERANT_ANNOTATIONS, ENUMERANT_NAME, NODE_ANNOTATIONS, brands, slots};
use crate::schema_nodes::enumerants;
use capnp_base::introspect::Type;
use capnp_schema::record::{AnnotationTypes, EnumRecord, EnumerantRecord};
use capnp_wire::error::Result;
use std::alloc::Global;

/// An enum's node, and its id.
#[derive(Clone, Copy)]
pub(crate) struct EnumPlace<'a> {
    pub(crate) id: u64,
    pub(crate) node: RequestRecord<'a>,
}

/// An enumerant with the types of its annotations.
#[derive(Drop)]
struct ConvertedEnumerant {
    record: EnumerantRecord,
    annotation_types: Vec<Type>,
}

/// The records of enumerants, and the types of their annotations.
#[derive(Drop)]
struct EnumerantParts {
    records: Vec<EnumerantRecord>,
    annotation_types: Vec<Vec<Type>>,
}

/// An enumerant. No type parameter is bound in it.
fn enumerant_of<'a>(
    context: Context<'_, 'a>,
    entries: &mut Entries,
    enumerant: RequestRecord<'a>,
) -> Result<ConvertedEnumerant>
    requires nodes { AreNodes context.nodes.now }
    requires numbers { AreNumbered entries.now }
    requires is_record { IsRequestRecord 11 enumerant }
    ensures done { IsWorkDone seen_converted_enumerant
        (enumerant_of (nodes_of context.entry.nodes.now) context.entry.strict
        (enumerant_said (record_seen enumerant.entry)))
        (between entries.old) (between entries.new) result }
    ensures numbers { IfOk result (λ _. AreNumbered entries.new) }
    ensures kinds { IfErr result (λ e. IsRefusal context.entry.strict e.kind) }
{
    let text = text_at(
        enumerant,
        brands::ENUMERANT,
        ENUMERANT_NAME,
        slots::ENUMERANT_NAME,
    )?;
    let name = owned(context.alloc, text)?;
    let annotated = annotations_of(
        context,
        entries,
        &[],
        enumerant,
        brands::ENUMERANT,
        ENUMERANT_ANNOTATIONS,
        slots::ENUMERANT_ANNOTATIONS,
    )?;
    let (annotations, types) = annotated;
    Ok(ConvertedEnumerant {
        record: EnumerantRecord { name, annotations },
        annotation_types: types,
    })
}

/// The enumerants of an enum, by index.
fn enumerants_of<'a>(
    context: Context<'_, 'a>,
    entries: &mut Entries,
    listed: RequestList<'a>,
) -> Result<Vec<ConvertedEnumerant>>
    requires nodes { AreNodes context.nodes.now }
    requires numbers { AreNumbered entries.now }
    requires is_list { IsListOf 11 listed }
    ensures done { IsWorkDone (λ r. seen_enumerants r.items)
        (each_read (enumerant_of (nodes_of context.entry.nodes.now) context.entry.strict)
        (each_said 11 enumerant_said (values_left listed.entry 0)))
        (between entries.old) (between entries.new) result }
    ensures numbers { IfOk result (λ _. AreNumbered entries.new) }
    ensures kinds { IfErr result (λ e. IsRefusal context.entry.strict e.kind) }
{
    let mut made = Vec::new(context.alloc);
    for index in 0..listed.len() {
        let enumerant = element_at(listed, index, brands::ENUMERANT)?;
        let converted = enumerant_of(context, entries, enumerant)?;
        made.push(converted)?;
    }
    Ok(made)
}

/// The parts of enumerants, each in a list of its own.
fn parts_of(alloc: Global, made: Vec<ConvertedEnumerant>) -> Result<EnumerantParts>
    ensures records { IfOk result (λ parts. parts.records.items ≡ enumerant_records made.items) }
    ensures types { IfOk result (λ parts. map (λ types. types.items) parts.annotation_types.items
        ≡ enumerant_types made.items) }
    ensures kinds { IfErr result (λ e. e.kind ≡ OutOfMemory) }
{
    let mut parts = EnumerantParts {
        records: Vec::new(alloc),
        annotation_types: Vec::new(alloc),
    };
    for enumerant in made {
        let ConvertedEnumerant {
            record,
            annotation_types,
        } = enumerant;
        parts.records.push(record)?;
        parts.annotation_types.push(annotation_types)?;
    }
    Ok(parts)
}

/// An enum of that name. No type parameter is bound in it.
pub(crate) fn enum_of<'a>(
    context: Context<'_, 'a>,
    entries: &mut Entries,
    place: EnumPlace<'a>,
    display_name: String,
) -> Result<EnumRecord>
    requires nodes { AreNodes context.nodes.now }
    requires numbers { AreNumbered entries.now }
    requires is_record { IsRequestRecord 2 place.node }
    ensures done { IsWorkDone seen_enum (enum_made (nodes_of context.entry.nodes.now) context.entry.strict place.entry.id
        (string_bytes display_name) (node_said (record_seen place.entry.node)))
        (between entries.old) (between entries.new) result }
    ensures numbers { IfOk result (λ _. AreNumbered entries.new) }
    ensures own { IfOk result (λ e. length e.annotation_types.own.items ≡ length e.annotations.items) }
    ensures children { IfOk result (λ e. length e.annotation_types.children.items ≡ length e.enumerants.items) }
    ensures kinds { IfErr result (λ e. IsRefusal context.entry.strict e.kind) }
{
    let members = enumerants(place.node)?;
    let made = enumerants_of(context, entries, members)?;
    let annotated = annotations_of(
        context,
        entries,
        &[],
        place.node,
        brands::NODE,
        NODE_ANNOTATIONS,
        slots::NODE_ANNOTATIONS,
    )?;
    let (annotations, own) = annotated;
    let parts = parts_of(context.alloc, made)?;
    let EnumerantParts {
        records,
        annotation_types,
    } = parts;
    Ok(EnumRecord {
        id: place.id,
        display_name,
        annotations,
        enumerants: records,
        annotation_types: AnnotationTypes {
            own,
            children: annotation_types,
        },
    })
}
