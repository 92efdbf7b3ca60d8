//! Annotations, as a request says them.
ghost use Rattle.std.specs.Prelude.{◌≡◌, false, length, IfErr, IfOk};
ghost use Rattle.capnp_request.specs.Steps.Seen.{IsRequestRecord, record_seen};
ghost use Rattle.capnp_request.specs.RequestSet.{request_set};
ghost use Rattle.capnp_schema.specs.Builtin.{zero_word};
ghost use Rattle.capnp_schema.specs.Schema.{ListValue, field_at, is_member, seen_annotation};
ghost use Rattle.capnp_schema.specs.Types.{seen_type};
ghost use Rattle.capnp_request.specs.Steps.Bindings.{bounds, seen_marked};
ghost use Rattle.capnp_request.specs.Conversion.{annotation_of, annotations_of, declared_type};
ghost use Rattle.capnp_request.specs.Steps.ConvertedSeen.{typed_annotations};
ghost use Rattle.capnp_request.specs.Steps.Done.{IsWorkDone, between};
ghost use Rattle.capnp_request.specs.Steps.Handles.{IsListOf, IsRequestSlot, values_left};
ghost use Rattle.capnp_request.specs.Steps.Nodes.{AreNodes, nodes_of};
ghost use Rattle.capnp_request.specs.Steps.Numbers.{AreNumbered};
ghost use Rattle.capnp_request.specs.Parts.{request_read_at};
ghost use Rattle.capnp_request.specs.Steps.Parts.{request_structs};
ghost use Rattle.capnp_request.specs.Reading.{annotation_said, annotation_terms_in, brand_in, each_said, whole_type};
ghost use Rattle.capnp_request.specs.Refusals.{IsRefusal};
ghost use Rattle.capnp_request.specs.Work.{each_read, work_unnoted};

use crate::context::Context;
use crate::entries::{BoundScope, Entries};
use crate::handles::{RequestList, RequestRecord};
use crate::marks::MarkedType;
use crate::notes::Seen;
use crate::parts::{element_at, list_at, struct_at, u64_at};
use crate::places::{
    ANNOTATION_BRAND, ANNOTATION_ID, ANNOTATION_VALUE, DECLARED_TYPE, brands, slots,
};
use crate::types::{BrandPlace, bindings_of, levels_of_types, type_of};
use crate::values::value_of;
use capnp_base::introspect::Type;
use capnp_schema::record::AnnotationRecord;
use capnp_wire::error::Result;

/// The type of an annotation inside an entry of these scopes: that of its declaration, read with its brand.
fn annotation_type<'a>(
    context: Context<'_, 'a>,
    entries: &mut Entries,
    inside: &[BoundScope],
    annotation: RequestRecord<'a>,
    id: u64,
) -> Result<MarkedType>
    requires nodes { AreNodes context.nodes.now }
    requires numbers { AreNumbered entries.now }
    requires is_record { IsRequestRecord 12 annotation }
    ensures done { IsWorkDone seen_marked (work_unnoted
        (declared_type (nodes_of context.entry.nodes.now) context.entry.strict id (bounds inside.now)
        (brand_in whole_type (request_read_at 12 2 (record_seen annotation.entry)))))
        (between entries.old) (between entries.new) result }
    ensures numbers { IfOk result (λ _. AreNumbered entries.new) }
    ensures kinds { IfErr result (λ e. IsRefusal context.entry.strict e.kind) }
{
    let declaration = context.nodes.declaration(id)?;
    let place = BrandPlace {
        reader: annotation,
        holder: brands::ANNOTATION,
        index: ANNOTATION_BRAND,
        pointer: slots::ANNOTATION_BRAND,
    };
    // Nothing is noted of an annotation.
    let mut seen = Seen::nothing();
    let levels = levels_of_types();
    let scopes = bindings_of(context, entries, inside, id, place, &mut seen, levels)?;
    let term = struct_at(
        declaration,
        brands::DECLARATION,
        DECLARED_TYPE,
        slots::DECLARED_TYPE,
        brands::TYPE,
    )?;
    let annotation_type = type_of(context, entries, scopes.as_slice(), term, &mut seen, levels)?;
    Ok(annotation_type)
}

/// An annotation inside an entry of these scopes, and its type.
fn annotation_of<'a>(
    context: Context<'_, 'a>,
    entries: &mut Entries,
    inside: &[BoundScope],
    annotation: RequestRecord<'a>,
) -> Result<(AnnotationRecord, Type)>
    requires nodes { AreNodes context.nodes.now }
    requires numbers { AreNumbered entries.now }
    requires is_record { IsRequestRecord 12 annotation }
    ensures done { IsWorkDone (λ r. (seen_annotation r.0, seen_type r.1))
        (annotation_of (nodes_of context.entry.nodes.now) context.entry.strict (bounds inside.now)
        (annotation_said (record_seen annotation.entry)))
        (between entries.old) (between entries.new) result }
    ensures numbers { IfOk result (λ _. AreNumbered entries.new) }
    ensures kinds { IfErr result (λ e. IsRefusal context.entry.strict e.kind) }
{
    let id = u64_at(
        annotation,
        brands::ANNOTATION,
        ANNOTATION_ID,
        slots::ANNOTATION_ID,
    );
    let said = struct_at(
        annotation,
        brands::ANNOTATION,
        ANNOTATION_VALUE,
        slots::ANNOTATION_VALUE,
        brands::VALUE,
    )?;
    let value = value_of(context.alloc, said)?;
    let annotation_type = annotation_type(context, entries, inside, annotation, id)?;
    Ok((AnnotationRecord { id, value }, annotation_type.standing))
}

/// The annotations of a list, and the type of each.
#[inline(never)]
fn annotations_in<'a>(
    context: Context<'_, 'a>,
    entries: &mut Entries,
    inside: &[BoundScope],
    listed: RequestList<'a>,
) -> Result<(Vec<AnnotationRecord>, Vec<Type>)>
    requires nodes { AreNodes context.nodes.now }
    requires numbers { AreNumbered entries.now }
    requires elements { IsListOf 12 listed }
    ensures done { IsWorkDone (λ r. typed_annotations r.0.items r.1.items)
        (each_read (annotation_of (nodes_of context.entry.nodes.now) context.entry.strict (bounds inside.now))
        (each_said 12 annotation_said (values_left listed.entry 0)))
        (between entries.old) (between entries.new) result }
    ensures numbers { IfOk result (λ _. AreNumbered entries.new) }
    ensures typed { IfOk result (λ r. length r.1.items ≡ length r.0.items) }
    ensures kinds { IfErr result (λ e. IsRefusal context.entry.strict e.kind) }
{
    let mut records = Vec::new(context.alloc);
    let mut types = Vec::new(context.alloc);
    for at in 0..listed.len() {
        let annotation = element_at(listed, at, brands::ANNOTATION)?;
        let made = annotation_of(context, entries, inside, annotation)?;
        let (record, annotation_type) = made;
        records.push(record)?;
        types.push(annotation_type)?;
    }
    Ok((records, types))
}

/// The annotations that a field of a record has, and the type of each.
#[inline(always)]
pub(crate) fn annotations_of<'a>(
    context: Context<'_, 'a>,
    entries: &mut Entries,
    inside: &[BoundScope],
    reader: RequestRecord<'a>,
    brand: u32,
    index: u16,
    place: u16,
) -> Result<(Vec<AnnotationRecord>, Vec<Type>)>
    requires nodes { AreNodes context.nodes.now }
    requires numbers { AreNumbered entries.now }
    requires record { IsRequestRecord brand reader }
    requires field { IsRequestSlot brand index (request_structs 12) place (ListValue zero_word) }
    requires non_union { is_member (field_at request_set brand index).field ≡ false }
    ensures done { IsWorkDone (λ r. typed_annotations r.0.items r.1.items)
        (annotations_of (nodes_of context.entry.nodes.now) context.entry.strict (bounds inside.now)
        (annotation_terms_in (request_read_at brand index (record_seen reader.entry))))
        (between entries.old) (between entries.new) result }
    ensures numbers { IfOk result (λ _. AreNumbered entries.new) }
    ensures typed { IfOk result (λ r. length r.1.items ≡ length r.0.items) }
    ensures kinds { IfErr result (λ e. IsRefusal context.entry.strict e.kind) }
{
    let listed = list_at(reader, brand, index, place, brands::ANNOTATION)?;
    // most have none, which is seen here, without a call
    if listed.len() == 0 {
        return Ok((Vec::new(context.alloc), Vec::new(context.alloc)));
    }
    annotations_in(context, entries, inside, listed)
}
