//! Fields, as a request says them.
ghost use Rattle.std.specs.Prelude.{◌≡◌, ◌&&◌, length, Some, IfErr, IfOk};
ghost use Rattle.capnp_records.specs.Part.{which_of};
ghost use Rattle.capnp_request.specs.Steps.Seen.{IsRequestRecord, record_seen};
ghost use Rattle.capnp_request.specs.Steps.Bindings.{bounds, seen_marked};
ghost use Rattle.capnp_request.specs.Conversion.{field_of, is_untyped, is_untyped_default, kind_of};
ghost use Rattle.capnp_request.specs.Steps.ConvertedSeen.{seen_converted, seen_converted_kind};
ghost use Rattle.capnp_request.specs.Steps.Done.{IsWorkDone, between};
ghost use Rattle.capnp_request.specs.Steps.Nodes.{AreNodes, nodes_of};
ghost use Rattle.capnp_request.specs.Steps.Numbers.{AreNumbered};
ghost use Rattle.capnp_request.specs.Parts.{request_read_at};
ghost use Rattle.capnp_request.specs.Reading.{field_said, group_said, in_struct, slot_said, value_said};
ghost use Rattle.capnp_request.specs.Refusals.{IsRefusal};
ghost use Rattle.capnp_request.specs.Terms.{UnreadField};

use crate::annotations::annotations_of;
use crate::context::Context;
use crate::entries::{BoundScope, Entries, GroupPlace, entry_type};
use crate::handles::RequestRecord;
use crate::marks::{MarkedType, add_mark, plain};
use crate::notes::Seen;
use crate::parts::{field_member, group_at, owned, struct_at, text_at, u16_at, u32_at, u64_at};
use crate::places::{
    FIELD_ANNOTATIONS, FIELD_DISCRIMINANT, FIELD_GROUP, FIELD_NAME, FIELD_SLOT, GROUP_ID,
    SLOT_DEFAULT, SLOT_OFFSET, SLOT_TYPE, brands, slots,
};
use crate::scopes::{copied_scopes, is_untyped};
use crate::types::slot_type;
use crate::values::{is_untyped_value, value_of};
use capnp_base::introspect::Type;
use capnp_schema::record::{FieldKind, FieldRecord};
use capnp_wire::error::{Error, ErrorKind, Result};

/// A field with its type, the types of its annotations, and what is noted of it.
#[derive(Drop)]
pub(crate) struct ConvertedField {
    pub(crate) record: FieldRecord,
    pub(crate) field_type: Type,
    pub(crate) annotation_types: Vec<Type>,
    pub(crate) seen: Seen,
}

/// The kind of a field, its type, and what is noted of it.
#[derive(Drop)]
struct ConvertedKind {
    kind: FieldKind,
    field_type: MarkedType,
    seen: Seen,
}

/// Whether a default is left out: that of an untyped field, where it is an untyped pointer that isn't null.
fn is_default_left_out(field_type: MarkedType, value: RequestRecord<'_>) -> bool
    requires { IsRequestRecord 22 value }
    ensures { result ≡ (is_untyped (seen_marked field_type).type
        && is_untyped_default (value_said (record_seen value.entry))) }
{
    if is_untyped(field_type) {
        return is_untyped_value(value);
    }
    false
}

/// A slot at its place in an entry of these scopes.
#[inline(always)]
fn slot_of<'a>(
    context: Context<'_, 'a>,
    entries: &mut Entries,
    inside: &[BoundScope],
    field: RequestRecord<'a>,
    place: GroupPlace,
) -> Result<ConvertedKind>
    requires nodes { AreNodes context.nodes.now }
    requires numbers { AreNumbered entries.now }
    requires record { IsRequestRecord 8 field }
    requires active { which_of (record_seen field) ≡ Some 3 }
    ensures done { IsWorkDone (seen_converted_kind place)
        (kind_of (nodes_of context.entry.nodes.now) context.entry.strict (bounds inside.now) place.parent place.field
        (in_struct UnreadField slot_said (request_read_at 8 3 (record_seen field.entry))))
        (between entries.old) (between entries.new) result }
    ensures numbers { IfOk result (λ _. AreNumbered entries.new) }
    ensures kinds { IfErr result (λ e. IsRefusal context.entry.strict e.kind) }
{
    let _place = place;
    let slot = group_at(field, brands::FIELD, FIELD_SLOT, brands::SLOT);
    let offset = u32_at(slot, brands::SLOT, SLOT_OFFSET, slots::SLOT_OFFSET);
    let term = struct_at(
        slot,
        brands::SLOT,
        SLOT_TYPE,
        slots::SLOT_TYPE,
        brands::TYPE,
    )?;
    let mut seen = Seen::nothing();
    let field_type = slot_type(context, entries, inside, term, &mut seen)?;
    let value = struct_at(
        slot,
        brands::SLOT,
        SLOT_DEFAULT,
        slots::SLOT_DEFAULT,
        brands::VALUE,
    )?;
    let default = value_of(context.alloc, value)?;
    seen.untyped_default = is_default_left_out(field_type, value);
    Ok(ConvertedKind {
        kind: FieldKind::Slot { offset, default },
        field_type,
        seen,
    })
}

/// A group at its place in an entry of these scopes: an entry for itself.
fn group_of<'a>(
    context: Context<'_, 'a>,
    entries: &mut Entries,
    inside: &[BoundScope],
    field: RequestRecord<'a>,
    place: GroupPlace,
) -> Result<ConvertedKind>
    requires nodes { AreNodes context.nodes.now }
    requires numbers { AreNumbered entries.now }
    requires record { IsRequestRecord 8 field }
    requires active { which_of (record_seen field) ≡ Some 4 }
    ensures done { IsWorkDone (seen_converted_kind place)
        (kind_of (nodes_of context.entry.nodes.now) context.entry.strict (bounds inside.now) place.parent place.field
        (in_struct UnreadField group_said (request_read_at 8 4 (record_seen field.entry))))
        (between entries.old) (between entries.new) result }
    ensures numbers { IfOk result (λ _. AreNumbered entries.new) }
    ensures kinds { IfErr result (λ e. IsRefusal context.entry.strict e.kind) }
{
    let group = group_at(field, brands::FIELD, FIELD_GROUP, brands::GROUP);
    let id = u64_at(group, brands::GROUP, GROUP_ID, slots::GROUP_ID);
    context.nodes.struct_node(id)?;
    let scopes = copied_scopes(context.alloc, inside)?;
    let number = entries.number_group(id, scopes, place)?;
    Ok(ConvertedKind {
        kind: FieldKind::Group { node: number },
        field_type: plain(entry_type(number)),
        seen: Seen::nothing(),
    })
}

/// The kind of a field at its place in an entry of these scopes. Refused with `UnknownKind` where it is no slot and no
/// group.
#[inline(always)]
fn kind_of<'a>(
    context: Context<'_, 'a>,
    entries: &mut Entries,
    inside: &[BoundScope],
    field: RequestRecord<'a>,
    place: GroupPlace,
) -> Result<ConvertedKind>
    requires nodes { AreNodes context.nodes.now }
    requires numbers { AreNumbered entries.now }
    requires record { IsRequestRecord 8 field }
    ensures done { IsWorkDone (seen_converted_kind place)
        (kind_of (nodes_of context.entry.nodes.now) context.entry.strict (bounds inside.now) place.parent place.field
        (field_said (record_seen field.entry)).kind)
        (between entries.old) (between entries.new) result }
    ensures numbers { IfOk result (λ _. AreNumbered entries.new) }
    ensures kinds { IfErr result (λ e. IsRefusal context.entry.strict e.kind) }
{
    let Some(member) = field_member(field) else {
        return Err(Error::from(ErrorKind::UnknownKind));
    };
    match member {
        FIELD_SLOT => slot_of(context, entries, inside, field, place),
        FIELD_GROUP => group_of(context, entries, inside, field, place),
        _ => Err(Error::from(ErrorKind::UnknownKind)),
    }
}

/// A field inside an entry of these scopes, at its place there.
pub(crate) fn field_of<'a>(
    context: Context<'_, 'a>,
    entries: &mut Entries,
    inside: &[BoundScope],
    field: RequestRecord<'a>,
    place: GroupPlace,
) -> Result<ConvertedField>
    requires nodes { AreNodes context.nodes.now }
    requires numbers { AreNumbered entries.now }
    requires is_record { IsRequestRecord 8 field }
    ensures done { IsWorkDone (seen_converted place.parent place.field)
        (field_of (nodes_of context.entry.nodes.now) context.entry.strict (bounds inside.now) place.parent place.field
        (field_said (record_seen field.entry)))
        (between entries.old) (between entries.new) result }
    ensures numbers { IfOk result (λ _. AreNumbered entries.new) }
    ensures typed { IfOk result (λ f. length f.annotation_types.items ≡ length f.record.annotations.items) }
    ensures kinds { IfErr result (λ e. IsRefusal context.entry.strict e.kind) }
{
    let text = text_at(field, brands::FIELD, FIELD_NAME, slots::FIELD_NAME)?;
    let name = owned(context.alloc, text)?;
    let discriminant_value = u16_at(
        field,
        brands::FIELD,
        FIELD_DISCRIMINANT,
        slots::FIELD_DISCRIMINANT,
        65535,
    );
    let converted = kind_of(context, entries, inside, field, place)?;
    let index = FIELD_ANNOTATIONS;
    let listed = annotations_of(
        context,
        entries,
        inside,
        field,
        brands::FIELD,
        index,
        slots::FIELD_ANNOTATIONS,
    )?;
    let (mut annotations, mut annotation_types) = listed;
    let ConvertedKind {
        kind,
        field_type,
        seen,
    } = converted;
    add_mark(&mut annotations, &mut annotation_types, field_type.is_float)?;
    Ok(ConvertedField {
        record: FieldRecord {
            name,
            discriminant_value,
            annotations,
            kind,
        },
        field_type: field_type.standing,
        annotation_types,
        seen,
    })
}
