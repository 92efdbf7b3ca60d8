//! The fields of a struct, their parts each in a list of its own.
//!
//! Most fields are slots of a type that its member says, without annotations. These are put there in one go, without calls
//! that hand on what was made.
ghost use Rattle.std.specs.Prelude.{ℕ, [], ◌∷◌, ◌≡◌, ◌++◌, Bool, true, false, map, string_bytes, IfErr, IfOk, IfSome, Some, Ok};
ghost use Rattle.capnp_device.specs.declared.error.ErrorKind.TheVariants.{OutOfMemory};
ghost use Rattle.capnp_schema.specs.Schema.{seen_value};
ghost use Rattle.capnp_schema.specs.Types.{seen_type};
ghost use Rattle.capnp_records.specs.Part.{which_of};
ghost use Rattle.capnp_records.specs.Record as value;
ghost use Rattle.capnp_records.specs.Record.{Record};
ghost use Rattle.capnp_request.specs.Steps.Seen.{IsRequestRecord, record_seen};
ghost use Rattle.capnp_request.specs.Conversion.{is_untyped};
ghost use Rattle.capnp_request.specs.Parts.{request_read_at};
ghost use Rattle.capnp_request.specs.Reading.{annotation_terms_in, field_said, type_levels, type_said};
ghost use Rattle.capnp_request.specs.Refusals.{IsUnstrict};
ghost use Rattle.capnp_request.specs.Steps.ConvertedSeen.{seen_converted};
ghost use Rattle.capnp_request.specs.Steps.PlainFields.{IsPlain, IsPut, plain_slot};
ghost use Rattle.capnp_request.specs.Terms.{MemberTerm};
ghost use Rattle.capnp_request.specs.declared.fields.ConvertedField.{ConvertedField};

use crate::fields::ConvertedField;
use crate::handles::RequestRecord;
use crate::marks::plain;
use crate::notes::Seen;
use crate::parts::{
    field_member, group_at, list_at, owned, struct_at, text_at, type_member, u16_at, u32_at,
};
use crate::places::{
    FIELD_ANNOTATIONS, FIELD_DISCRIMINANT, FIELD_NAME, FIELD_SLOT, SLOT_DEFAULT, SLOT_OFFSET,
    SLOT_TYPE, brands, slots,
};
use crate::scopes::is_untyped;
use crate::types::type_said_by_member;
use crate::values::value_of;
use capnp_base::introspect::Type;
use capnp_schema::record::{FieldKind, FieldRecord, ValueRecord};
use capnp_wire::error::Result;
use std::alloc::Global;

/// The records of fields with their types and those of their annotations.
#[derive(Drop)]
pub(crate) struct FieldLists {
    pub(crate) records: Vec<FieldRecord>,
    pub(crate) types: Vec<Type>,
    pub(crate) annotation_types: Vec<Vec<Type>>,
}

/// Adds the parts of a field, each to its list.
#[inline(always)]
pub(crate) fn put_field(lists: &mut FieldLists, field: ConvertedField) -> Result<()>
    ensures records { IfOk result (λ _. lists.new.records.items ≡ lists.old.records.items ++ field.record ∷ []) }
    ensures types { IfOk result (λ _. lists.new.types.items ≡ lists.old.types.items ++ field.field_type ∷ []) }
    ensures children { IfOk result (λ _. map (λ types. types.items) lists.new.annotation_types.items
        ≡ map (λ types. types.items) lists.old.annotation_types.items ++ field.annotation_types.items ∷ []) }
    ensures kinds { IfErr result (λ e. e.kind ≡ OutOfMemory) }
{
    let ConvertedField {
        record,
        field_type,
        annotation_types,
        seen: _,
    } = field;
    lists.records.push(record)?;
    lists.types.push(field_type)?;
    lists.annotation_types.push(annotation_types)?;
    Ok(())
}

/// The slot that a field is, none where it is no slot.
#[inline(always)]
fn slot_in<'a>(field: RequestRecord<'a>) -> Option<RequestRecord<'a>>
    requires { IsRequestRecord 8 field }
    ensures record { IfSome result (IsRequestRecord 9) }
    ensures active { IfSome result (λ _. which_of (record_seen field.entry) ≡ Some 3) }
    ensures read { IfSome result (λ s. value.Struct (record_seen s) ≡ request_read_at 8 3 (record_seen field.entry)) }
{
    let Some(member) = field_member(field) else {
        return None;
    };
    if member != FIELD_SLOT {
        return None;
    }
    let slot = group_at(field, brands::FIELD, FIELD_SLOT, brands::SLOT);
    Some(slot)
}

/// The type of a slot, where its member says all of it.
#[inline(always)]
fn plain_type(slot: RequestRecord<'_>) -> Option<Type>
    requires { IsRequestRecord 9 slot }
    ensures said { IfSome result (λ t. (term : Record)
        × (value.Struct term ≡ request_read_at 9 1 (record_seen slot.entry))
        × (type_said type_levels term ≡ MemberTerm (seen_type t))) }
    ensures typed { IfSome result (λ t. is_untyped (seen_type t) ≡ false) }
{
    let Ok(term) = struct_at(
        slot,
        brands::SLOT,
        SLOT_TYPE,
        slots::SLOT_TYPE,
        brands::TYPE,
    ) else {
        return None;
    };
    let Some(member) = type_member(term) else {
        return None;
    };
    let Some(said) = type_said_by_member(member) else {
        return None;
    };
    if is_untyped(plain(said)) {
        return None;
    }
    Some(said)
}

/// Whether a field has no annotations. False where they can't be read.
#[inline(always)]
fn has_no_annotations(field: RequestRecord<'_>) -> bool
    requires { IsRequestRecord 8 field }
    ensures { result ≡ true → annotation_terms_in (request_read_at 8 1 (record_seen field.entry)) ≡ Ok [] }
{
    match list_at(
        field,
        brands::FIELD,
        FIELD_ANNOTATIONS,
        slots::FIELD_ANNOTATIONS,
        brands::ANNOTATION,
    ) {
        Ok(listed) => listed.len() == 0,
        Err(_) => false,
    }
}

/// The record of a slot's default.
#[inline(always)]
fn default_in<'a>(slot: RequestRecord<'a>) -> Result<RequestRecord<'a>>
    requires { IsRequestRecord 9 slot }
    ensures read { IfOk result (λ s. value.Struct (record_seen s) ≡ request_read_at 9 2 (record_seen slot.entry)) }
    ensures record { IfOk result (IsRequestRecord 22) }
    ensures kinds { IfErr result (λ e. IsUnstrict e.kind) }
{
    struct_at(
        slot,
        brands::SLOT,
        SLOT_DEFAULT,
        slots::SLOT_DEFAULT,
        brands::VALUE,
    )
}

/// A slot of a plain type, without annotations.
#[inline(always)]
fn plain_field(
    alloc: Global,
    name: String,
    discriminant_value: u16,
    offset: u32,
    default: ValueRecord,
    said: Type,
) -> ConvertedField
    ensures { (n i : ℕ) → seen_converted n i result
        ≡ plain_slot (string_bytes name) discriminant_value offset (seen_value default) (seen_type said) }
{
    ConvertedField {
        record: FieldRecord {
            name,
            discriminant_value,
            annotations: Vec::new(alloc),
            kind: FieldKind::Slot { offset, default },
        },
        field_type: said,
        annotation_types: Vec::new(alloc),
        seen: Seen::nothing(),
    }
}

/// Adds a field that is a slot of a plain type without annotations. False where it is none or can't be made: then nothing
/// is added.
#[inline(always)]
pub(crate) fn put_plain(
    alloc: Global,
    lists: &mut FieldLists,
    field: RequestRecord<'_>,
) -> Result<bool>
    requires { IsRequestRecord 8 field }
    ensures put { IfOk result (λ is_put. is_put ≡ true → (made : ConvertedField)
        × IsPut made lists.old lists.new × IsPlain (field_said (record_seen field.entry)) made) }
    ensures same { IfOk result (λ is_put. is_put ≡ false → lists.new ≡ lists.old) }
    ensures kinds { IfErr result (λ e. e.kind ≡ OutOfMemory) }
{
    let Some(slot) = slot_in(field) else {
        return Ok(false);
    };
    let Some(said) = plain_type(slot) else {
        return Ok(false);
    };
    if !has_no_annotations(field) {
        return Ok(false);
    }
    let Ok(value) = default_in(slot) else {
        return Ok(false);
    };
    let Ok(text) = text_at(field, brands::FIELD, FIELD_NAME, slots::FIELD_NAME) else {
        return Ok(false);
    };
    let Ok(default) = value_of(alloc, value) else {
        return Ok(false);
    };
    let Ok(name) = owned(alloc, text) else {
        return Ok(false);
    };
    let offset = u32_at(slot, brands::SLOT, SLOT_OFFSET, slots::SLOT_OFFSET);
    let discriminant_value = u16_at(
        field,
        brands::FIELD,
        FIELD_DISCRIMINANT,
        slots::FIELD_DISCRIMINANT,
        65535,
    );
    let made = plain_field(alloc, name, discriminant_value, offset, default, said);
    put_field(lists, made)?;
    Ok(true)
}
