//! Which fields of an object are given.
ghost use Rattle.std.specs.Prelude.{ℕ, ◌≡◌, ◌-◌, drop, length, IfErr, IfOk, IfSome};
ghost use Rattle.capnp_schema.specs.FieldLists.{IsFieldOf, IsFound, index_of, typed_of};
ghost use Rattle.capnp_schema.specs.Query.{records_of};
ghost use Rattle.capnp_schema.specs.StructHandles.{IsStruct, number_of, set_of, struct_records};
ghost use Rattle.capnp_records.specs.Record.{Record, Value};
ghost use Rattle.capnp_json_text.specs.Contents.{string_content};
ghost use Rattle.capnp_json_fields.specs.Names.{field_of_name};
ghost use Rattle.capnp_from_json.specs.Errors.{IsErrorOf, Read};
ghost use Rattle.capnp_from_json.specs.Leaves.{Target};
ghost use Rattle.capnp_from_json.specs.Records.{MembersRead, Rules, is_given, is_same_mark, mark_of, member_read};
ghost use Rattle.capnp_from_json.specs.Given.{marks_of, named_read};

use crate::error::{Error, RefusalKind};
use crate::reading::{Reading, refused};
use capnp_json_fields::names::find_field;
use capnp_json_text::contents::read_string;
use capnp_schema::schema::{Field, StructSchema};
use std::alloc::Global;

/// What is given by a field: the field by its index, or the union by any of its members.
fn mark_of(field: Field<'_>) -> Option<u16>
    ensures { result ≡ mark_of (typed_of field.entry) (index_of field.entry) }
{
    if field.get_proto().is_member() {
        None
    } else {
        Some(field.get_index())
    }
}

/// Whether something is among what is given.
fn is_given(mark: Option<u16>, given: &[Option<u16>]) -> bool
    ensures { result ≡ is_given mark given.now }
{
    let mut rest = given;
    'marks: while let [first, more @ ..] = rest {
        if is_same(mark, *first) {
            return true;
        }
        rest = more;
    }
    false
}

/// Whether two marks are the same.
fn is_same(one: Option<u16>, other: Option<u16>) -> bool
    ensures { result ≡ is_same_mark one other }
{
    match one {
        None => match other {
            None => true,
            Some(_index) => false,
        },
        Some(index) => match other {
            None => false,
            Some(second) => index == second,
        },
    }
}

/// The bytes behind the first.
fn behind_quote(bytes: &[u8]) -> &[u8]
    ensures { result.now ≡ drop 1 bytes.now }
{
    match bytes {
        [] => bytes,
        [_quote, behind @ ..] => behind,
    }
}

/// The field that the name with which bytes begin names, where there is one.
///
/// Refused with `OutOfMemory` alone.
fn find_named<'s>(
    alloc: Global,
    schema: StructSchema<'s>,
    bytes: &[u8],
) -> capnp_device::error::Result<Option<Field<'s>>>
    ensures found { IfOk result (IsFound schema.entry
        (field_of_name (struct_records schema.entry) (string_content (drop 1 bytes.now)))) }
{
    let name = read_string(alloc, behind_quote(bytes))?;
    Ok(find_field(schema, &name))
}

/// The field that the name with which bytes begin names, which is given from now on. None where the struct has no such
/// field, and unknown names are passed over.
///
/// Refused with `OutOfMemory`; with `NameUnknown` where the struct has no such field; and with `GivenTwice` where the
/// field, or another member of its union, was given before. The place is that of the name.
///
/// # Conditions
///
/// The schema is one of an accepted set (`IsStruct`).
pub fn named_field<'s>(
    reading: Reading,
    schema: StructSchema<'s>,
    bytes: &[u8],
    given: &mut Vec<Option<u16>>,
) -> Result<Option<Field<'s>>, Error>
    requires { IsStruct schema }
    ensures read { (rules : Rules) → rules.set ≡ set_of schema.entry → rules.strict ≡ reading.strict →
        (value : (levels : ℕ) → Target → Read Value) (rest : MembersRead) (levels : ℕ) (r : Record) →
        IfOk result (λ f. member_read rules (reading.whole - length bytes.now) value rest levels (number_of schema.entry)
        (marks_of given.old.items) r (field_of_name (records_of rules.set (number_of schema.entry)) (string_content (drop 1 bytes.now)))
        ≡ named_read value rest levels (number_of schema.entry) (marks_of given.new.items) r f) }
    ensures refused { (rules : Rules) → rules.set ≡ set_of schema.entry → rules.strict ≡ reading.strict →
        (value : (levels : ℕ) → Target → Read Value) (rest : MembersRead) (levels : ℕ) (r : Record) →
        IfErr result (λ e. IsErrorOf (member_read rules (reading.whole - length bytes.now) value rest levels
        (number_of schema.entry) (marks_of given.old.items) r
        (field_of_name (records_of rules.set (number_of schema.entry)) (string_content (drop 1 bytes.now)))) e) }
    ensures field { IfOk result (λ o. IfSome o (λ f. IsFieldOf schema.entry (index_of f) f)) }
{
    let place = reading.place_of(bytes);
    let found = match find_named(reading.alloc, schema, bytes) {
        Ok(found) => found,
        Err(_memory) => return Err(Error::OutOfMemory),
    };
    let Some(field) = found else {
        if reading.strict {
            return Err(refused(RefusalKind::NameUnknown, place));
        }
        return Ok(None);
    };
    let mark = mark_of(field);
    if is_given(mark, given) {
        let twice = refused(RefusalKind::GivenTwice, place);
        return Err(twice);
    }
    if given.push(mark).is_err() {
        return Err(Error::OutOfMemory);
    }
    Ok(Some(field))
}
