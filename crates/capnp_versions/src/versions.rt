//! Two versions of a struct.
ghost use Rattle.std.specs.Prelude.{◌≡◌, ◌≢◌, ◌+◌, ◌<◌, ◌≤◌, ◌^◌, IfErr, IfOk, None, Some, length, string_bytes};
ghost use Rattle.capnp_device.specs.declared.error.ErrorKind.TheVariants.{NameNotFound, OutOfMemory, TooManyTypes};
ghost use Rattle.capnp_schema.specs.ByName.{brand_asked};
ghost use Rattle.capnp_schema.specs.Entries.{lists_seen};
ghost use Rattle.capnp_versions.specs.Shared.{named_report_text};
ghost use Rattle.capnp_versions.specs.Versions.{IsComparison, IsComparisonIn, IsNotCompared};

use crate::changes::put_changes;
use crate::every::notes_told;
use crate::lines::get_lines;
use capnp_base::introspect::RawBrandedStructSchema;
use capnp_differences::{Pair, explain_all};
use capnp_joined_sets::join;
use capnp_schema::set::SchemaSet;
use capnp_wire::error::{Error, ErrorKind, Result};
use std::alloc::Global;

/// What differs between two versions of a struct.
#[derive(Drop)]
pub struct Comparison {
    /// A line for each difference: the struct by its older display name, the field, and what differs.
    pub text: String,
    /// A line for each change that keeps no program from messages of the other.
    pub notes: String,
    /// Whether the newer struct follows the older one: a program that knows one reads messages of the other.
    pub follows: bool,
}

/// The number of the struct of a display name. Refused with `NameNotFound` where the set has none.
fn find_number(schemas: &SchemaSet, name: &str) -> Result<u32>
    ensures found { IfOk result (λ n. brand_asked (lists_seen schemas.now) name.now ≡ Some n) }
    ensures inside { IfOk result (λ n. n < length (lists_seen schemas.now).brands) }
    ensures missing { IfErr result (λ e. (e.kind ≡ NameNotFound) × (brand_asked (lists_seen schemas.now) name.now ≡ None)) }
{
    match schemas.find_struct(name) {
        Some(schema) => Ok(RawBrandedStructSchema::from(schema).number),
        None => Err(Error::from(ErrorKind::NameNotFound)),
    }
}

/// A number of the second of two joined sets, as it is there. Refused with `TooManyTypes` where it takes more than 32 bits.
pub(crate) fn moved_number(older: &SchemaSet, number: u32) -> Result<u32>
    ensures moved { IfOk result (λ n. n ≡ number + length (lists_seen older.now).brands) }
    ensures past { IfErr result (λ e. (e.kind ≡ TooManyTypes) × (2 ^ 32 ≤ number + length (lists_seen older.now).brands)) }
{
    match u32::try_from(older.brands().len() as u64 + number as u64) {
        Ok(moved) => Ok(moved),
        Err(_) => Err(Error::from(ErrorKind::TooManyTypes)),
    }
}

/// What differs between two structs of one set. Refused with `OutOfMemory` alone.
fn compare_in(alloc: Global, schemas: &SchemaSet, older: u32, newer: u32) -> Result<Comparison>
    requires older { older < length (lists_seen schemas.now).brands }
    requires newer { newer < length (lists_seen schemas.now).brands }
    ensures compared { IfOk result (IsComparisonIn (lists_seen schemas.now) older newer) }
    ensures memory { IfErr result (λ e. e.kind ≡ OutOfMemory) }
{
    let asked = [Pair { older, newer }];
    let explanation = explain_all(alloc, schemas, &asked)?;
    let text = get_lines(alloc, schemas, &explanation.told)?;
    let mut notes = String::new(alloc);
    put_changes(&mut notes, schemas, &explanation.notes)?;
    Ok(Comparison {
        text,
        notes,
        follows: explanation.told.is_empty(),
    })
}

/// What differs between the structs of one display name in two sets, which hold an older and a newer version of a schema;
/// their ids may be the same.
///
/// Refused with `NameNotFound` where one of the sets has no struct of that name, with `TooManyTypes` where a number of both
/// sets together takes more than 32 bits, and with `OutOfMemory`.
pub fn compare(
    alloc: Global,
    older: &SchemaSet,
    newer: &SchemaSet,
    name: &str,
) -> Result<Comparison>
    ensures compared { IfOk result (IsComparison (lists_seen older.now) (lists_seen newer.now) name.now) }
    ensures refused { IfErr result (λ e. e.kind ≢ OutOfMemory → IsNotCompared (lists_seen older.now) (lists_seen newer.now) name.now e.kind) }
{
    let first = find_number(older, name)?;
    let second = moved_number(older, find_number(newer, name)?)?;
    let joined = join(alloc, older, newer)?;
    compare_in(alloc, &joined, first, second)
}

/// What is told of two versions of a struct: the differences, and the notes, unless only what breaks is told. Refused with
/// `OutOfMemory` alone.
pub fn get_named_report(
    alloc: Global,
    comparison: &Comparison,
    breaking_only: bool,
) -> Result<String>
    ensures report { IfOk result (λ text. string_bytes text ≡ named_report_text breaking_only comparison.now) }
    ensures memory { IfErr result (λ e. e.kind ≡ OutOfMemory) }
{
    let mut text = String::new(alloc);
    text.push_str(comparison.text.as_str())?;
    text.push_str(notes_told(breaking_only, comparison.notes.as_str()))?;
    Ok(text)
}
