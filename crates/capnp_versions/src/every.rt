//! All structs of two versions.
ghost use Rattle.std.specs.Prelude.{◌≡◌, ◌≢◌, ◌≤◌, ◌++◌, All, IfErr, IfOk, OnOk, length, string_bytes};
ghost use Rattle.capnp_device.specs.declared.error.ErrorKind.TheVariants.{OutOfMemory, TooManyTypes};
ghost use Rattle.capnp_schema.specs.Entries.{lists_seen};
ghost use Rattle.capnp_differences.specs.Differences.{IsBrandPair};
ghost use Rattle.capnp_joined_sets.specs.Joined.{joined};
ghost use Rattle.capnp_versions.specs.Shared.{IsPast, count_line, count_true, counted, notes_text, notes_told, report_text, shared_pairs};
ghost use Rattle.capnp_versions.specs.Versions.{IsComparisonOf, IsFullComparison, IsNotComparedAll};

use crate::changes::put_changes;
use crate::lines::get_lines;
use crate::names::index_names;
use crate::notes::put_all_notes;
use crate::shared::shared_pairs;
use capnp_differences::{Pair, explain_all};
use capnp_joined_sets::{join, join_owned};
use capnp_schema::set::SchemaSet;
use capnp_wire::error::Result;
use std::alloc::Global;

/// What differs between two versions of a schema.
#[derive(Drop)]
pub struct FullComparison {
    /// A line for each difference: the struct by its older display name, the field, and what differs.
    pub text: String,
    /// A line for each change that keeps no program from messages of the other, and for each struct whose display name one
    /// of the versions has alone.
    pub notes: String,
    /// Of how many structs the newer one follows the older one: a program that knows one reads messages of the other.
    pub compatible: usize,
    /// Of how many it does not.
    pub incompatible: usize,
}

/// How many of the answers are true.
fn count_true(answers: &[bool]) -> usize
    ensures count { result ≡ count_true answers.now }
    ensures inside { result ≤ length answers.now }
{
    let mut count = 0;
    for answer in answers {
        if *answer {
            count += 1;
        }
    }
    count
}

/// What the display names of two sets say: the structs that both have, by their numbers in the joined set, and the lines of
/// those that one of them has alone.
#[derive(Drop)]
struct Named {
    pairs: Vec<Pair>,
    notes: String,
}

/// What the display names of two sets say. Refused with `TooManyTypes` where a number takes more than 32 bits, and with
/// `OutOfMemory`.
fn get_named(alloc: Global, older: &SchemaSet, newer: &SchemaSet) -> Result<Named>
    ensures pairs { IfOk result (λ n. n.pairs.items ≡ shared_pairs (lists_seen older.now) (lists_seen newer.now)) }
    ensures inside { IfOk result (λ n. All (IsBrandPair (joined (lists_seen older.now) (lists_seen newer.now))) n.pairs.items) }
    ensures notes { IfOk result (λ n. string_bytes n.notes ≡ notes_text (lists_seen older.now) (lists_seen newer.now)) }
    ensures refused { IfErr result (λ e. e.kind ≢ OutOfMemory → (e.kind ≡ TooManyTypes)
        × IsPast (lists_seen older.now) (lists_seen newer.now)) }
{
    let older_names = index_names(alloc, older)?;
    let newer_names = index_names(alloc, newer)?;
    let pairs = shared_pairs(alloc, older, newer, &older_names, &newer_names)?;
    let mut notes = String::new(alloc);
    put_all_notes(&mut notes, older, newer, &older_names, &newer_names)?;
    Ok(Named { pairs, notes })
}

/// What differs between the structs of these pairs of one set, with these lines behind the notes. Refused with `OutOfMemory`
/// alone.
fn compare_named(alloc: Global, schemas: &SchemaSet, named: &Named) -> Result<FullComparison>
    requires { All (IsBrandPair (lists_seen schemas.now)) named.now.pairs.items }
    ensures compared { IfOk result (IsComparisonOf (lists_seen schemas.now) named.now.pairs.items (string_bytes named.now.notes)) }
    ensures memory { IfErr result (λ e. e.kind ≡ OutOfMemory) }
{
    let explanation = explain_all(alloc, schemas, &named.pairs)?;
    let text = get_lines(alloc, schemas, &explanation.told)?;
    let mut notes = String::new(alloc);
    put_changes(&mut notes, schemas, &explanation.notes)?;
    notes.push_str(named.notes.as_str())?;
    let compatible = count_true(&explanation.follows);
    Ok(FullComparison {
        text,
        notes,
        compatible,
        incompatible: explanation.follows.len() - compatible,
    })
}

/// What differs between the structs of one display name in two sets, which hold an older and a newer version of a schema;
/// their ids may be the same. Compared are all structs that both sets find by a display name, each with all that it leads to;
/// what several lead to is looked at and told once.
///
/// Refused with `TooManyTypes` where a number of both sets together takes more than 32 bits, and with `OutOfMemory`.
pub fn compare_all(alloc: Global, older: &SchemaSet, newer: &SchemaSet) -> Result<FullComparison>
    ensures compared { IfOk result (IsFullComparison (lists_seen older.now) (lists_seen newer.now)) }
    ensures refused { IfErr result (λ e. e.kind ≢ OutOfMemory → IsNotComparedAll (lists_seen older.now) (lists_seen newer.now) e.kind) }
{
    let named = get_named(alloc, older, newer)?;
    let joined = join(alloc, older, newer)?;
    compare_named(alloc, &joined, &named)
}

/// What differs between two sets, as `compare_all` tells it. Both sets are taken apart: their entries move, and nothing is
/// copied, so it takes half the time.
///
/// Refused as `compare_all`, and then both sets are gone too.
pub fn compare_all_owned(
    alloc: Global,
    older: SchemaSet,
    newer: SchemaSet,
) -> Result<FullComparison>
    ensures compared { IfOk result (IsFullComparison (lists_seen older) (lists_seen newer)) }
    ensures refused { IfErr result (λ e. e.kind ≢ OutOfMemory → IsNotComparedAll (lists_seen older) (lists_seen newer) e.kind) }
{
    let named = get_named(alloc, &older, &newer)?;
    let joined = join_owned(alloc, older, newer)?;
    compare_named(alloc, &joined, &named)
}

/// The notes, where more than what breaks is told.
pub(crate) fn notes_told(breaking_only: bool, notes: &str) -> &str
    ensures { result.now ≡ notes_told breaking_only notes.now }
{
    if breaking_only { "" } else { notes }
}

/// Appends a count between words. Refused with `OutOfMemory` alone.
fn put_count(text: &mut String, before: &str, count: usize, after: &str) -> Result<()>
    ensures put { OnOk result (string_bytes text.new ≡ string_bytes text.old ++ counted before.now count after.now) }
    ensures memory { IfErr result (λ e. e.kind ≡ OutOfMemory) }
{
    Ok(write!(text, "{before}{count}{after}")?)
}

/// Appends how many structs are compatible, and how many not. Refused with `OutOfMemory` alone.
fn put_counts(text: &mut String, compatible: usize, incompatible: usize) -> Result<()>
    ensures put { OnOk result (string_bytes text.new ≡ string_bytes text.old ++ count_line compatible incompatible) }
    ensures memory { IfErr result (λ e. e.kind ≡ OutOfMemory) }
{
    put_count(text, "structs: ", compatible, " compatible")?;
    put_count(text, ", ", incompatible, " not\n")?;
    Ok(())
}

/// What is told of two versions: the differences, the notes, unless only what breaks is told, and as the last line how many
/// structs are compatible and how many not. Refused with `OutOfMemory` alone.
pub fn get_report(alloc: Global, comparison: &FullComparison, breaking_only: bool) -> Result<String>
    ensures report { IfOk result (λ text. string_bytes text ≡ report_text breaking_only comparison.now) }
    ensures memory { IfErr result (λ e. e.kind ≡ OutOfMemory) }
{
    let mut text = String::new(alloc);
    text.push_str(comparison.text.as_str())?;
    text.push_str(notes_told(breaking_only, comparison.notes.as_str()))?;
    put_counts(&mut text, comparison.compatible, comparison.incompatible)?;
    Ok(text)
}
