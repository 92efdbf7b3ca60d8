//! The walk over the pairs of structs that are compared.
ghost use Rattle.std.specs.Prelude.{◌≡◌, ◌↔◌, [], All, AllPairs, Contains, IfErr, IfOk};
ghost use Rattle.capnp_device.specs.declared.error.ErrorKind.TheVariants.{OutOfMemory};
ghost use Rattle.capnp_schema.specs.Entries.{lists_seen};
ghost use Rattle.capnp_schema.specs.StructHandles.{IsStruct, number_of, set_of};
ghost use Rattle.capnp_records.specs.Compatible.{IsCompatibleOrUpgraded};
ghost use Rattle.capnp_differences.specs.declared.differences.Difference.{Difference};
ghost use Rattle.capnp_differences.specs.declared.differences.Pair.{Pair};
ghost use Rattle.capnp_differences.specs.Closing.{listed_pairs};
ghost use Rattle.capnp_differences.specs.Differences.{AreAnswered, ComesFirst, IsBrandPair, IsDifference, IsDifferenceOf};
ghost use Rattle.capnp_differences.specs.Notes.{AreNotes};
ghost use Rattle.capnp_differences.specs.Steps.Comparing.{Apart, Compares, Within, brand_pairs};

use crate::brands::is_accepted;
use crate::differences::{Difference, Explanation, Pair};
use crate::fields::tell_pair;
use crate::marks::{reaching, unmarked};
use crate::named::add_named;
use crate::notes::note_all;
use crate::pairs::Pairs;
use capnp_base::introspect::RawBrandedStructSchema;
use capnp_schema::schema::StructSchema;
use capnp_schema::set::SchemaSet;
use capnp_wire::error::Result;
use std::alloc::Global;

/// Why a newer schema does not follow an older one: no difference is told exactly where the newer is a compatible
/// successor, as `Compatible::check` answers.
///
/// What is told are all differences in the pairs that are compared: of the given structs, and of each two structs that
/// two fields of one index name, in a pair that is compared. Of one pair what differs in the union comes first, then
/// each field by its index, and each in the order of `Cause`. So none is told twice.
///
/// Refused with `OutOfMemory` where there is no memory for the pairs or the differences, and with nothing else.
///
/// # Conditions
///
/// Both schemas are brands of one accepted set (`IsStruct`).
pub fn explain(
    alloc: Global,
    older: StructSchema<'_>,
    newer: StructSchema<'_>,
) -> Result<Vec<Difference>>
    requires older { IsStruct older }
    requires newer { IsStruct newer }
    requires one_set { set_of newer ≡ set_of older }
    ensures told { IfOk result (λ told. (d : Difference) → (Contains told.items d
        ↔ IsDifference (set_of older.entry) (number_of older.entry) (number_of newer.entry) d)) }
    ensures none { IfOk result (λ told. (told.items ≡ [])
        ↔ IsCompatibleOrUpgraded (set_of older.entry) (number_of older.entry) (number_of newer.entry)) }
    ensures order { IfOk result (λ told. AllPairs ComesFirst told.items) }
    ensures refused { IfErr result (λ e. e.kind ≡ OutOfMemory) }
{
    let schemas = older.get_set();
    let one = RawBrandedStructSchema::from(older);
    let other = RawBrandedStructSchema::from(newer);
    let given = Pair {
        older: one.number,
        newer: other.number,
    };
    let mut pairs = Pairs::of(alloc, given)?;
    let told = walk(alloc, schemas, &mut pairs)?;
    Ok(told)
}

/// Why the newer schemas of several pairs do not follow the older ones, and in which of these pairs they do not.
///
/// What is told are all differences in the pairs that are compared: the pairs that are asked, and each two structs that two
/// fields of one index name, in a pair that is compared. Each pair is looked at once, however many others lead to it, and
/// its differences are told in the order of `explain`. So none is told twice.
///
/// Of each pair that is asked it is answered whether its newer schema is a compatible successor, as `Compatible::check`
/// answers. No difference is told exactly where all are.
///
/// Notes are all that changes in the pairs that are compared and keeps no program from messages of the other: fields and
/// enumerants that came or have other names, and lists whose elements became structs.
///
/// Refused with `OutOfMemory` where there is no memory for the pairs or the answer, and with nothing else.
///
/// # Conditions
///
/// Both schemas of each pair are brands of the set (`IsBrandPair`).
pub fn explain_all(alloc: Global, schemas: &SchemaSet, asked: &[Pair]) -> Result<Explanation>
    requires brands { All (IsBrandPair (lists_seen schemas.now)) asked.now }
    ensures told { IfOk result (λ e. (d : Difference) → (Contains e.told.items d
        ↔ IsDifferenceOf (lists_seen schemas.now) asked.now d)) }
    ensures none { IfOk result (λ e. (e.told.items ≡ []) ↔ ((p : Pair) → Contains asked.now p
        → IsCompatibleOrUpgraded (lists_seen schemas.now) p.older p.newer)) }
    ensures follows { IfOk result (λ e. AreAnswered (lists_seen schemas.now) asked.now e.follows.items) }
    ensures order { IfOk result (λ e. AllPairs ComesFirst e.told.items) }
    ensures notes { IfOk result (λ e. AreNotes (lists_seen schemas.now) asked.now e.notes.items) }
    ensures refused { IfErr result (λ e. e.kind ≡ OutOfMemory) }
{
    let mut pairs = Pairs::of_list(alloc, asked)?;
    let told = walk(alloc, schemas, &mut pairs)?;
    let marked = reaching(alloc, schemas, &pairs, &told)?;
    let follows = unmarked(alloc, asked, &marked)?;
    let notes = note_all(alloc, schemas, &pairs)?;
    Ok(Explanation {
        told,
        notes,
        follows,
    })
}

/// The differences of pairs of brands, and of those that they name, which are added to them.
fn walk(alloc: Global, schemas: &SchemaSet, pairs: &mut Pairs) -> Result<Vec<Difference>>
    requires brands { Within (listed_pairs pairs.old) (brand_pairs (lists_seen schemas.now)) }
    requires apart { Apart pairs.old }
    ensures compared { IfOk result (λ told. Compares (lists_seen schemas.now) pairs.old pairs.new told.items) }
    ensures refused { IfErr result (λ e. e.kind ≡ OutOfMemory) }
{
    is_accepted(schemas);
    let mut told = Vec::new(alloc);
    let mut next = 0;
    while next < pairs.len() {
        let pair = pairs.at(next);
        tell_pair(&mut told, schemas, pair)?;
        add_named(schemas, pair.older, pair.newer, pairs)?;
        next += 1;
    }
    Ok(told)
}
