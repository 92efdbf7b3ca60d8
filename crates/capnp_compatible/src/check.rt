//! A struct schema and a compatible successor of it.
ghost use Rattle.std.specs.Prelude.{◌≡◌, IfErr, IfOk, MatchOption};
ghost use Rattle.std.specs.Bool.{Decides};
ghost use Rattle.capnp_device.specs.declared.error.ErrorKind.TheVariants.{OutOfMemory};
ghost use Rattle.capnp_records.specs.Compatible.{IsCompatibleOrUpgraded, projection_of};
ghost use Rattle.capnp_schema.specs.Ranges.{HasRanges};
ghost use Rattle.capnp_schema.specs.StructHandles.{IsStruct, number_of, set_of};

use crate::decide::decide;
use capnp_base::introspect::RawBrandedStructSchema;
use capnp_dynamic_readers::dynamic_struct;
use capnp_records::laws::{projection_law, upgrade_law};
use capnp_schema::laws::numbers_fit;
use capnp_schema::schema::StructSchema;
use capnp_wire::error::Result;
use capnp_wire::laws::struct_is_well_formed;
use std::alloc::Global;
use std::marker::Model;

/// A struct schema and a compatible successor of it, of one set: a struct that was written under either reads under the
/// other, and the older schema sees the projection of what the newer sees (language page, "Evolving Your Protocol").
///
/// # Example
///
/// ```rust
/// let Some(pair) = Compatible::check(alloc, older, newer)? else {
///     return Err(Error::type_mismatch());
/// };
/// let root = Reader::new(alloc, message)?.get_root().get_struct()?;
/// let seen = pair.narrow(dynamic_struct::Reader::new(root, newer));
/// ```
#[derive(Drop)]
pub struct Compatible<'s> {
    older: StructSchema<'s>,
    newer: StructSchema<'s>,
    upgrades: bool,
}

impl<'s> Model for Compatible<'s> {
    ghost use Rattle.capnp_schema.specs.declared.schema.structs.StructSchema.{StructSchema};
    ghost use Rattle.capnp_compatible.specs.Checked.{Follows};

    ghost Value = { StructSchema × StructSchema };

    ghost view = { λ c. (c.older, c.newer) };

    ghost invariant = { λ c. Follows c.older c.newer c.upgrades };
}

impl<'s> Compatible<'s> {
    ghost use Rattle.capnp_dynamic_readers.specs.Handles.{reader_of, schema_of};
    ghost use Rattle.capnp_dynamic_readers.specs.Seen.{record_seen};
    ghost use Rattle.capnp_compatible.specs.Checked.{AreRead, IsAsItWas, IsPair, IsSeen, IsReadUnder, Projects, ProjectsWhereRead, newer_of, older_of};

    /// The pair of an older schema and a newer one, where the newer is a compatible successor; nothing where it is not.
    /// Each pair of structs that two shared fields name has to be such a pair too, and is looked at once.
    ///
    /// It is a successor where the older fields are a beginning of the newer ones, by index, and each has its place,
    /// its discriminant value and its default still, and a type that is related: the same one; an enum with at least as
    /// many enumerants; a list of a related type; or a struct or group that is a successor. A union stands where it
    /// stood and has no fewer members. Names are not compared.
    ///
    /// A list of integers, texts, data or lists may have become a list of structs, too, where field 0 of the struct
    /// stands where an element stood: it is non-union, at offset 0, of a related type, and its default is zero, empty
    /// or null.
    ///
    /// Refused with `OutOfMemory` where there is no memory for the list of pairs, and with nothing else.
    ///
    /// # Conditions
    ///
    /// Both schemas are brands of one accepted set (`IsStruct`).
    pub fn check(
        alloc: Global,
        older: StructSchema<'s>,
        newer: StructSchema<'s>,
    ) -> Result<Option<Compatible<'s>>>
        requires older { IsStruct older }
        requires newer { IsStruct newer }
        requires one_set { set_of newer ≡ set_of older }
        ensures answer { IfOk result (λ found. MatchOption found
            (IsCompatibleOrUpgraded (set_of older.entry) (number_of older.entry) (number_of newer.entry) → ⊥)
            (IsPair older.entry newer.entry)) }
        ensures refused { IfErr result (λ e. e.kind ≡ OutOfMemory) }
    {
        let schemas = older.get_set();
        let one = RawBrandedStructSchema::from(older);
        let other = RawBrandedStructSchema::from(newer);
        if decide(alloc, schemas, false, one.number, other.number)? {
            return Ok(Some(Compatible::of(older, newer)));
        }
        if !decide(alloc, schemas, true, one.number, other.number)? {
            return Ok(None);
        }
        Ok(Some(Compatible::upgraded(older, newer)))
    }

    /// A pair of which no list became one of structs.
    #[tactic(auto, using(crate::proofs::Wider::follows_as_it_was))]
    fn of(older: StructSchema<'s>, newer: StructSchema<'s>) -> Compatible<'s>
        requires older { IsStruct older }
        requires newer { IsStruct newer }
        requires one_set { set_of newer ≡ set_of older }
        requires follows { IsAsItWas older newer }
        ensures { IsPair older.entry newer.entry result }
    {
        Compatible {
            older,
            newer,
            upgrades: false,
        }
    }

    /// A pair of which one did.
    #[tactic(auto, using(crate::proofs::Wider::follows_upgraded))]
    fn upgraded(older: StructSchema<'s>, newer: StructSchema<'s>) -> Compatible<'s>
        requires older { IsStruct older }
        requires newer { IsStruct newer }
        requires one_set { set_of newer ≡ set_of older }
        requires new { IsAsItWas older newer → ⊥ }
        requires follows { IsCompatibleOrUpgraded (set_of older) (number_of older) (number_of newer) }
        ensures { IsPair older.entry newer.entry result }
    {
        Compatible {
            older,
            newer,
            upgrades: true,
        }
    }

    /// Whether a list of numbers, texts, data or lists became a list of structs. Where none did, `narrow` and `widen`
    /// read the projection of every message.
    pub fn upgrades(&self) -> bool
        ensures { Decides result (IsAsItWas (older_of self.now) (newer_of self.now) → ⊥) }
    {
        self.upgrades
    }

    /// What is so of every pair. Does nothing: a caller's proof has its clauses.
    pub fn follows(&self)
        ensures older { IsStruct (older_of self.now) }
        ensures newer { IsStruct (newer_of self.now) }
        ensures one_set { set_of (newer_of self.now) ≡ set_of (older_of self.now) }
        ensures follows { IsCompatibleOrUpgraded (set_of (older_of self.now)) (number_of (older_of self.now))
            (number_of (newer_of self.now)) }
    {
        let _older = self.older;
    }

    /// The numbers of the set fit their integer types.
    fn has_ranges(&self)
        ensures { HasRanges (set_of (older_of self.now)) }
    {
        numbers_fit(self.older.get_set());
    }

    /// The record of any struct under the older schema is the projection of its record under the newer one. Where a
    /// list became one of structs, it is that where such lists are read as what they were. Does nothing: a caller's
    /// proof has its clauses.
    pub fn projects(&self)
        ensures as_it_was { IsAsItWas (older_of self.now) (newer_of self.now)
            → Projects (older_of self.now) (newer_of self.now) }
        ensures where_read { ProjectsWhereRead (older_of self.now) (newer_of self.now) }
    {
        projection_law();
        upgrade_law();
        self.has_ranges();
        self.follows();
    }

    /// A struct of the newer schema as the older one reads it. Fields that were added are not seen, an active member
    /// that was added is an unknown one, and a union that was added is none. Nothing is copied, no memory is taken, and
    /// the levels stay.
    ///
    /// Where a list became one of structs, this holds of a message in which each such list has elements of a size that
    /// the older type reads, and of which no part inside such a list is too deep for the reader. The levels that
    /// missing parts carry may differ there: pointers are read with one level more than those of structs.
    ///
    /// # Conditions
    ///
    /// The struct is read under the newer schema (`IsReadUnder`).
    #[tactic(auto, using(crate::proofs::Sees::narrowed, crate::proofs::Sees::narrowed_upgrade))]
    pub fn narrow(&self, reader: dynamic_struct::Reader<'s>) -> dynamic_struct::Reader<'s>
        requires { IsReadUnder reader (newer_of self.now) }
        ensures schema { schema_of result ≡ older_of self.now }
        ensures reader { reader_of result ≡ reader_of reader.entry }
        ensures record { IsAsItWas (older_of self.now) (newer_of self.now)
            → record_seen result ≡ projection_of (set_of (older_of self.now)) (number_of (older_of self.now))
            (number_of (newer_of self.now))
            (record_seen reader.entry) }
        ensures where_read { AreRead (older_of self.now) (newer_of self.now) (record_seen result)
            (record_seen reader.entry)
            → IsSeen (older_of self.now) (newer_of self.now) (record_seen result) (record_seen reader.entry) }
    {
        self.follows();
        self.projects();
        let sections = reader.get_sections();
        struct_is_well_formed(&sections);
        dynamic_struct::Reader::new(sections, self.older)
    }

    /// A struct of the older schema as the newer one reads it, where fields that were added have what stands at their
    /// place: their default in a struct that was written under the older schema. Nothing is copied, no memory is taken,
    /// and the levels stay.
    ///
    /// Where a list became one of structs, this holds as of `narrow`.
    ///
    /// # Conditions
    ///
    /// The struct is read under the older schema (`IsReadUnder`).
    #[tactic(auto, using(crate::proofs::Sees::widened, crate::proofs::Sees::widened_upgrade))]
    pub fn widen(&self, reader: dynamic_struct::Reader<'s>) -> dynamic_struct::Reader<'s>
        requires { IsReadUnder reader (older_of self.now) }
        ensures schema { schema_of result ≡ newer_of self.now }
        ensures reader { reader_of result ≡ reader_of reader.entry }
        ensures record { IsAsItWas (older_of self.now) (newer_of self.now)
            → projection_of (set_of (older_of self.now)) (number_of (older_of self.now))
            (number_of (newer_of self.now)) (record_seen result)
            ≡ record_seen reader.entry }
        ensures where_read { AreRead (older_of self.now) (newer_of self.now) (record_seen reader.entry)
            (record_seen result)
            → IsSeen (older_of self.now) (newer_of self.now) (record_seen reader.entry) (record_seen result) }
    {
        self.follows();
        self.projects();
        let sections = reader.get_sections();
        struct_is_well_formed(&sections);
        dynamic_struct::Reader::new(sections, self.newer)
    }
}
