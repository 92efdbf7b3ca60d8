//! Enums of a set, and their enumerants.
ghost use Rattle.std.specs.Prelude.{◌≡◌, ◌<◌, length};
ghost use Rattle.capnp_schema.specs.Entries.{lists_seen};
ghost use Rattle.capnp_schema.specs.Annotated.{enumerant_at};
ghost use Rattle.capnp_schema.specs.Enums.{enum_in, enum_number, enum_set};
ghost use Rattle.capnp_schema.specs.Schema.{seen_enumerant};

use crate::record::{EnumRecord, EnumerantRecord};
use crate::schema::annotations::AnnotationList;
use crate::set::SchemaSet;
use capnp_base::introspect::RawEnumSchema;
use capnp_base::traits::{IndexMove, ShortListIter};
use capnp_wire::error::Result;

/// An enum of a set, by its number. Equality, hash and debug output look at the number alone, so two of them are
/// compared within one set.
#[derive(Clone, Copy)]
#[derive_where(PartialEq, Eq, Hash, Debug)]
pub struct EnumSchema<'s> {
    #[derive_where(skip)]
    pub(crate) schemas: &'s SchemaSet,
    pub(crate) number: u32,
}

impl<'s> EnumSchema<'s> {
    ghost use Rattle.std.specs.Prelude.{IsOkAnd};
    ghost use Rattle.capnp_schema.specs.Schema.{seen_enum};
    ghost use Rattle.capnp_schema.specs.Annotated.{annotations_of, enum_annotations};
    ghost use Rattle.capnp_schema.specs.AnnotationLists.{annotations_in, annotations_set};
    ghost use Rattle.capnp_schema.specs.Enumerants.{enum_of_list};
    ghost use Rattle.capnp_schema.specs.Enums.{IsEnum, enum_in, enum_number, enum_set};

    /// The enum of a set that a type of the set names.
    ///
    /// # Conditions
    ///
    /// `raw.number` is that of an enum of the set.
    pub fn new(schemas: &'s SchemaSet, raw: RawEnumSchema) -> EnumSchema<'s>
        requires { raw.number < length (lists_seen schemas.now).enums }
        ensures set { enum_set result ≡ lists_seen schemas.now }
        ensures number { enum_number result ≡ raw.number }
        ensures stands { IsEnum result }
    {
        schemas.enum_schema(raw.number)
    }

    /// The set that it is of.
    pub fn get_set(&self) -> &'s SchemaSet
        ensures { lists_seen result.now ≡ enum_set self.now }
    {
        self.schemas
    }

    /// The record of the enum. One with nothing in it where the schema's number is past the set's last enum.
    pub fn get_proto(self) -> &'s EnumRecord
        ensures { seen_enum result.now ≡ enum_in self.entry }
    {
        self.schemas.enum_record(self.number)
    }

    /// Its enumerants, by their ordinals. The answer is always Ok.
    pub fn get_enumerants(self) -> Result<EnumerantList<'s>>
        ensures { IsOkAnd result (λ list. enum_of_list list ≡ self.entry) }
    {
        Ok(EnumerantList { schema: self })
    }

    /// Its annotations, each with its type. The answer is always Ok.
    pub fn get_annotations(self) -> Result<AnnotationList<'s>>
        ensures typed { IsOkAnd result (λ list. annotations_in list
            ≡ enum_annotations (enum_set self.entry) (enum_number self.entry)) }
        ensures whole { IsOkAnd result (λ list. annotations_of (annotations_in list)
            ≡ (enum_in self.entry).annotations) }
        ensures set { IsOkAnd result (λ list. annotations_set list ≡ enum_set self.entry) }
    {
        Ok(AnnotationList::of_enum(self.schemas, self.number))
    }
}

impl<'s> From<EnumSchema<'s>> for RawEnumSchema {
    ghost use Rattle.capnp_schema.specs.Enums.{enum_number};

    ghost from_gives = { λ schema raw. raw.number ≡ enum_number schema };

    fn from(schema: EnumSchema<'s>) -> RawEnumSchema {
        RawEnumSchema {
            number: schema.number,
        }
    }
}

/// An enumerant, by its enum and its ordinal there.
#[derive(Clone, Copy)]
#[derive_where(PartialEq, Eq, Hash, Debug)]
pub struct Enumerant<'s> {
    schema: EnumSchema<'s>,
    ordinal: u16,
    #[derive_where(skip)]
    proto: &'s EnumerantRecord,
    ghost inside: { ordinal < length (enum_in schema).enumerants },
    ghost record: { seen_enumerant proto.now ≡ enumerant_at (enum_set schema) (enum_number schema) ordinal },
}

impl<'s> Enumerant<'s> {
    ghost use Rattle.std.specs.Prelude.{IsOkAnd};
    ghost use Rattle.capnp_schema.specs.Annotated.{annotations_of};
    ghost use Rattle.capnp_schema.specs.AnnotationLists.{annotations_in, annotations_set};
    ghost use Rattle.capnp_schema.specs.Enumerants.{containing_enum, enumerant_annotated, enumerant_in, ordinal_of};
    ghost use Rattle.capnp_schema.specs.Enums.{enum_number, enum_set};

    /// The enum that it is an enumerant of.
    pub fn get_containing_enum(self) -> EnumSchema<'s>
        ensures { result ≡ containing_enum self.entry }
    {
        self.schema
    }

    /// Its number in its enum, which stands for it in a message.
    pub fn get_ordinal(self) -> u16
        ensures { result ≡ ordinal_of self.entry }
    {
        self.ordinal
    }

    /// The record of the enumerant.
    pub fn get_proto(self) -> &'s EnumerantRecord
        ensures { seen_enumerant result.now ≡ enumerant_in self.entry }
    {
        self.proto
    }

    /// Its annotations, each with its type. The answer is always Ok.
    pub fn get_annotations(self) -> Result<AnnotationList<'s>>
        ensures typed { IsOkAnd result (λ list. annotations_in list ≡ enumerant_annotated self.entry) }
        ensures whole { IsOkAnd result (λ list. annotations_of (annotations_in list)
            ≡ (enumerant_in self.entry).annotations) }
        ensures set { IsOkAnd result (λ list. annotations_set list ≡ enum_set (containing_enum self.entry)) }
    {
        Ok(AnnotationList::of_enumerant(self.schema.schemas, self.schema.number, self.ordinal))
    }
}

/// All enumerants of an enum, by their ordinals. There are at most 65,535.
#[derive(Clone, Copy)]
pub struct EnumerantList<'s> {
    schema: EnumSchema<'s>,
}

impl<'s> EnumerantList<'s> {
    ghost use Rattle.std.specs.Prelude.{◌↔◌, IsTrue};
    ghost use Rattle.capnp_base.specs.Taking.{indices};
    ghost use Rattle.capnp_base.specs.IndexIter.{source, to_come};
    ghost use Rattle.capnp_schema.specs.Enumerants.{IsEnumerantOf, enum_of_list, enumerants_in};

    /// How many enumerants there are.
    pub fn len(&self) -> u16
        ensures { result ≡ length (enumerants_in self.now) }
    {
        self.schema.schemas.count_enumerants(self.schema.number)
    }

    /// Whether there is none.
    pub fn is_empty(&self) -> bool
        ensures { IsTrue result ↔ (length (enumerants_in self.now) ≡ 0) }
    {
        self.len() == 0
    }

    /// The enumerant of an ordinal.
    ///
    /// # Conditions
    ///
    /// `ordinal` is below `len`.
    pub fn get(self, ordinal: u16) -> Enumerant<'s>
        requires { ordinal < length (enumerants_in self) }
        ensures { IsEnumerantOf (enum_of_list self.entry) ordinal result }
    {
        Enumerant {
            schema: self.schema,
            ordinal,
            proto: self
                .schema
                .schemas
                .enumerant_in_range(self.schema.number, ordinal),
        }
    }

    /// The enumerants from the first to the last, taken from both ends.
    pub fn iter(self) -> ShortListIter<EnumerantList<'s>, Enumerant<'s>>
        ensures source { source result ≡ self.entry }
        ensures to_come { to_come result ≡ indices 0 (length (enumerants_in self.entry)) }
    {
        ShortListIter::new(self, self.len())
    }
}

impl<'s> IndexMove<u16, Enumerant<'s>> for EnumerantList<'s> {
    ghost use Rattle.capnp_schema.specs.Enumerants.{IsEnumerantOf, enum_of_list, enumerants_in};

    ghost count = { λ s. length (enumerants_in s) };

    ghost answers = { λ s i x. IsEnumerantOf (enum_of_list s) i x };

    fn index_move(&self, index: u16) -> Enumerant<'s> {
        self.get(index)
    }
}

impl<'s> IntoIterator for EnumerantList<'s> {
    ghost use Rattle.capnp_base.specs.IndexIter.{GoesOverAll};
    ghost use Rattle.capnp_schema.specs.Enumerants.{enumerants_in};

    type Item = Enumerant<'s>;

    type IntoIter = ShortListIter<EnumerantList<'s>, Enumerant<'s>>;

    ghost into_iter_gives = { λ list items. GoesOverAll list (length (enumerants_in list)) items };

    fn into_iter(self) -> ShortListIter<EnumerantList<'s>, Enumerant<'s>> {
        self.iter()
    }
}
