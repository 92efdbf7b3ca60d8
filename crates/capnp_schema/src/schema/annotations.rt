//! Annotations: those of a struct, a field, an enum or an enumerant.
ghost use Rattle.std.specs.Prelude.{◌≡◌, ◌<◌, length, map};
ghost use Rattle.capnp_wire.specs.Locate.{words_past_format};
ghost use Rattle.capnp_schema.specs.Accepted.{AllName, NamesEntries};
ghost use Rattle.capnp_schema.specs.Entries.{lists_seen};
ghost use Rattle.capnp_schema.specs.Steps.Named.{NamesEntries_prop, name_entries_prop};
ghost use Rattle.capnp_schema.specs.Types.{seen_type};

use crate::lists::entry_at;
use crate::record::AnnotationRecord;
use crate::schema::positions::position_of;
use crate::set::SchemaSet;
use crate::value::{Value, view};
use capnp_base::introspect::Type;
use capnp_base::traits::{IndexMove, ListIter};

/// An annotation of a set.
#[derive(Clone, Copy)]
pub struct Annotation<'s> {
    schemas: &'s SchemaSet,
    stored: &'s AnnotationRecord,
    annotation_type: Type,
    ghost named: { NamesEntries (lists_seen schemas.now) (seen_type annotation_type) } by { NamesEntries_prop (lists_seen schemas.now) (seen_type annotation_type) },
}

impl<'s> Annotation<'s> {
    ghost use Rattle.capnp_schema.specs.Views.{IsViewOf};
    ghost use Rattle.capnp_schema.specs.AnnotationLists.{annotation_in, annotation_set};

    /// The set that it is of.
    pub fn get_set(&self) -> &'s SchemaSet
        ensures { lists_seen result.now ≡ annotation_set self.now }
    {
        self.schemas
    }

    /// The number that the annotation goes by.
    pub fn get_id(&self) -> u64
        ensures { result ≡ (annotation_in self.now).annotation.id }
    {
        self.stored.id
    }

    /// The type of its value. The struct or enum that it names, or that its lists hold, is there in the set.
    pub fn get_type(&self) -> Type
        ensures is { seen_type result ≡ (annotation_in self.now).type }
        ensures named { NamesEntries (annotation_set self.now) (seen_type result) }
    {
        self.annotation_type
    }

    /// Its value. The words of a struct, a list or an untyped pointer are read where they lie, with 64 levels.
    pub fn get_value_view(self) -> Value<'s>
        ensures { IsViewOf (annotation_in self.entry).annotation.value result }
    {
        view(&self.stored.value)
    }
}

/// The annotations at one place, in the order of their records, each with its type. There are fewer than 2^29.
#[derive(Clone, Copy)]
pub struct AnnotationList<'s> {
    schemas: &'s SchemaSet,
    stored: &'s [AnnotationRecord],
    types: &'s [Type],
    ghost have_types: { length types.now ≡ length stored.now },
    ghost are_few: { length stored.now < words_past_format },
    ghost are_named: { AllName (lists_seen schemas.now) (map seen_type types.now) } by { name_entries_prop (lists_seen schemas.now) (map seen_type types.now) },
}

impl<'s> AnnotationList<'s> {
    ghost use Rattle.std.specs.Prelude.{[], ◌↔◌, IfSome, IsTrue, Some, slice_get};
    ghost use Rattle.std.specs.Option.{option_map};
    ghost use Rattle.capnp_base.specs.Taking.{indices};
    ghost use Rattle.capnp_base.specs.IndexIter.{source, to_come};
    ghost use Rattle.capnp_schema.specs.Schema.{enum_at, field_at, node_of, seen_annotations};
    ghost use Rattle.capnp_schema.specs.Annotated.{annotations_of, enum_annotations, enumerant_annotations, enumerant_at, field_annotations, first_of_id, struct_annotations, with_types};
    ghost use Rattle.capnp_schema.specs.AnnotationLists.{annotation_in, annotation_set, annotations_in, annotations_set};

    fn new(
        schemas: &'s SchemaSet,
        stored: &'s [AnnotationRecord],
        types: &'s [Type],
    ) -> AnnotationList<'s>
        requires have_types { length types.now ≡ length stored.now }
        requires are_few { length stored.now < words_past_format }
        requires are_named { AllName (lists_seen schemas.now) (map seen_type types.now) }
        ensures entries { annotations_in result ≡ with_types (seen_annotations stored.now) (map seen_type types.now) }
        ensures set { annotations_set result ≡ lists_seen schemas.now }
    {
        AnnotationList {
            schemas,
            stored,
            types,
        }
    }

    fn empty(schemas: &'s SchemaSet) -> AnnotationList<'s>
        ensures entries { annotations_in result ≡ [] }
        ensures set { annotations_set result ≡ lists_seen schemas.now }
    {
        AnnotationList::new(schemas, &[], &[])
    }

    /// The annotations of a struct, by the number of its brand: those of its node, with the brand's types. None past
    /// the end of the brands.
    pub(crate) fn of_struct(schemas: &'s SchemaSet, brand: u32) -> AnnotationList<'s>
        ensures typed { annotations_in result ≡ struct_annotations (lists_seen schemas.now) brand }
        ensures whole { annotations_of (annotations_in result) ≡ (node_of (lists_seen schemas.now) brand).annotations }
        ensures set { annotations_set result ≡ lists_seen schemas.now }
    {
        let lists = schemas.accepted_lists();
        let Some(record) = lists.brand_at(brand as usize) else {
            return AnnotationList::empty(schemas);
        };
        let Some(node) = lists.node_at(record.node as usize) else {
            return AnnotationList::empty(schemas);
        };
        AnnotationList::new(schemas, &node.annotations, &record.annotation_types.own)
    }

    /// The annotations of a field, by the number of its struct's brand and its index, with the brand's types. None past
    /// the end of the brands or of the fields.
    pub(crate) fn of_field(schemas: &'s SchemaSet, brand: u32, field: u16) -> AnnotationList<'s>
        ensures typed { annotations_in result ≡ field_annotations (lists_seen schemas.now) brand field }
        ensures whole { annotations_of (annotations_in result)
            ≡ (field_at (lists_seen schemas.now) brand field).field.annotations }
        ensures set { annotations_set result ≡ lists_seen schemas.now }
    {
        let lists = schemas.accepted_lists();
        let Some(record) = lists.brand_at(brand as usize) else {
            return AnnotationList::empty(schemas);
        };
        let Some(typed) = lists.field_at(brand as usize, field as usize) else {
            return AnnotationList::empty(schemas);
        };
        let Some(types) = entry_at(&record.annotation_types.children, field as usize) else {
            return AnnotationList::empty(schemas);
        };
        AnnotationList::new(schemas, &typed.field.annotations, types)
    }

    /// The annotations of an enum, by its number. None past the end of the enums.
    pub(crate) fn of_enum(schemas: &'s SchemaSet, number: u32) -> AnnotationList<'s>
        ensures typed { annotations_in result ≡ enum_annotations (lists_seen schemas.now) number }
        ensures whole { annotations_of (annotations_in result) ≡ (enum_at (lists_seen schemas.now) number).annotations }
        ensures set { annotations_set result ≡ lists_seen schemas.now }
    {
        let Some(record) = schemas.accepted_lists().enum_at(number as usize) else {
            return AnnotationList::empty(schemas);
        };
        AnnotationList::new(schemas, &record.annotations, &record.annotation_types.own)
    }

    /// The annotations of an enumerant, by the number of its enum and its ordinal. None past the end of either.
    pub(crate) fn of_enumerant(
        schemas: &'s SchemaSet,
        number: u32,
        enumerant: u16,
    ) -> AnnotationList<'s>
        ensures typed { annotations_in result ≡ enumerant_annotations (lists_seen schemas.now) number enumerant }
        ensures whole { annotations_of (annotations_in result)
            ≡ (enumerant_at (lists_seen schemas.now) number enumerant).annotations }
        ensures set { annotations_set result ≡ lists_seen schemas.now }
    {
        let Some(record) = schemas.accepted_lists().enum_at(number as usize) else {
            return AnnotationList::empty(schemas);
        };
        let Some(stored) = entry_at(&record.enumerants, enumerant as usize) else {
            return AnnotationList::empty(schemas);
        };
        let Some(types) = entry_at(&record.annotation_types.children, enumerant as usize) else {
            return AnnotationList::empty(schemas);
        };
        AnnotationList::new(schemas, &stored.annotations, types)
    }

    /// The set that they are of.
    pub fn get_set(&self) -> &'s SchemaSet
        ensures { lists_seen result.now ≡ annotations_set self.now }
    {
        self.schemas
    }

    /// How many annotations there are.
    #[tactic(auto, using(crate::proofs::AnnotatedLemmas::length_in))]
    pub fn len(&self) -> u32
        ensures length { result ≡ length (annotations_in self.now) }
        ensures few { result < words_past_format }
    {
        self.stored.len() as u32
    }

    /// Whether there is none.
    pub fn is_empty(&self) -> bool
        ensures { IsTrue result ↔ (length (annotations_in self.now) ≡ 0) }
    {
        self.len() == 0
    }

    /// The annotation at an index.
    ///
    /// # Conditions
    ///
    /// `index` is below `len`.
    #[tactic(auto, using(crate::proofs::AnnotatedLemmas::length_in, crate::proofs::AnnotatedLemmas::entry_in))]
    pub fn get(self, index: u32) -> Annotation<'s>
        requires { index < length (annotations_in self) }
        ensures entry { slice_get (annotations_in self.entry) index ≡ Some (annotation_in result) }
        ensures set { annotation_set result ≡ annotations_set self.entry }
    {
        Annotation {
            schemas: self.schemas,
            stored: &self.stored[index as usize],
            annotation_type: self.types[index as usize],
        }
    }

    /// The first annotation of an id, where there is one.
    pub fn find(self, id: u64) -> Option<Annotation<'s>>
        ensures found { option_map annotation_in result ≡ first_of_id (annotations_in self.entry) id }
        ensures set { IfSome result (λ x. annotation_set x ≡ annotations_set self.entry) }
    {
        match position_of(self.stored, id) {
            Some(index) => Some(self.get(index as u32)),
            None => None,
        }
    }

    /// The annotations from the first to the last, taken from both ends.
    pub fn iter(self) -> ListIter<AnnotationList<'s>, Annotation<'s>>
        ensures source { source result ≡ self.entry }
        ensures to_come { to_come result ≡ indices 0 (length (annotations_in self.entry)) }
    {
        ListIter::new(self, self.len())
    }
}

impl<'s> IndexMove<u32, Annotation<'s>> for AnnotationList<'s> {
    ghost use Rattle.std.specs.Prelude.{Some, slice_get};
    ghost use Rattle.capnp_schema.specs.AnnotationLists.{annotation_in, annotation_set, annotations_in, annotations_set};

    ghost count = { λ s. length (annotations_in s) };

    ghost answers = { λ s i x. (slice_get (annotations_in s) i ≡ Some (annotation_in x))
        × (annotation_set x ≡ annotations_set s) };

    fn index_move(&self, index: u32) -> Annotation<'s> {
        self.get(index)
    }
}

impl<'s> IntoIterator for AnnotationList<'s> {
    ghost use Rattle.capnp_base.specs.IndexIter.{GoesOverAll};
    ghost use Rattle.capnp_schema.specs.AnnotationLists.{annotations_in};

    type Item = Annotation<'s>;

    type IntoIter = ListIter<AnnotationList<'s>, Annotation<'s>>;

    ghost into_iter_gives = { λ list items. GoesOverAll list (length (annotations_in list)) items };

    fn into_iter(self) -> ListIter<AnnotationList<'s>, Annotation<'s>> {
        self.iter()
    }
}
