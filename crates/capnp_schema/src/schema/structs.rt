//! Handles of struct schemas.
ghost use Rattle.std.specs.Prelude.{◌≡◌, ◌<◌, ◌≤◌, ◌+◌, ◌*◌, ◌%◌, ◌^◌, length, IfErr, IfNone, IfOk, IfSome, IsFalse, IsOkAnd, Some, None};
ghost use Rattle.capnp_device.specs.declared.error.ErrorKind.TheVariants.{FieldNotFound};

use crate::record::NodeRecord;
use crate::schema::annotations::AnnotationList;
use crate::schema::field_list::FieldList;
use crate::schema::field_subset::FieldSubset;
use crate::schema::fields::Field;
use crate::set::SchemaSet;
use capnp_base::introspect::RawBrandedStructSchema;
use capnp_wire::error::{Error, ErrorKind, Result};

/// The schema of a struct or group: a brand of a set, by its number. Two of one set are equal where their numbers are.
///
/// # Example
///
/// ```rust
/// let fields = schema.get_fields()?;
/// for i in 0..fields.len() {
///     describe(fields.get(i), &mut out)?;
/// }
/// ```
#[derive(Clone, Copy)]
#[derive_where(PartialEq, Eq, Hash, Debug)]
pub struct StructSchema<'s> {
    #[derive_where(skip)]
    pub(crate) schemas: &'s SchemaSet,
    pub(crate) number: u32,
}

impl<'s> StructSchema<'s> {
    ghost use Rattle.capnp_schema.specs.Schema.{brand_at, seen_node};
    ghost use Rattle.capnp_schema.specs.Discriminant.{discriminant_of};
    ghost use Rattle.capnp_schema.specs.Entries.{lists_seen};
    ghost use Rattle.capnp_schema.specs.Query.{AreMembers, field_named, member_of, non_union_fields};
    ghost use Rattle.capnp_schema.specs.StructHandles.{IsStruct, generic_of, number_of, set_of, struct_node, struct_records};
    ghost use Rattle.std.specs.Option.{option_map};
    ghost use Rattle.capnp_schema.specs.GroupFields.{group_field_of};
    ghost use Rattle.capnp_schema.specs.GroupsDown.{IsGroupFieldOf, place_of_field};
    ghost use Rattle.capnp_schema.specs.Annotated.{annotations_of, struct_annotations};
    ghost use Rattle.capnp_schema.specs.AnnotationLists.{annotations_in, annotations_set};
    ghost use Rattle.capnp_schema.specs.FieldLists.{IsFound, list_schema, subset_indices, subset_schema};

    /// The schema of those numbers.
    ///
    /// # Conditions
    ///
    /// `raw.number` is that of a brand of the set, and `raw.generic` that of the brand's node.
    pub fn new(schemas: &'s SchemaSet, raw: RawBrandedStructSchema) -> StructSchema<'s>
        requires number { raw.number < length (lists_seen schemas.now).brands }
        requires generic { raw.generic ≡ (brand_at (lists_seen schemas.now) raw.number).node }
        ensures set { set_of result ≡ lists_seen schemas.now }
        ensures number { number_of result ≡ raw.number }
        ensures generic { generic_of result ≡ raw.generic }
        ensures stands { IsStruct result }
    {
        schemas.struct_schema(raw.number)
    }

    /// The set that it is of.
    pub fn get_set(&self) -> &'s SchemaSet
        ensures { lists_seen result.now ≡ set_of self.now }
    {
        self.schemas
    }

    /// The node: the struct without the types of its fields. One with nothing in it where the schema's number is past
    /// the set's last brand.
    pub fn get_proto(&self) -> &'s NodeRecord
        ensures { seen_node result.now ≡ struct_node self.now }
    {
        self.schemas.node_record(self.number)
    }

    /// The first of the 16 bits in the data section that say which member of the union is active; none where there is
    /// no union.
    #[tactic(auto, using(crate::proofs::DiscriminantPlaces::discriminant_aligned, crate::proofs::DiscriminantPlaces::discriminant_inside))]
    #[inline(always)]
    pub fn get_discriminant(&self) -> Option<u32>
        ensures is { result ≡ discriminant_of (struct_node self.now) }
        ensures aligned { IfSome result (λ first. first % 16 ≡ 0) }
        ensures inside { IfSome result (λ first. first + 16 ≤ 64 * (struct_node self.now).data_word_count) }
    {
        // The prover learns the set's invariant from this call.
        let _lists = self.schemas.accepted_lists();
        self.schemas.discriminant(self.number)
    }

    /// All fields, by index. The answer is always Ok.
    pub fn get_fields(self) -> Result<FieldList<'s>>
        ensures { IsOkAnd result (λ fields. list_schema fields ≡ self.entry) }
    {
        Ok(FieldList::new(self))
    }

    /// The member of the union with that discriminant value, where there is one. The answer is always Ok.
    #[tactic(auto, using(crate::proofs::StructLookUps::member_is_typed))]
    pub fn get_field_by_discriminant(self, discriminant: u16) -> Result<Option<Field<'s>>>
        ensures { IsOkAnd result (IsFound self.entry (member_of (struct_records self.entry) discriminant)) }
    {
        match self.schemas.find_member(self.number, discriminant) {
            Some(index) => Ok(Some(Field::new(self, index))),
            None => Ok(None),
        }
    }

    /// The field of that name, where there is one. The answer is always Ok.
    pub fn find_field_by_name(&self, name: &str) -> Result<Option<Field<'s>>>
        ensures { IsOkAnd result (IsFound self.now (field_named (struct_records self.now) name.now)) }
    {
        let (found, _) = self.find_field_by_name_counted(name);
        Ok(found)
    }

    /// The field of that name, where there is one, and how many names were compared: none where there are no fields,
    /// and otherwise at least one and at most as many as their count has binary digits.
    #[tactic(auto, using(crate::proofs::StructLookUps::named_is_typed))]
    pub fn find_field_by_name_counted(&self, name: &str) -> (Option<Field<'s>>, u32)
        ensures found { IsFound self.now (field_named (struct_records self.now) name.now) result.0 }
        ensures none { length (struct_records self.now) ≡ 0 → result.1 ≡ 0 }
        ensures some { 0 < length (struct_records self.now) → 0 < result.1 }
        ensures digits { 0 < length (struct_records self.now) → 2 ^ result.1 ≤ 2 * length (struct_records self.now) }
    {
        let (found, count) = self.schemas.find_field(self.number, name);
        match found {
            Some(index) => (Some(Field::new(*self, index)), count),
            None => (None, count),
        }
    }

    /// The field of that name. Where there is none it is refused as `FieldNotFound`.
    pub fn get_field_by_name(&self, name: &str) -> Result<Field<'s>>
        ensures field { IfOk result (λ field. IsFound self.now (field_named (struct_records self.now) name.now)
            (Some field)) }
        ensures refused { IfErr result (λ e. (e.kind ≡ FieldNotFound)
            × (field_named (struct_records self.now) name.now ≡ None)) }
    {
        match self.find_field_by_name(name)? {
            Some(field) => Ok(field),
            None => Err(Error {
                kind: ErrorKind::FieldNotFound,
            }),
        }
    }

    /// The members of the union, by discriminant value. The answer is always Ok.
    #[tactic(auto, using(crate::proofs::StructLookUps::members_are_typed))]
    pub fn get_union_fields(self) -> Result<FieldSubset<'s>>
        ensures { IsOkAnd result (λ fields. (subset_schema fields ≡ self.entry)
            × AreMembers (struct_records self.entry) (subset_indices fields)) }
    {
        Ok(FieldSubset::new(self, self.schemas.members(self.number)))
    }

    /// The fields that are no members of the union, by index. The answer is always Ok.
    #[tactic(auto, using(crate::proofs::StructLookUps::non_union_are_typed))]
    pub fn get_non_union_fields(self) -> Result<FieldSubset<'s>>
        ensures { IsOkAnd result (λ fields. (subset_schema fields ≡ self.entry)
            × (subset_indices fields ≡ non_union_fields (struct_records self.entry))) }
    {
        Ok(FieldSubset::new(self, self.schemas.non_union(self.number)))
    }

    /// The field whose group this is, which undoes `Field::get_group`; none for a struct that is no group. A handle has a
    /// number of 32 bits, so of more than 2^32 brands those past these have no fields here.
    pub fn get_group_field(&self) -> Option<Field<'s>>
        ensures place { option_map place_of_field result ≡ group_field_of (set_of self.now) (number_of self.now) }
        ensures field { IfSome result (IsGroupFieldOf self.now) }
        ensures none { length (set_of self.now).brands ≤ 2 ^ 32
            → IfNone result (IsFalse (struct_node self.now).is_group) }
    {
        let Some((brand, index)) = self.schemas.group_field(self.number) else {
            return None;
        };
        Some(Field::new(self.schemas.struct_schema(brand), index))
    }

    /// The annotations of its node, each with its type in the brand. The answer is always Ok.
    pub fn get_annotations(self) -> Result<AnnotationList<'s>>
        ensures typed { IsOkAnd result (λ list. annotations_in list
            ≡ struct_annotations (set_of self.entry) (number_of self.entry)) }
        ensures whole { IsOkAnd result (λ list. annotations_of (annotations_in list)
            ≡ (struct_node self.entry).annotations) }
        ensures set { IsOkAnd result (λ list. annotations_set list ≡ set_of self.entry) }
    {
        Ok(AnnotationList::of_struct(self.schemas, self.number))
    }
}

impl<'s> From<StructSchema<'s>> for RawBrandedStructSchema {
    ghost use Rattle.capnp_schema.specs.StructHandles.{generic_of, number_of};

    ghost from_gives = { λ s raw. (raw.number ≡ number_of s) × (raw.generic ≡ generic_of s) };

    fn from(schema: StructSchema<'s>) -> RawBrandedStructSchema {
        RawBrandedStructSchema {
            number: schema.number,
            generic: schema.schemas.generic_number(schema.number),
        }
    }
}
