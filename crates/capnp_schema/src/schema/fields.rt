//! Handles of fields.
ghost use Rattle.std.specs.Prelude.{◌≡◌, ◌<◌, length, IsOkAnd};
ghost use Rattle.capnp_schema.specs.Accepted.{NamesEntries};
ghost use Rattle.capnp_schema.specs.Steps.Named.{NamesEntries_prop, same_type_prop};
ghost use Rattle.capnp_schema.specs.Schema.{seen_field};
ghost use Rattle.capnp_schema.specs.StructHandles.{set_of, struct_field, struct_fields};
ghost use Rattle.capnp_schema.specs.Types.{seen_type};

use crate::plan::{Place, SlotPlan};
use crate::record::{FieldKind, FieldRecord};
use crate::schema::annotations::AnnotationList;
use crate::schema::structs::StructSchema;
use crate::value::{Value, view};
use capnp_base::introspect::Type;
use capnp_wire::PointerReader;
use capnp_wire::error::Result;

/// A field of a struct or group, with its type in the brand. Two of one set are equal where their schemas and indices
/// are.
#[derive(Clone, Copy)]
#[derive_where(PartialEq, Eq, Hash, Debug)]
pub struct Field<'s> {
    schema: StructSchema<'s>,
    index: u16,
    #[derive_where(skip)]
    proto: &'s FieldRecord,
    #[derive_where(skip)]
    field_type: Type,
    ghost inside: { index < length (struct_fields schema) },
    ghost record: { seen_field proto.now ≡ (struct_field schema index).field },
    ghost typed: { seen_type field_type ≡ (struct_field schema index).type } by { same_type_prop _ _ },
    ghost named: { NamesEntries (set_of schema) (seen_type field_type) } by { NamesEntries_prop (set_of schema) (seen_type field_type) },
}

impl<'s> Field<'s> {
    ghost use Rattle.std.specs.Prelude.{IfSome, MatchOption, Some};
    ghost use Rattle.capnp_wire.specs.Standing.{levels_of, tree_of};
    ghost use Rattle.capnp_wire.specs.Tree.{Null};
    ghost use Rattle.std.specs.Option.{option_map};
    ghost use Rattle.capnp_schema.specs.Defaults.{DefaultFits};
    ghost use Rattle.capnp_schema.specs.GroupFields.{group_field_of};
    ghost use Rattle.capnp_schema.specs.GroupsDown.{IfGroup, IsGroupSchemaIn, LeadsToGroup, place_of_field};
    ghost use Rattle.capnp_schema.specs.Plan.{IsPlan, plan_of};
    ghost use Rattle.capnp_schema.specs.Schema.{default_of, kind_target};
    ghost use Rattle.capnp_schema.specs.Views.{IsViewOf};
    ghost use Rattle.capnp_schema.specs.StructHandles.{IsStruct, number_of};
    ghost use Rattle.capnp_schema.specs.Annotated.{annotations_of};
    ghost use Rattle.capnp_schema.specs.AnnotationLists.{annotations_in, annotations_set};
    ghost use Rattle.capnp_schema.specs.FieldLists.{IsFieldOf, index_of, field_schema, typed_of, default_behind, field_annotated};

    /// The field of an index, which is below the count of fields.
    #[inline(always)]
    pub(crate) fn new(schema: StructSchema<'s>, index: u16) -> Field<'s>
        requires { index < length (struct_fields schema) }
        ensures { IsFieldOf schema.entry index result }
    {
        let Some(typed) = schema.schemas.field_record(schema.number, index) else {
            unreachable!()
        };
        Field {
            schema,
            index,
            proto: typed.field,
            field_type: *typed.field_type,
        }
    }

    /// The field's record: its name, its annotations, and its place and default or its group.
    pub fn get_proto(self) -> &'s FieldRecord
        ensures { seen_field result.now ≡ (typed_of self.entry).field }
    {
        self.proto
    }

    /// The struct or group that the field is of. A field's schema always is that of a brand of the set, and the field
    /// is one of it.
    pub fn get_containing_struct(&self) -> StructSchema<'s>
        ensures is { result ≡ field_schema self.now }
        ensures stands { IsStruct result }
        ensures field { IsFieldOf result (index_of self.now) self.now }
    {
        // The prover learns the set's invariant from this call.
        let _lists = self.schema.schemas.accepted_lists();
        self.schema
    }

    /// The field's type. The struct or enum that it names, or that its lists hold, is there in the set.
    pub fn get_type(&self) -> Type
        ensures is { seen_type result ≡ (typed_of self.now).type }
        ensures named { NamesEntries (set_of (field_schema self.now)) (seen_type result) }
    {
        self.field_type
    }

    /// The field's index in its struct.
    pub fn get_index(&self) -> u16
        ensures { result ≡ index_of self.now }
    {
        self.index
    }

    /// The default of the field's slot, whose words are read where they lie, with 64 levels; void for a group. It is of
    /// the field's type, or an untyped null. What stands behind a pointer decodes, and is null or what the type reads.
    #[inline(always)]
    pub fn get_default(&self) -> Value<'s>
        ensures view { IsViewOf (default_of (typed_of self.now).field) result }
        ensures fits { DefaultFits (typed_of self.now) }
    {
        // The prover learns the set's invariant from this call.
        let _lists = self.schema.schemas.accepted_lists();
        match &self.proto.kind {
            FieldKind::Slot { offset: _, default } => view(default),
            FieldKind::Group { node: _ } => Value::Void,
        }
    }

    /// The root pointer of the words of the field's default, with 64 levels; none for a default that has no words.
    #[tactic(auto, using(crate::proofs::Defaults::struct_view, crate::proofs::Defaults::list_view, crate::proofs::Defaults::untyped_view))]
    #[inline(always)]
    pub fn get_default_pointer(&self) -> Option<PointerReader<'s>>
        ensures pointer { MatchOption result (default_behind self.now ≡ Null)
            (λ reader. (tree_of reader ≡ default_behind self.now) × (levels_of reader ≡ 64)) }
        ensures fits { DefaultFits (typed_of self.now) }
    {
        match self.get_default() {
            Value::Struct(reader) => Some(reader),
            Value::List(reader) => Some(reader),
            Value::AnyPointer(reader) => Some(reader),
            _ => None,
        }
    }

    /// The group, where the field is one; none for a slot. A group has the sections of the struct that it is in, and
    /// lesser height, and the field is its group field.
    #[inline(always)]
    pub fn get_group(&self) -> Option<StructSchema<'s>>
        ensures number { option_map number_of result
            ≡ kind_target (typed_of self.now).field.kind (typed_of self.now).type }
        ensures down { IfSome result (IsGroupSchemaIn (field_schema self.now)) }
        ensures back { IfSome result (λ g. group_field_of (set_of (field_schema self.now)) (number_of g)
            ≡ Some (place_of_field self.now)) }
    {
        // A handle's number has 32 bits, which is known of it once it is read.
        let _number = self.schema.number;
        let Place::Group(brand) = self.plan().place else {
            return None;
        };
        Some(self.schema.schemas.struct_schema(brand))
    }

    /// Its annotations, each with its type in the brand. The answer is always Ok.
    pub fn get_annotations(self) -> Result<AnnotationList<'s>>
        ensures typed { IsOkAnd result (λ list. annotations_in list ≡ field_annotated self.entry) }
        ensures whole { IsOkAnd result (λ list. annotations_of (annotations_in list)
            ≡ (typed_of self.entry).field.annotations) }
        ensures set { IsOkAnd result (λ list. annotations_set list ≡ set_of (field_schema self.entry)) }
    {
        Ok(AnnotationList::of_field(self.schema.schemas, self.schema.number, self.index))
    }

    /// Where the field stands in its struct, worked out when the set was made. It lies inside each struct that has the
    /// sections of the field's schema.
    #[inline(always)]
    pub fn plan(&self) -> SlotPlan
        ensures is { result ≡ plan_of (set_of (field_schema self.now)) (number_of (field_schema self.now))
            (struct_field (field_schema self.now) (index_of self.now)) }
        ensures stands { IsPlan (set_of (field_schema self.now)) (number_of (field_schema self.now))
            (struct_field (field_schema self.now) (index_of self.now)) result }
        ensures group { IfGroup result.place (LeadsToGroup (set_of (field_schema self.now))
            (number_of (field_schema self.now))) }
    {
        *self.schema.schemas.plan(self.schema.number, self.index)
    }
}
