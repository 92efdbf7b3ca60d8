//! Parts of a struct that is built: what `get` hands out of a field.
//!
//! A part is handed out by value, so these contracts say what it stands on at the return. That the struct is then as it
//! was but for that part, and that a refusal changed nothing, is said by the calls of `part`, `slot` and `group`.
ghost use Rattle.std.specs.Prelude.{None, false, IfErr, IfOk, IsErrAnd, IsOk, OnOk, ◌<◌, ◌≡◌};
ghost use Rattle.capnp_device.specs.declared.error.ErrorKind.TheVariants.{FieldNotFound};
ghost use Rattle.capnp_wire.specs.Edits.{IsDueRefusal, with_pointer_tree};
ghost use Rattle.capnp_wire.specs.Tree.{StructTree, tree_count};
ghost use Rattle.capnp_arena.specs.Built.{IsBuilt, built_at};
ghost use Rattle.capnp_schema.specs.FieldLists.{typed_of};
ghost use Rattle.capnp_schema.specs.Types.{is_pointer};
ghost use Rattle.capnp_slots.specs.Fields.{IsPointerField, IsRoomFor, IsSlot, field_set, pointer_index};
ghost use Rattle.capnp_schema.specs.Query.{field_named};
ghost use Rattle.capnp_schema.specs.StructHandles.{struct_records};
ghost use Rattle.capnp_schema.specs.declared.schema.fields.Field.{Field};
ghost use Rattle.capnp_slots.specs.Fills.{RestsIn, due_in, filled_in};
ghost use Rattle.capnp_dynamic.specs.Built.{IsReady, built_schema, built_struct, place_of, struct_behind};
ghost use Rattle.capnp_dynamic.specs.BuiltValues.{CanBeRead, IsReaderOf};
ghost use Rattle.capnp_dynamic.specs.Names.{IsNamed};
ghost use Rattle.capnp_dynamic.specs.Handed.{HandsField, HandsNumber, IsPartRefusal, IsPartWithin};
ghost use Rattle.capnp_dynamic.specs.Steps.Handed.{HandsFilled};
ghost use Rattle.capnp_dynamic.specs.Owners.{IsGotOf, IsPartOf};
ghost use Rattle.capnp_dynamic_readers.specs.Steps.Leaf.{IsNumber};
ghost use Rattle.capnp_dynamic_readers.specs.Reads.{BelongsTo};

use crate::dynamic_struct::{Builder, Reader};
use crate::dynamic_value;
use crate::handed::hand_out;
use capnp_arena::arena::{Arena, Place};
use capnp_arena::handles::PointerBuilder;
use capnp_schema::laws::numbers_fit;
use capnp_schema::plan::plans_stand;
use capnp_schema::schema::Field;
use capnp_slots::copied::is_behind;
use capnp_slots::{group, part};
use capnp_wire::error::Result;

/// A value that no pointer stands for, as one that is built.
pub(crate) fn built_number<'a>(value: dynamic_value::Reader<'a>) -> dynamic_value::Builder<'a>
    requires { IsNumber value }
    ensures reads { IsReaderOf result value.entry }
    ensures ready { CanBeRead result }
{
    match value {
        dynamic_value::Reader::Void => dynamic_value::Builder::Void,
        dynamic_value::Reader::Bool(x) => dynamic_value::Builder::Bool(x),
        dynamic_value::Reader::Int8(x) => dynamic_value::Builder::Int8(x),
        dynamic_value::Reader::Int16(x) => dynamic_value::Builder::Int16(x),
        dynamic_value::Reader::Int32(x) => dynamic_value::Builder::Int32(x),
        dynamic_value::Reader::Int64(x) => dynamic_value::Builder::Int64(x),
        dynamic_value::Reader::UInt8(x) => dynamic_value::Builder::UInt8(x),
        dynamic_value::Reader::UInt16(x) => dynamic_value::Builder::UInt16(x),
        dynamic_value::Reader::UInt32(x) => dynamic_value::Builder::UInt32(x),
        dynamic_value::Reader::UInt64(x) => dynamic_value::Builder::UInt64(x),
        dynamic_value::Reader::Enum(x) => dynamic_value::Builder::Enum(x),
        _ => unreachable!(),
    }
}

/// The number of a slot.
fn number_of<'a>(arena: &'a Arena, place: Place, field: Field<'a>) -> dynamic_value::Builder<'a>
    requires planted { IsBuilt arena.now place }
    requires slot { IsSlot field }
    requires number { is_pointer (typed_of field).type ≡ false }
    ensures stands { HandsNumber (field_set field.entry) (typed_of field.entry) (built_at arena.now place) result }
    ensures ready { CanBeRead result }
{
    let reader = Reader::new(
        arena.get_struct_reader(place),
        field.get_containing_struct(),
    );
    let Ok(value) = reader.get(field) else {
        unreachable!()
    };
    built_number(value)
}

/// What a builder's get of a pointer's slot hands out: what stands there once it was filled.
fn pointed_of<'a>(
    arena: &'a mut Arena,
    place: Place,
    field: Field<'a>,
) -> Result<dynamic_value::Builder<'a>>
    requires planted { IsBuilt arena.old place }
    requires slot { IsSlot field }
    requires pointer { IsPointerField field }
    requires room { IsRoomFor field (built_at arena.old place) }
    ensures stands { IfOk result (HandsFilled field.entry (built_at arena.old place)) }
    ensures ready { IfOk result CanBeRead }
    ensures owner { IfOk result (IsPartOf arena.entry place (pointer_index field.entry)
        (with_pointer_tree (built_at arena.old place) (pointer_index field.entry)
        (filled_in field.entry (built_at arena.old place)))) }
    ensures within { OnOk result (due_in field.entry (built_at arena.old place) ≡ None) }
    ensures cause { IfErr result (λ e. IsDueRefusal e (due_in field.entry (built_at arena.old place))) }
    ensures rests { RestsIn field.entry (built_at arena.old place) → IsOk result }
{
    let _default = field.get_default();
    let at = part::get(arena, place, field)?;
    arena.tree_is_sound(at);
    let schemas = field.get_containing_struct().get_set();
    let variant = field.get_type().which();
    Ok(hand_out(PointerBuilder { arena, at }, schemas, variant, false))
}

/// The pointer of a slot lies inside each struct that has the sections of the field's schema.
pub(crate) fn pointer_is_inside(field: Field<'_>)
    requires slot { IsSlot field }
    requires pointer { IsPointerField field }
    ensures { (s : StructTree) → IsRoomFor field.entry s → pointer_index field.entry < tree_count s.pointers }
{
    let schema = field.get_containing_struct();
    numbers_fit(schema.get_set());
    plans_stand();
}

impl<'a> Builder<'a> {
    /// What a field has, to be written through; a number is what stands there. A null text or data becomes its default,
    /// an empty one too; a null struct its default or an empty one, and a struct that is smaller than its schema gets
    /// zeros and nulls after what it has; a null list becomes its default where that isn't null, and structs of a list
    /// get at least their schema's sections. A group is the same struct under the group's schema. Whether a member is
    /// active is not asked, and no union is switched.
    ///
    /// Refused with `WrongPointerKind`, `WrongElementSize` or `TextNotTerminated` where what stands there is not read
    /// as the field's type, with `SizePastFormat` where the structs of a list would take 2^29 words or more, and else
    /// with `OutOfMemory`; then nothing has changed, as `part::fill` says. Where nothing has to be filled or extended
    /// it is not refused.
    ///
    /// # Conditions
    ///
    /// The field belongs to the schema (`BelongsTo`). The struct has at least its schema's sections, and stands at its
    /// place (`IsReady`).
    pub fn get(self, field: Field<'a>) -> Result<dynamic_value::Builder<'a>>
        requires belongs { BelongsTo field (built_schema self) }
        requires ready { IsReady self }
        ensures stands { IfOk result (HandsField field.entry (built_struct self.entry)) }
        ensures ready { IfOk result CanBeRead }
        ensures owner { IfOk result (IsGotOf (struct_behind self.entry) (place_of self.entry) field.entry) }
        ensures within { OnOk result (IsPartWithin field.entry (built_struct self.entry)) }
        ensures cause { IfErr result (IsPartRefusal field.entry (built_struct self.entry)) }
        ensures rests { RestsIn field.entry (built_struct self.entry) → IsOk result }
    {
        let Builder {
            arena,
            place,
            schema: _,
        } = self;
        if let Some(schema) = group::group_of(field) {
            return Ok(dynamic_value::Builder::Struct(Builder {
                arena,
                place,
                schema,
            }));
        }
        if is_behind(field.get_type().which()) {
            return pointed_of(arena, place, field);
        }
        Ok(number_of(&*arena, place, field))
    }

    /// What the field of a name has, as `get`. Refused with `FieldNotFound` where there is none of that name.
    ///
    /// # Conditions
    ///
    /// The struct has at least its schema's sections, and stands at its place (`IsReady`).
    pub fn get_named(self, field_name: &str) -> Result<dynamic_value::Builder<'a>>
        requires { IsReady self }
        ensures stands { (f : Field) → IsNamed (built_schema self.entry) field_name.now f
            → IfOk result (HandsField f (built_struct self.entry)) }
        ensures ready { IfOk result CanBeRead }
        ensures owner { (f : Field) → IsNamed (built_schema self.entry) field_name.now f
            → IfOk result (IsGotOf (struct_behind self.entry) (place_of self.entry) f) }
        ensures within { (f : Field) → IsNamed (built_schema self.entry) field_name.now f
            → OnOk result (IsPartWithin f (built_struct self.entry)) }
        ensures cause { (f : Field) → IsNamed (built_schema self.entry) field_name.now f
            → IfErr result (IsPartRefusal f (built_struct self.entry)) }
        ensures rests { (f : Field) → IsNamed (built_schema self.entry) field_name.now f
            → RestsIn f (built_struct self.entry) → IsOk result }
        ensures none { field_named (struct_records (built_schema self.entry)) field_name.now ≡ None
            → IsErrAnd result (λ e. e.kind ≡ FieldNotFound) }
    {
        let schema = self.schema;
        let field = schema.get_field_by_name(field_name)?;
        self.get(field)
    }
}
