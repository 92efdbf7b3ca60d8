//! Parts of a struct that is built, started anew: what `init` and `initn` hand out of a field.
//!
//! A part is handed out by value, so these contracts say what it stands on at the return. That the struct ends with
//! just that part started and its member active, and that a refusal changed nothing, is said by the calls of `slot` and
//! `group`.
ghost use Rattle.std.specs.Prelude.{None, true, IfErr, IfOk, IsErrAnd, ◌≡◌};
ghost use Rattle.capnp_device.specs.declared.error.ErrorKind.TheVariants.{FieldNotFound};
ghost use Rattle.capnp_schema.specs.FieldLists.{typed_of};
ghost use Rattle.capnp_schema.specs.Query.{field_named};
ghost use Rattle.capnp_schema.specs.StructHandles.{struct_records};
ghost use Rattle.capnp_schema.specs.declared.schema.fields.Field.{Field};
ghost use Rattle.capnp_arena.specs.Built.{IsBuilt, built_at};
ghost use Rattle.capnp_slots.specs.Fields.{IsPointerField, IsRoomFor, IsSlot, field_set, pointer_index, slot_with};
ghost use Rattle.capnp_slots.specs.Fills.{pointer_in};
ghost use Rattle.capnp_slots.specs.Inits.{IsInitRefusal, IsInitnRefusal, init_content};
ghost use Rattle.capnp_dynamic.specs.Built.{IsReady, built_schema, built_struct, place_of, struct_behind};
ghost use Rattle.capnp_dynamic.specs.BuiltValues.{CanBeRead};
ghost use Rattle.capnp_dynamic.specs.Names.{IsNamed};
ghost use Rattle.capnp_dynamic.specs.Handed.{HandsInit, HandsInitn, HandsNew, HandsNewSized, HandsOut, IsStartRefusal, IsSizedRefusal};
ghost use Rattle.capnp_dynamic.specs.Steps.Handed.{CanBeHanded};
ghost use Rattle.capnp_dynamic.specs.Owners.{IsAtPointer, IsPartOf, IsSizedOf, IsStartedOf};
ghost use Rattle.capnp_dynamic_readers.specs.Reads.{BelongsTo};

use crate::dynamic_struct::Builder;
use crate::dynamic_value;
use crate::hand::pointer_is_inside;
use crate::handed::hand_out;
use capnp_arena::arena::{Arena, Place};
use capnp_arena::handles::PointerBuilder;
use capnp_schema::schema::Field;
use capnp_slots::{field, group, part, slot};
use capnp_wire::error::Result;

/// What stands at the pointer of a slot that was started anew.
fn hand_new<'a>(arena: &'a mut Arena, place: Place, field: Field<'a>) -> dynamic_value::Builder<'a>
    requires planted { IsBuilt arena.old place }
    requires slot { IsSlot field }
    requires pointer { IsPointerField field }
    requires room { IsRoomFor field (built_at arena.old place) }
    requires handed { CanBeHanded (field_set field) (typed_of field).type (pointer_in field (built_at arena.old place)) }
    ensures stands { HandsOut true (field_set field.entry) (typed_of field.entry).type
        (pointer_in field.entry (built_at arena.old place)) result }
    ensures ready { CanBeRead result }
    ensures there { IsAtPointer arena.entry place (pointer_index field.entry) result }
{
    let schemas = field.get_containing_struct().get_set();
    let variant = field.get_type().which();
    let at = part::pointer(arena, place, field);
    hand_out(PointerBuilder { arena, at }, schemas, variant, true)
}

/// What an init of a slot hands out.
fn start_slot<'a>(
    arena: &'a mut Arena,
    place: Place,
    field: Field<'a>,
) -> Result<dynamic_value::Builder<'a>>
    requires planted { IsBuilt arena.old place }
    requires slot { IsSlot field }
    requires room { IsRoomFor field (built_at arena.old place) }
    ensures stands { IfOk result (HandsNew (field_set field.entry) (typed_of field.entry)) }
    ensures ready { IfOk result CanBeRead }
    ensures pointer { IfOk result (λ _. IsPointerField field.entry) }
    ensures owner { IfOk result (IsPartOf arena.entry place (pointer_index field.entry)
        (slot_with field.entry (init_content field.entry) (built_at arena.old place))) }
    ensures cause { IfErr result (λ e. IsInitRefusal (typed_of field.entry).type e.kind) }
{
    slot::init(arena, place, field)?;
    pointer_is_inside(field);
    Ok(hand_new(arena, place, field))
}

/// What an init of a field with a size hands out.
fn start_sized<'a>(
    arena: &'a mut Arena,
    place: Place,
    field: Field<'a>,
    size: u32,
) -> Result<dynamic_value::Builder<'a>>
    requires planted { IsBuilt arena.old place }
    requires room { IsRoomFor field (built_at arena.old place) }
    ensures stands { IfOk result (HandsNewSized (field_set field.entry) (typed_of field.entry) size) }
    ensures ready { IfOk result CanBeRead }
    ensures owner { IfOk result (IsSizedOf arena.entry place field.entry size) }
    ensures cause { IfErr result (λ e. IsInitnRefusal (field_set field.entry) size (typed_of field.entry).type e.kind) }
{
    field::initn(arena, place, field, size)?;
    pointer_is_inside(field);
    Ok(hand_new(arena, place, field))
}

impl<'a> Builder<'a> {
    /// Starts a field anew, and hands it out: a struct's slot becomes a struct of its schema's sections, all zero and
    /// null, an untyped one null, and a group is cleared. Then a member becomes active.
    ///
    /// Refused with `InitIsOnlyValidForStructAndAnyPointerFields` for another slot, and with `OutOfMemory` for a
    /// struct; then nothing has changed, as `slot::init` says.
    ///
    /// # Conditions
    ///
    /// The field belongs to the schema (`BelongsTo`). The struct has at least its schema's sections, and stands at its
    /// place (`IsReady`).
    pub fn init(self, field: Field<'a>) -> Result<dynamic_value::Builder<'a>>
        requires belongs { BelongsTo field (built_schema self) }
        requires ready { IsReady self }
        ensures stands { IfOk result (HandsInit field.entry (built_struct self.entry)) }
        ensures ready { IfOk result CanBeRead }
        ensures owner { IfOk result (IsStartedOf (struct_behind self.entry) (place_of self.entry) field.entry) }
        ensures cause { IfErr result (IsStartRefusal field.entry) }
    {
        let Builder {
            arena,
            place,
            schema: _,
        } = self;
        if let Some(schema) = group::group_of(field) {
            group::init(arena, place, field);
            return Ok(dynamic_value::Builder::Struct(Builder {
                arena,
                place,
                schema,
            }));
        }
        start_slot(arena, place, field)
    }

    /// Starts the field of a name anew, as `init`. Refused first with `FieldNotFound` where there is none of that name.
    ///
    /// # Conditions
    ///
    /// The struct has at least its schema's sections, and stands at its place (`IsReady`).
    pub fn init_named(self, field_name: &str) -> Result<dynamic_value::Builder<'a>>
        requires { IsReady self }
        ensures stands { (f : Field) → IsNamed (built_schema self.entry) field_name.now f
            → IfOk result (HandsInit f (built_struct self.entry)) }
        ensures ready { IfOk result CanBeRead }
        ensures owner { (f : Field) → IsNamed (built_schema self.entry) field_name.now f
            → IfOk result (IsStartedOf (struct_behind self.entry) (place_of self.entry) f) }
        ensures cause { (f : Field) → IsNamed (built_schema self.entry) field_name.now f
            → IfErr result (IsStartRefusal f) }
        ensures none { field_named (struct_records (built_schema self.entry)) field_name.now ≡ None
            → IsErrAnd result (λ e. e.kind ≡ FieldNotFound) }
    {
        let schema = self.schema;
        let field = schema.get_field_by_name(field_name)?;
        self.init(field)
    }

    /// Starts a field anew with a size, and hands it out: a text or data of so many zero bytes, or a list of so many
    /// elements, all zero, false or null, or structs of their schema's sections. Then a member becomes active.
    ///
    /// Refused with `InitnIsOnlyValidForListTextOrDataFields` for another slot and for a group; with `SizePastFormat`
    /// for a text of more than 2^29 - 2 bytes, data of more than 2^29 - 1, 2^29 elements or more, or structs that take
    /// 2^29 words or more; and with `OutOfMemory`. Then nothing has changed, as `field::initn` says.
    ///
    /// # Conditions
    ///
    /// The field belongs to the schema (`BelongsTo`). The struct has at least its schema's sections, and stands at its
    /// place (`IsReady`).
    pub fn initn(self, field: Field<'a>, size: u32) -> Result<dynamic_value::Builder<'a>>
        requires belongs { BelongsTo field (built_schema self) }
        requires ready { IsReady self }
        ensures stands { IfOk result (HandsInitn field.entry size) }
        ensures ready { IfOk result CanBeRead }
        ensures owner { IfOk result (IsSizedOf (struct_behind self.entry) (place_of self.entry) field.entry size) }
        ensures cause { IfErr result (IsSizedRefusal field.entry size) }
    {
        let Builder {
            arena,
            place,
            schema: _,
        } = self;
        start_sized(arena, place, field, size)
    }

    /// Starts the field of a name anew with a size, as `initn`. Refused first with `FieldNotFound` where there is none
    /// of that name.
    ///
    /// # Conditions
    ///
    /// The struct has at least its schema's sections, and stands at its place (`IsReady`).
    pub fn initn_named(self, field_name: &str, size: u32) -> Result<dynamic_value::Builder<'a>>
        requires { IsReady self }
        ensures stands { (f : Field) → IsNamed (built_schema self.entry) field_name.now f
            → IfOk result (HandsInitn f size) }
        ensures ready { IfOk result CanBeRead }
        ensures owner { (f : Field) → IsNamed (built_schema self.entry) field_name.now f
            → IfOk result (IsSizedOf (struct_behind self.entry) (place_of self.entry) f size) }
        ensures cause { (f : Field) → IsNamed (built_schema self.entry) field_name.now f
            → IfErr result (IsSizedRefusal f size) }
        ensures none { field_named (struct_records (built_schema self.entry)) field_name.now ≡ None
            → IsErrAnd result (λ e. e.kind ≡ FieldNotFound) }
    {
        let schema = self.schema;
        let field = schema.get_field_by_name(field_name)?;
        self.initn(field, size)
    }
}
