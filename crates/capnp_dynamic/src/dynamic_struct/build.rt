//! Structs whose schemas are known only at run time, as they are built.
//!
//! A builder is thin: its calls are those of `slot` and `group` at its place, and their contracts say what the struct
//! becomes. A field that is given to a call belongs to the builder's schema, and the struct has at least the schema's
//! sections; both are conditions.
ghost use Rattle.std.specs.Prelude.{None, Ok, IfErr, IsErrAnd, IsOk, IsOkAnd, OnErr, OnOk, ◌≡◌, ◌≢◌, IfOk};
ghost use Rattle.std.specs.Borrow.{sem};
ghost use Rattle.capnp_device.specs.declared.error.ErrorKind.TheVariants.{FieldNotFound};
ghost use Rattle.capnp_wire.specs.Depth.{AreBelow, memory_depth, message_levels};
ghost use Rattle.capnp_wire.specs.Edits.{IsStructRefusal, extended_struct, struct_in};
ghost use Rattle.capnp_wire.specs.Standing.{struct_levels, struct_of};
ghost use Rattle.capnp_arena.specs.Frame.{LeavesPointer};
ghost use Rattle.capnp_arena.specs.Forest.{Forest, tree};
ghost use Rattle.capnp_arena.specs.Same.{IsStructCutOf};
ghost use Rattle.capnp_arena.specs.Segment.{segment};
ghost use Rattle.capnp_arena.specs.Shape.{StructIn, shape_at};
ghost use Rattle.capnp_schema.specs.FieldLists.{IsFound, index_of};
ghost use Rattle.capnp_schema.specs.Plan.{brand_size};
ghost use Rattle.capnp_schema.specs.Query.{field_named};
ghost use Rattle.capnp_schema.specs.StructHandles.{number_of, set_of, struct_field, struct_records};
ghost use Rattle.capnp_schema.specs.Types.{seen_type};
ghost use Rattle.capnp_schema.specs.declared.schema.fields.Field.{Field};
ghost use Rattle.capnp_records.specs.Part.{has_of, which_of};
ghost use Rattle.capnp_records.specs.Writes.Slots.{Fits};
ghost use Rattle.capnp_arena.specs.Built.{ChangesIn, built_at};
ghost use Rattle.capnp_slots.specs.Copied.{refusal_of};
ghost use Rattle.capnp_slots.specs.Fields.{IsSlot, Keeps, names_of};
ghost use Rattle.capnp_slots.specs.FieldWrites.{IsFieldSet, field_cleared};
ghost use Rattle.capnp_slots.specs.SetValues.{source_of};
ghost use Rattle.capnp_dynamic_readers.specs.Handles.{reader_of, schema_of};
ghost use Rattle.capnp_dynamic_readers.specs.Reads.{BelongsTo};
ghost use Rattle.capnp_dynamic_readers.specs.Typed.{struct_type};
ghost use Rattle.capnp_dynamic.specs.Built.{IsReady, built_record, built_schema, built_struct, handle_of, place_of, struct_behind};
ghost use Rattle.capnp_dynamic.specs.Steps.Built.{LendsStruct};
ghost use Rattle.capnp_dynamic.specs.Names.{IsNamed};
ghost use Rattle.capnp_dynamic.specs.Steps.Opened.{BuilderStructRests};

use crate::dynamic_struct::Reader;
use crate::dynamic_value;
use capnp_arena::arena::{Arena, Place};
use capnp_arena::handles::{PointerBuilder, StructBuilder};
use capnp_builders::traits::OwnedStruct;
use capnp_dynamic_readers::presence::active_member;
use capnp_schema::schema::{Field, StructSchema};
use capnp_slots::source::Source;
use capnp_slots::{field, size_of};
use capnp_wire::error::Result;

/// A struct that is built: the message and its place there, and its schema.
///
/// # Example
///
/// ```rust
/// builder.set(field, value)?;
/// builder.into_reader().get(field)
/// ```
#[derive(Drop)]
pub struct Builder<'a> {
    pub arena: &'a mut Arena,
    pub place: Place,
    pub schema: StructSchema<'a>,
}

impl<'a> Builder<'a> {
    /// A builder of a struct under a schema.
    ///
    /// # Conditions
    ///
    /// The struct has at least the schema's sections (`Fits`).
    pub fn new(builder: StructBuilder<'a>, schema: StructSchema<'a>) -> Builder<'a>
        requires { Fits (set_of schema) (number_of schema) (built_at builder.arena.now builder.place) }
        ensures behind { struct_behind result ≡ builder.entry.arena }
        ensures place { place_of result ≡ builder.entry.place }
        ensures schema { built_schema result ≡ schema.entry }
    {
        let StructBuilder { arena, place } = builder;
        Builder {
            arena,
            place,
            schema,
        }
    }

    /// The struct at a pointer, under a schema: a null becomes one of the schema's sections, all zero and null, and a
    /// smaller struct gets zeros and nulls after what it has.
    ///
    /// Refused with `WrongPointerKind` where a list stands there, and else with `OutOfMemory`; then nothing has
    /// changed.
    ///
    /// # Conditions
    ///
    /// A tree of the message stands at the pointer (`Forest`).
    #[tactic(auto, using(crate::proofs::Opened::entered_stands, crate::proofs::Opened::entered_is))]
    pub fn open(pointer: PointerBuilder<'a>, schema: StructSchema<'a>) -> Result<Builder<'a>>
        requires forest { Forest (segment pointer.arena.now) pointer.at }
        ensures* rests { sem 𝓛 (BuilderStructRests pointer.entry.arena result) }
        ensures same { IfOk result (λ b. (struct_behind b).ghost_name ≡ pointer.entry.arena.ghost_name) }
        ensures ready { IfOk result IsReady }
        ensures schema { IfOk result (λ b. built_schema b ≡ schema.entry) }
        ensures frame { IfOk result (λ b. LeavesPointer pointer.entry.at pointer.entry.arena.now
            (struct_behind b).now) }
        ensures place { IfOk result (λ b. shape_at (segment (struct_behind b).now) pointer.entry.at
            ≡ StructIn (place_of b).start (place_of b).data_words (place_of b).pointers) }
        ensures now { IfOk result (λ b. built_struct b ≡
            extended_struct (brand_size (set_of schema.entry) (number_of schema.entry))
            (struct_in (tree (segment pointer.entry.arena.now) pointer.entry.at))) }
        ensures cause { IfErr result (λ e. IsStructRefusal e
            (tree (segment pointer.entry.arena.now) pointer.entry.at)) }
    {
        let size = size_of(schema);
        let PointerBuilder { arena, at } = pointer;
        let place = arena.get_struct(at, size)?;
        Ok(Builder {
            arena,
            place,
            schema,
        })
    }

    /// This struct for a shorter time. What is left of it is what this builder has then.
    pub fn reborrow(&mut self) -> Builder<'_>
        ensures* lends { sem 𝓛 (LendsStruct self.entry result) }
        ensures schema { built_schema result ≡ built_schema self.old }
        ensures place { place_of result ≡ place_of self.old }
        ensures now { (struct_behind result).now ≡ (struct_behind self.old).now }
    {
        let place = self.place;
        let schema = self.schema;
        let arena = &mut *self.arena;
        Builder {
            arena,
            place,
            schema,
        }
    }

    /// A reader of the struct, with 64 levels. What its pointers lead to is cut off past 129 levels, which only walks
    /// of a whole tree can see.
    ///
    /// # Conditions
    ///
    /// The struct has at least its schema's sections, and stands at its place (`IsReady`).
    pub fn reborrow_as_reader(&self) -> Reader<'_>
        requires { IsReady self.now }
        ensures cut { IsStructCutOf (struct_of (reader_of result)) (built_struct self.now) }
        ensures parts { AreBelow memory_depth (built_struct self.now).pointers
            → struct_of (reader_of result) ≡ built_struct self.now }
        ensures levels { struct_levels (reader_of result) ≡ message_levels }
        ensures schema { schema_of result ≡ built_schema self.now }
    {
        Reader::new(self.arena.get_struct_reader(self.place), self.schema)
    }

    /// A reader of the struct for as long as the builder would be there, as `reborrow_as_reader`. The struct stays as
    /// it is.
    ///
    /// # Conditions
    ///
    /// The struct has at least its schema's sections, and stands at its place (`IsReady`).
    pub fn into_reader(self) -> Reader<'a>
        requires { IsReady self }
        ensures cut { IsStructCutOf (struct_of (reader_of result)) (built_struct self.entry) }
        ensures parts { AreBelow memory_depth (built_struct self.entry).pointers
            → struct_of (reader_of result) ≡ built_struct self.entry }
        ensures levels { struct_levels (reader_of result) ≡ message_levels }
        ensures schema { schema_of result ≡ built_schema self.entry }
    {
        let Builder {
            arena,
            place,
            schema,
        } = self;
        Reader::new(arena.get_struct_reader(place), schema)
    }

    /// The schema.
    pub fn get_schema(&self) -> StructSchema<'a>
        ensures { result ≡ built_schema self.now }
    {
        self.schema
    }

    /// The member whose discriminant value stands in the struct; none without a union or for an unknown number. The
    /// answer is always Ok.
    ///
    /// # Conditions
    ///
    /// The struct has at least its schema's sections, and stands at its place (`IsReady`).
    pub fn which(&self) -> Result<Option<Field<'a>>>
        requires { IsReady self.now }
        ensures { IsOkAnd result (IsFound (built_schema self.now) (which_of (built_record self.now))) }
    {
        let reader = self.arena.get_struct_reader(self.place);
        Ok(active_member(self.schema, &reader))
    }

    /// False for a member that is not active and for a null pointer, else true. The answer is always Ok.
    ///
    /// # Conditions
    ///
    /// The field belongs to the schema (`BelongsTo`). The struct has at least its schema's sections, and stands at its
    /// place (`IsReady`).
    pub fn has(&self, field: Field<'a>) -> Result<bool>
        requires belongs { BelongsTo field (built_schema self.now) }
        requires ready { IsReady self.now }
        ensures { result ≡ Ok (has_of (built_record self.now)
            (struct_field (built_schema self.now) (index_of field.entry)).field (index_of field.entry)) }
    {
        // The prover learns the set's invariant from this call.
        let _schema = field.get_containing_struct();
        let _variant = field.get_type().which();
        self.reborrow_as_reader().has(field)
    }

    /// Whether the field of a name is there, as `has`. Refused with `FieldNotFound` where there is none of that name.
    ///
    /// # Conditions
    ///
    /// The struct has at least its schema's sections, and stands at its place (`IsReady`).
    pub fn has_named(&self, field_name: &str) -> Result<bool>
        requires { IsReady self.now }
        ensures is { (f : Field) → IsNamed (built_schema self.now) field_name.now f
            → result ≡ Ok (has_of (built_record self.now) (struct_field (built_schema self.now) (index_of f)).field
            (index_of f)) }
        ensures refused { IfErr result (λ e. (e.kind ≡ FieldNotFound)
            × (field_named (struct_records (built_schema self.now)) field_name.now ≡ None)) }
        ensures none { OnOk result (field_named (struct_records (built_schema self.now)) field_name.now ≢ None) }
    {
        let schema = self.schema;
        let field = schema.get_field_by_name(field_name)?;
        self.has(field)
    }

    /// Sets a field. A slot takes a value that no pointer stands for, or a copy of a text, data, struct or list of its
    /// kind, whatever the struct's schema or the list's elements are; an untyped slot takes these four, and a void one
    /// every value. The copy is made first, and then a member becomes active. A group takes a struct of its schema: it
    /// is cleared, and then the source's fields are copied, first its active member, a null one as its default, and
    /// then its non-union fields by index, but for null pointers.
    ///
    /// A slot is refused, in this order: with `CannotSetAnyPointerFieldToAPrimitiveValue` for an untyped one and a
    /// value of another kind than these four, and with `TypeMismatch` for another one and a value of another kind than
    /// its own; with `BadPointer`, `TooDeep` or `CapabilityPointer` where a pointer in the value can't be followed, by
    /// the first of these in preorder; with `SizePastFormat` for a text of more than 2^29 - 2 bytes or data of more
    /// than 2^29 - 1; and with `OutOfMemory`. Then nothing has changed. A group is refused with `NotAStruct` for a
    /// value that is no struct and with `TypeMismatch` for a struct of another schema, and then nothing has changed;
    /// and as the first of its copies that is refused, where the group stays as it is by then, cleared and with what
    /// was copied before.
    ///
    /// # Conditions
    ///
    /// The field belongs to the schema (`BelongsTo`). The struct has at least its schema's sections, and stands at its
    /// place (`IsReady`).
    #[tactic(auto, using(crate::proofs::Builders::room_for, crate::proofs::Builders::under_kept))]
    #[inline(always)]
    pub fn set(&mut self, field: Field<'a>, value: dynamic_value::Reader<'_>) -> Result<()>
        requires belongs { BelongsTo field (built_schema self.old) }
        requires ready { IsReady self.old }
        ensures same { (struct_behind self.new).ghost_name ≡ (struct_behind self.old).ghost_name }
        ensures schema { built_schema self.new ≡ built_schema self.old }
        ensures place { place_of self.new ≡ place_of self.old }
        ensures changes { ChangesIn (place_of self.old) (struct_behind self.old).now (struct_behind self.new).now }
        ensures set { IsFieldSet field.entry (source_of value.entry) (built_struct self.old) (refusal_of result)
            (built_struct self.new) }
        ensures kept { Keeps (names_of field.entry) (built_struct self.old) (built_struct self.new) }
        ensures refused { IsSlot field.entry → OnErr result
            (segment (struct_behind self.new).now ≡ segment (struct_behind self.old).now) }
        ensures ready { IsReady self.new }
    {
        field::set(self.arena, self.place, field, Source::from(value))
    }

    /// Sets the field of a name, as `set`. Refused first with `FieldNotFound` where there is none of that name, and
    /// then nothing has changed.
    ///
    /// # Conditions
    ///
    /// The struct has at least its schema's sections, and stands at its place (`IsReady`).
    #[tactic(auto, using(crate::proofs::Builders::same_field_set, crate::proofs::Builders::same_slot, capnp_dynamic_readers::specs::Facts::Found::found_belongs))]
    pub fn set_named(&mut self, field_name: &str, value: dynamic_value::Reader<'_>) -> Result<()>
        requires { IsReady self.old }
        ensures same { (struct_behind self.new).ghost_name ≡ (struct_behind self.old).ghost_name }
        ensures schema { built_schema self.new ≡ built_schema self.old }
        ensures place { place_of self.new ≡ place_of self.old }
        ensures changes { ChangesIn (place_of self.old) (struct_behind self.old).now (struct_behind self.new).now }
        ensures set { (f : Field) → IsNamed (built_schema self.old) field_name.now f
            → IsFieldSet f (source_of value.entry) (built_struct self.old) (refusal_of result) (built_struct self.new) }
        ensures refused { (f : Field) → IsNamed (built_schema self.old) field_name.now f → IsSlot f
            → OnErr result (segment (struct_behind self.new).now ≡ segment (struct_behind self.old).now) }
        ensures none { field_named (struct_records (built_schema self.old)) field_name.now ≡ None
            → IsErrAnd result (λ e. e.kind ≡ FieldNotFound) }
        ensures stays { field_named (struct_records (built_schema self.old)) field_name.now ≡ None
            → segment (struct_behind self.new).now ≡ segment (struct_behind self.old).now }
        ensures ready { IsReady self.new }
    {
        let schema = self.schema;
        let field = schema.get_field_by_name(field_name)?;
        self.set(field, value)
    }

    /// Clears a field. The bits of a slot become zero, which reads as its default, or its pointer null; of a group the
    /// member of discriminant value 0 is cleared and then its non-union fields by index. A member becomes active first.
    /// No memory is taken, and the answer is always Ok.
    ///
    /// # Conditions
    ///
    /// The field belongs to the schema (`BelongsTo`). The struct has at least its schema's sections, and stands at its
    /// place (`IsReady`).
    #[tactic(auto, using(crate::proofs::Builders::room_for, crate::proofs::Builders::under_kept))]
    pub fn clear(&mut self, field: Field<'a>) -> Result<()>
        requires belongs { BelongsTo field (built_schema self.old) }
        requires ready { IsReady self.old }
        ensures ok { IsOk result }
        ensures same { (struct_behind self.new).ghost_name ≡ (struct_behind self.old).ghost_name }
        ensures schema { built_schema self.new ≡ built_schema self.old }
        ensures place { place_of self.new ≡ place_of self.old }
        ensures changes { ChangesIn (place_of self.old) (struct_behind self.old).now (struct_behind self.new).now }
        ensures cleared { built_struct self.new ≡ field_cleared field.entry (built_struct self.old) }
        ensures kept { Keeps (names_of field.entry) (built_struct self.old) (built_struct self.new) }
        ensures ready { IsReady self.new }
    {
        field::clear(self.arena, self.place, field);
        Ok(())
    }

    /// Clears the field of a name, as `clear`. Refused with `FieldNotFound` where there is none of that name, and then
    /// nothing has changed.
    ///
    /// # Conditions
    ///
    /// The struct has at least its schema's sections, and stands at its place (`IsReady`).
    #[tactic(auto, using(crate::proofs::Builders::same_cleared, capnp_dynamic_readers::specs::Facts::Found::found_belongs))]
    pub fn clear_named(&mut self, field_name: &str) -> Result<()>
        requires { IsReady self.old }
        ensures same { (struct_behind self.new).ghost_name ≡ (struct_behind self.old).ghost_name }
        ensures schema { built_schema self.new ≡ built_schema self.old }
        ensures place { place_of self.new ≡ place_of self.old }
        ensures changes { ChangesIn (place_of self.old) (struct_behind self.old).now (struct_behind self.new).now }
        ensures cleared { (f : Field) → IsNamed (built_schema self.old) field_name.now f
            → built_struct self.new ≡ field_cleared f (built_struct self.old) }
        ensures refused { OnErr result (segment (struct_behind self.new).now ≡ segment (struct_behind self.old).now) }
        ensures cause { IfErr result (λ e. (e.kind ≡ FieldNotFound)
            × (field_named (struct_records (built_schema self.old)) field_name.now ≡ None)) }
        ensures none { OnOk result (field_named (struct_records (built_schema self.old)) field_name.now ≢ None) }
        ensures ready { IsReady self.new }
    {
        let schema = self.schema;
        let field = schema.get_field_by_name(field_name)?;
        self.clear(field)
    }

    /// This struct by the handle of a struct type.
    ///
    /// # Conditions
    ///
    /// `T` is the handle of the schema's struct type (`type_of`).
    pub fn downcast<T: OwnedStruct<'a>>(self) -> T::Builder
        requires { seen_type T.type_of ≡ struct_type (built_schema self) }
        ensures { T.Builder.from_gives (handle_of self.entry) result }
    {
        let Builder {
            arena,
            place,
            schema: _,
        } = self;
        T::Builder::from(StructBuilder { arena, place })
    }
}
