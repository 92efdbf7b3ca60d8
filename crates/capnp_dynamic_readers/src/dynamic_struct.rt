//! Structs whose schemas are known only at run time.

use crate::dynamic_value;
use crate::placed::{has_planned, is_member_active, read_placed};
use crate::presence::active_member;
use crate::printer::print_debug;
use capnp_base::traits::OwnedStruct;
use capnp_schema::schema::{Field, StructSchema};
use capnp_wire::StructReader;
use capnp_wire::error::Result;
use capnp_wire::size::MessageSize;
use std::fmt;

/// A struct that is read: its sections, and its schema.
///
/// # Example
///
/// ```rust
/// let root = message.get_root().get_struct()?;
/// get_number(
///     dynamic_struct::Reader::new(root, schemas.struct_schema(builtin::MANY)),
///     "n",
/// )
/// ```
#[derive(Clone, Copy)]
pub struct Reader<'a> {
    pub(crate) reader: StructReader<'a>,
    pub(crate) schema: StructSchema<'a>,
}

impl<'a> Reader<'a> {
    ghost use Rattle.std.specs.Prelude.{Ok, not, IfErr, IfOk, IsOkAnd, ◌≡◌};
    ghost use Rattle.capnp_wire.specs.Standing.{struct_of};
    ghost use Rattle.capnp_wire.specs.Total.{IsSize, IsSizeRefusal};
    ghost use Rattle.capnp_wire.specs.Words.{first_fault_of_all, words_of_struct};
    ghost use Rattle.capnp_schema.specs.FieldLists.{IsFound, index_of};
    ghost use Rattle.capnp_schema.specs.Query.{field_named};
    ghost use Rattle.capnp_schema.specs.StructHandles.{set_of, struct_field, struct_records};
    ghost use Rattle.capnp_schema.specs.Types.{seen_type};
    ghost use Rattle.capnp_records.specs.Part.{has_of, is_inactive, which_of};
    ghost use Rattle.capnp_dynamic_readers.specs.Handles.{reader_of, schema_of};
    ghost use Rattle.capnp_dynamic_readers.specs.Reads.{BelongsTo, field_seen, found_has, found_seen, kind_read};
    ghost use Rattle.capnp_dynamic_readers.specs.Seen.{answered_value, record_seen};
    ghost use Rattle.capnp_dynamic_readers.specs.Typed.{IsOf, IsOfFound, struct_type};

    /// A reader of a struct under a schema.
    pub fn new(reader: StructReader<'a>, schema: StructSchema<'a>) -> Reader<'a>
        ensures reader { reader_of result ≡ reader.entry }
        ensures schema { schema_of result ≡ schema.entry }
    {
        Reader { reader, schema }
    }

    /// The struct's sections, without its schema.
    pub fn get_sections(self) -> StructReader<'a>
        ensures { result ≡ reader_of self.entry }
    {
        self.reader
    }

    /// The size of the struct with all that its pointers lead to, as `StructReader::total_size`, and refused as that
    /// is.
    pub fn total_size(&self) -> Result<MessageSize>
        ensures size { IfOk result (λ size. IsSize size (first_fault_of_all (struct_of (reader_of self.now)).pointers)
            (words_of_struct (struct_of (reader_of self.now)))) }
        ensures refused { IfErr result (λ error. IsSizeRefusal error
            (first_fault_of_all (struct_of (reader_of self.now)).pointers)
            (words_of_struct (struct_of (reader_of self.now)))) }
    {
        self.reader.total_size()
    }

    /// The schema.
    pub fn get_schema(&self) -> StructSchema<'a>
        ensures { result ≡ schema_of self.now }
    {
        self.schema
    }

    /// What a field has, or its default where that is missing: a null text or data is its default or empty, a null
    /// struct or list its default's or an empty one, a null untyped pointer null. A group is the same struct under the
    /// group's schema, with the levels of this one. Whether a member is active is not asked: the slot is read as its
    /// bits stand.
    ///
    /// A struct or list needs a level and leaves one fewer; a null one whose default is read needs it for itself, and
    /// the default is entered on levels of its own. Refused with `TooDeep` where none is left, with the number of a
    /// pointer that can't be followed, and with `WrongPointerKind`, `WrongElementSize` or `TextNotTerminated` where
    /// what stands there is not read as the field's type.
    ///
    /// # Conditions
    ///
    /// The field belongs to the schema (`BelongsTo`).
    #[inline(always)]
    pub fn get(self, field: Field<'a>) -> Result<dynamic_value::Reader<'a>>
        requires { BelongsTo field (schema_of self) }
        ensures value { answered_value result ≡ field_seen self.entry (index_of field.entry) }
        ensures typed { IfOk result (IsOf (set_of (schema_of self.entry))
            (struct_field (schema_of self.entry) (index_of field.entry)).type) }
    {
        let schema = field.get_containing_struct();
        let schemas = schema.get_set();
        let place = field.plan().place;
        let variant = field.get_type().which();
        let kind = &field.get_proto().kind;
        read_placed(&self.reader, schemas, kind, variant, place)
    }

    /// What the field of a name has, as `get`. Refused with `FieldNotFound` where there is none of that name.
    pub fn get_named(self, field_name: &str) -> Result<dynamic_value::Reader<'a>>
        ensures value { answered_value result ≡ found_seen self.entry
            (field_named (struct_records (schema_of self.entry)) field_name.now) }
        ensures typed { IfOk result (IsOfFound self.entry
            (field_named (struct_records (schema_of self.entry)) field_name.now)) }
    {
        let field = self.schema.get_field_by_name(field_name)?;
        self.get(field)
    }

    /// The member whose discriminant value stands in the struct; none without a union or for an unknown number. The
    /// answer is always Ok.
    pub fn which(&self) -> Result<Option<Field<'a>>>
        ensures { IsOkAnd result (IsFound (schema_of self.now) (which_of (record_seen self.now))) }
    {
        Ok(active_member(self.schema, &self.reader))
    }

    /// Whether a field may be read as it stands: false for a member that is not active, else true. `get` does not ask
    /// it.
    ///
    /// # Conditions
    ///
    /// The field belongs to the schema (`BelongsTo`).
    #[inline(always)]
    pub fn is_active(&self, field: Field<'a>) -> bool
        requires { BelongsTo field (schema_of self.now) }
        ensures { result ≡ not (is_inactive (record_seen self.now)
            (struct_field (schema_of self.now) (index_of field.entry)).field (index_of field.entry)) }
    {
        // The prover learns the set's invariant from this call.
        let _schema = field.get_containing_struct();
        let plan = field.plan();
        is_member_active(&self.reader, plan.member)
    }

    /// False for a member that is not active and for a null pointer, else true. The answer is always Ok.
    ///
    /// # Conditions
    ///
    /// The field belongs to the schema (`BelongsTo`).
    #[inline(always)]
    pub fn has(&self, field: Field<'a>) -> Result<bool>
        requires { BelongsTo field (schema_of self.now) }
        ensures { result ≡ Ok (has_of (record_seen self.now)
            (struct_field (schema_of self.now) (index_of field.entry)).field (index_of field.entry)) }
    {
        // The prover learns the set's invariant from this call.
        let _schema = field.get_containing_struct();
        let _variant = field.get_type().which();
        let plan = field.plan();
        Ok(has_planned(&self.reader, plan))
    }

    /// Whether the field of a name is there, as `has`. Refused with `FieldNotFound` where there is none of that name.
    pub fn has_named(&self, field_name: &str) -> Result<bool>
        ensures { kind_read result ≡ found_has self.now
            (field_named (struct_records (schema_of self.now)) field_name.now) }
    {
        let field = self.schema.get_field_by_name(field_name)?;
        self.has(field)
    }

    /// This struct by the handle of a struct type.
    ///
    /// # Conditions
    ///
    /// `T` is the handle of the schema's struct type (`type_of`).
    pub fn downcast<T: OwnedStruct<'a>>(self) -> T::Reader
        requires { seen_type T.type_of ≡ struct_type (schema_of self) }
        ensures { T.Reader.from_gives (reader_of self.entry) result }
    {
        T::Reader::from(self.reader)
    }
}

impl fmt::Debug for Reader<'_> {
    /// The printed form of the struct.
    fn fmt<W: fmt::Write>(&self, f: &mut fmt::Formatter<W>) -> fmt::Result {
        print_debug(dynamic_value::Reader::Struct(*self), f)
    }
}
