//! Lists of all fields of a struct.
ghost use Rattle.std.specs.Prelude.{◌≡◌, ◌<◌, length, IsTrue, ◌↔◌};
ghost use Rattle.capnp_base.specs.Taking.{indices};

use crate::schema::fields::Field;
use crate::schema::structs::StructSchema;
use capnp_base::traits::{IndexMove, ShortListIter};

/// All fields of a struct or group, by index.
#[derive(Clone, Copy)]
pub struct FieldList<'s> {
    schema: StructSchema<'s>,
}

impl<'s> FieldList<'s> {
    ghost use Rattle.capnp_base.specs.IndexIter.{source, to_come};
    ghost use Rattle.capnp_schema.specs.StructHandles.{struct_fields};
    ghost use Rattle.capnp_schema.specs.FieldLists.{IsFieldOf, list_schema};

    /// All fields of a schema.
    pub(crate) fn new(schema: StructSchema<'s>) -> FieldList<'s>
        ensures { list_schema result ≡ schema.entry }
    {
        FieldList { schema }
    }

    /// How many fields there are.
    pub fn len(&self) -> u16
        ensures { result ≡ length (struct_fields (list_schema self.now)) }
    {
        self.schema.schemas.field_count(self.schema.number)
    }

    /// Whether there are none.
    pub fn is_empty(&self) -> bool
        ensures { IsTrue result ↔ (length (struct_fields (list_schema self.now)) ≡ 0) }
    {
        self.len() == 0
    }

    /// The field of an index.
    ///
    /// # Conditions
    ///
    /// `index` is below `len`.
    pub fn get(self, index: u16) -> Field<'s>
        requires { index < length (struct_fields (list_schema self)) }
        ensures { IsFieldOf (list_schema self.entry) index result }
    {
        Field::new(self.schema, index)
    }

    /// All fields, by index.
    pub fn iter(self) -> ShortListIter<FieldList<'s>, Field<'s>>
        ensures source { source result ≡ self.entry }
        ensures to_come { to_come result ≡ indices 0 (length (struct_fields (list_schema self.entry))) }
    {
        ShortListIter::new(self, self.len())
    }
}

impl<'s> IndexMove<u16, Field<'s>> for FieldList<'s> {
    ghost use Rattle.capnp_schema.specs.StructHandles.{struct_fields};
    ghost use Rattle.capnp_schema.specs.FieldLists.{IsFieldOf, list_schema};

    ghost count = { λ l. length (struct_fields (list_schema l)) };

    ghost answers = { λ l i field. IsFieldOf (list_schema l) i field };

    fn index_move(&self, index: u16) -> Field<'s> {
        self.get(index)
    }
}

impl<'s> IntoIterator for FieldList<'s> {
    ghost use Rattle.capnp_base.specs.IndexIter.{GoesOverAll};
    ghost use Rattle.capnp_schema.specs.StructHandles.{struct_fields};
    ghost use Rattle.capnp_schema.specs.FieldLists.{list_schema};

    type Item = Field<'s>;

    type IntoIter = ShortListIter<FieldList<'s>, Field<'s>>;

    ghost into_iter_gives = { λ l items. GoesOverAll l (length (struct_fields (list_schema l))) items };

    fn into_iter(self) -> ShortListIter<FieldList<'s>, Field<'s>> {
        self.iter()
    }
}
