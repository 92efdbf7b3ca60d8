//! Lists of some fields of a struct.
ghost use Rattle.std.specs.Prelude.{◌≡◌, ◌<◌, ◌≤◌, length, slice_index, All, IsTrue, ◌↔◌};
ghost use Rattle.capnp_base.specs.Taking.{indices};
ghost use Rattle.capnp_schema.specs.StructHandles.{struct_fields};

use crate::schema::fields::Field;
use crate::schema::structs::StructSchema;
use capnp_base::traits::{IndexMove, ShortListIter};

/// Some fields of a struct or group.
#[derive(Clone, Copy)]
pub struct FieldSubset<'s> {
    schema: StructSchema<'s>,
    indices: &'s [u16],
    ghost few: { length indices.now ≤ 65535 },
    ghost inside: { All (λ i. i < length (struct_fields schema)) indices.now },
}

impl<'s> FieldSubset<'s> {
    ghost use Rattle.capnp_base.specs.IndexIter.{source, to_come};
    ghost use Rattle.capnp_schema.specs.FieldLists.{IsFieldOf, subset_indices, subset_schema};

    /// The fields of those indices.
    pub(crate) fn new(schema: StructSchema<'s>, indices: &'s [u16]) -> FieldSubset<'s>
        requires few { length indices.now ≤ 65535 }
        requires inside { All (λ i. i < length (struct_fields schema)) indices.now }
        ensures schema { subset_schema result ≡ schema.entry }
        ensures indices { subset_indices result ≡ indices.now }
    {
        FieldSubset { schema, indices }
    }

    /// How many fields the list has.
    pub fn len(&self) -> u16
        ensures { result ≡ length (subset_indices self.now) }
    {
        self.indices.len() as u16
    }

    /// Whether it has none.
    pub fn is_empty(&self) -> bool
        ensures { IsTrue result ↔ (length (subset_indices self.now) ≡ 0) }
    {
        self.len() == 0
    }

    /// The field at a place of the list.
    ///
    /// # Conditions
    ///
    /// `index` is below `len`.
    pub fn get(self, index: u16) -> Field<'s>
        requires { index < length (subset_indices self) }
        ensures { IsFieldOf (subset_schema self.entry) (slice_index (subset_indices self.entry) index) result }
    {
        Field::new(self.schema, self.indices[index as usize])
    }

    /// All fields of the list, in its order.
    pub fn iter(self) -> ShortListIter<FieldSubset<'s>, Field<'s>>
        ensures source { source result ≡ self.entry }
        ensures to_come { to_come result ≡ indices 0 (length (subset_indices self.entry)) }
    {
        ShortListIter::new(self, self.len())
    }
}

impl<'s> IndexMove<u16, Field<'s>> for FieldSubset<'s> {
    ghost use Rattle.capnp_schema.specs.FieldLists.{IsFieldOf, subset_indices, subset_schema};

    ghost count = { λ l. length (subset_indices l) };

    ghost answers = { λ l i field. IsFieldOf (subset_schema l) (slice_index (subset_indices l) i) field };

    fn index_move(&self, index: u16) -> Field<'s> {
        self.get(index)
    }
}

impl<'s> IntoIterator for FieldSubset<'s> {
    ghost use Rattle.capnp_base.specs.IndexIter.{GoesOverAll};
    ghost use Rattle.capnp_schema.specs.FieldLists.{subset_indices};

    type Item = Field<'s>;

    type IntoIter = ShortListIter<FieldSubset<'s>, Field<'s>>;

    ghost into_iter_gives = { λ l items. GoesOverAll l (length (subset_indices l)) items };

    fn into_iter(self) -> ShortListIter<FieldSubset<'s>, Field<'s>> {
        self.iter()
    }
}
