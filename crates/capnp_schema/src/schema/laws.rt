//! Equality of handles, and their hashes.
ghost use Rattle.std.specs.Prelude.{◌≡◌, ◌↔◌, IsTrue};
ghost use Rattle.capnp_schema.specs.Enumerants.{containing_enum, ordinal_of};
ghost use Rattle.capnp_schema.specs.Enums.{enum_number};
ghost use Rattle.capnp_schema.specs.StructHandles.{number_of};
ghost use Rattle.capnp_schema.specs.FieldLists.{HaveOnePlace};

use crate::schema::enums::{EnumSchema, Enumerant};
use crate::schema::fields::Field;
use crate::schema::structs::StructSchema;
use std::hash::Hash;

/// Struct schemas are equal exactly where their numbers are, and equal ones make the same writes to a hasher.
pub fn equal_schemas_hash_equally<'s>(one: &StructSchema<'s>, another: &StructSchema<'s>)
    ensures number { IsTrue (⟦<StructSchema<'s> as PartialEq>⟧.eq one.now another.now) ↔
        (number_of one.now ≡ number_of another.now) }
    ensures hash { number_of one.now ≡ number_of another.now
        → ⟦<StructSchema<'s> as Hash>⟧.hash_input one.now ≡ ⟦<StructSchema<'s> as Hash>⟧.hash_input another.now }
{}

/// Fields are equal exactly where the numbers of their schemas and their indices are, and equal ones make the same
/// writes to a hasher.
pub fn equal_fields_hash_equally<'s>(one: &Field<'s>, another: &Field<'s>)
    ensures place { IsTrue (⟦<Field<'s> as PartialEq>⟧.eq one.now another.now) ↔ HaveOnePlace one.now another.now }
    ensures hash { IsTrue (⟦<Field<'s> as PartialEq>⟧.eq one.now another.now)
        → ⟦<Field<'s> as Hash>⟧.hash_input one.now ≡ ⟦<Field<'s> as Hash>⟧.hash_input another.now }
{}

/// Enums are equal exactly where their numbers are.
pub fn enums_are_equal_by_number<'s>(one: &EnumSchema<'s>, another: &EnumSchema<'s>)
    ensures { IsTrue (⟦<EnumSchema<'s> as PartialEq>⟧.eq one.now another.now) ↔
        (enum_number one.now ≡ enum_number another.now) }
{}

/// Enums that `==` finds equal make the same writes to a hasher.
pub fn equal_enums_hash_equally<'s>(one: &EnumSchema<'s>, another: &EnumSchema<'s>)
    ensures { IsTrue (⟦<EnumSchema<'s> as PartialEq>⟧.eq one.now another.now)
        → ⟦<EnumSchema<'s> as Hash>⟧.hash_input one.now ≡ ⟦<EnumSchema<'s> as Hash>⟧.hash_input another.now }
{}

/// Enumerants are equal exactly where the numbers of their enums and their ordinals are.
pub fn enumerants_are_equal_by_number<'s>(one: &Enumerant<'s>, another: &Enumerant<'s>)
    ensures { IsTrue (⟦<Enumerant<'s> as PartialEq>⟧.eq one.now another.now)
        ↔ ((enum_number (containing_enum one.now) ≡ enum_number (containing_enum another.now))
        × (ordinal_of one.now ≡ ordinal_of another.now)) }
{}

/// Enumerants that `==` finds equal make the same writes to a hasher.
pub fn equal_enumerants_hash_equally<'s>(one: &Enumerant<'s>, another: &Enumerant<'s>)
    ensures { IsTrue (⟦<Enumerant<'s> as PartialEq>⟧.eq one.now another.now)
        → ⟦<Enumerant<'s> as Hash>⟧.hash_input one.now ≡ ⟦<Enumerant<'s> as Hash>⟧.hash_input another.now }
{}
