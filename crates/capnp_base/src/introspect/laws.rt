//! Laws of types as values.
ghost use Rattle.std.specs.Prelude.{◌≡◌, ◌<◌, ◌-◌, ◌^◌, ◌↔◌, IsTrue};
ghost use Rattle.capnp_base.specs.declared.introspect.TypeVariant.TheVariants as variant;
ghost use Rattle.capnp_base.specs.Types.{equal_types, innermost, list_depth, list_type, type_from, variant_of};

use crate::introspect::{RawBrandedStructSchema, RawEnumSchema, Type};
use std::hash::Hash;

/// The type of a type's outermost layer is that type: `Type::from(t.which())` is `t`.
pub fn layer_is_the_type(of: Type)
    ensures { type_from (variant_of of) ≡ of }
{}

/// A list is looked at as the list of its elements: `Type::list_of(t).which()` is `List(t)`. Where the number of lists
/// around `t` has its last value, a list of `t` is `t`.
pub fn list_is_of_its_elements(element_type: Type)
    ensures list { list_depth element_type < 2 ^ 64 - 1
        → variant_of (list_type element_type) ≡ variant.List element_type }
    ensures last { list_depth element_type ≡ 2 ^ 64 - 1 → list_type element_type ≡ element_type }
{}

/// A type is the one inside all its lists, and the number of these.
pub fn type_is_its_parts(one: Type, another: Type)
    ensures { list_depth one ≡ list_depth another → innermost one ≡ innermost another → one ≡ another }
{}

/// What `==` of types answers: types are equal as lists of lists, as variants, and by their schema's number alone.
pub fn types_are_equal_by_number(one: &Type, another: &Type)
    ensures { ⟦<Type as PartialEq>⟧.eq one.now another.now ≡ equal_types one.now another.now }
{}

/// Types that `==` finds equal make the same writes to a hasher.
pub fn equal_types_hash_equally(one: &Type, another: &Type)
    ensures { IsTrue (⟦<Type as PartialEq>⟧.eq one.now another.now)
        → ⟦<Type as Hash>⟧.hash_input one.now ≡ ⟦<Type as Hash>⟧.hash_input another.now }
{}

/// So do struct schemas, which are equal exactly where their numbers are.
pub fn equal_structs_hash_equally(one: &RawBrandedStructSchema, another: &RawBrandedStructSchema)
    ensures number { IsTrue (⟦<RawBrandedStructSchema as PartialEq>⟧.eq one.now another.now) ↔
        (one.now.number ≡ another.now.number) }
    ensures hash { one.now.number ≡ another.now.number
        → ⟦<RawBrandedStructSchema as Hash>⟧.hash_input one.now
        ≡ ⟦<RawBrandedStructSchema as Hash>⟧.hash_input another.now }
{}

/// So do enum schemas.
pub fn equal_enums_hash_equally(one: &RawEnumSchema, another: &RawEnumSchema)
    ensures number { IsTrue (⟦<RawEnumSchema as PartialEq>⟧.eq one.now another.now) ↔
        (one.now.number ≡ another.now.number) }
    ensures hash { one.now.number ≡ another.now.number
        → ⟦<RawEnumSchema as Hash>⟧.hash_input one.now ≡ ⟦<RawEnumSchema as Hash>⟧.hash_input another.now }
{}
