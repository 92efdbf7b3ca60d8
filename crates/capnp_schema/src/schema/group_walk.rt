//! A walk through the fields of a struct and of the groups in it, that takes no memory: a group knows its field, so the
//! way up needs no stack.
ghost use Rattle.std.specs.Prelude.{◌≡◌, ◌<◌, ◌≤◌, ◌+◌, ◌^◌, ◌∷◌, [], length, IfSome, MatchOption, Some};
ghost use Rattle.capnp_schema.specs.FieldLists.{IsFieldOf};
ghost use Rattle.capnp_schema.specs.GroupFields.{group_field_of};
ghost use Rattle.capnp_schema.specs.GroupWalks.{above, frames, walk_brand, walk_depth, walk_index, walk_schema, walk_set};
ghost use Rattle.capnp_schema.specs.StructHandles.{number_of, set_of, struct_fields};

use crate::schema::fields::Field;
use crate::schema::structs::StructSchema;

/// Where a walk stands: in a struct, or in a group that it came to through so many groups, at the index of the next
/// field there.
#[derive(Clone, Copy)]
pub struct GroupWalk<'s> {
    schema: StructSchema<'s>,
    index: u16,
    depth: usize,
}

impl<'s> GroupWalk<'s> {
    /// A walk at the first field of a struct or group, which it does not leave.
    pub fn start(schema: StructSchema<'s>) -> GroupWalk<'s>
        ensures schema { walk_schema result ≡ schema.entry }
        ensures index { walk_index result ≡ 0 }
        ensures depth { walk_depth result ≡ 0 }
        ensures frames { frames result ≡ (number_of schema.entry, 0) ∷ [] }
    {
        GroupWalk {
            schema,
            index: 0,
            depth: 0,
        }
    }

    /// The struct or group that it stands in.
    pub fn get_schema(&self) -> StructSchema<'s>
        ensures { result ≡ walk_schema self.now }
    {
        self.schema
    }

    /// The index of the next field there, which is the count of fields past the last.
    pub fn get_index(&self) -> u16
        ensures { result ≡ walk_index self.now }
    {
        self.index
    }

    /// How many groups it came through to there.
    pub fn get_depth(&self) -> usize
        ensures { result ≡ walk_depth self.now }
    {
        self.depth
    }

    /// The field that it stands at; none past the last.
    #[inline(always)]
    pub fn get_field(&self) -> Option<Field<'s>>
        ensures { MatchOption result (length (struct_fields (walk_schema self.now)) ≤ walk_index self.now)
            (IsFieldOf (walk_schema self.now) (walk_index self.now)) }
    {
        if self.index < self.schema.schemas.field_count(self.schema.number) {
            return Some(Field::new(self.schema, self.index));
        }
        None
    }

    /// The walk past the field that it stands at.
    ///
    /// # Conditions
    ///
    /// The walk stands at a field.
    #[inline(always)]
    pub fn advance(self) -> GroupWalk<'s>
        requires { walk_index self < length (struct_fields (walk_schema self)) }
        ensures schema { walk_schema result ≡ walk_schema self.entry }
        ensures index { walk_index result ≡ walk_index self.entry + 1 }
        ensures depth { walk_depth result ≡ walk_depth self.entry }
        ensures frames { frames result ≡ (walk_brand self.entry, walk_index self.entry + 1) ∷ above self.entry }
    {
        // An index is below the count of fields, which 16 bits hold.
        let _count = self.schema.schemas.field_count(self.schema.number);
        GroupWalk {
            schema: self.schema,
            index: self.index + 1,
            depth: self.depth,
        }
    }

    /// The walk at the first field of the group of the field that it stands at; the field is then gone past.
    ///
    /// # Conditions
    ///
    /// The group is that of the field that the walk stands at, in the same set, as `Field::get_group` answers it
    /// (`group_field_of`). The walk came through fewer than 2^64 - 1 groups.
    #[inline(always)]
    pub fn enter(self, group: StructSchema<'s>) -> GroupWalk<'s>
        requires set { set_of group ≡ walk_set self }
        requires field { group_field_of (walk_set self) (number_of group) ≡ Some (walk_brand self, walk_index self) }
        requires small { walk_depth self + 1 < 2 ^ 64 }
        ensures schema { walk_schema result ≡ group.entry }
        ensures index { walk_index result ≡ 0 }
        ensures depth { walk_depth result ≡ walk_depth self.entry + 1 }
        ensures frames { frames result ≡ (number_of group.entry, 0)
            ∷ (walk_brand self.entry, walk_index self.entry + 1) ∷ above self.entry }
    {
        GroupWalk {
            schema: group,
            index: 0,
            depth: self.depth + 1,
        }
    }

    /// The walk behind the group that it stands in, in the struct or group that this is of; none where it started.
    #[inline(always)]
    pub fn leave(self) -> Option<GroupWalk<'s>>
        ensures frames { MatchOption result (above self.entry ≡ []) (λ outer. frames outer ≡ above self.entry) }
        ensures set { IfSome result (λ outer. walk_set outer ≡ walk_set self.entry) }
        ensures depth { IfSome result (λ outer. walk_depth outer + 1 ≡ walk_depth self.entry) }
    {
        if self.depth == 0 {
            return None;
        }
        let Some((brand, index)) = self.schema.schemas.group_field(self.schema.number) else {
            return None;
        };
        Some(GroupWalk {
            schema: self.schema.schemas.struct_schema(brand),
            index: index + 1,
            depth: self.depth - 1,
        })
    }
}
