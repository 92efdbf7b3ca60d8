//! The way through the fields of a struct and of the groups in it. In each of these the non-union fields come first, by
//! index, and the active member is last. A group knows its field, so the way out needs no stack.
ghost use Rattle.std.specs.Prelude.{[], ◌∷◌, ◌≡◌, ◌+◌, ◌<◌, ◌≤◌, ◌^◌, false, length, MatchOption, Some, true};
ghost use Rattle.capnp_schema.specs.FieldLists.{IsFieldOf, index_of};
ghost use Rattle.capnp_schema.specs.GroupFields.{group_field_of};
ghost use Rattle.capnp_schema.specs.StructHandles.{number_of, set_of, struct_fields};
ghost use Rattle.capnp_json.specs.Steps.Walks.{IsOutside, above, is_done, walk_brand, walk_depth, walk_index, walk_schema, walk_set};

use capnp_schema::schema::{Field, StructSchema};

/// Where a walk stands: in a struct, or in a group that it came to through so many groups, at the index of the next
/// field there; or behind all that has an item there.
#[derive(Clone, Copy)]
pub(crate) struct Walk<'a> {
    schema: StructSchema<'a>,
    index: u16,
    depth: usize,
    done: bool,
}

/// The index behind a field.
fn next_index(schema: StructSchema<'_>, index: u16) -> u16
    requires { index < length (struct_fields schema) }
    ensures { result ≡ index + 1 }
{
    let Ok(fields) = schema.get_fields() else {
        unreachable!()
    };
    // An index is below the count of fields, which 16 bits hold.
    let _count = fields.len();
    index + 1
}

impl<'a> Walk<'a> {
    /// A walk at the first field of a struct or group, which it does not leave.
    pub(crate) fn start(schema: StructSchema<'a>) -> Walk<'a>
        ensures schema { walk_schema result ≡ schema.entry }
        ensures index { walk_index result ≡ 0 }
        ensures depth { walk_depth result ≡ 0 }
        ensures done { is_done result ≡ false }
        ensures above { above result ≡ [] }
    {
        Walk {
            schema,
            index: 0,
            depth: 0,
            done: false,
        }
    }

    /// The struct or group that it stands in.
    pub(crate) fn get_schema(&self) -> StructSchema<'a>
        ensures { result ≡ walk_schema self.now }
    {
        self.schema
    }

    /// How many groups it came through to there.
    pub(crate) fn get_depth(&self) -> usize
        ensures { result ≡ walk_depth self.now }
    {
        self.depth
    }

    /// Whether nothing is left there.
    pub(crate) fn is_done(&self) -> bool
        ensures { result ≡ is_done self.now }
    {
        self.done
    }

    /// The field that it stands at; none past the last, where the active member is to come.
    pub(crate) fn get_field(&self) -> Option<Field<'a>>
        ensures { MatchOption result (length (struct_fields (walk_schema self.now)) ≤ walk_index self.now)
            (IsFieldOf (walk_schema self.now) (walk_index self.now)) }
    {
        let Ok(fields) = self.schema.get_fields() else {
            unreachable!()
        };
        if self.index < fields.len() {
            return Some(fields.get(self.index));
        }
        None
    }

    /// Past the field that it stands at. It has to stand at one.
    pub(crate) fn advance(self) -> Walk<'a>
        requires { walk_index self < length (struct_fields (walk_schema self)) }
        ensures schema { walk_schema result ≡ walk_schema self.entry }
        ensures index { walk_index result ≡ walk_index self.entry + 1 }
        ensures depth { walk_depth result ≡ walk_depth self.entry }
        ensures done { is_done result ≡ is_done self.entry }
        ensures above { above result ≡ above self.entry }
    {
        Walk {
            schema: self.schema,
            index: next_index(self.schema, self.index),
            depth: self.depth,
            done: self.done,
        }
    }

    /// Behind all that has an item in the struct or group that it stands in.
    pub(crate) fn finish(self) -> Walk<'a>
        ensures schema { walk_schema result ≡ walk_schema self.entry }
        ensures depth { walk_depth result ≡ walk_depth self.entry }
        ensures done { is_done result ≡ true }
        ensures above { above result ≡ above self.entry }
    {
        Walk {
            schema: self.schema,
            index: self.index,
            depth: self.depth,
            done: true,
        }
    }

    /// At the first field of the group of a field of the struct or group that it stands in.
    pub(crate) fn enter(self, field: Field<'a>, group: StructSchema<'a>) -> Walk<'a>
        requires set { set_of group ≡ walk_set self }
        requires back { group_field_of (walk_set self) (number_of group) ≡ Some (walk_brand self, index_of field) }
        requires small { walk_depth self + 1 < 2 ^ 64 }
        ensures schema { walk_schema result ≡ group.entry }
        ensures index { walk_index result ≡ 0 }
        ensures depth { walk_depth result ≡ walk_depth self.entry + 1 }
        ensures done { is_done result ≡ false }
        ensures above { above result ≡ (walk_brand self.entry, index_of field.entry + 1) ∷ above self.entry }
    {
        Walk {
            schema: group,
            index: 0,
            depth: self.depth + 1,
            done: false,
        }
    }

    /// Behind the group that it stands in, in the struct or group that this is of; none where it started. Behind a member
    /// nothing is left there.
    pub(crate) fn leave(self) -> Option<Walk<'a>>
        ensures { MatchOption result (above self.entry ≡ []) (IsOutside self.entry) }
    {
        if self.depth == 0 {
            return None;
        }
        let Some(field) = self.schema.get_group_field() else {
            return None;
        };
        let schema = field.get_containing_struct();
        Some(Walk {
            schema,
            index: next_index(schema, field.get_index()),
            depth: self.depth - 1,
            done: field.get_proto().is_member(),
        })
    }
}
