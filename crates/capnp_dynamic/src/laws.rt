//! What the calls of readers answer after those of builders. The premises of the laws are the builders' clauses, so
//! that these and a law together say what a reader of the struct answers, with any number of levels left.
ghost use Rattle.capnp_dynamic.specs.ReadBack.{BuilderClearIsActive, BuilderClearIsGot, BuilderGroupStarts, BuilderOtherIsGot, BuilderOtherIsThere, BuilderSetIsActive, SetIsGot};

use crate::dynamic_value;
use capnp_schema::schema::Field;
use capnp_slots::laws::{groups_are_started, others_are_read, sets_are_read, starts_are_read};
use capnp_slots::source::Source;

/// After a set of a slot of a kind, which Void and untyped pointers have none of, to a number, a truth value, an enum,
/// a text or data, `get` gives this value; an enum's under the field's own enum. A member that was set is the active
/// one.
pub fn sets_are_got(field: Field<'_>, value: dynamic_value::Reader<'_>)
    ensures value { SetIsGot field.entry value.entry }
    ensures active { BuilderSetIsActive field.entry value.entry }
{
    sets_are_read(field, Source::from(value));
    groups_are_started(field);
}

/// After a clear of a slot `get` gives its default; and a member that was cleared is the active one.
pub fn clears_are_got(field: Field<'_>)
    ensures default { BuilderClearIsGot field.entry }
    ensures active { BuilderClearIsActive field.entry }
{
    starts_are_read(field);
    groups_are_started(field);
}

/// A group that `init` hands out has its member of discriminant value 0 active, where it has one.
pub fn inits_are_got(field: Field<'_>)
    ensures { BuilderGroupStarts field.entry }
{
    groups_are_started(field);
}

/// A write of a field changes neither what `get` gives of another one of the struct nor what `has` does, unless both
/// are members.
pub fn others_are_got(field: Field<'_>, other: Field<'_>)
    ensures value { BuilderOtherIsGot field.entry other.entry }
    ensures there { BuilderOtherIsThere field.entry other.entry }
{
    others_are_read(field, other);
}
