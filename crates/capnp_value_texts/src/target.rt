//! Where the parts of a value go.
ghost use Rattle.std.specs.Prelude.{[], ℕ, ◌≡◌, ◌++◌, ◌∷◌, false, IfErr, IfOk, Ok, length};
ghost use Rattle.capnp_schema.specs.Entries.{lists_seen};
ghost use Rattle.capnp_schema.specs.FieldLists.{IsFound, index_of, typed_of};
ghost use Rattle.capnp_schema.specs.Query.{field_named};
ghost use Rattle.capnp_schema.specs.StructHandles.{number_of, set_of, struct_records};
ghost use Rattle.capnp_value_texts.specs.Calls.{field_given, field_target as field_target_said, is_given, mark_of, named_target, target_of};
ghost use Rattle.capnp_value_texts.specs.Errors.{IsErrorOf};
ghost use Rattle.capnp_value_texts.specs.Steps.Targets.{holder_set, holder_seen};
ghost use Rattle.capnp_value_texts.specs.TargetsSeen.{target_seen};

use crate::error::{Error, RefusalKind, refused};
use crate::parts::Name;
use capnp_base::introspect::Type;
use capnp_call::calls::Step;
use capnp_json_fields::fields::is_float;
use capnp_schema::schema::{Field, StructSchema};
use capnp_schema::set::SchemaSet;

/// Where a value goes.
#[derive(Clone, Copy)]
pub struct Target<'s> {
    /// The step that leads there.
    pub step: Step<'s>,
    /// The type of what stands there.
    pub of: Type,
    /// Whether its numbers are floats by their bits.
    pub floats: bool,
    /// Whether a struct stands there already, as in each element of a new list.
    pub stands: bool,
}

/// What parts are of.
#[derive(Clone, Copy)]
pub(crate) enum Holder<'s> {
    /// A struct or group.
    Struct(StructSchema<'s>),
    /// A list of elements of a type, whose numbers are floats or not.
    List(&'s SchemaSet, Type, bool),
}

/// The target of a field's value: a slot or group that nothing was put into.
pub fn field_target<'s>(field: Field<'s>) -> Target<'s>
    ensures { target_seen result ≡ field_target_said (typed_of field.entry) (index_of field.entry) }
{
    Target {
        step: Step::Field(field.get_index()),
        of: field.get_type(),
        floats: is_float(field),
        stands: false,
    }
}

/// What is given by a field: the field by its index, or the union by any of its members.
fn mark_of(field: Field<'_>) -> u32
    ensures { result ≡ mark_of (typed_of field.entry) (index_of field.entry) }
{
    if field.get_proto().is_member() {
        65536
    } else {
        u32::from(field.get_index())
    }
}

/// Whether something is among what is given.
fn is_given(mark: u32, given: &[u32]) -> bool
    ensures { result ≡ is_given mark given.now }
{
    let mut rest = given;
    'marks: while let [first, more @ ..] = rest {
        if mark == *first {
            return true;
        }
        rest = more;
    }
    false
}

/// The field of a struct or group that has a name, which is a text: what is no UTF-8 is the name of none.
#[tactic(auto, using(crate::proofs::Named::none_named))]
fn find_named<'s>(schema: StructSchema<'s>, name: &[u8]) -> Option<Field<'s>>
    ensures { IsFound schema.entry (field_named (struct_records schema.entry) name.now) result }
{
    let Ok(name) = std::str::from_utf8(name) else {
        return None;
    };
    let Ok(found) = schema.find_field_by_name(name) else {
        unreachable!()
    };
    found
}

/// The target of a field at a name's place, which is given from then on.
fn give_field<'s>(field: Field<'s>, place: usize, given: &mut Vec<u32>) -> Result<Target<'s>, Error>
    ensures read { IfOk result (λ t. field_given place given.old.items (typed_of field.entry) (index_of field.entry)
        ≡ Ok (target_seen t, given.new.items)) }
    ensures refused { IfErr result (IsErrorOf (field_given place given.old.items (typed_of field.entry) (index_of field.entry))) }
{
    let mark = mark_of(field);
    if is_given(mark, given) {
        return Err(refused(RefusalKind::GivenTwice, place));
    }
    if given.push(mark).is_err() {
        return Err(Error::OutOfMemory);
    }
    Ok(field_target(field))
}

/// The target of a field by its name, which is given from then on.
fn named_target<'s>(
    schema: StructSchema<'s>,
    name: &Name<'_>,
    given: &mut Vec<u32>,
) -> Result<Target<'s>, Error>
    ensures read { IfOk result (λ t. named_target (set_of schema.entry) (number_of schema.entry) name.now.place given.old.items
        (field_named (struct_records schema.entry) name.now.bytes.now) ≡ Ok (target_seen t, given.new.items)) }
    ensures refused { IfErr result (IsErrorOf (named_target (set_of schema.entry) (number_of schema.entry) name.now.place
        given.old.items (field_named (struct_records schema.entry) name.now.bytes.now))) }
{
    match find_named(schema, name.bytes) {
        Some(field) => give_field(field, name.place, given),
        None => Err(refused(RefusalKind::NameUnknown, name.place)),
    }
}

/// The target of a part of an index, with what is given from then on.
pub(crate) fn target_of<'s>(
    holder: Holder<'s>,
    index: u32,
    name: &Name<'_>,
    given: &mut Vec<u32>,
) -> Result<Target<'s>, Error>
    ensures read { IfOk result (λ t. target_of (holder_set holder.entry) (holder_seen holder.entry) index name.now.place name.now.bytes.now
        given.old.items ≡ Ok (target_seen t, given.new.items)) }
    ensures refused { IfErr result (IsErrorOf (target_of (holder_set holder.entry) (holder_seen holder.entry) index name.now.place
        name.now.bytes.now given.old.items)) }
{
    match holder {
        Holder::Struct(schema) => named_target(schema, name, given),
        Holder::List(_schemas, element, floats) => Ok(Target {
            step: Step::Element(index),
            of: element,
            floats,
            stands: true,
        }),
    }
}

/// The set of what parts are of.
pub(crate) fn schemas_of<'s>(holder: Holder<'s>) -> &'s SchemaSet
    ensures { lists_seen result.now ≡ holder_set holder.entry }
{
    match holder {
        Holder::Struct(schema) => schema.get_set(),
        Holder::List(schemas, _element, _floats) => schemas,
    }
}
