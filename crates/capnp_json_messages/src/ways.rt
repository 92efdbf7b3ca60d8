//! Where the value of a field or an element goes.
ghost use Rattle.std.specs.Prelude.{◌≡◌};
ghost use Rattle.capnp_schema.specs.Accepted.{NamesEntries};
ghost use Rattle.capnp_schema.specs.Entries.{lists_seen};
ghost use Rattle.capnp_schema.specs.FieldLists.{typed_of};
ghost use Rattle.capnp_schema.specs.Types.{seen_type};
ghost use Rattle.capnp_slots.specs.Fields.{IsSlot};
ghost use Rattle.capnp_json_messages.specs.Ways.{ElementLeads, Leads};

use capnp_base::introspect::{Type, TypeVariant};
use capnp_schema::schema::{Field, StructSchema};
use capnp_schema::set::SchemaSet;
use capnp_slots::group::group_of;

/// Where the value of a field goes.
#[derive(Clone, Copy)]
pub enum Way<'s> {
    /// Into a group of the same struct.
    Group(StructSchema<'s>),
    /// Into the struct behind a pointer.
    Struct(StructSchema<'s>),
    /// Into the list behind a pointer, of elements of a type.
    List(Type),
    /// Into a slot that holds no others.
    Leaf(TypeVariant),
}

/// Where the value of a field goes.
pub fn way_of<'s>(field: Field<'s>) -> Way<'s>
    ensures { Leads field.entry result }
{
    match group_of(field) {
        Some(group) => Way::Group(group),
        None => way_of_slot(field),
    }
}

/// Where the value of a slot goes.
fn way_of_slot<'s>(field: Field<'s>) -> Way<'s>
    requires { IsSlot field }
    ensures { Leads field.entry result }
{
    match field.get_type().which() {
        TypeVariant::Struct(raw) => {
            let schemas = field.get_containing_struct().get_set();
            Way::Struct(StructSchema::new(schemas, raw))
        }
        TypeVariant::List(element) => Way::List(element),
        variant => Way::Leaf(variant),
    }
}

/// Where the value of an element goes.
#[derive(Clone, Copy)]
pub enum ElementWay<'s> {
    /// Into the struct that it is.
    Struct(StructSchema<'s>),
    /// Into the list behind its pointer, of elements of a type.
    List(Type),
    /// Into an element that holds no others.
    Leaf(TypeVariant),
}

/// Where the value of an element of a type goes.
///
/// # Conditions
///
/// The type names entries of the set (`NamesEntries`).
pub fn way_of_element<'s>(schemas: &'s SchemaSet, element: Type) -> ElementWay<'s>
    requires { NamesEntries (lists_seen schemas.now) (seen_type element) }
    ensures { ElementLeads (lists_seen schemas.entry.now) (seen_type element) result }
{
    match element.which() {
        TypeVariant::Struct(raw) => ElementWay::Struct(StructSchema::new(schemas, raw)),
        TypeVariant::List(inner) => ElementWay::List(inner),
        variant => ElementWay::Leaf(variant),
    }
}
