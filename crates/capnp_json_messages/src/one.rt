//! The element of a list of one, as a call is given it.
ghost use Rattle.std.specs.Prelude.{true, ◌-◌, ◌≡◌, IfOk, IsOk};
ghost use Rattle.capnp_wire.specs.Depth.{IsShallow};
ghost use Rattle.capnp_wire.specs.Elements.{or_empty, reads_list};
ghost use Rattle.capnp_wire.specs.Reading.{element_levels, element_pointer};
ghost use Rattle.capnp_wire.specs.Standing.{list_levels, list_of};
ghost use Rattle.capnp_arena.specs.Message.{IsMessage, message_tree};
ghost use Rattle.capnp_schema.specs.Entries.{lists_seen};
ghost use Rattle.capnp_schema.specs.Types.{seen_type};
ghost use Rattle.capnp_records.specs.Record.{MoreValues, NoValues, Value};
ghost use Rattle.capnp_slots.specs.SetValues.{source_of};
ghost use Rattle.capnp_json_messages.specs.Ones.{IsInnerReadable, IsListIfAsked, IsReadable, IsTakenAs, element_source, is_whole};
ghost use Rattle.capnp_json_messages.specs.Put.{IsListOf};

use capnp_arena::arena::Arena;
use capnp_base::introspect::{Type, TypeVariant};
use capnp_dynamic_readers::dynamic_value::Reader as DynamicValue;
use capnp_dynamic_readers::{dynamic_list, dynamic_struct};
use capnp_schema::set::SchemaSet;
use capnp_wire::ListReader;
use capnp_wire::error::Result;
use capnp_wire::size::ElementSize;

/// The list at a message's root as elements of a size, by a reader with 63 levels.
fn read_alone(made: &Arena, size: ElementSize) -> Result<ListReader<'_>>
    requires message { IsMessage made.now }
    requires shallow { IsShallow (message_tree made.now) }
    requires listed { reads_list size (message_tree made.now) ≡ true }
    ensures list { IfOk result (λ l. list_of l ≡ message_tree made.now) }
    ensures levels { IfOk result (λ l. list_levels l ≡ 63) }
    ensures read { IsOk result }
{
    made.get_pointer_reader(0).get_list(size)
}

/// The list that the element of a list of one is; a null is one of nothing.
fn read_inner(list: ListReader<'_>, size: ElementSize) -> Result<ListReader<'_>>
    requires levels { list_levels list ≡ 63 }
    requires listed { reads_list size (or_empty size (element_pointer (list_of list) 0 63)) ≡ true }
    ensures list { IfOk result (λ l. list_of l ≡ or_empty size (element_pointer (list_of list.entry) 0 63)) }
    ensures levels { IfOk result (λ l. list_levels l ≡ element_levels (list_of list.entry) 63 - 1) }
    ensures read { IsOk result }
{
    list.get_pointer_element(0).get_list(size)
}

/// The first element of a list, a struct or a list. Of another type a void.
fn read_first<'a>(
    list: ListReader<'a>,
    schemas: &'a SchemaSet,
    element: Type,
) -> Result<DynamicValue<'a>>
    requires levels { list_levels list ≡ 63 }
    requires readable { IsInnerReadable (seen_type element) (list_of list) }
    ensures source { IfOk result (λ v. source_of v ≡ element_source (seen_type element) (list_of list.entry)) }
    ensures read { IsOk result }
{
    match element.which() {
        TypeVariant::Struct(raw) => {
            let reader = list.get_struct_element(0)?;
            let schema = schemas.struct_schema(raw.number);
            Ok(DynamicValue::Struct(dynamic_struct::Reader::new(reader, schema)))
        }
        TypeVariant::List(inner) => {
            let reader = read_inner(list, inner.expected_element_size())?;
            Ok(DynamicValue::List(dynamic_list::Reader::new(reader, inner, schemas)))
        }
        _ => Ok(DynamicValue::Void),
    }
}

/// The element of a list of one at a message's root: a struct or a list. Of another type a void. A set takes a copy of it
/// that has the list's one value. Nothing is refused.
///
/// # Conditions
///
/// A tree stands at the message's root (`IsMessage`) that goes at most 64 levels down (`IsShallow`), a list of elements of
/// the type, of which a list is read as its own (`IsReadable`).
pub fn get_one<'a>(
    made: &'a Arena,
    schemas: &'a SchemaSet,
    element: Type,
) -> Result<DynamicValue<'a>>
    requires message { IsMessage made.now }
    requires shallow { IsShallow (message_tree made.now) }
    requires readable { IsReadable (seen_type element) (message_tree made.now) }
    ensures source { IfOk result (λ v. source_of v ≡ element_source (seen_type element) (message_tree made.now)) }
    ensures taken { (v : Value) → is_whole (seen_type element) ≡ true → IsListIfAsked (seen_type element) v
        → IsListOf (lists_seen schemas.now) (seen_type element) (message_tree made.now) (MoreValues v NoValues)
        → IfOk result (λ r. IsTakenAs (lists_seen schemas.now) (seen_type element) (source_of r) v) }
    ensures read { IsOk result }
{
    made.tree_is_sound(0);
    let list = read_alone(made, element.expected_element_size())?;
    read_first(list, schemas, element)
}
