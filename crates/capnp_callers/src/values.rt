//! Dynamic values where a program knows what they hold: the numbers of a list, a number that is set in one, and a text
//! that is written over.
ghost use Rattle.std.specs.Prelude.{◌≡◌, ◌≢◌, IfErr, IfOk, IsErrAnd, None, OnErr, OnOk};
ghost use Rattle.capnp_device.specs.declared.error.ErrorKind.TheVariants.{FieldNotFound, NoSuchElement, OutOfMemory, TypeMismatch};
ghost use Rattle.capnp_arena.specs.Forest.{Changes};
ghost use Rattle.capnp_arena.specs.Segment.{segment};
ghost use Rattle.capnp_builders.specs.Blobs.{IsBuiltText};
ghost use Rattle.capnp_schema.specs.FieldLists.{typed_of};
ghost use Rattle.capnp_schema.specs.Query.{field_named};
ghost use Rattle.capnp_schema.specs.StructHandles.{struct_records};
ghost use Rattle.capnp_schema.specs.declared.schema.fields.Field.{Field};
ghost use Rattle.capnp_records.specs.Given.{given_element};
ghost use Rattle.capnp_slots.specs.ElementSets.{IsElementSet};
ghost use Rattle.capnp_slots.specs.Sources.{IsSetRefusal};
ghost use Rattle.capnp_dynamic.specs.Built.{IsIn, IsListReady, IsReady, built_element, built_elements, built_schema, built_set, built_struct, built_type, list_behind, place_of, struct_behind, word_of};
ghost use Rattle.capnp_dynamic.specs.BuiltValues.{CanBeRead};
ghost use Rattle.capnp_dynamic.specs.Handed.{HandsField};
ghost use Rattle.capnp_dynamic.specs.Names.{IsNamed};
ghost use Rattle.capnp_dynamic.specs.Owners.{IsGotOf};
ghost use Rattle.capnp_dynamic.specs.Taken.{IsKindRefusal};
ghost use Rattle.capnp_dynamic.specs.declared.dynamic_value.build.Builder.TheVariants as built;
ghost use Rattle.capnp_callers.specs.Values.{AreNumbersOf, IsNoNumberOf, hands_text, number_source};
ghost use Rattle.capnp_callers.specs.Steps.Values.{IsNoText};

use capnp_builders::text;
use capnp_dynamic::{dynamic_list, dynamic_struct, dynamic_value};
use capnp_wire::error::{Error, ErrorKind, Result};
use std::alloc::Global;

/// The numbers of a list of `UInt16`s, in their order.
///
/// Refused with `OutOfMemory`, and by the first element that is no number: as its read, and with `TypeMismatch` where
/// it is there and of another type.
pub fn numbers_of(alloc: Global, list: dynamic_list::Reader<'_>) -> Result<Vec<u16>>
    ensures numbers { IfOk result (λ v. AreNumbersOf list.entry v.items) }
    ensures refused { IfErr result (λ e. e.kind ≢ OutOfMemory → IsNoNumberOf list.entry e.kind) }
{
    let mut numbers = Vec::new(alloc);
    for element in list {
        match element? {
            dynamic_value::Reader::UInt16(number) => numbers.push(number)?,
            _ => return Err(Error::type_mismatch()),
        }
    }
    Ok(numbers)
}

/// Sets an element of a list to a number, as `dynamic_list::Builder::set`, where the list has the element.
///
/// Refused with `NoSuchElement` where it has not, and else as that call; then nothing has changed.
///
/// # Conditions
///
/// The list has elements of its type, and stands at its pointer (`IsListReady`).
pub fn set_number(list: &mut dynamic_list::Builder<'_>, index: u32, number: u16) -> Result<()>
    requires { IsListReady list.old }
    ensures ready { IsListReady list.new }
    ensures same { (list_behind list.new).ghost_name ≡ (list_behind list.old).ghost_name }
    ensures element { built_type list.new ≡ built_type list.old }
    ensures lists { built_set list.new ≡ built_set list.old }
    ensures at { word_of list.new ≡ word_of list.old }
    ensures changes { OnOk result (Changes (word_of list.old) (segment (list_behind list.old).now)
        (segment (list_behind list.new).now)) }
    ensures set { OnOk result (IsElementSet (built_set list.old) (built_element list.old) (number_source number) index
        (built_elements list.old) (built_elements list.new)) }
    ensures refused { OnErr result (segment (list_behind list.new).now ≡ segment (list_behind list.old).now) }
    ensures cause { IsIn index list.old → IfErr result (λ e. IsSetRefusal
        (given_element (built_set list.old) (built_element list.old) (number_source number)) e.kind) }
    ensures past { (IsIn index list.old → ⊥) → IsErrAnd result (λ e. e.kind ≡ NoSuchElement) }
{
    if index >= list.len() {
        return Err(Error::from(ErrorKind::NoSuchElement));
    }
    list.set(index, dynamic_value::Reader::from(number))
}

/// The text that a value is. Refused with `TypeMismatch` for every other value.
fn text_of<'a>(part: dynamic_value::Builder<'a>) -> Result<text::Builder<'a>>
    requires { CanBeRead part }
    ensures is { IfOk result (λ b. built.Text b ≡ part.entry) }
    ensures ready { IfOk result IsBuiltText }
    ensures refused { IfErr result (λ e. (e.kind ≡ TypeMismatch) × IsNoText part.entry) }
{
    match part {
        dynamic_value::Builder::Text(text) => Ok(text),
        _ => Err(Error::type_mismatch()),
    }
}

/// The text that the field of a name has, whose bytes can be written over.
///
/// Refused as the `get` of the field of that name, and with `TypeMismatch` exactly where that hands out a value of
/// another kind.
///
/// # Conditions
///
/// The struct has at least its schema's sections, and stands at its place (`IsReady`).
pub fn text_in<'a>(builder: dynamic_struct::Builder<'a>, name: &str) -> Result<text::Builder<'a>>
    requires { IsReady builder }
    ensures stands { (f : Field) → IsNamed (built_schema builder.entry) name.now f
        → IfOk result (λ b. HandsField f (built_struct builder.entry) (built.Text b)) }
    ensures ready { IfOk result IsBuiltText }
    ensures owner { (f : Field) → IsNamed (built_schema builder.entry) name.now f
        → IfOk result (λ b. IsGotOf (struct_behind builder.entry) (place_of builder.entry) f (built.Text b)) }
    ensures cause { (f : Field) → IsNamed (built_schema builder.entry) name.now f
        → IfErr result (IsKindRefusal (hands_text (typed_of f)) f (built_struct builder.entry)) }
    ensures none { field_named (struct_records (built_schema builder.entry)) name.now ≡ None
        → IsErrAnd result (λ e. e.kind ≡ FieldNotFound) }
{
    let part = builder.get_named(name)?;
    text_of(part)
}
