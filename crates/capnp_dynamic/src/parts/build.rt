//! Parts of structs and lists that are built, taken one after another. A struct has to have its schema's sections and
//! stand at its place (`IsReady`), a list to be ready (`IsListReady`); so is then what is handed out.
//!
//! A part is handed out by value, so these contracts say what it stands on at the return, as those of `get` do.
ghost use Rattle.std.specs.Prelude.{None, true, IfErr, IfOk, IsErrAnd, IsOk, ◌≡◌, ◌≤◌};
ghost use Rattle.capnp_device.specs.declared.error.ErrorKind.TheVariants.{FieldNotFound, NoSuchElement, TypeMismatch};
ghost use Rattle.capnp_wire.specs.Reading.{list_length};
ghost use Rattle.capnp_schema.specs.FieldLists.{typed_of};
ghost use Rattle.capnp_schema.specs.Query.{field_named};
ghost use Rattle.capnp_schema.specs.StructHandles.{struct_records};
ghost use Rattle.capnp_schema.specs.declared.schema.fields.Field.{Field};
ghost use Rattle.capnp_slots.specs.Fills.{RestsIn};
ghost use Rattle.capnp_dynamic.specs.Built.{IsIn, IsListReady, IsReady, built_element, built_elements, built_schema, built_struct, place_of, struct_behind};
ghost use Rattle.capnp_dynamic.specs.BuiltValues.{CanBeRead};
ghost use Rattle.capnp_dynamic.specs.Names.{IsNamed};
ghost use Rattle.capnp_dynamic.specs.Handed.{HandsElement, HandsField, RestsAt};
ghost use Rattle.capnp_dynamic.specs.Owners.{IsElementGot, IsGotOf};
ghost use Rattle.capnp_dynamic.specs.Taken.{IsListElementRefusal, IsListPartRefusal, IsStructElementRefusal, IsStructPartRefusal, hands_list, hands_struct, is_list_type};
ghost use Rattle.capnp_dynamic.specs.Steps.Taken.{IsNoList, IsNoStruct};
ghost use Rattle.capnp_dynamic.specs.declared.dynamic_value.build.Builder.TheVariants as built;

use crate::dynamic_value::Builder as Value;
use crate::{dynamic_list, dynamic_struct};
use capnp_wire::error::{Error, ErrorKind, Result};

/// The struct that a value is. Refused with `TypeMismatch` for every other value.
fn struct_of<'a>(part: Value<'a>) -> Result<dynamic_struct::Builder<'a>>
    requires { CanBeRead part }
    ensures is { IfOk result (λ s. built.Struct s ≡ part.entry) }
    ensures ready { IfOk result IsReady }
    ensures refused { IfErr result (λ e. (e.kind ≡ TypeMismatch) × IsNoStruct part.entry) }
{
    match part {
        Value::Struct(inner) => Ok(inner),
        _ => Err(Error::type_mismatch()),
    }
}

/// The list that a value is. Refused with `TypeMismatch` for every other value.
fn list_of<'a>(part: Value<'a>) -> Result<dynamic_list::Builder<'a>>
    requires { CanBeRead part }
    ensures is { IfOk result (λ l. built.List l ≡ part.entry) }
    ensures ready { IfOk result IsListReady }
    ensures refused { IfErr result (λ e. (e.kind ≡ TypeMismatch) × IsNoList part.entry) }
{
    match part {
        Value::List(list) => Ok(list),
        _ => Err(Error::type_mismatch()),
    }
}

/// The struct or group that the field of a name has. Refused as the `get` of the field of that name, and with
/// `TypeMismatch` exactly where that hands out a value of another kind.
///
/// # Conditions
///
/// The struct has at least its schema's sections, and stands at its place (`IsReady`).
pub fn struct_in<'a>(
    builder: dynamic_struct::Builder<'a>,
    name: &str,
) -> Result<dynamic_struct::Builder<'a>>
    requires { IsReady builder }
    ensures stands { (f : Field) → IsNamed (built_schema builder.entry) name.now f
        → IfOk result (λ s. HandsField f (built_struct builder.entry) (built.Struct s)) }
    ensures ready { IfOk result IsReady }
    ensures owner { (f : Field) → IsNamed (built_schema builder.entry) name.now f
        → IfOk result (λ s. IsGotOf (struct_behind builder.entry) (place_of builder.entry) f (built.Struct s)) }
    ensures cause { (f : Field) → IsNamed (built_schema builder.entry) name.now f
        → IfErr result (IsStructPartRefusal f (built_struct builder.entry)) }
    ensures rests { (f : Field) → IsNamed (built_schema builder.entry) name.now f
        → RestsIn f (built_struct builder.entry)
        → hands_struct (typed_of f) ≡ true → IsOk result }
    ensures none { field_named (struct_records (built_schema builder.entry)) name.now ≡ None
        → IsErrAnd result (λ e. e.kind ≡ FieldNotFound) }
{
    let part = builder.get_named(name)?;
    struct_of(part)
}

/// The list that the field of a name has. Refused as the `get` of the field of that name, and with `TypeMismatch`
/// exactly where that hands out a value of another kind.
///
/// # Conditions
///
/// The struct has at least its schema's sections, and stands at its place (`IsReady`).
pub fn list_in<'a>(
    builder: dynamic_struct::Builder<'a>,
    name: &str,
) -> Result<dynamic_list::Builder<'a>>
    requires { IsReady builder }
    ensures stands { (f : Field) → IsNamed (built_schema builder.entry) name.now f
        → IfOk result (λ l. HandsField f (built_struct builder.entry) (built.List l)) }
    ensures ready { IfOk result IsListReady }
    ensures owner { (f : Field) → IsNamed (built_schema builder.entry) name.now f
        → IfOk result (λ l. IsGotOf (struct_behind builder.entry) (place_of builder.entry) f (built.List l)) }
    ensures cause { (f : Field) → IsNamed (built_schema builder.entry) name.now f
        → IfErr result (IsListPartRefusal f (built_struct builder.entry)) }
    ensures rests { (f : Field) → IsNamed (built_schema builder.entry) name.now f
        → RestsIn f (built_struct builder.entry)
        → hands_list (typed_of f) ≡ true → IsOk result }
    ensures none { field_named (struct_records (built_schema builder.entry)) name.now ≡ None
        → IsErrAnd result (λ e. e.kind ≡ FieldNotFound) }
{
    let list = builder.get_named(name)?;
    list_of(list)
}

/// The struct that a list has at an index. Refused with `NoSuchElement` exactly past the end, then as the `get` of the
/// element, and with `TypeMismatch` exactly where that hands out a value of another kind.
///
/// # Conditions
///
/// The list has elements of its type, and stands at its pointer (`IsListReady`).
pub fn struct_at<'a>(
    list: dynamic_list::Builder<'a>,
    index: u32,
) -> Result<dynamic_struct::Builder<'a>>
    requires { IsListReady list }
    ensures stands { IfOk result (λ s. HandsElement list.entry index (built.Struct s)) }
    ensures ready { IfOk result IsReady }
    ensures owner { IfOk result (λ s. IsElementGot list.entry index (built.Struct s)) }
    ensures cause { IsIn index list.entry → IfErr result (IsStructElementRefusal list.entry index) }
    ensures past { list_length (built_elements list.entry) ≤ index → IsErrAnd result (λ e. e.kind ≡ NoSuchElement) }
{
    if index >= list.len() {
        return Err(Error::from(ErrorKind::NoSuchElement));
    }
    let part = list.get(index)?;
    struct_of(part)
}

/// The list that a list has at an index. Refused with `NoSuchElement` exactly past the end, then as the `get` of the
/// element, and with `TypeMismatch` exactly where that hands out a value of another kind.
///
/// # Conditions
///
/// The list has elements of its type, and stands at its pointer (`IsListReady`).
pub fn list_at<'a>(list: dynamic_list::Builder<'a>, index: u32) -> Result<dynamic_list::Builder<'a>>
    requires { IsListReady list }
    ensures stands { IfOk result (λ l. HandsElement list.entry index (built.List l)) }
    ensures ready { IfOk result IsListReady }
    ensures owner { IfOk result (λ l. IsElementGot list.entry index (built.List l)) }
    ensures cause { IsIn index list.entry → IfErr result (IsListElementRefusal list.entry index) }
    ensures rests { IsIn index list.entry → RestsAt list.entry index → is_list_type (built_element list.entry) ≡ true
        → IsOk result }
    ensures past { list_length (built_elements list.entry) ≤ index → IsErrAnd result (λ e. e.kind ≡ NoSuchElement) }
{
    if index >= list.len() {
        return Err(Error::from(ErrorKind::NoSuchElement));
    }
    let part = list.get(index)?;
    list_of(part)
}
