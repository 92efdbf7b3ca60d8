//! What stands at a path of a struct that is read.
ghost use Rattle.std.specs.Prelude.{◌≡◌, IfErr, IfOk, Ok, get_or};
ghost use Rattle.capnp_schema.specs.Accepted.{NamesEntries};
ghost use Rattle.capnp_schema.specs.Schema.{Schemas};
ghost use Rattle.capnp_schema.specs.StructHandles.{set_of};
ghost use Rattle.capnp_schema.specs.Types.{seen_type};
ghost use Rattle.capnp_records.specs.Step.{StepTarget};
ghost use Rattle.capnp_call.specs.Seen.{path_seen, step_seen};
ghost use Rattle.capnp_dynamic_readers.specs.Handles.{element_of, list_set, schema_of};
ghost use Rattle.capnp_dynamic_readers.specs.Shown.{type_seen};
ghost use Rattle.capnp_dynamic_readers.specs.Typed.{IsOf};
ghost use Rattle.capnp_dynamic_readers.specs.declared.dynamic_value.Reader.TheVariants.{List as ListOf, Struct as StructOf};
ghost use Rattle.capnp_patch.specs.Gets.{value_part_seen, path_read, seen_read, step_read, tested_type};
ghost use Rattle.capnp_patch.specs.Places.{IsRefusedStep, IsWithin, seen_walk};
ghost use Rattle.capnp_patch.specs.Steps.Reaching.{test_found};

use capnp_base::introspect::{Type, TypeVariant};
use capnp_call::calls::Step;
use capnp_call::way::find_field;
use capnp_dynamic_readers::dynamic_value::Reader as Value;
use capnp_dynamic_readers::{dynamic_list, dynamic_struct};
use capnp_schema::schema::StructSchema;
use capnp_wire::error::{Error, ErrorKind, Result};

/// Whether a step may lead to what is of this type: every last step may, and another one to a struct, group or list.
fn test_type(element: Type, is_last: bool) -> Result<()>
    ensures { (x : StepTarget) → test_found x result ≡ tested_type is_last x (seen_type element) }
{
    if is_last {
        return Ok(());
    }
    match element.which() {
        TypeVariant::Struct(_) | TypeVariant::List(_) => Ok(()),
        TypeVariant::AnyPointer => Err(Error::from(ErrorKind::UntypedStep)),
        _ => Err(Error::from(ErrorKind::NotAContainer)),
    }
}

/// What the field has that a step names.
fn read_field<'a>(
    reader: dynamic_struct::Reader<'a>,
    step: Step<'_>,
    is_last: bool,
) -> Result<Value<'a>>
    ensures read { seen_read result ≡ step_read (set_of (schema_of reader.entry)) is_last
        (value_part_seen (StructOf reader.entry)) (step_seen step.entry) }
    ensures typed { IfOk result (λ v. IsOf (set_of (schema_of reader.entry)) (type_seen v) v) }
{
    let field = find_field(reader.get_schema(), step)?;
    if !reader.is_active(field) {
        return Err(Error::from(ErrorKind::InactiveMember));
    }
    test_type(field.get_type(), is_last)?;
    reader.get(field)
}

/// The element that a step names.
fn read_element<'a>(
    reader: dynamic_list::Reader<'a>,
    step: Step<'_>,
    is_last: bool,
) -> Result<Value<'a>>
    ensures read { NamesEntries (list_set reader.entry) (element_of reader.entry)
        → seen_read result ≡ step_read (list_set reader.entry) is_last (value_part_seen (ListOf reader.entry))
        (step_seen step.entry) }
    ensures typed { NamesEntries (list_set reader.entry) (element_of reader.entry)
        → IfOk result (λ v. IsOf (list_set reader.entry) (type_seen v) v) }
{
    let Step::Element(index) = step else {
        return Err(Error::from(ErrorKind::NotAContainer));
    };
    if index >= reader.len() {
        return Err(Error::from(ErrorKind::NoSuchElement));
    }
    test_type(reader.element_type(), is_last)?;
    reader.get(index)
}

/// What a step leads to from a value, as a step of `walk_path` does; `is_last` says that no other step follows.
pub fn read_step<'a>(value: Value<'a>, step: Step<'_>, is_last: bool) -> Result<Value<'a>>
    ensures read { (schemas : Schemas) → IsOf schemas (type_seen value.entry) value.entry
        → seen_read result ≡ step_read schemas is_last (value_part_seen value.entry) (step_seen step.entry) }
    ensures typed { (schemas : Schemas) → IsOf schemas (type_seen value.entry) value.entry
        → IfOk result (λ v. IsOf schemas (type_seen v) v) }
{
    match value {
        Value::Struct(reader) => read_field(reader, step, is_last),
        Value::List(reader) => read_element(reader, step, is_last),
        _ => Err(Error::from(ErrorKind::NotAContainer)),
    }
}

/// A step of a path that is refused.
#[derive(Clone, Copy)]
pub struct RefusedStep<'a> {
    /// Why it is refused.
    pub error: Error,
    /// Its index in the path.
    pub index: usize,
    /// The schema of the struct or group that it is done at, if it is one.
    pub within: Option<StructSchema<'a>>,
}

/// The step of an index; the field 0 where there is none.
fn step_at<'a>(path: &[Step<'a>], index: usize) -> Step<'a>
    ensures { result ≡ get_or path.now index (Step.Field 0) }
{
    match path.get(index) {
        Some(step) => *step,
        None => Step::Field(0),
    }
}

/// The schema of a struct or group; none of what is neither.
pub fn get_within<'a>(value: Value<'a>) -> Option<StructSchema<'a>>
    ensures { (schemas : Schemas) → IsOf schemas (type_seen value.entry) value.entry
        → IsWithin schemas result (type_seen value.entry) }
{
    match value {
        Value::Struct(reader) => Some(reader.get_schema()),
        _ => None,
    }
}

/// What a path leads to from a value, or the first step that is refused. Steps go into structs, groups and the elements of
/// lists, each with its default in the place of a null; what the path doesn't touch isn't looked at, and nothing is
/// copied.
///
/// A step is refused with `NotAContainer` for a field of what is no struct or group, or an element of what is no list, with
/// `FieldNotFound` or `NoSuchElement`, with `InactiveMember` for a member that isn't active, with `UntypedStep` or
/// `NotAContainer` where steps follow and it leads to no struct, group or list, and as the read of what stands there.
pub fn walk_path<'a>(
    value: Value<'a>,
    path: &[Step<'_>],
) -> std::result::Result<Value<'a>, RefusedStep<'a>>
    ensures read { (schemas : Schemas) → IsOf schemas (type_seen value.entry) value.entry
        → seen_walk result ≡ path_read schemas (path_seen path.now) (Ok (value_part_seen value.entry)) }
    ensures step { (schemas : Schemas) → IsOf schemas (type_seen value.entry) value.entry
        → IfErr result (λ r. IsRefusedStep schemas (path_seen path.now) (value_part_seen value.entry) r.index
        r.error.kind r.within) }
    ensures typed { (schemas : Schemas) → IsOf schemas (type_seen value.entry) value.entry
        → IfOk result (λ v. IsOf schemas (type_seen v) v) }
{
    let mut reached = value;
    let mut left = path.len();
    for index in 0..path.len() {
        left -= 1;
        match read_step(reached, step_at(path, index), left == 0) {
            Ok(next) => reached = next,
            Err(error) => {
                return Err(RefusedStep {
                    error,
                    index,
                    within: get_within(reached),
                });
            }
        }
    }
    Ok(reached)
}

/// What a path leads to from a value. Refused as its first step that is, of `walk_path`.
pub fn read_path<'a>(value: Value<'a>, path: &[Step<'_>]) -> Result<Value<'a>>
    ensures read { (schemas : Schemas) → IsOf schemas (type_seen value.entry) value.entry
        → seen_read result ≡ path_read schemas (path_seen path.now) (Ok (value_part_seen value.entry)) }
    ensures typed { (schemas : Schemas) → IsOf schemas (type_seen value.entry) value.entry
        → IfOk result (λ v. IsOf schemas (type_seen v) v) }
{
    match walk_path(value, path) {
        Ok(reached) => Ok(reached),
        Err(refused) => Err(refused.error),
    }
}
