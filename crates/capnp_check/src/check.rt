//! Whether a value's text is refused, by a walk that makes no text and takes no memory. Only a level of the message is gone
//! into by a call: through the groups of a struct goes a loop, which knows its way back out.
ghost use Rattle.std.specs.Prelude.{Bool, None, Some, ◌≡◌, ◌<◌, ◌^◌, length, IfErr, IfOk};
ghost use Rattle.capnp_schema.specs.FieldLists.{IsFieldOf, index_of};
ghost use Rattle.capnp_schema.specs.GroupWalks.{walk_depth, walk_index, walk_schema};
ghost use Rattle.capnp_schema.specs.StructHandles.{set_of};
ghost use Rattle.capnp_dynamic_readers.specs.Handles.{schema_of};
ghost use Rattle.capnp_dynamic_readers.specs.Shown.{printed_text};
ghost use Rattle.capnp_dynamic_readers.specs.Steps.GroupTexts.{IsSlotField};
ghost use Rattle.capnp_dynamic_readers.specs.Steps.PartsRead.{field_in};
ghost use Rattle.capnp_dynamic_readers.specs.Steps.Shown.{field_shown, list_shown, record_shown, root_shown, value_shown};
ghost use Rattle.capnp_check.specs.Refusals.{text_refusal, answer_refusal};
ghost use Rattle.capnp_check.specs.Steps.Walks.{IsCheckStep, IsWalkInside, walk_onward_of};

use crate::parts::{is_field_shown, read_element, read_slot, refusal_at};
use capnp_dynamic_readers::dynamic_value::Reader as Value;
use capnp_dynamic_readers::{dynamic_list, dynamic_struct};
use capnp_schema::schema::{Field, GroupWalk, StructSchema};
use capnp_wire::StructReader;
use capnp_wire::error::{Error, ErrorKind, Result};

/// The levels that a print goes down.
pub(crate) const PRINT_LEVELS: u32 = 64;

/// Whether a value has a text, or with which number its text is refused: as `printer::print` is, but for memory, of
/// which none is taken here.
pub fn check_text(value: Value<'_>) -> Result<()>
    ensures { (indented : Bool) → answer_refusal result ≡ text_refusal (printed_text indented value.entry) }
{
    check_root(value)
}

/// The refusal of a value that stands alone. A group takes no level, here as elsewhere.
#[tactic(auto, using(capnp_dynamic_readers::specs::Facts::Roots::group_root, capnp_dynamic_readers::specs::Facts::Roots::struct_root, capnp_dynamic_readers::specs::Facts::Roots::other_root))]
fn check_root(value: Value<'_>) -> Result<()>
    ensures { answer_refusal result ≡ text_refusal (root_shown None value.entry) }
{
    if let Value::Struct(reader) = value {
        if reader.get_schema().get_proto().body.is_group {
            return check_record(reader, PRINT_LEVELS);
        }
    }
    check_value(value, PRINT_LEVELS)
}

/// The refusal of a value. A struct or list takes a level.
#[cycle(check)]
pub(crate) fn check_value(value: Value<'_>, left: u32) -> Result<()>
    ensures { answer_refusal result ≡ text_refusal (value_shown left None value.entry) }
{
    match value {
        Value::Struct(reader) => {
            if left == 0 {
                return Err(Error::from(ErrorKind::TooDeep));
            }
            check_record(reader, left - 1)
        }
        Value::List(list) => {
            if left == 0 {
                return Err(Error::from(ErrorKind::TooDeep));
            }
            check_list(list, left - 1)
        }
        _ => Ok(()),
    }
}

/// The refusal of a list, whose elements have so many levels.
#[cycle(check)]
pub(crate) fn check_list(list: dynamic_list::Reader<'_>, left: u32) -> Result<()>
    ensures { answer_refusal result ≡ text_refusal (list_shown left None list.entry) }
{
    for i in 0..list.len() {
        match read_element(list, i) {
            Ok(value) => {
                if let Err(error) = check_value(value, left) {
                    return Err(error);
                }
            }
            Err(error) => return Err(refusal_at(list.element_type(), left, error)),
        }
    }
    Ok(())
}

/// The refusal of a struct or group, whose parts have so many levels. A group in it is gone into where it stands, and left
/// by its own field.
#[cycle(check)]
pub(crate) fn check_record(reader: dynamic_struct::Reader<'_>, left: u32) -> Result<()>
    ensures { answer_refusal result ≡ text_refusal (record_shown left None reader.entry) }
{
    let sections = reader.get_sections();
    let mut walk = GroupWalk::start(reader.get_schema());
    loop {
        match walk.get_field() {
            Some(field) => match check_field(sections, walk, field, left) {
                Ok(next) => walk = next,
                Err(error) => return Err(error),
            },
            None => match walk.leave() {
                Some(outer) => walk = outer,
                None => return Ok(()),
            },
        }
    }
}

/// The refusal of the field that a walk stands at, where a text shows it, or the walk past it: of a group at its first
/// field.
#[cycle(check)]
fn check_field<'a>(
    sections: StructReader<'a>,
    walk: GroupWalk<'a>,
    field: Field<'a>,
    left: u32,
) -> Result<GroupWalk<'a>>
    requires field { IsFieldOf (walk_schema walk) (walk_index walk) field }
    requires inside { IsWalkInside walk }
    ensures step { IfOk result (IsCheckStep left sections.entry walk.entry) }
    ensures refused { IfErr result (λ e. walk_onward_of left sections.entry walk.entry ≡ Some e.kind) }
{
    let reader = dynamic_struct::Reader::new(sections, walk.get_schema());
    if !is_field_shown(reader, field) {
        return Ok(walk.advance());
    }
    let Some(group) = field.get_group() else {
        return match check_slot(reader, field, left) {
            Ok(()) => Ok(walk.advance()),
            Err(error) => Err(error),
        };
    };
    // The prover learns from this call that the groups around can be counted.
    let _count = count_brands(walk.get_schema());
    Ok(walk.enter(group))
}

/// The count of a set's brands.
fn count_brands(schema: StructSchema<'_>) -> usize
    ensures count { result ≡ length (set_of schema.entry).brands }
    ensures small { length (set_of schema.entry).brands < 2 ^ 64 }
{
    schema.get_set().brands().len()
}

/// The refusal of what stands under a field that is no group.
#[cycle(check)]
fn check_slot<'a>(reader: dynamic_struct::Reader<'a>, field: Field<'a>, left: u32) -> Result<()>
    requires field { IsFieldOf (schema_of reader) (index_of field) field }
    requires slot { IsSlotField field }
    ensures { answer_refusal result ≡ text_refusal (field_shown left None reader.entry (field_in reader.entry field.entry)) }
{
    match read_slot(reader, field) {
        Ok(value) => check_value(value, left),
        Err(error) => Err(refusal_at(field.get_type(), left, error)),
    }
}
