//! Lists that are edited where they stand.
ghost use Rattle.std.specs.Prelude.{IfErr, IfOk, false, ◌≡◌, ◌≢◌};
ghost use Rattle.capnp_device.specs.declared.error.ErrorKind.TheVariants.{OutOfMemory, TypeMismatch};
ghost use Rattle.capnp_arena.specs.Built.{IsBuilt, built_at};
ghost use Rattle.capnp_arena.specs.Frame.{LeavesStruct};
ghost use Rattle.capnp_arena.specs.Message.{IsMessage, message_tree};
ghost use Rattle.capnp_arena.specs.Segment.{segment};
ghost use Rattle.capnp_schema.specs.StructHandles.{IsStruct, number_of, set_of};
ghost use Rattle.capnp_schema.specs.Types.{seen_type};
ghost use Rattle.capnp_records.specs.Writes.TreeEnds.{TreeStep};
ghost use Rattle.capnp_dynamic_readers.specs.Shown.{type_seen};
ghost use Rattle.capnp_dynamic_readers.specs.declared.dynamic_value.Reader.TheVariants.{List as ListOf};
ghost use Rattle.capnp_slots.specs.Standing.{TakesCalls};
ghost use Rattle.capnp_call.specs.Seen.{call_seen, op_seen, path_seen, reply_seen};
ghost use Rattle.capnp_edit_calls.specs.ChangesSeen.{change_seen};
ghost use Rattle.capnp_edit_calls.specs.EditsMade.{Edits, IsEditRefusal, call_along};
ghost use Rattle.capnp_edit_calls.specs.PathReads.{is_list_type};
ghost use Rattle.capnp_edit_calls.specs.Steps.Lists.{IsFoundAt, IsMadeAt, IsNotFound};

use crate::change::{Change, make_list};
use capnp_arena::arena::{Arena, Place};
use capnp_base::introspect::Type;
use capnp_call::calls::{Call, Ending, Op, Reply, Step};
use capnp_call::walk::walk;
use capnp_dynamic_readers::dynamic_value::Reader as Value;
use capnp_dynamic_readers::{dynamic_list, dynamic_struct};
use capnp_patch::reach::read_path;
use capnp_schema::schema::StructSchema;
use capnp_splices::read::read_list;
use capnp_wire::error::{Error, ErrorKind, Result};
use std::alloc::Global;

/// An edit: the path of a list, and what is done to it.
#[derive(Clone, Copy)]
pub struct ListEdit<'c> {
    pub path: &'c [Step<'c>],
    pub change: Change<'c>,
}

/// A list in a message of its own, and the type of its elements.
#[derive(Drop)]
struct Made {
    list: Arena,
    element: Type,
}

/// A value that is a list.
fn list_in(value: Value<'_>) -> Result<dynamic_list::Reader<'_>>
    ensures list { IfOk result (λ l. value.entry ≡ ListOf l) }
    ensures other { IfErr result (λ e. (e.kind ≡ TypeMismatch) × (is_list_type (type_seen value.entry) ≡ false)) }
{
    match value {
        Value::List(list) => Ok(list),
        _ => Err(Error::from(ErrorKind::TypeMismatch)),
    }
}

/// The list at the end of a path, as a reader of the message sees it.
fn find_list<'a>(
    arena: &'a Arena,
    place: Place,
    schema: StructSchema<'a>,
    path: &[Step<'_>],
) -> Result<dynamic_list::Reader<'a>>
    requires stands { IsStruct schema }
    requires planted { IsBuilt arena.now place }
    ensures there { IfOk result (IsFoundAt schema.entry (built_at arena.now place) (path_seen path.now)) }
    ensures cause { IfErr result (λ e. IsNotFound schema.entry (built_at arena.now place) (path_seen path.now) e.kind) }
{
    let root = dynamic_struct::Reader::new(arena.get_struct_reader(place), schema);
    match read_path(Value::Struct(root), path) {
        Ok(value) => list_in(value),
        Err(error) => Err(error),
    }
}

/// What an edit makes of the list that it names. Nothing is written in the message of the list.
fn make_edited(
    alloc: Global,
    arena: &Arena,
    place: Place,
    schema: StructSchema<'_>,
    edit: &ListEdit<'_>,
) -> Result<Made>
    requires stands { IsStruct schema }
    requires planted { IsBuilt arena.now place }
    ensures message { IfOk result (λ m. IsMessage m.list) }
    ensures made { IfOk result (λ m. IsMadeAt schema.entry (built_at arena.now place) (path_seen edit.now.path.now)
        (change_seen edit.now.change) (seen_type m.element) (message_tree m.list)) }
    ensures cause { IfErr result (λ e. e.kind ≢ OutOfMemory → IsEditRefusal schema.entry (built_at arena.now place)
        (path_seen edit.now.path.now) (change_seen edit.now.change) e.kind) }
{
    let found = find_list(arena, place, schema, edit.path)?;
    let element = found.element_type();
    let list = make_list(
        alloc,
        schema.get_set(),
        &found.get_elements(),
        element,
        edit.change,
    )?;
    Ok(Made { list, element })
}

/// A call that does what the last step of a path names.
fn call_along<'c>(path: &'c [Step<'c>], op: Op<'c>) -> Call<'c>
    ensures { call_seen result ≡ call_along (path_seen path.now) (op_seen op.entry) }
{
    match path.split_last() {
        Some((last, front)) => Call {
            path: front,
            last: *last,
            op,
        },
        None => Call {
            path,
            last: Step::Field(0),
            op,
        },
    }
}

/// Makes a call on what the last step of a path names.
pub(crate) fn make_call(
    alloc: Global,
    arena: &mut Arena,
    place: Place,
    schema: StructSchema<'_>,
    path: &[Step<'_>],
    op: Op<'_>,
) -> Reply
    requires ready { TakesCalls schema arena.old place }
    ensures made { TreeStep (set_of schema.entry) (number_of schema.entry) (built_at arena.old place)
        (call_along (path_seen path.now) (op_seen op.entry)) (reply_seen result) (built_at arena.new place) }
    ensures frame { LeavesStruct place arena.old arena.new }
{
    let call = call_along(path, op);
    walk(
        arena,
        place,
        schema,
        call.path,
        Ending { alloc, call: &call },
    )
}

/// Puts a list that was made in the place of the one that an edit names.
fn set_made(
    alloc: Global,
    arena: &mut Arena,
    place: Place,
    schema: StructSchema<'_>,
    edit: &ListEdit<'_>,
    made: &Made,
) -> Reply
    requires ready { TakesCalls schema arena.old place }
    requires message { IsMessage made.now.list }
    requires made { IsMadeAt schema (built_at arena.old place) (path_seen edit.now.path.now) (change_seen edit.now.change)
        (seen_type made.now.element) (message_tree made.now.list) }
    ensures edits { Edits schema.entry (built_at arena.old place) (path_seen edit.now.path.now)
        (change_seen edit.now.change) (reply_seen result) (built_at arena.new place) (segment arena.old)
        (segment arena.new) }
    ensures frame { LeavesStruct place arena.old arena.new }
{
    match read_list(&made.list) {
        Ok(list) => {
            let list = dynamic_list::Reader::new(list, made.element, schema.get_set());
            make_call(
                alloc,
                arena,
                place,
                schema,
                edit.path,
                Op::Set(Value::List(list)),
            )
        }
        Err(error) => Reply::Refused(error.kind),
    }
}

/// Edits the list that a path names: a list of its elements after the edit is made in a message of its own, and a set puts
/// it in the place of what stands there, as `Op::Set` does. An absent list is its default, or has no elements: an edit of
/// it that is made makes it. A list takes one copy for all values that are appended by one call.
///
/// Refused where the list can't be read, as the first step of `walk_path` that is; with `TypeMismatch` where no list
/// stands at the end of the path; as `make_list`; with `TooDeep` where what is made goes more than 64 levels down; and with
/// `OutOfMemory`. Then nothing is written, and the message is as it was. Once a list is made, the edit is refused as a set
/// of it, and leaves what that leaves: what its steps filled stays filled.
///
/// # Conditions
///
/// The schema is one of an accepted set. A struct of this message stands at the place, with at least the schema's
/// sections (`TakesCalls`).
pub fn edit_list(
    alloc: Global,
    arena: &mut Arena,
    place: Place,
    schema: StructSchema<'_>,
    edit: &ListEdit<'_>,
) -> Reply
    requires ready { TakesCalls schema arena.old place }
    ensures edits { Edits schema.entry (built_at arena.old place) (path_seen edit.now.path.now)
        (change_seen edit.now.change) (reply_seen result) (built_at arena.new place) (segment arena.old)
        (segment arena.new) }
    ensures frame { LeavesStruct place arena.old arena.new }
{
    match make_edited(alloc, arena, place, schema, edit) {
        Ok(made) => set_made(alloc, arena, place, schema, edit, &made),
        Err(error) => Reply::Refused(error.kind),
    }
}
