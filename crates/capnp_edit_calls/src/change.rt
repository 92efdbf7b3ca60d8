//! What is done to a list.
ghost use Rattle.std.specs.Prelude.{IfErr, IfOk, ◌≢◌};
ghost use Rattle.capnp_device.specs.declared.error.ErrorKind.TheVariants.{OutOfMemory};
ghost use Rattle.capnp_wire.specs.Standing.{list_of};
ghost use Rattle.capnp_arena.specs.Message.{IsMessage, message_tree};
ghost use Rattle.capnp_schema.specs.Entries.{lists_seen};
ghost use Rattle.capnp_schema.specs.Types.{seen_type};
ghost use Rattle.capnp_edits.specs.Changes.{IsChangeRefusal, IsChanged};
ghost use Rattle.capnp_edit_calls.specs.ChangesSeen.{change_seen};

use crate::appends::append_all;
use capnp_arena::arena::Arena;
use capnp_base::introspect::Type;
use capnp_dynamic_readers::dynamic_value::Reader as Value;
use capnp_edits::edit::{Edit, change_list};
use capnp_schema::set::SchemaSet;
use capnp_wire::ListReader;
use capnp_wire::error::Result;
use std::alloc::Global;

/// What is done to a list.
#[derive(Clone, Copy)]
pub enum Change<'c> {
    /// Puts values behind the last element, in their order.
    Append(&'c [Value<'c>]),
    /// Puts a value in front of the element of an index, or behind the last where the index is the length.
    Insert(u32, Value<'c>),
    /// Takes the element of an index out.
    Remove(u32),
    /// Keeps the first so many elements, with new ones behind them where there are fewer.
    Resize(u32),
}

/// What a change makes of a list: a message of its own, whose root is the list, as `append_all` and `change_list` make it,
/// and refused as these.
pub fn make_list(
    alloc: Global,
    schemas: &SchemaSet,
    list: &ListReader<'_>,
    element: Type,
    change: Change<'_>,
) -> Result<Arena>
    ensures message { IfOk result IsMessage }
    ensures changed { IfOk result (λ m. IsChanged (lists_seen schemas.now) (seen_type element) (list_of list.now)
        (change_seen change.entry) (message_tree m)) }
    ensures cause { IfErr result (λ e. e.kind ≢ OutOfMemory → IsChangeRefusal (lists_seen schemas.now)
        (seen_type element) (list_of list.now) (change_seen change.entry) e.kind) }
{
    match change {
        Change::Append(values) => append_all(alloc, schemas, list, element, values),
        Change::Insert(index, value) => change_list(
            alloc,
            schemas,
            list,
            element,
            Edit::Insert(index, value),
        ),
        Change::Remove(index) => change_list(alloc, schemas, list, element, Edit::Remove(index)),
        Change::Resize(count) => change_list(alloc, schemas, list, element, Edit::Resize(count)),
    }
}
