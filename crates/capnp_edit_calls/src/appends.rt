//! Many values at once, as a list and behind the last element of one.
ghost use Rattle.std.specs.Prelude.{IfErr, IfOk, ◌≢◌};
ghost use Rattle.capnp_device.specs.declared.error.ErrorKind.TheVariants.{OutOfMemory};
ghost use Rattle.capnp_wire.specs.Standing.{list_of};
ghost use Rattle.capnp_arena.specs.Message.{IsMessage, message_tree};
ghost use Rattle.capnp_schema.specs.Entries.{lists_seen};
ghost use Rattle.capnp_schema.specs.Types.{seen_type};
ghost use Rattle.capnp_edits.specs.Changes.{Append, AreListed, AreRefused, IsChangeRefusal, IsChanged};
ghost use Rattle.capnp_edit_calls.specs.ChangesSeen.{sources_of};
ghost use Rattle.capnp_edit_calls.specs.Steps.Joins.{IsJoinRefusal, IsJoined, IsMadeJoinRefusal};

use capnp_arena::arena::Arena;
use capnp_base::introspect::Type;
use capnp_dynamic_readers::dynamic_value::Reader as Value;
use capnp_edits::added::{find_size, list_one, new_elements};
use capnp_schema::set::SchemaSet;
use capnp_splices::pick::Splice;
use capnp_splices::read::read_list;
use capnp_splices::splice::splice_lists;
use capnp_wire::ListReader;
use capnp_wire::error::Result;
use capnp_wire::laws::list_is_well_formed;
use std::alloc::Global;

/// The elements of a list in a message of its own behind those of another.
fn join_lists(
    alloc: Global,
    schemas: &SchemaSet,
    element: Type,
    old: &ListReader<'_>,
    made: &Arena,
) -> Result<Arena>
    requires { IsMessage made.now }
    ensures message { IfOk result IsMessage }
    ensures joined { IfOk result (λ m. IsJoined (lists_seen schemas.now) (seen_type element) (list_of old.now)
        (message_tree made.now) (message_tree m)) }
    ensures cause { IfErr result (λ e. e.kind ≢ OutOfMemory → IsJoinRefusal (lists_seen schemas.now)
        (seen_type element) (list_of old.now) (message_tree made.now) e.kind) }
{
    let added = read_list(made)?;
    made.tree_is_sound(0);
    list_is_well_formed(old);
    let splice = Splice {
        old: *old,
        added,
        at: old.len(),
        removed: 0,
    };
    splice_lists(
        alloc,
        splice,
        element.expected_element_size(),
        find_size(schemas, element),
    )
}

/// The lists of two messages one after another.
fn join_made(
    alloc: Global,
    schemas: &SchemaSet,
    element: Type,
    first: &Arena,
    second: &Arena,
) -> Result<Arena>
    requires first { IsMessage first.now }
    requires second { IsMessage second.now }
    ensures message { IfOk result IsMessage }
    ensures joined { IfOk result (λ m. IsJoined (lists_seen schemas.now) (seen_type element) (message_tree first.now)
        (message_tree second.now) (message_tree m)) }
    ensures cause { IfErr result (λ e. e.kind ≢ OutOfMemory → IsMadeJoinRefusal (lists_seen schemas.now)
        (seen_type element) (message_tree first.now) (message_tree second.now) e.kind) }
{
    let old = read_list(first)?;
    join_lists(alloc, schemas, element, &old, second)
}

/// A message whose root is a list of these values, a copy of each, as `list_one` has it. Lists of one are joined two by
/// two, so a value is copied once for each doubling of the list.
///
/// Refused as `list_one`, by the first value that is; with `TooDeep` where values go more than 64 levels down; with
/// `SizePastFormat` for 2^29 elements or more, or structs that would take 2^29 words or more; and with `OutOfMemory`.
pub fn list_all(
    alloc: Global,
    schemas: &SchemaSet,
    element: Type,
    values: &[Value<'_>],
) -> Result<Arena>
    ensures message { IfOk result IsMessage }
    ensures listed { IfOk result (λ m. AreListed (lists_seen schemas.now) (seen_type element) (sources_of values.now)
        (message_tree m)) }
    ensures cause { IfErr result (λ e. e.kind ≢ OutOfMemory → AreRefused (lists_seen schemas.now)
        (seen_type element) (sources_of values.now) e.kind) }
{
    if values.len() == 0 {
        return new_elements(alloc, schemas, element, 0);
    }
    if values.len() == 1 {
        return list_one(alloc, schemas, element, values[0]);
    }
    let (front, back) = values.split_at(values.len() / 2);
    let first = list_all(alloc, schemas, element, front)?;
    let second = list_all(alloc, schemas, element, back)?;
    join_made(alloc, schemas, element, &first, &second)
}

/// A message whose root is a list with a copy of each of these values behind the last element. The list and the values are
/// spliced once.
///
/// Refused as `list_all`; and as `change_list` for what stays of the list.
pub fn append_all(
    alloc: Global,
    schemas: &SchemaSet,
    list: &ListReader<'_>,
    element: Type,
    values: &[Value<'_>],
) -> Result<Arena>
    ensures message { IfOk result IsMessage }
    ensures changed { IfOk result (λ m. IsChanged (lists_seen schemas.now) (seen_type element) (list_of list.now)
        (Append (sources_of values.now)) (message_tree m)) }
    ensures cause { IfErr result (λ e. e.kind ≢ OutOfMemory → IsChangeRefusal (lists_seen schemas.now)
        (seen_type element) (list_of list.now) (Append (sources_of values.now)) e.kind) }
{
    let made = list_all(alloc, schemas, element, values)?;
    join_lists(alloc, schemas, element, list, &made)
}
