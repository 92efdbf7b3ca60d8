//! What a call does at the end of its path, at a list.
ghost use Rattle.capnp_arena.specs.Frame.{LeavesPointer};
ghost use Rattle.capnp_arena.specs.Forest.{Forest, tree};
ghost use Rattle.capnp_arena.specs.Segment.{segment};
ghost use Rattle.std.specs.Prelude.{◌≡◌, ◌≢◌, ◌<◌, false};
ghost use Rattle.capnp_wire.specs.Reading.{is_null_tree, list_length};
ghost use Rattle.capnp_schema.specs.Accepted.{NamesEntries};
ghost use Rattle.capnp_schema.specs.Entries.{lists_seen};
ghost use Rattle.capnp_schema.specs.Types.{seen_type};
ghost use Rattle.capnp_records.specs.Call.{Get};
ghost use Rattle.capnp_records.specs.Operation.{Does};
ghost use Rattle.capnp_records.specs.Record.{Value as RecordValue};
ghost use Rattle.capnp_call.specs.Lists.{IsListStand, ListEnds};
ghost use Rattle.capnp_call.specs.Steps.Lists.{ElementDoes, element_at};
ghost use Rattle.capnp_call.specs.Seen.{reply_seen};

use crate::answer::answer;
use crate::calls::{Ending, Op, Reply, Step, reply_of};
use capnp_arena::arena::{Arena, Place};
use capnp_base::introspect::Type;
use capnp_dynamic_readers::dynamic_list;
use capnp_dynamic_readers::dynamic_value::Reader as Value;
use capnp_schema::set::SchemaSet;
use capnp_slots::element;
use capnp_slots::source::{Source, source_fits};
use capnp_wire::error::ErrorKind;
use std::alloc::Global;

/// What an element has; a null text, data or list is empty.
///
/// Refused with `WrongPointerKind`, `WrongElementSize` or `TextNotTerminated` where what stands there is not read as
/// the element's type; and with `OutOfMemory` for the copy of a text or data.
fn get_element(
    alloc: Global,
    arena: &Arena,
    at: usize,
    schemas: &SchemaSet,
    element: Type,
    index: u32,
) -> Reply
    requires forest { Forest (segment arena.now) at }
    requires entries { NamesEntries (lists_seen schemas.now) (seen_type element) }
    requires list { IsListStand (lists_seen schemas.now) (seen_type element) (tree (segment arena.now) at) }
    requires inside { index < list_length (tree (segment arena.now) at) }
    ensures { (old : RecordValue) → Does (lists_seen schemas.now) Get
        (element_at (lists_seen schemas.now) (seen_type element) (tree (segment arena.now) at) index) old
        (reply_seen result) old }
{
    let reader = dynamic_list::Reader::new(arena.list_reader(at), element, schemas);
    answer(alloc, reader.get(index))
}

/// Starts an element anew with a size, as `element::init`.
#[tactic(auto, using(crate::proofs::Outcomes::list_frame_after))]
fn initn_element(
    arena: &mut Arena,
    at: usize,
    schemas: &SchemaSet,
    element: Type,
    index: u32,
    count: u32,
) -> Reply
    requires forest { Forest (segment arena.old) at }
    requires list { IsListStand (lists_seen schemas.now) (seen_type element) (tree (segment arena.old) at) }
    requires inside { index < list_length (tree (segment arena.old) at) }
    ensures does { ElementDoes (lists_seen schemas.now) (seen_type element) index (Op.Initn count)
        (tree (segment arena.old) at) result (tree (segment arena.new) at) }
    ensures frame { LeavesPointer at arena.old arena.new }
{
    reply_of(element::init(arena, at, schemas, element, index, count))
}

/// Sets an element to a value, as `element::set`.
#[tactic(auto, using(crate::proofs::Outcomes::list_frame_after))]
fn set_element(
    arena: &mut Arena,
    at: usize,
    schemas: &SchemaSet,
    element: Type,
    index: u32,
    value: Value<'_>,
) -> Reply
    requires forest { Forest (segment arena.old) at }
    requires list { IsListStand (lists_seen schemas.now) (seen_type element) (tree (segment arena.old) at) }
    requires inside { index < list_length (tree (segment arena.old) at) }
    ensures does { ElementDoes (lists_seen schemas.now) (seen_type element) index (Op.Set value.entry)
        (tree (segment arena.old) at) result
        (tree (segment arena.new) at) }
    ensures frame { LeavesPointer at arena.old arena.new }
{
    let source = Source::from(value);
    source_fits(source);
    reply_of(element::set(arena, at, schemas, element, index, source))
}

/// Does an operation to an element that is there.
fn do_element(
    arena: &mut Arena,
    at: usize,
    schemas: &SchemaSet,
    element: Type,
    index: u32,
    end: Ending<'_>,
) -> Reply
    requires forest { Forest (segment arena.old) at }
    requires entries { NamesEntries (lists_seen schemas.now) (seen_type element) }
    requires list { IsListStand (lists_seen schemas.now) (seen_type element) (tree (segment arena.old) at) }
    requires inside { index < list_length (tree (segment arena.old) at) }
    requires names { end.call.now.op ≢ Op.Which }
    ensures does { ElementDoes (lists_seen schemas.now) (seen_type element) index end.entry.call.now.op
        (tree (segment arena.old) at) result
        (tree (segment arena.new) at) }
    ensures frame { LeavesPointer at arena.old arena.new }
{
    match end.call.op {
        Op::Get => get_element(end.alloc, arena, at, schemas, element, index),
        Op::Has => Reply::Refused(ErrorKind::NotAContainer),
        Op::Which => unreachable!(),
        Op::Set(value) => set_element(arena, at, schemas, element, index, value),
        Op::Init => Reply::Refused(ErrorKind::NotAContainer),
        Op::Initn(count) => initn_element(arena, at, schemas, element, index, count),
        Op::Clear => Reply::Refused(ErrorKind::NotAContainer),
    }
}

/// Does an operation to the element that the last step names.
fn do_last(
    arena: &mut Arena,
    at: usize,
    schemas: &SchemaSet,
    element: Type,
    end: Ending<'_>,
) -> Reply
    requires forest { Forest (segment arena.old) at }
    requires entries { NamesEntries (lists_seen schemas.now) (seen_type element) }
    requires list { IsListStand (lists_seen schemas.now) (seen_type element) (tree (segment arena.old) at) }
    requires there { is_null_tree (tree (segment arena.old) at) ≡ false }
    requires names { end.call.now.op ≢ Op.Which }
    ensures ends { ListEnds (lists_seen schemas.now) (seen_type element) end.entry (tree (segment arena.old) at) result
        (tree (segment arena.new) at) }
    ensures frame { LeavesPointer at arena.old arena.new }
{
    let Step::Element(index) = end.call.last else {
        return Reply::Refused(ErrorKind::NotAContainer);
    };
    if index >= arena.get_length(at) {
        return Reply::Refused(ErrorKind::NoSuchElement);
    }
    do_element(arena, at, schemas, element, index, end)
}

/// Does an operation at a list at which a path ends.
///
/// Refused with `NotAContainer` for `Which` and where the last step names a field, with `NoSuchElement` past the end,
/// with `NotAContainer` for `Has`, `Init` and `Clear`, and else as the operation. After a refusal nothing has changed.
///
/// # Conditions
///
/// The pointer at the word `at` leads to a tree of this message, no two of whose parts share a word (`Forest`). That is
/// not null, and is read as a list of the type; its structs have at least their schema's sections (`IsListStand`). The
/// type names entries of the set (`NamesEntries`).
pub fn end_at_list(
    arena: &mut Arena,
    at: usize,
    schemas: &SchemaSet,
    element: Type,
    end: Ending<'_>,
) -> Reply
    requires forest { Forest (segment arena.old) at }
    requires entries { NamesEntries (lists_seen schemas.now) (seen_type element) }
    requires list { IsListStand (lists_seen schemas.now) (seen_type element) (tree (segment arena.old) at) }
    requires there { is_null_tree (tree (segment arena.old) at) ≡ false }
    ensures ends { ListEnds (lists_seen schemas.now) (seen_type element) end.entry (tree (segment arena.old) at) result
        (tree (segment arena.new) at) }
    ensures frame { LeavesPointer at arena.old arena.new }
{
    match end.call.op {
        Op::Which => Reply::Refused(ErrorKind::NotAContainer),
        _ => do_last(arena, at, schemas, element, end),
    }
}
