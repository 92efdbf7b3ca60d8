//! What edits make of a list.
ghost use Rattle.std.specs.Prelude.{IfErr, IfOk, ◌≡◌, ◌≢◌};
ghost use Rattle.capnp_device.specs.declared.error.ErrorKind.TheVariants.{OutOfMemory};
ghost use Rattle.capnp_wire.specs.Reading.{list_length};
ghost use Rattle.capnp_wire.specs.Standing.{list_of};
ghost use Rattle.capnp_arena.specs.Message.{IsMessage, message_tree};
ghost use Rattle.capnp_schema.specs.Entries.{lists_seen};
ghost use Rattle.capnp_schema.specs.Types.{seen_type};
ghost use Rattle.capnp_edits.specs.Changes.{IsAdded, IsAddedRefusal, IsChanged, IsChangeRefusal, place_of};
ghost use Rattle.capnp_edits.specs.EditsSeen.{edit_seen, place_seen};

use crate::added::{find_size, list_one, new_elements};
use capnp_arena::arena::Arena;
use capnp_base::introspect::Type;
use capnp_dynamic_readers::dynamic_value::Reader as Value;
use capnp_schema::set::SchemaSet;
use capnp_splices::pick::Splice;
use capnp_splices::read::read_list;
use capnp_splices::splice::splice_lists;
use capnp_wire::ListReader;
use capnp_wire::error::{Error, ErrorKind, Result};
use capnp_wire::laws::list_is_well_formed;
use std::alloc::Global;

/// What is done to a list.
#[derive(Clone, Copy)]
pub enum Edit<'c> {
    /// Puts a value behind the last element.
    Append(Value<'c>),
    /// Puts a value in front of the element of an index, or behind the last where the index is the length.
    Insert(u32, Value<'c>),
    /// Takes the element of an index out.
    Remove(u32),
    /// Keeps the first so many elements, with new ones behind them where there are fewer.
    Resize(u32),
}

/// Where elements are taken out and others put, and how many are taken out.
#[derive(Clone, Copy)]
pub struct Place {
    pub at: u32,
    pub removed: u32,
}

/// Where an edit changes a list of so many elements.
///
/// Refused with `NoSuchElement` for an index past the end: of an insertion, past the length.
pub fn find_place(edit: Edit<'_>, length: u32) -> Result<Place>
    ensures { place_seen result ≡ place_of (edit_seen edit.entry) length }
{
    match edit {
        Edit::Append(_) => Ok(Place {
            at: length,
            removed: 0,
        }),
        Edit::Insert(index, _) => {
            if length < index {
                return Err(Error::from(ErrorKind::NoSuchElement));
            }
            Ok(Place {
                at: index,
                removed: 0,
            })
        }
        Edit::Remove(index) => {
            if index < length {
                return Ok(Place {
                    at: index,
                    removed: 1,
                });
            }
            Err(Error::from(ErrorKind::NoSuchElement))
        }
        Edit::Resize(count) => Ok(Place {
            at: count.min(length),
            removed: length.saturating_sub(count),
        }),
    }
}

/// The list of what an edit adds to one of so many elements, in a message of its own.
pub fn list_added(
    alloc: Global,
    schemas: &SchemaSet,
    element: Type,
    edit: Edit<'_>,
    length: u32,
) -> Result<Arena>
    ensures message { IfOk result IsMessage }
    ensures added { IfOk result (λ m. IsAdded (lists_seen schemas.now) (seen_type element) (edit_seen edit.entry) length
        (message_tree m)) }
    ensures cause { IfErr result (λ e. e.kind ≢ OutOfMemory → IsAddedRefusal (lists_seen schemas.now)
        (seen_type element) (edit_seen edit.entry) length e.kind) }
{
    match edit {
        Edit::Append(value) => list_one(alloc, schemas, element, value),
        Edit::Insert(_, value) => list_one(alloc, schemas, element, value),
        Edit::Remove(_) => new_elements(alloc, schemas, element, 0),
        Edit::Resize(count) => new_elements(alloc, schemas, element, count.saturating_sub(length)),
    }
}

/// What an edit makes of a list of elements of a type: a message of its own, whose root is the list. Elements are carried
/// whole, with what the schema doesn't know; structs get the largest size of all that are in the list then.
///
/// Refused with `NoSuchElement` for an index past the end, of an insertion past the length; as `list_one` for a value that
/// is added; with `TooDeep` where what is added goes more than 64 levels down; with
/// `SizePastFormat` for 2^29 elements or more, or structs that would take 2^29 words or more; with `WrongElementSize` for a
/// list of bits that is read as elements of type Void; with `BadPointer`, `TooDeep` or `CapabilityPointer` where a pointer
/// that stays can't be followed, by the first of these in preorder; and with `OutOfMemory`.
#[tactic(none)]
pub fn change_list(
    alloc: Global,
    schemas: &SchemaSet,
    list: &ListReader<'_>,
    element: Type,
    edit: Edit<'_>,
) -> Result<Arena>
    ensures message { IfOk result IsMessage }
    ensures changed { IfOk result (λ m. IsChanged (lists_seen schemas.now) (seen_type element) (list_of list.now)
        (edit_seen edit.entry) (message_tree m)) }
    ensures cause { IfErr result (λ e. e.kind ≢ OutOfMemory → IsChangeRefusal (lists_seen schemas.now)
        (seen_type element) (list_of list.now) (edit_seen edit.entry) e.kind) }
{
    let length = list.len();
    let place = find_place(edit, length)?;
    let made = list_added(alloc, schemas, element, edit, length)?;
    let added = read_list(&made)?;
    made.tree_is_sound(0);
    list_is_well_formed(list);
    let splice = Splice {
        old: *list,
        added,
        at: place.at,
        removed: place.removed,
    };
    splice_lists(
        alloc,
        splice,
        element.expected_element_size(),
        find_size(schemas, element),
    )
}
