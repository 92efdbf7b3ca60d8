//! Values that hold no others, put into slots and elements.
ghost use Rattle.std.specs.Prelude.{true, false, ◌≡◌, ◌<◌, IfErr, MatchOption, OnOk};
ghost use Rattle.std.specs.Option.{option_map};
ghost use Rattle.capnp_arena.specs.Built.{IsBuilt, built_at};
ghost use Rattle.capnp_arena.specs.Forest.{Forest, tree};
ghost use Rattle.capnp_arena.specs.Frame.{LeavesPointer, LeavesStruct};
ghost use Rattle.capnp_arena.specs.Segment.{segment};
ghost use Rattle.capnp_schema.specs.Accepted.{NamesEntries};
ghost use Rattle.capnp_schema.specs.Entries.{lists_seen};
ghost use Rattle.capnp_schema.specs.FieldLists.{typed_of};
ghost use Rattle.capnp_schema.specs.Types.{seen_type};
ghost use Rattle.capnp_slots.specs.Fields.{IsRoomFor, IsSlot};
ghost use Rattle.capnp_slots.specs.Sources.{source_seen};
ghost use Rattle.capnp_from_json.specs.LeafReads.{is_typed, leaf_value};
ghost use Rattle.capnp_from_json.specs.declared.error.Error.TheVariants.{OutOfMemory};
ghost use Rattle.capnp_from_json.specs.declared.leaves.Leaf.TheVariants.{Null};
ghost use Rattle.capnp_json_messages.specs.Put.{HasNew, IsListOf, PutsAt};
ghost use Rattle.capnp_json_messages.specs.Reads.{PutsInto};
ghost use Rattle.capnp_json_messages.specs.Ways.{is_struct_type};
ghost use Rattle.capnp_json_messages.specs.Steps.Sources.{leaf_source};

use crate::started::{field_stands, set_stands};
use capnp_arena::arena::{Arena, Place};
use capnp_base::introspect::Type;
use capnp_base::text;
use capnp_from_json::error::Error;
use capnp_from_json::leaves::Leaf;
use capnp_schema::schema::Field;
use capnp_schema::set::SchemaSet;
use capnp_slots::primitive::Primitive;
use capnp_slots::source::{Source, source_fits};
use capnp_slots::{element, slot};

/// What a slot or element is set to for a leaf. None for a null pointer.
fn source_of(leaf: &Leaf) -> Option<Source<'_>>
    ensures { option_map source_seen result ≡ leaf_source leaf.now }
{
    match leaf {
        Leaf::Void => Some(Source::Primitive(Primitive::Void)),
        Leaf::Bool(x) => Some(Source::Primitive(Primitive::Bool(*x))),
        Leaf::Int8(x) => Some(Source::Primitive(Primitive::Int8(*x))),
        Leaf::Int16(x) => Some(Source::Primitive(Primitive::Int16(*x))),
        Leaf::Int32(x) => Some(Source::Primitive(Primitive::Int32(*x))),
        Leaf::Int64(x) => Some(Source::Primitive(Primitive::Int64(*x))),
        Leaf::UInt8(x) => Some(Source::Primitive(Primitive::UInt8(*x))),
        Leaf::UInt16(x) => Some(Source::Primitive(Primitive::UInt16(*x))),
        Leaf::UInt32(x) => Some(Source::Primitive(Primitive::UInt32(*x))),
        Leaf::UInt64(x) => Some(Source::Primitive(Primitive::UInt64(*x))),
        Leaf::Enum(x) => Some(Source::Primitive(Primitive::Enum(*x))),
        Leaf::Text(bytes) => Some(Source::Text(text::Reader(bytes))),
        Leaf::Data(bytes) => Some(Source::Data(bytes)),
        Leaf::Null => None,
    }
}

/// Puts a leaf into a slot, and makes a member active.
///
/// Refused with `OutOfMemory` alone.
///
/// # Conditions
///
/// A struct stands at the place (`IsBuilt`), with room for the field, which is a slot (`IsRoomFor`, `IsSlot`). The
/// leaf is of the field's type (`is_typed`).
pub fn put_in_slot(
    arena: &mut Arena,
    place: Place,
    field: Field<'_>,
    leaf: &Leaf,
) -> Result<(), Error>
    requires planted { IsBuilt arena.old place }
    requires slot { IsSlot field }
    requires room { IsRoomFor field (built_at arena.old place) }
    requires typed { is_typed (typed_of field).type leaf.now ≡ true }
    ensures frame { OnOk result (LeavesStruct place arena.old arena.new) }
    ensures puts { OnOk result (PutsInto field.entry (built_at arena.old place) (built_at arena.new place) (leaf_value leaf.now)) }
    ensures memory { IfErr result (λ e. e ≡ OutOfMemory) }
{
    field_stands(field);
    let Some(source) = source_of(leaf) else {
        slot::clear(arena, place, field);
        return Ok(());
    };
    source_fits(source);
    match slot::set(arena, place, field, source) {
        Ok(()) => Ok(()),
        Err(_memory) => Err(Error::OutOfMemory),
    }
}

/// Puts a leaf into an element of a new list, by the word that leads to the list. A null pointer stays.
///
/// Refused with `OutOfMemory` alone.
///
/// # Conditions
///
/// The word leads to a new list of the type, with an element at the index (`HasNew`). The type names entries of the
/// set and is no struct; the leaf is of it (`is_typed`).
pub fn put_in_element(
    arena: &mut Arena,
    word: usize,
    schemas: &SchemaSet,
    element: Type,
    index: u32,
    leaf: &Leaf,
) -> Result<(), Error>
    requires forest { Forest (segment arena.old) word }
    requires entries { NamesEntries (lists_seen schemas.now) (seen_type element) }
    requires there { HasNew (lists_seen schemas.now) (seen_type element) (tree (segment arena.old) word) index }
    requires typed { is_typed (seen_type element) leaf.now ≡ true }
    requires plain { is_struct_type (seen_type element) ≡ false }
    ensures frame { OnOk result (LeavesPointer word arena.old arena.new) }
    ensures puts { OnOk result (PutsAt (lists_seen schemas.now) (seen_type element) index (tree (segment arena.old) word)
        (tree (segment arena.new) word) (leaf_value leaf.now)) }
    ensures memory { IfErr result (λ e. e ≡ OutOfMemory) }
{
    let Some(source) = source_of(leaf) else {
        return Ok(());
    };
    set_stands(schemas);
    arena.tree_is_sound(word);
    source_fits(source);
    match element::set(arena, word, schemas, element, index, source) {
        Ok(()) => Ok(()),
        Err(_memory) => Err(Error::OutOfMemory),
    }
}
