//! Elements of a list that is built: what its `get` hands out.
//!
//! An element is handed out by value, so these contracts say what it stands on at the return. That the list is then as
//! it was but for what was extended behind that element, and that a refusal changed nothing, is said by
//! `element::fill`.
ghost use Rattle.std.specs.Prelude.{None, false, true, IfErr, IfOk, IsOk, OnOk, ◌<◌, ◌≡◌};
ghost use Rattle.capnp_wire.specs.Edits.{IsDueRefusal};
ghost use Rattle.capnp_wire.specs.Elements.{or_empty, with_pointer_element};
ghost use Rattle.capnp_wire.specs.Place.{struct_tree};
ghost use Rattle.capnp_wire.specs.Reading.{element_pointer, element_struct, list_length};
ghost use Rattle.capnp_arena.specs.Forest.{Forest, tree};
ghost use Rattle.capnp_arena.specs.Segment.{segment};
ghost use Rattle.capnp_schema.specs.Entries.{lists_seen};
ghost use Rattle.capnp_schema.specs.Types.{StructType, element_size, is_pointer, seen_type, seen_variant};
ghost use Rattle.capnp_slots.specs.Fills.{ElementRests, element_due, element_filled, is_behind};
ghost use Rattle.capnp_dynamic.specs.Built.{IsIn, IsListReady, IsListStanding};
ghost use Rattle.capnp_dynamic.specs.BuiltValues.{CanBeRead};
ghost use Rattle.capnp_dynamic.specs.Handed.{HandsElement, HandsElementNumber, HandsOut, IsElementPartRefusal, IsElementWithin, RestsAt};
ghost use Rattle.capnp_dynamic.specs.Owners.{IsElementGot, IsElementOf, IsStructOf};

use crate::dynamic_list::Builder;
use crate::hand::built_number;
use crate::handed::hand_out;
use crate::list_readers::read_list;
use crate::{dynamic_struct, dynamic_value};
use capnp_arena::arena::Arena;
use capnp_arena::handles::PointerBuilder;
use capnp_base::introspect::{RawBrandedStructSchema, Type, TypeVariant};
use capnp_dynamic_readers::elements::read_element;
use capnp_schema::set::SchemaSet;
use capnp_slots::element;
use capnp_wire::error::Result;

/// The struct at an index.
fn element_struct_at<'a>(
    arena: &'a mut Arena,
    at: usize,
    schemas: &'a SchemaSet,
    raw: RawBrandedStructSchema,
    index: u32,
) -> dynamic_value::Builder<'a>
    requires under { IsListStanding (lists_seen schemas.now) (StructType raw.number raw.generic) arena.old at }
    requires inside { index < list_length (tree (segment arena.old) at) }
    ensures stands { HandsOut false (lists_seen schemas.now) (StructType raw.number raw.generic)
        (struct_tree (element_struct (tree (segment arena.old) at) index)) result }
    ensures ready { CanBeRead result }
    ensures owner { IsStructOf arena.entry at index result }
{
    arena.tree_is_sound(at);
    let schema = schemas.struct_schema(raw.number);
    let place = arena.get_struct_at(at, index);
    dynamic_value::Builder::Struct(dynamic_struct::Builder {
        arena,
        place,
        schema,
    })
}

/// The number at an index.
#[tactic(auto, using(crate::proofs::ElementsHanded::is_read, crate::proofs::ElementsHanded::is_number))]
fn number_at<'a>(
    arena: &'a Arena,
    at: usize,
    schemas: &'a SchemaSet,
    element_type: Type,
    index: u32,
) -> dynamic_value::Builder<'a>
    requires forest { Forest (segment arena.now) at }
    requires number { is_pointer (seen_type element_type) ≡ false }
    ensures stands { HandsElementNumber (lists_seen schemas.now) (seen_type element_type)
        (or_empty (element_size (seen_type element_type)) (tree (segment arena.now) at)) index result }
    ensures ready { CanBeRead result }
{
    let reader = read_list(arena, at, element_type.expected_element_size());
    let Ok(value) = read_element(&reader, schemas, element_type.which(), index) else {
        unreachable!()
    };
    built_number(value)
}

/// What stands behind the pointer at an index, once it was filled.
fn pointed_at<'a>(
    arena: &'a mut Arena,
    at: usize,
    schemas: &'a SchemaSet,
    element_type: Type,
    index: u32,
) -> Result<dynamic_value::Builder<'a>>
    requires behind { is_behind (seen_type element_type) ≡ true }
    requires under { IsListStanding (lists_seen schemas.now) (seen_type element_type) arena.old at }
    requires inside { index < list_length (tree (segment arena.old) at) }
    ensures stands { IfOk result (HandsOut false (lists_seen schemas.now) (seen_type element_type)
        (element_filled (lists_seen schemas.now) (seen_type element_type)
        (element_pointer (tree (segment arena.old) at) index 1))) }
    ensures ready { IfOk result CanBeRead }
    ensures owner { IfOk result (IsElementOf arena.entry at index (with_pointer_element index
        (element_filled (lists_seen schemas.now) (seen_type element_type)
        (element_pointer (tree (segment arena.old) at) index 1))
        (tree (segment arena.old) at))) }
    ensures within { OnOk result (element_due (lists_seen schemas.now) (seen_type element_type)
        (element_pointer (tree (segment arena.old) at) index 1) ≡ None) }
    ensures cause { IfErr result (λ e. IsDueRefusal e (element_due (lists_seen schemas.now) (seen_type element_type)
        (element_pointer (tree (segment arena.old) at) index 1))) }
    ensures rests { ElementRests (lists_seen schemas.now) (seen_type element_type)
        (element_pointer (tree (segment arena.old) at) index 1) → IsOk result }
{
    arena.tree_is_sound(at);
    let variant = element_type.which();
    element::fill(arena, at, schemas, element_type, index)?;
    let at = arena.get_pointer_element(at, index);
    arena.tree_is_sound(at);
    Ok(hand_out(PointerBuilder { arena, at }, schemas, variant, false))
}

/// Whether elements of a type stand behind pointers of their own.
fn is_behind_pointer(variant: TypeVariant) -> bool
    ensures { result ≡ is_behind (seen_variant variant) }
{
    match variant {
        TypeVariant::Text => true,
        TypeVariant::Data => true,
        TypeVariant::List(_) => true,
        TypeVariant::AnyPointer => true,
        _ => false,
    }
}

impl<'a> Builder<'a> {
    /// What an element has, to be written through. A number is what stands there, and a struct is the one of the list.
    /// A null text, data or list is an empty one and stays null; of a list of structs, these get at least their
    /// schema's sections.
    ///
    /// Refused with `WrongPointerKind`, `WrongElementSize` or `TextNotTerminated` where what stands there is not read
    /// as the elements' type, with `SizePastFormat` where the structs of a list would take 2^29 words or more, and else
    /// with `OutOfMemory`; then nothing has changed, as `element::fill` says. A struct and a number are not refused,
    /// and where nothing has to be extended nothing is refused for memory.
    ///
    /// # Conditions
    ///
    /// The list has elements of its type, and stands at its pointer (`IsListReady`). `index` is below the number of its
    /// elements (`IsIn`).
    pub fn get(self, index: u32) -> Result<dynamic_value::Builder<'a>>
        requires ready { IsListReady self }
        requires inside { IsIn index self }
        ensures stands { IfOk result (HandsElement self.entry index) }
        ensures ready { IfOk result CanBeRead }
        ensures owner { IfOk result (IsElementGot self.entry index) }
        ensures within { OnOk result (IsElementWithin self.entry index) }
        ensures cause { IfErr result (IsElementPartRefusal self.entry index) }
        ensures rests { RestsAt self.entry index → IsOk result }
    {
        let Builder {
            arena,
            at,
            element_type,
            schemas,
        } = self;
        let variant = element_type.which();
        if let TypeVariant::Struct(raw) = variant {
            return Ok(element_struct_at(arena, at, schemas, raw, index));
        }
        if is_behind_pointer(variant) {
            return pointed_at(arena, at, schemas, element_type, index);
        }
        Ok(number_at(&*arena, at, schemas, element_type, index))
    }
}
