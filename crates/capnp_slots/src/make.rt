//! New structs, lists, texts and data at a pointer, all zero and null.
ghost use Rattle.std.specs.Prelude.{false, true, ◌-◌, ◌*◌, ◌+◌, ◌<◌, ◌≡◌, ◌≢◌, ◌||◌, IfErr, OnErr, OnOk, nat_lt, replicate};
ghost use Rattle.capnp_device.specs.declared.error.ErrorKind.TheVariants.{OutOfMemory};
ghost use Rattle.capnp_wire.specs.Edits.{zero_list, zero_struct, zero_structs};
ghost use Rattle.capnp_wire.specs.Locate.{words_past_format};
ghost use Rattle.capnp_arena.specs.Frame.{LeavesPointer};
ghost use Rattle.capnp_arena.specs.Forest.{tree};
ghost use Rattle.capnp_arena.specs.Segment.{segment};
ghost use Rattle.capnp_arena.specs.Shape.{word_count};
ghost use Rattle.capnp_wire.specs.Place.{struct_tree};
ghost use Rattle.capnp_wire.specs.Reading.{empty_list};
ghost use Rattle.capnp_wire.specs.WellFormed.{IsWellFormed};
ghost use Rattle.capnp_schema.specs.Entries.{lists_seen};
ghost use Rattle.capnp_schema.specs.StructHandles.{number_of, set_of};
ghost use Rattle.capnp_schema.specs.Types.{AnyPointerType, is_pointer, seen_type, seen_variant};
ghost use Rattle.capnp_base.specs.Text.{text_tree};
ghost use Rattle.capnp_records.specs.Operation.{elements_past};
ghost use Rattle.capnp_records.specs.Writes.Contents.{initn_tree, new_list};
ghost use Rattle.capnp_records.specs.Writes.ElementEnds.{InitnContent};
ghost use Rattle.capnp_records.specs.Writes.Slots.{At};
ghost use Rattle.capnp_schema.specs.Plan.{brand_size};
ghost use Rattle.capnp_slots.specs.Steps.Copied.{empty_tree};
ghost use Rattle.capnp_slots.specs.Inits.{IsInitnRefusal, IsRoomless};
ghost use Rattle.capnp_slots.specs.Steps.Inits.{is_sized};

use capnp_arena::arena::Arena;
use capnp_base::introspect::{Type, TypeVariant};
use capnp_schema::schema::StructSchema;
use capnp_schema::set::SchemaSet;
use capnp_wire::error::{Error, ErrorKind, Result};
use capnp_wire::size::{ElementSize, StructSize};

/// The sections of a schema's structs.
#[inline(always)]
pub fn size_of(schema: StructSchema<'_>) -> StructSize
    ensures { result ≡ brand_size (set_of schema.entry) (number_of schema.entry) }
{
    let body = &schema.get_proto().body;
    StructSize {
        data_words: body.data_word_count,
        pointers: body.pointer_count,
    }
}

/// Makes a pointer lead to a struct of a size.
///
/// Refused with `OutOfMemory`, and then nothing has changed; so is each call below.
pub(crate) fn make_struct(arena: &mut Arena, at: usize, size: StructSize) -> Result<()>
    requires there { at < word_count (segment arena.old) }
    ensures frame { OnOk result (LeavesPointer at arena.old arena.new) }
    ensures ok { OnOk result (tree (segment arena.new) at ≡ struct_tree (zero_struct size)) }
    ensures formed { OnOk result (IsWellFormed (struct_tree (zero_struct size))) }
    ensures refused { OnErr result (segment arena.new ≡ segment arena.old) }
    ensures cause { IfErr result (λ e. e.kind ≡ OutOfMemory) }
{
    arena.init_struct(at, size)?;
    Ok(())
}

/// Makes a pointer lead to a text of so many zero bytes.
///
/// Refused with `SizePastFormat` for more than 2^29 - 2 bytes, and else with `OutOfMemory`.
#[tactic(auto, using(crate::proofs::NewLists::new_text))]
fn make_text(arena: &mut Arena, at: usize, count: u32) -> Result<()>
    requires there { at < word_count (segment arena.old) }
    ensures frame { OnOk result (LeavesPointer at arena.old arena.new) }
    ensures ok { OnOk result (tree (segment arena.new) at ≡ text_tree (replicate count 0)) }
    ensures within { OnOk result (nat_lt (words_past_format - 2) count ≡ false) }
    ensures formed { OnOk result (IsWellFormed (text_tree (replicate count 0))) }
    ensures refused { OnErr result (segment arena.new ≡ segment arena.old) }
    ensures cause { IfErr result (λ e. IsRoomless (nat_lt (words_past_format - 2) count) e.kind) }
{
    if count >= (1 << 29) - 1 {
        return Err(Error::from(ErrorKind::SizePastFormat));
    }
    arena.init_list(at, ElementSize::Byte, count + 1)?;
    Ok(())
}

/// Makes a pointer lead to a list of so many elements of a size that is not composite.
///
/// Refused with `SizePastFormat` for 2^29 elements or more, and else with `OutOfMemory`.
#[tactic(auto, using(crate::proofs::NewLists::new_simple_list))]
fn make_list(arena: &mut Arena, at: usize, size: ElementSize, count: u32) -> Result<()>
    requires there { at < word_count (segment arena.old) }
    requires kind { size ≢ ElementSize.InlineComposite }
    ensures frame { OnOk result (LeavesPointer at arena.old arena.new) }
    ensures ok { OnOk result (tree (segment arena.new) at ≡ zero_list size count) }
    ensures within { OnOk result (nat_lt (words_past_format - 1) count ≡ false) }
    ensures formed { OnOk result (IsWellFormed (zero_list size count)) }
    ensures refused { OnErr result (segment arena.new ≡ segment arena.old) }
    ensures cause { IfErr result (λ e. IsRoomless (nat_lt (words_past_format - 1) count) e.kind) }
{
    arena.init_list(at, size, count)?;
    Ok(())
}

/// Makes a pointer lead to a list of so many structs of a size.
///
/// Refused with `SizePastFormat` for 2^29 elements or more, or where they take 2^29 words or more, and else with
/// `OutOfMemory`.
fn make_structs(arena: &mut Arena, at: usize, size: StructSize, count: u32) -> Result<()>
    requires there { at < word_count (segment arena.old) }
    ensures frame { OnOk result (LeavesPointer at arena.old arena.new) }
    ensures ok { OnOk result (tree (segment arena.new) at ≡ zero_structs size count) }
    ensures within { OnOk result ((nat_lt (words_past_format - 1) (count * (size.data_words + size.pointers)) || nat_lt
        (words_past_format - 1) count) ≡ false) }
    ensures formed { OnOk result (IsWellFormed (zero_structs size count)) }
    ensures refused { OnErr result (segment arena.new ≡ segment arena.old) }
    ensures cause { IfErr result (λ e. IsRoomless
        (nat_lt (words_past_format - 1) (count * (size.data_words + size.pointers)) || nat_lt (words_past_format - 1) count) e.kind) }
{
    arena.init_struct_list(at, count, size)?;
    Ok(())
}

/// Makes a pointer lead to a list of so many elements of a type.
///
/// Refused as `make_structs` for structs, and else as `make_list`.
fn make_elements(
    arena: &mut Arena,
    at: usize,
    schemas: &SchemaSet,
    element: Type,
    count: u32,
) -> Result<()>
    requires there { at < word_count (segment arena.old) }
    ensures frame { OnOk result (LeavesPointer at arena.old arena.new) }
    ensures ok { OnOk result (tree (segment arena.new) at ≡ new_list (lists_seen schemas.now) (seen_type element) count) }
    ensures within { OnOk result (elements_past (lists_seen schemas.now) (seen_type element) count ≡ false) }
    ensures formed { OnOk result (IsWellFormed (new_list (lists_seen schemas.now) (seen_type element) count)) }
    ensures refused { OnErr result (segment arena.new ≡ segment arena.old) }
    ensures cause { IfErr result (λ e. IsRoomless
        (elements_past (lists_seen schemas.now) (seen_type element) count) e.kind) }
{
    match element.which() {
        TypeVariant::Struct(raw) => {
            let size = size_of(schemas.struct_schema(raw.number));
            make_structs(arena, at, size, count)
        }
        _ => make_list(arena, at, element.expected_element_size(), count),
    }
}

/// Whether a type's values have a size: texts, data and lists.
pub(crate) fn is_sized(variant: TypeVariant) -> bool
    ensures { result ≡ is_sized (seen_variant variant) }
{
    match variant {
        TypeVariant::Text => true,
        TypeVariant::Data => true,
        TypeVariant::List(_) => true,
        _ => false,
    }
}

/// Makes a pointer lead to a text, data or list of a type with so many bytes or elements.
pub(crate) fn make_sized(
    arena: &mut Arena,
    at: usize,
    schemas: &SchemaSet,
    variant: TypeVariant,
    count: u32,
) -> Result<()>
    requires there { at < word_count (segment arena.old) }
    requires kind { is_sized (seen_variant variant) ≡ true }
    ensures frame { OnOk result (LeavesPointer at arena.old arena.new) }
    ensures ok { OnOk result (tree (segment arena.new) at
        ≡ initn_tree (lists_seen schemas.now) (seen_variant variant) count) }
    ensures within { OnOk result (InitnContent (lists_seen schemas.now) count (seen_variant variant)
        (At (initn_tree (lists_seen schemas.now) (seen_variant variant) count))) }
    ensures formed { OnOk result (IsWellFormed (initn_tree (lists_seen schemas.now) (seen_variant variant) count)) }
    ensures refused { OnErr result (segment arena.new ≡ segment arena.old) }
    ensures cause { IfErr result (λ e. IsInitnRefusal (lists_seen schemas.now) count (seen_variant variant) e.kind) }
{
    match variant {
        TypeVariant::Text => make_text(arena, at, count),
        TypeVariant::Data => make_list(arena, at, ElementSize::Byte, count),
        TypeVariant::List(element) => make_elements(arena, at, schemas, element, count),
        _ => unreachable!(),
    }
}

/// Makes a pointer lead to a list of no elements of a size.
///
/// Refused with `OutOfMemory`; so is the call below.
fn make_empty_list(arena: &mut Arena, at: usize, size: ElementSize) -> Result<()>
    requires there { at < word_count (segment arena.old) }
    ensures frame { OnOk result (LeavesPointer at arena.old arena.new) }
    ensures ok { OnOk result (tree (segment arena.new) at ≡ empty_list size) }
    ensures formed { OnOk result (IsWellFormed (empty_list size)) }
    ensures refused { OnErr result (segment arena.new ≡ segment arena.old) }
    ensures cause { IfErr result (λ e. e.kind ≡ OutOfMemory) }
{
    let none = StructSize {
        data_words: 0,
        pointers: 0,
    };
    match size {
        ElementSize::InlineComposite => make_structs(arena, at, none, 0),
        _ => make_list(arena, at, size, 0),
    }
}

/// Makes a pointer lead to what stands in the place of a default that is none: no bytes, a struct of size zero, or a
/// list of no elements.
pub(crate) fn make_empty(arena: &mut Arena, at: usize, variant: TypeVariant) -> Result<()>
    requires there { at < word_count (segment arena.old) }
    requires pointer { is_pointer (seen_variant variant) ≡ true }
    requires typed { AnyPointerType ≢ seen_variant variant }
    ensures frame { OnOk result (LeavesPointer at arena.old arena.new) }
    ensures ok { OnOk result (tree (segment arena.new) at ≡ empty_tree (seen_variant variant)) }
    ensures formed { OnOk result (IsWellFormed (empty_tree (seen_variant variant))) }
    ensures refused { OnErr result (segment arena.new ≡ segment arena.old) }
    ensures cause { IfErr result (λ e. e.kind ≡ OutOfMemory) }
{
    let none = StructSize {
        data_words: 0,
        pointers: 0,
    };
    match variant {
        TypeVariant::Text => make_text(arena, at, 0),
        TypeVariant::Data => make_empty_list(arena, at, ElementSize::Byte),
        TypeVariant::Struct(_) => make_struct(arena, at, none),
        TypeVariant::List(element) => make_empty_list(arena, at, element.expected_element_size()),
        _ => unreachable!(),
    }
}
