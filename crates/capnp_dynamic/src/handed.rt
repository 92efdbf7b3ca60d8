//! What stands at a pointer, handed out under a type: no memory is taken and nothing is refused.
ghost use Rattle.std.specs.Prelude.{true, cond, IsOk, Ok, ◌≡◌, length};
ghost use Rattle.capnp_wire.specs.Edits.{is_struct, struct_in};
ghost use Rattle.capnp_wire.specs.Place.{struct_tree};
ghost use Rattle.capnp_wire.specs.Reading.{as_data, as_text};
ghost use Rattle.capnp_arena.specs.Forest.{Forest, tree};
ghost use Rattle.capnp_arena.specs.Built.{place_words};
ghost use Rattle.capnp_arena.specs.Segment.{segment};
ghost use Rattle.capnp_arena.specs.Shape.{shape_at};
ghost use Rattle.capnp_builders.specs.Blobs.{IsData, IsBuiltText, data_behind, data_there, data_word, position, text_behind, text_bytes, text_there, text_word};
ghost use Rattle.capnp_schema.specs.Entries.{lists_seen};
ghost use Rattle.capnp_schema.specs.StructHandles.{number_of, set_of};
ghost use Rattle.capnp_schema.specs.Types.{is_pointer, seen_variant};
ghost use Rattle.capnp_records.specs.Writes.Slots.{Fits};
ghost use Rattle.capnp_dynamic.specs.Built.{IsReady, built_schema, built_struct, place_of, struct_behind};
ghost use Rattle.capnp_dynamic.specs.BuiltValues.{CanBeRead};
ghost use Rattle.capnp_dynamic.specs.Handed.{HandsOut};
ghost use Rattle.capnp_dynamic.specs.Steps.Handed.{CanBeHanded};
ghost use Rattle.capnp_dynamic.specs.Owners.{IsValueAt};

use crate::dynamic_value::Builder;
use crate::{dynamic_list, dynamic_struct};
use capnp_arena::handles::PointerBuilder;
use capnp_base::introspect::TypeVariant;
use capnp_builders::{any_pointer, data, text};
use capnp_schema::schema::StructSchema;
use capnp_schema::set::SchemaSet;

/// The text at a pointer, to be written at its start where it is new, and else after its last byte; of a null one of no
/// bytes.
#[tactic(auto, using(crate::proofs::Readers::bytes_there))]
fn text_at<'a>(pointer: PointerBuilder<'a>, is_new: bool) -> text::Builder<'a>
    requires forest { Forest (segment pointer.arena.now) pointer.at }
    requires text { IsOk (as_text (tree (segment pointer.arena.now) pointer.at)) }
    ensures tree { text_there result ≡ tree (segment pointer.entry.arena.now) pointer.entry.at }
    ensures ready { IsBuiltText result }
    ensures position { position result ≡ cond is_new 0 (length (text_bytes result)) }
    ensures behind { text_behind result ≡ pointer.entry.arena }
    ensures at { text_word result ≡ pointer.entry.at }
{
    let end = match pointer.get_text() {
        Ok(bytes) if !is_new => bytes.len(),
        _ => 0,
    };
    text::Builder::with_pos(pointer, end)
}

/// The data at a pointer; none of a null.
fn data_at<'a>(pointer: PointerBuilder<'a>) -> data::Builder<'a>
    requires forest { Forest (segment pointer.arena.now) pointer.at }
    requires data { IsOk (as_data (tree (segment pointer.arena.now) pointer.at)) }
    ensures tree { data_there result ≡ tree (segment pointer.entry.arena.now) pointer.entry.at }
    ensures ready { IsData result }
    ensures behind { data_behind result ≡ pointer.entry.arena }
    ensures at { data_word result ≡ pointer.entry.at }
{
    data::Builder::new(pointer)
}

/// What stands at a pointer, under a type.
pub(crate) fn hand_out<'a>(
    pointer: PointerBuilder<'a>,
    schemas: &'a SchemaSet,
    variant: TypeVariant,
    is_new: bool,
) -> Builder<'a>
    requires pointer { is_pointer (seen_variant variant) ≡ true }
    requires forest { Forest (segment pointer.arena.now) pointer.at }
    requires handed { CanBeHanded (lists_seen schemas.now) (seen_variant variant)
        (tree (segment pointer.arena.now) pointer.at) }
    ensures ready { CanBeRead result }
    ensures stands { HandsOut is_new (lists_seen schemas.now) (seen_variant variant)
        (tree (segment pointer.entry.arena.now) pointer.entry.at) result }
    ensures behind { IsValueAt pointer.entry.arena pointer.entry.at result }
{
    match variant {
        TypeVariant::Text => Builder::Text(text_at(pointer, is_new)),
        TypeVariant::Data => Builder::Data(data_at(pointer)),
        TypeVariant::Struct(raw) => Builder::Struct(struct_behind_pointer(
            pointer,
            schemas.struct_schema(raw.number),
        )),
        TypeVariant::List(element) => Builder::List(dynamic_list::Builder::new(
            pointer, element, schemas,
        )),
        TypeVariant::AnyPointer => Builder::AnyPointer(any_pointer::Builder::new(pointer)),
        _ => unreachable!(),
    }
}

/// The struct at a pointer, under a schema of which it has the sections.
#[tactic(auto, using(crate::proofs::Readers::struct_here, crate::proofs::Standing::here_stands))]
fn struct_behind_pointer<'a>(
    pointer: PointerBuilder<'a>,
    schema: StructSchema<'a>,
) -> dynamic_struct::Builder<'a>
    requires forest { Forest (segment pointer.arena.now) pointer.at }
    requires there { is_struct (tree (segment pointer.arena.now) pointer.at) ≡ true }
    requires fits { Fits (set_of schema) (number_of schema) (struct_in (tree (segment pointer.arena.now) pointer.at)) }
    ensures schema { built_schema result ≡ schema.entry }
    ensures tree { struct_tree (built_struct result) ≡ tree (segment pointer.entry.arena.now) pointer.entry.at }
    ensures ready { IsReady result }
    ensures behind { struct_behind result ≡ pointer.entry.arena }
    ensures place { shape_at (segment pointer.entry.arena.now) pointer.entry.at ≡ place_words (place_of result) }
{
    let PointerBuilder { arena, at } = pointer;
    let place = arena.struct_here(at);
    dynamic_struct::Builder {
        arena,
        place,
        schema,
    }
}
