//! What fields and elements are set to.
ghost use Rattle.std.specs.Prelude.{◌≡◌, MatchOption};
ghost use Rattle.capnp_wire.specs.Edits.{IsCopyRefusal, rounded_struct};
ghost use Rattle.capnp_wire.specs.Place.{struct_tree};
ghost use Rattle.capnp_wire.specs.Standing.{list_of, struct_of, tree_of};
ghost use Rattle.capnp_wire.specs.Words.{first_fault, first_fault_of_all};
ghost use Rattle.capnp_base.specs.AnyPointer.{pointer_of};
ghost use Rattle.capnp_records.specs.Writes.Contents.{SourceFits};
ghost use Rattle.capnp_dynamic_readers.specs.Handles.{list_reader_of, reader_of};
ghost use Rattle.capnp_slots.specs.Primitives.{primitive_source};
ghost use Rattle.capnp_slots.specs.SetValues.{source_of};
ghost use Rattle.capnp_slots.specs.Sources.{IsPointed, source_seen};

use crate::primitive::{Primitive, number_fits};
use crate::setter::SetterInput;
use capnp_arena::handles::PointerBuilder;
use capnp_base::introspect::Type;
use capnp_base::{any_pointer, data, text};
use capnp_dynamic_readers::dynamic_value::Reader as Value;
use capnp_dynamic_readers::{dynamic_list, dynamic_struct};
use capnp_schema::schema::StructSchema;
use capnp_wire::error::Result;
use capnp_wire::laws::{
    copied_structs_are_well_formed, list_is_well_formed, pointer_is_well_formed,
    struct_is_well_formed,
};
use capnp_wire::{ListReader, PointerReader, StructReader};

/// What a field or element is set to.
#[derive(Clone, Copy)]
pub enum Source<'a> {
    Primitive(Primitive),
    Text(text::Reader<'a>),
    Data(data::Reader<'a>),
    /// A struct, and its schema.
    Struct(StructReader<'a>, StructSchema<'a>),
    /// A list, and the type of its elements.
    List(ListReader<'a>, Type),
    AnyPointer(any_pointer::Reader<'a>),
}

impl Primitive {
    /// What a dynamic value holds, where no pointer stands for it; none for a text, data, a struct, a list and an
    /// untyped pointer.
    #[inline(always)]
    pub fn from_value(value: &Value<'_>) -> Option<Primitive>
        ensures { MatchOption result (IsPointed (source_of value.now))
            (λ held. primitive_source held ≡ source_of value.now) }
    {
        match value {
            Value::Void => Some(Primitive::Void),
            Value::Bool(x) => Some(Primitive::Bool(*x)),
            Value::Int8(x) => Some(Primitive::Int8(*x)),
            Value::Int16(x) => Some(Primitive::Int16(*x)),
            Value::Int32(x) => Some(Primitive::Int32(*x)),
            Value::Int64(x) => Some(Primitive::Int64(*x)),
            Value::UInt8(x) => Some(Primitive::UInt8(*x)),
            Value::UInt16(x) => Some(Primitive::UInt16(*x)),
            Value::UInt32(x) => Some(Primitive::UInt32(*x)),
            Value::UInt64(x) => Some(Primitive::UInt64(*x)),
            Value::Enum(x) => Some(Primitive::Enum(x.get_value())),
            _ => None,
        }
    }
}

impl<'a> From<Value<'a>> for Source<'a> {
    ghost from_gives = { λ value source. source_seen source ≡ source_of value };

    /// A dynamic value, as it is given to a set of a slot or an element.
    #[inline(always)]
    fn from(value: Value<'a>) -> Source<'a> {
        if let Some(held) = Primitive::from_value(&value) {
            return Source::Primitive(held);
        }
        match value {
            Value::Text(x) => Source::Text(x),
            Value::Data(x) => Source::Data(x),
            Value::Struct(x) => Source::Struct(x.get_sections(), x.get_schema()),
            Value::List(x) => Source::List(x.get_elements(), x.element_type()),
            Value::AnyPointer(x) => Source::AnyPointer(x),
            _ => unreachable!(),
        }
    }
}

/// What the Rust type of a source says of its number.
pub fn source_fits(source: Source<'_>)
    ensures { SourceFits (source_seen source.entry) }
{
    match source {
        Source::Primitive(value) => number_fits(value),
        Source::Text(_) => {}
        Source::Data(_) => {}
        Source::Struct(_, _) => {}
        Source::List(_, _) => {}
        Source::AnyPointer(_) => {}
    }
}

/// A struct that a pointer is set to, whatever its schema: a copy with its data rounded up to whole words.
#[derive(Clone, Copy)]
pub struct StructInput<'a>(pub StructReader<'a>);

impl<'a> SetterInput<any_pointer::Owned> for StructInput<'a> {
    ghost set_tree = { λ input. struct_tree (rounded_struct (struct_of input.0)) };

    ghost set_refusal = { λ input error. IsCopyRefusal error (first_fault_of_all (struct_of input.0).pointers) };

    fn set_pointer_builder(
        builder: PointerBuilder<'_>,
        input: StructInput<'a>,
        _canonicalize: bool,
    ) -> Result<()> {
        struct_is_well_formed(&input.0);
        copied_structs_are_well_formed();
        let PointerBuilder { arena, at } = builder;
        arena.set_struct(at, &input.0)
    }
}

/// A list that a pointer is set to, whatever its elements' type.
#[derive(Clone, Copy)]
pub struct ListInput<'a>(pub ListReader<'a>);

impl<'a> SetterInput<any_pointer::Owned> for ListInput<'a> {
    ghost set_tree = { λ input. list_of input.0 };

    ghost set_refusal = { λ input error. IsCopyRefusal error (first_fault (list_of input.0)) };

    fn set_pointer_builder(
        builder: PointerBuilder<'_>,
        input: ListInput<'a>,
        _canonicalize: bool,
    ) -> Result<()> {
        list_is_well_formed(&input.0);
        let PointerBuilder { arena, at } = builder;
        arena.set_list(at, &input.0)
    }
}

/// What a pointer leads to, that another pointer is set to.
#[derive(Clone, Copy)]
pub struct PointerInput<'a>(pub PointerReader<'a>);

impl<'a> SetterInput<any_pointer::Owned> for PointerInput<'a> {
    ghost set_tree = { λ input. tree_of input.0 };

    ghost set_refusal = { λ input error. IsCopyRefusal error (first_fault (tree_of input.0)) };

    fn set_pointer_builder(
        builder: PointerBuilder<'_>,
        input: PointerInput<'a>,
        _canonicalize: bool,
    ) -> Result<()> {
        pointer_is_well_formed(&input.0);
        let PointerBuilder { arena, at } = builder;
        arena.copy_from(at, input.0)
    }
}

impl<'a> SetterInput<any_pointer::Owned> for any_pointer::Reader<'a> {
    ghost set_tree = { λ input. tree_of (pointer_of input) };

    ghost set_refusal = { λ input error. IsCopyRefusal error (first_fault (tree_of (pointer_of input))) };

    fn set_pointer_builder(
        builder: PointerBuilder<'_>,
        input: any_pointer::Reader<'a>,
        _canonicalize: bool,
    ) -> Result<()> {
        let source = input.get_pointer();
        pointer_is_well_formed(&source);
        let PointerBuilder { arena, at } = builder;
        arena.copy_from(at, source)
    }
}

impl<'a> SetterInput<any_pointer::Owned> for dynamic_struct::Reader<'a> {
    ghost set_tree = { λ input. struct_tree (rounded_struct (struct_of (reader_of input))) };

    ghost set_refusal = { λ input error. IsCopyRefusal error
        (first_fault_of_all (struct_of (reader_of input)).pointers) };

    fn set_pointer_builder(
        builder: PointerBuilder<'_>,
        input: dynamic_struct::Reader<'a>,
        _canonicalize: bool,
    ) -> Result<()> {
        let source = input.get_sections();
        struct_is_well_formed(&source);
        copied_structs_are_well_formed();
        let PointerBuilder { arena, at } = builder;
        arena.set_struct(at, &source)
    }
}

impl<'a> SetterInput<any_pointer::Owned> for dynamic_list::Reader<'a> {
    ghost set_tree = { λ input. list_of (list_reader_of input) };

    ghost set_refusal = { λ input error. IsCopyRefusal error (first_fault (list_of (list_reader_of input))) };

    fn set_pointer_builder(
        builder: PointerBuilder<'_>,
        input: dynamic_list::Reader<'a>,
        _canonicalize: bool,
    ) -> Result<()> {
        let source = input.get_elements();
        list_is_well_formed(&source);
        let PointerBuilder { arena, at } = builder;
        arena.set_list(at, &source)
    }
}
