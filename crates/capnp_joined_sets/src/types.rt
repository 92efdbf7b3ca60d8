//! Types whose brands, nodes and enums have moved up.
ghost use Rattle.std.specs.Prelude.{◌≡◌, List, IfErr, IfOk, All, map};
ghost use Rattle.capnp_base.specs.Types.{base_of, list_depth};
ghost use Rattle.capnp_schema.specs.Schema.{seen_types};
ghost use Rattle.capnp_schema.specs.Types.{SchemaType, lists_of, seen_base, seen_type};
ghost use Rattle.capnp_joined_sets.specs.Joined.{moved_annotation_types, moved_type, moved_types};
ghost use Rattle.capnp_joined_sets.specs.Refusals.{AnnotationTypesFit, IsMoveRefusal, TypeFits, TypesFit};
ghost use Rattle.capnp_joined_sets.specs.declared.moves.Moves.{Moves};

use crate::moves::{Moved, Moves, all_moved, moved_number};
use capnp_base::introspect::{RawBrandedStructSchema, RawEnumSchema, Type, TypeVariant};
use capnp_schema::record::AnnotationTypes;
use capnp_wire::error::Result;
use std::alloc::Global;

/// How many lists are around a type.
fn count_lists(of: Type) -> usize
    ensures { result ≡ list_depth of }
{
    let mut rest = of;
    let mut count: usize = 0;
    while let TypeVariant::List(element) = rest.which() {
        rest = element;
        count += 1;
    }
    count
}

/// A type that is no list, with so many lists around it.
fn lists_around(inner: Type, count: usize) -> Type
    requires { list_depth inner ≡ 0 }
    ensures { seen_type result ≡ lists_of count (seen_type inner) }
{
    let mut outer = inner;
    for _ in 0..count {
        outer = Type::list_of(outer);
    }
    outer
}

/// What stands inside all lists, with its numbers moved.
fn moved_inside(of: Type, moves: Moves) -> Result<Type>
    ensures bare { IfOk result (λ t. list_depth t ≡ 0) }
    ensures moved { IfOk result (λ t. seen_type t ≡ moved_type moves (seen_base (base_of of))) }
    ensures refused { IfErr result (IsMoveRefusal (TypeFits (moved_type moves (seen_base (base_of of))))) }
{
    match of.innermost() {
        TypeVariant::Struct(schema) => {
            let number = moved_number(schema.number, moves.brands)?;
            let generic = moved_number(schema.generic, moves.nodes)?;
            Ok(Type::from(TypeVariant::Struct(RawBrandedStructSchema { number, generic })))
        }
        TypeVariant::Enum(schema) => {
            let number = moved_number(schema.number, moves.enums)?;
            Ok(Type::from(TypeVariant::Enum(RawEnumSchema { number })))
        }
        other => Ok(Type::from(other)),
    }
}

/// A type with its numbers moved, inside lists too.
pub(crate) fn moved_type(of: Type, moves: Moves) -> Result<Type>
    ensures moved { IfOk result (λ t. seen_type t ≡ moved_type moves (seen_type of)) }
    ensures refused { IfErr result (IsMoveRefusal (TypeFits (moved_type moves (seen_type of)))) }
{
    let inner = moved_inside(of, moves)?;
    Ok(lists_around(inner, count_lists(of)))
}

impl Moved for Type {
    ghost Seen = { SchemaType };

    ghost seen = { seen_type };

    ghost moved = { moved_type };

    ghost fits = { TypeFits };

    fn copy_moved(&self, alloc: Global, moves: Moves) -> Result<Type> {
        let _unused = alloc;
        moved_type(*self, moves)
    }
}

/// The types of the annotations of a field or an enumerant.
impl Moved for Vec<Type> {
    ghost Seen = { List SchemaType };

    ghost seen = { λ types. map seen_type types.items };

    ghost moved = { moved_types };

    ghost fits = { TypesFit };

    fn copy_moved(&self, alloc: Global, moves: Moves) -> Result<Vec<Type>> {
        all_moved(alloc, self, moves)
    }
}

/// The types of annotations.
pub(crate) fn moved_annotation_types(
    alloc: Global,
    types: &AnnotationTypes,
    moves: Moves,
) -> Result<AnnotationTypes>
    ensures moved { IfOk result (λ copy. seen_types copy ≡ moved_annotation_types moves (seen_types types.now)) }
    ensures refused { IfErr result (IsMoveRefusal (AnnotationTypesFit (moved_annotation_types moves (seen_types types.now)))) }
{
    let own = all_moved(alloc, &types.own, moves)?;
    let children = all_moved(alloc, &types.children, moves)?;
    Ok(AnnotationTypes { own, children })
}
