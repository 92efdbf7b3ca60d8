//! What is told of two structs.

use crate::noted::Note;

/// Two structs of one set by the numbers of their brands: an older one, and a newer.
#[derive(Clone, Copy, Debug, PartialEq, Eq)]
pub struct Pair {
    pub older: u32,
    pub newer: u32,
}

/// What differs.
#[derive(Clone, Copy, Debug, PartialEq, Eq)]
pub enum Cause {
    /// The newer struct has fewer fields: the field is gone.
    FieldGone,
    /// A slot became a group, or a group a slot.
    KindChanged,
    /// The field's slot has another offset.
    PlaceChanged,
    /// The field has another default, and its type is no other one.
    DefaultChanged,
    /// The field is a member of the union under another discriminant value.
    DiscriminantChanged,
    /// The field was a member of the union, and is none.
    LeftUnion,
    /// The field was no member of the union, and is one.
    EnteredUnion,
    /// The field, or what its lists hold, has another type.
    TypeChanged,
    /// The elements of a list were no structs and are structs now, of which field 0 does not stand where an element
    /// stood.
    ElementsBecameStructs,
    /// The enum that the field or its lists hold has fewer enumerants.
    FewerEnumerants,
    /// The union is gone.
    UnionGone,
    /// The union has fewer members.
    FewerMembers,
    /// The union's discriminant stands elsewhere.
    UnionMoved,
}

/// Why a newer struct does not follow an older one.
#[derive(Clone, Copy, Debug, PartialEq, Eq)]
pub struct Difference {
    /// The structs.
    pub pair: Pair,
    /// The field of the older struct by its index; none where the unions differ.
    pub field: Option<u16>,
    /// What differs.
    pub cause: Cause,
}

/// What differs in several pairs of structs, and in which of them it does; and what changes though they may follow.
#[derive(Drop)]
pub struct Explanation {
    /// Each difference, once.
    pub told: Vec<Difference>,
    /// What else changes, pair by pair, and in these field by field.
    pub notes: Vec<Note>,
    /// Of each pair that was asked, in their order, whether the newer struct follows the older one.
    pub follows: Vec<bool>,
}
