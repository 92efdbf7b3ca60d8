//! What is noted of two structs, though the newer may follow the older.

use crate::differences::Pair;

/// Two enums of one set by their numbers: an older one, and a newer.
#[derive(Clone, Copy, Debug, PartialEq, Eq)]
pub struct EnumPair {
    pub older: u32,
    pub newer: u32,
}

/// What changes in a field.
#[derive(Clone, Copy, Debug, PartialEq, Eq)]
pub enum Change {
    /// The newer struct alone has the field.
    FieldCame,
    /// The field has another name.
    FieldRenamed,
    /// The enum that the field or its lists hold has the enumerant of this ordinal, and had none.
    EnumerantCame(EnumPair, u16),
    /// The enumerant of this ordinal has another name.
    EnumerantRenamed(EnumPair, u16),
    /// Elements became structs of which field 0 is what an element was, in so many lists, one inside another. A reader
    /// needs so many levels more.
    ListsOfStructs(usize),
}

/// A change that keeps no program from messages of the other.
#[derive(Clone, Copy, Debug, PartialEq, Eq)]
pub struct Note {
    /// The structs.
    pub pair: Pair,
    /// The field of the newer struct by its index.
    pub field: u16,
    /// What changes.
    pub change: Change,
}
