//! Laws of the format that every reader stands on.
ghost use Rattle.capnp_wire.specs.Laws.{CopiedStructsAreWellFormed, IsReadBack, MoreBytesChangeNothing, TreesAreWellFormed};
ghost use Rattle.capnp_wire.specs.Defaults.{SoundListsAreTaken, SoundStructListsAreTaken, SoundStructsAreTaken};
ghost use Rattle.capnp_wire.specs.StandFirst.{NumbersStandFirst, PointersStandFirst};
ghost use Rattle.capnp_wire.specs.Standing.{list_of, struct_of, tree_of};
ghost use Rattle.capnp_wire.specs.WellFormed.{IsWellFormed, IsWellFormedStruct};

use crate::list_reader::ListReader;
use crate::pointer_reader::PointerReader;
use crate::struct_reader::StructReader;

/// In a message of any bytes, what stands at any word is well-formed, with any number of levels
/// left: data is whole words and lies in its segment in full, counts and sizes are within their
/// fields, and each struct of a composite list has that list's one size.
pub fn trees_are_well_formed()
    ensures { TreesAreWellFormed }
{}

/// What a pointer's reader stands on is well-formed.
#[tactic(auto, unfolding(crate::specs::Standing::tree_of))]
pub fn pointer_is_well_formed(reader: &PointerReader<'_>)
    ensures { IsWellFormed (tree_of reader.now) }
{}

/// What a struct's reader stands on is well-formed; its data may end within a word, where the struct is an element of a
/// list of numbers.
#[tactic(auto, unfolding(crate::specs::Standing::struct_of))]
pub fn struct_is_well_formed(reader: &StructReader<'_>)
    ensures { IsWellFormedStruct (struct_of reader.now) }
{}

/// What a list's reader stands on is well-formed.
#[tactic(auto, unfolding(crate::specs::Standing::list_of))]
pub fn list_is_well_formed(reader: &ListReader<'_>)
    ensures { IsWellFormed (list_of reader.now) }
{}

/// A copy of what a struct's reader stands on, whose data is rounded up to whole words, is well-formed.
#[tactic(auto, using(crate::specs::Facts::Structs::copied_struct_is_well_formed))]
pub fn copied_structs_are_well_formed()
    ensures { CopiedStructsAreWellFormed }
{}

/// Where a stream is not cut short, what follows its first message changes nothing: it is read as the same tree, or
/// refused alike.
pub fn more_bytes_change_nothing()
    ensures { MoreBytesChangeNothing }
{}

/// The message of a well-formed tree without faults, of depth at most 64 and of fewer than 2^29 words with its root
/// pointer, is read as that tree, whatever follows it.
pub fn messages_are_read_back()
    ensures { IsReadBack }
{}

/// In a list that is read as numbers or pointers, an element is the first bits, or the first pointer, of that element
/// read as a struct. So a list of numbers, texts, data or lists may become a list of structs of which they are the
/// first field.
pub fn elements_stand_first()
    ensures numbers { NumbersStandFirst }
    ensures pointers { PointersStandFirst }
{}

/// Where nothing in a default is to be refused, a null that is filled from it is refused as one without a default.
pub fn sound_defaults_are_taken()
    ensures structs { SoundStructsAreTaken }
    ensures lists { SoundListsAreTaken }
    ensures struct_lists { SoundStructListsAreTaken }
{}
