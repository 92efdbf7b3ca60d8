//! What the reads of this crate mean.
ghost use Rattle.capnp_known.specs.Laws.{PartsAreFields};

use crate::known_set::KnownSet;

/// What is read of a part of a struct's record is the read of the field, as `dynamic_struct::Reader::get` answers it.
pub fn parts_are_fields<S: KnownSet>()
    ensures { PartsAreFields S.set }
{}
