//! Numbers that count on behind other lists, and lists of records with such numbers.
ghost use Rattle.std.specs.Prelude.{◌≡◌, ◌+◌, ◌++◌, All, IfErr, IfOk, OnOk, map};
ghost use Rattle.capnp_joined_sets.specs.Refusals.{IsMoveRefusal, IsNumber};
ghost use Rattle.capnp_joined_sets.specs.declared.moves.Moves.{Moves};

use capnp_wire::error::{Error, ErrorKind, Result};
use std::alloc::Global;

/// How far numbers move up: by as many entries as stand before.
#[derive(Clone, Copy)]
pub(crate) struct Moves {
    pub(crate) nodes: usize,
    pub(crate) brands: usize,
    pub(crate) enums: usize,
}

/// By nothing.
pub(crate) const NO_MOVES: Moves = Moves {
    nodes: 0,
    brands: 0,
    enums: 0,
};

/// A number that is so many further on. Refused with `TooManyTypes` where it takes more than 32 bits.
pub(crate) fn moved_number(number: u32, by: usize) -> Result<u32>
    ensures moved { IfOk result (λ n. n ≡ number + by) }
    ensures refused { IfErr result (IsMoveRefusal (IsNumber (number + by))) }
{
    let room = u32::MAX - number;
    if by > room as usize {
        return Err(Error::from(ErrorKind::TooManyTypes));
    }
    Ok(number + by as u32)
}

/// What is copied into another set.
pub(crate) trait Moved: Sized {
    // What it is to definitions, and what it is there with its numbers moved; and whether its numbers fit.
    ghost Seen: { Type 0 };

    ghost seen: { Self → Seen };

    ghost moved: { Moves → Seen → Seen };

    ghost fits: { Seen → Type 0 };

    fn copy_moved(&self, alloc: Global, moves: Moves) -> Result<Self>
        ensures moved { IfOk result (λ copy. seen copy ≡ moved moves (seen self.now)) }
        ensures refused { IfErr result (IsMoveRefusal (fits (moved moves (seen self.now)))) };
}

/// Puts a copy of each entry behind what is there.
pub(crate) fn add_moved<T: Moved + Drop>(
    out: &mut Vec<T>,
    alloc: Global,
    entries: &[T],
    moves: Moves,
) -> Result<()>
    ensures moved { OnOk result (map T.seen out.new.items
        ≡ map T.seen out.old.items ++ map (T.moved moves) (map T.seen entries.now)) }
    ensures refused { IfErr result (IsMoveRefusal (All T.fits (map (T.moved moves) (map T.seen entries.now)))) }
{
    for entry in entries {
        let copy = entry.copy_moved(alloc, moves)?;
        out.push(copy)?;
    }
    Ok(())
}

/// A copy of each entry.
pub(crate) fn all_moved<T: Moved + Drop>(
    alloc: Global,
    entries: &[T],
    moves: Moves,
) -> Result<Vec<T>>
    ensures moved { IfOk result (λ out. map T.seen out.items ≡ map (T.moved moves) (map T.seen entries.now)) }
    ensures refused { IfErr result (IsMoveRefusal (All T.fits (map (T.moved moves) (map T.seen entries.now)))) }
{
    let mut out = Vec::with_capacity(alloc, entries.len())?;
    add_moved(&mut out, alloc, entries, moves)?;
    Ok(out)
}
