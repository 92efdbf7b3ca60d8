//! Refusals of what is asked for by a path, each with its place.
ghost use Rattle.std.specs.Prelude.{[], ◌≡◌, ◌≢◌, IfErr, IfOk, string_bytes};
ghost use Rattle.capnp_call.specs.Seen.{path_seen};
ghost use Rattle.capnp_device.specs.declared.error.ErrorKind.TheVariants.{OutOfMemory};
ghost use Rattle.riftcalico_core.specs.AllFaults.{part_note};
ghost use Rattle.riftcalico_core.specs.Notes.{place_note};
ghost use Rattle.riftcalico_core.specs.Steps.Told.{IsToldAs};
ghost use Rattle.riftcalico_core.specs.declared.fault.Blamed.TheVariants.{Input};

use crate::fault::{Blamed, Fault, get_fault};
use crate::note::{get_part_note, get_place_note};
use capnp_call::calls::Step;
use capnp_patch::place::Refusal;
use capnp_wire::error::{Error, ErrorKind, Result};
use std::alloc::Global;

/// A refusal of what is asked for by a path, with its place. Refused with `OutOfMemory` alone.
pub(crate) fn note_fault(alloc: Global, steps: &[Step<'_>], refusal: &Refusal<'_>) -> Result<Fault>
    ensures error { IfOk result (λ f. f.error.kind ≡ refusal.now.kind) }
    ensures note { IfOk result (λ f. string_bytes f.note ≡ place_note (path_seen steps.now) refusal.now.place) }
    ensures blamed { IfOk result (λ f. f.blamed ≡ Input) }
    ensures memory { IfErr result (λ e. e.kind ≡ OutOfMemory) }
{
    let note = get_place_note(alloc, steps, &refusal.place)?;
    Ok(Fault {
        error: Error::from(refusal.kind),
        blamed: Blamed::Input,
        note,
    })
}

/// A refusal below a path, as its fault with the place in its note, or that there is no memory for the note.
pub(crate) fn tell_place(alloc: Global, steps: &[Step<'_>], refusal: &Refusal<'_>) -> Fault
    ensures told { result.error.kind ≢ OutOfMemory
        → IsToldAs refusal.now.kind (place_note (path_seen steps.now) refusal.now.place) result }
    ensures blamed { result.blamed ≡ Input }
{
    match note_fault(alloc, steps, refusal) {
        Ok(fault) => fault,
        Err(error) => get_fault(alloc, error, Blamed::Input),
    }
}

/// A refusal of what stands at a path itself, with the path; or that there is no memory for its note.
pub(crate) fn tell_path(alloc: Global, steps: &[Step<'_>], kind: ErrorKind) -> Fault
    ensures told { result.error.kind ≢ OutOfMemory → IsToldAs kind (part_note (path_seen steps.now) []) result }
    ensures blamed { result.blamed ≡ Input }
{
    match get_part_note(alloc, steps, "") {
        Ok(note) => Fault {
            error: Error::from(kind),
            blamed: Blamed::Input,
            note,
        },
        Err(error) => get_fault(alloc, error, Blamed::Input),
    }
}
