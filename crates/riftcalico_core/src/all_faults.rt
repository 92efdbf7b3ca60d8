//! All that is refused of a message, as lines.
ghost use Rattle.std.specs.Prelude.{◌≡◌, ◌++◌, IfErr, IfOk, OnOk, string_bytes};
ghost use Rattle.capnp_call.specs.Seen.{path_seen};
ghost use Rattle.capnp_device.specs.declared.error.ErrorKind.TheVariants.{OutOfMemory};
ghost use Rattle.riftcalico_core.specs.AllFaults.{any_told, input_line, part_lines, part_note, refusals_lines};

use crate::note::{get_part_note, get_step_note};
use capnp_call::calls::Step;
use capnp_check::place::RefusedPlace;
use capnp_patch::lines::put_word;
use capnp_patch::place::Refusals;
use capnp_wire::error::{ErrorKind, Result};
use std::alloc::Global;

/// Appends the line of a refusal of the message, with what tells more. Refused with `OutOfMemory` alone.
fn put_input_line(lines: &mut String, kind: ErrorKind, note: &str) -> Result<()>
    ensures put { OnOk result (string_bytes lines.new ≡ string_bytes lines.old ++ input_line kind note.now) }
    ensures memory { IfErr result (λ e. e.kind ≡ OutOfMemory) }
{
    let number = kind.number();
    let name = kind.name();
    write!(lines, "refused: {number} {name} (standard input)")?;
    put_word(lines, note)?;
    lines.push_str("\n")?;
    Ok(())
}

/// Appends the line of a part of what stands at a path. Refused with `OutOfMemory` alone.
fn put_part(lines: &mut String, path: &[Step<'_>], kind: ErrorKind, words: &str) -> Result<()>
    ensures put { OnOk result (string_bytes lines.new
        ≡ string_bytes lines.old ++ input_line kind (part_note (path_seen path.now) words.now)) }
    ensures memory { IfErr result (λ e. e.kind ≡ OutOfMemory) }
{
    let note = get_part_note(*lines.allocator(), path, words)?;
    put_input_line(lines, kind, note.as_str())
}

/// The lines of parts of what stands at a path. Refused with `OutOfMemory` alone.
fn get_part_lines(alloc: Global, path: &[Step<'_>], places: &[RefusedPlace]) -> Result<String>
    ensures lines { IfOk result (λ lines. string_bytes lines ≡ part_lines (path_seen path.now) places.now) }
    ensures memory { IfErr result (λ e. e.kind ≡ OutOfMemory) }
{
    let mut lines = String::new(alloc);
    for place in places {
        put_part(&mut lines, path, place.kind, place.words.as_str())?;
    }
    Ok(lines)
}

/// The lines of all that is refused of what stands at a path. Refused with `OutOfMemory` alone.
pub(crate) fn get_refusal_lines(
    alloc: Global,
    path: &[Step<'_>],
    refusals: &Refusals<'_>,
) -> Result<String>
    ensures lines { IfOk result (λ lines. string_bytes lines ≡ refusals_lines (path_seen path.now) refusals.now) }
    ensures memory { IfErr result (λ e. e.kind ≡ OutOfMemory) }
{
    match refusals {
        Refusals::Root(kind) => {
            let mut lines = String::new(alloc);
            put_input_line(&mut lines, *kind, "")?;
            Ok(lines)
        }
        Refusals::Step(refused) => {
            let mut lines = String::new(alloc);
            let note = get_step_note(alloc, path, *refused)?;
            put_input_line(&mut lines, refused.error.kind, note.as_str())?;
            Ok(lines)
        }
        Refusals::Parts(places) => get_part_lines(alloc, path, places.as_slice()),
    }
}

/// Whether anything is refused.
pub(crate) fn any_refusal(refusals: &Refusals<'_>) -> bool
    ensures { result ≡ any_told refusals.now }
{
    match refusals {
        Refusals::Root(_) | Refusals::Step(_) => true,
        Refusals::Parts(places) => !places.is_empty(),
    }
}
