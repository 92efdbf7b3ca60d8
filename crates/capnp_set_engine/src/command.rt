//! What the program does with its words.
ghost use Rattle.std.specs.Prelude.{◌≡◌, ◌≢◌, ◌≤◌, Bool, None, Some};
ghost use Rattle.capnp_device.specs.declared.error.Error.{Error};
ghost use Rattle.capnp_device.specs.declared.error.ErrorKind.TheVariants.{WriteFailed};
ghost use Rattle.capnp_show_engine.specs.Command.{IsTold, refusal_line};
ghost use Rattle.capnp_set_engine.specs.Command.{IsRefusedRun, asked_conversion, set_usage_line};
ghost use Rattle.capnp_set_engine.specs.Convert.{IsWritten};

use crate::engine::convert;
use capnp_show_engine::command::{report, tell};
use capnp_wire::device::{Sink, Source};
use std::alloc::Global;

const USAGE: &str = "usage: capnp_set [--strict]\n";

/// Whether the words ask for a conversion that refuses floats and interfaces; none where they ask for no conversion.
fn read_words(words: &[String]) -> Option<bool>
    ensures { result ≡ asked_conversion words.now }
{
    match words {
        [] => Some(false),
        [option] if option.as_str() == "--strict" => Some(true),
        _ => None,
    }
}

/// Runs the program on its words, and answers its exit status: 0 where the set was written, with its notes on `errors`,
/// 1 where `convert` was refused, with its number on `errors`, and 2 for other words, with the usage on `errors` and
/// before any input is read. Where a line can't be written to `errors`, the status is the same.
pub fn command<R: Source, W: Sink, F: Sink>(
    alloc: Global,
    words: &[String],
    source: &mut R,
    sink: &mut W,
    errors: &mut F,
) -> u8
    ensures statuses { result ≤ 2 }
    ensures other_words { asked_conversion words.now ≡ None → result ≡ 2 }
    ensures known_words { result ≡ 2 → asked_conversion words.now ≡ None }
    ensures unread { result ≡ 2 → source.new ≡ source.old }
    ensures unwritten { result ≡ 2 → sink.new ≡ sink.old }
    ensures usage { result ≡ 2 → IsTold set_usage_line (F.written errors.old) (F.written errors.new)
        (F.failures errors.old) (F.failures errors.new) }
    ensures written { result ≡ 0 → (strict : Bool) × (asked_conversion words.now ≡ Some strict)
        × IsWritten strict (R.left source.old) (R.left source.new) (W.written sink.old) (W.written sink.new)
        (F.written errors.old) (F.written errors.new) (F.failures errors.old) (F.failures errors.new) }
    ensures refused { result ≡ 1 → (strict : Bool) × (e : Error) × (asked_conversion words.now ≡ Some strict)
        × IsTold (refusal_line e.kind) (F.written errors.old) (F.written errors.new)
        (F.failures errors.old) (F.failures errors.new)
        × IsRefusedRun strict e (R.left source.old) (R.left source.new) (W.written sink.old) (W.written sink.new)
        (R.failures source.old) (R.failures source.new) (W.failures sink.old) (W.failures sink.new)
        × (e.kind ≢ WriteFailed → sink.new ≡ sink.old) }
{
    let Some(strict) = read_words(words) else {
        tell(USAGE.as_bytes(), errors);
        return 2;
    };
    match convert(alloc, source, sink, errors, strict) {
        Ok(()) => 0,
        Err(error) => {
            report(error.kind, errors);
            1
        }
    }
}
