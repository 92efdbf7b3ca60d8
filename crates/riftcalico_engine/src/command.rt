//! What the program does with its words.
ghost use Rattle.std.specs.Prelude.{◌≡◌, ⊤, Ok, map, string_bytes};
ghost use Rattle.riftcalico_engine.specs.declared.place.FilesReplacer.{FilesReplacer as OfFiles};
ghost use Rattle.riftcalico_engine.specs.Programs.{IsProgramDone, IsNamed};
ghost use Rattle.riftcalico_words.specs.Requests.{asked_request};
ghost use Rattle.riftcalico_words.specs.Tasks as tasks;

use crate::place::{
    FilesReplacer, Replacer, find_place, get_placed, is_whole, refuse_new, refuse_old,
};
use crate::shell::{run, run_from};
use crate::told::{Told, find_task, get_outcome};
use capnp_show_engine::command::{report, tell};
use capnp_show_engine::opener::Opener;
use capnp_wire::device::{ReadSource, Sink, Source, WriteSink};
use std::alloc::Global;
use std::rt::Files;

/// Runs the program on its words over what opens files, and answers its exit status: 0 where a text or a message was
/// written, 1 where a call was refused, or the set, a message or a device, and 2 for words that ask for nothing, with
/// what is unknown and the usage on `errors`, or for a word that can't be read, which is told with its place. Replies to
/// calls and refusals are told on `errors`, a line each. Where a line can't be written there, the status is the same. No
/// files are opened but those that the words name, first the one whose messages are replaced or that of the older of two
/// messages, then that of the calls or of the newer one.
pub fn command_over<O: Opener + Replacer, R: Source, W: Sink, F: Sink>(
    opener: &mut O,
    alloc: Global,
    words: &[String],
    source: &mut R,
    sink: &mut W,
    errors: &mut F,
) -> u8
    ensures done { IsProgramDone O.opens O.File.left O.File.failures O.makes O.puts O.removes O.New.written O.New.failures
        R.left R.failures W.written W.failures F.written F.failures (asked_request (map string_bytes words.now)) result opener.old opener.new source.old source.new sink.old
        sink.new errors.old errors.new }
    ensures named { (t : tasks.Task) → asked_request (map string_bytes words.now) ≡ Ok t
        → IsNamed O.opens O.makes O.puts O.removes t opener.old opener.new }
{
    let outcome = match find_task(alloc, words) {
        Ok(task) => {
            let ran = match find_place(alloc, &task) {
                Ok(None) => run_from(alloc, opener, &task, source, sink, errors),
                Ok(Some(place)) => match opener.open(place.file) {
                    Ok(mut old) => match opener.make_new(place.path.as_str(), place.file) {
                        Ok(mut new) => {
                            let by = run(alloc, opener, &task, &mut old, &mut new, errors);
                            if is_whole(&by) {
                                let put = opener.put_in_place(new, place.path.as_str(), place.file);
                                get_placed(alloc, by, put)
                            } else {
                                opener.remove_new(new, place.path.as_str());
                                by
                            }
                        }
                        Err(_) => refuse_new(alloc),
                    },
                    Err(_) => refuse_old(alloc),
                },
                Err(refusal) => Err(refusal),
            };
            get_outcome(alloc, task, ran)
        }
        Err(outcome) => outcome,
    };
    match &outcome.told {
        Some(Told::Line(line)) => tell(line.as_bytes(), errors),
        Some(Told::Number(kind)) => report(*kind, errors),
        None => {}
    }
    outcome.status
}

/// `command_over` over the files of a runtime, where any of them may be opened at a path: no contract of the system
/// tells what a file holds.
pub fn command<S: Files, R: Source, W: Sink, F: Sink>(
    rt: &S,
    alloc: Global,
    words: &[String],
    source: &mut R,
    sink: &mut W,
    errors: &mut F,
) -> u8
    ensures done { (before : OfFiles S) × (after : OfFiles S) × IsProgramDone
        (λ _ _ _ _. ⊤) ⟦<ReadSource<S::File> as Source>⟧.left ⟦<ReadSource<S::File> as Source>⟧.failures
        (λ _ _ _ _ _. ⊤) (λ _ _ _ _ _ _. ⊤) (λ _ _ _ _. ⊤)
        ⟦<WriteSink<S::File> as Sink>⟧.written ⟦<WriteSink<S::File> as Sink>⟧.failures R.left R.failures
        W.written W.failures F.written F.failures (asked_request (map string_bytes words.now)) result before after
        source.old source.new sink.old sink.new errors.old errors.new }
{
    let mut opener = FilesReplacer::new(rt);
    command_over(&mut opener, alloc, words, source, sink, errors)
}
