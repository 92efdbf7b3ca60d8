//! What the program does with its words.
ghost use Rattle.std.specs.Prelude.{◌≡◌, ◌≢◌, ◌≤◌, ◌<◌, ⊤, length, IfErr, IfOk, OnOk, Some, None};
ghost use Rattle.std.specs.IoError.{error_kind};
ghost use Rattle.std.specs.declared.io.ErrorKind.TheVariants.{OutOfMemory as NoMemory};
ghost use Rattle.capnp_device.specs.Device.{HasFailed};
ghost use Rattle.capnp_device.specs.declared.error.Error.{Error as Refusal};
ghost use Rattle.capnp_device.specs.declared.error.ErrorKind.TheVariants.{OutOfMemory, ReadFailed, WriteFailed};
ghost use Rattle.capnp_schema.specs.Builtin.{builtin};
ghost use Rattle.capnp_show_engine.specs.Command.{IsOfBuiltin, IsTold, ShowTask, asked_show, show_paths_of, refusal_line, show_task_of, usage_line, words_after_name};
ghost use Rattle.capnp_show_engine.specs.Opened.{AsksAmong, IsNotOpened, IsFileOpened, IsSomeFile};
ghost use Rattle.capnp_show_engine.specs.Run.{IsRefusedTask, IsShownTask};
ghost use Rattle.capnp_show_engine.specs.Show.{IsTextCutShort, IsOfMessage, IsShowRefused, IsShown};

use crate::engine::show;
use crate::line::{LONGEST, put_refusal};
use crate::opener::{FilesOpener, Opener};
use crate::request::{Asked, Request, read_words};
use crate::with_set::show_with_file;
use capnp_schema::builtin;
use capnp_wire::device::{ReadSource, Sink, Source};
use capnp_wire::error::{Error, ErrorKind, Result};
use capnp_wire::transfer::write_all;
use std::alloc::Global;
use std::rt::Files;
use std::{env, io};

const USAGE: &str = "usage: capnp_show [--set FILE] NAME [--indent]\n";

/// The words after the program's name, of what the system answered; none where one of them is not UTF-8, since no such
/// list of words names a struct. Refused with `OutOfMemory` alone.
pub fn words(alloc: Global, args: io::Result<env::Args>) -> Result<Vec<String>>
    ensures words { IfOk result (λ words. words.items ≡ words_after_name args) }
    ensures memory { OnOk result (IfErr args (λ e. error_kind e ≢ NoMemory)) }
    ensures refused { IfErr result (λ e. e.kind ≡ OutOfMemory) }
{
    match args {
        Ok(args) => Ok(args.skip(1).collect(alloc)?),
        Err(error) if error.kind() == io::ErrorKind::OutOfMemory => {
            Err(Error::from(ErrorKind::OutOfMemory))
        }
        Err(_) => Ok(Vec::new(alloc)),
    }
}

/// `show` under the built-in set, which is made before any input is read.
fn show_built_in<R: Source, W: Sink>(
    alloc: Global,
    request: Request,
    source: &mut R,
    sink: &mut W,
) -> Result<()>
    requires { request.brand < length builtin.brands }
    ensures shown { OnOk result (IsShown builtin request.brand request.indented (R.left source.old) (R.left source.new)
        (W.written sink.old) (W.written sink.new)) }
    ensures refused { IfErr result (λ e. IsOfMessage e.kind →
        IsShowRefused builtin request.brand request.indented e.kind (R.left source.old) (R.left source.new)) }
    ensures read_failed { IfErr result (λ e. e.kind ≡ ReadFailed →
        HasFailed (R.failures source.old) (R.failures source.new)) }
    ensures write_failed { IfErr result (λ e. e.kind ≡ WriteFailed →
        HasFailed (W.failures sink.old) (W.failures sink.new)) }
    ensures beginning { IfErr result (λ e. e.kind ≡ WriteFailed →
        IsTextCutShort builtin request.brand request.indented (R.left source.old) (R.left source.new)
        (W.written sink.old) (W.written sink.new)) }
    ensures nothing { IfErr result (λ e. e.kind ≢ WriteFailed → sink.new ≡ sink.old) }
{
    let schemas = builtin::new_set(alloc)?;
    show(
        alloc,
        &schemas,
        request.brand,
        source,
        sink,
        request.indented,
    )
}

/// Shows what was asked for.
#[tactic(auto, using(crate::specs::Facts::Opening::none_asked))]
fn show_asked<O: Opener, R: Source, W: Sink>(
    alloc: Global,
    opener: &mut O,
    asked: Asked<'_>,
    source: &mut R,
    sink: &mut W,
) -> Result<()>
    requires { IsOfBuiltin asked }
    ensures shown { OnOk result (IsShownTask (IsFileOpened O.opens opener.old opener.new)
        (opener.new ≡ opener.old) O.File.left
        (show_task_of asked.entry) (R.left source.old) (R.left source.new) (W.written sink.old) (W.written sink.new)) }
    ensures refused { IfErr result (λ e. IsRefusedTask (IsFileOpened O.opens opener.old opener.new)
        (IsNotOpened O.opens opener.old opener.new) (opener.new ≡ opener.old) O.File.left O.File.failures
        (source.new ≡ source.old) (show_task_of asked.entry) e (R.left source.old) (R.left source.new)
        (W.written sink.old) (W.written sink.new) (R.failures source.old) (R.failures source.new)
        (W.failures sink.old) (W.failures sink.new)) }
    ensures opened { AsksAmong O.opens (show_paths_of (show_task_of asked.entry)) opener.old opener.new }
    ensures nothing { IfErr result (λ e. e.kind ≢ WriteFailed → sink.new ≡ sink.old) }
{
    match asked {
        Asked::BuiltIn(request) => show_built_in(alloc, request, source, sink),
        Asked::InFile(request) => show_with_file(
            alloc,
            opener,
            request.path,
            request.name,
            source,
            sink,
            request.indented,
        ),
    }
}

/// Runs the program on its words over what opens files, and answers its exit status: 0 where the text was written, 1
/// where `show` or `show_with_file` was refused, with its number on `errors`, and 2 for other words, with the usage on
/// `errors`, before any input is read or a file is opened. Where a line can't be written to `errors`, the status is the
/// same. No file is opened but that which the words name.
pub fn command_over<O: Opener, R: Source, W: Sink, F: Sink>(
    opener: &mut O,
    alloc: Global,
    words: &[String],
    source: &mut R,
    sink: &mut W,
    errors: &mut F,
) -> u8
    ensures statuses { result ≤ 2 }
    ensures other_words { asked_show words.now ≡ None → result ≡ 2 }
    ensures known_words { result ≡ 2 → asked_show words.now ≡ None }
    ensures unread { result ≡ 2 → source.new ≡ source.old }
    ensures unopened { result ≡ 2 → opener.new ≡ opener.old }
    ensures named { (t : ShowTask) → asked_show words.now ≡ Some t → AsksAmong O.opens (show_paths_of t) opener.old opener.new }
    ensures unwritten { result ≡ 2 → sink.new ≡ sink.old }
    ensures usage { result ≡ 2 → IsTold usage_line (F.written errors.old) (F.written errors.new)
        (F.failures errors.old) (F.failures errors.new) }
    ensures shown { result ≡ 0 → (t : ShowTask) × (asked_show words.now ≡ Some t)
        × IsShownTask (IsFileOpened O.opens opener.old opener.new) (opener.new ≡ opener.old) O.File.left t
        (R.left source.old) (R.left source.new) (W.written sink.old) (W.written sink.new) }
    ensures quiet { result ≡ 0 → errors.new ≡ errors.old }
    ensures refused { result ≡ 1 → (t : ShowTask) × (e : Refusal) × (asked_show words.now ≡ Some t)
        × IsTold (refusal_line e.kind) (F.written errors.old) (F.written errors.new)
        (F.failures errors.old) (F.failures errors.new)
        × IsRefusedTask (IsFileOpened O.opens opener.old opener.new) (IsNotOpened O.opens opener.old opener.new)
        (opener.new ≡ opener.old) O.File.left O.File.failures (source.new ≡ source.old) t e
        (R.left source.old) (R.left source.new) (W.written sink.old) (W.written sink.new)
        (R.failures source.old) (R.failures source.new) (W.failures sink.old) (W.failures sink.new)
        × (e.kind ≢ WriteFailed → sink.new ≡ sink.old) }
{
    let Some(asked) = read_words(words) else {
        tell(USAGE.as_bytes(), errors);
        return 2;
    };
    match show_asked(alloc, opener, asked, source, sink) {
        Ok(()) => 0,
        Err(error) => {
            report(error.kind, errors);
            1
        }
    }
}

/// Does what the words of a command ask, as `command_over`, over the files of a runtime.
pub fn command<O: Files, R: Source, W: Sink, F: Sink>(
    rt: &O,
    alloc: Global,
    words: &[String],
    source: &mut R,
    sink: &mut W,
    errors: &mut F,
) -> u8
    ensures statuses { result ≤ 2 }
    ensures other_words { asked_show words.now ≡ None → result ≡ 2 }
    ensures known_words { result ≡ 2 → asked_show words.now ≡ None }
    ensures unread { result ≡ 2 → source.new ≡ source.old }
    ensures unwritten { result ≡ 2 → sink.new ≡ sink.old }
    ensures usage { result ≡ 2 → IsTold usage_line (F.written errors.old) (F.written errors.new)
        (F.failures errors.old) (F.failures errors.new) }
    ensures shown { result ≡ 0 → (t : ShowTask) × (asked_show words.now ≡ Some t)
        × IsShownTask IsSomeFile ⊤ ⟦<ReadSource<O::File> as Source>⟧.left t
        (R.left source.old) (R.left source.new) (W.written sink.old) (W.written sink.new) }
    ensures quiet { result ≡ 0 → errors.new ≡ errors.old }
    ensures refused { result ≡ 1 → (t : ShowTask) × (e : Refusal) × (asked_show words.now ≡ Some t)
        × IsTold (refusal_line e.kind) (F.written errors.old) (F.written errors.new)
        (F.failures errors.old) (F.failures errors.new)
        × IsRefusedTask IsSomeFile
        (λ _. ⊤) ⊤ ⟦<ReadSource<O::File> as Source>⟧.left ⟦<ReadSource<O::File> as Source>⟧.failures
        (source.new ≡ source.old) t e
        (R.left source.old) (R.left source.new) (W.written sink.old) (W.written sink.new)
        (R.failures source.old) (R.failures source.new) (W.failures sink.old) (W.failures sink.new)
        × (e.kind ≢ WriteFailed → sink.new ≡ sink.old) }
{
    let mut opener = FilesOpener::new(rt);
    command_over(&mut opener, alloc, words, source, sink, errors)
}

/// Writes a refusal's number, as far as the sink takes the line. No memory is taken.
pub fn report<F: Sink>(kind: ErrorKind, errors: &mut F)
    ensures { IsTold (refusal_line kind) (F.written errors.old) (F.written errors.new)
        (F.failures errors.old) (F.failures errors.new) }
{
    let mut line = [0; LONGEST];
    let end = put_refusal(&mut line, kind);
    tell(&line[..end], errors);
}

/// Writes a line, as far as the sink takes it.
pub fn tell<F: Sink>(line: &[u8], errors: &mut F)
    ensures { IsTold line.now (F.written errors.old) (F.written errors.new)
        (F.failures errors.old) (F.failures errors.new) }
{
    let _ = write_all(errors, line);
}
