//! A file whose messages are replaced by what is made of them: a new file beside it takes what is written, and is put in
//! its place where nothing was refused.
ghost use Rattle.std.specs.Prelude.{ℕ, List, Result, ⊤, ◌≡◌, IfErr, IfOk, Err, string_bytes};
ghost use Rattle.capnp_device.specs.declared.device.DeviceFault.{DeviceFault as Fault};
ghost use Rattle.capnp_device.specs.declared.error.ErrorKind.TheVariants.{OutOfMemory, WriteFailed};
ghost use Rattle.riftcalico_core.specs.Faults.{place_file as replaced_file};
ghost use Rattle.riftcalico_engine.specs.Places.{is_whole, new_path};
ghost use Rattle.riftcalico_engine.specs.Steps.Placing.{HasPlace, IsPlaceOf, IsPlaced, IsUnread, IsUnwritten};
ghost use Rattle.riftcalico_words.specs.RequestSeen.{task_seen};

use crate::ended::{Ended, Ran, Refusal, refuse};
use capnp_show_engine::opener::Opener;
use capnp_wire::device::{DeviceFault, ReadSource, Sink, WriteSink};
use capnp_wire::error::{Error, ErrorKind, Result};
use riftcalico_core::fault::{Blamed, get_place_file};
use riftcalico_words::request::Task;
use std::alloc::Global;
use std::fs::{File, OpenFile};
use std::rt::Files;
use std::{fs, io};

/// What makes new files, and puts them in the place of others.
pub trait Replacer {
    /// A new file, which takes bytes.
    type New: Sink + Drop;

    // What a call of `make_new` may answer: by the replacer before it, the paths, the answer, and the replacer after it.
    ghost makes: { Self → List ℕ → List ℕ → Result Self.New Fault → Self → Type 0 };

    // What a call of `put_in_place` may, by the file too.
    ghost puts: { Self → Self.New → List ℕ → List ℕ → Result ⊤ Fault → Self → Type 0 };

    // What a call of `remove_new` leaves.
    ghost removes: { Self → Self.New → List ℕ → Self → Type 0 };

    /// Makes a new file at a path, with the permissions of the file at another. Refused where a file is at the path, and
    /// where it can't be made; then none is left that wasn't there.
    fn make_new(&mut self, path: &str, like: &str) -> std::result::Result<Self::New, DeviceFault>
        ensures { makes self.old path.now like.now result self.new };

    /// Puts the new file at a path in the place of the file at another, once its bytes are on the disk. Refused where it
    /// can't be; then it is removed, and the other file stays.
    fn put_in_place(
        &mut self,
        new: Self::New,
        path: &str,
        place: &str,
    ) -> std::result::Result<(), DeviceFault>
        ensures { puts self.old new path.now place.now result self.new };

    /// Removes the new file at a path.
    fn remove_new(&mut self, new: Self::New, path: &str)
        ensures { removes self.old new path.now self.new };
}

/// The files of a runtime, of which nothing is said: no contract of the system tells what a file holds.
#[derive(Drop)]
pub struct FilesReplacer<'a, O> {
    files: &'a O,
}

impl<'a, O: Files> FilesReplacer<'a, O> {
    /// The replacer of these files.
    pub fn new(files: &'a O) -> Self {
        FilesReplacer { files }
    }
}

impl<O: Files> Opener for FilesReplacer<'_, O> {
    type File = ReadSource<O::File>;

    ghost opens = { λ _ _ _ _. ⊤ };

    fn open(&mut self, path: &str) -> std::result::Result<ReadSource<O::File>, DeviceFault> {
        match fs::open(self.files, path) {
            Ok(file) => Ok(ReadSource::new(file)),
            Err(_) => Err(DeviceFault),
        }
    }
}

/// A new file at a path, with the permissions of the file at another.
fn make_file<O: Files>(files: &O, path: &str, like: &str) -> io::Result<O::File> {
    let permissions = fs::metadata(files, like)?.permissions();
    let file = File::create_new(files, path)?;
    match file.set_permissions(permissions) {
        Ok(()) => Ok(file),
        Err(error) => {
            let _ = fs::remove_file(files, path);
            Err(error)
        }
    }
}

/// Puts a file at a path in the place of that at another, once its bytes are on the disk.
fn place_file<O: Files>(files: &O, file: O::File, path: &str, place: &str) -> io::Result<()> {
    file.sync_all()?;
    fs::rename(files, path, place)
}

impl<O: Files> Replacer for FilesReplacer<'_, O> {
    type New = WriteSink<O::File>;

    ghost makes = { λ _ _ _ _ _. ⊤ };

    ghost puts = { λ _ _ _ _ _ _. ⊤ };

    ghost removes = { λ _ _ _ _. ⊤ };

    fn make_new(
        &mut self,
        path: &str,
        like: &str,
    ) -> std::result::Result<WriteSink<O::File>, DeviceFault> {
        match make_file(self.files, path, like) {
            Ok(file) => Ok(WriteSink::new(file)),
            Err(_) => Err(DeviceFault),
        }
    }

    fn put_in_place(
        &mut self,
        new: WriteSink<O::File>,
        path: &str,
        place: &str,
    ) -> std::result::Result<(), DeviceFault> {
        match place_file(self.files, new.into_inner(), path, place) {
            Ok(()) => Ok(()),
            Err(_) => {
                let _ = fs::remove_file(self.files, path);
                Err(DeviceFault)
            }
        }
    }

    fn remove_new(&mut self, new: WriteSink<O::File>, path: &str) {
        drop(new);
        let _ = fs::remove_file(self.files, path);
    }
}

/// The path of the new file beside that at a path. Refused with `OutOfMemory` alone.
fn get_new_path(alloc: Global, file: &str) -> Result<String>
    ensures path { IfOk result (λ path. string_bytes path ≡ new_path file.now) }
    ensures memory { IfErr result (λ e. e.kind ≡ OutOfMemory) }
{
    Ok(format!(in alloc; "{file}.riftcalico-new")?)
}

/// A file that is replaced.
#[derive(Drop)]
pub(crate) struct Place<'a> {
    pub file: &'a str,
    /// The path of the new file beside it.
    pub path: String,
}

/// The file whose messages a task replaces, if there is one. Refused where there is no memory for the new file's path.
pub(crate) fn find_place<'a>(
    alloc: Global,
    task: &Task<'a>,
) -> std::result::Result<Option<Place<'a>>, Refusal>
    ensures place { IfOk result (IsPlaceOf (replaced_file (task_seen task.now))) }
    ensures refused { IfErr result (λ x. HasPlace (replaced_file (task_seen task.now))
        × IsUnwritten OutOfMemory (Err x)) }
{
    let Some(file) = get_place_file(task) else {
        return Ok(None);
    };
    match get_new_path(alloc, file) {
        Ok(path) => Ok(Some(Place { file, path })),
        Err(error) => Err(refuse(alloc, None, error, Blamed::Output)),
    }
}

/// That the file that is replaced can't be opened.
pub(crate) fn refuse_old(alloc: Global) -> Ran
    ensures { IsUnread result }
{
    let error = Error::from(ErrorKind::ReadFailed);
    Err(refuse(alloc, None, error, Blamed::Input))
}

/// That a new file can't be made.
pub(crate) fn refuse_new(alloc: Global) -> Ran
    ensures { IsUnwritten WriteFailed result }
{
    let error = Error::from(ErrorKind::WriteFailed);
    Err(refuse(alloc, None, error, Blamed::Output))
}

/// Whether all was answered, and no call or message was refused.
pub(crate) fn is_whole(ran: &Ran) -> bool
    ensures { result ≡ is_whole ran.now }
{
    match ran {
        Ok(Ended::Answered(refused)) => !*refused,
        Ok(Ended::Unreadable(_)) | Ok(Ended::NamesMeet(_)) | Err(_) => false,
    }
}

/// What a task came to whose new file was put in the place of the old, or couldn't be.
pub(crate) fn get_placed(alloc: Global, ran: Ran, put: std::result::Result<(), DeviceFault>) -> Ran
    ensures { IsPlaced ran put result }
{
    match put {
        Ok(()) => ran,
        Err(_) => refuse_new(alloc),
    }
}
