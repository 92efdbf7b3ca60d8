//! What opens files.
ghost use Rattle.std.specs.Prelude.{List, Result, ⊤, ℕ};
ghost use Rattle.capnp_device.specs.declared.device.DeviceFault.{DeviceFault as Fault};

use capnp_wire::device::{DeviceFault, ReadSource, Source};
use std::fs;
use std::rt::Files;

/// What opens files by their paths.
pub trait Opener {
    /// An open file, whose bytes are read from its beginning on.
    type File: Source + Drop;

    // What a call of `open` may answer for a path: by the opener before it, the path, the answer, and the opener after
    // it.
    ghost opens: { Self → List ℕ → Result Self.File Fault → Self → Type 0 };

    /// Opens the file at a path for reading. Refused where it can't be opened.
    fn open(&mut self, path: &str) -> Result<Self::File, DeviceFault>
        ensures { opens self.old path.now result self.new };
}

/// The files of a runtime, of which nothing is said: no contract of the system tells what a file holds.
#[derive(Drop)]
pub struct FilesOpener<'a, O> {
    files: &'a O,
}

impl<'a, O: Files> FilesOpener<'a, O> {
    /// The opener of these files.
    pub fn new(files: &'a O) -> Self {
        FilesOpener { files }
    }
}

impl<O: Files> Opener for FilesOpener<'_, O> {
    type File = ReadSource<O::File>;

    ghost opens = { λ _ _ _ _. ⊤ };

    fn open(&mut self, path: &str) -> Result<ReadSource<O::File>, DeviceFault> {
        match fs::open(self.files, path) {
            Ok(file) => Ok(ReadSource::new(file)),
            Err(_) => Err(DeviceFault),
        }
    }
}
