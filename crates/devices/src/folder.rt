//! Files, found by their paths.

ghost use Rattle.std.specs.Prelude.{◌≡◌, ◌≢◌, ◌↔◌, List, ℕ, IfErr, IfOk, IsTrue, OnOk};
ghost use Rattle.std.specs.Io.KnownBytes.{Keeps};
ghost use Rattle.devices.specs.Device.{IsFresh};
ghost use Rattle.devices.specs.Folder.{KnownFile, unknown_files};

use crate::device::{Counted, Source};
use std::fs;
use std::io::ErrorKind;
use std::rt::Files;
use thiserror::Error;

/// Why a file isn't opened.
#[derive(Clone, Copy, Debug, PartialEq, Eq, Error)]
pub enum OpenFault {
    /// The file can't be opened.
    #[error("a file can't be opened")]
    CannotOpen,
    /// A growth was refused.
    #[error("out of memory")]
    NoMemory,
}

/// Gives files by their paths.
pub trait Folder {
    /// A file that was opened.
    type File: Source + Drop;

    /// What is known of the file with a path: by default nothing.
    ghost file_at: { Self → List ℕ → KnownFile } = { λ _. unknown_files };

    /// Opens the file with this path, to be read from its beginning, only where that may succeed.
    /// It is `CannotOpen` only where that may fail, and `NoMemory` for lack of memory.
    fn open(&self, path: &str) -> Result<Self::File, OpenFault>
        ensures fresh { IfOk result (λ file. IsFresh (Self.File.device file)) }
        ensures bytes { IfOk result
            (λ file. Keeps (file_at self.now path.now).bytes (Self.File.left file)) }
        ensures opened { OnOk result (IsTrue (file_at self.now path.now).may_open) }
        ensures identity { IfOk result (λ file. Keeps (file_at self.now path.now).identity
            (Self.File.device file).identity) }
        ensures refused { IfErr result (λ fault. fault ≢ OpenFault.NoMemory →
            IsTrue (file_at self.now path.now).may_fail) };
}

/// The files of a runtime of std, which tells nothing of them.
#[derive(Drop)]
pub struct Disk<'a, R>(pub &'a R);

impl<'a, R: Files> Folder for Disk<'a, R> {
    type File = Counted<R::File>;

    fn open(&self, path: &str) -> Result<Counted<R::File>, OpenFault> {
        match fs::open(self.0, path) {
            Ok(file) => Ok(Counted::new(file)),
            Err(error) => Err(open_fault(error.kind())),
        }
    }
}

// Only lack of memory is told apart.
fn open_fault(kind: ErrorKind) -> OpenFault
    ensures { result ≡ OpenFault.NoMemory ↔ kind ≡ ErrorKind.OutOfMemory }
{
    match kind {
        ErrorKind::OutOfMemory => OpenFault::NoMemory,
        _ => OpenFault::CannotOpen,
    }
}
