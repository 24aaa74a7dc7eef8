//! Where files are opened to be read.

ghost use Rattle.std.specs.Prelude.{◌≡◌, Option, None, Err, IfOk, IfSome};
ghost use Rattle.plan_base.specs.Disks.{DiskFiles, IsRest};
ghost use Rattle.plan_base.specs.declared.reading.ShelfError.TheVariants.{Missing};

use crate::reading::ShelfError;
use std::fs;
use std::io::{ErrorKind, Read, Seek, SeekFrom};
use std::rt::Files;

/// Something that files are opened in, to be read; a name is a path.
pub trait Disk {
    type File: Read + Drop;

    /// What it holds under each path, where it tells.
    ghost holds: { Self → Option DiskFiles } = { λ _. None };

    /// Opens the file at this path, to be read from this place on.
    ///
    /// # Errors
    ///
    /// `Missing` where there is no such file, and `Failed`.
    fn open(&self, path: &str, from: u64) -> Result<Self::File, ShelfError>
        ensures rest { IfOk result (λ file. IsRest (holds self.now) path.now from
            (Self.File.remaining file)) }
        ensures missing { result ≡ Err Missing → IfSome (holds self.now) (λ files. files path.now ≡ None) };
}

/// The file system, which tells nothing.
#[derive(Drop)]
pub struct SystemDisk<'a, R: Files> {
    rt: &'a R,
}

impl<'a, R: Files> SystemDisk<'a, R> {
    /// What the runtime's file system holds.
    pub fn new(rt: &'a R) -> SystemDisk<'a, R> {
        SystemDisk { rt }
    }
}

impl<R: Files> Disk for SystemDisk<'_, R> {
    type File = R::File;

    /// A pipe can be opened at its start alone.
    fn open(&self, path: &str, from: u64) -> Result<R::File, ShelfError> {
        let mut file = match fs::open(self.rt, path) {
            Ok(file) => file,
            Err(error) if error.kind() == ErrorKind::NotFound => return Err(ShelfError::Missing),
            Err(_) => return Err(ShelfError::Failed),
        };
        if from > 0 && file.seek(SeekFrom::Start(from)).is_err() {
            return Err(ShelfError::Failed);
        }
        Ok(file)
    }
}
