//! A shelf of the files of a disk, which tells what the disk tells.

ghost use Rattle.std.specs.Prelude.{◌≡◌, ◌+◌, Err, IfOk, IfSome, string_bytes};
ghost use Rattle.std.specs.Io.{ReadsAtMost};
ghost use Rattle.std.specs.Io.KnownBytes.{ReadConsumes};
ghost use Rattle.std.proofs.Props.{props};
ghost use Rattle.plan_base.specs.Disks.{IsRest};
ghost use Rattle.plan_base.specs.declared.reading.ShelfError.TheVariants.{Missing};

use crate::disks::{Disk, SystemDisk};
use crate::reading::{Shelf, ShelfError};
use std::alloc::Global;
use std::io::{self, ErrorKind, Read};
use std::rt::Files;

/// How often a read is begun that the system interrupts before any byte.
const MOST_TRIES: usize = 100;

/// The files of a disk.
///
/// The file that was read last stays open up to its end. A read of the same name that goes on where the last one
/// ended reads on in it, so a file that is replaced while it is read gives what it had, and a pipe can be read too.
/// Any other read opens the file anew.
#[derive(Drop)]
pub struct FolderShelf<D: Disk + Drop> {
    alloc: Global,
    disk: D,
    last: Option<Opened<D::File>>,
    misses: u64,
    faults: u64,
    ghost goes_on: { IfSome last (λ o. IfSome o.path (λ path.
        IsRest (D.holds disk) (string_bytes path) o.at (D.File.remaining o.file))) } by { Prim.hlevel props },
}

impl<'a, R: Files + AllocGlobal> FolderShelf<SystemDisk<'a, R>> {
    /// A shelf of what the runtime's file system holds.
    pub fn new(rt: &'a R) -> FolderShelf<SystemDisk<'a, R>> {
        FolderShelf::over(rt.alloc(), SystemDisk::new(rt))
    }
}

impl<D: Disk + Drop> FolderShelf<D> {
    /// A shelf of what a disk holds.
    pub fn over(alloc: Global, disk: D) -> FolderShelf<D> {
        FolderShelf {
            alloc,
            disk,
            last: None,
            misses: 0,
            faults: 0,
        }
    }
}

/// A file that is being read, and the place up to which it was read. Where there was no room for its path, no read goes on in it.
#[derive(Drop)]
struct Opened<I: Drop> {
    path: Option<String>,
    at: u64,
    file: I,
}

impl<D: Disk + Drop> Shelf for FolderShelf<D> {
    ghost meaning = { λ s. record { files = D.holds s.disk; misses = s.misses; faults = s.faults } };

    fn read(&mut self, name: &str, from: u64, into: &mut [u8]) -> Result<usize, ShelfError> {
        let last = self.last.take();
        let mut opened = match opened_at(self.alloc, &self.disk, last, name, from) {
            Ok(opened) => opened,
            Err(ShelfError::Missing) => {
                self.misses = self.misses.saturating_add(1);
                return Err(ShelfError::Missing);
            }
            Err(ShelfError::Failed) => {
                self.faults = self.faults.saturating_add(1);
                return Err(ShelfError::Failed);
            }
        };
        match read_from(&mut opened.file, into) {
            Ok(n) => {
                self.last = passed(opened, n);
                Ok(n)
            }
            Err(_) => {
                self.faults = self.faults.saturating_add(1);
                Err(ShelfError::Failed)
            }
        }
    }
}

/// The file at this path, to be read from there on: the one that was read last, where it goes on there.
fn opened_at<D: Disk>(
    alloc: Global,
    disk: &D,
    last: Option<Opened<D::File>>,
    path: &str,
    from: u64,
) -> Result<Opened<D::File>, ShelfError>
    requires { IfSome last (λ o. IfSome o.path (λ path.
        IsRest (D.holds disk.now) (string_bytes path) o.at (D.File.remaining o.file))) }
    ensures at { IfOk result (λ o. o.at ≡ from) }
    ensures path { IfOk result (λ o. IfSome o.path (λ text. string_bytes text ≡ path.now)) }
    ensures rest { IfOk result (λ o. IsRest (D.holds disk.now) path.now from (D.File.remaining o.file)) }
    ensures missing { result ≡ Err Missing → IfSome (D.holds disk.now) (λ files. files path.now ≡ None) }
{
    match last {
        Some(opened) if opened.at == from && opened.path.as_deref() == Some(path) => Ok(opened),
        _ => {
            let file = disk.open(path, from)?;
            Ok(Opened {
                path: String::from_str(alloc, path).ok(),
                at: from,
                file,
            })
        }
    }
}

/// The file behind what was read of it, if it goes on.
fn passed<I: Read + Drop>(opened: Opened<I>, n: usize) -> Option<Opened<I>>
    ensures { IfSome result (λ o. (o.path ≡ opened.path) × (o.at ≡ opened.at + n) × (o.file ≡ opened.file)) }
{
    if n == 0 {
        return None;
    }
    let at = opened.at.checked_add(n as u64)?;
    Some(Opened { at, ..opened })
}

/// Reads what comes next; a read that was interrupted is begun again.
fn read_from<I: Read>(file: &mut I, into: &mut [u8]) -> io::Result<usize>
    ensures bound { ReadsAtMost result into.new }
    ensures bytes { ReadConsumes (I.remaining file.old) (I.remaining file.new) result into.new }
{
    for _ in 1..MOST_TRIES {
        match file.read(into) {
            Err(error) if error.kind() == ErrorKind::Interrupted => {}
            result => return result,
        }
    }
    file.read(into)
}
