//! A copy of a book in memory, for whoever may read its file and not write it.

ghost use Rattle.std.specs.Prelude.{IfOk, IsTrue};
ghost use Rattle.sqlite_disk.specs.Memory.{memory_is_usable};

use crate::paths::log_path;
use sqlite::{Connection, Error, ErrorCode, FileStore, Files, Options};
use sqlite_disk::{Disk, Memory};
use std::alloc::Global;
use std::fs::{self, File};
use std::io::{self, ErrorKind, Read};

const CANNOT_OPEN: Error = Error::SqliteFailure(ErrorCode::CannotOpen);

const NO_MEMORY: Error = Error::SqliteFailure(ErrorCode::OutOfMemory);

const BUSY: Error = Error::SqliteFailure(ErrorCode::DatabaseBusy);

/// What the files of a book hold: the database, and the log beside it, which is empty where there is none.
#[derive(Drop)]
struct Contents {
    db: Vec<u8>,
    log: Vec<u8>,
}

/// Opens a copy of the database that is at a path, or where a link leads that is there, and of the log beside it, as both stood at
/// one moment. It is busy where they changed meanwhile. One that has a rollback journal is not read.
pub fn open_copy(rt: &HostRuntime, path: &str) -> Result<Connection<FileStore<Memory>>, Error> {
    let real = fs::canonicalize(rt, path).map_err(in_sqlite)?;
    let path = real.as_str();
    if !is_file(rt, path) || has_journal(rt, path) {
        return Err(CANNOT_OPEN);
    }
    let held = read_at_once(rt, path)?;
    let log = disk_of(rt.alloc(), &held.log)?;
    let db = disk_of(rt.alloc(), &held.db)?;
    open_files(rt.alloc(), Files { log, db })
}

/// What both files held between two readings that found the same.
fn read_at_once(rt: &HostRuntime, path: &str) -> Result<Contents, Error> {
    let once = read_both(rt, path)?;
    let again = read_both(rt, path)?;
    if once.db == again.db && once.log == again.log {
        Ok(once)
    } else {
        Err(BUSY)
    }
}

fn read_both(rt: &HostRuntime, path: &str) -> Result<Contents, Error> {
    let log = match log_path(rt, path) {
        Ok(path) => read_log(rt, path.as_str())?,
        Err(_) => return Err(NO_MEMORY),
    };
    let db = read(rt, path).map_err(in_sqlite)?;
    Ok(Contents { db, log })
}

fn is_file(rt: &HostRuntime, path: &str) -> bool {
    match fs::metadata(rt, path) {
        Ok(about) => about.is_file(),
        Err(_) => false,
    }
}

/// Whether a rollback journal stands beside a database, or this can't be told.
fn has_journal(rt: &HostRuntime, path: &str) -> bool {
    match format!(in rt.alloc(); "{path}-journal") {
        Ok(journal) => fs::metadata(rt, journal.as_str()).is_ok(),
        Err(_) => true,
    }
}

/// What a file holds.
fn read(rt: &HostRuntime, path: &str) -> io::Result<Vec<u8>> {
    let mut bytes = Vec::new(rt.alloc());
    let mut file = File::open(rt, path)?;
    file.read_to_end(&mut bytes)?;
    Ok(bytes)
}

/// What the log beside a database holds; nothing where there is none.
fn read_log(rt: &HostRuntime, path: &str) -> Result<Vec<u8>, Error> {
    match read(rt, path) {
        Err(error) if error.kind() == ErrorKind::NotFound => Ok(Vec::new(rt.alloc())),
        held => held.map_err(in_sqlite),
    }
}

/// A disk in memory that holds these bytes.
fn disk_of(alloc: Global, bytes: &[u8]) -> Result<Memory, Error>
    ensures { IfOk result (λ disk. IsTrue (memory_is_usable disk)) }
{
    let mut disk = Memory::new(alloc);
    match disk.write_at(0, bytes) {
        Ok(()) => Ok(disk),
        Err(_) => Err(NO_MEMORY),
    }
}

fn open_files(alloc: Global, files: Files<Memory>) -> Result<Connection<FileStore<Memory>>, Error>
    requires log { IsTrue (memory_is_usable files.log) }
    requires db { IsTrue (memory_is_usable files.db) }
{
    match Connection::open_files(alloc, files, Options::new(0)) {
        Ok(connection) => Ok(connection),
        Err((error, _)) => Err(error),
    }
}

fn in_sqlite(error: io::Error) -> Error {
    if error.kind() == ErrorKind::OutOfMemory {
        NO_MEMORY
    } else {
        CANNOT_OPEN
    }
}
