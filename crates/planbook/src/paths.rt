//! What stands at the path of a book, looked at without a change.

use std::alloc::AllocError;
use std::fs::{self, File};
use std::io::Read;

/// How each file of a database begins.
const FIRST_BYTES: &[u8] = b"SQLite format 3\0";

/// What stands at a path.
#[derive(Clone, Copy, PartialEq, Eq)]
pub enum Found {
    /// Nothing, or an empty file.
    Nothing,
    /// A file that may be a database, and no log beside it.
    NoLog,
    /// A file with a log beside it.
    WithLog,
    /// A file that is no database.
    NoDatabase,
}

/// What stands at the path of a book and at that of its log.
pub fn look_at(rt: &HostRuntime, path: &str) -> Result<Found, AllocError> {
    let log = log_path(rt, path)?;
    if fs::metadata(rt, log.as_str()).is_ok() {
        return Ok(Found::WithLog);
    }
    Ok(match fs::metadata(rt, path) {
        Err(_) => Found::Nothing,
        Ok(about) if about.is_file() && about.len() == 0 => Found::Nothing,
        Ok(about) if about.is_file() && !begins_database(rt, path) => Found::NoDatabase,
        Ok(_) => Found::NoLog,
    })
}

/// Whether a file begins as a database does, or can't be read.
fn begins_database(rt: &HostRuntime, path: &str) -> bool {
    let mut first = [0u8; 16];
    match File::open(rt, path) {
        Ok(mut file) => match file.read(&mut first) {
            Ok(_) => &first[..] == FIRST_BYTES,
            Err(_) => true,
        },
        Err(_) => true,
    }
}

/// Where the log of a book stands.
pub fn log_path(rt: &HostRuntime, path: &str) -> Result<String, AllocError> {
    format!(in rt.alloc(); "{path}-wal")
}
