//! A keeper over an SQLite database. It tells nothing of what it keeps.

ghost use Rattle.journey_book.specs.Working.{IsCountedRefusal};

use crate::keeper::{KeepFault, Keeper};
use crate::words::is_name;
use sqlite::{Alter, Connection, Error, ErrorCode, Row, params};
use std::alloc::Global;
use thiserror::Error as Fault;

/// Why a database refused a call.
#[derive(Clone, Copy, Debug, Fault)]
pub enum Refusal {
    /// A statement failed.
    #[error("{0}")]
    Database(Error),
    /// It holds something, but no table of a book.
    #[error("this database is no book; a book has the table book (name TEXT NOT NULL PRIMARY KEY, body BLOB NOT NULL)")]
    NoBook,
    /// The table has a name that no book has.
    #[error("this is no book: a name in it is not 1 to 64 small letters, digits, '-' and '_'")]
    BadName,
}

impl From<Error> for Refusal {
    fn from(error: Error) -> Refusal {
        Refusal::Database(error)
    }
}

/// A book in the table `book` of a database, which has a text `name`, its key, and bytes `body`. `put` makes the table in a database
/// that holds nothing. A database that holds anything else is refused, and left as it is. Each statement is a transaction of its own.
/// All refusals but want of memory are counted.
#[derive(Drop)]
pub struct SqliteKeeper<S: Alter> {
    alloc: Global,
    connection: Connection<S>,
    faults: u64,
    why: Option<Refusal>,
}

impl<S: Alter> SqliteKeeper<S> {
    /// A keeper over an open connection. It makes no statement.
    pub fn adopt(alloc: Global, connection: Connection<S>) -> SqliteKeeper<S> {
        SqliteKeeper {
            alloc,
            connection,
            faults: 0,
            why: None,
        }
    }

    /// Gives the connection back.
    pub fn release(self) -> Connection<S> {
        self.connection
    }

    /// Why the last of the calls failed that did, if any.
    pub fn why(&self) -> Option<Refusal> {
        self.why
    }

    /// Counts a refusal, unless memory ran out.
    fn refused(&mut self, refusal: Refusal) -> KeepFault
        ensures { IsCountedRefusal self.old.faults self.new.faults result }
    {
        match refusal {
            Refusal::Database(Error::SqliteFailure(ErrorCode::OutOfMemory)) =>
                KeepFault::OutOfMemory,
            _ => {
                self.faults = self.faults.saturating_add(1);
                self.why = Some(refusal);
                KeepFault::Failed
            }
        }
    }
}

const MAKE_TABLE: &str = "CREATE TABLE book (name TEXT NOT NULL PRIMARY KEY, body BLOB NOT NULL)";

/// As a database keeps it that was made by `CREATE TABLE IF NOT EXISTS`.
const MAKE_IF_ABSENT: &str =
    "CREATE TABLE IF NOT EXISTS book (name TEXT NOT NULL PRIMARY KEY, body BLOB NOT NULL)";

/// Whether the database has the table of a book; not, where it holds nothing. Else it is no book.
fn has_table<S: Alter>(connection: &mut Connection<S>) -> Result<bool, Refusal> {
    let held = connection.query_row("SELECT count(*) FROM sqlite_schema", &[])?;
    let tables = connection.query_row(
        "SELECT count(*) FROM sqlite_schema WHERE type = 'table' AND name = 'book' AND sql IN (?1, ?2)",
        params![MAKE_TABLE, MAKE_IF_ABSENT],
    )?;
    match (count_in(&held)?, count_in(&tables)?) {
        (0, _) => Ok(false),
        (_, 1) => Ok(true),
        _ => Err(Refusal::NoBook),
    }
}

fn count_in(row: &Row) -> Result<i64, Error> {
    row.get(0)
}

fn put<S: Alter>(connection: &mut Connection<S>, name: &str, body: &[u8]) -> Result<(), Refusal> {
    if !has_table(connection)? {
        connection.execute_batch(MAKE_TABLE)?;
    }
    connection.execute(
        "INSERT OR REPLACE INTO book (name, body) VALUES (?1, ?2)",
        params![name, body],
    )?;
    Ok(())
}

fn remove<S: Alter>(connection: &mut Connection<S>, name: &str) -> Result<bool, Refusal> {
    if !has_table(connection)? {
        return Ok(false);
    }
    let count = connection.execute("DELETE FROM book WHERE name = ?1", params![name])?;
    Ok(count > 0)
}

fn get<S: Alter>(connection: &mut Connection<S>, name: &str) -> Result<Option<Vec<u8>>, Refusal> {
    if !has_table(connection)? {
        return Ok(None);
    }
    match connection.query_row("SELECT body FROM book WHERE name = ?1", params![name]) {
        Ok(row) => Ok(Some(row.get(0)?)),
        Err(Error::QueryReturnedNoRows) => Ok(None),
        Err(error) => Err(Refusal::Database(error)),
    }
}

fn names<S: Alter>(alloc: Global, connection: &mut Connection<S>) -> Result<Vec<String>, Refusal> {
    if !has_table(connection)? {
        return Ok(Vec::new(alloc));
    }
    let rows = connection.query_all("SELECT name FROM book ORDER BY name", &[])?;
    names_in(alloc, &rows)
}

/// The names in rows, in order. Each must be one that a book can have.
fn names_in(alloc: Global, rows: &[Row]) -> Result<Vec<String>, Refusal> {
    let mut names = Vec::new(alloc);
    for row in rows {
        let name: String = row.get(0)?;
        if !is_name(name.as_bytes()) {
            return Err(Refusal::BadName);
        }
        if names.push(name).is_err() {
            return Err(Refusal::Database(Error::SqliteFailure(ErrorCode::OutOfMemory)));
        }
    }
    Ok(names)
}

impl<S: Alter> Keeper for SqliteKeeper<S> {
    ghost use Rattle.std.specs.Prelude.{None};

    ghost meaning = { λ keeper. record { book = None; faults = keeper.faults } };

    fn put(&mut self, name: &str, body: &[u8]) -> Result<(), KeepFault> {
        match put(&mut self.connection, name, body) {
            Ok(()) => Ok(()),
            Err(refusal) => Err(self.refused(refusal)),
        }
    }

    fn remove(&mut self, name: &str) -> Result<bool, KeepFault> {
        match remove(&mut self.connection, name) {
            Ok(was) => Ok(was),
            Err(refusal) => Err(self.refused(refusal)),
        }
    }

    fn get(&mut self, name: &str) -> Result<Option<Vec<u8>>, KeepFault> {
        match get(&mut self.connection, name) {
            Ok(held) => Ok(held),
            Err(refusal) => Err(self.refused(refusal)),
        }
    }

    fn names(&mut self) -> Result<Vec<String>, KeepFault> {
        match names(self.alloc, &mut self.connection) {
            Ok(names) => Ok(names),
            Err(refusal) => Err(self.refused(refusal)),
        }
    }
}
