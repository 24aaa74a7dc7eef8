//! A keeper over the file of a book. It opens the file at the first call, waits for one that is held, makes one only to keep
//! something, and reads a copy of one that it may not write.

ghost use Rattle.journey_book.specs.Working.{IsCountedRefusal};

use crate::copy::open_copy;
use crate::paths::{Found, log_path, look_at};
use fault_notes::seen;
use journey_book::{BookOutcome, KeepFault, Keeper, Refusal, SqliteKeeper};
use plan_base::{StreamSink, write_all};
use run_steps::Outcome;
use sqlite::{Connection, Error, ErrorCode, File, FileStore};
use sqlite_disk::Memory;
use std::alloc::AllocError;
use std::time::Duration;
use std::{fs, thread};

/// How often the open of a book is tried that another process holds, and how many milliseconds are let pass between.
const TRIES: u32 = 100;

const PAUSE: u64 = 50;

/// A book in a file. A call that keeps nothing finds an empty book where there is none. It tells nothing of what it keeps, and counts
/// its failures.
#[derive(Drop)]
pub struct FileKeeper<'a> {
    file: BookFile<'a>,
    faults: u64,
}

/// What a book is opened for.
#[derive(Clone, Copy, PartialEq, Eq)]
enum Purpose {
    /// To keep something; where there is no book it is made.
    Keep,
    /// To remove something.
    Drop,
    Read,
}

/// The file of a book, what stood there before, and the open book, or the copy that is read in its place.
#[derive(Drop)]
struct BookFile<'a> {
    rt: &'a HostRuntime,
    path: &'a str,
    before: Found,
    book: Option<SqliteKeeper<FileStore<File>>>,
    copy: Option<SqliteKeeper<FileStore<Memory>>>,
}

impl<'a> FileKeeper<'a> {
    /// A keeper over the file at a path. It opens nothing.
    pub fn new(rt: &'a HostRuntime, path: &'a str) -> FileKeeper<'a> {
        let file = BookFile {
            rt,
            path,
            before: Found::Nothing,
            book: None,
            copy: None,
        };
        FileKeeper { file, faults: 0 }
    }

    /// Closes the book after a run that ended so, and tells people whether it is new, or why it failed.
    pub fn close(self, outcome: BookOutcome) {
        self.file.close(outcome)
    }

    /// Counts a failure, unless memory ran out.
    fn refused(&mut self, fault: KeepFault) -> KeepFault
        ensures { IsCountedRefusal self.old.faults self.new.faults result }
    {
        match fault {
            KeepFault::OutOfMemory => KeepFault::OutOfMemory,
            KeepFault::Failed => {
                self.faults = self.faults.saturating_add(1);
                KeepFault::Failed
            }
        }
    }
}

impl BookFile<'_> {
    /// Opens the book, if it is not open.
    fn open(&mut self, purpose: Purpose) -> Result<(), KeepFault> {
        if self.book.is_some() || self.copy.is_some() {
            return Ok(());
        }
        self.before = look_at(self.rt, self.path)?;
        match self.before {
            Found::NoDatabase => {
                self.tell("this file is no database, and so no book");
                Err(KeepFault::Failed)
            }
            Found::Nothing if purpose != Purpose::Keep => {
                self.tell("there is no such book; keep makes one");
                Ok(())
            }
            _ => self.connect(purpose),
        }
    }

    fn connect(&mut self, purpose: Purpose) -> Result<(), KeepFault> {
        match open_free(self.rt, self.path) {
            Ok(connection) => {
                self.book = Some(SqliteKeeper::adopt(self.rt.alloc(), connection));
                Ok(())
            }
            Err(Error::SqliteFailure(ErrorCode::CannotOpen)) if purpose == Purpose::Read => {
                self.connect_copy()
            }
            Err(error) => Err(self.unopened(error)),
        }
    }

    fn connect_copy(&mut self) -> Result<(), KeepFault> {
        match copy_free(self.rt, self.path) {
            Ok(connection) => {
                self.copy = Some(SqliteKeeper::adopt(self.rt.alloc(), connection));
                Ok(())
            }
            Err(error) => Err(self.unopened(error)),
        }
    }

    /// Tells why the book can't be opened.
    fn unopened(&self, error: Error) -> KeepFault {
        match error {
            Error::SqliteFailure(ErrorCode::OutOfMemory) => KeepFault::OutOfMemory,
            Error::SqliteFailure(ErrorCode::DatabaseBusy) => {
                self.tell(
                    "another process holds this book, and has not let it go for five seconds",
                );
                KeepFault::Failed
            }
            _ => {
                self.tell_why(Refusal::Database(error));
                if is_no_database(error) {
                    self.remove_log();
                }
                KeepFault::Failed
            }
        }
    }

    fn put(&mut self, name: &str, body: &[u8]) -> Result<(), KeepFault> {
        self.open(Purpose::Keep)?;
        match &mut self.book {
            Some(book) => book.put(name, body),
            None => Err(KeepFault::Failed),
        }
    }

    fn remove(&mut self, name: &str) -> Result<bool, KeepFault> {
        self.open(Purpose::Drop)?;
        match &mut self.book {
            Some(book) => book.remove(name),
            None => Ok(false),
        }
    }

    fn get(&mut self, name: &str) -> Result<Option<Vec<u8>>, KeepFault> {
        self.open(Purpose::Read)?;
        if let Some(book) = &mut self.book {
            return book.get(name);
        }
        match &mut self.copy {
            Some(copy) => copy.get(name),
            None => Ok(None),
        }
    }

    fn names(&mut self) -> Result<Vec<String>, KeepFault> {
        self.open(Purpose::Read)?;
        if let Some(book) = &mut self.book {
            return book.names();
        }
        match &mut self.copy {
            Some(copy) => copy.names(),
            None => Ok(Vec::new(self.rt.alloc())),
        }
    }

    /// The log that stands beside the file is copied into it, where that can be done; else the two belong together. What is no
    /// book is left as it was.
    fn close(mut self, outcome: BookOutcome) {
        if let Some(copy) = &self.copy {
            if let Some(why) = copy.why() {
                self.tell_why(why);
            }
        }
        let Some(book) = self.book.take() else {
            return;
        };
        match book.why() {
            None => self.tell_new(outcome),
            Some(why @ Refusal::Database(_)) => self.tell_why(why),
            Some(why) => {
                self.tell_why(why);
                self.remove_log();
                return;
            }
        }
        let _ = book.release().close();
    }

    /// Removes the log beside what is no book, if the open made it.
    fn remove_log(&self) {
        if self.before != Found::NoLog {
            return;
        }
        if let Ok(log) = log_path(self.rt, self.path) {
            let _ = fs::remove_file(self.rt, log.as_str());
        }
    }

    fn tell_new(&self, outcome: BookOutcome) {
        if self.before == Found::Nothing && matches!(outcome, BookOutcome::Common(Outcome::Done)) {
            self.tell("a new book");
        }
    }

    fn tell_why(&self, why: Refusal) {
        if let Ok(told) = format!(in self.rt.alloc(); "{why}") {
            self.tell(told.as_str());
        }
    }

    /// Writes a line for people that names the book.
    fn tell(&self, told: &str) {
        let mut notes = StreamSink::new(self.rt.stderr());
        if let Ok(line) = self.line_of(told) {
            let _ = write_all(&mut notes, line.as_bytes());
        }
    }

    fn line_of(&self, told: &str) -> Result<String, AllocError> {
        let alloc = self.rt.alloc();
        let (path, told) = (seen(alloc, self.path)?, seen(alloc, told)?);
        format!(in alloc; "planbook: {path}: {told}\n")
    }
}

/// Opens a database. One that another process holds is waited for.
fn open_free(rt: &HostRuntime, path: &str) -> Result<Connection<FileStore<File>>, Error> {
    for _ in 1..TRIES {
        match Connection::open(rt, path) {
            Err(Error::SqliteFailure(ErrorCode::DatabaseBusy)) => {
                thread::sleep(rt, Duration::from_millis(PAUSE));
            }
            opened => return opened,
        }
    }
    Connection::open(rt, path)
}

/// Opens a copy of a database. One that another process holds is waited for.
fn copy_free(rt: &HostRuntime, path: &str) -> Result<Connection<FileStore<Memory>>, Error> {
    for _ in 1..TRIES {
        match open_copy(rt, path) {
            Err(Error::SqliteFailure(ErrorCode::DatabaseBusy)) => {
                thread::sleep(rt, Duration::from_millis(PAUSE));
            }
            opened => return opened,
        }
    }
    open_copy(rt, path)
}

/// Whether a file was refused for what it holds.
fn is_no_database(error: Error) -> bool {
    matches!(
        error,
        Error::SqliteFailure(ErrorCode::NotADatabase | ErrorCode::DatabaseCorrupt)
    )
}

impl Keeper for FileKeeper<'_> {
    ghost use Rattle.std.specs.Prelude.{None};

    ghost meaning = { λ keeper. record { book = None; faults = keeper.faults } };

    fn put(&mut self, name: &str, body: &[u8]) -> Result<(), KeepFault> {
        match self.file.put(name, body) {
            Ok(()) => Ok(()),
            Err(fault) => Err(self.refused(fault)),
        }
    }

    fn remove(&mut self, name: &str) -> Result<bool, KeepFault> {
        match self.file.remove(name) {
            Ok(was) => Ok(was),
            Err(fault) => Err(self.refused(fault)),
        }
    }

    fn get(&mut self, name: &str) -> Result<Option<Vec<u8>>, KeepFault> {
        match self.file.get(name) {
            Ok(held) => Ok(held),
            Err(fault) => Err(self.refused(fault)),
        }
    }

    fn names(&mut self) -> Result<Vec<String>, KeepFault> {
        match self.file.names() {
            Ok(names) => Ok(names),
            Err(fault) => Err(self.refused(fault)),
        }
    }
}
