//! Stories of journey books, each played over a book in memory, and over one in a database.

use crate::runs::{NOTHING, Sinks};
use case_script::{Answer, Calls, Given, Script, words, words_and_files};
use journey_book::{BookOutcome, Keeper, MemoryKeeper, SqliteKeeper, run_book};
use plan_base::MemoryShelf;
use planner_core::Ports;
use sqlite::{Connection, MemStore};
use std::alloc::{AllocError, Global};
use std::collections::BTreeMap;
use std::io;

/// The book of a story in memory, and in a database.
#[derive(Drop)]
pub struct Books {
    memory: MemoryKeeper,
    database: Option<SqliteKeeper<MemStore>>,
}

impl Books {
    /// An empty book, in memory alone.
    pub fn new(alloc: Global) -> Books {
        Books {
            memory: MemoryKeeper::new(alloc, BTreeMap::new(alloc), Vec::new(alloc)),
            database: None,
        }
    }

    /// `book`: begins a story with an empty book. `book K`: with one in memory alone, whose K-th call fails.
    fn begin(&mut self, out: &mut Answer, count: &[u8]) -> Result<(), AllocError> {
        let alloc = out.alloc();
        *self = Books::new(alloc);
        let failing = words::number(count);
        if failing == 0 {
            self.database = Some(database(alloc)?);
            out.text("an empty book\n");
        } else {
            let fail = vec![in alloc; failing]?;
            self.memory = MemoryKeeper::new(alloc, BTreeMap::new(alloc), fail);
            out.shown("an empty book; its call ", failing);
            out.text(" fails\n");
        }
        Ok(())
    }

    /// What a step does to the book in memory; and what it does to the one in the database, where that is something else.
    fn step(
        &mut self,
        script: &Script,
        call: &str,
        words: &[u8],
        out: &mut Answer,
    ) -> Result<(), AllocError> {
        let does = step(out.alloc(), script, call, words, &mut self.memory)?;
        out.text(&does);
        if let Some(database) = &mut self.database {
            let other = step(out.alloc(), script, call, words, database)?;
            if other.as_str() != does.as_str() {
                out.text("in a database: ");
                out.text(&other);
            }
        }
        Ok(())
    }
}

impl Calls for Books {
    fn answer(
        &mut self,
        script: &Script,
        call: &str,
        words: &[u8],
        out: &mut Answer,
    ) -> io::Result<()> {
        match call {
            "book" => self.begin(out, words)?,
            "run" | "put" => self.step(script, call, words, out)?,
            _ => out.break_off("no such step"),
        }
        Ok(())
    }
}

fn database(alloc: Global) -> Result<SqliteKeeper<MemStore>, AllocError> {
    let connection = Connection::open_in_memory(alloc)?;
    Ok(SqliteKeeper::adopt(alloc, connection))
}

/// What a step does to a book.
fn step<K: Keeper>(
    alloc: Global,
    script: &Script,
    call: &str,
    words: &[u8],
    keeper: &mut K,
) -> Result<String, AllocError> {
    match call {
        "put" => put(alloc, script, words, keeper),
        _ => run(alloc, script, words, keeper),
    }
}

/// `run WORDS`: how the run ends, and what it writes.
fn run<K: Keeper>(
    alloc: Global,
    script: &Script,
    line: &[u8],
    keeper: &mut K,
) -> Result<String, AllocError> {
    let Given { words, files } = words_and_files(alloc, script, line)?;
    let shelf = MemoryShelf::new(files, Vec::new(alloc));
    let Sinks { out, notes } = Sinks::new(alloc, NOTHING)?;
    let mut ports = Ports {
        alloc,
        shelf,
        out,
        notes,
    };
    let outcome = run_book(&mut ports, &words, keeper);
    let status = outcome.status();
    let ended = ended(alloc, outcome)?;
    let text = String::from_utf8_lossy(alloc, ports.out.bytes())?;
    format!(in alloc; "{ended}, status {status}\n{text}")
}

/// How a run ended, as that of a command of the planner is told.
fn ended(alloc: Global, outcome: BookOutcome) -> Result<String, AllocError> {
    match outcome {
        BookOutcome::Common(outcome) => format!(in alloc; "{outcome:?}"),
        _ => format!(in alloc; "{outcome:?}"),
    }
}

/// `put NAME TEXT`: keeps a text under a name, whatever it is.
fn put<K: Keeper>(
    alloc: Global,
    script: &Script,
    rest: &[u8],
    keeper: &mut K,
) -> Result<String, AllocError> {
    let (name, text) = words::cut(rest);
    let name = String::from_utf8_lossy(alloc, name)?;
    let is = keeper.put(name.as_str(), script.text(text)).is_ok();
    format!(in alloc; "kept: {is}\n")
}
