//! `planbook`: runs a command of the journey book over a database in a file, the file system, standard output and standard error.
#![tactic(auto)]

mod copy;
mod file_keeper;
mod notes;
mod paths;

use crate::file_keeper::FileKeeper;
use crate::notes::Notes;
use journey_book::words::read_words;
use journey_book::{BookOutcome, Keeper, MemoryKeeper, run_book};
use plan_base::{FolderShelf, StreamSink};
use run_steps::{Outcome, Ports, tell_no_text};
use std::collections::BTreeMap;
use std::env;
use std::io::{self, ErrorKind};
use std::process::ExitCode;

fn main(rt: HostRuntime) -> ExitCode {
    let outcome = match words(&rt) {
        Ok(words) => run(&rt, words.as_slice()),
        Err(error) if error.kind() == ErrorKind::OutOfMemory => {
            BookOutcome::Common(Outcome::OutOfMemory)
        }
        Err(_) => {
            let mut notes = Notes::new(StreamSink::new(rt.stderr()));
            tell_no_text(rt.alloc(), &mut notes);
            BookOutcome::Common(Outcome::Usage)
        }
    };
    ExitCode::from(outcome.status())
}

/// The words that the program was called with; a word that is no text is an error.
fn words(rt: &HostRuntime) -> io::Result<Vec<String>> {
    let mut words = Vec::new(rt.alloc());
    for word in env::args(rt)? {
        words.push(word)?;
    }
    Ok(words)
}

/// Runs the command over the book that the first word names, where the words ask for one. `-` stands for a book in memory.
fn run(rt: &HostRuntime, words: &[String]) -> BookOutcome {
    match words {
        [_, path, ..] if path.as_str() != "-" && read_words(words).is_some() => {
            run_in_file(rt, words, path.as_str())
        }
        _ => run_in_memory(rt, words),
    }
}

fn run_in_memory(rt: &HostRuntime, words: &[String]) -> BookOutcome {
    let alloc = rt.alloc();
    let mut keeper = MemoryKeeper::new(alloc, BTreeMap::new(alloc), Vec::new(alloc));
    run_over(rt, words, &mut keeper)
}

fn run_in_file(rt: &HostRuntime, words: &[String], path: &str) -> BookOutcome {
    let mut keeper = FileKeeper::new(rt, path);
    let outcome = run_over(rt, words, &mut keeper);
    keeper.close(outcome);
    outcome
}

fn run_over<K: Keeper>(rt: &HostRuntime, words: &[String], keeper: &mut K) -> BookOutcome {
    let mut ports = Ports {
        alloc: rt.alloc(),
        shelf: FolderShelf::new(rt),
        out: StreamSink::new(rt.stdout()),
        notes: Notes::new(StreamSink::new(rt.stderr())),
    };
    run_book(&mut ports, words, keeper)
}
