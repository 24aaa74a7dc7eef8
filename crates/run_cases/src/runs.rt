//! Whole runs of the program over files in memory.

use crate::pieces::Pieces;
use case_script::{Answer, Given, Script, words, words_and_files};
use plan_base::{FolderShelf, MemoryShelf, MemorySink, Shelf};
use planner_core::{Outcome, Ports};
use std::alloc::{AllocError, Global};

/// No output of a case or an example is longer.
const ROOM: usize = 1 << 20;

/// What fails in a run: a read and a write by their numbers from 1, how many bytes a read gives and a write takes at most, and
/// for how many bytes there is room in the output and in the notes.
#[derive(Clone, Copy)]
pub struct Failing {
    pub read: u64,
    pub piece: usize,
    pub write: u64,
    pub most: usize,
    pub room: usize,
    pub notes: usize,
}

pub const NOTHING: Failing = Failing {
    read: 0,
    piece: ROOM,
    write: 0,
    most: ROOM,
    room: ROOM,
    notes: ROOM,
};

/// The output of a run, and what people are told.
#[derive(Drop)]
pub struct Sinks {
    pub out: MemorySink,
    pub notes: MemorySink,
}

impl Sinks {
    pub fn new(alloc: Global, failing: Failing) -> Result<Sinks, AllocError> {
        let fail = vec![in alloc; failing.write]?;
        Ok(Sinks {
            out: MemorySink::new(alloc, failing.room, failing.most.max(1), fail)?,
            notes: MemorySink::new(alloc, failing.notes, 7, Vec::new(alloc))?,
        })
    }
}

/// How a run ended, what it wrote, and its notes.
#[derive(Drop)]
pub struct Told {
    pub outcome: Outcome,
    pub out: Vec<u8>,
    notes: Vec<u8>,
}

/// `run [read K | piece K | write K | most K | room K | notes K] .. : WORDS`, the words parted by `|`: how the run ends, and what
/// it writes.
pub fn run(out: &mut Answer, script: &Script, words: &[u8]) -> Result<(), AllocError> {
    let (failing, line) = cut_failing(words);
    let told = run_over(out.alloc(), script, line, failing)?;
    tell(out, &told);
    Ok(())
}

/// `files WORDS`: how a run over the files that stand beside the cases ends, and what it writes.
pub fn files(rt: &HostRuntime, out: &mut Answer, line: &[u8]) -> Result<(), AllocError> {
    let alloc = rt.alloc();
    let given = words_and_files(alloc, &Script::new(alloc), line)?;
    let told = run_words(alloc, &given.words, FolderShelf::new(rt), NOTHING)?;
    tell(out, &told);
    Ok(())
}

fn tell(out: &mut Answer, told: &Told) {
    let notes = told.notes.iter().filter(|byte| **byte == b'\n').count();
    out.debug("", told.outcome);
    out.shown(", status ", told.outcome.status());
    out.shown(", ", notes);
    out.text(" notes\n");
    out.bytes(&told.out);
}

/// `notes WORDS`: how the run ends, and its notes.
pub fn notes(out: &mut Answer, script: &Script, line: &[u8]) -> Result<(), AllocError> {
    let told = run_over(out.alloc(), script, line, NOTHING)?;
    out.debug("", told.outcome);
    out.text("\n");
    out.bytes(&told.notes);
    Ok(())
}

/// `bytes WORDS`: how the run ends, and the bytes that it writes, in hexadecimal.
pub fn bytes(out: &mut Answer, script: &Script, line: &[u8]) -> Result<(), AllocError> {
    let told = run_over(out.alloc(), script, line, NOTHING)?;
    out.debug("", told.outcome);
    out.shown(", ", told.out.len());
    out.text(" bytes: ");
    for byte in &told.out {
        out.made(format!(in out.alloc(); "{byte:02x}"));
    }
    out.text("\n");
    Ok(())
}

/// What a run writes whose words `|` parts.
pub fn output(alloc: Global, script: &Script, line: &[u8]) -> Result<Vec<u8>, AllocError> {
    let told = run_over(alloc, script, line, NOTHING)?;
    Ok(told.out)
}

/// Runs the words over the texts that they name.
pub fn run_over(
    alloc: Global,
    script: &Script,
    line: &[u8],
    failing: Failing,
) -> Result<Told, AllocError> {
    let Given { words, files } = words_and_files(alloc, script, line)?;
    let shelf = MemoryShelf::new(files, vec![in alloc; failing.read]?);
    run_words(alloc, &words, Pieces::new(shelf, failing.piece), failing)
}

/// Runs words over files.
pub fn run_words<F: Shelf + Drop>(
    alloc: Global,
    words: &[String],
    shelf: F,
    failing: Failing,
) -> Result<Told, AllocError> {
    let Sinks { out, notes } = Sinks::new(alloc, failing)?;
    let mut ports = Ports {
        alloc,
        shelf,
        out,
        notes,
    };
    let outcome = planner_core::run(&mut ports, words);
    told_by(alloc, outcome, ports.out.bytes(), ports.notes.bytes())
}

fn told_by(alloc: Global, outcome: Outcome, out: &[u8], notes: &[u8]) -> Result<Told, AllocError> {
    Ok(Told {
        outcome,
        out: Vec::from_slice(alloc, out)?,
        notes: Vec::from_slice(alloc, notes)?,
    })
}

/// What fails, as the words before `:` say, and the words of the run.
fn cut_failing(words: &[u8]) -> (Failing, &[u8]) {
    let mut failing = NOTHING;
    let mut rest = words;
    for _ in 0..words.len() {
        let (what, behind) = words::cut(rest);
        if what == b":".as_slice() {
            return (failing, behind);
        }
        let (count, behind) = words::cut(behind);
        failing = with_failing(failing, what, words::number(count));
        rest = behind;
    }
    (failing, rest)
}

fn with_failing(failing: Failing, what: &[u8], count: u64) -> Failing {
    match words::text(what) {
        "read" => Failing {
            read: count,
            ..failing
        },
        "piece" => Failing {
            piece: count as usize,
            ..failing
        },
        "write" => Failing {
            write: count,
            ..failing
        },
        "most" => Failing {
            most: count as usize,
            ..failing
        },
        "room" => Failing {
            room: count as usize,
            ..failing
        },
        "notes" => Failing {
            notes: count as usize,
            ..failing
        },
        _ => failing,
    }
}
