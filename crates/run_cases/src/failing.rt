//! Runs whose reads or writes fail in turn, or whose output is full.

use crate::pieces::Pieces;
use crate::runs::{Failing, NOTHING, Told, run_over, run_words};
use case_script::{Answer, Given, Script, words, words_and_files};
use plan_base::MemoryShelf;
use planner_core::Outcome;
use std::alloc::{AllocError, Global};

/// `sweep WORDS`: read number k fails, for k from 1 until a run is Done, and then write number k, where a write takes four
/// bytes; whether each earlier run ended as it must, with a front of the output written. Where a read fails, only a command that
/// answers a file in turn has written any of it.
pub fn sweep(out: &mut Answer, script: &Script, line: &[u8]) -> Result<(), AllocError> {
    let alloc = out.alloc();
    let whole = run_over(alloc, script, line, NOTHING)?;
    let early = early(line, &whole.out);
    let (reads, reads_right) = sweep_reads(alloc, script, line, early)?;
    let (writes, writes_right) = sweep_writes(alloc, script, line, &whole.out)?;
    out.debug("", whole.outcome);
    out.shown("; ", reads);
    out.shown(" reads failed, as they must: ", reads_right);
    out.shown("; ", writes);
    out.shown(" writes failed, as they must: ", writes_right);
    out.text("\n");
    Ok(())
}

/// No run of a case reads or writes more often.
const MOST_CALLS: u64 = 20_000;

/// What a run may have written when a read fails: of all that it writes nothing, or any front, if its command answers a file in turn.
fn early<'a>(line: &[u8], whole: &'a [u8]) -> &'a [u8] {
    if is_in_turn(line) { whole } else { b"" }
}

/// Whether the command of a run answers a file in turn.
fn is_in_turn(line: &[u8]) -> bool {
    matches!(
        words::text(word_of(line, 1)),
        "answer" | "few" | "latest" | "profile" | "matrix" | "requests"
    )
}

/// One of the words that `|` parts on a line, counted from 0; an empty one where there is none.
fn word_of(line: &[u8], place: usize) -> &[u8] {
    line.split(|byte| *byte == b'|').nth(place).unwrap_or(b"")
}

/// How many reads failed before a run was Done, and whether each ended the run as it must, with a front of this written.
fn sweep_reads(
    alloc: Global,
    script: &Script,
    line: &[u8],
    early: &[u8],
) -> Result<(u64, bool), AllocError> {
    let mut right = true;
    for read in 1..MOST_CALLS {
        let told = run_over(alloc, script, line, Failing { read, ..NOTHING })?;
        match told.outcome {
            Outcome::Done => return Ok((read - 1, right)),
            Outcome::ReadFault { .. } => right = right && early.starts_with(&told.out),
            _ => right = false,
        }
    }
    Ok((MOST_CALLS, false))
}

/// How many writes failed before a run was Done, and whether each left a front of the output.
fn sweep_writes(
    alloc: Global,
    script: &Script,
    line: &[u8],
    whole: &[u8],
) -> Result<(u64, bool), AllocError> {
    let mut right = true;
    for write in 1..MOST_CALLS {
        let failing = Failing {
            write,
            most: 4,
            ..NOTHING
        };
        let told = run_over(alloc, script, line, failing)?;
        match told.outcome {
            Outcome::Done => return Ok((write - 1, right && told.out.as_slice() == whole)),
            Outcome::WriteFault => right = right && is_front(&told.out, whole, write),
            _ => right = false,
        }
    }
    Ok((MOST_CALLS, false))
}

/// `cuts WORDS`: all files are read byte by byte, and the one that the fourth word names, which is read last, can't be read on
/// from one place, for each of its places; whether each run ended so, and wrote what the command writes for the lines that end
/// before that place.
pub fn cuts(out: &mut Answer, script: &Script, line: &[u8]) -> Result<(), AllocError> {
    let alloc = out.alloc();
    let name = word_of(line, 3);
    let bytes = script.text(name);
    let before = reads_before(alloc, script, line, name)?;
    let mut right = true;
    for place in 0..=bytes.len() {
        let cut = Cut {
            script,
            line,
            name,
            place,
            before,
        };
        right = right && is_cut_right(alloc, &cut)?;
    }
    out.shown("", bytes.len());
    out.shown(" bytes; what ended before each place was answered: ", right);
    out.text("\n");
    Ok(())
}

/// How many reads of a byte, and of none at the end, read all files of a run but the one of this name.
fn reads_before(
    alloc: Global,
    script: &Script,
    line: &[u8],
    name: &[u8],
) -> Result<u64, AllocError> {
    let given = words_and_files(alloc, script, line)?;
    let mut reads: u64 = 0;
    for (path, bytes) in &given.files {
        if path.as_bytes() != name {
            reads = reads.saturating_add(bytes.len() as u64).saturating_add(1);
        }
    }
    Ok(reads)
}

/// A run, the file of this name of which can't be read on from a place; so many reads read the other files before it.
#[derive(Drop)]
struct Cut<'a> {
    script: &'a Script,
    line: &'a [u8],
    name: &'a [u8],
    place: usize,
    before: u64,
}

/// Whether a run that could not read on ended so, and wrote what is right for the lines that ended before.
fn is_cut_right(alloc: Global, cut: &Cut<'_>) -> Result<bool, AllocError> {
    let bytes = cut.script.text(cut.name);
    let ended = ended_lines(&bytes[..cut.place.min(bytes.len())]);
    let wanted = cut_run(alloc, cut, ended, NOTHING)?;
    let failing = Failing {
        read: cut
            .before
            .saturating_add(cut.place as u64)
            .saturating_add(1),
        piece: 1,
        ..NOTHING
    };
    let told = cut_run(alloc, cut, bytes, failing)?;
    let failed = matches!(told.outcome, Outcome::ReadFault { .. });
    Ok(failed && told.out.as_slice() == wanted.out.as_slice())
}

/// The lines of a text that end in a line feed.
fn ended_lines(text: &[u8]) -> &[u8] {
    let count = match text.iter().rposition(|byte| *byte == b'\n') {
        Some(end) => end.saturating_add(1),
        None => 0,
    };
    &text[..count.min(text.len())]
}

/// Runs the command with these bytes in the file.
fn cut_run(
    alloc: Global,
    cut: &Cut<'_>,
    bytes: &[u8],
    failing: Failing,
) -> Result<Told, AllocError> {
    let Given { words, mut files } = words_and_files(alloc, cut.script, cut.line)?;
    files.insert(
        String::from_utf8_lossy(alloc, cut.name)?,
        Vec::from_slice(alloc, bytes)?,
    )?;
    let shelf = MemoryShelf::new(files, vec![in alloc; failing.read]?);
    run_words(alloc, &words, Pieces::new(shelf, failing.piece), failing)
}

/// `fill WORDS`: the output has room for no byte, one, two and so on; whether each run filled it and ended as it must.
pub fn fill(out: &mut Answer, script: &Script, line: &[u8]) -> Result<(), AllocError> {
    let whole = run_over(out.alloc(), script, line, NOTHING)?.out;
    let mut right = true;
    for room in 0..whole.len() {
        right = right && is_filled(out.alloc(), script, line, &whole[..room])?;
    }
    out.shown("", whole.len());
    out.shown(" rooms filled, as they must: ", right);
    out.text("\n");
    Ok(())
}

/// Whether a run with room for no more than this output wrote it, and ended as it must.
fn is_filled(
    alloc: Global,
    script: &Script,
    line: &[u8],
    front: &[u8],
) -> Result<bool, AllocError> {
    let failing = Failing {
        room: front.len(),
        most: 16,
        ..NOTHING
    };
    let told = run_over(alloc, script, line, failing)?;
    Ok(told.outcome == Outcome::WriteFault && told.out.as_slice() == front)
}

/// Whether a run whose write of this number failed has written what the earlier writes, of four bytes or fewer, can hold.
fn is_front(out: &[u8], whole: &[u8], write: u64) -> bool {
    whole.starts_with(out) && out.len() as u64 <= write.saturating_sub(1).saturating_mul(4)
}
