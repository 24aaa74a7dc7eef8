//! The worked examples.

use crate::runs::{NOTHING, Told, run_words};
use case_script::{Answer, words};
use plan_base::{FolderShelf, MemoryShelf, Shelf};
use planner_core::Outcome;
use std::alloc::{AllocError, Global};
use std::collections::BTreeMap;
use std::{fs, io};

/// `example FOLDER [DATE DAYS]`: whether all that is written of an example is as expected, which is a folder with the files
/// `region`, `queries` and `expected`: the answers to its queries; its region, if it has a first date and a count of days, made of the
/// map and the feed beside it; and the region again, written as bytes and back.
pub fn example(rt: &HostRuntime, out: &mut Answer, words: &[u8]) -> io::Result<()> {
    let (folder, days) = words::cut(words);
    let (folder, days) = (words::text(folder), words::text(days));
    let same = answers_as_expected(rt, folder)?
        && is_compiled_so(rt, folder, days)?
        && is_written_back(rt, folder)?;
    out.text(if same { "as expected\n" } else { "DIFFERS\n" });
    Ok(())
}

fn answers_as_expected(rt: &HostRuntime, folder: &str) -> io::Result<bool> {
    let expected = held(rt, folder, "expected")?;
    let told = run_in(rt, folder, "answer /region /queries", "")?;
    Ok(told.outcome == Outcome::Done && told.out == expected)
}

fn is_compiled_so(rt: &HostRuntime, folder: &str, days: &str) -> io::Result<bool> {
    if days.is_empty() {
        return Ok(true);
    }
    let region = held(rt, folder, "region")?;
    let told = run_in(rt, folder, "compile /map.opl /feed", days)?;
    Ok(told.outcome == Outcome::Done && told.out == region)
}

fn is_written_back(rt: &HostRuntime, folder: &str) -> io::Result<bool> {
    let region = held(rt, folder, "region")?;
    let told = run_in(rt, folder, "migrate /region", "")?;
    let back = written_back(rt.alloc(), told)?;
    Ok(back.outcome == Outcome::Done && back.out == region)
}

/// Writes what a run wrote, which are the bytes of a region, as a text.
fn written_back(alloc: Global, told: Told) -> Result<Told, AllocError> {
    let mut files = BTreeMap::new(alloc);
    files.insert(String::from_str(alloc, "bytes")?, told.out)?;
    let shelf = MemoryShelf::new(files, Vec::new(alloc));
    run_line(alloc, "", "migrate bytes --format 1", "", shelf)
}

/// Runs a line of words and more of them over the files of the system.
fn run_in(rt: &HostRuntime, folder: &str, line: &str, more: &str) -> Result<Told, AllocError> {
    run_line(rt.alloc(), folder, line, more, FolderShelf::new(rt))
}

/// Runs a line of words and more of them. A word that begins with `/` names a file of the folder.
fn run_line<F: Shelf + Drop>(
    alloc: Global,
    folder: &str,
    line: &str,
    more: &str,
    shelf: F,
) -> Result<Told, AllocError> {
    let mut words = Vec::new(alloc);
    push_word(&mut words, alloc, "", "modeplan")?;
    push_words(&mut words, alloc, folder, line)?;
    push_words(&mut words, alloc, folder, more)?;
    run_words(alloc, &words, shelf, NOTHING)
}

fn push_words(
    words: &mut Vec<String>,
    alloc: Global,
    folder: &str,
    line: &str,
) -> Result<(), AllocError> {
    for word in line.split(' ') {
        if word.starts_with('/') {
            push_word(words, alloc, folder, word)?;
        } else if !word.is_empty() {
            push_word(words, alloc, "", word)?;
        }
    }
    Ok(())
}

fn push_word(
    words: &mut Vec<String>,
    alloc: Global,
    folder: &str,
    word: &str,
) -> Result<(), AllocError> {
    words.push(format!(in alloc; "{folder}{word}")?)?;
    Ok(())
}

/// The bytes of a file of an example.
fn held(rt: &HostRuntime, folder: &str, file: &str) -> io::Result<Vec<u8>> {
    let path = format!(in rt.alloc(); "{folder}/{file}")?;
    fs::read(rt, path.as_str())
}
