//! Files of cases, one for each topic, and which of their calls answer otherwise than is wanted.
//!
//! A line of such a file is a call and its words. Lines behind it that begin with `>` and a space are those of the wanted answer,
//! written as those of texts; a call without them differs. The texts that a call names stand before it (`Script` says how), or in
//! the file `texts/NAME`, whose lines `use NAME` takes.

ghost use Rattle.std.specs.Prelude.{◌<◌, length};

use crate::answer::Answer;
use crate::escapes::{escaped, push_unescaped};
use crate::script::Script;
use crate::words;
use std::alloc::{AllocError, Global};
use std::{fs, io};

/// What answers the calls of cases.
pub trait Calls {
    /// What a call of these words answers, over the texts so far.
    fn answer(
        &mut self,
        script: &Script,
        call: &str,
        words: &[u8],
        out: &mut Answer,
    ) -> io::Result<()>;
}

/// Plays the topics of a folder, which are the files that the lines of its file `topics` name. Prints each case that differs: the
/// lines that are wanted behind `-`, those that came behind `+`, and one that begins with `!` where the answer is not whole; and
/// how many differ of each topic.
pub fn play<C: Calls>(rt: &HostRuntime, folder: &str, calls: &mut C) -> io::Result<()> {
    let path = format!(in rt.alloc(); "{folder}/topics")?;
    let names = fs::read(rt, path.as_str())?;
    for name in names.split(|byte| *byte == b'\n') {
        if !name.is_empty() {
            let name = words::text(name);
            play_topic(rt, format!(in rt.alloc(); "{folder}/{name}")?, calls)?;
        }
    }
    Ok(())
}

/// Plays the topic of this file.
fn play_topic<C: Calls>(rt: &HostRuntime, path: String, calls: &mut C) -> io::Result<()> {
    let file = fs::read(rt, path.as_str());
    let mut topic = Topic::new(rt, path);
    match file {
        Ok(file) => topic.play_file(&file, calls)?,
        Err(_) => topic.tell("it can't be read")?,
    }
    topic.print_counts()
}

/// A topic as far as it is played: the texts so far, how many cases there were, and how many of them differ. A file that can't be
/// read or has no case is a difference, too.
#[derive(Drop)]
struct Topic<'a> {
    rt: &'a HostRuntime,
    path: String,
    script: Script,
    cases: u32,
    differ: u32,
}

/// A line that calls something, its number, and the lines behind it that say what is wanted.
#[derive(Clone, Copy)]
struct Case<'a> {
    number: usize,
    line: &'a [u8],
    wanted: &'a [&'a [u8]],
}

impl<'a> Topic<'a> {
    fn new(rt: &'a HostRuntime, path: String) -> Topic<'a> {
        Topic {
            rt,
            path,
            script: Script::new(rt.alloc()),
            cases: 0,
            differ: 0,
        }
    }

    /// Plays the cases of a file.
    fn play_file<C: Calls>(&mut self, file: &[u8], calls: &mut C) -> io::Result<()> {
        let lines = lines_of(self.rt.alloc(), file)?;
        let mut behind = 0;
        for place in 0..lines.len() {
            if place >= behind {
                behind = self.take(&lines, place, calls)?;
            }
        }
        if self.cases == 0 {
            self.tell("it has no case")?;
        }
        Ok(())
    }

    /// Takes the line at a place, and where it is a call the wanted lines behind it; the place behind these.
    fn take<C: Calls>(&mut self, lines: &[&[u8]], place: usize, calls: &mut C) -> io::Result<usize>
        requires { place < length lines.now }
    {
        let line = lines[place];
        let behind = place + 1;
        if self.takes_texts(line)? {
            return Ok(behind);
        }
        let wanted = wanted_lines(&lines[behind..]);
        let case = Case {
            number: behind,
            line,
            wanted,
        };
        self.judge(&case, calls)?;
        Ok(behind.saturating_add(wanted.len()))
    }

    /// Takes a line that says something of texts, or nothing; whether it was one.
    fn takes_texts(&mut self, line: &[u8]) -> io::Result<bool> {
        match line.strip_prefix(b"use ") {
            Some(name) => self.takes_file(name),
            None => Ok(self.script.takes(self.rt.alloc(), line)?),
        }
    }

    /// Takes the lines of a file of texts; whether there is one, with no other lines.
    fn takes_file(&mut self, name: &[u8]) -> io::Result<bool> {
        let name = words::text(name);
        let path = format!(in self.rt.alloc(); "texts/{name}")?;
        match fs::read(self.rt, path.as_str()) {
            Ok(file) => Ok(self.script.takes_all(self.rt.alloc(), &file)?),
            Err(_) => Ok(false),
        }
    }

    /// Counts a case, and prints it where its call answers otherwise than is wanted.
    fn judge<C: Calls>(&mut self, case: &Case<'_>, calls: &mut C) -> io::Result<()> {
        let mut out = Answer::new(self.rt.alloc());
        let (call, words) = words::cut(case.line);
        let answered = calls.answer(&self.script, words::text(call), words, &mut out);
        if answered.is_err() {
            out.break_off("it can't be answered");
        }
        self.cases = self.cases.saturating_add(1);
        if !is_wanted(self.rt.alloc(), case.wanted, &out)? {
            self.print(case, &out)?;
        }
        Ok(())
    }

    /// Prints a case that differs.
    fn print(&mut self, case: &Case<'_>, out: &Answer) -> io::Result<()> {
        self.differ = self.differ.saturating_add(1);
        let (path, number) = (&self.path, case.number);
        print!(self.rt; "{path}:{number}: ")?;
        self.print_line("", case.line)?;
        for line in case.wanted {
            self.print_line("-", line)?;
        }
        self.print_line("", &escaped(self.rt.alloc(), "+>", out.written())?)?;
        if !out.is_whole() {
            println!(self.rt; "! that is no whole answer")?;
        }
        Ok(())
    }

    fn print_line(&self, before: &str, line: &[u8]) -> io::Result<()> {
        let text = String::from_utf8_lossy(self.rt.alloc(), line)?;
        println!(self.rt; "{before}{text}")
    }

    /// Prints what is wrong with the file, which counts as a difference.
    fn tell(&mut self, what: &str) -> io::Result<()> {
        self.differ = self.differ.saturating_add(1);
        let path = &self.path;
        println!(self.rt; "{path}: {what}")
    }

    fn print_counts(&self) -> io::Result<()> {
        let (path, cases, differ) = (&self.path, self.cases, self.differ);
        println!(self.rt; "{path}: {cases} cases, {differ} differ")
    }
}

fn lines_of<'a>(alloc: Global, file: &'a [u8]) -> Result<Vec<&'a [u8]>, AllocError> {
    let mut lines = Vec::new(alloc);
    for line in file.split(|byte| *byte == b'\n') {
        lines.push(line)?;
    }
    Ok(lines)
}

/// The first lines that say what answer is wanted.
fn wanted_lines<'a>(lines: &'a [&'a [u8]]) -> &'a [&'a [u8]] {
    let end = lines.iter().position(|line| !line.starts_with(b">"));
    match end {
        Some(end) => &lines[..end],
        None => lines,
    }
}

/// Whether an answer is what these lines say. None is where they say nothing.
fn is_wanted(alloc: Global, lines: &[&[u8]], out: &Answer) -> Result<bool, AllocError> {
    let mut wanted = Vec::new(alloc);
    for line in lines {
        let line = line.strip_prefix(b">").unwrap_or(line);
        push_unescaped(&mut wanted, line.strip_prefix(b" ").unwrap_or(line))?;
    }
    Ok(!lines.is_empty() && out.is_whole() && wanted.as_slice() == out.written())
}
