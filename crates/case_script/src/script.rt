//! The texts of the cases.
//!
//! `text NAME` begins one. Each line behind it that begins with `|` is a line of it, which a line feed ends; in it `\r`
//! stands for a carriage return, `\t` for a tab, `\\` for a backslash and `\xHH` for a byte, and a backslash at the end
//! takes the line feed away. `front NAME COUNT` stands for the first lines of an earlier text, and `rest NAME COUNT` for
//! the lines behind those. `folder NAME OTHER` begins a copy of each text `OTHER/..`, `without NAME` takes a text away, and a
//! text in the place of one of the same name does so too. Empty lines and lines that begin with `#` say nothing.

use crate::escapes::push_unescaped;
use crate::words;
use std::alloc::{AllocError, Global};

/// The texts so far, in order.
#[derive(Drop)]
pub struct Script {
    texts: Vec<Text>,
}

/// A text and its name.
#[derive(Drop)]
pub struct Text {
    pub name: Vec<u8>,
    pub bytes: Vec<u8>,
}

impl Script {
    pub fn new(alloc: Global) -> Script {
        Script {
            texts: Vec::new(alloc),
        }
    }

    /// The text of this name; an empty one where there is none.
    pub fn text(&self, name: &[u8]) -> &[u8] {
        for text in &self.texts {
            if text.name.as_slice() == name {
                return &text.bytes;
            }
        }
        b""
    }

    /// All texts, in order.
    pub fn texts(&self) -> &[Text] {
        &self.texts
    }

    /// Takes a line that says something of texts, or nothing; whether it was one.
    pub fn takes(&mut self, alloc: Global, line: &[u8]) -> Result<bool, AllocError> {
        if line.is_empty() || line.starts_with(b"#") {
            return Ok(true);
        }
        if let Some(content) = line.strip_prefix(b"|") {
            self.push_line(content)?;
            return Ok(true);
        }
        self.takes_word(alloc, line)
    }

    /// Takes the lines of a file; whether each said something of texts, or nothing.
    pub fn takes_all(&mut self, alloc: Global, file: &[u8]) -> Result<bool, AllocError> {
        let mut all = true;
        for line in file.split(|byte| *byte == b'\n') {
            all = self.takes(alloc, line)? && all;
        }
        Ok(all)
    }

    /// Takes a line that begins with such a word.
    fn takes_word(&mut self, alloc: Global, line: &[u8]) -> Result<bool, AllocError> {
        let (call, rest) = words::cut(line);
        match str::from_utf8(call).unwrap_or("") {
            "text" => self.begin(alloc, rest)?,
            "without" => self.remove(rest),
            "folder" => self.copy_folder(alloc, rest)?,
            "front" => self.push_front(alloc, rest)?,
            "rest" => self.push_rest(alloc, rest)?,
            _ => return Ok(false),
        }
        Ok(true)
    }

    /// Begins a text of this name.
    fn begin(&mut self, alloc: Global, name: &[u8]) -> Result<(), AllocError> {
        self.remove(name);
        let name = Vec::from_slice(alloc, name)?;
        let bytes = Vec::new(alloc);
        self.texts.push(Text { name, bytes })?;
        Ok(())
    }

    /// Takes the text of this name away.
    fn remove(&mut self, name: &[u8]) {
        self.texts.retain(|text| text.name.as_slice() != name);
    }

    /// Copies each text in a folder into another one; of the two words, that one's name stands first.
    fn copy_folder(&mut self, alloc: Global, names: &[u8]) -> Result<(), AllocError> {
        let (name, other) = words::cut(names);
        let mut copies = Vec::new(alloc);
        for text in &self.texts {
            if let Some(path) = path_in(other, &text.name) {
                copies.push(text.copied(alloc, name, path)?)?;
            }
        }
        self.texts.append(&mut copies)
    }

    /// The first lines of an earlier text, and what is behind them; the words are its name and how many lines.
    fn parted(&self, words: &[u8]) -> (&[u8], &[u8]) {
        let (name, count) = words::cut(words);
        lines_at(self.text(name), words::number(count))
    }

    fn push_front(&mut self, alloc: Global, words: &[u8]) -> Result<(), AllocError> {
        let bytes = Vec::from_slice(alloc, self.parted(words).0)?;
        self.push(&bytes)
    }

    fn push_rest(&mut self, alloc: Global, words: &[u8]) -> Result<(), AllocError> {
        let bytes = Vec::from_slice(alloc, self.parted(words).1)?;
        self.push(&bytes)
    }

    /// Puts a line at the end of the last text.
    fn push_line(&mut self, line: &[u8]) -> Result<(), AllocError> {
        if let Some(last) = self.texts.last_mut() {
            push_unescaped(&mut last.bytes, line)?;
        }
        Ok(())
    }

    /// Puts bytes at the end of the last text.
    fn push(&mut self, bytes: &[u8]) -> Result<(), AllocError> {
        if let Some(last) = self.texts.last_mut() {
            last.bytes.extend_from_slice(bytes)?;
        }
        Ok(())
    }
}

impl Text {
    /// This text at a path in another folder.
    fn copied(&self, alloc: Global, folder: &[u8], path: &[u8]) -> Result<Text, AllocError> {
        let bytes = Vec::from_slice(alloc, &self.bytes)?;
        let mut name = Vec::from_slice(alloc, folder)?;
        name.extend_from_slice(path)?;
        Ok(Text { name, bytes })
    }
}

/// The path of this name in a folder, with the slash before it.
fn path_in<'a>(folder: &[u8], name: &'a [u8]) -> Option<&'a [u8]> {
    let path = name.strip_prefix(folder)?;
    if path.starts_with(b"/") {
        Some(path)
    } else {
        None
    }
}

/// The first lines of a text, with their line feeds, and what is behind them.
fn lines_at(text: &[u8], count: u64) -> (&[u8], &[u8]) {
    let mut rest = text;
    for _ in 0..count {
        rest = behind_line(rest);
    }
    text.split_at(text.len().saturating_sub(rest.len()))
}

/// What is behind the first line of a text.
fn behind_line(text: &[u8]) -> &[u8] {
    let end = match text.iter().position(|byte| *byte == b'\n') {
        Some(end) => end + 1,
        None => text.len(),
    };
    &text[end..]
}
