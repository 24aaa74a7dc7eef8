//! The words of a run, and the files that it finds.

use crate::script::{Script, Text};
use std::alloc::{AllocError, Global};
use std::collections::BTreeMap;

/// The words of a run, and the texts that they name, as files.
#[derive(Drop)]
pub struct Given {
    pub words: Vec<String>,
    pub files: BTreeMap<String, Vec<u8>>,
}

impl Given {
    /// Takes a word, and the texts that it names.
    fn take(&mut self, alloc: Global, script: &Script, word: &[u8]) -> Result<(), AllocError> {
        self.words.push(String::from_utf8_lossy(alloc, word)?)?;
        for text in script.texts() {
            if is_at(&text.name, word) {
                self.put(alloc, text)?;
            }
        }
        Ok(())
    }

    /// Puts a text among the files.
    fn put(&mut self, alloc: Global, text: &Text) -> Result<(), AllocError> {
        let bytes = Vec::from_slice(alloc, &text.bytes)?;
        self.files
            .insert(String::from_utf8_lossy(alloc, &text.name)?, bytes)?;
        Ok(())
    }
}

/// The words that `|` parts on a line. The files are the texts whose names are words, or paths in folders that are.
pub fn words_and_files(alloc: Global, script: &Script, line: &[u8]) -> Result<Given, AllocError> {
    let mut given = Given {
        words: Vec::new(alloc),
        files: BTreeMap::new(alloc),
    };
    if !line.is_empty() {
        for word in line.split(|byte| *byte == b'|') {
            given.take(alloc, script, word)?;
        }
    }
    Ok(given)
}

/// Whether a name is that of a file, or of one in a folder, which a word names.
fn is_at(name: &[u8], word: &[u8]) -> bool {
    match name.strip_prefix(word) {
        Some(rest) => rest.is_empty() || rest.first() == Some(&b'/'),
        None => false,
    }
}
