//! Notes for people. Nothing is proved of what they say, and a fault of the sink that takes them changes nothing.

use fault_notes::seen;
use plan_base::{Sink, write_all};
use std::alloc::{AllocError, Global};

/// Tells that a word of the call is no text, so that no command can be read from the words.
pub fn tell_no_text<E: Sink>(alloc: Global, notes: &mut E) {
    let told = "a word of the call is not UTF-8, as all words have to be, names of files too";
    tell(alloc, notes, String::from_str(alloc, told));
}

/// Writes a line that begins with the program's name, if there was memory for it. Names of files and words of the call, which
/// may hold anything, are shown in it as [`seen`] shows them.
pub fn tell<E: Sink>(alloc: Global, notes: &mut E, told: Result<String, AllocError>) {
    if let Ok(line) = line_of(alloc, told) {
        let _ = write_all(notes, line.as_bytes());
    }
}

fn line_of(alloc: Global, told: Result<String, AllocError>) -> Result<String, AllocError> {
    let told = seen(alloc, &told?)?;
    format!(in alloc; "modeplan: {told}\n")
}

/// Words of the call as they are shown in help that is more than a line.
pub fn seen_words(alloc: Global, words: &[String]) -> Result<Vec<String>, AllocError> {
    let mut shown = Vec::new(alloc);
    for word in words {
        shown.push(seen(alloc, word)?)?;
    }
    Ok(shown)
}
