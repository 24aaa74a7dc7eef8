//! The words of a case, and the parts of a word, by their places.

use case_script::words;
use std::alloc::AllocError;

/// How many parts a byte parts a text into.
pub fn count(text: &[u8], by: u8) -> u32 {
    let mut count = 1u32;
    for byte in text {
        if *byte == by {
            count = count.saturating_add(1);
        }
    }
    count
}

/// The part at a place of those that a byte parts a text into; an empty one where there are fewer.
pub fn part(text: &[u8], by: u8, place: u32) -> &[u8] {
    text.split(|byte| *byte == by)
        .nth(place as usize)
        .unwrap_or(b"")
}

/// What stands behind so many words of a line.
pub fn behind(line: &[u8], count: u32) -> &[u8] {
    let mut rest = line;
    for _ in 0..count {
        rest = words::cut(rest).1;
    }
    rest
}

/// The word at a place of a line; an empty one where there are fewer.
pub fn word(line: &[u8], place: u32) -> &[u8] {
    words::cut(behind(line, place)).0
}

/// The number that the word at a place spells.
pub fn number(line: &[u8], place: u32) -> u64 {
    words::number(word(line, place))
}

/// The node that the word at a place spells.
pub fn node(line: &[u8], place: u32) -> u32 {
    words::node(word(line, place))
}

/// Whether what was written, if there was memory for it, is this text.
pub fn is_text(written: Result<Vec<u8>, AllocError>, text: &[u8]) -> bool {
    match written {
        Ok(written) => written.as_slice() == text,
        Err(_) => false,
    }
}
