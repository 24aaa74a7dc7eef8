//! Pieces of files, as people can read them.

use std::alloc::{AllocError, Global};

/// How many characters of a piece are shown.
const MOST_SHOWN: usize = 60;

/// A piece of a file in quotes: its first sixty characters, and `..` where there are more, each as [`seen`] shows it. So
/// are bytes that are no text.
pub(crate) fn shown(alloc: Global, piece: &[u8]) -> Result<String, AllocError> {
    let text = String::from_utf8_lossy(alloc, piece)?;
    let mut out = String::from_str(alloc, "\"")?;
    for (count, c) in text.chars().enumerate() {
        if count == MOST_SHOWN {
            out.push_str("..")?;
            break;
        }
        out.push(seen_as(c))?;
    }
    out.push('"')?;
    Ok(out)
}

/// A text as people can see it, on one line: U+FFFD stands for each control character, each end of a line, and each mark that
/// has no width or changes the order of what stands beside it.
pub fn seen(alloc: Global, text: &str) -> Result<String, AllocError> {
    let mut out = String::new(alloc);
    for c in text.chars() {
        out.push(seen_as(c))?;
    }
    Ok(out)
}

/// What is shown for a character.
fn seen_as(c: char) -> char {
    if c.is_control() || is_unseen(u32::from(c)) {
        '\u{fffd}'
    } else {
        c
    }
}

/// Whether a character of this number has no width, parts lines or paragraphs, or changes the order of text.
fn is_unseen(number: u32) -> bool {
    matches!(
        number,
        0xad | 0x61c | 0x200b..=0x200f | 0x2028..=0x202e | 0x2060..=0x206f | 0xfeff
    )
}

/// Whether the line of this number, from 1 on, is the last of a text, with no line feed behind it.
pub(crate) fn is_unended(text: &[u8], number: u64) -> bool {
    let ended = text.iter().filter(|byte| **byte == b'\n').count();
    (ended as u64) < number
}

/// A line of a text by its number, from 1 on; none where the text has not so many.
pub(crate) fn line_at(text: &[u8], number: u64) -> Option<&[u8]> {
    let place = usize::try_from(number.checked_sub(1)?).ok()?;
    text.split(|byte| *byte == b'\n').nth(place)
}

/// The number, from 1 on, of the line that is this one, counted from 0, of those whose first word is one of these.
pub(crate) fn number_of_line(text: &[u8], words: &[&[u8]], row: u64) -> Option<u64> {
    let mut left = row;
    for (place, line) in text.split(|byte| *byte == b'\n').enumerate() {
        if words.iter().any(|word| has_first_word(line, word)) {
            if left == 0 {
                return Some((place as u64).saturating_add(1));
            }
            left -= 1;
        }
    }
    None
}

/// Whether the first word of a line is this one.
fn has_first_word(line: &[u8], word: &[u8]) -> bool {
    line.strip_prefix(word)
        .is_some_and(|rest| rest.first() == Some(&b' '))
}
