//! Numbers, names, lines and words of texts.

use case_script::{Answer, words};
use plain_texts::{
    Name, is_name, name_of_id, next_line, push_decimal, push_fixed, push_hexadecimal,
    push_line_feed, push_signed, read_fixed, read_hexadecimal, read_id, read_number, read_signed,
    split_line, words_of,
};
use std::alloc::{AllocError, Global};

/// What is below 10^30.
const NUMBERS: u128 = 1_000_000_000_000_000_000_000_000_000_000;

/// `digits TEXT`: what a text spells as each kind of number.
pub fn digits(out: &mut Answer, text: &[u8]) {
    out.debug("number ", read_number(text, NUMBERS));
    out.debug(", below 8 ", read_number(text, 8));
    out.debug(", below 7 ", read_number(text, 7));
    out.debug("\nid ", read_id(text));
    out.debug(", degrees ", read_signed(text, 900_000_001));
    out.debug(", days ", read_hexadecimal(text));
    out.debug(", fixed ", read_fixed(text));
}

/// `written NUMBER`: how a number is written in each way.
pub fn written(out: &mut Answer, word: &[u8]) {
    let mut written = Vec::new(out.alloc());
    let _ = push_number(&mut written, read_id(word).unwrap_or(0), words::node(word));
    out.bytes(&written);
}

fn push_number(out: &mut Vec<u8>, number: i64, fixed: u32) -> Result<(), AllocError> {
    let digits = u128::from(number.unsigned_abs());
    push_signed(out, number)?;
    out.push(b' ')?;
    push_decimal(out, digits)?;
    out.push(b' ')?;
    push_hexadecimal(out, digits)?;
    out.push(b' ')?;
    push_fixed(out, 3, fixed)?;
    push_line_feed(out)
}

/// `name TEXT`: whether the text of this name is a name, and the name that stands for it as an id.
pub fn name(out: &mut Answer, bytes: &[u8]) {
    out.shown("a name: ", is_name(bytes));
    out.shown(", ", is_made(out.alloc(), bytes));
    if bytes.is_empty() || bytes.len() >= 1 << 30 {
        return;
    }
    out.text("; as an id ");
    if let Ok(id) = name_of_id(out.alloc(), bytes) {
        print_bytes(out, id.as_bytes());
    }
}

/// Prints bytes as text, and U+FFFD for what is none.
fn print_bytes(out: &mut Answer, bytes: &[u8]) {
    if let Ok(text) = String::from_utf8_lossy(out.alloc(), bytes) {
        out.text(&text);
    }
}

fn is_made(alloc: Global, bytes: &[u8]) -> bool {
    match Name::from_slice(alloc, bytes) {
        Ok(made) => made.is_some(),
        Err(_) => false,
    }
}

/// `lines TEXT`: the lines of the text of this name, and whether each has a line feed; and the words of each.
pub fn lines(out: &mut Answer, text: &[u8]) {
    let mut rest = text;
    for _ in 0..text.len() {
        let Some((line, behind)) = split_line(rest) else {
            break;
        };
        out.shown("ended ", next_line(rest).is_some());
        print_words(out, line);
        rest = behind;
    }
    out.text("no line");
}

fn print_words(out: &mut Answer, line: &[u8]) {
    out.text(":");
    if let Ok(words) = words_of(out.alloc(), line) {
        for word in &words {
            out.shown(" [", words::text(word));
            out.text("]");
        }
    }
    out.text("\n");
}
