//! Expressions and letters.

use case_script::Answer;
use mode_expression::{Expr, Letter, parse};
use std::alloc::Global;

/// `expression TEXT`, and `spelled NAME` of the text of this name: the shortest text of what a text spells, which spells the same; or
/// its fault.
pub fn expression(out: &mut Answer, text: &[u8]) {
    match parse(out.alloc(), text) {
        Ok(expr) => print_expression(out, &expr),
        Err(fault) => out.shown("", &fault),
    }
}

fn print_expression(out: &mut Answer, expr: &Expr) {
    if let Ok(spelled) = expr.to_string(out.alloc()) {
        let same = is_spelled_so(out.alloc(), &spelled);
        out.text(&spelled);
        out.shown(", which spells the same: ", same);
    }
}

/// Whether a text is the shortest one of what it spells.
fn is_spelled_so(alloc: Global, text: &str) -> bool {
    match parse(alloc, text.as_bytes()) {
        Ok(expr) => is_written_so(alloc, &expr, text),
        Err(_) => false,
    }
}

/// Whether a text is how an expression is written.
fn is_written_so(alloc: Global, expr: &Expr, text: &str) -> bool {
    match expr.to_string(alloc) {
        Ok(spelled) => spelled.as_str() == text,
        Err(_) => false,
    }
}

/// `letters`: each letter by its number: its name, and its number again.
pub fn letters(out: &mut Answer) {
    for number in 0..16 {
        if number > 0 {
            out.text("\n");
        }
        out.shown("", number);
        match Letter::from_number(number) {
            Some(letter) => print_letter(out, letter),
            None => out.text(": no letter"),
        }
    }
}

fn print_letter(out: &mut Answer, letter: Letter) {
    out.shown(": ", letter.name());
    out.shown(", number ", letter.number());
}
