//! What people are told whose words ask for no command.

use crate::description::{NAME, NAMES, planbook};
use clap::error::ErrorKind;
use clap::{ArgMatches, Error};
use std::alloc::{AllocError, Global};

/// The version of the program, and the kit with which it was proved, as `rt version` says it.
const VERSION: &str = "1.0 (rattle-kit-13f logic dac8208d650f15bf)";

/// What people are told whose words ask for no command: help, the version, or which word is wrong and what would be right.
pub fn help(alloc: Global, words: &[String]) -> Result<String, AllocError> {
    match words {
        [_, word] if word.as_str() == "--version" => format!(in alloc; "planbook {VERSION}\n"),
        [_, _, given @ ..] if !given.is_empty() => wrong_word(alloc, &behind_book(alloc, given)?),
        _ => general_help(alloc),
    }
}

/// Help on all commands.
fn general_help(alloc: Global) -> Result<String, AllocError> {
    planbook(alloc)?.render_help()
}

/// These words behind one for the program and the book, which help repeats.
fn behind_book(alloc: Global, given: &[String]) -> Result<Vec<String>, AllocError> {
    let mut words = Vec::new(alloc);
    words.push(String::from_str(alloc, "planbook BOOK")?)?;
    words.extend_with_clones(given)?;
    Ok(words)
}

/// Which of the words behind the book is wrong, or the help that they ask for.
fn wrong_word(alloc: Global, words: &[String]) -> Result<String, AllocError> {
    match planbook(alloc)?.try_get_matches_from(words) {
        Ok(matches) => wrong_name(alloc, &matches),
        Err(error) => refusal(alloc, &error),
    }
}

/// What is wrong with words that are those of a command.
fn wrong_name(alloc: Global, matches: &ArgMatches) -> Result<String, AllocError> {
    match matches.subcommand() {
        Some((command, given)) => match given.get_str(NAME) {
            Some(name) => format!(in alloc;
                "error: invalid value '{name}' for '<NAME>'\n\n  {NAMES}\n\nFor more information, try 'planbook BOOK {command} --help'.\n"
            ),
            None => format!(in alloc;
                "error: '{command}' takes its words and options alone; an option and its value are two words\n\nFor more information, try 'planbook BOOK {command} --help'.\n"
            ),
        },
        None => general_help(alloc),
    }
}

/// What is said of words that are not those of a command.
fn refusal(alloc: Global, error: &Error) -> Result<String, AllocError> {
    if error.kind() == ErrorKind::OutOfMemory {
        return Err(AllocError);
    }
    format!(in alloc; "{error}")
}
