//! What people are told whose words ask for no command.

use clap::ArgMatches;
use clap::error::ErrorKind;
use command_line::{
    DATE, DAYS, FIRST, FORMAT, FOURTH, KEEP, KEPT, LABEL_COUNT, LABELS, LENGTH, PLACE_COUNT,
    PLACES, RULE, SIZE, THIRD, WINDOW, ZONE, match_words, modeplan,
};
use command_words::{
    format_of, read_eight, read_keep, read_labels, read_number, read_places, read_size, read_window,
};
use service_days::{Days, RangeFault};
use std::alloc::{AllocError, Global};

/// The version of the program, and the kit with which it was proved, as `rt version` says it.
const VERSION: &str = "1.0 (rattle-kit-13f logic dac8208d650f15bf)";

/// What people are told whose words ask for no command: help, the version, or which word is wrong and what would be right.
pub fn help(alloc: Global, words: &[String]) -> Result<String, AllocError> {
    match words {
        [] | [_] => return modeplan(alloc)?.render_help(),
        [_, word] if word.as_str() == "--version" => {
            return format!(in alloc; "modeplan {VERSION}\n");
        }
        _ => {}
    }
    match match_words(alloc, words) {
        Ok(matches) => match matches.subcommand() {
            Some((command, given)) => wrong_value(alloc, command, given),
            None => modeplan(alloc)?.render_help(),
        },
        Err(error) if error.kind() == ErrorKind::OutOfMemory => Err(AllocError),
        Err(error) => format!(in alloc; "{error}"),
    }
}

/// A value that does not read, with what it is a value of, and what it should be.
#[derive(Clone, Copy)]
struct Unread<'a> {
    value: &'a str,
    name: &'static str,
    wanted: &'static str,
}

/// What is wrong with the words of a command that `clap` takes.
fn wrong_value(alloc: Global, command: &str, given: &ArgMatches<'_>) -> Result<String, AllocError> {
    let unread = match command {
        "compile" => unread_days(alloc, given),
        "sample" => unread_size(given),
        _ => None,
    };
    match unread.or(unread_option(given)) {
        Some(
            Unread {
                value,
                name,
                wanted,
            },
        ) => format!(in alloc;
            "error: invalid value '{value}' for '{name}'\n\n  {wanted}\n\nFor more information, try 'modeplan {command} --help'.\n"
        ),
        None => modeplan(alloc)?.render_help(),
    }
}

/// The value, if it does not read.
fn unless_read<'a>(
    value: &'a str,
    reads: bool,
    name: &'static str,
    wanted: &'static str,
) -> Option<Unread<'a>> {
    if reads {
        None
    } else {
        Some(Unread {
            value,
            name,
            wanted,
        })
    }
}

/// The size of a sample city that does not read.
fn unread_size<'a>(given: &ArgMatches<'a>) -> Option<Unread<'a>> {
    let size = given.get_str(FIRST)?;
    unless_read(size, read_size(size.as_bytes()).is_some(), "<N>", SIZE)
}

/// The first option whose value does not read.
fn unread_option<'a>(given: &ArgMatches<'a>) -> Option<Unread<'a>> {
    for id in [FORMAT, KEEP, WINDOW, LABELS, PLACES] {
        if let Some(value) = given.get_str(id) {
            let unread = unread_value(id, value);
            if unread.is_some() {
                return unread;
            }
        }
    }
    None
}

/// The value of this option, if it does not read.
fn unread_value<'a>(id: &str, value: &'a str) -> Option<Unread<'a>> {
    let bytes = value.as_bytes();
    match id {
        FORMAT => unless_read(value, format_of(bytes).is_some(), "--format <K>", "1 or 2"),
        KEEP => unless_read(value, read_keep(bytes).is_some(), "--keep <N>", KEPT),
        WINDOW => unless_read(
            value,
            read_window(bytes).is_some(),
            "--window <HH:MM:SS>",
            LENGTH,
        ),
        LABELS => unless_read(
            value,
            read_labels(bytes).is_some(),
            "--labels <N>",
            LABEL_COUNT,
        ),
        PLACES => unless_read(
            value,
            read_places(bytes).is_some(),
            "--places <N>",
            PLACE_COUNT,
        ),
        _ => None,
    }
}

/// A date, a number of days or a zone rule that does not read.
fn unread_days<'a>(alloc: Global, given: &ArgMatches<'a>) -> Option<Unread<'a>> {
    let (date, count) = (given.get_str(THIRD)?, given.get_str(FOURTH)?);
    let fault = match (read_eight(date.as_bytes()), read_number(count.as_bytes())) {
        (None, _) => RangeFault::BadDate,
        (_, None) => RangeFault::BadCount,
        (Some(first), Some(count)) => match given.get_str(ZONE) {
            Some(rule) => Days::in_zone(alloc, first, count, rule.as_bytes()).err()?,
            None => Days::new(alloc, first, count).err()?,
        },
    };
    let (value, name, wanted) = match fault {
        RangeFault::BadDate => (date, "<DATE>", DATE),
        RangeFault::BadCount => (count, "<DAYS>", DAYS),
        RangeFault::BadZone => (given.get_str(ZONE)?, "--zone <RULE>", RULE),
        RangeFault::OutOfMemory => return None,
    };
    Some(Unread {
        value,
        name,
        wanted,
    })
}
