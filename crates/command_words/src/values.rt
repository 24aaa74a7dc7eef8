//! The values that words spell: formats, days and numbers.

ghost use Rattle.std.specs.Prelude.{◌≡◌, ◌<◌, ◌≤◌, ◌^◌, Err, IfOk, IfSome, None, Some, option_map};
ghost use Rattle.command_words.specs.Requests.{date_of_word, days_of, format_of, format_or, keep_of, keep_or_none, limit_of_word, limit_or_none, most_labels, most_places, seconds_of, size_of_word, small_number_of_word, window_of, window_or_two_hours};
ghost use Rattle.command_words.specs.declared.fault.WordsFault.TheVariants.{Refused};

use crate::fault::WordsFault;
use plain_texts::{read_fixed, read_short_number};
use region_file::Format;
use service_days::{Days, RangeFault, below_sixty};
use std::alloc::Global;

/// The most labels that a search may be limited to.
const MOST_LABELS: u64 = 1_000_000_000_000;

/// The most places for letters that an expression may have.
const MOST_PLACES: u64 = 200;

/// The format of this number.
pub fn format_of(word: &[u8]) -> Option<Format>
    ensures { result ≡ format_of word.now }
{
    match word {
        b"1" => Some(Format::Text),
        b"2" => Some(Format::Binary),
        _ => None,
    }
}

/// The format that an option says, or this one where none does.
pub fn format_or(other: Format, word: Option<&str>) -> Option<Format>
    ensures { result ≡ format_or other (option_map (λ w. w.now) word.entry) }
{
    match word {
        Some(word) => format_of(word.as_bytes()),
        None => Some(other),
    }
}

/// The days of a date, a count and a zone rule; refused exactly where they give none.
pub fn days_of(
    alloc: Global,
    date: &[u8],
    count: &[u8],
    rule: Option<&str>,
) -> Result<Days, WordsFault>
    ensures ok { IfOk result (λ days. days_of date.now count.now (option_map (λ r. r.now) rule.entry)
        ≡ Some days) }
    ensures refused { result ≡ Err Refused → days_of date.now count.now
        (option_map (λ r. r.now) rule.entry) ≡ None }
{
    let (Some(first), Some(count)) = (read_eight(date), read_number(count)) else {
        return Err(WordsFault::Refused);
    };
    let made = match rule {
        Some(rule) => Days::in_zone(alloc, first, count, rule.as_bytes()),
        None => Days::new(alloc, first, count),
    };
    match made {
        Ok(days) => Ok(days),
        Err(RangeFault::OutOfMemory) => Err(WordsFault::OutOfMemory),
        Err(_) => Err(WordsFault::Refused),
    }
}

/// How many nodes are to be kept, as an option says, or none where none does.
pub fn keep_or_none(word: Option<&str>) -> Option<u32>
    ensures { result ≡ keep_or_none (option_map (λ w. w.now) word.entry) }
{
    match word {
        Some(word) => read_keep(word.as_bytes()),
        None => Some(0),
    }
}

/// How many nodes are to be kept, as a word says; None exactly where it is no number up to 16,777,216.
pub fn read_keep(word: &[u8]) -> Option<u32>
    ensures { result ≡ keep_of word.now }
{
    let keep = read_number(word)?;
    if keep <= 16_777_216 { Some(keep) } else { None }
}

/// The size of a sample city, as a word says; None exactly where it is no number from 1 to 300.
pub fn read_size(word: &[u8]) -> Option<u32>
    ensures { result ≡ size_of_word word.now }
{
    let size = read_number(word)?;
    if (1..=300).contains(&size) {
        Some(size)
    } else {
        None
    }
}

/// The limit of labels that an option says, or none where none does.
pub fn labels_or_none(word: Option<&str>) -> Option<Option<u64>>
    ensures { result ≡ limit_or_none most_labels (option_map (λ w. w.now) word.entry) }
{
    match word {
        Some(word) => Some(Some(read_labels(word.as_bytes())?)),
        None => Some(None),
    }
}

/// The limit of labels that a word says; None exactly where it is no number from 1 to 1,000,000,000,000.
pub fn read_labels(word: &[u8]) -> Option<u64>
    ensures { result ≡ limit_of_word most_labels word.now }
{
    read_limit(word, MOST_LABELS)
}

/// The limit of places that an option says, or none where none does.
pub fn places_or_none(word: Option<&str>) -> Option<Option<u32>>
    ensures { result ≡ limit_or_none most_places (option_map (λ w. w.now) word.entry) }
{
    match word {
        Some(word) => Some(Some(read_places(word.as_bytes())?)),
        None => Some(None),
    }
}

/// The limit of places that a word says; None exactly where it is no number from 1 to 200.
pub fn read_places(word: &[u8]) -> Option<u32>
    ensures { result ≡ limit_of_word most_places word.now }
{
    let places = read_limit(word, MOST_PLACES)?;
    Some(places as u32)
}

/// The limit that a word says, a decimal number from 1 to `most`.
fn read_limit(word: &[u8], most: u64) -> Option<u64>
    requires { most < 10 ^ 18 }
    ensures limit { result ≡ limit_of_word most word.now }
    ensures most { IfSome result (λ n. n ≤ most) }
{
    let limit = read_short_number(word, most + 1)?;
    if limit >= 1 { Some(limit) } else { None }
}

/// How long a window is, in milliseconds, as an option says, or two hours where none does.
pub fn window_or_two_hours(word: Option<&str>) -> Option<u32>
    ensures { result ≡ window_or_two_hours (option_map (λ w. w.now) word.entry) }
{
    match word {
        Some(word) => read_window(word.as_bytes()),
        None => Some(7_200_000),
    }
}

/// How long a window is, in milliseconds, as a word HH:MM:SS says; None exactly where it is no length from 00:00:01 to
/// 24:00:00.
pub fn read_window(word: &[u8]) -> Option<u32>
    ensures { result ≡ window_of word.now }
{
    let seconds = read_seconds(word)?;
    if (1..=86_400).contains(&seconds) {
        Some(seconds * 1_000)
    } else {
        None
    }
}

/// The seconds of a text HH:MM:SS.
fn read_seconds(word: &[u8]) -> Option<u32>
    ensures { result ≡ seconds_of word.now }
{
    match word {
        [h1, h2, b':', m1, m2, b':', s1, s2] => {
            let hours = read_fixed(&[*h1, *h2])?;
            let minutes = below_sixty(read_fixed(&[*m1, *m2])?)?;
            let seconds = below_sixty(read_fixed(&[*s1, *s2])?)?;
            Some((hours * 60 + minutes) * 60 + seconds)
        }
        _ => None,
    }
}

/// A number of 1 to 8 digits.
pub fn read_number(word: &[u8]) -> Option<u32>
    ensures { result ≡ small_number_of_word word.now }
{
    if word.is_empty() || word.len() > 8 {
        return None;
    }
    read_fixed(word)
}

/// The number that a date of 8 digits is.
pub fn read_eight(word: &[u8]) -> Option<u32>
    ensures { result ≡ date_of_word word.now }
{
    if word.len() != 8 {
        return None;
    }
    read_fixed(word)
}
