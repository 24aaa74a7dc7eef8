//! What a line says, by its words.

ghost use Rattle.std.specs.Prelude.{◌≡◌, ◌^◌, ◌<◌, map, option_map, IfOk};
ghost use Rattle.region_file.specs.Kinds as spec;
ghost use Rattle.region_file.specs.declared.lines.Line.TheVariants as line;
ghost use Rattle.service_days.specs.Zones.{days_made};

use crate::letters::letter_of;
use crate::lines::Line;
use mode_network::Arc;
use plain_texts::{Name, read_hexadecimal, read_id, read_short_number, read_signed, words_into};
use plan_base::{DaySet, Mode, Place};
use service_days::{Days, RangeFault};
use std::alloc::{AllocError, Global};
use timetable_arcs::Call;

/// A number below 2^32.
fn word_of(text: &[u8]) -> Option<u32>
    ensures { result ≡ spec.number_of_word text.now }
{
    let n = read_short_number(text, 1 << 32)?;
    Some(n as u32)
}

/// The place of a latitude and a longitude in range, in units of 10^-7 degree.
#[tactic(auto, unfolding(crate::specs::Kinds::place_of_words))]
fn place_of(lat: &[u8], lon: &[u8]) -> Option<Place>
    ensures { result ≡ spec.place_of_words lat.now lon.now }
{
    let lat = read_signed(lat, 2_000_000_000)?;
    let lon = read_signed(lon, 2_000_000_000)?;
    Place::new(lat, lon)
}

/// The line of a road node, by the words behind the first: mode, id and place.
#[tactic(auto, unfolding(crate::specs::Kinds::road_of_words))]
fn road_of(fields: &[&[u8]]) -> Option<Line>
    ensures { result ≡ spec.road_of_words (map (λ w. w.now) fields.now) }
{
    match fields {
        [mode, id, lat, lon] => {
            let mode = Mode::from_name(mode)?;
            let id = read_id(id)?;
            let place = place_of(lat, lon)?;
            Some(Line::Road(mode, id, place))
        }
        _ => None,
    }
}

/// The line of a switch, by the words behind the first: id and place.
#[tactic(auto, unfolding(crate::specs::Kinds::switch_of_words))]
fn switch_of(fields: &[&[u8]]) -> Option<Line>
    ensures { result ≡ spec.switch_of_words (map (λ w. w.now) fields.now) }
{
    match fields {
        [id, lat, lon] => {
            let id = read_id(id)?;
            let place = place_of(lat, lon)?;
            Some(Line::Switch(id, place))
        }
        _ => None,
    }
}

/// The road arc or the link that the words behind the first spell: from, to, and more than no milliseconds.
#[inline(always)]
#[tactic(auto, unfolding(crate::specs::Kinds::arc_of_words))]
fn arc_of(fields: &[&[u8]]) -> Option<Arc>
    ensures { result ≡ spec.arc_of_words (map (λ w. w.now) fields.now) }
{
    match fields {
        [from, to, ms] => {
            let from = word_of(from)?;
            let to = word_of(to)?;
            let ms = word_of(ms)?;
            if 0 < ms {
                Some(Arc { from, to, ms })
            } else {
                None
            }
        }
        _ => None,
    }
}

/// A call, whose last word is 1 for boarding plus 2 for alighting.
#[tactic(auto, unfolding(crate::specs::Kinds::call_of_words))]
fn call_of(fields: &[&[u8]]) -> Option<Call>
    ensures { result ≡ spec.call_of_words (map (λ w. w.now) fields.now) }
{
    match fields {
        [stop, arr, dep, flags] => {
            let stop = word_of(stop)?;
            let arr = word_of(arr)?;
            let dep = word_of(dep)?;
            let flags = read_short_number(flags, 4)?;
            let (board, alight) = (flags % 2 == 1, 2 <= flags);
            Some(Call {
                stop,
                arr,
                dep,
                board,
                alight,
            })
        }
        _ => None,
    }
}

/// The line of a trip, by the words behind the first: letter, days, how many calls, and name.
#[tactic(auto, unfolding(crate::specs::Kinds::trip_of_words))]
fn trip_of(alloc: Global, fields: &[&[u8]]) -> Result<Option<Line>, AllocError>
    ensures { IfOk result (λ read. read ≡ spec.trip_of_words (map (λ w. w.now) fields.now)) }
{
    match fields {
        [letter, days, calls, name] => {
            let Some(letter) = letter_of(letter) else {
                return Ok(None);
            };
            let Some(days) = read_hexadecimal(days) else {
                return Ok(None);
            };
            let Some(calls) = word_of(calls) else {
                return Ok(None);
            };
            let Some(name) = Name::from_slice(alloc, name)? else {
                return Ok(None);
            };
            let days = DaySet(days);
            Ok(Some(Line::Trip {
                letter,
                days,
                calls,
                name,
            }))
        }
        _ => Ok(None),
    }
}

/// The line of the end, which has no further word.
#[tactic(auto, unfolding(crate::specs::Kinds::end_of_words))]
fn end_of(fields: &[&[u8]]) -> Option<Line>
    ensures { result ≡ spec.end_of_words (map (λ w. w.now) fields.now) }
{
    match fields {
        [] => Some(Line::End),
        _ => None,
    }
}

/// The line of a stop, by the words behind the first: name and place.
#[tactic(auto, unfolding(crate::specs::Kinds::stop_of_words))]
fn stop_of(alloc: Global, fields: &[&[u8]]) -> Result<Option<Line>, AllocError>
    ensures { IfOk result (λ read. read ≡ spec.stop_of_words (map (λ w. w.now) fields.now)) }
{
    match fields {
        [name, lat, lon] => {
            let Some(name) = Name::from_slice(alloc, name)? else {
                return Ok(None);
            };
            let Some(place) = place_of(lat, lon) else {
                return Ok(None);
            };
            Ok(Some(Line::Stop(name, place)))
        }
        _ => Ok(None),
    }
}

/// The days of a first date and a count, in the zone of a rule if there is one; `None` exactly where there are
/// none.
pub fn made_days(
    alloc: Global,
    first: u32,
    count: u32,
    rule: Option<&[u8]>,
) -> Result<Option<Days>, AllocError>
    ensures { IfOk result (λ days. days ≡ spec.days_if_made
        (days_made first count (option_map (λ r. r.now) rule.entry))) }
{
    let made = match rule {
        Some(rule) => Days::in_zone(alloc, first, count, rule),
        None => Days::new(alloc, first, count),
    };
    match made {
        Ok(days) => Ok(Some(days)),
        Err(RangeFault::OutOfMemory) => Err(AllocError),
        Err(_) => Ok(None),
    }
}

/// The zone rule that these fields are, where there is at most one.
fn rule_of<'a>(fields: &[&'a [u8]]) -> Option<Option<&'a [u8]>>
    ensures { option_map (option_map (λ r. r.now)) result ≡ spec.rule_of_words (map (λ w. w.now) fields.now) }
{
    match fields {
        [] => Some(None),
        [rule] => Some(Some(rule)),
        _ => None,
    }
}

/// The line of the days, by the words behind the first: first date, count, and the zone rule, if there is one.
#[tactic(auto, unfolding(crate::specs::Kinds::days_of_words))]
fn days_of(alloc: Global, fields: &[&[u8]]) -> Result<Option<Line>, AllocError>
    ensures { IfOk result (λ read. read ≡ spec.days_of_words (map (λ w. w.now) fields.now)) }
{
    match fields {
        [first, count, rule @ ..] => {
            let Some(first) = word_of(first) else {
                return Ok(None);
            };
            let Some(count) = word_of(count) else {
                return Ok(None);
            };
            let Some(rule) = rule_of(rule) else {
                return Ok(None);
            };
            Ok(made_days(alloc, first, count, rule)?.map(Line::Days))
        }
        _ => Ok(None),
    }
}

/// The line of a kind, which is its first word, by the words behind it.
#[tactic(auto, unfolding(crate::specs::Kinds::line_of_kind))]
fn kind_of(alloc: Global, kind: &[u8], fields: &[&[u8]]) -> Result<Option<Line>, AllocError>
    ensures { IfOk result (λ read. read ≡ spec.line_of_kind kind.now (map (λ w. w.now) fields.now)) }
{
    if kind == b"call".as_slice() {
        Ok(call_of(fields).map(Line::Call))
    } else if kind == b"trip".as_slice() {
        trip_of(alloc, fields)
    } else if kind == b"arc".as_slice() {
        Ok(arc_of(fields).map(Line::Arc))
    } else if kind == b"link".as_slice() {
        Ok(arc_of(fields).map(Line::Link))
    } else if kind == b"node".as_slice() {
        Ok(road_of(fields))
    } else if kind == b"stop".as_slice() {
        stop_of(alloc, fields)
    } else if kind == b"switch".as_slice() {
        Ok(switch_of(fields))
    } else if kind == b"days".as_slice() {
        days_of(alloc, fields)
    } else if kind == b"end".as_slice() {
        Ok(end_of(fields))
    } else {
        Ok(None)
    }
}

/// The line that a text spells; `None` exactly where it spells none. The words of the text are left in `words`, so
/// that one list serves many lines.
///
/// Apart from its caller, since what a line of days holds is else moved about for each line.
#[inline(never)]
#[tactic(auto, unfolding(crate::specs::Kinds::line_of))]
pub fn line_of<'a>(
    alloc: Global,
    words: &mut Vec<&'a [u8]>,
    text: &'a [u8],
) -> Result<Option<Line>, AllocError>
    ensures { IfOk result (λ read. read ≡ spec.line_of text.now) }
{
    words_into(words, text)?;
    match words.as_slice() {
        [] => Ok(None),
        [kind, fields @ ..] => kind_of(alloc, kind, fields),
    }
}
