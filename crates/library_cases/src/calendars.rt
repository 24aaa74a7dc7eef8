//! Dates, the days of a region, and their clock.
//!
//! A region's days are given as `FIRST COUNT RULE`, where RULE names a text, or is `-` for days of 24 hours.

use crate::parts;
use case_script::{Answer, Script, words};
use plan_base::Time;
use service_days::{Days, RangeFault, ServiceRule, read_date};
use std::alloc::{AllocError, Global};

/// `date TEXT`: which date the digits are.
pub fn date(out: &mut Answer, text: &[u8]) {
    out.debug("", read_date(text));
}

/// What a call answers of the days that its first three words give.
pub fn of_days(out: &mut Answer, script: &Script, call: &str, words: &[u8]) {
    match days_of(out.alloc(), script, words) {
        Ok(days) => answer(out, &days, call, parts::behind(words, 3)),
        Err(fault) => out.debug("", &fault),
    }
}

/// The days of a first date, a count, and a rule.
fn days_of(alloc: Global, script: &Script, words: &[u8]) -> Result<Days, RangeFault> {
    let (first, count) = (parts::node(words, 0), parts::node(words, 1));
    let rule = parts::word(words, 2);
    if rule == b"-".as_slice() {
        Days::new(alloc, first, count)
    } else {
        Days::in_zone(alloc, first, count, script.text(rule))
    }
}

/// What a call answers of days, by the words behind those that give them:
///
/// - `days`: the date of each day number and when it begins;
/// - `day DATE`: the number of a date among them;
/// - `clock MS`: how a time is printed;
/// - `service WEEKDAYS FROM TO ADDED REMOVED`: the days of a service.
fn answer(out: &mut Answer, days: &Days, call: &str, words: &[u8]) {
    match call {
        "days" => print_days(out, days),
        "day" => out.debug("", days.day_of(words::node(words))),
        "clock" => clock(out, days, words),
        _ => service(out, days, words),
    }
}

fn print_days(out: &mut Answer, days: &Days) {
    print_range(out, days);
    for day in 0..days.numbers() {
        out.shown("\n", day);
        out.shown(": ", days.date(day));
        out.shown(" from ", days.base(day));
    }
}

/// Prints the first date, the count of the days and their zone.
pub fn print_range(out: &mut Answer, days: &Days) {
    out.shown("", days.first());
    out.shown(", ", days.count());
    out.text(" days, ");
    out.bytes(days.zone().unwrap_or(b"no zone"));
}

fn clock(out: &mut Answer, days: &Days, word: &[u8]) {
    let time = if word == b"last".as_slice() {
        u128::MAX
    } else {
        Time::from(words::number(word))
    };
    let mut text = Vec::new(out.alloc());
    if days.push_clock(&mut text, time).is_ok() {
        out.bytes(&text);
    }
}

/// WEEKDAYS is seven digits, Monday first, or `-` for no rule; ADDED and REMOVED are dates that commas part.
fn service(out: &mut Answer, days: &Days, words: &[u8]) {
    if let Ok(added) = dates(out.alloc(), parts::word(words, 3)) {
        if let Ok(removed) = dates(out.alloc(), parts::behind(words, 4)) {
            let set = days.days_of(rule_of(words), &added, &removed).0;
            out.binary(set);
        }
    }
}

/// The weekly rule of seven digits and two dates, if there is one.
fn rule_of(words: &[u8]) -> Option<ServiceRule> {
    let [mon, tue, wed, thu, fri, sat, sun] = parts::word(words, 0) else {
        return None;
    };
    let weekdays = [
        *mon == b'1',
        *tue == b'1',
        *wed == b'1',
        *thu == b'1',
        *fri == b'1',
        *sat == b'1',
        *sun == b'1',
    ];
    Some(ServiceRule {
        weekdays,
        first: parts::node(words, 1),
        last: parts::node(words, 2),
    })
}

/// The dates that commas part; none where there is no word.
fn dates(alloc: Global, word: &[u8]) -> Result<Vec<u32>, AllocError> {
    let mut dates = Vec::new(alloc);
    for i in 0..parts::count(word, b',') {
        let date = parts::part(word, b',', i);
        if !date.is_empty() && date != b"-".as_slice() {
            dates.push(words::node(date))?;
        }
    }
    Ok(dates)
}
