//! The days on which a service runs.

ghost use Rattle.std.specs.Prelude.{◌≡◌, ◌<◌, true};
ghost use Rattle.service_days.specs.Dates.{is_civil};
ghost use Rattle.service_days.specs.Services.{follows_rule, runs_on, weekday_on};

use crate::civil::civil_date;

/// A service's weekly rule: the weekdays that it runs on, Monday first, and its first and last date,
/// YYYYMMDD, both included.
#[derive(Clone, Copy, Debug, PartialEq, Eq)]
pub struct ServiceRule {
    pub weekdays: [bool; 7],
    pub first: u32,
    pub last: u32,
}

/// Whether a service runs on a date: it is added, or the rule has it and it is not removed.
pub(crate) fn runs(rule: Option<ServiceRule>, added: &[u32], removed: &[u32], date: u32) -> bool
    requires { is_civil date ≡ true }
    ensures { result ≡ runs_on rule added.now removed.now date }
{
    added.contains(&date) || follows(rule, date) && !removed.contains(&date)
}

/// Whether the rule has a date.
fn follows(rule: Option<ServiceRule>, date: u32) -> bool
    requires { is_civil date ≡ true }
    ensures { result ≡ follows_rule rule date }
{
    match rule {
        None => false,
        Some(rule) => { rule.weekdays[weekday(date)] && rule.first <= date && date <= rule.last }
    }
}

/// The day of the week of a date, from 0 for Monday.
fn weekday(date: u32) -> usize
    requires { is_civil date ≡ true }
    ensures value { result ≡ weekday_on date }
    ensures within { result < 7 }
{
    civil_date(date).weekday().to_monday_zero_offset() as usize
}
