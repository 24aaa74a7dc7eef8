//! Civil dates, as numbers YYYYMMDD and as those of `jiff`.

ghost use Rattle.std.specs.Prelude.{◌≡◌, ◌+◌, ◌<◌, ◌≤◌, true, pos, ◌+ℤ◌, ◌≤ℤ◌, ◌<ℤ◌, IfSome};
ghost use Rattle.jiff_core.specs.Date.{IsYmd};
ghost use Rattle.service_days.specs.Dates.{year_of, month_of, day_of_month, is_civil, date_after, date_at, date_before};
ghost use Rattle.service_days.specs.inside.Numbers.{number_of_date};

use jiff_core::civil::{self, Date};
use plain_texts::read_fixed;

/// Whether the number YYYYMMDD is a civil date of the years 1 to 9999.
pub(crate) fn is_date(date: u32) -> bool
    ensures { result ≡ is_civil date }
{
    let year = date / 10_000;
    let month = date / 100 % 100;
    let day = date % 100;
    if year < 1 || year > 9_999 || month < 1 || month > 12 {
        return false;
    }
    1 <= day && day <= civil::days_in_month(year as i16, month as u8) as u32
}

/// The civil date of the years 1 to 9999 that a text of eight digits names, as a number YYYYMMDD.
#[tactic(auto, unfolding(crate::specs::Dates::date_at))]
pub fn read_date(text: &[u8]) -> Option<u32>
    ensures value { result ≡ date_at text.now }
    ensures civil { IfSome result (λ date. is_civil date ≡ true) }
{
    if text.len() != 8 {
        return None;
    }
    let date = read_fixed(text)?;
    if is_date(date) { Some(date) } else { None }
}

/// The date that a number stands for.
pub(crate) fn civil_date(date: u32) -> Date
    requires { is_civil date ≡ true }
    ensures { IsYmd (pos (year_of date)) (pos (month_of date)) (pos (day_of_month date)) result }
{
    match Date::new(
        (date / 10_000) as i16,
        (date / 100 % 100) as i8,
        (date % 100) as i8,
    ) {
        Ok(civil) => civil,
        Err(_) => unreachable!(),
    }
}

/// The number that stands for a date.
pub(crate) fn date_number(date: Date) -> u32
    requires { pos 0 ≤ℤ date.year }
    ensures { result ≡ number_of_date date }
{
    date.year as u32 * 10_000 + date.month as u32 * 100 + date.day as u32
}

/// The next date.
pub(crate) fn next_date(date: Date) -> Date
    requires not_early { pos 1 ≤ℤ date.year }
    requires not_last { date.year <ℤ pos 9999 }
    ensures number { number_of_date result ≡ date_after (number_of_date date) }
    ensures not_back { date.year ≤ℤ result.year }
    ensures near { result.year ≤ℤ (date.year +ℤ pos 1) }
{
    match date.tomorrow() {
        Ok(next) => next,
        Err(_) => unreachable!(),
    }
}

/// The date before.
pub(crate) fn last_date(date: Date) -> Date
    requires not_first { pos 2 ≤ℤ date.year }
    ensures number { number_of_date result ≡ date_before (number_of_date date) }
    ensures not_on { result.year ≤ℤ date.year }
    ensures near { date.year ≤ℤ (result.year +ℤ pos 1) }
{
    match date.yesterday() {
        Ok(last) => last,
        Err(_) => unreachable!(),
    }
}
