//! The days of a region.

ghost use Rattle.std.specs.Prelude.{◌≡◌, ◌-◌, ◌*◌, ◌^◌, ◌<◌, ◌≤◌, ◌==◌, length, map, true, pos, ◌≤ℤ◌, slice_index, IfSome, IfOk};
ghost use Rattle.std.specs.List.{position, range_with_len};
ghost use Rattle.service_days.specs.Dates.{earlier_date};
ghost use Rattle.service_days.specs.Days.{date_on, is_first_date, last_not_later};
ghost use Rattle.service_days.specs.Rising.{Rise};
ghost use Rattle.service_days.specs.inside.Numbers.{number_of_date};

use crate::civil::{civil_date, date_number, last_date, next_date};
use crate::clock::push_time;
use crate::range::{RangeFault, check_range};
use crate::services::{ServiceRule, runs};
use crate::zones::{parse_rule, zone_bases};
use jiff_core::civil::Date;
use plain_texts::push_fixed;
use plan_base::{DaySet, Time};
use std::alloc::{AllocError, Global};
use std::marker::Model;

/// The days of a region: a first date, and a count of days from it on, 1 to 60.
///
/// Seven lead days stand before the first date, because no service time reaches 168 hours. So day number
/// k, from 0 to count + 6, is the first date and k - 7 days. The region clock counts milliseconds from
/// the base of day 0.
#[derive(Debug, Drop)]
pub struct Days {
    first: u32,
    count: u32,
    bases: Vec<u64>,
    dates: Vec<u32>,
    zone: Option<Vec<u8>>,
}

impl Model for Days {
    ghost use Rattle.std.specs.Option.{option_map};
    ghost use Rattle.service_days.specs.DaysMeaning.{DaysMeaning};
    ghost use Rattle.service_days.specs.Zones.{AreKept};

    ghost Value = { DaysMeaning };

    ghost view = { λ days. record {
      first = days.first;
      count = days.count;
      bases = days.bases.items;
      dates =
          days.dates.items;
      zone = option_map (λ rule. rule.items) days.zone;
    } };

    ghost invariant = { λ days. AreKept (record {
      first = days.first;
      count = days.count;
      bases =
          days.bases.items;
      dates = days.dates.items;
      zone = option_map (λ rule. rule.items) days.zone;
    }) };
}

impl Days {
    ghost use Rattle.std.specs.Prelude.{◌≡◌, ◌++◌, ◌<◌, ◌≤◌, ◌&&◌, ℕ, nat_lt, Ok, IfSome, IfOk, IfErr, OnOk};
    ghost use Rattle.service_days.specs.Days.{AreDays, AreRisingDays, IsDaysRefusal, base_of, date_of, day_at, day_with_date, new_days, numbers_of};
    ghost use Rattle.std.specs.Option.{option_map};
    ghost use Rattle.service_days.specs.Clock.{clock_text_of};
    ghost use Rattle.service_days.specs.Noons.{CountFromNoons};
    ghost use Rattle.service_days.specs.Zones.{days_made, zone_days};
    ghost use Rattle.service_days.specs.Services.{runs_on};
    ghost use Rattle.plan_base.specs.DaySets.{contains_day};

    /// The days from a civil date YYYYMMDD of the years 1900 to 2199 on, so many of them. Each has 24 hours.
    pub fn new(alloc: Global, first: u32, count: u32) -> Result<Days, RangeFault>
        ensures ok { IfOk result (λ days. new_days first count ≡ Ok days) }
        ensures err { IfErr result (IsDaysRefusal (new_days first count)) }
    {
        check_range(first, count)?;
        let numbers = count + 7;
        Ok(Days {
            first,
            count,
            bases: even_bases(alloc, numbers)?,
            dates: dates_around(alloc, first, numbers)?,
            zone: None,
        })
    }

    /// The days from a civil date YYYYMMDD on, so many of them, in the zone of a POSIX rule. A day's base is
    /// 12 hours before its noon there.
    ///
    /// The rule has 1 to 64 bytes, printable ones and no space, and `jiff` must read it. No day, up to the
    /// last one, may have less than 22 or more than 26 hours from its noon to the next.
    pub fn in_zone(alloc: Global, first: u32, count: u32, rule: &[u8]) -> Result<Days, RangeFault>
        ensures ok { IfOk result (λ days. zone_days first count rule.now ≡ Ok days) }
        ensures noons { IfOk result (CountFromNoons rule.now) }
        ensures err { IfErr result (IsDaysRefusal (zone_days first count rule.now)) }
    {
        check_range(first, count)?;
        let zone = match parse_rule(rule) {
            Some(zone) => zone,
            None => return Err(RangeFault::BadZone),
        };
        let mut dates = dates_around(alloc, first, count + 8)?;
        let bases = match zone_bases(alloc, &zone, &dates) {
            Ok(bases) => bases,
            Err(fault) => return Err(fault),
        };
        dates.truncate(count as usize + 7);
        Ok(Days {
            first,
            count,
            bases,
            dates,
            zone: Some(Vec::from_slice(alloc, rule)?),
        })
    }

    /// The zone rule; None exactly where the days were made without one.
    pub fn zone(&self) -> Option<&[u8]>
        ensures { option_map (λ rule. rule.now) result ≡ self.now.zone }
    {
        match &self.zone {
            Some(rule) => Some(rule),
            None => None,
        }
    }

    /// What is true of all days. They are those that [`Days::new`] or [`Days::in_zone`] makes of their first
    /// date, their count and their zone rule; and where they have a rule, their bases count from the noons that
    /// `jiff` states for it.
    pub fn known(&self)
        ensures days { AreDays self.now }
        ensures order { AreRisingDays self.now }
        ensures made { days_made self.now.first self.now.count self.now.zone ≡ Ok self.now }
        ensures noons { IfSome self.now.zone (λ rule. CountFromNoons rule self.now) }
    {
        let _ = &self.first;
    }

    /// The first date.
    pub fn first(&self) -> u32
        ensures { result ≡ self.now.first }
    {
        self.first
    }

    /// How many days there are from the first date on.
    pub fn count(&self) -> u32
        ensures { result ≡ self.now.count }
    {
        self.count
    }

    /// How many day numbers there are: the days and the seven lead days.
    pub fn numbers(&self) -> u32
        ensures { result ≡ numbers_of self.now }
    {
        self.count + 7
    }

    /// When a day number's base is, in milliseconds of the region clock.
    pub fn base(&self, day: u32) -> u64
        requires { day < numbers_of self.now }
        ensures { result ≡ base_of self.now day }
    {
        self.bases[day as usize]
    }

    /// The bases of all day numbers in order, in milliseconds of the region clock.
    pub fn bases(&self) -> &[u64]
        ensures { result.now ≡ self.now.bases }
    {
        &self.bases
    }

    /// The date of a day number.
    pub fn date(&self, day: u32) -> u32
        requires { day < numbers_of self.now }
        ensures { result ≡ date_of self.now day }
    {
        self.dates[day as usize]
    }

    /// The day number that has this date; None exactly where none has.
    pub fn day_of(&self, date: u32) -> Option<u32>
        ensures value { result ≡ day_with_date self.now date }
        ensures within { IfSome result (λ day. day < numbers_of self.now) }
    {
        place_of(&self.dates, date)
    }

    /// The days on which a service runs: those of its weekly rule, less the removed dates, and the added
    /// dates. The lead days are among them.
    pub fn days_of(&self, rule: Option<ServiceRule>, added: &[u32], removed: &[u32]) -> DaySet
        ensures { (day : ℕ) → contains_day result day ≡ (nat_lt day (numbers_of self.now) && runs_on rule
            added.now removed.now (date_of self.now day)) }
    {
        self.known();
        let mut days = DaySet::new();
        for day in 0..self.numbers() {
            if runs(rule, added, removed, self.date(day)) {
                days = days.with_day(day);
            }
        }
        days
    }

    /// The greatest day number whose base is not later than `t`.
    fn day_at(&self, t: Time) -> u32
        ensures day { result ≡ day_at self.now t }
        ensures within { result < numbers_of self.now }
        ensures begun { base_of self.now result ≤ t }
    {
        last_begun(&self.bases, t)
    }

    /// Writes the clock text of `t` at the end: the date of the greatest day whose base is not later than
    /// `t`, and the time since that base.
    pub fn push_clock(&self, out: &mut Vec<u8>, t: Time) -> Result<(), AllocError>
        ensures { OnOk result (out.new.items ≡ out.old.items ++ clock_text_of self.now t) }
    {
        let day = self.day_at(t);
        push_fixed(out, 8, self.date(day))?;
        out.push(b' ')?;
        push_time(out, t - self.base(day) as u128)
    }
}

/// The place of this date among dates that rise.
fn place_of(dates: &[u32], date: u32) -> Option<u32>
    requires rise { Rise dates.now }
    requires few { length dates.now < 2 ^ 20 }
    ensures value { result ≡ position (λ other. other == date) dates.now }
    ensures within { IfSome result (λ place. place < length dates.now) }
{
    match dates.binary_search(&date) {
        Ok(place) => Some(place as u32),
        Err(_) => None,
    }
}

/// The last place whose base is not later than `t`.
fn last_begun(bases: &[u64], t: u128) -> u32
    requires rise { Rise bases.now }
    requires few { length bases.now < 2 ^ 20 }
    requires start { slice_index bases.now 0 ≡ 0 }
    requires some { 0 < length bases.now }
    ensures day { result ≡ last_not_later bases.now t (length bases.now - 1) }
    ensures within { result < length bases.now }
    ensures begun { slice_index bases.now result ≤ t }
{
    let after = bases.partition_point(|base| *base as u128 <= t);
    after as u32 - 1
}

/// The bases of so many days of 24 hours.
fn even_bases(alloc: Global, numbers: u32) -> Result<Vec<u64>, AllocError>
    requires { numbers < 2 ^ 20 }
    ensures { IfOk result (λ bases. bases.items ≡ map (λ day. 86400000 * day) (range_with_len 0 numbers)) }
{
    let mut bases = Vec::with_capacity(alloc, numbers as usize)?;
    for day in 0..numbers {
        bases.push(86_400_000 * day as u64)?;
    }
    Ok(bases)
}

/// The dates of so many days, of which the eighth is this one.
fn dates_around(alloc: Global, first: u32, numbers: u32) -> Result<Vec<u32>, AllocError>
    requires date { is_first_date first ≡ true }
    requires few { numbers < 100 }
    ensures { IfOk result (λ dates. dates.items ≡ map (date_on first) (range_with_len 0 numbers)) }
{
    let mut date = week_before(first);
    let mut dates = Vec::with_capacity(alloc, numbers as usize)?;
    for _ in 0..numbers {
        dates.push(date_number(date))?;
        date = next_date(date);
    }
    Ok(dates)
}

/// The date seven days before.
fn week_before(first: u32) -> Date
    requires { is_first_date first ≡ true }
    ensures number { number_of_date result ≡ earlier_date 7 first }
    ensures low { pos 1893 ≤ℤ result.year }
    ensures high { result.year ≤ℤ pos 2199 }
{
    let mut date = civil_date(first);
    for _ in 0..7u32 {
        date = last_date(date);
    }
    date
}
