//! Noons in the zone of a POSIX rule.

ghost use Rattle.std.specs.Prelude.{◌≡◌, ◌-◌, ◌/◌, ◌<◌, ◌≤◌, ◌&&◌, ℕ, nat_le, true, pos, ◌+ℤ◌, ◌-ℤ◌, ◌*ℤ◌, ◌≤ℤ◌, unsigned_abs, map, length, slice_index, if◌then◌else◌, IfOk, IfErr, OnOk};
ghost use Rattle.std.specs.List.{list_all, range_with_len};
ghost use Rattle.std.specs.Option.{option_map};
ghost use Rattle.jiff_core.specs.Calendar.{IsEpochDay, IsWithin};
ghost use Rattle.jiff_core.specs.Timestamp.{IsOffsetSeconds};
ghost use Rattle.jiff_tz.specs.Ambiguous.{compatible_offset};
ghost use Rattle.service_days.specs.Dates.{is_civil};
ghost use Rattle.service_days.specs.Zones.{RefusesLengths, have_day_lengths, is_day_length, is_rule_text, noon_in, read_zone, zone_base, zone_of};

use crate::civil::civil_date;
use crate::range::RangeFault;
use jiff_core::Offset;
use jiff_core::civil::{DateTime, Time};
use jiff_tz::AmbiguousOffset;
use jiff_tz::posix::TimeZone;
use std::alloc::Global;

/// Whether a text may be a rule: it has 1 to 64 bytes, printable ones and no space.
pub(crate) fn is_rule_text(rule: &[u8]) -> bool
    ensures { result ≡ is_rule_text rule.now }
{
    !rule.is_empty() && rule.len() <= 64 && are_printable(rule)
}

/// Whether each byte is printable and no space.
fn are_printable(text: &[u8]) -> bool
    ensures { result ≡ list_all (λ byte. nat_le 33 byte && nat_le byte 126) text.now }
{
    text.iter().all(|byte| 33 <= *byte && *byte <= 126)
}

/// The zone of a rule, if the text is one.
pub(crate) fn parse_rule(rule: &[u8]) -> Option<TimeZone>
    ensures { option_map zone_of result ≡ (if is_rule_text rule.now then read_zone rule.now else None) }
{
    if !is_rule_text(rule) {
        return None;
    }
    TimeZone::parse(rule).ok()
}

/// The bases of the days of all dates but the last, whose day is the one after them.
pub(crate) fn zone_bases(
    alloc: Global,
    zone: &TimeZone,
    dates: &[u32],
) -> Result<Vec<u64>, RangeFault>
    requires civil { (day : ℕ) → day < length dates.now → is_civil (slice_index dates.now day) ≡ true }
    requires some { 1 ≤ length dates.now }
    ensures lengths { OnOk result (have_day_lengths (zone_of zone.now) dates.now
        (length dates.now - 1) ≡ true) }
    ensures bases { IfOk result (λ bases. bases.items ≡ map (zone_base (zone_of zone.now) dates.now)
        (range_with_len 0 (length dates.now - 1))) }
    ensures err { IfErr result (RefusesLengths (have_day_lengths (zone_of zone.now) dates.now
        (length dates.now - 1))) }
{
    let start = noon(zone, dates[0]);
    let mut here = start;
    let mut bases = Vec::new(alloc);
    for day in 0..dates.len() - 1 {
        let next = noon(zone, dates[day + 1]);
        if !is_day_length(here, next) {
            return Err(RangeFault::BadZone);
        }
        match bases.push(milliseconds(start, here)) {
            Ok(()) => {}
            Err(_) => return Err(RangeFault::OutOfMemory),
        }
        here = next;
    }
    Ok(bases)
}

/// Whether there are 22 to 26 hours from a noon to the next, both in seconds.
fn is_day_length(noon: i64, next: i64) -> bool
    requires noon { IsWithin 1000000000000 noon }
    ensures { result ≡ is_day_length (noon *ℤ pos 1000000000) (next *ℤ pos 1000000000) }
{
    noon + 79_200 <= next && next <= noon + 93_600
}

/// The milliseconds from one time in seconds to a later one.
fn milliseconds(start: i64, end: i64) -> u64
    requires start { IsWithin 1000000000000 start }
    requires end { IsWithin 1000000000000 end }
    requires later { start ≤ℤ end }
    ensures { result ≡ unsigned_abs ((end *ℤ pos 1000000000) -ℤ (start *ℤ pos 1000000000)) / 1000000 }
{
    (end - start) as u64 * 1_000
}

/// When it is noon of a date in the zone, in seconds since 1970.
fn noon(zone: &TimeZone, date: u32) -> i64
    requires { is_civil date ≡ true }
    ensures value { noon_in (zone_of zone.now) date ≡ result *ℤ pos 1000000000 }
    ensures bound { IsWithin 1000000000000 result }
{
    let date = civil_date(date);
    let noon = DateTime {
        date,
        time: Time {
            hour: 12,
            minute: 0,
            second: 0,
            subsec_nanosecond: 0,
        },
    };
    let offset = compatible(zone.to_ambiguous_offset(noon));
    noon_seconds(date.to_unix_epoch_day(), offset.seconds)
}

/// The seconds from 1970 to noon of a day number, on a clock that is so many seconds ahead.
fn noon_seconds(day: i32, offset: i32) -> i64
    requires day { IsEpochDay day }
    requires offset { IsOffsetSeconds offset }
    ensures value { result ≡ (day *ℤ pos 86400) +ℤ pos 43200 -ℤ offset }
    ensures bound { IsWithin 1000000000000 result }
{
    day as i64 * 86_400 + 43_200 - offset as i64
}

/// The offset before a change of the clock.
fn compatible(offsets: AmbiguousOffset) -> Offset
    ensures { result ≡ compatible_offset offsets }
{
    match offsets {
        AmbiguousOffset::Unambiguous { offset } => offset,
        AmbiguousOffset::Gap { before, .. } => before,
        AmbiguousOffset::Fold { before, .. } => before,
    }
}
