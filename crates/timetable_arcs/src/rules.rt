//! The first rule that the trips of a timetable break.

ghost use Rattle.std.specs.Prelude.{◌≡◌, ◌<◌, ◌+◌, ◌^◌, ◌&&◌, nat_lt, nat_le, not, length, All, IfSome, position};
ghost use Rattle.std.specs.List.{list_all};
ghost use Rattle.timetable_arcs.specs.TripRules.{is_early, is_trip, goes_on, unknown_stop, later_fault, trip_fault, trips_fault, calls_of, table_fault};

use crate::faults::TableFault;
use crate::trips::{Call, Trip};
use plan_base::{Caps, DaySet, Kind};

/// Whether a call is less than 168 hours after the base of the day.
fn is_early(call: &Call) -> bool
    ensures { result ≡ is_early call.now }
{
    call.arr <= 604_799 && call.dep <= 604_799
}

/// Whether a number is below this power of two.
fn is_below_power(number: u128, exponent: usize) -> bool
    ensures { result ≡ nat_lt number (2 ^ exponent) }
{
    exponent >= 128 || number >> exponent == 0
}

/// Whether a letter is that of a means of transit.
fn is_transit(letter: u8) -> bool
    ensures { result ≡ (nat_le 3 letter && nat_le letter 13) }
{
    3 <= letter && letter <= 13
}

/// Whether a set of days has one, and each is below this number.
fn has_days(days: DaySet, count: usize) -> bool
    ensures { result ≡ (nat_lt 0 days.0 && nat_lt days.0 (2 ^ count)) }
{
    0 < days.0 && is_below_power(days.0, count)
}

fn are_early(calls: &[Call]) -> bool
    ensures { result ≡ list_all is_early calls.now }
{
    calls.iter().all(is_early)
}

fn is_trip(days: usize, trip: &Trip) -> bool
    ensures { result ≡ is_trip days trip.now }
{
    if !is_transit(trip.letter) || trip.calls.len() < 2 || !has_days(trip.days, days) {
        return false;
    }
    are_early(&trip.calls)
}

/// Whether the times never go back.
fn goes_on(calls: &[Call]) -> bool
    ensures { result ≡ goes_on 0 calls.now }
{
    let mut time = 0;
    let mut rest = calls;
    while let [call, after @ ..] = rest {
        if call.arr < time || call.dep < call.arr {
            return false;
        }
        time = call.dep;
        rest = after;
    }
    true
}

/// Whether a call is at one of so many stops.
fn is_known(stops: u32, call: &Call) -> bool
    ensures { result ≡ nat_lt call.now.stop stops }
{
    call.stop < stops
}

fn first_unknown(stops: u32, calls: &[Call]) -> Option<usize>
    ensures first { result ≡ position (λ call. not (nat_lt call.stop stops)) calls.now }
    ensures within { IfSome result (λ place. place < length calls.now) }
{
    calls.iter().position(|call| !is_known(stops, call))
}

/// The first call that is at none of so many stops.
fn unknown_stop(stops: u32, trip: &Trip) -> Option<u32>
    requires { length trip.now.calls < 2 ^ 32 }
    ensures { result ≡ unknown_stop stops trip.now }
{
    let place = first_unknown(stops, &trip.calls)?;
    Some(place as u32)
}

fn later_fault(place: u32, trip: &Trip, unknown: Option<u32>) -> Option<TableFault>
    ensures { result ≡ later_fault place trip.now unknown }
{
    if let Some(call) = unknown {
        return Some(TableFault::UnknownStop { trip: place, call });
    }
    if goes_on(&trip.calls) {
        None
    } else {
        Some(TableFault::TimeGoesBack { trip: place })
    }
}

/// The first rule that the trip at this place breaks.
fn trip_fault(days: usize, stops: u32, place: u32, trip: &Trip) -> Option<TableFault>
    requires { length trip.now.calls < 2 ^ 32 }
    ensures { result ≡ trip_fault days stops place trip.now }
{
    if is_trip(days, trip) {
        later_fault(place, trip, unknown_stop(stops, trip))
    } else {
        Some(TableFault::BadTrip { trip: place })
    }
}

fn trips_fault(days: usize, stops: u32, trips: &[Trip]) -> Option<TableFault>
    requires few { length trips.now < 2 ^ 32 }
    requires few_calls { calls_of trips.now < 2 ^ 32 }
    ensures { result ≡ trips_fault days stops 0 trips.now }
{
    let mut place = 0;
    let mut rest = trips;
    while let [trip, after @ ..] = rest {
        let fault = trip_fault(days, stops, place, trip);
        if fault.is_some() {
            return fault;
        }
        place += 1;
        rest = after;
    }
    None
}

/// Whether the trips have more calls together than this.
fn have_more_calls(trips: &[Trip], most: u64) -> bool
    ensures { result ≡ nat_lt most (calls_of trips.now) }
{
    let mut left = most;
    let mut rest = trips;
    while let [trip, after @ ..] = rest {
        let calls = trip.calls.len() as u64;
        if left < calls {
            return true;
        }
        left -= calls;
        rest = after;
    }
    false
}

/// The first rule that the trips break, over so many days and stops.
pub(crate) fn table_fault(
    caps: &Caps,
    days: usize,
    stops: u32,
    trips: &[Trip],
) -> Option<TableFault>
    ensures { result ≡ table_fault caps.now days stops trips.now }
{
    if caps.trips < trips.len() as u64 {
        return Some(TableFault::TooMany { kind: Kind::Trips });
    }
    if have_more_calls(trips, caps.calls) {
        return Some(TableFault::TooMany { kind: Kind::Calls });
    }
    trips_fault(days, stops, trips)
}

/// The days of a trip are below 128.
fn has_few_days(trip: &Trip)
    ensures { trip.now.days.0 < 2 ^ 128 }
{
    let _days = trip.days.0;
}

/// The days of each trip are below 128.
pub(crate) fn have_few_days(trips: &[Trip])
    ensures { All (λ trip. trip.days.0 < 2 ^ 128) trips.now }
{
    for trip in trips {
        has_few_days(trip);
    }
}
