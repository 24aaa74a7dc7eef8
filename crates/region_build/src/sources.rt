//! What the tables of a feed say of a trip.

ghost use Rattle.std.specs.Prelude.{◌≡◌, ◌+◌, ◌<◌, ◌≤◌, ◌^◌, ℕ, length, filter, map, IfOk};
ghost use Rattle.service_days.specs.DaysMeaning.{DaysMeaning};
ghost use Rattle.region_build.specs.Groups.{Ascend, is_of, own_count, trip_of_call, trip_of_frequency};
ghost use Rattle.region_build.specs.Services.{AreDaysOf};
ghost use Rattle.region_build.specs.Sources as spec;

use crate::services::Services;
use gtfs_tables::{CallRow, Feed, FrequencyRow, RouteRow, TripRow};
use plan_base::DaySet;
use service_days::Days;
use std::alloc::{AllocError, Global};
use std::collections::HashMap;

/// What the tables of a feed say of a trip.
#[derive(Clone, Copy)]
pub(crate) struct Source<'a> {
    /// The trip's row in trips.txt.
    pub(crate) row: u64,
    /// trip_id
    pub(crate) id: &'a [u8],
    /// The letter of its route.
    pub(crate) letter: u8,
    /// The days of its service.
    pub(crate) days: DaySet,
    /// Its calls in the order of their sequence numbers.
    pub(crate) calls: &'a [CallRow],
    /// Its rows in frequencies.txt, in the order of that file.
    pub(crate) frequencies: &'a [FrequencyRow],
}

/// The calls of a feed in the order of their trips and sequence numbers.
pub(crate) fn calls_in_order(alloc: Global, calls: &[CallRow]) -> Result<Vec<CallRow>, AllocError>
    ensures { IfOk result (λ sorted. spec.AreCallsInOrder calls.now sorted.items) }
{
    let mut sorted = Vec::from_slice(alloc, calls)?;
    sorted.sort_by_key(|call| (call.trip, call.sequence))?;
    Ok(sorted)
}

/// The headways of a feed in the order of their trips and rows.
pub(crate) fn frequencies_in_order(
    alloc: Global,
    frequencies: &[FrequencyRow],
) -> Result<Vec<FrequencyRow>, AllocError>
    ensures { IfOk result (λ sorted. spec.AreFrequenciesInOrder frequencies.now sorted.items) }
{
    let mut sorted = Vec::from_slice(alloc, frequencies)?;
    sorted.sort_by_key(|frequency| (frequency.trip, frequency.row))?;
    Ok(sorted)
}

/// A row of a feed that is one of a trip's.
trait OfTrip {
    /// The place of its trip in the feed's list.
    ghost trip_of: { Self → ℕ };

    /// The place of its trip in the feed's list.
    fn trip(&self) -> u32
        ensures { result ≡ trip_of self.now };
}

impl OfTrip for CallRow {
    ghost trip_of = { trip_of_call };

    fn trip(&self) -> u32 {
        self.trip
    }
}

impl OfTrip for FrequencyRow {
    ghost trip_of = { trip_of_frequency };

    fn trip(&self) -> u32 {
        self.trip
    }
}

/// How many rows of a trip stand in front.
fn own_count<R: OfTrip>(rows: &[R], trip: u32) -> usize
    ensures { result ≡ own_count R.trip_of trip rows.now }
{
    rows.iter().take_while(|row| row.trip() == trip).count()
}

/// The rows of a trip, where they stand in front, and those of later trips.
fn split_rows<R: OfTrip>(rows: &[R], trip: u32) -> (&[R], &[R])
    requires { Ascend R.trip_of trip rows.now }
    ensures own { result.0.now ≡ filter (is_of R.trip_of trip) rows.now }
    ensures ascend { Ascend R.trip_of (trip + 1) result.1.now }
    ensures later { (k : ℕ) → trip + 1 ≤ k
        → filter (is_of R.trip_of k) result.1.now ≡ filter (is_of R.trip_of k) rows.now }
{
    rows.split_at(own_count(rows, trip))
}

/// The letter of the route at this place; 0 where there is none.
fn letter_of(routes: &[RouteRow], route: u32) -> u8
    ensures { result ≡ spec.letter_of routes.now route }
{
    match routes.get(route as usize) {
        Some(row) => row.letter,
        None => 0,
    }
}

/// What the tables say of a trip that has these days, these calls and these headways.
fn source_of<'a>(
    feed: &'a Feed,
    trip: &'a TripRow,
    days: DaySet,
    calls: &'a [CallRow],
    frequencies: &'a [FrequencyRow],
) -> Source<'a>
    ensures { (days_of_region : DaysMeaning) → AreDaysOf feed.now days_of_region trip.now.service days
        → spec.IsSource feed.now days_of_region calls.now frequencies.now trip.now (spec.lists_of result) }
{
    Source {
        row: trip.row,
        id: trip.id.as_bytes(),
        letter: letter_of(&feed.routes, trip.route),
        days,
        calls,
        frequencies,
    }
}

/// What the tables say of each trip, by the calls and the headways in the order of their trips.
pub(crate) fn sources_of<'a>(
    alloc: Global,
    feed: &'a Feed,
    days: &Days,
    calls: &'a [CallRow],
    frequencies: &'a [FrequencyRow],
) -> Result<Vec<Source<'a>>, AllocError>
    requires few { length feed.now.trips < 2 ^ 32 }
    requires calls { spec.AreCallsInOrder feed.now.calls calls.now }
    requires frequencies { spec.AreFrequenciesInOrder feed.now.frequencies frequencies.now }
    ensures { IfOk result (λ sources. spec.AreTripSources feed.now days.now
        (map spec.lists_of sources.items)) }
{
    let services = Services::of(alloc, feed)?;
    let mut known = HashMap::new(alloc);
    let mut sources = Vec::new(alloc);
    let mut place = 0;
    let (mut calls_left, mut frequencies_left) = (calls, frequencies);
    let mut rest = feed.trips.as_slice();
    while let [trip, after @ ..] = rest {
        let (own_calls, later_calls) = split_rows(calls_left, place);
        let (own, later_frequencies) = split_rows(frequencies_left, place);
        let runs = services.days_of(&mut known, days, trip.service.as_bytes())?;
        sources.push(source_of(feed, trip, runs, own_calls, own))?;
        place += 1;
        calls_left = later_calls;
        frequencies_left = later_frequencies;
        rest = after;
    }
    Ok(sources)
}
