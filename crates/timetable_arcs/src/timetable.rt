//! The timetable: trips, the patterns of their runs, and what finds a run or a ride.

ghost use Rattle.std.specs.Prelude.{◌≡◌, ◌<◌, ◌^◌, ℕ, [], min, Some, None, length, All, sum_by, IfOk, OnOk, IfErr, IfSome, option_map, slice_get, slice_index, slice_index_or};
ghost use Rattle.timetable_arcs.specs.declared.trips.Instance.{Instance};
ghost use Rattle.timetable_arcs.specs.TripRules.{IsFaultOf, table_fault};
ghost use Rattle.timetable_arcs.specs.Patterns.{plain_table, runs_of, trip_at, pattern_trip, no_run, next_run, last_run, arrives, departs};
ghost use Rattle.timetable_arcs.specs.Runs.{IsNextRun, IsLastRun};
ghost use Rattle.timetable_arcs.specs.inside.Sorting.{IsPattern, sum_all, runs_from};
ghost use Rattle.timetable_arcs.specs.Rides.{rides_at, boards_at};
ghost use Rattle.timetable_arcs.specs.Table.{AreBases, IsTable};

use crate::boards::{Places, StopBoards};
use crate::faults::TableFault;
use crate::patterns::{Pattern, sort_into_patterns};
use crate::rides::{Board, Ride};
use crate::runs::{arrives, calls_of, departs, first_from, last_by, start_for};
use crate::trips::{Call, Instance, PlacedRun, Trip};
use crate::{boards, rules};
use plan_base::{Caps, Time};
use std::alloc::{AllocError, Global};
use std::marker::Model;

/// A timetable. A contract sees its bases, its trips and the runs of each pattern.
#[derive(Drop)]
pub struct Timetable {
    bases: Vec<u64>,
    stops: u32,
    trips: Vec<Trip>,
    patterns: Vec<Pattern>,
    places: Vec<Places>,
    boards: Vec<StopBoards>,
}

impl Model for Timetable {
    ghost use Rattle.timetable_arcs.specs.Patterns.{TableLists};

    ghost Value = { TableLists };

    ghost use Rattle.timetable_arcs.specs.inside.Fields.{lists_of, IsKept};

    ghost view = { lists_of };

    ghost invariant = { IsKept };
}

impl Timetable {
    /// The timetable of these trips over days with these bases (in milliseconds of the region clock) and so many
    /// stops, or the first rule that the trips break. The rules are tried in this order: the counts of trips and of
    /// calls are within `caps`; then of each trip in turn: its letter is 3 to 13, it has two calls or more, some day
    /// and no day without a base, and no time of 168 hours or more; its calls are at stops; its times never go back.
    pub fn build(
        alloc: Global,
        bases: Vec<u64>,
        stops: u32,
        trips: Vec<Trip>,
        caps: &Caps,
    ) -> Result<Timetable, TableFault>
        requires { AreBases bases.items }
        ensures bases { IfOk result (λ t. t.bases ≡ bases.items) }
        ensures stops { IfOk result (λ t. t.stops ≡ stops) }
        ensures trips { IfOk result (λ t. t.trips ≡ trips.items) }
        ensures faultless { OnOk result (table_fault caps.now (length bases.items) stops trips.items ≡ None) }
        ensures fault { IfErr result (IsFaultOf caps.now (length bases.items) stops trips.items) }
    {
        if let Some(fault) = rules::table_fault(caps, bases.len(), stops, &trips) {
            return Err(fault);
        }
        rules::have_few_days(&trips);
        let patterns = sorted_patterns(alloc, &bases, &trips)?;
        let places = boards::alight_places(alloc, &trips, &patterns)?;
        let boards = boards::stop_boards(alloc, stops, &trips, &patterns)?;
        Ok(Timetable {
            bases,
            stops,
            trips,
            patterns,
            places,
            boards,
        })
    }

    /// Each timetable keeps the rules.
    pub fn known(&self)
        ensures { IsTable self.now }
    {
        let _ = &self.trips;
    }

    /// The trips that were given, in order.
    pub fn trips(&self) -> &[Trip]
        ensures { result.now ≡ self.now.trips }
    {
        &self.trips
    }

    /// How many patterns there are.
    pub fn patterns(&self) -> u32
        ensures { result ≡ length self.now.patterns }
    {
        self.patterns.len() as u32
    }

    /// The calls of a pattern: their stops and flags are those of each of its runs.
    pub fn pattern_calls(&self, p: u32) -> &[Call]
        requires { p < length self.now.patterns }
        ensures { result.now ≡ (pattern_trip self.now p).calls }
    {
        boards::pattern_calls(&self.trips, self.patterns[p as usize].runs())
    }

    /// The calls of a run, in order.
    pub fn run_calls(&self, run: Instance) -> &[Call]
        ensures { result.now ≡ (trip_at self.now run.trip).calls }
    {
        calls_of(&self.trips, run)
    }

    /// The letter of a pattern, which is that of each of its runs.
    pub fn pattern_letter(&self, p: u32) -> u8
        requires { p < length self.now.patterns }
        ensures { result ≡ (pattern_trip self.now p).letter }
    {
        pattern_letter(&self.trips, self.patterns[p as usize].runs())
    }

    /// The run of a pattern with the least departure at this call that is `t` or later; None exactly where none departs
    /// there at `t` or later.
    pub fn next(&self, p: u32, call: u32, t: Time) -> Option<Instance>
        requires pattern { p < length self.now.patterns }
        requires call { call < length (pattern_trip self.now p).calls }
        ensures is { result ≡ next_run self.now p call t }
        ensures first { IsNextRun self.now p call t result }
    {
        self.known();
        Some(self.next_placed(p, call, t)?.run)
    }

    /// The run that [`Timetable::next`] tells, and its place among the runs of the pattern. Those that stand before it arrive no later at
    /// any call.
    pub fn next_placed(&self, p: u32, call: u32, t: Time) -> Option<PlacedRun>
        requires pattern { p < length self.now.patterns }
        requires call { call < length (pattern_trip self.now p).calls }
        ensures is { option_map (λ next. next.run) result ≡ next_run self.now p call t }
        ensures place { IfSome result (λ next. slice_get (runs_of self.now p) next.place ≡ Some next.run) }
    {
        let hint = self.hint(p, call, t);
        let runs = self.patterns[p as usize].runs();
        let place = first_from(&self.bases, &self.trips, runs, call as usize, t, hint);
        let run = *runs.get(place)?;
        Some(PlacedRun { place, run })
    }

    /// Where the next run stands, if all runs of the pattern take as long as the first.
    fn hint(&self, p: u32, call: u32, t: Time) -> usize
        requires { p < length self.now.patterns }
    {
        let start = start_for(self.pattern_calls(p), call as usize, t);
        self.patterns[p as usize].place_from(start)
    }

    /// The run of a pattern with the greatest departure at this call among those that arrive there at `t` or earlier;
    /// None exactly where none arrives there at `t` or earlier.
    pub fn last(&self, p: u32, call: u32, t: Time) -> Option<Instance>
        requires pattern { p < length self.now.patterns }
        requires call { call < length (pattern_trip self.now p).calls }
        ensures is { result ≡ last_run self.now p call t }
        ensures last { IsLastRun self.now p call t result }
    {
        let runs = self.patterns[p as usize].runs();
        last_by(&self.bases, &self.trips, runs, call as usize, t)
    }

    /// When the run of a trip on a day arrives at a call, and when it departs, in milliseconds of the region clock.
    pub fn at(&self, trip: u32, day: u32, call: u32) -> (Time, Time)
        requires trip { trip < length self.now.trips }
        requires day { day < length self.now.bases }
        requires call { call < length (trip_at self.now trip).calls }
        ensures arrival { result.0 ≡ arrives self.now (record { trip = trip; day = day }) call }
        ensures departure { result.1 ≡ departs self.now (record { trip = trip; day = day }) call }
    {
        let run = Instance { trip, day };
        (
            arrives(&self.bases, &self.trips, run, call as usize),
            departs(&self.bases, &self.trips, run, call as usize),
        )
    }

    /// The base of a day, in milliseconds of the region clock.
    pub fn base(&self, day: u32) -> Time
        requires { day < length self.now.bases }
        ensures { result ≡ slice_index self.now.bases day }
    {
        Time::from(self.bases[day as usize])
    }

    /// The calls of patterns at a stop where one may board, ascending by pattern and call.
    pub fn boards(&self, stop: u32) -> &[Board]
        requires { stop < self.now.stops }
        ensures { result.now ≡ boards_at self.now stop }
    {
        self.boards[stop as usize].boards()
    }

    /// How many rides begin at a stop.
    pub fn rides(&self, stop: u32) -> u64
        requires { stop < self.now.stops }
        ensures { result ≡ length (rides_at self.now stop) }
    {
        self.boards[stop as usize].rides()
    }

    /// The ride at this place of those that begin at a stop.
    pub fn ride(&self, stop: u32, i: u64) -> Ride
        requires stop { stop < self.now.stops }
        requires ride { i < length (rides_at self.now stop) }
        ensures { slice_get (rides_at self.now stop) i ≡ Some result }
    {
        let held = &self.boards[stop as usize];
        let boards = held.boards();
        let place = boards.partition_point(|board| board.before <= i);
        let board = boards[place - 1];
        let left = boards::end_of(boards, held.rides(), place) - i;
        let places = self.places[board.pattern as usize].as_slice();
        Ride {
            pattern: board.pattern,
            board: board.call,
            alight: places[places.len() - left as usize],
        }
    }
}

/// The letter of a pattern with these runs.
fn pattern_letter(trips: &[Trip], runs: &[Instance]) -> u8
    ensures { result ≡ (trip_at (plain_table [] trips.now) (slice_index_or runs.now 0 no_run).trip).letter }
{
    let first = match runs.first() {
        Some(first) => first.trip,
        None => 0,
    };
    match trips.get(first as usize) {
        Some(trip) => trip.letter,
        None => 0,
    }
}

/// The runs of the trips, sorted into patterns.
fn sorted_patterns(alloc: Global, bases: &[u64], trips: &[Trip]) -> Result<Vec<Pattern>, AllocError>
    requires { length trips.now < 2 ^ 32 }
    ensures are { IfOk result (λ patterns. All (IsPattern (plain_table bases.now trips.now)) patterns.items) }
    ensures each_once { IfOk result (λ patterns. (weight : Instance → ℕ)
        → sum_all weight patterns.items ≡ sum_by weight (runs_from (min (length bases.now) 128) 0
        trips.now)) }
{
    let days = bases.len().min(128) as u32;
    sort_into_patterns(alloc, bases, trips, days)
}
