//! Runs sorted into patterns, along which none overtakes another.

ghost use Rattle.std.specs.Prelude.{◌≡◌, ◌++◌, ◌∷◌, [], List, ℕ, ◌+◌, ◌-◌, ◌<◌, ◌^◌, length, All, IfOk, OnOk, IfSome, replicate, slice_index_or, slice_set, sum_by};
ghost use Rattle.std.specs.Bool.{OnTrue};
ghost use Rattle.timetable_arcs.specs.declared.trips.Instance.{Instance};
ghost use Rattle.plan_base.specs.DaySets.{contains_day};
ghost use Rattle.timetable_arcs.specs.Patterns.{plain_table, trip_at, IsBehind};
ghost use Rattle.timetable_arcs.specs.inside.Sorting.{AreHeads, AreLastPuts, IsBehindNoted, IsPattern, MayJoinPattern, nothing_put, sum_all, runs_from, weight_on};

use crate::runs::{departs, is_behind, narrowed};
use crate::sorting::{have_same_head, heads_of, trips_in_order};
use crate::trips::{Instance, Trip};
use plan_base::DaySet;
use std::alloc::{AllocError, Global};
use std::marker::Model;

/// How many of the patterns that were opened last a run is tried on.
const TRIED: usize = 16;

/// The runs of a pattern, in order. A contract sees them as a list.
#[derive(Drop)]
pub(crate) struct Pattern {
    runs: Vec<Instance>,
    /// When they depart from their first calls, to guess places by.
    starts: Vec<u64>,
}

impl Model for Pattern {
    ghost Value = { List Instance };

    ghost view = { λ pattern. pattern.runs.items };
}

impl Pattern {
    /// The pattern of one run.
    fn of(alloc: Global, run: Instance, start: u64) -> Result<Pattern, AllocError>
        ensures { IfOk result (λ pattern. pattern ≡ run ∷ []) }
    {
        let mut runs = Vec::new(alloc);
        let mut starts = Vec::new(alloc);
        runs.push(run)?;
        starts.push(start)?;
        Ok(Pattern { runs, starts })
    }

    /// The place of the first run that departs from its first call at this time or later.
    pub(crate) fn place_from(&self, start: u64) -> usize {
        self.starts.partition_point(|held| *held < start)
    }

    pub(crate) fn runs(&self) -> &[Instance]
        ensures { result.now ≡ self.now }
    {
        &self.runs
    }

    fn push(&mut self, run: Instance, start: u64) -> Result<(), AllocError>
        ensures { OnOk result (self.new ≡ self.old ++ run ∷ []) }
    {
        self.starts.push(start)?;
        self.runs.push(run)?;
        Ok(())
    }
}

/// Trips over the days that begin at these bases, with the head of each: the trip that stands for all that call alike.
#[derive(Clone, Copy)]
struct Headed<'a> {
    bases: &'a [u64],
    trips: &'a [Trip],
    heads: &'a [u32],
}

/// What is kept of a trip from day to day, so that its runs are not compared with the same ones on each.
#[derive(Clone, Copy)]
struct LastPut {
    /// The pattern of its run that was put last.
    pattern: usize,
    /// A trip whose run of the same day stood before one of its own: so may their runs of any other day.
    before: Option<u32>,
}

/// Whether a run is behind another. On its day it is behind that of the trip that is noted, if there is one.
#[tactic(auto, using(crate::proofs::PatternLemmas::behind_on_day))]
fn stands_behind(given: &Headed, first: Instance, noted: Option<u32>, run: Instance) -> bool
    requires { IsBehindNoted given.now.trips.now run.trip noted }
    ensures { OnTrue result (IsBehind (plain_table given.now.bases.now given.now.trips.now) first run) }
{
    if first.day == run.day && noted == Some(first.trip) {
        return true;
    }
    is_behind(given.bases, given.trips, first, run)
}

/// Whether a run may stand behind the runs of a pattern. On its day it is behind that of the trip that is noted.
#[tactic(auto, using(crate::proofs::HeadLemmas::heads_alike))]
fn follows(given: &Headed, runs: &[Instance], noted: Option<u32>, run: Instance) -> bool
    requires heads { AreHeads given.now.trips.now given.now.heads.now }
    requires noted { IsBehindNoted given.now.trips.now run.trip noted }
    ensures { OnTrue result (MayJoinPattern (plain_table given.now.bases.now given.now.trips.now)
        runs.now run) }
{
    match (runs.first(), runs.last()) {
        (Some(first), Some(last)) => {
            have_same_head(given.heads, first.trip, run.trip)
                && stands_behind(given, *last, noted, run)
        }
        _ => false,
    }
}

/// A pattern behind whose runs this one may stand: that of the run that was put last, or one of those opened last.
fn find_pattern(given: &Headed, patterns: &[Pattern], last: LastPut, run: Instance) -> Option<usize>
    requires heads { AreHeads given.now.trips.now given.now.heads.now }
    requires noted { IsBehindNoted given.now.trips.now run.trip last.before }
    ensures within { IfSome result (λ place. place < length patterns.now) }
    ensures follows { IfSome result (λ place. MayJoinPattern (plain_table given.now.bases.now
        given.now.trips.now) (slice_index_or patterns.now place []) run) }
{
    let first = last.pattern;
    if first < patterns.len() && follows(given, patterns[first].runs(), last.before, run) {
        return Some(first);
    }
    for place in patterns.len().saturating_sub(TRIED)..patterns.len() {
        if follows(given, patterns[place].runs(), last.before, run) {
            return Some(place);
        }
    }
    None
}

/// The trip that is noted once a run is put behind these: that of the last of them, if it is of the same day, and else the
/// one noted before.
#[tactic(auto, using(crate::proofs::PatternLemmas::calls_behind))]
fn noted_behind(given: &Headed, runs: &[Instance], noted: Option<u32>, run: Instance) -> Option<u32>
    requires noted { IsBehindNoted given.now.trips.now run.trip noted }
    requires follows { MayJoinPattern (plain_table given.now.bases.now given.now.trips.now) runs.now run }
    ensures { IsBehindNoted given.now.trips.now run.trip result }
{
    match runs.last() {
        Some(last) if last.day == run.day => Some(last.trip),
        _ => noted,
    }
}

/// Puts a run into a pattern, and answers what is kept of its trip: into one that has place behind its runs, or a new one.
fn put(
    alloc: Global,
    given: &Headed,
    patterns: &mut Vec<Pattern>,
    last: LastPut,
    run: Instance,
) -> Result<LastPut, AllocError>
    requires heads { AreHeads given.now.trips.now given.now.heads.now }
    requires noted { IsBehindNoted given.now.trips.now run.trip last.before }
    requires are { All (IsPattern (plain_table given.now.bases.now given.now.trips.now)) patterns.old.items }
    ensures are { OnOk result (All (IsPattern (plain_table given.now.bases.now given.now.trips.now))
        patterns.new.items) }
    ensures one_more { OnOk result ((weight : Instance → ℕ)
        → sum_all weight patterns.new.items ≡ sum_all weight patterns.old.items + weight run) }
    ensures noted { IfOk result (λ put. IsBehindNoted given.now.trips.now run.trip put.before) }
{
    let start = narrowed(departs(given.bases, given.trips, run, 0));
    match find_pattern(given, patterns, last, run) {
        Some(pattern) => {
            let before = noted_behind(given, patterns[pattern].runs(), last.before, run);
            patterns[pattern].push(run, start)?;
            Ok(LastPut { pattern, before })
        }
        None => {
            let pattern = patterns.len();
            patterns.push(Pattern::of(alloc, run, start)?)?;
            Ok(LastPut { pattern, ..last })
        }
    }
}

/// What is kept of a trip none of whose runs was put yet.
const NOTHING_PUT: LastPut = LastPut {
    pattern: 0,
    before: None,
};

/// What is kept of so many trips before any run is put.
fn nothing_put_yet(alloc: Global, trips: usize) -> Result<Vec<LastPut>, AllocError>
    ensures { IfOk result (λ puts. puts.items ≡ replicate trips nothing_put) }
{
    vec![in alloc; NOTHING_PUT; trips]
}

/// What is kept of a trip.
fn last_put(puts: &[LastPut], trip: u32) -> LastPut
    ensures { result ≡ slice_index_or puts.now trip nothing_put }
{
    puts.get(trip as usize).copied().unwrap_or(NOTHING_PUT)
}

fn keep_put(puts: &mut Vec<LastPut>, trip: u32, put: LastPut)
    ensures { puts.new.items ≡ slice_set puts.old.items trip put }
{
    if let Some(held) = puts.get_mut(trip as usize) {
        *held = put;
    }
}

/// Whether the trip at a place runs on a day.
fn runs_on(trips: &[Trip], trip: u32, day: u32) -> bool
    ensures { result ≡ contains_day (trip_at (plain_table [] trips.now) trip).days day }
{
    match trips.get(trip as usize) {
        Some(trip) => trip.days.contains(day),
        None => DaySet(0).contains(day),
    }
}

/// Puts the run of a trip on a day into a pattern, if the trip runs then. `puts` has what is kept of each trip: its run of
/// a day later mostly stands in the same pattern, behind that of the same trip.
#[tactic(auto, using(crate::proofs::PatternLemmas::kept_put))]
fn put_on(
    alloc: Global,
    given: &Headed,
    trip: u32,
    day: u32,
    patterns: &mut Vec<Pattern>,
    puts: &mut Vec<LastPut>,
) -> Result<(), AllocError>
    requires heads { AreHeads given.now.trips.now given.now.heads.now }
    requires are { All (IsPattern (plain_table given.now.bases.now given.now.trips.now)) patterns.old.items }
    requires noted { AreLastPuts given.now.trips.now puts.old.items }
    ensures are { OnOk result (All (IsPattern (plain_table given.now.bases.now given.now.trips.now))
        patterns.new.items) }
    ensures one { OnOk result ((weight : Instance → ℕ) → sum_all weight patterns.new.items ≡ sum_all weight
        patterns.old.items + weight_on weight given.now.trips.now day trip) }
    ensures noted { OnOk result (AreLastPuts given.now.trips.now puts.new.items) }
{
    if runs_on(given.trips, trip, day) {
        let run = Instance { trip, day };
        let last = put(alloc, given, patterns, last_put(puts, trip), run)?;
        keep_put(puts, trip, last);
    }
    Ok(())
}

/// Puts the runs of a day into patterns, in the order of their trips.
fn put_day(
    alloc: Global,
    given: &Headed,
    order: &[u32],
    day: u32,
    patterns: &mut Vec<Pattern>,
    puts: &mut Vec<LastPut>,
) -> Result<(), AllocError>
    requires heads { AreHeads given.now.trips.now given.now.heads.now }
    requires are { All (IsPattern (plain_table given.now.bases.now given.now.trips.now)) patterns.old.items }
    requires noted { AreLastPuts given.now.trips.now puts.old.items }
    ensures are { OnOk result (All (IsPattern (plain_table given.now.bases.now given.now.trips.now))
        patterns.new.items) }
    ensures day { OnOk result ((weight : Instance → ℕ) → sum_all weight patterns.new.items ≡ sum_all weight
        patterns.old.items + sum_by (weight_on weight given.now.trips.now day) order.now) }
    ensures noted { OnOk result (AreLastPuts given.now.trips.now puts.new.items) }
{
    for trip in order {
        put_on(alloc, given, *trip, day, patterns, puts)?;
    }
    Ok(())
}

/// The runs of the trips on their days below a number, sorted into patterns.
pub(crate) fn sort_into_patterns(
    alloc: Global,
    bases: &[u64],
    trips: &[Trip],
    days: u32,
) -> Result<Vec<Pattern>, AllocError>
    requires { length trips.now < 2 ^ 32 }
    ensures are { IfOk result (λ patterns. All (IsPattern (plain_table bases.now trips.now)) patterns.items) }
    ensures each_once { IfOk result (λ patterns. (weight : Instance → ℕ)
        → sum_all weight patterns.items ≡ sum_by weight (runs_from days 0 trips.now)) }
{
    let heads = heads_of(alloc, trips)?;
    let order = trips_in_order(alloc, trips, &heads)?;
    let given = Headed {
        bases,
        trips,
        heads: &heads,
    };
    let mut puts = nothing_put_yet(alloc, trips.len())?;
    let mut patterns = Vec::new(alloc);
    for day in 0..days {
        put_day(alloc, &given, &order, day, &mut patterns, &mut puts)?;
    }
    Ok(patterns)
}
