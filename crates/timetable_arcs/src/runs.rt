//! When runs are where, and which may share a pattern.

ghost use Rattle.std.specs.Prelude.{◌≡◌, ◌+◌, ◌*◌, ◌^◌, ◌<◌, ◌≤◌, [], nat_le, find, slice_get, slice_index};
ghost use Rattle.std.specs.List.Sorted.{IsNonDecreasingBy};
ghost use Rattle.std.specs.Bool.{OnTrue};
ghost use Rattle.timetable_arcs.specs.inside.Sorting.{AreCallsBehind, IsFirstFrom};
ghost use Rattle.timetable_arcs.specs.Patterns.{plain_table, trip_at, call_of, arrives, departs, last_arrived, IsAlike, AreAlike, IsBehind};

use crate::trips::{Call, Instance, Trip};
use plan_base::Time;

/// The calls of the trip of a run.
pub(crate) fn calls_of<'a>(trips: &'a [Trip], run: Instance) -> &'a [Call]
    ensures { result.now ≡ (trip_at (plain_table [] trips.now) run.trip).calls }
{
    match trips.get(run.trip as usize) {
        Some(trip) => &trip.calls,
        None => &[],
    }
}

/// The call of a run at this place.
fn call_of(trips: &[Trip], run: Instance, call: usize) -> Call
    ensures { result ≡ call_of (plain_table [] trips.now) run call }
{
    match calls_of(trips, run).get(call) {
        Some(held) => *held,
        None => Call {
            stop: 0,
            arr: 0,
            dep: 0,
            board: false,
            alight: false,
        },
    }
}

/// The base of the day on which a run runs.
fn base_of(bases: &[u64], run: Instance) -> Time
    ensures value { result ≡ slice_index bases.now run.day }
    ensures small { result < 2 ^ 64 }
{
    match bases.get(run.day as usize) {
        Some(base) => Time::from(*base),
        None => 0,
    }
}

/// When a run arrives at a call.
pub(crate) fn arrives(bases: &[u64], trips: &[Trip], run: Instance, call: usize) -> Time
    ensures { result ≡ arrives (plain_table bases.now trips.now) run call }
{
    base_of(bases, run) + 1000 * Time::from(call_of(trips, run, call).arr)
}

/// When a run departs from a call.
pub(crate) fn departs(bases: &[u64], trips: &[Trip], run: Instance, call: usize) -> Time
    ensures { result ≡ departs (plain_table bases.now trips.now) run call }
{
    base_of(bases, run) + 1000 * Time::from(call_of(trips, run, call).dep)
}

/// A time in 64 bits, or the greatest such.
pub(crate) fn narrowed(time: Time) -> u64 {
    if time <= 0xffff_ffff_ffff_ffff {
        time as u64
    } else {
        0xffff_ffff_ffff_ffff
    }
}

/// When a run departs from its first call that departs from this one at a time, if it takes as long as these calls do.
pub(crate) fn start_for(calls: &[Call], call: usize, time: Time) -> u64 {
    match (calls.first(), calls.get(call)) {
        (Some(first), Some(held)) => {
            narrowed(time.saturating_sub(1000 * Time::from(held.dep.saturating_sub(first.dep))))
        }
        _ => 0,
    }
}

/// Whether calls are at the same stop, with the same leave to board and to alight.
fn is_alike(a: &Call, b: &Call) -> bool
    ensures { OnTrue result (IsAlike a.now b.now) }
{
    a.stop == b.stop && a.board == b.board && a.alight == b.alight
}

/// Whether trips have the same letter and alike calls.
fn are_alike(a: &Trip, b: &Trip) -> bool
    ensures { OnTrue result (AreAlike a.now b.now) }
{
    if a.letter != b.letter || a.calls.len() != b.calls.len() {
        return false;
    }
    for (k, call) in a.calls.iter().enumerate() {
        if !is_alike(call, &b.calls[k]) {
            return false;
        }
    }
    true
}

/// Whether the trips at two places have the same letter and alike calls.
pub(crate) fn have_alike_calls(trips: &[Trip], a: u32, b: u32) -> bool
    ensures { OnTrue result (AreAlike (trip_at (plain_table [] trips.now) a)
        (trip_at (plain_table [] trips.now) b)) }
{
    match (trips.get(a as usize), trips.get(b as usize)) {
        (Some(a), Some(b)) => are_alike(a, b),
        _ => false,
    }
}

/// Whether a call of one run is behind a call of another: it departs later, and arrives no earlier. The bases are those of
/// the days of the runs.
#[inline(always)]
fn is_call_behind(first_base: Time, first: Call, second_base: Time, second: Call) -> bool
    requires first { first_base < 2 ^ 64 }
    requires second { second_base < 2 ^ 64 }
    ensures departs { OnTrue result (first_base + 1000 * first.dep < second_base + 1000 * second.dep) }
    ensures arrives { OnTrue result (first_base + 1000 * first.arr ≤ second_base + 1000 * second.arr) }
{
    first_base + 1000 * Time::from(first.dep) < second_base + 1000 * Time::from(second.dep)
        && first_base + 1000 * Time::from(first.arr) <= second_base + 1000 * Time::from(second.arr)
}

/// Whether at each of these calls the second departs later, and arrives no earlier.
fn are_calls_behind(first: &[Call], second: &[Call]) -> bool
    ensures { OnTrue result (AreCallsBehind first.now second.now) }
{
    if first.len() > second.len() {
        return false;
    }
    for (k, call) in first.iter().enumerate() {
        if call.dep >= second[k].dep || call.arr > second[k].arr {
            return false;
        }
    }
    true
}

/// Whether one run is behind another: at every call it departs later, and arrives no earlier.
#[tactic(auto, using(crate::proofs::PatternLemmas::behind_on_day))]
pub(crate) fn is_behind(bases: &[u64], trips: &[Trip], first: Instance, second: Instance) -> bool
    ensures { OnTrue result (IsBehind (plain_table bases.now trips.now) first second) }
{
    if first.day == second.day {
        are_calls_behind(calls_of(trips, first), calls_of(trips, second))
    } else {
        is_behind_over_days(bases, trips, first, second)
    }
}

/// Whether one run is behind another, which may be of another day.
fn is_behind_over_days(bases: &[u64], trips: &[Trip], first: Instance, second: Instance) -> bool
    ensures { OnTrue result (IsBehind (plain_table bases.now trips.now) first second) }
{
    let first_base = base_of(bases, first);
    let second_base = base_of(bases, second);
    let first_calls = calls_of(trips, first);
    let second_calls = calls_of(trips, second);
    if first_calls.len() > second_calls.len() {
        return false;
    }
    for (k, call) in first_calls.iter().enumerate() {
        if !is_call_behind(first_base, *call, second_base, second_calls[k]) {
            return false;
        }
    }
    true
}

/// Whether the runs before a place depart from a call before this time, and that at the place at this time or later. So it
/// is where those next to the place do, as they stand in order.
fn is_first_from(
    bases: &[u64],
    trips: &[Trip],
    runs: &[Instance],
    call: usize,
    time: Time,
    place: usize,
) -> bool
    ensures { OnTrue result (IsFirstFrom (λ run. departs (plain_table bases.now trips.now) run call) time
        runs.now place) }
{
    if place > runs.len() {
        return false;
    }
    if place > 0 && departs(bases, trips, runs[place - 1], call) >= time {
        return false;
    }
    if place < runs.len() && departs(bases, trips, runs[place], call) < time {
        return false;
    }
    true
}

/// Where the first of these runs stands that departs from a call at this time or later, or their end. It is looked for at the
/// hinted place first.
pub(crate) fn first_from(
    bases: &[u64],
    trips: &[Trip],
    runs: &[Instance],
    call: usize,
    time: Time,
    hint: usize,
) -> usize
    requires { IsNonDecreasingBy (λ run. departs (plain_table bases.now trips.now) run call) runs.now }
    ensures { slice_get runs.now result ≡ find (λ run. nat_le time
        (departs (plain_table bases.now trips.now) run call)) runs.now }
{
    if is_first_from(bases, trips, runs, call, time, hint) {
        return hint;
    }
    first_by_halves(bases, trips, runs, call, time)
}

/// Where the first of these runs stands that departs from a call at this time or later, or their end.
fn first_by_halves(
    bases: &[u64],
    trips: &[Trip],
    runs: &[Instance],
    call: usize,
    time: Time,
) -> usize
    requires { IsNonDecreasingBy (λ run. departs (plain_table bases.now trips.now) run call) runs.now }
    ensures { slice_get runs.now result ≡ find (λ run. nat_le time
        (departs (plain_table bases.now trips.now) run call)) runs.now }
{
    runs.partition_point(|run| departs(bases, trips, *run, call) < time)
}

/// The last of these runs that arrives at a call at this time or earlier.
pub(crate) fn last_by(
    bases: &[u64],
    trips: &[Trip],
    runs: &[Instance],
    call: usize,
    time: Time,
) -> Option<Instance>
    requires { IsNonDecreasingBy (λ run. arrives (plain_table bases.now trips.now) run call) runs.now }
    ensures { result ≡ last_arrived (plain_table bases.now trips.now) call time runs.now None }
{
    let place = runs.partition_point(|run| arrives(bases, trips, *run, call) <= time);
    runs[..place].last().copied()
}
