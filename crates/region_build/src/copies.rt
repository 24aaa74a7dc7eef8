//! The trips of a region: the trips of a feed, each as often as its headways have it leave.

ghost use Rattle.std.specs.Prelude.{◌≡◌, ◌++◌, All, map, nat_eq, true, IfOk, OnOk};
ghost use Rattle.std.specs.HashMap.{get};
ghost use Rattle.std.specs.List.{AllByRecursion, list_all};
ghost use Rattle.gtfs_tables.specs.Sound.{IsFeedId};
ghost use Rattle.region_build.specs.Copies as spec;
ghost use Rattle.region_build.specs.Sources.{lists_of};

use crate::headways::{first_departure, leaves_into};
use crate::sources::Source;
use crate::stops::StopNumbers;
use gtfs_tables::CallRow;
use plain_texts::name_of_id;
use std::alloc::{AllocError, Global};
use timetable_arcs::{Call, Trip};

/// A time of a trip, on the copy that leaves its first stop at `leave` in place of `first`.
fn moved(first: u32, leave: u64, time: u32) -> u128
    ensures { result ≡ spec.moved first leave time }
{
    (u128::from(time) + u128::from(leave)).saturating_sub(u128::from(first))
}

/// A call on the copy that leaves its first stop at `leave` in place of `first`.
#[tactic(auto, unfolding(crate::specs::Copies::call_at))]
fn call_at(numbers: &StopNumbers, first: u32, leave: u64, call: &CallRow) -> Call
    requires { spec.is_copy_early first leave call.now ≡ true }
    ensures { result ≡ spec.call_at (get nat_eq numbers.now.by_stop) first leave call.now }
{
    Call {
        stop: numbers.of(call.stop).unwrap_or(0),
        arr: moved(first, leave, call.arr) as u32,
        dep: moved(first, leave, call.dep) as u32,
        board: call.board,
        alight: call.alight,
    }
}

/// The calls on that copy.
fn calls_at(
    alloc: Global,
    numbers: &StopNumbers,
    first: u32,
    leave: u64,
    calls: &[CallRow],
) -> Result<Vec<Call>, AllocError>
    requires { list_all (spec.is_copy_early first leave) calls.now ≡ true }
    ensures { IfOk result (λ copy. copy.items ≡ map (spec.call_at (get nat_eq numbers.now.by_stop) first
        leave) calls.now) }
{
    let mut copy = Vec::with_capacity(alloc, calls.len())?;
    let mut rest = calls;
    while let [call, after @ ..] = rest {
        copy.push(call_at(numbers, first, leave, call))?;
        rest = after;
    }
    Ok(copy)
}

/// The copy of a trip that leaves at this time.
#[tactic(auto, unfolding(crate::specs::Copies::copy_at))]
fn copy_at(
    alloc: Global,
    numbers: &StopNumbers,
    source: &Source<'_>,
    leave: u64,
) -> Result<Trip, AllocError>
    requires kept { spec.is_kept (lists_of source.now) leave ≡ true }
    requires id { IsFeedId source.now.id.now }
    ensures { IfOk result (λ trip. trip ≡ spec.copy_at (get nat_eq numbers.now.by_stop)
        (lists_of source.now) leave) }
{
    let first = first_departure(source.calls);
    Ok(Trip {
        letter: source.letter,
        days: source.days,
        name: name_of_id(alloc, source.id)?,
        calls: calls_at(alloc, numbers, first, leave, source.calls)?,
    })
}

/// Puts the copies that leave at these times to the others.
fn push_each(
    alloc: Global,
    trips: &mut Vec<Trip>,
    times: &[u64],
    numbers: &StopNumbers,
    source: &Source<'_>,
) -> Result<(), AllocError>
    requires kept { All (λ leave. spec.is_kept (lists_of source.now) leave ≡ true) times.now }
    requires id { IsFeedId source.now.id.now }
    ensures { OnOk result (trips.new.items ≡ trips.old.items ++ map
        (spec.copy_at (get nat_eq numbers.now.by_stop) (lists_of source.now)) times.now) }
{
    for leave in times {
        trips.push(copy_at(alloc, numbers, source, *leave)?)?;
    }
    Ok(())
}

/// Puts the copies of a trip to the others. `times` is where its departures are put.
fn push_copies(
    alloc: Global,
    trips: &mut Vec<Trip>,
    times: &mut Vec<u64>,
    numbers: &StopNumbers,
    source: &Source<'_>,
) -> Result<(), AllocError>
    requires { IsFeedId source.now.id.now }
    ensures { OnOk result (trips.new.items ≡ trips.old.items ++ spec.copies_of
        (get nat_eq numbers.now.by_stop) (lists_of source.now)) }
{
    leaves_into(times, source)?;
    push_each(alloc, trips, times, numbers, source)
}

/// The trips of a region.
#[tactic(auto, unfolding(crate::specs::Copies::expanded))]
pub(crate) fn expanded(
    alloc: Global,
    numbers: &StopNumbers,
    sources: &[Source<'_>],
) -> Result<Vec<Trip>, AllocError>
    requires { AllByRecursion (λ source. IsFeedId source.id.now) sources.now }
    ensures { IfOk result (λ trips. trips.items ≡ spec.expanded (get nat_eq numbers.now.by_stop)
        (map lists_of sources.now)) }
{
    let (mut trips, mut times) = (Vec::new(alloc), Vec::new(alloc));
    let mut rest = sources;
    while let [source, after @ ..] = rest {
        push_copies(alloc, &mut trips, &mut times, numbers, source)?;
        rest = after;
    }
    Ok(trips)
}
