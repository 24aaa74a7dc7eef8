//! The trips of the sample city.

ghost use Rattle.std.specs.Prelude.{◌≡◌, ◌+◌, ◌*◌, ◌<◌, ◌≤◌, ◌^◌, ◌++◌, All, length, IfOk, IfSome, OnOk};
ghost use Rattle.sample_city.specs.Trips as spec;

use crate::corners::{Corner, Direction, crossing, lines as lines_to};
use crate::stops::{CityStop, text_of};
use plain_texts::Name;
use plan_base::DaySet;
use std::alloc::{AllocError, Global};
use timetable_arcs::{Call, Trip};

/// The place of the stop at a corner.
fn stop_place(stops: &[CityStop], at: Corner) -> Option<usize>
    ensures place { result ≡ spec.stop_place stops.now at }
    ensures within { IfSome result (λ place. place < length stops.now) }
{
    stops.iter().position(|stop| stop.id == at.id)
}

/// The number of the stop at a corner.
fn stop_number(stops: &[CityStop], at: Corner) -> u32
    requires { length stops.now < 2 ^ 32 }
    ensures { result ≡ spec.corner_stop_number stops.now at }
{
    match stop_place(stops, at) {
        Some(place) => place as u32,
        None => 0,
    }
}

/// The calls at stop after stop, from this second on.
fn calls_along(alloc: Global, time: u32, stops: &[u32]) -> Result<Vec<Call>, AllocError>
    requires { time + 140 * length stops.now < 600000 }
    ensures { IfOk result (λ calls. calls.items ≡ spec.calls_along time stops.now) }
{
    let mut calls = Vec::with_capacity(alloc, stops.len())?;
    let mut arr = time;
    let mut rest = stops;
    while let [stop, after @ ..] = rest {
        calls.push(Call {
            stop: *stop,
            arr,
            dep: arr + 20,
            board: true,
            alight: true,
        })?;
        arr += 140;
        rest = after;
    }
    Ok(calls)
}

/// What all buses, or all trams, have in common.
#[derive(Clone, Copy)]
struct Fleet {
    letter: u8,
    /// The byte that the names of their trips begin with.
    head: u8,
    /// The seconds from one trip to the next.
    every: u32,
    /// How many trips there are along a line.
    trips: u32,
    way: Direction,
}

const BUSES: Fleet = Fleet {
    letter: 6,
    head: b'B',
    every: 600,
    trips: 108,
    way: Direction::Row,
};

const TRAMS: Fleet = Fleet {
    letter: 3,
    head: b'T',
    every: 900,
    trips: 72,
    way: Direction::Column,
};

/// Puts the trip number `j` of a fleet along a line to the others.
fn push_trip(
    alloc: Global,
    trips: &mut Vec<Trip>,
    fleet: Fleet,
    line: u32,
    stops: &[u32],
    j: u32,
) -> Result<(), AllocError>
    requires every { fleet.every ≤ 900 }
    requires few { j < 110 }
    requires stops { length stops.now ≤ 300 }
    ensures { OnOk result (trips.new.items ≡ trips.old.items ++ spec.trip_along fleet line stops.now j) }
{
    let name = Name::new(text_of(alloc, fleet.head, line, j)?);
    if let Some(name) = name {
        let calls = calls_along(alloc, 18_000 + fleet.every * j, stops)?;
        trips.push(Trip {
            letter: fleet.letter,
            days: DaySet(0x3ff),
            name,
            calls,
        })?;
    }
    Ok(())
}

/// Puts the trips of a fleet along a line to the others.
fn push_line(
    alloc: Global,
    trips: &mut Vec<Trip>,
    fleet: Fleet,
    line: u32,
    stops: &[u32],
) -> Result<(), AllocError>
    requires every { fleet.every ≤ 900 }
    requires few { fleet.trips ≤ 110 }
    requires stops { length stops.now ≤ 300 }
    ensures { OnOk result (trips.new.items ≡ trips.old.items ++ spec.line_trips fleet line stops.now) }
{
    let times = lines_to(alloc, fleet.trips)?;
    for j in &times {
        push_trip(alloc, trips, fleet, line, stops, *j)?;
    }
    Ok(())
}

/// The stops along a line, where these others of the other way cross it.
fn line_stops(
    alloc: Global,
    stops: &[CityStop],
    n: u32,
    others: &[u32],
    way: Direction,
    line: u32,
) -> Result<Vec<u32>, AllocError>
    requires few { length stops.now < 2 ^ 32 }
    requires size { n ≤ 300 }
    requires line { line < 300 }
    requires others { All (λ other. other < 300) others.now }
    ensures { IfOk result (λ numbers. numbers.items ≡ spec.line_stops n stops.now others.now way line) }
{
    let mut numbers = Vec::new(alloc);
    for other in others {
        numbers.push(stop_number(stops, crossing(n, way, line, *other)))?;
    }
    Ok(numbers)
}

/// Puts the trips of a fleet along all lines to the others.
fn push_fleet(
    alloc: Global,
    trips: &mut Vec<Trip>,
    stops: &[CityStop],
    n: u32,
    lines: &[u32],
    fleet: Fleet,
) -> Result<(), AllocError>
    requires many { length stops.now < 2 ^ 32 }
    requires size { n ≤ 300 }
    requires lines { All (λ line. line < 300) lines.now }
    requires few { length lines.now ≤ 300 }
    requires every { fleet.every ≤ 900 }
    requires times { fleet.trips ≤ 110 }
    ensures { OnOk result (trips.new.items ≡ trips.old.items ++ spec.fleet_trips n stops.now lines.now fleet) }
{
    for line in lines {
        let along = line_stops(alloc, stops, n, lines, fleet.way, *line)?;
        push_line(alloc, trips, fleet, *line, &along)?;
    }
    Ok(())
}

/// The trips of the city, over the lines that have stops.
pub(crate) fn city_trips(
    alloc: Global,
    stops: &[CityStop],
    n: u32,
    lines: &[u32],
) -> Result<Vec<Trip>, AllocError>
    requires many { length stops.now < 2 ^ 32 }
    requires size { n ≤ 300 }
    requires lines { All (λ line. line < 300) lines.now }
    requires few { length lines.now ≤ 300 }
    ensures { IfOk result (λ trips. trips.items ≡ spec.trips_along n stops.now lines.now) }
{
    let mut trips = Vec::new(alloc);
    if lines.len() < 2 {
        return Ok(trips);
    }
    push_fleet(alloc, &mut trips, stops, n, lines, BUSES)?;
    push_fleet(alloc, &mut trips, stops, n, lines, TRAMS)?;
    Ok(trips)
}
