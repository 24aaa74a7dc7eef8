//! Trips, their calls and their runs.

use plain_texts::Name;
use plan_base::DaySet;
use std::marker::Model;

/// A call of a trip at a stop. The times are seconds after the base of the day on which the trip runs.
#[derive(Clone, Copy, Debug, PartialEq, Eq)]
pub struct Call {
    /// The stop, by its place among the stops.
    pub stop: u32,
    pub arr: u32,
    pub dep: u32,
    /// Whether travellers may board here.
    pub board: bool,
    /// Whether travellers may alight here.
    pub alight: bool,
}

/// A trip: the letter of its means of transport, 3 (tram) to 13 (other), the days on which it runs, its name,
/// and its calls in order.
#[derive(Debug, Drop)]
pub struct Trip {
    pub letter: u8,
    pub days: DaySet,
    pub name: Name,
    pub calls: Vec<Call>,
}

impl Model for Trip {
    ghost use Rattle.timetable_arcs.specs.Trips.{TripLists};

    ghost Value = { TripLists };

    ghost view = { λ t. record { letter = t.letter; days = t.days; name = t.name; calls = t.calls.items } };
}

/// A run: a trip, by its place among the trips, on one of its days.
#[derive(Clone, Copy, Debug, PartialEq, Eq)]
pub struct Instance {
    pub trip: u32,
    pub day: u32,
}

/// A run of a pattern, and its place among the runs of the pattern.
#[derive(Clone, Copy)]
pub struct PlacedRun {
    pub place: usize,
    pub run: Instance,
}
