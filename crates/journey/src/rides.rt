//! The rides that runs allow.

ghost use Rattle.std.specs.Prelude.{◌≡◌, ◌<◌, ◌+◌, ◌*◌};
ghost use Rattle.mode_network.specs.declared.steps.Step.TheVariants.{Ride};
ghost use Rattle.journey.specs.Rides.{IsAllowed, KeepsRules, letter_and_stop, alighting};
ghost use Rattle.journey.specs.Ends.{IsStepEnd};
ghost use Rattle.service_days.specs.Days.{numbers_of, base_of};

use crate::step_ends::StepEnd;
use mode_network::Network;
use plan_base::Time;
use service_days::Days;
use timetable_arcs::{Call, Trip};

/// The rules that each network keeps.
pub fn keeps_rules(network: &Network)
    ensures { KeepsRules network.now }
{
    network.known();
    network.days().known();
}

/// The trips of a network.
pub(crate) fn trips(network: &Network) -> &[Trip]
    ensures { result.now ≡ network.now.trips }
{
    network.timetable().trips()
}

/// A ride as a step names it: the run of this trip on this day, from the call at which it boards to a later one.
#[derive(Clone, Copy)]
pub(crate) struct NamedRide {
    pub trip: u32,
    pub day: u32,
    pub board: u32,
    pub alight: u32,
}

/// A ride that a run allows: the letter of its trip, and the calls at which it boards and alights.
#[derive(Clone, Copy)]
pub(crate) struct AllowedRide {
    pub letter: u8,
    pub on: Call,
    pub off: Call,
}

/// The named ride, if its run allows it; None exactly where the trip does not run on the day, the calls are none of its
/// calls in turn, or boarding or alighting is not allowed there.
fn allowed_ride(trips: &[Trip], named: NamedRide) -> Option<AllowedRide>
    ensures { IsAllowed trips.now named result }
{
    let trip = trips.get(named.trip as usize)?;
    let on = trip.calls.get(named.board as usize)?;
    let off = trip.calls.get(named.alight as usize)?;
    if trip.days.contains(named.day) && named.board < named.alight && on.board && off.alight {
        Some(AllowedRide {
            letter: trip.letter,
            on: *on,
            off: *off,
        })
    } else {
        None
    }
}

/// The letter of a trip, and the stop of one of its calls; None exactly where there is no such call.
fn letter_and_stop(trips: &[Trip], trip: u32, call: u32) -> Option<(u8, u32)>
    ensures { result ≡ letter_and_stop trips.now trip call }
{
    let trip = trips.get(trip as usize)?;
    let call = trip.calls.get(call as usize)?;
    Some((trip.letter, call.stop))
}

/// The node at which a ride alights that alights at this call of a trip, and the letter of the trip; None exactly where
/// there is no such call.
pub(crate) fn alighting(network: &Network, trip: u32, alight: u32) -> Option<(u32, u8)>
    ensures { result ≡ alighting network.now trip alight }
{
    network.known();
    let (letter, stop) = letter_and_stop(trips(network), trip, alight)?;
    Some((network.stop_node(stop), letter))
}

/// So many seconds after the base of a day, in milliseconds of the region clock.
fn clock_at(days: &Days, day: u32, seconds: u32) -> Time
    requires { day < numbers_of days.now }
    ensures { result ≡ base_of days.now day + 1000 * seconds }
{
    Time::from(days.base(day)) + 1000 * Time::from(seconds)
}

/// The end of a ride that is taken from `v` at `t`; None exactly where the network has no such step.
pub(crate) fn ride_end(network: &Network, v: u32, t: Time, named: NamedRide) -> Option<StepEnd>
    ensures { IsStepEnd network.now v t (Ride named.trip named.day named.board named.alight) result }
{
    keeps_rules(network);
    let ride = allowed_ride(trips(network), named)?;
    let departure = clock_at(network.days(), named.day, ride.on.dep);
    if network.stop_node(ride.on.stop) != v || departure < t {
        return None;
    }
    Some(StepEnd {
        node: network.stop_node(ride.off.stop),
        at: clock_at(network.days(), named.day, ride.off.arr),
        letter: Some(ride.letter),
    })
}
