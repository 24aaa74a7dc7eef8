//! Walks through the graph of a network.

ghost use Rattle.std.specs.Prelude.{◌≡◌, ◌++◌, IfOk, OnOk, All};
ghost use Rattle.mode_network.specs.Journeys.{AreSteps};
ghost use Rattle.journey.specs.Boarded.{AreOnTime};
ghost use Rattle.plain_graph.specs.Rides.{IsKnownRide, IsRideOf};
ghost use Rattle.plain_graph.specs.declared.plain.PlainArc.TheVariants as plain_arc;
ghost use Rattle.plain_graph.specs.Simulation.{step_of};
ghost use Rattle.unpack.specs.Unpacking.{ArePlainHops, HaveArcs, IsSoon, steps_of, with_wait, node_after, arrival_after, letters_of};

use mode_network::{Journey, Step};
use plain_graph::{Plain, PlainArc};
use product_search::{Hop, Walk};
use search_laws::Time;
use std::alloc::{AllocError, Global};
use timetable_arcs::Ride;

/// Appends the steps that take an arc of the graph at a time: before a ride that leaves later, a wait until it does.
/// Where no run makes a ride any more there are none.
pub(crate) fn push_steps(
    plain: &Plain<'_>,
    arc: PlainArc,
    t: Time,
    steps: &mut Vec<Step>,
) -> Result<(), AllocError>
    requires { IsKnownRide plain.now.timetable.now arc }
    ensures { OnOk result (steps.new.items ≡ steps.old.items ++ with_wait plain.now.timetable.now t
        (step_of plain.now.timetable.now t arc)) }
{
    let step = match arc {
        PlainArc::Road(arc) => Step::Road { to: arc.to },
        PlainArc::Link(link) => Step::Link { to: link.to },
        PlainArc::Stand => Step::Stand,
        PlainArc::Ride(ride) => return push_ride(plain, ride, t, steps),
    };
    steps.push(step)?;
    Ok(())
}

/// Appends a ride that is taken at a time, and before it a wait until it departs, if it does so later.
fn push_ride(
    plain: &Plain<'_>,
    ride: Ride,
    t: Time,
    steps: &mut Vec<Step>,
) -> Result<(), AllocError>
    requires { IsRideOf plain.now.timetable.now ride }
    ensures { OnOk result (steps.new.items ≡ steps.old.items ++ with_wait plain.now.timetable.now t
        (step_of plain.now.timetable.now t (plain_arc.Ride ride))) }
{
    let timetable = plain.timetable();
    if let Some(run) = timetable.next(ride.pattern, ride.board, t) {
        let (_, departure) = timetable.at(run.trip, run.day, ride.board);
        if t < departure {
            steps.push(Step::Wait { until: departure })?;
        }
        steps.push(Step::Ride {
            trip: run.trip,
            day: run.day,
            board: ride.board,
            alight: ride.alight,
        })?;
    }
    Ok(())
}

/// The steps of each hop, from `start` at `at` on.
fn steps(
    alloc: Global,
    plain: &Plain<'_>,
    start: u32,
    at: Time,
    hops: &[Hop],
) -> Result<Vec<Step>, AllocError>
    requires { HaveArcs plain.now.network.now plain.now.timetable.now start hops.now }
    ensures { IfOk result (λ steps. steps.items ≡ steps_of plain.now.network.now plain.now.timetable.now start
        at hops.now) }
{
    let mut steps = Vec::with_capacity(alloc, hops.len())?;
    let (mut node, mut time) = (start, at);
    for hop in hops {
        push_steps(plain, plain.plain_arc(node, hop.arc), time, &mut steps)?;
        (node, time) = (hop.to, hop.at);
    }
    Ok(steps)
}

/// The journey that takes a walk's hops one after the other. It is real, and has the walk's ends, times and
/// letters. Each ride is boarded when it departs: a wait until then stands before it where one is there earlier.
pub fn from_plain(alloc: Global, plain: &Plain<'_>, walk: &Walk) -> Result<Journey, AllocError>
    requires { ArePlainHops plain.now.network.now plain.now.timetable.now walk.now.node walk.now.at
        walk.now.hops.items }
    ensures start { IfOk result (λ j. j.start ≡ walk.now.node) }
    ensures at { IfOk result (λ j. j.at ≡ walk.now.at) }
    ensures real { IfOk result (λ j. AreSteps plain.now.network.now j.start j.at j.steps
        (node_after walk.now.node walk.now.hops.items) (arrival_after walk.now.at walk.now.hops.items)
        (letters_of plain.now.network.now plain.now.timetable.now walk.now.node walk.now.hops.items)) }
    ensures boarded { IfOk result (λ j. AreOnTime plain.now.network.now j.start j.at j.steps
        (node_after walk.now.node walk.now.hops.items) (arrival_after walk.now.at walk.now.hops.items)
        (letters_of plain.now.network.now plain.now.timetable.now walk.now.node walk.now.hops.items)) }
    ensures soon { IfOk result (λ j. All IsSoon j.steps) }
{
    plain.timetable().known();
    Ok(Journey {
        start: walk.node,
        at: walk.at,
        steps: steps(alloc, plain, walk.node, walk.at, &walk.hops)?,
    })
}
