//! Walks through the phase graph of a hierarchy.

ghost use Rattle.std.specs.Prelude.{◌≡◌, ◌≢◌, ◌<◌, [], IfOk, OnOk, All, Contains, Some, length};
ghost use Rattle.search_laws.specs.GraphLaws.{HasArc};
ghost use Rattle.hierarchy.specs.Soundness.{IsSound};
ghost use Rattle.hierarchy.specs.Lookups.{entry_at};
ghost use Rattle.phase_graph.specs.Marks.{marks_in};
ghost use Rattle.phase_graph.specs.PhaseArcs.{phase_meaning, node_of};
ghost use Rattle.unpack.specs.Unpacking.{AreHopsIn, IsSoon, node_after, arrival_after};
ghost use Rattle.unpack.specs.PhaseUnpacking.{IsUnpacked, GoesOn, GoesOnByArc, GoesOnByRoads, ArePartsOf, letters_in};

use crate::plain_walk::push_steps;
use hierarchy::{Entry, Hierarchy};
use mode_network::{Journey, Network, Step};
use phase_graph::{PhaseArc, Phases};
use product_search::{Hop, Walk};
use search_laws::Time;
use std::alloc::{AllocError, Global};

/// Puts the two entries of which a shortcut consists on a stack, the first of them on top.
fn push_parts(
    hierarchy: &Hierarchy,
    network: &Network,
    entry: Entry,
    middle: u32,
    stack: &mut Vec<Entry>,
) -> Result<(), AllocError>
    requires sound { ∥ IsSound network.now hierarchy.now ∥₁ }
    requires listed { Contains hierarchy.now.entries entry }
    requires via { entry.via ≡ Some middle }
    ensures { OnOk result (ArePartsOf hierarchy.now.entries entry middle stack.old.items stack.new.items) }
{
    network.known();
    hierarchy.known();
    let Some(first) = hierarchy.entry(entry.from, middle) else {
        unreachable!()
    };
    let Some(second) = hierarchy.entry(middle, entry.to) else {
        unreachable!()
    };
    stack.push(*second)?;
    stack.push(*first)?;
    Ok(())
}

/// Appends the road arcs under an entry, in time of their number. The stack, which is empty before and after, holds the
/// entries that are still to be unpacked.
fn push_entry(
    hierarchy: &Hierarchy,
    network: &Network,
    entry: Entry,
    stack: &mut Vec<Entry>,
    steps: &mut Vec<Step>,
) -> Result<(), AllocError>
    requires sound { ∥ IsSound network.now hierarchy.now ∥₁ }
    requires listed { Contains hierarchy.now.entries entry }
    requires none { stack.old.items ≡ [] }
    ensures none { OnOk result (stack.new.items ≡ []) }
    ensures roads { OnOk result (GoesOnByRoads network.now entry.from entry.to entry.weight steps.old.items
        steps.new.items) }
{
    network.known();
    hierarchy.known();
    stack.push(entry)?;
    while let Some(next) = stack.pop() {
        match next.via {
            None => steps.push(Step::Road { to: next.to })?,
            Some(middle) => push_parts(hierarchy, network, next, middle, stack)?,
        }
    }
    Ok(())
}

/// Appends the road arcs under the entry at a place.
fn push_entry_at(
    phases: &Phases<'_>,
    place: u64,
    stack: &mut Vec<Entry>,
    steps: &mut Vec<Step>,
) -> Result<(), AllocError>
    requires place { place < length phases.now.hierarchy.now.entries }
    requires none { stack.old.items ≡ [] }
    ensures none { OnOk result (stack.new.items ≡ []) }
    ensures differ { (entry_at phases.now.hierarchy.now.entries place).from ≢
        (entry_at phases.now.hierarchy.now.entries place).to }
    ensures roads { OnOk result (GoesOnByRoads phases.now.plain.network.now
        (entry_at phases.now.hierarchy.now.entries place).from
        (entry_at phases.now.hierarchy.now.entries place).to
        (entry_at phases.now.hierarchy.now.entries place).weight steps.old.items steps.new.items) }
{
    let hierarchy = phases.hierarchy();
    hierarchy.known();
    let entry = hierarchy.entries()[place as usize];
    push_entry(hierarchy, phases.network(), entry, stack, steps)
}

/// Appends the steps that take the arc at place `i` of those out of the node `p` at a time: those of the roads under an
/// entry, or those of an arc of the plain graph.
fn push_arc(
    phases: &Phases<'_>,
    p: u32,
    i: u64,
    t: Time,
    stack: &mut Vec<Entry>,
    steps: &mut Vec<Step>,
) -> Result<(), AllocError>
    requires has { HasArc (phase_meaning phases.now.plain.network.now phases.now.plain.timetable.now
        phases.now.hierarchy.now (marks_in phases.now.falls.first.items)) p i }
    requires none { stack.old.items ≡ [] }
    ensures none { OnOk result (stack.new.items ≡ []) }
    ensures steps { OnOk result (GoesOnByArc phases.now.plain.network.now phases.now.plain.timetable.now
        phases.now.hierarchy.now (marks_in phases.now.falls.first.items) p i t steps.old.items
        steps.new.items) }
{
    match phases.phase_arc(p, i) {
        PhaseArc::Up(place) => push_entry_at(phases, place, stack, steps),
        PhaseArc::Down(place) => push_entry_at(phases, place, stack, steps),
        PhaseArc::Other(place) => {
            let plain = phases.plain();
            plain.timetable().known();
            push_steps(plain, plain.plain_arc(p / 2, place), t, steps)
        }
    }
}

/// The steps of each hop, from the node `start` at `at` on.
fn steps(
    alloc: Global,
    phases: &Phases<'_>,
    start: u32,
    at: Time,
    hops: &[Hop],
) -> Result<Vec<Step>, AllocError>
    requires { AreHopsIn (phase_meaning phases.now.plain.network.now phases.now.plain.timetable.now
        phases.now.hierarchy.now (marks_in phases.now.falls.first.items)) start at hops.now }
    ensures { IfOk result (λ steps. GoesOn phases.now.plain.network.now (node_of start) at
        (node_of (node_after start hops.now)) (arrival_after at hops.now)
        (letters_in (phase_meaning phases.now.plain.network.now phases.now.plain.timetable.now
        phases.now.hierarchy.now (marks_in phases.now.falls.first.items)) start hops.now) [] steps.items) }
{
    let mut steps = Vec::with_capacity(alloc, hops.len())?;
    let mut stack = Vec::new(alloc);
    let (mut p, mut time) = (start, at);
    for hop in hops {
        push_arc(phases, p, hop.arc, time, &mut stack, &mut steps)?;
        (p, time) = (hop.to, hop.at);
    }
    Ok(steps)
}

/// The journey under a walk through the phase graph: the road arcs under its entries, and its links, rides and legs of
/// length zero. It is real, with the walk's ends in the network, departure and arrival, and its word collapses to the same.
/// Each ride is boarded when it departs, as in [`from_plain`](crate::from_plain).
pub(crate) fn from_phases(
    alloc: Global,
    phases: &Phases<'_>,
    walk: &Walk,
) -> Result<Journey, AllocError>
    requires { AreHopsIn (phase_meaning phases.now.plain.network.now phases.now.plain.timetable.now
        phases.now.hierarchy.now (marks_in phases.now.falls.first.items)) walk.now.node walk.now.at
        walk.now.hops.items }
    ensures start { IfOk result (λ j. j.start ≡ node_of walk.now.node) }
    ensures at { IfOk result (λ j. j.at ≡ walk.now.at) }
    ensures unpacked { IfOk result (λ j. IsUnpacked phases.now.plain.network.now j.start j.at j.steps
        (node_of (node_after walk.now.node walk.now.hops.items))
        (arrival_after walk.now.at walk.now.hops.items) (letters_in
        (phase_meaning phases.now.plain.network.now phases.now.plain.timetable.now phases.now.hierarchy.now
        (marks_in phases.now.falls.first.items)) walk.now.node walk.now.hops.items)) }
    ensures soon { IfOk result (λ j. All IsSoon j.steps) }
{
    phases.plain().timetable().known();
    Ok(Journey {
        start: walk.node / 2,
        at: walk.at,
        steps: steps(alloc, phases, walk.node, walk.at, &walk.hops)?,
    })
}
