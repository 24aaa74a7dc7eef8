//! Climbing over entries that lead up.

ghost use Rattle.std.specs.Prelude.{◌≡◌, ◌+◌, ◌<◌, IfOk, IfSome, IsTrue, length, slice_index, true};
ghost use Rattle.hierarchy.specs.{has_legs};
ghost use Rattle.rounds.specs.inside.{AreClimbs, AreClimbsOf, AreClimbedAll, IsClimbedFrom, IsPassed, IsRowLowered, never, nodes_of_rungs};

use crate::delays::{NEVER, lower_in};
use hierarchy::Hierarchy;
use std::alloc::{AllocError, Global};

/// A climb to a node, and how long it takes in ms.
#[derive(Clone, Copy)]
pub struct Climb {
    pub node: u32,
    pub ms: u32,
}

/// A node with its height, by which it is sorted.
#[derive(Clone, Copy, PartialEq, Eq, PartialOrd, Ord)]
struct Rung {
    height: u64,
    node: u32,
}

/// The climbs from a node over entries that lead up, of a hierarchy that has legs, for each node to which there is one one that takes
/// least. None where one may take 2^32 - 1 ms or longer, or where nodes stand otherwise than by their heights.
pub fn climbs_from(
    alloc: Global,
    h: &Hierarchy,
    start: u32,
) -> Result<Option<Vec<Climb>>, AllocError>
    requires { has_legs h.now ≡ true }
    ensures { IfOk result (λ made. IfSome made (λ climbs. AreClimbs h.now start climbs.items)) }
{
    let rungs = rungs_above(alloc, h, start)?;
    let Some(delays) = climb_all(alloc, h, &rungs, start)? else {
        return Ok(None);
    };
    let climbs = climbs_at(alloc, &rungs, &delays)?;
    Ok(Some(climbs))
}

/// A node, and all to which entries lead up from there, lower ones first.
fn rungs_above(alloc: Global, h: &Hierarchy, start: u32) -> Result<Vec<Rung>, AllocError> {
    let mut rungs = Vec::new(alloc);
    rungs.push(rung_of(h, start))?;
    for next in 0..u32::MAX {
        let Some(rung) = rungs.get(next as usize).copied() else {
            return Ok(rungs);
        };
        if h.contracted(rung.node) {
            for leg in h.legs_from(rung.node) {
                insert(&mut rungs, rung_of(h, leg.to / 2))?;
            }
        }
    }
    Ok(rungs)
}

/// A node with its height.
fn rung_of(h: &Hierarchy, node: u32) -> Rung {
    Rung {
        height: h.height(node),
        node,
    }
}

/// Puts a rung in its place among those that are lower or higher, if it is not there.
fn insert(rungs: &mut Vec<Rung>, rung: Rung) -> Result<(), AllocError> {
    if let Err(place) = rungs.binary_search(&rung) {
        rungs.insert(place, rung)?;
    }
    Ok(())
}

/// The least delays of climbs from a node to these, of which it is the first. None where one may not fit, or where entries lead up to
/// nodes that do not stand behind.
fn climb_all(
    alloc: Global,
    h: &Hierarchy,
    rungs: &[Rung],
    start: u32,
) -> Result<Option<Vec<u32>>, AllocError>
    requires { has_legs h.now ≡ true }
    ensures { IfOk result (λ made. IfSome made (λ delays. AreClimbedAll h.now start (nodes_of_rungs rungs.now)
        delays.items)) }
{
    if rungs.is_empty() || rungs[0].node != start {
        return Ok(None);
    }
    let mut delays = vec![in alloc; NEVER; rungs.len()]?;
    delays[0] = 0;
    for place in 0..rungs.len() {
        if !climb_on(h, rungs, place, &mut delays) {
            return Ok(None);
        }
    }
    Ok(Some(delays))
}

/// Climbs on from a place. Whether all delays fit, and all nodes to which entries lead up from there stand behind.
fn climb_on(h: &Hierarchy, rungs: &[Rung], place: usize, delays: &mut [u32]) -> bool
    requires legs { has_legs h.now ≡ true }
    requires place { place < length rungs.now }
    requires as_many { length delays.old ≡ length rungs.now }
    ensures lowered { IsRowLowered (IsClimbedFrom h.now (nodes_of_rungs rungs.now) delays.old place) delays.old
        delays.new }
    ensures passed { IsTrue result → IsPassed h.now (nodes_of_rungs rungs.now) delays.new place }
{
    h.known();
    let (node, delay) = (rungs[place].node, delays[place]);
    if delay == NEVER || !h.contracted(node) {
        return true;
    }
    for leg in h.legs_from(node) {
        let Some(above) = place_behind(h, rungs, place, leg.to / 2) else {
            return false;
        };
        let Some(later) = later(delay, leg.ms) else {
            return false;
        };
        lower_in(delays, above, later);
    }
    true
}

/// The place of a node, if it stands behind this one.
fn place_behind(h: &Hierarchy, rungs: &[Rung], place: usize, node: u32) -> Option<usize>
    ensures behind { IfSome result (λ found. place < found) }
    ensures within { IfSome result (λ found. found < length rungs.now) }
    ensures is { IfSome result (λ found. slice_index (nodes_of_rungs rungs.now) found ≡ node) }
{
    let found = rungs.binary_search(&rung_of(h, node)).ok()?;
    if place < found && rungs[found].node == node {
        Some(found)
    } else {
        None
    }
}

/// A delay and so many ms, if that is less than never.
fn later(delay: u32, ms: u32) -> Option<u32>
    ensures { IfSome result (λ later. (later ≡ delay + ms) × (later < never)) }
{
    match delay.checked_add(ms) {
        Some(later) if later < NEVER => Some(later),
        _ => None,
    }
}

/// The climbs to these nodes that have delays.
fn climbs_at(alloc: Global, rungs: &[Rung], delays: &[u32]) -> Result<Vec<Climb>, AllocError>
    requires { length delays.now ≡ length rungs.now }
    ensures { IfOk result (λ climbs. AreClimbsOf (nodes_of_rungs rungs.now) delays.now climbs.items) }
{
    let mut climbs = Vec::with_capacity(alloc, rungs.len())?;
    for place in 0..rungs.len() {
        let ms = delays[place];
        if ms < NEVER {
            climbs.push(Climb {
                node: rungs[place].node,
                ms,
            })?;
        }
    }
    Ok(climbs)
}
