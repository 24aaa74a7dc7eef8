//! The lists of a network, line by line.

ghost use Rattle.std.specs.Prelude.{◌≡◌, [], IfOk, OnOk};
ghost use Rattle.region_file.specs.Regions as spec;
ghost use Rattle.region_file.specs.declared.lines.Line.TheVariants as line;

use crate::lines::Line;
use mode_network::{Node, NodeKey, Parts};
use service_days::Days;
use std::alloc::{AllocError, Global};
use timetable_arcs::{Call, Trip};

/// The parts of a network of these days that has no nodes yet.
pub fn no_parts(alloc: Global, days: Days) -> Parts
    ensures { result ≡ spec.put spec.nothing (line.Days days) }
{
    Parts {
        days,
        roads: Vec::new(alloc),
        stop_names: Vec::new(alloc),
        stops: Vec::new(alloc),
        switches: Vec::new(alloc),
        arcs: Vec::new(alloc),
        links: Vec::new(alloc),
        trips: Vec::new(alloc),
    }
}

/// For how many calls of a trip room is taken before they are there.
const MOST_AT_FIRST: u32 = 65_536;

/// A list with room for so many calls, as far as that is not too many to take before they are there.
fn room_for(alloc: Global, calls: u32) -> Result<Vec<Call>, AllocError>
    ensures { IfOk result (λ list. list.items ≡ []) }
{
    Vec::with_capacity(alloc, calls.min(MOST_AT_FIRST) as usize)
}

/// Puts a call at the end of those of the last trip, if there is a trip.
fn put_call(trips: &mut Vec<Trip>, call: Call) -> Result<(), AllocError>
    ensures { OnOk result (trips.new.items ≡ spec.with_last_call trips.old.items call) }
{
    if let Some(trip) = trips.last_mut() {
        trip.calls.push(call)?;
    }
    Ok(())
}

/// Puts what a line says at the end of its list.
///
/// 2^32 stops or more, which the nodes of no network reach, are refused like want of memory.
pub fn put(alloc: Global, parts: &mut Parts, said: Line) -> Result<(), AllocError>
    ensures { OnOk result (parts.new ≡ spec.put parts.old said) }
{
    match said {
        Line::Days(days) => parts.days = days,
        Line::Road(mode, id, place) => {
            let key = NodeKey::Road(mode, id);
            parts.roads.push(Node { key, place })?;
        }
        Line::Stop(name, place) => {
            let Ok(stop) = u32::try_from(parts.stops.len()) else {
                return Err(AllocError);
            };
            let key = NodeKey::Stop(stop);
            parts.stops.push(Node { key, place })?;
            parts.stop_names.push(name)?;
        }
        Line::Switch(id, place) => {
            let key = NodeKey::Switch(id);
            parts.switches.push(Node { key, place })?;
        }
        Line::Arc(arc) => parts.arcs.push(arc)?,
        Line::Link(arc) => parts.links.push(arc)?,
        Line::Trip {
            letter,
            days,
            calls,
            name,
        } => {
            let calls = room_for(alloc, calls)?;
            parts.trips.push(Trip {
                letter,
                days,
                name,
                calls,
            })?;
        }
        Line::Call(call) => put_call(&mut parts.trips, call)?,
        Line::End => {}
    }
    Ok(())
}
