//! The first rule that the parts of a network break.

ghost use Rattle.std.specs.Prelude.{◌≡◌, ◌<◌, ◌^◌, length, not, true};
ghost use Rattle.std.specs.List.{position};
ghost use Rattle.mode_network.specs.NetworkLists.{nodes_of};
ghost use Rattle.mode_network.specs.Rules.{joins_modes, joins_layers, end_or_order_fault, unsorted_fault, count_fault, lists_fault, arcs_fault, links_fault, AreNamed, AreNames, HaveDurations};
ghost use Rattle.plain_texts.specs.Names.{is_name};

use crate::faults::NetFault;
use crate::indexes::mode_at;
use crate::nodes::{Arc, Node};
use crate::order::first_unsorted;
use crate::parts::Parts;
use plain_texts::Name;
use plan_base::{Caps, Kind};
use timetable_arcs::Trip;

fn joins_modes(roads: &[Node], arc: &Arc) -> bool
    ensures { result ≡ joins_modes roads.now arc.now }
{
    match (mode_at(roads, arc.from), mode_at(roads, arc.to)) {
        (Some(from), Some(to)) => from == to && arc.from != arc.to,
        _ => false,
    }
}

fn joins_layers(roads: u128, nodes: u128, link: &Arc) -> bool
    ensures { result ≡ joins_layers roads nodes link.now }
{
    let (from, to) = (u128::from(link.from), u128::from(link.to));
    from < nodes
        && to < nodes
        && (if from < roads {
            roads <= to
        } else {
            to < roads
        })
}

/// The first arc whose ends are not different road nodes of one mode.
fn first_bad_arc(roads: &[Node], arcs: &[Arc]) -> Option<usize>
    ensures { result ≡ position (λ arc. not (joins_modes roads.now arc)) arcs.now }
{
    arcs.iter().position(|arc| !joins_modes(roads, arc))
}

fn first_bad_link(roads: u128, nodes: u128, links: &[Arc]) -> Option<usize>
    ensures { result ≡ position (λ link. not (joins_layers roads nodes link)) links.now }
{
    links
        .iter()
        .position(|link| !joins_layers(roads, nodes, link))
}

fn row_fault(kind: Kind, bad: Option<u64>, unsorted: Option<u64>) -> Option<NetFault>
    ensures { result ≡ end_or_order_fault kind bad unsorted }
{
    match (bad, unsorted) {
        (None, None) => None,
        (Some(row), None) => Some(NetFault::BadEnd { kind, row }),
        (None, Some(row)) => Some(NetFault::OutOfOrder { kind, row }),
        (Some(bad), Some(unsorted)) if bad <= unsorted => Some(NetFault::BadEnd { kind, row: bad }),
        (Some(_), Some(row)) => Some(NetFault::OutOfOrder { kind, row }),
    }
}

fn unsorted_fault(kind: Kind, unsorted: Option<u64>) -> Option<NetFault>
    ensures { result ≡ unsorted_fault kind unsorted }
{
    unsorted.map(|row| NetFault::OutOfOrder { kind, row })
}

/// How many nodes there are.
pub(crate) fn node_count(parts: &Parts) -> u128
    ensures { result ≡ length (nodes_of parts.now) }
{
    parts.roads.len() as u128 + parts.stops.len() as u128 + parts.switches.len() as u128
}

/// What there are too many of.
fn count_fault(caps: &Caps, parts: &Parts) -> Option<NetFault>
    ensures { result ≡ count_fault caps.now parts.now }
{
    let kind = if u128::from(caps.nodes) < node_count(parts) {
        Kind::Nodes
    } else if caps.stops < parts.stops.len() as u64 {
        Kind::Stops
    } else if caps.arcs < parts.arcs.len() as u64 {
        Kind::Arcs
    } else if caps.links < parts.links.len() as u64 {
        Kind::Links
    } else {
        return None;
    };
    Some(NetFault::TooMany { kind })
}

/// The first rule of nodes, arcs and links that the parts break.
pub(crate) fn lists_fault(caps: &Caps, parts: &Parts) -> Option<NetFault>
    ensures { result ≡ lists_fault caps.now parts.now }
{
    count_fault(caps, parts)
        .or_else(|| unsorted_fault(Kind::Nodes, first_unsorted(&parts.roads)))
        .or_else(|| unsorted_fault(Kind::Stops, first_unsorted(&parts.stop_names)))
        .or_else(|| unsorted_fault(Kind::Nodes, first_unsorted(&parts.switches)))
        .or_else(|| arcs_fault(parts))
        .or_else(|| links_fault(parts))
}

fn arcs_fault(parts: &Parts) -> Option<NetFault>
    ensures { result ≡ arcs_fault parts.now }
{
    let bad = first_bad_arc(&parts.roads, &parts.arcs).map(|row| row as u64);
    row_fault(Kind::Arcs, bad, first_unsorted(&parts.arcs))
}

fn links_fault(parts: &Parts) -> Option<NetFault>
    ensures { result ≡ links_fault parts.now }
{
    let bad = first_bad_link(parts.roads.len() as u128, node_count(parts), &parts.links).map(
        |row| row as u64,
    );
    row_fault(Kind::Links, bad, first_unsorted(&parts.links))
}

/// A duration is a `u32`, so it is below 2^32 ms.
fn has_duration(arc: &Arc)
    ensures { arc.now.ms < 2 ^ 32 }
{
    let _ms = arc.ms;
}

/// Each arc has a duration below 2^32 ms.
fn have_durations(arcs: &[Arc])
    ensures { HaveDurations arcs.now }
{
    for arc in arcs {
        has_duration(arc);
    }
}

fn is_name(name: &Name)
    ensures { is_name name.now ≡ true }
{
    let _ = name.as_bytes();
}

/// Each name is a name, since its type lets no other be one.
fn have_names(names: &[Name])
    ensures { AreNames names.now }
{
    for name in names {
        is_name(name);
    }
}

fn has_name(trip: &Trip)
    ensures { is_name trip.now.name ≡ true }
{
    is_name(&trip.name);
}

/// Each trip has a name.
fn have_named_trips(trips: &[Trip])
    ensures { AreNamed trips.now }
{
    for trip in trips {
        has_name(trip);
    }
}

/// What the types of the parts keep: each duration is short, and each name is one.
pub(crate) fn known(parts: &Parts)
    ensures arcs { HaveDurations parts.now.arcs }
    ensures links { HaveDurations parts.now.links }
    ensures stops { AreNames parts.now.stop_names }
    ensures trips { AreNamed parts.now.trips }
{
    have_durations(&parts.arcs);
    have_durations(&parts.links);
    have_names(&parts.stop_names);
    have_named_trips(&parts.trips);
}
