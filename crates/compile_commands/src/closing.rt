//! What people are told when a region has been compiled: what it consists of, what was left out of it, and what no journey
//! reaches. Nothing is proved of these notes.

use crate::parts::{Layer, layers};
use gtfs_tables::{CallRow, Feed};
use mode_expression::Letter;
use mode_network::Network;
use opl_reader::{Objects, OsmWay};
use plan_base::Sink;
use region_build::{LeftOut, Region};
use run_steps::tell;
use search_laws::LETTERS;
use std::alloc::{AllocError, Global};

/// What a map and a feed have that is in no region of them, and when the feed has service.
#[derive(Clone, Copy)]
pub(crate) struct Sources {
    /// Ways with no two placed nodes in a row.
    unplaced: u64,
    /// Rows of stop_times.txt that are no calls, up to the last one that is.
    untimed: u64,
    /// The first date with service and the last one, if there are any.
    service: Option<(u32, u32)>,
}

impl Sources {
    pub(crate) fn of(objects: &Objects, feed: &Feed) -> Sources {
        Sources {
            unplaced: unplaced_ways(&objects.ways),
            untimed: untimed_rows(&feed.calls),
            service: service_of(feed),
        }
    }
}

fn unplaced_ways(ways: &[OsmWay]) -> u64 {
    let mut count: u64 = 0;
    for way in ways {
        if way.pieces.as_slice().is_empty() {
            count = count.saturating_add(1);
        }
    }
    count
}

/// How many rows before the last call are no calls. The header is row 1.
fn untimed_rows(calls: &[CallRow]) -> u64 {
    match calls.last() {
        Some(call) => call
            .row
            .saturating_sub(1)
            .saturating_sub(calls.len() as u64),
        None => 0,
    }
}

/// The first date and the last one that a calendar or an added date names.
fn service_of(feed: &Feed) -> Option<(u32, u32)> {
    let mut span = None;
    for service in &feed.services {
        if service.rule.first <= service.rule.last {
            span = Some(widened(span, service.rule.first, service.rule.last));
        }
    }
    for date in &feed.dates {
        if date.added {
            span = Some(widened(span, date.date, date.date));
        }
    }
    span
}

fn widened(span: Option<(u32, u32)>, first: u32, last: u32) -> (u32, u32) {
    match span {
        Some((earliest, latest)) => (earliest.min(first), latest.max(last)),
        None => (first, last),
    }
}

/// Tells what a region consists of, whose file has so many bytes, and what came to nothing.
pub(crate) fn tell_closing<E: Sink>(
    alloc: Global,
    region: &Region,
    sources: Sources,
    bytes: usize,
    notes: &mut E,
) {
    let network = &region.network;
    tell(alloc, notes, size(alloc, network, region.left_out, bytes));
    tell_trips(alloc, network, notes);
    tell_unlinked(alloc, network, notes);
    tell_islands(alloc, network, notes);
    tell_unused(alloc, sources, notes);
    tell_dates(alloc, network, sources.service, notes);
}

fn size(
    alloc: Global,
    network: &Network,
    left_out: LeftOut,
    bytes: usize,
) -> Result<String, AllocError> {
    let nodes = network.nodes();
    let (arcs, links) = (network.arcs().len(), network.links().len());
    let (stops, trips) = (stops_of(network), network.timetable().trips().len());
    let LeftOut {
        short,
        idle,
        inexact,
        late,
        ..
    } = left_out;
    format!(in alloc;
        "{nodes} nodes, {arcs} road arcs, {links} links, {stops} stops and {trips} trips, in {bytes} bytes; left out are {short} trips with fewer than two calls, {idle} with no day of the region, {inexact} with a headway that is not exact, and {late} departures of trips that would end after 167:59:59"
    )
}

/// How many stops a network has.
fn stops_of(network: &Network) -> u32 {
    let mut stops: u32 = 0;
    for v in 0..network.nodes() {
        if network.stop_at(v).is_some() {
            stops = stops.saturating_add(1);
        }
    }
    stops
}

/// Tells how many trips there are by each means of transport, one line for each.
fn tell_trips<E: Sink>(alloc: Global, network: &Network, notes: &mut E) {
    for number in 3..LETTERS as u8 {
        if let Some(letter) = Letter::from_number(number) {
            let count = trips_by(network, letter);
            if count > 0 {
                let name = letter.name();
                tell(alloc, notes, format!(in alloc; "{count} trips by {name}"));
            }
        }
    }
}

fn trips_by(network: &Network, letter: Letter) -> u64 {
    let mut count: u64 = 0;
    for trip in network.timetable().trips() {
        if trip.letter == letter.number() {
            count = count.saturating_add(1);
        }
    }
    count
}

/// Tells how many stops and switches have no link, if there are any.
fn tell_unlinked<E: Sink>(alloc: Global, network: &Network, notes: &mut E) {
    let (mut stops, mut switches): (u32, u32) = (0, 0);
    for v in 0..network.nodes() {
        if network.mode(v).is_none() && !network.has_link(v) {
            match network.stop_at(v) {
                Some(_) => stops = stops.saturating_add(1),
                None => switches = switches.saturating_add(1),
            }
        }
    }
    if stops > 0 || switches > 0 {
        tell(
            alloc,
            notes,
            format!(in alloc;
                "no road lies within 500 m of {stops} stops and {switches} places to change between modes, so that they have no link"
            ),
        );
    }
}

/// Tells of each road layer that does not hang together how many nodes lie outside its largest part.
fn tell_islands<E: Sink>(alloc: Global, network: &Network, notes: &mut E) {
    let Ok(layers) = layers(alloc, network) else {
        return;
    };
    for number in 0..3 {
        if let (Some(mode), Some(layer)) = (
            Letter::from_number(number),
            layers.get(usize::from(number)),
        ) {
            tell_island(alloc, mode.name(), *layer, notes);
        }
    }
}

fn tell_island<E: Sink>(alloc: Global, mode: &str, layer: Layer, notes: &mut E) {
    let Layer { nodes, largest } = layer;
    let outside = nodes.saturating_sub(largest);
    if outside > 0 {
        tell(
            alloc,
            notes,
            format!(in alloc;
                "{outside} of the {nodes} nodes of the layer {mode} lie outside its largest connected part"
            ),
        );
    }
}

/// Tells what of the map and the feed is in no region, if there is anything.
fn tell_unused<E: Sink>(alloc: Global, sources: Sources, notes: &mut E) {
    let Sources {
        unplaced,
        untimed,
        ..
    } = sources;
    if unplaced > 0 {
        tell(
            alloc,
            notes,
            format!(in alloc;
                "{unplaced} ways of the map have no two nodes in a row that it places"
            ),
        );
    }
    if untimed > 0 {
        tell(
            alloc,
            notes,
            format!(in alloc; "{untimed} rows of stop_times.txt have no time, and are no calls"),
        );
    }
}

/// Tells when the feed has service, where a day of the region is before or after that.
fn tell_dates<E: Sink>(
    alloc: Global,
    network: &Network,
    service: Option<(u32, u32)>,
    notes: &mut E,
) {
    let Some((earliest, latest)) = service else {
        tell(
            alloc,
            notes,
            String::from_str(alloc, "the feed has no service on any date"),
        );
        return;
    };
    let days = network.days();
    days.known();
    let (first, last) = (days.first(), last_date(network));
    if first < earliest || latest < last {
        tell(
            alloc,
            notes,
            format!(in alloc;
                "the feed has service from {earliest} to {latest}, and the region's days are {first} to {last}"
            ),
        );
    }
}

/// The last date of a region.
fn last_date(network: &Network) -> u32 {
    let days = network.days();
    days.known();
    days.date(days.numbers().saturating_sub(1))
}
