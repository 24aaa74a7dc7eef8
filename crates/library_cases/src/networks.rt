//! Region texts and their networks.

use crate::{arcs, calendars, certificates, hierarchies, parts, places, queries};
use case_script::{Answer, Script, words};
use mode_network::{Bytes, Endpoint, Network};
use plain_texts::read_id;
use plan_base::Caps;
use region_file::{Format, decode, encode};
use std::alloc::{AllocError, Global};
use timetable_arcs::{Call, Trip};

/// `region TEXT [KIND MOST]`: the first fault of a region text, or whether its network is written as the same text.
pub fn region(out: &mut Answer, script: &Script, words: &[u8]) {
    let text = script.text(parts::word(words, 0));
    let caps = words::caps(parts::behind(words, 1));
    match decode(out.alloc(), text, &caps) {
        Ok(network) => {
            let written = encode(out.alloc(), &network, Format::Text);
            let same = parts::is_text(written, text);
            out.shown("a network, written as the same text: ", same);
        }
        Err(fault) => out.debug("", &fault),
    }
}

/// What a call answers of the network of the region that its first word names.
pub fn of_network(out: &mut Answer, script: &Script, call: &str, words: &[u8]) {
    let text = script.text(parts::word(words, 0));
    match decode(out.alloc(), text, &Caps::FULL) {
        Ok(network) => answer(out, script, &network, call, parts::behind(words, 1)),
        Err(fault) => out.debug("", &fault),
    }
}

fn answer(out: &mut Answer, script: &Script, network: &Network, call: &str, words: &[u8]) {
    match call {
        "network" => print_network(out, network),
        "times" => times(out, network, words),
        "near" => near(out, network, words),
        "copies" => copies(out, network, words),
        "arcs" => arcs::arcs(out, network, words),
        "unpacked" => arcs::unpacked(out, network, words),
        "patterns" => arcs::patterns(out, network),
        "runs" => arcs::runs(out, network, words),
        "query" => queries::query(out, network, words),
        "contracted" => hierarchies::contracted(out, network, words),
        "witness" => hierarchies::witness(out, network, words),
        "journey" => certificates::journey(out, network, script.text(words)),
        "verdict" => certificates::verdict(out, network, script.text(words)),
        _ => out.break_off("no such call"),
    }
}

/// `network REGION`: what a network says of its days, nodes and trips.
fn print_network(out: &mut Answer, network: &Network) {
    calendars::print_range(out, network.days());
    out.shown("; ", network.nodes());
    out.shown(" nodes, ", network.arcs().len());
    out.shown(" arcs, ", network.links().len());
    out.text(" links");
    for v in 0..network.nodes() {
        print_node(out, network, v);
    }
    for trip in network.timetable().trips() {
        print_trip(out, trip);
    }
}

/// A node: its key, its mode, the places of its arcs and links, and whether it has a link; of a stop its name too.
fn print_node(out: &mut Answer, network: &Network, v: u32) {
    if v < network.nodes() {
        out.shown("\n", v);
        out.debug(": ", network.node(v).key);
        out.text(" ");
        print_name(out, network, v);
        out.debug("mode ", network.mode(v));
        out.debug(", arcs ", network.arcs_from(v));
        out.debug(", links ", network.links_from(v));
        out.shown(", linked ", network.has_link(v));
    }
}

fn print_name(out: &mut Answer, network: &Network, v: u32) {
    network.known();
    if let Some(stop) = network.stop_at(v) {
        out.bytes(network.stop_name(stop));
        let node = network.stop_node(stop);
        out.shown(" of node ", node);
        out.text(", ");
    }
}

fn print_trip(out: &mut Answer, trip: &Trip) {
    out.text("\ntrip ");
    out.bytes(trip.name.as_bytes());
    out.shown(" by ", trip.letter);
    out.hexadecimal(" on ", trip.days.0);
    out.text(":");
    for call in &trip.calls {
        print_call(out, call);
    }
}

fn print_call(out: &mut Answer, call: &Call) {
    out.shown(" ", call.stop);
    out.shown(" at ", call.arr);
    out.shown("-", call.dep);
    out.shown(" board ", call.board);
    out.shown(" alight ", call.alight);
    out.text(";");
}

/// `times REGION U V`: the durations of the arc and the link from one node to another.
fn times(out: &mut Answer, network: &Network, words: &[u8]) {
    let (u, v) = (parts::node(words, 0), parts::node(words, 1));
    out.debug("arc ", network.arc_ms(u, v));
    out.debug(", link ", network.link_ms(u, v));
}

/// `near REGION LAT LON`: the road node nearest to a place and how far it is, and the nodes that a query may mean by the place.
fn near(out: &mut Answer, network: &Network, words: &[u8]) {
    match places::place_at(words, 0) {
        Some(place) => {
            out.debug("nearest ", network.nearest_road(place));
            out.debug(", copies ", network.copies(&Endpoint::Near(place)));
        }
        None => out.text("no place"),
    }
}

/// `copies REGION ID NAME`: the nodes that a query may mean by an OSM id, and by a stop's name.
fn copies(out: &mut Answer, network: &Network, words: &[u8]) {
    let id = read_id(parts::word(words, 0)).unwrap_or(i64::MIN);
    out.debug("by id ", network.copies(&Endpoint::Road(id)));
    if let Ok(stop) = stop_named(out.alloc(), parts::behind(words, 1)) {
        out.debug(", by name ", network.copies(&stop));
    }
}

fn stop_named(alloc: Global, name: &[u8]) -> Result<Endpoint, AllocError> {
    Ok(Endpoint::Stop(Bytes::from(Vec::from_slice(alloc, name)?)))
}
