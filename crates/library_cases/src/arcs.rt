//! The graph of a network, and its timetable.

ghost use Rattle.std.specs.Prelude.{◌≡◌, ◌<◌, Some, IfSome};
ghost use Rattle.search_laws.specs.GraphLaws.{HasArc};
ghost use Rattle.plain_graph.specs.PlainArcs.{plain_meaning};

use crate::parts;
use case_script::{Answer, words};
use mode_network::{Journey, Network};
use plain_graph::Plain;
use plan_base::Time;
use product_search::{Hop, Walk};
use search_laws::Graph;
use timetable_arcs::{Instance, Timetable};
use unpack::from_plain;

/// `arcs REGION T`: the arcs out of each node, and when each arrives that is taken at this time.
pub fn arcs(out: &mut Answer, network: &Network, time: &[u8]) {
    let plain = Plain::new(network);
    out.text("the arcs of the graph");
    for v in 0..plain.nodes() {
        print_arcs(out, &plain, v, Time::from(words::number(time)));
    }
}

fn print_arcs(out: &mut Answer, plain: &Plain<'_>, v: u32, t: Time) {
    if v >= plain.nodes() || t >= 1_000_000_000_000_000_000_000 {
        return;
    }
    for i in 0..plain.arcs(v) {
        let arc = plain.arc_at(v, i);
        out.shown("\n", v);
        out.shown(", ", i);
        out.debug(": ", plain.plain_arc(v, i));
        out.shown(" to ", arc.to);
        out.debug(", letter ", arc.letter);
        out.debug(", ride ", plain.ride(v, i));
        out.debug(", arrives ", plain.arrive(v, i, t));
    }
}

/// `unpacked REGION V T I`: the steps of the walk by the arc at place I of those out of a node, taken at a time.
pub fn unpacked(out: &mut Answer, network: &Network, words: &[u8]) {
    let (node, at) = (parts::node(words, 0), Time::from(parts::number(words, 1)));
    let plain = Plain::new(network);
    match hop(&plain, node, at, parts::number(words, 2)) {
        Some(hop) => print_walk(out, &plain, node, at, hop),
        None => out.text("no arc, or it never arrives"),
    }
}

/// Prints the steps of the walk from a node by a hop.
fn print_walk(out: &mut Answer, plain: &Plain<'_>, node: u32, at: Time, hop: Hop)
    requires has { HasArc (plain_meaning plain.now.network.now plain.now.timetable.now) node hop.arc }
    requires arrives { (plain_meaning plain.now.network.now plain.now.timetable.now).arrive node hop.arc at
        ≡ Some hop.at }
    requires to { hop.to ≡ ((plain_meaning plain.now.network.now plain.now.timetable.now).arc_at node
        hop.arc).to }
{
    if let Ok(hops) = vec![in out.alloc(); hop] {
        let walk = Walk {
            node,
            state: 0,
            at,
            hops,
        };
        if let Ok(journey) = from_plain(out.alloc(), plain, &walk) {
            print_journey(out, &journey);
        }
    }
}

fn print_journey(out: &mut Answer, journey: &Journey) {
    out.shown("from ", journey.start);
    out.shown(" at ", journey.at);
    out.debug(": ", &journey.steps);
}

/// The hop by the arc at place `i` of those out of `v`, taken at `t`.
fn hop(plain: &Plain<'_>, v: u32, t: Time, i: u64) -> Option<Hop>
    ensures has { IfSome result (λ h. HasArc (plain_meaning plain.now.network.now
        plain.now.timetable.now) v h.arc) }
    ensures arrives { IfSome result (λ h. (plain_meaning plain.now.network.now plain.now.timetable.now).arrive
        v h.arc t ≡ Some h.at) }
    ensures to { IfSome result (λ h. h.to ≡ ((plain_meaning plain.now.network.now
        plain.now.timetable.now).arc_at v h.arc).to) }
{
    if v >= plain.nodes() || t >= 1_000_000_000_000_000_000_000 {
        return None;
    }
    if i >= plain.arcs(v) {
        return None;
    }
    let to = plain.arc_at(v, i).to;
    match plain.arrive(v, i, t) {
        Some(at) => Some(Hop {
            arc: i,
            to,
            state: 0,
            at,
        }),
        None => None,
    }
}

/// `patterns REGION`: the patterns of the timetable, and the rides from each stop.
pub fn patterns(out: &mut Answer, network: &Network) {
    let table = network.timetable();
    out.shown("", table.patterns());
    out.text(" patterns");
    for p in 0..table.patterns() {
        out.shown("\n", p);
        out.shown(": letter ", table.pattern_letter(p));
        out.shown(", ", table.pattern_calls(p).len());
        out.text(" calls");
    }
    for v in 0..network.nodes() {
        if let Some(stop) = network.stop_at(v) {
            print_rides(out, table, stop);
        }
    }
}

/// The places to board at a stop, and its rides.
fn print_rides(out: &mut Answer, table: &Timetable, stop: u32)
    requires { stop < table.now.stops }
{
    for board in table.boards(stop) {
        out.shown("\nstop ", stop);
        out.debug(": ", board);
    }
    for i in 0..table.rides(stop) {
        out.shown("\nstop ", stop);
        out.debug(": ", table.ride(stop, i));
    }
}

/// `runs REGION PATTERN CALL TIME`: the next run of a pattern that leaves a call at a time or later, and the last that is there by then.
pub fn runs(out: &mut Answer, network: &Network, words: &[u8]) {
    let (p, call) = (parts::node(words, 0), parts::node(words, 1));
    let time = Time::from(parts::number(words, 2));
    let table = network.timetable();
    if p >= table.patterns() || call as usize >= table.pattern_calls(p).len() {
        out.text("no such call");
    } else {
        print_run(out, "next ", table.next(p, call, time));
        print_run(out, ", last ", table.last(p, call, time));
    }
}

fn print_run(out: &mut Answer, before: &str, run: Option<Instance>) {
    out.text(before);
    match run {
        Some(run) => {
            out.shown("trip ", run.trip);
            out.shown(" of day ", run.day);
        }
        None => out.text("none"),
    }
}
