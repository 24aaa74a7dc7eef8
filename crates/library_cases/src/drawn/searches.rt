//! What a search answers, beside the enumeration of all walks.

ghost use Rattle.std.specs.Prelude.{◌↔◌, ◌<◌, ◌≤◌, All, IsTrue, IfSome};

use super::enumerate::{HORIZON, first_arrival, first_labels, reached_by};
use super::town::Asked;
use case_script::{Answer, words};
use product_search::{Found, Hop, Machine, Question, Walk, search};
use search_laws::{Graph, LETTERS, Labels, Time};
use std::alloc::Global;

/// `searches COUNT`: how many searches over so many drawn graphs, over each without a bound and with one, answer what the
/// enumeration of all walks does.
pub fn searches(out: &mut Answer, count: &[u8]) {
    let (mut same, mut searches) = (0u32, 0u32);
    for seed in 0..words::node(count).min(1000) {
        let asked = Asked::new(seed);
        let last = 5 + seed % 20;
        let plain = is_enumerated(out.alloc(), &asked, None, HORIZON - 1);
        let bounded = is_enumerated(out.alloc(), &asked, Some(Time::from(last)), last);
        searches = searches.saturating_add(2);
        same = same.saturating_add(u32::from(plain) + u32::from(bounded));
    }
    out.shown("", same);
    out.shown(" of ", searches);
    out.text(" searches answer what the enumeration of all walks does");
}

/// Whether the nodes are below a limit.
pub fn all_below(nodes: &[u32], limit: u32) -> bool
    ensures { IsTrue result ↔ All (λ v. v < limit) nodes.now }
{
    nodes.iter().all(|v| *v < limit)
}

/// Whether a search with a bound, if there is one, finds the arrival up to `last` and the labels of the enumeration, and a walk
/// that arrives then.
fn is_enumerated(alloc: Global, asked: &Asked, bound: Option<Time>, last: u32) -> bool
    requires bound { IfSome bound (λ b. 5 ≤ b) }
    requires last { last < 60 }
{
    match found_by(alloc, asked, bound) {
        Some(found) => is_answer(alloc, asked, last, &found),
        None => false,
    }
}

/// What a search finds.
pub fn found_by(alloc: Global, asked: &Asked, bound: Option<Time>) -> Option<Found>
    requires bound { IfSome bound (λ b. 5 ≤ b) }
{
    let town = &asked.town;
    let (starts, targets) = (&asked.starts, &asked.targets);
    if !all_below(starts, town.nodes) || !all_below(targets, town.nodes) {
        return None;
    }
    let machine = Machine::new(alloc, asked.rules).ok()?;
    let question = Question {
        graph: town,
        machine: &machine,
        starts,
        targets,
        dep: Time::from(asked.dep),
        bound,
        meets_few: asked.dep % 2 == 1,
    };
    search(alloc, &question).ok()
}

/// Whether this is what the enumeration answers up to `last`.
fn is_answer(alloc: Global, asked: &Asked, last: u32, found: &Found) -> bool
    requires { last < 60 }
{
    let reached = reached_by(alloc, asked);
    let arrival = first_arrival(&reached, asked, last);
    let labels = first_labels(alloc, &reached, asked, arrival.unwrap_or(last + 1));
    is_at(found.arrival, arrival)
        && found.labels.as_slice() == labels.as_slice()
        && is_walked(asked, found)
}

/// Whether a time is this moment, or there is neither.
fn is_at(time: Option<Time>, moment: Option<u32>) -> bool {
    match (time, moment) {
        (Some(time), Some(moment)) => time == Time::from(moment),
        (None, None) => true,
        _ => false,
    }
}

/// Whether the walk that was found leads from a start at the departure to a target at the arrival, in an accepting state; or
/// there is neither.
fn is_walked(asked: &Asked, found: &Found) -> bool {
    match &found.walk {
        Some(walk) => {
            walk.at == Time::from(asked.dep)
                && asked.starts.contains(&walk.node)
                && is_arrived(asked, found.arrival, end_of(asked, walk))
        }
        None => found.arrival.is_none(),
    }
}

/// Whether this is a target at the arrival, in an accepting state.
fn is_arrived(asked: &Asked, arrival: Option<Time>, end: Option<(u32, u32, Time)>) -> bool {
    match end {
        Some((node, state, at)) => {
            Some(at) == arrival
                && asked.targets.contains(&node)
                && state < asked.rules.states()
                && asked.rules.accepts(state)
        }
        None => false,
    }
}

/// Where a walk ends, if each of its hops is one of the graph.
fn end_of(asked: &Asked, walk: &Walk) -> Option<(u32, u32, Time)> {
    let (mut node, mut state, mut at) = (walk.node, walk.state, walk.at);
    if state >= asked.rules.states() || !asked.rules.is_start(state) {
        return None;
    }
    for hop in &walk.hops {
        if !is_hop(asked, node, state, at, *hop) {
            return None;
        }
        (node, state, at) = (hop.to, hop.state, hop.at);
    }
    Some((node, state, at))
}

/// Whether a hop leads on from a node, a state and a time.
fn is_hop(asked: &Asked, node: u32, state: u32, at: Time, hop: Hop) -> bool {
    let town = &asked.town;
    if node >= town.nodes() || hop.arc >= town.arcs(node) || at >= 1000 {
        return false;
    }
    let arc = town.arc_at(node, hop.arc);
    let fits = match arc.letter {
        None => hop.state == state,
        Some(letter) => has_move(asked, state, letter, hop.state),
    };
    fits && arc.to == hop.to && town.arrive(node, hop.arc, at) == Some(hop.at)
}

/// Whether a state has a move by this letter to another one.
fn has_move(asked: &Asked, state: u32, letter: u8, to: u32) -> bool {
    let rules = &asked.rules;
    if state >= rules.states() || letter >= LETTERS as u8 {
        return false;
    }
    for j in 0..rules.moves(state) {
        let step = rules.move_at(state, j);
        if step.letters >> letter & 1 == 1 && step.to == to {
            return true;
        }
    }
    false
}
