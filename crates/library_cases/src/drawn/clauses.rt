//! The clauses of a closed list, each tried in turn at each place, with a search of the whole list for each label.

ghost use Rattle.std.specs.Prelude.{◌<◌};
ghost use Rattle.search_laws.specs.Letters.{IsLetter};

use super::town::Asked;
use product_search::{Label, LabelVerdict};
use search_laws::{Graph, Labels, Time};

/// The verdict by the clauses as they are told.
pub fn plain_verdict(asked: &Asked, arrival: Option<Time>, list: &[Label]) -> LabelVerdict {
    if let Some(at) = out_of_order(asked, arrival, list) {
        return LabelVerdict::Open { clause: 6, at };
    }
    if let Some(at) = unlisted_start(asked, arrival, list) {
        return LabelVerdict::Open { clause: 7, at };
    }
    if let Some(at) = at_target(asked, list) {
        return LabelVerdict::Open { clause: 8, at };
    }
    match unlisted_arc(asked, arrival, list) {
        Some(at) => LabelVerdict::Open { clause: 9, at },
        None => LabelVerdict::Closed,
    }
}

/// Whether the list has the product state by `at`.
fn has(list: &[Label], node: u32, state: u32, at: Time) -> bool {
    for x in list {
        if x.node == node && x.state == state && x.at <= at {
            return true;
        }
    }
    false
}

fn before(arrival: Option<Time>, at: Time) -> bool {
    match arrival {
        None => true,
        Some(first) => at < first,
    }
}

/// The first label that does not stand behind the one before it, is not before the arrival, or is of no product state.
fn out_of_order(asked: &Asked, arrival: Option<Time>, list: &[Label]) -> Option<u64> {
    for k in 0..list.len() {
        let x = list[k];
        let in_order = k == 0 || (list[k - 1].node, list[k - 1].state) < (x.node, x.state);
        if !in_order || !before(arrival, x.at) || !in_range(asked, x) {
            return Some(k as u64);
        }
    }
    None
}

fn in_range(asked: &Asked, x: Label) -> bool {
    x.node < asked.town.nodes() && x.state < asked.rules.states()
}

/// The first of the starts in a start state that is not listed, if the departure is before the arrival.
fn unlisted_start(asked: &Asked, arrival: Option<Time>, list: &[Label]) -> Option<u64> {
    let dep = Time::from(asked.dep);
    if !before(arrival, dep) {
        return None;
    }
    let mut count = 0u64;
    for v in &asked.starts {
        for q in 0..asked.rules.states() {
            if asked.rules.is_start(q) {
                if !has(list, *v, q, dep) {
                    return Some(count);
                }
                count = count.wrapping_add(1);
            }
        }
    }
    None
}

/// The first label at a target in an accepting state.
fn at_target(asked: &Asked, list: &[Label]) -> Option<u64> {
    for k in 0..list.len() {
        let x = list[k];
        if x.state < asked.rules.states()
            && asked.rules.accepts(x.state)
            && asked.targets.contains(&x.node)
        {
            return Some(k as u64);
        }
    }
    None
}

/// The first label out of which an arc leads to a product state before the arrival that is not listed.
fn unlisted_arc(asked: &Asked, arrival: Option<Time>, list: &[Label]) -> Option<u64> {
    for k in 0..list.len() {
        if !arcs_listed(asked, arrival, list, list[k]) {
            return Some(k as u64);
        }
    }
    None
}

fn arcs_listed(asked: &Asked, arrival: Option<Time>, list: &[Label], x: Label) -> bool {
    if x.node >= asked.town.nodes() || x.state >= asked.rules.states() || x.at > 1000 {
        return false;
    }
    for i in 0..asked.town.arcs(x.node) {
        if let Some(at) = asked.town.arrive(x.node, i, x.at) {
            if before(arrival, at) && !arc_listed(asked, list, x, i, at) {
                return false;
            }
        }
    }
    true
}

/// Whether all product states are listed to which the arc at place `i` leads out of a label, by when it arrives.
fn arc_listed(asked: &Asked, list: &[Label], x: Label, i: u64, at: Time) -> bool
    requires node { x.node < asked.now.town.nodes }
    requires state { x.state < asked.now.rules.states }
    requires arc { i < 3 }
{
    let arc = asked.town.arc_at(x.node, i);
    match arc.letter {
        None => has(list, arc.to, x.state, at),
        Some(letter) => moves_listed(asked, list, x.state, letter, arc.to, at),
    }
}

/// Whether all product states are listed to which the moves of a state by a letter lead, at a node by a time.
fn moves_listed(asked: &Asked, list: &[Label], state: u32, letter: u8, to: u32, at: Time) -> bool
    requires state { state < asked.now.rules.states }
    requires letter { IsLetter letter }
{
    for j in 0..asked.rules.moves(state) {
        let step = asked.rules.move_at(state, j);
        if step.letters >> letter & 1 == 1 && !has(list, to, step.to, at) {
            return false;
        }
    }
    true
}
