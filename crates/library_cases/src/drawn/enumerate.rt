//! All walks up to a horizon, by the definition: each moment, each node, each state, each wait, each arc.

ghost use Rattle.std.specs.Prelude.{◌<◌};
ghost use Rattle.search_laws.specs.Letters.{IsLetter};

use super::town::Asked;
use product_search::Label;
use search_laws::{Graph, Labels, Time};
use std::alloc::Global;
use std::collections::BTreeSet;

/// No arc of a drawn graph arrives later.
pub const HORIZON: u32 = 60;

/// The moments at which walks are at each node in each state. One that there is no memory for is missing, and then a search
/// answers otherwise.
type Reached = BTreeSet<(u32, u32, u32)>;

/// The moments at which walks from the starts at the departure are at each node in each state, up to the horizon.
pub fn reached_by(alloc: Global, asked: &Asked) -> Reached {
    let mut reached = BTreeSet::new(alloc);
    for start in &asked.starts {
        begin(&mut reached, asked, *start);
    }
    for t in asked.dep..HORIZON {
        settle(&mut reached, asked, t);
    }
    reached
}

/// Begins at a node in each start state.
fn begin(reached: &mut Reached, asked: &Asked, start: u32) {
    for q in 0..asked.rules.states() {
        if asked.rules.is_start(q) {
            let _ = reached.insert((asked.dep, start, q));
        }
    }
}

/// Goes on from all that is reached at `t`. Arcs that take no time may follow one another, at most through all product states.
fn settle(reached: &mut Reached, asked: &Asked, t: u32)
    requires { t < 60 }
{
    for _ in 0..20 {
        let before = reached.len();
        step(reached, asked, t);
        if reached.len() == before {
            break;
        }
    }
}

/// Goes on by a wait and by each arc from all that is reached at `t`.
fn step(reached: &mut Reached, asked: &Asked, t: u32)
    requires { t < 60 }
{
    for v in 0..asked.town.nodes() {
        for q in 0..asked.rules.states() {
            if reached.contains(&(t, v, q)) {
                leave(reached, asked, t, v, q);
            }
        }
    }
}

/// Goes on by a wait and by each arc out of a node.
fn leave(reached: &mut Reached, asked: &Asked, t: u32, v: u32, q: u32)
    requires time { t < 60 }
    requires node { v < asked.now.town.nodes }
    requires state { q < asked.now.rules.states }
{
    let _ = reached.insert((t + 1, v, q));
    for i in 0..asked.town.arcs(v) {
        if let Some(at) = asked.town.arrive(v, i, Time::from(t)) {
            let arc = asked.town.arc_at(v, i);
            match arc.letter {
                None => put(reached, at, arc.to, q),
                Some(letter) => read(reached, asked, at, arc.to, q, letter),
            }
        }
    }
}

/// Goes on by each move of a state by a letter, to a node at a time.
fn read(reached: &mut Reached, asked: &Asked, at: Time, to: u32, q: u32, letter: u8)
    requires state { q < asked.now.rules.states }
    requires letter { IsLetter letter }
{
    for j in 0..asked.rules.moves(q) {
        let step = asked.rules.move_at(q, j);
        if step.letters >> letter & 1 == 1 {
            put(reached, at, to, step.to);
        }
    }
}

fn put(reached: &mut Reached, at: Time, node: u32, state: u32) {
    if at <= 1000 {
        let _ = reached.insert((at as u32, node, state));
    }
}

/// The first moment up to `last` at which a target is reached in an accepting state.
pub fn first_arrival(reached: &Reached, asked: &Asked, last: u32) -> Option<u32>
    requires { last < 60 }
{
    for t in 0..last + 1 {
        for v in &asked.targets {
            if is_accepted(reached, asked, t, *v) {
                return Some(t);
            }
        }
    }
    None
}

/// Whether a node is reached at a moment in an accepting state.
fn is_accepted(reached: &Reached, asked: &Asked, t: u32, v: u32) -> bool {
    for q in 0..asked.rules.states() {
        if asked.rules.accepts(q) && reached.contains(&(t, v, q)) {
            return true;
        }
    }
    false
}

/// The first moment below `end` at which each node is reached in each state.
pub fn first_labels(alloc: Global, reached: &Reached, asked: &Asked, end: u32) -> Vec<Label> {
    let mut list = Vec::new(alloc);
    for node in 0..asked.town.nodes() {
        for state in 0..asked.rules.states() {
            if let Some(t) = first_moment(reached, node, state, end) {
                let at = Time::from(t);
                let _ = list.push(Label { node, state, at });
            }
        }
    }
    list
}

/// The first moment below `end` at which a node is reached in a state.
fn first_moment(reached: &Reached, node: u32, state: u32, end: u32) -> Option<u32> {
    for t in 0..end {
        if reached.contains(&(t, node, state)) {
            return Some(t);
        }
    }
    None
}
