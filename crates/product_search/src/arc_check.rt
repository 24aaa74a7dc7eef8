//! Clause 9: what the arcs of each label lead to before the arrival is listed by then.

ghost use Rattle.std.specs.Prelude.{◌<◌, ◌^◌, ◌↔◌, All, Some, IfSome, IsTrue, IsBitSet, MatchOption, length};
ghost use Rattle.search_laws.specs.Times.{time_bound};
ghost use Rattle.search_laws.specs.Letters.{IsLetter};
ghost use Rattle.search_laws.specs.LabelLaws.{AllAfter};
ghost use Rattle.product_search.specs.Listed.{AreAscendingLabels};
ghost use Rattle.search_laws.specs.Firsts.{HoldsBelow, FailsFirstAt};
ghost use Rattle.product_search.specs.Closed.{IsListedBy, ArcIsListed, ArcsAreListed, ArcsAreListedAt};

use crate::label::Label;
use crate::listing::is_before;
use crate::lookup::is_listed;
use crate::moves::letters_after;
use search_laws::{Graph, GraphArc, Labels, Move, Time, is_open};

/// The first label with an arc that leads to an unlisted product state, or to one that is listed too late.
pub(crate) fn first_open_arcs<G: Graph, L: Labels>(
    graph: &G,
    labels: &L,
    arrival: Option<Time>,
    list: &[Label],
) -> Option<usize>
    requires times { All (λ x. x.at < time_bound) list.now }
    requires ascending { AreAscendingLabels list.now }
    requires in_range { All (λ x. (x.node < (G.meaning graph.now).nodes)
        × (x.state < (L.automaton labels.now).states)) list.now }
    ensures { MatchOption result (HoldsBelow (length list.now)
        (ArcsAreListedAt (G.meaning graph.now) (L.automaton labels.now) arrival list.now))
        (FailsFirstAt (length list.now) (ArcsAreListedAt (G.meaning graph.now) (L.automaton labels.now)
        arrival list.now)) }
{
    for k in 0..list.len() {
        if !arcs_are_listed(graph, labels, arrival, list, list[k]) {
            return Some(k);
        }
    }
    None
}

/// Whether all arcs of a label lead to what is listed. Those by which no move leaves its state are passed over, letter by letter.
fn arcs_are_listed<G: Graph, L: Labels>(
    graph: &G,
    labels: &L,
    arrival: Option<Time>,
    list: &[Label],
    label: Label,
) -> bool
    requires ascending { AreAscendingLabels list.now }
    requires node { label.node < (G.meaning graph.now).nodes }
    requires state { label.state < (L.automaton labels.now).states }
    requires time { label.at < 2 ^ 127 }
    ensures { IsTrue result ↔ ArcsAreListed (G.meaning graph.now) (L.automaton labels.now) arrival
        list.now label }
{
    let letters = letters_after(labels, label.state);
    let arcs = graph.arcs(label.node);
    let mut i = 0;
    'arcs: while i < arcs {
        let arc = graph.arc_at(label.node, i);
        if !is_open(letters, arc.letter) {
            i = graph.past_letter(label.node, i);
        } else if arc_is_listed(graph, labels, arrival, list, label, i) {
            i += 1;
        } else {
            return false;
        }
    }
    true
}

/// Whether one arc of a label leads to what is listed, if it arrives before the arrival.
fn arc_is_listed<G: Graph, L: Labels>(
    graph: &G,
    labels: &L,
    arrival: Option<Time>,
    list: &[Label],
    label: Label,
    i: u64,
) -> bool
    requires ascending { AreAscendingLabels list.now }
    requires node { label.node < (G.meaning graph.now).nodes }
    requires arc { i < (G.meaning graph.now).arcs label.node }
    requires state { label.state < (L.automaton labels.now).states }
    requires time { label.at < 2 ^ 127 }
    ensures { IsTrue result ↔ ArcIsListed (G.meaning graph.now) (L.automaton labels.now) arrival
        list.now label i }
{
    match graph.arrive(label.node, i, label.at) {
        None => true,
        Some(at) => {
            !is_before(arrival, at)
                || states_are_listed(labels, list, graph.arc_at(label.node, i), label.state, at)
        }
    }
}

/// Whether the node that an arc leads to is listed in each state after its letter.
fn states_are_listed<L: Labels>(
    labels: &L,
    list: &[Label],
    arc: GraphArc,
    state: u32,
    at: Time,
) -> bool
    requires ascending { AreAscendingLabels list.now }
    requires state { state < (L.automaton labels.now).states }
    requires letter { IfSome arc.letter IsLetter }
    ensures { IsTrue result ↔ AllAfter (L.automaton labels.now) state arc.letter
        (λ r. IsListedBy list.now arc.to r at) }
{
    match arc.letter {
        None => is_listed(list, arc.to, state, at),
        Some(letter) => moves_are_listed(labels, list, arc.to, state, letter, at),
    }
}

/// Whether a node is listed in each state that a move by the letter leads to.
fn moves_are_listed<L: Labels>(
    labels: &L,
    list: &[Label],
    to: u32,
    state: u32,
    letter: u8,
    at: Time,
) -> bool
    requires ascending { AreAscendingLabels list.now }
    requires state { state < (L.automaton labels.now).states }
    requires letter { IsLetter letter }
    ensures { IsTrue result ↔ AllAfter (L.automaton labels.now) state (Some letter)
        (λ r. IsListedBy list.now to r at) }
{
    for j in 0..labels.moves(state) {
        if !move_is_listed(list, labels.move_at(state, j), to, letter, at) {
            return false;
        }
    }
    true
}

/// Whether a node is listed in the state that a move leads to, if it is by the letter.
fn move_is_listed(list: &[Label], step: Move, to: u32, letter: u8, at: Time) -> bool
    requires ascending { AreAscendingLabels list.now }
    requires letter { IsLetter letter }
    ensures { IsTrue result ↔ (IsBitSet step.letters letter → IsListedBy list.now to step.to at) }
{
    !step.has_letter(letter) || is_listed(list, to, step.to, at)
}
