//! Clause 6: each label is in range, before the arrival, and above the label before it.

ghost use Rattle.std.specs.Prelude.{◌<◌, ◌↔◌, IsTrue, MatchOption, length};
ghost use Rattle.product_search.specs.Listed.{IsBelow};
ghost use Rattle.search_laws.specs.Firsts.{HoldsBelow, FailsFirstAt};
ghost use Rattle.product_search.specs.Closed.{IsInOrderAt, IsInRange};

use crate::label::Label;
use crate::listing::is_before;
use search_laws::{Graph, Labels, Time};

/// The first place where a label is out of range or out of order.
pub(crate) fn first_out_of_order<G: Graph, L: Labels>(
    graph: &G,
    labels: &L,
    arrival: Option<Time>,
    list: &[Label],
) -> Option<usize>
    ensures { MatchOption result (HoldsBelow (length list.now)
        (IsInOrderAt (G.meaning graph.now) (L.automaton labels.now) arrival list.now))
        (FailsFirstAt (length list.now) (IsInOrderAt (G.meaning graph.now) (L.automaton labels.now) arrival
        list.now)) }
{
    for k in 0..list.len() {
        if !is_in_order_at(graph, labels, arrival, list, k) {
            return Some(k);
        }
    }
    None
}

/// Whether a label is in range and before the arrival.
fn is_in_range<G: Graph, L: Labels>(
    graph: &G,
    labels: &L,
    arrival: Option<Time>,
    label: Label,
) -> bool
    ensures { IsTrue result ↔ IsInRange (G.meaning graph.now) (L.automaton labels.now) arrival label }
{
    label.node < graph.nodes() && label.state < labels.states() && is_before(arrival, label.at)
}

/// Whether the label at place `k` is in range, and above the one before it.
fn is_in_order_at<G: Graph, L: Labels>(
    graph: &G,
    labels: &L,
    arrival: Option<Time>,
    list: &[Label],
    k: usize,
) -> bool
    requires { k < length list.now }
    ensures { IsTrue result ↔ IsInOrderAt (G.meaning graph.now) (L.automaton labels.now) arrival list.now k }
{
    is_in_range(graph, labels, arrival, list[k]) && (k == 0 || is_below(list[k - 1], list[k]))
}

/// Whether one label is before another in the order of a list.
fn is_below(first: Label, second: Label) -> bool
    ensures { IsTrue result ↔ IsBelow first second }
{
    (first.node, first.state) < (second.node, second.state)
}
