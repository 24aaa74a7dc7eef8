//! Arcs that are read before their turn.

ghost use Rattle.std.specs.Prelude.{◌≡◌};

use crate::frontier::Frontier;
use search_laws::Graph;

/// How many nodes are looked at at a time. From 4 to 16 it hardly matters.
const AHEAD: usize = 8;

/// Reads the letters and the first steady arcs of the nodes that come up next, each time that so many are left over, so that
/// they are there when these are explored: memory is waited for once, and not once for each of them. What was read is put
/// together with what was read before. Nothing asks what that is; but as long as it is kept the reads are made.
#[inline(always)]
pub(crate) fn read_ahead<G: Graph>(graph: &G, frontier: &Frontier, before: u32) -> u32 {
    if frontier.queue.left() % AHEAD != 0 {
        return before;
    }
    let nodes = graph.nodes();
    let mut read = before;
    for item in frontier.queue.next(AHEAD) {
        if let Some(row) = frontier.rows.get(item.row as usize) {
            read ^= first_steady(graph, nodes, row.node);
        }
    }
    read
}

/// Where the first steady arc of a node leads, if there is one, put together with the letter of them all.
#[inline(always)]
fn first_steady<G: Graph>(graph: &G, nodes: u32, v: u32) -> u32
    requires { nodes ≡ (G.meaning graph.now).nodes }
{
    if v >= nodes {
        return 0;
    }
    let steady = graph.steady(v);
    let letter = u32::from(steady.letter.unwrap_or(0));
    match steady.legs.first() {
        None => letter,
        Some(leg) => leg.to ^ letter,
    }
}
