//! What a search is asked.

ghost use Rattle.std.specs.Prelude.{◌<◌, ◌^◌, All};
ghost use Rattle.std.proofs.Props.{props};
ghost use Rattle.product_search.specs.Reach.{IsWithin};

use crate::machine::Machine;
use search_laws::{Graph, Labels, Time};

/// The question for the least arrival over all walks of the graph that leave a start at `dep`, in ms, that the automaton
/// accepts and that reach a target no later than `bound`, if there is one.
///
/// The starts are nodes. Starts and targets may be none, or hold a node twice. The departure is below 2^64 and within the bound.
///
/// `meets_few` tells that the search will come to few nodes of the graph, but to each in many states, as over a hierarchy. It
/// changes no answer: the search takes more memory for a node then, and finds a state of it sooner.
#[derive(Drop)]
pub struct Question<'a, G: Graph, L: Labels> {
    pub graph: &'a G,
    pub machine: &'a Machine<L>,
    pub starts: &'a [u32],
    pub targets: &'a [u32],
    pub dep: Time,
    pub bound: Option<Time>,
    pub meets_few: bool,
    pub ghost starts_there: { All (λ v. v < (G.meaning graph.now).nodes) starts.now } by { Prim.hlevel props },
    pub ghost early: { dep < 2 ^ 64 },
    pub ghost within: { IsWithin bound dep } by { Prim.hlevel props },
}
