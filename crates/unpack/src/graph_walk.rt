//! Walks through the graph in use.

ghost use Rattle.std.specs.Prelude.{◌≡◌, IfOk, All};
ghost use Rattle.phase_graph.specs.InUse.{node_under};
ghost use Rattle.phase_graph.specs.InUseGraph.{meaning_in_use, network_in, hierarchy_in};
ghost use Rattle.unpack.specs.Unpacking.{AreHopsIn, IsSoon, node_after, arrival_after};
ghost use Rattle.unpack.specs.PhaseUnpacking.{IsUnpacked, letters_in};

use crate::phase_walk::from_phases;
use crate::plain_walk::from_plain;
use mode_network::Journey;
use phase_graph::GraphInUse;
use product_search::Walk;
use std::alloc::{AllocError, Global};

/// The journey under a walk through the graph in use: by [`from_plain`], or, where a hierarchy is given, by
/// [`from_phases`].
pub fn from_graph(alloc: Global, graph: &GraphInUse<'_>, walk: &Walk) -> Result<Journey, AllocError>
    requires { AreHopsIn (meaning_in_use graph.now) walk.now.node walk.now.at walk.now.hops.items }
    ensures start { IfOk result (λ j. j.start ≡ node_under (hierarchy_in graph.now) walk.now.node) }
    ensures at { IfOk result (λ j. j.at ≡ walk.now.at) }
    ensures unpacked { IfOk result (λ j. IsUnpacked (network_in graph.now) j.start j.at j.steps
        (node_under (hierarchy_in graph.now) (node_after walk.now.node walk.now.hops.items))
        (arrival_after walk.now.at walk.now.hops.items) (letters_in (meaning_in_use graph.now) walk.now.node
        walk.now.hops.items)) }
    ensures soon { IfOk result (λ j. All IsSoon j.steps) }
{
    match graph {
        GraphInUse::Plain(plain) => from_plain(alloc, plain, walk),
        GraphInUse::Phases(phases) => from_phases(alloc, phases, walk),
    }
}
