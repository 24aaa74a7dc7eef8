//! The verdict on a hierarchy.

ghost use Rattle.std.specs.Prelude.{◌≡◌, IfOk};
ghost use Rattle.hierarchy.specs.Lists.{HierarchyLists};
ghost use Rattle.hierarchy.specs.Soundness.{IsSound};
ghost use Rattle.hierarchy.specs.FirstBroken.{IsSoundnessVerdict};
ghost use Rattle.hierarchy_check.specs.Nodes.{HasNodes, IsNodesVerdict};

use crate::bridges::first_unbridged;
use crate::entries::{first_across_layers, first_uncovered, first_unmade};
use crate::order::first_misplaced;
use hierarchy::{Entry, Hierarchy, Verdict};
use mode_network::Network;
use std::alloc::{AllocError, Global};

/// Whether a hierarchy is sound for a network, or the first clause that fails at its least place. The clauses are
/// those of [`Verdict`]. It takes a byte for each node of the network, and time in proportion to the pairs of entries around
/// contracted nodes and the length of their witnesses, times a logarithm.
pub fn check(alloc: Global, network: &Network, h: &Hierarchy) -> Result<Verdict, AllocError>
    ensures verdict { IfOk result (IsSoundnessVerdict network.now h.now) }
    ensures sound { IsSound network.now h.now → IfOk result (λ verdict. verdict ≡ Verdict.Sound) }
{
    first_broken(alloc, network, h)
}

/// The clauses, tried in turn.
fn first_broken(alloc: Global, network: &Network, h: &Hierarchy) -> Result<Verdict, AllocError>
    ensures { IfOk result (IsSoundnessVerdict network.now h.now) }
{
    match check_nodes(alloc, network, h.order(), h.entries())? {
        Verdict::Sound => Ok(check_ways(network, h)),
        Verdict::Broken { clause, at, by } => Ok(Verdict::Broken { clause, at, by }),
    }
}

/// The verdict by the clauses that say which nodes an order and entries may name, 1 and 5. Where both hold, a hierarchy with
/// them has tables no longer than the network has nodes.
pub fn check_nodes(
    alloc: Global,
    network: &Network,
    order: &[u32],
    entries: &[Entry],
) -> Result<Verdict, AllocError>
    ensures { (h : HierarchyLists) → h.order ≡ order.now → h.entries ≡ entries.now
        → IfOk result (IsNodesVerdict network.now h) }
{
    match first_misplaced(alloc, network, order)? {
        Some(at) => Ok(broken(1, at)),
        None => match first_across_layers(network, entries) {
            Some(at) => Ok(broken(5, at)),
            None => Ok(Verdict::Sound),
        },
    }
}

/// The verdict on a hierarchy that keeps the clauses 1 and 5, by the others.
pub fn check_ways(network: &Network, h: &Hierarchy) -> Verdict
    requires { HasNodes network.now h.now }
    ensures { IsSoundnessVerdict network.now h.now result }
{
    if let Some(at) = first_uncovered(network, h) {
        return broken(2, at);
    }
    if let Some(at) = first_unmade(network, h) {
        return broken(3, at);
    }
    match first_unbridged(network.nodes(), h) {
        Some((_, at, by)) => Verdict::Broken { clause: 4, at, by },
        None => Verdict::Sound,
    }
}

fn broken(clause: u8, at: u64) -> Verdict
    ensures { result ≡ Verdict.Broken clause at 0 }
{
    Verdict::Broken { clause, at, by: 0 }
}
