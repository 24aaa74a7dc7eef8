//! The search for the least arrivals at many targets.

ghost use Rattle.std.specs.Prelude.{◌≡◌, ◌<◌, ◌^◌, All, IfOk, map};
ghost use Rattle.product_search.specs.Arrivals.{AreArrivals};
ghost use Rattle.product_search.specs.inside.Noting.{AreAllTimes, time_of};
ghost use Rattle.product_search.specs.inside.Waiting.{IsFrontier};

use crate::ahead::read_ahead;
use crate::chains::Chains;
use crate::explore::explore;
use crate::frontier::Frontier;
use crate::machine::Machine;
use crate::start::offer_starts;
use crate::targets::{Noted, TargetTable};
use crate::workspace::Workspace;
use search_laws::{GivenRuns, Graph, Labels, Time};
use std::alloc::{AllocError, Global};

/// For each target, in order, the least arrival over all walks from a start at `dep` to that target that the automaton accepts, if
/// there is one. The search ends when no target can be reached sooner, or nothing is left.
///
/// No time of the answer is above `dep + 2^98`. Memory is taken where the workspace takes it. Fails as [`crate::search`] does.
pub fn search_arrivals<G: Graph, L: Labels>(
    workspace: &mut Workspace,
    graph: &G,
    machine: &Machine<L>,
    starts: &[u32],
    targets: &TargetTable,
    dep: Time,
) -> Result<Vec<Option<Time>>, AllocError>
    requires starts { All (λ v. v < (G.meaning graph.now).nodes) starts.now }
    requires dep { dep < 2 ^ 64 }
    ensures { IfOk result (λ times. AreArrivals (G.meaning graph.now) (L.automaton machine.now.labels)
        starts.now targets.now.nodes.items dep times.items) }
{
    let alloc = workspace.allocator();
    let kept = workspace.take(alloc);
    let arrived = reach_targets(kept, graph, machine, starts, targets, dep)?;
    let Arrived {
        frontier,
        noted,
        read,
    } = arrived;
    workspace.put(frontier, read);
    let list = listed(alloc, targets, &noted)?;
    Ok(list)
}

/// What a search has reached, and when each target was reached, by its place in the table.
#[derive(Drop)]
struct Arrived {
    frontier: Frontier,
    noted: Noted,
    /// What was read ahead.
    read: u32,
}

/// Explores product states from the starts on. When all targets are reached in an accepting state, it goes on up to the latest
/// of these times alone.
fn reach_targets<G: Graph, L: Labels>(
    workspace: Workspace,
    graph: &G,
    machine: &Machine<L>,
    starts: &[u32],
    targets: &TargetTable,
    dep: Time,
) -> Result<Arrived, AllocError>
    requires starts { All (λ v. v < (G.meaning graph.now).nodes) starts.now }
    requires dep { dep < 2 ^ 64 }
    ensures right { IfOk result (λ a. IsFrontier a.frontier) }
    ensures times { IfOk result (λ a. AreAllTimes (G.meaning graph.now) (L.automaton machine.now.labels)
        starts.now dep targets.now.places.items a.noted.times.items) }
{
    let alloc = workspace.allocator();
    let mut noted = Noted::none(alloc, targets)?;
    let chains = Chains::of(graph.nodes(), machine.labels.states(), false);
    let workspace = workspace.with_room(graph.nodes())?;
    let mut frontier = Frontier::new(workspace, chains, dep as u64, u64::MAX);
    offer_starts(&mut frontier, &machine.labels, starts)?;
    let mut given = GivenRuns::new(alloc);
    let mut ways = Vec::new(alloc);
    let mut read = 0;
    'search: while let Some(scan) = frontier.take()? {
        if noted.note_end(&machine.labels, targets, &frontier, scan) {
            frontier.until = frontier.until.min(noted.latest);
        }
        read = read_ahead(graph, &frontier, read);
        explore(&mut frontier, &mut given, &mut ways, graph, machine, scan)?;
    }
    Ok(Arrived {
        frontier,
        noted,
        read,
    })
}

/// When each target was reached, in the order in which they are listed.
fn listed(
    alloc: Global,
    targets: &TargetTable,
    noted: &Noted,
) -> Result<Vec<Option<Time>>, AllocError>
    ensures { IfOk result (λ list. list.items ≡ map (time_of targets.now.places.items noted.now.times.items)
        targets.now.nodes.items) }
{
    let mut list = Vec::new(alloc);
    for node in &targets.nodes {
        list.push(noted.time_of(targets, *node))?;
    }
    Ok(list)
}
