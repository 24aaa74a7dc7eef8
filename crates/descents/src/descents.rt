//! Times all over a network by one search or by rounds, and one sweep.

ghost use Rattle.std.specs.Prelude.{IfOk, IfSome, IsTrue};
ghost use Rattle.hierarchy.specs.Soundness.{IsSound};
ghost use Rattle.cores.specs.{IsSoundOnCore};
ghost use Rattle.descents.specs.Over.{AreRoundsOver};
ghost use Rattle.descents.specs.Served.{IsServedOn};

use crate::above::nodes_above;
use crate::delays::{Delays, NEVER, delays_of};
use hierarchy::Hierarchy;
use mode_network::Network;
use phase_graph::{GraphInUse, MarkTable};
use product_search::{Label, Machine, Question, search};
use rounds::Rounds;
use search_laws::{Labels, RoadLabels, Time};
use std::alloc::{AllocError, Global};
use sweeps::Slope;

/// The ways up and along the core of a hierarchy, and those down from there to some targets.
///
/// Where the core is contracted once more, rounds find what is reached up and along it, else a search does.
#[derive(Drop)]
pub struct Descents<'a> {
    pub network: &'a Network,
    pub hierarchy: &'a Hierarchy,
    /// The phase graph for no targets, in which nothing leads down.
    graph: GraphInUse<'a>,
    /// The nodes from which something leads down to the targets.
    slope: Slope,
    /// The rounds over the core, if it is contracted.
    rounds: Option<Rounds<'a>>,
}

impl<'a> Descents<'a> {
    ghost use Rattle.std.specs.Prelude.{◌≡◌, ◌<◌, ◌^◌, [], All, None, IfOk, IfSome, length};
    ghost use Rattle.cores.specs.{IsSoundOnCore};
    ghost use Rattle.descents.specs.Descents.{AreDescents, IsServed, AreStarts};
    ghost use Rattle.descents.specs.NodeArrivals.{AreNodeArrivals};
    ghost use Rattle.phase_graph.specs.{PhaseArcs.node_of, InUseGraph.meaning_in_use};
    ghost use Rattle.product_search.specs.{Listed.AreLeastLabels, Closed.IsClosed};
    ghost use Rattle.descents.specs.inside.Delaying.{AreReachedBefore, AreSwept, IsDelayAt, AreTimesAfter};

    /// The descents of a hierarchy, which is sound for the network, to some targets, and over one of its core, if there is one, which
    /// is sound for the network of that. None where one of the targets is no node of the network, or where an entry that leads down to
    /// them takes 2^32 ms or longer.
    pub fn new(
        alloc: Global,
        network: &'a Network,
        hierarchy: &'a Hierarchy,
        core: Option<&Hierarchy>,
        targets: &[u32],
    ) -> Result<Option<Descents<'a>>, AllocError>
        requires sound { IsSound network.now hierarchy.now }
        requires core { IfSome core (λ k. IsSoundOnCore network.now hierarchy.now k.now) }
        ensures is { IfOk result (λ made. IfSome made AreDescents) }
        ensures network { IfOk result (λ made. IfSome made (λ d. d.network.now ≡ network.now)) }
        ensures hierarchy { IfOk result (λ made. IfSome made (λ d. d.hierarchy.now ≡ hierarchy.now)) }
        ensures targets { IfOk result (λ made. IfSome made (λ d. All (IsServed d) targets.now)) }
    {
        hierarchy.known();
        let nodes = nodes_above(alloc, network.nodes(), hierarchy, targets)?;
        let Some(slope) = Slope::new(alloc, hierarchy, nodes)? else {
            return Ok(None);
        };
        for v in targets {
            if !serves(network, hierarchy, &slope, *v) {
                return Ok(None);
            }
        }
        let mut marks = MarkTable::new(alloc);
        let graph = GraphInUse::new(alloc, &mut marks, network, Some(hierarchy), &[])?;
        let rounds = rounds_over(alloc, network, hierarchy, core)?;
        Ok(Some(Descents {
            network,
            hierarchy,
            graph,
            slope,
            rounds,
        }))
    }

    /// For each of these numbers in a phase graph, in order, the least arrival at its node, before the descent or in it, over all
    /// walks that leave a start at `dep` and that the automaton accepts, in the phase graph for any targets among which the node is.
    /// The starts are numbers, too. None where a time may not fit 32 bits.
    pub fn arrivals<L: RoadLabels>(
        &self,
        alloc: Global,
        machine: &Machine<L>,
        starts: &[u32],
        ends: &[u32],
        dep: Time,
    ) -> Result<Option<Vec<Option<Time>>>, AllocError>
        requires is { AreDescents self.now }
        requires starts { AreStarts self.now starts.now }
        requires early { dep < 2 ^ 64 }
        requires ends { All (λ p. IsServed self.now (node_of p)) ends.now }
        ensures { IfOk result (λ found. IfSome found (λ times. AreNodeArrivals self.now.network.now
            self.now.hierarchy.now (L.automaton machine.now.labels) starts.now dep ends.now times.items)) }
    {
        self.network.known();
        self.hierarchy.known();
        let labels = self.labels(alloc, machine, starts, dep)?;
        let Some(delays) = delays_of(
            alloc,
            &machine.labels,
            self.network,
            &self.slope,
            &labels,
            dep,
        )?
        else {
            return Ok(None);
        };
        let Delays { ends: before, tops } = delays;
        let Some(after) = self.swept(tops) else {
            return Ok(None);
        };
        let times = self.times_at(alloc, &before, &after, ends, dep)?;
        Ok(Some(times))
    }

    /// All product states that are reached before any descent, each with times at which it is, of which one is the least: by the
    /// rounds, if there are some and they answer, else by a search.
    fn labels<L: RoadLabels>(
        &self,
        alloc: Global,
        machine: &Machine<L>,
        starts: &[u32],
        dep: Time,
    ) -> Result<Vec<Label>, AllocError>
        requires is { AreDescents self.now }
        requires starts { AreStarts self.now starts.now }
        requires early { dep < 2 ^ 64 }
        ensures { IfOk result (λ labels. AreReachedBefore self.now.network.now self.now.hierarchy.now
            (L.automaton machine.now.labels) starts.now dep labels.items) }
    {
        if let Some(rounds) = &self.rounds {
            if let Some(labels) = rounds.labels(alloc, machine, starts, dep)? {
                return Ok(labels);
            }
        }
        self.network.known();
        self.hierarchy.known();
        let labels = self.searched(alloc, machine, starts, dep)?;
        Ok(labels)
    }

    /// The least arrivals of all product states that are reached before any descent, by a search.
    fn searched<L: Labels>(
        &self,
        alloc: Global,
        machine: &Machine<L>,
        starts: &[u32],
        dep: Time,
    ) -> Result<Vec<Label>, AllocError>
        requires starts { All (λ p. p < (meaning_in_use self.now.graph).nodes) starts.now }
        requires early { dep < 2 ^ 64 }
        ensures least { IfOk result (λ labels. AreLeastLabels (meaning_in_use self.now.graph)
            (L.automaton machine.now.labels) starts.now dep None None labels.items) }
        ensures closed { IfOk result (λ labels. IsClosed (meaning_in_use self.now.graph)
            (L.automaton machine.now.labels) starts.now [] dep None labels.items) }
    {
        let question = Question {
            graph: &self.graph,
            machine,
            starts,
            targets: &[],
            dep,
            bound: None,
            meets_few: true,
        };
        let found = search(alloc, &question)?;
        Ok(found.labels)
    }

    /// The delays after a descent, by place, where these are the ones before it. None where one may not fit.
    fn swept(&self, mut delays: Vec<u32>) -> Option<Vec<u32>>
        requires { length delays.items ≡ length self.now.slope.nodes.items }
        ensures { IfSome result (λ after. AreSwept self.now.slope delays.items after.items) }
    {
        self.slope.sweep_down(&mut delays);
        if self.slope.has_room(&delays) {
            Some(delays)
        } else {
            None
        }
    }

    /// The arrivals at the nodes of these numbers, where these are the delays before any descent, by node, and after one, by place.
    fn times_at(
        &self,
        alloc: Global,
        before: &[u32],
        after: &[u32],
        ends: &[u32],
        dep: Time,
    ) -> Result<Vec<Option<Time>>, AllocError>
        requires early { dep < 2 ^ 64 }
        requires before { All (λ p. node_of p < length before.now) ends.now }
        requires after { length after.now ≡ length self.now.slope.nodes.items }
        ensures { IfOk result (λ times. AreTimesAfter self.now.slope.nodes.items before.now after.now dep ends.now
            times.items) }
    {
        let mut times = Vec::with_capacity(alloc, ends.len())?;
        for end in ends {
            times.push(self.arrival_at(before, after, *end / 2, dep))?;
        }
        Ok(times)
    }

    /// The arrival at a node.
    fn arrival_at(&self, before: &[u32], after: &[u32], v: u32, dep: Time) -> Option<Time>
        requires early { dep < 2 ^ 64 }
        requires before { v < length before.now }
        requires after { length after.now ≡ length self.now.slope.nodes.items }
        ensures { IsDelayAt self.now.slope.nodes.items before.now after.now v dep result }
    {
        let mut delay = before[v as usize];
        if let Some(place) = self.slope.place_of(v) {
            delay = delay.min(after[place as usize]);
        }
        if delay == NEVER {
            None
        } else {
            Some(dep + Time::from(delay))
        }
    }
}

/// The rounds over a hierarchy and one of its core, if there is one and there are such rounds.
fn rounds_over<'a>(
    alloc: Global,
    network: &'a Network,
    hierarchy: &'a Hierarchy,
    core: Option<&Hierarchy>,
) -> Result<Option<Rounds<'a>>, AllocError>
    requires sound { IsSound network.now hierarchy.now }
    requires core { IfSome core (λ k. IsSoundOnCore network.now hierarchy.now k.now) }
    ensures { IfOk result (λ made. IfSome made (AreRoundsOver network.now hierarchy.now)) }
{
    match core {
        Some(core) => Rounds::new(alloc, network, hierarchy, core),
        None => Ok(None),
    }
}

/// Whether a node is one of the network's, and on the slope if it is contracted.
fn serves(network: &Network, hierarchy: &Hierarchy, slope: &Slope, v: u32) -> bool
    ensures { IsTrue result → IsServedOn network.now hierarchy.now slope.now.nodes.items v }
{
    v < network.nodes() && (!hierarchy.contracted(v) || slope.place_of(v).is_some())
}
