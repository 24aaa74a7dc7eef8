//! When best journeys arrive at many destinations, found by one search.

ghost use Rattle.std.specs.Prelude.{◌≡◌, ◌<◌, ◌≤◌, ◌^◌, All, IfOk, IfSome, OnOk, length, map, option_map};
ghost use Rattle.hierarchy.specs.Soundness.{IsSound};
ghost use Rattle.mode_network.specs.NetworkLists.{nodes_of};
ghost use Rattle.planning.specs.Arrivals.{AreArrivalsTo};
ghost use Rattle.planning.specs.Plans.{IsRead};
ghost use Rattle.planning.specs.Destinations.{AddsDestination, AreCopiesTo, AreDestinations, AreListed};
ghost use Rattle.planning.specs.Destinations.{AreNumberArrivals, DescendTo, IsCoreIfGiven};
ghost use Rattle.planning.specs.Destinations.{earlier, earliest, earliest_in};

use automaton::positions_accept;
use descents::Descents;
use hierarchy::Hierarchy;
use journey::{Query, copies};
use kept_automata::{Forward, Room};
use mode_network::Network;
use phase_graph::{GraphInUse, MarkTable, ends_in, starts_in};
use plan_base::Time;
use product_search::{Machine, TargetTable, Workspace, search_arrivals};
use search_laws::RoadLabels;
use std::alloc::{AllocError, Global};

/// So many targets that are contracted are many.
const MANY: usize = 64;

/// Where the numbers of a destination's copies stand among those of all destinations: from a place to before another.
#[derive(Clone, Copy)]
struct Part {
    first: usize,
    end: usize,
}

/// The copies of destinations, their numbers in the graph in use, and which of these are whose.
#[derive(Drop)]
struct Listing {
    targets: Vec<u32>,
    numbers: Vec<u32>,
    parts: Vec<Part>,
}

/// The destinations of some queries, made ready so that one search finds when the best journeys arrive at each of them.
///
/// Where they are many and a hierarchy is given, the search goes up and along the core alone, and one sweep leads down from there. Where
/// one of its core is given as well, rounds over that take the place of the search.
#[derive(Drop)]
pub struct Destinations<'a> {
    pub network: &'a Network,
    pub hierarchy: Option<&'a Hierarchy>,
    pub queries: &'a [Option<Query>],
    graph: GraphInUse<'a>,
    table: TargetTable,
    parts: Vec<Part>,
    descents: Option<Descents<'a>>,
}

impl<'a> Destinations<'a> {
    /// The destinations of those queries that are there, on a network and over a hierarchy, if there is one, which is
    /// sound for it, and over one of its core, if there is one, which is sound for the network of that. The graph that is
    /// searched is made for all of them at once.
    pub fn new(
        alloc: Global,
        network: &'a Network,
        hierarchy: Option<&'a Hierarchy>,
        core: Option<&Hierarchy>,
        queries: &'a [Option<Query>],
    ) -> Result<Destinations<'a>, AllocError>
        requires sound { IfSome hierarchy (λ h. IsSound network.now h.now) }
        requires core { IsCoreIfGiven network.now (option_map (λ h. h.now) hierarchy)
            (option_map (λ k. k.now) core) }
        ensures ready { IfOk result AreDestinations }
        ensures network { IfOk result (λ d. d.network.now ≡ network.now) }
        ensures queries { IfOk result (λ d. d.queries.now ≡ queries.now) }
    {
        let Listing {
            targets,
            numbers,
            parts,
        } = listed(alloc, network, hierarchy, queries)?;
        let mut marks = MarkTable::new(alloc);
        let graph = GraphInUse::new(alloc, &mut marks, network, hierarchy, &targets)?;
        let table = TargetTable::new(alloc, numbers)?;
        let descents = descents_to(alloc, network, hierarchy, core, &targets)?;
        Ok(Destinations {
            network,
            hierarchy,
            queries,
            graph,
            table,
            parts,
            descents,
        })
    }

    /// When a best journey arrives that answers a query, but with each of these destinations in the place of its own:
    /// None where no journey answers, and where there is no destination. It is one search, which uses the room.
    pub fn arrivals(
        &self,
        alloc: Global,
        room: &mut Room,
        query: &Query,
    ) -> Result<Vec<Option<Time>>, AllocError>
        requires ready { AreDestinations self.now }
        requires read { IsRead self.now.network.now query.now }
        ensures { IfOk result (λ times. AreArrivalsTo self.now.network.now query.now self.now.queries.now
            times.items) }
    {
        self.network.known();
        positions_accept();
        let expressed = room.kept.take(alloc, Forward, query)?;
        let origins = copies(alloc, self.network, &query.from)?;
        let times = self.number_arrivals(
            alloc,
            &mut room.workspace,
            &expressed.made,
            &origins,
            query.depart,
        )?;
        room.kept.put(expressed)?;
        earliest_of_each(alloc, &self.parts, &times)
    }

    /// For each number in the table, in order, when it, or any number of its node, is reached first from these origins: by the
    /// descents, if there are some and the times fit them, else by a search over the whole graph.
    fn number_arrivals<L: RoadLabels>(
        &self,
        alloc: Global,
        workspace: &mut Workspace,
        machine: &Machine<L>,
        origins: &[u32],
        dep: Time,
    ) -> Result<Vec<Option<Time>>, AllocError>
        requires ready { AreDestinations self.now }
        requires origins { All (λ v. v < length (nodes_of self.now.network.now)) origins.now }
        requires early { dep < 2 ^ 64 }
        ensures { IfOk result (λ times. AreNumberArrivals self.now (L.automaton machine.now.labels)
            origins.now dep times.items) }
    {
        self.network.known();
        let starts = starts_in(alloc, self.hierarchy, origins)?;
        let (graph, table) = (&self.graph, &self.table);
        if let Some(descents) = &self.descents {
            if let Some(times) = descents.arrivals(alloc, machine, &starts, &table.nodes, dep)? {
                return Ok(times);
            }
        }
        search_arrivals(workspace, graph, machine, &starts, table, dep)
    }
}

/// The descents of a hierarchy, if there is one, to these targets, if many of them are contracted: then a sweep down to all of them at
/// once pays. To a few, a search that has marks for them ends sooner.
fn descents_to<'a>(
    alloc: Global,
    network: &'a Network,
    hierarchy: Option<&'a Hierarchy>,
    core: Option<&Hierarchy>,
    targets: &[u32],
) -> Result<Option<Descents<'a>>, AllocError>
    requires sound { IfSome hierarchy (λ h. IsSound network.now h.now) }
    requires core { IsCoreIfGiven network.now (option_map (λ h. h.now) hierarchy)
        (option_map (λ k. k.now) core) }
    ensures { IfOk result (λ made. IfSome made (DescendTo network.now
        (option_map (λ h. h.now) hierarchy.entry) targets.now)) }
{
    match hierarchy {
        Some(hierarchy) if has_many(hierarchy, targets) => {
            Descents::new(alloc, network, hierarchy, core, targets)
        }
        _ => Ok(None),
    }
}

/// Whether many of these nodes are contracted.
fn has_many(hierarchy: &Hierarchy, nodes: &[u32]) -> bool {
    nodes.iter().filter(|v| hierarchy.contracted(**v)).count() >= MANY
}

/// Lists the destinations of those queries that are there.
fn listed(
    alloc: Global,
    network: &Network,
    hierarchy: Option<&Hierarchy>,
    queries: &[Option<Query>],
) -> Result<Listing, AllocError>
    ensures { IfOk result (AreListed network.now (option_map (λ h. h.now) hierarchy.entry) queries.now) }
{
    let mut listing = Listing {
        targets: Vec::new(alloc),
        numbers: Vec::new(alloc),
        parts: Vec::new(alloc),
    };
    for query in queries {
        listing.add(alloc, network, hierarchy, query)?;
    }
    Ok(listing)
}

impl Listing {
    /// Lists the copies of a query's destination, or none where there is no query.
    fn add(
        &mut self,
        alloc: Global,
        network: &Network,
        hierarchy: Option<&Hierarchy>,
        query: &Option<Query>,
    ) -> Result<(), AllocError>
        ensures { OnOk result (AddsDestination network.now (option_map (λ h. h.now) hierarchy.entry) query.now
            self.old self.new) }
    {
        network.known();
        let copies = copies_to(alloc, network, query)?;
        let ends = ends_in(alloc, hierarchy, &copies)?;
        let first = self.numbers.len();
        self.targets.extend_from_slice(&copies)?;
        self.numbers.extend_from_slice(&ends)?;
        let end = self.numbers.len();
        self.parts.push(Part { first, end })?;
        Ok(())
    }
}

/// The copies of a query's destination, if there is a query.
fn copies_to(
    alloc: Global,
    network: &Network,
    query: &Option<Query>,
) -> Result<Vec<u32>, AllocError>
    ensures are { IfOk result (λ list. AreCopiesTo network.now query.now list.items) }
    ensures nodes { IfOk result (λ list. All (λ v. v < length (nodes_of network.now)) list.items) }
{
    match query {
        Some(query) => copies(alloc, network, &query.to),
        None => Ok(Vec::new(alloc)),
    }
}

/// The earliest time of each part.
fn earliest_of_each(
    alloc: Global,
    parts: &[Part],
    times: &[Option<Time>],
) -> Result<Vec<Option<Time>>, AllocError>
    requires { All (λ part. (part.first ≤ part.end) × (part.end ≤ length times.now)) parts.now }
    ensures { IfOk result (λ list. list.items ≡ map (earliest_in times.now) parts.now) }
{
    let mut list = Vec::with_capacity(alloc, parts.len())?;
    for part in parts {
        list.push(earliest(&times[part.first..part.end]))?;
    }
    Ok(list)
}

/// The earliest of some times, if there is one.
fn earliest(times: &[Option<Time>]) -> Option<Time>
    ensures { result ≡ earliest times.now }
{
    let mut first = None;
    for time in times {
        first = earlier(first, *time);
    }
    first
}

/// The earlier of two times, of which one may not be there.
fn earlier(a: Option<Time>, b: Option<Time>) -> Option<Time>
    ensures { result ≡ earlier a b }
{
    match (a, b) {
        (Some(a), Some(b)) => Some(a.min(b)),
        (None, other) | (other, None) => other,
    }
}
