//! A best journey for a query.

ghost use Rattle.std.specs.Prelude.{◌≡◌, ◌<◌, ◌≤◌, All, IfOk, IfSome, Some, length, option_map};
ghost use Rattle.std.proofs.Props.{props};
ghost use Rattle.automaton.specs.Meanings.{position_meaning};
ghost use Rattle.hierarchy.specs.Soundness.{IsSound};
ghost use Rattle.journey.specs.Best.{asked_by};
ghost use Rattle.phase_graph.specs.InUseGraph.{meaning_in_use, network_in, hierarchy_in};
ghost use Rattle.planning.specs.Arrivals.{IsBestArrival};
ghost use Rattle.planning.specs.Plans.{IsRead, IsPlan, AreTheLabels, IsCertifiable, both, route_of};
ghost use Rattle.planning.specs.inside.Searched.{IsSearchSpace, IsWalkOf, IsJourneyUnder};
ghost use Rattle.planning.specs.Settled.{IsLabelCount, told_count};
ghost use Rattle.planning.specs.Limits.{SearchHasAtMost, SearchHasMore};
ghost use Rattle.product_search.specs.Limits.{IfEnded, IfStopped};

use automaton::{Collapsed, Positions, positions_accept};
use hierarchy::Hierarchy;
use journey::{Query, copies};
use kept_automata::{Expressed, Forward, Room};
use mode_network::{Journey, Network};
use phase_graph::{GraphInUse, ends_in, starts_in};
use plan_base::Time;
use product_search::{
    Best, Found, FoundWithCount, Label, Limited, Question, Walk, search_best_with,
    search_counted_within, search_within,
};
use std::alloc::{AllocError, Global};
use unpack::from_graph;

/// What is found for a query: a best journey and when it arrives, if any journey answers, and the labels of the search.
#[derive(Drop)]
pub struct FoundPlan {
    pub best: Option<(Time, Journey)>,
    pub labels: Vec<Label>,
}

/// A best journey for a query, if any journey answers; and how many labels the search had, if it was over a hierarchy.
#[derive(Drop)]
pub struct BestPlan {
    pub journey: Option<Journey>,
    pub settled: u64,
}

/// What a search for a query goes over: the graph in use, from the starts to the ends, and an automaton for the
/// expression.
#[derive(Drop)]
struct Searched<'a> {
    graph: GraphInUse<'a>,
    expressed: Expressed<Forward>,
    starts: Vec<u32>,
    ends: Vec<u32>,
    ghost starts_there: { All (λ v. v < (meaning_in_use graph).nodes) starts.items } by { Prim.hlevel props },
}

impl Searched<'_> {
    ghost use Rattle.std.specs.Prelude.{◌≡◌, ◌<◌, ◌^◌, All, None};
    ghost use Rattle.automaton.specs.Collapsed.{collapsed};
    ghost use Rattle.product_search.specs.Questions.{question_of};

    /// The question for the least arrival at an end, for this departure.
    fn question(&self, depart: Time) -> Question<'_, GraphInUse<'_>, Collapsed<Positions>>
        requires { depart < 2 ^ 64 }
        ensures { question_of result ≡ record {
          graph = meaning_in_use self.now.graph;
          labels = collapsed (position_meaning self.now.expressed.made.labels.inner);
          starts = self.now.starts.items;
          targets = self.now.ends.items;
          dep = depart;
          bound = None;
        } }
    {
        Question {
            graph: &self.graph,
            machine: &self.expressed.made,
            starts: &self.starts,
            targets: &self.ends,
            dep: depart,
            bound: None,
            meets_few: matches!(self.graph, GraphInUse::Phases(_)),
        }
    }

    /// Gives back to a room what it is to keep for the next query.
    fn give_back(self, room: &mut Room) -> Result<(), AllocError> {
        self.graph.give_back(&mut room.marks);
        room.kept.put(self.expressed)
    }
}

/// A best journey for a query, or none exactly where no journey answers it. Over a hierarchy, which is sound for the
/// network, it also counts the labels of the search; without one it counts none. The search uses the room.
pub fn find_best(
    alloc: Global,
    room: &mut Room,
    network: &Network,
    hierarchy: Option<&Hierarchy>,
    query: &Query,
) -> Result<BestPlan, AllocError>
    requires sound { IfSome hierarchy (λ h. IsSound network.now h.now) }
    requires read { IsRead network.now query.now }
    ensures journey { IfOk result (λ best. IsPlan network.now (asked_by query.now) best.journey) }
    ensures settled { IfOk result (λ best. IsLabelCount network.now (option_map (λ h. h.now) hierarchy.entry)
        (asked_by query.now) best.settled) }
{
    let found = find_best_within(alloc, room, network, hierarchy, query, None)?;
    Ok(found.into_answer())
}

/// The same as [`find_best`], but stopped where the search has more labels than the limit, if there is one, and there
/// alone.
pub fn find_best_within(
    alloc: Global,
    room: &mut Room,
    network: &Network,
    hierarchy: Option<&Hierarchy>,
    query: &Query,
    limit: Option<u64>,
) -> Result<Limited<BestPlan>, AllocError>
    requires sound { IfSome hierarchy (λ h. IsSound network.now h.now) }
    requires read { IsRead network.now query.now }
    ensures journey { IfEnded result (λ best. IsPlan network.now (asked_by query.now) best.journey) }
    ensures settled { IfEnded result (λ best. IsLabelCount network.now
        (option_map (λ h. h.now) hierarchy.entry) (asked_by query.now) best.settled) }
    ensures few { IfEnded result (λ best. IfSome limit (SearchHasAtMost network.now
        (option_map (λ h. h.now) hierarchy.entry) (asked_by query.now))) }
    ensures stopped { IfStopped result (λ most. (limit ≡ Some most)
        × SearchHasMore network.now (option_map (λ h. h.now) hierarchy.entry) (asked_by query.now) most) }
{
    if hierarchy.is_none() && limit.is_none() {
        let journey = find_plain(alloc, room, network, query)?;
        return Ok(Limited::Ended(BestPlan {
            journey,
            settled: 0,
        }));
    }
    find_counted(alloc, room, network, hierarchy, query, limit)
}

/// The count of labels that is told: that over a hierarchy.
fn told_count(hierarchy: Option<&Hierarchy>, labels: u64) -> u64
    ensures { result ≡ told_count (option_map (λ h. h.now) hierarchy.entry) labels }
{
    match hierarchy {
        None => 0,
        Some(_) => labels,
    }
}

/// When a best journey for a query arrives, or none exactly where no journey answers it. The hierarchy is sound for the
/// network. The search uses the room.
pub fn best_arrival(
    alloc: Global,
    room: &mut Room,
    network: &Network,
    hierarchy: Option<&Hierarchy>,
    query: &Query,
) -> Result<Option<Time>, AllocError>
    requires sound { IfSome hierarchy (λ h. IsSound network.now h.now) }
    requires read { IsRead network.now query.now }
    ensures { IfOk result (IsBestArrival network.now (asked_by query.now)) }
{
    network.known();
    let searched = prepared(alloc, room, network, hierarchy, query)?;
    let found = search_best_with(alloc, &mut room.workspace, &searched.question(query.depart))?;
    searched.give_back(room)?;
    let Best { arrival, walk: _ } = found;
    Ok(arrival)
}

/// A best journey for a query over the network's graph. The search uses the room.
fn find_plain(
    alloc: Global,
    room: &mut Room,
    network: &Network,
    query: &Query,
) -> Result<Option<Journey>, AllocError>
    requires { IsRead network.now query.now }
    ensures { IfOk result (IsPlan network.now (asked_by query.now)) }
{
    network.known();
    let searched = prepared(alloc, room, network, None, query)?;
    let found = search_best_with(alloc, &mut room.workspace, &searched.question(query.depart))?;
    let Best { arrival: _, walk } = found;
    let route = unpacked(alloc, &searched.graph, &walk)?;
    searched.give_back(room)?;
    Ok(route)
}

/// A best journey for a query over the graph in use, and the count of labels that is told. The search counts them, and is
/// stopped where there are more than the limit, if there is one. It uses the room.
fn find_counted(
    alloc: Global,
    room: &mut Room,
    network: &Network,
    hierarchy: Option<&Hierarchy>,
    query: &Query,
    limit: Option<u64>,
) -> Result<Limited<BestPlan>, AllocError>
    requires sound { IfSome hierarchy (λ h. IsSound network.now h.now) }
    requires read { IsRead network.now query.now }
    ensures journey { IfEnded result (λ best. IsPlan network.now (asked_by query.now) best.journey) }
    ensures settled { IfEnded result (λ best. IsLabelCount network.now
        (option_map (λ h. h.now) hierarchy.entry) (asked_by query.now) best.settled) }
    ensures few { IfEnded result (λ best. IfSome limit (SearchHasAtMost network.now
        (option_map (λ h. h.now) hierarchy.entry) (asked_by query.now))) }
    ensures stopped { IfStopped result (λ most. (limit ≡ Some most)
        × SearchHasMore network.now (option_map (λ h. h.now) hierarchy.entry) (asked_by query.now) most) }
{
    network.known();
    let searched = prepared(alloc, room, network, hierarchy, query)?;
    let found = search_counted_within(
        alloc,
        &mut room.workspace,
        &searched.question(query.depart),
        limit,
    )?;
    let FoundWithCount {
        arrival: _,
        labels,
        walk,
    } = match found {
        Limited::Ended(found) => found,
        Limited::Stopped(most) => {
            searched.give_back(room)?;
            return Ok(Limited::Stopped(most));
        }
    };
    let journey = unpacked(alloc, &searched.graph, &walk)?;
    searched.give_back(room)?;
    Ok(Limited::Ended(BestPlan {
        journey,
        settled: told_count(hierarchy, labels),
    }))
}

/// A best journey for a query and when it arrives, or none exactly where no journey answers it; and exactly the labels of
/// the search over the network's graph, or, where a hierarchy is given, over its phase graph. The hierarchy is sound for the
/// network; which one it is changes no arrival. A certificate of these is valid.
pub fn find_plan(
    alloc: Global,
    network: &Network,
    hierarchy: Option<&Hierarchy>,
    query: &Query,
) -> Result<FoundPlan, AllocError>
    requires sound { IfSome hierarchy (λ h. IsSound network.now h.now) }
    requires read { IsRead network.now query.now }
    ensures journey { IfOk result (λ found. IsPlan network.now (asked_by query.now) (route_of found.best)) }
    ensures labels { IfOk result (λ found. AreTheLabels network.now (option_map (λ h. h.now) hierarchy.entry)
        (asked_by query.now) found.labels.items) }
    ensures certifiable { IfOk result (λ found. IsCertifiable network.now
        (option_map (λ h. h.now) hierarchy.entry) query.now found.best found.labels.items) }
{
    let mut room = Room::new(alloc);
    let found = find_plan_within(alloc, &mut room, network, hierarchy, query, None)?;
    Ok(found.into_answer())
}

/// The same as [`find_plan`], but stopped where the search has more labels than the limit, if there is one, and there
/// alone. The search uses what the room keeps.
pub fn find_plan_within(
    alloc: Global,
    room: &mut Room,
    network: &Network,
    hierarchy: Option<&Hierarchy>,
    query: &Query,
    limit: Option<u64>,
) -> Result<Limited<FoundPlan>, AllocError>
    requires sound { IfSome hierarchy (λ h. IsSound network.now h.now) }
    requires read { IsRead network.now query.now }
    ensures journey { IfEnded result (λ found. IsPlan network.now (asked_by query.now)
        (route_of found.best)) }
    ensures labels { IfEnded result (λ found. AreTheLabels network.now
        (option_map (λ h. h.now) hierarchy.entry) (asked_by query.now) found.labels.items) }
    ensures certifiable { IfEnded result (λ found. IsCertifiable network.now
        (option_map (λ h. h.now) hierarchy.entry) query.now found.best found.labels.items) }
    ensures few { IfEnded result (λ found. IfSome limit (λ most. length found.labels.items ≤ most)) }
    ensures stopped { IfStopped result (λ most. (limit ≡ Some most)
        × SearchHasMore network.now (option_map (λ h. h.now) hierarchy.entry) (asked_by query.now) most) }
{
    network.known();
    let searched = prepared(alloc, room, network, hierarchy, query)?;
    let found = search_within(alloc, &searched.question(query.depart), limit)?;
    let Found {
        arrival,
        labels,
        walk,
    } = match found {
        Limited::Ended(found) => found,
        Limited::Stopped(most) => {
            searched.give_back(room)?;
            return Ok(Limited::Stopped(most));
        }
    };
    let journey = unpacked(alloc, &searched.graph, &walk)?;
    searched.give_back(room)?;
    let best = with_arrival(arrival, journey);
    Ok(Limited::Ended(FoundPlan { best, labels }))
}

/// What a search for a query goes over.
fn prepared<'a>(
    alloc: Global,
    room: &mut Room,
    network: &'a Network,
    hierarchy: Option<&'a Hierarchy>,
    query: &Query,
) -> Result<Searched<'a>, AllocError>
    requires sound { IfSome hierarchy (λ h. IsSound network.now h.now) }
    requires read { IsRead network.now query.now }
    ensures is { IfOk result (λ s. IsSearchSpace network.now (option_map (λ h. h.now) hierarchy.entry)
        query.now (meaning_in_use s.graph) (position_meaning s.expressed.made.labels.inner) s.starts.items
        s.ends.items) }
    ensures network { IfOk result (λ s. network_in s.graph ≡ network.now) }
    ensures hierarchy { IfOk result (λ s. hierarchy_in s.graph ≡ option_map (λ h. h.now) hierarchy.entry) }
{
    network.known();
    positions_accept();
    let expressed = room.kept.take(alloc, Forward, query)?;
    let origins = copies(alloc, network, &query.from)?;
    let targets = copies(alloc, network, &query.to)?;
    let graph = GraphInUse::new(alloc, &mut room.marks, network, hierarchy, &targets)?;
    let starts = starts_in(alloc, hierarchy, &origins)?;
    let ends = ends_in(alloc, hierarchy, &targets)?;
    Ok(Searched {
        graph,
        expressed,
        starts,
        ends,
    })
}

/// The journey under a walk that was found, if one was.
fn unpacked(
    alloc: Global,
    graph: &GraphInUse<'_>,
    walk: &Option<Walk>,
) -> Result<Option<Journey>, AllocError>
    requires { IsWalkOf (meaning_in_use graph.now) walk.now }
    ensures { IfOk result (IsJourneyUnder (network_in graph.now) (hierarchy_in graph.now)
        (meaning_in_use graph.now) walk.now) }
{
    match walk {
        Some(walk) => {
            let journey = from_graph(alloc, graph, walk)?;
            Ok(Some(journey))
        }
        None => Ok(None),
    }
}

/// A journey with its arrival, where there are both.
fn with_arrival(arrival: Option<Time>, journey: Option<Journey>) -> Option<(Time, Journey)>
    ensures { result ≡ both arrival journey }
{
    match (arrival, journey) {
        (Some(arrival), Some(journey)) => Some((arrival, journey)),
        _ => None,
    }
}
