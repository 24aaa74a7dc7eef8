//! The graph that a query is answered over.

ghost use Rattle.std.specs.Prelude.{◌≡◌, ◌<◌, ◌^◌, ◌++◌, All, IfOk, IfSome, OnOk, false, option_map, map};
ghost use Rattle.std.specs.List.{flat_map};
ghost use Rattle.hierarchy.specs.Soundness.{IsSound};
ghost use Rattle.phase_graph.specs.Arcs.{phase_node};
ghost use Rattle.phase_graph.specs.InUse.{IsInUse, IsSoundIfGiven, starts_in, ends_in, target_numbers};

use crate::mark_table::MarkTable;
use crate::phases::{Phases, number_of};
use hierarchy::Hierarchy;
use mode_network::Network;
use plain_graph::Plain;
use search_laws::{GivenRuns, Graph, GraphArc, Steady, Time, Visit, Way};
use std::alloc::{AllocError, Global};

/// The graph of a network, or the phase graph of a hierarchy for some targets.
#[derive(Drop)]
pub enum GraphInUse<'a> {
    Plain(Plain<'a>),
    Phases(Phases<'a>),
}

impl<'a> GraphInUse<'a> {
    ghost use Rattle.phase_graph.specs.InUseGraph.{meaning_in_use, network_in, hierarchy_in};

    /// The graph that queries to these targets are answered over: the phase graph of the hierarchy, if one is given. Its
    /// marks are in the numbers of the table, which makes others until they are given back. Fails where memory runs out.
    pub fn new(
        alloc: Global,
        table: &mut MarkTable,
        network: &'a Network,
        hierarchy: Option<&'a Hierarchy>,
        targets: &[u32],
    ) -> Result<GraphInUse<'a>, AllocError>
        requires { IfSome hierarchy (λ h. IsSound network.now h.now) }
        ensures is { IfOk result (λ g. IsInUse network.now (option_map (λ h. h.now) hierarchy.entry)
            targets.now (meaning_in_use g)) }
        ensures sound { IfOk result (λ _. IsSoundIfGiven network.now
            (option_map (λ h. h.now) hierarchy.entry)) }
        ensures network { IfOk result (λ g. network_in g ≡ network.now) }
        ensures hierarchy { IfOk result (λ g. hierarchy_in g ≡ option_map (λ h. h.now) hierarchy.entry) }
    {
        match hierarchy {
            None => Ok(GraphInUse::Plain(Plain::new(network))),
            Some(hierarchy) => {
                hierarchy.known();
                let phases = Phases::new(alloc, table, network, hierarchy, targets)?;
                Ok(GraphInUse::Phases(phases))
            }
        }
    }

    /// Gives the numbers of its marks, if it has some, back to a table.
    pub fn give_back(self, table: &mut MarkTable) {
        match self {
            GraphInUse::Plain(_) => {}
            GraphInUse::Phases(phases) => phases.give_back(table),
        }
    }
}

impl Graph for GraphInUse<'_> {
    ghost use Rattle.phase_graph.specs.InUseGraph.{meaning_in_use, steady_in_use, rides_in_use, lawful_in_use};

    ghost meaning = { meaning_in_use };

    fn nodes(&self) -> u32 {
        match self {
            GraphInUse::Plain(plain) => plain.nodes(),
            GraphInUse::Phases(phases) => phases.nodes(),
        }
    }

    fn arcs(&self, v: u32) -> u64 {
        match self {
            GraphInUse::Plain(plain) => plain.arcs(v),
            GraphInUse::Phases(phases) => phases.arcs(v),
        }
    }

    fn arc_at(&self, v: u32, i: u64) -> GraphArc {
        match self {
            GraphInUse::Plain(plain) => plain.arc_at(v, i),
            GraphInUse::Phases(phases) => phases.arc_at(v, i),
        }
    }

    fn arrive(&self, v: u32, i: u64, t: Time) -> Option<Time> {
        match self {
            GraphInUse::Plain(plain) => plain.arrive(v, i, t),
            GraphInUse::Phases(phases) => phases.arrive(v, i, t),
        }
    }

    fn past_letter(&self, v: u32, i: u64) -> u64 {
        match self {
            GraphInUse::Plain(plain) => plain.past_letter(v, i),
            GraphInUse::Phases(phases) => phases.past_letter(v, i),
        }
    }

    ghost steady_count = { steady_in_use };

    #[inline(always)]
    fn steady(&self, v: u32) -> Steady<'_> {
        match self {
            GraphInUse::Plain(plain) => plain.steady(v),
            GraphInUse::Phases(phases) => phases.steady(v),
        }
    }

    ghost rides = { rides_in_use };

    #[inline(always)]
    fn may_have_fresh(&self, v: u32, letters: u32, leaving: u32) -> bool {
        match self {
            GraphInUse::Plain(plain) => plain.may_have_fresh(v, letters, leaving),
            GraphInUse::Phases(phases) => phases.may_have_fresh(v, letters, leaving),
        }
    }

    fn fresh_ways(
        &self,
        visit: Visit,
        given: &mut GivenRuns,
        ways: &mut Vec<Way>,
    ) -> Result<(), AllocError> {
        match self {
            GraphInUse::Plain(plain) => plain.fresh_ways(visit, given, ways),
            GraphInUse::Phases(phases) => phases.fresh_ways(visit, given, ways),
        }
    }

    ghost lawful = { lawful_in_use };
}

/// The nodes at which a search for ways from these origins starts, in their order: the numbers before the descent, if a
/// hierarchy is given. Fails where memory runs out.
pub fn starts_in(
    alloc: Global,
    hierarchy: Option<&Hierarchy>,
    origins: &[u32],
) -> Result<Vec<u32>, AllocError>
    requires { All (λ v. v < 2 ^ 31) origins.now }
    ensures { IfOk result (λ starts. starts.items ≡ starts_in (option_map (λ h. h.now) hierarchy.entry)
        origins.now) }
{
    match hierarchy {
        None => Ok(Vec::from_slice(alloc, origins)?),
        Some(_) => numbers_before(alloc, origins),
    }
}

/// The numbers of nodes before the descent.
fn numbers_before(alloc: Global, nodes: &[u32]) -> Result<Vec<u32>, AllocError>
    requires { All (λ v. v < 2 ^ 31) nodes.now }
    ensures { IfOk result (λ numbers. numbers.items ≡ map (λ v. phase_node v false) nodes.now) }
{
    let mut numbers = Vec::with_capacity(alloc, nodes.len())?;
    for v in nodes {
        numbers.push(number_of(*v, false))?;
    }
    Ok(numbers)
}

/// The nodes at which a search for ways to these targets ends: the numbers before the descent, and in it those of the
/// contracted ones, if a hierarchy is given. Fails where memory runs out.
pub fn ends_in(
    alloc: Global,
    hierarchy: Option<&Hierarchy>,
    targets: &[u32],
) -> Result<Vec<u32>, AllocError>
    requires { All (λ v. v < 2 ^ 31) targets.now }
    ensures { IfOk result (λ ends. ends.items ≡ ends_in (option_map (λ h. h.now) hierarchy.entry)
        targets.now) }
{
    match hierarchy {
        None => Ok(Vec::from_slice(alloc, targets)?),
        Some(hierarchy) => numbers_in(alloc, hierarchy, targets),
    }
}

/// The numbers of targets in the phase graph.
fn numbers_in(alloc: Global, hierarchy: &Hierarchy, targets: &[u32]) -> Result<Vec<u32>, AllocError>
    requires { All (λ v. v < 2 ^ 31) targets.now }
    ensures { IfOk result (λ ends. ends.items ≡ flat_map (target_numbers hierarchy.now) targets.now) }
{
    let mut ends = Vec::with_capacity(alloc, targets.len())?;
    for v in targets {
        push_numbers(hierarchy, *v, &mut ends)?;
    }
    Ok(ends)
}

/// Appends the numbers of a target in the phase graph.
fn push_numbers(hierarchy: &Hierarchy, v: u32, ends: &mut Vec<u32>) -> Result<(), AllocError>
    requires { v < 2 ^ 31 }
    ensures { OnOk result (ends.new.items ≡ ends.old.items ++ target_numbers hierarchy.now v) }
{
    ends.push(number_of(v, false))?;
    if hierarchy.contracted(v) {
        ends.push(number_of(v, true))?;
    }
    Ok(())
}
