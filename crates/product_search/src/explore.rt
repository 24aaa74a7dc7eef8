//! The arcs out of a product state, each offered to the frontier.

ghost use Rattle.std.specs.Prelude.{◌≡◌, ℕ, ◌+◌, ◌<◌, ◌≤◌, Some, All, OnOk, IfSome};
ghost use Rattle.search_laws.specs.Letters.{IsLetter};
ghost use Rattle.product_search.specs.inside.Waiting.{IsFrontier, IsReachedBy, delay_at};
ghost use Rattle.product_search.specs.inside.Exploring.{Offers, IsByWay, IsByWays, WayIsReached, IsByLeg, IsByLegs, IsByLegsIn, LegIsReached, IsSuccessor, ArcIsReached, AreGivenReached, IsGiven, IsGivenIn, IsReachedIfWanted, way_by};

use crate::frontier::{Frontier, Scan};
use crate::machine::Machine;
use crate::row::Reached;
use search_laws::{GivenRuns, Graph, Labels, Leg, Visit, Way};
use std::alloc::AllocError;

/// Offers what each arc out of a product state leads to, but for rides as good as those that its state was given and arcs that
/// lead back to it at once, as what these lead to is reached already. Notes the runs whose rides it offers. What `ways` holds is
/// lost.
///
/// The steady arcs are offered first, and the others from a list.
#[inline(always)]
pub(crate) fn explore<G: Graph, L: Labels>(
    frontier: &mut Frontier,
    given: &mut GivenRuns,
    ways: &mut Vec<Way>,
    graph: &G,
    machine: &Machine<L>,
    from: Scan,
) -> Result<(), AllocError>
    requires node { from.node < (G.meaning graph.now).nodes }
    requires state { from.state < (L.automaton machine.now.labels).states }
    requires right { IsFrontier frontier.old }
    requires here { IsReachedBy frontier.old from.node from.state (frontier.old.base + from.delay) }
    requires given { AreGivenReached (G.rides graph.now) (L.automaton machine.now.labels) frontier.old
        given.old }
    ensures right { OnOk result (IsFrontier frontier.new) }
    ensures offers { OnOk result (Offers frontier.old frontier.new (IsSuccessor (G.meaning graph.now)
        (L.automaton machine.now.labels) frontier.old.base from)) }
    ensures reached { OnOk result ((i : ℕ) → i < (G.meaning graph.now).arcs from.node →
        ArcIsReached (G.meaning graph.now) (L.automaton machine.now.labels) frontier.new from.node from.state
        (frontier.new.base + from.delay) i) }
    ensures given { OnOk result (AreGivenReached (G.rides graph.now) (L.automaton machine.now.labels)
        frontier.new given.new) }
{
    explore_steady(frontier, graph, machine, from)?;
    let (letters, leaving) = (machine.letters_of(from.state), machine.leaving(from.state));
    if !graph.may_have_fresh(from.node, letters, leaving) {
        return Ok(());
    }
    explore_fresh(frontier, given, ways, graph, machine, from)?;
    Ok(())
}

/// Offers what the other arcs out of a product state lead to, as [`explore`] does.
#[inline(never)]
fn explore_fresh<G: Graph, L: Labels>(
    frontier: &mut Frontier,
    given: &mut GivenRuns,
    ways: &mut Vec<Way>,
    graph: &G,
    machine: &Machine<L>,
    from: Scan,
) -> Result<(), AllocError>
    requires node { from.node < (G.meaning graph.now).nodes }
    requires state { from.state < (L.automaton machine.now.labels).states }
    requires right { IsFrontier frontier.old }
    requires here { IsReachedBy frontier.old from.node from.state (frontier.old.base + from.delay) }
    requires within { G.steady_count graph.now from.node ≤ (G.meaning graph.now).arcs from.node }
    requires given { AreGivenReached (G.rides graph.now) (L.automaton machine.now.labels) frontier.old
        given.old }
    ensures right { OnOk result (IsFrontier frontier.new) }
    ensures offers { OnOk result (Offers frontier.old frontier.new (IsSuccessor (G.meaning graph.now)
        (L.automaton machine.now.labels) frontier.old.base from)) }
    ensures reached { OnOk result ((i : ℕ) → G.steady_count graph.now from.node ≤ i
        → i < (G.meaning graph.now).arcs from.node →
        ArcIsReached (G.meaning graph.now) (L.automaton machine.now.labels) frontier.new from.node from.state
        (frontier.new.base + from.delay) i) }
    ensures given { OnOk result (AreGivenReached (G.rides graph.now) (L.automaton machine.now.labels)
        frontier.new given.new) }
{
    let visit = Visit {
        node: from.node,
        at: frontier.time(from.delay),
        state: from.state,
        letters: machine.letters_of(from.state),
        leaving: machine.leaving(from.state),
    };
    ways.clear();
    graph.fresh_ways(visit, given, ways)?;
    explore_ways(frontier, machine, from, ways)?;
    Ok(())
}

/// Offers what the steady arcs of a node lead to, in each state after their letter.
#[inline(always)]
fn explore_steady<G: Graph, L: Labels>(
    frontier: &mut Frontier,
    graph: &G,
    machine: &Machine<L>,
    from: Scan,
) -> Result<(), AllocError>
    requires node { from.node < (G.meaning graph.now).nodes }
    requires state { from.state < (L.automaton machine.now.labels).states }
    requires right { IsFrontier frontier.old }
    ensures right { OnOk result (IsFrontier frontier.new) }
    ensures offers { OnOk result (Offers frontier.old frontier.new (IsSuccessor (G.meaning graph.now)
        (L.automaton machine.now.labels) frontier.old.base from)) }
    ensures within { G.steady_count graph.now from.node ≤ (G.meaning graph.now).arcs from.node }
    ensures reached { OnOk result ((i : ℕ) → i < G.steady_count graph.now from.node →
        ArcIsReached (G.meaning graph.now) (L.automaton machine.now.labels) frontier.new from.node from.state
        (frontier.new.base + from.delay) i) }
{
    let steady = graph.steady(from.node);
    if steady.legs.is_empty() {
        return Ok(());
    }
    match steady.letter {
        None => offer_legs(frontier, from, from.state, steady.legs),
        Some(letter) => {
            let states = machine.targets_of(from.state, letter);
            offer_to_states(frontier, from, states, steady.legs)
        }
    }
}

/// Offers what legs of a node lead to, in each of some states.
#[inline(always)]
fn offer_to_states(
    frontier: &mut Frontier,
    from: Scan,
    states: &[u32],
    legs: &[Leg],
) -> Result<(), AllocError>
    requires right { IsFrontier frontier.old }
    ensures right { OnOk result (IsFrontier frontier.new) }
    ensures offers { OnOk result (Offers frontier.old frontier.new (IsByLegsIn from states.now legs.now)) }
    ensures reached { OnOk result (All (λ next. All (LegIsReached frontier.new next from.delay) legs.now)
        states.now) }
{
    for next in states {
        offer_legs(frontier, from, *next, legs)?;
    }
    Ok(())
}

/// Offers what legs of a node lead to, in a state.
#[inline(always)]
fn offer_legs(
    frontier: &mut Frontier,
    from: Scan,
    next: u32,
    legs: &[Leg],
) -> Result<(), AllocError>
    requires right { IsFrontier frontier.old }
    ensures right { OnOk result (IsFrontier frontier.new) }
    ensures offers { OnOk result (Offers frontier.old frontier.new (IsByLegs from next legs.now)) }
    ensures reached { OnOk result (All (LegIsReached frontier.new next from.delay) legs.now) }
{
    for i in 0..legs.len() {
        offer_leg(frontier, from, next, legs[i], i as u64)?;
    }
    Ok(())
}

/// Offers what a leg of a node leads to, in a state.
#[inline(always)]
fn offer_leg(
    frontier: &mut Frontier,
    from: Scan,
    next: u32,
    leg: Leg,
    place: u64,
) -> Result<(), AllocError>
    requires right { IsFrontier frontier.old }
    ensures right { OnOk result (IsFrontier frontier.new) }
    ensures offers { OnOk result (Offers frontier.old frontier.new (IsByLeg from next place leg)) }
    ensures reached { OnOk result (LegIsReached frontier.new next from.delay leg) }
{
    let delay = from.delay.saturating_add(u64::from(leg.ms));
    frontier.offer(leg.to, next, way_by(from, place, delay))
}

/// Offers what each of some arcs leads to. At most nodes there are none.
#[inline(always)]
fn explore_ways<L: Labels>(
    frontier: &mut Frontier,
    machine: &Machine<L>,
    from: Scan,
    ways: &[Way],
) -> Result<(), AllocError>
    requires state { from.state < (L.automaton machine.now.labels).states }
    requires letters { All (λ way. IfSome way.arc.letter IsLetter) ways.now }
    requires times { All (λ way. frontier.old.base ≤ way.at) ways.now }
    requires right { IsFrontier frontier.old }
    ensures right { OnOk result (IsFrontier frontier.new) }
    ensures offers { OnOk result (Offers frontier.old frontier.new
        (IsByWays (L.automaton machine.now.labels) frontier.old.base from ways.now)) }
    ensures reached { OnOk result (All (WayIsReached (L.automaton machine.now.labels) frontier.new
        from.state) ways.now) }
{
    for way in ways {
        explore_way(frontier, machine, from, *way)?;
    }
    Ok(())
}

/// Offers what one arc leads to, in each state after its letter.
#[inline(never)]
fn explore_way<L: Labels>(
    frontier: &mut Frontier,
    machine: &Machine<L>,
    from: Scan,
    way: Way,
) -> Result<(), AllocError>
    requires state { from.state < (L.automaton machine.now.labels).states }
    requires letter { IfSome way.arc.letter IsLetter }
    requires time { frontier.old.base ≤ way.at }
    requires right { IsFrontier frontier.old }
    ensures right { OnOk result (IsFrontier frontier.new) }
    ensures offers { OnOk result (Offers frontier.old frontier.new
        (IsByWay (L.automaton machine.now.labels) frontier.old.base from way)) }
    ensures reached { OnOk result (WayIsReached (L.automaton machine.now.labels) frontier.new
        from.state way) }
{
    let reached = way_by(from, way.place, frontier.delay(way.at));
    match way.arc.letter {
        None => frontier.offer(way.arc.to, from.state, reached),
        Some(letter) => offer_moves(
            frontier,
            machine.targets_of(from.state, letter),
            way.arc.to,
            reached,
        ),
    }
}

/// Offers a node in each of some states.
#[inline(always)]
fn offer_moves(
    frontier: &mut Frontier,
    states: &[u32],
    to: u32,
    way: Reached,
) -> Result<(), AllocError>
    requires right { IsFrontier frontier.old }
    ensures right { OnOk result (IsFrontier frontier.new) }
    ensures offers { OnOk result (Offers frontier.old frontier.new (IsGivenIn states.now to way)) }
    ensures reached { OnOk result (All (λ next. (t : ℕ) → frontier.new.base ≤ t
        → way.delay ≡ delay_at frontier.new.base t → IsReachedIfWanted frontier.new to next t) states.now) }
{
    for next in states {
        frontier.offer(to, *next, way)?;
    }
    Ok(())
}

/// The way by an arc of a product state, which arrives so long after the departure.
#[inline(always)]
fn way_by(from: Scan, place: u64, delay: u64) -> Reached
    ensures { result ≡ way_by from place delay }
{
    Reached {
        delay,
        arc: place,
        parent: from.link,
    }
}
