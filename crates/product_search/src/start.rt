//! The product states from which walks may leave, offered to the frontier.

ghost use Rattle.std.specs.Prelude.{ℕ, ◌<◌, length, slice_index, OnOk, IsTrue};
ghost use Rattle.product_search.specs.inside.Waiting.{IsFrontier, IsReachedBy};
ghost use Rattle.product_search.specs.inside.Exploring.{Offers, IsStartAt, IsStartAmong, StartIsReached};

use crate::frontier::Frontier;
use crate::row::Reached;
use search_laws::Labels;
use std::alloc::AllocError;

/// Offers each start in each start state, at the departure.
pub(crate) fn offer_starts<L: Labels>(
    frontier: &mut Frontier,
    labels: &L,
    starts: &[u32],
) -> Result<(), AllocError>
    requires right { IsFrontier frontier.old }
    requires wanted { 0 < frontier.old.until }
    ensures right { OnOk result (IsFrontier frontier.new) }
    ensures offers { OnOk result (Offers frontier.old frontier.new
        (IsStartAmong (L.automaton labels.now) starts.now)) }
    ensures reached { OnOk result ((k : ℕ) → k < length starts.now
        → StartIsReached frontier.new (L.automaton labels.now) (slice_index starts.now k)) }
{
    for node in starts {
        offer_start(frontier, labels, *node)?;
    }
    Ok(())
}

/// Offers one start in each start state.
fn offer_start<L: Labels>(frontier: &mut Frontier, labels: &L, node: u32) -> Result<(), AllocError>
    requires right { IsFrontier frontier.old }
    requires wanted { 0 < frontier.old.until }
    ensures right { OnOk result (IsFrontier frontier.new) }
    ensures offers { OnOk result (Offers frontier.old frontier.new
        (IsStartAt (L.automaton labels.now) node)) }
    ensures reached { OnOk result (StartIsReached frontier.new (L.automaton labels.now) node) }
{
    for state in 0..labels.states() {
        offer_start_state(frontier, labels, node, state)?;
    }
    Ok(())
}

/// Offers one start in one state, if that is a start state.
fn offer_start_state<L: Labels>(
    frontier: &mut Frontier,
    labels: &L,
    node: u32,
    state: u32,
) -> Result<(), AllocError>
    requires state { state < (L.automaton labels.now).states }
    requires right { IsFrontier frontier.old }
    requires wanted { 0 < frontier.old.until }
    ensures right { OnOk result (IsFrontier frontier.new) }
    ensures offers { OnOk result (Offers frontier.old frontier.new
        (IsStartAt (L.automaton labels.now) node)) }
    ensures reached { OnOk result (IsTrue ((L.automaton labels.now).is_start state)
        → IsReachedBy frontier.new node state frontier.new.base) }
{
    if !labels.is_start(state) {
        return Ok(());
    }
    let way = Reached {
        delay: 0,
        arc: 0,
        parent: 0,
    };
    frontier.offer(node, state, way)
}
