//! Clause 7: each start is listed by the departure, in each start state.

ghost use Rattle.std.specs.Prelude.{◌≡◌, ◌<◌, ◌≤◌, ◌^◌, length, IfOk, IfErr, MatchOption};
ghost use Rattle.product_search.specs.Listed.{AreAscendingLabels};
ghost use Rattle.search_laws.specs.Firsts.{HoldsBelow, FailsFirstAt};
ghost use Rattle.product_search.specs.Closed.{start_states, start_pairs, pairs_at, AllListed, FailsAt, StartIsListedAt};

use crate::label::Label;
use crate::listing::is_before;
use crate::lookup::is_listed;
use search_laws::{Labels, Time};

/// The first pair of a start and a start state that is not listed by the departure, if that is before the arrival.
pub(crate) fn first_open_start<L: Labels>(
    labels: &L,
    starts: &[u32],
    dep: Time,
    arrival: Option<Time>,
    list: &[Label],
) -> Option<u64>
    requires ascending { AreAscendingLabels list.now }
    requires few { length starts.now < 2 ^ 32 }
    ensures { MatchOption result (HoldsBelow (length (start_pairs (L.automaton labels.now) starts.now))
        (StartIsListedAt (L.automaton labels.now) starts.now dep arrival list.now))
        (FailsFirstAt (length (start_pairs (L.automaton labels.now) starts.now))
        (StartIsListedAt (L.automaton labels.now) starts.now dep arrival list.now)) }
{
    if is_before(arrival, dep) {
        first_unlisted_start(labels, starts, dep, list)
    } else {
        None
    }
}

/// The first pair of a start and a start state that is not listed by the departure, or None.
///
/// The pairs are counted by place in the starts and then by state.
fn first_unlisted_start<L: Labels>(
    labels: &L,
    starts: &[u32],
    dep: Time,
    list: &[Label],
) -> Option<u64>
    requires ascending { AreAscendingLabels list.now }
    requires few { length starts.now < 2 ^ 32 }
    ensures { MatchOption result
        (AllListed list.now dep (start_pairs (L.automaton labels.now) starts.now))
        (FailsAt list.now dep (start_pairs (L.automaton labels.now) starts.now)) }
{
    let mut count = 0;
    for node in starts {
        match unlisted_state(labels, *node, dep, list) {
            Ok(listed) => count += u64::from(listed),
            Err(place) => return Some(count + u64::from(place)),
        }
    }
    None
}

/// The number of start states, if a node is listed in each of them; else the place of the first in which it is not.
fn unlisted_state<L: Labels>(labels: &L, node: u32, dep: Time, list: &[Label]) -> Result<u32, u32>
    requires { AreAscendingLabels list.now }
    ensures listed { IfOk result (λ n. (n ≡ length (start_states (L.automaton labels.now)
        (L.automaton labels.now).states)) × AllListed list.now dep
        (pairs_at node (start_states (L.automaton labels.now) (L.automaton labels.now).states))) }
    ensures unlisted { IfErr result (FailsAt list.now dep
        (pairs_at node (start_states (L.automaton labels.now) (L.automaton labels.now).states))) }
    ensures few { IfOk result (λ n. n ≤ 2 ^ 16) }
    ensures early { IfErr result (λ k. k < 2 ^ 16) }
{
    let mut count = 0;
    for state in 0..labels.states() {
        if labels.is_start(state) {
            if !is_listed(list, node, state, dep) {
                return Err(count);
            }
            count += 1;
        }
    }
    Ok(count)
}
