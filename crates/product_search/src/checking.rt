//! The check that a list of labels is closed.

ghost use Rattle.std.specs.Prelude.{◌≡◌, ◌<◌, ◌^◌, All, IfSome, length};
ghost use Rattle.search_laws.specs.Times.{time_bound};
ghost use Rattle.product_search.specs.declared.verdict.LabelVerdict.{LabelVerdict};
ghost use Rattle.product_search.specs.declared.verdict.LabelVerdict.TheVariants.{Closed};
ghost use Rattle.product_search.specs.Closed.{IsVerdict, NoneArrivesBefore};

use crate::arc_check::first_open_arcs;
use crate::claim::LabelClaim;
use crate::end_check::first_end;
use crate::order_check::first_out_of_order;
use crate::start_check::first_open_start;
use crate::verdict::LabelVerdict;
use search_laws::{Graph, Labels};

/// Decides whether the list of a claim is closed, as the clauses of [`LabelVerdict`] say, without taking memory.
///
/// Where it is closed, no walk that the automaton accepts, and that leaves a start at the departure or later, reaches a
/// target before the arrival, or at all where that is None. Who made the list is not asked.
///
/// All times of the list and the arrival are below 10^30, and there are fewer than 2^32 starts.
pub fn check_labels<G: Graph, L: Labels>(
    graph: &G,
    labels: &L,
    claim: &LabelClaim<'_>,
) -> LabelVerdict
    requires times { All (λ x. x.at < time_bound) claim.now.list.now }
    requires arrival { IfSome claim.now.arrival (λ a. a < time_bound) }
    requires few { length claim.now.starts.now < 2 ^ 32 }
    ensures verdict { IsVerdict (G.meaning graph.now) (L.automaton labels.now) claim.now.starts.now
        claim.now.targets.now claim.now.departure claim.now.arrival claim.now.list.now result }
    ensures bound { result ≡ Closed → NoneArrivesBefore (G.meaning graph.now) (L.automaton labels.now)
        claim.now.starts.now claim.now.targets.now claim.now.departure claim.now.arrival }
{
    let LabelClaim {
        starts,
        targets,
        departure,
        arrival,
        list,
    } = *claim;
    if let Some(k) = first_out_of_order(graph, labels, arrival, list) {
        return LabelVerdict::Open {
            clause: 6,
            at: k as u64,
        };
    }
    if let Some(at) = first_open_start(labels, starts, departure, arrival, list) {
        return LabelVerdict::Open { clause: 7, at };
    }
    if let Some(k) = first_end(labels, targets, list) {
        return LabelVerdict::Open {
            clause: 8,
            at: k as u64,
        };
    }
    if let Some(k) = first_open_arcs(graph, labels, arrival, list) {
        return LabelVerdict::Open {
            clause: 9,
            at: k as u64,
        };
    }
    LabelVerdict::Closed
}
