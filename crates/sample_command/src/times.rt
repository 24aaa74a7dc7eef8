//! How long the best journeys of the queries take.

ghost use Rattle.std.specs.Prelude.{◌≡◌, ◌<◌, ◌≤◌, ◌^◌, ◌*◌, IfOk, IfSome, length, option_map};
ghost use Rattle.hierarchy.specs.Soundness.{IsSound};
ghost use Rattle.planning.specs.Settled.{IsSettledCount, Settled};
ghost use Rattle.sample_command.specs.Queries.{sampled_queries};
ghost use Rattle.sample_command.specs.Times as spec;

use crate::queries::query_line;
use hierarchy::Hierarchy;
use journey::{QueryFault, read_query};
use mode_network::{Journey, Network};
use plan_base::Time;
use planning::find_plan;
use product_search::Label;
use std::alloc::{AllocError, Global};

/// How long a journey takes that was found with its arrival, for a departure.
fn time_from(depart: Time, found: &Option<(Time, Journey)>) -> Option<Time>
    ensures { result ≡ spec.time_from depart found.now }
{
    match found {
        Some((arrival, _)) => Some(arrival.saturating_sub(depart)),
        None => None,
    }
}

/// How many of a search's labels are counted: all where it was over a hierarchy, and else none.
fn counted(hierarchy: Option<&Hierarchy>, labels: &[Label]) -> u64
    ensures { result ≡ spec.labels_counted (option_map (λ h. h.now) hierarchy.entry) (length labels.now) }
{
    match hierarchy {
        Some(_) => labels.len() as u64,
        None => 0,
    }
}

/// How long the best journey of a line takes, if there is one, and how many labels the search for it had, if it was over a
/// hierarchy.
fn time_of(
    alloc: Global,
    network: &Network,
    hierarchy: Option<&Hierarchy>,
    line: &[u8],
) -> Result<(Option<Time>, u64), AllocError>
    requires { IfSome hierarchy (λ h. IsSound network.now h.now) }
    ensures time { IfOk result (λ it. spec.IsTravelTime network.now line.now it.0) }
    ensures below { IfOk result (λ it. IfSome it.0 (λ ms. ms < 10 ^ 30)) }
    ensures settled { IfOk result (λ it. IsSettledCount network.now (option_map (λ h. h.now) hierarchy.entry)
        line.now it.1) }
{
    network.known();
    let query = match read_query(alloc, network, line) {
        Ok(query) => query,
        Err(QueryFault::OutOfMemory) => return Err(AllocError),
        Err(_) => return Ok((None, 0)),
    };
    let found = find_plan(alloc, network, hierarchy, &query)?;
    let time = time_from(query.depart, &found.best);
    let settled = counted(hierarchy, &found.labels);
    Ok((time, settled))
}

/// How long the best journeys of all queries take, in milliseconds, and how many labels the searches for them had together,
/// if they were over a hierarchy.
pub(crate) fn times_of(
    alloc: Global,
    network: &Network,
    hierarchy: Option<&Hierarchy>,
    n: u32,
) -> Result<(Vec<Option<Time>>, u128), AllocError>
    requires some { 1 ≤ n }
    requires size { n ≤ 300 }
    requires sound { IfSome hierarchy (λ h. IsSound network.now h.now) }
    ensures times { IfOk result (λ it. spec.AreTimes network.now (sampled_queries n) it.0.items) }
    ensures below { IfOk result (λ it. spec.total_time it.0.items ≤ 50 * 10 ^ 30) }
    ensures settled { IfOk result (λ it. Settled network.now (option_map (λ h. h.now) hierarchy.entry)
        (sampled_queries n) it.1) }
{
    let mut times = Vec::new(alloc);
    let mut settled: u128 = 0;
    for k in 0..50 {
        let line = query_line(alloc, n, k)?;
        let (time, labels) = time_of(alloc, network, hierarchy, &line)?;
        times.push(time)?;
        settled += u128::from(labels);
    }
    Ok((times, settled))
}
