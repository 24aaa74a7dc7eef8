//! The search for the journeys that are worth their boardings.

ghost use Rattle.std.specs.Prelude.{◌≡◌, [], ◌<◌, ◌≤◌, ◌^◌, ◌↔◌, min, All, IfOk, OnOk};
ghost use Rattle.std.specs.List.{count_by};
ghost use Rattle.mode_expression.specs.Form.{form_of, IsUsable};
ghost use Rattle.journey.specs.Best.{asked_by};
ghost use Rattle.journey.specs.Queries.{IsQuery};
ghost use Rattle.unpack.specs.Taken.{IsPlainWalk};
ghost use Rattle.few_boardings.specs.Boardings.{is_ride, AreFewRows, HasNoneByFew, IsPrintableFewRow};
ghost use Rattle.few_boardings.specs.Rounds.{IsFoundUnpacked, IsLeastBelow, is_later, with_fewer_rides};

use crate::counted::Side;
use crate::counting::Counting;
use automaton::positions_accept;
use journey::{Query, copies};
use kept_automata::Kept;
use mode_network::{Journey, Network, Step};
use plain_graph::Plain;
use plan_base::Time;
use product_search::{Best, Question, Walk, Workspace, search_best_with};
use std::alloc::{AllocError, Global};
use unpack::from_plain;

/// A journey that is worth its boardings, and how many rides it has.
#[derive(Drop)]
pub struct FewRow {
    pub boardings: u8,
    pub journey: Journey,
}

/// A row, and when its journey arrives.
#[derive(Drop)]
pub struct Found {
    pub arrival: Time,
    pub row: FewRow,
}

/// How many rides these steps have, or 255 where they have more.
fn count_rides(steps: &[Step]) -> u8
    ensures { result ≡ min (count_by is_ride steps.now) 255 }
{
    let rides = steps
        .iter()
        .filter(|step| matches!(step, Step::Ride { .. }))
        .count();
    rides.min(255) as u8
}

/// The journey of a walk that was found, with its arrival and its rides, if one was.
fn unpacked(
    alloc: Global,
    plain: &Plain<'_>,
    arrival: Option<Time>,
    walk: &Option<Walk>,
) -> Result<Option<Found>, AllocError>
    requires { IsPlainWalk plain.now.network.now plain.now.timetable.now walk.now }
    ensures { IfOk result (IsFoundUnpacked plain.now.network.now plain.now.timetable.now arrival walk.now) }
{
    match (arrival, walk) {
        (Some(arrival), Some(walk)) => {
            let journey = from_plain(alloc, plain, walk)?;
            let boardings = count_rides(&journey.steps);
            let row = FewRow { boardings, journey };
            Ok(Some(Found { arrival, row }))
        }
        _ => Ok(None),
    }
}

/// A journey that answers a query with fewer rides than the limit, and arrives no later than any such journey; None
/// exactly where there is none. The search uses the workspace and what is kept.
pub fn least_below(
    alloc: Global,
    workspace: &mut Workspace,
    kept: &mut Kept<Counting>,
    network: &Network,
    query: &Query,
    limit: u8,
) -> Result<Option<Found>, AllocError>
    requires asks { IsQuery network.now query.now.line query.now.from query.now.to query.now.depart
        (form_of query.now.expr) }
    requires usable { IsUsable (form_of query.now.expr) }
    requires soon { query.now.depart < 2 ^ 64 }
    requires limit { limit ≤ 9 }
    ensures { IfOk result (IsLeastBelow network.now (asked_by query.now) limit) }
{
    if limit == 0 {
        return Ok(None);
    }
    let plain = Plain::new(network);
    network.known();
    let starts = copies(alloc, network, &query.from)?;
    let targets = copies(alloc, network, &query.to)?;
    positions_accept();
    let counting = Counting {
        side: Side::AtMost,
        limit: limit - 1,
    };
    let expressed = kept.take(alloc, counting, query)?;
    let question = Question {
        graph: &plain,
        machine: &expressed.made,
        starts: &starts,
        targets: &targets,
        dep: query.depart,
        bound: None,
        meets_few: false,
    };
    let best = search_best_with(alloc, workspace, &question)?;
    kept.put(expressed)?;
    let Best { arrival, walk } = best;
    unpacked(alloc, &plain, arrival, &walk)
}

/// Whether what was found arrives later than `t`, or nothing was found.
fn is_later(found: &Option<Found>, t: Time) -> bool
    ensures { result ≡ is_later found.now t }
{
    match found {
        Some(found) => t < found.arrival,
        None => true,
    }
}

/// Puts the row of what was found before the others, if with fewer rides one arrives later.
fn keep(rows: &mut Vec<FewRow>, found: Found, fewer: &Option<Found>) -> Result<(), AllocError>
    ensures { OnOk result (rows.new.items ≡ with_fewer_rides fewer.now found.arrival found.row
        rows.old.items) }
{
    let Found { arrival, row } = found;
    if is_later(fewer, arrival) {
        rows.insert(0, row)?;
    }
    Ok(())
}

/// For each number of rides from 0 to 8 with which one arrives earlier than with fewer: a journey that answers the
/// query with so many rides and arrives as early as can be, by rising boardings. None with at most 8 rides answers
/// exactly where the list is empty. The searches use the workspace and what is kept.
///
/// Each search goes below the rides of the journey that the one before found, so there are as many searches as rows, one
/// more at the end, and one for each journey that another with fewer rides is as early as.
pub(crate) fn few(
    alloc: Global,
    workspace: &mut Workspace,
    kept: &mut Kept<Counting>,
    network: &Network,
    query: &Query,
) -> Result<Vec<FewRow>, AllocError>
    requires asks { IsQuery network.now query.now.line query.now.from query.now.to query.now.depart
        (form_of query.now.expr) }
    requires usable { IsUsable (form_of query.now.expr) }
    requires soon { query.now.depart < 2 ^ 64 }
    ensures rows { IfOk result (λ rows. AreFewRows network.now (asked_by query.now) rows.items) }
    ensures none { IfOk result (λ rows. (rows.items ≡ []) ↔ HasNoneByFew network.now (asked_by query.now)) }
    ensures printable { IfOk result (λ rows. All (IsPrintableFewRow network.now) rows.items) }
{
    let mut rows = Vec::new(alloc);
    let mut best = least_below(alloc, workspace, kept, network, query, 9)?;
    while let Some(found) = best {
        let fewer = least_below(alloc, workspace, kept, network, query, found.row.boardings)?;
        keep(&mut rows, found, &fewer)?;
        best = fewer;
    }
    Ok(rows)
}
