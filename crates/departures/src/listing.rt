//! The list of the departures of a window.

ghost use Rattle.std.specs.Prelude.{◌≡◌, ◌<◌, ◌≤◌, ◌^◌, All, IfOk, OnOk};
ghost use Rattle.journey.specs.Best.{asked_by};
ghost use Rattle.journey.specs.Queries.{IsQuery};
ghost use Rattle.mode_expression.specs.Form.{form_of, IsUsable};
ghost use Rattle.departures.specs.Departures.{IsWithout, AreRows};
ghost use Rattle.departures.specs.inside.Listing.{next_moment, is_shorter, is_later_row, with_departure};
ghost use Rattle.departures.specs.inside.Searching.{searched_network, asked_of, IsRideSearch, IsPrintableRow};

use crate::least::LeastTimes;
use crate::row::{Pair, Row};
use crate::search::RideSearch;
use few_boardings::{Counting, least_below};
use journey::Query;
use kept_automata::Kept;
use mode_network::Network;
use product_search::Workspace;
use search_laws::Time;
use std::alloc::{AllocError, Global};

/// How long it takes without a ride, if one can do without.
pub(crate) fn without_ride(
    alloc: Global,
    workspace: &mut Workspace,
    kept: &mut Kept<Counting>,
    network: &Network,
    query: &Query,
) -> Result<Option<Time>, AllocError>
    requires asks { IsQuery network.now query.now.line query.now.from query.now.to query.now.depart
        (form_of query.now.expr) }
    requires usable { IsUsable (form_of query.now.expr) }
    requires soon { query.now.depart < 2 ^ 64 }
    ensures { IfOk result (IsWithout network.now (asked_by query.now)) }
{
    match least_below(alloc, workspace, kept, network, query, 1)? {
        Some(found) => Ok(Some(found.arrival - query.depart)),
        None => Ok(None),
    }
}

/// From when on a search goes on after a pair that arrives first: no other pair that leaves before is worth listing.
fn next_moment(without: Option<Time>, pair: Pair) -> Time
    requires depart { pair.depart < 2 ^ 127 }
    requires arrive { pair.arrive < 2 ^ 127 }
    ensures { result ≡ next_moment without pair }
{
    let after = pair.depart + 1;
    match without {
        Some(c) => after.max((pair.arrive + 1).saturating_sub(c)),
        None => after,
    }
}

/// Whether a pair takes less time than it takes without a ride.
fn is_shorter(without: Option<Time>, pair: Pair) -> bool
    requires { pair.depart ≤ pair.arrive }
    ensures { result ≡ is_shorter without pair }
{
    match without {
        Some(c) => pair.arrive - pair.depart < c,
        None => true,
    }
}

/// Whether a row arrives later than `t`, or there is none.
fn is_later(next: &Option<Row>, t: Time) -> bool
    ensures { result ≡ is_later_row next.now t }
{
    match next {
        Some(row) => t < row.pair.arrive,
        None => true,
    }
}

/// Appends a row if it takes less time than one can do without a ride, and the next one arrives later.
fn keep(
    rows: &mut Vec<Row>,
    row: Row,
    next: &Option<Row>,
    without: Option<Time>,
) -> Result<(), AllocError>
    requires { row.pair.depart ≤ row.pair.arrive }
    ensures { OnOk result (rows.new.items ≡ with_departure without next.now row rows.old.items) }
{
    if is_shorter(without, row.pair) && is_later(next, row.pair.arrive) {
        rows.push(row)?;
    }
    Ok(())
}

/// The rows of a window of so many milliseconds, which opens when the query departs, by rising departures.
///
/// Each search finds a journey that arrives first. The next one goes on after its departure: where that arrives no
/// later, the journey is not worth listing.
fn departures(
    alloc: Global,
    workspace: &mut Workspace,
    search: &RideSearch<'_>,
    without: Option<Time>,
    window: u32,
) -> Result<Vec<Row>, AllocError>
    requires search { IsRideSearch search.now }
    requires soon { search.now.query.now.depart < 2 ^ 63 }
    ensures rows { IfOk result (λ rows. AreRows (searched_network search.now) (asked_of search.now) without
        window rows.items) }
    ensures printable { IfOk result (λ rows. All (IsPrintableRow (searched_network search.now)) rows.items) }
{
    let opens = search.query.depart;
    let closes = opens + Time::from(window);
    let mut rows = Vec::new(alloc);
    let mut best = search.first_from(alloc, workspace, opens)?;
    while let Some(row) = best {
        let from = next_moment(without, row.pair);
        if from > closes {
            return Ok(rows);
        }
        let next = search.first_from(alloc, workspace, from)?;
        keep(&mut rows, row, &next, without)?;
        best = next;
    }
    Ok(rows)
}

/// The rows of a window, as [`departures`] lists them. Where no ride can take less time than one can do without, there are none.
pub(crate) fn departures_worth(
    alloc: Global,
    workspace: &mut Workspace,
    least: &LeastTimes<'_>,
    search: &RideSearch<'_>,
    without: Option<Time>,
    window: u32,
) -> Result<Vec<Row>, AllocError>
    requires search { IsRideSearch search.now }
    requires same { least.now.plain.network.now ≡ searched_network search.now }
    requires soon { search.now.query.now.depart < 2 ^ 63 }
    ensures rows { IfOk result (λ rows. AreRows (searched_network search.now) (asked_of search.now) without
        window rows.items) }
    ensures printable { IfOk result (λ rows. All (IsPrintableRow (searched_network search.now)) rows.items) }
{
    if let Some(c) = without {
        if !search.may_take_less(alloc, workspace, least, c)? {
            return Ok(Vec::new(alloc));
        }
    }
    departures(alloc, workspace, search, without, window)
}
