//! The block of a query line that asks for the departures of a window.

ghost use Rattle.std.specs.Prelude.{◌≡◌, [], ◌∷◌, ◌++◌, All, IfOk, OnOk, None};
ghost use Rattle.mode_expression.specs.Form.{form_of, IsUsable};
ghost use Rattle.journey.specs.Blocks.{AddsText, IsFramed};
ghost use Rattle.journey.specs.Queries.{IsQuery};
ghost use Rattle.departures.specs.Blocks.{AreRowsTold, without_line, IsProfileText, IsProfileBlock};
ghost use Rattle.departures.specs.inside.Searching.{IsPrintableRow};

use crate::least::LeastTimes;
use crate::listing::{departures_worth, without_ride};
use crate::row::Row;
use crate::search::RideSearch;
use few_boardings::Counting;
use journey::{Query, framed, read_query, refused_block};
use kept_automata::Kept;
use latest_departure::push_late;
use mode_network::Network;
use plain_texts::{push_decimal, push_line_feed};
use product_search::Workspace;
use search_laws::Time;
use std::alloc::{AllocError, Global};

/// Appends the line `without`.
fn push_without(out: &mut Vec<u8>, c: Time) -> Result<(), AllocError>
    ensures { OnOk result (out.new.items ≡ out.old.items ++ without_line c) }
{
    out.extend_from_slice(b"without ")?;
    push_decimal(out, c)?;
    push_line_feed(out)
}

/// Appends a row.
fn push_row(
    alloc: Global,
    out: &mut Vec<u8>,
    network: &Network,
    row: &Row,
) -> Result<(), AllocError>
    requires { IsPrintableRow network.now row.now }
    ensures { OnOk result (AddsText (AreRowsTold network.now (row.now ∷ [])) out.old.items out.new.items) }
{
    push_late(alloc, out, network, &row.journey)
}

/// Appends the rows, one after the other.
fn push_rows(
    alloc: Global,
    out: &mut Vec<u8>,
    network: &Network,
    rows: &[Row],
) -> Result<(), AllocError>
    requires { All (IsPrintableRow network.now) rows.now }
    ensures { OnOk result (AddsText (AreRowsTold network.now rows.now) out.old.items out.new.items) }
{
    for row in rows {
        push_row(alloc, out, network, row)?;
    }
    Ok(())
}

/// Appends the rows, or the line `no journey` where there is none.
fn push_rows_or_none(
    alloc: Global,
    out: &mut Vec<u8>,
    network: &Network,
    rows: &[Row],
) -> Result<(), AllocError>
    requires { All (IsPrintableRow network.now) rows.now }
    ensures { OnOk result (AddsText (IsProfileText network.now None rows.now) out.old.items out.new.items) }
{
    if rows.is_empty() {
        out.extend_from_slice(b"no journey\n")?;
    } else {
        push_rows(alloc, out, network, rows)?;
    }
    Ok(())
}

/// Appends the body of a block: how long it takes without a ride, and the rows; or the line `no journey` where there
/// is neither.
fn push_body(
    alloc: Global,
    out: &mut Vec<u8>,
    network: &Network,
    without: Option<Time>,
    rows: &[Row],
) -> Result<(), AllocError>
    requires { All (IsPrintableRow network.now) rows.now }
    ensures { OnOk result (AddsText (IsProfileText network.now without rows.now) out.old.items
        out.new.items) }
{
    match without {
        Some(c) => {
            push_without(out, c)?;
            push_rows(alloc, out, network, rows)?;
            Ok(())
        }
        None => push_rows_or_none(alloc, out, network, rows),
    }
}

/// The block of a line with these rows.
fn rows_block(
    alloc: Global,
    network: &Network,
    line: &[u8],
    without: Option<Time>,
    rows: &[Row],
) -> Result<Vec<u8>, AllocError>
    requires { All (IsPrintableRow network.now) rows.now }
    ensures { IfOk result (λ block. IsFramed (IsProfileText network.now without rows.now) line.now
        block.items) }
{
    let mut text = Vec::new(alloc);
    push_body(alloc, &mut text, network, without, rows)?;
    framed(alloc, line, &text)
}

/// The right block of the line that is this query.
fn query_block(
    alloc: Global,
    workspace: &mut Workspace,
    kept: &mut Kept<Counting>,
    least: &LeastTimes<'_>,
    query: &Query,
    window: u32,
) -> Result<Vec<u8>, AllocError>
    requires asks { IsQuery least.now.plain.network.now query.now.line query.now.from query.now.to
        query.now.depart (form_of query.now.expr) }
    requires usable { IsUsable (form_of query.now.expr) }
    ensures { IfOk result (λ block. IsProfileBlock least.now.plain.network.now window query.now.line
        block.items) }
{
    let network = least.network();
    network.days().known();
    let without = without_ride(alloc, workspace, kept, network, query)?;
    let search = RideSearch::new(alloc, kept, network, query)?;
    let rows = departures_worth(alloc, workspace, least, &search, without, window)?;
    kept.put(search.expressed)?;
    rows_block(alloc, network, query.line.as_slice(), without, &rows)
}

/// The right block of a query line: that of its refusal, or of the departures of a window of so many milliseconds,
/// which opens when the query departs. The least times, the workspace and what is kept serve many lines.
///
/// Fails where memory runs out, alone.
pub fn profile_block(
    alloc: Global,
    workspace: &mut Workspace,
    kept: &mut Kept<Counting>,
    least: &LeastTimes<'_>,
    line: &[u8],
    window: u32,
) -> Result<Vec<u8>, AllocError>
    ensures { IfOk result (λ block. IsProfileBlock least.now.plain.network.now window line.now block.items) }
{
    let network = least.network();
    match read_query(alloc, network, line) {
        Ok(query) => query_block(alloc, workspace, kept, least, &query, window),
        Err(fault) => refused_block(alloc, network, line, fault),
    }
}
