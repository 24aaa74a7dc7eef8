//! The block of a query line that asks for the journeys that are worth their boardings.

ghost use Rattle.std.specs.Prelude.{[], ◌∷◌, ◌<◌, ◌^◌, All, IfOk, OnOk};
ghost use Rattle.mode_expression.specs.Form.{form_of, IsUsable};
ghost use Rattle.journey.specs.Blocks.{AddsText, IsFramed};
ghost use Rattle.journey.specs.Queries.{IsQuery};
ghost use Rattle.few_boardings.specs.Boardings.{IsPrintableFewRow};
ghost use Rattle.few_boardings.specs.Blocks.{AreBoardingsTold, IsFewText, IsFewBlock};

use crate::boardings::{FewRow, few};
use crate::counting::Counting;
use journey::{Query, framed, push_journey, read_query, refused_block};
use kept_automata::Kept;
use mode_network::Network;
use plain_texts::{push_decimal, push_line_feed};
use product_search::Workspace;
use std::alloc::{AllocError, Global};

/// Appends a row: the line `boardings`, and what a block prints of its journey.
fn push_row(
    alloc: Global,
    out: &mut Vec<u8>,
    network: &Network,
    row: &FewRow,
) -> Result<(), AllocError>
    requires { IsPrintableFewRow network.now row.now }
    ensures { OnOk result (AddsText (AreBoardingsTold network.now (row.now ∷ [])) out.old.items
        out.new.items) }
{
    out.extend_from_slice(b"boardings ")?;
    push_decimal(out, u128::from(row.boardings))?;
    push_line_feed(out)?;
    push_journey(alloc, out, network, &row.journey)?;
    Ok(())
}

/// Appends the rows, one after the other.
fn push_rows(
    alloc: Global,
    out: &mut Vec<u8>,
    network: &Network,
    rows: &[FewRow],
) -> Result<(), AllocError>
    requires { All (IsPrintableFewRow network.now) rows.now }
    ensures { OnOk result (AddsText (AreBoardingsTold network.now rows.now) out.old.items out.new.items) }
{
    for row in rows {
        push_row(alloc, out, network, row)?;
    }
    Ok(())
}

/// Appends the body of a block: the rows, or the line `no journey` where there is none.
fn push_body(
    alloc: Global,
    out: &mut Vec<u8>,
    network: &Network,
    rows: &[FewRow],
) -> Result<(), AllocError>
    requires { All (IsPrintableFewRow network.now) rows.now }
    ensures { OnOk result (AddsText (IsFewText network.now rows.now) out.old.items out.new.items) }
{
    if rows.is_empty() {
        out.extend_from_slice(b"no journey\n")?;
    } else {
        push_rows(alloc, out, network, rows)?;
    }
    Ok(())
}

/// The block of a line with these rows.
fn rows_block(
    alloc: Global,
    network: &Network,
    line: &[u8],
    rows: &[FewRow],
) -> Result<Vec<u8>, AllocError>
    requires { All (IsPrintableFewRow network.now) rows.now }
    ensures { IfOk result (λ block. IsFramed (IsFewText network.now rows.now) line.now block.items) }
{
    let mut text = Vec::new(alloc);
    push_body(alloc, &mut text, network, rows)?;
    framed(alloc, line, &text)
}

/// The right block of the line that is this query.
fn query_block(
    alloc: Global,
    workspace: &mut Workspace,
    kept: &mut Kept<Counting>,
    network: &Network,
    query: &Query,
) -> Result<Vec<u8>, AllocError>
    requires asks { IsQuery network.now query.now.line query.now.from query.now.to query.now.depart
        (form_of query.now.expr) }
    requires usable { IsUsable (form_of query.now.expr) }
    requires soon { query.now.depart < 2 ^ 64 }
    ensures { IfOk result (λ block. IsFewBlock network.now query.now.line block.items) }
{
    let rows = few(alloc, workspace, kept, network, query)?;
    rows_block(alloc, network, query.line.as_slice(), &rows)
}

/// The right block of a query line: that of its refusal, or of the journeys that are worth their boardings. The searches
/// use the workspace and what is kept.
pub fn few_block(
    alloc: Global,
    workspace: &mut Workspace,
    kept: &mut Kept<Counting>,
    network: &Network,
    line: &[u8],
) -> Result<Vec<u8>, AllocError>
    ensures { IfOk result (λ block. IsFewBlock network.now line.now block.items) }
{
    match read_query(alloc, network, line) {
        Ok(query) => query_block(alloc, workspace, kept, network, &query),
        Err(fault) => refused_block(alloc, network, line, fault),
    }
}
