//! Cells of a table of times.

ghost use Rattle.std.specs.Prelude.{◌≡◌, ◌++◌, IfOk, IfSome, OnOk};
ghost use Rattle.hierarchy.specs.Soundness.{IsSound};
ghost use Rattle.plain_texts.specs.Lines.{with_feed};
ghost use Rattle.matrix_commands.specs.Cells.{IsRightCell, cell_text};
ghost use Rattle.matrix_commands.specs.Rows.{row_text};
ghost use Rattle.matrix_commands.specs.inside.Working.{cell_of_arrival};

use hierarchy::Hierarchy;
use journey::{QueryFault, large_places, push_refusal, read_query};
use mode_network::Network;
use plain_texts::{push_decimal, push_line_feed};
use plan_base::Time;
use planning::{Room, best_arrival};
use std::alloc::{AllocError, Global};

/// What a table says of an origin and a destination.
#[derive(Clone, Copy, Debug, PartialEq, Eq)]
pub(crate) enum Cell {
    /// A best journey arrives so many milliseconds after the departure.
    Takes(Time),
    /// No journey answers.
    Without,
    /// The query line of the two is refused, for this fault.
    Refused(QueryFault),
}

/// The right cell for a query line whose expression may have so many places, by a search of its own. The search uses the
/// room.
pub(crate) fn cell_of(
    alloc: Global,
    room: &mut Room,
    network: &Network,
    hierarchy: Option<&Hierarchy>,
    most: Option<u32>,
    line: &[u8],
) -> Result<Cell, AllocError>
    requires { IfSome hierarchy (λ h. IsSound network.now h.now) }
    ensures { IfOk result (IsRightCell network.now most line.now) }
{
    if let Some(places) = large_places(alloc, network, most, line)? {
        return Ok(Cell::Refused(QueryFault::TooLarge { places }));
    }
    let query = match read_query(alloc, network, line) {
        Ok(query) => query,
        Err(QueryFault::OutOfMemory) => return Err(AllocError),
        Err(fault) => return Ok(Cell::Refused(fault)),
    };
    let arrival = best_arrival(alloc, room, network, hierarchy, &query)?;
    Ok(timed(query.depart, arrival))
}

/// The cell of the arrival of a best journey, if there is one.
pub(crate) fn timed(depart: Time, arrival: Option<Time>) -> Cell
    ensures { result ≡ cell_of_arrival depart arrival }
{
    match arrival {
        Some(arrival) => Cell::Takes(arrival.saturating_sub(depart)),
        None => Cell::Without,
    }
}

/// Appends the row of an origin and a destination.
pub(crate) fn push_row(
    rows: &mut Vec<u8>,
    from: &[u8],
    to: &[u8],
    cell: Cell,
) -> Result<(), AllocError>
    ensures { OnOk result (rows.new.items ≡ rows.old.items ++ row_text from.now to.now (cell_text cell)) }
{
    rows.extend_from_slice(from)?;
    rows.push(b'\t')?;
    rows.extend_from_slice(to)?;
    rows.push(b'\t')?;
    push_cell(rows, cell)
}

/// Appends a cell and a line feed.
fn push_cell(rows: &mut Vec<u8>, cell: Cell) -> Result<(), AllocError>
    ensures { OnOk result (rows.new.items ≡ rows.old.items ++ with_feed (cell_text cell)) }
{
    match cell {
        Cell::Takes(ms) => {
            push_decimal(rows, ms)?;
            push_line_feed(rows)
        }
        Cell::Without => rows.extend_from_slice(b"none\n"),
        Cell::Refused(fault) => {
            push_refusal(rows, fault)?;
            push_line_feed(rows)
        }
    }
}
