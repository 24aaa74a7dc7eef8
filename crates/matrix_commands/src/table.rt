//! The rows of a table of times.

ghost use Rattle.std.specs.Prelude.{◌≡◌, ◌<◌, [], IfOk, length, slice_index_or};
ghost use Rattle.matrix_commands.specs.inside.Working.{AreRowsIn, IsCellIn, IsOrigin, IsReadyTable, lines_in};

use crate::asking::{Asking, read_end};
use crate::cell::{Cell, cell_of, push_row, timed};
use journey::Query;
use plan_base::Time;
use planning::{Destinations, Room};
use run_steps::LineBlocks;
use std::alloc::{AllocError, Global};

/// The lines of the destinations of a table, and the destinations of those that ask when they stand at both ends.
#[derive(Drop)]
pub(crate) struct Table<'a> {
    pub(crate) asking: &'a Asking<'a>,
    pub(crate) lines: &'a [&'a [u8]],
    pub(crate) destinations: &'a Destinations<'a>,
}

/// The line of an origin; and if that asks when it stands at both ends, its query and when best journeys arrive at the
/// destinations.
#[derive(Drop)]
struct Origin<'a> {
    line: &'a [u8],
    query: Option<Query>,
    times: Vec<Option<Time>>,
}

impl LineBlocks for Table<'_> {
    ghost use Rattle.std.specs.Prelude.{◌≡◌};
    ghost use Rattle.matrix_commands.specs.inside.Working.{AreRowsIn, IsReadyTable};

    ghost may = { IsReadyTable };

    ghost is_block = { AreRowsIn };

    ghost counts = { λ _ _ count. count ≡ 0 };

    type Room = Room;

    fn room(&self, alloc: Global) -> Room {
        Room::new(alloc)
    }

    fn block_of(
        &self,
        alloc: Global,
        room: &mut Room,
        line: &[u8],
    ) -> Result<(Vec<u8>, u64), AllocError> {
        let rows = self.rows_of(alloc, room, line)?;
        Ok((rows, 0))
    }

    fn called(&self) -> Option<&'static str> {
        Some("rows")
    }
}

impl Table<'_> {
    /// The rows of an origin, one for each destination, in order.
    fn rows_of(&self, alloc: Global, room: &mut Room, from: &[u8]) -> Result<Vec<u8>, AllocError>
        requires { IsReadyTable self.now }
        ensures { IfOk result (λ rows. AreRowsIn self.now from.now rows.items) }
    {
        let origin = self.origin(alloc, room, from)?;
        let mut rows = Vec::new(alloc);
        for k in 0..self.lines.len() {
            let cell = self.cell(alloc, room, &origin, k)?;
            push_row(&mut rows, from, self.lines[k], cell)?;
        }
        Ok(rows)
    }

    /// The origin of a line, with one search to all destinations.
    fn origin<'b>(
        &self,
        alloc: Global,
        room: &mut Room,
        line: &'b [u8],
    ) -> Result<Origin<'b>, AllocError>
        requires { IsReadyTable self.now }
        ensures line { IfOk result (λ origin. origin.line.now ≡ line.now) }
        ensures is { IfOk result (IsOrigin self.now) }
    {
        let query = read_end(alloc, self.destinations.network, self.asking, line)?;
        let times = match &query {
            Some(query) => self.destinations.arrivals(alloc, room, query)?,
            None => Vec::new(alloc),
        };
        Ok(Origin { line, query, times })
    }

    /// The right cell of an origin and the destination at a place: where both ask when they stand at both ends, the
    /// arrival that was found with all others; else what their query line itself comes to.
    fn cell(
        &self,
        alloc: Global,
        room: &mut Room,
        origin: &Origin<'_>,
        k: usize,
    ) -> Result<Cell, AllocError>
        requires table { IsReadyTable self.now }
        requires origin { IsOrigin self.now origin.now }
        requires place { k < length self.now.lines.now }
        ensures { IfOk result (IsCellIn self.now origin.now.line.now
            (slice_index_or (lines_in self.now) k [])) }
    {
        match (&origin.query, &self.destinations.queries[k]) {
            (Some(query), Some(_)) => Ok(timed(query.depart, origin.times[k])),
            _ => self.cell_apart(alloc, room, origin.line, self.lines[k]),
        }
    }

    /// The right cell of an origin and a destination, by a search of its own.
    fn cell_apart(
        &self,
        alloc: Global,
        room: &mut Room,
        from: &[u8],
        to: &[u8],
    ) -> Result<Cell, AllocError>
        requires { IsReadyTable self.now }
        ensures { IfOk result (IsCellIn self.now from.now to.now) }
    {
        let line = self.asking.line_of(alloc, from, to)?;
        let ends = self.destinations;
        cell_of(
            alloc,
            room,
            ends.network,
            ends.hierarchy,
            self.asking.places,
            &line,
        )
    }
}
