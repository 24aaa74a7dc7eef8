//! frequencies.txt

ghost use Rattle.std.specs.Prelude.{◌≡◌, ◌≤◌, ◌^◌, [], length, Ok, Err, IfErr, IfOk, MatchResult};
ghost use Rattle.gtfs_tables.specs.Answers.{IsFaultOf};
ghost use Rattle.gtfs_tables.specs.FeedLists.{bytes_of};
ghost use Rattle.gtfs_tables.specs.Frequencies as spec;
ghost use Rattle.gtfs_tables.specs.inside.Holding.{AreRead};
ghost use Rattle.gtfs_tables.specs.Tables.{records_of};

use crate::columns::Column;
use crate::faults::FeedFault;
use crate::files::FeedFile;
use crate::ids::Ids;
use crate::table_rows::TableRow;
use crate::tables::{TakesRows, put, read_table};
use std::alloc::Global;

/// A row of frequencies.txt: from a time on and before another one, a trip leaves anew at a steady headway.
#[derive(Clone, Copy, Debug)]
pub struct FrequencyRow {
    /// The row's number in frequencies.txt.
    pub row: u64,
    /// The place of its trip in the list of trips.
    pub trip: u32,
    /// When the first trip leaves its first stop, in seconds from noon minus 12 hours of the service day.
    pub start: u32,
    /// No trip leaves at this time or later.
    pub end: u32,
    /// The seconds from one trip to the next, at least 1.
    pub headway: u32,
    /// Whether the times are exact (`exact_times` is 1).
    pub exact: bool,
}

/// What a row says beside the id of its trip.
#[derive(Clone, Copy)]
pub(crate) struct Span {
    start: u32,
    end: u32,
    headway: u32,
    exact: bool,
}

/// What a row says.
#[derive(Clone, Copy)]
struct Line<'a> {
    row: u64,
    trip: &'a [u8],
    span: Span,
}

/// The rows so far, of trips of these ids.
#[derive(Drop)]
pub(crate) struct Frequencies<'a> {
    trips: &'a Ids,
    rows: Vec<FrequencyRow>,
    ghost few: { length trips.now ≤ 2 ^ 32 },
}

fn read_span(row: &TableRow<'_>) -> Result<Span, FeedFault>
    ensures { result ≡ spec.span_in row.now }
{
    let start = row.time(Column::StartTime)?;
    let end = row.time(Column::EndTime)?;
    let headway = row.headway(Column::HeadwaySecs)?;
    let inexact = row.is_usual(Column::ExactTimes, 1)?;
    Ok(Span {
        start,
        end,
        headway,
        exact: !inexact,
    })
}

/// What a row says, or the fault of the first field that is not of its form.
fn read<'a>(row: &TableRow<'a>) -> Result<Line<'a>, FeedFault>
    ensures { MatchResult result (λ line. spec.frequency_in row.now ≡ Ok
        (record { row = line.row; trip = line.trip.now; span = line.span }))
        (λ fault. spec.frequency_in row.now ≡ Err fault) }
{
    let trip = row.id(Column::TripId)?;
    let span = read_span(row)?;
    Ok(Line {
        row: row.number(),
        trip,
        span,
    })
}

impl Span {
    /// The row of the trip at this place.
    fn to_row(self, number: u64, trip: u32) -> FrequencyRow
        ensures { result ≡ record {
          row = number;
          trip = trip;
          start = self.start;
          end = self.end;
          headway =
              self.headway;
          exact = self.exact;
        } }
    {
        let Span {
            start,
            end,
            headway,
            exact,
        } = self;
        FrequencyRow {
            row: number,
            trip,
            start,
            end,
            headway,
            exact,
        }
    }
}

impl<'a> Frequencies<'a> {
    fn new(alloc: Global, trips: &'a Ids) -> Frequencies<'a>
        requires { length trips.now ≤ 2 ^ 32 }
        ensures trips { result.trips.now ≡ trips.now }
        ensures rows { result.rows.items ≡ [] }
    {
        Frequencies {
            trips,
            rows: Vec::new(alloc),
        }
    }
}

impl<'a> TakesRows for Frequencies<'a> {
    ghost use Rattle.std.specs.Prelude.{filter_map};
    ghost use Rattle.gtfs_tables.specs.declared.frequencies.FrequencyRow.{FrequencyRow};

    ghost Said = { spec.Frequency };

    ghost Given = { FrequencyRow };

    ghost table = { λ kept. spec.frequencies kept.trips.now };

    ghost keeps = { λ kept earlier. kept.rows.items ≡ filter_map (spec.frequency_of kept.trips.now) earlier };

    fn take(&mut self, row: &TableRow<'_>) -> Result<(), FeedFault> {
        let line = read(row)?;
        let Some(trip) = self.trips.place(line.trip) else {
            return Err(row.dangling_key(Column::TripId));
        };
        put(
            &mut self.rows,
            Some(line.span.to_row(line.row, trip as u32)),
        )?;
        Ok(())
    }
}

/// The rows of frequencies.txt, of trips of these ids.
pub(crate) fn read_frequencies(
    alloc: Global,
    trips: &Ids,
    text: Option<&[u8]>,
) -> Result<Vec<FrequencyRow>, FeedFault>
    requires { length trips.now ≤ 2 ^ 32 }
    ensures frequencies { IfOk result (λ rows. AreRead (spec.frequencies trips.now) (bytes_of text.entry)
        rows.items) }
    ensures fault { IfErr result (IsFaultOf (records_of (spec.frequencies trips.now) (bytes_of text.entry))) }
{
    let needed = [
        Column::TripId,
        Column::StartTime,
        Column::EndTime,
        Column::HeadwaySecs,
    ];
    let optional = [Column::ExactTimes];
    let frequencies = Frequencies::new(alloc, trips);
    let file = FeedFile::Frequencies;
    let frequencies = read_table(alloc, frequencies, file, &needed, &optional, text)?;
    Ok(frequencies.rows)
}
