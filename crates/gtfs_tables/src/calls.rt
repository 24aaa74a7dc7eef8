//! stop_times.txt

ghost use Rattle.std.specs.Prelude.{◌≡◌, ◌≤◌, ◌^◌, [], ◌∷◌, ◌++◌, length, not, Ok, Err, IfErr, IfOk, IsTrue, MatchResult};
ghost use Rattle.std.specs.List.{list_any};
ghost use Rattle.gtfs_tables.specs.Answers.{IsFaultOf};
ghost use Rattle.gtfs_tables.specs.Calls as spec;
ghost use Rattle.gtfs_tables.specs.FeedLists.{bytes_of};
ghost use Rattle.gtfs_tables.specs.inside.Holding.{AreRead};
ghost use Rattle.gtfs_tables.specs.Tables.{records_of};

use crate::columns::Column;
use crate::faults::FeedFault;
use crate::files::FeedFile;
use crate::ids::Ids;
use crate::table_rows::TableRow;
use crate::tables::{TakesRows, push_row, read_table};
use indexmap::IndexSet;
use plan_base::{Caps, Kind};
use std::alloc::{AllocError, Global};

/// A call of a trip at a stop: a row of stop_times.txt that has a time.
#[derive(Clone, Copy, Debug)]
pub struct CallRow {
    /// The row's number in stop_times.txt.
    pub row: u64,
    /// The place of its trip in the list of trips.
    pub trip: u32,
    /// The place of its stop in the list of stops.
    pub stop: u32,
    /// stop_sequence
    pub sequence: u32,
    /// Arrival, in seconds from noon minus 12 hours of the service day. Where one of the two times is given it
    /// serves for both.
    pub arr: u32,
    /// Departure, in the same seconds.
    pub dep: u32,
    /// Whether boarding is allowed (`pickup_type` empty or 0).
    pub board: bool,
    /// Whether alighting is allowed (`drop_off_type` empty or 0).
    pub alight: bool,
}

/// The arrival and the departure of a call.
#[derive(Clone, Copy)]
pub(crate) struct Times {
    arr: u32,
    dep: u32,
}

/// What a row says beside the ids of its trip and its stop.
#[derive(Clone, Copy)]
pub(crate) struct Visit {
    sequence: u32,
    times: Option<Times>,
    board: bool,
    alight: bool,
}

/// What a row says.
#[derive(Clone, Copy)]
struct Line<'a> {
    row: u64,
    trip: &'a [u8],
    stop: &'a [u8],
    visit: Visit,
}

/// The calls so far of trips and at stops of these ids, and the trips and the sequence numbers of all rows.
#[derive(Drop)]
pub(crate) struct Calls<'a> {
    caps: Caps,
    trips: &'a Ids,
    stops: &'a Ids,
    keys: IndexSet<(u32, u32)>,
    rows: Vec<CallRow>,
    ghost few_trips: { length trips.now ≤ 2 ^ 32 },
    ghost few_stops: { length stops.now ≤ 2 ^ 32 },
}

/// One of two times serves for both.
fn times_of(arrival: Option<u32>, departure: Option<u32>) -> Option<Times>
    ensures { result ≡ spec.times_of arrival departure }
{
    match (arrival, departure) {
        (None, None) => None,
        (Some(arr), None) => Some(Times { arr, dep: arr }),
        (None, Some(dep)) => Some(Times { arr: dep, dep }),
        (Some(arr), Some(dep)) => Some(Times { arr, dep }),
    }
}

/// The times of a call, if the row has any.
fn read_times(row: &TableRow<'_>) -> Result<Option<Times>, FeedFault>
    ensures { result ≡ spec.times_in row.now }
{
    let arrival = row.optional_time(Column::ArrivalTime)?;
    let departure = row.optional_time(Column::DepartureTime)?;
    Ok(times_of(arrival, departure))
}

/// What a row says of the visit at its stop.
fn read_visit(row: &TableRow<'_>) -> Result<Visit, FeedFault>
    ensures { result ≡ spec.visit_in row.now }
{
    let sequence = row.digits(Column::StopSequence)?;
    let times = read_times(row)?;
    let board = row.is_usual(Column::PickupType, 3)?;
    let alight = row.is_usual(Column::DropOffType, 3)?;
    Ok(Visit {
        sequence,
        times,
        board,
        alight,
    })
}

/// What a row says, or the fault of the first field that is not of its form.
fn read<'a>(row: &TableRow<'a>) -> Result<Line<'a>, FeedFault>
    ensures { MatchResult result (λ line. spec.stop_time_in row.now ≡ Ok
        (record { row = line.row; trip = line.trip.now; stop = line.stop.now; visit = line.visit }))
        (λ fault. spec.stop_time_in row.now ≡ Err fault) }
{
    let trip = row.id(Column::TripId)?;
    let stop = row.id(Column::StopId)?;
    let visit = read_visit(row)?;
    Ok(Line {
        row: row.number(),
        trip,
        stop,
        visit,
    })
}

/// Notes that a trip has a row of this sequence number, and says whether it had none.
fn note(keys: &mut IndexSet<(u32, u32)>, trip: u32, sequence: u32) -> Result<bool, AllocError>
    ensures new { IfOk result (λ new. new ≡ not (list_any (spec.is_same_key (trip, sequence))
        keys.old.keys)) }
    ensures keys { IfOk result (λ new. IsTrue new → keys.new.keys ≡ keys.old.keys ++ (trip, sequence) ∷ []) }
{
    let new = keys.insert((trip, sequence))?;
    Ok(new)
}

/// The call that a row is, if it has a time.
fn call_at(number: u64, trip: u32, stop: u32, visit: Visit) -> Option<CallRow>
    ensures { result ≡ spec.call_if_timed number trip stop visit }
{
    let Times { arr, dep } = visit.times?;
    Some(CallRow {
        row: number,
        trip,
        stop,
        sequence: visit.sequence,
        arr,
        dep,
        board: visit.board,
        alight: visit.alight,
    })
}

impl<'a> Calls<'a> {
    fn new(alloc: Global, caps: &Caps, trips: &'a Ids, stops: &'a Ids) -> Calls<'a>
        requires trips { length trips.now ≤ 2 ^ 32 }
        requires stops { length stops.now ≤ 2 ^ 32 }
        ensures caps { result.caps ≡ caps.now }
        ensures trips { result.trips.now ≡ trips.now }
        ensures stops { result.stops.now ≡ stops.now }
        ensures keys { result.keys.keys ≡ [] }
        ensures rows { result.rows.items ≡ [] }
    {
        Calls {
            caps: *caps,
            trips,
            stops,
            keys: IndexSet::new(alloc),
            rows: Vec::new(alloc),
        }
    }
}

impl<'a> TakesRows for Calls<'a> {
    ghost use Rattle.gtfs_tables.specs.declared.calls.CallRow.{CallRow};

    ghost Said = { spec.StopTime };

    ghost Given = { CallRow };

    ghost table = { λ kept. spec.calls kept.caps kept.trips.now kept.stops.now };

    ghost keeps = { λ kept. spec.KeepsCalls kept.caps kept.trips.now kept.stops.now kept.keys.keys
        kept.rows.items };

    fn take(&mut self, row: &TableRow<'_>) -> Result<(), FeedFault> {
        let line = read(row)?;
        let Some(trip) = self.trips.place(line.trip) else {
            return Err(row.dangling_key(Column::TripId));
        };
        if !note(&mut self.keys, trip as u32, line.visit.sequence)? {
            return Err(row.repeated_key());
        }
        let Some(stop) = self.stops.place(line.stop) else {
            return Err(row.dangling_key(Column::StopId));
        };
        let call = call_at(line.row, trip as u32, stop as u32, line.visit);
        push_row(&mut self.rows, call, Kind::Calls, self.caps.calls)
    }
}

/// The calls of stop_times.txt, of trips and at stops of these ids.
pub(crate) fn read_calls(
    alloc: Global,
    caps: &Caps,
    trips: &Ids,
    stops: &Ids,
    text: Option<&[u8]>,
) -> Result<Vec<CallRow>, FeedFault>
    requires trips { length trips.now ≤ 2 ^ 32 }
    requires stops { length stops.now ≤ 2 ^ 32 }
    ensures calls { IfOk result (λ calls. AreRead (spec.calls caps.now trips.now stops.now)
        (bytes_of text.entry) calls.items) }
    ensures fault { IfErr result (IsFaultOf (records_of (spec.calls caps.now trips.now stops.now)
        (bytes_of text.entry))) }
{
    let needed = [
        Column::TripId,
        Column::StopId,
        Column::StopSequence,
        Column::ArrivalTime,
        Column::DepartureTime,
    ];
    let optional = [Column::PickupType, Column::DropOffType];
    let calls = Calls::new(alloc, caps, trips, stops);
    let calls = read_table(alloc, calls, FeedFile::StopTimes, &needed, &optional, text)?;
    Ok(calls.rows)
}
