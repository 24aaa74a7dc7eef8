//! trips.txt

ghost use Rattle.std.specs.Prelude.{◌≡◌, ◌≤◌, ◌^◌, [], length, map, Ok, Err, IfErr, IfOk, MatchResult};
ghost use Rattle.gtfs_tables.specs.Answers.{IsFaultOf};
ghost use Rattle.gtfs_tables.specs.FeedLists.{bytes_of};
ghost use Rattle.gtfs_tables.specs.inside.Holding.{AreRead, HoldsListed};
ghost use Rattle.gtfs_tables.specs.Tables.{records_of};
ghost use Rattle.gtfs_tables.specs.Trips as spec;

use crate::columns::Column;
use crate::faults::FeedFault;
use crate::files::FeedFile;
use crate::ids::{Id, Ids};
use crate::table_rows::TableRow;
use crate::tables::{Listed, TakesRows, push_row, read_table};
use plan_base::{Caps, Kind};
use std::alloc::{AllocError, Global};

/// A row of trips.txt.
#[derive(Drop)]
pub struct TripRow {
    /// The row's number in trips.txt.
    pub row: u64,
    /// trip_id
    pub id: Id,
    /// The place of its route in the list of routes.
    pub route: u32,
    /// service_id. Where neither calendar table names it the trip runs on no day.
    pub service: Id,
}

/// What a row says.
#[derive(Clone, Copy)]
struct Line<'a> {
    row: u64,
    id: &'a [u8],
    route: &'a [u8],
    service: &'a [u8],
}

/// The trips so far over routes of these ids, and their own ids.
#[derive(Drop)]
pub(crate) struct Trips<'a> {
    alloc: Global,
    caps: Caps,
    routes: &'a Ids,
    ids: Ids,
    rows: Vec<TripRow>,
    ghost few: { length routes.now ≤ 2 ^ 32 },
}

/// What a row says, or the fault of the first field that is not of its form.
fn read<'a>(row: &TableRow<'a>) -> Result<Line<'a>, FeedFault>
    ensures { MatchResult result (λ line. spec.trip_line_in row.now ≡ Ok
        (record { row = line.row; id = line.id.now; route = line.route.now; service = line.service.now }))
        (λ fault. spec.trip_line_in row.now ≡ Err fault) }
{
    let id = row.id(Column::TripId)?;
    let route = row.id(Column::RouteId)?;
    let service = row.id(Column::ServiceId)?;
    Ok(Line {
        row: row.number(),
        id,
        route,
        service,
    })
}

impl Line<'_> {
    /// The trip over the route at this place.
    fn to_row(&self, alloc: Global, route: u32) -> Result<TripRow, AllocError>
        ensures { IfOk result (λ trip. trip ≡ record {
          row = self.now.row;
          id = self.now.id.now;
          route =
              route;
          service = self.now.service.now;
        }) }
    {
        let id = Id::from_slice(alloc, self.id)?;
        let service = Id::from_slice(alloc, self.service)?;
        Ok(TripRow {
            row: self.row,
            id,
            route,
            service,
        })
    }
}

impl<'a> Trips<'a> {
    fn new(alloc: Global, caps: &Caps, routes: &'a Ids) -> Trips<'a>
        requires { length routes.now ≤ 2 ^ 32 }
        ensures caps { result.caps ≡ caps.now }
        ensures routes { result.routes.now ≡ routes.now }
        ensures ids { result.ids ≡ [] }
        ensures rows { result.rows.items ≡ [] }
    {
        Trips {
            alloc,
            caps: *caps,
            routes,
            ids: Ids::new(alloc),
            rows: Vec::new(alloc),
        }
    }
}

impl<'a> TakesRows for Trips<'a> {
    ghost use Rattle.gtfs_tables.specs.declared.trips.TripRow.{TripRow};

    ghost Said = { spec.TripLine };

    ghost Given = { TripRow };

    ghost table = { λ kept. spec.trips kept.caps kept.routes.now };

    ghost keeps = { λ kept. HoldsListed (spec.trips kept.caps kept.routes.now) (λ line. line.id)
        (λ trip. trip.id) kept.ids kept.ids kept.rows.items };

    fn take(&mut self, row: &TableRow<'_>) -> Result<(), FeedFault> {
        let line = read(row)?;
        if !self.ids.insert(line.id)? {
            return Err(row.repeated_key());
        }
        let Some(route) = self.routes.place(line.route) else {
            return Err(row.dangling_key(Column::RouteId));
        };
        let trip = line.to_row(self.alloc, route as u32)?;
        push_row(&mut self.rows, Some(trip), Kind::Trips, self.caps.trips)
    }
}

/// The trips of trips.txt, over routes of these ids.
pub(crate) fn read_trips(
    alloc: Global,
    caps: &Caps,
    routes: &Ids,
    text: Option<&[u8]>,
) -> Result<Listed<TripRow>, FeedFault>
    requires { length routes.now ≤ 2 ^ 32 }
    ensures trips { IfOk result (λ trips. AreRead (spec.trips caps.now routes.now) (bytes_of text.entry)
        trips.rows.items) }
    ensures ids { IfOk result (λ trips. trips.ids ≡ map (λ trip. trip.id) trips.rows.items) }
    ensures fault { IfErr result (IsFaultOf (records_of (spec.trips caps.now routes.now)
        (bytes_of text.entry))) }
{
    let needed = [Column::TripId, Column::RouteId, Column::ServiceId];
    let trips = Trips::new(alloc, caps, routes);
    let trips = read_table(alloc, trips, FeedFile::Trips, &needed, &[], text)?;
    Ok(Listed {
        ids: trips.ids,
        rows: trips.rows,
    })
}
