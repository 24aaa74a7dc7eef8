//! stops.txt

ghost use Rattle.std.specs.Prelude.{◌≡◌, [], ◌++◌, map, false, bytes_eq, option_map, option_to_list, Ok, Err, IfErr, IfOk, MatchResult, OnOk};
ghost use Rattle.std.specs.List.{list_any};
ghost use Rattle.gtfs_tables.specs.Answers.{IsFaultOf};
ghost use Rattle.gtfs_tables.specs.FeedLists.{bytes_of};
ghost use Rattle.gtfs_tables.specs.inside.Holding.{AreRead, HoldsListed};
ghost use Rattle.gtfs_tables.specs.Stops as spec;
ghost use Rattle.gtfs_tables.specs.Tables.{records_of};

use crate::columns::Column;
use crate::faults::FeedFault;
use crate::files::FeedFile;
use crate::ids::{Id, Ids};
use crate::table_rows::TableRow;
use crate::tables::{Listed, TakesRows, push_row, read_table};
use plan_base::{Caps, Kind, Place};
use std::alloc::{AllocError, Global};

/// A stop: a row of stops.txt whose `location_type` is empty or 0.
#[derive(Drop)]
pub struct StopRow {
    /// The row's number in stops.txt.
    pub row: u64,
    /// stop_id
    pub id: Id,
    /// Where it stands, in units of 10^-7 degree.
    pub place: Place,
}

/// What a row says: a stop has a place.
#[derive(Clone, Copy)]
struct Line<'a> {
    row: u64,
    id: &'a [u8],
    place: Option<Place>,
}

/// The stops so far, their ids, and the ids of all rows.
#[derive(Drop)]
pub(crate) struct Stops {
    alloc: Global,
    caps: Caps,
    seen: Ids,
    ids: Ids,
    rows: Vec<StopRow>,
}

/// The place of a stop; that of another location is not looked at.
fn read_place(row: &TableRow<'_>, is_stop: bool) -> Result<Option<Place>, FeedFault>
    ensures { result ≡ spec.place_if_stop row.now is_stop }
{
    if !is_stop {
        return Ok(None);
    }
    let lat = row.degrees(Column::StopLat, 90)?;
    let lon = row.degrees(Column::StopLon, 180)?;
    Ok(Place::new(lat, lon))
}

/// What a row says, or the fault of the first field that is not of its form.
fn read<'a>(row: &TableRow<'a>) -> Result<Line<'a>, FeedFault>
    ensures { MatchResult result (λ line. spec.location_in row.now ≡ Ok
        (record { row = line.row; id = line.id.now; place = line.place }))
        (λ fault. spec.location_in row.now ≡ Err fault) }
{
    let id = row.id(Column::StopId)?;
    let is_stop = row.is_usual(Column::LocationType, 4)?;
    let place = read_place(row, is_stop)?;
    Ok(Line {
        row: row.number(),
        id,
        place,
    })
}

impl Line<'_> {
    /// The stop that a row is, if it is one.
    fn to_row(&self, alloc: Global) -> Result<Option<StopRow>, AllocError>
        ensures { IfOk result (λ stop. stop ≡ spec.stop_of (record
            { row = self.now.row; id = self.now.id.now; place = self.now.place })) }
    {
        let Some(place) = self.place else {
            return Ok(None);
        };
        let id = Id::from_slice(alloc, self.id)?;
        Ok(Some(StopRow {
            row: self.row,
            id,
            place,
        }))
    }

    /// Puts the id of a stop to the others, among which it is not.
    fn note(&self, ids: &mut Ids) -> Result<(), AllocError>
        ensures { list_any (bytes_eq self.now.id.now) ids.old ≡ false
            → OnOk result (ids.new ≡ ids.old ++ option_to_list (option_map (λ _. self.now.id.now)
            self.now.place)) }
    {
        if self.place.is_some() {
            ids.insert(self.id)?;
        }
        Ok(())
    }
}

impl Stops {
    fn new(alloc: Global, caps: &Caps) -> Stops
        ensures caps { result.caps ≡ caps.now }
        ensures seen { result.seen ≡ [] }
        ensures ids { result.ids ≡ [] }
        ensures rows { result.rows.items ≡ [] }
    {
        Stops {
            alloc,
            caps: *caps,
            seen: Ids::new(alloc),
            ids: Ids::new(alloc),
            rows: Vec::new(alloc),
        }
    }
}

impl TakesRows for Stops {
    ghost use Rattle.gtfs_tables.specs.declared.stops.StopRow.{StopRow};

    ghost Said = { spec.Location };

    ghost Given = { StopRow };

    ghost table = { λ kept. spec.stops kept.caps };

    ghost keeps = { λ kept. HoldsListed (spec.stops kept.caps) (λ location. location.id) (λ stop. stop.id)
        kept.seen kept.ids kept.rows.items };

    fn take(&mut self, row: &TableRow<'_>) -> Result<(), FeedFault> {
        let line = read(row)?;
        if !self.seen.insert(line.id)? {
            return Err(row.repeated_key());
        }
        line.note(&mut self.ids)?;
        let stop = line.to_row(self.alloc)?;
        push_row(&mut self.rows, stop, Kind::Stops, self.caps.stops)
    }
}

/// The stops of stops.txt.
pub(crate) fn read_stops(
    alloc: Global,
    caps: &Caps,
    text: Option<&[u8]>,
) -> Result<Listed<StopRow>, FeedFault>
    ensures stops { IfOk result (λ stops. AreRead (spec.stops caps.now) (bytes_of text.entry)
        stops.rows.items) }
    ensures ids { IfOk result (λ stops. stops.ids ≡ map (λ stop. stop.id) stops.rows.items) }
    ensures fault { IfErr result (IsFaultOf (records_of (spec.stops caps.now) (bytes_of text.entry))) }
{
    let needed = [Column::StopId, Column::StopLat, Column::StopLon];
    let optional = [Column::LocationType];
    let stops = read_table(
        alloc,
        Stops::new(alloc, caps),
        FeedFile::Stops,
        &needed,
        &optional,
        text,
    )?;
    Ok(Listed {
        ids: stops.ids,
        rows: stops.rows,
    })
}
