//! routes.txt

ghost use Rattle.std.specs.Prelude.{◌≡◌, [], map, Ok, Err, IfErr, IfOk, MatchResult};
ghost use Rattle.gtfs_tables.specs.Answers.{IsFaultOf};
ghost use Rattle.gtfs_tables.specs.FeedLists.{bytes_of};
ghost use Rattle.gtfs_tables.specs.inside.Holding.{AreRead, Holds};
ghost use Rattle.gtfs_tables.specs.Routes as spec;
ghost use Rattle.gtfs_tables.specs.Tables.{records_of};

use crate::columns::Column;
use crate::faults::FeedFault;
use crate::files::FeedFile;
use crate::ids::{Id, Ids};
use crate::table_rows::TableRow;
use crate::tables::{Listed, TakesRows, push_row, read_table};
use crate::texts::letter_of;
use plan_base::{Caps, Kind};
use std::alloc::{AllocError, Global};

/// A row of routes.txt.
#[derive(Drop)]
pub struct RouteRow {
    /// The row's number in routes.txt.
    pub row: u64,
    /// route_id
    pub id: Id,
    /// The letter of its `route_type`, from tram (3) to other (13).
    pub letter: u8,
}

/// What a row says.
#[derive(Clone, Copy)]
struct Line<'a> {
    row: u64,
    id: &'a [u8],
    letter: u8,
}

/// The routes so far, and their ids.
#[derive(Drop)]
pub(crate) struct Routes {
    alloc: Global,
    caps: Caps,
    ids: Ids,
    rows: Vec<RouteRow>,
}

/// What a row says, or the fault of the first field that is not of its form.
fn read<'a>(row: &TableRow<'a>) -> Result<Line<'a>, FeedFault>
    ensures { MatchResult result (λ line. spec.route_in row.now ≡ Ok
        (record { row = line.row; id = line.id.now; letter = line.letter }))
        (λ fault. spec.route_in row.now ≡ Err fault) }
{
    let id = row.id(Column::RouteId)?;
    let type_ = row.digits(Column::RouteType)?;
    Ok(Line {
        row: row.number(),
        id,
        letter: letter_of(type_),
    })
}

impl Line<'_> {
    fn to_row(&self, alloc: Global) -> Result<RouteRow, AllocError>
        ensures { IfOk result (λ route. route ≡ record {
          row = self.now.row;
          id = self.now.id.now;
          letter =
              self.now.letter;
        }) }
    {
        let id = Id::from_slice(alloc, self.id)?;
        Ok(RouteRow {
            row: self.row,
            id,
            letter: self.letter,
        })
    }
}

impl Routes {
    fn new(alloc: Global, caps: &Caps) -> Routes
        ensures caps { result.caps ≡ caps.now }
        ensures ids { result.ids ≡ [] }
        ensures rows { result.rows.items ≡ [] }
    {
        Routes {
            alloc,
            caps: *caps,
            ids: Ids::new(alloc),
            rows: Vec::new(alloc),
        }
    }
}

impl TakesRows for Routes {
    ghost use Rattle.gtfs_tables.specs.declared.routes.RouteRow.{RouteRow};

    ghost Said = { RouteRow };

    ghost Given = { RouteRow };

    ghost table = { λ kept. spec.routes kept.caps };

    ghost keeps = { λ kept. Holds (spec.routes kept.caps) (λ route. route.id) kept.ids kept.rows.items };

    fn take(&mut self, row: &TableRow<'_>) -> Result<(), FeedFault> {
        let line = read(row)?;
        if !self.ids.insert(line.id)? {
            return Err(row.repeated_key());
        }
        let route = line.to_row(self.alloc)?;
        push_row(&mut self.rows, Some(route), Kind::Routes, self.caps.routes)
    }
}

/// The routes of routes.txt.
pub(crate) fn read_routes(
    alloc: Global,
    caps: &Caps,
    text: Option<&[u8]>,
) -> Result<Listed<RouteRow>, FeedFault>
    ensures routes { IfOk result (λ routes. AreRead (spec.routes caps.now) (bytes_of text.entry)
        routes.rows.items) }
    ensures ids { IfOk result (λ routes. routes.ids ≡ map (λ route. route.id) routes.rows.items) }
    ensures fault { IfErr result (IsFaultOf (records_of (spec.routes caps.now) (bytes_of text.entry))) }
{
    let needed = [Column::RouteId, Column::RouteType];
    let routes = read_table(
        alloc,
        Routes::new(alloc, caps),
        FeedFile::Routes,
        &needed,
        &[],
        text,
    )?;
    Ok(Listed {
        ids: routes.ids,
        rows: routes.rows,
    })
}
