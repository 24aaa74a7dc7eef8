//! calendar_dates.txt

ghost use Rattle.std.specs.Prelude.{◌≡◌, [], ◌∷◌, ◌++◌, Ok, Err, IfErr, IfOk, MatchResult};
ghost use Rattle.gtfs_tables.specs.Answers.{IsFaultOf};
ghost use Rattle.gtfs_tables.specs.FeedLists.{bytes_of};
ghost use Rattle.gtfs_tables.specs.inside.Holding.{AreRead, Holds};
ghost use Rattle.gtfs_tables.specs.ServiceDates as spec;
ghost use Rattle.gtfs_tables.specs.Tables.{records_of};

use crate::columns::Column;
use crate::faults::FeedFault;
use crate::files::FeedFile;
use crate::ids::Id;
use crate::table_rows::TableRow;
use crate::tables::{TakesRows, push_row, read_table};
use indexmap::IndexSet;
use plan_base::{Caps, Kind};
use std::alloc::{AllocError, Global};
use std::marker::Model;

/// A row of calendar_dates.txt.
#[derive(Drop)]
pub struct DateRow {
    /// The row's number in calendar_dates.txt.
    pub row: u64,
    /// service_id
    pub id: Id,
    /// The date, YYYYMMDD.
    pub date: u32,
    /// Whether the service is added on the date (`exception_type` 1), or removed (2).
    pub added: bool,
}

/// What a row says.
#[derive(Clone, Copy)]
struct Line<'a> {
    row: u64,
    id: &'a [u8],
    date: u32,
    added: bool,
}

/// Services with a date each. A contract sees them as a list of pairs.
#[derive(Drop)]
pub(crate) struct Pairs {
    alloc: Global,
    pairs: IndexSet<(Vec<u8>, u32)>,
}

impl Model for Pairs {
    ghost use Rattle.std.specs.Prelude.{List, ℕ, map};

    ghost Value = { List (List ℕ × ℕ) };

    ghost view = { λ s. map (λ pair. (pair.0.items, pair.1)) s.pairs.keys };
}

impl Pairs {
    ghost use Rattle.std.specs.Prelude.{◌≡◌, ◌∷◌, [], ◌++◌, not, IfOk, IsTrue};
    ghost use Rattle.std.specs.List.{list_any};
    ghost use Rattle.gtfs_tables.specs.ServiceDates.{is_same_pair};

    fn new(alloc: Global) -> Pairs
        ensures { result ≡ [] }
    {
        Pairs {
            alloc,
            pairs: IndexSet::new(alloc),
        }
    }

    /// Puts a pair to the others, and says whether it is new.
    fn insert(&mut self, id: &[u8], date: u32) -> Result<bool, AllocError>
        ensures new { IfOk result (λ new. new ≡ not (list_any (is_same_pair (id.now, date)) self.old)) }
        ensures pairs { IfOk result (λ new. IsTrue new → self.new ≡ self.old ++ (id.now, date) ∷ []) }
    {
        let id = Vec::from_slice(self.alloc, id)?;
        let new = self.pairs.insert((id, date))?;
        Ok(new)
    }
}

/// The rows so far, and their keys.
#[derive(Drop)]
pub(crate) struct Dates {
    alloc: Global,
    caps: Caps,
    pairs: Pairs,
    rows: Vec<DateRow>,
}

/// What a row says, or the fault of the first field that is not of its form.
fn read<'a>(row: &TableRow<'a>) -> Result<Line<'a>, FeedFault>
    ensures { MatchResult result (λ line. spec.date_in row.now ≡ Ok
        (record { row = line.row; id = line.id.now; date = line.date; added = line.added }))
        (λ fault. spec.date_in row.now ≡ Err fault) }
{
    let id = row.id(Column::ServiceId)?;
    let date = row.date(Column::Date)?;
    let added = row.added(Column::ExceptionType)?;
    Ok(Line {
        row: row.number(),
        id,
        date,
        added,
    })
}

impl Line<'_> {
    fn to_row(&self, alloc: Global) -> Result<DateRow, AllocError>
        ensures { IfOk result (λ date. date ≡ record {
          row = self.now.row;
          id = self.now.id.now;
          date =
              self.now.date;
          added = self.now.added;
        }) }
    {
        let id = Id::from_slice(alloc, self.id)?;
        Ok(DateRow {
            row: self.row,
            id,
            date: self.date,
            added: self.added,
        })
    }
}

impl Dates {
    fn new(alloc: Global, caps: &Caps) -> Dates
        ensures caps { result.caps ≡ caps.now }
        ensures pairs { result.pairs ≡ [] }
        ensures rows { result.rows.items ≡ [] }
    {
        Dates {
            alloc,
            caps: *caps,
            pairs: Pairs::new(alloc),
            rows: Vec::new(alloc),
        }
    }
}

impl TakesRows for Dates {
    ghost use Rattle.gtfs_tables.specs.declared.dates.DateRow.{DateRow};

    ghost Said = { DateRow };

    ghost Given = { DateRow };

    ghost table = { λ kept. spec.dates kept.caps };

    ghost keeps = { λ kept. Holds (spec.dates kept.caps) spec.service_date_of kept.pairs kept.rows.items };

    fn take(&mut self, row: &TableRow<'_>) -> Result<(), FeedFault> {
        let line = read(row)?;
        if !self.pairs.insert(line.id, line.date)? {
            return Err(row.repeated_key());
        }
        let date = line.to_row(self.alloc)?;
        push_row(&mut self.rows, Some(date), Kind::Dates, self.caps.dates)
    }
}

/// The dates of calendar_dates.txt.
pub(crate) fn read_dates(
    alloc: Global,
    caps: &Caps,
    text: Option<&[u8]>,
) -> Result<Vec<DateRow>, FeedFault>
    ensures dates { IfOk result (λ dates. AreRead (spec.dates caps.now) (bytes_of text.entry) dates.items) }
    ensures fault { IfErr result (IsFaultOf (records_of (spec.dates caps.now) (bytes_of text.entry))) }
{
    let needed = [Column::ServiceId, Column::Date, Column::ExceptionType];
    let dates = Dates::new(alloc, caps);
    let dates = read_table(alloc, dates, FeedFile::CalendarDates, &needed, &[], text)?;
    Ok(dates.rows)
}
