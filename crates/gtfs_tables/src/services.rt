//! calendar.txt

ghost use Rattle.std.specs.Prelude.{◌≡◌, [], Ok, Err, IfErr, IfOk, MatchResult};
ghost use Rattle.gtfs_tables.specs.Answers.{IsFaultOf};
ghost use Rattle.gtfs_tables.specs.FeedLists.{bytes_of};
ghost use Rattle.gtfs_tables.specs.inside.Holding.{AreRead, Holds};
ghost use Rattle.gtfs_tables.specs.Services as spec;
ghost use Rattle.gtfs_tables.specs.Tables.{records_of};

use crate::columns::Column;
use crate::faults::FeedFault;
use crate::files::FeedFile;
use crate::ids::{Id, Ids};
use crate::table_rows::TableRow;
use crate::tables::{TakesRows, push_row, read_table};
use plan_base::{Caps, Kind};
use service_days::ServiceRule;
use std::alloc::{AllocError, Global};

/// A row of calendar.txt.
#[derive(Drop)]
pub struct ServiceRow {
    /// The row's number in calendar.txt.
    pub row: u64,
    /// service_id
    pub id: Id,
    /// The weekdays on which the service runs, from its first date to its last. A rule whose last date is before
    /// its first holds no day.
    pub rule: ServiceRule,
}

/// What a row says.
#[derive(Clone, Copy)]
struct Line<'a> {
    row: u64,
    id: &'a [u8],
    rule: ServiceRule,
}

/// The services so far, and their ids.
#[derive(Drop)]
pub(crate) struct Services {
    alloc: Global,
    caps: Caps,
    ids: Ids,
    rows: Vec<ServiceRow>,
}

/// The weekdays, Monday first.
fn read_weekdays(row: &TableRow<'_>) -> Result<[bool; 7], FeedFault>
    ensures { result ≡ spec.weekdays_in row.now }
{
    let monday = row.flag(Column::Monday)?;
    let tuesday = row.flag(Column::Tuesday)?;
    let wednesday = row.flag(Column::Wednesday)?;
    let thursday = row.flag(Column::Thursday)?;
    let friday = row.flag(Column::Friday)?;
    let saturday = row.flag(Column::Saturday)?;
    let sunday = row.flag(Column::Sunday)?;
    Ok([
        monday, tuesday, wednesday, thursday, friday, saturday, sunday,
    ])
}

/// The weekdays of a service, and its first and its last date.
fn read_rule(row: &TableRow<'_>) -> Result<ServiceRule, FeedFault>
    ensures { result ≡ spec.rule_in row.now }
{
    let weekdays = read_weekdays(row)?;
    let first = row.date(Column::StartDate)?;
    let last = row.date(Column::EndDate)?;
    Ok(ServiceRule {
        weekdays,
        first,
        last,
    })
}

/// What a row says, or the fault of the first field that is not of its form.
fn read<'a>(row: &TableRow<'a>) -> Result<Line<'a>, FeedFault>
    ensures { MatchResult result
        (λ line. spec.service_in row.now ≡ Ok (record { row = line.row; id = line.id.now; rule = line.rule }))
        (λ fault. spec.service_in row.now ≡ Err fault) }
{
    let id = row.id(Column::ServiceId)?;
    let rule = read_rule(row)?;
    Ok(Line {
        row: row.number(),
        id,
        rule,
    })
}

impl Line<'_> {
    fn to_row(&self, alloc: Global) -> Result<ServiceRow, AllocError>
        ensures { IfOk result (λ service. service ≡ record {
          row = self.now.row;
          id = self.now.id.now;
          rule =
              self.now.rule;
        }) }
    {
        let id = Id::from_slice(alloc, self.id)?;
        Ok(ServiceRow {
            row: self.row,
            id,
            rule: self.rule,
        })
    }
}

impl Services {
    fn new(alloc: Global, caps: &Caps) -> Services
        ensures caps { result.caps ≡ caps.now }
        ensures ids { result.ids ≡ [] }
        ensures rows { result.rows.items ≡ [] }
    {
        Services {
            alloc,
            caps: *caps,
            ids: Ids::new(alloc),
            rows: Vec::new(alloc),
        }
    }
}

impl TakesRows for Services {
    ghost use Rattle.gtfs_tables.specs.declared.services.ServiceRow.{ServiceRow};

    ghost Said = { ServiceRow };

    ghost Given = { ServiceRow };

    ghost table = { λ kept. spec.services kept.caps };

    ghost keeps = { λ kept. Holds (spec.services kept.caps) (λ service. service.id) kept.ids
        kept.rows.items };

    fn take(&mut self, row: &TableRow<'_>) -> Result<(), FeedFault> {
        let line = read(row)?;
        if !self.ids.insert(line.id)? {
            return Err(row.repeated_key());
        }
        let service = line.to_row(self.alloc)?;
        push_row(
            &mut self.rows,
            Some(service),
            Kind::Services,
            self.caps.services,
        )
    }
}

/// The services of calendar.txt.
pub(crate) fn read_services(
    alloc: Global,
    caps: &Caps,
    text: Option<&[u8]>,
) -> Result<Vec<ServiceRow>, FeedFault>
    ensures services { IfOk result (λ services. AreRead (spec.services caps.now) (bytes_of text.entry)
        services.items) }
    ensures fault { IfErr result (IsFaultOf (records_of (spec.services caps.now) (bytes_of text.entry))) }
{
    let needed = [
        Column::ServiceId,
        Column::Monday,
        Column::Tuesday,
        Column::Wednesday,
        Column::Thursday,
        Column::Friday,
        Column::Saturday,
        Column::Sunday,
        Column::StartDate,
        Column::EndDate,
    ];
    let services = Services::new(alloc, caps);
    let services = read_table(alloc, services, FeedFile::Calendar, &needed, &[], text)?;
    Ok(services.rows)
}
