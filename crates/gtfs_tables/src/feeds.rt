//! What the files of a feed give.

ghost use Rattle.std.specs.Prelude.{◌≡◌, None, Ok, IfOk, IfErr};
ghost use Rattle.gtfs_tables.specs.Answers.{IsFaultOf};
ghost use Rattle.gtfs_tables.specs.Feeds.{feed_of, first_absent, required};
ghost use Rattle.gtfs_tables.specs.inside.ReadTables.{AreTripTables, IsBasis, feed_rows};
ghost use Rattle.gtfs_tables.specs.Sound.{IsFeed};

use crate::agencies::check_agencies;
use crate::calls::{CallRow, read_calls};
use crate::dates::{DateRow, read_dates};
use crate::faults::FeedFault;
use crate::files::{FeedFile, FeedFiles};
use crate::frequencies::{FrequencyRow, read_frequencies};
use crate::routes::{RouteRow, read_routes};
use crate::services::{ServiceRow, read_services};
use crate::stops::{StopRow, read_stops};
use crate::tables::Listed;
use crate::trips::{TripRow, read_trips};
use plan_base::Caps;
use std::alloc::Global;
use std::marker::Model;

/// The rows of a feed's tables, in file order. A contract sees them as lists.
#[derive(Drop)]
pub struct Feed {
    /// The rows of stops.txt that are stops.
    pub stops: Vec<StopRow>,
    /// The rows of routes.txt.
    pub routes: Vec<RouteRow>,
    /// The rows of calendar.txt.
    pub services: Vec<ServiceRow>,
    /// The rows of calendar_dates.txt.
    pub dates: Vec<DateRow>,
    /// The rows of trips.txt.
    pub trips: Vec<TripRow>,
    /// The rows of frequencies.txt; none where the file is not there.
    pub frequencies: Vec<FrequencyRow>,
    /// The rows of stop_times.txt that are calls.
    pub calls: Vec<CallRow>,
}

impl Model for Feed {
    ghost use Rattle.gtfs_tables.specs.FeedLists.{FeedLists};

    ghost Value = { FeedLists };

    ghost view = { λ f. record {
      stops = f.stops.items;
      routes = f.routes.items;
      services = f.services.items;
      dates = f.dates.items;
      trips = f.trips.items;
      frequencies = f.frequencies.items;
      calls =
          f.calls.items;
    } };
}

/// The first file that must be there and is not. One of the two calendar files suffices.
fn first_absent(files: &FeedFiles<'_>) -> Option<FeedFile>
    ensures { result ≡ first_absent (required files.now) }
{
    if files.agency.is_none() {
        Some(FeedFile::Agency)
    } else if files.stops.is_none() {
        Some(FeedFile::Stops)
    } else if files.routes.is_none() {
        Some(FeedFile::Routes)
    } else if files.calendar.is_none() && files.calendar_dates.is_none() {
        Some(FeedFile::Calendar)
    } else if files.trips.is_none() {
        Some(FeedFile::Trips)
    } else if files.stop_times.is_none() {
        Some(FeedFile::StopTimes)
    } else {
        None
    }
}

/// The tables that those of the trips are checked against, and the calendar.
#[derive(Drop)]
pub(crate) struct Basis {
    stops: Listed<StopRow>,
    routes: Listed<RouteRow>,
    services: Vec<ServiceRow>,
    dates: Vec<DateRow>,
}

/// The tables of the trips.
#[derive(Drop)]
pub(crate) struct Runs {
    trips: Listed<TripRow>,
    frequencies: Vec<FrequencyRow>,
    calls: Vec<CallRow>,
}

/// Reads the files of a feed down to the dates. All that are required are there.
fn read_basis(alloc: Global, files: &FeedFiles<'_>, caps: &Caps) -> Result<Basis, FeedFault>
    requires { first_absent (required files.now) ≡ None }
    ensures basis { IfOk result (IsBasis caps.now files.now) }
    ensures fault { IfErr result (IsFaultOf (feed_of caps.now files.now)) }
{
    check_agencies(alloc, files.agency)?;
    let stops = read_stops(alloc, caps, files.stops)?;
    let routes = read_routes(alloc, caps, files.routes)?;
    let services = read_services(alloc, caps, files.calendar)?;
    let dates = read_dates(alloc, caps, files.calendar_dates)?;
    Ok(Basis {
        stops,
        routes,
        services,
        dates,
    })
}

/// Reads the files of a feed from the trips on.
fn read_runs(
    alloc: Global,
    files: &FeedFiles<'_>,
    caps: &Caps,
    basis: &Basis,
) -> Result<Runs, FeedFault>
    requires { IsBasis caps.now files.now basis.now }
    ensures runs { IfOk result (AreTripTables caps.now files.now basis.now) }
    ensures fault { IfErr result (IsFaultOf (feed_of caps.now files.now)) }
{
    let trips = read_trips(alloc, caps, &basis.routes.ids, files.trips)?;
    let frequencies = read_frequencies(alloc, &trips.ids, files.frequencies)?;
    let calls = read_calls(alloc, caps, &trips.ids, &basis.stops.ids, files.stop_times)?;
    Ok(Runs {
        trips,
        frequencies,
        calls,
    })
}

/// The rows of all tables, without the ids.
fn gathered(basis: Basis, runs: Runs) -> Feed
    ensures { result ≡ feed_rows basis runs }
{
    let Basis {
        stops,
        routes,
        services,
        dates,
    } = basis;
    let Runs {
        trips,
        frequencies,
        calls,
    } = runs;
    Feed {
        stops: stops.rows,
        routes: routes.rows,
        services,
        dates,
        trips: trips.rows,
        frequencies,
        calls,
    }
}

/// Reads the files of a feed, of which all that are required are there.
fn read_present(alloc: Global, files: &FeedFiles<'_>, caps: &Caps) -> Result<Feed, FeedFault>
    requires { first_absent (required files.now) ≡ None }
    ensures feed { IfOk result (λ feed. feed_of caps.now files.now ≡ Ok feed) }
    ensures sound { IfOk result IsFeed }
    ensures fault { IfErr result (IsFaultOf (feed_of caps.now files.now)) }
{
    let basis = read_basis(alloc, files, caps)?;
    let runs = read_runs(alloc, files, caps, &basis)?;
    Ok(gathered(basis, runs))
}

/// Reads the files of a feed: the rows of its tables, or the first fault.
///
/// The limits are those of stops, routes, services, dates, trips and calls. Nothing is read where a required file
/// is absent, and the first fault ends the reading.
pub fn read_feed(alloc: Global, files: &FeedFiles<'_>, caps: &Caps) -> Result<Feed, FeedFault>
    ensures feed { IfOk result (λ feed. feed_of caps.now files.now ≡ Ok feed) }
    ensures sound { IfOk result IsFeed }
    ensures fault { IfErr result (IsFaultOf (feed_of caps.now files.now)) }
{
    if let Some(file) = first_absent(files) {
        return Err(FeedFault::MissingFile { file });
    }
    read_present(alloc, files, caps)
}
