//! Faults of timetable feeds, and of the regions that are built of them.

use crate::maps::too_many;
use crate::pieces::shown;
use csv::{ByteRecord, ReaderBuilder};
use gtfs_tables::{Column, FeedFault, FeedFile, FeedFiles};
use region_build::BuildFault;
use std::alloc::{AllocError, Global};

/// What is wrong with the files of the feed in this folder.
pub fn bad_feed(
    alloc: Global,
    folder: &str,
    files: &FeedFiles<'_>,
    fault: FeedFault,
) -> Result<String, AllocError> {
    match fault {
        FeedFault::MissingFile {
            file: FeedFile::Calendar,
        } => format!(in alloc;
            "{folder}: neither calendar.txt nor calendar_dates.txt is there, and a feed must have one of them"
        ),
        FeedFault::MissingFile { file } => {
            let name = file.name();
            format!(in alloc; "{folder}/{name}: there is no such file, and a feed must have it")
        }
        FeedFault::MissingColumn { file, column } => {
            let (name, column) = (file.name(), column.name());
            format!(in alloc; "{folder}/{name}, row 1: the header must name the column {column}")
        }
        FeedFault::BadField { file, row, column } => {
            wrong_field(
                alloc,
                folder,
                files,
                (file, row, column),
                ("", column.form()),
            )
        }
        FeedFault::DanglingKey { file, row, column } => {
            let asked = ("an id of ", column.table());
            wrong_field(alloc, folder, files, (file, row, column), asked)
        }
        FeedFault::RepeatedKey { file, row } => repeated_key(alloc, folder, files, file, row),
        FeedFault::MixedZones { row } => {
            let at = (FeedFile::Agency, row, Column::AgencyTimezone);
            wrong_field(alloc, folder, files, at, ("", "that of the first row"))
        }
        FeedFault::TooMany { kind } => too_many(alloc, folder, kind.name(), kind.most()),
        FeedFault::OutOfMemory => format!(in alloc; "memory ran out"),
    }
}

/// Why the map and the feed in this folder give no region.
pub fn bad_build(alloc: Global, folder: &str, fault: BuildFault) -> Result<String, AllocError> {
    match fault {
        BuildFault::TimeGoesBack { row } => format!(in alloc;
            "{folder}/trips.txt, row {row}: the times of this trip in stop_times.txt go back; each call departs no earlier than it arrives, and arrives no earlier than the one before departs"
        ),
        BuildFault::TooMany { kind } => {
            let (name, most) = (kind.name(), kind.most());
            format!(in alloc; "the region would have too many {name}; {most} is the most")
        }
        BuildFault::OutOfMemory => format!(in alloc; "memory ran out"),
    }
}

/// The field of a row in a column is not what is asked for, which is told in two words.
fn wrong_field(
    alloc: Global,
    folder: &str,
    files: &FeedFiles<'_>,
    at: (FeedFile, u64, Column),
    asked: (&str, &str),
) -> Result<String, AllocError> {
    let (file, row, column) = at;
    let (name, title) = (file.name(), column.name());
    let (kind, what) = asked;
    let field = field_at(alloc, files, file, row, column)?;
    format!(in alloc; "{folder}/{name}, row {row}: {title} is {field}: it must be {kind}{what}")
}

/// A row of a file has the key that an earlier one has, which is looked for by its text.
fn repeated_key(
    alloc: Global,
    folder: &str,
    files: &FeedFiles<'_>,
    file: FeedFile,
    row: u64,
) -> Result<String, AllocError> {
    let columns = key_of(file);
    let one = raw_field(alloc, files, file, row, columns.0)?;
    let other = raw_field(alloc, files, file, row, columns.1)?;
    let key = key_shown(alloc, columns, (&one, &other))?;
    let name = file.name();
    match first_row(alloc, files, file, columns, (&one, &other)) {
        Some(first) if first < row => format!(in alloc;
            "{folder}/{name}, row {row}: {key}, as in row {first}: no two rows may have the same"
        ),
        _ => format!(in alloc;
            "{folder}/{name}, row {row}: {key}, as in an earlier row: no two rows may have the same"
        ),
    }
}

/// The columns of a file that no two rows have alike; the same one twice, where it is one.
fn key_of(file: FeedFile) -> (Column, Column) {
    match file {
        FeedFile::CalendarDates => (Column::ServiceId, Column::Date),
        FeedFile::StopTimes => (Column::TripId, Column::StopSequence),
        FeedFile::Stops => (Column::StopId, Column::StopId),
        FeedFile::Routes => (Column::RouteId, Column::RouteId),
        FeedFile::Trips => (Column::TripId, Column::TripId),
        _ => (Column::ServiceId, Column::ServiceId),
    }
}

/// A key in words, as people can read it.
fn key_shown(
    alloc: Global,
    columns: (Column, Column),
    fields: (&[u8], &[u8]),
) -> Result<String, AllocError> {
    let (one, first) = (columns.0.name(), shown(alloc, fields.0)?);
    if columns.0 == columns.1 {
        return format!(in alloc; "{one} is {first}");
    }
    let (other, second) = (columns.1.name(), shown(alloc, fields.1)?);
    format!(in alloc; "{one} is {first} and {other} is {second}")
}

fn text_of<'a>(files: &FeedFiles<'a>, file: FeedFile) -> Option<&'a [u8]> {
    match file {
        FeedFile::Agency => files.agency,
        FeedFile::Stops => files.stops,
        FeedFile::Routes => files.routes,
        FeedFile::Calendar => files.calendar,
        FeedFile::CalendarDates => files.calendar_dates,
        FeedFile::Trips => files.trips,
        FeedFile::Frequencies => files.frequencies,
        FeedFile::StopTimes => files.stop_times,
    }
}

/// The field of a row, counted from 1 at the header, in a column, as people can read it. A field that is not there is empty.
fn field_at(
    alloc: Global,
    files: &FeedFiles<'_>,
    file: FeedFile,
    row: u64,
    column: Column,
) -> Result<String, AllocError> {
    let field = raw_field(alloc, files, file, row, column)?;
    shown(alloc, &field)
}

/// The bytes of the field of a row, counted from 1 at the header, in a column. A field that is not there is empty.
fn raw_field(
    alloc: Global,
    files: &FeedFiles<'_>,
    file: FeedFile,
    row: u64,
    column: Column,
) -> Result<Vec<u8>, AllocError> {
    let mut place = None;
    let mut number: u64 = 0;
    let reader = ReaderBuilder::new()
        .has_headers(false)
        .flexible(true)
        .from_reader(alloc, text_of(files, file).unwrap_or(&[]));
    for record in reader.into_byte_records() {
        let Ok(record) = record else {
            break;
        };
        number = number.saturating_add(1);
        if number == 1 {
            place = column_in(&record, column.name().as_bytes());
        }
        if number == row {
            let field = place.and_then(|place| record.get(place)).unwrap_or(&[]);
            return Ok(Vec::from_slice(alloc, field)?);
        }
    }
    Ok(Vec::new(alloc))
}

/// The first row behind the header that has these fields in these columns.
fn first_row(
    alloc: Global,
    files: &FeedFiles<'_>,
    file: FeedFile,
    columns: (Column, Column),
    fields: (&[u8], &[u8]),
) -> Option<u64> {
    let mut places = None;
    let mut number: u64 = 0;
    let reader = ReaderBuilder::new()
        .has_headers(false)
        .flexible(true)
        .from_reader(alloc, text_of(files, file).unwrap_or(&[]));
    for record in reader.into_byte_records() {
        let Ok(record) = record else {
            break;
        };
        number = number.saturating_add(1);
        if number == 1 {
            let one = column_in(&record, columns.0.name().as_bytes())?;
            let other = column_in(&record, columns.1.name().as_bytes())?;
            places = Some((one, other));
        } else if places.is_some_and(|places| has_fields(&record, places, fields)) {
            return Some(number);
        }
    }
    None
}

/// Whether a row has these fields at these places.
fn has_fields(record: &ByteRecord, places: (usize, usize), fields: (&[u8], &[u8])) -> bool {
    record.get(places.0) == Some(fields.0) && record.get(places.1) == Some(fields.1)
}

/// Where a header names a column first.
fn column_in(header: &ByteRecord, name: &[u8]) -> Option<usize> {
    header.iter().position(|field| field == name)
}
