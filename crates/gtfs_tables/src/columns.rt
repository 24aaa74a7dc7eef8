//! The columns of a feed's tables, and where a header names them.

ghost use Rattle.std.specs.Prelude.{◌≡◌, ◌<◌, [], length, bytes_eq, slice_index_or};
ghost use Rattle.csv.specs.Records.{fields_of};
ghost use Rattle.gtfs_tables.specs.Columns.{column_name, first_missing, place_of_column};

use csv::ByteRecord;

/// A column of a feed's tables. A column of one name in several files is one of these.
#[derive(Clone, Copy, Debug, PartialEq, Eq)]
pub enum Column {
    /// agency_timezone
    AgencyTimezone,
    /// stop_id
    StopId,
    /// location_type
    LocationType,
    /// stop_lat
    StopLat,
    /// stop_lon
    StopLon,
    /// route_id
    RouteId,
    /// route_type
    RouteType,
    /// service_id
    ServiceId,
    /// monday
    Monday,
    /// tuesday
    Tuesday,
    /// wednesday
    Wednesday,
    /// thursday
    Thursday,
    /// friday
    Friday,
    /// saturday
    Saturday,
    /// sunday
    Sunday,
    /// start_date
    StartDate,
    /// end_date
    EndDate,
    /// date
    Date,
    /// exception_type
    ExceptionType,
    /// trip_id
    TripId,
    /// start_time
    StartTime,
    /// end_time
    EndTime,
    /// headway_secs
    HeadwaySecs,
    /// exact_times
    ExactTimes,
    /// stop_sequence
    StopSequence,
    /// arrival_time
    ArrivalTime,
    /// departure_time
    DepartureTime,
    /// pickup_type
    PickupType,
    /// drop_off_type
    DropOffType,
}

impl Column {
    /// The name of the column in a header, as `stop_id`.
    pub fn name(self) -> &'static str
        ensures { result.now ≡ column_name self }
    {
        match self {
            Column::AgencyTimezone => "agency_timezone",
            Column::StopId => "stop_id",
            Column::LocationType => "location_type",
            Column::StopLat => "stop_lat",
            Column::StopLon => "stop_lon",
            Column::RouteId => "route_id",
            Column::RouteType => "route_type",
            Column::ServiceId => "service_id",
            Column::Monday => "monday",
            Column::Tuesday => "tuesday",
            Column::Wednesday => "wednesday",
            Column::Thursday => "thursday",
            Column::Friday => "friday",
            Column::Saturday => "saturday",
            Column::Sunday => "sunday",
            Column::StartDate => "start_date",
            Column::EndDate => "end_date",
            Column::Date => "date",
            Column::ExceptionType => "exception_type",
            Column::TripId => "trip_id",
            Column::StartTime => "start_time",
            Column::EndTime => "end_time",
            Column::HeadwaySecs => "headway_secs",
            Column::ExactTimes => "exact_times",
            Column::StopSequence => "stop_sequence",
            Column::ArrivalTime => "arrival_time",
            Column::DepartureTime => "departure_time",
            Column::PickupType => "pickup_type",
            Column::DropOffType => "drop_off_type",
        }
    }

    /// What a field of this column must be, in words.
    pub fn form(self) -> &'static str {
        match self {
            Column::AgencyTimezone
            | Column::StopId
            | Column::RouteId
            | Column::ServiceId
            | Column::TripId => "one or more bytes of UTF-8",
            Column::LocationType => "empty, or a digit from 0 to 4",
            Column::StopLat => "degrees from -90 to 90, as 52.5163",
            Column::StopLon => "degrees from -180 to 180, as 13.3777",
            Column::RouteType | Column::StopSequence => "a number of 1 to 9 digits",
            Column::StartDate | Column::EndDate | Column::Date => "a date, as 20240304",
            Column::ExceptionType => "1 or 2",
            Column::StartTime | Column::EndTime => "a time up to 167:59:59, as 08:05:00",
            Column::ArrivalTime | Column::DepartureTime => {
                "empty, or a time up to 167:59:59, as 08:05:00"
            }
            Column::HeadwaySecs => "a number of 1 to 9 digits, and not zero",
            Column::ExactTimes => "empty, 0 or 1",
            Column::PickupType | Column::DropOffType => "empty, or a digit from 0 to 3",
            Column::Monday
            | Column::Tuesday
            | Column::Wednesday
            | Column::Thursday
            | Column::Friday
            | Column::Saturday
            | Column::Sunday => "0 or 1",
        }
    }

    /// The file whose rows have this column as their key, where it is an id of a row.
    pub fn table(self) -> &'static str {
        match self {
            Column::StopId => "stops.txt whose location_type is empty or 0",
            Column::RouteId => "routes.txt",
            Column::TripId => "trips.txt",
            Column::ServiceId => "calendar.txt or calendar_dates.txt",
            Column::AgencyTimezone
            | Column::LocationType
            | Column::StopLat
            | Column::StopLon
            | Column::RouteType
            | Column::Monday
            | Column::Tuesday
            | Column::Wednesday
            | Column::Thursday
            | Column::Friday
            | Column::Saturday
            | Column::Sunday
            | Column::StartDate
            | Column::EndDate
            | Column::Date
            | Column::ExceptionType
            | Column::StartTime
            | Column::EndTime
            | Column::HeadwaySecs
            | Column::ExactTimes
            | Column::StopSequence
            | Column::ArrivalTime
            | Column::DepartureTime
            | Column::PickupType
            | Column::DropOffType => "its table",
        }
    }
}

fn has_name(header: &ByteRecord, place: usize, name: &[u8]) -> bool
    requires { place < length (fields_of header.now) }
    ensures { result ≡ bytes_eq name.now (slice_index_or (fields_of header.now) place []) }
{
    match header.get(place) {
        Some(field) => name == field,
        None => unreachable!(),
    }
}

/// Where a column stands in a header: the first place of its name.
pub(crate) fn place_of(header: &ByteRecord, column: Column) -> Option<usize>
    ensures { result ≡ place_of_column (fields_of header.now) column }
{
    let name = column.name().as_bytes();
    for place in 0..header.len() {
        if has_name(header, place, name) {
            return Some(place);
        }
    }
    None
}

/// The first of these columns that a header does not name.
pub(crate) fn first_missing(header: &ByteRecord, columns: &[Column]) -> Option<Column>
    ensures { result ≡ first_missing (fields_of header.now) columns.now }
{
    for column in columns {
        if place_of(header, *column).is_none() {
            return Some(*column);
        }
    }
    None
}
