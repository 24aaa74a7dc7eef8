//! The files of a feed.

ghost use Rattle.std.specs.Prelude.{◌≡◌};

/// The bytes of a feed's files; `None` where a file is not there.
#[derive(Clone, Copy)]
pub struct FeedFiles<'a> {
    /// agency.txt
    pub agency: Option<&'a [u8]>,
    /// stops.txt
    pub stops: Option<&'a [u8]>,
    /// routes.txt
    pub routes: Option<&'a [u8]>,
    /// calendar.txt
    pub calendar: Option<&'a [u8]>,
    /// calendar_dates.txt
    pub calendar_dates: Option<&'a [u8]>,
    /// trips.txt
    pub trips: Option<&'a [u8]>,
    /// frequencies.txt
    pub frequencies: Option<&'a [u8]>,
    /// stop_times.txt
    pub stop_times: Option<&'a [u8]>,
}

/// A file of a feed, in the order in which they are read.
#[derive(Clone, Copy, Debug, PartialEq, Eq)]
pub enum FeedFile {
    /// agency.txt
    Agency,
    /// stops.txt
    Stops,
    /// routes.txt
    Routes,
    /// calendar.txt
    Calendar,
    /// calendar_dates.txt
    CalendarDates,
    /// trips.txt
    Trips,
    /// frequencies.txt
    Frequencies,
    /// stop_times.txt
    StopTimes,
}

impl FeedFile {
    ghost use Rattle.gtfs_tables.specs.Files.{file_name};

    /// The name of the file in a feed's folder, as `stops.txt`.
    pub fn name(self) -> &'static str
        ensures { result.now ≡ file_name self }
    {
        match self {
            FeedFile::Agency => "agency.txt",
            FeedFile::Stops => "stops.txt",
            FeedFile::Routes => "routes.txt",
            FeedFile::Calendar => "calendar.txt",
            FeedFile::CalendarDates => "calendar_dates.txt",
            FeedFile::Trips => "trips.txt",
            FeedFile::Frequencies => "frequencies.txt",
            FeedFile::StopTimes => "stop_times.txt",
        }
    }
}
