//! The commands of `modeplan`, each with what it works on.

use region_file::Format;
use service_days::Days;

/// A region, and what a command works on over it: a file, or a query line. Files are named by their paths.
#[derive(Clone, Copy, Debug)]
pub struct Over<'a> {
    pub region: &'a str,
    pub subject: &'a str,
}

/// What a query may come to; `None` where no limit is given.
#[derive(Clone, Copy, Debug)]
pub struct QueryLimits {
    /// How many labels its search may have, 1 to 1,000,000,000,000.
    pub labels: Option<u64>,
    /// How many places for letters its expression may have, 1 to 200.
    pub places: Option<u32>,
}

/// Two files of endpoints between which travel times are asked for, departing then and travelling so, by a hierarchy, if one
/// is given.
#[derive(Clone, Copy, Debug)]
pub struct TimesAsked<'a> {
    pub region: &'a str,
    pub origins: &'a str,
    pub destinations: &'a str,
    pub date: &'a str,
    pub time: &'a str,
    pub expr: &'a str,
    pub hierarchy: Option<&'a str>,
    /// How many places for letters the expression may have, 1 to 200, where that is limited.
    pub places: Option<u32>,
}

/// What a command line asks for. A file is named by its path.
#[derive(Debug, Drop)]
pub enum Command<'a> {
    /// The region of a map and of the timetable feed in a folder, over some days.
    Compile {
        map: &'a str,
        feed: &'a str,
        days: Days,
        format: Format,
    },
    /// A region written anew in a format.
    Migrate {
        region: &'a str,
        format: Format,
    },
    /// A hierarchy of the region's road layers, in whose core so many nodes are kept besides those that must be.
    Contract {
        region: &'a str,
        keep: u32,
    },
    /// The block of each query line of a file, by a hierarchy, if one is given, and within limits.
    Answer(Over<'a>, Option<&'a str>, QueryLimits),
    /// A certificate for a query line, by a hierarchy, if one is given, and within limits.
    Certify(Over<'a>, Option<&'a str>, QueryLimits),
    /// The check of a certificate file, whose labels are read over a hierarchy, if one is given.
    Verify(Over<'a>, Option<&'a str>),
    /// The check of a hierarchy file.
    Check(Over<'a>),
    /// The summary of the sample city with so many rows and columns, 1 to 300.
    Sample {
        size: u32,
    },
    /// The block of each query line of a file, whose date and time are the latest arrival: the latest departure.
    Latest(Over<'a>, QueryLimits),
    /// A certificate that a departure is the latest for a query line.
    CertifyLatest(Over<'a>, QueryLimits),
    /// The check of a file with such a certificate.
    VerifyLatest(Over<'a>),
    /// The block of each query line of a file, with the earliest arrival by each number of boardings; and of so many
    /// places at most.
    Few(Over<'a>, Option<u32>),
    /// The block of each query line of a file, with the departures that are worth taking of a window, which is 1,000 to
    /// 86,400,000 milliseconds long; and of so many places at most.
    Profile(Over<'a>, u32, Option<u32>),
    /// The table of travel times from each endpoint of a file to each one of another.
    Matrix(TimesAsked<'a>),
    /// The reply to each line of a file, by the command that it begins with, and by a hierarchy, if one is given.
    Requests(Over<'a>, Option<&'a str>, QueryLimits),
}
