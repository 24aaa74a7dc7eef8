//! How a run ends.

ghost use Rattle.std.specs.Prelude.{◌≡◌};

use gtfs_tables::{FeedFault, FeedFile};
use hierarchy_file::HFileFault;
use opl_reader::OplFault;
use region_build::BuildFault;
use region_file::RegionFault;
use std::alloc::{AllocError, AllocFailed};

/// A file that a command reads.
#[derive(Clone, Copy, Debug, PartialEq, Eq)]
pub enum FileRole {
    Region,
    Hierarchy,
    Queries,
    Certificate,
    /// The map of a region to be compiled.
    Opl,
    /// A table of its timetable feed.
    Feed(FeedFile),
    /// Lines that are each a command and its words.
    Requests,
    /// The rows of a table of times.
    Origins,
    /// Its columns.
    Destinations,
}

impl FileRole {
    /// What people call the file.
    pub fn name(self) -> &'static str {
        match self {
            FileRole::Region => "region",
            FileRole::Hierarchy => "hierarchy",
            FileRole::Queries => "queries",
            FileRole::Certificate => "certificate",
            FileRole::Opl => "map",
            FileRole::Feed(file) => file.name(),
            FileRole::Requests => "requests",
            FileRole::Origins => "origins",
            FileRole::Destinations => "destinations",
        }
    }
}

/// The first thing that is wrong with what a region is compiled from.
#[derive(Clone, Copy, Debug, PartialEq, Eq)]
pub enum SourceFault {
    Opl(OplFault),
    Feed(FeedFault),
    Build(BuildFault),
}

/// How a run ends. Each outcome has an exit status.
#[derive(Clone, Copy, Debug, PartialEq, Eq)]
pub enum Outcome {
    /// The command did all of its work.
    Done,
    /// The words are not those of a command.
    Usage,
    /// There is no such file.
    Missing { file: FileRole },
    /// The file could not be read.
    ReadFault { file: FileRole },
    /// A region or a hierarchy has more than 2^34 bytes, or another file more than 2^30; or, where it is answered in turn, a
    /// line of it has.
    TooLong { file: FileRole },
    /// Standard output could not be written.
    WriteFault,
    /// The region file spells no region; this is its first fault.
    BadRegion { fault: RegionFault },
    /// The map and the feed give no region; this is the first fault of the map, then of the feed, then of both together.
    BadFeed { fault: SourceFault },
    /// The certificate is not valid: this clause is the first that fails, at this place.
    Invalid { clause: u8, at: u64 },
    /// The certificate file is no text of a certificate: this line, counted from 1, is the first that may not stand
    /// where it does.
    BadCertificate { line: u64 },
    /// The hierarchy file spells no hierarchy; this is its first fault.
    BadHierarchy { fault: HFileFault },
    /// The hierarchy is not sound for the region: this clause is the first that fails, at these places.
    Unsound { clause: u8, at: u64, by: u64 },
    /// Memory ran out.
    OutOfMemory,
}

impl From<AllocError> for Outcome {
    ghost use Rattle.run_steps.specs.declared.outcome.Outcome.TheVariants.{OutOfMemory};

    ghost from_gives = { λ _ outcome. outcome ≡ OutOfMemory };

    fn from(_: AllocError) -> Outcome {
        Outcome::OutOfMemory
    }
}

impl<T: Drop> From<AllocFailed<T>> for Outcome {
    ghost use Rattle.run_steps.specs.declared.outcome.Outcome.TheVariants.{OutOfMemory};

    ghost from_gives = { λ _ outcome. outcome ≡ OutOfMemory };

    fn from(_: AllocFailed<T>) -> Outcome {
        Outcome::OutOfMemory
    }
}

impl Outcome {
    ghost use Rattle.run_steps.specs.Statuses.{status_of};

    /// The exit status of the program.
    pub fn status(self) -> u8
        ensures { result ≡ status_of self }
    {
        match self {
            Outcome::Done => 0,
            Outcome::Usage => 2,
            Outcome::Missing { .. } => 3,
            Outcome::ReadFault { .. } => 4,
            Outcome::TooLong { .. } => 5,
            Outcome::WriteFault => 6,
            Outcome::BadRegion { .. } => 7,
            Outcome::BadFeed { .. } => 8,
            Outcome::BadHierarchy { .. } => 9,
            Outcome::Unsound { .. } => 10,
            Outcome::Invalid { .. } => 11,
            Outcome::BadCertificate { .. } => 12,
            Outcome::OutOfMemory => 13,
        }
    }

    /// What people are told of the outcome at the end of a run. None where they have been told, where it was known what
    /// is wrong with which file; and where the words ask for nothing, of which there is more to say.
    pub fn note(self) -> Option<&'static str> {
        match self {
            Outcome::Done => Some("all is written"),
            Outcome::WriteFault => Some("standard output can't be written"),
            Outcome::OutOfMemory => Some("memory ran out"),
            _ => None,
        }
    }
}
