//! Why a feed is refused.

ghost use Rattle.std.specs.Prelude.{◌≡◌};
ghost use Rattle.gtfs_tables.specs.declared.faults.FeedFault.TheVariants.{OutOfMemory};

use crate::columns::Column;
use crate::files::FeedFile;
use plan_base::Kind;
use std::alloc::AllocError;

/// The first fault of a feed.
///
/// A missing file comes first. The files are read in the order of [`FeedFile`]: in a file a missing column comes
/// first, and then the rows go in turn. In a row the faults are tried in the order of these variants.
#[derive(Clone, Copy, Debug, PartialEq, Eq)]
pub enum FeedFault {
    /// A required file is not there. Where neither calendar file is there, it is [`FeedFile::Calendar`].
    MissingFile {
        file: FeedFile,
    },
    /// A file's header does not name a column that it must name: the first such column.
    MissingColumn {
        file: FeedFile,
        column: Column,
    },
    /// A row's field is not of its form: the first such column. Rows count from 1 at the header.
    BadField {
        file: FeedFile,
        row: u64,
        column: Column,
    },
    /// A row has the key of an earlier row of its file.
    RepeatedKey {
        file: FeedFile,
        row: u64,
    },
    /// A row has an id of another table that is no key there: the first such column.
    DanglingKey {
        file: FeedFile,
        row: u64,
        column: Column,
    },
    /// A row of agency.txt has another time zone than the first.
    MixedZones {
        row: u64,
    },
    /// With a row there are more stops, routes, services, dates, trips or calls than the limits allow.
    TooMany {
        kind: Kind,
    },
    /// Memory ran out.
    OutOfMemory,
}

impl From<AllocError> for FeedFault {
    ghost from_gives = { λ error fault. fault ≡ OutOfMemory };

    fn from(_error: AllocError) -> FeedFault {
        FeedFault::OutOfMemory
    }
}
