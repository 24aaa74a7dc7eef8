//! Why a map and a feed give no region.

ghost use Rattle.std.specs.Prelude.{◌≡◌};
ghost use Rattle.region_build.specs.declared.faults.BuildFault.TheVariants.{OutOfMemory};

use plan_base::Kind;
use std::alloc::AllocError;

/// The first fault of what a map and a feed give.
#[derive(Clone, Copy, Debug, PartialEq, Eq)]
pub enum BuildFault {
    /// There is more of this kind than the limits allow: of nodes, stops, arcs, links, trips and calls the first such.
    TooMany { kind: Kind },
    /// The times of the trip in this row of trips.txt go back.
    TimeGoesBack { row: u64 },
    /// Memory ran out.
    OutOfMemory,
}

impl From<AllocError> for BuildFault {
    ghost from_gives = { λ error fault. fault ≡ OutOfMemory };

    fn from(_error: AllocError) -> BuildFault {
        BuildFault::OutOfMemory
    }
}
