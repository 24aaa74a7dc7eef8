//! Why trips make no timetable.

ghost use Rattle.std.specs.Prelude.{◌≡◌};
ghost use Rattle.timetable_arcs.specs.declared.faults.TableFault.TheVariants.{OutOfMemory};

use plan_base::Kind;
use std::alloc::AllocError;

/// The first rule that the trips of a timetable break.
#[derive(Clone, Copy, Debug, PartialEq, Eq)]
pub enum TableFault {
    /// A call of this trip departs before it arrives, or arrives before the call before it departs.
    TimeGoesBack { trip: u32 },
    /// This call of this trip is at no stop.
    UnknownStop { trip: u32, call: u32 },
    /// The letter of this trip is no transit letter, it has fewer than two calls, no day or a day that is none,
    /// or a time of 168 hours or more.
    BadTrip { trip: u32 },
    /// There are more trips, or more calls of all trips together, than the limits allow.
    TooMany { kind: Kind },
    /// Memory ran out.
    OutOfMemory,
}

impl From<AllocError> for TableFault {
    ghost from_gives = { λ error fault. fault ≡ OutOfMemory };

    fn from(_error: AllocError) -> TableFault {
        TableFault::OutOfMemory
    }
}
