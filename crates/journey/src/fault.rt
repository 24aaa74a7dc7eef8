//! Why a query line is refused.

ghost use Rattle.std.specs.Prelude.{◌≡◌};
ghost use Rattle.journey.specs.Faults.{number_of};

use mode_expression::ExprFault;
use std::alloc::AllocError;

/// The first fault of a query line. The faults are tried in this order, but that an endpoint which lies off the
/// network is found where it is tried whether the endpoint is known.
#[derive(Clone, Copy, Debug, PartialEq, Eq)]
pub enum QueryFault {
    /// There are fewer than four spaces, one of the first four fields is empty, or FROM or TO is no endpoint.
    Shape,
    /// DATE is not eight digits of a civil date, or TIME is not HH:MM:SS or HH:MM:SS.mmm below 24:00:00.
    BadClock,
    /// The date is before the region's first date or after its last.
    OutOfRange,
    /// The network has no node of FROM.
    UnknownFrom,
    /// The network has no node of TO.
    UnknownTo,
    /// The expression has more than 4,096 bytes: so many.
    TooLong { bytes: u64 },
    /// At this byte of the expression a parenthesis opens more than 64 deep.
    TooDeep { at: u64 },
    /// At this byte of the expression stands the first token that no expression goes on with.
    Syntax { at: u64 },
    /// Written out, the expression has more than 200 places of letters: so many.
    TooLarge { places: u64 },
    /// FROM, or TO where `to` holds, is a place whose nearest road node lies more than two kilometres away: so many
    /// millimetres.
    OffNetwork { to: bool, mm: u64 },
    /// There was no memory.
    OutOfMemory,
}

impl QueryFault {
    /// The number of the fault: from 1 on, as they stand in the enum. None exactly where there was no memory.
    pub fn number(self) -> Option<u64>
        ensures { result ≡ number_of self }
    {
        match self {
            QueryFault::Shape => Some(1),
            QueryFault::BadClock => Some(2),
            QueryFault::OutOfRange => Some(3),
            QueryFault::UnknownFrom => Some(4),
            QueryFault::UnknownTo => Some(5),
            QueryFault::TooLong { .. } => Some(6),
            QueryFault::TooDeep { .. } => Some(7),
            QueryFault::Syntax { .. } => Some(8),
            QueryFault::TooLarge { .. } => Some(9),
            QueryFault::OffNetwork { .. } => Some(10),
            QueryFault::OutOfMemory => None,
        }
    }
}

impl From<AllocError> for QueryFault {
    ghost use Rattle.journey.specs.declared.fault.QueryFault.TheVariants.{OutOfMemory};

    ghost from_gives = { λ _ fault. fault ≡ OutOfMemory };

    fn from(_error: AllocError) -> QueryFault {
        QueryFault::OutOfMemory
    }
}

impl From<ExprFault> for QueryFault {
    ghost use Rattle.journey.specs.Faults.{fault_of};

    ghost from_gives = { λ fault query_fault. query_fault ≡ fault_of fault };

    fn from(fault: ExprFault) -> QueryFault {
        match fault {
            ExprFault::TooLong { bytes } => QueryFault::TooLong { bytes },
            ExprFault::TooDeep { at } => QueryFault::TooDeep { at },
            ExprFault::Syntax { at } => QueryFault::Syntax { at },
            ExprFault::TooLarge { places } => QueryFault::TooLarge { places },
            ExprFault::OutOfMemory => QueryFault::OutOfMemory,
        }
    }
}
