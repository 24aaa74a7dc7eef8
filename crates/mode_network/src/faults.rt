//! Why lists are no network.

ghost use Rattle.std.specs.Prelude.{◌≡◌};
ghost use Rattle.mode_network.specs.declared.faults.NetFault.TheVariants.{OutOfMemory};
ghost use Rattle.mode_network.specs.TableFaults.{table_fault_as};

use plan_base::Kind;
use std::alloc::AllocError;
use timetable_arcs::TableFault;

/// The first rule that the parts of a network break.
#[derive(Clone, Copy, Debug, PartialEq, Eq)]
pub enum NetFault {
    /// A row of this list, counted from 0, is not above the row before it.
    OutOfOrder { kind: Kind, row: u64 },
    /// An end of an arc or a link, counted from 0, is not what it has to be.
    BadEnd { kind: Kind, row: u64 },
    /// The trips break a rule of timetables.
    Table(TableFault),
    /// There are more of this kind than the limits allow.
    TooMany { kind: Kind },
    /// Memory ran out.
    OutOfMemory,
}

impl From<AllocError> for NetFault {
    ghost from_gives = { λ error fault. fault ≡ OutOfMemory };

    fn from(_error: AllocError) -> NetFault {
        NetFault::OutOfMemory
    }
}

impl From<TableFault> for NetFault {
    ghost from_gives = { λ error fault. fault ≡ table_fault_as error };

    fn from(error: TableFault) -> NetFault {
        match error {
            TableFault::OutOfMemory => NetFault::OutOfMemory,
            fault => NetFault::Table(fault),
        }
    }
}
