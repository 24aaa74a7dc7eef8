//! When the days of a region begin, and the timetable over them.

ghost use Rattle.std.specs.Prelude.{◌≡◌, [], None, IfOk, OnOk, IfErr, length};
ghost use Rattle.timetable_arcs.specs.Table.{AreBases, IsTable};
ghost use Rattle.timetable_arcs.specs.TripRules.{table_fault, IsFaultOf};

use plan_base::Caps;
use service_days::Days;
use std::alloc::{AllocError, Global};
use timetable_arcs::{TableFault, Timetable, Trip};

/// The bases of all day numbers, in order.
pub(crate) fn bases(alloc: Global, days: &Days) -> Result<Vec<u64>, AllocError>
    ensures all { IfOk result (λ bases. bases.items ≡ days.now.bases) }
    ensures rise { IfOk result (λ bases. AreBases bases.items) }
{
    days.known();
    let bases = Vec::from_slice(alloc, days.bases())?;
    Ok(bases)
}

/// The timetable of these trips over the days of a region, or the first rule that they break.
pub(crate) fn timetable(
    alloc: Global,
    days: &Days,
    stops: u32,
    trips: Vec<Trip>,
    caps: &Caps,
) -> Result<Timetable, TableFault>
    ensures bases { IfOk result (λ t. t.bases ≡ days.now.bases) }
    ensures stops { IfOk result (λ t. t.stops ≡ stops) }
    ensures trips { IfOk result (λ t. t.trips ≡ trips.items) }
    ensures keeps { IfOk result (λ t. IsTable t) }
    ensures faultless { OnOk result (table_fault caps.now (length days.now.bases) stops trips.items ≡ None) }
    ensures fault { IfErr result (IsFaultOf caps.now (length days.now.bases) stops trips.items) }
{
    let bases = bases(alloc, days)?;
    let timetable = Timetable::build(alloc, bases, stops, trips, caps)?;
    timetable.known();
    Ok(timetable)
}

/// The timetable over the days of a region that has no trips.
pub(crate) fn no_trips(alloc: Global, days: &Days, stops: u32) -> Result<Timetable, AllocError>
    ensures bases { IfOk result (λ t. t.bases ≡ days.now.bases) }
    ensures stops { IfOk result (λ t. t.stops ≡ stops) }
    ensures trips { IfOk result (λ t. t.trips ≡ []) }
{
    match timetable(alloc, days, stops, Vec::new(alloc), &Caps::FULL) {
        Ok(timetable) => Ok(timetable),
        Err(TableFault::OutOfMemory) => Err(AllocError),
        Err(TableFault::TimeGoesBack { .. }) => unreachable!(),
        Err(TableFault::UnknownStop { .. }) => unreachable!(),
        Err(TableFault::BadTrip { .. }) => unreachable!(),
        Err(TableFault::TooMany { .. }) => unreachable!(),
    }
}
