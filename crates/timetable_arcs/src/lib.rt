//! The timetable of a region: its trips, their runs sorted into patterns without overtaking, and the rides that
//! begin at each stop.
#![tactic(auto)]

mod boards;
pub mod faults;
mod patterns;
pub mod rides;
mod rules;
mod runs;
mod sorting;
pub mod timetable;
pub mod trips;

pub use faults::TableFault;
pub use rides::{Board, Ride};
pub use timetable::Timetable;
pub use trips::{Call, Instance, PlacedRun, Trip};
