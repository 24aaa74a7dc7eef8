//! The region of a map and a timetable feed.
#![tactic(auto)]

mod building;
mod copies;
mod ends;
mod faults;
mod headways;
mod layers;
mod left;
mod links;
mod roads;
mod services;
mod sources;
mod stops;
mod switches;
mod tallies;

pub use building::{Region, build};
pub use faults::BuildFault;
pub use left::LeftOut;
