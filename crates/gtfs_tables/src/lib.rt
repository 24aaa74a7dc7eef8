//! Reads the tables of a GTFS feed, as far as a route planner needs them.
//!
//! File, column and value names are those of the GTFS Schedule reference. Which of them count, and what a field may
//! be, is the planner's own profile, which `docs/MAKE_A_REGION.md` gives to the letter. [`read_feed`] takes the bytes
//! of the files, and gives the rows of all tables in the order of their files, or the first fault.
#![tactic(auto)]

mod agencies;
mod calls;
mod columns;
mod dates;
mod faults;
mod feeds;
mod files;
mod frequencies;
mod header;
mod ids;
mod records;
mod routes;
mod services;
mod stops;
mod table_rows;
mod tables;
mod texts;
mod trips;

pub use calls::CallRow;
pub use columns::Column;
pub use dates::DateRow;
pub use faults::FeedFault;
pub use feeds::{Feed, read_feed};
pub use files::{FeedFile, FeedFiles};
pub use frequencies::FrequencyRow;
pub use routes::RouteRow;
pub use services::ServiceRow;
pub use stops::StopRow;
pub use trips::TripRow;
