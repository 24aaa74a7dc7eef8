//! Times of walking over all of a road layer, by one sweep up the order in which it is contracted and one down.
#![tactic(auto)]

mod laws;
pub mod places;
pub mod rows;
pub mod sheet;
pub mod slope;
mod sweeping;

pub use laws::sheets_are_whole;
pub use places::{Places, place_table};
pub use rows::Rows;
pub use sheet::Sheet;
pub use slope::Slope;
