//! The journeys that are worth their boardings: for each number of rides, whether one more arrives earlier.
#![tactic(auto)]

mod blocks;
mod boardings;
mod counted;
mod counting;

pub use blocks::few_block;
pub use boardings::{Found, least_below};
pub use counted::{Counted, Side};
pub use counting::Counting;
