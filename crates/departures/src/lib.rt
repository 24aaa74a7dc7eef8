//! The departures of a window that are worth listing, as a timetable on a wall does: each journey with a ride that no other one
//! leaves as late as and arrives as early as, where it takes less time than one can do without a ride.
#![tactic(auto)]

mod blocks;
mod fastest;
mod laws;
mod least;
mod listing;
mod row;
mod search;
mod setting_off;
mod transit;

pub use blocks::profile_block;
pub use laws::{departures_are_unique, departures_miss_nothing, without_is_the_same};
pub use least::LeastTimes;
