//! The departures that are listed.

use mode_network::Journey;
use search_laws::Time;

/// When a journey departs, and when it arrives.
#[derive(Clone, Copy, Debug, PartialEq, Eq)]
pub struct Pair {
    pub depart: Time,
    pub arrive: Time,
}

/// A departure of a window: when it departs and arrives, and a journey that does.
#[derive(Drop)]
pub struct Row {
    pub pair: Pair,
    pub journey: Journey,
}
