//! A best journey for a query, the block of a query line, and when best journeys arrive at many destinations, without a
//! hierarchy and over one.
#![tactic(auto)]

pub mod blocks;
pub mod destinations;
pub mod plans;

pub use blocks::block_within;
pub use destinations::Destinations;
pub use kept_automata::Room;
pub use plans::{
    BestPlan, FoundPlan, best_arrival, find_best, find_best_within, find_plan, find_plan_within,
};
