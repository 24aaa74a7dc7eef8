//! Whether a hierarchy is sound for a network, whoever made it.
#![tactic(auto)]

mod arcs;
mod bridges;
mod checking;
mod entries;
mod look;
mod order;
mod witnesses;

pub use checking::{check, check_nodes, check_ways};
