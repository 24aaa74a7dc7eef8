//! Walks of a search made into journeys.
#![tactic(auto)]

mod graph_walk;
mod phase_walk;
mod plain_walk;

pub use graph_walk::from_graph;
pub use plain_walk::from_plain;
