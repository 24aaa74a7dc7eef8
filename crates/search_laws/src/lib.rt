//! What a route search asks of the graph that it walks and of the automaton that it obeys, as traits with laws,
//! and what a walk, its word and a least arrival are. Everything above is proved once over these laws.
#![tactic(auto)]

mod given;
mod graph;
mod labels;

pub use given::{GivenRun, GivenRuns};
pub use graph::{Graph, GraphArc, Leg, Steady, Visit, Way, is_open, moving_letters, push_way};
pub use labels::{EVERY_LETTER, LETTERS, Labels, Move, RoadLabels, TRANSIT};

/// A moment, in milliseconds from an origin that the graph fixes.
pub type Time = u128;
