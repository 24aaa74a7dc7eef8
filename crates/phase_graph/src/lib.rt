//! The phase graph of a sound hierarchy, which keeps every constrained distance: what a rider may do up, along the core
//! and down, and the laws that tie this to journeys.
#![tactic(auto)]

mod falls;
pub mod in_use;
pub mod mark_table;
mod marks;
pub mod phases;

ghost use Rattle.phase_graph.specs.Arcs.{PhaseGraphsHaveMoves, PhaseGraphsHaveNoOthers};
ghost use Rattle.phase_graph.specs.Laws.{JourneysHavePhaseWalks, PhaseWalksHaveJourneys};

pub use in_use::{GraphInUse, ends_in, starts_in};
pub use mark_table::MarkTable;
pub use phases::{PhaseArc, Phases};

/// For each journey to a target, whatever sound hierarchy is taken, there is a walk through the phase graph with the
/// same ends and departure, whose word collapses to the same and which arrives no later.
pub fn journeys_have_phase_walks()
    ensures { JourneysHavePhaseWalks }
{}

/// For each walk through the phase graph there is a journey with the same ends, departure and arrival, whose word
/// collapses to the same.
pub fn phase_walks_have_journeys()
    ensures { PhaseWalksHaveJourneys }
{}

/// Where each move but a rest has an arc that arrives no later, and each arc that arrives is a move, walks of moves are
/// walks of the graph.
pub fn phase_graphs_have_moves()
    ensures { PhaseGraphsHaveMoves }
{}

/// And there the graph has no other walks.
pub fn phase_graphs_have_no_others()
    ensures { PhaseGraphsHaveNoOthers }
{}
