//! What a search answers.

use search_laws::Time;
use std::alloc::Global;

/// A product state, which is a node and a state of the automaton, and a time at which it is reached.
///
/// Labels are ordered by node, then by state, then by time.
#[derive(Clone, Copy, PartialEq, Eq, PartialOrd, Ord, Debug)]
pub struct Label {
    pub node: u32,
    pub state: u32,
    pub at: Time,
}

/// An arc of a walk: its place among those of the node that it leaves, and where and when it arrives.
#[derive(Clone, Copy)]
pub struct Hop {
    pub arc: u64,
    pub to: u32,
    pub state: u32,
    pub at: Time,
}

/// A walk without waits: where and when it starts, and its arcs. Each is taken when the one before arrives.
#[derive(Drop)]
pub struct Walk {
    pub node: u32,
    pub state: u32,
    pub at: Time,
    pub hops: Vec<Hop>,
}

/// The answer of a search.
#[derive(Drop)]
pub struct Found {
    /// The least arrival, or None where no walk counts.
    pub arrival: Option<Time>,
    /// With an arrival, the least arrivals of all product states that lie below it; without, all that lie within
    /// the bound. They ascend by node and then by state.
    pub labels: Vec<Label>,
    /// A walk with the least arrival.
    pub walk: Option<Walk>,
}

/// The answer of a search that counts its labels.
#[derive(Drop)]
pub struct FoundWithCount {
    /// The least arrival, or None where no walk counts.
    pub arrival: Option<Time>,
    /// How many labels there are.
    pub labels: u64,
    /// A walk with the least arrival.
    pub walk: Option<Walk>,
}

/// The answer of a search that lists no labels.
#[derive(Drop)]
pub struct Best {
    /// The least arrival, or None where no walk counts.
    pub arrival: Option<Time>,
    /// A walk with the least arrival.
    pub walk: Option<Walk>,
}
