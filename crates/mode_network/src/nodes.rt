//! Nodes and arcs of a network.

use plan_base::{Mode, Place};

/// What a node stands for.
#[derive(Clone, Copy, Debug, PartialEq, Eq)]
pub enum NodeKey {
    /// An OSM node in the layer of a mode.
    Road(Mode, i64),
    /// A stop, by its place among the stops.
    Stop(u32),
    /// An OSM node where travellers change between layers: a parking or a rental.
    Switch(i64),
}

/// A node and where it lies.
#[derive(Clone, Copy, Debug, PartialEq, Eq)]
pub struct Node {
    pub key: NodeKey,
    pub place: Place,
}

/// A road arc or a link between two nodes, by their numbers, and how long it takes in milliseconds.
#[derive(Clone, Copy, Debug, PartialEq, Eq)]
pub struct Arc {
    pub from: u32,
    pub to: u32,
    pub ms: u32,
}
