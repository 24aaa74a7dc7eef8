//! Ways past a node.

/// A way from one neighbour of a node to another by the node, of an entry to it and one from it. Those of one start
/// stand together; those starts come first whose entry is lighter, and of one start the ways that weigh less.
#[derive(Clone, Copy, Debug, PartialEq, Eq, PartialOrd, Ord)]
pub struct Way {
    /// What the entry to the node weighs.
    pub first: u64,
    pub from: u32,
    /// What both entries weigh together.
    pub sum: u64,
    pub to: u32,
}

/// A node that is contracted, and those ways by it that no entry is as light as.
#[derive(Drop)]
pub struct Crossing {
    pub node: u32,
    pub ways: Vec<Way>,
}

/// A node that has an entry to the one that is contracted, and what the entry weighs.
#[derive(Clone, Copy, Debug)]
pub struct Side {
    pub node: u32,
    pub weight: u64,
}
