//! The ways between the nodes that are left.

/// A way to a node, as the row of the node that it leaves lists it.
#[derive(Clone, Copy, Debug, PartialEq, Eq)]
pub struct Edge {
    pub to: u32,
    /// The place of the entry that it stands for.
    pub entry: u32,
    /// In milliseconds.
    pub weight: u64,
}
