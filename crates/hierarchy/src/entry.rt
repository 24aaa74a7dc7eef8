//! The entries of a hierarchy.

/// A way from one node to another within a layer: a road arc, or a shortcut by way of a middle node.
#[derive(Clone, Copy, Debug, PartialEq, Eq)]
pub struct Entry {
    pub from: u32,
    pub to: u32,
    /// In milliseconds.
    pub weight: u64,
    /// The middle node of a shortcut; None at a road arc.
    pub via: Option<u32>,
}
