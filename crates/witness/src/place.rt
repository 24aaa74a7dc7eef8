//! What a search knows of a node.

/// The least weight so far of a walk to a node, and the node before it there. It counts in its round alone.
#[derive(Clone, Copy, Debug)]
pub struct Place {
    pub at: u64,
    pub parent: u32,
    pub round: u32,
}
