//! What leads to a node.

use mode_network::Arc;

/// What leads to a node.
#[derive(Clone, Copy, Debug, PartialEq, Eq)]
pub enum Source {
    /// A road arc.
    Road(Arc),
    /// A link.
    Link(Arc),
    /// A leg of length zero at a road node.
    Stand,
    /// The call of a pattern at which one may alight: the rides from each earlier call.
    Alight { pattern: u32, call: u32 },
}

/// What leads to a node, with that node.
#[derive(Clone, Copy, Debug, PartialEq, Eq)]
pub struct Entry {
    pub node: u32,
    pub source: Source,
}
