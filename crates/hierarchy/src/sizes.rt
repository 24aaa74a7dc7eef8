//! How long the lists of a hierarchy are.

use crate::entry::Entry;
use crate::witnesses::Witnesses;

/// How many elements the lists of a hierarchy have, and how many nodes its witnesses together.
#[derive(Clone, Copy, Debug)]
pub struct Sizes {
    pub order: u64,
    pub entries: u64,
    pub witnesses: u64,
    pub witness_nodes: u64,
}

impl Sizes {
    /// Those of these lists. No contract speaks of them.
    pub fn of(order: &[u32], entries: &[Entry], witnesses: &Witnesses) -> Sizes {
        Sizes {
            order: order.len() as u64,
            entries: entries.len() as u64,
            witnesses: witnesses.len() as u64,
            witness_nodes: witnesses.nodes() as u64,
        }
    }
}
