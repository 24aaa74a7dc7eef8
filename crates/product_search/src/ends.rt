//! The nodes that a search may end at.

ghost use Rattle.std.specs.Prelude.{◌≡◌, IfOk};
ghost use Rattle.std.specs.BTreeSet as sorted;
ghost use Rattle.std.specs.Ordering.{nat_cmp};

use std::alloc::{AllocError, Global};
use std::collections::BTreeSet;
use std::marker::Model;

/// Nodes, to be looked up. A contract sees them as a set. Few that are asked for are between its least and its greatest, and
/// only for these is it looked into.
#[derive(Drop)]
pub(crate) struct Ends {
    nodes: BTreeSet<u32>,
    least: u32,
    greatest: u32,
}

impl Model for Ends {
    ghost use Rattle.std.specs.Prelude.{◌≤◌, IsTrue, ℕ};
    ghost use Rattle.std.specs.BTreeSet.{BTreeSet};
    ghost use Rattle.std.specs.BTreeSet as sorted;
    ghost use Rattle.std.specs.Ordering.{nat_cmp};

    ghost Value = { BTreeSet ℕ };

    ghost view = { λ ends. ends.nodes };

    ghost invariant = { λ ends. (v : ℕ) → IsTrue (sorted.contains nat_cmp ends.nodes v) →
        (ends.least ≤ v) × (v ≤ ends.greatest) };
}

impl Ends {
    /// The nodes of a list.
    pub fn of(alloc: Global, list: &[u32]) -> Result<Ends, AllocError>
        ensures { IfOk result (sorted.IsFromIterResult nat_cmp list.now) }
    {
        let nodes: BTreeSet<u32> = list.iter().copied().collect(alloc)?;
        let least = nodes.first().copied().unwrap_or(0);
        let greatest = nodes.last().copied().unwrap_or(0);
        Ok(Ends {
            nodes,
            least,
            greatest,
        })
    }

    /// Whether a node is one of them.
    #[inline(always)]
    pub fn contains(&self, node: u32) -> bool
        ensures { result ≡ sorted.contains nat_cmp self.now node }
    {
        self.least <= node && node <= self.greatest && self.nodes.contains(&node)
    }
}
