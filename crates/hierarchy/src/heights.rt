//! The heights of nodes in the order in which they were contracted, as a table, and how long such a table is.

ghost use Rattle.std.specs.Prelude.{◌≡◌, ◌<◌, ◌≤◌, ◌^◌, All, IfOk, length};
ghost use Rattle.hierarchy.specs.declared.entry.Entry.{Entry};
ghost use Rattle.hierarchy.specs.Rules.{IsNode, FitsEntry};
ghost use Rattle.hierarchy.specs.Indexes.{AreHeights, AreEndsBelow};

use crate::entry::Entry;
use std::alloc::{AllocError, Global};

/// An order, and the height in it of each of so many nodes.
#[derive(Clone, Copy)]
pub(crate) struct HeightTable<'a> {
    pub order: &'a [u32],
    pub nodes: u32,
    pub of: &'a [u32],
}

impl HeightTable<'_> {
    ghost use Rattle.std.specs.Prelude.{◌≡◌};
    ghost use Rattle.hierarchy.specs.Lookups.{is_fall};
    ghost use Rattle.hierarchy.specs.Indexes.{AreEndsBelow, TellHeights};
    ghost use Rattle.hierarchy.specs.Rises.{is_rise};

    /// Whether an entry leads up, or along the core.
    pub(crate) fn is_rise(&self, entry: &Entry) -> bool
        requires heights { TellHeights self.now }
        requires ends { AreEndsBelow self.now.nodes entry.now }
        ensures { result ≡ is_rise self.now.order.now entry.now }
    {
        let core = self.order.len();
        let from = self.of[entry.from as usize] as usize;
        let to = self.of[entry.to as usize] as usize;
        from < to || from == core && to == core
    }

    /// Whether an entry leads down.
    pub(crate) fn is_fall(&self, entry: &Entry) -> bool
        requires heights { TellHeights self.now }
        requires ends { AreEndsBelow self.now.nodes entry.now }
        ensures { result ≡ is_fall self.now.order.now entry.now }
    {
        self.of[entry.to as usize] < self.of[entry.from as usize]
    }
}

/// A number that is above all nodes of an order.
pub(crate) fn past_order(order: &[u32]) -> u32
    requires { All IsNode order.now }
    ensures few { result ≤ 2 ^ 24 }
    ensures past { All (λ v. v < result) order.now }
{
    let mut past = 0;
    for v in order {
        past = past.max(*v + 1);
    }
    past
}

/// A number that is above all nodes of entries, and not below this one.
pub(crate) fn past_entries(entries: &[Entry], least: u32) -> u32
    requires few { least ≤ 2 ^ 24 }
    requires fit { All FitsEntry entries.now }
    ensures few { result ≤ 2 ^ 24 }
    ensures least { least ≤ result }
    ensures past { All (AreEndsBelow result) entries.now }
{
    let mut past = least;
    for entry in entries {
        past = past.max(entry.from + 1).max(entry.to + 1);
    }
    past
}

/// For each node number: its first place in the order, or the order's length where it is not in it.
pub(crate) fn heights(alloc: Global, nodes: u32, order: &[u32]) -> Result<Vec<u32>, AllocError>
    requires below { All (λ v. v < nodes) order.now }
    requires few { length order.now < 2 ^ 32 }
    ensures { IfOk result (λ heights. AreHeights nodes order.now heights.items) }
{
    let mut heights = vec![in alloc; order.len() as u32; nodes as usize]?;
    let mut place = order.len();
    while place > 0 {
        place -= 1;
        heights[order[place] as usize] = place as u32;
    }
    Ok(heights)
}
