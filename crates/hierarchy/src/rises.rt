//! The entries that lead up from a node, or along the core, as tables.

ghost use Rattle.std.specs.Prelude.{◌≡◌, ◌<◌, ◌≤◌, ◌^◌, All, IfOk, length};
ghost use Rattle.std.specs.List.Sorted.{IsNonDecreasingBy};
ghost use Rattle.mode_network.specs.Indexes.{count_below};
ghost use Rattle.hierarchy.specs.Lookups.{from_of, places_before, places_of};
ghost use Rattle.hierarchy.specs.Rules.{FitsEntry};
ghost use Rattle.hierarchy.specs.Indexes.{AreEndsBelow, AreRows, TellHeights};
ghost use Rattle.hierarchy.specs.Rises.{is_rise, legs_of_rises, rises_at};

use crate::entry::Entry;
use crate::heights::HeightTable;
use crate::tables::NodeRow;
use search_laws::Leg;
use std::alloc::{AllocError, Global};

/// Appends the places of those entries from a place on that lead up or along the core and begin below `v`. Tells the first place of
/// an entry from `v` or from a later node.
fn push_rises_below(
    heights: &HeightTable<'_>,
    entries: &[Entry],
    v: u32,
    mut place: usize,
    rises: &mut Vec<u32>,
) -> Result<usize, AllocError>
    requires heights { TellHeights heights.now }
    requires ends { All (AreEndsBelow heights.now.nodes) entries.now }
    requires rising { IsNonDecreasingBy from_of entries.now }
    requires few { length entries.now < 2 ^ 32 }
    requires place { place ≤ count_below from_of entries.now v }
    requires rises { rises.old.items ≡ places_before (is_rise heights.now.order.now) entries.now place }
    ensures place { IfOk result (λ place. place ≡ count_below from_of entries.now v) }
    ensures rises { IfOk result (λ place. rises.new.items
        ≡ places_before (is_rise heights.now.order.now) entries.now place) }
{
    while place < entries.len() && entries[place].from < v {
        if heights.is_rise(&entries[place]) {
            rises.push(place as u32)?;
        }
        place += 1;
    }
    Ok(place)
}

/// The rows of all nodes, and the places of the entries that lead up or along the core, in order.
pub(crate) fn rows(
    alloc: Global,
    heights: &HeightTable<'_>,
    entries: &[Entry],
) -> Result<(Vec<NodeRow>, Vec<u32>), AllocError>
    requires heights { TellHeights heights.now }
    requires few_nodes { heights.now.nodes < 2 ^ 31 }
    requires ends { All (AreEndsBelow heights.now.nodes) entries.now }
    requires rising { IsNonDecreasingBy from_of entries.now }
    requires few { length entries.now < 2 ^ 32 }
    ensures rows { IfOk result (λ made. AreRows heights.now.order.now entries.now heights.now.nodes
        made.0.items) }
    ensures rises { IfOk result (λ made. made.1.items
        ≡ places_of (is_rise heights.now.order.now) entries.now) }
{
    let mut rows = Vec::with_capacity(alloc, heights.nodes as usize + 1)?;
    let mut rises = Vec::new(alloc);
    let mut place = 0;
    for v in 0..heights.nodes + 1 {
        place = push_rises_below(heights, entries, v, place, &mut rises)?;
        rows.push(NodeRow {
            entries: place as u32,
            rises: rises.len() as u32,
        })?;
    }
    Ok((rows, rises))
}

/// Where the entries at these places lead, and how long that takes; or nothing, if one of them takes 2^32 ms or longer.
pub(crate) fn legs(alloc: Global, entries: &[Entry], rises: &[u32]) -> Result<Vec<Leg>, AllocError>
    requires fit { All FitsEntry entries.now }
    requires within { All (λ k. k < length entries.now) rises.now }
    ensures { IfOk result (λ legs. legs.items ≡ legs_of_rises (rises_at entries.now rises.now)) }
{
    let mut legs = Vec::with_capacity(alloc, rises.len())?;
    for place in rises {
        let entry = &entries[*place as usize];
        let Ok(ms) = u32::try_from(entry.weight) else {
            return Ok(Vec::new(alloc));
        };
        legs.push(Leg {
            to: 2 * entry.to,
            ms,
        })?;
    }
    Ok(legs)
}
