//! What leads down among nodes of a hierarchy.

ghost use Rattle.std.specs.Prelude.{◌≡◌, ◌≤◌, ◌-◌, ◌^◌, ◌⊎◌, ℕ, All, length};
ghost use Rattle.sweeps.specs.Rows.{LeadOn, count_of, row_at};
ghost use Rattle.sweeps.specs.inside.Tables.{ArePlacesOf};

use crate::places::{Places, place_table};
use crate::rows::Rows;
use hierarchy::Hierarchy;
use std::alloc::{AllocError, Global};

/// Nodes of a hierarchy with what leads down among them, lower ones first. A place is a number of a node in that order.
#[derive(Drop)]
pub struct Slope {
    pub(crate) nodes: Vec<u32>,
    /// For the number of each node its place.
    pub(crate) places: Vec<u32>,
    /// For each place the legs from higher ones to there; each says where it comes from.
    pub(crate) downs: Rows,
    /// No leg takes longer.
    pub(crate) longest: u32,
    ghost downs_each: { count_of downs ≡ length nodes.items },
    ghost downs_on: { LeadOn downs (length nodes.items) },
    ghost placed: { ArePlacesOf nodes.items (length nodes.items) places.items },
    ghost none_longer: { (i : ℕ) → All (λ leg. leg.ms ≤ longest) (row_at downs i) },
}

impl Slope {
    ghost use Rattle.std.specs.Prelude.{◌≡◌, ◌<◌, ℕ, Contains, IfOk, IfSome, IfNone, IsTrue, length, slice_index};
    ghost use Rattle.sweeps.specs.Layers.{IsSlopeOf, HasNoSlope};
    ghost use Rattle.sweeps.specs.Slopes.{HasRoom};

    /// The slope of these nodes of a hierarchy, which are to be listed lowest first. None where one of them stands twice or is no
    /// number of a node, where an entry leads down to one of them from a node that does not stand behind it, or where one takes 2^32
    /// ms or longer. That it has 2^32 legs counts as want of memory.
    pub fn new(alloc: Global, h: &Hierarchy, nodes: Vec<u32>) -> Result<Option<Slope>, AllocError>
        ensures some { IfOk result (λ made. IfSome made (IsSlopeOf h.now nodes.items)) }
        ensures none { IfOk result (λ made. IfNone made (HasNoSlope h.now nodes.items)) }
    {
        let Some(table) = place_table(alloc, &nodes)? else {
            return Ok(None);
        };
        let places = Places {
            nodes: &nodes,
            of: &table,
        };
        let Some(downs) = places.all_downs(alloc, h)? else {
            return Ok(None);
        };
        let longest = downs.longest();
        Ok(Some(Slope {
            nodes,
            places: table,
            downs,
            longest,
        }))
    }

    /// The nodes, by their places.
    pub fn nodes(&self) -> &[u32]
        ensures { result.now ≡ self.now.nodes.items }
    {
        &self.nodes
    }

    /// The place of a node, if it is one of these.
    pub fn place_of(&self, node: u32) -> Option<u32>
        ensures some { IfSome result (λ place. (place < length self.now.nodes.items)
            × (slice_index self.now.nodes.items place ≡ node)) }
        ensures none { IfNone result (Contains self.now.nodes.items node → ⊥) }
    {
        self.places().place_of(node)
    }

    /// The nodes with the table that finds them.
    pub(crate) fn places(&self) -> Places<'_>
        ensures nodes { result.nodes.now ≡ self.now.nodes.items }
        ensures of { result.of.now ≡ self.now.places.items }
    {
        Places {
            nodes: &self.nodes,
            of: &self.places,
        }
    }

    /// Whether each time of these is so far below the greatest number that a leg more is below it too, but where it is that number,
    /// which stands for never.
    pub fn has_room(&self, times: &[u32]) -> bool
        ensures { IsTrue result → HasRoom self.now times.now }
    {
        latest(times) < u32::MAX - self.longest
    }
}

/// The latest of these times, the greatest number left out, which stands for never.
fn latest(times: &[u32]) -> u32
    ensures { All (λ t. t ≡ 2 ^ 32 - 1 ⊎ t ≤ result) times.now }
{
    let mut latest = 0;
    for t in times {
        if *t != u32::MAX {
            latest = latest.max(*t);
        }
    }
    latest
}
