//! A road layer that is contracted whole.

ghost use Rattle.std.specs.Prelude.{◌≡◌, length};
ghost use Rattle.sweeps.specs.Rows.{LeadOn, count_of};

use crate::rows::Rows;
use crate::slope::Slope;
use hierarchy::Hierarchy;
use std::alloc::{AllocError, Global};

/// The nodes of a road layer that is contracted whole, in the order in which it is, with what leads up and down among them. A
/// place is a number of a node in that order.
#[derive(Drop)]
pub struct Sheet {
    /// The nodes with what leads down.
    pub(crate) slope: Slope,
    /// For each place the legs from there to higher ones.
    pub(crate) ups: Rows,
    ghost ups_each: { count_of ups ≡ length slope.nodes.items },
    ghost ups_on: { LeadOn ups (length slope.nodes.items) },
}

impl Sheet {
    ghost use Rattle.std.specs.Prelude.{◌≡◌, ◌<◌, Contains, IfOk, IfSome, IfNone, length, slice_index};
    ghost use Rattle.sweeps.specs.Layers.{IsSheetOf, HasNoSheet};

    /// The sheet of these nodes of a hierarchy, which are to be listed lowest first. None where one of them stands twice or is no
    /// number of a node, where a leg leads to a node that does not stand behind the one that it leaves, or where one takes 2^32 ms or
    /// longer. That it has 2^32 legs up or down counts as want of memory.
    pub fn new(alloc: Global, h: &Hierarchy, nodes: Vec<u32>) -> Result<Option<Sheet>, AllocError>
        ensures some { IfOk result (λ made. IfSome made (IsSheetOf h.now nodes.items)) }
        ensures none { IfOk result (λ made. IfNone made (HasNoSheet h.now nodes.items)) }
    {
        if !h.has_legs() {
            return Ok(None);
        }
        let Some(slope) = Slope::new(alloc, h, nodes)? else {
            return Ok(None);
        };
        let Some(ups) = slope.places().all_ups(alloc, h)? else {
            return Ok(None);
        };
        Ok(Some(Sheet { slope, ups }))
    }

    /// The nodes, by their places.
    pub fn nodes(&self) -> &[u32]
        ensures { result.now ≡ self.now.slope.nodes.items }
    {
        self.slope.nodes()
    }

    /// The place of a node, if it is one of these.
    pub fn place_of(&self, node: u32) -> Option<u32>
        ensures some { IfSome result (λ place. (place < length self.now.slope.nodes.items)
            × (slice_index self.now.slope.nodes.items place ≡ node)) }
        ensures none { IfNone result (Contains self.now.slope.nodes.items node → ⊥) }
    {
        self.slope.place_of(node)
    }
}
