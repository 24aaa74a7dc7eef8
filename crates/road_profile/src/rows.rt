//! Rows of road arcs.

ghost use Rattle.std.specs.Prelude.{IfOk};
ghost use Rattle.road_profile.specs.Arcs.{AreArcsOf};

use plan_base::Mode;
use std::alloc::AllocError;

/// A road arc of one mode.
#[derive(Clone, Copy, Debug, PartialEq, Eq)]
pub struct RoadRow {
    /// The OSM id of the node that it leads from.
    pub from: i64,
    /// The OSM id of the node that it leads to.
    pub to: i64,
    /// The mode.
    pub mode: Mode,
    /// The duration in milliseconds, at least 1.
    pub ms: u32,
}

/// The arcs of some legs, in the order of their ends and then of their mode: of parallel legs the one that takes the least time.
pub fn arcs_of(mut legs: Vec<RoadRow>) -> Result<Vec<RoadRow>, AllocError>
    ensures { IfOk result (λ rows. AreArcsOf legs.items rows.items) }
{
    legs.sort_by_key(|row| (row.from, row.to, row.mode.number(), row.ms))?;
    legs.dedup_by_key(|row| (row.from, row.to, row.mode.number()));
    Ok(legs)
}
