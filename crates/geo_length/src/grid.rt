//! Many points, and the nearest of them.

ghost use Rattle.std.specs.Prelude.{IfOk};
ghost use Rattle.std.specs.List.Sorted.{IsPermutation};
ghost use Rattle.geo_length.specs.Nearest.{IsNearest};

use crate::search::with_tree;
use crate::tree::{Tree, tree_of};
use crate::wanted::{EachPoint, PointFilter};
use plan_base::Place;
use std::alloc::{AllocError, Global};
use std::marker::Model;

/// Many points, each an id and a place, kept so that the nearest one is found by a look at few of them. A
/// contract sees the list of the points.
#[derive(Drop)]
pub struct Grid {
    points: Vec<(i64, Place)>,
    tree: Tree,
}

impl Model for Grid {
    ghost use Rattle.std.specs.Prelude.{ℤ, List};
    ghost use Rattle.plan_base.specs.declared.places.Place.{Place};

    ghost Value = { List (ℤ × Place) };

    ghost use Rattle.geo_length.specs.Trees.{AreBounded};

    ghost view = { λ grid. grid.points.items };

    ghost invariant = { λ grid. AreBounded grid.tree grid.points.items };
}

/// Where a point stands in the order that puts near points together: by rows of latitude, each 2^16 units or some
/// 700 metres high, and from west to east in a row.
fn rank(point: &(i64, Place)) -> (i64, i64) {
    (point.1.lat >> 16, point.1.lon)
}

impl Grid {
    ghost use Rattle.std.specs.Prelude.{◌≡◌, ℕ, ℤ, Option, IfOk, filter};
    ghost use Rattle.std.specs.List.Sorted.{IsPermutation};
    ghost use Rattle.plan_base.specs.declared.places.Place.{Place};
    ghost use Rattle.geo_length.specs.Nearest.{IsNearest};

    /// The grid of these points, in an order of its own. What is nearest in it is nearest among the points. Fails where memory
    /// runs out.
    pub fn build(alloc: Global, points: &[(i64, Place)]) -> Result<Grid, AllocError>
        ensures points { IfOk result (λ grid. IsPermutation points.now grid) }
        ensures nearest { IfOk result (λ grid. (place : Place) (within : ℕ) (best : Option (ℤ × ℕ))
            → IsNearest grid place within best → IsNearest points.now place within best) }
    {
        Grid::of(alloc, Vec::from_slice(alloc, points)?)
    }

    /// The same without a copy of the points, which it takes.
    pub fn of(alloc: Global, points: Vec<(i64, Place)>) -> Result<Grid, AllocError>
        ensures points { IfOk result (λ grid. IsPermutation points.items grid) }
        ensures nearest { IfOk result (λ grid. (place : Place) (within : ℕ) (best : Option (ℤ × ℕ))
            → IsNearest grid place within best → IsNearest points.items place within best) }
    {
        let mut points = points;
        points.sort_unstable_by_key(|point| rank(point));
        let tree = tree_of(alloc, &points)?;
        Ok(Grid { points, tree })
    }

    /// The id and the length in millimetres of the point that is nearest to a place, the least (length, id)
    /// among the points whose length is at most `within`.
    ///
    /// `None` exactly where there is no such point.
    pub fn nearest(&self, place: Place, within: u64) -> Option<(i64, u64)>
        ensures nearest { IsNearest self.now place within result }
        ensures only { (other : Option (ℤ × ℕ)) → IsNearest self.now place within other → other ≡ result }
    {
        self.nearest_of(&EachPoint, place, within)
    }

    /// The same among the points that pass a filter.
    pub fn nearest_of<F: PointFilter>(
        &self,
        wanted: &F,
        place: Place,
        within: u64,
    ) -> Option<(i64, u64)>
        ensures nearest { IsNearest (filter (F.passes wanted.now) self.now) place within result }
        ensures only { (other : Option (ℤ × ℕ)) → IsNearest (filter (F.passes wanted.now) self.now) place
            within other → other ≡ result }
    {
        with_tree(&self.tree, &self.points, wanted, place, within, None)
    }
}
