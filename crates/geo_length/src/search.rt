//! The search for the nearest point of a tree.

ghost use Rattle.std.specs.Prelude.{◌≡◌, ◌<◌, ◌∷◌, [], true, filter};
ghost use Rattle.geo_length.specs.Lengths.{length_between};
ghost use Rattle.geo_length.specs.Boxes.{IsInBounds};
ghost use Rattle.geo_length.specs.Nearest.{ComesLater, ExtendsNearest, Point, limit_of, nearer_of};
ghost use Rattle.geo_length.specs.Trees.{AreBounded};

use crate::boxes::Bounds;
use crate::gaps::least_mm;
use crate::lengths::{east_mm, length_mm, north_mm};
use crate::tree::{Tree, bounds_of};
use crate::wanted::PointFilter;
use plan_base::Place;

/// The greatest length of a point that still matters.
fn limit(best: Option<(i64, u64)>, within: u64) -> u64
    ensures { result ≡ limit_of within best }
{
    match best {
        Some((_, mm)) => mm,
        None => within,
    }
}

/// Whether a place is surely past a length: it is that far to the north or to the east alone.
fn is_past(place: Place, other: Place, limit: u64) -> bool
    ensures { result ≡ true → limit < length_between place other }
{
    limit < north_mm(place, other).max(east_mm(place, other))
}

/// The nearest with this point at this length too.
fn nearer(
    best: Option<(i64, u64)>,
    within: u64,
    point: &(i64, Place),
    mm: u64,
) -> Option<(i64, u64)>
    ensures { result ≡ nearer_of within best point.now.0 mm }
{
    match best {
        Some((id, least)) => {
            if least < mm || least == mm && id <= point.0 {
                best
            } else {
                Some((point.0, mm))
            }
        }
        None => {
            if within < mm {
                None
            } else {
                Some((point.0, mm))
            }
        }
    }
}

/// The nearest of the points before, which is `best`, and of this point too where it passes.
fn with_point<F: PointFilter>(
    point: &(i64, Place),
    wanted: &F,
    place: Place,
    within: u64,
    best: Option<(i64, u64)>,
) -> Option<(i64, u64)>
    ensures { ExtendsNearest (filter (F.passes wanted.now) (point.now ∷ [])) place within best result }
{
    if is_past(place, point.1, limit(best, within)) {
        return best;
    }
    if wanted.passes(point) {
        nearer(best, within, point, length_mm(place, point.1))
    } else {
        best
    }
}

fn with_points<F: PointFilter>(
    points: &[(i64, Place)],
    wanted: &F,
    place: Place,
    within: u64,
    best: Option<(i64, u64)>,
) -> Option<(i64, u64)>
    ensures { ExtendsNearest (filter (F.passes wanted.now) points.now) place within best result }
{
    let mut nearest = best;
    for point in points {
        nearest = with_point(point, wanted, place, within, nearest);
    }
    nearest
}

/// Whether no point of a box matters: each is surely past the nearest so far, or as far with no lower id.
fn is_passed_over(bounds: Bounds, place: Place, within: u64, best: Option<(i64, u64)>) -> bool
    ensures { result ≡ true → (point : Point) → IsInBounds bounds point → ComesLater place within best point }
{
    let least = least_mm(&bounds, place);
    match best {
        Some((id, mm)) => mm < least || mm == least && id <= bounds.least_id,
        None => within < least,
    }
}

/// The nearest of the points before and of those of these that pass, within a length, by their tree: the least
/// (length, id). The nearer half of them is searched first, and boxes of points that come later are passed over.
pub fn with_tree<F: PointFilter>(
    tree: &Tree,
    points: &[(i64, Place)],
    wanted: &F,
    place: Place,
    within: u64,
    best: Option<(i64, u64)>,
) -> Option<(i64, u64)>
    requires { AreBounded tree.now points.now }
    ensures { ExtendsNearest (filter (F.passes wanted.now) points.now) place within best result }
{
    if is_passed_over(bounds_of(tree), place, within, best) {
        return best;
    }
    match tree {
        Tree::Leaf(_) => with_points(points, wanted, place, within, best),
        Tree::Fork(_, left, right) => {
            let (front, back) = points.split_at(points.len() / 2);
            if least_mm(&bounds_of(left), place) <= least_mm(&bounds_of(right), place) {
                let nearest = with_tree(left, front, wanted, place, within, best);
                with_tree(right, back, wanted, place, within, nearest)
            } else {
                let nearest = with_tree(right, back, wanted, place, within, best);
                with_tree(left, front, wanted, place, within, nearest)
            }
        }
    }
}
