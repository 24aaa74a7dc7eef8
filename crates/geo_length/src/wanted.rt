//! Which points a search is for.

ghost use Rattle.std.specs.Prelude.{◌≡◌, ℤ, Bool, true};
ghost use Rattle.plan_base.specs.declared.places.Place.{Place};

use plan_base::Place;

/// Tells the points that a search is for from the others.
pub trait PointFilter {
    ghost passes: { Self → ℤ × Place → Bool };

    /// Whether the search is for this point.
    fn passes(&self, point: &(i64, Place)) -> bool
        ensures { result ≡ passes self.now point.now };
}

/// The filter that each point passes.
#[derive(Clone, Copy)]
pub(crate) struct EachPoint;

impl PointFilter for EachPoint {
    ghost passes = { λ filter point. true };

    fn passes(&self, _point: &(i64, Place)) -> bool {
        true
    }
}
