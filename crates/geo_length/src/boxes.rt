//! Boxes around points.

use plan_base::Place;

/// A box around points from a south-western corner to a north-eastern one, and the least of their ids.
#[derive(Clone, Copy, Debug)]
pub struct Bounds {
    pub low: Place,
    pub high: Place,
    pub least_id: i64,
}

impl Bounds {
    ghost use Rattle.std.specs.Prelude.{◌≡◌, ◌≤ℤ◌};
    ghost use Rattle.plan_base.specs.declared.places.Place.{Place};
    ghost use Rattle.geo_length.specs.Boxes.{AreInside, IsInBounds, IsInside};
    ghost use Rattle.geo_length.specs.Nearest.{Point};

    /// The least box around this one and a place.
    fn with(self, place: Place) -> Bounds
        ensures place { IsInside result place }
        ensures kept { (other : Place) → IsInside self other → IsInside result other }
        ensures least { result.least_id ≡ self.least_id }
    {
        Bounds {
            low: Place {
                lat: self.low.lat.min(place.lat),
                lon: self.low.lon.min(place.lon),
            },
            high: Place {
                lat: self.high.lat.max(place.lat),
                lon: self.high.lon.max(place.lon),
            },
            least_id: self.least_id,
        }
    }

    /// The same box with an id that is no higher than this one.
    fn with_id(self, id: i64) -> Bounds
        ensures low { result.low ≡ self.low }
        ensures high { result.high ≡ self.high }
        ensures id { result.least_id ≤ℤ id }
        ensures kept { result.least_id ≤ℤ self.least_id }
    {
        Bounds {
            low: self.low,
            high: self.high,
            least_id: self.least_id.min(id),
        }
    }

    /// The least box around this one and a point.
    fn with_point(self, id: i64, place: Place) -> Bounds
        ensures point { IsInBounds result (id, place) }
        ensures kept { (other : Point) → IsInBounds self other → IsInBounds result other }
    {
        self.with(place).with_id(id)
    }

    /// The least box around this one and another that is not empty.
    pub fn around(self, other: Bounds) -> Bounds
        ensures kept { (point : Point) → IsInBounds self point → IsInBounds result point }
        ensures other { (point : Point) → IsInBounds other point → IsInBounds result point }
    {
        let corners = self.with(other.low).with(other.high);
        corners.with_id(other.least_id)
    }

    /// The least box around all of the points.
    pub fn of(points: &[(i64, Place)]) -> Bounds
        ensures { AreInside result points.now }
    {
        let mut bounds = EMPTY;
        for point in points {
            bounds = bounds.with_point(point.0, point.1);
        }
        bounds
    }
}

const EMPTY: Bounds = Bounds {
    low: Place {
        lat: 900_000_000,
        lon: 1_800_000_000,
    },
    high: Place {
        lat: -900_000_000,
        lon: -1_800_000_000,
    },
    least_id: i64::MAX,
};
