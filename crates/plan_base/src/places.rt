//! Places on the ground.

ghost use Rattle.plan_base.specs.Places.{AreDegrees};

/// A place, in units of 10^-7 degree. The latitude is at most 90 degrees in size, and the longitude at
/// most 180; the type keeps this.
#[derive(Clone, Copy, Debug, PartialEq, Eq)]
pub struct Place {
    pub lat: i64,
    pub lon: i64,
    pub ghost in_range: { AreDegrees lat lon },
}

impl Place {
    ghost use Rattle.std.specs.Prelude.{◌≡◌, ◌↔◌, IsSome, IfSome};
    ghost use Rattle.plan_base.specs.Places.{AreDegrees};
    ghost use Rattle.plan_base.specs.PlaceOf.{place_of};

    /// The place of a latitude and a longitude; None exactly where one of them is out of range.
    pub fn new(lat: i64, lon: i64) -> Option<Place>
        ensures some { IsSome result ↔ AreDegrees lat lon }
        ensures place { result ≡ place_of lat lon }
        ensures lat { IfSome result (λ place. place.lat ≡ lat) }
        ensures lon { IfSome result (λ place. place.lon ≡ lon) }
    {
        if -900_000_000 <= lat
            && lat <= 900_000_000
            && -1_800_000_000 <= lon
            && lon <= 1_800_000_000
        {
            Some(Place { lat, lon })
        } else {
            None
        }
    }
}
