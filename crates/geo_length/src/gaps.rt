//! How far a place is at least from what is inside a box.

ghost use Rattle.std.specs.Prelude.{◌≤◌, ◌-ℤ◌, unsigned_abs};
ghost use Rattle.plan_base.specs.declared.places.Place.{Place};
ghost use Rattle.geo_length.specs.Boxes.{IsInside};
ghost use Rattle.geo_length.specs.Lengths.{short_way_around, eastward, mean_degree, northward, length_between};

use crate::boxes::Bounds;
use crate::lengths::longitude_between;
use crate::widths::width;
use plan_base::Place;

/// How many units a place is at least to the north or to the south of what is inside.
fn latitude_gap(bounds: &Bounds, place: Place) -> u64
    ensures value { (other : Place) → IsInside bounds.now other
        → result ≤ unsigned_abs (place.lat -ℤ other.lat) }
    ensures within { result ≤ 1800000000 }
{
    if place.lat < bounds.low.lat {
        place.lat.abs_diff(bounds.low.lat)
    } else if bounds.high.lat < place.lat {
        place.lat.abs_diff(bounds.high.lat)
    } else {
        0
    }
}

/// How many units it is at least to the east or to the west, the short way around.
fn longitude_gap(bounds: &Bounds, place: Place) -> u64
    ensures value { (other : Place) → IsInside bounds.now other
        → result ≤ short_way_around (unsigned_abs (place.lon -ℤ other.lon)) }
    ensures within { result ≤ 1800000000 }
{
    if bounds.low.lon <= place.lon && place.lon <= bounds.high.lon {
        0
    } else {
        longitude_between(place, bounds.low).min(longitude_between(place, bounds.high))
    }
}

/// The greatest whole degree of a mean latitude of the place and of what is inside.
fn steepest_degree(bounds: &Bounds, place: Place) -> u64
    ensures value { (other : Place) → IsInside bounds.now other → mean_degree place other ≤ result }
    ensures within { result ≤ 90 }
{
    let south = (place.lat + bounds.low.lat).unsigned_abs();
    let north = (place.lat + bounds.high.lat).unsigned_abs();
    south.max(north) / 20_000_000
}

#[tactic(auto, unfolding(crate::specs::Lengths::northward))]
fn least_north(bounds: &Bounds, place: Place) -> u64
    ensures { (other : Place) → IsInside bounds.now other → result ≤ northward place other }
{
    latitude_gap(bounds, place) * 11132 / 1000
}

#[tactic(auto, unfolding(crate::specs::Lengths::eastward))]
fn least_east(bounds: &Bounds, place: Place) -> u64
    ensures { (other : Place) → IsInside bounds.now other → result ≤ eastward place other }
{
    longitude_gap(bounds, place) * 11132 * width(steepest_degree(bounds, place)) / 10_000_000
}

/// A length in millimetres: no place inside the box is nearer.
pub fn least_mm(bounds: &Bounds, place: Place) -> u64
    ensures { (other : Place) → IsInside bounds.now other → result ≤ length_between place other }
{
    least_north(bounds, place).max(least_east(bounds, place))
}
